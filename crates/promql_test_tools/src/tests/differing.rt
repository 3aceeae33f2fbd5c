//! What Prometheus reads otherwise of a query (docs/reference/programs.md, "Targets").

use super::{Failed, columns, prints};
use promql_span::limits::Limits;
use promql_span::{Difference, DifferenceKind, Printed, Target};
use std::alloc::Global;

/// A query, and the kind and the part of its first difference. The answers are those of a Prometheus 2.42, to which the written and the
/// printed query were given, but where a row says that one is found too many.
const DIFFERENCES: &str = r#"foo{a="b"} => none
1 / -0.0 => zero: -
-0 => zero: -
(-0) => zero: -
2 * -0x0 => zero: -
foo > bool -0 => zero: -
1 - -0 => zero: -
+-0 => zero: -
-+0 => zero: -
topk(-0, foo) => zero: -
sum(foo, -.0) => zero: -
foo atan2 -0 => zero: -
foo and -0 => zero: -
and -0 => none
(or) - 0 + (unless) - 0 => none
foo + atan2 - 0 => none
foo and and - 0 => none
foo and and and -0 => zero: -
1 - 0 => none
foo{} - 0 => none
foo[5m] - 0 => none
(1) - 0 => none
"a" - 0 => none
5m - 0 => none
-1 => none
-0.1 => none
-foo => none
-(0) => none
-0 ^ 2 => none
foo @ -0 => none
-0 ^ => none
-0 * 2 => zero: -
foo @ 1.0005 => millisecond: @
foo @ -1.0005 => millisecond: @
foo @ + 1.0005 => millisecond: @
foo @ 40005e-4 => millisecond: @
foo @ 1.005 => none
foo @ 1609746000.125 => none
foo @ 1609746000 => none
foo @ start() => none
foo @ end() => none
1.0005 => none
foo{a="\xc3\xa9"} => byte: \xc3
foo{a="b", c='\303'} => byte: \303
foo{a="\x41"} => none
foo{a=`\xc3`} => none
foo{a="\ufffd"} => replacement: "\ufffd"
foo{a='\UFFFD'} => replacement: '\UFFFD'
foo{a='b\uFfFd'} => replacement: 'b\uFfFd'
foo{a="\U0000fffd"} => replacement: "\U0000fffd"
foo{a="\u0000fffd"} => replacement: "\u0000fffd"
foo{a=`\ufffd`} => none
foo{a="ufffd"} => none
foo{a="\ufff"} => none
timestamp(+foo) => plus: timestamp
timestamp ( ( + foo ) ) => plus: timestamp
1 + timestamp(+(foo)) => plus: timestamp
timestamp(++foo) => plus: timestamp
timestamp(foo) => none
timestamp(-+foo) => none
timestamp(foo + foo) => none
timestamp + foo => none
absent(+foo) => plus: absent
absent_over_time(+foo[5m]) => none
rate(+foo[5m]) => none
Timestamp(+foo) => none
absent(foo{a="c",a!~"b"}) => label: absent
absent({a!="b", a="c"}) => label: absent
absent((foo{b="b",a="c",c=~"d",a=~"c"})) => label: absent
absent_over_time(foo{a="c",a!="b"}[5m]) => label: absent_over_time
absent(foo{a="c",b="c"}) => none
absent(foo{a!="c",a!="b"}) => none
absent(foo{a=~"c",a!~"b"}) => none
absent(foo{"a"="c",a!="b"}) => label: absent
absent(foo{a="c","b"!="b"}) => label: absent
absent(foo{a="c",a="c"}) => label: absent
absent(foo{a="b"}, {a!="c"}) => none
absent(foo) + {a="b",a!="c"} => none
absent(sum({a="b",a!="c"})) => none
absent => none
sum(foo{a="c",a!~"b"}) => none
-0 + "\xc3" => zero: -
"\xc3" + -0 => byte: \xc3
-0 + $ => zero: -
foo{ => none
 => none"#;

/// A short name of a kind.
fn name(kind: DifferenceKind) -> &'static str {
    match kind {
        DifferenceKind::ByteEscape => "byte",
        DifferenceKind::NegativeZero => "zero",
        DifferenceKind::PartOfMillisecond => "millisecond",
        DifferenceKind::ReplacementEscape => "replacement",
        DifferenceKind::Plus => "plus",
        DifferenceKind::RepeatedLabel => "label",
    }
}

/// Queries as above, where they are laid out.
const LAID_OUT: &str = r#"1 / -0.0 => none
foo @ 1.0005 => none
timestamp(+foo) => none
-0 + absent(+foo{a="b"}) => none
-0 + "\xc3" => byte: \xc3
+{a="\ufffd"} => replacement: "\ufffd""#;

/// A query whose matchers a layout may sort.
const MATCHERS: &str = r#"-0 + absent(foo{a="b",a!="b"}) + "\xc3""#;

/// Queries, and all parts that are read otherwise.
const ALL: &str = r#"foo => none
-0 + "\xc3" - 0 => zero: -, byte: \xc3
"\xc3" + "a\xc3\xa9" + '\303' => byte: \xc3, byte: \xc3, byte: \303
(-0) + (-0) + "\ufffd" => zero: -, zero: -, replacement: "\ufffd"
absent(+foo{a="b",a!="c"}) @ 1.0005 => plus: absent, millisecond: @
timestamp(+foo) + absent(foo{a="b",a!="c"}) => plus: timestamp, label: absent
-0 + $ + -0 => zero: -"#;

/// What reads a query that is printed so.
fn limits(target: Target, printed: Printed) -> Limits {
    Limits {
        target,
        printed,
        ..Limits::default()
    }
}

/// The name of the kind of a difference, and the text of its part.
fn shown_difference(alloc: Global, query: &str, found: Difference) -> Result<String, Failed> {
    let part = query.get(found.span.start..found.span.end).ok_or(Failed)?;
    Ok(format!(in alloc; "{}: {part}", name(found.kind))?)
}

/// The first difference.
fn shown(alloc: Global, printed: Printed, query: &str) -> Result<String, Failed> {
    match limits(Target::Prometheus2, printed).difference(alloc, query)? {
        Some(found) => shown_difference(alloc, query, found),
        None => Ok(String::from_str(alloc, "none")?),
    }
}

/// All differences.
fn shown_all(alloc: Global, target: Target, query: &str) -> Result<String, Failed> {
    let mut text = String::new(alloc);
    for found in limits(target, Printed::Tree).differences(alloc, query)? {
        if !text.is_empty() {
            text.push_str(", ")?;
        }
        text.push_str(shown_difference(alloc, query, found)?.as_str())?;
    }
    if text.is_empty() {
        text.push_str("none")?;
    }
    Ok(text)
}

#[test]
fn all_differences_are_found(rt: HostRuntime) {
    for row in ALL.split('\n') {
        let (query, want) = columns(row);
        prints(&rt, shown_all(rt.alloc(), Target::Prometheus3, query), want);
        prints(&rt, shown_all(rt.alloc(), Target::Rules, query), "none");
    }
}

#[test]
fn first_differences_are_found(rt: HostRuntime) {
    for row in DIFFERENCES.split('\n') {
        let (query, want) = columns(row);
        prints(&rt, shown(rt.alloc(), Printed::Tree, query), want);
    }
    for row in LAID_OUT.split('\n') {
        let (query, want) = columns(row);
        prints(&rt, shown(rt.alloc(), Printed::Layout, query), want);
        prints(&rt, shown(rt.alloc(), Printed::SortedLayout, query), want);
    }
    prints(
        &rt,
        shown(rt.alloc(), Printed::Layout, MATCHERS),
        "byte: \\xc3",
    );
    prints(
        &rt,
        shown(rt.alloc(), Printed::SortedLayout, MATCHERS),
        "label: absent",
    );
}

/// A call of `absent` with so many matchers of as many labels, and one matcher more.
fn many_matchers(alloc: Global, count: u32, last: &str) -> Result<String, Failed> {
    let mut query = String::from_str(alloc, "absent({")?;
    for number in 0..count {
        let matcher = format!(in alloc; "label_{number}=\"b\",")?;
        query.push_str(matcher.as_str())?;
    }
    query.push_str(last)?;
    query.push_str("})")?;
    Ok(query)
}

/// What is found there.
fn shown_of_many(alloc: Global, count: u32, last: &str) -> Result<String, Failed> {
    let query = many_matchers(alloc, count, last)?;
    shown(alloc, Printed::Tree, query.as_str())
}

#[test]
fn labels_are_compared_among_many(rt: HostRuntime) {
    for count in [1, 2, 16, 40, 256, 1_000] {
        prints(
            &rt,
            shown_of_many(rt.alloc(), count, "label_0!=\"c\""),
            "label: absent",
        );
        prints(
            &rt,
            shown_of_many(rt.alloc(), count, "other!=\"c\""),
            "none",
        );
    }
}
