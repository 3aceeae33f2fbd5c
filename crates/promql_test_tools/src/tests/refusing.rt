//! What a server rejects of a query that these rules accept (docs/reference/targets.md).

use super::{Failed, columns, prints};
use promql_span::Target;
use promql_target::{Refusal, RefusalKind, first_refusal, refusals};
use std::alloc::Global;

/// A query, and the kind and the token of the first part that Prometheus 2.42 rejects. The answers are those of that server.
const REFUSALS: &str = r#"a{b="c"} => none
a{b="c" or d="e"} => or: or
a{b="c" or d="e" or f="g"} => or: or
{or="a"} => none
{a="b",or="c"} => none
a or b => none
{"a b"="c"} => name: "a b"
{"up"} => name: "up"
{"up",a="b"} => name: "up"
{a="b","up"} => name: "up"
{a="b",'c d'!~"e"} => name: 'c d'
sum by ("a b") (c) => name: "a b"
sum(c) without (a, `b`) => name: `b`
a + on ("b") c => name: "b"
a + on (b) group_left ("c") d => name: "c"
a + fill (1) b => fill: fill
a + on (b) fill_left (1) c => fill: fill_left
a > bool fill_right (1) b => fill: fill_right
fill + a => none
a + fill => none
a[5m] smoothed => mode: smoothed
rate(a[5m] anchored) => mode: anchored
rate(a{b="c"}[5m] anchored) => mode: anchored
smoothed + anchored => none
sum by (smoothed) (a) => none
a[300] => time: 300
a offset 300 => time: 300
a offset -300 => time: 300
a[5m] offset 300 => time: 300
a[5m:60] => time: 60
a[60:5m] => time: 60
a @ 5 offset 300 => time: 300
a @ start() offset 300 => time: 300
a @ 300 => none
offset offset 300 => time: 300
and offset 5m => none
and offset 300 => time: 300
and offset +5m => offset: +
a + or offset -5m => none
a and and offset 5m + 300 => none
a + on (b) unless offset +5m => offset: +
a * on (b) group_left or offset 5m => none
a{or="b"} offset 5m => none
sum by (and) (or) offset 300 => time: 300
offset + 300 => none
a and offset - 300 => none
a + on (b) offset + 300 => none
a > bool offset - 300 => none
a offset 5m + 300 => none
a offset -5m - 300 => none
5m => number: 5m
a > 1h30m => number: 1h30m
offset - 5m => number: 5m
a @ 5m => number: 5m
vector(5m) => number: 5m
a[293y] => long: 293y
a offset 106752d => long: 106752d
a[106751d23h47m16s854ms] => none
a[106751d23h47m16s855ms] => long: 106751d23h47m16s855ms
293y => long: 293y
a offset +5m => offset: +
a offset -5m => none
offset +a => none
a @ end() offset +5m => offset: +
step() => function: step
max_of(1, 2) => function: max_of
info(a) => function: info
start() => function: start
a @ start() => none
a @ end() => none
step => none
sum by (step) (info) => none
double_exponential_smoothing(a[5m], 0.5, 0.5) => function: double_exponential_smoothing
limitk(1, a) => aggregator: limitk
limit_ratio by (b) (0.5, a) => aggregator: limit_ratio
limit_ratio without (b) (0.5, a) => aggregator: limit_ratio
LIMITK(1, a) => aggregator: LIMITK
limitk => none
limitk + limit_ratio => none
+"a" => plus: +
-+"a" => plus: +
+("a") => plus: +
label_replace(a, +"b", "c", "d", "e") => plus: +
+a[5m] => plus: +
+{b="c"}[5m] => plus: +
+a{b="c"}[5m] => plus: +
rate(+(a[5m])) => plus: +
rate(+a[5m:1m]) => plus: +
rate(++a[5m]) => plus: +
+a => none
+a + b[5m:1m] => none
+sum(a) => none
a + b[5m:1m] => none
"a\ufffdb" => none
"a�b" => replacement: "a�b"
`�` => replacement: `�`
a{b="�"} => replacement: "�"
a{b="￼"} => none
atan2 => atan2: atan2
a + atan2 => atan2: atan2
(atan2) => atan2: atan2
a atan2 b => none
a atan2 atan2 => atan2: atan2
sum by (atan2) (b) => none
sum(a) by (b) atan2 c => none
a + on (b) atan2 => atan2: atan2
a{atan2="b"} => none
sum by (without) (a) => without: without
a + on (without) b => without: without
a{without="b"} => none
without + a => none
exp(Inf) => vector: exp
ln(-1) => vector: ln
log2(0) => vector: log2
log10(+1) => vector: log10
ln(vector(1)) => none
ln(1 * a) => none
ln(a) => none
sgn(vector(1)) => none
a + fill (1) step() => fill: fill
step() + a[300] => function: step
a{ => none
a{b="c" or d => or: or
 => none"#;

/// Queries, and what Prometheus 3 rejects of them.
const LATER: &str = r#"a{b="c" or d="e"} => or: or
{"a b"="c"} => none
a + fill (1) b => none
a[300] + 5m => none
a offset +5m => none
info(a) => none
limitk(1, a) => none
rate(a[5m] anchored) => none
atan2 => none
sum by (without) (a) => none
a[300] + b[293y] => long: 293y
rate(+a[5m]) => plus: +
"�" => replacement: "�"
exp(Inf) => vector: exp"#;

/// A short name of a kind.
fn name(kind: RefusalKind) -> &'static str {
    match kind {
        RefusalKind::OrGroup => "or",
        RefusalKind::QuotedName => "name",
        RefusalKind::Fill => "fill",
        RefusalKind::RangeMode => "mode",
        RefusalKind::NumberForTime => "time",
        RefusalKind::DurationForNumber => "number",
        RefusalKind::LongDuration => "long",
        RefusalKind::PlusAfterOffset => "offset",
        RefusalKind::LaterFunction => "function",
        RefusalKind::LaterAggregator => "aggregator",
        RefusalKind::PlusBeforeValue => "plus",
        RefusalKind::ReplacementCharacter => "replacement",
        RefusalKind::BareAtan2 => "atan2",
        RefusalKind::LabelWithout => "without",
        RefusalKind::NumberForVector => "vector",
    }
}

/// Queries, and all parts that Prometheus 2.42 rejects.
const ALL: &str = r#"a => none
step() + a[300] => function: step, time: 300
+a[5m] + +"b" + `�` => plus: +, plus: +, replacement: `�`
sum by (without, "c") (a{"b"="d" or e="f"}) => without: without, name: "c", name: "b", or: or
step() + $ + step() => function: step
 => none"#;

/// The name of the kind of a part that is rejected, and that part.
fn shown_refusal(alloc: Global, query: &str, refusal: Refusal) -> Result<String, Failed> {
    let Refusal { kind, span } = refusal;
    let part = query.get(span.start..span.end).ok_or(Failed)?;
    Ok(format!(in alloc; "{}: {part}", name(kind))?)
}

/// The first one.
fn shown(alloc: Global, target: Target, query: &str) -> Result<String, Failed> {
    match first_refusal(target, query) {
        Some(refusal) => shown_refusal(alloc, query, refusal),
        None => Ok(String::from_str(alloc, "none")?),
    }
}

/// All of them.
fn shown_all(alloc: Global, target: Target, query: &str) -> Result<String, Failed> {
    let mut text = String::new(alloc);
    for refusal in refusals(alloc, target, query)? {
        if !text.is_empty() {
            text.push_str(", ")?;
        }
        text.push_str(shown_refusal(alloc, query, refusal)?.as_str())?;
    }
    if text.is_empty() {
        text.push_str("none")?;
    }
    Ok(text)
}

#[test]
fn all_refusals_are_found(rt: HostRuntime) {
    for row in ALL.split('\n') {
        let (query, want) = columns(row);
        prints(&rt, shown_all(rt.alloc(), Target::Prometheus2, query), want);
        prints(&rt, shown_all(rt.alloc(), Target::Rules, query), "none");
    }
}

#[test]
fn first_refusals_are_found(rt: HostRuntime) {
    for row in REFUSALS.split('\n') {
        let (query, want) = columns(row);
        prints(&rt, shown(rt.alloc(), Target::Prometheus2, query), want);
        prints(&rt, shown(rt.alloc(), Target::Rules, query), "none");
    }
    for row in LATER.split('\n') {
        let (query, want) = columns(row);
        prints(&rt, shown(rt.alloc(), Target::Prometheus3, query), want);
    }
}
