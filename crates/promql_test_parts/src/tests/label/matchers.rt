//! Lists of matchers and their groups.

use crate::tests::{Failed, answers, holds, is_so, prints};
use promql_label::{MatchOp, Matcher, MatcherError, Matchers};
use promql_token::ids::T_EQL_REGEX;
use std::alloc::{AllocError, Global};
use std::test::Fail;

fn equal(alloc: Global, name: &str, value: &str) -> Result<Matcher, AllocError> {
    Matcher::new(alloc, MatchOp::Equal, name, value)
}

fn pattern(alloc: Global, name: &str, value: &str) -> Result<Matcher, MatcherError> {
    let Ok(name) = String::from_str(alloc, name) else {
        return Err(MatcherError::Memory);
    };
    let Ok(value) = String::from_str(alloc, value) else {
        return Err(MatcherError::Memory);
    };
    Matcher::new_matcher(alloc, T_EQL_REGEX, name, value)
}

/// How the matchers print, each after a space, and `|` before each group.
fn display_text(alloc: Global, list: &Matchers) -> Result<String, AllocError> {
    let mut text = display_texts(alloc, &list.matchers)?;
    for group in &list.or_matchers {
        text.push_str(" |")?;
        text.push_str(display_texts(alloc, group)?.as_str())?;
    }
    Ok(text)
}

fn display_texts(alloc: Global, matchers: &[Matcher]) -> Result<String, AllocError> {
    let mut text = String::new(alloc);
    for matcher in matchers {
        text.push(' ')?;
        text.push_str(matcher.to_string(alloc)?.as_str())?;
    }
    Ok(text)
}

/// The list of one matcher.
fn one_equal(alloc: Global, name: &str, value: &str) -> Result<Matchers, AllocError> {
    Matchers::one(alloc, equal(alloc, name, value)?)
}

/// The list of one pattern.
fn one_pattern(alloc: Global, name: &str, value: &str) -> Result<Matchers, Failed> {
    Ok(Matchers::one(alloc, pattern(alloc, name, value)?)?)
}

/// The matchers of these names and values.
fn all_equal(alloc: Global, rows: &[(&str, &str)]) -> Result<Vec<Matcher>, AllocError> {
    let mut matchers = Vec::new(alloc);
    for (name, value) in rows {
        matchers.push(equal(alloc, name, value)?)?;
    }
    Ok(matchers)
}

/// A matcher, and a group of one beside it.
fn beside(
    alloc: Global,
    name: &str,
    group_name: &str,
    value: &str,
) -> Result<Matchers, AllocError> {
    let group = all_equal(alloc, &[(group_name, value)])?;
    Ok(one_equal(alloc, name, "1")?.with_or_matchers(vec![in alloc; group]?))
}

/// The list with these names and values after it, those of `or` by `append_or`, the others by `append`.
fn grown(
    alloc: Global,
    list: Matchers,
    rows: &[(&str, &str, &str)],
) -> Result<Matchers, AllocError> {
    let mut list = list;
    for (word, name, value) in rows {
        let matcher = equal(alloc, name, value)?;
        list = if *word == "or" {
            list.append_or(alloc, matcher)?
        } else {
            list.append(matcher)?
        };
    }
    Ok(list)
}

/// What a list begins with.
#[derive(Clone, Copy)]
enum Start {
    /// No matcher.
    Empty,
    /// This name with this value.
    Equal(&'static str, &'static str),
    /// `a` with this pattern.
    Pattern(&'static str),
    /// This name with the value 1, and beside it a group of this name with this value.
    Beside(&'static str, &'static str, &'static str),
}

fn begun(alloc: Global, start: Start) -> Result<Matchers, Failed> {
    match start {
        Start::Empty => Ok(Matchers::empty(alloc)),
        Start::Equal(name, value) => Ok(one_equal(alloc, name, value)?),
        Start::Pattern(value) => one_pattern(alloc, "a", value),
        Start::Beside(name, group_name, value) => Ok(beside(alloc, name, group_name, value)?),
    }
}

/// What is appended to a list: `or` or `and`, a name and a value.
type Appended = &'static [(&'static str, &'static str, &'static str)];

fn list(alloc: Global, start: Start, rows: Appended) -> Result<Matchers, Failed> {
    Ok(grown(alloc, begun(alloc, start)?, rows)?)
}

/// Lists, how their parts are shown, and how they print.
const GROWN: [(Start, Appended, &str, &str); 8] = [
    (
        Start::Equal("a", "1"),
        &[("or", "b", "2"), ("and", "c", "3")],
        r#" | a="1" | b="2" c="3""#,
        r#"a="1" or b="2", c="3""#,
    ),
    (
        Start::Equal("a", "1"),
        &[("or", "b", "2"), ("and", "c", "3"), ("or", "d", "4")],
        r#" | a="1" | b="2" c="3" | d="4""#,
        r#"a="1" or b="2", c="3" or d="4""#,
    ),
    // What is beside groups is not printed.
    (
        Start::Beside("a", "b", "2"),
        &[],
        r#" a="1" | b="2""#,
        r#"b="2""#,
    ),
    (
        Start::Beside("a", "b", "2"),
        &[("and", "c", "3")],
        r#" a="1" | b="2" c="3""#,
        r#"b="2", c="3""#,
    ),
    (
        Start::Beside("x", "order", "1"),
        &[],
        r#" x="1" | order="1""#,
        r#"order="1""#,
    ),
    (Start::Empty, &[("and", "a", "1")], r#" a="1""#, r#"a="1""#),
    (Start::Empty, &[("or", "a", "1")], r#" | a="1""#, r#"a="1""#),
    (
        Start::Equal("b", "1"),
        &[("or", "c", "2"), ("and", "a b", "3")],
        r#" | b="1" | c="2" "a b"="3""#,
        r#"b="1" or c="2", "a b"="3""#,
    ),
];

fn shown_text(alloc: Global, start: Start, rows: Appended) -> Result<String, Failed> {
    Ok(display_text(alloc, &list(alloc, start, rows)?)?)
}

fn printed_text(alloc: Global, start: Start, rows: Appended) -> Result<String, Failed> {
    Ok(list(alloc, start, rows)?.to_string(alloc)?)
}

#[test]
fn or_begins_groups(rt: HostRuntime) {
    let alloc = rt.alloc();
    for (start, rows, shown, printed) in &GROWN {
        prints(&rt, shown_text(alloc, *start, rows), shown);
        prints(&rt, printed_text(alloc, *start, rows), printed);
    }
}

/// `a` beside a group and in it.
const TWICE: Appended = &[("and", "a", "3")];

/// Groups with the name `a` in each but one, and twice in the last.
const GROUPS: Appended = &[
    ("or", "a", "2"),
    ("or", "b", "3"),
    ("or", "a", "4"),
    ("or", "a", "5"),
    ("or", "a", "6"),
    ("and", "a", "7"),
];

/// Lists, a name, its matchers as they print, and the first value.
const FOUND: [(Start, Appended, &str, &str, Option<&str>); 5] = [
    (
        Start::Beside("a", "b", "2"),
        TWICE,
        "a",
        r#" a="1" a="3""#,
        Some("1"),
    ),
    (
        Start::Beside("a", "b", "2"),
        TWICE,
        "b",
        r#" b="2""#,
        Some("2"),
    ),
    (Start::Beside("a", "b", "2"), TWICE, "z", "", None),
    (Start::Beside("a", "b", "2"), TWICE, "", "", None),
    (
        Start::Equal("a", "1"),
        GROUPS,
        "a",
        r#" a="1" a="2" a="4" a="5" a="6" a="7""#,
        Some("1"),
    ),
];

/// The matchers of a name, as they print.
fn found_text(alloc: Global, list: &Matchers, name: &str) -> Result<String, AllocError> {
    display_texts(alloc, &list.find_matchers(alloc, name)?)
}

/// Whether these matchers of a name are found, and this value first.
fn is_found(
    alloc: Global,
    list: &Matchers,
    name: &str,
    want: &str,
    first: Option<&str>,
) -> Result<bool, AllocError> {
    let found = found_text(alloc, list, name)?;
    Ok(found.as_str() == want && list.find_matcher_value(name) == first)
}

#[test]
fn finds_in_groups_too(rt: HostRuntime) {
    let alloc = rt.alloc();
    for (start, rows, name, want, first) in &FOUND {
        match list(alloc, *start, rows) {
            Ok(list) => is_so(&rt, is_found(alloc, &list, name, want, *first), name),
            Err(_) => holds(&rt, false, "no list"),
        }
    }
}

/// Lists, and whether they match the empty text.
const EMPTY: [(Start, Appended, bool); 5] = [
    (Start::Equal("a", ""), &[], true),
    (Start::Equal("a", "1"), &[], false),
    (Start::Empty, &[], true),
    (Start::Pattern(".*"), &[], true),
    (Start::Pattern(".*"), &[("or", "b", "1")], false),
];

fn is_empty(alloc: Global, start: Start, rows: Appended) -> Result<bool, Failed> {
    Ok(list(alloc, start, rows)?.is_empty_matchers(alloc)?)
}

#[test]
fn empty_matchers(rt: HostRuntime) {
    for (start, rows, want) in &EMPTY {
        answers(&rt, is_empty(rt.alloc(), *start, rows), *want, "empty");
    }
}

/// Two groups, of which one has a pattern.
fn with_a_pattern(alloc: Global) -> Result<Matchers, Failed> {
    let list = one_equal(alloc, "a", "1")?;
    let list = list.append_or(alloc, pattern(alloc, "b", "2|3")?)?;
    Ok(grown(alloc, list, &[("and", "c", "3")])?)
}

/// Whether a copy of the list, grown by these rows, is the list.
fn is_copied(alloc: Global, rows: Appended) -> Result<bool, Failed> {
    let list = with_a_pattern(alloc)?;
    Ok(grown(alloc, list.try_clone(alloc)?, rows)? == list)
}

fn is_a_list_empty(alloc: Global) -> Result<bool, Failed> {
    Ok(with_a_pattern(alloc)? == Matchers::empty(alloc))
}

#[test]
fn copies_are_equal(rt: HostRuntime) {
    let alloc = rt.alloc();
    answers(&rt, is_copied(alloc, &[]), true, "a copy");
    let longer = is_copied(alloc, &[("and", "c", "3")]);
    answers(&rt, longer, false, "a longer one");
    answers(&rt, is_a_list_empty(alloc), false, "an empty one");
}

// Matchers as they print in a list without groups.
const PRINTED: [(&[(&str, &str)], &str); 6] = [
    (&[], ""),
    (&[("b", "1"), ("a b", "2")], r#""a b"="2",b="1""#),
    (&[("a", "1"), ("a", "1")], r#"a="1",a="1""#),
    (
        &[("c", "1"), ("a", "2"), ("b", "3"), ("a", "1"), ("c", "1")],
        r#"a="1",a="2",b="3",c="1",c="1""#,
    ),
    (
        &[("a", "1"), ("a", ""), ("B", "1"), ("a1", "")],
        r#"B="1",a1="",a="",a="1""#,
    ),
    (
        &[("a", "\\"), ("a", "\n"), ("a", "z"), ("a", "é")],
        r#"a="\\",a="\n",a="z",a="é""#,
    ),
];

fn sorted_text(alloc: Global, rows: &[(&str, &str)]) -> Result<String, AllocError> {
    Matchers::new(alloc, all_equal(alloc, rows)?).to_string(alloc)
}

/// `a=~"1"`, `a="1"` and `a!="1"`.
fn of_each_operator(alloc: Global) -> Result<Matchers, Failed> {
    let list = list(alloc, Start::Pattern("1"), &[("and", "a", "1")])?;
    Ok(list.append(Matcher::new(alloc, MatchOp::NotEqual, "a", "1")?)?)
}

fn operators_text(alloc: Global) -> Result<String, Failed> {
    Ok(of_each_operator(alloc)?.to_string(alloc)?)
}

#[test]
fn prints_in_byte_order(rt: HostRuntime) {
    let alloc = rt.alloc();
    for (rows, want) in &PRINTED {
        prints(&rt, sorted_text(alloc, rows), want);
    }
    prints(&rt, operators_text(alloc), r#"a!="1",a="1",a=~"1""#);
}

/// Whether so many pairs of `b` and `a` can be sorted.
fn sorts(alloc: Global, pairs: usize) -> Result<bool, AllocError> {
    let mut list = Matchers::empty(alloc);
    for _ in 0..pairs {
        list = grown(alloc, list, &[("and", "b", "1"), ("and", "a", "1")])?;
    }
    Ok(list.sort().is_ok())
}

#[test]
fn lists_of_all_sizes_are_sorted(rt: HostRuntime) {
    for pairs in &[0, 1, 10, 11, 17, 129, 4_097] {
        is_so(&rt, sorts(rt.alloc(), *pairs), "pairs");
    }
}

#[test]
fn prints_empty_groups(rt: HostRuntime) -> Result<(), Fail> {
    let alloc = rt.alloc();
    let empty = vec![in alloc; Vec::new(alloc), Vec::new(alloc)]?;
    let groups = Matchers::empty(alloc).with_or_matchers(empty);
    prints(&rt, groups.to_string(alloc), " or ");
    Ok(())
}

/// A group of one matcher.
fn group(alloc: Global, matcher: Matcher) -> Result<Vec<Matcher>, AllocError> {
    let mut group = Vec::new(alloc);
    group.push(matcher)?;
    Ok(group)
}

fn groups(alloc: Global, first: Matcher, last: Matcher) -> Result<Vec<Vec<Matcher>>, AllocError> {
    let mut groups = Vec::new(alloc);
    groups.push(group(alloc, first)?)?;
    groups.push(group(alloc, last)?)?;
    Ok(groups)
}

/// A pattern beside two groups of a pattern, of which the last has this value.
fn patterns_in_groups(alloc: Global, last: &str) -> Result<Matchers, Failed> {
    let first = pattern(alloc, "b", "x*|y")?;
    let groups = groups(alloc, first, pattern(alloc, "c", last)?)?;
    Ok(one_pattern(alloc, "a", "1*")?.with_or_matchers(groups))
}

/// Whether the patterns match the empty text once they are prepared, twice, and are the same.
fn is_prepared_empty(alloc: Global, last: &str) -> Result<bool, Failed> {
    let mut list = patterns_in_groups(alloc, last)?;
    list.prepare(alloc)?;
    list.prepare(alloc)?;
    let is_empty = list.is_empty_matchers(alloc)?;
    Ok(is_empty && list == patterns_in_groups(alloc, last)?)
}

#[test]
fn prepared_groups_match(rt: HostRuntime) {
    for (last, want) in &[(".{0,3}", true), ("z", false), ("(?i)z{ 0 }", true)] {
        answers(&rt, is_prepared_empty(rt.alloc(), last), *want, last);
    }
}
