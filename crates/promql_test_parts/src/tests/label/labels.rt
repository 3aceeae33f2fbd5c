//! Lists of labels.

use crate::tests::{answers, prints};
use promql_label::Labels;
use std::alloc::{AllocError, Global};

// Labels, and their list as it prints.
const PRINTED: [(&[&str], &str); 14] = [
    (&[], ""),
    (&["by"], "by"),
    (&["_a1", "B"], "_a1, B"),
    (
        &["inf", "a b", "NaN", "infx"],
        r#""inf", "a b", "NaN", infx"#,
    ),
    (
        &["Inf", "INF", "nan", "Infinity"],
        r#""Inf", "INF", "nan", Infinity"#,
    ),
    (&["a:b"], r#""a:b""#),
    (&["1a"], r#""1a""#),
    (&[""], r#""""#),
    (&["", ""], r#""", """#),
    (&["\"\\\n"], r#""\"\\\n""#),
    (&["\r\t\0'`"], "\"\\r\\t\0'`\""),
    (&["é"], r#""é""#),
    (&["ok", "日本\n", "z"], "ok, \"日本\\n\", z"),
    (&["😀\"é"], r#""😀\"é""#),
];

// Two lists, and their common labels as they print.
const COMMON: [(&[&str], &[&str], &str); 13] = [
    (&["foo"], &["bar"], ""),
    (&["foo"], &["foo", "bar"], "foo"),
    (&["foo", "bar", "foo"], &["bar", "foo"], "foo, bar"),
    (&["a", "b", "c"], &["c", "b", "a"], "a, b, c"),
    (&["a", "a", "b", "b", "a"], &["b", "b"], "b"),
    (&["a"], &["A"], ""),
    (&["", "a"], &["", ""], r#""""#),
    (&[], &["a"], ""),
    (&["a"], &[], ""),
    (
        &["a", "b", "c", "d", "e", "f", "g", "h", "i", "j", "k"],
        &["k", "j", "i", "h", "g", "f", "e", "d", "c", "b", "a"],
        "a, b, c, d, e, f, g, h, i, j, k",
    ),
    (
        &["a", "b", "c", "d", "e", "f", "g", "h", "i", "j", "k", "h"],
        &["l", "k", "m", "n", "o", "p", "q", "h"],
        "h, k",
    ),
    (
        &[
            "a", "b", "c", "d", "e", "f", "g", "h", "i", "j", "k", "l", "m", "n", "o", "p", "q",
            "b", "a",
        ],
        &[
            "A", "q", "C", "D", "E", "F", "G", "H", "I", "J", "K", "L", "M", "b", "O", "P", "Q",
            "q", "",
        ],
        "b, q",
    ),
    (
        &[
            "a", "b", "c", "d", "e", "f", "g", "h", "i", "j", "k", "l", "m", "n", "o", "p", "q",
        ],
        &[
            "aa", "ab", "ac", "ad", "ae", "af", "ag", "ah", "ai", "aj", "ak", "al", "am", "an",
            "ao", "ap", "",
        ],
        "",
    ),
];

fn list(alloc: Global, labels: &[&str]) -> Result<Labels, AllocError> {
    Labels::new(alloc, labels.to_vec(alloc)?)
}

fn display_text(alloc: Global, labels: &[&str]) -> Result<String, AllocError> {
    list(alloc, labels)?.to_string(alloc)
}

#[test]
fn labels_print(rt: HostRuntime) {
    for (labels, text) in &PRINTED {
        prints(&rt, display_text(rt.alloc(), labels), text);
    }
}

fn is_empty(alloc: Global, labels: &[&str]) -> Result<bool, AllocError> {
    Ok(list(alloc, labels)?.is_empty())
}

#[test]
fn a_list_is_empty_without_labels(rt: HostRuntime) {
    answers(&rt, is_empty(rt.alloc(), &[]), true, "no label");
    answers(&rt, is_empty(rt.alloc(), &[""]), false, "one label");
}

/// The common labels of two lists, as they print.
fn common(alloc: Global, labels: &[&str], others: &[&str]) -> Result<String, AllocError> {
    let others = list(alloc, others)?;
    list(alloc, labels)?
        .intersect(alloc, &others)?
        .to_string(alloc)
}

/// Whether two lists have a common label.
fn is_joint(alloc: Global, labels: &[&str], others: &[&str]) -> Result<bool, AllocError> {
    let others = list(alloc, others)?;
    Ok(list(alloc, labels)?.is_joint(&others))
}

#[test]
fn common_labels_are_found(rt: HostRuntime) {
    let alloc = rt.alloc();
    for (labels, others, both) in &COMMON {
        prints(&rt, common(alloc, labels, others), both);
        let found = is_joint(alloc, labels, others);
        answers(&rt, found, !both.is_empty(), both);
    }
}

/// The list of `foo` and `bar`, each appended.
fn foo_and_bar(alloc: Global) -> Result<Labels, AllocError> {
    let one = list(alloc, &[])?.append(String::from_str(alloc, "foo")?)?;
    one.append(String::from_str(alloc, "bar")?)
}

/// Whether the list of `foo` and `bar` is the list of these labels.
fn is_foo_and_bar(alloc: Global, labels: &[&str]) -> Result<bool, AllocError> {
    let found = foo_and_bar(alloc)?;
    Ok(found == list(alloc, labels)?)
}

fn is_copied(alloc: Global) -> Result<bool, AllocError> {
    let labels = foo_and_bar(alloc)?;
    Ok(labels.try_clone(alloc)? == labels)
}

// Lists that differ from `foo, bar`.
const OTHERS: [&[&str]; 3] = [&["bar", "foo"], &["foo"], &[]];

#[test]
fn labels_are_appended_and_copied(rt: HostRuntime) {
    let alloc = rt.alloc();
    answers(&rt, is_foo_and_bar(alloc, &["foo", "bar"]), true, "foo");
    answers(&rt, is_copied(alloc), true, "a copy");
    for others in &OTHERS {
        answers(&rt, is_foo_and_bar(alloc, others), false, "another");
    }
}

/// So many labels, each with its number.
fn numbered(alloc: Global, count: usize) -> Result<Labels, AllocError> {
    let mut names = Vec::with_capacity(alloc, count)?;
    for number in 0..count {
        names.push(format!(in alloc; "l{number}")?)?;
    }
    Ok(Labels { labels: names })
}

/// Whether two lists of so many numbered labels have them all in common.
fn has_all_in_common(alloc: Global, count: usize) -> Result<bool, AllocError> {
    let labels = numbered(alloc, count)?;
    let others = numbered(alloc, count)?;
    let both = labels.intersect(alloc, &others)?;
    Ok(labels.is_joint(&others) && both == labels)
}

#[test]
fn many_labels_have_all_in_common(rt: HostRuntime) {
    let found = has_all_in_common(rt.alloc(), 66_000);
    answers(&rt, found, true, "66,000 labels");
}
