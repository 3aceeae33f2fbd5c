//! One-line texts, copies and equality.

use super::trees::{KINDS, is_kind, is_read, kind, new_box, read};
use super::{Failed, answers, built_text, is_so, prints, shows};
use promql_ast::{CheckError, Expr, VectorSelector};
use promql_label::Matchers;
use promql_parser::parser::{ParseError, parse};
use std::alloc::{AllocError, Global};

/// Whether the expression prints this text.
fn is_printed(alloc: Global, expr: &Expr, text: &str) -> Result<bool, AllocError> {
    Ok(expr.to_string(alloc)?.as_str() == text)
}

/// Whether the copy of a kind is the kind, and both print this text.
fn is_copied(alloc: Global, text: &str) -> Result<bool, Failed> {
    let expr = kind(alloc, text)?;
    let copy = new_box(alloc, expr.try_clone(alloc)?)?;
    Ok(*copy == *expr && is_printed(alloc, &expr, text)? && is_printed(alloc, &copy, text)?)
}

#[test]
fn copies_are_equal_and_print_alike(rt: HostRuntime) {
    for text in &KINDS {
        is_so(&rt, is_copied(rt.alloc(), text), text);
    }
}

/// Whether both texts are of one kind.
fn is_one_kind(alloc: Global, one: &str, other: &str) -> Result<bool, Failed> {
    is_kind(alloc, &*kind(alloc, one)?, other)
}

#[test]
fn kinds_are_not_equal(rt: HostRuntime) {
    for (i, one) in KINDS.iter().enumerate() {
        for (j, other) in KINDS.iter().enumerate() {
            answers(&rt, is_one_kind(rt.alloc(), one, other), i == j, one);
        }
    }
}

/// Selectors that differ in one part.
const DIFFERENT: [(&str, &str); 7] = [
    ("a", "b"),
    ("a", "a offset 1m"),
    ("a offset 1m", "a offset -1m"),
    ("a", "a @ start()"),
    ("a @ start()", "a @ end()"),
    ("a[5m]", "a[5m] smoothed"),
    ("a[5m]", "a[6m]"),
];

/// Whether both texts give one tree.
fn is_same(alloc: Global, one: &str, other: &str) -> Result<bool, ParseError> {
    is_read(alloc, &*read(alloc, one)?, other)
}

/// Whether a selector without a name is that of a text.
fn is_nameless(alloc: Global, text: &str) -> Result<bool, ParseError> {
    let nameless = new_box(alloc, Expr::from(VectorSelector::empty(alloc)))?;
    is_read(alloc, &nameless, text)
}

#[test]
fn each_part_tells_selectors_apart(rt: HostRuntime) {
    for (one, other) in &DIFFERENT {
        answers(&rt, is_same(rt.alloc(), one, other), false, other);
    }
    answers(&rt, is_nameless(rt.alloc(), "a"), false, "a");
}

/// `a` with an empty group of matchers.
fn of_empty_group(alloc: Global) -> Result<Expr, CheckError> {
    let name = String::from_str(alloc, "a")?;
    let empty = Matchers::empty(alloc).with_or_matchers(vec![in alloc; Vec::new(alloc)]?);
    Ok(Expr::new_vector_selector(Some(name), empty))
}

#[test]
fn an_empty_group_is_not_printed(rt: HostRuntime) {
    let alloc = rt.alloc();
    shows(&rt, alloc, of_empty_group(alloc), "a");
}

/// The expression of a text under a minus sign.
fn under_minus(alloc: Global, text: &str) -> Result<String, Failed> {
    let expr = Expr::new_unary_expr(alloc, parse(alloc, text)?);
    Ok(built_text(alloc, expr)?)
}

/// The selector of a name, negated.
fn negated_selector(alloc: Global, name: &str) -> Result<String, AllocError> {
    let selector = VectorSelector::of_str(alloc, name)?.negated(alloc)?;
    selector.to_string(alloc)
}

#[test]
fn powers_and_selectors_are_negated(rt: HostRuntime) {
    prints(&rt, under_minus(rt.alloc(), "5 ^ 2"), "-5 ^ 2");
    prints(&rt, negated_selector(rt.alloc(), "a"), "-a");
}

/// Texts of trees that are not normal, with the lines that they print.
const NOT_NORMAL: [(&str, &str); 7] = [
    (r#"a{c="1",b="2"}"#, r#"a{b="2",c="1"}"#),
    (r#"a{c="1",b="2"}[5m]"#, r#"a{b="2",c="1"}[5m]"#),
    ("sum by () (a)", "sum(a)"),
    ("topk by () (2, sum by () (a))", "topk(2, sum(a))"),
    ("a + ignoring () b", "a + b"),
    (
        r#"(rate(a{c="1",b="2"}[5m]))"#,
        r#"(rate(a{b="2",c="1"}[5m]))"#,
    ),
    ("-(sum by () (a))", "-(sum(a))"),
];

/// Whether the normal form of a text's tree is the tree of this line.
fn is_normal_form(alloc: Global, text: &str, line: &str) -> Result<bool, ParseError> {
    let normal = new_box(alloc, read(alloc, text)?.normalized(alloc)?)?;
    is_read(alloc, &normal, line)
}

#[test]
fn normal_forms_are_read_of_printed_lines(rt: HostRuntime) {
    for (text, line) in &NOT_NORMAL {
        is_so(&rt, is_normal_form(rt.alloc(), text, line), text);
        answers(&rt, is_same(rt.alloc(), text, line), false, text);
    }
}

/// The fields of a text's tree.
fn fields(alloc: Global, text: &str) -> Result<String, Failed> {
    let expr = read(alloc, text)?;
    Ok(format!(in alloc; "{:?}", *expr)?)
}

#[test]
fn trees_are_shown_field_by_field(rt: HostRuntime) {
    let want = r#"Paren(ParenExpr { expr: StringLiteral(StringLiteral { val: "a" }) })"#;
    prints(&rt, fields(rt.alloc(), r#"("a")"#), want);
}
