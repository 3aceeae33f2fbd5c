//! What nodes and their parts say of themselves, and a copy of each node by itself.

use super::trees::{KINDS, grouped, is_copy, kind, new_box, number, operation, read};
use super::{Failed, holds, is_so, prints};
use promql_ast::{
    BinaryExpr, CheckError, Expr, Extension, NumberLiteral, Offset, RangeMode, VectorSelector,
};
use promql_kind::ValueType;
use promql_label::Matchers;
use promql_parser::parser::parse;
use promql_text::{DurationText, minute_duration};
use promql_token::ids::T_ADD;
use std::alloc::{AllocError, Global};

/// The operator of an expression.
fn binary(expr: &Expr) -> Result<&BinaryExpr, Failed> {
    match expr {
        Expr::Binary(e) => Ok(e),
        _ => Err(Failed),
    }
}

/// Labels of both lists of an operator.
const BOTH: [&str; 11] = ["a", "b", "c", "d", "e", "f", "g", "h", "i", "j", "k"];

/// `a + on (LABELS) group_left (LABELS) b`, which no check accepts.
fn joint_sum(alloc: Global) -> Result<Box<Expr>, CheckError> {
    let modifier = grouped(alloc, &BOTH, &BOTH)?;
    Ok(new_box(alloc, operation(alloc, T_ADD, Some(modifier))?)?)
}

/// Whether these are the labels of both lists.
fn are_both(labels: &[String]) -> bool {
    labels.len() == BOTH.len()
        && labels
            .iter()
            .zip(&BOTH)
            .all(|(label, want)| label.as_str() == *want)
}

/// Whether the operator has the labels of both lists in common.
fn has_both(alloc: Global, sum: &BinaryExpr) -> Result<bool, AllocError> {
    match sum.intersect_labels(alloc)? {
        Some(labels) => Ok(are_both(&labels)),
        None => Ok(false),
    }
}

/// Whether the operator's labels on both sides are joint.
fn is_joint(alloc: Global) -> Result<bool, Failed> {
    let expr = joint_sum(alloc)?;
    let sum = binary(&expr)?;
    let is_on = sum.is_matching_on() && sum.is_matching_labels_not_empty();
    Ok(is_on && sum.is_labels_joint() && !sum.return_bool() && has_both(alloc, sum)?)
}

/// Whether `a == bool b` has no labels.
fn has_no_labels(alloc: Global) -> Result<bool, Failed> {
    let expr = read(alloc, "a == bool b")?;
    let compared = binary(&expr)?;
    let is_on = compared.is_matching_on() || compared.is_matching_labels_not_empty();
    let is_plain = compared.return_bool() && !compared.is_labels_joint() && !is_on;
    Ok(is_plain && compared.intersect_labels(alloc)?.is_none())
}

#[test]
fn operators_tell_of_their_labels(rt: HostRuntime) {
    is_so(&rt, is_joint(rt.alloc()), "labels on both sides");
    is_so(&rt, has_no_labels(rt.alloc()), "no labels");
}

/// The types of the kinds.
const TYPES: [ValueType; 12] = [
    ValueType::Vector,
    ValueType::Vector,
    ValueType::Vector,
    ValueType::Vector,
    ValueType::Matrix,
    ValueType::Scalar,
    ValueType::String,
    ValueType::Vector,
    ValueType::Matrix,
    ValueType::Vector,
    ValueType::Vector,
    ValueType::Vector,
];

/// Whether the node has this type, and a value if it is a number.
fn has_type(alloc: Global, text: &str, value_type: ValueType) -> Result<bool, Failed> {
    let expr = kind(alloc, text)?;
    let has_value = expr.scalar_value().is_some();
    Ok(expr.value_type() == value_type && has_value == (text == "1.5"))
}

#[test]
fn kinds_have_types(rt: HostRuntime) {
    for (text, value_type) in KINDS.iter().zip(&TYPES) {
        is_so(&rt, has_type(rt.alloc(), text, *value_type), text);
    }
}

/// What the kinds are with a minus sign; a number has it by itself.
const NEGATED: [(&str, &str); 3] = [("1.5", "-1.5"), ("a", "-a"), ("(a)", "-(a)")];

/// Whether the expression with a minus sign prints this text, and has a value if it is a number.
fn is_negated(alloc: Global, text: &str, want: &str) -> Result<bool, Failed> {
    let negated = new_box(alloc, parse(alloc, text)?.negated(alloc)?)?;
    let has_value = negated.scalar_value().is_some();
    Ok(has_value == (text == "1.5") && negated.to_string(alloc)?.as_str() == want)
}

#[test]
fn expressions_are_negated(rt: HostRuntime) {
    for (text, want) in &NEGATED {
        is_so(&rt, is_negated(rt.alloc(), text, want), text);
    }
    let literal = -NumberLiteral::new(number("2"));
    holds(&rt, literal.val == number("-2"), "2");
}

/// Whether the selector of a name prints the name, and one without a name is another.
fn is_selector(alloc: Global, name: &str) -> Result<bool, Failed> {
    let named = VectorSelector::of_name(alloc, String::from_str(alloc, name)?);
    let nameless = VectorSelector::new(None, Matchers::empty(alloc));
    let is_other = nameless == VectorSelector::empty(alloc) && nameless != named;
    Ok(is_other && named.to_string(alloc)?.as_str() == name)
}

#[test]
fn selectors_of_names(rt: HostRuntime) {
    is_so(&rt, is_selector(rt.alloc(), "a"), "a");
}

#[test]
fn times_and_modes_print(rt: HostRuntime) {
    let alloc = rt.alloc();
    let minute = minute_duration();
    prints(&rt, DurationText(&minute).to_string(alloc), "1m");
    prints(&rt, Offset::Pos(minute).to_string(alloc), "1m");
    prints(&rt, Offset::Neg(minute).to_string(alloc), "-1m");
    holds(&rt, RangeMode::default() == RangeMode::Plain, "plain");
}

/// Whether the copy of the node by itself is the node.
fn is_node_copied(alloc: Global, expr: &Expr) -> Result<bool, AllocError> {
    match expr {
        Expr::Aggregate(e) => is_copy(e, e.try_clone(alloc)),
        Expr::Unary(e) => is_copy(e, e.try_clone(alloc)),
        Expr::Binary(e) => is_copy(e, e.try_clone(alloc)),
        Expr::Paren(e) => is_copy(e, e.try_clone(alloc)),
        Expr::Subquery(e) => is_copy(e, e.try_clone(alloc)),
        Expr::NumberLiteral(e) => Ok(*e == NumberLiteral::new(e.val)),
        Expr::StringLiteral(e) => is_copy(e, e.try_clone(alloc)),
        Expr::VectorSelector(e) => is_copy(e, e.try_clone(alloc)),
        Expr::MatrixSelector(e) => is_copy(e, e.try_clone(alloc)),
        Expr::Call(e) => is_copy(e, e.try_clone(alloc)),
        Expr::Extension(e) => is_copy(e, e.try_clone(alloc)),
    }
}

/// Whether the copy of a kind's node by itself is the node.
fn is_kind_copied(alloc: Global, text: &str) -> Result<bool, Failed> {
    let expr = kind(alloc, text)?;
    Ok(is_node_copied(alloc, &expr)?)
}

#[test]
fn nodes_by_themselves_are_copied(rt: HostRuntime) {
    for text in &KINDS {
        is_so(&rt, is_kind_copied(rt.alloc(), text), text);
    }
}

/// A text of 10,000 letters.
fn long_text(alloc: Global) -> Result<String, AllocError> {
    let mut text = String::new(alloc);
    for _ in 0..10_000 {
        text.push_str("x")?;
    }
    Ok(text)
}

/// Whether the copy of a node with a long name is the node.
fn is_long_name_copied(alloc: Global) -> Result<bool, AllocError> {
    let node = Extension {
        name: long_text(alloc)?,
        value_type: ValueType::Vector,
        children: Vec::new(alloc),
    };
    is_copy(&node, node.try_clone(alloc))
}

#[test]
fn long_names_are_copied(rt: HostRuntime) {
    is_so(&rt, is_long_name_copied(rt.alloc()), "a long name");
}
