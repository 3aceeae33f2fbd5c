//! Modifiers: their text, their labels and their copies.

use crate::tests::{answers, holds, is_so, prints};
use promql_kind::{BinModifier, LabelModifier, VectorMatchCardinality, VectorMatchFillValues};
use promql_text::{Number, parse_str_radix};
use std::alloc::{AllocError, Global};

/// The card by its word, the matching word, whether there is `bool`, the values of both sides; and the text.
type Case = (
    &'static str,
    &'static str,
    bool,
    Option<i64>,
    Option<i64>,
    &'static str,
);

const PRINTED: [Case; 15] = [
    ("", "", false, None, None, ""),
    ("many", "", false, None, None, ""),
    ("", "", true, None, None, " bool"),
    ("", "on", true, None, None, " bool on (a)"),
    ("", "ignoring", false, None, None, " ignoring (a)"),
    ("", "on none", false, None, None, " on ()"),
    ("", "ignoring none", false, None, None, ""),
    (
        "left",
        "ignoring none",
        false,
        None,
        None,
        " ignoring () group_left (a, inf_)",
    ),
    (
        "right",
        "on",
        false,
        None,
        None,
        " on (a) group_right (a, inf_)",
    ),
    ("left", "", false, None, None, " group_left (a, inf_)"),
    (
        "",
        "",
        false,
        Some(1),
        Some(2),
        " fill_left (1) fill_right (2)",
    ),
    ("", "", false, Some(-3), Some(-3), " fill (-3)"),
    ("", "", false, Some(0), None, " fill_left (0)"),
    ("", "", false, None, Some(7), " fill_right (7)"),
    (
        "right",
        "on none",
        true,
        Some(1),
        Some(1),
        " bool on () group_right (a, inf_) fill (1)",
    ),
];

fn card(alloc: Global, word: &str) -> Result<VectorMatchCardinality, AllocError> {
    let labels = ["a", "inf_"].to_vec(alloc)?;
    match word {
        "left" => VectorMatchCardinality::many_to_one(alloc, labels),
        "right" => VectorMatchCardinality::one_to_many(alloc, labels),
        "many" => Ok(VectorMatchCardinality::ManyToMany),
        _ => Ok(VectorMatchCardinality::OneToOne),
    }
}

fn matching(alloc: Global, word: &str) -> Result<Option<LabelModifier>, AllocError> {
    Ok(match word {
        "on" => Some(LabelModifier::include(alloc, ["a"].to_vec(alloc)?)?),
        "on none" => Some(LabelModifier::include(alloc, Vec::new(alloc))?),
        "ignoring" => Some(LabelModifier::exclude(alloc, ["a"].to_vec(alloc)?)?),
        "ignoring none" => Some(LabelModifier::exclude(alloc, Vec::new(alloc))?),
        _ => None,
    })
}

fn fills(lhs: Option<i64>, rhs: Option<i64>) -> VectorMatchFillValues {
    let mut values = VectorMatchFillValues::default();
    if let Some(lhs) = lhs {
        values = values.with_lhs(Number::from_i64(lhs));
    }
    if let Some(rhs) = rhs {
        values = values.with_rhs(Number::from_i64(rhs));
    }
    values
}

fn modifier(alloc: Global, case: &Case) -> Result<BinModifier, AllocError> {
    let matched = BinModifier::default().with_matching(matching(alloc, case.1)?);
    let filled = matched.with_fill_values(fills(case.3, case.4));
    Ok(
        filled
            .with_return_bool(case.2)
            .with_card(card(alloc, case.0)?),
    )
}

/// How the modifier prints.
fn display_text(alloc: Global, case: &Case) -> Result<String, AllocError> {
    modifier(alloc, case)?.to_string(alloc)
}

fn is_copied(alloc: Global, case: &Case) -> Result<bool, AllocError> {
    let modifier = modifier(alloc, case)?;
    Ok(modifier.try_clone(alloc)? == modifier)
}

/// Whether the modifiers of two cases are equal.
fn is_equal(alloc: Global, one: &Case, other: &Case) -> Result<bool, AllocError> {
    let one = modifier(alloc, one)?;
    Ok(one == modifier(alloc, other)?)
}

#[test]
fn modifiers_print_and_differ_by_each_part(rt: HostRuntime) {
    let alloc = rt.alloc();
    for (i, one) in PRINTED.iter().enumerate() {
        prints(&rt, display_text(alloc, one), one.5);
        is_so(&rt, is_copied(alloc, one), one.5);
        for (j, other) in PRINTED.iter().enumerate() {
            answers(&rt, is_equal(alloc, one, other), i == j, one.5);
        }
    }
}

/// Whether the copy was made and is the value.
fn is_copy<T: PartialEq + Drop>(
    value: &T,
    copy: Result<T, AllocError>,
) -> Result<bool, AllocError> {
    Ok(copy? == *value)
}

fn is_card_copied(alloc: Global, word: &str) -> Result<bool, AllocError> {
    let card = card(alloc, word)?;
    is_copy(&card, card.try_clone(alloc))
}

fn is_matching_copied(alloc: Global, word: &str) -> Result<bool, AllocError> {
    match &matching(alloc, word)? {
        Some(labels) => is_copy(labels, labels.try_clone(alloc)),
        None => Ok(false),
    }
}

#[test]
fn cards_and_matching_labels_are_copied(rt: HostRuntime) {
    for word in &["", "many", "left", "right"] {
        is_so(&rt, is_card_copied(rt.alloc(), word), word);
    }
    for word in &["on", "on none", "ignoring", "ignoring none"] {
        is_so(&rt, is_matching_copied(rt.alloc(), word), word);
    }
}

#[test]
fn modifiers_have_a_word_for_bool(rt: HostRuntime) {
    let with = BinModifier::default().with_return_bool(true);
    holds(&rt, with.bool_str() == "bool ", "bool");
    holds(&rt, BinModifier::default().bool_str() == "", "none");
}

/// `on (a) group_left (a, inf_)`
const BOTH: Case = ("left", "on", false, None, None, "a");

/// `on () group_right (a, inf_)`
const APART: Case = ("right", "on none", false, None, None, "");

/// `ignoring (a)`
const ALONE: Case = ("", "ignoring", false, None, None, "none");

/// The joint labels of a modifier with a space between each two, or `none`.
fn joint_labels(alloc: Global, case: &Case) -> Result<String, AllocError> {
    match modifier(alloc, case)?.intersect_labels(alloc)? {
        Some(labels) => spaced(alloc, &labels),
        None => String::from_str(alloc, "none"),
    }
}

fn spaced(alloc: Global, labels: &[String]) -> Result<String, AllocError> {
    let mut text = String::new(alloc);
    for label in labels {
        if !text.is_empty() {
            text.push(' ')?;
        }
        text.push_str(label.as_str())?;
    }
    Ok(text)
}

/// Whether the labels of both lists are joint, the word is `on`, and it has labels.
fn are_labels(alloc: Global, case: &Case, want: [bool; 3]) -> Result<bool, AllocError> {
    let modifier = modifier(alloc, case)?;
    let is_joint = modifier.is_labels_joint() == want[0];
    let is_on = modifier.is_matching_on() == want[1];
    Ok(is_joint && is_on && modifier.is_matching_labels_not_empty() == want[2])
}

#[test]
fn joint_labels_are_found(rt: HostRuntime) {
    let alloc = rt.alloc();
    for case in &[BOTH, APART, ALONE] {
        prints(&rt, joint_labels(alloc, case), case.5);
    }
    is_so(&rt, are_labels(alloc, &BOTH, [true, true, true]), "both");
    let apart = are_labels(alloc, &APART, [false, true, false]);
    is_so(&rt, apart, "apart");
    let alone = are_labels(alloc, &ALONE, [false, false, true]);
    is_so(&rt, alone, "alone");
}

fn number(text: &str) -> Number {
    parse_str_radix(text).unwrap_or(Number::Inf)
}

/// The number of a text on both sides.
fn filled(text: &str) -> VectorMatchFillValues {
    VectorMatchFillValues::new(number(text), number(text))
}

#[test]
fn fill_values_that_are_no_number_are_equal(rt: HostRuntime) {
    holds(&rt, filled("nan") == filled("nan"), "nan");
    let modifier = BinModifier::default().with_fill_values(filled("nan"));
    prints(&rt, modifier.to_string(rt.alloc()), " fill (NaN)");
}
