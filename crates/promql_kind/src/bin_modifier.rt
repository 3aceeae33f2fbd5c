//! Modifiers of binary expressions: docs/reference/tree.md, "Modifiers", and docs/reference/printing.md, "Modifiers".

ghost use Rattle.std.specs.Prelude.{◌≡◌, ◌≢◌, ◌↔◌, ◌++◌, [], false, IsTrue, Some, None, IfOk, codes, if◌then◌else◌, map, option_map, string_bytes};
ghost use Rattle.std.specs.Fmt.{WritesStyledOnOk};
ghost use Rattle.std.specs.Option.{IsSomeAnd};
ghost use Rattle.promql_text.specs.NumberText.{number_text};
ghost use Rattle.promql_label.specs.Labels.{labels_of, labels_text};
ghost use Rattle.promql_kind.specs.Modifiers as spec;
ghost use Rattle.promql_kind.specs.ModifierText.{bool_text, matched_text, grouping_text, fills_text, modifier_text};
ghost use Rattle.promql_kind.specs.ModifierViews.{clause_of, cardinality_of, matching_of};

use crate::cardinality::VectorMatchCardinality;
use crate::fill_values::VectorMatchFillValues;
use crate::label_modifier::LabelModifier;
use promql_label::Labels;
use promql_text::Number;
use std::alloc::{AllocError, Global};
use std::fmt;
use std::fmt::Display;

/// How the sides of a binary expression match.
#[derive(Debug, Drop, PartialEq, Eq, Hash)]
pub struct BinModifier {
    /// How many elements match how many, where both sides are vectors.
    pub card: VectorMatchCardinality,
    /// The labels after `on` or `ignoring`.
    pub matching: Option<LabelModifier>,
    /// Whether a comparison evaluates to 0 or 1 in place of filtering: `bool`.
    pub return_bool: bool,
    /// The values for elements that match nothing.
    pub fill_values: VectorMatchFillValues,
}

impl Default for BinModifier {
    ghost is_default = { λ m. matching_of m
        ≡ spec.matching spec.one_to_one None false (spec.fills None None) };

    /// One to one, and nothing else.
    fn default() -> BinModifier {
        BinModifier {
            card: VectorMatchCardinality::OneToOne,
            matching: None,
            return_bool: false,
            fill_values: VectorMatchFillValues::default(),
        }
    }
}

impl BinModifier {
    /// The same modifier with this cardinality.
    pub fn with_card(self, card: VectorMatchCardinality) -> BinModifier
        ensures { result ≡ record self { card = card } }
    {
        BinModifier {
            card,
            matching: self.matching,
            return_bool: self.return_bool,
            fill_values: self.fill_values,
        }
    }

    /// The same modifier with these labels after `on` or `ignoring`.
    pub fn with_matching(self, matching: Option<LabelModifier>) -> BinModifier
        ensures { result ≡ record self { matching = matching } }
    {
        BinModifier {
            card: self.card,
            matching,
            return_bool: self.return_bool,
            fill_values: self.fill_values,
        }
    }

    /// The same modifier with or without `bool`.
    pub fn with_return_bool(self, return_bool: bool) -> BinModifier
        ensures { result ≡ record self { return_bool = return_bool } }
    {
        BinModifier {
            card: self.card,
            matching: self.matching,
            return_bool,
            fill_values: self.fill_values,
        }
    }

    /// The same modifier with these fill values.
    pub fn with_fill_values(self, fill_values: VectorMatchFillValues) -> BinModifier
        ensures { result ≡ record self { fill_values = fill_values } }
    {
        BinModifier {
            card: self.card,
            matching: self.matching,
            return_bool: self.return_bool,
            fill_values,
        }
    }

    /// Whether a label follows both the grouping and the matching word.
    pub fn is_labels_joint(&self) -> bool
        ensures { IsTrue result
            ↔ IsSomeAnd (spec.joint_labels (matching_of self.now)) (λ labels. labels ≢ []) }
    {
        match (self.card.labels(), &self.matching) {
            (Some(labels), Some(matching)) => labels.is_joint(matching.labels()),
            _ => false,
        }
    }

    /// The labels that follow both the grouping and the matching word, each once, in the order of the grouping; None
    /// where either is missing.
    ///
    /// # Errors
    ///
    /// `AllocError` where an allocation failed.
    pub fn intersect_labels(&self, alloc: Global) -> Result<Option<Vec<String>>, AllocError>
        ensures { IfOk result (λ both. option_map (λ labels. map string_bytes labels.items) both
            ≡ spec.joint_labels (matching_of self.now)) }
    {
        match (self.card.labels(), &self.matching) {
            (Some(labels), Some(matching)) => {
                Ok(Some(labels.intersect(alloc, matching.labels())?.labels))
            }
            _ => Ok(None),
        }
    }

    /// Whether the matching word is `on`.
    pub fn is_matching_on(&self) -> bool
        ensures { result ≡ spec.is_on (matching_of self.now) }
    {
        match &self.matching {
            Some(matching) => matching.is_include(),
            None => false,
        }
    }

    /// Whether there is a label after `on` or `ignoring`.
    pub fn is_matching_labels_not_empty(&self) -> bool
        ensures { result ≡ spec.has_matching_labels (matching_of self.now) }
    {
        match &self.matching {
            Some(matching) => !matching.labels().is_empty(),
            None => false,
        }
    }

    /// `bool ` with a space after it, or nothing.
    pub fn bool_str(&self) -> &str
        ensures { result.now ≡ (if self.now.return_bool then codes "bool " else []) }
    {
        if self.return_bool { "bool " } else { "" }
    }

    /// A copy of the modifier.
    ///
    /// # Errors
    ///
    /// `AllocError` where an allocation failed.
    pub fn try_clone(&self, alloc: Global) -> Result<BinModifier, AllocError>
        ensures { IfOk result (λ m. matching_of m ≡ matching_of self.now) }
    {
        Ok(BinModifier {
            card: self.card.try_clone(alloc)?,
            matching: clone_label_modifier(alloc, &self.matching)?,
            return_bool: self.return_bool,
            fill_values: self.fill_values,
        })
    }
}

fn clone_label_modifier(
    alloc: Global,
    modifier: &Option<LabelModifier>,
) -> Result<Option<LabelModifier>, AllocError>
    ensures { IfOk result (λ m. option_map clause_of m ≡ option_map clause_of modifier.now) }
{
    match modifier {
        Some(modifier) => Ok(Some(modifier.try_clone(alloc)?)),
        None => Ok(None),
    }
}

impl fmt::Display for BinModifier {
    ghost output = { λ m. Some (modifier_text (matching_of m)) };

    ghost styled_output = { λ m _. Some (modifier_text (matching_of m)) };

    #[tactic(auto, using(promql_text::proofs::writing::AllOptions::styled))]
    fn fmt<W: fmt::Write>(&self, f: &mut fmt::Formatter<W>) -> fmt::Result {
        write_bool(self.return_bool, f)?;
        write_matched(self.card.is_grouping(), &self.matching, f)?;
        write_grouping(&self.card, f)?;
        write_fills(&self.fill_values.lhs, &self.fill_values.rhs, f)
    }
}

fn write_bool<W: fmt::Write>(return_bool: bool, f: &mut fmt::Formatter<W>) -> fmt::Result
    ensures { WritesStyledOnOk W.write_str_gives f.old result (bool_text return_bool) f.new }
{
    if return_bool {
        f.write_str(" bool")
    } else {
        Ok(())
    }
}

/// Writes `on` or `ignoring` with its labels. An empty list after `ignoring` is left out, but before a grouping.
fn write_matched<W: fmt::Write>(
    is_grouping: bool,
    matching: &Option<LabelModifier>,
    f: &mut fmt::Formatter<W>,
) -> fmt::Result
    ensures { WritesStyledOnOk W.write_str_gives f.old result
        (matched_text is_grouping (option_map clause_of matching.now)) f.new }
{
    match matching {
        None => Ok(()),
        Some(LabelModifier::Include(labels)) => write_labels(" on (", labels, f),
        Some(LabelModifier::Exclude(labels)) => {
            if labels.is_empty() && !is_grouping {
                Ok(())
            } else {
                write_labels(" ignoring (", labels, f)
            }
        }
    }
}

fn write_grouping<W: fmt::Write>(
    card: &VectorMatchCardinality,
    f: &mut fmt::Formatter<W>,
) -> fmt::Result
    ensures { WritesStyledOnOk W.write_str_gives f.old result
        (grouping_text (cardinality_of card.now)) f.new }
{
    match card {
        VectorMatchCardinality::OneToOne => Ok(()),
        VectorMatchCardinality::ManyToOne(labels) => write_labels(" group_left (", labels, f),
        VectorMatchCardinality::OneToMany(labels) => write_labels(" group_right (", labels, f),
        VectorMatchCardinality::ManyToMany => Ok(()),
    }
}

#[tactic(auto, using(promql_text::proofs::writing::AllOptions::styled))]
fn write_labels<W: fmt::Write>(
    before: &str,
    labels: &Labels,
    f: &mut fmt::Formatter<W>,
) -> fmt::Result
    ensures { WritesStyledOnOk W.write_str_gives f.old result
        (before.now ++ (labels_text (labels_of labels.now) ++ codes ")")) f.new }
{
    f.write_str(before)?;
    labels.fmt(f)?;
    f.write_str(")")
}

/// Writes the fill values: one clause if they are equal, else one for each that is there.
#[tactic(auto, using(promql_text::proofs::writing::AllOptions::styled))]
fn write_fills<W: fmt::Write>(
    lhs: &Option<Number>,
    rhs: &Option<Number>,
    f: &mut fmt::Formatter<W>,
) -> fmt::Result
    ensures { WritesStyledOnOk W.write_str_gives f.old result
        (fills_text (spec.fills rhs.now lhs.now)) f.new }
{
    match lhs {
        None => match rhs {
            None => Ok(()),
            Some(rhs) => write_fill(" fill_right (", rhs, f),
        },
        Some(lhs) => match rhs {
            None => write_fill(" fill_left (", lhs, f),
            Some(rhs) => {
                if is_same_number(lhs, rhs) {
                    write_fill(" fill (", lhs, f)
                } else {
                    write_fill(" fill_left (", lhs, f)?;
                    write_fill(" fill_right (", rhs, f)
                }
            }
        },
    }
}

#[tactic(auto, using(promql_text::proofs::writing::AllOptions::styled))]
fn write_fill<W: fmt::Write>(
    before: &str,
    number: &Number,
    f: &mut fmt::Formatter<W>,
) -> fmt::Result
    ensures { WritesStyledOnOk W.write_str_gives f.old result
        (before.now ++ (number_text number.now ++ codes ")")) f.new }
{
    f.write_str(before)?;
    number.fmt(f)?;
    f.write_str(")")
}

pub(crate) fn is_same_number(a: &Number, b: &Number) -> bool
    ensures { result ≡ spec.number_eq a.now b.now }
{
    *a == *b
}
