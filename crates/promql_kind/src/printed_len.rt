//! How many bytes modifiers print, up to the greatest `usize` (docs/reference/printing.md, "Printed lengths"). Nothing
//! is printed for it, and nothing is allocated.

ghost use Rattle.std.specs.Prelude.{◌≡◌, ◌++◌, codes, option_map};
ghost use Rattle.promql_kind.specs.ModifierText.{bool_text, fills_text, grouping_text, matched_text, modifier_text};
ghost use Rattle.promql_kind.specs.Modifiers as spec;
ghost use Rattle.promql_kind.specs.ModifierViews.{cardinality_of, clause_of, matching_of};
ghost use Rattle.promql_label.specs.Labels.{labels_of, labels_text};
ghost use Rattle.promql_text.specs.NumberText.{number_text};
ghost use Rattle.promql_text.specs.PrintedLen.{printed_len};

use crate::bin_modifier::{BinModifier, is_same_number};
use crate::cardinality::VectorMatchCardinality;
use crate::label_modifier::LabelModifier;
use promql_label::Labels;
use promql_text::{Number, number_printed_len};

impl BinModifier {
    /// The bytes that the modifier prints, up to the greatest `usize`.
    #[tactic(auto, using(promql_text::proofs::writing::PrintedLengths::printed_len_append))]
    pub fn printed_len(&self) -> usize
        ensures { result ≡ printed_len (modifier_text (matching_of self.now)) }
    {
        let fills = fills_len(&self.fill_values.lhs, &self.fill_values.rhs);
        let grouping = grouping_len(&self.card).saturating_add(fills);
        let matched = matched_len(self.card.is_grouping(), &self.matching);
        bool_len(self.return_bool).saturating_add(matched.saturating_add(grouping))
    }
}

fn bool_len(return_bool: bool) -> usize
    ensures { result ≡ printed_len (bool_text return_bool) }
{
    if return_bool { 5 } else { 0 }
}

fn matched_len(is_grouping: bool, matching: &Option<LabelModifier>) -> usize
    ensures { result ≡ printed_len (matched_text is_grouping (option_map clause_of matching.now)) }
{
    match matching {
        None => 0,
        Some(LabelModifier::Include(labels)) => labels_len(" on (", labels),
        Some(LabelModifier::Exclude(labels)) => {
            if labels.is_empty() && !is_grouping {
                0
            } else {
                labels_len(" ignoring (", labels)
            }
        }
    }
}

fn grouping_len(card: &VectorMatchCardinality) -> usize
    ensures { result ≡ printed_len (grouping_text (cardinality_of card.now)) }
{
    match card {
        VectorMatchCardinality::OneToOne => 0,
        VectorMatchCardinality::ManyToOne(labels) => labels_len(" group_left (", labels),
        VectorMatchCardinality::OneToMany(labels) => labels_len(" group_right (", labels),
        VectorMatchCardinality::ManyToMany => 0,
    }
}

/// The bytes of a word with a parenthesis, the labels, and the closing parenthesis.
#[tactic(auto, using(promql_text::proofs::writing::PrintedLengths::printed_len_append))]
fn labels_len(before: &str, labels: &Labels) -> usize
    ensures { result ≡ printed_len (before.now ++ (labels_text (labels_of labels.now) ++ codes ")")) }
{
    before
        .len()
        .saturating_add(labels.printed_len().saturating_add(1))
}

/// The bytes of the fill values: one clause if they are equal, else one for each that is there.
#[tactic(auto, using(promql_text::proofs::writing::PrintedLengths::printed_len_append))]
fn fills_len(lhs: &Option<Number>, rhs: &Option<Number>) -> usize
    ensures { result ≡ printed_len (fills_text (spec.fills rhs.now lhs.now)) }
{
    match lhs {
        None => match rhs {
            None => 0,
            Some(rhs) => fill_len(" fill_right (", rhs),
        },
        Some(lhs) => match rhs {
            None => fill_len(" fill_left (", lhs),
            Some(rhs) => {
                if is_same_number(lhs, rhs) {
                    fill_len(" fill (", lhs)
                } else {
                    fill_len(" fill_left (", lhs).saturating_add(fill_len(" fill_right (", rhs))
                }
            }
        },
    }
}

#[tactic(auto, using(promql_text::proofs::writing::PrintedLengths::printed_len_append))]
fn fill_len(before: &str, number: &Number) -> usize
    ensures { result ≡ printed_len (before.now ++ (number_text number.now ++ codes ")")) }
{
    before
        .len()
        .saturating_add(number_printed_len(number).saturating_add(1))
}
