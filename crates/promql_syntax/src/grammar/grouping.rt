//! The rule `grouping`: `by` or `without` of an aggregation, before or after its arguments.

ghost use Rattle.std.specs.Prelude.{◌≡◌, option_map, Some, MatchBool, OnOk};
ghost use Rattle.promql_grammar.specs.Parsing as parsing;
ghost use Rattle.promql_grammar.specs.SymbolsLeft.{CountsTaken, IsNoLonger, symbols_left};
ghost use Rattle.promql_grammar.specs.Failures.{Reads};
ghost use Rattle.promql_grammar.specs.PartTokens.{HasNoGrouping, StartsGrouping};
ghost use Rattle.promql_label.specs.Labels.{labels_of};
ghost use Rattle.promql_kind.specs.Modifiers.{excluding, including};
ghost use Rattle.promql_kind.specs.ModifierViews.{clause_of};
ghost use Rattle.promql_syntax.specs.BuildErrors.{view_result};
ghost use Rattle.promql_syntax.specs.ParsesPart.{ParsesPart};
ghost use Rattle.promql_syntax.specs.PartWords.{clause_value};

use crate::grammar::build_error::BuildError;
use crate::grammar::labels::parse_labels;
use crate::grammar::parsed::Parsed;
use promql_grammar::{TokenKind, Tokens};
use promql_kind::LabelModifier;
use promql_label::Labels;
use std::alloc::Global;

/// Whether the first token is `by` or `without`.
pub fn starts_grouping(tokens: &Tokens<'_>) -> bool
    ensures { MatchBool result (StartsGrouping (symbols_left tokens.now))
        (HasNoGrouping (symbols_left tokens.now)) }
{
    matches!(tokens.peek(), Some((TokenKind::By | TokenKind::Without, _)))
}

/// Parses a grouping, if there is one. Its frame is kept out of those of aggregations.
#[inline(never)]
pub fn parse_grouping(alloc: Global, tokens: &mut Tokens<'_>) -> Parsed<Option<LabelModifier>>
    ensures gives { Reads (ParsesPart (option_map clause_of) clause_value) (symbols_left tokens.new)
        (parsing.parse_grouping (symbols_left tokens.old)) result }
    ensures short { OnOk result (IsNoLonger tokens.new tokens.old) }
    ensures counts { OnOk result (CountsTaken tokens.old tokens.new) }
{
    let Some((kind, _)) = tokens.peek() else {
        return Ok(Ok(None));
    };
    match kind {
        TokenKind::By => {
            tokens.bump();
            let labels = parse_labels(alloc, tokens)?;
            Ok(build_by(labels))
        }
        TokenKind::Without => {
            tokens.bump();
            let labels = parse_labels(alloc, tokens)?;
            Ok(build_without(labels))
        }
        _ => Ok(Ok(None)),
    }
}

/// The grouping that keeps these labels.
fn build_by(
    labels: Result<Labels, Box<BuildError>>,
) -> Result<Option<LabelModifier>, Box<BuildError>>
    ensures { view_result (option_map clause_of) result
        ≡ view_result (λ ls. Some (including (labels_of ls))) labels }
{
    Ok(Some(LabelModifier::Include(labels?)))
}

/// The grouping that drops these labels.
fn build_without(
    labels: Result<Labels, Box<BuildError>>,
) -> Result<Option<LabelModifier>, Box<BuildError>>
    ensures { view_result (option_map clause_of) result
        ≡ view_result (λ ls. Some (excluding (labels_of ls))) labels }
{
    Ok(Some(LabelModifier::Exclude(labels?)))
}
