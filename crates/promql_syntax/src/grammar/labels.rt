//! The rule `labels`.

ghost use Rattle.std.specs.Prelude.{◌≡◌, ◌<◌, ◌++◌, ◌∷◌, [], Ok, string_bytes, IfOk, OnOk};
ghost use Rattle.promql_grammar.specs.Parsing as parsing;
ghost use Rattle.promql_grammar.specs.Results.{◌then◌};
ghost use Rattle.promql_grammar.specs.SymbolsLeft.{CountsTaken, IsShorter, symbols_left};
ghost use Rattle.promql_grammar.specs.Failures.{Reads};
ghost use Rattle.promql_label.specs.Labels.{labels_of};
ghost use Rattle.promql_syntax.specs.BuildErrors.{view_result};
ghost use Rattle.promql_syntax.specs.ParsesPart.{ParsesPart};
ghost use Rattle.promql_syntax.specs.PartBuilding.{label_value, label_values};

use crate::grammar::build_error::BuildError;
use crate::grammar::parsed::{Built, Parsed};
use crate::grammar::string::string_value;
use promql_grammar::label_tokens::{eat_label, parse_label_end};
use promql_grammar::{ReadError, TokenKind, Tokens};
use promql_label::Labels;
use std::alloc::Global;

/// Parses labels in parentheses.
pub fn parse_labels(alloc: Global, tokens: &mut Tokens<'_>) -> Parsed<Labels>
    ensures gives { Reads (ParsesPart labels_of label_values) (symbols_left tokens.new)
        (parsing.parse_labels (symbols_left tokens.old)) result }
    ensures short { OnOk result (IsShorter tokens.new tokens.old) }
    ensures counts { OnOk result (CountsTaken tokens.old tokens.new) }
{
    tokens.expect(TokenKind::LeftParen)?;
    parse_label_list(alloc, tokens)
}

/// Parses labels after an opening parenthesis, and the closing one.
pub fn parse_label_list(alloc: Global, tokens: &mut Tokens<'_>) -> Parsed<Labels>
    ensures gives { Reads (ParsesPart labels_of label_values) (symbols_left tokens.new)
        (parsing.parse_label_list (symbols_left tokens.old)) result }
    ensures short { OnOk result (IsShorter tokens.new tokens.old) }
    ensures counts { OnOk result (CountsTaken tokens.old tokens.new) }
{
    let mut labels = Ok(Labels {
        labels: Vec::new(alloc),
    });
    if tokens.eat(TokenKind::RightParen) {
        return Ok(labels);
    }
    let mut index = tokens.index();
    while let Some((kind, text)) = eat_label(tokens) {
        labels = append_label(alloc, labels, kind, text, index)?;
        if parse_label_end(tokens)? {
            return Ok(labels);
        }
        index = tokens.index();
    }
    Err(ReadError::Syntax)
}

/// The labels with one more, if there is no error yet.
fn append_label(
    alloc: Global,
    labels: Result<Labels, Box<BuildError>>,
    kind: TokenKind,
    text: &str,
    index: usize,
) -> Built<Labels>
    ensures { IfOk result (λ value. view_result labels_of value ≡ (view_result labels_of labels then
        λ ls. label_value kind text.now then λ l. Ok (ls ++ l ∷ []))) }
{
    let labels = match labels {
        Ok(labels) => labels,
        Err(error) => return Ok(Err(error)),
    };
    match label_value(alloc, kind, text, index)? {
        Ok(label) => Ok(Ok(labels.append(label)?)),
        Err(error) => Ok(Err(error)),
    }
}

/// The label of the token with this index.
pub fn label_value(alloc: Global, kind: TokenKind, text: &str, index: usize) -> Built<String>
    ensures { IfOk result (λ value. view_result string_bytes value ≡ label_value kind text.now) }
{
    match kind {
        TokenKind::String => string_value(alloc, text, index),
        _ => Ok(Ok(String::from_str(alloc, text)?)),
    }
}
