//! The error of a text, with its place: docs/reference/grammar.md, "Places of errors".

ghost use Rattle.std.specs.Prelude.{◌≡◌, ◌⊎◌, ◌<◌, List, [], Ok, IfErr, IfOk, MatchOption, chars, encode_utf8_all, length, map, option_map, string_bytes};
ghost use Rattle.std.specs.Result.{result_map_both};
ghost use Rattle.promql_ast.specs.View.{tree_of};
ghost use Rattle.promql_grammar.specs.Misfits.{AreMisfits};
ghost use Rattle.promql_grammar.specs.Symbols.{symbol_of};
ghost use Rattle.promql_grammar.specs.declared.read_error.ReadError.TheVariants as read_errors;
ghost use Rattle.promql_grammar.specs.SourceTokens.{Token, has_any, tokens};
ghost use Rattle.promql_grammar.specs.SymbolsLeft.{symbols_left};
ghost use Rattle.promql_span.specs.Locations.{location_of};
ghost use Rattle.promql_span.specs.PlacedTokens.{end_of, placed_tokens};
ghost use Rattle.promql_span.specs.Snippets.{snippet_text};
ghost use Rattle.promql_span.specs.TokenSpans.{IsAtTokens, span_over};
ghost use Rattle.promql_span.specs.ErrorPlaces.{IsAtFault, IsPlaceOf};
ghost use Rattle.promql_span.specs.SpanSteps.{in_range};
ghost use Rattle.promql_span.specs.Findings.{IsFindingOf, IsFound, IsFoundAt, IsPlacedFault};
ghost use Rattle.promql_syntax.specs.ParseAnswers.{IsAnswerTo, plain_error_of};
ghost use Rattle.promql_syntax.specs.BuildErrors.{build_error_of};
ghost use Rattle.promql_syntax.specs.declared.grammar.place.Place as Place;
ghost use Rattle.promql_syntax.specs.declared.grammar.place.TokenRange as ranges;
ghost use Rattle.promql_syntax.specs.ParseErrors.{error_of, error_of_build, first_error};

use crate::location::Location;
use crate::placed::PlacedTokens;
use crate::places::{
    argument_span, char_span, end_of_text, span_between, span_of_tokens, token_left,
};
use crate::snippets::snippet;
use crate::span::Span;
use promql_ast::Expr;
use promql_grammar::{ReadError, Tokens};
use promql_syntax::grammar::build_error::BuildError;
use promql_syntax::grammar::expression::parse_query;
use promql_syntax::grammar::place::{Place, TokenRange};
use promql_syntax::parser::{MAX_DEPTH, ParseError, first_error};
use promql_token::{LexFault, LexFaultKind};
use std::alloc::{AllocError, Global};
use std::fmt;

/// Why a text has no tree, and where.
#[derive(PartialEq, Eq, Debug, Drop)]
pub struct Diagnosis {
    /// The error, as `parse` returns it.
    pub error: ParseError,
    /// The part of the text that it is about, empty at the end of the text; `None` where an allocation failed.
    pub span: Option<Span>,
}

/// The tree of a text, or its error with the place (docs/reference/grammar.md, "Places of errors").
///
/// # Errors
///
/// Those of `parse`, when it has them. The text is lexed a few times more then, without an allocation.
pub fn diagnose(alloc: Global, text: &str) -> Result<Expr, Diagnosis>
    ensures answer { IsAnswerTo text.now (result_map_both tree_of (λ d. plain_error_of d.error) result) }
    ensures place { IfErr result (λ d. IsPlaceOf text.now d.error d.span) }
{
    promql_ast::laws::checked_trees_are_typed();
    crate::laws::tokens_are_placed();
    let mut tokens = Tokens::new(text);
    match parse_query(alloc, MAX_DEPTH, &mut tokens) {
        Ok(Ok(expr)) => Ok(Box::into_inner(expr)),
        Ok(Err(error)) => Err(diagnose_building(text, error)),
        Err(error) => Err(diagnose_reading(text, error, tokens)),
    }
}

/// What parsing found to be wrong.
#[derive(Clone, Copy)]
enum Finding {
    /// So many tokens are left, of which the first does not fit; a lexical fault is counted as one.
    Misfit(usize),
    /// Tokens that are too high, or build nothing.
    Fault(Place),
}

/// The error of tokens that are an expression, and build no tree.
fn diagnose_building(text: &str, error: Box<BuildError>) -> Diagnosis
    requires { (list : List Token) → tokens text.now ≡ Ok list
        → IsPlacedFault text.now (build_error_of error.value) error.value.place }
    ensures error { result.error
        ≡ first_error (has_any (tokens text.now)) (error_of_build error.value) }
    ensures place { IsPlaceOf text.now result.error result.span }
{
    crate::laws::tokens_are_placed();
    let BuildError { fault, place } = Box::into_inner(error);
    let error = first_error(text, ParseError::from(fault));
    let span = span_of(text, &error, Finding::Fault(place));
    Diagnosis { error, span }
}

/// The error of tokens that are no expression, where these are left.
fn diagnose_reading(text: &str, error: ReadError, left: Tokens<'_>) -> Diagnosis
    requires { error ≡ read_errors.Syntax → (list : List Token) → tokens text.now ≡ Ok list
        → AreMisfits (map symbol_of list) (symbols_left left) }
    ensures error { result.error ≡ first_error (has_any (tokens text.now)) (error_of error) }
    ensures place { IsPlaceOf text.now result.error result.span }
{
    let found = reading_finding(text, error, left);
    let error = first_error(text, ParseError::from(error));
    let span = span_of(text, &error, found);
    Diagnosis { error, span }
}

/// What parsing found to be wrong, where these tokens are left.
fn reading_finding(text: &str, error: ReadError, left: Tokens<'_>) -> Finding
    requires { error ≡ read_errors.Syntax → (list : List Token) → tokens text.now ≡ Ok list
        → AreMisfits (map symbol_of list) (symbols_left left) }
    ensures { (list : List Token) → tokens text.now ≡ Ok list → 0 < length list
        → IsFindingOf text.now error result }
{
    crate::laws::tokens_are_placed();
    match error {
        ReadError::Syntax => Finding::Misfit(left.count()),
        ReadError::Memory | ReadError::TooDeep => {
            Finding::Fault(Place::token(left.index().saturating_sub(1)))
        }
    }
}

/// The place of a text's error, where parsing found this.
fn span_of(text: &str, error: &ParseError, found: Finding) -> Option<Span>
    requires { IsFound text.now error.now found }
    ensures { IsPlaceOf text.now error.now result }
{
    match error {
        ParseError::Memory => None,
        ParseError::Lex(fault) => Some(lexical_span(text, *fault, found)),
        ParseError::Empty => Some(end_of_text(text)),
        _ => Some(found_span(text, found)),
    }
}

/// The place of a lexical fault: its character, or the end.
fn lexical_span(text: &str, fault: LexFault, found: Finding) -> Span
    ensures { IsAtFault text.now fault.at fault.kind result }
{
    match fault.kind {
        LexFaultKind::UnclosedParen => unclosed_span(text, found),
        _ => char_span(text, fault.at),
    }
}

/// The place of a parenthesis that is not closed. The lexer finds it at the end of the text; it may be missing before
/// the first token that does not fit.
fn unclosed_span(text: &str, found: Finding) -> Span
    ensures { IsAtTokens text.now result ⊎ (result ≡ end_of text.now) }
{
    match found {
        Finding::Misfit(left) => token_left(text, left.saturating_sub(1)),
        Finding::Fault(_) => end_of_text(text),
    }
}

/// The tokens that parsing found to be wrong.
fn found_span(text: &str, found: Finding) -> Span
    ensures { (error : ParseError) → IsFoundAt text.now error found result }
{
    match found {
        Finding::Misfit(left) => token_left(text, left),
        Finding::Fault(place) => fault_span(text, place),
    }
}

/// The tokens that a fault is about.
fn fault_span(text: &str, place: Place) -> Span
    ensures at { 0 < length (placed_tokens text.now) → IsAtTokens text.now result }
    ensures is { (range : TokenRange) → place ≡ Place.Tokens range
        → 0 < length (in_range range 0 (placed_tokens text.now))
        → result ≡ span_over text.now (in_range range 0 (placed_tokens text.now)) }
{
    match place {
        Place::Tokens(range) => match span_of_tokens(text, range) {
            Some(span) => span,
            None => span_between(text, part_of(text, range)),
        },
        Place::Argument(range, index) => argument_span(text, part_of(text, range), index),
    }
}

/// The part of the text that these tokens take, and what is between them and the next one.
fn part_of(text: &str, range: TokenRange) -> Span {
    Span {
        start: token_start(text, range.start),
        end: token_start(text, range.end),
    }
}

/// Where the token with this index begins, or the end of the text.
fn token_start(text: &str, index: usize) -> usize {
    match PlacedTokens::new(text).nth(index) {
        Some(token) => token.start,
        None => text.len(),
    }
}

impl Diagnosis {
    /// The error with its line and column before it, as `3:14: invalid promql query`. `text` is the text that it is of.
    pub fn display(&self, text: &str) -> DiagnosisDisplay<'_>
        ensures location { result.location
            ≡ option_map (λ span. location_of text.now span.start) self.now.span }
        ensures error { result.error.now ≡ self.now.error }
    {
        DiagnosisDisplay {
            location: self.location(text),
            error: &self.error,
        }
    }

    /// Where the part of the text begins that the error is about.
    fn location(&self, text: &str) -> Option<Location>
        ensures { result ≡ option_map (λ span. location_of text.now span.start) self.now.span }
    {
        match self.span {
            Some(span) => Some(Location::line_column(text, span.start)),
            None => None,
        }
    }

    /// The line of the text with the place, and `^~~~` below it (docs/reference/grammar.md, "Places of errors"); an
    /// empty string where there is no place. `text` is the text that it is of.
    ///
    /// # Errors
    ///
    /// `AllocError` where an allocation failed.
    pub fn snippet(&self, alloc: Global, text: &str) -> Result<String, AllocError>
        ensures { IfOk result (λ shown. MatchOption self.now.span (string_bytes shown ≡ [])
            (λ span. string_bytes shown ≡ encode_utf8_all (snippet_text (chars text.now) span))) }
    {
        match self.span {
            Some(span) => snippet(alloc, text, span),
            None => Ok(String::new(alloc)),
        }
    }
}

/// An error with its line and column, for people. It prints as the location, a colon, a space and the error's message.
#[derive(Clone, Copy)]
pub struct DiagnosisDisplay<'a> {
    /// Where the part of the text begins that the error is about; `None` where an allocation failed, and then only the message is
    /// printed.
    pub location: Option<Location>,
    /// The error.
    pub error: &'a ParseError,
}

impl fmt::Display for DiagnosisDisplay<'_> {
    fn fmt<W: fmt::Write>(&self, f: &mut fmt::Formatter<W>) -> fmt::Result {
        if let Some(location) = self.location {
            write!(f, "{location}: ")?;
        }
        self.error.fmt(f)
    }
}
