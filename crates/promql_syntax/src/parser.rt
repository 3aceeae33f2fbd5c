//! From a text to its tree.

ghost use Rattle.std.specs.Prelude.{◌≡◌};
ghost use Rattle.std.specs.Result.{result_map_both};
ghost use Rattle.promql_grammar.specs.SourceTokens.{tokens, has_any};
ghost use Rattle.promql_ast.specs.View.{tree_of};
ghost use Rattle.promql_syntax.specs.ParseAnswers.{IsAnswerTo, plain_error_of};
ghost use Rattle.promql_syntax.specs.ParseErrors.{error_of_build, first_error};

use crate::grammar::build_error::{BuildError, BuildFault};
use crate::grammar::expression::parse_query;
use promql_ast::{AtFault, CheckFault, Expr};
use promql_grammar::{ReadError, Tokens, has_tokens};
use promql_text::{DurationFault, NumberFault};
use promql_token::LexFault;
use std::alloc::{AllocError, Global};
use thiserror::Error;

/// The greatest height of an expression.
pub const MAX_DEPTH: usize = 512;

/// Why a text has no tree (docs/reference/grammar.md, "The answer to a text").
#[derive(PartialEq, Eq, Debug, Drop, Error)]
pub enum ParseError {
    /// An allocation failed.
    #[error("out of memory")]
    Memory,
    /// The text has a lexical fault.
    #[error("{0}")]
    Lex(LexFault),
    /// The text has no token.
    #[error("no expression found in input")]
    Empty,
    /// The tokens are no expression.
    #[error("invalid promql query")]
    Syntax,
    /// The tokens are no expression of at most `MAX_DEPTH` levels, and they are more than that, counting the end as one.
    #[error("expression nested too deeply")]
    TooDeep,
    /// A number has no value that can be held. This fault and those after it come only where the
    /// tokens are an expression; the first one counts.
    #[error("{0}")]
    Number(NumberFault),
    /// A string has a raw line feed, or an escape of no character.
    #[error("invalid syntax")]
    Quoted,
    /// A text is no duration.
    #[error("{0}")]
    Duration(DurationFault),
    /// A number after `@` is no moment.
    #[error("{0}")]
    At(AtFault),
    /// `regex` rejects this pattern.
    #[error("illegal regex for {0}")]
    Pattern(String),
    /// There is no function of this name.
    #[error("unknown function with name '{0}'")]
    UnknownFunction(String),
    /// A builder or a check rejects a node.
    #[error("{0}")]
    Check(CheckFault),
}

impl From<AllocError> for ParseError {
    ghost use Rattle.std.specs.Prelude.{◌≡◌};
    ghost use Rattle.promql_syntax.specs.declared.parser.ParseError.TheVariants.{Memory};

    ghost from_gives = { λ _ e. e ≡ Memory };

    fn from(_e: AllocError) -> ParseError {
        ParseError::Memory
    }
}

impl From<LexFault> for ParseError {
    ghost use Rattle.std.specs.Prelude.{◌≡◌};
    ghost use Rattle.promql_syntax.specs.declared.parser.ParseError.TheVariants.{Lex};

    ghost from_gives = { λ fault e. e ≡ Lex fault };

    fn from(fault: LexFault) -> ParseError {
        ParseError::Lex(fault)
    }
}

impl From<ReadError> for ParseError {
    ghost use Rattle.std.specs.Prelude.{◌≡◌};
    ghost use Rattle.promql_syntax.specs.ParseErrors.{error_of};

    ghost from_gives = { λ error e. e ≡ error_of error };

    fn from(error: ReadError) -> ParseError {
        match error {
            ReadError::Memory => ParseError::Memory,
            ReadError::Syntax => ParseError::Syntax,
            ReadError::TooDeep => ParseError::TooDeep,
        }
    }
}

impl From<BuildFault> for ParseError {
    ghost use Rattle.std.specs.Prelude.{◌≡◌};
    ghost use Rattle.promql_syntax.specs.ParseErrors.{error_of_fault};

    ghost from_gives = { λ fault e. e ≡ error_of_fault fault };

    fn from(fault: BuildFault) -> ParseError {
        match fault {
            BuildFault::Number(fault) => ParseError::Number(fault),
            BuildFault::Quoted => ParseError::Quoted,
            BuildFault::Duration(fault) => ParseError::Duration(fault),
            BuildFault::At(fault) => ParseError::At(fault),
            BuildFault::Pattern(value) => ParseError::Pattern(value),
            BuildFault::UnknownFunction(name) => ParseError::UnknownFunction(name),
            BuildFault::Check(fault) => ParseError::Check(fault),
        }
    }
}

/// The tree of a text (docs/reference/grammar.md, "The answer to a text").
///
/// `Empty` and `Lex` come before any other error, out of memory included: a text that is rejected
/// is lexed once more, without an allocation. A text that is accepted is lexed once.
pub fn parse(alloc: Global, text: &str) -> Result<Expr, ParseError>
    ensures { IsAnswerTo text.now (result_map_both tree_of plain_error_of result) }
{
    promql_ast::laws::checked_trees_are_typed();
    let mut tokens = Tokens::new(text);
    match parse_query(alloc, MAX_DEPTH, &mut tokens) {
        Ok(Ok(expr)) => Ok(Box::into_inner(expr)),
        Ok(Err(error)) => Err(first_error(text, parse_error_of(error))),
        Err(error) => Err(first_error(text, ParseError::from(error))),
    }
}

#[inline(never)]
fn parse_error_of(error: Box<BuildError>) -> ParseError
    ensures { result ≡ error_of_build error.value }
{
    let BuildError { fault, place: _ } = Box::into_inner(error);
    ParseError::from(fault)
}

/// The first error of a text: its lexical fault, or that it has no token, comes before what parsing
/// found.
#[inline(never)]
pub fn first_error(text: &str, found: ParseError) -> ParseError
    ensures { result ≡ first_error (has_any (tokens text.now)) found }
{
    match has_tokens(text) {
        Ok(true) => found,
        Ok(false) => ParseError::Empty,
        Err(fault) => ParseError::Lex(fault),
    }
}
