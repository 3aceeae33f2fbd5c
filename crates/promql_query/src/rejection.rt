//! The tree of a query, or why and where it is rejected.

ghost use Rattle.std.specs.Prelude.{◌≡◌, IfOk, MatchResult, Ok, string_bytes};
ghost use Rattle.std.specs.Bool.{Decides};
ghost use Rattle.promql_ast.specs.View.{tree_of};
ghost use Rattle.promql_span.specs.Locations.{location_of};
ghost use Rattle.promql_span.specs.QueryLimits.{IsWithin};
ghost use Rattle.promql_span.specs.Differences.{difference};
ghost use Rattle.promql_syntax.specs.ParseAnswers.{IsAnswerTo};
ghost use Rattle.promql_syntax.specs.declared.parser.ParseError.TheVariants as parse_errors;
ghost use Rattle.promql_target.specs.Refusals.{refusal};
ghost use Rattle.promql_query.specs.declared.rejection.Reason.TheVariants as reasons;
ghost use Rattle.promql_query.specs.Rejecting as spec;
ghost use Rattle.promql_query.specs.Rejecting.{IsMessage, IsPlainMessage, IsRead, IsRejection, IsTold, limit_place, reason_number};

use promql_ast::{CheckFault, Expr, NodeFault, drop_expr};
use promql_span::diagnosis::{Diagnosis, diagnose};
use promql_span::limits::{LimitFault, Limits};
use promql_span::unexpected::{Unexpected, unexpected_at};
use promql_span::{Difference, DifferenceKind, Location, Span, Target, end_of_text};
use promql_syntax::parser::ParseError;
use promql_target::{Inspected, Refusal, RefusalKind, inspect};
use promql_text::NumberFault;
use promql_token::{LexFault, LexFaultKind};
use std::alloc::{AllocError, Global};
use thiserror::Error;

/// Why a query is rejected (docs/reference/programs.md, "Errors").
#[derive(PartialEq, Eq, Debug, Drop, Error)]
pub enum Reason {
    /// The parser rejects it.
    #[error("{0}")]
    Parse(ParseError),
    /// It is not within its limits, and nothing else of it was read.
    #[error("{0}")]
    Limit(LimitFault),
    /// It is read, and its target reads it otherwise.
    #[error("Prometheus reads this otherwise: {0}")]
    Otherwise(DifferenceKind),
    /// It is checked, and this target rejects it.
    #[error("{0} rejects this: {1}")]
    Refused(Target, RefusalKind),
}

impl Reason {
    /// The number of the error, with which a program ends.
    pub fn number(&self) -> u8
        ensures { result ≡ reason_number self.now }
    {
        match self {
            Reason::Parse(_) => 4,
            Reason::Limit(_) => 14,
            Reason::Otherwise(_) => 23,
            Reason::Refused(_, _) => 24,
        }
    }

    /// Whether it is a syntax error.
    fn is_syntax(&self) -> bool
        ensures { Decides result (self.now ≡ reasons.Parse parse_errors.Syntax) }
    {
        matches!(self, Reason::Parse(ParseError::Syntax))
    }

    /// The message for people without what was expected: of more than 512 levels, and of some that Prometheus takes, it says what to do.
    ///
    /// # Errors
    ///
    /// `AllocError` where an allocation failed.
    pub fn plain_message(&self, alloc: Global) -> Result<String, AllocError>
        ensures { IfOk result (λ s. IsPlainMessage self.now (string_bytes s)) }
    {
        match self {
            Reason::Parse(ParseError::Syntax) => String::from_str(alloc, PLAIN_SYNTAX_ERROR),
            Reason::Parse(ParseError::TooDeep) => String::from_str(alloc, TOO_MANY_LEVELS),
            _ => match self.advice() {
                Some(advice) => format!(in alloc; "{self}; {advice}"),
                None => self.to_string(alloc),
            },
        }
    }

    /// What to write in place of what Prometheus takes (docs/reference/targets.md, "What the server accepts").
    fn advice(&self) -> Option<&'static str> {
        match self {
            Reason::Parse(ParseError::Number(NumberFault::TooManyDigits)) => {
                Some("Prometheus rounds it to a floating-point number")
            }
            Reason::Parse(
                ParseError::Lex(
                    LexFault {
                        kind: LexFaultKind::InBrackets,
                        ch: Some('#'),
                        ..
                    },
                ),
            ) => Some("Prometheus takes a comment there: write it after the bracket"),
            Reason::Parse(ParseError::UnknownFunction(name)) if name.as_str() == "holt_winters" => {
                Some(
                    "Prometheus 2 has it: write double_exponential_smoothing, its name in Prometheus 3",
                )
            }
            Reason::Parse(ParseError::Check(CheckFault::Node(NodeFault::AtBeforeRange))) => {
                Some("Prometheus takes it: write the range first")
            }
            _ => None,
        }
    }
}

/// Why and where a query is rejected.
#[derive(PartialEq, Eq, Debug, Drop, Error)]
#[error("{reason}")]
pub struct Rejection {
    /// Why it is rejected.
    pub reason: Reason,
    /// The part of the query that the error is about, empty at the end.
    pub span: Span,
    /// The line and the column where that part begins.
    pub location: Location,
}

/// The message of a syntax error where it does not tell what was expected.
pub const PLAIN_SYNTAX_ERROR: &str = "invalid promql query";

/// The message for people of a query that is nested too deeply.
pub const TOO_MANY_LEVELS: &str =
    "more than 512 levels: put parts of a long chain in parentheses, or split the query";

impl Rejection {
    /// The rejection of a query for this reason, at this part of it.
    pub fn new(query: &str, reason: Reason, span: Span) -> Rejection
        ensures reason { result.reason ≡ reason }
        ensures span { result.span ≡ span }
        ensures location { result.location ≡ location_of query.now span.start }
    {
        Rejection {
            reason,
            span,
            location: Location::line_column(query, span.start),
        }
    }

    /// What was found and what was expected at a syntax error (docs/reference/grammar.md, "What is expected"); `None` of any other
    /// error. `query` is the query that it is of.
    ///
    /// # Errors
    ///
    /// `AllocError` where an allocation failed.
    pub fn unexpected<'a>(
        &self,
        alloc: Global,
        query: &'a str,
    ) -> Result<Option<Unexpected<'a>>, AllocError>
        ensures { IfOk result (IsTold query.now self.now) }
    {
        if !self.reason.is_syntax() {
            return Ok(None);
        }
        Ok(Some(unexpected_at(alloc, query, self.span.start)?))
    }

    /// The message for people: what was found and what was expected, where that is told, or else the message of the reason.
    /// `query` is the query that it is of.
    ///
    /// # Errors
    ///
    /// `AllocError` where an allocation failed.
    pub fn message(&self, alloc: Global, query: &str) -> Result<String, AllocError>
        ensures { IfOk result (λ s. IsMessage query.now self.now (string_bytes s)) }
    {
        match self.unexpected(alloc, query)? {
            Some(unexpected) => unexpected.to_string(alloc),
            None => self.reason.plain_message(alloc),
        }
    }
}

/// The tree of a query, or why and where it is rejected. A query that is not within its limits is not parsed. One that its target
/// reads otherwise is rejected at the first part that it does, and one that is checked, where its target rejects it.
///
/// # Errors
///
/// `AllocError` where an allocation failed.
pub fn read_query(
    alloc: Global,
    limits: &Limits,
    query: &str,
) -> Result<Result<Expr, Rejection>, AllocError>
    ensures { IfOk result (λ r. MatchResult r (λ e. IsRead limits.now query.now (tree_of e)) (IsRejection limits.now query.now)) }
{
    let inspected = match inspect(alloc, limits, query) {
        Ok(inspected) => inspected,
        Err(fault) => {
            let span = limit_span(query, fault).ok_or(AllocError)?;
            return Ok(Err(Rejection::new(query, Reason::Limit(fault), span)));
        }
    };
    match diagnose(alloc, query) {
        Ok(expr) => Ok(for_target(limits, query, inspected, expr)),
        Err(Diagnosis { error, span }) => match span {
            Some(span) => Ok(Err(Rejection::new(query, Reason::Parse(error), span))),
            None => Err(AllocError),
        },
    }
}

/// The tree of a query that is within its limits, or the first part of the query that its target reads otherwise, or rejects where it is
/// checked.
fn for_target(
    limits: &Limits,
    query: &str,
    inspected: Inspected,
    expr: Expr,
) -> Result<Expr, Rejection>
    requires within { IsWithin query.now limits.now }
    requires difference { inspected.difference ≡ difference limits.now query.now }
    requires refusal { inspected.refusal ≡ refusal limits.now query.now }
    requires answer { IsAnswerTo query.now (Ok (tree_of expr)) }
    ensures { MatchResult result (λ e. IsRead limits.now query.now (tree_of e)) (IsRejection limits.now query.now) }
{
    match inspected {
        Inspected {
            difference: Some(Difference { kind, span }),
            ..
        } => {
            drop_expr(expr);
            Err(Rejection::new(query, Reason::Otherwise(kind), span))
        }
        Inspected {
            difference: None,
            refusal: Some(Refusal { kind, span }),
        } => {
            drop_expr(expr);
            let reason = Reason::Refused(limits.target, kind);
            Err(Rejection::new(query, reason, span))
        }
        Inspected {
            difference: None,
            refusal: None,
        } => Ok(expr),
    }
}

/// The part of a query that a fault is about; `None` where an allocation failed.
fn limit_span(query: &str, fault: LimitFault) -> Option<Span>
    ensures { result ≡ limit_place query.now fault }
{
    match fault {
        LimitFault::Memory => None,
        LimitFault::TooLong { .. } => Some(end_of_text(query)),
        LimitFault::PatternsTooLarge { place, .. } => Some(place),
    }
}
