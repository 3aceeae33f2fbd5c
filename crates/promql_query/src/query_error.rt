//! What can go wrong with a query: docs/reference/programs.md, "Numbers of errors".

ghost use Rattle.std.specs.Prelude.{◌≡◌, Err, None, option_map};
ghost use Rattle.promql_text.specs.Texts.{Text};
ghost use Rattle.promql_query.specs.Rejecting.{IsRejection};
ghost use Rattle.promql_query.specs.QueryErrors.{ReadsQuery, query_error_number, rejected_in};
ghost use Rattle.promql_span.specs.declared.limits.Limits as spans;

use crate::labels_fault::LabelsFault;
use crate::read_form::LargeForm;
use crate::rejected_query::RejectedQuery;
use crate::rejection::Rejection;
use crate::request_fault::RequestFault;
use promql_formatter::options::WideOption;
use promql_from_json::FromJsonError;
use promql_json::JsonError;
use promql_rewrite::{MatcherError, NotFaithful, NotPrintable};
use promql_span::limits::{LimitFault, LongOutput};
use std::alloc::AllocError;
use thiserror::Error;

/// What has the limits of a query beside the query that is asked for.
#[derive(Clone, Copy, Debug, PartialEq, Eq, Error)]
pub enum Measured {
    /// The text that a matcher to enforce is read in.
    #[error("matcher")]
    MatcherText,
    /// The line of the query with the matcher.
    #[error("enforced query")]
    EnforcedLine,
    /// The line of the query with the new name.
    #[error("renamed query")]
    RenamedLine,
    /// The new name.
    #[error("new name")]
    NewName,
}

/// Why there is no answer to a query.
#[derive(PartialEq, Eq, Debug, Drop, Error)]
pub enum QueryError {
    /// An allocation failed.
    #[error("out of memory")]
    Memory,
    /// A text is not valid UTF-8.
    #[error("input is not UTF-8")]
    NotUtf8,
    /// The query is not within its limits, or the parser rejects it.
    #[error("{0}")]
    Rejected(RejectedQuery),
    /// The tree has no JSON form.
    #[error("{0}")]
    NoForm(JsonError),
    /// The line is not a JSON string, nor an object that asks for a query.
    #[error("line is not a request: {0}")]
    NotARequest(RequestFault),
    /// The line is an object with a member of this name, which no request has.
    #[error("line is not a request: it has no member {0:?}")]
    UnknownMember(String),
    /// There is no mode or kind of this number, or the level of a layout is above 512.
    #[error("unknown mode")]
    UnknownMode,
    /// An option asks for a layout with lines or indentations that are too wide.
    #[error("{0}")]
    WideLayout(WideOption),
    /// The matcher is none, or none to enforce.
    #[error("{0}")]
    Matcher(MatcherError),
    /// The target reads the text of a matcher otherwise, at this byte of it, from 0.
    #[error("Prometheus reads the matcher otherwise: the escape at byte {0} is a byte there, and a character here")]
    MatcherOtherwise(usize),
    /// The text would not mean the tree.
    #[error("{0}")]
    Unfaithful(NotFaithful),
    /// The line of a tree that is given as JSON would not mean the tree.
    #[error("{0}")]
    NotPrintable(NotPrintable),
    /// The layout of the query does not read back.
    #[error("the formatted query does not read back")]
    NotFormatted,
    /// A call of `info` in the query has no second argument, and a matcher is to be enforced.
    #[error("info without a selector reads series that no matcher limits")]
    Info,
    /// A tree that is given as JSON is too long, or its patterns are too large together. Of a pattern nothing was read.
    #[error("{0}")]
    LargeForm(LargeForm),
    /// The line of a tree that is given as JSON is not within the limits of a query.
    #[error("{0}")]
    LargeTree(LimitFault),
    /// What is measured beside the query is not within the limits of the query. Of a matcher nothing was read.
    #[error("the {0} is not within the limits: {1}")]
    Large(Measured, LimitFault),
    /// The text is not JSON, or is the form of no tree.
    #[error("{0}")]
    NotATree(FromJsonError),
    /// What is printed is not within the limits.
    #[error("{0}")]
    LongOutput(LongOutput),
    /// The query is not its layout.
    #[error("the query is not formatted")]
    NotItsLayout,
    /// A metric's new name is no word that may be before braces.
    #[error("the new name is no name of a metric")]
    NotAName,
    /// The old name or the new one of a label is `__name__`.
    #[error("the label of the metric name cannot be renamed")]
    MetricName,
    /// Both labels are in the matchers of one selector, or in the lists of one aggregation or of one operator.
    #[error("both labels are in one list")]
    Clash,
    /// 64 bits do not hold a time of the node that has this text.
    #[error("a time of `{0}` is below -2^63 or above 2^63 - 1 milliseconds")]
    TimeOverflow(String),
    /// The query is to be pinned, and calls `start`, `end`, `step` or `range`.
    #[error("a call of `start`, `end`, `step` or `range` depends on the times of the whole query")]
    GridFunction,
    /// What is given as the labels of a series is none.
    #[error("the labels are {0}")]
    NotLabels(LabelsFault),
}

impl QueryError {
    /// The error of a query that is rejected, without what was expected.
    pub fn rejected(rejection: Rejection) -> QueryError
        ensures { (limits : spans.Limits) (query : Text) → IsRejection limits query rejection
            → ReadsQuery (λ r. r.expectation ≡ None) limits query (Err result) }
    {
        QueryError::Rejected(RejectedQuery {
            rejection,
            expectation: None,
        })
    }

    /// The error's number, with which a program ends, and which the answer to a line shows; the status of a call of the library.
    pub fn number(&self) -> u8
        ensures { result ≡ query_error_number self.now }
    {
        match self {
            QueryError::Memory => 1,
            QueryError::NotUtf8 => 3,
            QueryError::Rejected(query) => query.rejection.reason.number(),
            QueryError::NoForm(_) => 6,
            QueryError::NotARequest(_) | QueryError::UnknownMember(_) => 7,
            QueryError::UnknownMode | QueryError::WideLayout(_) => 9,
            QueryError::Matcher(_) => 11,
            QueryError::Unfaithful(_) | QueryError::NotPrintable(_) | QueryError::NotFormatted => {
                12
            }
            QueryError::Info => 13,
            QueryError::LargeForm(_) | QueryError::LargeTree(_) => 14,
            QueryError::Large(_, _) => 16,
            QueryError::NotATree(_) => 17,
            QueryError::LongOutput(_) => 18,
            QueryError::NotItsLayout => 19,
            QueryError::NotAName => 20,
            QueryError::MetricName => 21,
            QueryError::Clash => 22,
            QueryError::MatcherOtherwise(_) => 23,
            QueryError::TimeOverflow(_) => 25,
            QueryError::GridFunction => 26,
            QueryError::NotLabels(_) => 27,
        }
    }

    /// The query that is rejected, where that is the error.
    pub fn rejected_query(&self) -> Option<&RejectedQuery>
        ensures { option_map (λ r. r.now) result ≡ rejected_in self.now }
    {
        match self {
            QueryError::Rejected(query) => Some(query),
            QueryError::Memory
            | QueryError::NotUtf8
            | QueryError::NoForm(_)
            | QueryError::NotARequest(_)
            | QueryError::UnknownMember(_)
            | QueryError::UnknownMode
            | QueryError::WideLayout(_)
            | QueryError::Matcher(_)
            | QueryError::MatcherOtherwise(_)
            | QueryError::Unfaithful(_)
            | QueryError::NotPrintable(_)
            | QueryError::NotFormatted
            | QueryError::Info
            | QueryError::LargeForm(_)
            | QueryError::LargeTree(_)
            | QueryError::Large(_, _)
            | QueryError::NotATree(_)
            | QueryError::LongOutput(_)
            | QueryError::NotItsLayout
            | QueryError::NotAName
            | QueryError::MetricName
            | QueryError::Clash
            | QueryError::TimeOverflow(_)
            | QueryError::GridFunction
            | QueryError::NotLabels(_) => None,
        }
    }
}

impl From<AllocError> for QueryError {
    ghost use Rattle.std.specs.Prelude.{◌≡◌};
    ghost use Rattle.promql_query.specs.declared.query_error.QueryError.TheVariants.{Memory};

    ghost from_gives = { λ _ e. e ≡ Memory };

    fn from(_e: AllocError) -> QueryError {
        QueryError::Memory
    }
}
