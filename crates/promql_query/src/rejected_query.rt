//! A query that is rejected, with what was expected at a syntax error: docs/reference/programs.md, "Errors".

ghost use Rattle.std.specs.Prelude.{◌≡◌, IfOk, Some, map, string_bytes};
ghost use Rattle.serde_json.specs.View.{view};
ghost use Rattle.promql_text.specs.Texts.{Text};
ghost use Rattle.serde_json.specs.Written.{compact_text};
ghost use Rattle.promql_query.specs.Rejecting.{IsMessage, reason_number};
ghost use Rattle.promql_query.specs.Batch.{error_value, texts};
ghost use Rattle.promql_query.specs.BatchSteps.{TellsAll};
ghost use Rattle.promql_query.specs.Telling.{IsToldWith, Tells};

use crate::rejection::Rejection;
use promql_span::unexpected::Unexpected;
use serde_json::{Value, json};
use std::alloc::{AllocError, Global};
use thiserror::Error;

/// What a syntax error tells beside its place: docs/reference/grammar.md, "What is expected".
#[derive(PartialEq, Eq, Debug, Drop)]
pub struct Expectation {
    /// What was expected, by names.
    pub expected: Vec<&'static str>,
    /// What was found: a token, or the end.
    pub found: String,
    /// Both as a message for people, with what may be meant.
    pub message: String,
}

/// A query that is rejected.
#[derive(PartialEq, Eq, Debug, Drop, Error)]
#[error("{rejection}")]
pub struct RejectedQuery {
    /// Why and where it is rejected.
    pub rejection: Rejection,
    /// What was expected there, of a syntax error.
    pub expectation: Option<Expectation>,
}

impl RejectedQuery {
    /// The query that is rejected so.
    ///
    /// # Errors
    ///
    /// `AllocError` where an allocation failed.
    pub fn new(
        alloc: Global,
        query: &str,
        rejection: Rejection,
    ) -> Result<RejectedQuery, AllocError>
        ensures rejection { IfOk result (λ r. r.rejection ≡ rejection) }
        ensures told { IfOk result (IsToldWith query.now) }
    {
        match expectation_of(alloc, query, &rejection) {
            Ok(expectation) => Ok(RejectedQuery {
                rejection,
                expectation,
            }),
            Err(error) => {
                drop(rejection);
                Err(error)
            }
        }
    }

    /// The message for people: what was found and what was expected, where that is told, or else the message of the reason.
    ///
    /// # Errors
    ///
    /// `AllocError` where an allocation failed.
    pub fn message(&self, alloc: Global) -> Result<String, AllocError>
        ensures { (query : Text) → IsToldWith query self.now
            → IfOk result (λ s. IsMessage query self.now.rejection (string_bytes s)) }
    {
        match &self.expectation {
            Some(expectation) => copy_of(alloc, &expectation.message),
            None => self.rejection.reason.plain_message(alloc),
        }
    }

    /// An object of the error's number and its message, with its place and what was expected there.
    ///
    /// # Errors
    ///
    /// `AllocError` where an allocation failed.
    pub fn value(&self, alloc: Global, code: u8, message: &str) -> Result<Value, AllocError>
        ensures { IfOk result (λ v. view v ≡ error_value code message.now (Some self.now)) }
    {
        let Rejection { span, location, .. } = &self.rejection;
        let Some(expectation) = &self.expectation else {
            return json!(in alloc; {
                "code": code,
                "column": location.column,
                "end": span.end,
                "error": message,
                "line": location.line,
                "start": span.start
            });
        };
        json!(in alloc; {
            "code": code,
            "column": location.column,
            "end": span.end,
            "error": message,
            "expected": names_value(alloc, expectation.expected.as_slice())?,
            "found": expectation.found.as_str(),
            "line": location.line,
            "start": span.start
        })
    }

    /// The text of that object with this message.
    ///
    /// # Errors
    ///
    /// `AllocError` where an allocation failed.
    pub fn text(&self, alloc: Global, message: &str) -> Result<String, AllocError>
        ensures { IfOk result (λ s. string_bytes s
            ≡ compact_text (error_value (reason_number self.now.rejection.reason) message.now (Some self.now))) }
    {
        let object = self.value(alloc, self.rejection.reason.number(), message)?;
        let text = object.to_string(alloc);
        drop(object);
        text
    }
}

/// A copy of a text.
fn copy_of(alloc: Global, text: &String) -> Result<String, AllocError>
    ensures { IfOk result (λ s. string_bytes s ≡ string_bytes text.now) }
{
    String::from_str(alloc, text.as_str())
}

/// What was expected where a query has a syntax error, if that is told.
fn expectation_of(
    alloc: Global,
    query: &str,
    rejection: &Rejection,
) -> Result<Option<Expectation>, AllocError>
    ensures { IfOk result (TellsAll query.now rejection.now) }
{
    match rejection.unexpected(alloc, query)? {
        Some(unexpected) => Ok(Some(make_expectation(alloc, unexpected)?)),
        None => Ok(None),
    }
}

/// What was expected, by names, what was found, and the message.
fn make_expectation(alloc: Global, unexpected: Unexpected<'_>) -> Result<Expectation, AllocError>
    ensures { IfOk result (Tells unexpected.entry) }
{
    let found = unexpected.found_name().to_string(alloc)?;
    let message = unexpected.to_string(alloc)?;
    let Unexpected { names, .. } = unexpected;
    Ok(Expectation {
        expected: names,
        found,
        message,
    })
}

/// A list of names.
fn names_value(alloc: Global, names: &[&'static str]) -> Result<Value, AllocError>
    ensures { IfOk result (λ v. view v ≡ texts (map (λ name. name.now) names.now)) }
{
    let mut list = Vec::with_capacity(alloc, names.len())?;
    for name in names {
        list.push(Value::try_from_str(alloc, name)?)?;
    }
    Ok(Value::Array(list))
}
