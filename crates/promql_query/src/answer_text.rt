//! The answer to a query that has a text in a format: docs/reference/programs.md, "Answers". No value is made of the text.

ghost use Rattle.std.specs.Prelude.{◌≡◌, ◌⊎◌, ◌++◌, ◌≤◌, Err, IfErr, IfOk, Some, codes, length, option_map, string_bytes};
ghost use Rattle.serde_json.specs.Data.{string};
ghost use Rattle.serde_json.specs.Written.{compact_text};
ghost use Rattle.promql_text.specs.Texts.{Text};
ghost use Rattle.promql_query.specs.Batch as spec;
ghost use Rattle.promql_query.specs.declared.mode.Mode.TheVariants.{Plain};
ghost use Rattle.promql_query.specs.declared.mode.Wanted.TheVariants.{Print};
ghost use Rattle.promql_query.specs.QueryErrors.{IsOutput};

use crate::finite_json::value_text;
use crate::query_error::QueryError;
use crate::rejected_query::RejectedQuery;
use crate::rejection::{Reason, Rejection};
use json::Writer;
use promql_run::format::Format;
use promql_span::Target;
use promql_span::limits::{Limits, check_output};
use promql_target::{Refusal, first_refusal};
use serde_json::Value;
use std::alloc::{AllocError, Global};

/// What an answer has before its value, and after it.
const BEFORE_VALUE: &str = "{\"ok\":";

const AFTER_VALUE: &str = "}";

/// What an answer has before its warning.
const BEFORE_WARNING: &str = ",\"warning\":";

/// How many bytes an answer has beside its string and what is escaped in that, and some more for a few escapes.
const ROOM: usize = 32;

/// The answer whose value has this text.
pub(crate) fn answer_of_json(alloc: Global, value: &str) -> Result<String, AllocError>
    ensures { IfOk result (λ s. string_bytes s ≡ codes "{\"ok\":" ++ (value.now ++ codes "}")) }
{
    let room = value.len().saturating_add(ROOM);
    let mut answer = String::with_capacity(alloc, room)?;
    answer.push_str(BEFORE_VALUE)?;
    answer.push_str(value)?;
    answer.push_str(AFTER_VALUE)?;
    Ok(answer)
}

/// The answer whose value is this text, as a JSON string.
fn answer_of_text(alloc: Global, value: &str) -> Result<String, AllocError>
    ensures { IfOk result (λ s. string_bytes s
        ≡ codes "{\"ok\":" ++ (compact_text (string value.now) ++ codes "}")) }
{
    let room = value.len().saturating_add(ROOM);
    let mut answer = Writer::new(Vec::with_capacity(alloc, room)?);
    answer.begin_object()?;
    answer.key("ok")?;
    answer.string(value)?;
    answer.end_object()?;
    match String::from_utf8(answer.into_inner()) {
        Ok(text) => Ok(text),
        Err(_) => unreachable!(),
    }
}

/// The answer with what is shown in a format.
fn shown_answer(alloc: Global, format: Format, shown: &str) -> Result<String, AllocError>
    ensures { IfOk result (λ s. string_bytes s
        ≡ codes "{\"ok\":" ++ (spec.value_text (Plain format) shown.now ++ codes "}")) }
{
    match format {
        Format::Pretty(_) => answer_of_text(alloc, shown),
        Format::Line => answer_of_text(alloc, shown),
        Format::Json => answer_of_json(alloc, shown),
    }
}

/// The member for a query of which the target rejects this part, with a comma before it.
fn refusal_member(
    alloc: Global,
    target: Target,
    query: &str,
    refusal: Refusal,
) -> Result<String, AllocError>
    ensures { IfOk result (λ s. (message : Text) × (string_bytes s
        ≡ codes ",\"warning\":" ++ compact_text (spec.error_value 24 message (Some (spec.refused_query target query.now refusal))))) }
{
    let Refusal { kind, span } = refusal;
    let reason = Reason::Refused(target, kind);
    let message = reason.plain_message(alloc)?;
    let rejected = RejectedQuery {
        rejection: Rejection::new(query, reason, span),
        expectation: None,
    };
    let error = rejected.text(alloc, message.as_str())?;
    let mut member = String::from_str(alloc, BEFORE_WARNING)?;
    member.push_str(error.as_str())?;
    Ok(member)
}

/// A text as a JSON string.
fn json_string(alloc: Global, text: &str) -> Result<String, AllocError>
    ensures { IfOk result (λ s. string_bytes s ≡ compact_text (string text.now)) }
{
    let value = Value::String(String::from_str(alloc, text)?);
    value_text(alloc, value)
}

/// The answer with a query of which the target rejects this part.
fn refused_answer(
    alloc: Global,
    target: Target,
    query: &str,
    refusal: Refusal,
) -> Result<String, AllocError>
    ensures { IfOk result (λ s. (message : Text) × (string_bytes s ≡ codes "{\"ok\":" ++ (compact_text (string query.now)
        ++ (codes ",\"warning\":" ++ compact_text (spec.error_value 24 message (Some (spec.refused_query target query.now refusal))) ++ codes "}")))) }
{
    let member = refusal_member(alloc, target, query, refusal)?;
    let mut value = json_string(alloc, query)?;
    value.push_str(member.as_str())?;
    answer_of_json(alloc, value.as_str())
}

/// The answer with a query that is sent on, and a warning where its target rejects a part.
fn warned_answer(alloc: Global, target: Target, query: &str) -> Result<String, AllocError>
    ensures { IfOk result (λ s. (warning : Text) × spec.IsWarning target query.now warning
        × (string_bytes s ≡ codes "{\"ok\":" ++ (compact_text (string query.now) ++ (warning ++ codes "}")))) }
{
    match first_refusal(target, query) {
        Some(refusal) => refused_answer(alloc, target, query, refusal),
        None => answer_of_text(alloc, query),
    }
}

/// The answer with what is shown in a format of a query in which a matcher was enforced.
fn enforced_answer(
    alloc: Global,
    limits: &Limits,
    format: Format,
    shown: &str,
) -> Result<String, AllocError>
    ensures { (matcher : Text) → IfOk result (λ s.
        spec.IsOkText limits.now (Some matcher) (Print (Plain format)) shown.now (string_bytes s)) }
{
    match format {
        Format::Pretty(_) => warned_answer(alloc, limits.target, shown),
        Format::Line => warned_answer(alloc, limits.target, shown),
        Format::Json => answer_of_json(alloc, shown),
    }
}

/// The answer with what is shown in a format of a query in which this matcher was enforced, if there is one.
fn ok_answer(
    alloc: Global,
    limits: &Limits,
    format: Format,
    matcher: Option<&str>,
    shown: &str,
) -> Result<String, AllocError>
    ensures { IfOk result (λ s. spec.IsOkText limits.now (option_map (λ s. s.now) matcher.entry) (Print (Plain format))
        shown.now (string_bytes s)) }
{
    match matcher {
        None => shown_answer(alloc, format, shown),
        Some(_) => enforced_answer(alloc, limits, format, shown),
    }
}

/// The answer with what is shown in a format of a query in which this matcher was enforced, if there is one, and if what is shown is within
/// the limits.
pub(crate) fn answer_within(
    alloc: Global,
    limits: &Limits,
    format: Format,
    matcher: Option<&str>,
    shown: &str,
) -> Result<String, QueryError>
    ensures short { IfOk result (λ s. length shown.now ≤ limits.now.max_output) }
    ensures ok { IfOk result (λ s. spec.IsOkText limits.now (option_map (λ s. s.now) matcher.entry) (Print (Plain format))
        shown.now (string_bytes s)) }
    ensures err { IfErr result (λ e. IsOutput limits.now shown.now (Err e) ⊎ (e ≡ QueryError.Memory)) }
{
    if let Err(fault) = check_output(shown, limits) {
        return Err(QueryError::LongOutput(fault));
    }
    match ok_answer(alloc, limits, format, matcher, shown) {
        Ok(answer) => Ok(answer),
        Err(_) => Err(QueryError::Memory),
    }
}
