//! The answer to one line of a batch: docs/reference/programs.md, "Answers".

ghost use Rattle.std.specs.Prelude.{◌≡◌, ◌<◌, ◌≤◌, Option, Some, None, Ok, Err, IfOk, IfErr, IfSome, option_map, length, string_bytes};
ghost use Rattle.std.specs.Str.{IsUtf8};
ghost use Rattle.serde_json.specs.Data.{depth};
ghost use Rattle.serde_json.specs.Read.{max_depth, read};
ghost use Rattle.serde_json.specs.View.{view};
ghost use Rattle.promql_text.specs.Texts.{Text};
ghost use Rattle.promql_ast.specs.Height.{height};
ghost use Rattle.promql_ast.specs.Text.{text as line_text};
ghost use Rattle.promql_ast.specs.Tree.{Tree};
ghost use Rattle.promql_ast.specs.View.{tree_of};
ghost use Rattle.promql_syntax.specs.ParseAnswers.{IsAnswerTo};
ghost use Rattle.promql_syntax.specs.declared.parser.TheConstants.{MAX_DEPTH};
ghost use Rattle.promql_run.specs.Extensions.{HasNoExtension};
ghost use Rattle.promql_run.specs.declared.format.Format as formats;
ghost use Rattle.promql_query.specs.BatchSteps.{FailsWith, IsAsked, IsAskedAnswer, IsAskedPrint, IsEnforcedToldAnswer, IsOkLine, IsPlacedAnswer, IsQueryAnswer, IsToldAnswer, IsTreeAnswer, IsWantedAnswer, PrintsFormat, TellsEnforced};
ghost use Rattle.promql_query.specs.TimesSteps.{IsOfTree};
ghost use Rattle.promql_query.specs.TimesText.{TellsTimes};
ghost use Rattle.promql_query.specs.Batch.{HasShortLine, IsErrorText, IsLineAnswer, IsPlainAnswer, PrintsAsked, PrintsQuery, error_value, limits_of};
ghost use Rattle.promql_query.specs.QueryErrors.{Prints, ReadsQuery, query_error_number, rejected_in};
ghost use Rattle.promql_query.specs.Telling.{IsToldWith};
ghost use Rattle.promql_query.specs.Requests as spec;
ghost use Rattle.promql_query.specs.declared.settings.Settings as batches;
ghost use Rattle.promql_query.specs.Rejecting.{IsRead};

use crate::answer_text::{answer_of_json, answer_within};
use crate::enforced_line::{NotEnforced, enforced_within};
use crate::matcher_reason::error_message;
use crate::mode::{Mode, Wanted};
use crate::placed_text::placed_text;
use crate::query_error::QueryError;
use crate::quoted_query::quoted_query;
use crate::rejected_query::RejectedQuery;
use crate::rejection::read_query;
use crate::request::{matcher_in, query_in, unknown_in, wanted_in};
use crate::request_fault::{RequestFault, fault_in};
use crate::request_id::answer_with_id;
use crate::settings::Settings;
use crate::times_text::times_text;
use promql_ast::{Expr, drop_expr};
use promql_json::JsonError;
use promql_run::format::Format;
use promql_run::rendering::shown_text;
use promql_span::limits::{Limits, LongOutput};
use promql_when::Times;
use serde_json::{Category, Value, json};
use std::alloc::{AllocError, Global};

/// The answer to a line.
#[derive(Drop)]
pub struct LineAnswer {
    /// A JSON object, without a line feed.
    pub text: String,
    /// Whether it is an `ok`.
    pub is_ok: bool,
}

/// The value of a line as JSON; `None` where it is none. Its frame holds what reads JSON, 16 kB.
#[inline(never)]
fn read_value(alloc: Global, line: &str) -> Result<Option<Value>, AllocError>
    ensures value { IfOk result (λ value. read line.now ≡ option_map view value) }
    ensures nests { IfOk result (λ value. IfSome value (λ v. depth (view v) ≤ max_depth)) }
{
    match Value::from_str(alloc, line) {
        Ok(value) => Ok(Some(value)),
        Err(error) if error.classify() == Category::Memory => Err(AllocError),
        Err(_) => Ok(None),
    }
}

/// The error of a line of so many bytes, which are more than an output may have.
fn long_line(limits: &Limits, len: usize) -> QueryError
    ensures { (u : Tree) → len ≡ length (line_text u) → limits.now.max_output < len → HasShortLine limits.now u (Err result) }
{
    let most = limits.max_output;
    QueryError::LongOutput(LongOutput { len, most })
}

/// The expression with the matcher of the text in every selector, if there is one. None is made whose line is longer than an output
/// may be.
fn enforced(
    alloc: Global,
    limits: &Limits,
    expr: Expr,
    matcher: Option<&str>,
) -> Result<Expr, QueryError>
    ensures ok { IfOk result (λ e.
        IsAsked limits.now (option_map (λ s. s.now) matcher.entry) (tree_of expr) (Ok (tree_of e))) }
    ensures err { IfErr result (λ e.
        IsAsked limits.now (option_map (λ s. s.now) matcher.entry) (tree_of expr) (Err e)) }
{
    let Some(text) = matcher else {
        return Ok(expr);
    };
    match enforced_within(alloc, limits, expr, text, limits.max_output) {
        Ok(enforced) => Ok(enforced.expr),
        Err(NotEnforced::Query(error)) => Err(error),
        Err(NotEnforced::TooLong(len)) => Err(long_line(limits, len)),
    }
}

/// The tree of a query. Where it is rejected, the error tells what was expected.
fn read_tree(alloc: Global, limits: &Limits, query: &str) -> Result<Expr, QueryError>
    ensures ok { IfOk result (λ e. IsRead limits.now query.now (tree_of e)) }
    ensures err { IfErr result (λ e. ReadsQuery (IsToldWith query.now) limits.now query.now (Err e)) }
{
    match read_query(alloc, limits, query) {
        Ok(Ok(expr)) => Ok(expr),
        Ok(Err(rejection)) => match RejectedQuery::new(alloc, query, rejection) {
            Ok(query) => Err(QueryError::Rejected(query)),
            Err(_) => Err(QueryError::Memory),
        },
        Err(_) => Err(QueryError::Memory),
    }
}

/// The answer with what is printed in a format of a tree in which this matcher was enforced, if there is one.
fn answer_tree(
    alloc: Global,
    limits: &Limits,
    format: Format,
    matcher: Option<&str>,
    expr: &Expr,
) -> Result<String, QueryError>
    requires low { height (tree_of expr.now) ≤ MAX_DEPTH }
    requires plain { HasNoExtension (tree_of expr.now) }
    ensures ok { IfOk result (λ s. IsTreeAnswer limits.now (option_map (λ s. s.now) matcher.entry) format
        (tree_of expr.now) (string_bytes s)) }
    ensures err { IfErr result (λ e. PrintsFormat limits.now format (tree_of expr.now) (Err e)) }
{
    match shown_text(alloc, format, expr) {
        Ok(Some(text)) => answer_within(alloc, limits, format, matcher, text.as_str()),
        Ok(None) => Err(QueryError::NoForm(JsonError::NumberTooWide)),
        Err(_) => Err(QueryError::Memory),
    }
}

/// The answer with what is printed of a query's tree in a format, with a matcher in its selectors if there is one.
fn answer_asked(
    alloc: Global,
    limits: &Limits,
    format: Format,
    expr: Expr,
    matcher: Option<&str>,
) -> Result<String, QueryError>
    requires low { height (tree_of expr) ≤ MAX_DEPTH }
    requires plain { HasNoExtension (tree_of expr) }
    ensures ok { IfOk result (λ s. IsAskedAnswer limits.now (option_map (λ s. s.now) matcher.entry) format
        (tree_of expr) (string_bytes s)) }
    ensures err { IfErr result (λ e. IsAskedPrint limits.now (option_map (λ s. s.now) matcher.entry) format
        (tree_of expr) (Err e)) }
{
    let expr = enforced(alloc, limits, expr, matcher)?;
    let answer = answer_tree(alloc, limits, format, matcher, &expr);
    drop_expr(expr);
    answer
}

/// The answer with the JSON form of a query's tree with places.
fn answer_form(
    alloc: Global,
    limits: &Limits,
    query: &str,
    expr: &Expr,
) -> Result<String, QueryError>
    ensures ok { IsAnswerTo query.now (Ok (tree_of expr.now)) → IfOk result (λ s.
        IsPlacedAnswer limits.now query.now (tree_of expr.now) (string_bytes s)) }
    ensures err { IsAnswerTo query.now (Ok (tree_of expr.now)) → IfErr result (λ e.
        Prints limits.now query.now Mode.Placed (tree_of expr.now) (Err e)) }
{
    match placed_text(alloc, limits, query, expr) {
        Ok(text) => match answer_of_json(alloc, text.as_str()) {
            Ok(answer) => Ok(answer),
            Err(_) => Err(QueryError::Memory),
        },
        Err(error) => Err(error),
    }
}

/// The answer with the JSON form of a query's tree with places.
fn answer_placed(
    alloc: Global,
    limits: &Limits,
    query: &str,
    expr: Expr,
) -> Result<String, QueryError>
    requires { IsAnswerTo query.now (Ok (tree_of expr)) }
    ensures ok { IfOk result (λ s. IsPlacedAnswer limits.now query.now (tree_of expr) (string_bytes s)) }
    ensures err { IfErr result (λ e. Prints limits.now query.now Mode.Placed (tree_of expr) (Err e)) }
{
    let answer = answer_form(alloc, limits, query, &expr);
    drop_expr(expr);
    answer
}

/// The answer with what is printed of a query's tree in a mode, with a matcher in its selectors if there is one.
fn answer_mode(
    alloc: Global,
    limits: &Limits,
    mode: Mode,
    query: &str,
    expr: Expr,
    matcher: Option<&str>,
) -> Result<String, QueryError>
    requires low { height (tree_of expr) ≤ MAX_DEPTH }
    requires plain { HasNoExtension (tree_of expr) }
    requires answer { IsAnswerTo query.now (Ok (tree_of expr)) }
    ensures ok { IfOk result (λ s. IsWantedAnswer limits.now query.now (option_map (λ s. s.now) matcher.entry)
        (Wanted.Print mode) (tree_of expr) (string_bytes s)) }
    ensures err { IfErr result (λ e. PrintsAsked limits.now query.now (Wanted.Print mode)
        (option_map (λ s. s.now) matcher.entry) (tree_of expr) (Err e)) }
{
    match mode {
        Mode::Plain(format) => answer_asked(alloc, limits, format, expr, matcher),
        Mode::Placed => answer_placed(alloc, limits, query, expr),
    }
}

/// The answer that tells when an expression reads, which is that of the query, if there is one.
fn answer_told(
    alloc: Global,
    limits: &Limits,
    query: Option<&str>,
    times: &Times,
    expr: &Expr,
) -> Result<String, QueryError>
    requires { IsOfTree (option_map (λ s. s.now) query) (tree_of expr.now) }
    ensures ok { IfOk result (λ s. IsToldAnswer (option_map (λ s. s.now) query.entry) limits.now times.now
        (tree_of expr.now) (string_bytes s)) }
    ensures err { IfErr result (λ e. TellsTimes (option_map (λ s. s.now) query.entry) limits.now times.now
        (tree_of expr.now) (Err e)) }
{
    match times_text(alloc, limits, query, times, expr) {
        Ok(text) => match answer_of_json(alloc, text.as_str()) {
            Ok(answer) => Ok(answer),
            Err(_) => Err(QueryError::Memory),
        },
        Err(error) => Err(error),
    }
}

/// The answer that tells when a query's tree reads.
fn answer_times(
    alloc: Global,
    limits: &Limits,
    query: &str,
    times: &Times,
    expr: Expr,
) -> Result<String, QueryError>
    requires { IsAnswerTo query.now (Ok (tree_of expr)) }
    ensures ok { IfOk result (λ s. IsToldAnswer (Some query.now) limits.now times.now (tree_of expr) (string_bytes s)) }
    ensures err { IfErr result (λ e. TellsTimes (Some query.now) limits.now times.now (tree_of expr) (Err e)) }
{
    let answer = answer_told(alloc, limits, Some(query), times, &expr);
    drop_expr(expr);
    answer
}

/// The answer that tells when an expression reads with the matcher of the text in every selector.
fn answer_enforced_times(
    alloc: Global,
    limits: &Limits,
    times: &Times,
    expr: Expr,
    matcher: &str,
) -> Result<String, QueryError>
    ensures ok { IfOk result (λ s. IsEnforcedToldAnswer limits.now matcher.now times.now (tree_of expr) (string_bytes s)) }
    ensures err { IfErr result (λ e. TellsEnforced limits.now matcher.now times.now (tree_of expr) (Err e)) }
{
    let expr = enforced(alloc, limits, expr, Some(matcher))?;
    let answer = answer_told(alloc, limits, None, times, &expr);
    drop_expr(expr);
    answer
}

/// The answer with what is wanted of a query's tree, with a matcher in its selectors if there is one.
fn answer_wanted(
    alloc: Global,
    limits: &Limits,
    wanted: Wanted,
    query: &str,
    expr: Expr,
    matcher: Option<&str>,
) -> Result<String, QueryError>
    requires low { height (tree_of expr) ≤ MAX_DEPTH }
    requires plain { HasNoExtension (tree_of expr) }
    requires answer { IsAnswerTo query.now (Ok (tree_of expr)) }
    ensures ok { IfOk result (λ s. IsWantedAnswer limits.now query.now (option_map (λ s. s.now) matcher.entry) wanted
        (tree_of expr) (string_bytes s)) }
    ensures err { IfErr result (λ e. PrintsAsked limits.now query.now wanted (option_map (λ s. s.now) matcher.entry)
        (tree_of expr) (Err e)) }
{
    match (wanted, matcher) {
        (Wanted::Print(mode), matcher) => answer_mode(alloc, limits, mode, query, expr, matcher),
        (Wanted::Times(times), None) => answer_times(alloc, limits, query, &times, expr),
        (Wanted::Times(times), Some(matcher)) => {
            answer_enforced_times(alloc, limits, &times, expr, matcher)
        }
    }
}

/// The limits of a query: what is printed as it is has no target.
fn limits_of(matcher: Option<&str>, limits: &Limits) -> Limits
    ensures { result ≡ limits_of (option_map (λ s. s.now) matcher.entry) limits.now }
{
    match matcher {
        Some(_) => *limits,
        None => limits.for_rules(),
    }
}

/// The answer to a query of which this is wanted, with a matcher in its selectors if there is one.
fn answer_query(
    alloc: Global,
    limits: &Limits,
    wanted: Wanted,
    query: &str,
    matcher: Option<&str>,
) -> Result<String, QueryError>
    ensures ok { IfOk result (λ s.
        IsQueryAnswer limits.now (string_bytes s) query.now (option_map (λ s. s.now) matcher.entry) wanted) }
    ensures err { IfErr result (λ e.
        PrintsQuery limits.now (query.now, option_map (λ s. s.now) matcher.entry, wanted) (Err e)) }
{
    match read_tree(alloc, &limits_of(matcher, limits), query) {
        Ok(expr) => answer_wanted(alloc, limits, wanted, query, expr, matcher),
        Err(error) => Err(error),
    }
}

/// The error of a line with a member of this name, which no request has.
fn unknown_member(alloc: Global, name: &str) -> QueryError
    ensures { (settings : batches.Settings) (line : Text) → IsUtf8 line
        → spec.unknown_member line ≡ Some name.now → FailsWith settings line result }
{
    match String::from_str(alloc, name) {
        Ok(name) => QueryError::UnknownMember(name),
        Err(_) => QueryError::Memory,
    }
}

/// The answer to a line with this value.
fn answer_value(alloc: Global, settings: &Settings, asked: &Value) -> Result<String, QueryError>
    ensures ok { (line : Text) → IsUtf8 line → read line ≡ Some (view asked.now)
        → IfOk result (λ s. IsOkLine settings.now line (string_bytes s)) }
    ensures err { (line : Text) → IsUtf8 line → read line ≡ Some (view asked.now)
        → IfErr result (FailsWith settings.now line) }
{
    if let Some(name) = unknown_in(asked) {
        return Err(unknown_member(alloc, name));
    }
    let Some(query) = query_in(asked) else {
        return Err(QueryError::NotARequest(fault_in(settings.format, asked)));
    };
    let Some(wanted) = wanted_in(settings.format, asked) else {
        return Err(QueryError::NotARequest(fault_in(settings.format, asked)));
    };
    answer_query(alloc, &settings.limits, wanted, query, matcher_in(asked))
}

/// An object of an error's number and its message.
fn plain_error_value(alloc: Global, code: u8, message: &str) -> Result<Value, AllocError>
    ensures { IfOk result (λ v. view v ≡ error_value code message.now None) }
{
    json!(in alloc; {"code": code, "error": message})
}

/// An object of an error and its message, with the place of a query that is rejected.
fn query_error_value(alloc: Global, error: &QueryError, message: &str) -> Result<Value, AllocError>
    ensures { IfOk result (λ v. view v ≡ error_value (query_error_number error.now) message.now (rejected_in error.now)) }
{
    let code = error.number();
    match error.rejected_query() {
        Some(query) => query.value(alloc, code, message),
        None => plain_error_value(alloc, code, message),
    }
}

/// The text of an object of the error, where this matcher was to be enforced.
fn error_text(
    alloc: Global,
    error: &QueryError,
    matcher: Option<&str>,
) -> Result<String, AllocError>
    ensures { IfOk result (λ s. IsErrorText error.now (string_bytes s)) }
{
    let message = error_message(alloc, error, matcher)?;
    let object = query_error_value(alloc, error, message.as_str())?;
    let text = object.to_string(alloc);
    drop(object);
    text
}

/// The answer to a line of which this was found, without an id. This matcher was to be enforced.
fn plain_answer(
    alloc: Global,
    found: Result<String, QueryError>,
    matcher: Option<&str>,
) -> Result<LineAnswer, AllocError>
    ensures { (settings : batches.Settings) (line : Text)
        → IfOk found (λ s. IsOkLine settings line (string_bytes s)) → IfErr found (FailsWith settings line)
        → IfOk result (λ a. IsPlainAnswer settings line (string_bytes a.text) a.is_ok) }
{
    match found {
        Ok(text) => Ok(LineAnswer { text, is_ok: true }),
        Err(error) => Ok(LineAnswer {
            text: error_text(alloc, &error, matcher)?,
            is_ok: false,
        }),
    }
}

/// The answer to a line with this value, with its id.
fn answer_request(
    alloc: Global,
    settings: &Settings,
    asked: &Value,
) -> Result<LineAnswer, AllocError>
    requires { depth (view asked.now) ≤ max_depth }
    ensures { (line : Text) → IsUtf8 line → read line ≡ Some (view asked.now)
        → IfOk result (λ a. IsLineAnswer settings.now line (string_bytes a.text) a.is_ok) }
{
    let found = answer_value(alloc, settings, asked);
    let LineAnswer { text, is_ok } = plain_answer(alloc, found, matcher_in(asked))?;
    let text = answer_with_id(alloc, asked, text)?;
    Ok(LineAnswer { text, is_ok })
}

/// The answer to a line, by its value as JSON.
fn answer_json(alloc: Global, settings: &Settings, line: &str) -> Result<LineAnswer, AllocError>
    ensures { IfOk result (λ a. IsLineAnswer settings.now line.now (string_bytes a.text) a.is_ok) }
{
    match read_value(alloc, line)? {
        Some(asked) => {
            let answer = answer_request(alloc, settings, &asked);
            drop(asked);
            answer
        }
        None => plain_answer(
            alloc,
            Err(QueryError::NotARequest(RequestFault::NotJson)),
            None,
        ),
    }
}

/// The answer to a line that is text. Most are a query in quotes, of which no value is made.
fn answer_text(alloc: Global, settings: &Settings, line: &str) -> Result<LineAnswer, AllocError>
    ensures { IfOk result (λ a. IsLineAnswer settings.now line.now (string_bytes a.text) a.is_ok) }
{
    let Some(query) = quoted_query(alloc, line)? else {
        return answer_json(alloc, settings, line);
    };
    let wanted = Wanted::Print(Mode::Plain(settings.format));
    let answer = answer_query(alloc, &settings.limits, wanted, query.as_str(), None);
    plain_answer(alloc, answer, None)
}

/// The answer to a line: an object with the member `ok`, or with `code`, `error` and, for a query that is rejected, its
/// place. Before these it has the id of the line, if that has one.
pub fn answer_line(
    alloc: Global,
    settings: &Settings,
    line: &[u8],
) -> Result<LineAnswer, AllocError>
    ensures { IfOk result (λ a. IsLineAnswer settings.now line.now (string_bytes a.text) a.is_ok) }
{
    match str::from_utf8(line) {
        Ok(text) => answer_text(alloc, settings, text),
        Err(_) => plain_answer(alloc, Err(QueryError::NotUtf8), None),
    }
}
