//! What the values of members mean: docs/reference/json.md, "Values". Private.

ghost use Rattle.std.specs.Prelude.{◌≡◌, ◌≢◌, ℕ, ℤ, [], Bool, FitsSigned, Option, Some, None, pos, slice_get, int_lt, codes, IfErr, IfOk, IfSome, IfNone, false, true, OnErr, OnOk, option_map};
ghost use Rattle.std.specs.Duration.{as_nanos};
ghost use Rattle.std.specs.Int.{w64};
ghost use Rattle.std.specs.List.{list_any};
ghost use Rattle.std.specs.Str.{bytes_eq};
ghost use Rattle.serde_json.specs.Data.{Data, Items, Members, array, boolean, member, null, object, string};
ghost use Rattle.serde_json.specs.Find.{get};
ghost use Rattle.serde_json.specs.View.{items_view, members_view, view};
ghost use Rattle.promql_text.specs.Texts.{Text};
ghost use Rattle.promql_text.specs.Values.{IsNumber};
ghost use Rattle.promql_text.specs.declared.number.Number.{Number as AnyNumber};
ghost use Rattle.promql_token.specs.Ids.{is_one_of, text_of};
ghost use Rattle.promql_ast.specs.Shifts.{Moment, moment_of, shift_of};
ghost use Rattle.promql_from_json.specs.FormMembers.{mode_members};
ghost use Rattle.promql_json.specs.Json.{width_fault};
ghost use Rattle.promql_json.specs.FormNames.{step_fault, token_json};
ghost use Rattle.promql_from_json.specs.Readable.{ReadableMoment};
ghost use Rattle.promql_from_json.specs.ReadableBelow.{ReadableFill};
ghost use Rattle.promql_from_json.specs.FormMisfits.{AsksOf, Form, IsNot, MisfitAt, expected_at, one, or_null, row_of, rows, word};
ghost use Rattle.promql_from_json.specs.MembersLeft.{IsIn};
ghost use Rattle.promql_from_json.specs.declared.from_error.Expected.TheVariants.{Flag, Length, List as ListThere, Millis, Number as NumberText, Object as ObjectThere, RangeMode as RangeModeWord, StartOrEnd, Text as TextThere};
ghost use Rattle.promql_from_json.specs.declared.from_error.ReadError.TheVariants.{Memory};
ghost use Rattle.promql_json.specs.JsonParts as spec;

use crate::from_error::{Expected, ReadError};
use promql_ast::{AtModifier, Offset, RangeMode};
use promql_text::{Number, parse_str_radix};
use promql_token::TokenId;
use promql_token::ids::{
    T_ADD, T_ATAN2, T_AVG, T_BOTTOMK, T_COUNT, T_COUNT_VALUES, T_DIV, T_EQLC, T_GROUP, T_GTE,
    T_GTR, T_LAND, T_LIMIT_RATIO, T_LIMITK, T_LOR, T_LSS, T_LTE, T_LUNLESS, T_MAX, T_MIN, T_MOD,
    T_MUL, T_NEQ, T_POW, T_QUANTILE, T_STDDEV, T_STDVAR, T_SUB, T_SUM, T_TOPK, token_display,
};
use serde_json::{Map, Value};
use std::alloc::Global;
use std::time::Duration;

/// The aggregators.
pub(crate) const AGGREGATORS: [TokenId; 14] = [
    T_SUM,
    T_AVG,
    T_COUNT,
    T_MIN,
    T_MAX,
    T_GROUP,
    T_STDDEV,
    T_STDVAR,
    T_TOPK,
    T_BOTTOMK,
    T_COUNT_VALUES,
    T_QUANTILE,
    T_LIMITK,
    T_LIMIT_RATIO,
];

/// The operators between two expressions.
pub(crate) const OPERATORS: [TokenId; 16] = [
    T_ADD, T_SUB, T_MUL, T_DIV, T_MOD, T_POW, T_ATAN2, T_EQLC, T_NEQ, T_LTE, T_LSS, T_GTE, T_GTR,
    T_LAND, T_LOR, T_LUNLESS,
];

pub(crate) fn read_object(alloc: Global, value: &Value) -> Result<&Map<String, Value>, ReadError>
    ensures ok { IfOk result (λ m. view value.now ≡ object (members_view m.now.entries)) }
    ensures err { OnErr result ((ms : Members) → view value.now ≢ object ms) }
    ensures place { IfErr result (λ e. (f : Form) → slice_get (expected_at f) 0 ≡ Some ObjectThere → IsIn f (view value.now) e) }
{
    match value {
        Value::Object(members) => Ok(members),
        _ => Err(ReadError::here(alloc, Expected::Object)),
    }
}

pub(crate) fn read_list(alloc: Global, value: &Value) -> Result<&Vec<Value>, ReadError>
    ensures ok { IfOk result (λ l. view value.now ≡ array (items_view l.now.items)) }
    ensures err { OnErr result ((ds : Items) → view value.now ≢ array ds) }
    ensures place { IfErr result (λ e. (f : Form) → slice_get (expected_at f) 0 ≡ Some ListThere → IsIn f (view value.now) e) }
{
    match value {
        Value::Array(list) => Ok(list),
        _ => Err(ReadError::here(alloc, Expected::List)),
    }
}

pub(crate) fn read_text(alloc: Global, value: &Value) -> Result<&str, ReadError>
    ensures ok { IfOk result (λ s. view value.now ≡ string s.now) }
    ensures err { OnErr result ((s : Text) → view value.now ≢ string s) }
    ensures place { IfErr result (λ e. (f : Form) → slice_get (expected_at f) 0 ≡ Some TextThere → IsIn f (view value.now) e) }
{
    match value {
        Value::String(text) => Ok(text.as_str()),
        _ => Err(ReadError::here(alloc, Expected::Text)),
    }
}

pub(crate) fn read_flag(alloc: Global, value: &Value) -> Result<bool, ReadError>
    ensures ok { IfOk result (λ b. view value.now ≡ boolean b) }
    ensures err { OnErr result ((b : Bool) → view value.now ≢ boolean b) }
    ensures place { IfErr result (IsIn (one Flag) (view value.now)) }
{
    match value {
        Value::Bool(flag) => Ok(*flag),
        _ => Err(ReadError::here(alloc, Expected::Flag)),
    }
}

/// Nothing but this text.
pub(crate) fn expect_text(
    alloc: Global,
    value: &Value,
    wanted: &str,
    expected: Expected,
) -> Result<(), ReadError>
    ensures ok { OnOk result (view value.now ≡ string wanted.now) }
    ensures err { OnErr result (view value.now ≢ string wanted.now) }
    ensures place { IfErr result (λ e. (f : Form) → MisfitAt f (view value.now) [] expected → IsIn f (view value.now) e) }
{
    match value {
        Value::String(text) if text.as_str() == wanted => Ok(()),
        _ => Err(ReadError::here(alloc, expected)),
    }
}

/// The id that has this text, of a few.
fn id_of_text(ids: &[TokenId], text: &str) -> Option<TokenId>
    ensures found { IfSome result (λ id. text_of id ≡ text.now) }
    ensures none { IfNone result (list_any (λ k. bytes_eq (text_of k) text.now) ids.now ≡ false) }
{
    for id in ids {
        if token_display(*id) == text {
            return Some(*id);
        }
    }
    None
}

/// The id of a token among a few.
pub(crate) fn read_id(
    alloc: Global,
    value: &Value,
    ids: &[TokenId],
    expected: Expected,
) -> Result<TokenId, ReadError>
    ensures ok { IfOk result (λ id. view value.now ≡ token_json id) }
    ensures err { OnErr result ((id : ℕ) → is_one_of ids.now id ≡ true → view value.now ≢ token_json id) }
    ensures place { IfErr result (λ e. IsNot expected (view value.now) → IsIn (word expected) (view value.now) e) }
{
    let text = read_text(alloc, value)?;
    match id_of_text(ids, text) {
        Some(id) => Ok(id),
        None => Err(ReadError::here(alloc, expected)),
    }
}

/// A number that prints as this text.
fn number_of_text(alloc: Global, text: &str) -> Result<Number, ReadError>
    ensures ok { IfOk result (λ n. spec.number_json n ≡ string text.now) }
    ensures err { IfErr result (λ e. e ≢ Memory → (n : AnyNumber) → IsNumber n → spec.number_json n ≢ string text.now) }
    ensures place { IfErr result (λ e. IsNot NumberText (string text.now) → IsIn (word NumberText) (string text.now) e) }
{
    promql_text::laws::number_reads_back();
    let Ok(number) = parse_str_radix(text) else {
        return Err(ReadError::here(alloc, Expected::Number));
    };
    let printed = number.to_string(alloc)?;
    if printed.as_str() == text {
        Ok(number)
    } else {
        Err(ReadError::here(alloc, Expected::Number))
    }
}

pub(crate) fn read_number(alloc: Global, value: &Value) -> Result<Number, ReadError>
    ensures ok { IfOk result (λ n. view value.now ≡ spec.number_json n) }
    ensures err { IfErr result (λ e. e ≢ Memory → (n : AnyNumber) → IsNumber n → view value.now ≢ spec.number_json n) }
    ensures place { IfErr result (IsIn (word NumberText) (view value.now)) }
{
    let text = read_text(alloc, value)?;
    number_of_text(alloc, text)
}

pub(crate) fn read_optional_number(
    alloc: Global,
    value: &Value,
) -> Result<Option<Number>, ReadError>
    ensures ok { IfOk result (λ n. view value.now ≡ spec.or_null spec.number_json n) }
    ensures err { IfErr result (λ e. e ≢ Memory → (n : Option AnyNumber) → ReadableFill n
        → view value.now ≢ spec.or_null spec.number_json n) }
    ensures place { IfErr result (IsIn (or_null (word NumberText)) (view value.now)) }
{
    match value {
        Value::Null => Ok(None),
        _ => Ok(Some(read_number(alloc, value)?)),
    }
}

/// A length of time.
pub(crate) fn read_length(alloc: Global, value: &Value) -> Result<Duration, ReadError>
    ensures ok { IfOk result (λ d. view value.now ≡ spec.whole (spec.millis (as_nanos d))) }
    ensures fits { IfOk result (λ d. width_fault (spec.millis (as_nanos d)) ≡ None) }
    ensures err { OnErr result ((n : ℕ) → view value.now ≢ spec.whole (spec.millis n)) }
    ensures place { IfErr result (λ e. IsNot Length (view value.now) → IsIn (one Length) (view value.now) e) }
{
    match value.as_u64() {
        Some(millis) => Ok(Duration::from_millis(millis)),
        None => Err(ReadError::here(alloc, Expected::Length)),
    }
}

pub(crate) fn read_step(alloc: Global, value: &Value) -> Result<Option<Duration>, ReadError>
    ensures ok { IfOk result (λ d. view value.now
        ≡ spec.or_null (λ n. spec.whole (spec.millis n)) (option_map as_nanos d)) }
    ensures fits { IfOk result (λ d. step_fault (option_map as_nanos d) ≡ None) }
    ensures err { OnErr result ((step : Option ℕ)
        → view value.now ≢ spec.or_null (λ n. spec.whole (spec.millis n)) step) }
    ensures place { IfErr result (IsIn (or_null (one Length)) (view value.now)) }
{
    match value {
        Value::Null => Ok(None),
        _ => Ok(Some(read_length(alloc, value)?)),
    }
}

/// A whole number that fits 64 bits with its sign.
fn read_i64(alloc: Global, value: &Value) -> Result<i64, ReadError>
    ensures ok { IfOk result (λ z. view value.now ≡ spec.whole z) }
    ensures err { OnErr result ((z : ℤ) → FitsSigned w64 z → view value.now ≢ spec.whole z) }
    ensures place { IfErr result (λ e. IsNot Millis (view value.now) → IsIn (one Millis) (view value.now) e) }
{
    match value.as_i64() {
        Some(z) => Ok(z),
        None => Err(ReadError::here(alloc, Expected::Millis)),
    }
}

/// An offset below zero.
fn read_negative(alloc: Global, value: &Value) -> Result<Option<Offset>, ReadError>
    ensures ok { IfOk result (λ o. view value.now
        ≡ spec.whole (spec.shift_millis (option_map shift_of o))) }
    ensures fits { IfOk result (λ o. width_fault (spec.shift_millis (option_map shift_of o)) ≡ None) }
    ensures err { OnErr result ((z : ℤ) → int_lt z (pos 0) ≡ true → view value.now ≢ spec.whole z) }
    ensures place { IfErr result (λ e. IsNot Millis (view value.now) → IsIn (one Millis) (view value.now) e) }
{
    match value.as_i64() {
        Some(millis) if millis < 0 => Ok(Some(Offset::Neg(Duration::from_millis(
            millis.unsigned_abs(),
        )))),
        _ => Err(ReadError::here(alloc, Expected::Millis)),
    }
}

/// An offset; 0 is none.
pub(crate) fn read_offset(alloc: Global, value: &Value) -> Result<Option<Offset>, ReadError>
    ensures ok { IfOk result (λ o. view value.now
        ≡ spec.whole (spec.shift_millis (option_map shift_of o))) }
    ensures fits { IfOk result (λ o. width_fault (spec.shift_millis (option_map shift_of o)) ≡ None) }
    ensures err { OnErr result ((z : ℤ) → view value.now ≢ spec.whole z) }
    ensures place { IfErr result (IsIn (one Millis) (view value.now)) }
{
    match value.as_u64() {
        Some(0) => Ok(None),
        Some(millis) => Ok(Some(Offset::Pos(Duration::from_millis(millis)))),
        None => read_negative(alloc, value),
    }
}

/// The time after `@` where it is `start` or `end`; None for null.
pub(crate) fn read_start_or_end(
    alloc: Global,
    value: &Value,
) -> Result<Option<AtModifier>, ReadError>
    ensures start { IfOk result (λ at. view value.now
        ≡ spec.start_or_end (option_map moment_of at)) }
    ensures null { IfOk result (λ at. spec.timestamp (option_map moment_of at) ≡ null) }
    ensures err { OnErr result ((at : Option Moment) → view value.now ≢ spec.start_or_end at) }
    ensures place { IfErr result (λ e. IsNot StartOrEnd (view value.now) → IsIn (one StartOrEnd) (view value.now) e) }
{
    match value {
        Value::Null => Ok(None),
        Value::String(text) if text.as_str() == "start" => Ok(Some(AtModifier::Start)),
        Value::String(text) if text.as_str() == "end" => Ok(Some(AtModifier::End)),
        _ => Err(ReadError::here(alloc, Expected::StartOrEnd)),
    }
}

/// The time after `@`, by what `startOrEnd` says.
pub(crate) fn read_timestamp(
    alloc: Global,
    value: &Value,
    start_or_end: Option<AtModifier>,
) -> Result<Option<AtModifier>, ReadError>
    requires { spec.timestamp (option_map moment_of start_or_end) ≡ null }
    ensures same { IfOk result (λ at. spec.start_or_end (option_map moment_of start_or_end)
        ≡ spec.start_or_end (option_map moment_of at)) }
    ensures time { IfOk result (λ at. view value.now ≡ spec.timestamp (option_map moment_of at)) }
    ensures err { OnErr result ((at : Option Moment) → ReadableMoment at
        → spec.start_or_end (option_map moment_of start_or_end) ≡ spec.start_or_end at
        → view value.now ≢ spec.timestamp at) }
    ensures place { IfErr result (λ e. (f : Form) (d : Data) → row_of (codes "timestamp") (rows f) ≡ Some (or_null (one Millis))
        → get (codes "startOrEnd") d ≡ Some (spec.start_or_end (option_map moment_of start_or_end))
        → (g : Form) × AsksOf f d (codes "timestamp") g × IsIn g (view value.now) e) }
{
    match (value, start_or_end) {
        (Value::Null, at) => Ok(at),
        (_, None) => Ok(Some(AtModifier::At(read_i64(alloc, value)?))),
        _ => Err(ReadError::here(alloc, Expected::NoTimestamp)),
    }
}

/// The mode of a range that is not plain.
pub(crate) fn read_mode(alloc: Global, value: &Value) -> Result<RangeMode, ReadError>
    ensures ok { IfOk result (λ mode. (ms : Members) → mode_members mode ms ≡ member (codes "rangeMode") (view value.now) ms) }
    ensures not_smoothed { OnErr result (view value.now ≢ string (codes "smoothed")) }
    ensures not_anchored { OnErr result (view value.now ≢ string (codes "anchored")) }
    ensures place { IfErr result (λ e. IsNot RangeModeWord (view value.now) → IsIn (one RangeModeWord) (view value.now) e) }
{
    match value {
        Value::String(text) if text.as_str() == "smoothed" => Ok(RangeMode::Smoothed),
        Value::String(text) if text.as_str() == "anchored" => Ok(RangeMode::Anchored),
        _ => Err(ReadError::here(alloc, Expected::RangeMode)),
    }
}
