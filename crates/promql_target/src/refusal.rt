//! The first part of a query that a server rejects: docs/reference/targets.md.

ghost use Rattle.std.specs.Prelude.{◌≡◌, ◌≤◌, ◌+◌, ◌∷◌, ◌++◌, [], drop, false, length, map, None, option_map, option_to_list, slice_get, IfOk, IfSome, OnOk, ℕ};
ghost use Rattle.std.specs.Option.{option_or};
ghost use Rattle.promql_text.specs.Texts.{Text};
ghost use Rattle.promql_token.specs.Cursor.{tokens_left, tokens_up_to_fault};
ghost use Rattle.promql_span.specs.Differences.{Tokens};
ghost use Rattle.promql_span.specs.PlacedTokens.{placed_tokens};
ghost use Rattle.promql_span.specs.declared.target.Target as targets;
ghost use Rattle.promql_target.specs.Searching.{IsSearched};
ghost use Rattle.promql_target.specs.Refusals as spec;

use crate::area::{Area, Place, start};
use crate::later::{is_later, is_logarithm};
use promql_span::{
    PlacedTokens, Span, Target, after_signs, comes_first, is_before_operand, next_span,
    token_numbered,
};
use promql_text::parse_duration;
use promql_token::cursor::Cursor;
use promql_token::ids::{
    T_ADD, T_ANCHORED, T_ATAN2, T_BY, T_DURATION, T_EQL, T_EQL_REGEX, T_FILL, T_FILL_LEFT,
    T_FILL_RIGHT, T_LEFT_BRACE, T_LEFT_BRACKET, T_LEFT_PAREN, T_LIMIT_RATIO, T_LIMITK, T_LOR,
    T_NEQ, T_NEQ_REGEX, T_NUMBER, T_RIGHT_BRACE, T_RIGHT_PAREN, T_SMOOTHED, T_STRING, T_SUB,
    T_WITHOUT,
};
use promql_token::{Lexeme, TokenId};
use std::alloc::{AllocError, Global};
use thiserror::Error;

/// What a server rejects, and these rules accept.
#[derive(Clone, Copy, Debug, PartialEq, Eq, Error)]
pub enum RefusalKind {
    /// `or` between matchers.
    #[error("it knows no `or` between matchers")]
    OrGroup,
    /// The name of a metric or of a label in quotes.
    #[error("names in quotes are of a later version")]
    QuotedName,
    /// `fill`, `fill_left` or `fill_right` after an operator.
    #[error("`fill`, `fill_left` and `fill_right` are of a later version")]
    Fill,
    /// `smoothed` or `anchored` after a range.
    #[error("`smoothed` and `anchored` are of a later version")]
    RangeMode,
    /// A number for a length of time.
    #[error("a length of time without a unit is of a later version; write 300s for 300")]
    NumberForTime,
    /// A duration for a number.
    #[error("a duration for a number is of a later version; write 300 for 5m")]
    DurationForNumber,
    /// A duration of more than 2^63 - 1 nanoseconds.
    #[error("a duration is at most 2^63 - 1 nanoseconds there, some 292 years")]
    LongDuration,
    /// A plus after `offset`.
    #[error("a plus after `offset` is of a later version; leave it out")]
    PlusAfterOffset,
    /// A function of a later version.
    #[error("the function is of a later version")]
    LaterFunction,
    /// An aggregation of a later version.
    #[error("the aggregation is of a later version")]
    LaterAggregator,
    /// A plus before a string, or before a selector with a range.
    #[error("a sign is before numbers and instant vectors only there; leave it out")]
    PlusBeforeValue,
    /// The character U+FFFD in a string.
    #[error("the character U+FFFD stands for bytes that are not UTF-8 there; write \\ufffd in quotes for it")]
    ReplacementCharacter,
    /// `atan2` as the name of a metric.
    #[error("`atan2` is an operator there; write {{__name__=\"atan2\"}} for the metric")]
    BareAtan2,
    /// `without` in a list of labels.
    #[error("`without` is no label in a list there")]
    LabelWithout,
    /// A number for the vector of `exp`, `ln`, `log2` or `log10`.
    #[error("the argument is an instant vector there; write vector(..) around the number")]
    NumberForVector,
}

impl RefusalKind {
    /// Whether a target rejects it.
    pub(crate) fn is_of(self, target: Target) -> bool
        ensures { result ≡ spec.is_of target self }
    {
        match target {
            Target::Prometheus2 => true,
            Target::Prometheus3 => self.is_lasting(),
            Target::Rules => false,
        }
    }

    /// Whether a later version rejects it, too.
    fn is_lasting(self) -> bool
        ensures { result ≡ spec.is_lasting self }
    {
        match self {
            RefusalKind::OrGroup
            | RefusalKind::LongDuration
            | RefusalKind::PlusBeforeValue
            | RefusalKind::ReplacementCharacter
            | RefusalKind::NumberForVector => true,
            RefusalKind::QuotedName
            | RefusalKind::Fill
            | RefusalKind::RangeMode
            | RefusalKind::NumberForTime
            | RefusalKind::DurationForNumber
            | RefusalKind::PlusAfterOffset
            | RefusalKind::LaterFunction
            | RefusalKind::LaterAggregator
            | RefusalKind::BareAtan2
            | RefusalKind::LabelWithout => false,
        }
    }
}

/// A part of a query that a server rejects.
#[derive(Clone, Copy, Debug, PartialEq, Eq)]
pub struct Refusal {
    /// What it is.
    pub kind: RefusalKind,
    /// The token with which it begins.
    pub span: Span,
}

/// The first part of a query that a target rejects, where these rules accept the query; `None` where it is not known to reject any. It
/// looks at the tokens up to a lexical fault, once, and allocates nothing.
pub fn first_refusal(target: Target, query: &str) -> Option<Refusal>
    ensures { result ≡ spec.first_refusal target query.now }
{
    let mut tokens = Cursor::new(query);
    let mut found = FoundRefusal::new();
    while let Some(token) = tokens.next() {
        found.pass(target, query, token, tokens);
        if let Some(first) = found.first {
            return Some(first);
        }
    }
    found.first
}

/// What a pass over the first tokens of a query found.
#[derive(Clone, Copy)]
pub(crate) struct FoundRefusal {
    place: Place,
    /// How many tokens there were.
    index: usize,
    /// The first part that is rejected.
    pub(crate) first: Option<Refusal>,
}

impl FoundRefusal {
    /// Before the first token.
    pub(crate) fn new() -> FoundRefusal
        ensures { (target : targets.Target) (query : Text) → IsSearched target query (tokens_up_to_fault query) result }
    {
        FoundRefusal {
            place: start(),
            index: 0,
            first: None,
        }
    }

    /// Goes past one more token of the query, which has `rest` after it.
    #[inline(always)]
    pub(crate) fn pass(
        &mut self,
        target: Target,
        query: &str,
        token: (TokenId, &str),
        rest: Cursor<'_>,
    )
        requires { IsSearched target query.now ((token.0, token.1.now) ∷ tokens_left rest) self.old }
        ensures { IsSearched target query.now (tokens_left rest.entry) self.new }
    {
        let kind = refused_kind(target, self.place, token, rest);
        self.first = self.first_with(query, kind);
        self.place = self.place.after(token.0);
        self.index += 1;
    }

    /// The first part, where this is rejected at one more token.
    #[inline(always)]
    fn first_with(&self, query: &str, kind: Option<RefusalKind>) -> Option<Refusal>
        ensures { result ≡ option_or self.now.first (option_map (spec.refusal_at query.now) (option_map (λ k. (self.now.index, k)) kind)) }
    {
        if let Some(first) = self.first {
            return Some(first);
        }
        let kind = kind?;
        let span = token_numbered(query, self.index);
        Some(Refusal { kind, span })
    }
}

/// All such parts, in the order of the text. It takes the time to read the query.
///
/// # Errors
///
/// `AllocError` where an allocation failed.
pub fn refusals(alloc: Global, target: Target, query: &str) -> Result<Vec<Refusal>, AllocError>
    ensures { IfOk result (λ rs. rs.items ≡ spec.refusals target query.now) }
{
    let mut found = Vec::new(alloc);
    let mut tokens = Cursor::new(query);
    let mut places = PlacedTokens::new(query);
    let mut place = start();
    while let Some(token) = tokens.next() {
        let lexeme = places.next();
        let kind = refused_kind(target, place, token, tokens);
        push_refusal(&mut found, query, lexeme, kind)?;
        place = place.after(token.0);
    }
    Ok(found)
}

/// Adds the part at a token, where this is rejected there.
fn push_refusal(
    found: &mut Vec<Refusal>,
    query: &str,
    token: Option<Lexeme>,
    kind: Option<RefusalKind>,
) -> Result<(), AllocError>
    requires { IfSome token (λ x. x.start + x.len ≤ length query.now) }
    ensures { (n : ℕ) → token ≡ slice_get (drop n (placed_tokens query.now)) 0 → OnOk result (found.new.items
        ≡ found.old.items ++ map (spec.refusal_at query.now) (option_to_list (option_map (λ k. (n, k)) kind))) }
{
    let Some(kind) = kind else {
        return Ok(());
    };
    let span = next_span(query, token);
    found.push(Refusal { kind, span })?;
    Ok(())
}

/// What the target rejects at a token, which has `rest` after it.
#[inline(always)]
fn refused_kind(
    target: Target,
    place: Place,
    token: (TokenId, &str),
    rest: Cursor<'_>,
) -> Option<RefusalKind>
    ensures { result ≡ spec.counted target (spec.kind_at place (token.entry.0, token.entry.1.now) (tokens_left rest.entry)) }
{
    let kind = kind_at(target, place, token, rest)?;
    kind.is_of(target).then_some(kind)
}

/// What is rejected at a token, which has `rest` after it, or something that the target does not reject.
#[inline(always)]
fn kind_at(
    target: Target,
    place: Place,
    token: (TokenId, &str),
    rest: Cursor<'_>,
) -> Option<RefusalKind>
    ensures { spec.counted target result ≡ spec.counted target (spec.kind_at place (token.entry.0, token.entry.1.now) (tokens_left rest.entry)) }
{
    let (id, token) = token;
    match id {
        T_STRING => string_kind(place, token.as_bytes()),
        T_DURATION => duration_kind(place, token),
        T_NUMBER => place.is_before_time().then_some(RefusalKind::NumberForTime),
        T_ADD => plus_kind(place, rest),
        _ => word_kind(target, place, id, token, rest),
    }
}

/// What is rejected at a string.
fn string_kind(place: Place, string: &[u8]) -> Option<RefusalKind>
    ensures { result ≡ spec.string_kind place string.now }
{
    if is_for_name(place) {
        Some(RefusalKind::QuotedName)
    } else if has_replacement_character(string) {
        Some(RefusalKind::ReplacementCharacter)
    } else {
        None
    }
}

/// Whether a string there is a name.
fn is_for_name(place: Place) -> bool
    ensures { result ≡ spec.is_for_name place }
{
    match place.area {
        Area::Braces => !matches!(place.before, T_EQL | T_NEQ | T_EQL_REGEX | T_NEQ_REGEX),
        area => area.has_labels(),
    }
}

/// Whether a string has the character itself.
fn has_replacement_character(string: &[u8]) -> bool
    ensures { result ≡ spec.has_replacement_character string.now }
{
    let mut rest = string;
    while let [b, after @ ..] = rest {
        if *b == 0xef && after.starts_with(&[0xbf, 0xbd]) {
            return true;
        }
        rest = after;
    }
    false
}

/// What is rejected at a duration.
fn duration_kind(place: Place, duration: &str) -> Option<RefusalKind>
    ensures { result ≡ spec.duration_kind place duration.now }
{
    if is_long(duration) {
        Some(RefusalKind::LongDuration)
    } else if place.is_before_time() {
        None
    } else {
        Some(RefusalKind::DurationForNumber)
    }
}

/// Whether a duration has more nanoseconds than 63 bits hold.
fn is_long(duration: &str) -> bool
    ensures { result ≡ spec.is_long duration.now }
{
    match parse_duration(duration) {
        Ok(length) => length.as_nanos() >= 9_223_372_036_854_775_808,
        Err(_) => false,
    }
}

/// What is rejected at a plus.
fn plus_kind(place: Place, rest: Cursor<'_>) -> Option<RefusalKind>
    ensures { result ≡ spec.plus_kind place (tokens_left rest.entry) }
{
    if place.in_offset {
        Some(RefusalKind::PlusAfterOffset)
    } else if is_before_operand(place.before) && begins_with_value(in_signs(rest)) {
        Some(RefusalKind::PlusBeforeValue)
    } else {
        None
    }
}

/// The place after signs and opening parentheses.
fn in_signs(tokens: Cursor<'_>) -> Cursor<'_>
    ensures { tokens_left result ≡ spec.in_signs (tokens_left tokens.entry) }
{
    let mut operand = tokens;
    let mut after = operand;
    while let Some((T_ADD | T_SUB | T_LEFT_PAREN, _)) = after.next() {
        operand = after;
    }
    operand
}

/// Whether a string comes, or a selector with a range.
fn begins_with_value(tokens: Cursor<'_>) -> bool
    ensures { result ≡ spec.begins_with_value (tokens_left tokens.entry) }
{
    comes_first(T_STRING, tokens) || comes_first(T_LEFT_BRACKET, after_selector(tokens))
}

/// The place after a name and braces, or after one of the two.
fn after_selector(tokens: Cursor<'_>) -> Cursor<'_>
    ensures { tokens_left result ≡ spec.after_selector (tokens_left tokens.entry) }
{
    if comes_first(T_LEFT_BRACE, tokens) {
        return after_brace(tokens);
    }
    let name = past_token(tokens);
    if comes_first(T_LEFT_BRACE, name) {
        after_brace(name)
    } else {
        name
    }
}

/// The place after a token.
fn past_token(tokens: Cursor<'_>) -> Cursor<'_>
    ensures { tokens_left result ≡ spec.past_token (tokens_left tokens.entry) }
{
    let mut after = tokens;
    let _ = after.next();
    after
}

/// The place after a closing brace.
fn after_brace(tokens: Cursor<'_>) -> Cursor<'_>
    ensures { tokens_left result ≡ spec.after_brace (tokens_left tokens.entry) }
{
    let mut rest = tokens;
    while let Some((id, _)) = rest.next() {
        if id == T_RIGHT_BRACE {
            return rest;
        }
    }
    rest
}

/// What is rejected at a word, or at another token, or something that the target does not reject.
#[inline(always)]
fn word_kind(
    target: Target,
    place: Place,
    id: TokenId,
    word: &str,
    rest: Cursor<'_>,
) -> Option<RefusalKind>
    ensures { spec.counted target result ≡ spec.counted target (spec.word_kind place (id, word.now) (tokens_left rest.entry)) }
{
    match place.area {
        Area::Braces => {
            (id == T_LOR && place.before == T_STRING).then_some(RefusalKind::OrGroup)
        }
        Area::Clause | Area::Matching => { (id == T_WITHOUT).then_some(RefusalKind::LabelWithout) }
        Area::Brackets => None,
        Area::Open if place.is_after_operand() => {
            matches!(id, T_SMOOTHED | T_ANCHORED).then_some(RefusalKind::RangeMode)
        }
        Area::Open => operand_kind(target, id, word, rest),
    }
}

/// What is rejected at a word with which an operand begins, or something that the target does not reject.
fn operand_kind(target: Target, id: TokenId, word: &str, rest: Cursor<'_>) -> Option<RefusalKind>
    ensures { spec.counted target result ≡ spec.counted target (spec.operand_kind (id, word.now) (tokens_left rest.entry)) }
{
    match id {
        T_ATAN2 => Some(RefusalKind::BareAtan2),
        T_FILL | T_FILL_LEFT | T_FILL_RIGHT if comes_first(T_LEFT_PAREN, rest) => {
            Some(RefusalKind::Fill)
        }
        T_LIMITK | T_LIMIT_RATIO if is_aggregation(rest) => Some(RefusalKind::LaterAggregator),
        _ if has_refused_call(target, word) && comes_first(T_LEFT_PAREN, rest) => {
            call_kind(word, past_token(rest))
        }
        _ => None,
    }
}

/// Whether the target rejects some call of the function of this name.
fn has_refused_call(target: Target, name: &str) -> bool
    ensures { result ≡ false → (arguments : Tokens) → spec.counted target (spec.call_kind name.now arguments) ≡ None }
{
    is_logarithm(name) || (matches!(target, Target::Prometheus2) && is_later(name))
}

/// Whether what comes makes an aggregation of the operator before it.
fn is_aggregation(rest: Cursor<'_>) -> bool
    ensures { result ≡ spec.is_aggregation (tokens_left rest.entry) }
{
    comes_first(T_LEFT_PAREN, rest) || comes_first(T_BY, rest) || comes_first(T_WITHOUT, rest)
}

/// What is rejected of a call with these arguments.
fn call_kind(name: &str, arguments: Cursor<'_>) -> Option<RefusalKind>
    ensures { result ≡ spec.call_kind name.now (tokens_left arguments.entry) }
{
    if is_later(name) {
        Some(RefusalKind::LaterFunction)
    } else if is_logarithm(name) && is_number(after_signs(arguments)) {
        Some(RefusalKind::NumberForVector)
    } else {
        None
    }
}

/// Whether a number or a duration comes, and then a closing parenthesis.
fn is_number(argument: Cursor<'_>) -> bool
    ensures { result ≡ spec.is_number (tokens_left argument.entry) }
{
    (comes_first(T_NUMBER, argument) || comes_first(T_DURATION, argument))
        && comes_first(T_RIGHT_PAREN, past_token(argument))
}
