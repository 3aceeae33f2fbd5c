//! What Prometheus reads otherwise: docs/reference/programs.md, "Targets".

ghost use Rattle.std.specs.Prelude.{◌≡◌, ◌≤◌, ◌+◌, ◌==◌, [], ◌∷◌, IfOk, IfSome, MatchOption, codes, length, map, option_map, option_to_list, slice_get, take, true, ℕ, ◌++◌, OnOk};
ghost use Rattle.std.specs.List.{filter_map, list_any};
ghost use Rattle.std.specs.Str.{bytes_eq, str_eq_ignore_ascii_case};
ghost use Rattle.promql_text.specs.NumberText.{read_number};
ghost use Rattle.promql_token.specs.Cursor.{tokens_left};
ghost use Rattle.promql_span.specs.DifferenceSteps.{matched};
ghost use Rattle.promql_span.specs.Differences as spec;
ghost use Rattle.promql_span.specs.PlacedTokens.{placed_tokens};

use crate::byte_escapes::{escape_in, first_escape};
use crate::inspection::inspect_tokens;
use crate::limits::Limits;
use crate::lookahead::{after_signs, comes_first, is_before_operand, stands_for};
use crate::placed::PlacedTokens;
use crate::places::next_span;
use crate::span::Span;
use crate::target::Target;
use promql_text::parse_str_radix;
use promql_token::cursor::Cursor;
use promql_token::ids::{
    T_ADD, T_AT, T_EQL, T_EQL_REGEX, T_IDENTIFIER, T_LEFT_BRACE, T_LEFT_PAREN, T_NEQ, T_NEQ_REGEX,
    T_NUMBER, T_POW, T_RIGHT_BRACE, T_STRING, T_SUB,
};
use promql_token::{Lexeme, TokenId};
use std::alloc::{AllocError, Global};
use thiserror::Error;

/// How Prometheus reads a part of a query otherwise than these rules.
#[derive(Clone, Copy, Debug, PartialEq, Eq, Error)]
pub enum DifferenceKind {
    /// An escape of a byte of 128 and more (docs/reference/texts.md, "Byte escapes").
    #[error("the escape is a byte there, and a character here")]
    ByteEscape,
    /// A minus before a number that is zero.
    #[error("the number is negative zero there, and zero here")]
    NegativeZero,
    /// A time after `@` with parts of a millisecond.
    #[error("the time is rounded to a millisecond as a floating-point number there, and exactly here")]
    PartOfMillisecond,
    /// An escape of U+FFFD, which is printed as it is.
    #[error("the escape of U+FFFD is taken there, and the character itself, which is printed here, is rejected")]
    ReplacementEscape,
    /// A plus before the argument of a call that looks at how its argument is written.
    #[error("the call looks at the plus there, and it is left out here")]
    Plus,
    /// Matchers of one label in the argument of a call that looks at their order.
    #[error("the call looks at the order of matchers of one label there, and they are sorted here")]
    RepeatedLabel,
}

/// A part of a query that Prometheus reads otherwise.
#[derive(Clone, Copy, Debug, PartialEq, Eq)]
pub struct Difference {
    /// How it does.
    pub kind: DifferenceKind,
    /// The escape, the minus, or the name of the call.
    pub span: Span,
}

/// How a query is printed.
#[derive(Clone, Copy, Debug, PartialEq, Eq)]
pub enum Printed {
    /// As its tree is, on one line or over several.
    Tree,
    /// As a layout for people, in which signs, times after `@` and the order of matchers stay as they are written.
    Layout,
    /// As a layout whose matchers are in order.
    SortedLayout,
    /// Not at all: it is checked, whether its target takes it as it is written, and reads it as the tree is printed.
    Nothing,
}

impl DifferenceKind {
    /// Whether it is a difference for the target, as the query is printed.
    fn is_of(self, limits: &Limits) -> bool
        ensures { result ≡ spec.is_of limits.now.target limits.now.printed self }
    {
        match limits.target {
            Target::Prometheus2 | Target::Prometheus3 => self.is_of_print(limits.printed),
            Target::Rules => false,
        }
    }

    /// Whether it is a difference of what is printed so.
    fn is_of_print(self, printed: Printed) -> bool
        ensures { result ≡ spec.is_of_print printed self }
    {
        match printed {
            Printed::Tree | Printed::Nothing => true,
            Printed::Layout => {
                self.is_of_layout() && !matches!(self, DifferenceKind::RepeatedLabel)
            }
            Printed::SortedLayout => self.is_of_layout(),
        }
    }

    /// Whether it is one of a layout whose matchers are in order.
    fn is_of_layout(self) -> bool
        ensures { result ≡ spec.is_of_layout self }
    {
        match self {
            DifferenceKind::NegativeZero
            | DifferenceKind::PartOfMillisecond
            | DifferenceKind::Plus => false,
            DifferenceKind::ByteEscape
            | DifferenceKind::ReplacementEscape
            | DifferenceKind::RepeatedLabel => true,
        }
    }
}

impl Limits {
    /// The first part of a query that its target reads otherwise than what is printed of it. It looks at the tokens up to a lexical
    /// fault, once.
    ///
    /// # Errors
    ///
    /// `AllocError` where an allocation failed.
    pub fn difference(&self, alloc: Global, query: &str) -> Result<Option<Difference>, AllocError>
        ensures { IfOk result (λ d. d ≡ spec.difference self.now query.now) }
    {
        Ok(inspect_tokens(alloc, self, query)?.difference(query))
    }

    /// All such parts, in the order of the text. It takes the time to read the query.
    ///
    /// # Errors
    ///
    /// `AllocError` where an allocation failed.
    pub fn differences(&self, alloc: Global, query: &str) -> Result<Vec<Difference>, AllocError>
        ensures { IfOk result (λ ds. ds.items ≡ spec.differences self.now query.now) }
    {
        let mut found = Vec::new(alloc);
        let mut tokens = Cursor::new(query);
        let mut places = PlacedTokens::new(query);
        let mut before = T_LEFT_PAREN;
        while let Some(token) = tokens.next() {
            let place = places.next();
            let kind = self.difference_kind(alloc, before, token, tokens)?;
            push_difference(&mut found, query, place, kind)?;
            before = stands_for(before, token.0);
        }
        Ok(found)
    }

    /// What the target reads otherwise at a token, which has one of the id `before` before it and `rest` after it.
    #[inline(always)]
    #[tactic(auto, using(crate::proofs::FoundKinds::none_for_rules))]
    pub(crate) fn difference_kind(
        &self,
        alloc: Global,
        before: TokenId,
        token: (TokenId, &str),
        rest: Cursor<'_>,
    ) -> Result<Option<DifferenceKind>, AllocError>
        ensures { IfOk result (λ kind. kind ≡ spec.counted self.now (spec.kind_at before (token.entry.0, token.entry.1.now) (tokens_left rest.entry))) }
    {
        match self.target {
            Target::Rules => Ok(None),
            Target::Prometheus2 | Target::Prometheus3 => {
                match kind_at(alloc, before, token.0, token.1, rest)? {
                    Some(kind) if kind.is_of(self) => Ok(Some(kind)),
                    _ => Ok(None),
                }
            }
        }
    }
}

/// Adds the difference of this kind at a token, if there is one.
fn push_difference(
    found: &mut Vec<Difference>,
    query: &str,
    token: Option<Lexeme>,
    kind: Option<DifferenceKind>,
) -> Result<(), AllocError>
    requires { IfSome token (λ x. x.start + x.len ≤ length query.now) }
    ensures { (n : ℕ) → token ≡ slice_get (placed_tokens query.now) n → OnOk result (found.new.items
        ≡ found.old.items ++ filter_map (spec.difference_at query.now) (option_to_list (option_map (λ k. (n, k)) kind))) }
{
    if let Some(kind) = kind
        && let Some(difference) = difference_of(query, token, kind)
    {
        found.push(difference)?;
    }
    Ok(())
}

/// The difference of this kind at the token of this index.
pub(crate) fn difference_at(text: &str, index: usize, kind: DifferenceKind) -> Option<Difference>
    ensures { result ≡ spec.difference_at text.now (index, kind) }
{
    difference_of(text, PlacedTokens::new(text).nth(index), kind)
}

/// The difference of this kind at a token, or at the end of the text.
fn difference_of(text: &str, token: Option<Lexeme>, kind: DifferenceKind) -> Option<Difference>
    requires { IfSome token (λ x. x.start + x.len ≤ length text.now) }
    ensures { (n : ℕ) → token ≡ slice_get (placed_tokens text.now) n → result ≡ spec.difference_at text.now (n, kind) }
{
    let span = match kind {
        DifferenceKind::ByteEscape => escape_in(text, token?)?,
        _ => next_span(text, token),
    };
    Some(Difference { kind, span })
}

/// What is read otherwise at a token, which has one of the id `before` before it and `rest` after it.
#[inline(always)]
fn kind_at(
    alloc: Global,
    before: TokenId,
    id: TokenId,
    token: &str,
    rest: Cursor<'_>,
) -> Result<Option<DifferenceKind>, AllocError>
    ensures { IfOk result (λ kind. kind ≡ spec.kind_at before (id, token.now) (tokens_left rest.entry)) }
{
    match id {
        T_STRING => Ok(string_kind(token.as_bytes())),
        T_SUB if is_before_operand(before) && begins_with_zero(after_signs(rest)) => {
            Ok(Some(DifferenceKind::NegativeZero))
        }
        T_AT if begins_with_fine(after_signs(rest)) => {
            Ok(Some(DifferenceKind::PartOfMillisecond))
        }
        T_IDENTIFIER if may_look(token) && comes_first(T_LEFT_PAREN, rest) => {
            call_difference(alloc, token, rest)
        }
        _ => Ok(None),
    }
}

/// Whether the function of this name looks at how its argument is written.
fn may_look(name: &str) -> bool
    ensures { result ≡ list_any (bytes_eq name.now) (codes "timestamp" ∷ codes "absent" ∷ codes "absent_over_time" ∷ []) }
{
    matches!(name, "timestamp" | "absent" | "absent_over_time")
}

/// What is read otherwise of a call, whose name has `rest` after it.
fn call_difference(
    alloc: Global,
    name: &str,
    rest: Cursor<'_>,
) -> Result<Option<DifferenceKind>, AllocError>
    requires { spec.comes_first T_LEFT_PAREN (tokens_left rest) ≡ true }
    ensures { (before : ℕ) → IfOk result (λ kind. kind ≡ spec.kind_at before (T_IDENTIFIER, name.now) (tokens_left rest.entry)) }
{
    if matches!(name, "timestamp" | "absent") && comes_first(T_ADD, in_parens(rest)) {
        return Ok(Some(DifferenceKind::Plus));
    }
    if matches!(name, "absent" | "absent_over_time") && repeats_label(alloc, in_parens(rest))? {
        return Ok(Some(DifferenceKind::RepeatedLabel));
    }
    Ok(None)
}

/// Whether a number comes that is zero and no base of a power.
fn begins_with_zero(tokens: Cursor<'_>) -> bool
    ensures { result ≡ spec.begins_with_zero (tokens_left tokens.entry) }
{
    let mut rest = tokens;
    match rest.next() {
        Some((T_NUMBER, number)) => is_zero(number) && !comes_first(T_POW, rest),
        _ => false,
    }
}

/// Whether the number of a text is zero.
fn is_zero(text: &str) -> bool
    ensures { result ≡ spec.reads_zero (read_number text.now) }
{
    match parse_str_radix(text) {
        Ok(number) => number.is_zero(),
        Err(_) => false,
    }
}

/// Whether a number comes that may have parts of a thousandth.
fn begins_with_fine(tokens: Cursor<'_>) -> bool
    ensures { result ≡ spec.begins_with_fine (tokens_left tokens.entry) }
{
    let mut rest = tokens;
    match rest.next() {
        Some((T_NUMBER, number)) => is_fine(number.as_bytes()),
        _ => false,
    }
}

/// Whether a number's text has more than three characters after its point, or an exponent below zero.
fn is_fine(text: &[u8]) -> bool
    ensures { result ≡ spec.is_fine text.now }
{
    text.len().saturating_sub(len_to_point(text)) > 4 || has_minus(text)
}

/// How many characters there are before the point.
fn len_to_point(text: &[u8]) -> usize
    ensures { result ≡ spec.len_to_point text.now }
{
    text.iter().take_while(|b| **b != b'.').count()
}

fn has_minus(text: &[u8]) -> bool
    ensures { result ≡ list_any (λ b. b == 45) text.now }
{
    text.iter().any(|b| *b == b'-')
}

/// What is read otherwise of a string in quotes.
fn string_kind(string: &[u8]) -> Option<DifferenceKind>
    ensures { result ≡ spec.string_kind string.now }
{
    match string {
        [b'`', ..] => None,
        _ if first_escape(0, string).is_some() => Some(DifferenceKind::ByteEscape),
        _ if has_replacement(string) => Some(DifferenceKind::ReplacementEscape),
        _ => None,
    }
}

/// Whether an escape in a string spells U+FFFD.
fn has_replacement(string: &[u8]) -> bool
    ensures { result ≡ spec.has_replacement string.now }
{
    let mut rest = string;
    while let [b, after @ ..] = rest {
        if *b == b'\\' && spells_replacement(after) {
            return true;
        }
        rest = after;
    }
    false
}

/// Whether what comes after a backslash spells it.
fn spells_replacement(text: &[u8]) -> bool
    ensures { result ≡ spec.spells_replacement text.now }
{
    begins_with(text, b"ufffd") || begins_with(text, b"u0000fffd")
}

/// Whether a text begins with a word in letters of any case.
fn begins_with(text: &[u8], word: &[u8]) -> bool
    ensures { result ≡ str_eq_ignore_ascii_case (take (length word.now) text.now) word.now }
{
    match text.get(..word.len()) {
        Some(front) => front.eq_ignore_ascii_case(word),
        None => false,
    }
}

/// The place after parentheses.
fn in_parens(tokens: Cursor<'_>) -> Cursor<'_>
    ensures { tokens_left result ≡ spec.in_parens (tokens_left tokens.entry) }
{
    let mut inner = tokens;
    let mut after = inner;
    while let Some((T_LEFT_PAREN, _)) = after.next() {
        inner = after;
    }
    inner
}

/// Whether a matcher with `=` has the label of another one in the braces that come first, or after a name.
fn repeats_label(alloc: Global, argument: Cursor<'_>) -> Result<bool, AllocError>
    ensures { IfOk result (λ is. is ≡ spec.clashes (spec.matched_labels [] (spec.after_brace (tokens_left argument.entry)))) }
{
    let Some(matchers) = after_brace(argument) else {
        return Ok(false);
    };
    let labels = matched_labels(alloc, matchers)?;
    Ok(has_clash(labels.as_slice()))
}

/// The place after the brace that comes first, or after a name; `None` where no brace is there.
fn after_brace(argument: Cursor<'_>) -> Option<Cursor<'_>>
    ensures { MatchOption result (spec.after_brace (tokens_left argument.entry) ≡ []) (λ c. tokens_left c ≡ spec.after_brace (tokens_left argument.entry)) }
{
    let mut rest = argument;
    let (first, _) = rest.next()?;
    if first == T_LEFT_BRACE {
        return Some(rest);
    }
    let (second, _) = rest.next()?;
    (second == T_LEFT_BRACE).then_some(rest)
}

/// A matcher by its tokens.
#[derive(Clone, Copy)]
struct Matched<'a> {
    /// The bytes of the label, as it is written.
    label: &'a [u8],
    /// Whether its operator is `=`.
    is_equal: bool,
}

/// The matchers before a closing brace.
fn matched_labels<'a>(alloc: Global, tokens: Cursor<'a>) -> Result<Vec<Matched<'a>>, AllocError>
    ensures { IfOk result (λ ms. map matched ms.items ≡ spec.matched_labels [] (tokens_left tokens.entry)) }
{
    let mut rest = tokens;
    let mut found = Vec::new(alloc);
    let mut label: &[u8] = &[];
    while let Some((id, token)) = rest.next() {
        if id == T_RIGHT_BRACE {
            return Ok(found);
        }
        if matches!(id, T_EQL | T_NEQ | T_EQL_REGEX | T_NEQ_REGEX) {
            let is_equal = id == T_EQL;
            found.push(Matched { label, is_equal })?;
        }
        label = token.as_bytes();
    }
    Ok(found)
}

/// Whether two may be of one label, and one of them has `=`.
fn has_clash(all: &[Matched<'_>]) -> bool
    ensures { result ≡ spec.clashes (map matched all.now) }
{
    let mut rest = all;
    while let [one, others @ ..] = rest {
        if clashes_with_any(*one, others) {
            return true;
        }
        rest = others;
    }
    false
}

fn clashes_with_any(one: Matched<'_>, others: &[Matched<'_>]) -> bool
    ensures { result ≡ list_any (spec.clash (matched one.entry)) (map matched others.now) }
{
    others.iter().any(|other| is_clash(one, *other))
}

fn is_clash(one: Matched<'_>, other: Matched<'_>) -> bool
    ensures { result ≡ spec.clash (matched one.entry) (matched other.entry) }
{
    may_be_same(one.label, other.label) && (one.is_equal || other.is_equal)
}

/// Whether labels may be the same, as they are written: a label in quotes may be any.
fn may_be_same(one: &[u8], other: &[u8]) -> bool
    ensures { result ≡ spec.may_be_same one.now other.now }
{
    one == other || is_quoted(one) || is_quoted(other)
}

fn is_quoted(label: &[u8]) -> bool
    ensures { result ≡ spec.is_quoted label.now }
{
    matches!(label.first(), Some(b'"' | b'\'' | b'`'))
}
