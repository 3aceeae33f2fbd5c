//! A pass over the tokens of a query: what its patterns measure, and the first part that its target reads otherwise.

ghost use Rattle.std.specs.Prelude.{◌≡◌, ◌≢◌, ◌<◌, ◌≤◌, ◌==◌, ◌||◌, ◌∷◌, ◌⊎◌, [], false, true, IfOk, length, MatchOption, None, OnOk, option_map};
ghost use Rattle.std.specs.Option.{option_or};
ghost use Rattle.promql_text.specs.Texts.{Text};
ghost use Rattle.promql_token.specs.Cursor.{tokens_left, tokens_up_to_fault};
ghost use Rattle.promql_span.specs.Differences as spec;
ghost use Rattle.promql_span.specs.Inspections.{IsInspected};
ghost use Rattle.promql_span.specs.QueryLimits.{IsLimitFault, IsWithin, patterns_size};
ghost use Rattle.promql_span.specs.declared.limits.Limits as bounds;

use crate::differences::{Difference, DifferenceKind, difference_at};
use crate::limits::{LimitFault, Limits, Measured, token_measure};
use crate::lookahead::stands_for;
use promql_token::TokenId;
use promql_token::cursor::Cursor;
use promql_token::ids::{T_EQL_REGEX, T_LEFT_PAREN, T_NEQ_REGEX};
use std::alloc::{AllocError, Global};

/// What the first tokens of a query tell of it.
#[derive(Clone, Copy)]
pub struct Inspection {
    measured: Measured,
    /// Whether the last token was `=~` or `!~`.
    after_operator: bool,
    /// The last token, or one that stands for it.
    before: TokenId,
    /// The first part that is read otherwise: the index of its token, and its kind.
    otherwise: Option<(usize, DifferenceKind)>,
    /// How many tokens there were.
    index: usize,
}

impl Inspection {
    /// Before the first token.
    pub fn new() -> Inspection
        ensures { (limits : bounds.Limits) (text : Text) → IsInspected limits text (tokens_up_to_fault text) result }
    {
        Inspection {
            measured: Measured::new(),
            after_operator: false,
            before: T_LEFT_PAREN,
            otherwise: None,
            index: 0,
        }
    }

    /// Goes past one more token of the query, which has `rest` after it.
    ///
    /// # Errors
    ///
    /// `AllocError` where an allocation failed.
    #[inline(always)]
    pub fn pass(
        &mut self,
        alloc: Global,
        limits: &Limits,
        query: &str,
        token: (TokenId, &str),
        rest: Cursor<'_>,
    ) -> Result<(), AllocError>
        requires { IsInspected limits.now query.now ((token.0, token.1.now) ∷ tokens_left rest) self.old }
        ensures { OnOk result (IsInspected limits.now query.now (tokens_left rest.entry) self.new) }
    {
        let (id, text) = token;
        self.otherwise = self.otherwise_with(alloc, limits, token, rest)?;
        let measure = token_measure(alloc, self.after_operator, id, text)?;
        self.measured
            .add(query, limits.max_pattern_size, self.index, measure);
        self.after_operator = is_pattern_operator(id);
        self.before = stands_for(self.before, id);
        self.index += 1;
        Ok(())
    }

    /// The first part that is read otherwise, where there is one more token.
    #[inline(always)]
    fn otherwise_with(
        &self,
        alloc: Global,
        limits: &Limits,
        token: (TokenId, &str),
        rest: Cursor<'_>,
    ) -> Result<Option<(usize, DifferenceKind)>, AllocError>
        ensures { IfOk result (λ o. o ≡ option_or self.now.otherwise (option_map (λ kind. (self.now.index, kind))
            (spec.counted limits.now (spec.kind_at self.now.before (token.entry.0, token.entry.1.now) (tokens_left rest.entry))))) }
    {
        if let Some(found) = self.otherwise {
            return Ok(Some(found));
        }
        match limits.difference_kind(alloc, self.before, token, rest)? {
            Some(kind) => Ok(Some((self.index, kind))),
            None => Ok(None),
        }
    }

    /// Whether a token was found with which the query is over a limit, or is read otherwise.
    #[inline(always)]
    pub fn has_found(&self) -> bool
        ensures none { result ≡ false → (limits : bounds.Limits) (query : Text) → IsInspected limits query [] self.now → spec.difference limits query ≡ None }
        ensures some { result ≡ true → (limits : bounds.Limits) (query : Text) → IsInspected limits query [] self.now
            → (limits.max_pattern_size < patterns_size query) ⊎ (spec.kinds_of limits query ≢ []) }
    {
        self.measured.is_over() || self.otherwise.is_some()
    }

    /// Why a query that has these tokens, and no more bytes than its limits allow, is not within them; `None` where it is.
    pub fn limit_fault(&self, limits: &Limits) -> Option<LimitFault>
        ensures { (seen : bounds.Limits) (query : Text) → seen.max_pattern_size ≡ limits.now.max_pattern_size
            → length query ≤ limits.now.max_len → IsInspected seen query [] self.now
            → MatchOption result (IsWithin query limits.now) (IsLimitFault query limits.now) }
    {
        self.measured.fault(limits.max_pattern_size)
    }

    /// The first part of the query, which has these tokens, that its target reads otherwise.
    pub fn difference(&self, query: &str) -> Option<Difference>
        ensures { (limits : bounds.Limits) → IsInspected limits query.now [] self.now → result ≡ spec.difference limits query.now }
    {
        let (index, kind) = self.otherwise?;
        difference_at(query, index, kind)
    }
}

/// Whether a pattern comes after this token.
#[inline(always)]
fn is_pattern_operator(id: TokenId) -> bool
    ensures { result ≡ (id == T_EQL_REGEX || id == T_NEQ_REGEX) }
{
    id == T_EQL_REGEX || id == T_NEQ_REGEX
}

/// What all tokens of a query tell of it. Of most queries nothing is found, and a loop that ends where something is has less to carry.
///
/// # Errors
///
/// `AllocError` where an allocation failed.
pub fn inspect_tokens(alloc: Global, limits: &Limits, query: &str) -> Result<Inspection, AllocError>
    ensures { IfOk result (IsInspected limits.now query.now []) }
{
    let mut tokens = Cursor::new(query);
    let mut inspection = Inspection::new();
    while let Some(token) = tokens.next() {
        inspection.pass(alloc, limits, query, token, tokens)?;
        if inspection.has_found() {
            return inspect_all_tokens(alloc, limits, query);
        }
    }
    Ok(inspection)
}

/// The same, whatever is found.
fn inspect_all_tokens(alloc: Global, limits: &Limits, query: &str) -> Result<Inspection, AllocError>
    ensures { IfOk result (IsInspected limits.now query.now []) }
{
    let mut tokens = Cursor::new(query);
    let mut inspection = Inspection::new();
    while let Some(token) = tokens.next() {
        inspection.pass(alloc, limits, query, token, tokens)?;
    }
    Ok(inspection)
}
