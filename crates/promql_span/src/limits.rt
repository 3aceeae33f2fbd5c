//! The limits of a query, which are checked before it is parsed and anything of it is compiled, and of what is printed of it:
//! docs/reference/programs.md, "Limits of a query".

ghost use Rattle.std.specs.Prelude.{◌≡◌, ◌++◌, ◌-◌, ◌^◌, ◌&&◌, ◌==◌, [], ◌∷◌, drop, false, if◌then◌else◌, is_some, length, min, ℕ, IfErr, IfOk, List, MatchOption, OnOk};
ghost use Rattle.std.specs.List.{list_any};
ghost use Rattle.promql_text.specs.Texts.{code};
ghost use Rattle.std.specs.Prelude.{◌<◌, ◌≤◌};
ghost use Rattle.promql_span.specs.MeasuredTokens.{AreMeasured};
ghost use Rattle.promql_span.specs.PlacedTokens.{first_span, placed_tokens};
ghost use Rattle.promql_span.specs.QueryLimits as spec;
ghost use Rattle.promql_span.specs.declared.limits.Limits as bounds;
ghost use Rattle.promql_span.specs.Targets.{for_check, for_layout, for_rules};

use crate::differences::Printed;
use crate::inspection::inspect_tokens;
use crate::placed::PlacedTokens;
use crate::places::{end_of_text, span_of};
use crate::span::Span;
use crate::target::Target;
use promql_label::pattern_measure;
use promql_text::{QuoteError, unquote_string};
use promql_token::TokenId;
use promql_token::ids::T_STRING;
use std::alloc::{AllocError, Global};
use thiserror::Error;

/// The most bytes of a query, unless something else is asked for: 32 KiB.
pub const MAX_LEN: usize = 32_768;

/// The greatest size of a query's patterns, unless something else is asked for.
pub const MAX_PATTERN_SIZE: usize = 16_000;

/// The most bytes of what is printed of a query, unless something else is asked for: 4 MiB.
pub const MAX_OUTPUT: usize = 4_194_304;

/// How long a query may be, how large its patterns may be together, how long what is printed of it may be, and what reads that.
#[derive(Clone, Copy, Debug, PartialEq, Eq)]
pub struct Limits {
    /// The most bytes.
    pub max_len: usize,
    /// The greatest sum of the measures of its patterns (`promql_label::pattern_measure`).
    pub max_pattern_size: usize,
    /// The most bytes of its text in a format.
    pub max_output: usize,
    /// What reads its text with a matcher in its selectors, and its layout.
    pub target: Target,
    /// How it is printed.
    pub printed: Printed,
}

impl Default for Limits {
    ghost use Rattle.std.specs.Prelude.{◌≡◌};
    ghost use Rattle.promql_span.specs.declared.limits.TheConstants.{MAX_LEN, MAX_OUTPUT, MAX_PATTERN_SIZE};
    ghost use Rattle.promql_span.specs.declared.differences.Printed.TheVariants.{Tree};
    ghost use Rattle.promql_span.specs.declared.target.Target.TheVariants.{Prometheus3};

    ghost is_default = { λ l. l ≡ record {
      max_len = MAX_LEN;
      max_pattern_size = MAX_PATTERN_SIZE;
      max_output = MAX_OUTPUT;
      target = Prometheus3;
      printed = Tree;
    } };

    /// `MAX_LEN`, `MAX_PATTERN_SIZE` and `MAX_OUTPUT`, for a tree that Prometheus 3 reads.
    fn default() -> Limits {
        Limits {
            max_len: MAX_LEN,
            max_pattern_size: MAX_PATTERN_SIZE,
            max_output: MAX_OUTPUT,
            target: Target::Prometheus3,
            printed: Printed::Tree,
        }
    }
}

impl Limits {
    /// The same where nothing but these rules reads what is printed.
    pub fn for_rules(&self) -> Limits
        ensures { result ≡ for_rules self.now }
    {
        Limits {
            target: Target::Rules,
            ..*self
        }
    }

    /// The same where the query is checked.
    pub fn for_check(&self) -> Limits
        ensures { result ≡ for_check self.now }
    {
        Limits {
            printed: Printed::Nothing,
            ..*self
        }
    }

    /// The same where the query is laid out for people, with its matchers in order or as they are written.
    pub fn for_layout(&self, sorts: bool) -> Limits
        ensures { result ≡ for_layout sorts self.now }
    {
        let printed = if sorts {
            Printed::SortedLayout
        } else {
            Printed::Layout
        };
        Limits { printed, ..*self }
    }
}

/// Why a query is not within its limits, or cannot be measured.
#[derive(Clone, Copy, Debug, PartialEq, Eq, Error)]
pub enum LimitFault {
    /// An allocation failed.
    #[error("out of memory")]
    Memory,
    /// The query has too many bytes.
    #[error("query is too long: {len} bytes, at most {most}")]
    TooLong {
        /// Its bytes.
        len: usize,
        /// The most that it may have.
        most: usize,
    },
    /// Its patterns are too large together.
    #[error("patterns are too large: {size}, at most {most}")]
    PatternsTooLarge {
        /// The sum of their measures; `usize::MAX` stands for that and more.
        size: usize,
        /// The most that it may be.
        most: usize,
        /// The string of the pattern with which the sum is more than that.
        place: Span,
    },
}

/// What is printed of a query has too many bytes.
#[derive(Clone, Copy, Debug, PartialEq, Eq, Error)]
#[error("output is too long: {len} bytes, at most {most}")]
pub struct LongOutput {
    /// Its bytes.
    pub len: usize,
    /// The most that it may have.
    pub most: usize,
}

impl From<AllocError> for LimitFault {
    ghost use Rattle.std.specs.Prelude.{◌≡◌};
    ghost use Rattle.promql_span.specs.declared.limits.LimitFault.TheVariants.{Memory};

    ghost from_gives = { λ _ e. e ≡ Memory };

    fn from(_: AllocError) -> LimitFault {
        LimitFault::Memory
    }
}

/// Whether a query may have a pattern: the operators before patterns have a tilde.
pub fn may_have_pattern(query: &str) -> bool
    ensures tilde { result ≡ list_any (λ b. b == code "~") query.now }
    ensures none { result ≡ false → spec.patterns_size query.now ≡ 0 }
{
    query.as_bytes().contains(&b'~')
}

/// Checks that a query is within its limits. Each string directly after `=~` or `!~`, up to a lexical fault, is a pattern.
/// Where it may have one, the text is lexed once, and once more up to the pattern of a fault; a string is unquoted, and no pattern is
/// compiled.
///
/// # Errors
///
/// `TooLong` where it has more bytes, then `PatternsTooLarge` where the measures of its patterns are more; `Memory` where an
/// allocation failed.
pub fn check_limits(alloc: Global, text: &str, limits: &Limits) -> Result<(), LimitFault>
    ensures within { OnOk result (spec.IsWithin text.now limits.now) }
    ensures fault { IfErr result (spec.IsLimitFault text.now limits.now) }
{
    let len = text.len();
    if len > limits.max_len {
        return Err(LimitFault::TooLong {
            len,
            most: limits.max_len,
        });
    }
    if !may_have_pattern(text) {
        return Ok(());
    }
    match inspect_tokens(alloc, &limits.for_rules(), text)?.limit_fault(limits) {
        None => Ok(()),
        Some(fault) => Err(fault),
    }
}

/// Checks that what is printed of a query is within its limits.
///
/// # Errors
///
/// `LongOutput` where it has more bytes.
pub fn check_output(output: &str, limits: &Limits) -> Result<(), LongOutput>
    ensures within { OnOk result (length output.now ≤ limits.now.max_output) }
    ensures fault { IfErr result (spec.IsLongOutput output.now limits.now) }
{
    let len = output.len();
    let most = limits.max_output;
    if len > most {
        return Err(LongOutput { len, most });
    }
    Ok(())
}

/// What the patterns of some tokens come to.
#[derive(Clone, Copy)]
pub(crate) struct Measured {
    /// The sum of their measures, or `usize::MAX`.
    size: usize,
    /// The token with which the sum is more than it may be.
    passed: Option<Span>,
}

/// The measure of a token, which comes after `=~` or `!~` or does not.
#[inline(always)]
pub(crate) fn token_measure(
    alloc: Global,
    after_operator: bool,
    id: TokenId,
    token: &str,
) -> Result<usize, AllocError>
    ensures { IfOk result (λ n. n ≡ min (if after_operator && id == T_STRING
        then spec.string_measure token.now else 0) usize.MAX) }
{
    if after_operator && id == T_STRING {
        string_measure(alloc, token)
    } else {
        Ok(0)
    }
}

/// The measure of the pattern that is the value of a string.
fn string_measure(alloc: Global, token: &str) -> Result<usize, AllocError>
    ensures { IfOk result (λ n. n ≡ min (spec.string_measure token.now) usize.MAX) }
{
    match unquote_string(alloc, token) {
        Ok(value) => Ok(pattern_measure(value.as_str())),
        Err(QuoteError::InvalidSyntax) => Ok(0),
        Err(QuoteError::Memory) => Err(AllocError),
    }
}

impl Measured {
    /// None.
    pub(crate) fn new() -> Measured
        ensures { (text : List ℕ) (most : ℕ) → AreMeasured text most [] result }
    {
        Measured {
            size: 0,
            passed: None,
        }
    }

    /// Whether the sum is more than it may be.
    #[inline(always)]
    pub(crate) fn is_over(&self) -> bool
        ensures { result ≡ is_some self.now.passed }
    {
        self.passed.is_some()
    }

    /// The fault of a text that has these patterns, which may measure so much.
    pub(crate) fn fault(&self, most: usize) -> Option<LimitFault>
        ensures { (text : List ℕ) (limits : bounds.Limits) → length text ≤ limits.max_len → limits.max_pattern_size ≡ most
            → AreMeasured text most (spec.token_measures text) self.now
            → MatchOption result (spec.IsWithin text limits) (spec.IsLimitFault text limits) }
    {
        let place = self.passed?;
        Some(LimitFault::PatternsTooLarge {
            size: self.size,
            most,
            place,
        })
    }

    /// Adds the measure of one more token, the one of this index.
    #[inline(always)]
    pub(crate) fn add(&mut self, text: &str, most: usize, index: usize, measure: usize)
        ensures { (before after : List ℕ) (n : ℕ) → spec.token_measures text.now ≡ before ++ n ∷ after
            → length before ≡ index → measure ≡ min n usize.MAX → AreMeasured text.now most before self.old
            → AreMeasured text.now most (before ++ n ∷ []) self.new }
    {
        if measure == 0 {
            return;
        }
        self.size = self.size.saturating_add(measure);
        if self.passed.is_none() && self.size > most {
            self.passed = Some(token_numbered(text, index));
        }
    }
}

/// The token of this index, from 0, or the end of the text.
pub fn token_numbered(text: &str, index: usize) -> Span
    ensures { result ≡ first_span text.now (drop index (placed_tokens text.now)) }
{
    match PlacedTokens::new(text).nth(index) {
        Some(token) => span_of(token),
        None => end_of_text(text),
    }
}
