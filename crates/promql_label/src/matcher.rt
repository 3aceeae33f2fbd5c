//! Matchers: docs/reference/matchers.md, "Matchers".

ghost use Rattle.std.specs.Prelude.{◌≡◌, ◌↔◌, false, true, IfOk, IfErr, IsOk, IsErrOf, codes, string_bytes};
ghost use Rattle.std.specs.Fmt.{WritesStyledOnOk};
ghost use Rattle.promql_label.specs.PlainMatchers.{plain_matcher, equal, holds, name_text, operator_text};
ghost use Rattle.promql_label.specs.MatcherErrors.{IsFaultOf};
ghost use Rattle.promql_label.specs.Operators.{IsMatcherOf, is_operator_id, is_pattern_id};
ghost use Rattle.promql_label.specs.MatcherViews.{plain_matcher_of, operator_of};

use crate::METRIC_NAME;
use crate::pattern::{Pattern, PatternFault};
use promql_text::Quoted;
use promql_token::ids::{T_EQL, T_EQL_REGEX, T_NEQ, T_NEQ_REGEX};
use promql_token::{TokenId, TokenType, is_label};
use std::alloc::{AllocError, Global};
use std::fmt;
use std::fmt::Display;
use thiserror::Error;

/// How a matcher compares.
#[derive(Debug, Drop, PartialEq, Eq, Hash)]
pub enum MatchOp {
    /// The text is the value.
    Equal,
    /// The text is not the value.
    NotEqual,
    /// The pattern matches the text.
    Re(Pattern),
    /// The pattern does not match the text.
    NotRe(Pattern),
}

impl MatchOp {
    /// The same operator. A pattern shares what was compiled.
    pub fn try_clone(&self, alloc: Global) -> Result<MatchOp, AllocError>
        ensures { IfOk result (λ op. operator_of op ≡ operator_of self.now) }
    {
        Ok(match self {
            MatchOp::Equal => MatchOp::Equal,
            MatchOp::NotEqual => MatchOp::NotEqual,
            MatchOp::Re(pattern) => MatchOp::Re(pattern.try_clone(alloc)?),
            MatchOp::NotRe(pattern) => MatchOp::NotRe(pattern.try_clone(alloc)?),
        })
    }

    /// Compiles the pattern, if there is one.
    fn prepare(&mut self, alloc: Global) -> Result<(), AllocError>
        ensures { operator_of self.new ≡ operator_of self.old }
    {
        match self {
            MatchOp::Equal | MatchOp::NotEqual => Ok(()),
            MatchOp::Re(pattern) => pattern.prepare(alloc),
            MatchOp::NotRe(pattern) => pattern.prepare(alloc),
        }
    }

    /// The operator as it prints.
    pub(crate) fn text(&self) -> &'static str
        ensures { result.now ≡ operator_text (operator_of self.now) }
    {
        match self {
            MatchOp::Equal => "=",
            MatchOp::NotEqual => "!=",
            MatchOp::Re(_) => "=~",
            MatchOp::NotRe(_) => "!~",
        }
    }
}

impl fmt::Display for MatchOp {
    ghost use Rattle.std.specs.Prelude.{Some};
    ghost use Rattle.promql_label.specs.PlainMatchers.{operator_text};
    ghost use Rattle.promql_label.specs.MatcherViews.{operator_of};

    ghost output = { λ op. Some (operator_text (operator_of op)) };

    ghost styled_output = { λ op _. Some (operator_text (operator_of op)) };

    fn fmt<W: fmt::Write>(&self, f: &mut fmt::Formatter<W>) -> fmt::Result {
        f.write_str(self.text())
    }
}

/// A test of one label's value.
#[derive(Debug, Drop, PartialEq, Eq, Hash)]
pub struct Matcher {
    pub op: MatchOp,
    /// The label's name.
    pub name: String,
    /// What the label's value is compared with, or the pattern as it was given.
    pub value: String,
}

impl Matcher {
    /// The matcher of an operator, a name and a value.
    pub fn new(alloc: Global, op: MatchOp, name: &str, value: &str) -> Result<Matcher, AllocError>
        ensures { IfOk result (λ m.
            plain_matcher_of m ≡ plain_matcher (operator_of op) name.now value.now) }
    {
        Ok(Matcher {
            op,
            name: String::from_str(alloc, name)?,
            value: String::from_str(alloc, value)?,
        })
    }

    /// Compiles the pattern, if there is one ([`Pattern::prepare`]), so that each match after it only searches.
    ///
    /// # Errors
    ///
    /// `AllocError` if an allocation fails; the matcher is then as it was.
    pub fn prepare(&mut self, alloc: Global) -> Result<(), AllocError>
        ensures { plain_matcher_of self.new ≡ plain_matcher_of self.old }
    {
        self.op.prepare(alloc)
    }

    /// Whether the matcher matches a text. Each call on a pattern allocates what the search needs,
    /// and frees it, and compiles a pattern that is not prepared; the only error is that memory ran out.
    pub fn is_match(&self, alloc: Global, text: &str) -> Result<bool, AllocError>
        ensures { IfOk result (λ b. b ≡ holds (plain_matcher_of self.now) text.now) }
    {
        match &self.op {
            MatchOp::Equal => Ok(self.value.as_str() == text),
            MatchOp::NotEqual => Ok(self.value.as_str() != text),
            MatchOp::Re(pattern) => pattern.is_match(alloc, text),
            MatchOp::NotRe(pattern) => Ok(!pattern.is_match(alloc, text)?),
        }
    }

    /// The matcher that a token's id, a name and a value make. The name and the value are moved, so
    /// it allocates for a pattern alone.
    ///
    /// # Errors
    ///
    /// `InvalidOp` for an id that is no operator of matchers; `Pattern` with the value, where it is
    /// to be a pattern and `regex` rejects it; `Memory` if an allocation for the pattern fails.
    pub fn new_matcher(
        alloc: Global,
        id: TokenId,
        name: String,
        value: String,
    ) -> Result<Matcher, MatcherError>
        ensures built { IfOk result (λ m.
            IsMatcherOf id (string_bytes name) (string_bytes value) (plain_matcher_of m)) }
        ensures text { is_operator_id id ≡ true → is_pattern_id id ≡ false → IsOk result }
        ensures invalid { IsErrOf result (MatcherError.InvalidOp id) ↔ (is_operator_id id ≡ false) }
        ensures fault { IfErr result (IsFaultOf id (string_bytes value)) }
    {
        let op = match id {
            T_EQL => MatchOp::Equal,
            T_NEQ => MatchOp::NotEqual,
            T_EQL_REGEX => MatchOp::Re(Pattern::read(alloc, &value)?),
            T_NEQ_REGEX => MatchOp::NotRe(Pattern::read(alloc, &value)?),
            _ => return Err(MatcherError::InvalidOp(id)),
        };
        Ok(Matcher { op, name, value })
    }

    /// The matcher that the metric's name is this one.
    pub fn new_metric_name_matcher(alloc: Global, name: String) -> Result<Matcher, AllocError>
        ensures { IfOk result (λ m.
            plain_matcher_of m ≡ plain_matcher equal (codes "__name__") (string_bytes name)) }
    {
        Ok(Matcher {
            op: MatchOp::Equal,
            name: String::from_str(alloc, METRIC_NAME)?,
            value: name,
        })
    }

    /// The same matcher.
    pub fn try_clone(&self, alloc: Global) -> Result<Matcher, AllocError>
        ensures { IfOk result (λ m. plain_matcher_of m ≡ plain_matcher_of self.now) }
    {
        Matcher::new(alloc, self.op.try_clone(alloc)?, &self.name, &self.value)
    }
}

impl fmt::Display for Matcher {
    ghost use Rattle.std.specs.Prelude.{Some};
    ghost use Rattle.promql_label.specs.PlainMatchers.{matcher_text};
    ghost use Rattle.promql_label.specs.MatcherViews.{plain_matcher_of};

    ghost output = { λ m. Some (matcher_text (plain_matcher_of m)) };

    ghost styled_output = { λ m _. Some (matcher_text (plain_matcher_of m)) };

    fn fmt<W: fmt::Write>(&self, f: &mut fmt::Formatter<W>) -> fmt::Result {
        write_name(&self.name, f)?;
        self.op.fmt(f)?;
        Quoted(&self.value).fmt(f)
    }
}

/// Writes the name: docs/reference/matchers.md, "Printed matchers".
fn write_name<W: fmt::Write>(name: &str, f: &mut fmt::Formatter<W>) -> fmt::Result
    ensures { WritesStyledOnOk W.write_str_gives f.old result (name_text name.now) f.new }
{
    if is_label(name) {
        f.write_str(name)
    } else {
        Quoted(name).fmt(f)
    }
}

/// Why no matcher is made of a token's id, a name and a value.
#[derive(Debug, Drop, PartialEq, Eq, Error)]
pub enum MatcherError {
    /// Memory ran out.
    #[error("out of memory")]
    Memory,
    /// No operator of matchers has this id.
    #[error("invalid match op {}", TokenType::new(*.0))]
    InvalidOp(TokenId),
    /// `regex` rejects the value.
    #[error("illegal regex for {0}")]
    Pattern(String),
}

impl From<PatternFault> for MatcherError {
    ghost use Rattle.std.specs.Prelude.{◌≡◌};
    ghost use Rattle.promql_label.specs.MatcherErrors.{error_of};

    ghost from_gives = { λ fault e. e ≡ error_of fault };

    fn from(fault: PatternFault) -> MatcherError {
        match fault {
            PatternFault::Memory => MatcherError::Memory,
            PatternFault::Refused(value) => MatcherError::Pattern(value),
        }
    }
}
