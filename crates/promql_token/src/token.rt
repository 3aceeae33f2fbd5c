//! Tokens, and the classes of their ids.

ghost use Rattle.std.specs.Prelude.{◌≡◌, IfOk, string_bytes};
ghost use Rattle.promql_token.specs.Classes as classes;
ghost use Rattle.promql_token.specs.Ids as spec;

use crate::class::{Class, byte, end_of_run, is_letter};
use crate::ids::*;
use std::alloc::{AllocError, Global};
use std::fmt;
use std::marker::Model;

/// What kind of token it is. Contracts see its id.
#[derive(Clone, Copy, Debug, PartialEq, Eq)]
pub struct TokenType(TokenId);

impl Model for TokenType {
    ghost use Rattle.std.specs.Prelude.{ℕ, ◌<◌};
    ghost use Rattle.std.specs.Coded.{coded_ℕ};

    ghost Value = { ℕ };

    ghost coded = { coded_ℕ };

    ghost view = { λ t. t.0 };

    ghost invariant = { λ t. t.0 < 65536 };

    ghost inverse = { λ id. record { 0 = id } };
}

impl TokenType {
    /// The kind of an id.
    pub fn new(id: TokenId) -> TokenType
        ensures { result ≡ id }
    {
        TokenType(id)
    }

    /// Its id.
    pub fn id(&self) -> TokenId
        ensures { result ≡ self.now }
    {
        self.0
    }

    /// Whether it aggregates the elements of a vector, as `sum`.
    pub fn is_aggregator(&self) -> bool
        ensures { result ≡ spec.is_aggregator self.now }
    {
        self.0 > T_AGGREGATORS_START && self.0 < T_AGGREGATORS_END
    }

    /// Whether it is an aggregator that takes a parameter, as `topk`.
    pub fn is_aggregator_with_param(&self) -> bool
        ensures { result ≡ spec.is_aggregator_with_param self.now }
    {
        matches!(
            self.0,
            T_TOPK | T_BOTTOMK | T_COUNT_VALUES | T_QUANTILE | T_LIMITK | T_LIMIT_RATIO
        )
    }

    /// Whether it compares numbers, as `==`.
    pub fn is_comparison_operator(&self) -> bool
        ensures { result ≡ spec.is_comparison_operator self.now }
    {
        matches!(self.0, T_EQLC | T_NEQ | T_LTE | T_LSS | T_GTE | T_GTR)
    }

    /// Whether it is `and`, `or` or `unless`.
    pub fn is_set_operator(&self) -> bool
        ensures { result ≡ spec.is_set_operator self.now }
    {
        matches!(self.0, T_LAND | T_LOR | T_LUNLESS)
    }

    /// Whether it is an operator between two expressions.
    pub fn is_operator(&self) -> bool
        ensures { result ≡ spec.is_operator self.now }
    {
        self.0 > T_OPERATORS_START && self.0 < T_OPERATORS_END
    }
}

impl fmt::Display for TokenType {
    ghost use Rattle.std.specs.Prelude.{Some};

    ghost output = { λ t. Some (spec.text_of t) };

    ghost styled_output = { λ t _. Some (spec.text_of t) };

    fn fmt<W: fmt::Write>(&self, f: &mut fmt::Formatter<W>) -> fmt::Result {
        f.write_str(token_display(self.0))
    }
}

/// A token: what kind it is, and its text.
#[derive(Debug, Drop, PartialEq, Eq)]
pub struct Token {
    pub id: TokenType,
    pub val: String,
}

impl Token {
    /// The token of an id and a text.
    pub fn new(id: TokenId, val: String) -> Token
        ensures kind { result.id ≡ id }
        ensures text { result.val ≡ val }
    {
        Token {
            id: TokenType::new(id),
            val,
        }
    }

    /// The id of its kind.
    pub fn id(&self) -> TokenId
        ensures { result ≡ self.now.id }
    {
        self.id.id()
    }

    /// A token of the same kind with the same text.
    pub fn try_clone(&self, alloc: Global) -> Result<Token, AllocError>
        ensures kind { IfOk result (λ t. t.id ≡ self.now.id) }
        ensures text { IfOk result (λ t. string_bytes t.val ≡ string_bytes self.now.val) }
    {
        Ok(Token {
            id: self.id,
            val: String::from_str(alloc, self.val.as_str())?,
        })
    }
}

/// Whether a text is a letter or `_`, then letters, digits and `_`.
pub fn is_label(s: &str) -> bool
    ensures { result ≡ classes.is_label s.now }
{
    let bytes = s.as_bytes();
    is_letter(byte(bytes, 0)) && end_of_run(Class::Name, bytes, 0) == bytes.len()
}
