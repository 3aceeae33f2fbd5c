//! Where in a query a token is: docs/reference/targets.md, "Areas".

ghost use Rattle.std.specs.Prelude.{◌≡◌};
ghost use Rattle.promql_target.specs.Areas as spec;

use promql_span::{is_before_operand, stands_for};
use promql_token::TokenId;
use promql_token::ids::{
    T_ADD, T_BY, T_COMMA, T_GROUP_LEFT, T_GROUP_RIGHT, T_IGNORING, T_LEFT_BRACE, T_LEFT_BRACKET,
    T_LEFT_PAREN, T_OFFSET, T_ON, T_RIGHT_BRACE, T_RIGHT_BRACKET, T_RIGHT_PAREN, T_SUB, T_WITHOUT,
};

/// What tokens are in.
#[derive(Clone, Copy, Debug, PartialEq, Eq)]
pub enum Area {
    /// None of the others.
    Open,
    /// The braces of a selector.
    Braces,
    /// The brackets of a range.
    Brackets,
    /// The labels after `by` or `without`.
    Clause,
    /// The labels after `on`, `ignoring`, `group_left` or `group_right`.
    Matching,
}

/// The place before a token.
#[derive(Clone, Copy, Debug)]
pub struct Place {
    /// What it is in.
    pub area: Area,
    /// The token before it, or one that may stand for that.
    pub before: TokenId,
    /// Whether that is the `offset` before a time, or a sign after it.
    pub in_offset: bool,
}

/// The place before the first token.
pub fn start() -> Place
    ensures { result ≡ spec.start }
{
    Place {
        area: Area::Open,
        before: T_LEFT_PAREN,
        in_offset: false,
    }
}

impl Area {
    /// Whether it has labels.
    pub fn has_labels(self) -> bool
        ensures { result ≡ spec.has_labels self }
    {
        match self {
            Area::Clause | Area::Matching => true,
            Area::Open | Area::Braces | Area::Brackets => false,
        }
    }

    /// The token that closes it.
    #[inline(always)]
    fn closing(self) -> TokenId
        ensures { result ≡ spec.closing self }
    {
        match self {
            Area::Braces => T_RIGHT_BRACE,
            Area::Brackets => T_RIGHT_BRACKET,
            Area::Open | Area::Clause | Area::Matching => T_RIGHT_PAREN,
        }
    }
}

/// What a token opens that has this one before it.
#[inline(always)]
fn opened(before: TokenId, id: TokenId) -> Area
    ensures { result ≡ spec.opened before id }
{
    match (id, before) {
        (T_LEFT_BRACE, _) => Area::Braces,
        (T_LEFT_BRACKET, _) => Area::Brackets,
        (T_LEFT_PAREN, T_BY | T_WITHOUT) => Area::Clause,
        (T_LEFT_PAREN, T_ON | T_IGNORING | T_GROUP_LEFT | T_GROUP_RIGHT) => Area::Matching,
        _ => Area::Open,
    }
}

impl Place {
    /// Whether an operand ends before it.
    #[inline(always)]
    pub fn is_after_operand(self) -> bool
        ensures { result ≡ spec.is_after_operand self }
    {
        match self.before {
            T_GROUP_LEFT | T_GROUP_RIGHT => false,
            before => !is_before_operand(before),
        }
    }

    /// Whether a length of time comes.
    #[inline(always)]
    pub fn is_before_time(self) -> bool
        ensures { result ≡ spec.is_before_time self }
    {
        self.in_offset || self.area == Area::Brackets
    }

    /// The area after a token.
    #[inline(always)]
    fn area_after(self, id: TokenId) -> Area
        ensures { result ≡ spec.area_after self id }
    {
        match self.area {
            Area::Open => opened(self.before, id),
            area if id == area.closing() => Area::Open,
            area => area,
        }
    }

    /// What stands for a token: a comma for the end of an operator's labels, since an operand comes after it, and a name for the word
    /// of an operator, where an operand begins.
    #[inline(always)]
    fn token_for(self, id: TokenId) -> TokenId
        ensures { result ≡ spec.token_for self id }
    {
        if self.is_after_operand() {
            self.token_in(id)
        } else {
            stands_for(T_COMMA, self.token_in(id))
        }
    }

    #[inline(always)]
    fn token_in(self, id: TokenId) -> TokenId
        ensures { result ≡ spec.token_in self.area id }
    {
        match (self.area, id) {
            (Area::Matching, T_RIGHT_PAREN) => T_COMMA,
            _ => id,
        }
    }

    /// Whether a token is the `offset` before a time, or a sign after it.
    #[inline(always)]
    fn is_offset(self, id: TokenId) -> bool
        ensures { result ≡ spec.is_offset self id }
    {
        match id {
            T_OFFSET => self.area == Area::Open && self.is_after_operand(),
            T_ADD | T_SUB => self.in_offset,
            _ => false,
        }
    }

    /// The place after a token.
    #[inline(always)]
    pub fn after(self, id: TokenId) -> Place
        ensures { result ≡ spec.after self id }
    {
        Place {
            area: self.area_after(id),
            before: self.token_for(id),
            in_offset: self.is_offset(id),
        }
    }
}
