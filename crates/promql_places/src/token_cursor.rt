//! The tokens of a text that are left, by their kinds. What it skips is no part of a node.

ghost use Rattle.std.specs.Prelude.{◌≡◌, drop};
ghost use Rattle.promql_span.specs.PlacedTokens.{placed_tokens};
ghost use Rattle.promql_places.specs.CursorTokens.{IsOver, Moved, first_start, kinds_left, lexemes_left};
ghost use Rattle.promql_places.specs.Skipping as spec;

use crate::kinds::{
    is_bound_word, is_closing, is_fill_word, is_flag, is_plus, is_separator, is_shift_word, is_sign,
};
use promql_grammar::{TokenKind, token_kind};
use promql_span::PlacedTokens;
use promql_token::ids::T_POW;
use promql_token::{Lexeme, TokenId};

/// The tokens that are left of a text. It allocates nothing.
#[derive(Drop)]
pub struct TokenCursor<'a> {
    first: Option<Lexeme>,
    rest: PlacedTokens<'a>,
    /// Where the last token that was taken ends.
    end: usize,
}

impl<'a> TokenCursor<'a> {
    /// All tokens of a text.
    pub fn new(text: &'a str) -> TokenCursor<'a>
        ensures all { lexemes_left result ≡ placed_tokens text.now }
        ensures over { IsOver text.now result }
    {
        let mut rest = PlacedTokens::new(text);
        TokenCursor {
            first: rest.next(),
            rest,
            end: 0,
        }
    }

    /// Whether the bracket that closes a list comes first, or no token is left.
    pub fn ends_list(&self) -> bool
        ensures { result ≡ spec.ends_list (kinds_left self.now) }
    {
        match self.first {
            Some(token) => is_closing(token_kind(token.id)),
            None => true,
        }
    }

    /// The kind of the first token, or `Other` where none is left.
    pub fn kind(&self) -> TokenKind
        ensures { result ≡ spec.front (kinds_left self.now) }
    {
        match self.first {
            Some(token) => token_kind(token.id),
            None => TokenKind::Other,
        }
    }

    /// Where the first token begins.
    pub fn start(&self) -> usize
        ensures { result ≡ first_start (lexemes_left self.now) }
    {
        match self.first {
            Some(token) => token.start,
            None => 0,
        }
    }

    /// Where the last token that was taken ends.
    pub fn end(&self) -> usize
        ensures { result ≡ self.now.end }
    {
        self.end
    }

    /// Takes the first token.
    pub fn bump(&mut self)
        ensures { Moved (drop 1 (kinds_left self.old)) self.old self.new }
    {
        if let Some(token) = self.first {
            self.end = token.start.saturating_add(token.len);
            self.first = self.rest.next();
        }
    }

    pub fn skip_signs(&mut self)
        ensures { Moved (spec.skip_signs (kinds_left self.old)) self.old self.new }
    {
        while is_sign(self.kind()) {
            self.bump();
        }
    }

    pub fn skip_pluses(&mut self)
        ensures { Moved (spec.skip_pluses (kinds_left self.old)) self.old self.new }
    {
        while is_plus(self.kind()) {
            self.bump();
        }
    }

    /// Through the next closing bracket.
    pub fn skip_brackets(&mut self)
        ensures { Moved (spec.skip_brackets (kinds_left self.old)) self.old self.new }
    {
        while !self.ends_list() {
            self.bump();
        }
        self.bump();
    }

    /// Up to what separates a part of a list from the next, or to the bracket that closes the list.
    pub fn skip_item(&mut self)
        ensures { Moved (spec.skip_item (kinds_left self.old)) self.old self.new }
    {
        while !self.ends_list() && !is_separator(self.kind()) {
            self.bump();
        }
    }

    pub fn skip_separator(&mut self)
        ensures { Moved (spec.skip_separator (kinds_left self.old)) self.old self.new }
    {
        if is_separator(self.kind()) {
            self.bump();
        }
    }

    pub fn skip_fill(&mut self)
        ensures { Moved (spec.skip_fill (kinds_left self.old)) self.old self.new }
    {
        if is_fill_word(self.kind()) {
            self.skip_brackets();
        }
    }

    pub fn skip_flag(&mut self)
        ensures { Moved (spec.skip_flag (kinds_left self.old)) self.old self.new }
    {
        if is_flag(self.kind()) {
            self.bump();
        }
    }

    pub fn skip_shift(&mut self)
        ensures { Moved (spec.skip_shift (kinds_left self.old)) self.old self.new }
    {
        let word = self.kind();
        self.bump();
        if is_shift_word(word) {
            self.skip_value();
        }
    }

    /// The value of a shift.
    fn skip_value(&mut self)
        ensures { Moved (spec.skip_value (kinds_left self.old)) self.old self.new }
    {
        self.skip_signs();
        self.skip_moment();
    }

    fn skip_moment(&mut self)
        ensures { Moved (spec.skip_moment (kinds_left self.old)) self.old self.new }
    {
        if is_bound_word(self.kind()) {
            self.skip_brackets();
        } else {
            self.bump();
        }
    }

    /// Signs, and a token.
    pub fn skip_signed(&mut self)
        ensures { Moved (spec.skip_signed (kinds_left self.old)) self.old self.new }
    {
        self.skip_signs();
        self.bump();
    }

    /// The signs before a power.
    pub fn skip_power_signs(&mut self, op: TokenId)
        ensures { Moved (spec.skip_power_signs op (kinds_left self.old)) self.old self.new }
    {
        if op == T_POW {
            self.skip_signs();
        }
    }
}
