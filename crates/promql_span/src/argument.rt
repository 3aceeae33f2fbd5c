//! The arguments of a call or an aggregation by its tokens.

ghost use Rattle.std.specs.Prelude.{◌≡◌};

use crate::placed::PlacedTokens;
use crate::places::{is_inside, span_of, through};
use crate::span::Span;
use promql_token::TokenId;
use promql_token::ids::{
    T_BY, T_COMMA, T_LEFT_BRACE, T_LEFT_BRACKET, T_LEFT_PAREN, T_RIGHT_BRACE, T_RIGHT_BRACKET,
    T_RIGHT_PAREN, T_WITHOUT,
};

/// Where a walk over the tokens of a call or an aggregation is.
#[derive(Clone, Copy)]
struct Walk {
    /// How many brackets are open.
    depth: usize,
    /// Whether a grouping was begun, and its parenthesis is not closed.
    has_grouping: bool,
    /// The index of the argument, from the parenthesis before the first one to that after the last.
    argument: Option<usize>,
}

impl Walk {
    /// Before the first token.
    fn new() -> Walk {
        Walk {
            depth: 0,
            has_grouping: false,
            argument: None,
        }
    }

    /// Goes past a token with this id. Returns the index of the argument that the token is in.
    fn pass(&mut self, id: TokenId) -> Option<usize> {
        match id {
            T_LEFT_PAREN | T_LEFT_BRACE | T_LEFT_BRACKET => self.open(),
            T_RIGHT_PAREN | T_RIGHT_BRACE | T_RIGHT_BRACKET => self.close(),
            T_COMMA if self.depth == 1 => self.end_argument(),
            T_BY | T_WITHOUT if self.depth == 0 => self.begin_grouping(),
            _ => self.argument,
        }
    }

    fn open(&mut self) -> Option<usize> {
        let outer = self.argument;
        if self.depth == 0 && !self.has_grouping {
            self.argument = Some(0);
        }
        self.depth = self.depth.saturating_add(1);
        outer
    }

    fn close(&mut self) -> Option<usize> {
        self.depth = self.depth.saturating_sub(1);
        if self.depth == 0 {
            self.argument = None;
            self.has_grouping = false;
        }
        self.argument
    }

    fn end_argument(&mut self) -> Option<usize> {
        if let Some(index) = self.argument {
            self.argument = Some(index.saturating_add(1));
        }
        None
    }

    fn begin_grouping(&mut self) -> Option<usize> {
        self.has_grouping = true;
        None
    }
}

/// The part with the argument with this index, or the whole part where it has none.
pub fn argument_part(text: &str, part: Span, index: usize) -> Span {
    let mut walk = Walk::new();
    let mut found = None;
    for token in PlacedTokens::new(text) {
        if is_inside(part, token) && walk.pass(token.id) == Some(index) {
            found = Some(through(found, span_of(token)));
        }
    }
    found.unwrap_or(part)
}
