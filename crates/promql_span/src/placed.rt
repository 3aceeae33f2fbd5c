//! The tokens of a text with their places, before its end or its lexical fault.

ghost use Rattle.std.specs.Prelude.{◌≡◌};
ghost use Rattle.std.specs.Iterator.{YieldsFirst, item_count};
ghost use Rattle.promql_span.specs.PlacedTokens.{placed_tokens};
ghost use Rattle.promql_span.specs.TokensLeft.{placed_left};

use promql_token::Lexeme;
use promql_token::ids::T_EOF;
use promql_token::scan::Lexer;

/// The tokens of a text, one by one, before its end or its lexical fault. It allocates nothing.
#[derive(Drop)]
pub struct PlacedTokens<'a> {
    lexer: Lexer<'a>,
    ended: bool,
}

impl<'a> PlacedTokens<'a> {
    /// The tokens of a text.
    pub fn new(text: &'a str) -> PlacedTokens<'a>
        ensures { placed_left result ≡ placed_tokens text.now }
    {
        PlacedTokens {
            lexer: Lexer::new(text),
            ended: false,
        }
    }
}

impl<'a> Iterator for PlacedTokens<'a> {
    type Item = Lexeme;

    ghost next_gives = { YieldsFirst placed_left };

    ghost remaining = { item_count placed_left };

    fn next(&mut self) -> Option<Lexeme> {
        if self.ended {
            return None;
        }
        match self.lexer.next() {
            Some(Ok(token)) => {
                self.ended = token.id == T_EOF;
                if self.ended { None } else { Some(token) }
            }
            Some(Err(_)) | None => {
                self.ended = true;
                None
            }
        }
    }
}
