//! The tokens of a text with their places, one by one, up to the end or the fault.

ghost use Rattle.std.specs.Prelude.{◌≡◌, drop};
ghost use Rattle.std.specs.Iterator.{YieldsFirst, item_count};
ghost use Rattle.std.specs.Str.{IsCharBoundary};
ghost use Rattle.promql_token.specs.Lexing as spec;
ghost use Rattle.promql_token.specs.Scan.{items_left};

use crate::cursor::Cursor;
use crate::fault::{LexFault, LexFaultKind};
use crate::ids::T_EOF;
use crate::lexeme::Lexeme;

fn fault_char(text: &str, kind: LexFaultKind, at: usize) -> Option<char>
    requires { IsCharBoundary text.now at }
    ensures { result ≡ spec.fault_char kind (drop at text.now) }
{
    if kind.has_char() {
        text[at..].chars().next()
    } else {
        None
    }
}

/// The tokens of a text, one by one, up to T_EOF or the text's fault. After either it ends for
/// good. It allocates nothing, and reads each token where the one before it ends.
#[derive(Drop)]
pub struct Lexer<'a> {
    cursor: Cursor<'a>,
    ended: bool,
}

impl<'a> Lexer<'a> {
    /// The lexer of a text.
    pub fn new(text: &'a str) -> Lexer<'a>
        ensures { items_left result ≡ spec.items text.now }
    {
        Lexer {
            cursor: Cursor::front(text),
            ended: false,
        }
    }
}

impl<'a> Iterator for Lexer<'a> {
    type Item = Result<Lexeme, LexFault>;

    ghost next_gives = { YieldsFirst items_left };

    ghost remaining = { item_count items_left };

    fn next(&mut self) -> Option<Result<Lexeme, LexFault>> {
        if self.ended {
            return None;
        }
        match self.cursor.advance() {
            Ok(token) => {
                self.ended = token.id == T_EOF;
                Some(Ok(token))
            }
            Err((kind, at)) => {
                self.ended = true;
                let ch = fault_char(self.cursor.text, kind, at);
                Some(Err(LexFault { kind, at, ch }))
            }
        }
    }
}
