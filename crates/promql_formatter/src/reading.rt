//! From a text to its tokens and comments.

use crate::comments::{between, is_line_end};
use crate::piece::{Comment, Piece, Pieces};
use crate::spelling::spelled;
use promql_grammar::{TokenKind, token_kind};
use promql_token::Lexeme;
use promql_token::ids::T_EOF;
use promql_token::scan::Lexer;
use std::alloc::{AllocError, Global};

/// Reads the tokens of a text one by one.
#[derive(Drop)]
struct Reader {
    pieces: Pieces,
    /// Whether tokens keep their spelling.
    keep_spelling: bool,
    /// A comma that is not known yet to be the last of its list.
    comma: Option<Piece>,
    /// The index of the first comment that no token has yet.
    first_comment: usize,
    /// Whether a number that comes is a time.
    is_time: bool,
    /// Whether an operand may end before the next token.
    after_operand: bool,
}

/// The tokens of a text, each in its spelling, without commas that close a list.
pub(crate) fn read_pieces(
    alloc: Global,
    text: &str,
    keep_spelling: bool,
) -> Result<Pieces, AllocError> {
    let mut reader = Reader {
        pieces: Pieces {
            bytes: Vec::from_slice(alloc, text.as_bytes())?,
            list: Vec::new(alloc),
            comments: Vec::new(alloc),
        },
        keep_spelling,
        comma: None,
        first_comment: 0,
        is_time: false,
        after_operand: false,
    };
    let mut at: usize = 0;
    for token in Lexer::new(text) {
        let Ok(token) = token else {
            break;
        };
        reader.push_comments(text, at, token.start)?;
        reader.push_token(alloc, text, token)?;
        at = token.start.saturating_add(token.len);
    }
    Ok(reader.pieces)
}

impl Reader {
    /// Adds the comments between two places of the text.
    fn push_comments(&mut self, text: &str, start: usize, end: usize) -> Result<(), AllocError> {
        let mut own_line = start == 0;
        let mut begun: Option<usize> = None;
        let mut at = start;
        for byte in between(text.as_bytes(), start, end) {
            if is_line_end(*byte) {
                if let Some(first) = begun {
                    self.push_comment(first, at, own_line)?;
                    begun = None;
                }
                own_line = true;
            } else if *byte == b'#' && begun.is_none() {
                begun = Some(at);
            }
            at = at.saturating_add(1);
        }
        if let Some(first) = begun {
            self.push_comment(first, at, own_line)?;
        }
        Ok(())
    }

    fn push_comment(&mut self, start: usize, end: usize, own_line: bool) -> Result<(), AllocError> {
        let comment = Comment {
            start,
            end,
            own_line,
        };
        self.pieces.comments.push(comment)?;
        Ok(())
    }

    /// Adds a token with the comments before it. Those before a comma go to the token after it.
    fn push_token(&mut self, alloc: Global, text: &str, token: Lexeme) -> Result<(), AllocError> {
        let kind = token_kind(token.id);
        if kind == TokenKind::Comma {
            let end = token.start.saturating_add(token.len);
            let none = (self.first_comment, self.first_comment);
            self.comma = Some(Piece::new(kind, token.start, end, none));
            self.after_operand = false;
            return Ok(());
        }
        if let Some(comma) = self.comma {
            self.comma = None;
            if kind != TokenKind::RightBrace && kind != TokenKind::RightParen {
                self.pieces.list.push(comma)?;
            }
        }
        let (start, end) = self.place_of(alloc, text, token, kind)?;
        let end_comment = self.pieces.comments.len();
        let piece = Piece::new(kind, start, end, (self.first_comment, end_comment));
        self.pieces.list.push(piece)?;
        self.first_comment = end_comment;
        Ok(())
    }

    /// Where the text of a token is, in its spelling.
    fn place_of(
        &mut self,
        alloc: Global,
        text: &str,
        token: Lexeme,
        kind: TokenKind,
    ) -> Result<(usize, usize), AllocError> {
        let end = token.start.saturating_add(token.len);
        let written = (token.start, end);
        let is_time = self.is_time;
        self.is_time = goes_on_with_time(kind, is_time, self.after_operand);
        self.after_operand = ends_operand(kind);
        if self.keep_spelling || token.id == T_EOF {
            return Ok(written);
        }
        let Ok(token_text) = str::from_utf8(between(text.as_bytes(), token.start, end)) else {
            return Ok(written);
        };
        match spelled(alloc, kind, token_text, is_time)? {
            Some(other) => self.pieces.push_text(other.as_bytes()),
            None => Ok(written),
        }
    }
}

/// Whether a number is a time after a token of this kind. A word `offset` that is not after an operand is a name.
fn goes_on_with_time(kind: TokenKind, is_time: bool, after_operand: bool) -> bool {
    match kind {
        TokenKind::LeftBracket | TokenKind::Colon => true,
        TokenKind::Offset => after_operand,
        TokenKind::Operator(_) => is_time,
        _ => false,
    }
}

/// Whether an operand may end with a token of this kind.
fn ends_operand(kind: TokenKind) -> bool {
    match kind {
        TokenKind::RightParen
        | TokenKind::RightBrace
        | TokenKind::RightBracket
        | TokenKind::Number
        | TokenKind::Duration
        | TokenKind::String => true,
        TokenKind::Operator(_) => false,
        _ => kind.may_be_name(),
    }
}

impl Pieces {
    /// Adds a text to the bytes, and returns where it is.
    pub(crate) fn push_text(&mut self, text: &[u8]) -> Result<(usize, usize), AllocError> {
        let start = self.bytes.len();
        self.bytes.extend_from_slice(text)?;
        Ok((start, self.bytes.len()))
    }
}
