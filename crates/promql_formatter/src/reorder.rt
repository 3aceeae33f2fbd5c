//! One order for clauses and matchers: docs/reference/formatting.md, "Order". What has comments in it stays as it is.

use crate::comments::between;
use crate::piece::{Piece, Pieces};
use promql_grammar::TokenKind;
use promql_token::ids::T_LOR;
use std::alloc::{AllocError, Global};

/// An open parenthesis.
#[derive(Clone, Copy)]
struct Open {
    /// Its index.
    at: usize,
    /// How many tokens before it have comments.
    commented: usize,
    /// Whether the arguments of an aggregation begin with it, directly after the aggregator.
    is_aggregation: bool,
}

/// A clause after the arguments of an aggregation.
#[derive(Clone, Copy)]
struct Clause {
    arguments: Open,
    /// The index of its word.
    start: usize,
}

/// The tokens that were taken so far.
#[derive(Drop)]
struct Reordered {
    list: Vec<Piece>,
    opens: Vec<Open>,
    /// The parenthesis that was closed by the last token.
    closed: Option<Open>,
    clause: Option<Clause>,
    /// The brace that is open, as a parenthesis.
    brace: Option<Open>,
    /// How many of the tokens have comments.
    commented: usize,
    /// Whether matchers are sorted.
    sort_matchers: bool,
}

/// Puts each clause before its arguments, and, if that is asked for, the matchers of each list in the order of their texts.
pub(crate) fn reorder(
    alloc: Global,
    pieces: Pieces,
    sort_matchers: bool,
) -> Result<Pieces, AllocError> {
    let mut reordered = Reordered {
        list: Vec::with_capacity(alloc, pieces.list.len())?,
        opens: Vec::new(alloc),
        closed: None,
        clause: None,
        brace: None,
        commented: 0,
        sort_matchers,
    };
    for piece in &pieces.list {
        reordered.push(alloc, &pieces.bytes, *piece)?;
    }
    let Pieces {
        bytes,
        comments,
        ..
    } = pieces;
    Ok(Pieces {
        bytes,
        list: reordered.list,
        comments,
    })
}

impl Reordered {
    fn push(&mut self, alloc: Global, bytes: &[u8], piece: Piece) -> Result<(), AllocError> {
        let open = Open {
            at: self.list.len(),
            commented: self.commented,
            is_aggregation: matches!(self.last_kind(), Some(TokenKind::Aggregator(_))),
        };
        if piece.has_comments() {
            self.commented = self.commented.saturating_add(1);
        }
        let closed = self.closed;
        self.closed = None;
        match piece.kind {
            TokenKind::LeftParen => self.opens.push(open)?,
            TokenKind::RightParen => self.closed = self.opens.pop(),
            TokenKind::By | TokenKind::Without => self.clause = clause_after(closed, open.at),
            TokenKind::LeftBrace => self.brace = Some(open),
            TokenKind::Operator(T_LOR) => self.brace = None,
            TokenKind::RightBrace if self.sort_matchers => self.sort_matchers(alloc, bytes)?,
            _ => {}
        }
        self.list.push(piece)?;
        if piece.kind == TokenKind::RightParen {
            self.move_clause()?;
        }
        Ok(())
    }

    fn last_kind(&self) -> Option<TokenKind> {
        match self.list.last() {
            Some(piece) => Some(piece.kind),
            None => None,
        }
    }

    /// Moves the clause that the last token closes before the arguments of its aggregation.
    fn move_clause(&mut self) -> Result<(), AllocError> {
        let Some(clause) = self.clause else {
            return Ok(());
        };
        self.clause = None;
        let at = clause.arguments.at;
        if clause.arguments.commented != self.commented || at > self.list.len() {
            return Ok(());
        }
        let len = self.list.len().saturating_sub(clause.start);
        let mut tail = self.list.split_off(at)?;
        if len <= tail.len() {
            tail.rotate_right(len);
        }
        self.list.append(&mut tail)
    }

    /// Sorts the matchers of the brace that is open, where it has no `or` and no comments.
    fn sort_matchers(&mut self, alloc: Global, bytes: &[u8]) -> Result<(), AllocError> {
        let Some(brace) = self.brace else {
            return Ok(());
        };
        self.brace = None;
        let first = brace.at.saturating_add(1);
        if brace.commented != self.commented || first > self.list.len() {
            return Ok(());
        }
        let tail = self.list.split_off(first)?;
        let mut sorted = sorted_matchers(alloc, bytes, &tail)?;
        self.list.append(&mut sorted)
    }
}

/// The clause that begins with the token at this index, if the parenthesis that closes before it is that of arguments.
fn clause_after(closed: Option<Open>, start: usize) -> Option<Clause> {
    match closed {
        Some(arguments) if arguments.is_aggregation => Some(Clause { arguments, start }),
        _ => None,
    }
}

/// A matcher: its text, and which tokens it has.
#[derive(PartialEq, Eq, PartialOrd, Ord, Drop)]
struct MatcherTokens {
    text: Vec<u8>,
    start: usize,
    end: usize,
}

/// The matchers between commas in the order of their texts.
fn sorted_matchers(alloc: Global, bytes: &[u8], list: &[Piece]) -> Result<Vec<Piece>, AllocError> {
    let mut matchers = Vec::new(alloc);
    let mut text = Vec::new(alloc);
    let mut start: usize = 0;
    let mut index: usize = 0;
    let mut comma = None;
    for piece in list {
        if piece.kind == TokenKind::Comma {
            comma = Some(*piece);
            matchers.push(MatcherTokens {
                text,
                start,
                end: index,
            })?;
            text = Vec::new(alloc);
            start = index.saturating_add(1);
        } else {
            text.extend_from_slice(between(bytes, piece.start, piece.end))?;
        }
        index = index.saturating_add(1);
    }
    matchers.push(MatcherTokens {
        text,
        start,
        end: index,
    })?;
    matchers.sort()?;
    joined(alloc, list, &matchers, comma)
}

/// The tokens of matchers with a comma between each two.
fn joined(
    alloc: Global,
    list: &[Piece],
    matchers: &[MatcherTokens],
    comma: Option<Piece>,
) -> Result<Vec<Piece>, AllocError> {
    let mut joined = Vec::with_capacity(alloc, list.len())?;
    for matcher in matchers {
        if let Some(comma) = comma
            && !joined.is_empty()
        {
            joined.push(comma)?;
        }
        for piece in list.get(matcher.start..matcher.end).unwrap_or(&[]) {
            joined.push(*piece)?;
        }
    }
    Ok(joined)
}
