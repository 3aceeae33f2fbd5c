//! The tokens of a query as texts, groups and places where a line may be broken.

use crate::comments::between;
use crate::piece::{Bracket, Break, Context, Piece, Pieces};
use std::alloc::{AllocError, Global};

/// A part of what is written.
#[derive(Clone, Copy, Debug, PartialEq, Eq)]
pub(crate) enum Item {
    Text(Text),
    Comment(Text),
    /// A line may be broken.
    Break(Break),
    /// A comma, where the group has several lines.
    Comma,
    /// A bracket's group begins, with the bracket.
    BeginBracket(Context),
    /// A chain begins, with its first operand.
    BeginChain,
    /// A group ends.
    End,
}

/// A text of the bytes of `Pieces`.
#[derive(Clone, Copy, Debug, PartialEq, Eq)]
pub(crate) struct Text {
    pub start: usize,
    pub end: usize,
    /// How many characters it has.
    pub width: usize,
    /// Of a token: whether a space is before it. Of a comment: whether it is on a line of its own.
    pub is_apart: bool,
}

/// How many characters a text has.
fn width_of(text: &[u8]) -> usize {
    let mut width: usize = 0;
    for byte in text {
        if *byte < 0x80 || *byte >= 0xC0 {
            width = width.saturating_add(1);
        }
    }
    width
}

impl Pieces {
    fn text(&self, start: usize, end: usize, is_apart: bool) -> Text {
        Text {
            start,
            end,
            width: width_of(between(&self.bytes, start, end)),
            is_apart,
        }
    }
}

/// The items of a query.
pub(crate) fn items_of(alloc: Global, pieces: &Pieces) -> Result<Vec<Item>, AllocError> {
    let mut items = Vec::new(alloc);
    for piece in &pieces.list {
        push_piece(pieces, &mut items, piece)?;
    }
    Ok(items)
}

/// Adds the items of a token, with its comments and the groups that begin or end with it.
fn push_piece(pieces: &Pieces, items: &mut Vec<Item>, piece: &Piece) -> Result<(), AllocError> {
    if piece.bracket == Bracket::CloseList {
        items.push(Item::Comma)?;
    }
    push_comments(pieces, items, piece)?;
    for _ in 0..piece.opens {
        items.push(Item::BeginChain)?;
    }
    if let Bracket::Open(context) = piece.bracket {
        items.push(Item::BeginBracket(context))?;
    }
    if piece.start < piece.end {
        items.push(Item::Text(pieces.text(piece.start, piece.end, piece.space)))?;
    }
    if matches!(piece.bracket, Bracket::Close | Bracket::CloseList) {
        items.push(Item::End)?;
    }
    for _ in 0..piece.closes {
        items.push(Item::End)?;
    }
    Ok(())
}

/// Adds the comments before a token, and the break before it. The first comment may be at the end of a line.
fn push_comments(pieces: &Pieces, items: &mut Vec<Item>, piece: &Piece) -> Result<(), AllocError> {
    let is_edge = items.is_empty() || piece.start >= piece.end;
    let place = if is_edge && piece.has_comments() {
        Break::Lines
    } else {
        piece.place
    };
    let mut is_first = true;
    let comments = pieces
        .comments
        .get(piece.first_comment..piece.end_comment)
        .unwrap_or(&[]);
    for comment in comments {
        let own_line = comment.own_line || !is_first;
        if own_line {
            items.push(Item::Break(place))?;
        }
        items.push(Item::Comment(pieces.text(comment.start, comment.end, own_line)))?;
        is_first = false;
    }
    if piece.start < piece.end {
        items.push(Item::Break(place))?;
    }
    Ok(())
}
