//! The tokens of a text as the layout sees them.

use promql_grammar::TokenKind;

/// Where a line may be broken, before a token.
#[derive(Clone, Copy, Debug, PartialEq, Eq)]
pub(crate) enum Break {
    /// Nowhere.
    No,
    /// Where the group has several lines.
    Lines,
    /// Where the group has several lines, and what follows does not fit.
    Fill,
    /// As `Fill`, before an operator whose right side is a number. Parentheses before it are broken first.
    Number,
    /// As `Fill`, before the right side of an operator with labels, or before its `group_left` or `group_right`.
    RightSide,
    /// Before what comes after `group_left` or `group_right`, where not even its head fits.
    Grouped,
    /// After a number or a string that comes first, where not even the head of what follows fits.
    AfterNumber,
    /// As `Lines`, before the bracket that closes the group.
    Close,
}

/// What is between two brackets.
#[derive(Clone, Copy, Debug, PartialEq, Eq)]
pub(crate) enum Context {
    /// Expressions with commas between them; the whole text, too.
    Expressions,
    /// As `Expressions`, of which there is one: a call, or a selector with matchers.
    Single,
    /// Labels after `by`, `on` and the like.
    Labels,
    Matchers,
    /// A range, a fill value, or the number of a call.
    Value,
}

/// What a token is to the groups around it.
#[derive(Clone, Copy, Debug, PartialEq, Eq)]
pub(crate) enum Bracket {
    /// No bracket of a group.
    No,
    Open(Context),
    Close,
    /// Closes a group whose last item has a comma after it, where the group has several lines.
    CloseList,
}

/// A token, with the comments before it.
#[derive(Clone, Copy, Debug, PartialEq, Eq)]
pub(crate) struct Piece {
    pub kind: TokenKind,
    /// Where its text begins in the bytes of `Pieces`.
    pub start: usize,
    /// Where its text ends there.
    pub end: usize,
    /// The index of the first comment before it.
    pub first_comment: usize,
    /// The index after the last comment before it.
    pub end_comment: usize,
    /// Whether a space is before it, where it does not begin a line.
    pub space: bool,
    pub place: Break,
    pub bracket: Bracket,
    /// How many chains of operators begin with it.
    pub opens: usize,
    /// How many chains of operators end with it.
    pub closes: usize,
}

impl Piece {
    /// A token with its text and the comments before it.
    pub fn new(kind: TokenKind, start: usize, end: usize, comments: (usize, usize)) -> Piece {
        Piece {
            kind,
            start,
            end,
            first_comment: comments.0,
            end_comment: comments.1,
            space: false,
            place: Break::No,
            bracket: Bracket::No,
            opens: 0,
            closes: 0,
        }
    }

    /// Whether comments are before it.
    pub fn has_comments(&self) -> bool {
        self.first_comment < self.end_comment
    }
}

/// A comment, from `#` to the end of its line.
#[derive(Clone, Copy, Debug, PartialEq, Eq)]
pub(crate) struct Comment {
    /// Where its text begins in the bytes of `Pieces`.
    pub start: usize,
    /// Where its text ends there.
    pub end: usize,
    /// Whether it is the first on its line.
    pub own_line: bool,
}

/// The tokens and the comments of a text. The last token is the end, without a text.
#[derive(Drop)]
pub(crate) struct Pieces {
    /// The text, and after it other spellings of its tokens.
    pub bytes: Vec<u8>,
    pub list: Vec<Piece>,
    pub comments: Vec<Comment>,
}
