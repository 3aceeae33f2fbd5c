//! Tokens by their places.

use crate::fault::LexFaultKind;
use crate::ids::TokenId;

/// A token: its id, and where its text is.
#[derive(Clone, Copy, Debug, PartialEq, Eq)]
pub struct Lexeme {
    pub id: TokenId,
    /// Where its text begins, in bytes.
    pub start: usize,
    /// The length of its text, in bytes.
    pub len: usize,
}

/// A token's id and length, or a fault and how far from the front it is. What reads one outside braces and brackets is
/// inlined where it is called, so that it stays in registers.
pub(crate) type Scanned = Result<(TokenId, usize), (LexFaultKind, usize)>;
