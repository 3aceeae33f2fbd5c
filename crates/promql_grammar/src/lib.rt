//! The grammar of PromQL: what its expressions are, as derivations over kinds of tokens, and that no two derivations
//! have the same tokens; and the tokens of a text by their kinds, from the first. The contracts of the parser speak of them.
#![tactic(auto)]

pub mod label_tokens;
pub mod laws;
pub mod matcher_tokens;
pub mod precedence;
pub mod read_error;
pub mod signs;
pub mod token_kinds;
pub mod tokens;

pub use read_error::ReadError;
pub use token_kinds::{TokenKind, token_kind};
pub use tokens::{Tokens, has_tokens};
