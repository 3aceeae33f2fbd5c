//! The tokens of a text. `scan::Lexer` gives them one by one.

pub use promql_token::{LexError, LexFault, LexFaultKind, Lexeme, is_label, lexer, scan};
