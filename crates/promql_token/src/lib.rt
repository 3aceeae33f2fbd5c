//! The tokens of PromQL: their ids, the tokens that a text is made of, and its lexical faults.
//! docs/reference/tokens.md has the rules.
//!
//! ```
//! let lexemes = promql_token::lexer(rt.alloc(), "sum(up)")?;
//! assert_eq!(rt; lexemes.len(), 5); // SUM, LEFT_PAREN, IDENTIFIER, RIGHT_PAREN, EOF
//! ```
#![tactic(auto)]

ghost use Rattle.promql_token.specs.Lexing as spec;

pub use any_text::text_tokens;
pub use fault::{LexError, LexFault, LexFaultKind};
pub use ids::{TokenId, get_keyword_token, token_display};
pub use lexeme::Lexeme;
use std::alloc::Global;
pub use token::{Token, TokenType, is_label};

mod any_text;
mod class;
pub mod cursor;
pub mod fault;
mod front;
pub mod ids;
pub mod laws;
pub mod lexeme;
mod numeral;
pub mod scan;
mod scan_token;
mod state;
mod string;
pub mod token;
mod trivia;
mod word;

/// The tokens of a text in order, T_EOF last.
///
/// Returns `Fault` where the text has a lexical fault, with its first one, and `Memory` where an
/// allocation failed (docs/reference/tokens.md, "The token list of a text").
#[tactic(auto, unfolding(crate::specs::Lexing::lex))]
pub fn lexer(alloc: Global, s: &str) -> Result<Vec<Lexeme>, LexError>
    ensures { spec.Gives (λ v. v.items) result (spec.lex s.now) }
{
    let mut lexemes = Vec::new(alloc);
    for found in scan::Lexer::new(s) {
        lexemes.push(found?)?;
    }
    Ok(lexemes)
}
