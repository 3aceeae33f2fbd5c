//! Texts with their tokens and lexical faults, the ids, and tokens by themselves.

mod any_text;
mod ids;
mod lexer;
mod tokens;
