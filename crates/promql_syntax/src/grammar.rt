//! The parser, with a function for each rule of docs/reference/grammar.md. It lexes each token when it comes
//! to it.

pub(crate) mod aggregate;
pub(crate) mod atom;
pub(crate) mod build;
pub(crate) mod build_atom;
pub mod build_error;
pub(crate) mod call;
pub mod expression;
pub(crate) mod grouping;
pub(crate) mod labels;
pub(crate) mod modifier;
pub(crate) mod parsed;
pub mod place;
pub(crate) mod postfix;
pub(crate) mod selector;
pub(crate) mod string;
pub(crate) mod time;
