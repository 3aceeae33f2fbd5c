//! Parts of a text by its tokens, how they are shown, and the error of a text with its place: docs/reference/grammar.md,
//! "Places of errors".
#![tactic(auto)]

mod argument;
mod byte_escapes;
pub mod diagnosis;
mod differences;
pub mod expected;
mod inspection;
mod kind_names;
pub mod laws;
pub mod limits;
mod location;
mod lookahead;
mod marks;
mod placed;
mod places;
mod snippets;
mod span;
mod target;
pub mod unexpected;
mod visibility;

pub use byte_escapes::byte_escape;
pub use differences::{Difference, DifferenceKind, Printed};
pub use inspection::{Inspection, inspect_tokens};
pub use limits::token_numbered;
pub use location::Location;
pub use lookahead::{after_signs, comes_first, is_before_operand, stands_for};
pub use marks::has_mark;
pub use placed::PlacedTokens;
pub use places::{argument_span, char_span, end_of_text, next_span, span_between, token_left};
pub use snippets::snippet;
pub use span::Span;
pub use target::Target;
pub use visibility::visible;
