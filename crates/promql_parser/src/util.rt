//! Texts of a query, places in them, and walks over its tree.

pub mod duration;
pub mod number;
pub mod visitor;

pub use duration::{display_duration, parse_duration};
pub use number::parse_str_radix;
pub use promql_span::Location;
pub use promql_text::{QuoteError, escape_string, unquote_string};
pub use visitor::{ExprVisitor, walk_expr};
