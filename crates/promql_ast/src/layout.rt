//! Layout over several lines: docs/reference/printing.md.

pub mod decisions;
pub mod display_len;
pub mod indent;
pub mod kinds;
pub mod measurer;
pub mod node;
pub mod prettier;
pub mod pretty;
pub mod tally;
pub mod writer;
