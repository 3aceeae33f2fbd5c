//! Why a text has no layout.

use crate::options::WideOption;
use promql_span::diagnosis::Diagnosis;
use promql_span::limits::LongOutput;
use std::alloc::AllocError;
use thiserror::Error;

/// Why a text is not formatted.
#[derive(PartialEq, Eq, Debug, Drop, Error)]
pub enum FormatError {
    /// An allocation failed.
    #[error("out of memory")]
    Memory,
    /// The text is no query: why, and where.
    #[error("{}", .0.error)]
    Rejected(Diagnosis),
    /// The layout that was made is not given out, since it does not read back with the same tree and comments.
    #[error("the formatted query does not read back")]
    Unfaithful,
    /// An option asks for lines or indentations that are too wide.
    #[error("{0}")]
    TooWide(WideOption),
    /// The layout has more bytes than it may have.
    #[error("{0}")]
    TooLong(LongOutput),
}

impl From<AllocError> for FormatError {
    ghost use Rattle.std.specs.Prelude.{◌≡◌};
    ghost use Rattle.promql_formatter.specs.declared.format_error.FormatError.TheVariants.{Memory};

    ghost from_gives = { λ _ e. e ≡ Memory };

    fn from(_e: AllocError) -> FormatError {
        FormatError::Memory
    }
}
