//! Why parsing stops.

use std::alloc::{AllocError, AllocFailed};

/// Why parsing stops before an expression is complete (docs/reference/grammar.md, "The answer to a text").
#[derive(Clone, Copy, Debug)]
pub enum ReadError {
    /// An allocation failed.
    Memory,
    /// The tokens are no expression.
    Syntax,
    /// An expression would be higher than the limit.
    TooDeep,
}

impl From<AllocError> for ReadError {
    ghost use Rattle.std.specs.Prelude.{◌≡◌};
    ghost use Rattle.promql_grammar.specs.declared.read_error.ReadError.TheVariants.{Memory};

    ghost from_gives = { λ _ e. e ≡ Memory };

    fn from(_e: AllocError) -> ReadError {
        ReadError::Memory
    }
}

impl<T: Drop> From<AllocFailed<T>> for ReadError {
    ghost use Rattle.std.specs.Prelude.{◌≡◌};
    ghost use Rattle.promql_grammar.specs.declared.read_error.ReadError.TheVariants.{Memory};

    ghost from_gives = { λ _ e. e ≡ Memory };

    fn from(_e: AllocFailed<T>) -> ReadError {
        ReadError::Memory
    }
}
