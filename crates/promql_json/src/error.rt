//! Why a tree has no JSON form: docs/reference/json.md, "What has no form".

use std::alloc::{AllocError, AllocFailed};
use thiserror::Error;

/// Why there is no JSON form.
#[derive(Debug, Drop, PartialEq, Eq, Error)]
pub enum JsonError {
    /// An allocation failed.
    #[error("out of memory")]
    Memory,
    /// A number of milliseconds is below -2^63 or above 2^64 - 1.
    #[error("number too wide for JSON")]
    NumberTooWide,
    /// The tree has an extension.
    #[error("extension has no JSON form")]
    Extension,
}

impl From<AllocError> for JsonError {
    ghost use Rattle.std.specs.Prelude.{◌≡◌};
    ghost use Rattle.promql_json.specs.declared.error.JsonError.TheVariants.{Memory};

    ghost from_gives = { λ _ e. e ≡ Memory };

    fn from(_e: AllocError) -> JsonError {
        JsonError::Memory
    }
}

impl<T: Drop> From<AllocFailed<T>> for JsonError {
    ghost use Rattle.std.specs.Prelude.{◌≡◌};
    ghost use Rattle.promql_json.specs.declared.error.JsonError.TheVariants.{Memory};

    ghost from_gives = { λ _ e. e ≡ Memory };

    fn from(_e: AllocFailed<T>) -> JsonError {
        JsonError::Memory
    }
}
