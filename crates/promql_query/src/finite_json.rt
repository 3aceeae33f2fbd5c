//! The texts of JSON values without floats.

ghost use Rattle.std.specs.Prelude.{◌≡◌, IfOk, false, string_bytes};
ghost use Rattle.serde_json.specs.View.{view};
ghost use Rattle.serde_json.specs.Written.{compact_text, has_float};

use serde_json::Value;
use std::alloc::{AllocError, Global};

/// The text of a value without floats.
///
/// # Errors
///
/// `AllocError` where an allocation failed.
pub fn value_text(alloc: Global, value: Value) -> Result<String, AllocError>
    requires { has_float (view value) ≡ false }
    ensures { IfOk result (λ s. string_bytes s ≡ compact_text (view value)) }
{
    let text = value.to_string(alloc);
    drop(value);
    text
}
