//! Strings.

ghost use Rattle.std.specs.Prelude.{◌≡◌, IfOk, string_bytes};
ghost use Rattle.promql_syntax.specs.BuildErrors.{view_result};
ghost use Rattle.promql_syntax.specs.PartBuilding.{string_value};

use crate::grammar::build_error::{BuildError, BuildFault};
use crate::grammar::parsed::Built;
use crate::grammar::place::Place;
use promql_text::{QuoteError, unquote_string};
use std::alloc::{AllocError, Global};

/// The value of a string's text, the token with this index.
pub fn string_value(alloc: Global, text: &str, index: usize) -> Built<String>
    ensures { IfOk result (λ value. view_result string_bytes value ≡ string_value text.now) }
{
    match unquote_string(alloc, text) {
        Ok(string) => Ok(Ok(string)),
        Err(QuoteError::InvalidSyntax) => {
            let place = Place::token(index);
            Ok(Err(BuildError::boxed(alloc, BuildFault::Quoted, place)?))
        }
        Err(QuoteError::Memory) => Err(AllocError),
    }
}
