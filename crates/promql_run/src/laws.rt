//! Laws: the contracts of functions that do nothing.

ghost use Rattle.promql_text.specs.Equalities.{IsSameBy};
ghost use Rattle.promql_run.specs.declared.format.Format as formats;
ghost use Rattle.promql_run.specs.Running.{failure_of};

use crate::format::Format;
use crate::run::RunError;

/// Formats are equal exactly if they are one.
pub fn equal_formats()
    ensures { IsSameBy (λ (f : formats.Format). f) ⟦<Format as PartialEq>⟧.eq }
{}

/// Errors are equal exactly if they have one number and, of the parser, are its same errors.
pub fn equal_errors()
    ensures { IsSameBy failure_of ⟦<RunError as PartialEq>⟧.eq }
{
    promql_syntax::laws::equal_errors();
}
