//! The layout of a query. Nothing is proved of it but that it ends, and how long it is: what it gives is read again.

ghost use Rattle.std.specs.Prelude.{◌≤◌, IfErr, IfOk, length};
ghost use Rattle.promql_formatter.specs.Options.{HasNoLayout};

use crate::format_error::FormatError;
use crate::items::items_of;
use crate::options::FormatOptions;
use crate::reading::read_pieces;
use crate::reorder::reorder;
use crate::structure::structured;
use crate::writer::written;
use std::alloc::Global;

/// The layout of a text that is a query.
///
/// # Errors
///
/// `TooLong` where it has more bytes than it may have, `Memory` where an allocation failed.
pub(crate) fn laid_out(
    alloc: Global,
    text: &str,
    options: &FormatOptions,
) -> Result<Vec<u8>, FormatError>
    ensures within { IfOk result (λ out. length out.items ≤ options.now.max_output) }
    ensures err { IfErr result (HasNoLayout options.now) }
{
    let mut pieces = read_pieces(alloc, text, options.keep_spelling)?;
    if !options.keep_spelling {
        pieces = reorder(alloc, pieces, options.sort_matchers)?;
    }
    let pieces = structured(alloc, pieces, !options.keep_spelling)?;
    let items = items_of(alloc, &pieces)?;
    written(alloc, &pieces.bytes, &items, options)
}
