//! The layout of any value that displays: docs/reference/printing.md, "The trait".

ghost use Rattle.std.specs.Prelude.{◌≡◌, ◌⊎◌, ℕ, Bool, Result, String, IsSome, true};
ghost use Rattle.std.specs.declared.alloc.Global.{Global};
ghost use Rattle.promql_ast.specs.Lines.{IsLine, Keeps, MaySplit};

use crate::layout::display_len::is_too_long;
use crate::layout::indent::indented_line;
use std::alloc::{AllocError, Global};
use std::fmt::Display;
use thiserror::Error;

/// Why a value is not laid out.
#[derive(Clone, Copy, Debug, PartialEq, Eq, Error)]
pub enum PrettyError {
    /// An allocation failed.
    #[error("out of memory")]
    Memory,
    /// An indentation has more bytes than a `usize` counts.
    #[error("indentation too wide")]
    IndentTooWide,
}

impl From<AllocError> for PrettyError {
    ghost use Rattle.std.specs.Prelude.{◌≡◌};
    ghost use Rattle.promql_ast.specs.declared.layout.prettier.PrettyError.TheVariants.{Memory};

    ghost from_gives = { λ _ e. e ≡ Memory };

    fn from(_error: AllocError) -> PrettyError {
        PrettyError::Memory
    }
}

/// Values that are laid out over several lines where one line is too long. Layout changes nothing but spaces and line
/// feeds: that is proved of each implementation, and an implementation may rest on the three bodies here.
///
/// `level` counts indentations of two spaces; `max` is the most bytes that a line has, its indentation not counted.
pub trait Prettier: Display {
    ghost use Rattle.promql_ast.specs.declared.layout.prettier.PrettyError.{PrettyError};

    /// What an implementation of its own returns from `pretty`, from `format` and from `needs_split`.
    ghost own_pretty: { Self → ℕ → ℕ → Result (String Global) PrettyError → Type 0 } = { λ _ _ _ _. ⊥ };

    ghost own_format: { Self → ℕ → ℕ → Result (String Global) PrettyError → Type 0 } = { λ _ _ _ _. ⊥ };

    ghost own_split: { Self → ℕ → Bool → Type 0 } = { λ _ _ _. ⊥ };

    /// The value, laid out: its own format, and that only where its line is too long, else its one line, indented.
    ///
    /// # Errors
    ///
    /// `IndentTooWide` where an indentation would have more bytes than a `usize` counts; `Memory` where an allocation
    /// failed.
    fn pretty(&self, alloc: Global, level: usize, max: usize) -> Result<String, PrettyError>
    where
        Self: Sized,
        ensures keeps { Keeps (Self.output self.now) result }
        ensures line { IsLine (Self.output self.now) level PrettyError.IndentTooWide result
            ⊎ ((MaySplit (Self.output self.now) max (own_split self.now max) true
            × own_format self.now level max result)
            ⊎ own_pretty self.now level max result) }
    {
        if self.needs_split(max) {
            self.format(alloc, level, max)
        } else {
            indented_line(self, alloc, level)
        }
    }

    /// The value over several lines, if it has such a form, else its one line, indented.
    ///
    /// # Errors
    ///
    /// Those of `pretty`.
    fn format(&self, alloc: Global, level: usize, max: usize) -> Result<String, PrettyError>
    where
        Self: Sized,
        ensures keeps { Keeps (Self.output self.now) result }
        ensures line { IsLine (Self.output self.now) level PrettyError.IndentTooWide result
            ⊎ own_format self.now level max result }
    {
        let _ = max;
        indented_line(self, alloc, level)
    }

    /// Whether the one line has more than `max` bytes. Bytes past the greatest `usize` are not counted.
    fn needs_split(&self, max: usize) -> bool
    where
        Self: Sized,
        ensures split { MaySplit (Self.output self.now) max (own_split self.now max) result }
    {
        is_too_long(self, max)
    }

    /// An implementation's `Display` states its bytes.
    ghost states: { (x : Self) → IsSome (Self.output x) };
}
