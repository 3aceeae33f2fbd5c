//! How many widths were made: docs/reference/printing.md, "One width a node".

ghost use Rattle.std.specs.Prelude.{◌≡◌, ◌+◌, ◌≤◌};
ghost use Rattle.promql_text.specs.PrintedLen.{usize_max, cap_usize};

/// Counts the widths that layouts make, up to the greatest `usize`.
#[derive(Drop)]
pub struct Tally {
    widths: usize,
    ghost known: { widths ≤ usize_max },
}

impl Default for Tally {
    ghost use Rattle.std.specs.Prelude.{◌≡◌};

    ghost is_default = { λ tally. tally.widths ≡ 0 };

    fn default() -> Tally {
        Tally { widths: 0 }
    }
}

impl Tally {
    /// The widths that were made.
    pub fn widths(&self) -> usize
        ensures { result ≡ self.now.widths }
    {
        self.widths
    }

    pub(crate) fn add(&mut self, widths: usize)
        ensures counted { self.new.widths ≡ cap_usize (self.old.widths + widths) }
        ensures known { self.old.widths ≤ usize_max }
    {
        self.widths = self.widths.saturating_add(widths);
    }
}
