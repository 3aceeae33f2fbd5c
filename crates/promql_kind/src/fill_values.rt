//! Values for elements that match nothing: docs/reference/tree.md, "Modifiers".

ghost use Rattle.std.specs.Prelude.{◌≡◌, Ok, Some, None};
ghost use Rattle.promql_kind.specs.Modifiers.{fills};
ghost use Rattle.promql_kind.specs.ModifierViews.{fills_of};

use promql_text::Number;
use std::alloc::{AllocError, Global};

/// The values that are in for a missing element of either side. Without a value, elements that match nothing are
/// left out.
#[derive(Clone, Copy, Debug, PartialEq, Eq, Hash)]
pub struct VectorMatchFillValues {
    /// Stands in for an element of the right side.
    pub rhs: Option<Number>,
    /// Stands in for an element of the left side.
    pub lhs: Option<Number>,
}

impl VectorMatchFillValues {
    /// A copy of the values, as the other nodes have it: it allocates nothing, and never fails.
    ///
    /// # Errors
    ///
    /// None.
    pub fn try_clone(&self, alloc: Global) -> Result<VectorMatchFillValues, AllocError>
        ensures { result ≡ Ok self.now }
    {
        let _ = alloc;
        Ok(*self)
    }

    /// A value for each side.
    pub fn new(lhs: Number, rhs: Number) -> VectorMatchFillValues
        ensures { fills_of result ≡ fills (Some rhs) (Some lhs) }
    {
        VectorMatchFillValues {
            rhs: Some(rhs),
            lhs: Some(lhs),
        }
    }

    /// The same values, but this one for the right side.
    pub fn with_rhs(self, rhs: Number) -> VectorMatchFillValues
        ensures { fills_of result ≡ fills (Some rhs) self.lhs }
    {
        VectorMatchFillValues {
            rhs: Some(rhs),
            lhs: self.lhs,
        }
    }

    /// The same values, but this one for the left side.
    pub fn with_lhs(self, lhs: Number) -> VectorMatchFillValues
        ensures { fills_of result ≡ fills self.rhs (Some lhs) }
    {
        VectorMatchFillValues {
            rhs: self.rhs,
            lhs: Some(lhs),
        }
    }
}

impl Default for VectorMatchFillValues {
    ghost is_default = { λ values. fills_of values ≡ fills None None };

    /// No value for either side.
    fn default() -> VectorMatchFillValues {
        VectorMatchFillValues {
            rhs: None,
            lhs: None,
        }
    }
}
