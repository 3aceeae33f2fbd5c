//! The limits of a call, as C passes them.

ghost use Rattle.std.specs.Prelude.{◌≡◌};
ghost use Rattle.promql_c.specs.CallLimits.{limits_of};

use promql_span::limits::Limits;
use promql_span::{Printed, Target};

/// `Limits` as C passes them, with the number of their target.
#[repr(C)]
#[derive(Clone, Copy, Debug)]
pub struct CallLimits {
    /// The most bytes of a query.
    pub max_len: usize,
    /// The greatest sum of the measures of its patterns.
    pub max_pattern_size: usize,
    /// The most bytes of what is made of it.
    pub max_output: usize,
    /// The number of the target: 0 for Prometheus 3, 1 for the rules, 2 for Prometheus 2.42.
    pub target: u32,
}

impl CallLimits {
    /// The limits; a number that no target has stands for Prometheus 3.
    pub fn limits(&self) -> Limits
        ensures { result ≡ limits_of self.now }
    {
        Limits {
            max_len: self.max_len,
            max_pattern_size: self.max_pattern_size,
            max_output: self.max_output,
            target: Target::from_number(self.target).unwrap_or(Target::Prometheus3),
            printed: Printed::Tree,
        }
    }
}
