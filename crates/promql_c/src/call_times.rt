//! The times of a call, as C passes them.

ghost use Rattle.std.specs.Prelude.{◌≡◌};
ghost use Rattle.promql_c.specs.CallTimes.{times_of};

use promql_when::Times;

/// `Times` as C passes them: all are milliseconds, since the epoch where they are moments.
#[repr(C)]
#[derive(Clone, Copy, Debug)]
pub struct CallTimes {
    /// The first time of a query.
    pub start: i64,
    /// The time after which there is none.
    pub end: i64,
    /// From one time to the next.
    pub step: u64,
    /// How far back a selector without a range looks.
    pub lookback: u64,
    /// The step of a subquery without one.
    pub default_step: u64,
    /// Whether windows are open on the left: 0 where they are not.
    pub left_open: u32,
}

impl CallTimes {
    /// The times.
    pub fn times(&self) -> Times
        ensures { result ≡ times_of self.now }
    {
        Times {
            start: self.start,
            end: self.end,
            step: self.step,
            lookback: self.lookback,
            default_step: self.default_step,
            is_left_open: self.left_open != 0,
        }
    }
}
