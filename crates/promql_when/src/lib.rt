//! Which samples a query reads, and when: docs/reference/when.md.
#![tactic(auto)]

mod last;
pub mod laws;
mod overflow;
mod pinning;
mod reach;
mod reading;
mod series;
mod times;
mod window;

pub use last::{is_constant, last_of, last_read};
pub use overflow::{TimedNode, WindowsError};
pub use pinning::{PinError, asks_grid, pinned};
pub use reach::{Reach, SelectorReach, reaches};
pub use reading::{SelectorWindow, windows};
pub use series::{SeriesLabel, may_read, selects};
pub use times::{Times, Window};
