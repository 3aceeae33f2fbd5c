//! What a server rejects of a query that these rules accept, and what it reads otherwise: docs/reference/targets.md.
#![tactic(auto)]

mod area;
mod inspected;
mod later;
pub mod laws;
mod refusal;

pub use inspected::{Inspected, inspect};
pub use refusal::{Refusal, RefusalKind, first_refusal, refusals};
