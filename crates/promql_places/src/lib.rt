//! Where each node of a tree is in the text, and each part of a node: docs/reference/walks.md, "Places".
//!
//! ```text
//! let placed = parse_placed(alloc, "sum(rate(a[5m])) > 1")?;
//! // placed.places[0] is all of it, placed.places[1] is `sum(rate(a[5m]))`, as a walk comes to them
//! // placed.parts[1] is `sum`, placed.parts[2] is `rate`, placed.parts[3] is `a`, `a` and `[5m]`
//! ```
#![tactic(auto)]

mod kinds;
pub mod laws;
mod matcher_places;
mod part_cursor;
mod parts;
mod placed;
mod placed_form;
mod placing;
mod token_cursor;
mod visitor;

pub use parts::{Part, PartKind};
pub use placed::{PlacedExpr, find_parts, find_places, parse_placed};
pub use placed_form::{placed_json, placed_json_text};
pub use visitor::{PlacedVisitor, WithPlaces};
