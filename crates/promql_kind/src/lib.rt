//! What nodes of a query hold beside their parts: value types, modifiers and functions.
//! The rules are in docs/reference/tree.md, docs/reference/printing.md and docs/reference/functions.md.
#![tactic(auto)]

pub use bin_modifier::BinModifier;
pub use cardinality::VectorMatchCardinality;
pub use fill_values::VectorMatchFillValues;
pub use function::{Function, get_function};
pub use label_modifier::LabelModifier;
pub use value::{Value, ValueType};

pub mod bin_modifier;
pub mod cardinality;
pub mod fill_values;
pub mod function;
mod function_table;
pub mod label_modifier;
pub mod laws;
mod printed_len;
pub mod value;
