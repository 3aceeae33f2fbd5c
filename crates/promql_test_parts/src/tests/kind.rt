//! Value types, modifiers and functions.

mod functions;
mod modifiers;
mod value_types;
