//! Queries with the places of their nodes, and texts that have none.

mod errors;
mod lengths;
mod parts;
mod pictures;
mod visitors;
