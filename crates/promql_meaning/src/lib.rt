//! What a query means: what an engine can see of a store through it, with laws about queries that are printed and changed. The rules
//! are in docs/guide/meaning.md.
#![tactic(auto)]

pub mod laws;
