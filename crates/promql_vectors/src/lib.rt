//! The tests of texts from end to end, by the names that a user calls, and of the programs of docs/guide/cookbook.md.
#![tactic(auto)]

#[cfg(test)]
mod tests;
