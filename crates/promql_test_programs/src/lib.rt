//! The tests of the programs, as functions of their arguments, inputs and outputs.
#![tactic(auto)]

#[cfg(test)]
mod tests;
