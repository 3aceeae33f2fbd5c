//! The tests of the parts of a query: texts, numbers, durations, tokens, labels, functions, modifiers and moments.
#![tactic(auto)]

#[cfg(test)]
mod tests;
