//! The tests of what is done with queries: they are changed, formatted for people, and their nodes have places.
#![tactic(auto)]

#[cfg(test)]
mod tests;
