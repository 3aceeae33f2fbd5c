//! The tests of trees, of nodes read from texts and made by hand, of walks over them, and of their form in JSON.
#![tactic(auto)]

#[cfg(test)]
mod tests;
