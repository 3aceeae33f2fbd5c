//! Labels, patterns, matchers and their lists.

mod labels;
mod matcher;
mod matchers;
mod measures;
mod patterns;
mod repeats;
