//! Quoted texts, numbers and durations, with values from outside.

mod duration;
mod equality;
mod numbers;
mod printed;
mod quote;

use std::alloc::{AllocError, Global};

/// The text of a cell, in which `{9}` is nine zeros.
fn with_zeros(alloc: Global, cell: &str) -> Result<String, AllocError> {
    let Some((front, rest)) = cell.split_once('{') else {
        return String::from_str(alloc, cell);
    };
    let (count, back) = rest.split_once('}').unwrap_or((rest, ""));
    let zeros = "0".repeat(alloc, count.parse().unwrap_or(0))?;
    format!(in alloc; "{front}{zeros}{back}")
}
