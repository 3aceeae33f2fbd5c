//! Why nothing is built of tokens that are an expression.

ghost use Rattle.std.specs.Prelude.{◌≡◌, IfOk};
ghost use Rattle.promql_syntax.specs.BuildErrors.{build_error_of, build_fault_of};

use crate::grammar::place::Place;
use promql_ast::{AtFault, CheckFault};
use promql_text::{DurationFault, NumberFault};
use std::alloc::{AllocError, Global};

/// Why tokens that are an expression build no tree, and where. It is held until all tokens are read.
#[derive(Drop)]
pub struct BuildError {
    pub fault: BuildFault,
    pub place: Place,
}

impl BuildError {
    /// A fault with its place, in a box.
    #[inline(never)]
    pub fn boxed(
        alloc: Global,
        fault: BuildFault,
        place: Place,
    ) -> Result<Box<BuildError>, AllocError>
        ensures fault { IfOk result (λ error. build_error_of error.value ≡ build_fault_of fault) }
        ensures place { IfOk result (λ error. error.value.place ≡ place) }
    {
        Ok(Box::new(alloc, BuildError { fault, place })?)
    }
}

/// The first fault in the order of docs/reference/grammar.md, "Building".
#[derive(Drop)]
pub enum BuildFault {
    /// A number has no value that can be held.
    Number(NumberFault),
    /// A string has a raw line feed, or an escape of no character.
    Quoted,
    /// A text is no duration.
    Duration(DurationFault),
    /// A number after `@` is no moment.
    At(AtFault),
    /// `regex` rejects this pattern.
    Pattern(String),
    /// There is no function of this name.
    UnknownFunction(String),
    /// A builder or a check rejects the node.
    Check(CheckFault),
}
