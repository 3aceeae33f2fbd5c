//! What the parser's functions return.

ghost use Rattle.std.specs.Prelude.{◌≡◌, ◌&&◌, is_ok};

use crate::grammar::build_error::BuildError;
use promql_ast::{Expr, FunctionArgs};
use promql_grammar::ReadError;
use std::alloc::AllocError;

// An error of building is in a box: most texts have none, and what is returned stays small.

/// What was built of tokens that were read: a value, or the first fault in it, which is held until
/// all tokens are read, since those after it may be no expression, and that error comes first.
pub type Parsed<T> = Result<Result<T, Box<BuildError>>, ReadError>;

/// What is built of tokens that were read before. Only an allocation can fail.
pub type Built<T> = Result<Result<T, Box<BuildError>>, AllocError>;

/// A part of an expression, if it has one, that waits in a box for the rest of the expression.
pub type Pending<T> = Option<Box<Result<T, Box<BuildError>>>>;

// The types below stay small, since the functions that return them call one another at each level
// of an expression.

/// What was built of an expression, and the height of its derivation.
#[derive(Drop)]
pub struct ParsedExpr {
    // The height comes first: next to the box both would be copied as one word of 16 bytes, which
    // waits for the two stores of 8 bytes before it.
    pub height: usize,
    pub value: Result<Box<Expr>, Box<BuildError>>,
}

/// What was built of arguments, and the greatest height of their derivations.
#[derive(Drop)]
pub struct ParsedArgs {
    pub height: usize,
    pub value: Result<FunctionArgs, Box<BuildError>>,
}

impl ParsedExpr {
    /// Whether what comes after it is built, where it was: not after a fault.
    #[inline(always)]
    pub fn goes_on(&self, builds: bool) -> bool
        ensures { result ≡ (builds && is_ok self.now.value) }
    {
        builds && self.value.is_ok()
    }
}

impl ParsedArgs {
    /// Whether the argument after them is built, where they were: not after a fault.
    #[inline(always)]
    pub fn goes_on(&self, builds: bool) -> bool
        ensures { result ≡ (builds && is_ok self.now.value) }
    {
        builds && self.value.is_ok()
    }
}
