//! Why a value is the JSON form of no tree: docs/reference/json.md, "From JSON to a tree".

ghost use Rattle.std.specs.Prelude.{◌≡◌, ◌++◌, Some, [], codes};
ghost use Rattle.serde_json.specs.Data.{Data};
ghost use Rattle.serde_json.specs.Find.{at as item_at, get};
ghost use Rattle.promql_from_json.specs.FormMisfits.{AsksOf, Form, MisfitAt, exactly, list_of};
ghost use Rattle.promql_from_json.specs.MembersLeft.{IsIn};
ghost use Rattle.promql_from_json.specs.declared.from_error.Expected.{Expected as Kind};
ghost use Rattle.promql_from_json.specs.declared.from_error.ReadError.TheVariants.{Memory};

use std::alloc::{AllocError, AllocFailed, Global};
use std::fmt;
use thiserror::Error;

/// What was expected at a place of a value.
#[derive(Clone, Copy, Debug, Drop, PartialEq, Eq, Error)]
pub enum Expected {
    /// The member has to be there.
    #[error("a member that is missing")]
    Missing,
    /// The object has no such member.
    #[error("no such member")]
    Unknown,
    /// An object.
    #[error("an object")]
    Object,
    /// A list.
    #[error("a list")]
    List,
    /// A list with an item.
    #[error("a list that is not empty")]
    FullList,
    /// A list without an item.
    #[error("an empty list")]
    EmptyList,
    /// A text.
    #[error("a text")]
    Text,
    /// `true` or `false`.
    #[error("true or false")]
    Flag,
    /// `false`, since there is no modifier.
    #[error("false, since there is no modifier")]
    NoFlag,
    /// A length of time.
    #[error("a whole number of milliseconds, not below zero")]
    Length,
    /// A time, or how far it is moved.
    #[error("a whole number of milliseconds")]
    Millis,
    /// A number, as it prints.
    #[error("the text of a number")]
    Number,
    /// The type of a node.
    #[error("the type of a node")]
    Node,
    /// The text of an aggregator.
    #[error("an aggregator")]
    Aggregator,
    /// The text of an operator between two expressions.
    #[error("an operator between two expressions")]
    Operator,
    /// `-`.
    #[error("the operator -")]
    Minus,
    /// The operator of a matcher.
    #[error("=, !=, =~ or !~")]
    MatchOp,
    /// A pattern that `regex` takes.
    #[error("a pattern")]
    Pattern,
    /// `start` or `end`, or null.
    #[error("start, end or null")]
    StartOrEnd,
    /// Null, since `startOrEnd` says the time.
    #[error("null, since startOrEnd is there")]
    NoTimestamp,
    /// The mode of a range.
    #[error("smoothed or anchored")]
    RangeMode,
    /// How many elements match how many.
    #[error("a cardinality")]
    Cardinality,
    /// The name of a function.
    #[error("the name of a function")]
    FunctionName,
    /// What the table of functions says of it.
    #[error("what the function has")]
    FunctionPart,
    /// A tree that is not as high.
    #[error("a tree of at most 512 nodes above one another")]
    LowTree,
}

/// Where a value is not the form of a tree, and what was expected there.
#[derive(Debug, Drop, PartialEq, Eq)]
pub struct Misfit {
    /// The way from the whole value to the place, as `.lhs.args[0].range`; empty for the whole.
    pub path: String,
    /// What was expected there.
    pub expected: Expected,
}

impl fmt::Display for Misfit {
    fn fmt<W: fmt::Write>(&self, f: &mut fmt::Formatter<W>) -> fmt::Result {
        write!(f, "${}: {}", self.path, self.expected)
    }
}

/// Why there is no tree of a value.
#[derive(Debug, Drop, PartialEq, Eq, Error)]
pub enum FromJsonError {
    /// An allocation failed.
    #[error("out of memory")]
    Memory,
    /// The text is not JSON, or nests too deep to be read.
    #[error("not JSON")]
    NotJson,
    /// The value is the form of no tree.
    #[error("{0}")]
    Misfit(Misfit),
}

/// Why a value is not read: what a `FromJsonError` of a value is.
#[derive(Debug, Drop)]
pub(crate) enum ReadError {
    Memory,
    Misfit(Misfit),
}

impl From<ReadError> for FromJsonError {
    ghost use Rattle.std.specs.Prelude.{◌≡◌, ◌≢◌, string_bytes};
    ghost use Rattle.serde_json.specs.Data.{Data};
    ghost use Rattle.promql_from_json.specs.FormMisfits.{Form, MisfitAt};
    ghost use Rattle.promql_from_json.specs.MembersLeft.{IsIn};
    ghost use Rattle.promql_from_json.specs.declared.from_error.FromJsonError.TheVariants.{NotJson};
    ghost use Rattle.promql_from_json.specs.declared.from_error.FromJsonError.TheVariants as surface;
    ghost use Rattle.promql_from_json.specs.declared.from_error.Misfit.{Misfit as Fault};
    ghost use Rattle.promql_from_json.specs.declared.from_error.ReadError.TheVariants.{Memory};

    ghost from_gives = { λ x e. (x ≡ Memory → e ≡ surface.Memory) × (e ≢ NotJson)
        × ((f : Form) (d : Data) (m : Fault) → IsIn f d x → e ≡ surface.Misfit m → MisfitAt f d (string_bytes m.path) m.expected) };

    fn from(e: ReadError) -> FromJsonError {
        match e {
            ReadError::Memory => FromJsonError::Memory,
            ReadError::Misfit(misfit) => FromJsonError::Misfit(misfit),
        }
    }
}

impl ReadError {
    /// An error at the place that is read.
    pub(crate) fn here(alloc: Global, expected: Expected) -> ReadError
        ensures { (f : Form) (d : Data) → MisfitAt f d [] expected → IsIn f d result }
    {
        ReadError::Misfit(Misfit {
            path: String::new(alloc),
            expected,
        })
    }

    /// An error at a member of the object that is read.
    pub(crate) fn at(alloc: Global, name: &str, expected: Expected) -> ReadError
        ensures { (f : Form) (d : Data) → MisfitAt f d (codes "." ++ name.now) expected → IsIn f d result }
    {
        match format!(in alloc; ".{name}") {
            Ok(path) => ReadError::Misfit(Misfit { path, expected }),
            Err(_) => ReadError::Memory,
        }
    }

    /// The error, seen from the object that has it in the member of this name.
    pub(crate) fn inside(self, alloc: Global, name: &str) -> ReadError
        ensures memory { self ≡ Memory → result ≡ Memory }
        ensures place { (f g : Form) (d v : Data) → AsksOf f d name.now g → get name.now d ≡ Some v → IsIn g v self → IsIn f d result }
    {
        match self {
            ReadError::Memory => ReadError::Memory,
            ReadError::Misfit(misfit) => {
                let Misfit { path, expected } = misfit;
                match format!(in alloc; ".{name}{path}") {
                    Ok(path) => ReadError::Misfit(Misfit { path, expected }),
                    Err(_) => ReadError::Memory,
                }
            }
        }
    }

    /// The error, seen from the list that has it in the item of this index.
    pub(crate) fn inside_item(self, alloc: Global, index: usize) -> ReadError
        ensures memory { self ≡ Memory → result ≡ Memory }
        ensures place { (x : Kind) (f : Form) (d v : Data) → item_at index d ≡ Some v → IsIn f v self → IsIn (list_of x f) d result }
        ensures exact { (d v w x : Data) → item_at index w ≡ Some x → item_at index d ≡ Some v → IsIn (exactly x) v self
            → IsIn (exactly w) d result }
    {
        match self {
            ReadError::Memory => ReadError::Memory,
            ReadError::Misfit(misfit) => {
                let Misfit { path, expected } = misfit;
                match format!(in alloc; "[{index}]{path}") {
                    Ok(path) => ReadError::Misfit(Misfit { path, expected }),
                    Err(_) => ReadError::Memory,
                }
            }
        }
    }
}

/// What was read of a member. Its error is seen from the object, and ends the function.
macro_rules! member {
    ($alloc:expr, $name:expr, $read:expr) => {
        match $read {
            Ok(value) => value,
            Err(error) => return Err(error.inside($alloc, $name)),
        }
    };
}

pub(crate) use member;

impl From<AllocError> for ReadError {
    ghost use Rattle.std.specs.Prelude.{◌≡◌};
    ghost use Rattle.promql_from_json.specs.declared.from_error.ReadError.TheVariants.{Memory};

    ghost from_gives = { λ _ e. e ≡ Memory };

    fn from(_e: AllocError) -> ReadError {
        ReadError::Memory
    }
}

impl<T: Drop> From<AllocFailed<T>> for ReadError {
    ghost use Rattle.std.specs.Prelude.{◌≡◌};
    ghost use Rattle.promql_from_json.specs.declared.from_error.ReadError.TheVariants.{Memory};

    ghost from_gives = { λ _ e. e ≡ Memory };

    fn from(_e: AllocFailed<T>) -> ReadError {
        ReadError::Memory
    }
}
