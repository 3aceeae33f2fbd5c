//! What is wrong with arguments, for people: docs/reference/programs.md, "Arguments".

use crate::job::Subcommand;
use crate::limit_options::number_in;
use crate::words::{Words, is_flag};
use promql_run::format::Format;
use promql_span::Target;
use std::alloc::{AllocError, Global};
use std::fmt;
use strsim::levenshtein;
use thiserror::Error;

/// The names of the subcommands.
const SUBCOMMANDS: [&str; 7] = [
    "line", "pretty", "json", "check", "format", "enforce", "batch",
];

/// The names of the modes of a batch.
const MODES: [&str; 3] = ["pretty", "line", "json"];

/// The options of a check.
const CHECK_OPTIONS: [&str; 4] = ["--color", "--target", "--max-len", "--max-patterns"];

/// The options of formatting.
const FORMAT_OPTIONS: [&str; 9] = [
    "--width",
    "--indent",
    "--keep-spelling",
    "--sort-matchers",
    "--check",
    "--target",
    "--max-len",
    "--max-patterns",
    "--max-output",
];

/// The options of enforcing.
const ENFORCE_OPTIONS: [&str; 3] = ["--target", "--max-len", "--max-patterns"];

/// The options of a batch.
const BATCH_OPTIONS: [&str; 4] = ["--target", "--max-len", "--max-patterns", "--max-output"];

/// The options that the program and each subcommand have.
const COMMON_OPTIONS: [&str; 2] = ["--help", "--version"];

/// The most edits of a word that stands for a name.
const MAX_EDITS: usize = 3;

/// The name that a word may stand for.
#[derive(Clone, Copy, Debug, PartialEq, Eq)]
pub struct Hint(Option<&'static str>);

impl fmt::Display for Hint {
    fn fmt<W: fmt::Write>(&self, f: &mut fmt::Formatter<W>) -> fmt::Result {
        match self.0 {
            Some(name) => write!(f, "; did you mean {name}?"),
            None => Ok(()),
        }
    }
}

/// What is wrong with arguments.
#[derive(Debug, Drop, PartialEq, Eq, Error)]
pub enum Misuse {
    /// The first argument is no subcommand.
    #[error("there is no subcommand {0:?}{1}")]
    NoSubcommand(String, Hint),
    /// The subcommand has no option of this name.
    #[error("there is no option {0:?}{1}")]
    NoOption(String, Hint),
    /// The option is last, and needs a value.
    #[error("{0} needs a value")]
    NoValue(&'static str),
    /// The value of an option is none that it may have.
    #[error("{0} is {1}, not {2:?}")]
    WrongValue(&'static str, &'static str, String),
    /// The help or the version is asked for beside something else.
    #[error("{0:?} has nothing beside it")]
    NotAlone(String),
    /// There is no matcher to enforce.
    #[error("there is no MATCHER")]
    NoMatcher,
    /// A batch has no mode.
    #[error("there is no mode: pretty, line or json")]
    NoMode,
    /// A batch has no mode of this name.
    #[error("there is no mode {0:?}{1}")]
    WrongMode(String, Hint),
}

/// A name that a word may stand for, and the number of edits from the word to it.
#[derive(Clone, Copy)]
struct Near {
    name: Option<&'static str>,
    edits: usize,
}

/// The name that is nearest to a word, if it is near.
fn nearest(alloc: Global, word: &str, names: &'static [&'static str]) -> Result<Hint, AllocError> {
    let none = Near {
        name: None,
        edits: MAX_EDITS + 1,
    };
    let near = nearer(alloc, word, names, none)?;
    let near = nearer(alloc, word, &COMMON_OPTIONS, near)?;
    Ok(Hint(near.name))
}

/// The nearest of these names, where one is nearer than this.
fn nearer(
    alloc: Global,
    word: &str,
    names: &'static [&'static str],
    near: Near,
) -> Result<Near, AllocError> {
    let mut nearest = near;
    for name in names {
        let edits = levenshtein(alloc, word, name)?;
        if edits > 0 && edits < nearest.edits && edits < name.len() {
            nearest = Near {
                name: Some(*name),
                edits,
            };
        }
    }
    Ok(nearest)
}

/// The names of a subcommand's options.
fn options_of(subcommand: Subcommand) -> &'static [&'static str] {
    match subcommand {
        Subcommand::Print(_) => &[],
        Subcommand::Check => &CHECK_OPTIONS,
        Subcommand::Format => &FORMAT_OPTIONS,
        Subcommand::Enforce => &ENFORCE_OPTIONS,
        Subcommand::Batch => &BATCH_OPTIONS,
    }
}

/// The name among these that a word is.
fn name_in(names: &'static [&'static str], word: &str) -> Option<&'static str> {
    for name in names {
        if *name == word {
            return Some(name);
        }
    }
    None
}

/// Whether an option of this name may have this value.
fn may_be(name: &str, value: &str) -> bool {
    match name {
        "--target" => Target::from_name(value).is_some(),
        "--color" => matches!(value, "auto" | "always" | "never"),
        _ => number_in(value).is_some(),
    }
}

/// The values of an option of this name.
fn values_of(name: &str) -> &'static str {
    match name {
        "--target" => "prometheus-2.42, prometheus-3 or rules",
        "--color" => "auto, always or never",
        _ => "a whole number below 2^64",
    }
}

/// What is wrong with a word that is no option of these names.
fn wrong_option(
    alloc: Global,
    word: &str,
    names: &'static [&'static str],
) -> Result<Misuse, AllocError> {
    let copy = String::from_str(alloc, word)?;
    if matches!(word, "--help" | "-h" | "--version") {
        return Ok(Misuse::NotAlone(copy));
    }
    Ok(Misuse::NoOption(copy, nearest(alloc, word, names)?))
}

/// What is wrong with the first of some options that is not as it may be.
fn option_misuse(
    alloc: Global,
    names: &'static [&'static str],
    options: &[String],
) -> Result<Option<Misuse>, AllocError> {
    let mut rest = options;
    while let [word, after @ ..] = rest {
        let Some(name) = name_in(names, word.as_str()) else {
            return Ok(Some(wrong_option(alloc, word.as_str(), names)?));
        };
        if is_flag(name) {
            rest = after;
            continue;
        }
        let [value, others @ ..] = after else {
            return Ok(Some(Misuse::NoValue(name)));
        };
        if !may_be(name, value.as_str()) {
            let copy = String::from_str(alloc, value.as_str())?;
            return Ok(Some(Misuse::WrongValue(name, values_of(name), copy)));
        }
        rest = others;
    }
    Ok(None)
}

/// What is wrong with the operands of a subcommand.
fn operand_misuse(
    alloc: Global,
    subcommand: Subcommand,
    operands: &[String],
) -> Result<Misuse, AllocError> {
    match (subcommand, operands) {
        (Subcommand::Batch, [mode, ..]) if Format::from_name(mode.as_str()).is_none() => {
            let copy = String::from_str(alloc, mode.as_str())?;
            Ok(Misuse::WrongMode(copy, nearest(alloc, mode.as_str(), &MODES)?))
        }
        (Subcommand::Batch, _) => Ok(Misuse::NoMode),
        _ => Ok(Misuse::NoMatcher),
    }
}

/// What is wrong with the words of a subcommand that asks for nothing known.
///
/// # Errors
///
/// `AllocError` where an allocation failed.
pub fn misuse_of(
    alloc: Global,
    subcommand: Subcommand,
    words: &Words,
) -> Result<Misuse, AllocError> {
    let names = options_of(subcommand);
    match option_misuse(alloc, names, words.options.as_slice())? {
        Some(misuse) => Ok(misuse),
        None => operand_misuse(alloc, subcommand, words.operands.as_slice()),
    }
}

/// What is wrong with a word that is no subcommand.
///
/// # Errors
///
/// `AllocError` where an allocation failed.
pub fn wrong_subcommand(alloc: Global, word: &str) -> Result<Misuse, AllocError> {
    let copy = String::from_str(alloc, word)?;
    Ok(Misuse::NoSubcommand(copy, nearest(alloc, word, &SUBCOMMANDS)?))
}
