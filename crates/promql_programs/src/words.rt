//! The words of a command line: docs/reference/programs.md, "Arguments".

ghost use Rattle.std.specs.Prelude.{◌≡◌, ◌++◌, OnOk, IfOk, false, map, option_map, string_bytes};
ghost use Rattle.promql_programs.specs.Words as spec;

use std::alloc::{AllocError, Global};
use std::env;
use std::rt::Env;

/// The words after a subcommand.
#[derive(Debug, Drop)]
pub struct Words {
    /// Options and their values, a word each.
    pub options: Vec<String>,
    /// The other words: a mode or a matcher, and files.
    pub operands: Vec<String>,
}

/// The arguments of the process, the program's own name first; `None` where one is not valid UTF-8, or an allocation failed.
pub fn arguments<R: Env + AllocGlobal>(rt: &R) -> Option<Vec<String>> {
    let mut args = Vec::new(rt.alloc());
    for arg in env::args(rt).ok()? {
        args.push(arg).ok()?;
    }
    Some(args)
}

/// The words of a subcommand by what they are. An option and its value may be one word, as `--max-len=80`, and are two here.
///
/// # Errors
///
/// `AllocError` where an allocation failed.
pub fn split_words(alloc: Global, words: &[String]) -> Result<Words, AllocError>
    ensures { IfOk result (λ w. (map string_bytes w.options.items, map string_bytes w.operands.items)
        ≡ spec.split false (map string_bytes words.now)) }
{
    let mut options = Vec::new(alloc);
    let mut operands = Vec::new(alloc);
    let mut is_value = false;
    let mut rest = words;
    while let [word, after @ ..] = rest {
        if is_value {
            push_copy(alloc, &mut options, word.as_str())?;
            is_value = false;
        } else if ends_options(word.as_str()) {
            push_copies(alloc, &mut operands, after)?;
            return Ok(Words { options, operands });
        } else if is_option(word.as_str()) {
            push_option(alloc, &mut options, word.as_str())?;
            is_value = wants_value(word.as_str());
        } else {
            push_copy(alloc, &mut operands, word.as_str())?;
        }
        rest = after;
    }
    Ok(Words { options, operands })
}

/// Appends a copy of a word.
fn push_copy(alloc: Global, words: &mut Vec<String>, word: &str) -> Result<(), AllocError>
    ensures { OnOk result (map string_bytes words.new.items ≡ map string_bytes words.old.items ++ spec.one word.now) }
{
    words.push(String::from_str(alloc, word)?)?;
    Ok(())
}

/// Appends copies of words.
fn push_copies(alloc: Global, words: &mut Vec<String>, others: &[String]) -> Result<(), AllocError>
    ensures { OnOk result (map string_bytes words.new.items ≡ map string_bytes words.old.items ++ map string_bytes others.now) }
{
    for other in others {
        push_copy(alloc, words, other.as_str())?;
    }
    Ok(())
}

/// Appends an option, and its value where the word has it.
fn push_option(alloc: Global, words: &mut Vec<String>, word: &str) -> Result<(), AllocError>
    ensures { OnOk result (map string_bytes words.new.items ≡ map string_bytes words.old.items ++ spec.option_words word.now) }
{
    match option_parts(word) {
        Some((name, value)) => {
            push_copy(alloc, words, name)?;
            push_copy(alloc, words, value)
        }
        None => push_copy(alloc, words, word),
    }
}

/// An option and its value, where a word is both with `=` between them.
fn option_parts(word: &str) -> Option<(&str, &str)>
    ensures { option_map (λ parts. (parts.0.now, parts.1.now)) result ≡ spec.option_parts word.now }
{
    if !is_long(word) {
        return None;
    }
    let (name, value) = word.split_once('=')?;
    if is_flag(name) {
        return None;
    }
    Some((name, value))
}

/// Whether a word begins with `--`.
fn is_long(word: &str) -> bool
    ensures { result ≡ spec.is_long word.now }
{
    match word.as_bytes() {
        [first, second, ..] => *first == b'-' && *second == b'-',
        _ => false,
    }
}

/// Whether no word after this one is an option.
fn ends_options(word: &str) -> bool
    ensures { result ≡ spec.ends_options word.now }
{
    word == "--"
}

/// Whether a word is an option: it begins with `-`, and is more than that.
fn is_option(word: &str) -> bool
    ensures { result ≡ spec.is_option word.now }
{
    match word.as_bytes() {
        [first, _, ..] => *first == b'-',
        _ => false,
    }
}

/// Whether the value of this option is the next word.
fn wants_value(word: &str) -> bool
    ensures { result ≡ spec.wants_value word.now }
{
    !is_flag(word) && option_parts(word).is_none()
}

/// Whether an option has no value.
pub fn is_flag(word: &str) -> bool
    ensures { result ≡ spec.is_flag word.now }
{
    matches!(
        word,
        "--check" | "--keep-spelling" | "--sort-matchers" | "--help" | "--version" | "-h"
    )
}
