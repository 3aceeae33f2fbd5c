//! Patterns: docs/reference/matchers.md, "Patterns".

ghost use Rattle.std.specs.Prelude.{◌≡◌, true, false, [], IfOk, IfErr, IfSome, IfNone, nat_le, string_bytes};
ghost use Rattle.regex.specs.Patterns.{default_config};
ghost use Rattle.regex.specs.Strings.{regex_config, regex_source, IsReadFromSource};
ghost use Rattle.promql_label.specs.PatternRejections.{rejected_value};
ghost use Rattle.promql_label.specs.Answers as spec;
ghost use Rattle.promql_label.specs.Answers.{Allows, built, finds, rejected};
ghost use Rattle.promql_label.specs.PatternMeasure.{measure};
ghost use Rattle.promql_label.specs.EngineAnswers.{AllowsBy, IsCompiledFrom, IsRead, IsRejected, IsTriedBy, MayRejectBy};
ghost use Rattle.promql_text.specs.Texts.{Text};

use crate::empty_text::matches_empty;
use crate::measure::pattern_measure;
use crate::plain::is_plain;
use crate::repeats::escape_repeats;
use regex::Regex;
use regex_syntax::{Config, ErrorKind};
use std::alloc::{AllocError, Global};
use std::fmt;
use std::hash::{Hash, Hasher};
use std::marker::Model;
use std::sync::Arc;
use thiserror::Error;

/// The greatest measure of a small pattern.
const MAX_SMALL: usize = 16_000;

/// A text that the grammar of `regex` reads, and what was compiled of it, once it is prepared.
#[derive(Drop)]
struct Source {
    text: String,
    regex: Option<Regex>,
}

/// A pattern that the grammar of `regex` reads. Contracts see its built text.
///
/// It is compiled when it matches or is prepared, since most patterns are read, compared and printed, and never match. One that is
/// not small is compiled when it is read, too, to learn whether `regex` takes it, and what was compiled is dropped at once.
#[derive(Drop)]
pub struct Pattern {
    source: Arc<Source>,
}

impl Model for Pattern {
    ghost use Rattle.std.specs.Prelude.{List, ℕ, IfSome, string_bytes};
    ghost use Rattle.promql_label.specs.EngineAnswers.{IsCompiledFrom, IsRead};

    ghost Value = { List ℕ };

    ghost view = { λ p. string_bytes p.source.value.text };

    ghost invariant = { λ p. IsRead (string_bytes p.source.value.text)
        × IfSome p.source.value.regex (IsCompiledFrom (string_bytes p.source.value.text)) };
}

/// Why no pattern is built.
#[derive(Debug, Drop, PartialEq, Eq, Error)]
pub enum PatternFault {
    /// Memory ran out.
    #[error("out of memory")]
    Memory,
    /// `regex` rejects the value.
    #[error("illegal regex for {0}")]
    Refused(String),
}

impl From<AllocError> for PatternFault {
    ghost use Rattle.std.specs.Prelude.{◌≡◌};
    ghost use Rattle.promql_label.specs.declared.pattern.PatternFault.TheVariants.{Memory};

    ghost from_gives = { λ _ e. e ≡ Memory };

    fn from(_e: AllocError) -> PatternFault {
        PatternFault::Memory
    }
}

/// The compiled text; None where `regex` rejects it.
fn compile(alloc: Global, text: &str) -> Result<Option<Regex>, AllocError>
    ensures { IfOk result (λ o. IfSome o (IsCompiledFrom text.now)) }
{
    match Regex::new(alloc, text) {
        Ok(regex) => Ok(Some(regex)),
        Err(regex::Error::OutOfMemory) => Err(AllocError),
        Err(_) => Ok(None),
    }
}

/// Whether the grammar of `regex` reads a text.
fn is_read(alloc: Global, text: &str) -> Result<bool, AllocError>
    ensures { IfOk result (λ is. is ≡ spec.is_read text.now) }
{
    if is_plain(text) {
        return Ok(true);
    }
    match regex_syntax::parse(alloc, text, &Config::default()) {
        Ok(_parsed) => Ok(true),
        Err(error) => match error.kind {
            ErrorKind::OutOfMemory => Err(AllocError),
            _ => Ok(false),
        },
    }
}

/// Whether the grammar of `regex` reads a form of a value both by itself and anchored.
fn is_read_pair(alloc: Global, form: &str, anchored: &str) -> Result<bool, AllocError>
    requires { anchored.now ≡ spec.anchor form.now }
    ensures { IfOk result (λ is. is ≡ spec.is_read_pair form.now) }
{
    Ok(is_plain(form) || is_read(alloc, form)? && is_read(alloc, anchored)?)
}

/// Whether a form measures so little that `regex` takes it if its grammar reads it.
fn measures_little(form: &str) -> bool
    ensures { result ≡ nat_le (measure form.now) 16000 }
{
    pattern_measure(form) <= MAX_SMALL
}

/// The text that is built of a form of a value.
fn anchor(alloc: Global, form: &str) -> Result<String, AllocError>
    ensures { IfOk result (λ text. string_bytes text ≡ spec.anchor form.now) }
{
    let mut text = String::with_capacity(alloc, form.len() + 6)?;
    text.push_str("^(?:")?;
    text.push_str(form)?;
    text.push_str(")$")?;
    Ok(text)
}

/// What tells whether `regex` takes a text. Of what it rejects its callers know `rejects` alone, so that no rejection has another source
/// than a call.
trait Engine {
    ghost rejects: { Text → Type 0 };

    /// Whether a text is taken.
    fn takes(&self, alloc: Global, text: &str) -> Result<bool, AllocError>
        ensures taken { IfOk result (λ is. is ≡ true → IsRead text.now) }
        ensures rejected { IfOk result (λ is. is ≡ false → rejects text.now) };
}

/// `regex` itself.
struct RegexCrate;

impl Engine for RegexCrate {
    ghost use Rattle.promql_label.specs.EngineAnswers.{Anything};

    ghost rejects = { Anything };

    fn takes(&self, alloc: Global, text: &str) -> Result<bool, AllocError> {
        Ok(compile(alloc, text)?.is_some())
    }
}

/// The pattern of a text as it is, if the grammar of `regex` reads it, and `regex` takes it, which is asked of it where the text measures
/// more than a small one.
fn take_text<E: Engine>(
    engine: &E,
    alloc: Global,
    text: &str,
) -> Result<Option<Pattern>, AllocError>
    ensures read { IfOk result (λ o. IfSome o (λ p. (p ≡ text.now) × IsRead text.now)) }
    ensures rejected { IfOk result (λ o. IfNone o (MayRejectBy E.rejects text.now text.now)) }
{
    let is_taken = if measures_little(text) {
        is_read(alloc, text)?
    } else {
        engine.takes(alloc, text)?
    };
    if is_taken {
        let copy = String::from_str(alloc, text)?;
        Ok(Some(Pattern::new(alloc, copy, None)?))
    } else {
        Ok(None)
    }
}

/// The pattern of a form of a value, if the grammar of `regex` reads it by itself and anchored, and `regex` takes it anchored, which is
/// asked of it where the form measures more than a small one.
fn take_anchored<E: Engine>(
    engine: &E,
    alloc: Global,
    form: &str,
) -> Result<Option<Pattern>, AllocError>
    ensures { IfOk result (IsTriedBy E.rejects form.now) }
{
    let text = anchor(alloc, form)?;
    let is_taken = if measures_little(form) {
        is_read_pair(alloc, form, text.as_str())?
    } else {
        is_read(alloc, form)? && engine.takes(alloc, text.as_str())?
    };
    if is_taken {
        Ok(Some(Pattern::new(alloc, text, None)?))
    } else {
        Ok(None)
    }
}

/// The pattern of a value.
fn read_value<E: Engine>(engine: &E, alloc: Global, value: &str) -> Result<Pattern, PatternFault>
    ensures built { IfOk result (λ p. AllowsBy E.rejects value.now (built p)) }
    ensures rejected { IfErr result (IsRejected value.now (AllowsBy E.rejects value.now rejected)) }
{
    match take_anchored(engine, alloc, value)? {
        Some(pattern) => Ok(pattern),
        None => read_escaped(engine, alloc, value),
    }
}

/// The pattern of a value whose own form is rejected.
fn read_escaped<E: Engine>(engine: &E, alloc: Global, value: &str) -> Result<Pattern, PatternFault>
    requires { MayRejectBy E.rejects value.now (spec.anchor value.now) }
    ensures built { IfOk result (λ p. AllowsBy E.rejects value.now (built p)) }
    ensures rejected { IfErr result (IsRejected value.now (AllowsBy E.rejects value.now rejected)) }
{
    let escaped = escape_repeats(alloc, value)?;
    match take_anchored(engine, alloc, escaped.as_str())? {
        Some(pattern) => Ok(pattern),
        None => Err(PatternFault::Refused(String::from_str(alloc, value)?)),
    }
}

/// The pattern of a text as it is.
fn read_text<E: Engine>(engine: &E, alloc: Global, text: &str) -> Result<Pattern, PatternFault>
    ensures built { IfOk result (λ p. (p ≡ text.now) × IsRead text.now) }
    ensures rejected { IfErr result (IsRejected text.now (MayRejectBy E.rejects text.now text.now)) }
{
    match take_text(engine, alloc, text)? {
        Some(pattern) => Ok(pattern),
        None => Err(PatternFault::Refused(String::from_str(alloc, text)?)),
    }
}

impl Pattern {
    /// The pattern of a value, which has to match a whole text.
    ///
    /// Its text is the value between `^(?:` and `)$`. The value by itself has to be a pattern too.
    /// Where `regex` rejects one of the two, both are tried once more with the value's escaped
    /// repetitions.
    ///
    /// # Errors
    ///
    /// `Refused` with the value, where `regex` rejects both; `Memory` if an allocation fails.
    pub fn read(alloc: Global, value: &str) -> Result<Pattern, PatternFault>
        ensures built { IfOk result (λ p. Allows value.now (built p)) }
        ensures rejected { IfErr result (λ fault. IfSome (rejected_value fault)
            (λ s. (s ≡ value.now) × Allows value.now rejected)) }
    {
        read_value(&RegexCrate, alloc, value)
    }

    /// The pattern of a text as it is: it matches where it is found.
    ///
    /// # Errors
    ///
    /// `Refused` with the text, where `regex` rejects it; `Memory` if an allocation fails.
    pub fn of_text(alloc: Global, text: &str) -> Result<Pattern, PatternFault>
        ensures built { IfOk result (λ p. (p ≡ text.now) × (spec.is_read text.now ≡ true)) }
        ensures rejected { IfErr result (λ fault. IfSome (rejected_value fault)
            (λ s. (s ≡ text.now) × (spec.is_small text.now ≡ false))) }
    {
        read_text(&RegexCrate, alloc, text)
    }

    fn new(alloc: Global, text: String, regex: Option<Regex>) -> Result<Pattern, AllocError>
        requires read { IsRead (string_bytes text) }
        requires compiled { IfSome regex (IsCompiledFrom (string_bytes text)) }
        ensures { IfOk result (λ p. p ≡ string_bytes text) }
    {
        Ok(Pattern {
            source: Arc::new(alloc, Source { text, regex })?,
        })
    }

    /// The built text.
    pub fn as_str(&self) -> &str
        ensures { result.now ≡ self.now }
    {
        self.source.text.as_str()
    }

    /// Compiles the pattern, if that was not done yet, so that each match after it only searches. Copies made after it share
    /// what was compiled. A pattern that `regex` rejects, of which no case is known, stays as it was.
    ///
    /// # Errors
    ///
    /// `AllocError` if an allocation fails; the pattern is then as it was.
    pub fn prepare(&mut self, alloc: Global) -> Result<(), AllocError>
        ensures { self.new ≡ self.old }
    {
        if self.source.regex.is_some() {
            return Ok(());
        }
        if let Some(regex) = compile(alloc, self.as_str())? {
            let text = String::from_str(alloc, self.as_str())?;
            *self = Pattern::new(alloc, text, Some(regex))?;
        }
        Ok(())
    }

    /// Whether the pattern matches a text. Each call allocates what the search needs, and compiles a pattern that is not
    /// prepared, but for the empty text, which the tree of the pattern tells. Should `regex` reject a small pattern, of which no
    /// case is known, the call fails as for memory.
    pub(crate) fn is_match(&self, alloc: Global, text: &str) -> Result<bool, AllocError>
        ensures { IfOk result (λ found. found ≡ finds self.now text.now) }
    {
        match &self.source.regex {
            Some(regex) => search(alloc, regex, text),
            None if text.is_empty() => finds_nothing(alloc, self.as_str()),
            None => match compile(alloc, self.as_str())? {
                Some(regex) => search(alloc, &regex, text),
                None => Err(AllocError),
            },
        }
    }

    /// The same pattern, which shares what was compiled.
    pub fn try_clone(&self, _alloc: Global) -> Result<Pattern, AllocError>
        ensures { IfOk result (λ p. p ≡ self.now) }
    {
        Ok(Pattern {
            source: self.source.clone()?,
        })
    }
}

/// Whether a pattern is found in the empty text.
fn finds_nothing(alloc: Global, pattern: &str) -> Result<bool, AllocError>
    ensures { IfOk result (λ found. found ≡ finds pattern.now []) }
{
    match regex_syntax::parse(alloc, pattern, &Config::default()) {
        Ok(parsed) => Ok(matches_empty(&parsed.hir)),
        Err(_) => Err(AllocError),
    }
}

/// Whether the compiled pattern is found in a text.
fn search(alloc: Global, regex: &Regex, text: &str) -> Result<bool, AllocError>
    requires config { regex_config regex.now ≡ default_config }
    requires read { IsReadFromSource regex.now }
    ensures { IfOk result (λ found. found ≡ finds (regex_source regex.now) text.now) }
{
    let mut matcher = regex.matcher(alloc)?;
    Ok(matcher.is_match(text))
}

impl PartialEq for Pattern {
    ghost use Rattle.std.specs.Str.{bytes_eq};
    ghost use Rattle.std.specs.Cmp.{partial_equiv_from_equiv};
    ghost use Rattle.std.specs.Cmp.Lexicographic.{nat_list_eq_equiv};

    ghost eq = { bytes_eq };

    ghost laws = { partial_equiv_from_equiv nat_list_eq_equiv };

    fn eq(&self, other: &Pattern) -> bool {
        self.as_str() == other.as_str()
    }
}

impl Eq for Pattern {
    ghost use Rattle.std.specs.Cmp.Lexicographic.{nat_list_eq_equiv};

    ghost laws = { nat_list_eq_equiv };
}

impl Hash for Pattern {
    ghost use Rattle.std.specs.Hash as fed;
    ghost use Rattle.std.specs.Cmp.Rules.{hashing};
    ghost use Rattle.std.proofs.Common.{rules};

    ghost hash_input = { λ p. fed.str p };

    ghost respects_eq = { Prim.search (hashing, rules) };

    fn hash<H: Hasher>(&self, state: &mut H) {
        self.as_str().hash(state);
    }
}

impl fmt::Debug for Pattern {
    fn fmt<W: fmt::Write>(&self, f: &mut fmt::Formatter<W>) -> fmt::Result {
        f.debug_tuple("Pattern").field(&self.as_str()).finish()
    }
}
