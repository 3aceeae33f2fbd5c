//! Lists of matchers: docs/reference/matchers.md, "Lists of matchers".

ghost use Rattle.std.specs.Prelude.{◌≡◌, ◌≤◌, [], ◌∷◌, ◌++◌, IfOk, IsOk, OnErr, OnOk, codes, false, filter, find, length, map, option_map, true};
ghost use Rattle.std.specs.Fmt.{WritesStyledOnOk};
ghost use Rattle.std.specs.List.{list_all};
ghost use Rattle.promql_label.specs.PlainMatchers.{all_match_empty, append_plain, appended_or, plain_matchers, find_plain, found_value, group_text, holds, is_of, value_of};
ghost use Rattle.promql_label.specs.MatcherViews.{plain_matcher_of, plain_matchers_of};
ghost use Rattle.promql_label.specs.ReadMatchers.{normal_matchers};
ghost use Rattle.promql_text.specs.Texts.{joined_text};

use crate::matcher::{MatchOp, Matcher};
use crate::sorted::{compare, write_sorted};
use promql_text::{write_joined, write_joined_by};
use std::alloc::{AllocError, Global};
use std::{fmt, mem};

/// Matchers that all have to hold, and groups of which one has to.
#[derive(Debug, Drop, PartialEq, Eq, Hash)]
pub struct Matchers {
    /// The matchers beside the groups.
    pub matchers: Vec<Matcher>,
    /// The groups, each of which holds where all its matchers do.
    pub or_matchers: Vec<Vec<Matcher>>,
}

impl Matchers {
    /// No matchers and no groups.
    pub fn empty(alloc: Global) -> Matchers
        ensures { plain_matchers_of result ≡ plain_matchers [] [] }
    {
        Matchers::new(alloc, Vec::new(alloc))
    }

    /// One matcher, and no groups.
    pub fn one(alloc: Global, matcher: Matcher) -> Result<Matchers, AllocError>
        ensures { IfOk result (λ m.
            plain_matchers_of m ≡ plain_matchers (plain_matcher_of matcher ∷ []) []) }
    {
        let mut matchers = Vec::new(alloc);
        matchers.push(matcher)?;
        Ok(Matchers::new(alloc, matchers))
    }

    /// These matchers, and no groups.
    pub fn new(alloc: Global, matchers: Vec<Matcher>) -> Matchers
        ensures { plain_matchers_of result
            ≡ plain_matchers (map plain_matcher_of matchers.items) [] }
    {
        Matchers {
            matchers,
            or_matchers: Vec::new(alloc),
        }
    }

    /// The same matchers, with these groups.
    pub fn with_or_matchers(self, or_matchers: Vec<Vec<Matcher>>) -> Matchers
        ensures { plain_matchers_of result
            ≡ plain_matchers (map plain_matcher_of self.matchers.items)
            (map (λ g. map plain_matcher_of g.items) or_matchers.items) }
    {
        Matchers {
            matchers: self.matchers,
            or_matchers,
        }
    }

    /// The list with one more matcher: in the last group if there is one, else beside the groups.
    pub fn append(mut self, matcher: Matcher) -> Result<Matchers, AllocError>
        ensures { IfOk result (λ m.
            plain_matchers_of m ≡ append_plain (plain_matchers_of self) (plain_matcher_of matcher)) }
    {
        self.push(matcher)?;
        Ok(self)
    }

    /// Appends a matcher in place: to the last group if there is one, else beside the groups.
    ///
    /// # Errors
    ///
    /// `AllocError` if an allocation fails; the matchers are then the same.
    pub fn push(&mut self, matcher: Matcher) -> Result<(), AllocError>
        ensures appended { OnOk result (plain_matchers_of self.new
            ≡ append_plain (plain_matchers_of self.old) (plain_matcher_of matcher)) }
        ensures unchanged { OnErr result (plain_matchers_of self.new ≡ plain_matchers_of self.old) }
    {
        match self.or_matchers.last_mut() {
            Some(group) => group.push(matcher)?,
            None => self.matchers.push(matcher)?,
        }
        Ok(())
    }

    /// The list with one more group, which has this matcher alone. Matchers beside the groups
    /// become a group before it.
    pub fn append_or(mut self, alloc: Global, matcher: Matcher) -> Result<Matchers, AllocError>
        ensures { IfOk result (λ m. plain_matchers_of m
            ≡ appended_or (plain_matchers_of self) (plain_matcher_of matcher)) }
    {
        self.push_or(alloc, matcher)?;
        Ok(self)
    }

    /// Appends a group in place, which has this matcher alone. Matchers beside the groups become a group before it.
    ///
    /// # Errors
    ///
    /// `AllocError` if an allocation fails; the matchers are then the same.
    pub fn push_or(&mut self, alloc: Global, matcher: Matcher) -> Result<(), AllocError>
        ensures appended { OnOk result (plain_matchers_of self.new
            ≡ appended_or (plain_matchers_of self.old) (plain_matcher_of matcher)) }
        ensures unchanged { OnErr result (plain_matchers_of self.new ≡ plain_matchers_of self.old) }
    {
        let mut group = Vec::new(alloc);
        group.push(matcher)?;
        // With room for two groups no push below fails, so nothing is lost.
        self.or_matchers.reserve(2)?;
        if !self.matchers.is_empty() {
            let plain = mem::replace(&mut self.matchers, Vec::new(alloc));
            self.or_matchers.push(plain)?;
        }
        self.or_matchers.push(group)?;
        Ok(())
    }

    /// Whether every matcher matches the empty text. The only error is that memory ran out.
    pub fn is_empty_matchers(&self, alloc: Global) -> Result<bool, AllocError>
        ensures { IfOk result (λ b. b ≡ all_match_empty (plain_matchers_of self.now)) }
    {
        if !match_empty(alloc, &self.matchers)? {
            return Ok(false);
        }
        for group in &self.or_matchers {
            if !match_empty(alloc, group)? {
                return Ok(false);
            }
        }
        Ok(true)
    }

    /// The value of the first matcher of this name.
    #[tactic(auto, using(crate::proofs::label_lists::MatcherSearch::searching))]
    pub fn find_matcher_value(&self, name: &str) -> Option<&str>
        ensures { option_map (λ v. v.now) result
            ≡ found_value (plain_matchers_of self.now) name.now }
    {
        if let Some(value) = named_value(&self.matchers, name) {
            return Some(value);
        }
        for group in &self.or_matchers {
            if let Some(value) = named_value(group, name) {
                return Some(value);
            }
        }
        None
    }

    /// Copies of all matchers of this name: those beside the groups, then those in the groups, in
    /// order.
    pub fn find_matchers(&self, alloc: Global, name: &str) -> Result<Vec<Matcher>, AllocError>
        ensures { IfOk result (λ v.
            map plain_matcher_of v.items ≡ find_plain (plain_matchers_of self.now) name.now) }
    {
        let mut matchers = Vec::new(alloc);
        copy_named(alloc, &self.matchers, name, &mut matchers)?;
        for group in &self.or_matchers {
            copy_named(alloc, group, name, &mut matchers)?;
        }
        Ok(matchers)
    }

    /// Puts the matchers beside the groups into the byte order of their texts, as they print; those
    /// with equal texts stay in their order.
    ///
    /// # Errors
    ///
    /// `AllocError` where an allocation failed, which no list of up to 20 matchers needs. The list is
    /// then as it was.
    pub fn sort(&mut self) -> Result<(), AllocError>
        ensures sorted { OnOk result
            (plain_matchers_of self.new ≡ normal_matchers (plain_matchers_of self.old)) }
        ensures unchanged { OnErr result (plain_matchers_of self.new ≡ plain_matchers_of self.old) }
        ensures succeeds { length self.old.matchers.items ≤ 20 → IsOk result }
    {
        self.matchers.sort_by(compare)
    }

    /// Compiles the patterns of all matchers, so that each match after it only searches.
    ///
    /// # Errors
    ///
    /// `AllocError` if an allocation fails; some patterns may then be compiled. The matchers are the same in any case.
    pub fn prepare(&mut self, alloc: Global) -> Result<(), AllocError>
        ensures { plain_matchers_of self.new ≡ plain_matchers_of self.old }
    {
        prepare_all(alloc, &mut self.matchers)?;
        prepare_groups(alloc, &mut self.or_matchers)
    }

    /// The same list.
    pub fn try_clone(&self, alloc: Global) -> Result<Matchers, AllocError>
        ensures { IfOk result (λ m. plain_matchers_of m ≡ plain_matchers_of self.now) }
    {
        let mut or_matchers = Vec::with_capacity(alloc, self.or_matchers.len())?;
        for group in &self.or_matchers {
            or_matchers.push(copy_matchers(alloc, group)?)?;
        }
        Ok(Matchers {
            matchers: copy_matchers(alloc, &self.matchers)?,
            or_matchers,
        })
    }
}

/// Compiles the patterns of a list's matchers.
fn prepare_all(alloc: Global, matchers: &mut [Matcher]) -> Result<(), AllocError>
    ensures { map plain_matcher_of matchers.new ≡ map plain_matcher_of matchers.old }
{
    'matchers: for matcher in matchers.iter_mut() {
        matcher.prepare(alloc)?;
    }
    Ok(())
}

/// Compiles the patterns of all groups.
fn prepare_groups(alloc: Global, groups: &mut [Vec<Matcher>]) -> Result<(), AllocError>
    ensures { map (λ g. map plain_matcher_of g.items) groups.new ≡ map (λ g. map plain_matcher_of g.items) groups.old }
{
    'groups: for group in groups.iter_mut() {
        prepare_all(alloc, group)?;
    }
    Ok(())
}

impl fmt::Display for Matchers {
    ghost use Rattle.std.specs.Prelude.{Some};
    ghost use Rattle.promql_label.specs.PlainMatchers.{matchers_text};

    ghost output = { λ m. Some (matchers_text (plain_matchers_of m)) };

    ghost styled_output = { λ m _. Some (matchers_text (plain_matchers_of m)) };

    fn fmt<W: fmt::Write>(&self, f: &mut fmt::Formatter<W>) -> fmt::Result {
        let groups = self.or_matchers.as_slice();
        if groups.is_empty() {
            write_sorted(&self.matchers, f)
        } else {
            write_groups(groups, f)
        }
    }
}

fn write_groups<W: fmt::Write>(groups: &[Vec<Matcher>], f: &mut fmt::Formatter<W>) -> fmt::Result
    ensures { WritesStyledOnOk W.write_str_gives f.old result
        (joined_text (codes " or ")
        (map (λ g. group_text (map plain_matcher_of g.items)) groups.now))
        f.new }
{
    let write = |group: &Vec<Matcher>, f: &mut fmt::Formatter<W>| -> fmt::Result
        ensures { WritesStyledOnOk W.write_str_gives f.old result
            (group_text (map plain_matcher_of group.now.items)) f.new }
    { write_joined(group, ", ", f) };
    write_joined_by(groups, " or ", f, write)
}

/// Whether each matches the empty text. Those without a pattern are asked first, since a pattern has to be compiled.
fn match_empty(alloc: Global, matchers: &[Matcher]) -> Result<bool, AllocError>
    ensures { IfOk result (λ b.
        b ≡ list_all (λ c. holds c []) (map plain_matcher_of matchers.now)) }
{
    if is_one_filled(matchers) {
        return Ok(false);
    }
    for matcher in matchers {
        if !matcher.is_match(alloc, "")? {
            return Ok(false);
        }
    }
    Ok(true)
}

/// Whether one of them has no pattern and does not match the empty text.
fn is_one_filled(matchers: &[Matcher]) -> bool
    ensures { result ≡ true
        → list_all (λ c. holds c []) (map plain_matcher_of matchers.now) ≡ false }
{
    for matcher in matchers {
        if is_filled(matcher) {
            return true;
        }
    }
    false
}

/// Whether the matcher has no pattern and does not match the empty text.
fn is_filled(matcher: &Matcher) -> bool
    ensures { result ≡ true → holds (plain_matcher_of matcher.now) [] ≡ false }
{
    match &matcher.op {
        MatchOp::Equal => !matcher.value.is_empty(),
        MatchOp::NotEqual => matcher.value.is_empty(),
        MatchOp::Re(_) => false,
        MatchOp::NotRe(_) => false,
    }
}

/// The value of the first of this name.
fn named_value<'a>(matchers: &'a [Matcher], name: &str) -> Option<&'a str>
    ensures { option_map (λ v. v.now) result
        ≡ option_map value_of (find (is_of name.now) (map plain_matcher_of matchers.now)) }
{
    for matcher in matchers {
        if matcher.name.as_str() == name {
            return Some(matcher.value.as_str());
        }
    }
    None
}

/// Appends copies of those of this name.
fn copy_named(
    alloc: Global,
    matchers: &[Matcher],
    name: &str,
    copies: &mut Vec<Matcher>,
) -> Result<(), AllocError>
    ensures { OnOk result (map plain_matcher_of copies.new.items
        ≡ map plain_matcher_of copies.old.items
        ++ filter (is_of name.now) (map plain_matcher_of matchers.now)) }
{
    for matcher in matchers {
        if matcher.name.as_str() == name {
            copies.push(matcher.try_clone(alloc)?)?;
        }
    }
    Ok(())
}

/// The same matchers.
fn copy_matchers(alloc: Global, matchers: &[Matcher]) -> Result<Vec<Matcher>, AllocError>
    ensures { IfOk result (λ v. map plain_matcher_of v.items ≡ map plain_matcher_of matchers.now) }
{
    let mut copies = Vec::with_capacity(alloc, matchers.len())?;
    for matcher in matchers {
        copies.push(matcher.try_clone(alloc)?)?;
    }
    Ok(copies)
}
