//! Matchers in the byte order of their texts, without memory (docs/reference/matchers.md, "Printed lists").
//!
//! A list that is in order is printed straight through. Of any other list, each pass finds the least
//! matchers above those that were printed, as many as a row on the stack holds, and prints them.

ghost use Rattle.std.specs.Prelude.{◌≡◌, ◌↔◌, ◌≤◌, ◌<◌, ◌-◌, ◌++◌, ◌∷◌, [], List, None, Some, IfSome, IsTrue, codes, filter, insert, length, map, take, true};
ghost use Rattle.std.specs.Fmt.{WritesStyledOnOk};
ghost use Rattle.std.specs.Iterator.{YieldsFirst, item_count};
ghost use Rattle.promql_label.specs.MatcherBytes.{left_of, left_of_name, left_of_test, test_text};
ghost use Rattle.promql_label.specs.NextText.{Follows, Rises, again, comma_after, is_above, is_below, is_rising, last_of, row_texts, text_of, text_of_some, texts_after, times};
ghost use Rattle.promql_label.specs.PlainMatchers.{name_text};
ghost use Rattle.promql_label.specs.SortedTexts.{insert_text, sorted_texts, text_order};
ghost use Rattle.promql_text.specs.Texts.{Text, joined_text};

use crate::matcher::Matcher;
use promql_text::{QuotedBytes, write_joined};
use promql_token::is_label;
use std::cmp::Ordering;
use std::fmt;
use std::fmt::Display;
use std::str::Bytes;

/// The matchers that a row holds, for a short list and for a long one.
const FEW: usize = 16;

const MANY: usize = 2048;

/// Prints the matchers in the byte order of their texts, with `,` between each two.
pub(crate) fn write_sorted<W: fmt::Write>(
    matchers: &[Matcher],
    f: &mut fmt::Formatter<W>,
) -> fmt::Result
    ensures { WritesStyledOnOk W.write_str_gives f.old result
        (joined_text (codes ",") (sorted_texts (map text_of matchers.now))) f.new }
{
    if is_in_order(matchers) {
        return write_joined(matchers, ",", f);
    }
    if matchers.len() <= FEW {
        write_few(matchers, f)
    } else {
        write_many(matchers, f)
    }
}

/// Whether no matcher's text is less than the one before it.
fn is_in_order(matchers: &[Matcher]) -> bool
    ensures { result ≡ is_rising None (map text_of matchers.now) }
{
    let mut last: Option<&Matcher> = None;
    'pairs: for matcher in matchers {
        if is_below(matcher, last) {
            return false;
        }
        last = Some(matcher);
    }
    true
}

fn is_below(matcher: &Matcher, last: Option<&Matcher>) -> bool
    ensures { result ≡ is_below (text_of_some last.entry) (text_of matcher.now) }
{
    match last {
        None => false,
        Some(last) => compare(matcher, last).is_lt(),
    }
}

// Neither is inlined: the rows are to take no room in the frames of the printers of expressions.
#[inline(never)]
fn write_few<W: fmt::Write>(matchers: &[Matcher], f: &mut fmt::Formatter<W>) -> fmt::Result
    ensures { WritesStyledOnOk W.write_str_gives f.old result
        (joined_text (codes ",") (sorted_texts (map text_of matchers.now))) f.new }
{
    let Some(first) = matchers.first() else {
        return Ok(());
    };
    let mut row = [first; FEW];
    write_in_passes(matchers, &mut row, f)
}

#[inline(never)]
fn write_many<W: fmt::Write>(matchers: &[Matcher], f: &mut fmt::Formatter<W>) -> fmt::Result
    ensures { WritesStyledOnOk W.write_str_gives f.old result
        (joined_text (codes ",") (sorted_texts (map text_of matchers.now))) f.new }
{
    let Some(first) = matchers.first() else {
        return Ok(());
    };
    let mut row = [first; MANY];
    write_in_passes(matchers, &mut row, f)
}

/// Prints the matchers pass by pass. Each prints the copies of the last text that are left, and then
/// the least texts above it, in a row.
fn write_in_passes<'a, W: fmt::Write>(
    matchers: &'a [Matcher],
    row: &mut [&'a Matcher],
    f: &mut fmt::Formatter<W>,
) -> fmt::Result
    requires { 0 < length row.old }
    ensures { WritesStyledOnOk W.write_str_gives f.old result
        (joined_text (codes ",") (sorted_texts (map text_of matchers.now))) f.new }
{
    let mut last: Option<&'a Matcher> = None;
    let mut left = matchers.len();
    'passes: while left > 0 {
        let pass = find_least(matchers, last, row);
        write_again(last, left - pass.above, f)?;
        let found = &row[..pass.held];
        write_row(found, last.is_some(), f)?;
        last = greatest_of(found, last);
        left = pass.above - pass.held;
    }
    Ok(())
}

/// What a pass found: how many matchers are above the last one, and how many of them the row holds.
#[derive(Clone, Copy)]
struct Pass {
    above: usize,
    held: usize,
}

/// Puts the least matchers above the last one into the row, in order.
fn find_least<'a>(matchers: &'a [Matcher], last: Option<&Matcher>, row: &mut [&'a Matcher]) -> Pass
    ensures len { length row.new ≡ length row.old }
    ensures above { result.above
        ≡ length (filter (is_above (text_of_some last.entry)) (map text_of matchers.now)) }
    ensures within { result.held ≤ length row.new }
    ensures held { row_texts (take result.held row.new) ≡ take (length row.new)
        (sorted_texts (filter (is_above (text_of_some last.entry)) (map text_of matchers.now))) }
{
    let mut above = 0usize;
    let mut held = 0usize;
    'search: for matcher in matchers {
        if is_above(matcher, last) {
            above += 1;
            held = hold(row, held, matcher);
        }
    }
    Pass { above, held }
}

fn is_above(matcher: &Matcher, last: Option<&Matcher>) -> bool
    ensures { result ≡ is_above (text_of_some last.entry) (text_of matcher.now) }
{
    match last {
        None => true,
        Some(last) => compare(matcher, last).is_gt(),
    }
}

/// Puts a matcher into its place in the row, of which the first `held` are in order. Where the row
/// is full, the greatest of all is left out. Returns how many are held.
fn hold<'a>(row: &mut [&'a Matcher], held: usize, matcher: &'a Matcher) -> usize
    requires within { held ≤ length row.old }
    requires rising { Rises (row_texts (take held row.old)) }
    ensures len { length row.new ≡ length row.old }
    ensures within { result ≤ length row.new }
    ensures held { row_texts (take result row.new) ≡ take (length row.new)
        (insert_text (text_of matcher.now) (row_texts (take held row.old))) }
{
    let place = place_in(&row[..held], matcher);
    if place == row.len() {
        return held;
    }
    let last = held.min(row.len() - 1);
    put(&mut row[..last + 1], place, matcher);
    last + 1
}

/// Puts a matcher at `place`, in place of the last one, and moves those from `place` on up.
fn put<'a>(row: &mut [&'a Matcher], place: usize, matcher: &'a Matcher)
    requires { place < length row.old }
    ensures { row.new ≡ insert (take (length row.old - 1) row.old) place matcher.entry }
{
    let last = row.len() - 1;
    row[last] = matcher;
    last_to(row, place);
}

/// Moves the last item to `place`, and the items from there on up.
fn last_to<T>(items: &mut [T], place: usize)
    requires { place < length items.old }
    ensures { (front : List T) (last : T) → items.old ≡ front ++ last ∷ []
        → items.new ≡ insert front place last }
{
    items[place..].rotate_right(1);
}

/// Where a matcher's text goes in a row in order: before the first text that is no smaller.
fn place_in(row: &[&Matcher], matcher: &Matcher) -> usize
    requires { Rises (row_texts row.now) }
    ensures within { result ≤ length row.now }
    ensures place { insert_text (text_of matcher.now) (row_texts row.now)
        ≡ insert (row_texts row.now) result (text_of matcher.now) }
{
    if let Some(last) = row.last() {
        if compare(*last, matcher).is_lt() {
            return row.len();
        }
    }
    if goes_first(row, matcher) {
        return 0;
    }
    row.partition_point(|other| compare(*other, matcher).is_lt())
}

/// Whether no text of a row in order is less than the matcher's.
fn goes_first(row: &[&Matcher], matcher: &Matcher) -> bool
    requires { Rises (row_texts row.now) }
    ensures { IsTrue result ↔ Follows (Some (text_of matcher.now)) (row_texts row.now) }
{
    match row.first() {
        Some(first) => !compare(*first, matcher).is_lt(),
        None => true,
    }
}

/// The last of the row, or `last` where the row is empty.
fn greatest_of<'a>(row: &[&'a Matcher], last: Option<&'a Matcher>) -> Option<&'a Matcher>
    ensures { text_of_some result ≡ last_of (row_texts row.now) (text_of_some last.entry) }
{
    match row.last() {
        Some(greatest) => Some(*greatest),
        None => last,
    }
}

/// Prints the last matcher so many times more.
fn write_again<W: fmt::Write>(
    last: Option<&Matcher>,
    count: usize,
    f: &mut fmt::Formatter<W>,
) -> fmt::Result
    ensures { WritesStyledOnOk W.write_str_gives f.old result
        (texts_after true (again count (text_of_some last.entry))) f.new }
{
    match last {
        Some(matcher) => write_copies(matcher, count, f),
        None => Ok(()),
    }
}

fn write_copies<W: fmt::Write>(
    matcher: &Matcher,
    count: usize,
    f: &mut fmt::Formatter<W>,
) -> fmt::Result
    ensures { WritesStyledOnOk W.write_str_gives f.old result
        (texts_after true (times count (text_of matcher.now))) f.new }
{
    let mut left = count;
    'copies: while left > 0 {
        write_comma(true, f)?;
        matcher.fmt(f)?;
        left -= 1;
    }
    Ok(())
}

/// Prints the matchers of a row, with a comma before each, but not before the first of all.
fn write_row<W: fmt::Write>(
    row: &[&Matcher],
    started: bool,
    f: &mut fmt::Formatter<W>,
) -> fmt::Result
    ensures { WritesStyledOnOk W.write_str_gives f.old result
        (texts_after started (row_texts row.now)) f.new }
{
    let mut going = started;
    'row: for matcher in row {
        write_comma(going, f)?;
        matcher.fmt(f)?;
        going = true;
    }
    Ok(())
}

fn write_comma<W: fmt::Write>(started: bool, f: &mut fmt::Formatter<W>) -> fmt::Result
    ensures { WritesStyledOnOk W.write_str_gives f.old result (comma_after started) f.new }
{
    if started { f.write_str(",") } else { Ok(()) }
}

/// Compares the texts.
pub(crate) fn compare(a: &Matcher, b: &Matcher) -> Ordering
    ensures { result ≡ text_order (text_of a.now) (text_of b.now) }
{
    let (name, other) = (a.name.as_str(), b.name.as_str());
    if name == other {
        return compare_tests(a, b);
    }
    match names_order(name, other) {
        Some(order) => order,
        None => compare_bytes(a, b),
    }
}

/// Compares what the matchers print after their names.
fn compare_tests(a: &Matcher, b: &Matcher) -> Ordering
    ensures { result ≡ text_order (test_text a.now) (test_text b.now) }
{
    TestBytes::new(a).cmp(TestBytes::new(b))
}

/// Compares the texts byte by byte.
fn compare_bytes(a: &Matcher, b: &Matcher) -> Ordering
    ensures { result ≡ text_order (text_of a.now) (text_of b.now) }
{
    MatcherBytes::new(a).cmp(MatcherBytes::new(b))
}

/// The order of all matchers of these names, where the names decide it: they print as they are, and
/// neither begins with the other.
fn names_order(a: &str, b: &str) -> Option<Ordering>
    ensures { IfSome result (λ order. (s t : Text)
        → text_order (name_text a.now ++ s) (name_text b.now ++ t) ≡ order) }
{
    let (x, y) = (a.as_bytes(), b.as_bytes());
    if x.starts_with(y) || y.starts_with(x) || !is_label(a) || !is_label(b) {
        return None;
    }
    Some(a.cmp(b))
}

/// The bytes of a matcher's text in order, computed as they are asked for.
#[derive(Drop)]
struct MatcherBytes<'a> {
    name: NameBytes<'a>,
    test: TestBytes<'a>,
}

impl<'a> MatcherBytes<'a> {
    fn new(matcher: &'a Matcher) -> MatcherBytes<'a>
        ensures { left_of result ≡ text_of matcher.now }
    {
        MatcherBytes {
            name: NameBytes::new(&matcher.name),
            test: TestBytes::new(matcher),
        }
    }
}

impl<'a> Iterator for MatcherBytes<'a> {
    type Item = u8;

    ghost next_gives = { YieldsFirst left_of };

    ghost remaining = { item_count left_of };

    fn next(&mut self) -> Option<u8> {
        match self.name.next() {
            Some(b) => Some(b),
            None => self.test.next(),
        }
    }
}

/// The bytes that a matcher prints after its name: the operator and the value.
#[derive(Drop)]
struct TestBytes<'a> {
    op: Bytes<'a>,
    value: QuotedBytes<'a>,
}

impl<'a> TestBytes<'a> {
    fn new(matcher: &'a Matcher) -> TestBytes<'a>
        ensures { left_of_test result ≡ test_text matcher.now }
    {
        TestBytes {
            op: matcher.op.text().bytes(),
            value: QuotedBytes::new(&matcher.value),
        }
    }
}

impl<'a> Iterator for TestBytes<'a> {
    type Item = u8;

    ghost next_gives = { YieldsFirst left_of_test };

    ghost remaining = { item_count left_of_test };

    fn next(&mut self) -> Option<u8> {
        match self.op.next() {
            Some(b) => Some(b),
            None => self.value.next(),
        }
    }
}

/// The bytes of a printed name.
#[derive(Drop)]
enum NameBytes<'a> {
    Bare(Bytes<'a>),
    Quoted(QuotedBytes<'a>),
}

impl<'a> NameBytes<'a> {
    fn new(name: &'a str) -> NameBytes<'a>
        ensures { left_of_name result ≡ name_text name.now }
    {
        if is_label(name) {
            NameBytes::Bare(name.bytes())
        } else {
            NameBytes::Quoted(QuotedBytes::new(name))
        }
    }
}

impl<'a> Iterator for NameBytes<'a> {
    type Item = u8;

    ghost next_gives = { YieldsFirst left_of_name };

    ghost remaining = { item_count left_of_name };

    fn next(&mut self) -> Option<u8> {
        match self {
            NameBytes::Bare(bytes) => bytes.next(),
            NameBytes::Quoted(bytes) => bytes.next(),
        }
    }
}
