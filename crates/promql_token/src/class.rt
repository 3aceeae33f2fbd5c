//! Classes of bytes, and runs of one class.

ghost use Rattle.std.specs.Prelude.{◌≡◌, ◌≢◌, ◌<◌, ◌≤◌, length, slice_index, true};
ghost use Rattle.std.specs.Prelude.{get_or};
ghost use Rattle.promql_token.specs.Classes as spec;
ghost use Rattle.promql_token.specs.WordRanks.{is_name_byte, is_word_byte, word_rank};
ghost use Rattle.promql_token.specs.declared.class.Class.TheVariants.{Name};

/// Bytes that go together.
#[derive(Clone, Copy, Debug)]
pub enum Class {
    /// Space, TAB, LF, FF, CR.
    White,
    Digit,
    HexDigit,
    /// Letters, digits and `_`.
    Name,
    /// Letters, digits, `_` and `:`.
    Word,
}

/// The byte at a place, and 0 past the end: no class and no punctuator has it, and with an `Option` each
/// byte that is looked at would cost a test more.
pub fn byte(z: &[u8], at: usize) -> u8
    ensures value { result ≡ slice_index z.now at }
    ensures within { result ≢ 0 → at < length z.now }
{
    if at < z.len() { z[at] } else { 0 }
}

/// By byte: 3 for a letter and `_`, 2 for a digit, 1 for `:`, and 0 for any other.
const WORD_BYTES: [u8; 256] = [
    0, 0, 0, 0, 0, 0, 0, 0, 0, 0, 0, 0, 0, 0, 0, 0, 0, 0, 0, 0, 0, 0, 0, 0, 0, 0, 0, 0, 0, 0, 0, 0,
    0, 0, 0, 0, 0, 0, 0, 0, 0, 0, 0, 0, 0, 0, 0, 0, 2, 2, 2, 2, 2, 2, 2, 2, 2, 2, 1, 0, 0, 0, 0, 0,
    0, 3, 3, 3, 3, 3, 3, 3, 3, 3, 3, 3, 3, 3, 3, 3, 3, 3, 3, 3, 3, 3, 3, 3, 3, 3, 3, 0, 0, 0, 0, 3,
    0, 3, 3, 3, 3, 3, 3, 3, 3, 3, 3, 3, 3, 3, 3, 3, 3, 3, 3, 3, 3, 3, 3, 3, 3, 3, 3, 0, 0, 0, 0, 0,
    0, 0, 0, 0, 0, 0, 0, 0, 0, 0, 0, 0, 0, 0, 0, 0, 0, 0, 0, 0, 0, 0, 0, 0, 0, 0, 0, 0, 0, 0, 0, 0,
    0, 0, 0, 0, 0, 0, 0, 0, 0, 0, 0, 0, 0, 0, 0, 0, 0, 0, 0, 0, 0, 0, 0, 0, 0, 0, 0, 0, 0, 0, 0, 0,
    0, 0, 0, 0, 0, 0, 0, 0, 0, 0, 0, 0, 0, 0, 0, 0, 0, 0, 0, 0, 0, 0, 0, 0, 0, 0, 0, 0, 0, 0, 0, 0,
    0, 0, 0, 0, 0, 0, 0, 0, 0, 0, 0, 0, 0, 0, 0, 0, 0, 0, 0, 0, 0, 0, 0, 0, 0, 0, 0, 0, 0, 0, 0, 0,
];

fn looked_up(table: &[u8], b: u8) -> u8
    requires { length table.now ≡ 256 }
    ensures { result ≡ get_or table.now b 0 }
{
    table[b as usize]
}

fn word_rank(b: u8) -> u8
    ensures { result ≡ word_rank b }
{
    looked_up(&WORD_BYTES, b)
}

/// Whether it is a letter or `_`.
pub fn is_letter(b: u8) -> bool
    ensures { result ≡ spec.is_letter b }
{
    word_rank(b) == 3
}

fn is_name_byte(b: u8) -> bool
    ensures { result ≡ is_name_byte b }
{
    word_rank(b) >= 2
}

fn is_word_byte(b: u8) -> bool
    ensures { result ≡ is_word_byte b }
{
    word_rank(b) != 0
}

/// Whether it is of the class.
pub fn is_in(class: Class, b: u8) -> bool
    ensures { result ≡ spec.is_in class b }
{
    match class {
        Class::White => b.is_ascii_whitespace(),
        Class::Digit => b.is_ascii_digit(),
        Class::HexDigit => b.is_ascii_hexdigit(),
        Class::Name => is_name_byte(b),
        Class::Word => is_word_byte(b),
    }
}

/// The first place from `at` on whose byte is not of the class.
pub fn end_of_run(class: Class, z: &[u8], at: usize) -> usize
    requires { at ≤ length z.now }
    ensures value { result ≡ spec.end_of_run class z.now at }
    ensures within { (at ≤ result) × (result ≤ length z.now) }
{
    let mut end = at;
    while end < z.len() && is_in(class, z[end]) {
        end += 1;
    }
    end
}

// The first place from `at` on whose byte is no letter, digit or `_`.
#[inline(always)]
fn end_of_name(z: &[u8], at: usize) -> usize
    requires { at ≤ length z.now }
    ensures value { result ≡ spec.end_of_run Name z.now at }
    ensures within { (at ≤ result) × (result ≤ length z.now) }
{
    let mut end = at;
    // Two bytes a turn, so that the text's end is looked for half as often.
    while end + 1 < z.len() {
        if !is_name_byte(z[end]) {
            return end;
        }
        if !is_name_byte(z[end + 1]) {
            return end + 1;
        }
        end += 2;
    }
    end_of_run(Class::Name, z, end)
}

/// The length of the run of letters, digits and `_` at the front, where a letter or `_` is first.
#[inline(always)]
#[tactic(auto, using(crate::proofs::words::Names::name_run))]
pub fn name_len(z: &[u8]) -> usize
    requires { spec.is_letter (slice_index z.now 0) ≡ true }
    ensures value { result ≡ spec.end_of_run Name z.now 0 }
    ensures within { result ≤ length z.now }
{
    end_of_name(z, 1)
}
