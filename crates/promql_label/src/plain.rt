//! Plain patterns: docs/reference/matchers.md, "Plain patterns".

ghost use Rattle.std.specs.Char.{is_ascii_digit};
ghost use Rattle.std.specs.Prelude.{◌≡◌, ◌<◌, true};
ghost use Rattle.promql_label.specs.PlainPatterns as spec;
ghost use Rattle.promql_label.specs.EngineAnswers.{IsReadPair};

/// The most groups of a plain pattern.
const MAX_GROUPS: u8 = 50;

/// What a place of a pattern comes after.
#[derive(Clone, Copy)]
pub(crate) enum After {
    /// The start, `(?:`, `|` or a lazy repetition: nothing that can be repeated.
    Start,
    /// An item.
    Item,
    /// A repetition, which `?` makes lazy.
    Repetition,
    /// `(`
    Paren,
    /// `(?`
    Question,
    /// A backslash.
    Backslash,
    /// `[`
    Bracket,
    /// `[^`
    Caret,
    /// A hyphen at the front of a class.
    FirstHyphen,
    /// A member of a class.
    Member(u8),
    /// A member of a class and a hyphen.
    Hyphen(u8),
    /// A range or an escape of a class.
    Range,
    /// The same and a hyphen.
    LastHyphen,
    /// A backslash in a class.
    ClassBackslash,
    /// `{`
    Brace,
    /// The least number of a count.
    Least(u16),
    /// The least number of a count and a comma.
    Comma(u16),
    /// Both numbers of a count.
    Most(u16, u16),
    /// Anything that no plain pattern has there.
    Foreign,
}

/// A place of a pattern, with the groups that are opened and closed before it.
#[derive(Clone, Copy)]
pub(crate) struct Scan {
    opened: u8,
    closed: u8,
    pub(crate) after: After,
}

/// Whether a value is a plain pattern, which the grammar of `regex` reads.
pub(crate) fn is_plain(value: &str) -> bool
    ensures plain { result ≡ spec.is_plain value.now }
    ensures read { result ≡ true → IsReadPair value.now }
{
    let mut scan = start();
    'bytes: for b in value.as_bytes() {
        scan = next(scan, *b);
    }
    can_end(scan)
}

/// The place before a pattern.
pub(crate) fn start() -> Scan
    ensures { result ≡ spec.start }
{
    Scan {
        opened: 0,
        closed: 0,
        after: After::Start,
    }
}

/// Whether a plain pattern can end at this place.
pub(crate) fn can_end(scan: Scan) -> bool
    ensures { result ≡ spec.can_end scan }
{
    matches!(scan.after, After::Start | After::Item | After::Repetition)
        && scan.opened == scan.closed
}

/// The place after one more byte.
#[tactic(auto, unfolding(crate::specs::PlainPatterns::next))]
pub(crate) fn next(scan: Scan, b: u8) -> Scan
    ensures { result ≡ spec.next scan b }
{
    match scan.after {
        After::Start => begin(scan, b),
        After::Item if is_repetition(b) => to(scan, After::Repetition),
        After::Item if b == b'{' => to(scan, After::Brace),
        After::Item => begin(scan, b),
        After::Repetition if b == b'?' => to(scan, After::Start),
        After::Repetition => begin(scan, b),
        After::Paren if b == b'?' => to(scan, After::Question),
        After::Paren => begin(scan, b),
        _ => to(scan, inside_item(scan.after, b)),
    }
}

fn to(scan: Scan, after: After) -> Scan
    ensures { result ≡ spec.to scan after }
{
    Scan { after, ..scan }
}

/// The place after a byte where an item, `|` or `)` may come.
fn begin(scan: Scan, b: u8) -> Scan
    ensures { result ≡ spec.begin scan b }
{
    match b {
        b'(' => open_group(scan),
        b')' => close_group(scan),
        _ => to(scan, item_or_bar(b)),
    }
}

fn open_group(scan: Scan) -> Scan
    ensures { result ≡ spec.open_group scan }
{
    if scan.opened < MAX_GROUPS {
        Scan {
            opened: scan.opened + 1,
            closed: scan.closed,
            after: After::Paren,
        }
    } else {
        to(scan, After::Foreign)
    }
}

fn close_group(scan: Scan) -> Scan
    ensures { result ≡ spec.close_group scan }
{
    if scan.closed < scan.opened {
        Scan {
            opened: scan.opened,
            closed: scan.closed + 1,
            after: After::Item,
        }
    } else {
        to(scan, After::Foreign)
    }
}

fn item_or_bar(b: u8) -> After
    ensures { result ≡ spec.item_or_bar b }
{
    match b {
        b'|' => After::Start,
        b'[' => After::Bracket,
        b'\\' => After::Backslash,
        _ if is_operator(b) || !b.is_ascii() => After::Foreign,
        _ => After::Item,
    }
}

/// Whether a repetition begins so.
fn is_operator(b: u8) -> bool
    ensures { result ≡ spec.is_operator b }
{
    matches!(b, b'?' | b'*' | b'+' | b'{')
}

fn is_repetition(b: u8) -> bool
    ensures { result ≡ spec.is_repetition b }
{
    matches!(b, b'*' | b'+' | b'?')
}

/// What a byte inside an item leads to.
fn inside_item(after: After, b: u8) -> After
    ensures { result ≡ spec.inside_item after b }
{
    match after {
        After::Question => if_byte(b, b':', After::Start),
        After::Backslash => if_escaped(b, After::Item),
        After::Bracket if b == b'^' => After::Caret,
        After::Bracket | After::Caret => first_in_class(b),
        After::FirstHyphen => in_class(b),
        After::Member(low) if b == b'-' => After::Hyphen(low),
        After::Member(_) => in_class(b),
        After::Hyphen(low) => after_hyphen(low, b),
        After::Range if b == b'-' => After::LastHyphen,
        After::Range => in_class(b),
        After::LastHyphen => if_byte(b, b']', After::Item),
        After::ClassBackslash => if_escaped(b, After::Range),
        After::Brace if b.is_ascii_digit() => After::Least(digit(b)),
        After::Least(n) => after_least(n, b),
        After::Comma(least) => after_comma(least, b),
        After::Most(least, n) => after_most(least, n, b),
        _ => After::Foreign,
    }
}

fn if_byte(b: u8, wanted: u8, after: After) -> After
    ensures { result ≡ spec.if_byte b wanted after }
{
    if b == wanted { after } else { After::Foreign }
}

fn if_escaped(b: u8, after: After) -> After
    ensures { result ≡ spec.if_escaped b after }
{
    if is_escaped(b) { after } else { After::Foreign }
}

/// Whether a backslash may come before a byte.
fn is_escaped(b: u8) -> bool
    ensures { result ≡ spec.is_escaped b }
{
    b.is_ascii() && !(b.is_ascii_alphanumeric() || b == b'<' || b == b'>')
        || matches!(b, b'd' | b'D' | b's' | b'S' | b'w' | b'W')
}

fn first_in_class(b: u8) -> After
    ensures { result ≡ spec.first_in_class b }
{
    if b == b'-' {
        After::FirstHyphen
    } else {
        member(b)
    }
}

fn in_class(b: u8) -> After
    ensures { result ≡ spec.in_class b }
{
    if b == b']' { After::Item } else { member(b) }
}

fn member(b: u8) -> After
    ensures { result ≡ spec.member b }
{
    match b {
        _ if is_member(b) => After::Member(b),
        b'\\' => After::ClassBackslash,
        _ => After::Foreign,
    }
}

fn is_member(b: u8) -> bool
    ensures { result ≡ spec.is_member b }
{
    b.is_ascii() && !matches!(b, b'[' | b'\\' | b']' | b'^' | b'-' | b'&' | b'~')
}

/// After a member of a class and a hyphen.
fn after_hyphen(low: u8, b: u8) -> After
    ensures { result ≡ spec.after_hyphen low b }
{
    match b {
        b']' => After::Item,
        _ if is_member(b) && low <= b => After::Range,
        _ => After::Foreign,
    }
}

fn digit(b: u8) -> u16
    requires { is_ascii_digit b ≡ true }
    ensures value { result ≡ spec.digit_of b }
    ensures below { result < 10 }
{
    u16::from(b - b'0')
}

/// After a digit of the least number of a count.
fn after_least(n: u16, b: u8) -> After
    ensures { result ≡ spec.after_least n b }
{
    match b {
        b'}' => After::Repetition,
        b',' => After::Comma(n),
        _ if b.is_ascii_digit() && n < 100 => After::Least(10 * n + digit(b)),
        _ => After::Foreign,
    }
}

fn after_comma(least: u16, b: u8) -> After
    ensures { result ≡ spec.after_comma least b }
{
    match b {
        b'}' => After::Repetition,
        _ if b.is_ascii_digit() => After::Most(least, digit(b)),
        _ => After::Foreign,
    }
}

/// After a digit of the greatest number of a count.
fn after_most(least: u16, n: u16, b: u8) -> After
    ensures { result ≡ spec.after_most least n b }
{
    match b {
        b'}' if least <= n => After::Repetition,
        _ if b.is_ascii_digit() && n < 100 => After::Most(least, 10 * n + digit(b)),
        _ => After::Foreign,
    }
}
