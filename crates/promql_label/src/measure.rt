//! The measure of a pattern: docs/reference/matchers.md, "The measure of a pattern".

ghost use Rattle.std.specs.Prelude.{◌≡◌, ◌≤◌, ◌*◌, ◌^◌, count_by, drop, false, length, min};
ghost use Rattle.std.specs.Char.{is_ascii_digit};
ghost use Rattle.promql_label.specs.MeasureParts as parts;
ghost use Rattle.promql_label.specs.PatternMeasure as spec;

/// How large the pattern of a value can get where it is compiled, by its text alone: the bytes of the anchored text, and more for its
/// classes, where case may be folded much more, each as often as the counts of the pattern can repeat it. `usize::MAX` stands for that
/// and more. It is an estimate, tried on many patterns: nothing proves that `regex` needs no more.
///
/// It takes the time to read the value, and allocates nothing.
pub fn pattern_measure(value: &str) -> usize
    ensures { result ≡ min (spec.measure value.now) usize.MAX }
{
    let bytes = value.as_bytes();
    weight(bytes).saturating_mul(repeats(bytes))
}

/// How often the counts of a value can repeat a part of it.
fn repeats(value: &[u8]) -> usize
    ensures { result ≡ min (spec.repeats value.now) usize.MAX }
{
    if !value.contains(&b'{') {
        1
    } else if value.contains(&b'#') {
        commented(value)
    } else {
        counted(value)
    }
}

/// What a value weighs where nothing repeats it.
fn weight(value: &[u8]) -> usize
    ensures { result ≡ min (parts.weight value.now) usize.MAX }
{
    class_weight(value)
        .saturating_add(value.len())
        .saturating_add(6)
}

/// What the classes of a value weigh beside its bytes: 22 for each escaped letter. Where case may be folded it is 22 for each pair of an
/// escaped letter and a sign of sets, with one more of either.
fn class_weight(value: &[u8]) -> usize
    ensures { result ≡ min (spec.class_weight value.now) usize.MAX }
{
    let escapes = letter_escapes(value);
    if may_fold(value) {
        let signs = value.iter().filter(|b| is_set_sign(**b)).count();
        (escapes + 1).saturating_mul(signs + 1).saturating_mul(22)
    } else {
        escapes.saturating_mul(22)
    }
}

/// How many letters come right after a backslash.
fn letter_escapes(value: &[u8]) -> usize
    ensures count { result ≡ spec.letter_escapes 0 value.now }
    ensures within { result ≤ length value.now }
{
    if !value.contains(&b'\\') {
        return 0;
    }
    let mut letters = 0;
    let mut before = 0;
    let mut rest = value;
    while let [b, after @ ..] = rest {
        if before == b'\\' && b.is_ascii_alphabetic() {
            letters += 1;
        }
        before = *b;
        rest = after;
    }
    letters
}

/// Whether a byte may begin a class, or be of an operator of classes.
fn is_set_sign(b: u8) -> bool
    ensures { result ≡ spec.is_set_sign b }
{
    b == b'[' || b == b'-' || b == b'&' || b == b'~'
}

/// Whether a value may ask to fold case: an `i` after a `?`, with letters and hyphens alone between.
fn may_fold(value: &[u8]) -> bool
    ensures { result ≡ spec.may_fold false value.now }
{
    if !value.contains(&b'?') {
        return false;
    }
    let mut in_flags = false;
    let mut rest = value;
    while let [b, after @ ..] = rest {
        if in_flags && *b == b'i' {
            return true;
        }
        in_flags = *b == b'?' || in_flags && is_flag(*b);
        rest = after;
    }
    false
}

/// Whether a byte may be among flags.
fn is_flag(b: u8) -> bool
    ensures { result ≡ spec.is_flag b }
{
    b.is_ascii_alphabetic() || b == b'-'
}

/// Ten for each digit after the first `{`.
fn commented(value: &[u8]) -> usize
    ensures { result ≡ min (10 ^ count_by is_ascii_digit
        (drop (parts.brace_place value.now) value.now)) usize.MAX }
{
    ten_for_digits(&value[brace_place(value)..])
}

/// How many bytes come before the first `{`.
fn brace_place(value: &[u8]) -> usize
    ensures place { result ≡ parts.brace_place value.now }
    ensures within { result ≤ length value.now }
{
    value.iter().take_while(|b| **b != b'{').count()
}

/// Ten for each digit.
fn ten_for_digits(value: &[u8]) -> usize
    ensures { result ≡ min (10 ^ count_by is_ascii_digit value.now) usize.MAX }
{
    let mut repeats: usize = 1;
    for b in value {
        if b.is_ascii_digit() {
            repeats = repeats.saturating_mul(10);
        }
    }
    repeats
}

/// How often the counts can repeat a part: those that repeat one item by the greatest of them, each other times the others.
fn counted(value: &[u8]) -> usize
    ensures { result ≡ min (spec.item_repeats 0 value.now * spec.group_repeats 0 value.now) usize.MAX }
{
    let mut items: usize = 1;
    let mut groups: usize = 1;
    let mut before = 0;
    let mut rest = value;
    while let [b, after @ ..] = rest {
        if *b == b'{' {
            let repeats = greatest(after).saturating_add(1);
            if ends_item(before) {
                items = items.max(repeats);
            } else {
                groups = groups.saturating_mul(repeats);
            }
        }
        before = *b;
        rest = after;
    }
    items.saturating_mul(groups)
}

/// Whether a count after this byte repeats one item, no group and no repetition.
fn ends_item(b: u8) -> bool
    ensures { result ≡ spec.ends_item b }
{
    b.is_ascii_alphanumeric() || b == b'.' || b == b']'
}

/// The greatest number up to a brace.
fn greatest(value: &[u8]) -> usize
    ensures { result ≡ min (spec.greatest 0 value.now) usize.MAX }
{
    let mut most: usize = 0;
    let mut number: usize = 0;
    for b in value {
        match *b {
            b'{' | b'}' => break,
            b',' => {
                most = most.max(number);
                number = 0;
            }
            digit if digit.is_ascii_digit() => {
                number = number
                    .saturating_mul(10)
                    .saturating_add(usize::from(digit - b'0'));
            }
            _ => {}
        }
    }
    most.max(number)
}
