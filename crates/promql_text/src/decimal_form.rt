//! The decimal form of a text, read once from its start (docs/reference/texts.md, "The decimal form").

ghost use Rattle.std.specs.Prelude.{◌≡◌, ◌∷◌, ℕ, List, [], drop, length, ◌<◌, ◌^◌, false, ◌==◌, Option, Some, None, MatchOption};
ghost use Rattle.std.specs.Char.{is_ascii_digit};
ghost use Rattle.promql_text.specs.DecimalForm as spec;
ghost use Rattle.promql_text.specs.DecimalParts as parts;

/// A text that is read from its start, one character after another.
pub trait Source: Copy + Drop {
    ghost left: { Self → List ℕ };

    /// The first character, and the text after it.
    fn first(self) -> Option<(char, Self)>
        ensures value { MatchOption result (left self ≡ []) (λ p. left self ≡ p.0 ∷ left p.1) }
        ensures small { length (left self) < 2 ^ 64 };
}

/// The bytes of a text, each read as one character.
impl<'a> Source for &'a [u8] {
    ghost left = { λ s. s.now };

    fn first(self) -> Option<(char, &'a [u8])> {
        match self {
            [] => None,
            [b, rest @ ..] => Some((*b as char, rest)),
        }
    }
}

/// A number in decimal digits. Each text goes on after its digits, which are the longest run at its
/// start.
#[derive(Clone, Copy)]
pub struct Numeral<S> {
    /// The digits before the point.
    pub whole: S,
    /// The digits after the point.
    pub fraction: S,
    pub exponent_is_negative: bool,
    /// The digits of the exponent.
    pub exponent: S,
}

/// What a text of the decimal form is without its sign.
#[derive(Clone, Copy)]
pub enum Reading<S> {
    NaN,
    Inf,
    Finite(Numeral<S>),
}

/// A text of the decimal form.
#[derive(Clone, Copy)]
pub struct DecimalForm<S> {
    pub is_negative: bool,
    pub reading: Reading<S>,
}

/// The text after the longest run of digits at the start.
#[tactic(auto, using(crate::proofs::numerals::Runs::past_run_digit, crate::proofs::numerals::Runs::past_run_other))]
pub(crate) fn past_run<S: Source>(text: S) -> S
    ensures { S.left result ≡ spec.past_run (S.left text) }
{
    let mut rest = text;
    while let Some((c, more)) = rest.first() {
        if !c.is_ascii_digit() {
            break;
        }
        rest = more;
    }
    rest
}

/// The first character, or NUL where there is none.
pub(crate) fn front<S: Source>(text: S) -> char
    ensures { result ≡ spec.front (S.left text) }
{
    match text.first() {
        Some((c, _)) => c,
        None => '\0',
    }
}

/// The text without its first character.
pub(crate) fn after_first<S: Source>(text: S) -> S
    ensures { S.left result ≡ drop 1 (S.left text) }
{
    match text.first() {
        Some((_, rest)) => rest,
        None => text,
    }
}

pub(crate) fn is_empty<S: Source>(text: S) -> bool
    ensures { result ≡ (length (S.left text) == 0) }
{
    text.first().is_none()
}

/// The text without a sign at its start.
pub(crate) fn without_sign<S: Source>(text: S) -> S
    ensures { S.left result ≡ spec.without_sign (S.left text) }
{
    match front(text) {
        '+' | '-' => after_first(text),
        _ => text,
    }
}

/// The text without a point at its start.
fn past_point<S: Source>(text: S) -> S
    ensures { S.left result ≡ spec.past_point (S.left text) }
{
    if front(text) == '.' {
        after_first(text)
    } else {
        text
    }
}

/// Whether the text is the word, which is in lower case, in any case of its letters.
fn is_word<S: Source>(text: S, word: &[u8]) -> bool
    ensures { result ≡ spec.is_word (S.left text) word.now }
{
    let mut rest = text;
    for b in word {
        let Some((c, more)) = rest.first() else {
            return false;
        };
        if c.to_ascii_lowercase() != *b as char {
            return false;
        }
        rest = more;
    }
    is_empty(rest)
}

fn is_exponent<S: Source>(text: S) -> bool
    ensures { result ≡ spec.is_exponent (S.left text) }
{
    let digits = without_sign(after_first(text));
    matches!(front(text), 'e' | 'E') && front(digits).is_ascii_digit() && is_empty(past_run(digits))
}

#[tactic(auto, unfolding(crate::specs::DecimalForm::numeral))]
fn read_numeral<S: Source>(text: S) -> Option<Numeral<S>>
    ensures { let said = spec.numeral (S.left text) in
        MatchOption result (said ≡ None) (λ n. said ≡ Some (parts.numeral_of S.left n)) }
{
    let fraction = past_point(past_run(text));
    let end = past_run(fraction);
    let has_digits = front(text).is_ascii_digit() || front(fraction).is_ascii_digit();
    if !has_digits || !(is_empty(end) || is_exponent(end)) {
        return None;
    }
    let exponent = after_first(end);
    Some(Numeral {
        whole: text,
        fraction,
        exponent_is_negative: front(exponent) == '-',
        exponent: without_sign(exponent),
    })
}

#[tactic(auto, unfolding(crate::specs::DecimalForm::reading))]
fn read_unsigned<S: Source>(text: S) -> Option<Reading<S>>
    ensures { let said = spec.reading (S.left text) in
        MatchOption result (said ≡ None) (λ r. said ≡ Some (parts.reading_of S.left r)) }
{
    if is_word(text, b"inf") || is_word(text, b"infinity") {
        Some(Reading::Inf)
    } else if is_word(text, b"nan") {
        Some(Reading::NaN)
    } else {
        Some(Reading::Finite(read_numeral(text)?))
    }
}

/// What the text is in the decimal form; None where it is not of that form.
#[tactic(auto, unfolding(crate::specs::DecimalForm::decimal_form))]
pub fn decimal_form<S: Source>(text: S) -> Option<DecimalForm<S>>
    ensures { let said = spec.decimal_form (S.left text) in
        MatchOption result (said ≡ None) (λ f. said ≡ Some (parts.form_of S.left f)) }
{
    let reading = read_unsigned(without_sign(text))?;
    Some(DecimalForm {
        is_negative: front(text) == '-',
        reading,
    })
}
