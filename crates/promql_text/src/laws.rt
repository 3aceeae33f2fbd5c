//! Laws on the definitions alone. Each is the contract of a function that does nothing.

ghost use Rattle.std.specs.Prelude.{◌≡◌, ◌↔◌, ◌⊎◌, ℕ, ◌+◌, ◌*◌, ◌^◌, ◌<◌, Bool, false, IsTrue, List, [], ◌∷◌, length, Ok, Result, Some, encode_utf8_all};
ghost use Rattle.std.specs.Char.{digit_value};
ghost use Rattle.std.specs.Str.{IsUtf8};
ghost use Rattle.std.specs.Str.Parse.{digits_value};
ghost use Rattle.promql_text.specs.DecimalForm.{Numeral, Signed, decimal_form, numeral};
ghost use Rattle.promql_text.specs.Durations.{duration_of};
ghost use Rattle.promql_text.specs.DurationForms.{IsDuration};
ghost use Rattle.promql_text.specs.DurationText.{duration_text};
ghost use Rattle.promql_text.specs.Quoting as quoting;
ghost use Rattle.promql_text.specs.QuoteSpellings.{IsQuotedText};
ghost use Rattle.promql_text.specs.NumberForms.{HasValue, IsNumberText};
ghost use Rattle.promql_text.specs.NumberText.{number_text, read_number, without_whitespace};
ghost use Rattle.promql_text.specs.Texts.{Text};
ghost use Rattle.promql_text.specs.Numbers.{Exact, IsExact, seconds_of, whole};
ghost use Rattle.promql_text.specs.NumeralSpelling.{IsDecimalForm, Spells};
ghost use Rattle.promql_text.specs.TextRows.{ExampleDurations, ExampleNumbers};
ghost use Rattle.promql_text.specs.Values.{IsNumber, is_below_zero, is_infinite, is_nan, is_zero, neg};
ghost use Rattle.promql_text.specs.Equalities.{ClonesKeep, HashesAlike, IsSameBy};
ghost use Rattle.promql_text.specs.declared.duration.DurationFault.{DurationFault};
ghost use Rattle.promql_text.specs.declared.number.Number.{Number};
ghost use Rattle.promql_text.specs.declared.number.Number.TheVariants.{Finite, Inf, NaN, NegInf};
ghost use Rattle.promql_text.specs.declared.number.NumberFault.{NumberFault};

use crate::decimal::Decimal;
use crate::duration::{DurationFault, Unit};
use crate::number::{Number, NumberFault};
use crate::quote::QuoteError;
use std::hash::Hash;

/// Unquoting the quoted escape of a text gives the text, for every text.
pub fn unquoting_undoes_escaping()
    ensures { (s : Text) → quoting.unquoted_text (quoting.quoted_text s) ≡ Some s }
{}

/// Reading the text of a duration above zero gives the duration.
pub fn durations_read_back()
    ensures { (n : ℕ) → 0 < n → n < 2 ^ 64 * 1_000_000_000 → duration_of (duration_text n) ≡ Ok n }
{}

/// A quoted text, which is a quote, spellings of characters and the same quote, is read as these
/// characters.
pub fn quoted_texts_are_read()
    ensures { (s : Text) (cs : List ℕ) → IsQuotedText s cs
        → quoting.unquoted_text s ≡ Some (encode_utf8_all cs) }
{}

/// A text that is read is a quoted text, of the characters that are read.
pub fn what_is_read_is_quoted()
    ensures { (s t : Text) → IsUtf8 s → quoting.unquoted_text s ≡ Some t
        → (cs : List ℕ) × IsQuotedText s cs × (encode_utf8_all cs ≡ t) }
{}

/// Reading the text of a number gives the number.
pub fn number_reads_back()
    ensures { (v : Number) → IsNumber v → read_number (number_text v) ≡ Ok v }
{}

/// Each number that a text gives is in its one form.
pub fn read_numbers_are_numbers()
    ensures { (s : Text) (v : Number) → read_number s ≡ Ok v → IsNumber v }
{}

/// So is the number with the other sign.
pub fn negated_numbers_are_numbers()
    ensures { (v : Number) → IsNumber v → IsNumber (neg v) }
{}

/// What is asked of a number: whether it is NaN, infinite, below zero or zero.
pub fn number_tests()
    ensures nan { (n : Number) → IsTrue (is_nan n) ↔ (n ≡ NaN) }
    ensures infinite { (n : Number) → IsTrue (is_infinite n) ↔ ((n ≡ Inf) ⊎ (n ≡ NegInf)) }
    ensures below_zero { (n : Number) → IsTrue (is_below_zero n)
        ↔ ((n ≡ NegInf) ⊎ ((d : Exact) × (n ≡ Finite d) × IsTrue d.is_negative)) }
    ensures zero { (n : Number) → IsTrue (is_zero n)
        ↔ ((d : Exact) × (n ≡ Finite d) × (d.digits ≡ 0)) }
{}

/// Finite numbers of one value are one number.
pub fn equal_values_are_one()
    ensures { (v w : Exact) → IsExact v → IsExact w → v.is_negative ≡ w.is_negative
        → v.digits * 10 ^ (v.zeros + w.places) ≡ w.digits * 10 ^ (w.zeros + v.places) → v ≡ w }
{}

/// The seconds of so many nanoseconds are exact: they are that number divided by 10^9, in its one form.
pub fn seconds_are_exact()
    ensures { (n : ℕ) → n < 2 ^ 64 * 1_000_000_000 → HasValue false n 0 9 (seconds_of n) }
{}

/// Whole numbers have their value and their sign, in its one form.
pub fn whole_numbers_are_exact()
    ensures { (is_negative : Bool) (n : ℕ) → n < 2 ^ 64
        → HasValue is_negative n 0 0 (whole is_negative n) }
{}

/// A text is a numeral exactly if it is spelled as one: digits, a point or none, digits, an
/// exponent or none.
pub fn numerals_are_spelled()
    ensures { (t : Text) (n : Numeral) → (numeral t ≡ Some n) ↔ Spells n t }
{}

/// A text is of the decimal form exactly if it is spelled so: a sign or none, and `nan`, `inf` or
/// `infinity` in any case, or a numeral.
pub fn decimal_forms_are_spelled()
    ensures { (t : Text) (f : Signed) → (decimal_form t ≡ Some f) ↔ IsDecimalForm f t }
{}

/// A text is a duration of so many nanoseconds exactly if it is parts in the order of the units,
/// each unit at most once, that are so many together, or a numeral of so many seconds, rounded;
/// and it has a fault exactly if that fault's own rule fits.
pub fn durations_match_relation()
    ensures { (s : Text) (r : Result ℕ DurationFault) → (duration_of s ≡ r) ↔ IsDuration s r }
{}

/// A text gives a number exactly if it is, but for white space, a hexadecimal, an octal or a
/// decimal text of that number's value; and it has a fault exactly if that fault's own rule fits.
pub fn numbers_match_relation()
    ensures { (s : Text) (r : Result Number NumberFault)
        → (read_number s ≡ r) ↔ IsNumberText (without_whitespace s) r }
{}

/// The value of digits is the sum of each digit times its power of the radix.
pub fn digits_are_summed()
    ensures none { (radix : ℕ) → digits_value radix [] ≡ 0 }
    ensures more { (radix c : ℕ) (ds : Text) → digits_value radix (c ∷ ds)
        ≡ digit_value c * radix ^ length ds + digits_value radix ds }
{}

/// What the relations say of worked texts.
pub fn example_texts()
    ensures durations { ExampleDurations }
    ensures numbers { ExampleNumbers }
{}

/// Decimals are equal exactly if they are one number, and then they are hashed alike.
pub fn equal_decimals()
    ensures same { IsSameBy (λ (d : Exact). d) ⟦<Decimal as PartialEq>⟧.eq }
    ensures hashed { HashesAlike (λ (d : Exact). d) ⟦<Decimal as Hash>⟧.hash_input }
{}

/// Numbers are equal exactly if they are one number, and then they are hashed alike.
pub fn equal_numbers()
    ensures same { IsSameBy (λ (n : Number). n) ⟦<Number as PartialEq>⟧.eq }
    ensures hashed { HashesAlike (λ (n : Number). n) ⟦<Number as Hash>⟧.hash_input }
{}

/// Each kind of fault is equal to itself alone.
pub fn equal_faults()
    ensures numbers { IsSameBy (λ (f : NumberFault). f) ⟦<NumberFault as PartialEq>⟧.eq }
    ensures durations { IsSameBy (λ (f : DurationFault). f) ⟦<DurationFault as PartialEq>⟧.eq }
    ensures quotes { IsSameBy (λ (f : QuoteError). f) ⟦<QuoteError as PartialEq>⟧.eq }
{}

/// A clone is the value.
pub fn equal_clones()
    ensures decimals { ClonesKeep (λ (d : Exact). d) ⟦<Decimal as Clone>⟧.is_clone }
    ensures numbers { ClonesKeep (λ (n : Number). n) ⟦<Number as Clone>⟧.is_clone }
    ensures number_faults { ClonesKeep (λ (f : NumberFault). f) ⟦<NumberFault as Clone>⟧.is_clone }
    ensures duration_faults { ClonesKeep (λ (f : DurationFault). f) ⟦<DurationFault as Clone>⟧.is_clone }
    ensures quote_errors { ClonesKeep (λ (f : QuoteError). f) ⟦<QuoteError as Clone>⟧.is_clone }
    ensures units { ClonesKeep (λ (u : Unit). u) ⟦<Unit as Clone>⟧.is_clone }
{}

/// Each unit is equal to itself alone.
pub fn equal_units()
    ensures { IsSameBy (λ (u : Unit). u) ⟦<Unit as PartialEq>⟧.eq }
{}
