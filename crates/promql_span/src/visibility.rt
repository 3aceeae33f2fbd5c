//! Texts as people are shown them: docs/reference/texts.md, "Visible texts".

ghost use Rattle.std.specs.Prelude.{◌≡◌, ◌%◌, ◌<◌, ◌++◌, ◌∷◌, [], IfOk, OnOk, chars, encode_utf8_all, string_bytes};
ghost use Rattle.std.specs.Char.{digit_char};
ghost use Rattle.std.specs.Char.Escape.{hex_digit_at};
ghost use Rattle.promql_span.specs.Visible as spec;

use std::alloc::{AllocError, Global};
use ucd_category::{GeneralCategory, GeneralCategoryGroup};

/// The text with an escape in place of each character that has no picture of its own, which a terminal or a page would obey:
/// `\x1b` for a control character, `\u{202e}` for a mark of writing direction. A tab and a line feed stay.
///
/// # Errors
///
/// `AllocError` where an allocation failed.
pub fn visible(alloc: Global, text: &str) -> Result<String, AllocError>
    ensures { IfOk result (λ shown. string_bytes shown
        ≡ encode_utf8_all (spec.visible (chars text.now))) }
{
    let mut shown = String::new(alloc);
    for c in text.chars() {
        push_visible(&mut shown, c)?;
    }
    Ok(shown)
}

/// Appends a character as it is shown.
fn push_visible(out: &mut String, c: char) -> Result<(), AllocError>
    ensures { OnOk result (string_bytes out.new
        ≡ string_bytes out.old ++ encode_utf8_all (spec.visible_char c)) }
{
    if !is_hidden(c) {
        return out.push(c);
    }
    if c < '\u{100}' {
        return push_byte(out, c);
    }
    for escape in c.escape_unicode() {
        out.push(escape)?;
    }
    Ok(())
}

/// Appends the escape of a character below 256.
fn push_byte(out: &mut String, c: char) -> Result<(), AllocError>
    ensures { OnOk result (string_bytes out.new ≡ string_bytes out.old
        ++ encode_utf8_all (92 ∷ 120 ∷ hex_digit_at 16 c ∷ hex_digit_at 1 c ∷ [])) }
{
    out.push('\\')?;
    out.push('x')?;
    out.push(hex_digit(c as u32 / 16))?;
    out.push(hex_digit(c as u32))
}

/// The last hexadecimal digit of a number.
fn hex_digit(number: u32) -> char
    ensures { result ≡ digit_char (number % 16) }
{
    match char::from_digit(number % 16, 16) {
        Some(digit) => digit,
        None => '0',
    }
}

/// Whether a character has no picture of its own, but for a space, a tab and a line feed.
fn is_hidden(c: char) -> bool
    ensures { result ≡ spec.is_hidden c }
{
    let category = GeneralCategory::for_char(c);
    !matches!(c, ' ' | '\t' | '\n')
        && (GeneralCategoryGroup::Separator.contains(category)
            || GeneralCategoryGroup::Other.contains(category))
}
