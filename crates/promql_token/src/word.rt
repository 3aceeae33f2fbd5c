//! Words.

ghost use Rattle.std.specs.Prelude.{◌≡◌, ◌==◌, ◌≤◌, false, length};
ghost use Rattle.std.specs.List.{list_any};
ghost use Rattle.promql_text.specs.Texts.{code};
ghost use Rattle.promql_token.specs.Classes.{end_of_run};
ghost use Rattle.promql_token.specs.TokenScanning as spec;
ghost use Rattle.promql_token.specs.declared.class.Class.TheVariants.{Name};

use crate::class::{Class, byte, end_of_run};
use crate::ids::*;
use crate::lexeme::Scanned;

fn is_fill(id: TokenId) -> bool
    ensures { result ≡ spec.is_fill id }
{
    matches!(id, T_FILL | T_FILL_LEFT | T_FILL_RIGHT)
}

// Whether `(` is the first byte past white space.
fn opens(z: &[u8]) -> bool
    ensures { result ≡ spec.opens z.now }
{
    byte(z, end_of_run(Class::White, z, 0)) == b'('
}

// The id of a word without a colon. The fill words are keywords only before a parenthesis.
fn word_id(name: &[u8], rest: &[u8]) -> TokenId
    requires { list_any (λ b. b == code ":") name.now ≡ false }
    ensures { result ≡ spec.word_id name.now rest.now }
{
    match keyword_in_any_case(name) {
        Some(id) if is_fill(id) && !opens(rest) => T_IDENTIFIER,
        Some(id) => id,
        None => T_IDENTIFIER,
    }
}

/// The word at the front, outside braces, by the length of its run of letters, digits and `_`.
#[inline(always)]
#[tactic(auto, unfolding(crate::specs::TokenScanning::word))]
pub fn word_by_name(z: &[u8], name: usize) -> Scanned
    requires name { name ≡ end_of_run Name z.now 0 }
    requires within { name ≤ length z.now }
    ensures { result ≡ spec.word z.now }
{
    // No keyword has a colon.
    if byte(z, name) == b':' {
        Ok((T_METRIC_IDENTIFIER, end_of_run(Class::Word, z, name)))
    } else {
        Ok((word_id(&z[..name], &z[name..]), name))
    }
}

/// The word at the front, outside braces.
#[inline(always)]
pub fn word(z: &[u8]) -> Scanned
    ensures { result ≡ spec.word z.now }
{
    word_by_name(z, end_of_run(Class::Name, z, 0))
}

// In braces `or` before a plain space is the operator.
fn braces_id(word: &[u8], rest: &[u8]) -> TokenId
    ensures { result ≡ spec.braces_id word.now rest.now }
{
    if word.eq_ignore_ascii_case(b"or") && byte(rest, 0) == b' ' {
        T_LOR
    } else {
        T_IDENTIFIER
    }
}

/// The word at the front, in braces, by its length.
#[inline(always)]
#[tactic(auto, unfolding(crate::specs::TokenScanning::word_in_braces))]
pub fn braces_word_by_name(z: &[u8], name: usize) -> Scanned
    requires name { name ≡ end_of_run Name z.now 0 }
    requires within { name ≤ length z.now }
    ensures { result ≡ spec.word_in_braces z.now }
{
    Ok((braces_id(&z[..name], &z[name..]), name))
}

/// The word at the front, in braces.
#[inline(always)]
pub fn word_in_braces(z: &[u8]) -> Scanned
    ensures { result ≡ spec.word_in_braces z.now }
{
    braces_word_by_name(z, end_of_run(Class::Name, z, 0))
}
