//! A request that is a query in quotes, read without making a JSON value: docs/reference/programs.md, "Requests".

ghost use Rattle.std.specs.Prelude.{◌≡◌, ◌≤◌, [], ◌∷◌, length, take, IfOk, IfSome, IsTrue, Some, string_bytes};
ghost use Rattle.json.specs.Print.{escape, escape_byte, quoted};
ghost use Rattle.serde_json.specs.Data.{string};
ghost use Rattle.serde_json.specs.Read.{read};

use std::alloc::{AllocError, Global};

/// The byte for which a writer of JSON writes a backslash and this letter; `None` where it is none or a writer writes it otherwise.
#[tactic(auto, unfolding(json::specs::Print::escape_byte))]
fn escaped_byte(letter: u8) -> Option<u8>
    ensures { IfSome result (λ b. escape_byte b ≡ 92 ∷ letter ∷ []) }
{
    match letter {
        b'"' | b'\\' => Some(letter),
        b'b' => Some(8),
        b'f' => Some(12),
        b'n' => Some(b'\n'),
        b'r' => Some(b'\r'),
        b't' => Some(b'\t'),
        _ => None,
    }
}

/// Whether a byte stands for itself in a JSON string.
#[tactic(auto, using(json::proofs::Printed::Strings::escape_byte_plain))]
fn is_plain(byte: u8) -> bool
    ensures { IsTrue result → escape_byte byte ≡ byte ∷ [] }
{
    byte >= b' ' && byte != b'"' && byte != b'\\'
}

/// How many bytes at the front stand for themselves.
fn plain_len(bytes: &[u8]) -> usize
    ensures within { result ≤ length bytes.now }
    ensures plain { escape (take result bytes.now) ≡ take result bytes.now }
{
    let mut len = 0;
    while len < bytes.len() && is_plain(bytes[len]) {
        len += 1;
    }
    len
}

/// The bytes that are in quotes here; `None` where this is something else, or a writer of JSON writes them otherwise.
fn unquoted(alloc: Global, line: &[u8]) -> Result<Option<Vec<u8>>, AllocError>
    ensures { IfOk result (λ found. IfSome found (λ v. quoted v.items ≡ line.now)) }
{
    let [b'"', inner @ ..] = line else {
        return Ok(None);
    };
    let mut found = Vec::with_capacity(alloc, inner.len())?;
    let mut rest = inner;
    loop {
        let (plain, after) = rest.split_at(plain_len(rest));
        found.extend_from_slice(plain)?;
        match after {
            [b'"'] => return Ok(Some(found)),
            [b'\\', letter, next @ ..] => {
                let Some(byte) = escaped_byte(*letter) else {
                    return Ok(None);
                };
                found.push(byte)?;
                rest = next;
            }
            _ => return Ok(None),
        }
    }
}

/// The query that a line is alone, as a JSON string; `None` where it is something else, or written otherwise than a writer of JSON
/// does.
#[tactic(auto, using(crate::proofs::JsonTexts::quoted_is_read))]
pub fn quoted_query(alloc: Global, line: &str) -> Result<Option<String>, AllocError>
    ensures { IfOk result (λ found.
        IfSome found (λ s. read line.now ≡ Some (string (string_bytes s)))) }
{
    match unquoted(alloc, line.as_bytes())? {
        Some(bytes) => Ok(String::from_utf8(bytes).ok()),
        None => Ok(None),
    }
}
