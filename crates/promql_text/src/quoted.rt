//! Texts between double quotes, without memory (docs/reference/texts.md, "Escaping").

ghost use Rattle.std.specs.Prelude.{◌≡◌};
ghost use Rattle.std.specs.Char.{encode_utf8};
ghost use Rattle.std.specs.Fmt.{WritesStyledOnOk};
ghost use Rattle.std.specs.Iterator.{YieldsFirst, item_count};
ghost use Rattle.promql_text.specs.QuotedBytes.{bytes_left};
ghost use Rattle.promql_text.specs.Quoting.{escaped_text, quoted_text};

use crate::quote::escape_of;
use std::fmt;
use std::str::Bytes;

/// A text that prints between double quotes, with the five escaped characters escaped. Printing
/// allocates nothing.
#[derive(Clone, Copy)]
pub struct Quoted<'a>(pub &'a str);

impl fmt::Display for Quoted<'_> {
    ghost use Rattle.std.specs.Prelude.{Some};

    ghost output = { λ text. Some (quoted_text text.0.now) };

    ghost styled_output = { λ text _. Some (quoted_text text.0.now) };

    #[tactic(auto, using(crate::proofs::writing::AllOptions::styled))]
    fn fmt<W: fmt::Write>(&self, f: &mut fmt::Formatter<W>) -> fmt::Result {
        f.write_str("\"")?;
        write_escaped(self.0, f)?;
        f.write_str("\"")
    }
}

fn write_escaped<W: fmt::Write>(text: &str, f: &mut fmt::Formatter<W>) -> fmt::Result
    ensures { WritesStyledOnOk W.write_str_gives f.old result (escaped_text text.now) f.new }
{
    for c in text.chars() {
        write_escaped_char(c, f)?;
    }
    Ok(())
}

fn write_escaped_char<W: fmt::Write>(c: char, f: &mut fmt::Formatter<W>) -> fmt::Result
    ensures { WritesStyledOnOk W.write_str_gives f.old result (escaped_text (encode_utf8 c)) f.new }
{
    match escape_of(c) {
        Some(escape) => f.write_str(escape),
        None => f.write_char(c),
    }
}

/// The bytes of a quoted text in order, computed as they are asked for.
#[derive(Drop)]
pub struct QuotedBytes<'a> {
    /// The opening quote, and later what is left of an escape.
    pending: Bytes<'a>,
    rest: Bytes<'a>,
    close: Bytes<'a>,
}

impl<'a> QuotedBytes<'a> {
    /// The bytes that `Quoted` prints for the text.
    pub fn new(text: &'a str) -> QuotedBytes<'a>
        ensures { bytes_left result ≡ quoted_text text.now }
    {
        QuotedBytes {
            pending: "\"".bytes(),
            rest: text.bytes(),
            close: "\"".bytes(),
        }
    }
}

impl<'a> Iterator for QuotedBytes<'a> {
    type Item = u8;

    ghost next_gives = { YieldsFirst bytes_left };

    ghost remaining = { item_count bytes_left };

    fn next(&mut self) -> Option<u8> {
        if let Some(b) = self.pending.next() {
            return Some(b);
        }
        let Some(b) = self.rest.next() else {
            return self.close.next();
        };
        match escape_of(b as char) {
            Some(escape) => {
                self.pending = escape.bytes();
                self.pending.next()
            }
            None => Some(b),
        }
    }
}
