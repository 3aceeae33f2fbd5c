//! Where a query comes from: docs/reference/programs.md, "Files".

ghost use Rattle.std.specs.Prelude.{◌≡◌, ◌++◌, [], IfOk, codes, encode_utf8_all, false, string_bytes, true};
ghost use Rattle.std.specs.Str.{chars};
ghost use Rattle.promql_span.specs.Visible.{visible};
ghost use Rattle.promql_programs.specs.Sources.{IsTextIn};

use promql_span::visible;
use std::alloc::{AllocError, Global};

/// Where a query comes from.
#[derive(Debug, Drop)]
pub struct Source {
    /// What each message of it begins with: the name of a file and a colon, nothing of standard input.
    pub prefix: String,
    /// Whether it is a file, which may begin with a byte order mark.
    pub is_file: bool,
}

impl Source {
    /// Standard input.
    pub fn standard(alloc: Global) -> Source
        ensures prefix { string_bytes result.prefix ≡ [] }
        ensures is_file { result.is_file ≡ false }
    {
        Source {
            prefix: String::new(alloc),
            is_file: false,
        }
    }

    /// A file of this name.
    ///
    /// # Errors
    ///
    /// `AllocError` where an allocation failed.
    pub fn file(alloc: Global, name: &str) -> Result<Source, AllocError>
        ensures prefix { IfOk result (λ s. string_bytes s.prefix ≡ encode_utf8_all (visible (chars name.now)) ++ codes ":") }
        ensures is_file { IfOk result (λ s. s.is_file ≡ true) }
    {
        let mut prefix = visible(alloc, name)?;
        prefix.push_str(":")?;
        Ok(Source {
            prefix,
            is_file: true,
        })
    }

    /// The text of an input from there: a byte order mark at the start of a file is no part of it.
    pub fn text_in<'a>(&self, input: &'a str) -> &'a str
        ensures { IsTextIn self.now.is_file input.now result.now }
    {
        if !self.is_file {
            return input;
        }
        match input.strip_prefix('\u{feff}') {
            Some(text) => text,
            None => input,
        }
    }
}
