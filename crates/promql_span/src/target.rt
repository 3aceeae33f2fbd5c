//! Where the text of a query is sent to: docs/reference/programs.md, "Targets".

ghost use Rattle.std.specs.Prelude.{◌≡◌};
ghost use Rattle.promql_span.specs.Targets as spec;

use crate::byte_escapes::byte_escape;
use crate::span::Span;
use thiserror::Error;

/// What reads the text of a query after it was printed.
#[derive(Clone, Copy, Debug, PartialEq, Eq, Error)]
pub enum Target {
    /// Prometheus 2.42.
    #[error("Prometheus 2.42")]
    Prometheus2,
    /// Prometheus 3.
    #[error("Prometheus 3")]
    Prometheus3,
    /// The rules of this library.
    #[error("these rules")]
    Rules,
}

impl Target {
    /// The target of this name; `None` where there is none.
    pub fn from_name(name: &str) -> Option<Target>
        ensures { result ≡ spec.target_named name.now }
    {
        match name {
            "prometheus-2.42" => Some(Target::Prometheus2),
            "prometheus-3" => Some(Target::Prometheus3),
            "rules" => Some(Target::Rules),
            _ => None,
        }
    }

    /// The target of this number, by which the calls of the library name it: 0 for Prometheus 3, 1 for the rules, 2 for Prometheus 2.42.
    pub fn from_number(number: u32) -> Option<Target>
        ensures { result ≡ spec.target_numbered number }
    {
        match number {
            0 => Some(Target::Prometheus3),
            1 => Some(Target::Rules),
            2 => Some(Target::Prometheus2),
            _ => None,
        }
    }

    /// The first part of a matcher's text that the target reads otherwise: an escape of a byte of 128 and more.
    pub fn matcher_difference(self, text: &str) -> Option<Span>
        ensures { result ≡ spec.matcher_difference self text.now }
    {
        match self {
            Target::Prometheus2 | Target::Prometheus3 => byte_escape(text),
            Target::Rules => None,
        }
    }
}
