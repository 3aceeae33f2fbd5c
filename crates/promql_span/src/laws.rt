//! Laws of spans.

ghost use Rattle.std.specs.Prelude.{◌≡◌, ◌≤◌, filter, length, List, Ok, ℕ};
ghost use Rattle.std.specs.Result.{ok_prefix};
ghost use Rattle.promql_text.specs.Equalities.{ClonesKeep, HashesAlike, IsSameBy};
ghost use Rattle.promql_text.specs.Texts.{Text};
ghost use Rattle.promql_token.specs.Cursor.{is_before_end};
ghost use Rattle.promql_token.specs.Lexing.{pieces, slice_texts, start, tokens};
ghost use Rattle.promql_span.specs.PlacedTokens.{placed_tokens};
ghost use Rattle.promql_span.specs.declared.location.Location.{Location};
ghost use Rattle.promql_span.specs.declared.span.Span.{Span};

use crate::location::Location;
use crate::span::Span;
use std::hash::Hash;

/// Spans are equal exactly if their starts and their ends are. A clone is the span, and equal spans
/// are hashed alike.
pub fn equal_spans()
    ensures same { IsSameBy (λ (s : Span). s) ⟦<Span as PartialEq>⟧.eq }
    ensures clones { ClonesKeep (λ (s : Span). s) ⟦<Span as Clone>⟧.is_clone }
    ensures hashed { HashesAlike (λ (s : Span). s) ⟦<Span as Hash>⟧.hash_input }
{}

/// Locations are equal exactly if their lines and their columns are. A clone is the location.
pub fn equal_locations()
    ensures same { IsSameBy (λ (l : Location). l) ⟦<Location as PartialEq>⟧.eq }
    ensures clones { ClonesKeep (λ (l : Location). l) ⟦<Location as Clone>⟧.is_clone }
{}

/// The tokens with their places are the tokens of the text, also where a lexical fault comes after
/// them, and they are no more than its bytes.
pub fn tokens_are_placed()
    ensures whole { (s : Text) (ts : List (ℕ × Text)) → tokens s ≡ Ok ts
        → filter is_before_end ts ≡ slice_texts s (placed_tokens s) }
    ensures pieces { (s : Text)
        → filter is_before_end (ok_prefix (pieces start s)) ≡ slice_texts s (placed_tokens s) }
    ensures few { (s : Text) → length (placed_tokens s) ≤ length s }
{}
