//! Whether a pattern matches the empty text, as its tree says: docs/reference/matchers.md, "The empty text".

ghost use Rattle.std.specs.Prelude.{◌≡◌, [], is_some, map};
ghost use Rattle.regex.specs.Patterns.{alt_all, cat_all};
ghost use Rattle.regex_hir.specs.Meaning.{meaning};
ghost use Rattle.regex_hir.specs.Looks.{holds};
ghost use Rattle.regex_hir.specs.Re.{accept, attempt};

use regex_hir::{Hir, Look};

/// Whether what the grammar of `regex` reads matches the empty text.
#[cycle(matches_empty)]
pub(crate) fn matches_empty(tree: &Hir) -> bool
    ensures { result ≡ is_some (attempt [] (meaning tree.now) accept 0) }
{
    match tree {
        Hir::Empty => true,
        Hir::Literal(bytes) => bytes.is_empty(),
        Hir::Bytes(_) => false,
        Hir::Chars(_) => false,
        Hir::Look(look) => holds(*look),
        Hir::Repetition { min, sub, .. } => *min == 0 || matches_empty(sub),
        Hir::Capture { sub, .. } => matches_empty(sub),
        Hir::Concat(parts) => all_match_empty(parts),
        Hir::Alternation(branches) => any_matches_empty(branches),
    }
}

#[cycle(matches_empty)]
fn all_match_empty(parts: &[Hir]) -> bool
    ensures { result ≡ is_some (attempt [] (cat_all (map meaning parts.now)) accept 0) }
{
    for part in parts {
        if !matches_empty(part) {
            return false;
        }
    }
    true
}

#[cycle(matches_empty)]
fn any_matches_empty(branches: &[Hir]) -> bool
    ensures { result ≡ is_some (attempt [] (alt_all (map meaning branches.now)) accept 0) }
{
    for branch in branches {
        if matches_empty(branch) {
            return true;
        }
    }
    false
}

/// Whether an assertion holds in the empty text: all do but those that ask for a word beside them.
#[tactic(auto, using(crate::proofs::regex_answers::EmptyText::holds_nowhere))]
fn holds(look: Look) -> bool
    ensures { result ≡ holds look [] 0 }
{
    match look {
        Look::WordAscii
        | Look::WordUnicode
        | Look::WordStartAscii
        | Look::WordEndAscii
        | Look::WordStartUnicode
        | Look::WordEndUnicode => false,
        _ => true,
    }
}
