//! Laws of the grammar.

ghost use Rattle.std.specs.Prelude.{◌≡◌, ◌≢◌, ◌↔◌, ◌⊎◌, Bool, Some, None, ℕ, ◌+◌, ◌≤◌, ◌==◌, ◌++◌, [], ◌∷◌, List, Ok, Err, true, nat_lt, if◌then◌else◌, length, map, slice_get, slice_index, Contains, EachIndex};
ghost use Rattle.std.specs.List.{position_or_len};
ghost use Rattle.std.specs.Option.{unwrap_or};
ghost use Rattle.promql_text.specs.Equalities.{IsSameBy};
ghost use Rattle.promql_text.specs.Texts.{Text};
ghost use Rattle.promql_grammar.specs.Grammar.{Derivation, FitsMatching, FitsRight, FitsUnary, IsBase, IsWellFormed, height, openness, precedence, yield};
ghost use Rattle.promql_grammar.specs.GrammarParts.{Fills, IsLabels, Labels, Matching, no_fill, yield_names};
ghost use Rattle.promql_grammar.specs.KindLists.{label_kinds, low_levels, name_words, punctuation};
ghost use Rattle.promql_grammar.specs.KindTable.{kinds};
ghost use Rattle.promql_grammar.specs.Misfits.{AreMisfits};
ghost use Rattle.promql_grammar.specs.Parsing.{misfit, parse_expression, too_high};
ghost use Rattle.promql_grammar.specs.Symbols.{Symbol, punct, word, is_punct, may_be_called, may_be_label, may_be_name, may_begin, token_kind};
ghost use Rattle.promql_grammar.specs.declared.token_kinds.TheConstants.{TOKEN_KINDS};
ghost use Rattle.promql_grammar.specs.declared.token_kinds.TokenKind.TheVariants as kind;
ghost use Rattle.promql_token.specs.declared.ids.TheConstants.{T_ADD, T_MUL, T_POW, T_SUB};
ghost use Rattle.promql_token.specs.Ids.{is_one_of};

use crate::token_kinds::TokenKind;

/// No two well formed derivations have the same tokens, so a text has one tree.
pub fn one_tree()
    ensures { (a b : Derivation) → IsWellFormed a → IsWellFormed b → yield a ≡ yield b → a ≡ b }
{}

/// The table of kinds has a row for each id, in the order of the ids, with the kind of docs/reference/grammar.md; any other
/// number has no kind of these.
pub fn kinds_by_id()
    ensures ids { EachIndex TOKEN_KINDS
        (λ k. slice_index (map (λ row. row.0) TOKEN_KINDS) k ≡ k) }
    ensures kinds { map (λ row. row.1) TOKEN_KINDS ≡ kinds }
    ensures kind { (id : ℕ) → token_kind id ≡ unwrap_or (slice_get kinds id) kind.Other }
{}

/// Exactly the kinds of these lists are punctuation, and may be the name of a metric, a label and the name of a function;
/// an aggregator may be the first two of these. An expression may begin with a name, and with what else its list has.
pub fn kinds_by_use()
    ensures punctuation { (k : TokenKind) → (is_punct k ≡ true) ↔ Contains punctuation k }
    ensures name { (k : TokenKind) → (may_be_name k ≡ true)
        ↔ (Contains (kind.Identifier ∷ kind.MetricIdentifier ∷ name_words) k ⊎ ((op : ℕ) × (k ≡ kind.Aggregator op))) }
    ensures label { (k : TokenKind) → (may_be_label k ≡ true)
        ↔ (Contains label_kinds k ⊎ ((op : ℕ) × (k ≡ kind.Aggregator op))) }
    ensures called { (k : TokenKind) → (may_be_called k ≡ true)
        ↔ Contains (kind.Identifier ∷ kind.Start ∷ kind.End ∷ []) k }
    ensures begin { (k : TokenKind) → (may_begin k ≡ true)
        ↔ (Contains (kind.Number ∷ kind.Duration ∷ kind.String ∷ kind.LeftParen ∷ kind.LeftBrace
        ∷ kind.Operator T_ADD ∷ kind.Operator T_SUB ∷ []) k ⊎ (may_be_name k ≡ true)) }
{}

/// The level of an operator is 6 of `^`, that of the list which has it, and 5 of all others. An operand may be the base of
/// a postfix exactly if it is of the greatest openness, and that of a sign exactly if it may be the right side of a product.
pub fn levels()
    ensures operator { (op : ℕ) → precedence op
        ≡ (if op == T_POW then 6 else 1 + position_or_len (λ ops. is_one_of ops op) low_levels) }
    ensures base { (d : Derivation) → IsBase d ↔ (openness d ≡ 7) }
    ensures signed { (d : Derivation) → FitsUnary d ↔ FitsRight T_MUL d }
{}

/// A derivation is well formed only where no parenthesis comes directly after a bare grouping word.
pub fn grouping_words()
    ensures { (m : Matching) (f : Fills) (ts : List Symbol) → FitsMatching m f ts
        ↔ ((on left : Bool) (text word : Text) (ls : Labels) (rest : List Symbol)
        → m ≡ Some (on, text, ls, Some (left, word, None)) → f ≡ no_fill → ts ≢ punct kind.LeftParen ∷ rest) }
{}

/// Labels are well formed exactly if each word of their tokens may be a label.
pub fn label_words()
    ensures { (ls : Labels) → IsLabels ls
        ↔ ((k : TokenKind) (text : Text) → Contains (yield_names ls) (word k text) → may_be_label k ≡ true) }
{}

/// Kinds of tokens are equal exactly if they are the same.
pub fn equal_token_kinds()
    ensures { IsSameBy (λ k. k) ⟦<TokenKind as PartialEq>⟧.eq }
{}

/// No derivation is higher than its tokens are many.
pub fn heights()
    ensures { (d : Derivation) → height d ≤ length (yield d) }
{}

/// Parsing within a height gives each well formed derivation of that height from its tokens, and no other; a higher one
/// is too deep, which a list without enough tokens never is.
pub fn parsing_is_sound_and_complete()
    ensures complete { (n : ℕ) (d : Derivation) → IsWellFormed d
        → parse_expression n 0 (yield d) ≡ (if nat_lt n (height d) then Err too_high else Ok
        (d, [])) }
    ensures formed { (n : ℕ) (ts rest : List Symbol) (d : Derivation)
        → parse_expression n 0 ts ≡ Ok (d, rest)
        → IsWellFormed d }
    ensures low { (n : ℕ) (ts rest : List Symbol) (d : Derivation)
        → parse_expression n 0 ts ≡ Ok (d, rest) → height d ≤ n }
    ensures spells { (n : ℕ) (ts rest : List Symbol) (d : Derivation)
        → parse_expression n 0 ts ≡ Ok (d, rest)
        → ts ≡ yield d ++ rest }
    ensures too_deep { (n : ℕ) (ts : List Symbol) → parse_expression n 0 ts ≡ Err too_high
        → n ≤ length ts }
{}

/// Where parsing stops at a token, within any height, or goes no further before it, that token is the first that does not
/// fit: no well formed derivation begins with the tokens up to and with it.
pub fn misfits_are_first()
    ensures stops { (n : ℕ) (ts rest : List Symbol) → parse_expression n 0 ts ≡ Err (misfit rest)
        → AreMisfits ts rest }
    ensures goes_on { (n : ℕ) (ts rest : List Symbol) (x : Symbol) (d : Derivation)
        → parse_expression n 0 ts ≡ Ok (d, x ∷ rest) → AreMisfits ts (x ∷ rest) }
{}
