//! Laws of the token list: the contracts of functions that do nothing.

ghost use Rattle.std.specs.Prelude.{◌≡◌, ◌↔◌, ◌==◌, ℕ, false, List, [], ◌∷◌, ◌++◌, length, map, Result, Ok, Err, slice_index, string_bytes, EachIndex};
ghost use Rattle.std.specs.List.{All};
ghost use Rattle.std.specs.Result.{ok_prefix};
ghost use Rattle.std.specs.Str.{IsUtf8};
ghost use Rattle.promql_text.specs.Texts.{Text};
ghost use Rattle.promql_text.specs.Equalities.{ClonesKeep, IsSameBy};
ghost use Rattle.promql_token.specs.Begins as begin;
ghost use Rattle.promql_token.specs.FaultPlaces as places;
ghost use Rattle.promql_token.specs.TextTokens as all;
ghost use Rattle.promql_token.specs.Trivia as trivia;
ghost use Rattle.promql_token.specs.Ids as ids;
ghost use Rattle.promql_token.specs.Lexing.{items, lex, pieces, start, tokens};
ghost use Rattle.promql_token.specs.TokenRows as rows;
ghost use Rattle.promql_token.specs.TokenTables as tables;
ghost use Rattle.promql_token.specs.TokenLists as lists;
ghost use Rattle.promql_token.specs.TokenScanning.{scan_token};
ghost use Rattle.promql_token.specs.declared.fault.LexError.{LexError};
ghost use Rattle.promql_token.specs.declared.fault.LexFault.{LexFault};
ghost use Rattle.promql_token.specs.declared.fault.LexFaultKind.{LexFaultKind};
ghost use Rattle.promql_token.specs.declared.fault.TheConstants.{MESSAGES};
ghost use Rattle.promql_token.specs.declared.ids.TheConstants.{TEXTS, T_EOF};
ghost use Rattle.promql_token.specs.declared.lexeme.Lexeme.{Lexeme};
ghost use Rattle.promql_token.specs.declared.state.State.{State};

use crate::token::{Token, TokenType};
use crate::{fault, lexeme};

/// Tokens, also those before a fault, have spans in order and between characters, and only white
/// space and comments lie between them, in brackets only white space.
pub fn spans_to_fault()
    ensures { (s : Text) → IsUtf8 s → trivia.AreSpans s [] 0 (ok_prefix (items s)) }
{}

/// A text has a token list, or a fault, exactly if it is trivia and tokens to its end, or to this
/// fault, each of them what may begin there. By these trivia and tokens are the items of a lexer, which
/// yields the tokens and then the fault; the ids and texts of the tokens, or the fault; and what a cursor
/// gives from the start on.
pub fn only_tokens()
    ensures tokens { (s : Text) (r : Result (List Lexeme) LexFault)
        → (lex s ≡ r) ↔ lists.IsLexed s r }
    ensures to_end { (s : Text) (ts : List lists.Step) → lists.IsRead lists.IsEnd [] s ts
        → (items s ≡ map (λ x. Ok x) (lists.to_end s ts))
        × (tokens s ≡ Ok (map (λ t. (t.1, t.2)) ts ++ (T_EOF, []) ∷ []))
        × (pieces start s ≡ map (λ t. Ok (t.1, t.2)) ts ++ Ok (T_EOF, []) ∷ []) }
    ensures to_fault { (s : Text) (ts : List lists.Step) (f : LexFault)
        → lists.IsRead (lists.EndsIn f (length s)) [] s ts
        → (items s ≡ map (λ x. Ok x) (lists.places 0 ts) ++ Err f ∷ [])
        × (tokens s ≡ Err f)
        × ((n : ℕ) × (pieces start s ≡ map (λ t. Ok (t.1, t.2)) ts ++ Err (f.kind, n, f.ch) ∷ [])) }
{}

/// The tokens of any text are, but for its comments, those of its token list. Where it has a fault they begin with those before it.
/// Each begins and ends between characters.
pub fn text_tokens_are_tokens()
    ensures whole { (s : Text) (xs ts : List Lexeme) → all.AreTextTokens s xs → lex s ≡ Ok ts
        → all.without_comments s xs ≡ all.before_end ts }
    ensures front { (s : Text) (xs : List Lexeme) → all.AreTextTokens s xs
        → (rest : List Lexeme) × (all.without_comments s xs ≡ all.before_end (ok_prefix (items s)) ++ rest) }
    ensures places { (s : Text) (xs : List Lexeme) → IsUtf8 s → all.AreTextTokens s xs → All (trivia.IsPlaced s) xs }
{}

/// What a text begins with in a state is a token, or a fault, exactly if that may begin there.
pub fn begins()
    ensures token { (state : State) (id : ℕ) (w r : Text)
        → ((scan_token state (w ++ r) ≡ Ok (id, length w)) × ((id == T_EOF) ≡ false))
        ↔ begin.MayBegin state.mode state.depth id w r }
    ensures fault { (state : State) (kind : LexFaultKind) (u v : Text)
        → (scan_token state (u ++ v) ≡ Err (kind, length u))
        ↔ places.IsFault kind state.mode state.depth u v }
{}

/// Kinds of tokens are equal exactly if they have one id, and tokens exactly if they have one id and
/// one text.
pub fn equal_tokens()
    ensures kinds { IsSameBy (λ (id : ℕ). id) ⟦<TokenType as PartialEq>⟧.eq }
    ensures tokens { IsSameBy {Y = ℕ × Text} (λ t. (t.id, string_bytes t.val)) ⟦<Token as PartialEq>⟧.eq }
{}

/// A clone is the value.
pub fn equal_clones()
    ensures kinds { ClonesKeep (λ (id : ℕ). id) ⟦<TokenType as Clone>⟧.is_clone }
    ensures lexemes { ClonesKeep (λ (x : Lexeme). x) ⟦<lexeme::Lexeme as Clone>⟧.is_clone }
    ensures fault_kinds { ClonesKeep (λ (k : LexFaultKind). k) ⟦<fault::LexFaultKind as Clone>⟧.is_clone }
    ensures faults { ClonesKeep (λ (f : LexFault). f) ⟦<fault::LexFault as Clone>⟧.is_clone }
{}

/// Lexemes are equal exactly if they have one id and one place.
pub fn equal_lexemes()
    ensures { IsSameBy (λ (x : Lexeme). x) ⟦<lexeme::Lexeme as PartialEq>⟧.eq }
{}

/// Faults are equal exactly if they are of one kind, at one place, and show one character.
pub fn equal_faults()
    ensures kinds { IsSameBy (λ (k : LexFaultKind). k) ⟦<fault::LexFaultKind as PartialEq>⟧.eq }
    ensures faults { IsSameBy (λ (f : LexFault). f) ⟦<fault::LexFault as PartialEq>⟧.eq }
    ensures errors { IsSameBy (λ (e : LexError). e) ⟦<fault::LexError as PartialEq>⟧.eq }
{}

/// The constants, in the order in which docs/reference/tokens.md lists them, are the numbers from 0 on.
pub fn ids_count_up()
    ensures { EachIndex tables.texts (λ k. slice_index (map (λ row. row.0) tables.texts) k ≡ k) }
{}

/// The tables of ids with their texts, keywords and messages have the rows of docs/reference/tokens.md, in the same order, and no other.
pub fn tables()
    ensures texts { map (λ row. (row.0, row.1.now)) TEXTS ≡ tables.texts }
    ensures keywords { ids.keywords ≡ tables.keywords }
    ensures messages { map (λ row. (row.0, row.1.now)) MESSAGES ≡ tables.messages }
{}

/// What the definition gives for worked texts, and that the relations say the same of them.
pub fn examples()
    ensures tokens { rows.ExampleTokens (λ s r. lex s ≡ r) }
    ensures faults { rows.ExampleFaults (λ s r. lex s ≡ r) }
    ensures tokens_read { rows.ExampleTokens lists.IsLexed }
    ensures faults_read { rows.ExampleFaults lists.IsLexed }
{}
