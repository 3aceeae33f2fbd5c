//! What may come after the first tokens of a text: docs/reference/grammar.md, "What is expected".

ghost use Rattle.std.specs.Prelude.{◌≡◌, ℕ, List, Contains, IfOk, IfSome, OnOk, false, true};
ghost use Rattle.promql_grammar.specs.Misfits.{AreMisfits};
ghost use Rattle.promql_grammar.specs.Symbols.{Symbol, token_kind};
ghost use Rattle.promql_grammar.specs.SymbolsLeft.{symbols_left};
ghost use Rattle.promql_span.specs.ExpectedTokens.{AreExpected, symbols_before};
ghost use Rattle.promql_span.specs.TokensBefore.{AreAlike, GoesOn, IsListed, IsQuery, symbols_of_text};

use crate::placed::PlacedTokens;
use promql_ast::drop_expr;
use promql_grammar::tokens::Lookahead;
use promql_grammar::{ReadError, TokenKind, Tokens, token_kind};
use promql_syntax::grammar::expression::parse_query;
use promql_syntax::parser::MAX_DEPTH;
use promql_token::cursor::Cursor;
use promql_token::ids::{T_IDENTIFIER, T_STRING, TokenId};
use std::alloc::{AllocError, Global};

/// What may come after the first tokens of a text.
#[derive(Debug, Drop)]
pub struct ExpectedTokens {
    /// The kinds of tokens, in the order of their ids.
    pub kinds: Vec<TokenKind>,
    /// Whether the text may end there.
    pub ends: bool,
}

/// What may come after the tokens that begin before the byte `at`: of a text that is rejected, the start of the token that
/// does not fit. The parser reads these tokens once for each kind, with blank strings, so no reading compiles a pattern.
///
/// Where the tokens before `at` would be others without those after them, every kind is expected.
///
/// # Errors
///
/// `AllocError` where an allocation failed.
pub fn expected_tokens(alloc: Global, text: &str, at: usize) -> Result<ExpectedTokens, AllocError>
    ensures { IfOk result (λ e. AreExpected (symbols_before text.now at) e.kinds.items e.ends) }
{
    let blank = blank_before(alloc, text, at)?;
    let blank = blank.as_str();
    let before = has_same_kinds(blank, text, at).then_some(blank);
    let kinds = kinds_after(alloc, before)?;
    let ends = may_end(alloc, before)?;
    Ok(ExpectedTokens { kinds, ends })
}

/// The tokens of a text that begin before the byte `at`, with blank strings and a space after each.
fn blank_before(alloc: Global, text: &str, at: usize) -> Result<String, AllocError> {
    let mut blank = String::new(alloc);
    let mut tokens = Cursor::new(text);
    for place in PlacedTokens::new(text) {
        if let Some((id, token)) = tokens.next()
            && place.start < at
        {
            blank.push_str(blank_text(id, token))?;
            blank.push(' ')?;
        }
    }
    Ok(blank)
}

/// The text of a token in a blank text: a string is blank, and a name is one that is no keyword, whatever comes after it.
fn blank_text(id: TokenId, token: &str) -> &str {
    match id {
        T_STRING => BLANK_STRING,
        T_IDENTIFIER => "a",
        _ => token,
    }
}

/// A string that has no value, since a line feed in quotes has to be escaped. Nothing is built of it, no pattern either.
const BLANK_STRING: &str = "'\n'";

/// Whether the tokens of `before` are of the same kinds as those of the text that begin before the byte `at`.
fn has_same_kinds(before: &str, text: &str, at: usize) -> bool
    ensures { result ≡ true → AreAlike (symbols_before text.now at) (symbols_of_text before.now) }
{
    let mut rest = PlacedTokens::new(before);
    for token in PlacedTokens::new(text) {
        if token.start < at {
            match rest.next() {
                Some(same) if same.id == token.id => {}
                _ => return false,
            }
        }
    }
    rest.next().is_none()
}

/// The kinds of tokens with which those of a text go on; every kind where there is no text.
fn kinds_after(alloc: Global, before: Option<&str>) -> Result<Vec<TokenKind>, AllocError>
    ensures { IfOk result (λ kinds. (front : List Symbol) → IfSome before.entry (λ b. AreAlike front (symbols_of_text b.now))
        → (id : ℕ) → IsListed front kinds.items (token_kind id)) }
{
    let mut kinds = Vec::new(alloc);
    push_expected(alloc, before, TokenKind::Other, &mut kinds)?;
    for id in 0..ID_COUNT {
        match token_kind(id) {
            TokenKind::Other => {}
            kind => push_expected(alloc, before, kind, &mut kinds)?,
        }
    }
    Ok(kinds)
}

/// How many ids of tokens there are.
const ID_COUNT: TokenId = 86;

/// Lists a kind, if the tokens of a text may go on with it.
fn push_expected(
    alloc: Global,
    before: Option<&str>,
    kind: TokenKind,
    kinds: &mut Vec<TokenKind>,
) -> Result<(), AllocError>
    ensures lists { OnOk result ((front : List Symbol) → IfSome before.entry (λ b. AreAlike front (symbols_of_text b.now))
        → IsListed front kinds.new.items kind) }
    ensures keeps { OnOk result ((k : TokenKind) → Contains kinds.old.items k → Contains kinds.new.items k) }
{
    if may_go_on(alloc, before, kind)? {
        kinds.push(kind)?;
    }
    Ok(())
}

/// Whether the tokens of a text may go on with one of this kind.
fn may_go_on(alloc: Global, before: Option<&str>, kind: TokenKind) -> Result<bool, AllocError>
    ensures { IfOk result (λ goes. goes ≡ false → (front : List Symbol) → IfSome before.entry (λ b. AreAlike front (symbols_of_text b.now))
        → GoesOn front kind → ⊥) }
{
    match before {
        Some(text) => goes_on(alloc, text, kind),
        None => Ok(true),
    }
}

/// Whether the parser goes past the tokens of a text and one more of this kind.
fn goes_on(alloc: Global, text: &str, kind: TokenKind) -> Result<bool, AllocError>
    ensures { IfOk result (λ goes. goes ≡ false → (front : List Symbol) → AreAlike front (symbols_of_text text.now)
        → GoesOn front kind → ⊥) }
{
    crate::laws::tokens_are_placed();
    let mut tokens = Tokens::ending_with(text, Lookahead::Token(kind, ""));
    let rejects = rejects(alloc, &mut tokens)?;
    Ok(!rejects || tokens.is_empty())
}

/// Whether a text may end with these tokens.
fn may_end(alloc: Global, before: Option<&str>) -> Result<bool, AllocError>
    ensures { IfOk result (λ ends. ends ≡ false → (front : List Symbol) → IfSome before.entry (λ b. AreAlike front (symbols_of_text b.now))
        → IsQuery front → ⊥) }
{
    match before {
        Some(text) => is_query(alloc, text),
        None => Ok(true),
    }
}

/// Whether the tokens of a text, up to its end or a lexical fault, are a query.
fn is_query(alloc: Global, text: &str) -> Result<bool, AllocError>
    ensures { IfOk result (λ ends. ends ≡ false → (front : List Symbol) → AreAlike front (symbols_of_text text.now)
        → IsQuery front → ⊥) }
{
    crate::laws::tokens_are_placed();
    let mut tokens = Tokens::ending_with(text, Lookahead::End);
    let rejects = rejects(alloc, &mut tokens)?;
    Ok(!rejects)
}

/// Whether the tokens are no expression, of any height. Then those from the first that does not fit are left.
fn rejects(alloc: Global, tokens: &mut Tokens<'_>) -> Result<bool, AllocError>
    ensures { IfOk result (λ rejects. rejects ≡ true → AreMisfits (symbols_left tokens.old) (symbols_left tokens.new)) }
{
    match parse_query(alloc, MAX_DEPTH, tokens) {
        Err(ReadError::Syntax) => Ok(true),
        Err(ReadError::Memory) => Err(AllocError),
        Err(ReadError::TooDeep) | Ok(Err(_)) => Ok(false),
        Ok(Ok(expr)) => {
            drop_expr(Box::into_inner(expr));
            Ok(false)
        }
    }
}
