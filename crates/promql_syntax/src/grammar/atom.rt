//! Operands that hold no expression: numbers, durations, strings and selectors.

ghost use Rattle.std.specs.Prelude.{◌≡◌, ◌∷◌, ◌<◌, true, drop, IfOk, IsErrOf, OnOk};
ghost use Rattle.promql_grammar.specs.Parsing.{parse_selector};
ghost use Rattle.promql_grammar.specs.Symbols.{begins, may_be_name, symbol};
ghost use Rattle.promql_grammar.specs.declared.token_kinds.TokenKind as kinds;
ghost use Rattle.promql_grammar.specs.SymbolsLeft.{CountsTaken, IsNoLonger, IsShorter, symbols_left, token_count};
ghost use Rattle.promql_syntax.specs.ParsesExpr.{ReadsBase};
ghost use Rattle.promql_syntax.specs.Atoms.{parse_atom, parse_named, parse_selector_braces};

use crate::grammar::build_atom::{
    build_braces, build_duration, build_name, build_number, build_selector, build_string,
};
use crate::grammar::parsed::ParsedExpr;
use crate::grammar::place::Extent;
use crate::grammar::selector::parse_braces;
use promql_grammar::{ReadError, TokenKind, Tokens};
use std::alloc::Global;

/// Parses a number, a duration, a string or a selector, which begins with the token that is left first.
#[inline(never)]
pub fn parse_atom(
    alloc: Global,
    builds: bool,
    kind: TokenKind,
    text: &str,
    tokens: &mut Tokens<'_>,
) -> Result<ParsedExpr, ReadError>
    requires { symbols_left tokens.now ≡ symbol kind text.now ∷ drop 1 (symbols_left tokens.now) }
    ensures gives { ReadsBase builds (token_count tokens.old) (symbols_left tokens.new)
        (λ k n. parse_atom k n kind text.now (drop 1 (symbols_left tokens.old))) result }
    ensures low { IfOk result (λ parsed. parsed.height ≡ 1) }
    ensures short { OnOk result (IsNoLonger tokens.new tokens.old) }
    ensures counts { OnOk result (CountsTaken tokens.old tokens.new) }
    ensures memory { IsErrOf result ReadError.Memory → begins (symbols_left tokens.old) ≡ true }
{
    let start = tokens.index();
    match kind {
        TokenKind::Number => {
            tokens.bump();
            Ok(build_number(alloc, text, start)?)
        }
        TokenKind::Duration => {
            tokens.bump();
            Ok(build_duration(alloc, text, start)?)
        }
        TokenKind::String => {
            tokens.bump();
            Ok(build_string(alloc, text, start)?)
        }
        TokenKind::LeftBrace => {
            tokens.bump();
            let matchers = parse_braces(alloc, builds, tokens)?;
            let extent = Extent::atom(start, tokens.index());
            Ok(build_braces(alloc, matchers, &extent)?)
        }
        _ => parse_named(alloc, builds, kind, text, tokens),
    }
}

/// Parses a selector, which begins with the token that is left first, if that is a name.
fn parse_named(
    alloc: Global,
    builds: bool,
    kind: TokenKind,
    name: &str,
    tokens: &mut Tokens<'_>,
) -> Result<ParsedExpr, ReadError>
    requires { symbols_left tokens.now ≡ symbol kind name.now ∷ drop 1 (symbols_left tokens.now) }
    ensures gives { ReadsBase builds (token_count tokens.old) (symbols_left tokens.new)
        (λ k n. parse_named k n kind name.now (drop 1 (symbols_left tokens.old))) result }
    ensures low { IfOk result (λ parsed. parsed.height ≡ 1) }
    ensures short { OnOk result (IsNoLonger tokens.new tokens.old) }
    ensures counts { OnOk result (CountsTaken tokens.old tokens.new) }
    ensures memory { IsErrOf result ReadError.Memory → may_be_name kind ≡ true }
{
    if !kind.may_be_name() {
        return Err(ReadError::Syntax);
    }
    let start = tokens.index();
    tokens.bump();
    parse_selector(alloc, builds, kind, name, start, tokens)
}

/// Parses a selector, after its name, whose first token has the index `start`.
#[inline(always)]
pub fn parse_selector(
    alloc: Global,
    builds: bool,
    kind: TokenKind,
    name: &str,
    start: usize,
    tokens: &mut Tokens<'_>,
) -> Result<ParsedExpr, ReadError>
    requires { may_be_name kind ≡ true }
    ensures gives { ReadsBase builds (token_count tokens.old) (symbols_left tokens.new)
        (λ k n. parse_selector k n kind name.now (symbols_left tokens.old)) result }
    ensures low { IfOk result (λ parsed. parsed.height ≡ 1) }
    ensures short { OnOk result (IsNoLonger tokens.new tokens.old) }
    ensures counts { OnOk result (CountsTaken tokens.old tokens.new) }
{
    if tokens.eat(TokenKind::LeftBrace) {
        return parse_selector_braces(alloc, builds, name, start, tokens);
    }
    Ok(build_name(alloc, name)?)
}

/// Parses the matchers of a selector, after its name and the opening brace.
#[inline(never)]
fn parse_selector_braces(
    alloc: Global,
    builds: bool,
    name: &str,
    start: usize,
    tokens: &mut Tokens<'_>,
) -> Result<ParsedExpr, ReadError>
    ensures gives { (kind : kinds.TokenKind) → ReadsBase builds (token_count tokens.old) (symbols_left tokens.new)
        (λ k n. parse_selector_braces k n kind name.now (symbols_left tokens.old)) result }
    ensures low { IfOk result (λ parsed. parsed.height ≡ 1) }
    ensures short { OnOk result (IsShorter tokens.new tokens.old) }
    ensures counts { OnOk result (CountsTaken tokens.old tokens.new) }
{
    let matchers = parse_braces(alloc, builds, tokens)?;
    let extent = Extent::atom(start, tokens.index());
    Ok(build_selector(alloc, name, matchers, &extent)?)
}
