//! The rules `call` and `arguments`.

ghost use Rattle.std.specs.Prelude.{◌≡◌, ◌∷◌, ◌+◌, ◌≤◌, true, drop, IfOk, OnOk};
ghost use Rattle.promql_grammar.specs.Parsing.{parse_arguments, parse_call, parse_expression};
ghost use Rattle.promql_grammar.specs.Symbols.{may_be_called, symbol};
ghost use Rattle.promql_grammar.specs.SymbolsLeft.{CountsTaken, IsNoLonger, symbols_left, token_count};
ghost use Rattle.promql_grammar.specs.Failures.{Reads};
ghost use Rattle.promql_syntax.specs.ParsesExpr.{ParsesArgs, ReadsBase};

use crate::grammar::atom::parse_selector;
use crate::grammar::build::{append_argument, build_call, empty_arguments};
use crate::grammar::expression::parse_expression;
use crate::grammar::parsed::{ParsedArgs, ParsedExpr};
use crate::grammar::place::Extent;
use crate::parser::MAX_DEPTH;
use promql_grammar::precedence::MIN_PRECEDENCE;
use promql_grammar::{ReadError, TokenKind, Tokens};
use std::alloc::Global;

/// Parses a call, or a selector, which begins with the name that is left first.
#[cycle(parser)]
pub fn parse_call(
    alloc: Global,
    max_height: usize,
    builds: bool,
    kind: TokenKind,
    name: &str,
    tokens: &mut Tokens<'_>,
) -> Result<ParsedExpr, ReadError>
    requires max_height { max_height ≤ MAX_DEPTH }
    requires called { may_be_called kind ≡ true }
    requires front { symbols_left tokens.now ≡ symbol kind name.now ∷ drop 1 (symbols_left tokens.now) }
    ensures gives { ReadsBase builds (token_count tokens.old) (symbols_left tokens.new)
        (λ k n. parse_call (parse_expression max_height) k n kind name.now (drop 1 (symbols_left tokens.old))) result }
    ensures low { IfOk result (λ parsed. parsed.height ≤ max_height + 1) }
    ensures short { OnOk result (IsNoLonger tokens.new tokens.old) }
    ensures counts { OnOk result (CountsTaken tokens.old tokens.new) }
{
    let start = tokens.index();
    tokens.bump();
    if !tokens.eat(TokenKind::LeftParen) {
        return parse_selector(alloc, builds, kind, name, start, tokens);
    }
    let args = parse_arguments(alloc, max_height, builds, tokens)?;
    let extent = Extent::atom(start, tokens.index());
    Ok(build_call(alloc, name, args, &extent)?)
}

/// Parses arguments, after the opening parenthesis.
#[cycle(parser)]
pub fn parse_arguments(
    alloc: Global,
    max_height: usize,
    builds: bool,
    tokens: &mut Tokens<'_>,
) -> Result<ParsedArgs, ReadError>
    requires { max_height ≤ MAX_DEPTH }
    ensures gives { Reads (λ args. ParsesArgs builds (token_count tokens.old) args (symbols_left tokens.old)) (symbols_left tokens.new)
        (parse_arguments (parse_expression max_height) (symbols_left tokens.old)) result }
    ensures low { IfOk result (λ args. args.height ≤ max_height) }
    ensures short { OnOk result (IsNoLonger tokens.new tokens.old) }
    ensures counts { OnOk result (CountsTaken tokens.old tokens.new) }
{
    let mut args = empty_arguments(alloc);
    if tokens.eat(TokenKind::RightParen) {
        return Ok(args);
    }
    let first = parse_expression(alloc, max_height, MIN_PRECEDENCE, builds, tokens)?;
    args = append_argument(args, first)?;
    while tokens.eat(TokenKind::Comma) {
        let next_builds = args.goes_on(builds);
        let next = parse_expression(alloc, max_height, MIN_PRECEDENCE, next_builds, tokens)?;
        args = append_argument(args, next)?;
    }
    tokens.expect(TokenKind::RightParen)?;
    Ok(args)
}
