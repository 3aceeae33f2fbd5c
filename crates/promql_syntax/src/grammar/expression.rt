//! The rule `expression`, by precedence climbing.

ghost use Rattle.std.specs.Prelude.{◌≡◌, ℕ, ◌+◌, ◌<◌, ◌≤◌, ◌^◌, true, length, IfErr, IfOk, IsErrOf, OnOk};
ghost use Rattle.promql_grammar.specs.Parsing.{parse_expression, parse_unary};
ghost use Rattle.promql_grammar.specs.Symbols.{begins};
ghost use Rattle.promql_grammar.specs.SymbolsLeft.{CountsTaken, IsNoLonger, symbols_left, token_count};
ghost use Rattle.promql_grammar.specs.OperatorTokens.{HasNoUnaryOperator};
ghost use Rattle.promql_grammar.specs.Failures.{Reads};
ghost use Rattle.promql_syntax.specs.ParsesExpr.{GivesModifier, ParsesExpr, ParsesPostfixes, ReadsBase};
ghost use Rattle.promql_syntax.specs.ParsesQuery.{HasPlace, ParsesQuery};

use crate::grammar::aggregate::parse_aggregate;
use crate::grammar::atom::parse_atom;
use crate::grammar::build::{build_binary, build_paren, build_postfix, build_unary};
use crate::grammar::build_error::BuildError;
use crate::grammar::call::parse_call;
use crate::grammar::modifier::{parse_modifier, starts_modifier};
use crate::grammar::parsed::{ParsedExpr, Pending};
use crate::grammar::place::Extent;
use crate::grammar::postfix::{parse_postfix, starts_postfix};
use crate::parser::MAX_DEPTH;
use promql_ast::Expr;
use promql_grammar::precedence::{
    MIN_PRECEDENCE, UNARY_PRECEDENCE, eat_operator, eat_unary_operator, right_precedence,
};
use promql_grammar::{ReadError, TokenKind, Tokens};
use promql_kind::BinModifier;
use std::alloc::Global;

/// Parses an expression of height at most `max_height`, up to an operator of a precedence below
/// `min_precedence`. It asks `regex` about patterns where `builds`: not after a fault, which comes first.
#[cycle(parser)]
pub(crate) fn parse_expression(
    alloc: Global,
    max_height: usize,
    min_precedence: usize,
    builds: bool,
    tokens: &mut Tokens<'_>,
) -> Result<ParsedExpr, ReadError>
    requires { max_height ≤ MAX_DEPTH }
    ensures gives { Reads (ParsesExpr builds (token_count tokens.old)) (symbols_left tokens.new)
        (parse_expression max_height min_precedence (symbols_left tokens.old)) result }
    ensures low { IfOk result (λ parsed. parsed.height ≤ max_height) }
    ensures short { OnOk result (IsNoLonger tokens.new tokens.old) }
    ensures counts { OnOk result (CountsTaken tokens.old tokens.new) }
    ensures memory { IsErrOf result ReadError.Memory → begins (symbols_left tokens.old) ≡ true }
{
    if max_height == 0 {
        return Err(ReadError::TooDeep);
    }
    let below = max_height - 1;
    let start = tokens.index();
    let mut left = parse_unary(alloc, below, builds, tokens)?;
    let mut operator = tokens.index();
    while let Some(op) = eat_operator(tokens, min_precedence) {
        if below < left.height {
            return Err(ReadError::TooDeep);
        }
        let modifier_start = tokens.index();
        let modifier = parse_optional_modifier(alloc, tokens)?;
        let right_start = tokens.index();
        let right_builds = left.goes_on(builds);
        let right = parse_expression(alloc, below, right_precedence(op), right_builds, tokens)?;
        let extent = Extent {
            start,
            operator,
            modifier: modifier_start,
            right: right_start,
            end: tokens.index(),
        };
        left = build_binary(alloc, op, left, modifier, right, &extent)?;
        operator = extent.end;
    }
    Ok(left)
}

/// Parses an operand with the unary operators before it, or with the postfixes after it, of height
/// at most `max_height + 1`.
#[cycle(parser)]
fn parse_unary(
    alloc: Global,
    max_height: usize,
    builds: bool,
    tokens: &mut Tokens<'_>,
) -> Result<ParsedExpr, ReadError>
    requires { max_height ≤ MAX_DEPTH }
    ensures gives { (k : ℕ) → length (symbols_left tokens.old) ≤ k → Reads (ParsesExpr builds (token_count tokens.old)) (symbols_left tokens.new)
        (parse_unary (parse_expression max_height) k (max_height + 1) (symbols_left tokens.old)) result }
    ensures low { IfOk result (λ parsed. parsed.height ≤ max_height + 1) }
    ensures short { OnOk result (IsNoLonger tokens.new tokens.old) }
    ensures counts { OnOk result (CountsTaken tokens.old tokens.new) }
    ensures memory { IsErrOf result ReadError.Memory → begins (symbols_left tokens.old) ≡ true }
{
    let start = tokens.index();
    if let Some(op) = eat_unary_operator(tokens) {
        let operand_start = tokens.index();
        let operand = parse_expression(alloc, max_height, UNARY_PRECEDENCE, builds, tokens)?;
        let extent = Extent::sign(start, operand_start, tokens.index());
        return Ok(build_unary(alloc, op, operand, &extent)?);
    }
    let base = parse_postfix_base(alloc, max_height, builds, tokens)?;
    parse_postfixes(alloc, max_height + 1, builds, base, start, tokens)
}

/// Parses an operand without unary operators, up to its postfixes.
#[cycle(parser)]
fn parse_postfix_base(
    alloc: Global,
    max_height: usize,
    builds: bool,
    tokens: &mut Tokens<'_>,
) -> Result<ParsedExpr, ReadError>
    requires max_height { max_height ≤ MAX_DEPTH }
    requires unsigned { HasNoUnaryOperator (symbols_left tokens.now) }
    ensures gives { ReadsBase builds (token_count tokens.old) (symbols_left tokens.new)
        (λ k n. parse_unary (parse_expression max_height) k n (symbols_left tokens.old)) result }
    ensures low { IfOk result (λ parsed. parsed.height ≤ max_height + 1) }
    ensures short { OnOk result (IsNoLonger tokens.new tokens.old) }
    ensures counts { OnOk result (CountsTaken tokens.old tokens.new) }
    ensures memory { IsErrOf result ReadError.Memory → begins (symbols_left tokens.old) ≡ true }
{
    let Some((kind, text)) = tokens.peek() else {
        return Err(ReadError::Syntax);
    };
    if kind.may_be_called() {
        return parse_call(alloc, max_height, builds, kind, text, tokens);
    }
    match kind {
        TokenKind::LeftParen => {
            tokens.bump();
            let inner = parse_expression(alloc, max_height, MIN_PRECEDENCE, builds, tokens)?;
            tokens.expect(TokenKind::RightParen)?;
            Ok(build_paren(alloc, inner)?)
        }
        TokenKind::Aggregator(op) => {
            let start = tokens.index();
            tokens.bump();
            parse_aggregate(alloc, max_height, builds, op, text, start, tokens)
        }
        _ => parse_atom(alloc, builds, kind, text, tokens),
    }
}

/// Parses the modifier of an operator, if there is one.
fn parse_optional_modifier(
    alloc: Global,
    tokens: &mut Tokens<'_>,
) -> Result<Pending<BinModifier>, ReadError>
    ensures gives { GivesModifier (symbols_left tokens.old) (symbols_left tokens.new) result }
    ensures short { OnOk result (IsNoLonger tokens.new tokens.old) }
    ensures counts { OnOk result (CountsTaken tokens.old tokens.new) }
{
    match tokens.peek() {
        Some((kind, _)) if starts_modifier(kind) => parse_boxed_modifier(alloc, tokens),
        _ => Ok(None),
    }
}

/// Parses a modifier into a box, where it waits for the right side. Most operators have none, so
/// its frame is kept out of theirs.
#[inline(never)]
fn parse_boxed_modifier(
    alloc: Global,
    tokens: &mut Tokens<'_>,
) -> Result<Pending<BinModifier>, ReadError>
    ensures gives { GivesModifier (symbols_left tokens.old) (symbols_left tokens.new) result }
    ensures short { OnOk result (IsNoLonger tokens.new tokens.old) }
    ensures counts { OnOk result (CountsTaken tokens.old tokens.new) }
{
    match parse_modifier(alloc, tokens)? {
        Ok(None) => Ok(None),
        Ok(Some(modifier)) => Ok(Some(Box::new(alloc, Ok(modifier))?)),
        Err(error) => Ok(Some(Box::new(alloc, Err(error))?)),
    }
}

/// Parses the postfixes of a base, whose first token has the index `start`. The whole is of height at most `max_height`.
fn parse_postfixes(
    alloc: Global,
    max_height: usize,
    builds: bool,
    base: ParsedExpr,
    start: usize,
    tokens: &mut Tokens<'_>,
) -> Result<ParsedExpr, ReadError>
    requires max_height { max_height ≤ MAX_DEPTH + 1 }
    requires low_base { base.height ≤ max_height }
    ensures gives { ParsesPostfixes builds (token_count tokens.old) max_height base (symbols_left tokens.old)
        (symbols_left tokens.new)
        result }
    ensures low { IfOk result (λ parsed. parsed.height ≤ max_height) }
    ensures short { OnOk result (IsNoLonger tokens.new tokens.old) }
    ensures counts { OnOk result (CountsTaken tokens.old tokens.new) }
{
    match tokens.peek() {
        Some((kind, _)) if starts_postfix(kind) => parse_some_postfixes(
            alloc, max_height, builds, base, start, tokens,
        ),
        _ => Ok(base),
    }
}

/// Parses the postfixes of a base that has one. Most have none, so its frame is kept out of theirs.
#[inline(never)]
fn parse_some_postfixes(
    alloc: Global,
    max_height: usize,
    builds: bool,
    base: ParsedExpr,
    start: usize,
    tokens: &mut Tokens<'_>,
) -> Result<ParsedExpr, ReadError>
    requires max_height { max_height ≤ MAX_DEPTH + 1 }
    requires low_base { base.height ≤ max_height }
    ensures gives { ParsesPostfixes builds (token_count tokens.old) max_height base (symbols_left tokens.old)
        (symbols_left tokens.new)
        result }
    ensures low { IfOk result (λ parsed. parsed.height ≤ max_height) }
    ensures short { OnOk result (IsNoLonger tokens.new tokens.old) }
    ensures counts { OnOk result (CountsTaken tokens.old tokens.new) }
{
    let mut parsed = base;
    let mut postfix_start = tokens.index();
    while let Some(postfix) = parse_postfix(alloc, tokens)? {
        if max_height < parsed.height + postfix.added_height {
            return Err(ReadError::TooDeep);
        }
        let extent = Extent::postfix(start, postfix_start, tokens.index());
        parsed = build_postfix(alloc, parsed, postfix, &extent)?;
        postfix_start = extent.end;
    }
    Ok(parsed)
}

/// Parses all tokens as one expression of height at most `max_height`. Where it fails with `Syntax`, those from the first
/// that does not fit are left.
pub fn parse_query(
    alloc: Global,
    max_height: usize,
    tokens: &mut Tokens<'_>,
) -> Result<Result<Box<Expr>, Box<BuildError>>, ReadError>
    requires { max_height ≤ MAX_DEPTH }
    ensures whole { ParsesQuery max_height (symbols_left tokens.old) (symbols_left tokens.new)
        result }
    ensures place { IfOk result (λ value. IfErr value (λ error. token_count tokens.old < 2 ^ 64
        → HasPlace (token_count tokens.old) (symbols_left tokens.old) error.value)) }
    ensures memory { IsErrOf result ReadError.Memory → begins (symbols_left tokens.old) ≡ true }
{
    let parsed = parse_expression(alloc, max_height, MIN_PRECEDENCE, true, tokens)?;
    if !tokens.is_empty() {
        return Err(ReadError::Syntax);
    }
    let ParsedExpr { height: _, value } = parsed;
    Ok(value)
}
