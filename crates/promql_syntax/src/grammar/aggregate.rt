//! The rule `aggregation`.

ghost use Rattle.std.specs.Prelude.{◌+◌, ◌≤◌, IfOk, OnOk};
ghost use Rattle.promql_grammar.specs.Parsing.{parse_aggregate, parse_expression};
ghost use Rattle.promql_grammar.specs.SymbolsLeft.{CountsTaken, IsNoLonger, symbols_left, token_count};
ghost use Rattle.promql_syntax.specs.ParsesExpr.{ReadsBase};

use crate::grammar::atom::parse_selector;
use crate::grammar::build::build_aggregate;
use crate::grammar::call::parse_arguments;
use crate::grammar::grouping::{parse_grouping, starts_grouping};
use crate::grammar::parsed::ParsedExpr;
use crate::grammar::place::Extent;
use crate::parser::MAX_DEPTH;
use promql_grammar::{ReadError, TokenKind, Tokens};
use promql_token::TokenId;
use std::alloc::Global;

/// Parses an aggregation, or a selector of that name, after the aggregator.
#[inline(always)]
#[cycle(parser)]
pub fn parse_aggregate(
    alloc: Global,
    max_height: usize,
    builds: bool,
    op: TokenId,
    name: &str,
    start: usize,
    tokens: &mut Tokens<'_>,
) -> Result<ParsedExpr, ReadError>
    requires { max_height ≤ MAX_DEPTH }
    ensures gives { ReadsBase builds (token_count tokens.old) (symbols_left tokens.new)
        (λ k n. parse_aggregate (parse_expression max_height) k n op name.now (symbols_left tokens.old)) result }
    ensures low { IfOk result (λ parsed. parsed.height ≤ max_height + 1) }
    ensures short { OnOk result (IsNoLonger tokens.new tokens.old) }
    ensures counts { OnOk result (CountsTaken tokens.old tokens.new) }
{
    if tokens.eat(TokenKind::LeftParen) {
        let args = parse_arguments(alloc, max_height, builds, tokens)?;
        let grouping = parse_grouping(alloc, tokens)?;
        let extent = Extent::atom(start, tokens.index());
        return Ok(build_aggregate(alloc, op, grouping, args, &extent)?);
    }
    if !starts_grouping(tokens) {
        return parse_selector(
            alloc,
            builds,
            TokenKind::Aggregator(op),
            name,
            start,
            tokens,
        );
    }
    let grouping = parse_grouping(alloc, tokens)?;
    tokens.expect(TokenKind::LeftParen)?;
    let args = parse_arguments(alloc, max_height, builds, tokens)?;
    let extent = Extent::atom(start, tokens.index());
    Ok(build_aggregate(alloc, op, grouping, args, &extent)?)
}
