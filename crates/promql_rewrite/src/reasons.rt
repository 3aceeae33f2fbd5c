//! The first node of a tree that no text has as it is: docs/guide/rewriting.md, "Trees of your own".

ghost use Rattle.std.specs.Prelude.{◌≡◌, ◌↔◌, IsTrue, map, option_map};
ghost use Rattle.std.specs.Duration.{as_nanos};
ghost use Rattle.promql_grammar.specs.Symbols as grammar;
ghost use Rattle.promql_grammar.specs.declared.token_kinds.TokenKind.TheVariants as kind;
ghost use Rattle.promql_label.specs.MatcherViews.{plain_matcher_of, plain_matchers_of};
ghost use Rattle.promql_kind.specs.ModifierViews.{cardinality_of, matching_of};
ghost use Rattle.promql_kind.specs.Modifiers.{many_to_many};
ghost use Rattle.promql_ast.specs.Shifts.{shift_of};
ghost use Rattle.promql_ast.specs.View.{aggregate_tree, binary_tree, call_tree, children_of, extension_tree, matrix_tree, option_tree, paren_tree, selector_of, subquery_tree, tree_of, trees_of, unary_tree};
ghost use Rattle.promql_rewrite.specs.FoundReasons.{Found, FoundAmong, FoundAtRoot, FoundBelow, FoundInModifier, FoundInSelector, FoundMaybe};
ghost use Rattle.promql_rewrite.specs.PrintableConditions.{PrintableOffset, PrintableTime};
ghost use Rattle.promql_rewrite.specs.PrintableNodes.{AreGroups, NoneEmpty, PrintableStep};

use crate::parenthesizing::{fits_left, fits_range, fits_right, fits_sign};
use crate::printable::NotPrintable;
use promql_ast::{
    AggregateExpr, BinaryExpr, Call, Expr, Extension, MatrixSelector, Offset, ParenExpr,
    SubqueryExpr, UnaryExpr, VectorSelector,
};
use promql_grammar::{TokenKind, token_kind};
use promql_kind::{BinModifier, VectorMatchCardinality};
use promql_label::{Matcher, Matchers};
use promql_token::{TokenId, TokenType};
use std::time::Duration;

/// What is wrong with the first node, each before its children, that is not of the language or has an operand that does
/// not fit its place; None if there is no such node.
#[cycle(reason)]
pub(crate) fn first_reason(expr: &Expr) -> Option<NotPrintable>
    ensures { Found result (tree_of expr.now) }
{
    match own_reason(expr) {
        Some(reason) => Some(reason),
        None => reason_below(expr),
    }
}

/// What is wrong with the node itself.
#[tactic(auto, using(promql_ast::proofs::nodes::NodeParts::tree_of_call, promql_ast::proofs::nodes::NodeParts::tree_of_extension, promql_ast::proofs::nodes::NodeParts::tree_of_aggregate))]
fn own_reason(expr: &Expr) -> Option<NotPrintable>
    ensures { FoundAtRoot result (tree_of expr.now) }
{
    match expr {
        Expr::Aggregate(e) => reason_of_aggregate(e),
        Expr::Unary(e) => reason_of_unary(e),
        Expr::Binary(e) => reason_of_binary(e),
        Expr::Paren(_) => None,
        Expr::Subquery(e) => reason_of_subquery(e),
        Expr::NumberLiteral(_) => None,
        Expr::StringLiteral(_) => None,
        Expr::VectorSelector(e) => reason_of_selector(e),
        Expr::MatrixSelector(e) => reason_of_matrix(e),
        Expr::Call(_) => None,
        Expr::Extension(_) => Some(NotPrintable::Extension),
    }
}

fn reason_of_aggregate(node: &AggregateExpr) -> Option<NotPrintable>
    ensures { FoundAtRoot result (aggregate_tree node.now) }
{
    if node.param.is_some() == node.op.is_aggregator_with_param() {
        None
    } else {
        Some(NotPrintable::Parameter)
    }
}

fn reason_of_unary(node: &UnaryExpr) -> Option<NotPrintable>
    ensures { FoundAtRoot result (unary_tree node.now) }
{
    if fits_sign(&node.expr) {
        None
    } else {
        Some(NotPrintable::Operand)
    }
}

fn reason_of_binary(node: &BinaryExpr) -> Option<NotPrintable>
    ensures { FoundAtRoot result (binary_tree node.now) }
{
    if !is_binary_operator(node.op.id()) {
        return Some(NotPrintable::Operator);
    }
    if let Some(reason) = reason_of_modifier(node.op, &node.modifier) {
        return Some(reason);
    }
    if !fits_left(node.op.id(), &node.lhs) {
        return Some(NotPrintable::LeftSide);
    }
    if !fits_right(node.op.id(), &node.rhs) {
        return Some(NotPrintable::RightSide);
    }
    None
}

/// Whether the token is an operator of binary expressions.
fn is_binary_operator(op: TokenId) -> bool
    ensures { IsTrue result ↔ (grammar.token_kind op ≡ kind.Operator op) }
{
    promql_grammar::laws::equal_token_kinds();
    token_kind(op) == TokenKind::Operator(op)
}

/// What is wrong with a modifier of the operator.
fn reason_of_modifier(op: TokenType, modifier: &Option<BinModifier>) -> Option<NotPrintable>
    ensures { FoundInModifier result op (option_map matching_of modifier.now) }
{
    let Some(modifier) = modifier else {
        return None;
    };
    if modifier.card.is_grouping() && modifier.matching.is_none() {
        return Some(NotPrintable::Grouping);
    }
    if is_many_to_many(&modifier.card) && !op.is_set_operator() {
        return Some(NotPrintable::Cardinality);
    }
    None
}

fn is_many_to_many(card: &VectorMatchCardinality) -> bool
    ensures { IsTrue result ↔ (cardinality_of card.now ≡ many_to_many) }
{
    matches!(card, VectorMatchCardinality::ManyToMany)
}

fn reason_of_subquery(node: &SubqueryExpr) -> Option<NotPrintable>
    ensures { FoundAtRoot result (subquery_tree node.now) }
{
    if !fits_range(&node.expr) {
        return Some(NotPrintable::Subqueried);
    }
    if !(is_time(&node.range) && is_step(&node.step) && is_offset(&node.offset)) {
        return Some(NotPrintable::Time);
    }
    None
}

fn reason_of_matrix(node: &MatrixSelector) -> Option<NotPrintable>
    ensures { FoundAtRoot result (matrix_tree node.now) }
{
    if let Some(reason) = reason_of_selector(&node.vs) {
        return Some(reason);
    }
    if !is_time(&node.range) {
        return Some(NotPrintable::Time);
    }
    None
}

fn reason_of_selector(node: &VectorSelector) -> Option<NotPrintable>
    ensures { FoundInSelector result (selector_of node.now) }
{
    if !are_grouped(&node.matchers) {
        return Some(NotPrintable::Groups);
    }
    if !is_offset(&node.offset) {
        return Some(NotPrintable::Time);
    }
    None
}

/// Whether there are no or-groups, or two at least with matchers in each and none beside them.
fn are_grouped(matchers: &Matchers) -> bool
    ensures { IsTrue result ↔ AreGroups (plain_matchers_of matchers.now) }
{
    if matchers.or_matchers.is_empty() {
        return true;
    }
    matchers.matchers.is_empty()
        && matchers.or_matchers.len() > 1
        && have_matchers(&matchers.or_matchers)
}

/// Whether each group has matchers.
fn have_matchers(groups: &[Vec<Matcher>]) -> bool
    ensures { IsTrue result ↔ NoneEmpty (map (λ g. map plain_matcher_of g.items) groups.now) }
{
    for group in groups {
        if group.is_empty() {
            return false;
        }
    }
    true
}

/// Whether the time is longer than nothing, as those that are read.
fn is_time(time: &Duration) -> bool
    ensures { IsTrue result ↔ PrintableTime (as_nanos time.now) }
{
    time.as_secs() > 0 || time.subsec_nanos() > 0
}

fn is_step(step: &Option<Duration>) -> bool
    ensures { IsTrue result ↔ PrintableStep (option_map as_nanos step.now) }
{
    match step {
        Some(step) => is_time(step),
        None => true,
    }
}

fn is_offset(offset: &Option<Offset>) -> bool
    ensures { IsTrue result ↔ PrintableOffset (option_map shift_of offset.now) }
{
    match offset {
        Some(Offset::Pos(time)) => is_time(time),
        Some(Offset::Neg(time)) => is_time(time),
        None => true,
    }
}

/// What is wrong with the first such node below this one.
#[cycle(reason)]
#[tactic(auto, using(promql_ast::proofs::nodes::NodeParts::tree_of_call, promql_ast::proofs::nodes::NodeParts::tree_of_extension, promql_ast::proofs::nodes::NodeParts::tree_of_aggregate))]
fn reason_below(expr: &Expr) -> Option<NotPrintable>
    ensures { FoundBelow result (tree_of expr.now) }
{
    match expr {
        Expr::Aggregate(e) => reason_in_aggregate(e),
        Expr::Unary(e) => reason_in_unary(e),
        Expr::Binary(e) => reason_in_binary(e),
        Expr::Paren(e) => reason_in_paren(e),
        Expr::Subquery(e) => reason_in_subquery(e),
        Expr::NumberLiteral(_) => None,
        Expr::StringLiteral(_) => None,
        Expr::VectorSelector(_) => None,
        Expr::MatrixSelector(_) => None,
        Expr::Call(e) => reason_in_call(e),
        Expr::Extension(e) => reason_in_extension(e),
    }
}

#[cycle(reason)]
fn reason_in_aggregate(node: &AggregateExpr) -> Option<NotPrintable>
    ensures { FoundBelow result (aggregate_tree node.now) }
{
    match reason_in_param(&node.param) {
        Some(reason) => Some(reason),
        None => first_reason(&node.expr),
    }
}

#[cycle(reason)]
fn reason_in_param(param: &Option<Box<Expr>>) -> Option<NotPrintable>
    ensures { FoundMaybe result (option_tree param.now) }
{
    match param {
        Some(param) => first_reason(param),
        None => None,
    }
}

#[cycle(reason)]
fn reason_in_unary(node: &UnaryExpr) -> Option<NotPrintable>
    ensures { FoundBelow result (unary_tree node.now) }
{
    first_reason(&node.expr)
}

#[cycle(reason)]
fn reason_in_binary(node: &BinaryExpr) -> Option<NotPrintable>
    ensures { FoundBelow result (binary_tree node.now) }
{
    match first_reason(&node.lhs) {
        Some(reason) => Some(reason),
        None => first_reason(&node.rhs),
    }
}

#[cycle(reason)]
fn reason_in_paren(node: &ParenExpr) -> Option<NotPrintable>
    ensures { FoundBelow result (paren_tree node.now) }
{
    first_reason(&node.expr)
}

#[cycle(reason)]
fn reason_in_subquery(node: &SubqueryExpr) -> Option<NotPrintable>
    ensures { FoundBelow result (subquery_tree node.now) }
{
    first_reason(&node.expr)
}

#[cycle(reason)]
fn reason_in_call(node: &Call) -> Option<NotPrintable>
    ensures { FoundBelow result (call_tree node.now) }
{
    reason_in_args(node.args.args.as_slice())
}

#[cycle(reason)]
fn reason_in_args(args: &[Box<Expr>]) -> Option<NotPrintable>
    ensures { FoundAmong result (trees_of args.now) }
{
    for arg in args {
        if let Some(reason) = first_reason(arg) {
            return Some(reason);
        }
    }
    None
}

#[cycle(reason)]
fn reason_in_extension(node: &Extension) -> Option<NotPrintable>
    ensures { FoundBelow result (extension_tree node.now) }
{
    reason_in_children(node.children.as_slice())
}

#[cycle(reason)]
fn reason_in_children(children: &[Expr]) -> Option<NotPrintable>
    ensures { FoundAmong result (children_of children.now) }
{
    for child in children {
        if let Some(reason) = first_reason(child) {
            return Some(reason);
        }
    }
    None
}
