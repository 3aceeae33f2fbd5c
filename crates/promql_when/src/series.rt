//! Which series a query may read: docs/reference/when.md, "Series that a query may read".

ghost use Rattle.std.specs.Prelude.{◌≡◌, IfOk, map};
ghost use Rattle.std.specs.List.{list_any};
ghost use Rattle.promql_label.specs.MatcherViews.{plain_matcher_of, plain_matchers_of};
ghost use Rattle.promql_kind.specs.Functions.{signature_of};
ghost use Rattle.promql_ast.specs.View.{aggregate_tree, binary_tree, call_tree, children_of, option_tree, selector_of, tree_of, trees_of};
ghost use Rattle.promql_rewrite.specs.Selecting.{allow_all, allows, matchers_select, selects};
ghost use Rattle.promql_when.specs.MayRead as spec;
ghost use Rattle.promql_when.specs.Reads.{target_info};

use crate::reading::is_bare_info;
use promql_ast::{AggregateExpr, BinaryExpr, Call, Expr, VectorSelector};
use promql_label::{METRIC_NAME, Matcher, Matchers};
use std::alloc::{AllocError, Global};

/// A label of a series.
#[derive(Clone, Copy, Debug, PartialEq, Eq)]
pub struct SeriesLabel<'a> {
    /// The label's name: `__name__` of the name of the metric.
    pub name: &'a str,
    /// Its value.
    pub value: &'a str,
}

/// The value of a label, or nothing where the series does not have it.
fn value_of<'a>(series: &[SeriesLabel<'a>], name: &str) -> &'a str
    ensures { result.now ≡ spec.series_of series.now name.now }
{
    let mut rest = series;
    while let [label, others @ ..] = rest {
        if label.name == name {
            return label.value;
        }
        rest = others;
    }
    ""
}

fn allows(alloc: Global, matcher: &Matcher, series: &[SeriesLabel<'_>]) -> Result<bool, AllocError>
    ensures { IfOk result (λ is. is ≡ allows (plain_matcher_of matcher.now) (spec.series_of series.now)) }
{
    matcher.is_match(alloc, value_of(series, matcher.name.as_str()))
}

fn allow_all(
    alloc: Global,
    matchers: &[Matcher],
    series: &[SeriesLabel<'_>],
) -> Result<bool, AllocError>
    ensures { IfOk result (λ is. is ≡ allow_all (map plain_matcher_of matchers.now) (spec.series_of series.now)) }
{
    let mut rest = matchers;
    while let [matcher, others @ ..] = rest {
        if !allows(alloc, matcher, series)? {
            return Ok(false);
        }
        rest = others;
    }
    Ok(true)
}

/// Whether all matchers of some group allow the series.
fn some_group_allows(
    alloc: Global,
    groups: &[Vec<Matcher>],
    series: &[SeriesLabel<'_>],
) -> Result<bool, AllocError>
    ensures { IfOk result (λ is. is ≡ list_any (λ g. allow_all g (spec.series_of series.now)) (map (λ g. map plain_matcher_of g.items) groups.now)) }
{
    let mut rest = groups;
    while let [group, others @ ..] = rest {
        if allow_all(alloc, group.as_slice(), series)? {
            return Ok(true);
        }
        rest = others;
    }
    Ok(false)
}

fn matchers_select(
    alloc: Global,
    matchers: &Matchers,
    series: &[SeriesLabel<'_>],
) -> Result<bool, AllocError>
    ensures { IfOk result (λ is. is ≡ matchers_select (plain_matchers_of matchers.now) (spec.series_of series.now)) }
{
    if !allow_all(alloc, matchers.matchers.as_slice(), series)? {
        return Ok(false);
    }
    let groups = matchers.or_matchers.as_slice();
    if groups.is_empty() {
        return Ok(true);
    }
    some_group_allows(alloc, groups, series)
}

/// Whether the series has the selector's name, if that has one.
fn has_name(selector: &VectorSelector, series: &[SeriesLabel<'_>]) -> bool
    ensures { result ≡ spec.has_name (selector_of selector.now) (spec.series_of series.now) }
{
    match &selector.name {
        Some(name) => name.as_str() == value_of(series, METRIC_NAME),
        None => true,
    }
}

/// Whether the selector selects a series with these labels. Of two labels with one name the first counts. Its patterns are compiled, unless
/// they are prepared (`Matchers::prepare`).
///
/// # Errors
///
/// `AllocError` where an allocation failed.
pub fn selects(
    alloc: Global,
    selector: &VectorSelector,
    series: &[SeriesLabel<'_>],
) -> Result<bool, AllocError>
    ensures { IfOk result (λ is. is ≡ selects (selector_of selector.now) (spec.series_of series.now)) }
{
    if has_name(selector, series) {
        matchers_select(alloc, &selector.matchers, series)
    } else {
        Ok(false)
    }
}

/// Whether the query may read a series with these labels: some selector of it selects the series. Of two labels with one name the first
/// counts. What any other series has changes nothing of what the query sees.
///
/// # Errors
///
/// `AllocError` where an allocation failed.
#[cycle(may_read)]
#[tactic(auto, using(promql_ast::proofs::nodes::NodeParts::tree_of_call, promql_ast::proofs::nodes::NodeParts::tree_of_extension, promql_ast::proofs::nodes::NodeParts::tree_of_aggregate))]
pub fn may_read(alloc: Global, expr: &Expr, series: &[SeriesLabel<'_>]) -> Result<bool, AllocError>
    ensures { IfOk result (λ may. may ≡ spec.may_read (spec.series_of series.now) (tree_of expr.now)) }
{
    match expr {
        Expr::Aggregate(e) => aggregate_may_read(alloc, e, series),
        Expr::Unary(e) => may_read(alloc, &e.expr, series),
        Expr::Binary(e) => binary_may_read(alloc, e, series),
        Expr::Paren(e) => may_read(alloc, &e.expr, series),
        Expr::Subquery(e) => may_read(alloc, &e.expr, series),
        Expr::NumberLiteral(_) | Expr::StringLiteral(_) => Ok(false),
        Expr::VectorSelector(e) => selects(alloc, e, series),
        Expr::MatrixSelector(e) => selects(alloc, &e.vs, series),
        Expr::Call(e) => call_may_read(alloc, e, series),
        Expr::Extension(e) => children_may_read(alloc, e.children.as_slice(), series),
    }
}

#[cycle(may_read)]
fn aggregate_may_read(
    alloc: Global,
    node: &AggregateExpr,
    series: &[SeriesLabel<'_>],
) -> Result<bool, AllocError>
    ensures { IfOk result (λ may. may ≡ spec.may_read (spec.series_of series.now) (aggregate_tree node.now)) }
{
    if param_may_read(alloc, &node.param, series)? {
        return Ok(true);
    }
    may_read(alloc, &node.expr, series)
}

#[cycle(may_read)]
fn param_may_read(
    alloc: Global,
    param: &Option<Box<Expr>>,
    series: &[SeriesLabel<'_>],
) -> Result<bool, AllocError>
    ensures { IfOk result (λ may. may ≡ spec.maybe_may_read (spec.series_of series.now) (option_tree param.now)) }
{
    match param {
        Some(param) => may_read(alloc, param, series),
        None => Ok(false),
    }
}

#[cycle(may_read)]
fn binary_may_read(
    alloc: Global,
    node: &BinaryExpr,
    series: &[SeriesLabel<'_>],
) -> Result<bool, AllocError>
    ensures { IfOk result (λ may. may ≡ spec.may_read (spec.series_of series.now) (binary_tree node.now)) }
{
    if may_read(alloc, &node.lhs, series)? {
        return Ok(true);
    }
    may_read(alloc, &node.rhs, series)
}

#[cycle(may_read)]
fn call_may_read(alloc: Global, node: &Call, series: &[SeriesLabel<'_>]) -> Result<bool, AllocError>
    ensures { IfOk result (λ may. may ≡ spec.may_read (spec.series_of series.now) (call_tree node.now)) }
{
    if args_may_read(alloc, node.args.args.as_slice(), series)? {
        return Ok(true);
    }
    Ok(is_bare_info(node) && is_target_info(series))
}

/// Whether the series is one of `target_info`.
fn is_target_info(series: &[SeriesLabel<'_>]) -> bool
    ensures { result ≡ selects target_info (spec.series_of series.now) }
{
    "target_info" == value_of(series, METRIC_NAME)
}

#[cycle(may_read)]
#[tactic(auto, using(crate::proofs::TreeLists::one_reads))]
fn args_may_read(
    alloc: Global,
    args: &[Box<Expr>],
    series: &[SeriesLabel<'_>],
) -> Result<bool, AllocError>
    ensures { IfOk result (λ may. may ≡ spec.any_may_read (spec.series_of series.now) (trees_of args.now)) }
{
    for arg in args {
        if may_read(alloc, arg, series)? {
            return Ok(true);
        }
    }
    Ok(false)
}

#[cycle(may_read)]
#[tactic(auto, using(crate::proofs::TreeLists::one_reads))]
fn children_may_read(
    alloc: Global,
    children: &[Expr],
    series: &[SeriesLabel<'_>],
) -> Result<bool, AllocError>
    ensures { IfOk result (λ may. may ≡ spec.any_may_read (spec.series_of series.now) (children_of children.now)) }
{
    for child in children {
        if may_read(alloc, child, series)? {
            return Ok(true);
        }
    }
    Ok(false)
}
