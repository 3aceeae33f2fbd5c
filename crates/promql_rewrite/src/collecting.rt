//! What a query names: docs/guide/rewriting.md, "Collecting".

ghost use Rattle.std.specs.Prelude.{◌≡◌, [], ◌∷◌, ◌++◌, IfOk, OnOk, filter, map, option_map, option_to_list, string_bytes, unwrap_or};
ghost use Rattle.std.specs.Duration.{as_nanos};
ghost use Rattle.std.specs.List.{flat_map};
ghost use Rattle.promql_label.specs.MatcherViews.{plain_matcher_of, plain_matchers_of};
ghost use Rattle.promql_label.specs.PlainMatchers.{every, name_of, value_of};
ghost use Rattle.promql_kind.specs.ModifierViews.{clause_of, matching_of};
ghost use Rattle.promql_kind.specs.Modifiers.{clause_labels};
ghost use Rattle.promql_ast.specs.View.{aggregate_tree, binary_tree, children_of, option_tree, selector_of, tree_of, trees_of};
ghost use Rattle.promql_rewrite.specs.Collecting.{IsSetOf, all_nodes, is_label_matcher, is_metric_name, from_nodes, matching_labels, maybe_nodes, nodes_of, nodes_within, own_functions, own_labels, own_metrics, own_selectors, selected_of, selection, selector_metrics};
ghost use Rattle.promql_rewrite.specs.CollectedNames.{joined, names_in, names_of, own_names, selector_names};

use promql_ast::{AggregateExpr, AtModifier, BinaryExpr, Expr, Offset, VectorSelector};
use promql_kind::{BinModifier, LabelModifier};
use promql_label::{Label, METRIC_NAME, MatchOp, Matcher, Matchers};
use std::alloc::{AllocError, Global};
use std::time::Duration;

/// What a query names.
#[derive(Debug, Drop)]
pub struct Collected {
    /// The names of the metrics, each once, in byte order: those before braces, and the values of equal matchers of
    /// `__name__`.
    pub metric_names: Vec<String>,
    /// The names of the labels, each once, in byte order: those of matchers but `__name__`, and those after `by`,
    /// `without`, `on`, `ignoring`, `group_left` and `group_right`.
    pub label_names: Vec<String>,
    /// The names of the functions that are called, each once, in byte order. Aggregators are no functions.
    pub functions: Vec<String>,
    /// The selectors, each as often as it is there, in the order of the text.
    pub selectors: Vec<CollectedSelector>,
}

/// A selector of a query.
#[derive(Debug, Drop)]
pub struct CollectedSelector {
    /// The metric's name before the braces.
    pub name: Option<String>,
    /// The matchers, as they print between the braces; empty where there are none.
    pub matchers: String,
    /// The range, as the 5 minutes of `a[5m]`, in nanoseconds; None for an instant selector.
    pub range: Option<Duration>,
    /// How far the time is moved, in nanoseconds.
    pub offset: Option<Offset>,
    /// The time after `@`, in milliseconds since the epoch, `start()` or `end()`.
    pub at: Option<AtModifier>,
}

/// What the query names: metrics, labels, functions, and its selectors with their times. A pattern or an unequal matcher of
/// `__name__` names no metric, and a string names no label: not those of `label_replace`, `label_join` and `count_values`.
///
/// # Errors
///
/// `AllocError` where an allocation failed.
pub fn collect(alloc: Global, expr: &Expr) -> Result<Collected, AllocError>
    ensures metrics { IfOk result (λ c.
        IsSetOf (from_nodes own_metrics (tree_of expr.now)) (map string_bytes c.metric_names.items)) }
    ensures labels { IfOk result (λ c.
        IsSetOf (from_nodes own_labels (tree_of expr.now)) (map string_bytes c.label_names.items)) }
    ensures functions { IfOk result (λ c.
        IsSetOf (from_nodes own_functions (tree_of expr.now)) (map string_bytes c.functions.items)) }
    ensures selectors { IfOk result (λ c.
        map selected_of c.selectors.items ≡ from_nodes own_selectors (tree_of expr.now)) }
{
    let mut found = Collected {
        metric_names: Vec::new(alloc),
        label_names: Vec::new(alloc),
        functions: Vec::new(alloc),
        selectors: Vec::new(alloc),
    };
    push_expr(alloc, expr, &mut found)?;
    make_set(&mut found.metric_names);
    make_set(&mut found.label_names);
    make_set(&mut found.functions);
    Ok(found)
}

/// Puts the names into byte order, each once.
fn make_set(names: &mut Vec<String>)
    ensures { IsSetOf (map string_bytes names.old.items) (map string_bytes names.new.items) }
{
    names.sort_unstable();
    names.dedup();
}

/// Appends what the nodes of the expression name.
#[cycle(collect)]
fn push_expr(alloc: Global, expr: &Expr, found: &mut Collected) -> Result<(), AllocError>
    ensures { OnOk result (names_of found.new
        ≡ joined (names_of found.old) (names_in (nodes_of (tree_of expr.now)))) }
{
    push_own(alloc, expr, found)?;
    push_within(alloc, expr, found)
}

/// Appends what the nodes within the expression name.
#[cycle(collect)]
#[tactic(auto, using(promql_ast::proofs::nodes::NodeParts::tree_of_call, promql_ast::proofs::nodes::NodeParts::tree_of_extension, promql_ast::proofs::nodes::NodeParts::tree_of_aggregate))]
fn push_within(alloc: Global, expr: &Expr, found: &mut Collected) -> Result<(), AllocError>
    ensures { OnOk result (names_of found.new
        ≡ joined (names_of found.old) (names_in (nodes_within (tree_of expr.now)))) }
{
    match expr {
        Expr::Aggregate(e) => push_aggregate(alloc, e, found),
        Expr::Unary(e) => push_expr(alloc, &e.expr, found),
        Expr::Binary(e) => push_sides(alloc, e, found),
        Expr::Paren(e) => push_expr(alloc, &e.expr, found),
        Expr::Subquery(e) => push_expr(alloc, &e.expr, found),
        Expr::NumberLiteral(_)
        | Expr::StringLiteral(_)
        | Expr::VectorSelector(_)
        | Expr::MatrixSelector(_) => Ok(()),
        Expr::Call(e) => push_args(alloc, e.args.args.as_slice(), found),
        Expr::Extension(e) => push_children(alloc, e.children.as_slice(), found),
    }
}

/// Appends what the parameter and the vector name.
#[cycle(collect)]
fn push_aggregate(
    alloc: Global,
    node: &AggregateExpr,
    found: &mut Collected,
) -> Result<(), AllocError>
    ensures { OnOk result (names_of found.new
        ≡ joined (names_of found.old) (names_in (nodes_within (aggregate_tree node.now)))) }
{
    push_param(alloc, &node.param, found)?;
    push_expr(alloc, &node.expr, found)
}

/// Appends what the parameter names, if there is one.
#[cycle(collect)]
fn push_param(
    alloc: Global,
    param: &Option<Box<Expr>>,
    found: &mut Collected,
) -> Result<(), AllocError>
    ensures { OnOk result (names_of found.new
        ≡ joined (names_of found.old) (names_in (maybe_nodes (option_tree param.now)))) }
{
    match param {
        Some(param) => push_expr(alloc, param, found),
        None => Ok(()),
    }
}

/// Appends what both sides name.
#[cycle(collect)]
fn push_sides(alloc: Global, node: &BinaryExpr, found: &mut Collected) -> Result<(), AllocError>
    ensures { OnOk result (names_of found.new
        ≡ joined (names_of found.old) (names_in (nodes_within (binary_tree node.now)))) }
{
    push_expr(alloc, &node.lhs, found)?;
    push_expr(alloc, &node.rhs, found)
}

/// Appends what each argument names.
#[cycle(collect)]
fn push_args(alloc: Global, args: &[Box<Expr>], found: &mut Collected) -> Result<(), AllocError>
    ensures { OnOk result (names_of found.new
        ≡ joined (names_of found.old) (names_in (all_nodes (trees_of args.now)))) }
{
    for arg in args {
        push_expr(alloc, arg, found)?;
    }
    Ok(())
}

/// Appends what each child of an extension names.
#[cycle(collect)]
fn push_children(alloc: Global, children: &[Expr], found: &mut Collected) -> Result<(), AllocError>
    ensures { OnOk result (names_of found.new
        ≡ joined (names_of found.old) (names_in (all_nodes (children_of children.now)))) }
{
    for child in children {
        push_expr(alloc, child, found)?;
    }
    Ok(())
}

/// Appends what the node names itself.
#[tactic(auto, using(promql_ast::proofs::nodes::NodeParts::tree_of_call, promql_ast::proofs::nodes::NodeParts::tree_of_extension, promql_ast::proofs::nodes::NodeParts::tree_of_aggregate))]
fn push_own(alloc: Global, node: &Expr, found: &mut Collected) -> Result<(), AllocError>
    ensures { OnOk result (names_of found.new
        ≡ joined (names_of found.old) (own_names (tree_of node.now))) }
{
    match node {
        Expr::Aggregate(e) => push_clause(alloc, &e.modifier, &mut found.label_names),
        Expr::Binary(e) => push_modifier(alloc, &e.modifier, &mut found.label_names),
        Expr::VectorSelector(e) => push_selector(alloc, e, None, found),
        Expr::MatrixSelector(e) => push_selector(alloc, &e.vs, Some(e.range), found),
        Expr::Call(e) => push_name(alloc, e.func.name, &mut found.functions),
        Expr::Unary(_)
        | Expr::Paren(_)
        | Expr::Subquery(_)
        | Expr::NumberLiteral(_)
        | Expr::StringLiteral(_)
        | Expr::Extension(_) => Ok(()),
    }
}

/// Appends what the selector names, and the selector.
fn push_selector(
    alloc: Global,
    selector: &VectorSelector,
    range: Option<Duration>,
    found: &mut Collected,
) -> Result<(), AllocError>
    ensures { OnOk result (names_of found.new ≡ joined (names_of found.old)
        (selector_names (selector_of selector.now) (option_map as_nanos range))) }
{
    push_metrics(alloc, selector, &mut found.metric_names)?;
    push_selector_labels(alloc, &selector.matchers, &mut found.label_names)?;
    found.selectors.push(to_collected(alloc, selector, range)?)?;
    Ok(())
}

/// The selector as it is collected.
fn to_collected(
    alloc: Global,
    selector: &VectorSelector,
    range: Option<Duration>,
) -> Result<CollectedSelector, AllocError>
    ensures { IfOk result (λ s.
        selected_of s ≡ selection (selector_of selector.now) (option_map as_nanos range)) }
{
    Ok(CollectedSelector {
        name: copy_name(alloc, &selector.name)?,
        matchers: selector.matchers.to_string(alloc)?,
        range,
        offset: selector.offset,
        at: selector.at,
    })
}

fn copy_name(alloc: Global, name: &Option<String>) -> Result<Option<String>, AllocError>
    ensures { IfOk result (λ copy.
        option_map string_bytes copy ≡ option_map string_bytes name.now) }
{
    match name {
        Some(name) => Ok(Some(String::from_str(alloc, name)?)),
        None => Ok(None),
    }
}

/// Appends the name before the braces, and those of the matchers.
fn push_metrics(
    alloc: Global,
    selector: &VectorSelector,
    names: &mut Vec<String>,
) -> Result<(), AllocError>
    ensures { OnOk result (map string_bytes names.new.items
        ≡ map string_bytes names.old.items ++ selector_metrics (selector_of selector.now)) }
{
    push_optional(alloc, &selector.name, names)?;
    push_matcher_metrics(alloc, &selector.matchers, names)
}

/// Appends the name, if there is one.
fn push_optional(
    alloc: Global,
    name: &Option<String>,
    names: &mut Vec<String>,
) -> Result<(), AllocError>
    ensures { OnOk result (map string_bytes names.new.items
        ≡ map string_bytes names.old.items
        ++ option_to_list (option_map string_bytes name.now)) }
{
    match name {
        Some(name) => push_name(alloc, name, names),
        None => Ok(()),
    }
}

fn push_name(alloc: Global, name: &str, names: &mut Vec<String>) -> Result<(), AllocError>
    ensures { OnOk result (map string_bytes names.new.items
        ≡ map string_bytes names.old.items ++ name.now ∷ []) }
{
    names.push(String::from_str(alloc, name)?)?;
    Ok(())
}

/// Appends the metric names of the list, and of its groups.
fn push_matcher_metrics(
    alloc: Global,
    matchers: &Matchers,
    names: &mut Vec<String>,
) -> Result<(), AllocError>
    ensures { OnOk result (map string_bytes names.new.items
        ≡ map string_bytes names.old.items
        ++ map value_of (filter is_metric_name (every (plain_matchers_of matchers.now)))) }
{
    push_values(alloc, &matchers.matchers, names)?;
    push_group_values(alloc, &matchers.or_matchers, names)
}

/// Appends the metric names of each group.
fn push_group_values(
    alloc: Global,
    groups: &[Vec<Matcher>],
    names: &mut Vec<String>,
) -> Result<(), AllocError>
    ensures { OnOk result (map string_bytes names.new.items
        ≡ map string_bytes names.old.items
        ++ map value_of (filter is_metric_name
        (flat_map (λ g. g) (map (λ g. map plain_matcher_of g.items) groups.now)))) }
{
    for group in groups {
        push_values(alloc, group, names)?;
    }
    Ok(())
}

/// Appends the values of the matchers that name the metric.
fn push_values(
    alloc: Global,
    matchers: &[Matcher],
    names: &mut Vec<String>,
) -> Result<(), AllocError>
    ensures { OnOk result (map string_bytes names.new.items
        ≡ map string_bytes names.old.items
        ++ map value_of (filter is_metric_name (map plain_matcher_of matchers.now))) }
{
    for matcher in matchers {
        if is_metric_name(matcher) {
            push_name(alloc, &matcher.value, names)?;
        }
    }
    Ok(())
}

/// Whether the matcher names the metric.
pub(crate) fn is_metric_name(matcher: &Matcher) -> bool
    ensures { result ≡ is_metric_name (plain_matcher_of matcher.now) }
{
    match &matcher.op {
        MatchOp::Equal => matcher.name.as_str() == METRIC_NAME,
        MatchOp::NotEqual => false,
        MatchOp::Re(_) => false,
        MatchOp::NotRe(_) => false,
    }
}

/// Appends the labels of all matchers but those of `__name__`.
fn push_selector_labels(
    alloc: Global,
    matchers: &Matchers,
    names: &mut Vec<String>,
) -> Result<(), AllocError>
    ensures { OnOk result (map string_bytes names.new.items
        ≡ map string_bytes names.old.items
        ++ map name_of (filter is_label_matcher (every (plain_matchers_of matchers.now)))) }
{
    push_matcher_labels(alloc, &matchers.matchers, names)?;
    push_group_labels(alloc, &matchers.or_matchers, names)
}

/// Appends the labels of the matchers of each group.
fn push_group_labels(
    alloc: Global,
    groups: &[Vec<Matcher>],
    names: &mut Vec<String>,
) -> Result<(), AllocError>
    ensures { OnOk result (map string_bytes names.new.items
        ≡ map string_bytes names.old.items
        ++ map name_of (filter is_label_matcher
        (flat_map (λ g. g) (map (λ g. map plain_matcher_of g.items) groups.now)))) }
{
    for group in groups {
        push_matcher_labels(alloc, group, names)?;
    }
    Ok(())
}

/// Appends the label of each matcher, unless it is `__name__`.
fn push_matcher_labels(
    alloc: Global,
    matchers: &[Matcher],
    names: &mut Vec<String>,
) -> Result<(), AllocError>
    ensures { OnOk result (map string_bytes names.new.items
        ≡ map string_bytes names.old.items
        ++ map name_of (filter is_label_matcher (map plain_matcher_of matchers.now))) }
{
    for matcher in matchers {
        if is_label_matcher(matcher) {
            push_name(alloc, &matcher.name, names)?;
        }
    }
    Ok(())
}

/// Whether the matcher is of a label, and not of the metric's name.
fn is_label_matcher(matcher: &Matcher) -> bool
    ensures { result ≡ is_label_matcher (plain_matcher_of matcher.now) }
{
    matcher.name.as_str() != METRIC_NAME
}

/// Appends the labels after `by`, `without`, `on` or `ignoring`, if there are any.
fn push_clause(
    alloc: Global,
    clause: &Option<LabelModifier>,
    names: &mut Vec<String>,
) -> Result<(), AllocError>
    ensures { OnOk result (map string_bytes names.new.items
        ≡ map string_bytes names.old.items
        ++ unwrap_or (option_map clause_labels (option_map clause_of clause.now)) []) }
{
    match clause {
        Some(clause) => push_labels(alloc, &clause.labels().labels, names),
        None => Ok(()),
    }
}

/// Appends the labels of the modifier, if there is one.
fn push_modifier(
    alloc: Global,
    modifier: &Option<BinModifier>,
    names: &mut Vec<String>,
) -> Result<(), AllocError>
    ensures { OnOk result (map string_bytes names.new.items
        ≡ map string_bytes names.old.items
        ++ unwrap_or (option_map matching_labels (option_map matching_of modifier.now)) []) }
{
    match modifier {
        Some(modifier) => push_matching(alloc, modifier, names),
        None => Ok(()),
    }
}

/// Appends the labels after `on` or `ignoring`, and then those after `group_left` or `group_right`.
fn push_matching(
    alloc: Global,
    modifier: &BinModifier,
    names: &mut Vec<String>,
) -> Result<(), AllocError>
    ensures { OnOk result (map string_bytes names.new.items
        ≡ map string_bytes names.old.items ++ matching_labels (matching_of modifier.now)) }
{
    push_clause(alloc, &modifier.matching, names)?;
    match modifier.card.labels() {
        Some(grouped) => push_labels(alloc, &grouped.labels, names),
        None => Ok(()),
    }
}

/// Appends the labels.
fn push_labels(alloc: Global, labels: &[Label], names: &mut Vec<String>) -> Result<(), AllocError>
    ensures { OnOk result (map string_bytes names.new.items
        ≡ map string_bytes names.old.items ++ map string_bytes labels.now) }
{
    for label in labels {
        push_name(alloc, label, names)?;
    }
    Ok(())
}
