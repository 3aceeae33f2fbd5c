//! Nodes that list two labels: docs/guide/rewriting.md, "Renaming".

ghost use Rattle.std.specs.Prelude.{◌≡◌, [], map, option_map, string_bytes, unwrap_or};
ghost use Rattle.std.specs.List.{list_any};
ghost use Rattle.promql_label.specs.Labels.{is_among};
ghost use Rattle.promql_label.specs.MatcherViews.{plain_matchers_of};
ghost use Rattle.promql_label.specs.PlainMatchers.{every, name_of};
ghost use Rattle.promql_kind.specs.ModifierViews.{cardinality_of, clause_of, matching_of};
ghost use Rattle.promql_kind.specs.Modifiers.{clause_labels, grouping};
ghost use Rattle.promql_ast.specs.View.{tree_of};
ghost use Rattle.promql_rewrite.specs.Collecting.{matching_labels, nodes_of};
ghost use Rattle.promql_rewrite.specs.Renaming.{listed_labels, lists_both};

use crate::some_node::{NodeTest, has_node};
use promql_ast::Expr;
use promql_kind::{BinModifier, LabelModifier, VectorMatchCardinality};
use promql_label::{Label, Matchers};

/// The test whether a node lists both labels.
#[derive(Clone, Copy)]
struct ListsBoth<'a> {
    from: &'a str,
    to: &'a str,
}

impl NodeTest for ListsBoth<'_> {
    ghost passing = { λ test t. lists_both test.from.now test.to.now t };

    fn passes(&self, node: &Expr) -> bool {
        lists(node, self.from) && lists(node, self.to)
    }
}

/// Whether a node of the expression lists both labels.
pub(crate) fn has_clash(expr: &Expr, from: &str, to: &str) -> bool
    ensures { result ≡ list_any (lists_both from.now to.now) (nodes_of (tree_of expr.now)) }
{
    has_node(expr, &ListsBoth { from, to })
}

/// Whether the node itself lists the label.
#[tactic(auto, using(promql_ast::proofs::nodes::NodeParts::tree_of_call, promql_ast::proofs::nodes::NodeParts::tree_of_extension, promql_ast::proofs::nodes::NodeParts::tree_of_aggregate))]
fn lists(node: &Expr, label: &str) -> bool
    ensures { result ≡ is_among (listed_labels (tree_of node.now)) label.now }
{
    match node {
        Expr::Aggregate(e) => is_in_clause(&e.modifier, label),
        Expr::Binary(e) => is_in_modifier(&e.modifier, label),
        Expr::VectorSelector(e) => is_in_matchers(&e.matchers, label),
        Expr::MatrixSelector(e) => is_in_matchers(&e.vs.matchers, label),
        Expr::Unary(_)
        | Expr::Paren(_)
        | Expr::Subquery(_)
        | Expr::NumberLiteral(_)
        | Expr::StringLiteral(_)
        | Expr::Call(_)
        | Expr::Extension(_) => false,
    }
}

/// Whether a matcher is of the label.
fn is_in_matchers(matchers: &Matchers, label: &str) -> bool
    ensures { result
        ≡ is_among (map name_of (every (plain_matchers_of matchers.now))) label.now }
{
    matchers.find_matcher_value(label).is_some()
}

/// Whether the label is after `by`, `without`, `on` or `ignoring`.
fn is_in_clause(clause: &Option<LabelModifier>, label: &str) -> bool
    ensures { result ≡ is_among
        (unwrap_or (option_map clause_labels (option_map clause_of clause.now)) []) label.now }
{
    match clause {
        Some(clause) => is_in(&clause.labels().labels, label),
        None => false,
    }
}

/// Whether the label is in the modifier, if there is one.
fn is_in_modifier(modifier: &Option<BinModifier>, label: &str) -> bool
    ensures { result ≡ is_among
        (unwrap_or (option_map matching_labels (option_map matching_of modifier.now)) [])
        label.now }
{
    match modifier {
        Some(modifier) => is_in_matching(modifier, label),
        None => false,
    }
}

/// Whether the label is after `on`, `ignoring`, `group_left` or `group_right`.
#[tactic(auto, using(crate::proofs::rules_broken::ListedNodes::any_of_both))]
fn is_in_matching(modifier: &BinModifier, label: &str) -> bool
    ensures { result ≡ is_among (matching_labels (matching_of modifier.now)) label.now }
{
    if is_in_clause(&modifier.matching, label) {
        return true;
    }
    is_in_grouping(&modifier.card, label)
}

fn is_in_grouping(card: &VectorMatchCardinality, label: &str) -> bool
    ensures { result ≡ is_among (unwrap_or (grouping (cardinality_of card.now)) []) label.now }
{
    match card.labels() {
        Some(labels) => is_in(&labels.labels, label),
        None => false,
    }
}

fn is_in(labels: &[Label], label: &str) -> bool
    ensures { result ≡ is_among (map string_bytes labels.now) label.now }
{
    labels.iter().any(|other| label == other.as_str())
}
