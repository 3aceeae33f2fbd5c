//! Whether a query has a pattern: docs/guide/rewriting.md, "Enforcing".

ghost use Rattle.std.specs.Prelude.{◌≡◌, map};
ghost use Rattle.std.specs.List.{list_any};
ghost use Rattle.promql_ast.specs.View.{tree_of};
ghost use Rattle.promql_label.specs.MatcherViews.{plain_matcher_of, plain_matchers_of};
ghost use Rattle.promql_rewrite.specs.Patterns as spec;

use crate::some_node::{NodeTest, has_node};
use promql_ast::Expr;
use promql_label::{MatchOp, Matcher, Matchers};

/// Whether a matcher has a pattern.
pub(crate) fn is_regex(matcher: &Matcher) -> bool
    ensures { result ≡ spec.is_regex (plain_matcher_of matcher.now) }
{
    matches!(matcher.op, MatchOp::Re(_) | MatchOp::NotRe(_))
}

/// Whether one of some matchers does.
fn has_regex_among(matchers: &[Matcher]) -> bool
    ensures { result ≡ list_any spec.is_regex (map plain_matcher_of matchers.now) }
{
    matchers.iter().any(|matcher| is_regex(matcher))
}

/// Whether a matcher of a list has a pattern, outside its groups or in one.
fn has_regex(matchers: &Matchers) -> bool
    ensures { result ≡ spec.has_regex (plain_matchers_of matchers.now) }
{
    if has_regex_among(matchers.matchers.as_slice()) {
        return true;
    }
    matchers
        .or_matchers
        .iter()
        .any(|group| has_regex_among(group.as_slice()))
}

/// The test whether a node's own selector has a pattern.
#[derive(Clone, Copy)]
struct OwnPattern;

impl NodeTest for OwnPattern {
    ghost passing = { λ _ t. spec.has_own_pattern t };

    #[tactic(auto, using(promql_ast::proofs::nodes::NodeParts::tree_of_call, promql_ast::proofs::nodes::NodeParts::tree_of_extension, promql_ast::proofs::nodes::NodeParts::tree_of_aggregate))]
    fn passes(&self, node: &Expr) -> bool {
        match node {
            Expr::VectorSelector(selector) => has_regex(&selector.matchers),
            Expr::MatrixSelector(selector) => has_regex(&selector.vs.matchers),
            Expr::Aggregate(_)
            | Expr::Unary(_)
            | Expr::Binary(_)
            | Expr::Paren(_)
            | Expr::Subquery(_)
            | Expr::NumberLiteral(_)
            | Expr::StringLiteral(_)
            | Expr::Call(_)
            | Expr::Extension(_) => false,
        }
    }
}

/// Whether a matcher of the expression has a pattern.
pub(crate) fn has_pattern(expr: &Expr) -> bool
    ensures { result ≡ spec.has_pattern (tree_of expr.now) }
{
    has_node(expr, &OwnPattern)
}
