//! docs/guide/cookbook.md, "Add a matcher to every selector".

use promql_parser::label::{MatchOp, Matcher, Matchers};
use promql_parser::parser::{Expr, parse};
use promql_parser::util::visitor::{ExprVisitorMut, walk_expr_mut};
use std::alloc::{AllocError, Global};
use std::test::Fail;

/// Adds `tenant="t1"` to each selector: to its matchers, or to each of its groups.
#[derive(Drop)]
struct AddTenant(Global);

impl AddTenant {
    fn matcher(&self) -> Result<Matcher, AllocError> {
        Matcher::new(self.0, MatchOp::Equal, "tenant", "t1")
    }

    fn add(&self, matchers: &mut Matchers) -> Result<(), AllocError> {
        if matchers.or_matchers.is_empty() {
            matchers.matchers.push(self.matcher()?)?;
        }
        for group in matchers.or_matchers.iter_mut() {
            group.push(self.matcher()?)?;
        }
        Ok(())
    }
}

impl ExprVisitorMut for AddTenant {
    type Error = AllocError;

    ghost pre_gives = { λ _ _ _ _ _. Unit {0} };

    fn pre_visit(&mut self, expr: &mut Expr) -> Result<bool, AllocError> {
        match expr {
            Expr::VectorSelector(e) => self.add(&mut e.matchers)?,
            Expr::MatrixSelector(e) => self.add(&mut e.vs.matchers)?,
            _ => {}
        }
        Ok(true)
    }
}

/// Changes the query to the tenant's, and returns its text.
fn for_tenant(alloc: Global, expr: &mut Expr) -> Result<String, AllocError> {
    walk_expr_mut(&mut AddTenant(alloc), expr)?;
    expr.to_string(alloc)
}

const QUERY: &str = "topk(scalar(k), sum(rate(a{b='1'}[5m])) / {c='2' or d='3'})";

const CHANGED: &str =
    r#"topk(scalar(k{tenant="t1"}), sum(rate(a{b="1",tenant="t1"}[5m])) / {c="2", tenant="t1" or d="3", tenant="t1"})"#;

#[test]
fn every_selector_has_the_tenant(rt: HostRuntime) -> Result<(), Fail> {
    let mut expr = parse(rt.alloc(), QUERY)?;
    let changed = for_tenant(rt.alloc(), &mut expr);
    drop(expr);
    assert_eq!(rt; changed?.as_str(), CHANGED);
    Ok(())
}
