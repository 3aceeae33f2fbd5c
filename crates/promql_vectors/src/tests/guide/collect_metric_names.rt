//! docs/guide/cookbook.md, "Collect metric names".

use promql_parser::label::METRIC_NAME;
use promql_parser::parser::{Expr, VectorSelector, parse};
use promql_parser::util::visitor::{ExprVisitor, walk_expr};
use std::alloc::{AllocError, Global};
use std::test::Fail;

/// Collects the name of each selector, in the order of the query.
#[derive(Drop)]
struct MetricNames {
    alloc: Global,
    names: Vec<String>,
}

impl MetricNames {
    fn add(&mut self, selector: &VectorSelector) -> Result<(), AllocError> {
        if let Some(name) = &selector.name {
            self.names
                .push(String::from_str(self.alloc, name.as_str())?)?;
        } else if let Some(name) = selector.matchers.find_matcher_value(METRIC_NAME) {
            self.names.push(String::from_str(self.alloc, name)?)?;
        }
        Ok(())
    }
}

impl ExprVisitor for MetricNames {
    type Error = AllocError;

    ghost pre_gives = { λ _ _ _ _. Unit {0} };

    fn pre_visit(&mut self, expr: &Expr) -> Result<bool, AllocError> {
        match expr {
            Expr::VectorSelector(e) => self.add(e)?,
            Expr::MatrixSelector(e) => self.add(&e.vs)?,
            _ => {}
        }
        Ok(true)
    }
}

/// The metric names of a query; a name that is used twice is there twice.
fn metric_names(alloc: Global, expr: &Expr) -> Result<Vec<String>, AllocError> {
    let mut found = MetricNames {
        alloc,
        names: Vec::new(alloc),
    };
    walk_expr(&mut found, expr)?;
    Ok(found.names)
}

const QUERY: &str =
    "topk(scalar(k), a + {'b c'} / sum by (l) (rate(d[5m]) or max_over_time(e[1h:])))";

#[test]
fn names_in_order(rt: HostRuntime) -> Result<(), Fail> {
    let expr = parse(rt.alloc(), QUERY)?;
    let found = metric_names(rt.alloc(), &expr);
    drop(expr);
    let names = found?;
    assert_eq!(rt; names.len(), 5);
    for (name, want) in names.iter().zip(&["k", "a", "b c", "d", "e"]) {
        assert_eq!(rt; name.as_str(), *want);
    }
    Ok(())
}
