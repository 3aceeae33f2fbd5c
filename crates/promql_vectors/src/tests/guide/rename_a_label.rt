//! docs/guide/cookbook.md, "Rename a label".

use promql_parser::label::{Label, Matcher, Matchers};
use promql_parser::parser::{BinModifier, Expr, LabelModifier, VectorMatchCardinality, parse};
use promql_parser::util::visitor::{ExprVisitorMut, walk_expr_mut};
use std::alloc::{AllocError, Global};
use std::test::Fail;

/// Gives the label `job` the name `service`, in matchers and in lists of labels.
#[derive(Drop)]
struct Rename(Global);

impl Rename {
    fn label(&self, label: &mut Label) -> Result<(), AllocError> {
        if label.as_str() == "job" {
            *label = String::from_str(self.0, "service")?;
        }
        Ok(())
    }

    fn labels(&self, labels: &mut Vec<Label>) -> Result<(), AllocError> {
        for label in labels.iter_mut() {
            self.label(label)?;
        }
        Ok(())
    }

    fn list(&self, matchers: &mut Vec<Matcher>) -> Result<(), AllocError> {
        for matcher in matchers.iter_mut() {
            self.label(&mut matcher.name)?;
        }
        Ok(())
    }

    fn matchers(&self, matchers: &mut Matchers) -> Result<(), AllocError> {
        for group in matchers.or_matchers.iter_mut() {
            self.list(group)?;
        }
        self.list(&mut matchers.matchers)
    }

    /// The labels after `by`, `without`, `on` or `ignoring`.
    fn clause(&self, clause: &mut Option<LabelModifier>) -> Result<(), AllocError> {
        match clause {
            Some(LabelModifier::Include(labels)) => self.labels(&mut labels.labels),
            Some(LabelModifier::Exclude(labels)) => self.labels(&mut labels.labels),
            None => Ok(()),
        }
    }

    /// The labels between an operator and its right side.
    fn modifier(&self, modifier: &mut BinModifier) -> Result<(), AllocError> {
        self.clause(&mut modifier.matching)?;
        match &mut modifier.card {
            VectorMatchCardinality::ManyToOne(labels) => self.labels(&mut labels.labels),
            VectorMatchCardinality::OneToMany(labels) => self.labels(&mut labels.labels),
            _ => Ok(()),
        }
    }
}

impl ExprVisitorMut for Rename {
    type Error = AllocError;

    ghost pre_gives = { λ _ _ _ _ _. Unit {0} };

    fn pre_visit(&mut self, expr: &mut Expr) -> Result<bool, AllocError> {
        match expr {
            Expr::VectorSelector(e) => self.matchers(&mut e.matchers)?,
            Expr::MatrixSelector(e) => self.matchers(&mut e.vs.matchers)?,
            Expr::Aggregate(e) => self.clause(&mut e.modifier)?,
            Expr::Binary(e) => {
                if let Some(modifier) = &mut e.modifier {
                    self.modifier(modifier)?;
                }
            }
            _ => {}
        }
        Ok(true)
    }
}

/// Renames the label in the query, and returns its text.
fn renamed(alloc: Global, expr: &mut Expr) -> Result<String, AllocError> {
    walk_expr_mut(&mut Rename(alloc), expr)?;
    expr.to_string(alloc)
}

const QUERY: &str = "sum by (job) (a{job='x'}) * on (job) b";

#[test]
fn every_label_is_renamed(rt: HostRuntime) -> Result<(), Fail> {
    let mut expr = parse(rt.alloc(), QUERY)?;
    let changed = renamed(rt.alloc(), &mut expr);
    drop(expr);
    assert_eq!(rt;
        changed?.as_str(),
        r#"sum by (service) (a{service="x"}) * on (service) b"#
    );
    Ok(())
}
