//! Walks over the tree of a query.

pub use promql_walk::{ExprVisitor, ExprVisitorMut, walk_expr, walk_expr_mut};
