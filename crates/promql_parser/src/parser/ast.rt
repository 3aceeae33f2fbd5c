//! The tree of a query: its nodes, and what they hold beside their parts.

pub use promql_ast::{
    AggregateExpr, AtFault, AtModifier, BinaryExpr, Call, CheckError, CheckFault, EvalStmt, Expr,
    Extension, MatrixSelector, NodeFault, NumberLiteral, Offset, ParenExpr, RangeMode,
    StringLiteral, SubqueryExpr, TypeContext, UnaryExpr, VectorSelector,
};
pub use promql_kind::{BinModifier, LabelModifier, VectorMatchCardinality, VectorMatchFillValues};
