//! From a text to its tree.

pub use ast::{
    AggregateExpr, AtFault, AtModifier, BinModifier, BinaryExpr, Call, CheckError, CheckFault,
    EvalStmt, Expr, Extension, LabelModifier, MatrixSelector, NodeFault, NumberLiteral, Offset,
    ParenExpr, RangeMode, StringLiteral, SubqueryExpr, TypeContext, UnaryExpr,
    VectorMatchCardinality, VectorMatchFillValues, VectorSelector,
};
pub use function::{Function, FunctionArgs};
pub use lex::lexer;
pub use promql_ast::{Prettier, PrettyError, Tally};
pub use promql_span::Span;
pub use promql_span::diagnosis::{Diagnosis, diagnose};
pub use promql_span::expected::{ExpectedTokens, expected_tokens};
pub use promql_span::limits::{LimitFault, Limits, check_limits};
pub use promql_span::unexpected::{Unexpected, unexpected_at};
pub use promql_syntax::parser::{MAX_DEPTH, ParseError, parse};

pub mod ast;
pub mod function;
pub mod lex;
pub mod token;
pub mod value;
