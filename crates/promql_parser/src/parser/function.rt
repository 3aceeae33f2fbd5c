//! The functions of the language, and the arguments of a call.

pub use promql_ast::FunctionArgs;
pub use promql_kind::{Function, get_function};
