//! The tree of a form that is within the limits: docs/reference/json.md, "The limits of a form".

ghost use Rattle.std.specs.Prelude.{◌≡◌, ◌≤◌, Err, IfErr, IfOk, Ok, Some, length};
ghost use Rattle.serde_json.specs.Read.{read as value_read};
ghost use Rattle.serde_json.specs.View.{view};
ghost use Rattle.promql_ast.specs.View.{tree_of};
ghost use Rattle.promql_query.specs.TreeTexts.{ReadsForm, ReadsValue};
ghost use Rattle.promql_span.specs.declared.limits.Limits as spans;

use crate::query_error::QueryError;
use promql_ast::Expr;
use promql_from_json::{FromJsonError, form_measure, from_json};
use promql_span::limits::Limits;
use serde_json::{Category, Value};
use std::alloc::Global;
use thiserror::Error;

/// The most bytes of the form of a tree, unless something else is asked for: 4 MiB.
pub const MAX_TREE: usize = 4_194_304;

/// Why the form of a tree is not read.
#[derive(Clone, Copy, Debug, PartialEq, Eq, Error)]
pub enum LargeForm {
    /// It has too many bytes.
    #[error("tree is too long: {len} bytes, at most {most}")]
    TooLong {
        /// Its bytes.
        len: usize,
        /// The most that it may have.
        most: usize,
    },
    /// Its patterns are too large together.
    #[error("patterns are too large: {size}, at most {most}")]
    PatternsTooLarge {
        /// The sum of their measures; `usize::MAX` stands for that and more.
        size: usize,
        /// The most that it may be.
        most: usize,
    },
}

/// The value of a text that is short enough.
fn read_value(alloc: Global, max_tree: usize, form: &str) -> Result<Value, QueryError>
    ensures short { IfOk result (λ v. length form.now ≤ max_tree) }
    ensures ok { IfOk result (λ v. value_read form.now ≡ Some (view v)) }
    ensures err { (limits : spans.Limits) → IfErr result (λ e. ReadsForm limits max_tree form.now (Err e)) }
{
    let len = form.len();
    if len > max_tree {
        let most = max_tree;
        return Err(QueryError::LargeForm(LargeForm::TooLong { len, most }));
    }
    match Value::from_str(alloc, form) {
        Ok(value) => Ok(value),
        Err(error) => match error.classify() {
            Category::Memory => Err(QueryError::Memory),
            _ => Err(QueryError::NotATree(FromJsonError::NotJson)),
        },
    }
}

/// The tree whose form a value is.
fn read_tree(alloc: Global, value: &Value) -> Result<Expr, QueryError>
    ensures ok { IfOk result (λ e. ReadsValue (view value.now) (Ok (tree_of e))) }
    ensures err { IfErr result (λ e. ReadsValue (view value.now) (Err e)) }
{
    match from_json(alloc, value) {
        Ok(expr) => Ok(expr),
        Err(FromJsonError::Memory) => Err(QueryError::Memory),
        Err(FromJsonError::NotJson) => Err(QueryError::NotATree(FromJsonError::NotJson)),
        Err(FromJsonError::Misfit(misfit)) => {
            Err(QueryError::NotATree(FromJsonError::Misfit(misfit)))
        }
    }
}

/// The tree whose form a text is. The length of the text is looked at before anything is read, and the patterns of its value are measured
/// before anything of a tree is made: none of them is compiled where they are too large.
pub(crate) fn read_form(
    alloc: Global,
    limits: &Limits,
    max_tree: usize,
    form: &str,
) -> Result<Expr, QueryError>
    ensures ok { IfOk result (λ e. ReadsForm limits.now max_tree form.now (Ok (tree_of e))) }
    ensures err { IfErr result (λ e. ReadsForm limits.now max_tree form.now (Err e)) }
{
    let value = read_value(alloc, max_tree, form)?;
    let size = form_measure(&value);
    let most = limits.max_pattern_size;
    if size > most {
        return Err(QueryError::LargeForm(LargeForm::PatternsTooLarge { size, most }));
    }
    read_tree(alloc, &value)
}
