//! Functions of the language: docs/reference/functions.md.

ghost use Rattle.std.specs.Prelude.{◌≡◌, ◌≤◌, ◌≢◌, IfErr, IfOk, None, drop, find, length, map, option_map, take, true};
ghost use Rattle.std.specs.List.{list_all};
ghost use Rattle.promql_kind.specs.FunctionRows.{begins_otherwise};
ghost use Rattle.promql_kind.specs.Functions.{function_named, is_named, row_signature, signature, signature_of};
ghost use Rattle.promql_kind.specs.declared.function_table.TheConstants.{FUNCTIONS};

use crate::function_table::{FUNCTIONS, Row};
use crate::value::ValueType;
use std::alloc::{AllocError, Global};

/// A function's name, its arguments and the type of its value.
#[derive(Debug, Drop, PartialEq, Eq, Hash)]
pub struct Function {
    /// What a call names it by.
    pub name: &'static str,
    /// The types of its arguments. Arguments beyond the list have the last type.
    pub arg_types: Vec<ValueType>,
    /// 0: it takes as many arguments as it has types. Otherwise the last type's argument may be missing, and then above
    /// zero: so many may follow; below zero: any number may follow.
    pub variadic: i32,
    /// The type of its value.
    pub return_type: ValueType,
    /// Whether servers have it only where experimental functions are switched on. Nothing is rejected for it.
    pub experimental: bool,
}

impl Function {
    /// The function of these parts.
    pub fn new(
        name: &'static str,
        arg_types: Vec<ValueType>,
        variadic: i32,
        return_type: ValueType,
        experimental: bool,
    ) -> Function
        ensures { signature_of result
            ≡ signature name.now arg_types.items variadic return_type experimental }
    {
        Function {
            name,
            arg_types,
            variadic,
            return_type,
            experimental,
        }
    }

    /// A copy of the function.
    ///
    /// # Errors
    ///
    /// `AllocError` where an allocation failed.
    pub fn try_clone(&self, alloc: Global) -> Result<Function, AllocError>
        ensures { IfOk result (λ f. signature_of f ≡ signature_of self.now) }
    {
        Ok(Function::new(
            self.name,
            copy_types(alloc, &self.arg_types)?,
            self.variadic,
            self.return_type,
            self.experimental,
        ))
    }
}

/// The function of a name, in its own case; None if there is none.
///
/// # Errors
///
/// `AllocError` where an allocation failed. A name without a function allocates nothing.
pub fn get_function(alloc: Global, name: &str) -> Result<Option<Function>, AllocError>
    ensures found { IfOk result
        (λ found. option_map signature_of found ≡ function_named name.now) }
    ensures unknown { IfErr result (λ _. function_named name.now ≢ None) }
{
    match row_named(&FUNCTIONS, first_row(name), name) {
        Some((name, arg_types, variadic, return_type, experimental)) => Ok(Some(Function::new(
            name,
            copy_types(alloc, arg_types)?,
            variadic,
            return_type,
            experimental,
        ))),
        None => Ok(None),
    }
}

/// Where the rows begin whose names begin as this one does; 0 where there are none. No row before them has this name.
fn first_row(name: &str) -> usize
    ensures within { result ≤ length FUNCTIONS }
    ensures skipped { find (is_named name.now) (drop result (map row_signature FUNCTIONS))
        ≡ function_named name.now }
{
    match name.as_bytes() {
        [letter, ..] => first_row_of(*letter),
        [] => 0,
    }
}

/// The first row whose name begins with this letter; 0 where there is none.
fn first_row_of(letter: u8) -> usize
    ensures within { result ≤ length FUNCTIONS }
    ensures skipped { list_all (begins_otherwise letter) (take result FUNCTIONS) ≡ true }
{
    match letter {
        b'c' => 10,
        b'd' => 18,
        b'e' => 26,
        b'f' => 28,
        b'h' => 30,
        b'i' => 39,
        b'l' => 43,
        b'm' => 49,
        b'p' => 56,
        b'q' => 59,
        b'r' => 60,
        b's' => 65,
        b't' => 79,
        b'v' => 87,
        b'y' => 88,
        _ => 0,
    }
}

/// The first row of this name, which is none of those before `first`.
fn row_named(rows: &[Row<'static>], first: usize, name: &str) -> Option<Row<'static>>
    requires within { first ≤ length rows.now }
    requires skipped { find (is_named name.now)
        (drop first (map (λ row. signature row.0.now row.1.now row.2 row.3 row.4) rows.now))
        ≡ find (is_named name.now)
        (map (λ row. signature row.0.now row.1.now row.2 row.3 row.4) rows.now) }
    ensures { option_map (λ row. signature row.0.now row.1.now row.2 row.3 row.4) result
        ≡ find (is_named name.now)
        (map (λ row. signature row.0.now row.1.now row.2 row.3 row.4) rows.now) }
{
    for row in &rows[first..] {
        // Few names are as long, and the lengths tell without a call.
        if row.0.len() == name.len() && row.0 == name {
            return Some(*row);
        }
    }
    None
}

fn copy_types(alloc: Global, types: &[ValueType]) -> Result<Vec<ValueType>, AllocError>
    ensures { IfOk result (λ copy. copy.items ≡ types.now) }
{
    let mut copy = Vec::with_capacity(alloc, types.len())?;
    for kind in types {
        copy.push(*kind)?;
    }
    Ok(copy)
}
