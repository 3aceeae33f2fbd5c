//! The table of functions, against the rows of docs/reference/functions.md.

use crate::tests::{answers, holds, is_so};
use promql_kind::ValueType::{Matrix, Scalar, String, Vector};
use promql_kind::{Function, ValueType, get_function};
use std::alloc::{AllocError, Global};

/// Names with blanks between them, types of arguments, variadic, type of the value, experimental.
type Row = (&'static str, &'static [ValueType], i32, ValueType, bool);

const ROWS: [Row; 22] = [
    (
        "abs absent acos acosh asin asinh atan atanh ceil cos cosh deg exp floor \
         histogram_avg histogram_count histogram_stddev histogram_stdvar histogram_sum ln \
         log10 log2 rad sgn sin sinh sort sort_desc sqrt tan tanh timestamp",
        &[Vector],
        0,
        Vector,
        false,
    ),
    (
        "days_in_month day_of_month day_of_week day_of_year hour minute month year",
        &[Vector],
        1,
        Vector,
        false,
    ),
    (
        "absent_over_time avg_over_time changes count_over_time delta deriv idelta increase \
         irate last_over_time max_over_time min_over_time present_over_time rate resets \
         stddev_over_time stdvar_over_time sum_over_time",
        &[Matrix],
        0,
        Vector,
        false,
    ),
    (
        "first_over_time mad_over_time ts_of_first_over_time ts_of_last_over_time \
         ts_of_max_over_time ts_of_min_over_time",
        &[Matrix],
        0,
        Vector,
        true,
    ),
    ("clamp", &[Vector, Scalar, Scalar], 0, Vector, false),
    ("clamp_max clamp_min", &[Vector, Scalar], 0, Vector, false),
    (
        "histogram_fraction",
        &[Scalar, Scalar, Vector],
        0,
        Vector,
        false,
    ),
    ("histogram_quantile", &[Scalar, Vector], 0, Vector, false),
    (
        "histogram_quantiles",
        &[Vector, String, Scalar, Scalar],
        9,
        Vector,
        true,
    ),
    ("info", &[Vector, Vector], 1, Vector, true),
    (
        "double_exponential_smoothing",
        &[Matrix, Scalar, Scalar],
        0,
        Vector,
        true,
    ),
    (
        "label_replace",
        &[Vector, String, String, String, String],
        0,
        Vector,
        false,
    ),
    (
        "label_join",
        &[Vector, String, String, String],
        -1,
        Vector,
        false,
    ),
    ("max_of min_of", &[Scalar, Scalar], 0, Scalar, true),
    ("pi time", &[], 0, Scalar, false),
    ("end range start step", &[], 0, Scalar, true),
    ("predict_linear", &[Matrix, Scalar], 0, Vector, false),
    ("quantile_over_time", &[Scalar, Matrix], 0, Vector, false),
    ("round", &[Vector, Scalar], 1, Vector, false),
    ("scalar", &[Vector], 0, Scalar, false),
    (
        "sort_by_label sort_by_label_desc",
        &[Vector, String],
        -1,
        Vector,
        true,
    ),
    ("vector", &[Scalar], 0, Vector, false),
];

/// Whether the function is as the row says.
fn is_of_row(function: &Function, name: &str, row: &Row) -> bool {
    function.name == name
        && function.arg_types.as_slice() == row.1
        && function.variadic == row.2
        && function.return_type == row.3
        && function.experimental == row.4
}

/// Whether the function of this name is as the row says.
fn has_row(alloc: Global, name: &str, row: &Row) -> Result<bool, AllocError> {
    match get_function(alloc, name)? {
        Some(function) => Ok(is_of_row(&function, name, row)),
        None => Ok(false),
    }
}

#[test]
fn each_name_has_its_row(rt: HostRuntime) {
    let mut names = 0usize;
    for row in &ROWS {
        for name in row.0.split(' ') {
            is_so(&rt, has_row(rt.alloc(), name, row), name);
            names = names.saturating_add(1);
        }
    }
    holds(&rt, names == 89, "89");
}

/// Names of no function.
const UNKNOWN: [&str; 7] = ["", "nosuch", "RATE", "rat", "ratee", " rate", "sum"];

fn is_unknown(alloc: Global, name: &str) -> Result<bool, AllocError> {
    Ok(get_function(alloc, name)?.is_none())
}

#[test]
fn other_names_have_no_row(rt: HostRuntime) {
    for name in &UNKNOWN {
        is_so(&rt, is_unknown(rt.alloc(), name), name);
    }
}

fn function(alloc: Global, row: &Row) -> Result<Function, AllocError> {
    let types = row.1.to_vec(alloc)?;
    Ok(Function::new(row.0, types, row.2, row.3, row.4))
}

// What the functions below differ from, each in one part.
const ONE: Row = ("f", &[Vector], 0, Scalar, false);

const OTHERS: [Row; 5] = [
    ("g", &[Vector], 0, Scalar, false),
    ("f", &[Vector, Vector], 0, Scalar, false),
    ("f", &[Vector], -1, Scalar, false),
    ("f", &[Vector], 0, Vector, false),
    ("f", &[Vector], 0, Scalar, true),
];

fn is_copied(alloc: Global, row: &Row) -> Result<bool, AllocError> {
    let function = function(alloc, row)?;
    Ok(function.try_clone(alloc)? == function)
}

/// Whether the functions of two rows are equal.
fn is_equal(alloc: Global, one: &Row, other: &Row) -> Result<bool, AllocError> {
    let one = function(alloc, one)?;
    Ok(one == function(alloc, other)?)
}

#[test]
fn functions_differ_by_each_part(rt: HostRuntime) {
    let alloc = rt.alloc();
    answers(&rt, is_equal(alloc, &ONE, &ONE), true, "f");
    for row in &OTHERS {
        is_so(&rt, is_copied(alloc, row), row.0);
        answers(&rt, is_equal(alloc, &ONE, row), false, row.0);
    }
}
