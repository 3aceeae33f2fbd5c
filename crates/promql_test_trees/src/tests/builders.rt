//! What builders make and reject.

use super::trees::{KINDS, arguments, built, is_copy, is_kind, kind, new_box, number};
use super::{Failed, built_text, holds, is_so, prints};
use promql_ast::{AtModifier, Expr, FunctionArgs, Offset, RangeMode};
use promql_text::minute_duration;
use std::alloc::Global;

/// Whether the builders give the kind of this number and text.
fn is_built(alloc: Global, number_of_kind: usize, text: &str) -> Result<bool, Failed> {
    let expr = new_box(alloc, built(alloc, number_of_kind)?)?;
    is_kind(alloc, &expr, text)
}

#[test]
fn built_nodes_are_those_of_texts(rt: HostRuntime) {
    for (i, text) in KINDS.iter().enumerate() {
        is_so(&rt, is_built(rt.alloc(), i, text), text);
    }
}

const NO_TIME: &str =
    "@ modifier must be preceded by an vector selector or matrix selector or a subquery";

const SECOND_TIME: &str = "@ <timestamp> may not be set multiple times";

const NO_OFFSET: &str =
    "offset modifier must be preceded by an vector selector or matrix selector or a subquery";

const SECOND_OFFSET: &str = "offset may not be set multiple times";

const NO_MODE: &str = "range mode must be preceded by a matrix selector";

const SECOND_MODE: &str = "range mode may not be set multiple times";

/// What `@ end()`, `offset 3m` and `smoothed` give after each kind of node.
const MODIFIED: [(&str, &str, &str); 12] = [
    (NO_TIME, NO_OFFSET, NO_MODE),
    (NO_TIME, NO_OFFSET, NO_MODE),
    (NO_TIME, NO_OFFSET, NO_MODE),
    (NO_TIME, NO_OFFSET, NO_MODE),
    (SECOND_TIME, SECOND_OFFSET, NO_MODE),
    (NO_TIME, NO_OFFSET, NO_MODE),
    (NO_TIME, NO_OFFSET, NO_MODE),
    (SECOND_TIME, SECOND_OFFSET, NO_MODE),
    (
        "a[5m] anchored @ end() offset 1m",
        SECOND_OFFSET,
        SECOND_MODE,
    ),
    (NO_TIME, NO_OFFSET, NO_MODE),
    ("a @ end()", "a offset 3m", NO_MODE),
    (NO_TIME, NO_OFFSET, NO_MODE),
];

/// What `@ end()` gives after the node.
fn timed(alloc: Global, text: &str) -> Result<String, Failed> {
    let at = Box::into_inner(kind(alloc, text)?).at_expr(AtModifier::End);
    Ok(built_text(alloc, at)?)
}

/// What `offset 3m` gives after the node.
fn shifted(alloc: Global, text: &str) -> Result<String, Failed> {
    let by = Offset::Pos(minute_duration() * 3);
    let expr = Box::into_inner(kind(alloc, text)?).offset_expr(by);
    Ok(built_text(alloc, expr)?)
}

/// What `smoothed` gives after the node.
fn smoothed(alloc: Global, text: &str) -> Result<String, Failed> {
    let mode = Box::into_inner(kind(alloc, text)?).mode_expr(RangeMode::Smoothed);
    Ok(built_text(alloc, mode)?)
}

#[test]
fn modifiers_are_set_once(rt: HostRuntime) {
    let alloc = rt.alloc();
    for (text, (time, offset, mode)) in KINDS.iter().zip(MODIFIED.iter()) {
        prints(&rt, timed(alloc, text), time);
        prints(&rt, shifted(alloc, text), offset);
        prints(&rt, smoothed(alloc, text), mode);
    }
}

/// What a range of five minutes makes of a text's expression where it stands: what is rejected stays.
const RANGED: [(&str, &str); 4] = [
    ("a", "a[5m]"),
    ("a offset 3m", "a offset 3m"),
    ("a @ end()", "a @ end()"),
    ("a[1m]", "a[1m]"),
];

/// Whether a range of five minutes makes this of the expression, and says whether it changed it.
fn is_ranged(alloc: Global, text: &str, ranged: &str) -> Result<bool, Failed> {
    let mut expr = kind(alloc, text)?;
    let change = expr.set_range(alloc, minute_duration() * 5);
    Ok(change.is_ok() == (text != ranged) && expr.to_string(alloc)?.as_str() == ranged)
}

#[test]
fn ranges_are_set_in_place(rt: HostRuntime) {
    for (text, ranged) in &RANGED {
        is_so(&rt, is_ranged(rt.alloc(), text, ranged), text);
    }
}

#[test]
fn no_arguments_are_lent(rt: HostRuntime) {
    let none = FunctionArgs::empty_args(rt.alloc());
    holds(&rt, none.is_empty(), "empty");
    holds(&rt, none.first().is_none(), "no first");
    holds(&rt, none.last().is_none(), "no last");
}

/// Whether the argument is there, and is this number.
fn is_number(alloc: Global, argument: Option<&Expr>, text: &str) -> Result<bool, Failed> {
    let Some(expr) = argument else {
        return Ok(false);
    };
    Ok(*expr == *new_box(alloc, Expr::from(number(text)))?)
}

/// Whether the arguments are 1 and 2, first and last.
fn are_both_lent(alloc: Global, args: &FunctionArgs) -> Result<bool, Failed> {
    let is_first = is_number(alloc, args.first(), "1")?;
    let is_last = is_number(alloc, args.last(), "2")?;
    Ok(is_first && is_last && !args.is_empty() && args.len() == 2)
}

/// Whether two arguments are counted, lent, copied and printed.
fn are_both_there(alloc: Global) -> Result<bool, Failed> {
    let two = arguments(alloc, &["1", "2"])?;
    let are_lent = are_both_lent(alloc, &two)?;
    let is_copied = is_copy(&two, two.try_clone(alloc))?;
    Ok(are_lent && is_copied && two.to_string(alloc)?.as_str() == "1, 2")
}

#[test]
fn arguments_are_counted_lent_copied_and_printed(rt: HostRuntime) {
    is_so(&rt, are_both_there(rt.alloc()), "1, 2");
}
