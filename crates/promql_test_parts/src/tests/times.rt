//! Moments after `@`: from numbers, from words, and how they print.

use crate::tests::{holds, is_so, prints};
use promql_ast::{AtFault, AtModifier, Expr, NumberLiteral, VectorSelector};
use promql_text::{Number, parse_str_radix};
use promql_token::ids::{T_END, T_START, T_STEP};
use promql_token::{Token, TokenId, token_display};
use std::alloc::{AllocError, Global};
use std::process::Abort;
use std::test::Fail;

/// The number of a text.
fn number(text: &str) -> Number {
    parse_str_radix(text).unwrap_or(Number::NaN)
}

/// The time, or the message of what is wrong with it.
fn time_text(alloc: Global, time: Result<AtModifier, AtFault>) -> Result<String, AllocError> {
    match time {
        Ok(at) => at.to_string(alloc),
        Err(fault) => fault.to_string(alloc),
    }
}

/// Seconds with the time that they give.
const SECONDS: [(&str, &str); 7] = [
    ("1.0005", "@ 1.001"),
    ("-1.0005", "@ -1.001"),
    ("9223372036854775.807", "@ 9223372036854775.807"),
    ("-9223372036854775.8084", "@ -9223372036854775.808"),
    (
        "9223372036854775.8075",
        "timestamp out of bounds for @ modifier: 9223372036854775.8075",
    ),
    ("inf", "timestamp out of bounds for @ modifier: Inf"),
    ("nan", "timestamp out of bounds for @ modifier: NaN"),
];

/// The number of a text as it is, as a node and as an expression gives this time, or this message.
fn check_number(rt: &impl Abort, alloc: Global, text: &str, want: &str) {
    let time = AtModifier::try_from(number(text));
    prints(rt, time_text(alloc, time), want);
    let time = AtModifier::try_from(NumberLiteral::new(number(text)));
    prints(rt, time_text(alloc, time), want);
    let time = AtModifier::try_from(Expr::from(number(text)));
    prints(rt, time_text(alloc, time), want);
}

#[test]
fn times_are_rounded_away_from_zero(rt: HostRuntime) {
    for (text, want) in &SECONDS {
        check_number(&rt, rt.alloc(), text, want);
    }
}

/// Ids, and the times that they are.
const IDS: [(TokenId, Result<AtModifier, AtFault>); 3] = [
    (T_START, Ok(AtModifier::Start)),
    (T_END, Ok(AtModifier::End)),
    (T_STEP, Err(AtFault::NotPreprocessor(T_STEP))),
];

/// Whether the token of an id is this time.
fn is_time(
    alloc: Global,
    id: TokenId,
    want: &Result<AtModifier, AtFault>,
) -> Result<bool, AllocError> {
    let token = Token::new(id, String::from_str(alloc, token_display(id))?);
    Ok(AtModifier::try_from(token) == *want)
}

#[test]
fn only_start_and_end_are_times(rt: HostRuntime) {
    for (id, want) in &IDS {
        holds(&rt, AtModifier::try_from(*id) == *want, "an id");
        is_so(&rt, is_time(rt.alloc(), *id, want), "a token");
    }
}

/// What `-a` is as a time.
fn minus(alloc: Global) -> Result<Result<AtModifier, AtFault>, Fail> {
    let name = Expr::from(VectorSelector::of_str(alloc, "a")?);
    Ok(AtModifier::try_from(Expr::new_unary_expr(alloc, name)?))
}

#[test]
fn faults_of_times_have_messages(rt: HostRuntime) -> Result<(), Fail> {
    let alloc = rt.alloc();
    let step = AtFault::NotPreprocessor(T_STEP).to_string(alloc);
    let message = "invalid @ modifier preprocessor 'step', START or END is valid.";
    prints(&rt, step, message);
    let minus = minus(alloc)?;
    holds(&rt, minus == Err(AtFault::NotANumber), "-a");
    let message = "invalid float value after @ modifier";
    prints(&rt, time_text(alloc, minus), message);
    Ok(())
}
