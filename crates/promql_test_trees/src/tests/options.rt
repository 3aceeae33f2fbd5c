//! Widths, precisions and flags of a placeholder, which no value heeds: it prints its text, and no space beside it.

use super::layout::statement;
use super::trees::{KINDS, arguments, kind, number, read};
use super::{holds, is_so};
use promql_ast::{
    AtFault, AtModifier, BinaryExpr, CheckError, CheckFault, Expr, NodeFault, Offset, PrettyError,
    TypeContext,
};
use promql_kind::{BinModifier, ValueType};
use promql_label::{Matcher, MatcherError, Matchers, PatternFault};
use promql_parser::parser::ParseError;
use promql_text::{DurationFault, DurationText, NumberFault, QuoteError, Quoted, minute_duration};
use promql_token::ids::{T_LAND, T_STEP, T_TOPK};
use promql_token::{LexError, LexFault, LexFaultKind, TokenType};
use promql_walk::JsonError;
use std::alloc::{AllocError, Global};
use std::fmt::Display;
use std::process::Abort;

/// Whether the value prints this text in each placeholder.
fn is_heedless<T: Display>(alloc: Global, value: &T, text: &str) -> Result<bool, AllocError> {
    let found = format!(in alloc; "{value:*>40}|{value:<40}|{value:#}|{value:.1}|{value:+09.1}")?;
    let want = format!(in alloc; "{text}|{text}|{text}|{text}|{text}")?;
    Ok(found == want)
}

/// The value prints this text in each placeholder.
fn heeds_none<T: Display>(rt: &impl Abort, alloc: Global, value: &T, text: &str) {
    is_so(rt, is_heedless(alloc, value, text), text);
}

/// The expression and its node print this text in each placeholder.
fn check_node(rt: &impl Abort, alloc: Global, expr: &Expr, text: &str) {
    heeds_none(rt, alloc, expr, text);
    match expr {
        Expr::Aggregate(e) => heeds_none(rt, alloc, e, text),
        Expr::Unary(e) => heeds_none(rt, alloc, e, text),
        Expr::Binary(e) => heeds_none(rt, alloc, e, text),
        Expr::Paren(e) => heeds_none(rt, alloc, e, text),
        Expr::Subquery(e) => heeds_none(rt, alloc, e, text),
        Expr::NumberLiteral(e) => heeds_none(rt, alloc, e, text),
        Expr::StringLiteral(e) => heeds_none(rt, alloc, e, text),
        Expr::VectorSelector(e) => heeds_none(rt, alloc, e, text),
        Expr::MatrixSelector(e) => heeds_none(rt, alloc, e, text),
        Expr::Call(e) => heeds_none(rt, alloc, e, text),
        Expr::Extension(e) => heeds_none(rt, alloc, e, text),
    }
}

#[test]
fn nodes_heed_no_option(rt: HostRuntime) {
    for text in &KINDS {
        match kind(rt.alloc(), text) {
            Ok(expr) => check_node(&rt, rt.alloc(), &expr, text),
            Err(_) => holds(&rt, false, text),
        }
    }
}

/// Texts that their numbers print.
const NUMBERS: [&str; 6] = ["-1.5", "25000", "0.001", "Inf", "-Inf", "NaN"];

#[test]
fn numbers_heed_no_option(rt: HostRuntime) {
    for text in NUMBERS {
        heeds_none(&rt, rt.alloc(), &number(text), text);
    }
}

#[test]
fn parts_heed_no_option(rt: HostRuntime) {
    let alloc = rt.alloc();
    let minute = minute_duration();
    heeds_none(&rt, alloc, &Quoted("a"), "\"a\"");
    heeds_none(&rt, alloc, &DurationText(&minute), "1m");
    heeds_none(&rt, alloc, &Offset::Neg(minute), "-1m");
    heeds_none(&rt, alloc, &AtModifier::At(-1), "@ -0.001");
    heeds_none(&rt, alloc, &AtModifier::Start, "@ start()");
    heeds_none(&rt, alloc, &TokenType::new(T_TOPK), "topk");
    heeds_none(&rt, alloc, &ValueType::Vector, "vector");
}

/// The matcher and its operator print `a=~"b"`.
fn check_matcher(rt: &impl Abort, alloc: Global, matcher: &Matcher) {
    heeds_none(rt, alloc, matcher, "a=~\"b\"");
    heeds_none(rt, alloc, &matcher.op, "=~");
}

fn check_matchers(rt: &impl Abort, alloc: Global, matchers: &Matchers) {
    heeds_none(rt, alloc, matchers, "a=~\"b\"");
    match matchers.matchers.first() {
        Some(matcher) => check_matcher(rt, alloc, matcher),
        None => holds(rt, false, "no matcher"),
    }
}

fn check_modifier(rt: &impl Abort, alloc: Global, modifier: &BinModifier) {
    heeds_none(rt, alloc, modifier, " on (a, \"b c\")");
    match &modifier.matching {
        Some(labels) => heeds_none(rt, alloc, labels.labels(), "a, \"b c\""),
        None => holds(rt, false, "no labels"),
    }
}

/// The operator's modifier and the matchers of its left side.
fn check_binary(rt: &impl Abort, alloc: Global, binary: &BinaryExpr) {
    match (&*binary.lhs, &binary.modifier) {
        (Expr::VectorSelector(e), Some(modifier)) => {
            check_matchers(rt, alloc, &e.matchers);
            check_modifier(rt, alloc, modifier)
        }
        _ => holds(rt, false, "no selector or no modifier"),
    }
}

fn check_sum(rt: &impl Abort, alloc: Global, expr: &Expr) {
    match expr {
        Expr::Binary(e) => check_binary(rt, alloc, e),
        _ => holds(rt, false, "no operator"),
    }
}

#[test]
fn lists_heed_no_option(rt: HostRuntime) {
    match read(rt.alloc(), "{a=~'b'} + on (a, 'b c') d") {
        Ok(expr) => check_sum(&rt, rt.alloc(), &expr),
        Err(_) => holds(&rt, false, "a sum"),
    }
}

#[test]
fn arguments_heed_no_option(rt: HostRuntime) {
    match arguments(rt.alloc(), &["1", "a"]) {
        Ok(args) => heeds_none(&rt, rt.alloc(), &args, "1, a"),
        Err(_) => holds(&rt, false, "1, a"),
    }
}

#[test]
fn statements_heed_no_option(rt: HostRuntime) {
    let text = "[a] @ [-1.500, 0.000, 15s, 5m]";
    match statement(rt.alloc(), -1500, 0) {
        Ok(statement) => heeds_none(&rt, rt.alloc(), &*statement, text),
        Err(_) => holds(&rt, false, text),
    }
}

const CHARACTER: LexFault = LexFault {
    kind: LexFaultKind::Character,
    at: 3,
    ch: Some('~'),
};

#[test]
fn faults_of_texts_heed_no_option(rt: HostRuntime) {
    let alloc = rt.alloc();
    let character = "unexpected character: '~'";
    heeds_none(&rt, alloc, &CHARACTER, character);
    heeds_none(&rt, alloc, &LexError::Fault(CHARACTER), character);
    heeds_none(&rt, alloc, &ParseError::Lex(CHARACTER), character);
    heeds_none(&rt, alloc, &QuoteError::InvalidSyntax, "invalid syntax");
    heeds_none(&rt, alloc, &NumberFault::NotANumber, "not a number");
    heeds_none(&rt, alloc, &DurationFault::Overflow, "duration overflowed");
}

#[test]
fn faults_of_parts_heed_no_option(rt: HostRuntime) {
    let alloc = rt.alloc();
    heeds_none(&rt, alloc, &PatternFault::Memory, "out of memory");
    heeds_none(
        &rt,
        alloc,
        &MatcherError::InvalidOp(24),
        "invalid match op +",
    );
    let not_a_number = "invalid float value after @ modifier";
    heeds_none(&rt, alloc, &AtFault::NotANumber, not_a_number);
    let step = "invalid @ modifier preprocessor 'step', START or END is valid.";
    heeds_none(&rt, alloc, &AtFault::NotPreprocessor(T_STEP), step);
    heeds_none(
        &rt,
        alloc,
        &PrettyError::IndentTooWide,
        "indentation too wide",
    );
    heeds_none(&rt, alloc, &JsonError::Memory, "out of memory");
}

const NO_GROUPING: &str = "no grouping allowed for 'and' operation";

#[test]
fn faults_of_checks_heed_no_option(rt: HostRuntime) {
    let alloc = rt.alloc();
    let and = CheckFault::NoGrouping(TokenType::new(T_LAND));
    heeds_none(&rt, alloc, &and, NO_GROUPING);
    heeds_none(&rt, alloc, &CheckError::Check(and), NO_GROUPING);
    let second_time = "@ <timestamp> may not be set multiple times";
    heeds_none(&rt, alloc, &NodeFault::AtTwice, second_time);
    heeds_none(
        &rt,
        alloc,
        &CheckFault::Node(NodeFault::AtTwice),
        second_time,
    );
    heeds_none(
        &rt,
        alloc,
        &TypeContext::Aggregation,
        "aggregation expression",
    );
    heeds_none(
        &rt,
        alloc,
        &TypeContext::CallOf("rate"),
        "call to function 'rate'",
    );
}
