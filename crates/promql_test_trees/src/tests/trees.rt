//! Trees and their parts, from texts and by hand.
//!
//! A tree that a test looks at is in a box. Where a function ends, the drop of a box is one step of its proof, and the drop
//! of an expression is one for each kind of node.

use super::Failed;
use promql_ast::{
    AtModifier, CheckError, Expr, Extension, FunctionArgs, Offset, RangeMode, VectorSelector,
};
use promql_kind::{
    BinModifier, Function, LabelModifier, ValueType, VectorMatchCardinality, get_function,
};
use promql_label::{MatchOp, Matcher, Matchers};
use promql_parser::parser::{ParseError, parse};
use promql_text::{Number, minute_duration, parse_str_radix};
use promql_token::TokenId;
use promql_token::ids::{T_ADD, T_TOPK};
use std::alloc::{AllocError, Global};

/// How each kind of node prints. The last one is of no text.
pub const KINDS: [&str; 12] = [
    "topk by (l) (5, a)",
    "-a",
    "a + on (l) group_left (k) b",
    "(a)",
    "a[5m:1m] @ start() offset -1m",
    "1.5",
    r#""a\"b""#,
    r#"a{b="1"} @ 1.000 offset 1m"#,
    "a[5m] anchored offset 1m",
    "rate(a[5m])",
    "a",
    EXTENSION,
];

/// How the node prints that the language lacks.
pub const EXTENSION: &str = "ext(a, 2)";

/// The expression in a box.
pub fn new_box(alloc: Global, expr: Expr) -> Result<Box<Expr>, AllocError> {
    Ok(Box::new(alloc, expr)?)
}

/// The tree of a text.
pub fn read(alloc: Global, text: &str) -> Result<Box<Expr>, ParseError> {
    Ok(new_box(alloc, parse(alloc, text)?)?)
}

/// The node of one of the kinds.
pub fn kind(alloc: Global, text: &str) -> Result<Box<Expr>, Failed> {
    if text == EXTENSION {
        return extension(alloc, &["a", "2"]);
    }
    Ok(read(alloc, text)?)
}

/// Whether the text gives this expression.
pub fn is_read(alloc: Global, expr: &Expr, text: &str) -> Result<bool, ParseError> {
    Ok(*read(alloc, text)? == *expr)
}

/// Whether the expression is the node of this kind.
pub fn is_kind(alloc: Global, expr: &Expr, text: &str) -> Result<bool, Failed> {
    Ok(*kind(alloc, text)? == *expr)
}

/// Whether the copy was made and is the value.
pub fn is_copy<T: PartialEq + Drop>(
    value: &T,
    copy: Result<T, AllocError>,
) -> Result<bool, AllocError> {
    Ok(copy? == *value)
}

/// The trees of texts.
fn read_each(alloc: Global, texts: &[&str]) -> Result<Vec<Expr>, Failed> {
    let mut trees = Vec::new(alloc);
    for text in texts {
        trees.push(parse(alloc, text)?)?;
    }
    Ok(trees)
}

/// `ext(TEXTS)`, which no text gives.
pub fn extension(alloc: Global, texts: &[&str]) -> Result<Box<Expr>, Failed> {
    let children = read_each(alloc, texts)?;
    Ok(new_box(alloc, extension_of(alloc, children)?)?)
}

/// The extension of these children.
fn extension_of(alloc: Global, children: Vec<Expr>) -> Result<Expr, CheckError> {
    let name = String::from_str(alloc, "ext")?;
    Ok(Expr::Extension(Extension {
        name,
        value_type: ValueType::Vector,
        children,
    }))
}

/// The arguments of these texts.
pub fn arguments(alloc: Global, texts: &[&str]) -> Result<FunctionArgs, Failed> {
    let mut args = Vec::new(alloc);
    for text in texts {
        args.push(read(alloc, text)?)?;
    }
    Ok(FunctionArgs { args })
}

/// The selector of a name.
pub fn name(alloc: Global, name: &str) -> Result<Expr, CheckError> {
    Ok(Expr::from(VectorSelector::of_str(alloc, name)?))
}

/// A matcher of a label that has to be this text.
pub fn equal(alloc: Global, name: &str, value: &str) -> Result<Matcher, CheckError> {
    Ok(Matcher::new(alloc, MatchOp::Equal, name, value)?)
}

/// The selector with five minutes as its range.
pub fn five_minutes(expr: Expr) -> Result<Expr, CheckError> {
    Expr::new_matrix_selector(expr, minute_duration() * 5)
}

/// The number of a text.
pub fn number(text: &str) -> Number {
    parse_str_radix(text).unwrap_or(Number::NaN)
}

/// The function of a name; of an unknown name, one that takes nothing.
pub fn function(alloc: Global, name: &str) -> Result<Function, CheckError> {
    let unknown = Function::new("unknown", Vec::new(alloc), 0, ValueType::Scalar, false);
    Ok(get_function(alloc, name)?.unwrap_or(unknown))
}

/// The call of a function with one argument.
pub fn call(alloc: Global, name: &str, arg: Expr) -> Result<Expr, CheckError> {
    let args = FunctionArgs::new_args(alloc, arg)?;
    Ok(Expr::new_call(function(alloc, name)?, args))
}

/// `by`, or `on`, with these labels.
pub fn include(alloc: Global, labels: &[&str]) -> Result<LabelModifier, AllocError> {
    LabelModifier::include(alloc, labels.to_vec(alloc)?)
}

/// `group_left` with these labels.
fn many_to_one(alloc: Global, labels: &[&str]) -> Result<VectorMatchCardinality, AllocError> {
    VectorMatchCardinality::many_to_one(alloc, labels.to_vec(alloc)?)
}

/// `on` and `group_left`, each with its labels.
pub fn grouped(alloc: Global, on: &[&str], left: &[&str]) -> Result<BinModifier, AllocError> {
    let on = include(alloc, on)?;
    let card = many_to_one(alloc, left)?;
    Ok(
        BinModifier::default()
            .with_card(card)
            .with_matching(Some(on)),
    )
}

/// `a` and `b` with this token and modifier between them.
pub fn operation(
    alloc: Global,
    op: TokenId,
    modifier: Option<BinModifier>,
) -> Result<Expr, CheckError> {
    let a = VectorSelector::of_str(alloc, "a")?;
    let b = VectorSelector::of_str(alloc, "b")?;
    Ok(Expr::new_binary_expr(alloc, Expr::from(a), op, modifier, Expr::from(b))?)
}

/// `topk by (l) (5, a)`
fn topk_by(alloc: Global) -> Result<Expr, CheckError> {
    let five = FunctionArgs::new_args(alloc, Expr::from(number("5")))?;
    let args = five.append_args(alloc, name(alloc, "a")?)?;
    Expr::new_aggregate_expr(alloc, T_TOPK, Some(include(alloc, &["l"])?), args)
}

/// `a + on (l) group_left (k) b`
fn grouped_sum(alloc: Global) -> Result<Expr, CheckError> {
    operation(alloc, T_ADD, Some(grouped(alloc, &["l"], &["k"])?))
}

/// `a[5m:1m] @ start() offset -1m`
fn subquery_at_start(alloc: Global) -> Result<Expr, CheckError> {
    let step = Some(minute_duration());
    Expr::new_subquery_expr(alloc, name(alloc, "a")?, minute_duration() * 5, step)?
        .at_expr(AtModifier::Start)?
        .offset_expr(Offset::Neg(minute_duration()))
}

/// `a{b="1"} @ 1.000 offset 1m`
fn selector_at_a_second(alloc: Global) -> Result<Expr, CheckError> {
    let matchers = Matchers::one(alloc, equal(alloc, "b", "1")?)?;
    let name = Some(String::from_str(alloc, "a")?);
    Expr::new_vector_selector(name, matchers)
        .offset_expr(Offset::Pos(minute_duration()))?
        .at_expr(AtModifier::At(1000))
}

/// `a[5m] anchored offset 1m`
fn anchored_range(alloc: Global) -> Result<Expr, CheckError> {
    five_minutes(name(alloc, "a")?)?
        .mode_expr(RangeMode::Anchored)?
        .offset_expr(Offset::Pos(minute_duration()))
}

/// `rate(a[5m])`
fn rate(alloc: Global) -> Result<Expr, CheckError> {
    call(alloc, "rate", five_minutes(name(alloc, "a")?)?)
}

/// `ext(a, 2)`
fn extended(alloc: Global) -> Result<Expr, CheckError> {
    let children = vec![in alloc; name(alloc, "a")?, Expr::from(number("2"))]?;
    extension_of(alloc, children)
}

/// The kind of this number by the builders.
pub fn built(alloc: Global, number_of_kind: usize) -> Result<Expr, CheckError> {
    match number_of_kind {
        0 => topk_by(alloc),
        1 => Expr::new_unary_expr(alloc, name(alloc, "a")?),
        2 => grouped_sum(alloc),
        3 => Ok(Expr::new_paren_expr(alloc, name(alloc, "a")?)?),
        4 => subquery_at_start(alloc),
        5 => Ok(Expr::from(number("1.5"))),
        6 => Ok(Expr::of_str(alloc, "a\"b")?),
        7 => selector_at_a_second(alloc),
        8 => anchored_range(alloc),
        9 => rate(alloc),
        10 => name(alloc, "a"),
        _ => extended(alloc),
    }
}
