//! Each public name at its path in the facade: docs/API.md.

use super::{holds, prints};
use promql_parser::parser::value::{Value, ValueType};
use promql_parser::parser::{MAX_DEPTH, function, lex, token};
use promql_parser::util::{duration, number};
use promql_parser::{label, util};
use std::time::Duration;

/// The types, each by the paths that it has.
type Types<'a> = (
    promql_parser::parser::AggregateExpr,
    promql_parser::parser::AtFault,
    promql_parser::parser::AtModifier,
    promql_parser::parser::BinModifier,
    promql_parser::parser::BinaryExpr,
    promql_parser::parser::Call,
    promql_parser::parser::CheckError,
    promql_parser::parser::CheckFault,
    promql_parser::parser::EvalStmt,
    promql_parser::parser::ExpectedTokens,
    promql_parser::parser::Expr,
    promql_parser::parser::Extension,
    promql_parser::parser::Function,
    promql_parser::parser::FunctionArgs,
    promql_parser::parser::LabelModifier,
    promql_parser::parser::MatrixSelector,
    promql_parser::parser::NodeFault,
    promql_parser::parser::NumberLiteral,
    promql_parser::parser::Offset,
    promql_parser::parser::ParenExpr,
    promql_parser::parser::ParseError,
    promql_parser::parser::PrettyError,
    promql_parser::parser::RangeMode,
    promql_parser::parser::StringLiteral,
    promql_parser::parser::SubqueryExpr,
    promql_parser::parser::Tally,
    promql_parser::parser::TypeContext,
    promql_parser::parser::UnaryExpr,
    promql_parser::parser::Unexpected<'a>,
    promql_parser::parser::VectorMatchCardinality,
    promql_parser::parser::VectorMatchFillValues,
    promql_parser::parser::VectorSelector,
    promql_parser::parser::ast::AggregateExpr,
    promql_parser::parser::ast::AtFault,
    promql_parser::parser::ast::AtModifier,
    promql_parser::parser::ast::BinModifier,
    promql_parser::parser::ast::BinaryExpr,
    promql_parser::parser::ast::Call,
    promql_parser::parser::ast::CheckError,
    promql_parser::parser::ast::CheckFault,
    promql_parser::parser::ast::EvalStmt,
    promql_parser::parser::ast::Expr,
    promql_parser::parser::ast::Extension,
    promql_parser::parser::ast::LabelModifier,
    promql_parser::parser::ast::MatrixSelector,
    promql_parser::parser::ast::NodeFault,
    promql_parser::parser::ast::NumberLiteral,
    promql_parser::parser::ast::Offset,
    promql_parser::parser::ast::ParenExpr,
    promql_parser::parser::ast::RangeMode,
    promql_parser::parser::ast::StringLiteral,
    promql_parser::parser::ast::SubqueryExpr,
    promql_parser::parser::ast::TypeContext,
    promql_parser::parser::ast::UnaryExpr,
    promql_parser::parser::ast::VectorMatchCardinality,
    promql_parser::parser::ast::VectorMatchFillValues,
    promql_parser::parser::ast::VectorSelector,
    promql_parser::parser::function::Function,
    promql_parser::parser::function::FunctionArgs,
    promql_parser::parser::lex::LexError,
    promql_parser::parser::lex::LexFault,
    promql_parser::parser::lex::LexFaultKind,
    promql_parser::parser::lex::Lexeme,
    promql_parser::parser::lex::scan::Lexer<'a>,
    promql_parser::parser::token::Token,
    promql_parser::parser::token::TokenId,
    promql_parser::parser::token::TokenType,
    promql_parser::parser::value::ValueType,
    promql_parser::label::Label,
    promql_parser::label::Labels,
    promql_parser::label::MatchOp,
    promql_parser::label::Matcher,
    promql_parser::label::MatcherError,
    promql_parser::label::Matchers,
    promql_parser::label::Pattern,
    promql_parser::label::PatternFault,
    promql_parser::util::Location,
    promql_parser::util::QuoteError,
    promql_parser::util::duration::DurationFault,
    promql_parser::util::duration::DurationText<'a>,
    promql_parser::util::number::Decimal,
    promql_parser::util::number::Number,
    promql_parser::util::number::NumberFault,
);

/// The constants of ids, in the order of docs/reference/tokens.md.
const IDS: [token::TokenId; 86] = [
    token::T_EQL,
    token::T_BLANK,
    token::T_COLON,
    token::T_COMMA,
    token::T_COMMENT,
    token::T_DURATION,
    token::T_EOF,
    token::T_ERROR,
    token::T_IDENTIFIER,
    token::T_LEFT_BRACE,
    token::T_LEFT_BRACKET,
    token::T_LEFT_PAREN,
    token::T_OPEN_HIST,
    token::T_CLOSE_HIST,
    token::T_METRIC_IDENTIFIER,
    token::T_NUMBER,
    token::T_RIGHT_BRACE,
    token::T_RIGHT_BRACKET,
    token::T_RIGHT_PAREN,
    token::T_SEMICOLON,
    token::T_SPACE,
    token::T_STRING,
    token::T_TIMES,
    token::T_OPERATORS_START,
    token::T_ADD,
    token::T_DIV,
    token::T_EQLC,
    token::T_EQL_REGEX,
    token::T_GTE,
    token::T_GTR,
    token::T_LAND,
    token::T_LOR,
    token::T_LSS,
    token::T_LTE,
    token::T_LUNLESS,
    token::T_MOD,
    token::T_MUL,
    token::T_NEQ,
    token::T_NEQ_REGEX,
    token::T_POW,
    token::T_SUB,
    token::T_AT,
    token::T_ATAN2,
    token::T_OPERATORS_END,
    token::T_AGGREGATORS_START,
    token::T_AVG,
    token::T_BOTTOMK,
    token::T_COUNT,
    token::T_COUNT_VALUES,
    token::T_GROUP,
    token::T_MAX,
    token::T_MIN,
    token::T_QUANTILE,
    token::T_STDDEV,
    token::T_STDVAR,
    token::T_SUM,
    token::T_TOPK,
    token::T_LIMITK,
    token::T_LIMIT_RATIO,
    token::T_AGGREGATORS_END,
    token::T_KEYWORDS_START,
    token::T_BOOL,
    token::T_BY,
    token::T_GROUP_LEFT,
    token::T_GROUP_RIGHT,
    token::T_IGNORING,
    token::T_OFFSET,
    token::T_SMOOTHED,
    token::T_ANCHORED,
    token::T_ON,
    token::T_WITHOUT,
    token::T_FILL,
    token::T_FILL_LEFT,
    token::T_FILL_RIGHT,
    token::T_KEYWORDS_END,
    token::T_PREPROCESSOR_START,
    token::T_START,
    token::T_END,
    token::T_STEP,
    token::T_PREPROCESSOR_END,
    token::T_STARTSYMBOLS_START,
    token::T_START_METRIC,
    token::T_START_SERIES_DESCRIPTION,
    token::T_START_EXPRESSION,
    token::T_START_METRIC_SELECTOR,
    token::T_STARTSYMBOLS_END,
];

#[test]
fn ids_have_their_numbers(rt: HostRuntime) {
    for (number, id) in (0..u16::MAX).zip(&IDS) {
        assert_eq!(rt; *id, number);
    }
}

#[test]
fn names_of_labels(rt: HostRuntime) {
    holds(&rt, label::METRIC_NAME == "__name__", "__name__");
    holds(&rt, label::ALERT_NAME == "alertname", "alertname");
    holds(&rt, label::BUCKET_LABEL == "le", "le");
    holds(&rt, label::INSTANCE_NAME == "instance", "instance");
    holds(&rt, MAX_DEPTH == 512, "MAX_DEPTH");
}

#[test]
fn units_of_time(rt: HostRuntime) {
    for (unit, millis) in [
        (duration::milli_duration(), 1),
        (duration::second_duration(), 1_000),
        (duration::minute_duration(), 60_000),
        (duration::hour_duration(), 3_600_000),
        (duration::day_duration(), 86_400_000),
        (duration::week_duration(), 604_800_000),
        (duration::year_duration(), 31_536_000_000),
    ] {
        assert!(rt; unit == Duration::from_millis(millis), "{millis}");
    }
}

#[test]
fn texts_of_calls(rt: HostRuntime) {
    let alloc = rt.alloc();
    prints(&rt, util::escape_string(alloc, "\"{"), "\\\"{");
    prints(&rt, label::escape_repeats(alloc, "\"{"), "\"\\{");
    prints(&rt, util::unquote_string(alloc, "'\"{'"), "\"{");
    let hour = Duration::from_secs(3_600);
    prints(&rt, util::display_duration(alloc, &hour), "1h");
    prints(&rt, duration::display_duration(alloc, &hour), "1h");
}

#[test]
fn values_of_texts(rt: HostRuntime) {
    let hour = Ok(Duration::from_secs(3_600));
    holds(&rt, util::parse_duration("1h") == hour, "1h");
    holds(&rt, duration::parse_duration("1h") == hour, "1h");
    let ten = Ok(number::Number::from_i64(10));
    holds(&rt, util::parse_str_radix("0xA") == ten, "0xA");
    holds(&rt, number::parse_str_radix("0xA") == ten, "0xA");
}

#[test]
fn words_of_the_language(rt: HostRuntime) {
    holds(&rt, lex::is_label("b") && !lex::is_label("b:c"), "b");
    holds(&rt, token::token_display(token::T_TOPK) == "topk", "topk");
    let topk = token::get_keyword_token("topk");
    holds(&rt, topk == Some(token::T_TOPK), "topk");
    match function::get_function(rt.alloc(), "rate") {
        Ok(Some(rate)) => holds(&rt, rate.name == "rate", "rate"),
        _ => holds(&rt, false, "no function"),
    }
}

/// A value of a caller's own.
#[derive(Drop)]
struct Sample(u64);

impl Value for Sample {
    ghost use Rattle.promql_kind.specs.declared.value.ValueType.TheVariants.{Scalar};

    ghost type_of = { λ _. Scalar };

    fn vtype(&self) -> ValueType {
        ValueType::Scalar
    }
}

#[test]
fn values_have_types(rt: HostRuntime) {
    let sample = Sample(7);
    assert!(rt; sample.0 == 7 && sample.vtype() == ValueType::Scalar);
}
