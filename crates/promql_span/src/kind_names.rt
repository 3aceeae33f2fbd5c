//! Kinds of tokens by their names for people: docs/reference/grammar.md, "What is expected".

ghost use Rattle.std.specs.Prelude.{◌≡◌};
ghost use Rattle.promql_grammar.specs.Symbols.{may_begin};
ghost use Rattle.promql_grammar.specs.declared.token_kinds.TokenKind.TheVariants as kind;
ghost use Rattle.promql_span.specs.KindNames as spec;

use promql_grammar::TokenKind;
use promql_token::TokenId;
use promql_token::ids::*;

/// The name of a kind of tokens: what they are, or in quotes the one text that they have.
pub fn kind_name(kind: TokenKind) -> &'static str
    ensures { result.now ≡ spec.kind_name kind }
{
    match kind {
        TokenKind::Number => "number",
        TokenKind::Duration => "duration",
        TokenKind::String => "string",
        TokenKind::Identifier => "identifier",
        TokenKind::MetricIdentifier => "metric name",
        TokenKind::Aggregator(_) => "aggregation",
        TokenKind::Operator(id) => operator_name(id),
        TokenKind::Other => "other token",
        TokenKind::By => "\"by\"",
        TokenKind::Without => "\"without\"",
        TokenKind::On => "\"on\"",
        TokenKind::Ignoring => "\"ignoring\"",
        TokenKind::GroupLeft => "\"group_left\"",
        TokenKind::GroupRight => "\"group_right\"",
        TokenKind::Bool => "\"bool\"",
        TokenKind::Offset => "\"offset\"",
        TokenKind::Start => "\"start\"",
        TokenKind::End => "\"end\"",
        TokenKind::Smoothed => "\"smoothed\"",
        TokenKind::Anchored => "\"anchored\"",
        TokenKind::Fill => "\"fill\"",
        TokenKind::FillLeft => "\"fill_left\"",
        TokenKind::FillRight => "\"fill_right\"",
        TokenKind::LeftParen => "\"(\"",
        TokenKind::RightParen => "\")\"",
        TokenKind::LeftBrace => "\"{\"",
        TokenKind::RightBrace => "\"}\"",
        TokenKind::LeftBracket => "\"[\"",
        TokenKind::RightBracket => "\"]\"",
        TokenKind::Comma => "\",\"",
        TokenKind::Colon => "\":\"",
        TokenKind::Equal => "\"=\"",
        TokenKind::EqualRegex => "\"=~\"",
        TokenKind::NotEqualRegex => "\"!~\"",
        TokenKind::At => "\"@\"",
    }
}

/// The names of operators.
fn operator_name(id: TokenId) -> &'static str
    ensures { result.now ≡ spec.kind_name (kind.Operator id) }
{
    match id {
        T_ADD => "\"+\"",
        T_SUB => "\"-\"",
        T_MUL => "\"*\"",
        T_DIV => "\"/\"",
        T_MOD => "\"%\"",
        T_POW => "\"^\"",
        T_EQLC => "\"==\"",
        T_NEQ => "\"!=\"",
        T_GTR => "\">\"",
        T_GTE => "\">=\"",
        T_LSS => "\"<\"",
        T_LTE => "\"<=\"",
        T_LAND => "\"and\"",
        T_LOR => "\"or\"",
        T_LUNLESS => "\"unless\"",
        T_ATAN2 => "\"atan2\"",
        _ => "\"unknown token\"",
    }
}

/// Whether an expression may begin with a token of this kind.
pub fn begins_expression(kind: TokenKind) -> bool
    ensures { result ≡ may_begin kind }
{
    match kind {
        TokenKind::Number
        | TokenKind::Duration
        | TokenKind::String
        | TokenKind::LeftParen
        | TokenKind::LeftBrace
        | TokenKind::Operator(T_ADD | T_SUB) => true,
        _ => kind.may_be_name(),
    }
}
