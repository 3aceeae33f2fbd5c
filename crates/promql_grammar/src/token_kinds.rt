//! What a token is to the grammar.

ghost use Rattle.std.specs.Prelude.{◌≡◌};
ghost use Rattle.promql_grammar.specs.Symbols as spec;

use promql_token::TokenId;
use promql_token::ids::*;

/// The kind of a token (docs/reference/grammar.md, "Kinds of tokens").
#[derive(Clone, Copy, Debug, PartialEq, Eq)]
pub enum TokenKind {
    Number,
    Duration,
    String,
    /// An identifier.
    Identifier,
    /// A name with a `:` in it.
    MetricIdentifier,
    /// An operator between two expressions, with its id. Some are words.
    Operator(TokenId),
    /// A word that aggregates, as `sum`, with its id.
    Aggregator(TokenId),
    By,
    Without,
    On,
    Ignoring,
    GroupLeft,
    GroupRight,
    Bool,
    Offset,
    Start,
    End,
    Smoothed,
    Anchored,
    Fill,
    FillLeft,
    FillRight,
    LeftParen,
    RightParen,
    LeftBrace,
    RightBrace,
    LeftBracket,
    RightBracket,
    Comma,
    Colon,
    /// `=`, in braces.
    Equal,
    /// `=~`
    EqualRegex,
    /// `!~`
    NotEqualRegex,
    /// `@`
    At,
    /// An id that the lexer never gives, or gives at the end alone.
    Other,
}

/// The kind of each token id, in the order of the ids.
pub const TOKEN_KINDS: [(TokenId, TokenKind); 86] = [
    (T_EQL, TokenKind::Equal),
    (T_BLANK, TokenKind::Other),
    (T_COLON, TokenKind::Colon),
    (T_COMMA, TokenKind::Comma),
    (T_COMMENT, TokenKind::Other),
    (T_DURATION, TokenKind::Duration),
    (T_EOF, TokenKind::Other),
    (T_ERROR, TokenKind::Other),
    (T_IDENTIFIER, TokenKind::Identifier),
    (T_LEFT_BRACE, TokenKind::LeftBrace),
    (T_LEFT_BRACKET, TokenKind::LeftBracket),
    (T_LEFT_PAREN, TokenKind::LeftParen),
    (T_OPEN_HIST, TokenKind::Other),
    (T_CLOSE_HIST, TokenKind::Other),
    (T_METRIC_IDENTIFIER, TokenKind::MetricIdentifier),
    (T_NUMBER, TokenKind::Number),
    (T_RIGHT_BRACE, TokenKind::RightBrace),
    (T_RIGHT_BRACKET, TokenKind::RightBracket),
    (T_RIGHT_PAREN, TokenKind::RightParen),
    (T_SEMICOLON, TokenKind::Other),
    (T_SPACE, TokenKind::Other),
    (T_STRING, TokenKind::String),
    (T_TIMES, TokenKind::Other),
    (T_OPERATORS_START, TokenKind::Other),
    (T_ADD, TokenKind::Operator(T_ADD)),
    (T_DIV, TokenKind::Operator(T_DIV)),
    (T_EQLC, TokenKind::Operator(T_EQLC)),
    (T_EQL_REGEX, TokenKind::EqualRegex),
    (T_GTE, TokenKind::Operator(T_GTE)),
    (T_GTR, TokenKind::Operator(T_GTR)),
    (T_LAND, TokenKind::Operator(T_LAND)),
    (T_LOR, TokenKind::Operator(T_LOR)),
    (T_LSS, TokenKind::Operator(T_LSS)),
    (T_LTE, TokenKind::Operator(T_LTE)),
    (T_LUNLESS, TokenKind::Operator(T_LUNLESS)),
    (T_MOD, TokenKind::Operator(T_MOD)),
    (T_MUL, TokenKind::Operator(T_MUL)),
    (T_NEQ, TokenKind::Operator(T_NEQ)),
    (T_NEQ_REGEX, TokenKind::NotEqualRegex),
    (T_POW, TokenKind::Operator(T_POW)),
    (T_SUB, TokenKind::Operator(T_SUB)),
    (T_AT, TokenKind::At),
    (T_ATAN2, TokenKind::Operator(T_ATAN2)),
    (T_OPERATORS_END, TokenKind::Other),
    (T_AGGREGATORS_START, TokenKind::Other),
    (T_AVG, TokenKind::Aggregator(T_AVG)),
    (T_BOTTOMK, TokenKind::Aggregator(T_BOTTOMK)),
    (T_COUNT, TokenKind::Aggregator(T_COUNT)),
    (T_COUNT_VALUES, TokenKind::Aggregator(T_COUNT_VALUES)),
    (T_GROUP, TokenKind::Aggregator(T_GROUP)),
    (T_MAX, TokenKind::Aggregator(T_MAX)),
    (T_MIN, TokenKind::Aggregator(T_MIN)),
    (T_QUANTILE, TokenKind::Aggregator(T_QUANTILE)),
    (T_STDDEV, TokenKind::Aggregator(T_STDDEV)),
    (T_STDVAR, TokenKind::Aggregator(T_STDVAR)),
    (T_SUM, TokenKind::Aggregator(T_SUM)),
    (T_TOPK, TokenKind::Aggregator(T_TOPK)),
    (T_LIMITK, TokenKind::Aggregator(T_LIMITK)),
    (T_LIMIT_RATIO, TokenKind::Aggregator(T_LIMIT_RATIO)),
    (T_AGGREGATORS_END, TokenKind::Other),
    (T_KEYWORDS_START, TokenKind::Other),
    (T_BOOL, TokenKind::Bool),
    (T_BY, TokenKind::By),
    (T_GROUP_LEFT, TokenKind::GroupLeft),
    (T_GROUP_RIGHT, TokenKind::GroupRight),
    (T_IGNORING, TokenKind::Ignoring),
    (T_OFFSET, TokenKind::Offset),
    (T_SMOOTHED, TokenKind::Smoothed),
    (T_ANCHORED, TokenKind::Anchored),
    (T_ON, TokenKind::On),
    (T_WITHOUT, TokenKind::Without),
    (T_FILL, TokenKind::Fill),
    (T_FILL_LEFT, TokenKind::FillLeft),
    (T_FILL_RIGHT, TokenKind::FillRight),
    (T_KEYWORDS_END, TokenKind::Other),
    (T_PREPROCESSOR_START, TokenKind::Other),
    (T_START, TokenKind::Start),
    (T_END, TokenKind::End),
    (T_STEP, TokenKind::Other),
    (T_PREPROCESSOR_END, TokenKind::Other),
    (T_STARTSYMBOLS_START, TokenKind::Other),
    (T_START_METRIC, TokenKind::Other),
    (T_START_SERIES_DESCRIPTION, TokenKind::Other),
    (T_START_EXPRESSION, TokenKind::Other),
    (T_START_METRIC_SELECTOR, TokenKind::Other),
    (T_STARTSYMBOLS_END, TokenKind::Other),
];

fn kind_in(table: &[(TokenId, TokenKind)], id: TokenId) -> TokenKind
    ensures { result ≡ spec.kind_in table.now id }
{
    let index = id as usize;
    if index < table.len() {
        table[index].1
    } else {
        TokenKind::Other
    }
}

/// The kind of a token id.
pub fn token_kind(id: TokenId) -> TokenKind
    ensures { result ≡ spec.token_kind id }
{
    kind_in(&TOKEN_KINDS, id)
}

impl TokenKind {
    /// Whether a token of this kind may be a name.
    pub fn may_be_name(self) -> bool
        ensures { result ≡ spec.may_be_name self }
    {
        match self {
            TokenKind::Identifier
            | TokenKind::MetricIdentifier
            | TokenKind::Aggregator(_)
            | TokenKind::By
            | TokenKind::Without
            | TokenKind::Offset
            | TokenKind::Start
            | TokenKind::End
            | TokenKind::Smoothed
            | TokenKind::Anchored => true,
            TokenKind::Operator(op) => matches!(op, T_LAND | T_LOR | T_LUNLESS | T_ATAN2),
            _ => false,
        }
    }

    /// Whether a token of this kind may be the name of a function.
    pub fn may_be_called(self) -> bool
        ensures { result ≡ spec.may_be_called self }
    {
        matches!(
            self,
            TokenKind::Identifier | TokenKind::Start | TokenKind::End
        )
    }

    /// Whether a token of this kind may be a label.
    pub fn may_be_label(self) -> bool
        ensures { result ≡ spec.may_be_label self }
    {
        match self {
            TokenKind::MetricIdentifier => false,
            TokenKind::String
            | TokenKind::Bool
            | TokenKind::On
            | TokenKind::Ignoring
            | TokenKind::GroupLeft
            | TokenKind::GroupRight => true,
            _ => self.may_be_name(),
        }
    }
}
