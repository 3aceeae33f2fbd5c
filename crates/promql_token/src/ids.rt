//! The ids of tokens, their texts, and the words that are keywords.

ghost use Rattle.std.specs.Prelude.{◌≡◌, ◌==◌, ◌≤◌, codes, filter, length, map, slice_get, slice_index};
ghost use Rattle.std.specs.Option.{unwrap_or};
ghost use Rattle.std.specs.List.{slice_range};
ghost use Rattle.std.specs.Char.{to_ascii_lowercase};
ghost use Rattle.std.specs.Str.{str_eq_ignore_ascii_case};
ghost use Rattle.promql_token.specs.Ids as spec;
ghost use Rattle.promql_token.specs.WordCases.{same_word};

use crate::class::byte;

/// The number of a kind of token.
pub type TokenId = u16;

pub const T_EQL: TokenId = 0;

pub const T_BLANK: TokenId = 1;

pub const T_COLON: TokenId = 2;

pub const T_COMMA: TokenId = 3;

pub const T_COMMENT: TokenId = 4;

pub const T_DURATION: TokenId = 5;

pub const T_EOF: TokenId = 6;

pub const T_ERROR: TokenId = 7;

pub const T_IDENTIFIER: TokenId = 8;

pub const T_LEFT_BRACE: TokenId = 9;

pub const T_LEFT_BRACKET: TokenId = 10;

pub const T_LEFT_PAREN: TokenId = 11;

pub const T_OPEN_HIST: TokenId = 12;

pub const T_CLOSE_HIST: TokenId = 13;

pub const T_METRIC_IDENTIFIER: TokenId = 14;

pub const T_NUMBER: TokenId = 15;

pub const T_RIGHT_BRACE: TokenId = 16;

pub const T_RIGHT_BRACKET: TokenId = 17;

pub const T_RIGHT_PAREN: TokenId = 18;

pub const T_SEMICOLON: TokenId = 19;

pub const T_SPACE: TokenId = 20;

pub const T_STRING: TokenId = 21;

pub const T_TIMES: TokenId = 22;

pub const T_OPERATORS_START: TokenId = 23;

pub const T_ADD: TokenId = 24;

pub const T_DIV: TokenId = 25;

pub const T_EQLC: TokenId = 26;

pub const T_EQL_REGEX: TokenId = 27;

pub const T_GTE: TokenId = 28;

pub const T_GTR: TokenId = 29;

pub const T_LAND: TokenId = 30;

pub const T_LOR: TokenId = 31;

pub const T_LSS: TokenId = 32;

pub const T_LTE: TokenId = 33;

pub const T_LUNLESS: TokenId = 34;

pub const T_MOD: TokenId = 35;

pub const T_MUL: TokenId = 36;

pub const T_NEQ: TokenId = 37;

pub const T_NEQ_REGEX: TokenId = 38;

pub const T_POW: TokenId = 39;

pub const T_SUB: TokenId = 40;

pub const T_AT: TokenId = 41;

pub const T_ATAN2: TokenId = 42;

pub const T_OPERATORS_END: TokenId = 43;

pub const T_AGGREGATORS_START: TokenId = 44;

pub const T_AVG: TokenId = 45;

pub const T_BOTTOMK: TokenId = 46;

pub const T_COUNT: TokenId = 47;

pub const T_COUNT_VALUES: TokenId = 48;

pub const T_GROUP: TokenId = 49;

pub const T_MAX: TokenId = 50;

pub const T_MIN: TokenId = 51;

pub const T_QUANTILE: TokenId = 52;

pub const T_STDDEV: TokenId = 53;

pub const T_STDVAR: TokenId = 54;

pub const T_SUM: TokenId = 55;

pub const T_TOPK: TokenId = 56;

pub const T_LIMITK: TokenId = 57;

pub const T_LIMIT_RATIO: TokenId = 58;

pub const T_AGGREGATORS_END: TokenId = 59;

pub const T_KEYWORDS_START: TokenId = 60;

pub const T_BOOL: TokenId = 61;

pub const T_BY: TokenId = 62;

pub const T_GROUP_LEFT: TokenId = 63;

pub const T_GROUP_RIGHT: TokenId = 64;

pub const T_IGNORING: TokenId = 65;

pub const T_OFFSET: TokenId = 66;

pub const T_SMOOTHED: TokenId = 67;

pub const T_ANCHORED: TokenId = 68;

pub const T_ON: TokenId = 69;

pub const T_WITHOUT: TokenId = 70;

pub const T_FILL: TokenId = 71;

pub const T_FILL_LEFT: TokenId = 72;

pub const T_FILL_RIGHT: TokenId = 73;

pub const T_KEYWORDS_END: TokenId = 74;

pub const T_PREPROCESSOR_START: TokenId = 75;

pub const T_START: TokenId = 76;

pub const T_END: TokenId = 77;

pub const T_STEP: TokenId = 78;

pub const T_PREPROCESSOR_END: TokenId = 79;

pub const T_STARTSYMBOLS_START: TokenId = 80;

pub const T_START_METRIC: TokenId = 81;

pub const T_START_SERIES_DESCRIPTION: TokenId = 82;

pub const T_START_EXPRESSION: TokenId = 83;

pub const T_START_METRIC_SELECTOR: TokenId = 84;

pub const T_STARTSYMBOLS_END: TokenId = 85;

/// The text of each id, as tokens print, in the order of the ids.
const TEXTS: [(TokenId, &str); 86] = [
    (T_EQL, "="),
    (T_BLANK, "_"),
    (T_COLON, ":"),
    (T_COMMA, ","),
    (T_COMMENT, "#"),
    (T_DURATION, "[du]"),
    (T_EOF, "<eof>"),
    (T_ERROR, "{Err}"),
    (T_IDENTIFIER, "{ID}"),
    (T_LEFT_BRACE, "{"),
    (T_LEFT_BRACKET, "["),
    (T_LEFT_PAREN, "("),
    (T_OPEN_HIST, "{{"),
    (T_CLOSE_HIST, "}}"),
    (T_METRIC_IDENTIFIER, "{Metric_ID}"),
    (T_NUMBER, "{Num}"),
    (T_RIGHT_BRACE, "}"),
    (T_RIGHT_BRACKET, "]"),
    (T_RIGHT_PAREN, ")"),
    (T_SEMICOLON, ","),
    (T_SPACE, "<space>"),
    (T_STRING, "{Str}"),
    (T_TIMES, "x"),
    (T_OPERATORS_START, "operators_start"),
    (T_ADD, "+"),
    (T_DIV, "/"),
    (T_EQLC, "=="),
    (T_EQL_REGEX, "=~"),
    (T_GTE, ">="),
    (T_GTR, ">"),
    (T_LAND, "and"),
    (T_LOR, "or"),
    (T_LSS, "<"),
    (T_LTE, "<="),
    (T_LUNLESS, "unless"),
    (T_MOD, "%"),
    (T_MUL, "*"),
    (T_NEQ, "!="),
    (T_NEQ_REGEX, "!~"),
    (T_POW, "^"),
    (T_SUB, "-"),
    (T_AT, "@"),
    (T_ATAN2, "atan2"),
    (T_OPERATORS_END, "operators_end"),
    (T_AGGREGATORS_START, "aggregators_start"),
    (T_AVG, "avg"),
    (T_BOTTOMK, "bottomk"),
    (T_COUNT, "count"),
    (T_COUNT_VALUES, "count_values"),
    (T_GROUP, "group"),
    (T_MAX, "max"),
    (T_MIN, "min"),
    (T_QUANTILE, "quantile"),
    (T_STDDEV, "stddev"),
    (T_STDVAR, "stdvar"),
    (T_SUM, "sum"),
    (T_TOPK, "topk"),
    (T_LIMITK, "limitk"),
    (T_LIMIT_RATIO, "limit_ratio"),
    (T_AGGREGATORS_END, "aggregators_end"),
    (T_KEYWORDS_START, "keywords_start"),
    (T_BOOL, "bool"),
    (T_BY, "by"),
    (T_GROUP_LEFT, "group_left"),
    (T_GROUP_RIGHT, "group_right"),
    (T_IGNORING, "ignoring"),
    (T_OFFSET, "offset"),
    (T_SMOOTHED, "smoothed"),
    (T_ANCHORED, "anchored"),
    (T_ON, "on"),
    (T_WITHOUT, "without"),
    (T_FILL, "fill"),
    (T_FILL_LEFT, "fill_left"),
    (T_FILL_RIGHT, "fill_right"),
    (T_KEYWORDS_END, "keywords_end"),
    (T_PREPROCESSOR_START, "preprocessor_start"),
    (T_START, "start"),
    (T_END, "end"),
    (T_STEP, "step"),
    (T_PREPROCESSOR_END, "preprocessors_end"),
    (T_STARTSYMBOLS_START, "not used"),
    (T_START_METRIC, "not used"),
    (T_START_SERIES_DESCRIPTION, "not used"),
    (T_START_EXPRESSION, "not used"),
    (T_START_METRIC_SELECTOR, "not used"),
    (T_STARTSYMBOLS_END, "not used"),
];

fn text_in(table: &[(TokenId, &'static str)], id: TokenId) -> &'static str
    ensures { result.now ≡ unwrap_or (slice_get (map (λ row. row.1.now) table.now) id)
        (codes "unknown token") }
{
    let place = id as usize;
    if place < table.len() {
        table[place].1
    } else {
        "unknown token"
    }
}

/// The text of an id, as tokens print.
pub fn token_display(id: TokenId) -> &'static str
    ensures { result.now ≡ spec.text_of id }
{
    text_in(&TEXTS, id)
}

/// The words that are keywords, in lower case, by their first letter, the commoner ones first.
const KEYWORDS: [(&[u8], TokenId); 35] = [
    (b"and", T_LAND),
    (b"avg", T_AVG),
    (b"atan2", T_ATAN2),
    (b"anchored", T_ANCHORED),
    (b"by", T_BY),
    (b"bool", T_BOOL),
    (b"bottomk", T_BOTTOMK),
    (b"count", T_COUNT),
    (b"count_values", T_COUNT_VALUES),
    (b"end", T_END),
    (b"fill", T_FILL),
    (b"fill_left", T_FILL_LEFT),
    (b"fill_right", T_FILL_RIGHT),
    (b"group_left", T_GROUP_LEFT),
    (b"group_right", T_GROUP_RIGHT),
    (b"group", T_GROUP),
    (b"inf", T_NUMBER),
    (b"ignoring", T_IGNORING),
    (b"limitk", T_LIMITK),
    (b"limit_ratio", T_LIMIT_RATIO),
    (b"max", T_MAX),
    (b"min", T_MIN),
    (b"nan", T_NUMBER),
    (b"on", T_ON),
    (b"or", T_LOR),
    (b"offset", T_OFFSET),
    (b"quantile", T_QUANTILE),
    (b"sum", T_SUM),
    (b"start", T_START),
    (b"stddev", T_STDDEV),
    (b"stdvar", T_STDVAR),
    (b"smoothed", T_SMOOTHED),
    (b"topk", T_TOPK),
    (b"unless", T_LUNLESS),
    (b"without", T_WITHOUT),
];

/// How a word is looked up.
#[derive(Clone, Copy, Debug)]
pub(crate) enum Case {
    Lower,
    Any,
}

/// Where the keywords that begin with a letter, or with the same letter in the other case, begin and end.
#[inline(always)]
fn range_of_letter(letter: u8) -> (usize, usize)
    ensures within { result.0 ≤ result.1 × result.1 ≤ 35 }
    ensures keywords { slice_range spec.keywords result.0 result.1
        ≡ filter (λ k. slice_index k.0 0 == to_ascii_lowercase letter) spec.keywords }
{
    match letter {
        b'a' | b'A' => (0, 4),
        b'b' | b'B' => (4, 7),
        b'c' | b'C' => (7, 9),
        b'e' | b'E' => (9, 10),
        b'f' | b'F' => (10, 13),
        b'g' | b'G' => (13, 16),
        b'i' | b'I' => (16, 18),
        b'l' | b'L' => (18, 20),
        b'm' | b'M' => (20, 22),
        b'n' | b'N' => (22, 23),
        b'o' | b'O' => (23, 26),
        b'q' | b'Q' => (26, 27),
        b's' | b'S' => (27, 32),
        b't' | b'T' => (32, 33),
        b'u' | b'U' => (33, 34),
        b'w' | b'W' => (34, 35),
        _ => (0, 0),
    }
}

/// The keywords that begin with a letter, or with the same letter in the other case.
#[inline(always)]
fn keywords_of_letter(letter: u8) -> &'static [(&'static [u8], TokenId)]
    ensures { map (λ k. (k.0.now, k.1)) result.now
        ≡ filter (λ k. slice_index k.0 0 == to_ascii_lowercase letter) spec.keywords }
{
    let (start, end) = range_of_letter(letter);
    &KEYWORDS[start..end]
}

// Of words of one length. Most words are written in lower case, so that few bytes differ.
fn is_same_in_any_case(a: &[u8], b: &[u8]) -> bool
    requires { length a.now ≡ length b.now }
    ensures { result ≡ str_eq_ignore_ascii_case a.now b.now }
{
    let mut at = 0;
    while at < a.len() {
        if a[at] != b[at] && a[at].to_ascii_lowercase() != b[at].to_ascii_lowercase() {
            return false;
        }
        at += 1;
    }
    true
}

fn is_same_word(case: Case, a: &[u8], b: &[u8]) -> bool
    requires { length a.now ≡ length b.now }
    ensures { result ≡ same_word case a.now b.now }
{
    match case {
        Case::Lower => a == b,
        Case::Any => is_same_in_any_case(a, b),
    }
}

// Most words differ from a keyword in length already, which costs less to see than a call.
#[inline(always)]
fn lookup(case: Case, mut table: &[(&[u8], TokenId)], word: &[u8]) -> Option<TokenId>
    ensures { result ≡ spec.lookup (same_word case)
        (map (λ k. (k.0.now, k.1)) table.entry.now) word.now }
{
    while let [row, rest @ ..] = table {
        if row.0.len() == word.len() && is_same_word(case, row.0, word) {
            return Some(row.1);
        }
        table = rest;
    }
    None
}

/// The keyword that a word is, in lower case or in any case of its letters.
#[inline(always)]
fn find_keyword(case: Case, word: &[u8]) -> Option<TokenId>
    ensures { result ≡ spec.lookup (same_word case) spec.keywords word.now }
{
    lookup(case, keywords_of_letter(byte(word, 0)), word)
}

/// The keyword that a word in lower case is.
#[tactic(auto, unfolding(crate::specs::Ids::keyword))]
pub fn get_keyword_token(word: &str) -> Option<TokenId>
    ensures { result ≡ spec.keyword word.now }
{
    find_keyword(Case::Lower, word.as_bytes())
}

/// The keyword that a word is in any case of its letters.
#[tactic(auto, unfolding(crate::specs::Ids::keyword_in_any_case))]
pub(crate) fn keyword_in_any_case(word: &[u8]) -> Option<TokenId>
    ensures { result ≡ spec.keyword_in_any_case word.now }
{
    find_keyword(Case::Any, word)
}
