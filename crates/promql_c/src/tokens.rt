//! The tokens of any text, as JSON: docs/guide/bindings.md, "Tokens".

ghost use Rattle.std.specs.Prelude.{◌≡◌, ◌+◌, ◌<◌, ◌^◌, Err, IfErr, IfOk, Ok, length, map, string_bytes};
ghost use Rattle.std.specs.List.{All};
ghost use Rattle.serde_json.specs.View.{view};
ghost use Rattle.serde_json.specs.Written.{compact_text};
ghost use Rattle.promql_grammar.specs.Results.{on_result};
ghost use Rattle.promql_json.specs.JsonParts.{list};
ghost use Rattle.promql_query.specs.Rejecting.{IsRejection};
ghost use Rattle.promql_token.specs.declared.lexeme.Lexeme as lexemes;
ghost use Rattle.promql_c.specs.Calls.{IsTokensOf};
ghost use Rattle.promql_c.specs.TokensText as spec;

use promql_query::finite_json::value_text;
use promql_query::query_error::QueryError;
use promql_query::rejection::{Reason, Rejection};
use promql_span::limits::{LimitFault, Limits};
use promql_span::{Location, end_of_text};
use promql_token::ids::*;
use promql_token::{Lexeme, TokenType, text_tokens};
use serde_json::{Value, json};
use std::alloc::{AllocError, Global};

/// What kind of token an id is of.
fn kind_name(id: TokenId) -> &'static str
    ensures { result.now ≡ spec.kind_name id }
{
    let token = TokenType::new(id);
    match id {
        T_COMMENT => "comment",
        T_ERROR => "error",
        T_NUMBER => "number",
        T_DURATION => "duration",
        T_STRING => "string",
        T_IDENTIFIER | T_METRIC_IDENTIFIER => "name",
        _ if token.is_aggregator() => "aggregator",
        _ if id == T_EQL || token.is_operator() => "operator",
        _ if T_KEYWORDS_START < id && id < T_PREPROCESSOR_END => "keyword",
        _ => "punctuation",
    }
}

/// The kind of a token, and where it begins and ends, in bytes.
fn token_value(alloc: Global, token: Lexeme) -> Result<Value, AllocError>
    requires { token.start + token.len < 2 ^ 64 }
    ensures { IfOk result (λ v. view v ≡ spec.token_value token) }
{
    json!(in alloc; [kind_name(token.id), token.start, token.start + token.len])
}

/// A list of tokens.
fn tokens_value(alloc: Global, tokens: &[Lexeme]) -> Result<Value, AllocError>
    requires { All (λ (x : lexemes.Lexeme). x.start + x.len < 2 ^ 64) tokens.now }
    ensures { IfOk result (λ v. view v ≡ list (map spec.token_value tokens.now)) }
{
    let mut list = Vec::with_capacity(alloc, tokens.len())?;
    for token in tokens {
        list.push(token_value(alloc, *token)?)?;
    }
    Ok(Value::Array(list))
}

/// The JSON of the tokens of a text.
fn tokens_text(alloc: Global, text: &str) -> Result<String, AllocError>
    ensures { IfOk result (λ s. spec.IsTokensText text.now (string_bytes s)) }
{
    promql_token::laws::text_tokens_are_tokens();
    let tokens = text_tokens(alloc, text)?;
    let value = tokens_value(alloc, tokens.as_slice())?;
    value_text(alloc, value)
}

/// Why a text that is longer than a query may be is rejected.
fn too_long(limits: &Limits, text: &str) -> Rejection
    requires { limits.now.max_len < length text.now }
    ensures { IsRejection limits.now text.now result }
{
    let span = end_of_text(text);
    Rejection {
        reason: Reason::Limit(LimitFault::TooLong {
            len: text.len(),
            most: limits.max_len,
        }),
        span,
        location: Location::line_column(text, span.start),
    }
}

/// The JSON of the tokens of a text that is no longer than a query may be.
fn tokens_within(alloc: Global, limits: &Limits, text: &str) -> Result<String, QueryError>
    ensures ok { IfOk result (λ s. spec.GivesTokens limits.now text.now (Ok (string_bytes s))) }
    ensures err { IfErr result (λ e. spec.GivesTokens limits.now text.now (Err e)) }
{
    if text.len() > limits.max_len {
        return Err(QueryError::rejected(too_long(limits, text)));
    }
    Ok(tokens_text(alloc, text)?)
}

/// The JSON of the tokens of bytes that are a text.
pub(crate) fn token_texts(alloc: Global, limits: &Limits, text: &[u8]) -> Result<String, QueryError>
    ensures { IsTokensOf limits.now text.now (on_result (λ s. string_bytes s) result) }
{
    let Ok(text) = str::from_utf8(text) else {
        return Err(QueryError::NotUtf8);
    };
    tokens_within(alloc, limits, text)
}
