//! Texts with all their tokens, accepted or not (docs/reference/tokens.md, "The tokens of any text").

use crate::tests::{answers, columns, prints};
use promql_token::ids::{T_ERROR, token_display};
use promql_token::{Lexeme, text_tokens};
use std::alloc::{AllocError, Global};

/// Texts, and what their tokens print as, with their texts.
const TEXTS: &str = r##" => ;
# a => # # a;
sum(a{by='é'}[5m:]) # 'b => sum sum;( (;{ID} a;{ {;{ID} by;= =;{Str} 'é';} };[ [;[du] 5m;: :;] ];) );# # 'b;
a ; b ~ "c => {ID} a;{Err} ;;{ID} b;{Err} ~;{Err} "c;
{a=~"\d\"", b!=`\`} 5xy €é) => { {;{ID} a;=~ =~;{Err} "\d\"";, ,;{ID} b;!= !=;{Str} `\`;} };{Err} 5xy;{Err} €é;{Err} );
{0a, $b } => { {;{Err} 0a;, ,;{Err} $;{ID} b;} };
[ # by :] => [ [;{Err} #;{Err} by;: :;] ];
a{b="\ => {ID} a;{ {;{ID} b;= =;{Err} "\;
(((1 => ( (;( (;( (;{Num} 1;"##;

#[test]
fn any_text_has_tokens(rt: HostRuntime) {
    for row in TEXTS.split('\n') {
        let (text, tokens) = columns(row);
        prints(&rt, shown_tokens(rt.alloc(), text), tokens);
    }
}

/// What the tokens of a text print as, with their texts.
fn shown_tokens(alloc: Global, text: &str) -> Result<String, AllocError> {
    let mut shown = String::new(alloc);
    for token in text_tokens(alloc, text)?.as_slice() {
        shown.push_str(shown_token(alloc, text, *token)?.as_str())?;
    }
    if shown.is_empty() {
        shown.push(';')?;
    }
    Ok(shown)
}

fn shown_token(alloc: Global, text: &str, token: Lexeme) -> Result<String, AllocError> {
    let end = token.start.saturating_add(token.len);
    let own = text.get(token.start..end).unwrap_or("");
    format!(in alloc; "{} {own};", token_display(token.id))
}

/// Whether a text of so many words and as many errors has them.
fn has_all(alloc: Global, count: usize) -> Result<bool, AllocError> {
    let text = "ab ;\r".repeat(alloc, count)?;
    let tokens = text_tokens(alloc, text.as_str())?;
    let errors = tokens.iter().filter(|it| it.id == T_ERROR).count();
    Ok(errors == count && tokens.len() == count.saturating_mul(2))
}

#[test]
fn texts_of_all_sizes_have_all_tokens(rt: HostRuntime) {
    for count in &[0, 1, 2, 17, 1_001, 65_537] {
        answers(&rt, has_all(rt.alloc(), *count), true, "words and errors");
    }
}
