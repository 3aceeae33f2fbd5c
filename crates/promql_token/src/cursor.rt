//! A place of a text between two tokens, from which the tokens are drawn one by one.

ghost use Rattle.std.specs.Prelude.{◌≡◌, ◌≢◌, ◌<◌, ◌≤◌, ◌+◌, [], ◌∷◌, List, ℕ, true, false, drop, filter, take, Ok, Err, IfOk, IfErr, OnErr, MatchOption};
ghost use Rattle.std.specs.Str.{IsCharBoundary};
ghost use Rattle.promql_token.specs.IsFirst.{IsFirst};
ghost use Rattle.promql_token.specs.Lexing as spec;

use crate::class::byte;
use crate::fault::{LexFault, LexFaultKind};
use crate::front::{front_word, single};
use crate::ids::{T_EOF, TokenId};
use crate::lexeme::Lexeme;
use crate::scan_token::scan_token;
use crate::state::{Mode, State, after, after_trivia};
use crate::trivia::trivia_len;

/// A place of a text between two tokens. It may be copied, and it allocates nothing.
#[derive(Clone, Copy)]
pub struct Cursor<'a> {
    pub(crate) text: &'a str,
    /// The byte after the last token.
    pub(crate) at: usize,
    pub(crate) state: State,
    ghost place: { IsCharBoundary text.now at },
    ghost depth: { state.depth ≤ at },
}

// The token after the trivia at a place, or the fault there: its kind, and where it is.
#[inline(always)]
fn token_at(text: &str, at: usize, state: State) -> Result<Lexeme, (LexFaultKind, usize)>
    requires { IsCharBoundary text.now at }
    ensures value { IsFirst text.now at state result }
    ensures front { IfOk result (λ x. IsCharBoundary text.now x.start) }
    ensures place { IfOk result (λ x. IsCharBoundary text.now (x.start + x.len)) }
    ensures order { IfOk result (λ x. at ≤ x.start) }
    ensures moves { IfOk result (λ x. x.id ≢ T_EOF → 0 < x.len) }
    ensures fault { IfErr result (λ f. IsCharBoundary text.now f.1) }
{
    let bytes = text.as_bytes();
    let trivia = trivia_len(state.mode, &bytes[at..]);
    let start = at + trivia;
    match scan_token(after_trivia(trivia, state), &bytes[start..]) {
        Ok((id, len)) => Ok(Lexeme { id, start, len }),
        Err((kind, offset)) => Err((kind, start + offset)),
    }
}

impl<'a> Cursor<'a> {
    ghost use Rattle.promql_token.specs.Cursor.{tokens_left, tokens_up_to_fault, is_before_end, ends_in_fault};
    ghost use Rattle.promql_token.specs.Front.{pieces_left};
    ghost use Rattle.promql_token.specs.IsPast.{IsPast};

    /// The cursor before a text's first token.
    pub fn new(text: &'a str) -> Cursor<'a>
        ensures tokens { (ts : List (ℕ × List ℕ)) → spec.tokens text.now ≡ Ok ts
            → tokens_left result ≡ filter is_before_end ts }
        ensures whole { (ts : List (ℕ × List ℕ)) → spec.tokens text.now ≡ Ok ts
            → ends_in_fault result ≡ false }
        ensures fault { (f : LexFault) → spec.tokens text.now ≡ Err f
            → ends_in_fault result ≡ true }
        ensures pieces { tokens_left result ≡ tokens_up_to_fault text.now }
    {
        Cursor::front(text)
    }

    pub(crate) fn front(text: &'a str) -> Cursor<'a>
        ensures text { result.text ≡ text.entry }
        ensures at { result.at ≡ 0 }
        ensures state { result.state ≡ spec.start }
    {
        Cursor {
            text,
            at: 0,
            state: State {
                depth: 0,
                mode: Mode::Outside,
            },
        }
    }

    /// The next token, or the fault there: its kind, and where it is. It moves past a token, and
    /// stays before the end and before a fault.
    #[inline(always)]
    pub(crate) fn advance(&mut self) -> Result<Lexeme, (LexFaultKind, usize)>
        ensures value { IsFirst self.old.text.now self.old.at self.old.state result }
        ensures token { IfOk result (λ x. IsPast x self.old self.new) }
        ensures stays { IfOk result (λ x. x.id ≡ T_EOF → self.new ≡ self.old) }
        ensures fault { OnErr result (self.new ≡ self.old) }
        ensures place { IfErr result (λ f. IsCharBoundary self.old.text.now f.1) }
    {
        let depth = self.state.depth;
        // Most tokens are outside: where the mode is known, a step takes less.
        match self.state.mode {
            Mode::Outside => self.step(State {
                depth,
                mode: Mode::Outside,
            }),
            mode => self.step(State { depth, mode }),
        }
    }

    /// The next token in the state that the cursor has, or the fault there, as `advance` has it.
    #[inline(always)]
    fn step(&mut self, state: State) -> Result<Lexeme, (LexFaultKind, usize)>
        requires { state ≡ self.old.state }
        ensures value { IsFirst self.old.text.now self.old.at self.old.state result }
        ensures token { IfOk result (λ x. IsPast x self.old self.new) }
        ensures stays { IfOk result (λ x. x.id ≡ T_EOF → self.new ≡ self.old) }
        ensures fault { OnErr result (self.new ≡ self.old) }
        ensures place { IfErr result (λ f. IsCharBoundary self.old.text.now f.1) }
    {
        let item = token_at(self.text, self.at, state);
        if let Ok(token) = item
            && token.id != T_EOF
        {
            self.state = after(state, token.id);
            self.at = token.start + token.len;
        }
        item
    }

    /// The next token's id and text, if a token comes before the end or a fault. It moves past it.
    #[inline(always)]
    pub fn next(&mut self) -> Option<(TokenId, &'a str)>
        ensures tokens { MatchOption result
            ((tokens_left self.old ≡ []) × (tokens_left self.new ≡ []))
            (λ x. tokens_left self.old ≡ (x.0, x.1.now) ∷ tokens_left self.new) }
        ensures fault { ends_in_fault self.new ≡ ends_in_fault self.old }
    {
        let text = self.text;
        let Ok(token) = self.advance() else {
            return None;
        };
        if token.id == T_EOF {
            return None;
        }
        Some((token.id, &text[token.start..token.start + token.len]))
    }

    // Moves past a space, which changes nothing but directly after a bracket.
    #[inline(always)]
    fn skip_space(&mut self)
        ensures text { self.new.text ≡ self.old.text }
        ensures pieces { pieces_left self.new ≡ pieces_left self.old }
    {
        match self.state.mode {
            Mode::Outside | Mode::Braces => {
                if byte(&self.text.as_bytes()[self.at..], 0) == b' ' {
                    self.at += 1;
                }
            }
            Mode::Brackets(_) => {}
        }
    }

    // Moves past this many bytes, and returns them.
    #[inline(always)]
    fn take(&mut self, len: usize) -> &'a str
        requires { IsCharBoundary self.old.text.now (self.old.at + len) }
        ensures taken { result.now ≡ take len (drop self.old.at self.old.text.now) }
        ensures text { self.new.text ≡ self.old.text }
        ensures at { self.new.at ≡ self.old.at + len }
        ensures state { self.new.state ≡ self.old.state }
    {
        let text = self.text;
        let start = self.at;
        self.at = start + len;
        &text[start..start + len]
    }

    /// The next token's id and text, if it is a punctuator of one byte, directly or after one space.
    /// It moves past it. `None` says nothing of what comes next, and a space may be passed then.
    #[inline(always)]
    pub fn next_if_single(&mut self) -> Option<(TokenId, &'a str)>
        ensures tokens { MatchOption result (tokens_left self.new ≡ tokens_left self.old)
            (λ x. tokens_left self.old ≡ (x.0, x.1.now) ∷ tokens_left self.new) }
        ensures fault { ends_in_fault self.new ≡ ends_in_fault self.old }
    {
        self.skip_space();
        let (id, state) = single(self.state, &self.text.as_bytes()[self.at..])?;
        let text = self.take(1);
        self.state = state;
        Some((id, text))
    }

    /// The next token's id and text, if it is a word with no trivia before it. It moves past it.
    /// `None` says nothing of what comes next.
    #[inline(always)]
    pub fn next_if_word(&mut self) -> Option<(TokenId, &'a str)>
        ensures tokens { MatchOption result (self.new ≡ self.old)
            (λ x. tokens_left self.old ≡ (x.0, x.1.now) ∷ tokens_left self.new) }
        ensures fault { ends_in_fault self.new ≡ ends_in_fault self.old }
    {
        let (id, len) = front_word(self.state, &self.text.as_bytes()[self.at..])?;
        Some((id, self.take(len)))
    }

    /// Whether the end comes next, with no trivia before it. `false` says nothing of what comes next.
    #[inline(always)]
    pub fn is_at_end(&self) -> bool
        ensures tokens { result ≡ true → tokens_left self.now ≡ [] }
        ensures fault { result ≡ true → ends_in_fault self.now ≡ false }
    {
        if !self.text.as_bytes()[self.at..].is_empty() {
            return false;
        }
        self.state.depth == 0 && matches!(self.state.mode, Mode::Outside)
    }

    /// Whether a fault comes next, where no token does.
    #[inline(never)]
    pub fn is_at_fault(&self) -> bool
        ensures { tokens_left self.now ≡ [] → result ≡ ends_in_fault self.now }
    {
        token_at(self.text, self.at, self.state).is_err()
    }
}
