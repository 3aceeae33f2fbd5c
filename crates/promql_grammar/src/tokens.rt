//! The tokens of a text before its end, or its lexical fault.

ghost use Rattle.std.specs.Prelude.{◌≡◌, ◌==◌, ◌<◌, ◌^◌, List, [], ◌∷◌, ◌++◌, false, not, length, drop, None, Ok, Err, map, IfErr, IfOk, MatchBool, MatchOption, OnErr};
ghost use Rattle.promql_token.specs.Cursor.{ends_in_fault, tokens_left, tokens_up_to_fault};
ghost use Rattle.promql_grammar.specs.Symbols.{symbol, symbol_of};
ghost use Rattle.promql_grammar.specs.declared.read_error.ReadError.TheVariants.{Syntax};
ghost use Rattle.promql_grammar.specs.Results.{on_result};
ghost use Rattle.promql_grammar.specs.SourceTokens.{Token, tokens};
ghost use Rattle.promql_grammar.specs.Eating.{Eats, HasNo};
ghost use Rattle.promql_grammar.specs.SymbolsLeft.{CountsTaken, symbols_left, cursor_symbols, symbols_from, fault_symbol, tokens_taken};

use crate::read_error::ReadError;
use crate::token_kinds::{TokenKind, token_kind};
use promql_token::LexFault;
use promql_token::cursor::Cursor;
use promql_token::ids::T_EOF;
use promql_token::scan::Lexer;

/// Whether the text has a token before its end, or its lexical fault. It allocates nothing.
pub fn has_tokens(text: &str) -> Result<bool, LexFault>
    ensures { on_result (λ ts. not (length ts == 0)) (tokens text.now) ≡ result }
{
    let mut some = false;
    for found in Lexer::new(text) {
        let lexeme = found?;
        some = some || lexeme.id != T_EOF;
    }
    Ok(some)
}

/// The first of the tokens that are left.
#[derive(Clone, Copy)]
pub enum Lookahead<'a> {
    /// A token's kind and text.
    Token(TokenKind, &'a str),
    /// The text's lexical fault.
    Fault,
    End,
}

/// The tokens that are left of a text, before its end or its lexical fault, with a lookahead of
/// one. Those after the first are lexed when they become the first. A lexical fault comes last, as
/// a token of a kind that no expression has, or another token in its place or that of the end.
#[derive(Clone, Copy)]
pub struct Tokens<'a> {
    lookahead: Lookahead<'a>,
    rest: Cursor<'a>,
    /// What comes in place of the end or the fault, if not that itself.
    last: Option<Lookahead<'a>>,
    /// How many were taken.
    index: usize,
}

impl<'a> Tokens<'a> {
    /// The tokens of a text.
    pub fn new(text: &'a str) -> Tokens<'a>
        ensures whole { (list : List Token) → tokens text.now ≡ Ok list
            → symbols_left result ≡ map symbol_of list }
        ensures fault { (f : LexFault) → tokens text.now ≡ Err f → symbols_left result
            ≡ map symbol_of (tokens_up_to_fault text.now) ++ fault_symbol ∷ [] }
        ensures index { tokens_taken result ≡ 0 }
    {
        let mut tokens = Tokens {
            lookahead: Lookahead::End,
            rest: Cursor::new(text),
            last: None,
            index: 0,
        };
        tokens.fill();
        tokens
    }

    /// The tokens of a text before its end or its lexical fault, and then `last` in place of that.
    pub fn ending_with(text: &'a str, last: Lookahead<'a>) -> Tokens<'a>
        ensures tokens { symbols_left result
            ≡ map symbol_of (tokens_up_to_fault text.now) ++ symbols_from last.entry [] }
        ensures index { tokens_taken result ≡ 0 }
    {
        let mut tokens = Tokens {
            lookahead: Lookahead::End,
            rest: Cursor::new(text),
            last: Some(last),
            index: 0,
        };
        tokens.fill();
        tokens
    }

    /// Lexes the next token into the lookahead.
    #[inline(never)]
    fn fill(&mut self)
        ensures symbols { symbols_left self.new ≡ cursor_symbols self.old.rest self.old.last }
        ensures index { tokens_taken self.new ≡ tokens_taken self.old }
    {
        if self.rest.is_at_end() {
            self.end();
            return;
        }
        if let Some((id, text)) = self.rest.next_if_word() {
            self.lookahead = Lookahead::Token(token_kind(id), text);
            return;
        }
        self.fill_with_any();
    }

    // As `fill`, for what comes less often than the end and words, which save fewer registers without it.
    #[inline(never)]
    fn fill_with_any(&mut self)
        ensures symbols { symbols_left self.new ≡ cursor_symbols self.old.rest self.old.last }
        ensures index { tokens_taken self.new ≡ tokens_taken self.old }
    {
        match self.rest.next() {
            Some((id, text)) => self.lookahead = Lookahead::Token(token_kind(id), text),
            None if self.last.is_none() && self.rest.is_at_fault() => {
                self.lookahead = Lookahead::Fault;
            }
            None => self.end(),
        }
    }

    // As `fill`, where neither a token nor a fault comes next, or something in place of the fault.
    fn end(&mut self)
        requires end { tokens_left self.old.rest ≡ [] }
        requires fault { self.old.last ≡ None → ends_in_fault self.old.rest ≡ false }
        ensures symbols { symbols_left self.new ≡ cursor_symbols self.old.rest self.old.last }
        ensures index { tokens_taken self.new ≡ tokens_taken self.old }
    {
        match self.last {
            Some(last) => {
                self.lookahead = last;
                self.last = Some(Lookahead::End);
            }
            None => self.lookahead = Lookahead::End,
        }
    }

    /// The index of the first token in the text: how many were taken.
    pub fn index(&self) -> usize
        ensures { result ≡ tokens_taken self.now }
    {
        self.index
    }

    /// How many are left, a lexical fault counted as one. It lexes them.
    pub fn count(&self) -> usize
        ensures { length (symbols_left self.now) < 2 ^ 64 → result ≡ length (symbols_left self.now) }
    {
        let mut rest = *self;
        let mut count: usize = 0;
        while !rest.is_empty() {
            rest.bump();
            count = count.saturating_add(1);
        }
        count
    }

    /// Whether no token is left.
    pub fn is_empty(&self) -> bool
        ensures { result ≡ (length (symbols_left self.now) == 0) }
    {
        matches!(self.lookahead, Lookahead::End)
    }

    /// The first token's kind and text.
    #[inline(always)]
    pub fn peek(&self) -> Option<(TokenKind, &'a str)>
        ensures { MatchOption result (symbols_left self.now ≡ [])
            (λ x. symbols_left self.now ≡ symbol x.0 x.1.now ∷ drop 1 (symbols_left self.now)) }
    {
        match self.lookahead {
            Lookahead::Token(kind, text) => Some((kind, text)),
            Lookahead::Fault => Some((TokenKind::Other, "")),
            Lookahead::End => None,
        }
    }

    /// Drops the first token, if there is one.
    pub fn bump(&mut self)
        ensures drops { symbols_left self.new ≡ drop 1 (symbols_left self.old) }
        ensures counts { CountsTaken self.old self.new }
    {
        if self.is_empty() {
            return;
        }
        self.index = self.index.wrapping_add(1);
        match self.lookahead {
            Lookahead::Token(..) => match self.rest.next_if_single() {
                Some((id, text)) => self.lookahead = Lookahead::Token(token_kind(id), text),
                None => self.fill(),
            },
            Lookahead::Fault | Lookahead::End => self.lookahead = Lookahead::End,
        }
    }

    /// Takes the first token: its kind and text.
    pub fn next(&mut self) -> Option<(TokenKind, &'a str)>
        ensures takes { MatchOption result (symbols_left self.old ≡ [])
            (λ x. symbols_left self.old ≡ symbol x.0 x.1.now ∷ symbols_left self.new) }
        ensures counts { CountsTaken self.old self.new }
    {
        let first = self.peek();
        self.bump();
        first
    }

    /// Takes the first token, if it is of this kind.
    #[inline(always)]
    pub fn eat(&mut self, kind: TokenKind) -> bool
        ensures gives { MatchBool result (Eats kind (symbols_left self.old) (symbols_left self.new))
            (HasNo kind (symbols_left self.old)) }
        ensures stays { result ≡ false → symbols_left self.new ≡ symbols_left self.old }
        ensures counts { CountsTaken self.old self.new }
    {
        match self.peek() {
            Some((first, _)) if first == kind => {
                self.bump();
                true
            }
            _ => false,
        }
    }

    /// Takes the first token, which has to be of this kind.
    ///
    /// # Errors
    ///
    /// `Syntax` if there is no token left, or if the first is of another kind.
    #[inline(always)]
    pub fn expect(&mut self, kind: TokenKind) -> Result<(), ReadError>
        ensures gives { IfOk result (λ _.
            Eats kind (symbols_left self.old) (symbols_left self.new)) }
        ensures fails { IfErr result (λ e. (e ≡ Syntax) × HasNo kind (symbols_left self.old)) }
        ensures stays { OnErr result (symbols_left self.new ≡ symbols_left self.old) }
        ensures counts { CountsTaken self.old self.new }
    {
        if !self.eat(kind) {
            return Err(ReadError::Syntax);
        }
        Ok(())
    }
}
