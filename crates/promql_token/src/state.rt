//! What the tokens before a place say of it.

ghost use Rattle.std.specs.Prelude.{◌≡◌, ◌<◌, ◌≤◌, ◌+◌, ◌^◌};
ghost use Rattle.promql_token.specs.TokenScanning as spec;

use crate::ids::*;

/// Which tokens may begin at a place.
#[derive(Clone, Copy, Debug)]
pub enum Mode {
    Outside,
    /// After `{`, until `}`.
    Braces,
    /// After `[`, until `]`.
    Brackets(Bracket),
}

/// What is between a `[` and a place.
#[derive(Clone, Copy, Debug)]
pub enum Bracket {
    Nothing,
    /// A trivia or a token, but no `:`.
    Something,
    /// A `:`, and maybe more.
    Colon,
}

/// The state of a place.
#[derive(Clone, Copy, Debug)]
pub struct State {
    /// How many parentheses are open.
    pub depth: usize,
    pub mode: Mode,
}

// After a trivia, or a token that sets no mode.
fn mode_after_something(mode: Mode) -> Mode
    ensures { result ≡ spec.mode_after_something mode }
{
    match mode {
        Mode::Brackets(Bracket::Nothing) => Mode::Brackets(Bracket::Something),
        _ => mode,
    }
}

fn mode_after_colon(mode: Mode) -> Mode
    ensures { result ≡ spec.mode_after_colon mode }
{
    match mode {
        Mode::Brackets(_) => Mode::Brackets(Bracket::Colon),
        _ => mode,
    }
}

/// The state after a trivia.
#[tactic(auto, unfolding(crate::specs::TokenScanning::after_trivia))]
pub fn after_trivia(trivia: usize, state: State) -> State
    ensures { result ≡ spec.after_trivia trivia state }
{
    if trivia == 0 {
        return state;
    }
    State {
        depth: state.depth,
        mode: mode_after_something(state.mode),
    }
}

#[inline(always)]
fn mode_after(mode: Mode, id: TokenId) -> Mode
    ensures { result ≡ spec.mode_after mode id }
{
    match id {
        T_LEFT_BRACE => Mode::Braces,
        T_LEFT_BRACKET => Mode::Brackets(Bracket::Nothing),
        T_RIGHT_BRACE | T_RIGHT_BRACKET => Mode::Outside,
        T_COLON => mode_after_colon(mode),
        _ => mode_after_something(mode),
    }
}

fn depth_after(depth: usize, id: TokenId) -> usize
    requires { depth < 2 ^ 63 }
    ensures { result ≡ spec.depth_after depth id }
{
    match id {
        T_LEFT_PAREN => depth + 1,
        T_RIGHT_PAREN => depth.saturating_sub(1),
        _ => depth,
    }
}

/// The state after a token.
#[inline(always)]
#[tactic(auto, unfolding(crate::specs::TokenScanning::after))]
pub fn after(state: State, id: TokenId) -> State
    requires { state.depth < 2 ^ 63 }
    ensures value { result ≡ spec.after state id }
    ensures grows { result.depth ≤ state.depth + 1 }
    ensures stays { id ≡ T_EOF → result.depth ≡ state.depth }
{
    State {
        depth: depth_after(state.depth, id),
        mode: mode_after(state.mode, id),
    }
}
