//! Tokens that are at the front of a text and that their first bytes tell, so that these take less than what reads any.

ghost use Rattle.std.specs.Prelude.{◌≡◌, ◌==◌, ◌<◌, ◌≤◌, ◌+◌, ◌^◌, false, length, slice_index, Ok, IfSome};
ghost use Rattle.promql_token.specs.Front.{IsFront, IsFrontWord, begins_trivia};
ghost use Rattle.promql_token.specs.TokenScanning as spec;

use crate::class::{byte, is_letter, name_len};
use crate::ids::*;
use crate::state::{Mode, State, after};
use crate::word::{braces_word_by_name, word_by_name};

#[inline(always)]
#[tactic(auto, unfolding(crate::specs::TokenScanning::outside, crate::specs::TokenScanning::punctuator))]
fn single_outside(depth: usize, z: &[u8]) -> Option<TokenId>
    requires { 0 < length z.now }
    ensures scanned { IfSome result (λ id. spec.outside depth z.now ≡ Ok (id, 1)) }
    ensures no_end { IfSome result (λ id. (id == T_EOF) ≡ false) }
    ensures front { IfSome result (λ _. begins_trivia (slice_index z.now 0) ≡ false) }
{
    match byte(z, 0) {
        b'(' => Some(T_LEFT_PAREN),
        b')' if depth != 0 => Some(T_RIGHT_PAREN),
        b'{' => Some(T_LEFT_BRACE),
        b'[' => Some(T_LEFT_BRACKET),
        b',' => Some(T_COMMA),
        b'+' => Some(T_ADD),
        b'-' => Some(T_SUB),
        b'*' => Some(T_MUL),
        b'/' => Some(T_DIV),
        b'%' => Some(T_MOD),
        b'^' => Some(T_POW),
        b'@' => Some(T_AT),
        _ => None,
    }
}

#[inline(always)]
#[tactic(auto, unfolding(crate::specs::TokenScanning::in_braces))]
fn single_in_braces(z: &[u8]) -> Option<TokenId>
    requires { 0 < length z.now }
    ensures scanned { IfSome result (λ id. spec.in_braces z.now ≡ Ok (id, 1)) }
    ensures no_end { IfSome result (λ id. (id == T_EOF) ≡ false) }
    ensures front { IfSome result (λ _. begins_trivia (slice_index z.now 0) ≡ false) }
{
    match byte(z, 0) {
        b',' => Some(T_COMMA),
        b'}' => Some(T_RIGHT_BRACE),
        b'=' if byte(z, 1) != b'~' => Some(T_EQL),
        _ => None,
    }
}

/// The punctuator of one byte at the front, and the state after it. `None` says nothing of the front.
#[inline(always)]
#[tactic(auto, unfolding(crate::specs::TokenScanning::in_brackets))]
pub fn single(state: State, z: &[u8]) -> Option<(TokenId, State)>
    requires { state.depth < 2 ^ 63 }
    ensures front { IfSome result (λ x. IsFront state z.now x.0 1) }
    ensures state { IfSome result (λ x. x.1 ≡ spec.after state x.0) }
    ensures grows { IfSome result (λ x. x.1.depth ≤ state.depth + 1) }
{
    if z.is_empty() {
        return None;
    }
    let depth = state.depth;
    // Where the mode is known, the state after the token takes less.
    match state.mode {
        Mode::Outside => {
            let id = single_outside(depth, z)?;
            Some((
                id,
                after(
                    State {
                        depth,
                        mode: Mode::Outside,
                    },
                    id,
                ),
            ))
        }
        Mode::Braces => {
            let id = single_in_braces(z)?;
            Some((
                id,
                after(
                    State {
                        depth,
                        mode: Mode::Braces,
                    },
                    id,
                ),
            ))
        }
        Mode::Brackets(_) if byte(z, 0) == b']' => Some((
            T_RIGHT_BRACKET,
            after(state, T_RIGHT_BRACKET),
        )),
        Mode::Brackets(_) => None,
    }
}

/// The word at the front and its length. No word changes the state. `None` says nothing of the front.
#[inline(always)]
pub fn front_word(state: State, z: &[u8]) -> Option<(TokenId, usize)>
    ensures { IfSome result (λ x. IsFrontWord state z.now x.0 x.1) }
{
    if !is_letter(byte(z, 0)) {
        return None;
    }
    match state.mode {
        Mode::Outside => word_by_name(z, name_len(z)).ok(),
        Mode::Braces => braces_word_by_name(z, name_len(z)).ok(),
        Mode::Brackets(_) => None,
    }
}
