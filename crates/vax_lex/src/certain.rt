// Faults that hold whatever names stand for.

ghost use Rattle.std.specs.Prelude.{◌≡◌, ◌<◌, ◌+◌, ◌&&◌, All, IfSome, drop, length, slice_get};
ghost use Rattle.vax_lex.specs.Certain.{HasNone, begins_with_zero, certain_at, divides_by_zero, is_zero};
ghost use Rattle.vax_lex.specs.Grammar.{is_that_mark, symbols_of};
ghost use Rattle.vax_lex.specs.Tokens.{IsTokenOf};

use crate::expression::{evaluate, is_mark_at, term};
use crate::token::Token;
use crate::value::{ExprError, Names, Outcome, Value, fitted};

fn is_zero(outcome: Outcome) -> bool
    ensures { result ≡ is_zero outcome }
{
    match outcome {
        Ok(Value::Absolute(number)) => number == 0,
        Ok(_) | Err(_) => false,
    }
}

/// Whether a term whose value is 0 begins at a place.
fn is_zero_at<N: Names>(line: &[u8], tokens: &[Token], names: &N, at: usize) -> bool
    requires { All (IsTokenOf line.now) tokens.now }
    ensures { result ≡ begins_with_zero (N.meaning names.now)
        (drop at (symbols_of line.now tokens.now)) }
{
    match term(line, tokens, names, at) {
        Some(read) => is_zero(fitted(names.dialect(), read.answer)),
        None => false,
    }
}

/// Whether a `/` stands at a place, with a term behind it whose value is 0.
fn divides_at<N: Names>(line: &[u8], tokens: &[Token], names: &N, at: usize) -> bool
    requires tokens { All (IsTokenOf line.now) tokens.now }
    requires within { at < length tokens.now }
    ensures { result ≡ (is_that_mark 47 (slice_get tokens.now at)
        && begins_with_zero (N.meaning names.now)
        (drop (at + 1) (symbols_of line.now tokens.now))) }
{
    if !is_mark_at(tokens, at, b'/') {
        return false;
    }
    is_zero_at(line, tokens, names, at + 1)
}

/// Whether behind a `/` stands a term whose value is 0.
fn divides_by_zero<N: Names>(line: &[u8], tokens: &[Token], names: &N) -> bool
    requires { All (IsTokenOf line.now) tokens.now }
    ensures { result ≡ divides_by_zero (N.meaning names.now) (symbols_of line.now tokens.now) }
{
    for at in 0..tokens.len() {
        if divides_at(line, tokens, names, at) {
            return true;
        }
    }
    false
}

/// The fault that holds, whatever those of the names stand for that have no value, of the expression that tokens of a line
/// spell, as [`evaluate`] reads it.
///
/// [`ExprError::Form`] where that is what [`evaluate`] answers, [`ExprError::Range`] where that is what it answers, or names
/// have no value and there is a division by 0. None in all other cases.
pub fn certain_fault<N: Names>(line: &[u8], tokens: &[Token], names: &N) -> Option<ExprError>
    // The tokens are some of those that `scan` gives for the line.
    requires { All (IsTokenOf line.now) tokens.now }
    ensures fault { result ≡ certain_at (N.meaning names.now) (symbols_of line.now tokens.now) }
    // Where there is one, the expression has no value, whatever values more names have.
    ensures stays { IfSome result
        (λ fault. HasNone (N.meaning names.now) (symbols_of line.now tokens.now)) }
{
    match evaluate(line, tokens, names) {
        Ok(_) => None,
        Err(ExprError::Form) => Some(ExprError::Form),
        Err(ExprError::Unknown) => {
            if divides_by_zero(line, tokens, names) {
                Some(ExprError::Range)
            } else {
                None
            }
        }
        Err(ExprError::Range) => Some(ExprError::Range),
    }
}
