// The value of an expression.

ghost use Rattle.std.specs.Prelude.{◌≡◌, ◌<◌, ◌+◌, ◌^◌, All, Some, None, Ok, true, IfSome, slice_get, length, option_map};
ghost use Rattle.vax_lex.specs.Views.{operation_view};
ghost use Rattle.std.specs.Bool.{OnTrue};
ghost use Rattle.std.specs.Int.{cast_signed, w64};
ghost use Rattle.vax_lex.specs.Characters.{canonical_name};
ghost use Rattle.vax_lex.specs.Tokens.{IsTokenOf, token_text};
ghost use Rattle.vax_lex.specs.Grammar.{Evaluates, characters_in, Expression, spelling, value_of, symbols_of, with_bit, mask_outcome, single_mask_value, is_that_mark, operator_in, operator_of};
ghost use Rattle.vax_lex.specs.KeptNames.{kept_name};
ghost use Rattle.vax_lex.specs.Expressions.{value_at};
ghost use Rattle.vax_lex.specs.Statements.{is_mark};
ghost use Rattle.vax_lex.specs.Nesting.{BeginsTerm};
ghost use Rattle.vax_lex.specs.Reading.{ReadsMask, ReadsSingleMask, ReadsQuoted, ReadsTerm, ReadsExpression, ReadsNames};

use crate::character::is_word;
use crate::name::CanonicalName;
use crate::nesting::{Open, nested};
use crate::token::{Token, TokenKind};
use crate::value::{
    Binary, ExprError, Names, Outcome, Value, characters_value, combined, complement_of, mask_bit,
    minus_of, named,
};
use vax_dialect::Dialect;

/// What has been read: its value or error, and the place of the first token behind it.
#[derive(Clone, Copy)]
pub(crate) struct Read {
    pub(crate) answer: Outcome,
    pub(crate) end: usize,
}

/// The token at a place, if there is one.
fn token_at(tokens: &[Token], at: usize) -> Option<Token>
    ensures value { result ≡ slice_get tokens.now at }
    ensures room { IfSome result (λ t. at < length tokens.now) }
    ensures small { IfSome result (λ t. at + 2 < 2 ^ 64) }
{
    if at < tokens.len() {
        Some(tokens[at])
    } else {
        None
    }
}

/// The operator between two terms that a token is.
fn operator_of(kind: TokenKind) -> Option<Binary>
    ensures { option_map operation_view result ≡ operator_of kind }
{
    match kind {
        TokenKind::Mark(b'+') => Some(Binary::Add),
        TokenKind::Mark(b'-') => Some(Binary::Subtract),
        TokenKind::Mark(b'*') => Some(Binary::Multiply),
        TokenKind::Mark(b'/') => Some(Binary::Divide),
        TokenKind::Mark(b'@') => Some(Binary::Shift),
        TokenKind::Mark(b'&') => Some(Binary::And),
        TokenKind::Mark(b'!') => Some(Binary::Or),
        TokenKind::Mark(b'\\') => Some(Binary::ExclusiveOr),
        _ => None,
    }
}

/// Whether a token is this mark.
fn is_mark(kind: TokenKind, mark: u8) -> bool
    ensures { result ≡ is_mark mark kind }
{
    match kind {
        TokenKind::Mark(found) => found == mark,
        _ => false,
    }
}

/// The bytes of a token.
fn text_of(line: &[u8], token: Token) -> &[u8]
    requires { IsTokenOf line.now token }
    ensures { result.now ≡ token_text line.now token }
{
    &line[token.start as usize..token.end as usize]
}

/// A name as it is kept.
#[tactic(auto, using(crate::proofs::Symbols::name_fits))]
fn name_of(line: &[u8], token: Token) -> CanonicalName
    requires within { IsTokenOf line.now token }
    requires kind { token.kind ≡ TokenKind.Name }
    ensures { kept_name result ≡ canonical_name (token_text line.now token) }
{
    CanonicalName::of(text_of(line, token))
}

/// The characters between the delimiters of a text.
#[tactic(auto, using(crate::proofs::Symbols::text_fits))]
fn characters_of(line: &[u8], token: Token) -> &[u8]
    requires within { IsTokenOf line.now token }
    requires kind { token.kind ≡ TokenKind.Text }
    ensures { result.now ≡ characters_in (token_text line.now token) }
{
    let text = text_of(line, token);
    &text[1..text.len() - 1]
}

/// Whether this mark stands at a place.
pub(crate) fn is_mark_at(tokens: &[Token], at: usize, mark: u8) -> bool
    ensures value { result ≡ is_that_mark mark (slice_get tokens.now at) }
    ensures room { OnTrue result (at < length tokens.now) }
    ensures small { OnTrue result (at + 2 < 2 ^ 64) }
{
    match token_at(tokens, at) {
        Some(token) => is_mark(token.kind, mark),
        None => false,
    }
}

/// The operator that stands at a place, if there is one.
pub(crate) fn operator_at(tokens: &[Token], at: usize) -> Option<Binary>
    ensures value { option_map operation_view result ≡ operator_in (slice_get tokens.now at) }
    ensures room { IfSome result (λ o. at < length tokens.now) }
    ensures small { IfSome result (λ o. at + 2 < 2 ^ 64) }
{
    match token_at(tokens, at) {
        Some(token) => operator_of(token.kind),
        None => None,
    }
}

/// A mask and one more bit, if both are known.
fn with_bit(mask: Option<u16>, bit: Option<u8>) -> Option<u16>
    requires { IfSome bit (λ b. b < 16) }
    ensures { result ≡ with_bit mask bit }
{
    match (mask, bit) {
        (Some(mask), Some(bit)) => Some(mask | 1 << bit),
        _ => None,
    }
}

/// The value of a mask.
fn mask_outcome(mask: Option<u16>) -> Outcome
    ensures { result ≡ mask_outcome mask }
{
    match mask {
        Some(mask) => Ok(Value::Absolute(i64::from(mask))),
        None => Err(ExprError::Form),
    }
}

/// The names of a register mask from a place on and the bracket behind them. The mask has the bits of the names
/// before them, or is none where one of those is no register.
fn names_from(line: &[u8], tokens: &[Token], mut at: usize, mut mask: Option<u16>) -> Option<Read>
    requires { All (IsTokenOf line.now) tokens.now }
    ensures { ReadsNames mask (symbols_of line.now tokens.now) at result }
{
    loop {
        let Some(token) = token_at(tokens, at) else {
            return None;
        };
        let TokenKind::Name = token.kind else {
            return None;
        };
        let name = name_of(line, token);
        mask = with_bit(mask, mask_bit(name.as_bytes()));
        if is_mark_at(tokens, at + 1, b'>') {
            return Some(Read {
                answer: mask_outcome(mask),
                end: at + 2,
            });
        }
        if !is_mark_at(tokens, at + 1, b',') {
            return None;
        }
        at += 2;
    }
}

/// The value of the mask of one register without brackets.
fn single_mask_value(dialect: Dialect, register: &[u8]) -> Outcome
    ensures { result ≡ single_mask_value dialect register.now }
{
    if dialect.has_single_masks() {
        mask_outcome(with_bit(Some(0), mask_bit(register)))
    } else {
        Err(ExprError::Form)
    }
}

/// The register behind `^M`, where no bracket stands.
fn single_mask_at(dialect: Dialect, line: &[u8], tokens: &[Token], at: usize) -> Option<Read>
    requires { All (IsTokenOf line.now) tokens.now }
    ensures { ReadsSingleMask dialect (symbols_of line.now tokens.now) at result }
{
    let Some(token) = token_at(tokens, at) else {
        return None;
    };
    match token.kind {
        TokenKind::Name => {
            let name = name_of(line, token);
            Some(Read {
                answer: single_mask_value(dialect, name.as_bytes()),
                end: at + 1,
            })
        }
        _ => None,
    }
}

/// The mask behind `^M` and in brackets.
fn mask_at(line: &[u8], tokens: &[Token], at: usize) -> Option<Read>
    requires { All (IsTokenOf line.now) tokens.now }
    ensures { ReadsMask (symbols_of line.now tokens.now) at result }
{
    if !is_mark_at(tokens, at, b'<') {
        None
    } else if is_mark_at(tokens, at + 1, b'>') {
        Some(Read {
            answer: mask_outcome(Some(0)),
            end: at + 2,
        })
    } else {
        names_from(line, tokens, at + 1, Some(0))
    }
}

/// The text behind `^A`.
fn quoted_at(line: &[u8], tokens: &[Token], at: usize) -> Option<Read>
    requires { All (IsTokenOf line.now) tokens.now }
    ensures { ReadsQuoted (symbols_of line.now tokens.now) at result }
{
    let Some(token) = token_at(tokens, at) else {
        return None;
    };
    match token.kind {
        TokenKind::Text => {
            Some(Read {
                answer: characters_value(characters_of(line, token)),
                end: at + 1,
            })
        }
        _ => None,
    }
}

/// How a term begins.
#[derive(Clone, Copy)]
pub(crate) enum Start {
    /// With what opens at its place, and with the term that begins at this other place.
    Opens(Open, usize),
    /// With no more than it is, or no term begins.
    Whole(Option<Read>),
}

/// How the term begins whose first token is a `^`.
fn operated<N: Names>(line: &[u8], tokens: &[Token], names: &N, at: usize) -> Start
    requires tokens { All (IsTokenOf line.now) tokens.now }
    requires caret { is_that_mark 94 (slice_get tokens.now at) ≡ true }
    ensures { BeginsTerm (N.meaning names.now) (symbols_of line.now tokens.now) at result }
{
    let Some(token) = token_at(tokens, at + 1) else {
        return Start::Whole(None);
    };
    let TokenKind::Name = token.kind else {
        return Start::Whole(None);
    };
    let name = name_of(line, token);
    if is_word(name.as_bytes(), b"C") {
        Start::Opens(Open::Complement, at + 2)
    } else if is_word(name.as_bytes(), b"A") {
        Start::Whole(quoted_at(line, tokens, at + 2))
    } else if is_word(name.as_bytes(), b"M") {
        if is_mark_at(tokens, at + 2, b'<') {
            Start::Whole(mask_at(line, tokens, at + 2))
        } else {
            Start::Whole(single_mask_at(names.dialect(), line, tokens, at + 2))
        }
    } else {
        Start::Whole(None)
    }
}

/// The value of a number.
fn constant(number: u64) -> Outcome
    ensures { result ≡ Ok (Value.Absolute (cast_signed w64 number)) }
{
    Ok(Value::Absolute(number.cast_signed()))
}

/// How the term begins whose first token is this mark.
fn marked<N: Names>(line: &[u8], tokens: &[Token], names: &N, at: usize, mark: u8) -> Start
    requires tokens { All (IsTokenOf line.now) tokens.now }
    requires mark { is_that_mark mark (slice_get tokens.now at) ≡ true }
    requires room { at < length tokens.now }
    ensures { BeginsTerm (N.meaning names.now) (symbols_of line.now tokens.now) at result }
{
    if mark == b'+' {
        Start::Opens(Open::Plus, at + 1)
    } else if mark == b'-' {
        Start::Opens(Open::Minus, at + 1)
    } else if mark == b'<' {
        Start::Opens(Open::Bracket, at + 1)
    } else if mark == b'^' {
        operated(line, tokens, names, at)
    } else {
        Start::Whole(None)
    }
}

/// How the term begins that is at a place.
pub(crate) fn begun<N: Names>(line: &[u8], tokens: &[Token], names: &N, at: usize) -> Start
    requires { All (IsTokenOf line.now) tokens.now }
    ensures { BeginsTerm (N.meaning names.now) (symbols_of line.now tokens.now) at result }
{
    let Some(token) = token_at(tokens, at) else {
        return Start::Whole(None);
    };
    match token.kind {
        TokenKind::Number(number) => Start::Whole(Some(Read {
            answer: constant(number),
            end: at + 1,
        })),
        TokenKind::Name => {
            let name = name_of(line, token);
            Start::Whole(Some(Read {
                answer: named(names, name.as_bytes()),
                end: at + 1,
            }))
        }
        TokenKind::Mark(mark) => marked(line, tokens, names, at, mark),
        TokenKind::Text => Start::Whole(None),
    }
}

/// The term that begins at a place.
pub(crate) fn term<N: Names>(line: &[u8], tokens: &[Token], names: &N, at: usize) -> Option<Read>
    requires { All (IsTokenOf line.now) tokens.now }
    ensures { ReadsTerm (N.meaning names.now) (symbols_of line.now tokens.now) at result }
{
    match begun(line, tokens, names, at) {
        Start::Opens(_, _) => nested(line, tokens, names, at),
        Start::Whole(read) => read,
    }
}

/// The expression that begins at a place, as far as operators join terms to it.
fn expression<N: Names>(line: &[u8], tokens: &[Token], names: &N, at: usize) -> Option<Read>
    requires { All (IsTokenOf line.now) tokens.now }
    ensures { ReadsExpression (N.meaning names.now) (symbols_of line.now tokens.now) at result }
{
    let Some(first) = term(line, tokens, names, at) else {
        return None;
    };
    let mut answer = first.answer;
    let mut end = first.end;
    while let Some(operator) = operator_at(tokens, end) {
        let Some(right) = term(line, tokens, names, end + 1) else {
            return None;
        };
        answer = combined(names.dialect(), operator, answer, right.answer);
        end = right.end;
    }
    Some(Read { answer, end })
}

/// The value of the expression that tokens of a line spell.
///
/// Its terms are numbers, names, `^A/text/`, `^M<R2,R3>`, `^MR2` where the dialect has it, terms behind `+`, `-` and `^C`, and expressions in `< >`.
/// The operators `+ - * / @ & ! \` between terms have equal rank and apply from left to right; values have 64 bits
/// and wrap, or as many as the dialect of the names says. A relocatable or external value may be added to an absolute one, an absolute one may be taken from it,
/// and two places of one section may be subtracted. (VAX MACRO and Instruction Set Reference Manual, "Terms and
/// expressions".)
///
/// [`ExprError::Form`] where the tokens spell no expression or a value takes part where it may not,
/// [`ExprError::Unknown`] where a name has no value, [`ExprError::Range`] at a division by 0; of several the first
/// in this order.
pub fn evaluate<N: Names>(line: &[u8], tokens: &[Token], names: &N) -> Result<Value, ExprError>
    // The tokens are some of those that `scan` gives for the line.
    requires { All (IsTokenOf line.now) tokens.now }
    // The answer is the value of an expression that they spell, or they spell none.
    ensures exact { Evaluates (N.meaning names.now) (symbols_of line.now tokens.now) result }
    // It is a function of the symbols.
    ensures value { result ≡ value_at (N.meaning names.now) (symbols_of line.now tokens.now) }
    // They spell no other expression.
    ensures only { (e : Expression) → spelling e ≡ symbols_of line.now tokens.now
        → result ≡ value_of (N.meaning names.now) e }
{
    let Some(read) = expression(line, tokens, names, 0) else {
        return Err(ExprError::Form);
    };
    if read.end == tokens.len() {
        read.answer
    } else {
        Err(ExprError::Form)
    }
}
