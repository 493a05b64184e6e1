// The addressing modes, as they are written.

ghost use Rattle.std.specs.Prelude.{◌≡◌, ◌<◌, ◌≤◌, ◌-◌, ◌+◌, true, [], All, IfSome, length};
ghost use Rattle.vax_lex.specs.Tokens.{IsTokenOf};
ghost use Rattle.vax_asm_statement.specs.Modes.{register_token, between, enclosed_last, register_deferred, incremented, decremented, register_alone, letter_of, prefix_letter, size_named, size_before, addressed, perhaps_sized, deferred_form, is_prefixed, is_general, is_hashed, register_form, direct_form, unindexed, operand_of, form_seen, seen};

use crate::registers::register_named;
use crate::tokens::{begins_with, is_mark, is_name_token, text_of};
use vax_isa::Narrow;
use vax_lex::Token;

/// The form in which an operand is written. Registers are numbered from 0 to 15.
#[derive(Clone, Copy, PartialEq, Eq)]
pub enum Mode {
    /// `#e`.
    Constant,
    /// `S^#e`.
    Literal,
    /// `I^#e`.
    Immediate,
    /// `Rn`.
    Register(u8),
    /// `(Rn)`.
    Deferred(u8),
    /// `-(Rn)`.
    Decrement(u8),
    /// `(Rn)+`.
    Increment(u8),
    /// `@(Rn)+`.
    IncrementDeferred(u8),
    /// `@(Rn)`, which is `@B^0(Rn)`.
    PointerDeferred(u8),
    /// `@#e`.
    Absolute,
    /// `e(Rn)`, or `@e(Rn)`, with `B^`, `W^` or `L^` before `e` where a size is given.
    Displaced {
        size: Option<Narrow>,
        deferred: bool,
        register: u8,
    },
    /// `e`, or `@e`, with `B^`, `W^`, `L^` or `G^` before `e` where a size is given.
    Relative {
        size: Option<Narrow>,
        deferred: bool,
    },
}

/// An operand as it is written.
#[derive(Clone, Copy)]
pub struct Written<'a> {
    pub mode: Mode,
    /// The tokens of `e`; none where the mode has no `e`.
    pub expression: &'a [Token],
    /// The register of its index, `[Rx]`.
    pub index: Option<u8>,
}

/// A mode and the tokens of its expression.
#[derive(Clone, Copy)]
struct Form<'a> {
    mode: Mode,
    expression: &'a [Token],
}

fn register_token(line: &[u8], token: Token) -> Option<u8>
    requires { IsTokenOf line.now token }
    ensures value { result ≡ register_token line.now token }
    ensures within { IfSome result (λ n. n < 16) }
{
    if is_name_token(token) {
        register_named(text_of(line, token))
    } else {
        None
    }
}

/// The register between two marks.
fn between(
    line: &[u8],
    opening: u8,
    closing: u8,
    first: Token,
    name: Token,
    last: Token,
) -> Option<u8>
    requires { IsTokenOf line.now name }
    ensures value { result ≡ between line.now opening closing first name last }
    ensures within { IfSome result (λ n. n < 16) }
{
    if is_mark(opening, first) && is_mark(closing, last) {
        register_token(line, name)
    } else {
        None
    }
}

/// The register between two marks that the tokens end with.
fn enclosed_last(line: &[u8], opening: u8, closing: u8, tokens: &[Token]) -> Option<u8>
    requires { All (IsTokenOf line.now) tokens.now }
    ensures value { result ≡ enclosed_last line.now opening closing tokens.now }
    ensures within { IfSome result (λ n. n < 16) }
    ensures three { IfSome result (λ n. 3 ≤ length tokens.now) }
{
    if tokens.len() < 3 {
        return None;
    }
    let at = tokens.len() - 3;
    between(
        line,
        opening,
        closing,
        tokens[at],
        tokens[at + 1],
        tokens[at + 2],
    )
}

/// `(Rn)`.
fn register_deferred(line: &[u8], tokens: &[Token]) -> Option<u8>
    requires { All (IsTokenOf line.now) tokens.now }
    ensures value { result ≡ register_deferred line.now tokens.now }
    ensures within { IfSome result (λ n. n < 16) }
{
    match tokens {
        [first, name, last] => between(line, b'(', b')', *first, *name, *last),
        _ => None,
    }
}

/// `(Rn)+`.
fn incremented(line: &[u8], tokens: &[Token]) -> Option<u8>
    requires { All (IsTokenOf line.now) tokens.now }
    ensures value { result ≡ incremented line.now tokens.now }
    ensures within { IfSome result (λ n. n < 16) }
{
    match tokens {
        [first, name, last, plus] => {
            if is_mark(b'+', *plus) {
                between(line, b'(', b')', *first, *name, *last)
            } else {
                None
            }
        }
        _ => None,
    }
}

/// `-(Rn)`.
fn decremented(line: &[u8], tokens: &[Token]) -> Option<u8>
    requires { All (IsTokenOf line.now) tokens.now }
    ensures value { result ≡ decremented line.now tokens.now }
    ensures within { IfSome result (λ n. n < 16) }
{
    match tokens {
        [minus, first, name, last] => {
            if is_mark(b'-', *minus) {
                between(line, b'(', b')', *first, *name, *last)
            } else {
                None
            }
        }
        _ => None,
    }
}

/// `Rn`.
fn register_alone(line: &[u8], tokens: &[Token]) -> Option<u8>
    requires { All (IsTokenOf line.now) tokens.now }
    ensures value { result ≡ register_alone line.now tokens.now }
    ensures within { IfSome result (λ n. n < 16) }
{
    match tokens {
        [name] => register_token(line, *name),
        _ => None,
    }
}

/// The one letter of a name, as a capital.
fn letter_of(text: &[u8]) -> Option<u8>
    ensures { result ≡ letter_of text.now }
{
    match text {
        [letter] => Some(letter.to_ascii_uppercase()),
        _ => None,
    }
}

/// The letter before a `^` at the head of an operand, as a capital.
fn prefix_letter(line: &[u8], tokens: &[Token]) -> Option<u8>
    requires { All (IsTokenOf line.now) tokens.now }
    ensures value { result ≡ prefix_letter line.now tokens.now }
    ensures two { IfSome result (λ n. 2 ≤ length tokens.now) }
{
    match tokens {
        [name, caret, ..] => {
            if is_name_token(*name) && is_mark(b'^', *caret) {
                letter_of(text_of(line, *name))
            } else {
                None
            }
        }
        _ => None,
    }
}

fn size_named(letter: u8) -> Option<Narrow>
    ensures { result ≡ size_named letter }
{
    match letter {
        b'B' => Some(Narrow::B),
        b'W' => Some(Narrow::W),
        b'L' => Some(Narrow::L),
        _ => None,
    }
}

/// The size that stands at the head of an operand.
fn size_before(line: &[u8], tokens: &[Token]) -> Option<Narrow>
    requires { All (IsTokenOf line.now) tokens.now }
    ensures value { result ≡ size_before line.now tokens.now }
    ensures two { IfSome result (λ n. 2 ≤ length tokens.now) }
{
    match prefix_letter(line, tokens) {
        Some(letter) => size_named(letter),
        None => None,
    }
}

/// `e(Rn)` or `e`, behind its size.
fn addressed<'a>(line: &[u8], size: Option<Narrow>, deferred: bool, tokens: &'a [Token]) -> Form<'a>
    requires { All (IsTokenOf line.now) tokens.now }
    ensures form { form_seen result ≡ addressed line.now size deferred tokens.now }
    ensures tokens { All (IsTokenOf line.now) result.expression.now }
{
    match enclosed_last(line, b'(', b')', tokens) {
        Some(register) => Form {
            mode: Mode::Displaced {
                size,
                deferred,
                register,
            },
            expression: &tokens[..tokens.len() - 3],
        },
        None => Form {
            mode: Mode::Relative { size, deferred },
            expression: tokens,
        },
    }
}

/// `e(Rn)` or `e`, with a size before it or without.
fn perhaps_sized<'a>(line: &[u8], deferred: bool, tokens: &'a [Token]) -> Form<'a>
    requires { All (IsTokenOf line.now) tokens.now }
    ensures form { form_seen result ≡ perhaps_sized line.now deferred tokens.now }
    ensures tokens { All (IsTokenOf line.now) result.expression.now }
{
    match size_before(line, tokens) {
        Some(size) => addressed(line, Some(size), deferred, &tokens[2..]),
        None => addressed(line, None, deferred, tokens),
    }
}

fn of_register<'a>(mode: Mode) -> Form<'a>
    ensures mode { result.mode ≡ mode }
    ensures none { result.expression.now ≡ [] }
{
    Form {
        mode,
        expression: &[],
    }
}

/// What stands behind `@`.
#[tactic(auto, unfolding(crate::specs::Modes::deferred_form))]
fn deferred_form<'a>(line: &[u8], tokens: &'a [Token]) -> Form<'a>
    requires { All (IsTokenOf line.now) tokens.now }
    ensures form { form_seen result ≡ deferred_form line.now tokens.now }
    ensures tokens { All (IsTokenOf line.now) result.expression.now }
{
    if begins_with(b'#', tokens) {
        return Form {
            mode: Mode::Absolute,
            expression: &tokens[1..],
        };
    }
    if let Some(register) = register_deferred(line, tokens) {
        return of_register(Mode::PointerDeferred(register));
    }
    if let Some(register) = incremented(line, tokens) {
        return of_register(Mode::IncrementDeferred(register));
    }
    perhaps_sized(line, true, tokens)
}

/// Whether an operand begins with this letter and a `^`.
fn is_prefixed(line: &[u8], letter: u8, tokens: &[Token]) -> bool
    requires { All (IsTokenOf line.now) tokens.now }
    ensures value { result ≡ is_prefixed line.now letter tokens.now }
    ensures two { result ≡ true → 2 ≤ length tokens.now }
{
    match prefix_letter(line, tokens) {
        Some(found) => found == letter,
        None => false,
    }
}

/// Whether an operand is `G^e`, perhaps with an index.
pub fn is_general(line: &[u8], tokens: &[Token]) -> bool
    requires { All (IsTokenOf line.now) tokens.now }
    ensures { result ≡ is_general line.now tokens.now }
{
    is_prefixed(line, b'G', tokens)
}

/// Whether an operand begins with this letter, a `^` and a `#`.
fn is_hashed(line: &[u8], letter: u8, tokens: &[Token]) -> bool
    requires { All (IsTokenOf line.now) tokens.now }
    ensures value { result ≡ is_hashed line.now letter tokens.now }
    ensures three { result ≡ true → 3 ≤ length tokens.now }
{
    is_prefixed(line, letter, tokens) && begins_with(b'#', &tokens[2..])
}

/// The modes of a register, and `e`.
#[tactic(auto, unfolding(crate::specs::Modes::register_form))]
fn register_form<'a>(line: &[u8], tokens: &'a [Token]) -> Form<'a>
    requires { All (IsTokenOf line.now) tokens.now }
    ensures form { form_seen result ≡ register_form line.now tokens.now }
    ensures tokens { All (IsTokenOf line.now) result.expression.now }
{
    if let Some(register) = register_alone(line, tokens) {
        return of_register(Mode::Register(register));
    }
    if let Some(register) = register_deferred(line, tokens) {
        return of_register(Mode::Deferred(register));
    }
    if let Some(register) = incremented(line, tokens) {
        return of_register(Mode::Increment(register));
    }
    if let Some(register) = decremented(line, tokens) {
        return of_register(Mode::Decrement(register));
    }
    perhaps_sized(line, false, tokens)
}

/// What stands behind neither `#` nor `@`.
#[tactic(auto, unfolding(crate::specs::Modes::direct_form))]
fn direct_form<'a>(line: &[u8], tokens: &'a [Token]) -> Form<'a>
    requires { All (IsTokenOf line.now) tokens.now }
    ensures form { form_seen result ≡ direct_form line.now tokens.now }
    ensures tokens { All (IsTokenOf line.now) result.expression.now }
{
    if is_hashed(line, b'S', tokens) {
        return Form {
            mode: Mode::Literal,
            expression: &tokens[3..],
        };
    }
    if is_hashed(line, b'I', tokens) {
        return Form {
            mode: Mode::Immediate,
            expression: &tokens[3..],
        };
    }
    if is_prefixed(line, b'G', tokens) {
        return Form {
            mode: Mode::Relative {
                size: Some(Narrow::L),
                deferred: false,
            },
            expression: &tokens[2..],
        };
    }
    register_form(line, tokens)
}

/// An operand without its index.
#[tactic(auto, unfolding(crate::specs::Modes::unindexed))]
fn unindexed<'a>(line: &[u8], tokens: &'a [Token]) -> Form<'a>
    requires { All (IsTokenOf line.now) tokens.now }
    ensures form { form_seen result ≡ unindexed line.now tokens.now }
    ensures tokens { All (IsTokenOf line.now) result.expression.now }
{
    if begins_with(b'#', tokens) {
        return Form {
            mode: Mode::Constant,
            expression: &tokens[1..],
        };
    }
    if begins_with(b'@', tokens) {
        return deferred_form(line, &tokens[1..]);
    }
    direct_form(line, tokens)
}

/// How an operand is written: `#e`, `S^#e`, `I^#e`, `Rn`, `(Rn)`, `-(Rn)`, `(Rn)+`, `@(Rn)+`, `@(Rn)`, `e(Rn)`,
/// `@e(Rn)`, `@#e`, `e`, `@e` or `G^e`, with `B^`, `W^` or `L^` before `e` or behind `@`, and with `[Rx]` behind it or
/// without (VAX MACRO and Instruction Set Reference Manual, "Addressing modes"). What is none of these but `e` is taken
/// for `e`, which then spells no expression.
#[tactic(auto, unfolding(crate::specs::Modes::operand_of))]
pub fn operand<'a>(line: &[u8], tokens: &'a [Token]) -> Written<'a>
    requires { All (IsTokenOf line.now) tokens.now }
    ensures written { seen result ≡ operand_of line.now tokens.now }
    ensures tokens { All (IsTokenOf line.now) result.expression.now }
{
    let index = enclosed_last(line, b'[', b']', tokens);
    let base = match index {
        Some(_) => &tokens[..tokens.len() - 3],
        None => tokens,
    };
    let form = unindexed(line, base);
    Written {
        mode: form.mode,
        expression: form.expression,
        index,
    }
}
