// Values, and what the operators of expressions make of them.

ghost use Rattle.std.specs.Prelude.{◌≡◌, ◌+◌, ◌<◌, ◌≤◌, length, IfSome};
ghost use Rattle.vax_lex.specs.Views.{operation_view};
ghost use Rattle.vax_lex.specs.Values.{quotient, shifted, arithmetic, apply, first_error, refuses_left, refuses_right, Sense, combine, combined, complement_of, complemented, fitted, fitted_number, fitted_value, longword, minus_of, named, negated, little_endian, characters_value, mask_bit};

use crate::character::is_word;
use vax_dialect::Dialect;

/// The value of an expression or a name. Offsets and absolute values are 64-bit and wrap.
#[derive(Clone, Copy, PartialEq, Eq)]
pub enum Value {
    /// A number.
    Absolute(i64),
    /// A place in a section of the module.
    Section { section: u32, offset: i64 },
    /// A place relative to an external name.
    External { index: u32, offset: i64 },
}

/// Why an expression has no value. Where there are several causes, the first in this order.
#[derive(Clone, Copy, Debug, PartialEq, Eq, thiserror::Error)]
pub enum ExprError {
    /// The tokens are no expression, or a relocatable or external value takes part in it where none may.
    #[error("no such expression")]
    Form,
    /// A name has no value.
    #[error("a name has no value")]
    Unknown,
    /// A division by 0.
    #[error("division by 0")]
    Range,
}

/// What an expression is read by: the dialect, and the names that it may use with their values.
pub trait Names {
    /// The dialect, and the values of names, which are given as they are kept: in capitals, and a local label without
    /// zeros before its number.
    ghost meaning: { Self → Sense };

    /// The dialect that the expression is in.
    fn dialect(&self) -> Dialect
        ensures { result ≡ (meaning self.now).dialect };

    /// The value of a name.
    fn lookup(&self, name: &[u8]) -> Option<Value>
        ensures { result ≡ (meaning self.now).value name.now };
}

/// The value so far, or why there is none.
pub(crate) type Outcome = Result<Value, ExprError>;

/// The operators that stand between two terms.
#[derive(Clone, Copy, PartialEq, Eq)]
pub(crate) enum Binary {
    Add,
    Subtract,
    Multiply,
    Divide,
    Shift,
    And,
    Or,
    ExclusiveOr,
}

/// A shift to the left, or to the right for a negative count, in which the sign is kept.
fn shifted(value: i64, count: i64) -> i64
    ensures { result ≡ shifted value count }
{
    if count >= 0 {
        value.unbounded_shl(count.min(64) as u32)
    } else {
        value.unbounded_shr(count.unsigned_abs().min(64) as u32)
    }
}

/// A quotient, towards 0.
#[tactic(auto, using(crate::proofs::Quotients::quotient_by_0, crate::proofs::Quotients::quotient_by_other))]
fn quotient(left: i64, right: i64) -> Outcome
    ensures { result ≡ quotient left right }
{
    if right == 0 {
        return Err(ExprError::Range);
    }
    Ok(Value::Absolute(left.wrapping_div(right)))
}

/// An operator at two numbers.
fn arithmetic(operator: Binary, left: i64, right: i64) -> Outcome
    ensures { result ≡ arithmetic (operation_view operator) left right }
{
    let value = match operator {
        Binary::Add => left.wrapping_add(right),
        Binary::Subtract => left.wrapping_sub(right),
        Binary::Multiply => left.wrapping_mul(right),
        Binary::Divide => return quotient(left, right),
        Binary::Shift => shifted(left, right),
        Binary::And => left & right,
        Binary::Or => left | right,
        Binary::ExclusiveOr => left ^ right,
    };
    Ok(Value::Absolute(value))
}

/// An operator at two values.
fn apply(operator: Binary, left: Value, right: Value) -> Outcome
    ensures { result ≡ apply (operation_view operator) left right }
{
    match (operator, left, right) {
        (_, Value::Absolute(x), Value::Absolute(y)) => arithmetic(operator, x, y),
        (Binary::Add, Value::Absolute(x), Value::Section { section, offset })
        | (Binary::Add, Value::Section { section, offset }, Value::Absolute(x)) => {
            Ok(Value::Section {
                section,
                offset: offset.wrapping_add(x),
            })
        }
        (Binary::Add, Value::Absolute(x), Value::External { index, offset })
        | (Binary::Add, Value::External { index, offset }, Value::Absolute(x)) => {
            Ok(Value::External {
                index,
                offset: offset.wrapping_add(x),
            })
        }
        (Binary::Subtract, Value::Section { section, offset }, Value::Absolute(y)) => {
            Ok(Value::Section {
                section,
                offset: offset.wrapping_sub(y),
            })
        }
        (Binary::Subtract, Value::External { index, offset }, Value::Absolute(y)) => {
            Ok(Value::External {
                index,
                offset: offset.wrapping_sub(y),
            })
        }
        (
            Binary::Subtract,
            Value::Section {
                section: s,
                offset: x,
            },
            Value::Section {
                section: t,
                offset: y,
            },
        ) if s == t => { Ok(Value::Absolute(x.wrapping_sub(y))) }
        _ => Err(ExprError::Form),
    }
}

/// Of two errors the one that counts.
fn first_error(left: ExprError, right: ExprError) -> ExprError
    ensures { result ≡ first_error left right }
{
    match (left, right) {
        (ExprError::Form, _) | (_, ExprError::Form) => ExprError::Form,
        (ExprError::Unknown, _) | (_, ExprError::Unknown) => ExprError::Unknown,
        _ => ExprError::Range,
    }
}

/// Whether the operator has no value with this left operand, whatever the right one is.
fn refuses_left(operator: Binary, left: Value) -> bool
    ensures { result ≡ refuses_left (operation_view operator) left }
{
    match (operator, left) {
        (Binary::Add | Binary::Subtract, _) | (_, Value::Absolute(_)) => false,
        _ => true,
    }
}

/// Whether the operator has no value with this right operand, whatever the left one is.
fn refuses_right(operator: Binary, right: Value) -> bool
    ensures { result ≡ refuses_right (operation_view operator) right }
{
    match (operator, right) {
        (Binary::Subtract, Value::External { .. }) => true,
        (Binary::Add | Binary::Subtract, _) | (_, Value::Absolute(_)) => false,
        _ => true,
    }
}

/// An operator at two terms.
fn combine(operator: Binary, left: Outcome, right: Outcome) -> Outcome
    ensures { result ≡ combine (operation_view operator) left right }
{
    match (left, right) {
        (Ok(x), Ok(y)) => apply(operator, x, y),
        (Ok(x), Err(_)) if refuses_left(operator, x) => Err(ExprError::Form),
        (Ok(_), Err(error)) => Err(error),
        (Err(_), Ok(y)) if refuses_right(operator, y) => Err(ExprError::Form),
        (Err(error), Ok(_)) => Err(error),
        (Err(first), Err(second)) => Err(first_error(first, second)),
    }
}

/// The sign `-` before a term.
fn negated(term: Outcome) -> Outcome
    ensures { result ≡ negated term }
{
    match term {
        Ok(Value::Absolute(value)) => Ok(Value::Absolute(value.wrapping_neg())),
        Ok(_) => Err(ExprError::Form),
        Err(error) => Err(error),
    }
}

/// `^C` before a term.
fn complemented(term: Outcome) -> Outcome
    ensures { result ≡ complemented term }
{
    match term {
        Ok(Value::Absolute(value)) => Ok(Value::Absolute(!value)),
        Ok(_) => Err(ExprError::Form),
        Err(error) => Err(error),
    }
}

/// The low 32 bits of a number, as a signed number.
fn longword(number: i64) -> i64
    ensures { result ≡ longword number }
{
    let low = (number.cast_unsigned() % 0x1_0000_0000) as u32;
    i64::from(low.cast_signed())
}

/// A number as operators of expressions see it and give it: all of its 64 bits, or the low 32 as a signed number.
pub fn fitted_number(dialect: Dialect, number: i64) -> i64
    ensures { result ≡ fitted_number dialect number }
{
    if dialect.has_longword_values() {
        longword(number)
    } else {
        number
    }
}

fn fitted_value(dialect: Dialect, value: Value) -> Value
    ensures { result ≡ fitted_value dialect value }
{
    match value {
        Value::Absolute(number) => Value::Absolute(fitted_number(dialect, number)),
        Value::Section { section, offset } => Value::Section {
            section,
            offset: fitted_number(dialect, offset),
        },
        Value::External { index, offset } => Value::External {
            index,
            offset: fitted_number(dialect, offset),
        },
    }
}

/// A term as operators see it and give it.
pub(crate) fn fitted(dialect: Dialect, term: Outcome) -> Outcome
    ensures { result ≡ fitted dialect term }
{
    match term {
        Ok(value) => Ok(fitted_value(dialect, value)),
        Err(error) => Err(error),
    }
}

/// An operator at two terms, in a dialect.
pub(crate) fn combined(dialect: Dialect, operator: Binary, left: Outcome, right: Outcome) -> Outcome
    ensures { result ≡ combined dialect (operation_view operator) left right }
{
    let value = combine(operator, fitted(dialect, left), fitted(dialect, right));
    fitted(dialect, value)
}

/// The sign `-` before a term, in a dialect.
pub(crate) fn minus_of(dialect: Dialect, term: Outcome) -> Outcome
    ensures { result ≡ minus_of dialect term }
{
    fitted(dialect, negated(fitted(dialect, term)))
}

/// `^C` before a term, in a dialect.
pub(crate) fn complement_of(dialect: Dialect, term: Outcome) -> Outcome
    ensures { result ≡ complement_of dialect term }
{
    fitted(dialect, complemented(fitted(dialect, term)))
}

/// The value of a name.
pub(crate) fn named<N: Names>(names: &N, name: &[u8]) -> Outcome
    ensures { result ≡ named (N.meaning names.now) name.now }
{
    names.lookup(name).ok_or(ExprError::Unknown)
}

/// A number by its bytes, the lowest first.
#[tactic(auto, using(crate::proofs::Bytes::byte_before, crate::proofs::Bytes::little_endian_fits, crate::proofs::Bytes::no_byte))]
fn little_endian(bytes: &[u8]) -> u64
    requires { length bytes.now ≤ 8 }
    ensures { result ≡ little_endian bytes.now }
{
    let mut value = 0;
    let mut at = bytes.len();
    while at > 0 {
        at -= 1;
        value = value * 256 + u64::from(bytes[at]);
    }
    value
}

/// The value of a text of 1 to 8 characters.
pub(crate) fn characters_value(text: &[u8]) -> Outcome
    ensures { result ≡ characters_value text.now }
{
    if text.is_empty() || text.len() > 8 {
        return Err(ExprError::Form);
    }
    Ok(Value::Absolute(little_endian(text).cast_signed()))
}

/// The bit of a register, or of an overflow trap, in a register mask.
pub(crate) fn mask_bit(name: &[u8]) -> Option<u8>
    ensures value { result ≡ mask_bit name.now }
    ensures bound { IfSome result (λ bit. bit < 16) }
{
    if is_word(name, b"R0") {
        Some(0)
    } else if is_word(name, b"R1") {
        Some(1)
    } else if is_word(name, b"R2") {
        Some(2)
    } else if is_word(name, b"R3") {
        Some(3)
    } else if is_word(name, b"R4") {
        Some(4)
    } else if is_word(name, b"R5") {
        Some(5)
    } else if is_word(name, b"R6") {
        Some(6)
    } else if is_word(name, b"R7") {
        Some(7)
    } else if is_word(name, b"R8") {
        Some(8)
    } else if is_word(name, b"R9") {
        Some(9)
    } else if is_word(name, b"R10") {
        Some(10)
    } else if is_word(name, b"R11") {
        Some(11)
    } else if is_word(name, b"R12") {
        Some(12)
    } else if is_word(name, b"R13") {
        Some(13)
    } else if is_word(name, b"R14") {
        Some(14)
    } else if is_word(name, b"AP") {
        Some(12)
    } else if is_word(name, b"FP") {
        Some(13)
    } else if is_word(name, b"SP") {
        Some(14)
    } else if is_word(name, b"IV") {
        Some(14)
    } else if is_word(name, b"DV") {
        Some(15)
    } else {
        None
    }
}
