// The operands that modes come to, once as much is known of their values as stands before them.

ghost use Rattle.std.specs.Prelude.{◌≡◌, ◌<◌, ◌+◌, ◌^◌};
ghost use Rattle.vax_asm_statement.specs.Sizes.{holds, shortest, displaced_size, relative_size, constant, displaced_base, relative_base, given, base_of, outright, sized};

use crate::modes::Mode;
use vax_asm_encode::{Base, Field, Operand, fill};
use vax_isa::Narrow;
use vax_lex::{ExprError, Value};

fn holds(field: Field, section: u32, at: u32, value: Value) -> bool
    requires { at + 4 < 2 ^ 32 }
    ensures { result ≡ holds field section at value }
{
    fill(field, section, at, value).is_ok()
}

/// The shortest displacement of which the fields hold a value.
fn shortest(byte: Field, word: Field, section: u32, at: u32, value: Value) -> Narrow
    requires { at + 4 < 2 ^ 32 }
    ensures { result ≡ shortest byte word section at value }
{
    if holds(byte, section, at, value) {
        Narrow::B
    } else if holds(word, section, at, value) {
        Narrow::W
    } else {
        Narrow::L
    }
}

fn displaced_size(value: Result<Value, ExprError>) -> Narrow
    ensures { result ≡ displaced_size value }
{
    match value {
        Ok(Value::Absolute(number)) => shortest(
            Field::Displacement(Narrow::B),
            Field::Displacement(Narrow::W),
            0,
            0,
            Value::Absolute(number),
        ),
        _ => Narrow::W,
    }
}

fn relative_size(section: u32, at: u32, value: Result<Value, ExprError>) -> Narrow
    requires { at + 4 < 2 ^ 32 }
    ensures { result ≡ relative_size section at value }
{
    match value {
        Ok(Value::Section { section: s, offset }) if s == section => {
            let place = Value::Section { section: s, offset };
            shortest(
                Field::Relative(Narrow::B),
                Field::Relative(Narrow::W),
                section,
                at,
                place,
            )
        }
        _ => Narrow::L,
    }
}

/// A short literal for a number from 0 to 63.
fn constant(value: Result<Value, ExprError>) -> Operand
    ensures { result ≡ constant value }
{
    match value {
        Ok(Value::Absolute(number)) if number >= 0 && number < 64 => Operand::Literal,
        Ok(_) => Operand::Immediate,
        Err(_) => Operand::Immediate,
    }
}

fn displaced_base(size: Narrow, deferred: bool, register: u8) -> Base
    ensures { result ≡ displaced_base size deferred register }
{
    if deferred {
        Base::DisplacedDeferred { size, register }
    } else {
        Base::Displaced { size, register }
    }
}

fn relative_base(size: Narrow, deferred: bool) -> Base
    ensures { result ≡ relative_base size deferred }
{
    if deferred {
        Base::RelativeDeferred(size)
    } else {
        Base::Relative(size)
    }
}

fn given(size: Option<Narrow>, other: Narrow) -> Narrow
    ensures { result ≡ given size other }
{
    match size {
        Some(size) => size,
        None => other,
    }
}

/// The place that a mode names, if it names one.
fn base_of(mode: Mode, section: u32, at: u32, value: Result<Value, ExprError>) -> Option<Base>
    requires { at + 4 < 2 ^ 32 }
    ensures { result ≡ base_of mode section at value }
{
    match mode {
        Mode::Constant | Mode::Literal | Mode::Immediate | Mode::Register(_) => None,
        Mode::Deferred(n) => Some(Base::Deferred(n)),
        Mode::Decrement(n) => Some(Base::Decrement(n)),
        Mode::Increment(n) => Some(Base::Increment(n)),
        Mode::IncrementDeferred(n) => Some(Base::IncrementDeferred(n)),
        Mode::PointerDeferred(n) => Some(displaced_base(Narrow::B, true, n)),
        Mode::Absolute => Some(Base::Absolute),
        Mode::Displaced {
            size,
            deferred,
            register,
        } => {
            let size = given(size, displaced_size(value));
            Some(displaced_base(size, deferred, register))
        }
        Mode::Relative { size, deferred } => {
            let size = given(size, relative_size(section, at, value));
            Some(relative_base(size, deferred))
        }
    }
}

/// The operand without a place in memory.
fn outright(mode: Mode, value: Result<Value, ExprError>) -> Operand
    ensures { result ≡ outright mode value }
{
    match mode {
        Mode::Constant => constant(value),
        Mode::Literal => Operand::Literal,
        Mode::Register(n) => Operand::Register(n),
        _ => Operand::Immediate,
    }
}

/// The operand that a mode is in memory. None where a form that isn't in memory has an index.
///
/// `at` is where the field of the operand lies in its section, and `value` what is known of the expression by what
/// stands before it. A constant from 0 to 63 is a short literal, and every other one an immediate. Where no size is written, a displacement is the shortest that
/// holds a known number, and a word otherwise; a displacement from PC is the shortest that reaches a known place of the same section, and a longword otherwise.
pub fn memory_operand(
    mode: Mode,
    index: Option<u8>,
    section: u32,
    at: u32,
    value: Result<Value, ExprError>,
) -> Option<Operand>
    // Past the field there are more addresses.
    requires { at + 4 < 2 ^ 32 }
    ensures { result ≡ sized mode index section at value }
{
    match (base_of(mode, section, at, value), index) {
        (Some(base), Some(x)) => Some(Operand::Indexed(base, x)),
        (Some(base), None) => Some(Operand::Memory(base)),
        (None, None) => Some(outright(mode, value)),
        (None, Some(_)) => None,
    }
}
