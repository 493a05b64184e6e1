//! Specifier bytes, and which forms mean something
//! (VAX Architecture Reference Manual, operand specifier addressing mode formats).
ghost use Rattle.std.specs.Prelude.{◌≡◌, ◌^◌, ◌<◌};
ghost use Rattle.vax_flat.specs.Form.{IsForm, IsDisplacement};
ghost use Rattle.vax_flat.specs.Operand.{form_of, extended, is_no_base, is_reserved, reaches_pc};

use crate::Form;
use vax_isa::Letter;

/// A specifier byte's form.
#[inline(always)]
#[tactic(auto, unfolding(crate::specs::Operand::form_of))]
pub fn decode(byte: u8) -> Form
    ensures form { result ≡ form_of byte }
    ensures sound { IsForm result }
{
    let register = byte & 15;
    match byte >> 4 {
        0 | 1 | 2 | 3 => Form::Literal(byte),
        4 => Form::Index(register),
        5 => Form::Register(register),
        6 => Form::Deferred(register),
        7 => Form::Decrement(register),
        8 => Form::Increment(register),
        9 => Form::IncrementDeferred(register),
        10 => Form::Displacement { width: 1, register },
        11 => Form::DisplacementDeferred { width: 1, register },
        12 => Form::Displacement { width: 2, register },
        13 => Form::DisplacementDeferred { width: 2, register },
        14 => Form::Displacement { width: 4, register },
        _ => Form::DisplacementDeferred { width: 4, register },
    }
}

/// A displacement of 1, 2 or 4 bytes, sign-extended to 32 bits.
#[inline(always)]
#[tactic(auto, unfolding(crate::specs::Operand::extended))]
pub fn extend(width: u8, value: u64) -> u32
    requires width { IsDisplacement width }
    requires fits { value < 256 ^ width }
    ensures { result ≡ extended width value }
{
    match width {
        1 if value >= 0x80 => value as u32 + 0xffff_ff00,
        2 if value >= 0x8000 => value as u32 + 0xffff_0000,
        _ => value as u32,
    }
}

/// Whether a register is PC, or has PC as the upper half of a quadword: it holds no operand.
#[inline(always)]
pub fn reaches_pc(width: u8, n: u8) -> bool
    ensures { result ≡ reaches_pc width n }
{
    n == 15 || (width == 8 && n == 14)
}

/// Whether a memory form with PC has no meaning for an operand.
#[inline(always)]
#[tactic(auto, unfolding(crate::specs::Operand::is_reserved))]
pub fn is_reserved(letter: Letter, form: Form) -> bool
    ensures { result ≡ is_reserved letter form }
{
    match form {
        Form::Literal(_) => false,
        Form::Index(_) => false,
        Form::Register(_) => false,
        Form::Deferred(n) => n == 15,
        Form::Decrement(n) => n == 15,
        Form::Increment(n) => {
            n == 15
                && match letter {
                    Letter::Read => false,
                    Letter::Modify => true,
                    Letter::Write => true,
                    Letter::Address => false,
                    Letter::Field => false,
                    Letter::Branch => true,
                }
        }
        Form::IncrementDeferred(_) => false,
        Form::Displacement { .. } => false,
        Form::DisplacementDeferred { .. } => false,
    }
}

/// Whether a form is no base for an index by register `x`.
#[inline(always)]
#[tactic(auto, unfolding(crate::specs::Operand::is_no_base))]
pub fn is_no_base(x: u8, form: Form) -> bool
    ensures { result ≡ is_no_base x form }
{
    match form {
        Form::Literal(_) => true,
        Form::Index(_) => true,
        Form::Register(_) => true,
        Form::Deferred(n) => n == 15,
        Form::Decrement(n) => n == 15 || n == x,
        Form::Increment(n) => n == 15 || n == x,
        Form::IncrementDeferred(n) => n == x,
        Form::Displacement { .. } => false,
        Form::DisplacementDeferred { .. } => false,
    }
}
