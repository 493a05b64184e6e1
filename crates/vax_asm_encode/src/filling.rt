// What a value gives a field.

ghost use Rattle.std.specs.Prelude.{◌≡◌, ◌<◌, ◌^◌, ◌+◌, IfOk, IfSome};
ghost use Rattle.vax_asm_encode.specs.Operands.{width_of};
ghost use Rattle.vax_asm_encode.specs.Fields.{literal, number, signed, half, displacement, distance, reached, outright, relocated, displacement_reloc, relative_reloc, address, relative, filled};
ghost use Rattle.vax_asm_encode.specs.Bytes.{Holds, Extends};
ghost use Rattle.vax_word.specs.Arithmetic.{modulus};

use crate::operand::Field;
use thiserror::Error;
use vax_isa::Narrow;
use vax_lex::Value;
use vax_module::RelocKind;
use vax_word::Size;

/// What a field holds.
#[derive(Clone, Copy, PartialEq, Eq)]
pub struct Filled {
    /// The number; a displacement as a signed number of 32 bits. It is 0 where the linker fills the field in.
    pub number: u64,
    /// What the linker fills in, if it does.
    pub reloc: Option<RelocKind>,
}

/// Why a field can't hold a value.
#[derive(Clone, Copy, Debug, PartialEq, Eq, Error)]
pub enum FieldFault {
    /// A place in memory or an external, where the field takes a number alone.
    #[error("the value is no number")]
    Form,
    /// A number that doesn't fit the field, or a place out of its reach.
    #[error("the value doesn't fit its field")]
    Range,
}

fn literal(value: i64) -> Option<u64>
    ensures { result ≡ literal value }
{
    if value >= 0 && value < 64 {
        Some(value.unsigned_abs())
    } else {
        None
    }
}

/// 256 to the bytes of a size, less 1.
fn greatest(size: Size) -> u64
    ensures { result + 1 ≡ modulus size }
{
    match size {
        Size::B => 0xFF,
        Size::W => 0xFFFF,
        Size::L => 0xFFFF_FFFF,
        Size::Q => 0xFFFF_FFFF_FFFF_FFFF,
    }
}

fn number(size: Size, value: i64) -> Option<u64>
    ensures { result ≡ number size value }
{
    let greatest = greatest(size);
    let magnitude = value.unsigned_abs();
    if value >= 0 {
        if magnitude <= greatest {
            Some(magnitude)
        } else {
            None
        }
    } else if magnitude <= greatest / 2 + 1 {
        Some(greatest - (magnitude - 1))
    } else {
        None
    }
}

fn signed(size: Size, value: i64) -> Option<u64>
    ensures { result ≡ signed size value }
{
    let greatest = greatest(size);
    let magnitude = value.unsigned_abs();
    if value >= 0 {
        if magnitude <= greatest / 2 {
            Some(magnitude)
        } else {
            None
        }
    } else if magnitude <= greatest / 2 + 1 {
        Some(greatest - (magnitude - 1))
    } else {
        None
    }
}

fn half(size: Narrow) -> u32
    ensures { result ≡ half size }
{
    match size {
        Narrow::B => 0x80,
        Narrow::W => 0x8000,
        Narrow::L => 0x8000_0000,
    }
}

fn width_of(size: Narrow) -> u32
    ensures { result ≡ width_of size }
{
    match size {
        Narrow::B => 1,
        Narrow::W => 2,
        Narrow::L => 4,
    }
}

#[tactic(auto, using(crate::proofs::Extending::extends_low, crate::proofs::Extending::extends_high))]
fn displacement(size: Narrow, value: i64) -> Option<u64>
    ensures value { result ≡ displacement size value }
    ensures holds { IfSome result (λ n. Extends (width_of size) n) }
{
    let half = u64::from(half(size));
    let magnitude = value.unsigned_abs();
    if value >= 0 {
        if magnitude < half {
            Some(magnitude)
        } else {
            None
        }
    } else if magnitude <= half {
        Some(0x1_0000_0000 - magnitude)
    } else {
        None
    }
}

fn distance(from: u32, to: i64) -> u32
    ensures { result ≡ distance from to }
{
    ((to.cast_unsigned() % 0x1_0000_0000) as u32).wrapping_sub(from)
}

#[tactic(auto, using(crate::proofs::Extending::extends_low, crate::proofs::Extending::extends_high))]
fn reached(size: Narrow, distance: u32) -> Option<u64>
    ensures value { result ≡ reached size distance }
    ensures holds { IfSome result (λ n. Extends (width_of size) n) }
{
    let half = half(size);
    if distance < half || distance >= 0u32.wrapping_sub(half) {
        Some(u64::from(distance))
    } else {
        None
    }
}

fn outright(number: Option<u64>) -> Result<Filled, FieldFault>
    ensures { result ≡ outright number }
{
    match number {
        Some(number) => Ok(Filled {
            number,
            reloc: None,
        }),
        None => Err(FieldFault::Range),
    }
}

fn relocated(kind: RelocKind) -> Result<Filled, FieldFault>
    ensures { result ≡ relocated kind }
{
    Ok(Filled {
        number: 0,
        reloc: Some(kind),
    })
}

fn displacement_reloc(size: Narrow) -> RelocKind
    ensures { result ≡ displacement_reloc size }
{
    match size {
        Narrow::B => RelocKind::Byte,
        Narrow::W => RelocKind::Word,
        Narrow::L => RelocKind::Long,
    }
}

fn relative_reloc(size: Narrow) -> RelocKind
    ensures { result ≡ relative_reloc size }
{
    match size {
        Narrow::B => RelocKind::RelByte,
        Narrow::W => RelocKind::RelWord,
        Narrow::L => RelocKind::RelLong,
    }
}

fn address(size: Size) -> Result<Filled, FieldFault>
    ensures { result ≡ address size }
{
    match size {
        Size::L => relocated(RelocKind::Long),
        _ => Err(FieldFault::Form),
    }
}

#[tactic(auto, using(crate::proofs::Extending::extends_low))]
fn relative(size: Narrow, section: u32, at: u32, value: Value) -> Result<Filled, FieldFault>
    requires { at + 4 < 2 ^ 32 }
    ensures value { result ≡ relative size section at value }
    ensures holds { IfOk result (λ f. Extends (width_of size) f.number) }
{
    match value {
        Value::Section {
            section: other,
            offset,
        } if other == section => { outright(reached(size, distance(at + width_of(size), offset))) }
        _ => relocated(relative_reloc(size)),
    }
}

/// What a field that begins at a place of a section holds of a value.
///
/// A number must fit the field: with a sign or without where it stands for itself, with a sign where it is a
/// displacement. A place of the same section is at a known distance from a relative field; the linker fills in every other
/// distance, and places and externals in displacements and longwords.
#[tactic(auto, unfolding(crate::specs::Fields::filled), using(crate::proofs::Extending::extends_low))]
pub fn fill(field: Field, section: u32, at: u32, value: Value) -> Result<Filled, FieldFault>
    // Past the field there are more addresses.
    requires { at + 4 < 2 ^ 32 }
    ensures filled { result ≡ filled field section at value }
    ensures holds { IfOk result (λ f. Holds field f.number) }
{
    match (field, value) {
        (Field::Literal, Value::Absolute(value)) => outright(literal(value)),
        (Field::Literal, _) => Err(FieldFault::Form),
        (Field::Number(size), Value::Absolute(value)) => outright(number(size, value)),
        (Field::Number(size), _) => address(size),
        (Field::Signed(size), Value::Absolute(value)) => outright(signed(size, value)),
        (Field::Signed(_), _) => Err(FieldFault::Form),
        (Field::Displacement(size), Value::Absolute(value)) => outright(displacement(size, value)),
        (Field::Displacement(size), _) => relocated(displacement_reloc(size)),
        (Field::Relative(size), value) => relative(size, section, at, value),
    }
}
