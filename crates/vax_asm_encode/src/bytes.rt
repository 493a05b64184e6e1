// The bytes of operands and data.

ghost use Rattle.std.specs.Prelude.{◌≡◌, ◌++◌, ◌∷◌, [], ◌<◌, ◌≤◌, true, OnOk};
ghost use Rattle.vax_isa.specs.Rows.{IsKind};
ghost use Rattle.vax_asm_encode.specs.Operands.{width_of, base_stands, field_of, may_stand};
ghost use Rattle.vax_asm_encode.specs.Bytes.{low_bytes, base_byte, base_width, displacement_mode, operand_bytes, HoldsIn, IsReadBack};

use crate::operand::{Base, Operand};
use vax_isa::{Narrow, OperandKind};
use vax_space::NoMemory;

fn push(out: &mut Vec<u8>, byte: u8) -> Result<(), NoMemory>
    ensures { OnOk result (out.new.items ≡ out.old.items ++ byte ∷ []) }
{
    out.push(byte).map_err(|_| NoMemory)
}

/// Writes so many low bytes of a number, the lowest first.
pub fn write_number(out: &mut Vec<u8>, width: u8, number: u64) -> Result<(), NoMemory>
    ensures { OnOk result (out.new.items ≡ out.old.items ++ low_bytes width number) }
{
    let mut rest = number;
    let mut left = width;
    while left > 0 {
        push(out, (rest % 256) as u8)?;
        rest /= 256;
        left -= 1;
    }
    Ok(())
}

fn width_of(size: Narrow) -> u8
    ensures { result ≡ width_of size }
{
    match size {
        Narrow::B => 1,
        Narrow::W => 2,
        Narrow::L => 4,
    }
}

/// The mode of a displacement from R0.
fn displacement_mode(size: Narrow) -> u8
    ensures mode { result ≡ displacement_mode (width_of size) }
    ensures room { result ≤ 0xE0 }
{
    match size {
        Narrow::B => 0xA0,
        Narrow::W => 0xC0,
        Narrow::L => 0xE0,
    }
}

fn base_byte(base: Base) -> u8
    requires { base_stands base ≡ true }
    ensures { result ≡ base_byte base }
{
    match base {
        Base::Deferred(n) => 0x60 + n,
        Base::Decrement(n) => 0x70 + n,
        Base::Increment(n) => 0x80 + n,
        Base::IncrementDeferred(n) => 0x90 + n,
        Base::Absolute => 0x9F,
        Base::Displaced { size, register } => displacement_mode(size) + register,
        Base::DisplacedDeferred { size, register } => displacement_mode(size) + 0x10 + register,
        Base::Relative(size) => displacement_mode(size) + 15,
        Base::RelativeDeferred(size) => displacement_mode(size) + 0x10 + 15,
    }
}

fn base_width(base: Base) -> u8
    ensures { result ≡ base_width base }
{
    match base {
        Base::Deferred(_) | Base::Decrement(_) | Base::Increment(_) | Base::IncrementDeferred(_) =>
            0,
        Base::Absolute => 4,
        Base::Displaced { size, .. }
        | Base::DisplacedDeferred { size, .. }
        | Base::Relative(size)
        | Base::RelativeDeferred(size) => width_of(size),
    }
}

fn write_base(out: &mut Vec<u8>, base: Base, number: u64) -> Result<(), NoMemory>
    requires { base_stands base ≡ true }
    ensures { OnOk result (out.new.items
        ≡ out.old.items ++ base_byte base ∷ low_bytes (base_width base) number) }
{
    push(out, base_byte(base))?;
    write_number(out, base_width(base), number)
}

#[tactic(auto, using(crate::proofs::Writing::base_written, crate::proofs::Writing::index_written), unfolding(crate::specs::Bytes::bytes_of))]
fn write_bytes(
    out: &mut Vec<u8>,
    kind: OperandKind,
    operand: Operand,
    number: u64,
) -> Result<(), NoMemory>
    requires stands { may_stand kind operand ≡ true }
    requires holds { HoldsIn (field_of kind operand) number }
    ensures { OnOk result (out.new.items ≡ out.old.items ++ operand_bytes kind operand number) }
{
    match operand {
        Operand::Literal => push(out, number as u8),
        Operand::Register(n) => push(out, 0x50 + n),
        Operand::Immediate => {
            push(out, 0x8F)?;
            write_number(out, kind.width, number)
        }
        Operand::Memory(base) => write_base(out, base, number),
        Operand::Indexed(base, index) => {
            push(out, 0x40 + index)?;
            write_base(out, base, number)?;
            Ok(())
        }
        Operand::Branch => write_number(out, kind.width, number),
    }
}

/// Writes an operand whose field holds a number: that which [`fill`](crate::fill()) finds, or 0 where it has none.
///
/// The bytes are read back as the operand (VAX Architecture Reference Manual, operand specifier addressing mode formats).
#[tactic(auto, using(crate::proofs::Standing::reads_back))]
pub fn write_operand(
    out: &mut Vec<u8>,
    kind: OperandKind,
    operand: Operand,
    number: u64,
) -> Result<(), NoMemory>
    requires kind { IsKind kind }
    requires stands { may_stand kind operand ≡ true }
    requires holds { HoldsIn (field_of kind operand) number }
    ensures bytes { OnOk result (out.new.items
        ≡ out.old.items ++ operand_bytes kind operand number) }
    // The grammar of operands reads the operand from its bytes.
    ensures read_back { IsReadBack kind operand number }
{
    write_bytes(out, kind, operand, number)
}
