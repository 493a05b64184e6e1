//! Fields in memory and in registers.
ghost use Rattle.std.specs.Prelude.{◌≡◌, ◌+◌, ◌*◌, ◌^◌, ◌<◌, ◌≤◌, IfOk, false};
ghost use Rattle.vax_flat.specs.Field.{base_place, bytes_at, bytes_before, holder, is_reserved_field, field_bits};
ghost use Rattle.vax_flat.specs.Operand.{IsBase};
ghost use Rattle.vax_flat.specs.Rows.{value_at, stored};
ghost use Rattle.vax_undo.specs.Transaction.{room, Keeps, Acts, Does};
ghost use Rattle.vax_x_field.specs.Fields.{IsHeld, DoesBits};

use crate::bits::part;
use vax_flat::{Cut, Exception, Holder, Operand};
use vax_isa::{Letter, OperandKind};
use vax_operand::{next, read, store, write};
use vax_undo::{CutShort, Port, Txn};
use vax_word::Size;

/// Reads one operand at PC on which a field is based: an address, or a register.
#[inline]
#[tactic(auto, unfolding(vax_flat::specs::Field::base_place))]
pub(crate) fn next_base<P: Port>(txn: &mut Txn<P>) -> Result<Operand, CutShort>
    requires room { 4 ≤ room txn.old }
    ensures exact { Does P.view P.trail base_place result txn.old txn.new }
    ensures base { IfOk result IsBase }
    ensures keeps { Keeps P.view P.since 4 txn.old txn.new }
{
    let kind = OperandKind {
        letter: Letter::Field,
        width: 1,
    };
    next(txn, kind)
}

/// Whether a field is a reserved operand: larger than 32 bits, or in registers and not begun in the first, or with a part of it in PC.
#[inline(always)]
#[tactic(auto, unfolding(vax_flat::specs::Field::is_reserved_field))]
pub fn is_reserved(position: u32, size: u8, base: Operand) -> bool
    ensures { result ≡ is_reserved_field position size base }
{
    size > 32
        || match base {
            Operand::FieldRegister(n) => size != 0
                && (position > 31 || n == 14 && position + u32::from(size) > 32),
            Operand::Memory(_) | Operand::Value(_) | Operand::Register(_) | Operand::Target(_) =>
                false,
        }
}

/// The bytes from an address to the one in which a signed position is, rounded down.
#[inline(always)]
fn bytes_before(position: u32) -> u32
    ensures { result ≡ bytes_before position }
{
    (position.cast_signed() >> 3).cast_unsigned()
}

/// The bytes of memory in which a field lies, from the byte of its first bit on.
#[inline(always)]
#[tactic(auto, unfolding(vax_flat::specs::Field::holder))]
fn bytes_at(addr: u32, position: u32, size: u8) -> Holder
    requires some { 1 ≤ size }
    requires short { size ≤ 32 }
    ensures exact { result ≡ bytes_at addr position size }
    ensures some { 1 ≤ result.width }
    ensures few { result.width ≤ 8 }
    ensures place { IsHeld result.width result.place }
    ensures within { result.first + size ≤ 8 * result.width }
    ensures first { result.first < 32 }
{
    let first = (position % 8) as u8;
    Holder {
        place: Operand::Memory(addr.wrapping_add(bytes_before(position))),
        width: (first + size + 7) / 8,
        first,
    }
}

/// What holds a field that isn't empty.
#[inline(always)]
#[tactic(auto, unfolding(vax_flat::specs::Field::holder, vax_flat::specs::Field::is_reserved_field))]
pub fn holder_of(position: u32, size: u8, base: Operand) -> Holder
    requires allowed { is_reserved_field position size base ≡ false }
    requires some { 1 ≤ size }
    requires base { IsBase base }
    ensures exact { result ≡ holder position size base }
    ensures some { 1 ≤ result.width }
    ensures few { result.width ≤ 8 }
    ensures place { IsHeld result.width result.place }
    ensures within { result.first + size ≤ 8 * result.width }
    ensures first { result.first < 32 }
    ensures short { size ≤ 32 }
{
    match base {
        Operand::FieldRegister(n) => Holder {
            place: Operand::Register(n),
            width: if position + u32::from(size) <= 32 {
                4
            } else {
                8
            },
            first: position as u8,
        },
        Operand::Memory(addr) => bytes_at(addr, position, size),
        Operand::Value(_) | Operand::Register(_) | Operand::Target(_) => bytes_at(
            0, position, size,
        ),
    }
}

/// All the bits of what holds a field, as one number.
#[inline(always)]
#[tactic(auto, unfolding(vax_flat::specs::Rows::value_at, vax_flat::specs::Operand::register_value))]
pub(crate) fn held<P: Port>(txn: &mut Txn<P>, holder: Holder) -> Result<u64, CutShort>
    requires some { 1 ≤ holder.width }
    requires few { holder.width ≤ 8 }
    requires place { IsHeld holder.width holder.place }
    ensures exact { Does P.view P.trail (value_at holder.width holder.place)
        result txn.old txn.new }
    ensures fits { IfOk result (λ x. x < 256 ^ holder.width) }
    ensures keeps { Keeps P.view P.since 0 txn.old txn.new }
{
    match holder.place {
        Operand::Register(n) => {
            let low = u64::from(txn.reg(n));
            if holder.width == 8 {
                Ok(low | u64::from(txn.reg(n + 1)) << 32)
            } else {
                Ok(low)
            }
        }
        Operand::Memory(addr) => read(txn, addr, u32::from(holder.width)),
        Operand::Value(_) | Operand::FieldRegister(_) | Operand::Target(_) => Ok(0),
    }
}

/// Writes what holds a field.
#[inline(always)]
#[tactic(auto, unfolding(vax_flat::specs::Rows::stored))]
pub(crate) fn put<P: Port>(txn: &mut Txn<P>, holder: Holder, value: u64) -> Result<(), CutShort>
    requires some { 1 ≤ holder.width }
    requires few { holder.width ≤ 8 }
    requires place { IsHeld holder.width holder.place }
    requires fits { value < 256 ^ holder.width }
    requires room { 2 ≤ room txn.old }
    ensures exact { Acts P.view P.trail (stored holder.width holder.place value)
        result txn.old txn.new }
    ensures keeps { Keeps P.view P.since 2 txn.old txn.new }
{
    match holder.place {
        Operand::Memory(addr) => write(txn, addr, u32::from(holder.width), value),
        Operand::Register(_) if holder.width == 8 => store(txn, Size::Q, holder.place, value),
        Operand::Register(_) => store(txn, Size::L, holder.place, value),
        Operand::Value(_) | Operand::FieldRegister(_) | Operand::Target(_) => Ok(()),
    }
}

/// The bits of a field, as a number. An empty field is 0, and nothing is read.
#[inline(always)]
#[tactic(auto, using(vax_undo::proofs::Trail::over_trail_raises, crate::proofs::BitLaws::no_bits), unfolding(vax_flat::specs::Field::field_bits, vax_flat::specs::Field::held))]
pub(crate) fn field_bits<P: Port>(
    txn: &mut Txn<P>,
    position: u32,
    size: u8,
    base: Operand,
) -> Result<u64, CutShort>
    requires base { IsBase base }
    ensures exact { DoesBits P.view P.trail size (field_bits position size base)
        result txn.old txn.new }
    ensures fits { IfOk result (λ x. x < 2 ^ size) }
    ensures short { IfOk result (λ x. size ≤ 32) }
    ensures keeps { Keeps P.view P.since 0 txn.old txn.new }
{
    if is_reserved(position, size, base) {
        return Err(txn.cut(Cut::Event(Exception::Operand)));
    }
    if size == 0 {
        return Ok(0);
    }
    let holder = holder_of(position, size, base);
    let held = held(txn, holder)?;
    Ok(part(holder, held, size))
}
