//! Where fields of bits are based, and what holds them.
ghost use Rattle.std.specs.Prelude.{◌≡◌, ◌^◌, ◌<◌, ◌≤◌, IfSome};
ghost use Rattle.vax_isa.specs.declared.Letter.TheVariants as letter;
ghost use Rattle.vax_flat.specs.declared.Operand.TheVariants as operand;
ghost use Rattle.vax_flat.specs.Field.{base_kind, base_place, field_bits};
ghost use Rattle.vax_flat.specs.Operand.{form_of, formed, in_register, IsBase};
ghost use Rattle.vax_flat.specs.Rows.{stored, value_at};
ghost use Rattle.vax_operand.specs.Addressed.{located, IsMemory};
ghost use Rattle.vax_x_field.specs.Fields.{IsHeld};
ghost use Rattle.vax_quick.specs.Made.{Acts, Gives, IsKept, IsSeen, Reads, computer};
ghost use Rattle.vax_quick.specs.Frames.{Finds, FindsBits};

use crate::access::store;
use crate::memory::{read, write};
use crate::specifier::address_near;
use crate::window::{Window, fetch};
use vax_flat::Holder;
use vax_isa::Letter;
use vax_operand::{Operand, reaches_pc};
use vax_undo::Port;
use vax_word::{Core, Size};
use vax_x_field::{holder_of, is_reserved, part};

/// The place at the address of a specifier byte, as a field's base.
#[inline(never)]
fn base_there<P: Port>(
    core: &mut Core,
    port: &mut P,
    window: Window,
    byte: u8,
) -> Option<(Operand, Window)>
    requires window { IsSeen (P.view port.old) core.old window }
    ensures exact { Gives (λ s next. located letter.Field 1 (form_of byte) s
        (λ addr s. next (operand.Memory addr) s)) result
        (computer P.view core.old port.old) (computer P.view core.new port.new) }
    ensures base { IfSome result (λ r. IsBase r.0) }
    ensures left { IfSome result (λ r. IsSeen (P.view port.new) core.new r.1) }
    ensures reads { Reads P.view P.since core.old port.old core.new port.new }
{
    let (addr, behind) = address_near(core, port, window, Letter::Field, 1, byte)?;
    Some((Operand::Memory(addr), behind))
}

/// A base that lies in memory.
#[inline(always)]
fn base_beyond<P: Port>(
    core: &mut Core,
    port: &mut P,
    window: Window,
    byte: u8,
) -> Option<(Operand, Window)>
    requires memory { IsMemory (form_of byte) }
    requires window { IsSeen (P.view port.old) core.old window }
    ensures exact { Gives (formed base_kind (form_of byte)) result
        (computer P.view core.old port.old) (computer P.view core.new port.new) }
    ensures base { IfSome result (λ r. IsBase r.0) }
    ensures left { IfSome result (λ r. IsSeen (P.view port.new) core.new r.1) }
    ensures reads { Reads P.view P.since core.old port.old core.new port.new }
{
    base_there(core, port, window, byte)
}

/// A register as a base.
#[inline(always)]
#[tactic(auto, unfolding(vax_flat::specs::Operand::in_register, vax_flat::specs::Operand::reaches_pc))]
fn base_register<P: Port>(core: &Core, port: &P, window: Window, n: u8) -> Option<(Operand, Window)>
    requires of_core { n < 16 }
    requires window { IsSeen (P.view port.now) core.now window }
    ensures exact { Gives (in_register base_kind n) result
        (computer P.view core.now port.now) (computer P.view core.now port.now) }
    ensures base { IfSome result (λ r. IsBase r.0) }
    ensures left { IfSome result (λ r. IsSeen (P.view port.now) core.now r.1) }
{
    let _ = core;
    let _ = port;
    if reaches_pc(1, n) {
        return None;
    }
    Some((Operand::FieldRegister(n), window))
}

/// A base by its specifier byte.
#[inline(always)]
#[tactic(auto, unfolding(vax_flat::specs::Operand::formed, vax_flat::specs::Operand::form_of))]
fn base_by_byte<P: Port>(
    core: &mut Core,
    port: &mut P,
    window: Window,
    byte: u8,
) -> Option<(Operand, Window)>
    requires window { IsSeen (P.view port.old) core.old window }
    ensures exact { Gives (formed base_kind (form_of byte)) result
        (computer P.view core.old port.old) (computer P.view core.new port.new) }
    ensures base { IfSome result (λ r. IsBase r.0) }
    ensures left { IfSome result (λ r. IsSeen (P.view port.new) core.new r.1) }
    ensures reads { Reads P.view P.since core.old port.old core.new port.new }
{
    match byte >> 4 {
        0 | 1 | 2 | 3 => None,
        5 => base_register(core, port, window, byte & 15),
        _ => base_beyond(core, port, window, byte),
    }
}

/// Reads one operand at PC on which a field is based: an address, or a register.
#[inline(always)]
#[tactic(auto, unfolding(vax_flat::specs::Field::base_place, vax_flat::specs::Operand::next_operand, vax_flat::specs::Operand::specified))]
pub(crate) fn next_base<P: Port>(
    core: &mut Core,
    port: &mut P,
    window: Window,
) -> Option<(Operand, Window)>
    requires window { IsSeen (P.view port.old) core.old window }
    ensures exact { Gives base_place result
        (computer P.view core.old port.old) (computer P.view core.new port.new) }
    ensures base { IfSome result (λ r. IsBase r.0) }
    ensures left { IfSome result (λ r. IsSeen (P.view port.new) core.new r.1) }
    ensures reads { Reads P.view P.since core.old port.old core.new port.new }
{
    let (byte, behind) = fetch(core, port, window, 1)?;
    base_by_byte(core, port, behind, byte as u8)
}

/// All the bits of what holds a field, as one number.
#[inline(always)]
#[tactic(auto, unfolding(vax_flat::specs::Rows::value_at, vax_flat::specs::Operand::register_value))]
pub(crate) fn held<P: Port>(core: &Core, port: &mut P, holder: Holder) -> Option<u64>
    requires some { 1 ≤ holder.width }
    requires few { holder.width ≤ 8 }
    requires place { IsHeld holder.width holder.place }
    ensures exact { Finds (value_at holder.width holder.place) result
        (computer P.view core.now port.old) (computer P.view core.now port.new) }
    ensures fits { IfSome result (λ x. x < 256 ^ holder.width) }
    ensures same { P.view port.new ≡ P.view port.old }
    ensures since { (start : P) → P.since start port.old → P.since start port.new }
{
    match holder.place {
        Operand::Register(n) => {
            let low = u64::from(core.regs[n as usize]);
            if holder.width == 8 {
                Some(low | u64::from(core.regs[n as usize + 1]) << 32)
            } else {
                Some(low)
            }
        }
        Operand::Memory(addr) => read(core, port, addr, u32::from(holder.width)),
        Operand::Value(_) | Operand::FieldRegister(_) | Operand::Target(_) => None,
    }
}

/// Writes what holds a field.
#[inline(always)]
#[tactic(auto, unfolding(vax_flat::specs::Rows::stored))]
pub(crate) fn put<P: Port>(core: &mut Core, port: &mut P, holder: Holder, value: u64) -> Option<()>
    requires some { 1 ≤ holder.width }
    requires few { holder.width ≤ 8 }
    requires place { IsHeld holder.width holder.place }
    requires fits { value < 256 ^ holder.width }
    ensures exact { Acts (stored holder.width holder.place value) result
        (computer P.view core.old port.old) (computer P.view core.new port.new) }
    ensures kept { IsKept core.old core.new }
    ensures since { (start : P) → P.since start port.old → P.since start port.new }
{
    match holder.place {
        Operand::Memory(addr) => write(core, port, addr, u32::from(holder.width), value),
        Operand::Register(_) if holder.width == 8 => {
            store(core, port, Size::Q, holder.place, value)
        }
        Operand::Register(_) => store(core, port, Size::L, holder.place, value),
        Operand::Value(_) | Operand::FieldRegister(_) | Operand::Target(_) => None,
    }
}

/// The bits of a field, as a number. An empty field is 0, and nothing is read.
#[inline(always)]
#[tactic(auto, using(vax_x_field::proofs::BitLaws::no_bits), unfolding(vax_flat::specs::Field::field_bits, vax_flat::specs::Field::held))]
pub(crate) fn bits_of_field<P: Port>(
    core: &Core,
    port: &mut P,
    position: u32,
    size: u8,
    base: Operand,
) -> Option<u64>
    requires base { IsBase base }
    ensures exact { FindsBits size (field_bits position size base) result
        (computer P.view core.now port.old) (computer P.view core.now port.new) }
    ensures fits { IfSome result (λ x. x < 2 ^ size) }
    ensures short { IfSome result (λ x. size ≤ 32) }
    ensures same { P.view port.new ≡ P.view port.old }
    ensures since { (start : P) → P.since start port.old → P.since start port.new }
{
    if is_reserved(position, size, base) {
        return None;
    }
    if size == 0 {
        return Some(0);
    }
    let holder = holder_of(position, size, base);
    let held = held(core, port, holder)?;
    Some(part(holder, held, size))
}
