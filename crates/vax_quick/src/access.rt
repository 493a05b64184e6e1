//! Values of operands, read and written.
ghost use Rattle.std.specs.Prelude.{◌≡◌, ◌+◌, ◌*◌, ◌/◌, ◌^◌, ◌<◌, None, IfSome};
ghost use Rattle.vax_word.specs.Arithmetic.{bytes_of};
ghost use Rattle.vax_isa.specs.declared.Letter.TheVariants as letter;
ghost use Rattle.vax_flat.specs.declared.Operand.TheVariants as operand;
ghost use Rattle.vax_flat.specs.declared.Form.TheVariants as form;
ghost use Rattle.vax_flat.specs.Operand.{form_of, formed, in_register, read_at, register_value, IsWidth, IsPlace};
ghost use Rattle.vax_flat.specs.Rows.{read_of, write_of, value_of, with_value, stored, read_value, modify_value, write_place};
ghost use Rattle.vax_operand.specs.Addressed.{located, checked, modified, modified_there, IsMemory};
ghost use Rattle.vax_quick.specs.Made.{Acts, Becomes, Gives, IsKept, IsSeen, IsValueOf, Reads, computer};

use crate::memory::{check, read, write};
use crate::specifier::{address_near, deferred_address, near_address};
use crate::window::{Window, fetch};
use vax_isa::Letter;
use vax_operand::{Operand, reaches_pc, width_of};
use vax_undo::Port;
use vax_word::{Core, Size};

/// The value of a register, or of the pair of a quadword.
#[inline(always)]
#[tactic(auto, unfolding(vax_flat::specs::Operand::register_value))]
fn value_in(core: &Core, width: u8, n: u8) -> u64
    requires width { IsWidth width }
    requires below { n < 15 }
    requires pair { width ≡ 8 → n < 14 }
    ensures exact { IsValueOf (register_value width n) result core.now }
    ensures fits { result < 256 ^ width }
{
    let low = core.regs[n as usize];
    match width {
        1 => (low & 0xff) as u64,
        2 => (low & 0xffff) as u64,
        4 => low as u64,
        _ => low as u64 | (core.regs[n as usize + 1] as u64) << 32,
    }
}

/// Sets a register, or the pair of a quadword. A byte or a word leaves the register's other bits.
#[inline(always)]
#[tactic(auto, unfolding(vax_flat::specs::Rows::with_value))]
pub(crate) fn set_value(core: &mut Core, width: u8, n: u8, value: u64)
    requires width { IsWidth width }
    requires below { n < 15 }
    requires pair { width ≡ 8 → n < 14 }
    requires fits { value < 256 ^ width }
    ensures exact { Becomes (with_value width n value) core.old core.new }
    ensures kept { IsKept core.old core.new }
{
    let i = n as usize;
    match width {
        1 => core.regs[i] = core.regs[i] / 0x100 * 0x100 + value as u32,
        2 => core.regs[i] = core.regs[i] / 0x1_0000 * 0x1_0000 + value as u32,
        4 => core.regs[i] = value as u32,
        _ => {
            core.regs[i] = (value & 0xffff_ffff) as u32;
            core.regs[i + 1] = (value >> 32) as u32;
        }
    }
}

/// Writes a value of so many bytes to an operand.
#[inline(always)]
#[tactic(auto, unfolding(vax_flat::specs::Rows::stored))]
fn store_at<P: Port>(
    core: &mut Core,
    port: &mut P,
    width: u8,
    operand: Operand,
    value: u64,
) -> Option<()>
    requires width { IsWidth width }
    requires place { IsPlace width operand }
    requires fits { value < 256 ^ width }
    ensures exact { Acts (stored width operand value) result
        (computer P.view core.old port.old) (computer P.view core.new port.new) }
    ensures kept { IsKept core.old core.new }
    ensures since { (start : P) → P.since start port.old → P.since start port.new }
{
    match operand {
        Operand::Value(_) => Some(()),
        Operand::Register(n) => {
            set_value(core, width, n, value);
            Some(())
        }
        Operand::Memory(addr) => write(core, port, addr, width as u32, value),
        Operand::FieldRegister(_) => Some(()),
        Operand::Target(_) => Some(()),
    }
}

/// Writes a value to an operand.
#[inline(always)]
pub(crate) fn store<P: Port>(
    core: &mut Core,
    port: &mut P,
    size: Size,
    operand: Operand,
    value: u64,
) -> Option<()>
    requires place { IsPlace (bytes_of size) operand }
    requires fits { value < 256 ^ bytes_of size }
    ensures exact { Acts (stored (bytes_of size) operand value) result
        (computer P.view core.old port.old) (computer P.view core.new port.new) }
    ensures kept { IsKept core.old core.new }
    ensures since { (start : P) → P.since start port.old → P.since start port.new }
{
    store_at(core, port, width_of(size), operand, value)
}

/// An immediate, which lies in the instruction itself. A quadword is left out.
#[inline(always)]
fn immediate<P: Port>(
    core: &mut Core,
    port: &mut P,
    window: Window,
    width: u8,
) -> Option<(u64, Window)>
    requires width { IsWidth width }
    requires window { IsSeen (P.view port.old) core.old window }
    ensures exact { Gives (λ s next. located letter.Read width (form.Increment 15) s
        (λ addr s. read_at addr width s next)) result
        (computer P.view core.old port.old) (computer P.view core.new port.new) }
    ensures fits { IfSome result (λ r. r.0 < 256 ^ width) }
    ensures left { IfSome result (λ r. IsSeen (P.view port.new) core.new r.1) }
    ensures reads { Reads P.view P.since core.old port.old core.new port.new }
{
    if width == 8 {
        return None;
    }
    fetch(core, port, window, width as u32)
}

/// The value at the address of a specifier byte.
#[inline(always)]
fn value_at_address<P: Port>(
    core: &mut Core,
    port: &mut P,
    window: Window,
    width: u8,
    byte: u8,
) -> Option<(u64, Window)>
    requires width { IsWidth width }
    requires window { IsSeen (P.view port.old) core.old window }
    ensures exact { Gives (λ s next. located letter.Read width (form_of byte) s
        (λ addr s. read_at addr width s next)) result
        (computer P.view core.old port.old) (computer P.view core.new port.new) }
    ensures fits { IfSome result (λ r. r.0 < 256 ^ width) }
    ensures left { IfSome result (λ r. IsSeen (P.view port.new) core.new r.1) }
    ensures reads { Reads P.view P.since core.old port.old core.new port.new }
{
    let (addr, behind) = address_near(core, port, window, Letter::Read, width, byte)?;
    let value = read(core, port, addr, width as u32)?;
    Some((value, behind))
}

/// The value at the address in a register.
#[inline(always)]
fn value_deferred<P: Port>(
    core: &mut Core,
    port: &mut P,
    window: Window,
    width: u8,
    n: u8,
) -> Option<(u64, Window)>
    requires width { IsWidth width }
    requires of_core { n < 16 }
    requires window { IsSeen (P.view port.old) core.old window }
    ensures exact { Gives (λ s next. located letter.Read width (form.Deferred n) s
        (λ addr s. read_at addr width s next)) result
        (computer P.view core.old port.old) (computer P.view core.new port.new) }
    ensures fits { IfSome result (λ r. r.0 < 256 ^ width) }
    ensures left { IfSome result (λ r. IsSeen (P.view port.new) core.new r.1) }
    ensures reads { Reads P.view P.since core.old port.old core.new port.new }
{
    let (addr, behind) = deferred_address(core, port, window, Letter::Read, width, n)?;
    let value = read(core, port, addr, width as u32)?;
    Some((value, behind))
}

/// The value at a displacement of one byte from a register.
#[inline(always)]
fn value_near<P: Port>(
    core: &mut Core,
    port: &mut P,
    window: Window,
    width: u8,
    n: u8,
) -> Option<(u64, Window)>
    requires width { IsWidth width }
    requires of_core { n < 16 }
    requires window { IsSeen (P.view port.old) core.old window }
    ensures exact { Gives (λ s next. located letter.Read width (form.Displacement 1 n) s
        (λ addr s. read_at addr width s next)) result
        (computer P.view core.old port.old) (computer P.view core.new port.new) }
    ensures fits { IfSome result (λ r. r.0 < 256 ^ width) }
    ensures left { IfSome result (λ r. IsSeen (P.view port.new) core.new r.1) }
    ensures reads { Reads P.view P.since core.old port.old core.new port.new }
{
    let (addr, behind) = near_address(core, port, window, Letter::Read, width, n)?;
    let value = read(core, port, addr, width as u32)?;
    Some((value, behind))
}

/// The value of an operand by its form.
#[inline(always)]
fn value_by_form<P: Port>(
    core: &mut Core,
    port: &mut P,
    window: Window,
    width: u8,
    byte: u8,
) -> Option<(u64, Window)>
    requires width { IsWidth width }
    requires window { IsSeen (P.view port.old) core.old window }
    ensures exact { Gives (λ s next. located letter.Read width (form_of byte) s
        (λ addr s. read_at addr width s next)) result
        (computer P.view core.old port.old) (computer P.view core.new port.new) }
    ensures fits { IfSome result (λ r. r.0 < 256 ^ width) }
    ensures left { IfSome result (λ r. IsSeen (P.view port.new) core.new r.1) }
    ensures reads { Reads P.view P.since core.old port.old core.new port.new }
{
    if byte == 0x8F {
        return immediate(core, port, window, width);
    }
    value_at_address(core, port, window, width, byte)
}

/// The value of an operand that is neither a literal nor in a register. The two commonest forms are told from the byte alone.
#[inline(never)]
#[tactic(auto, unfolding(vax_flat::specs::Operand::form_of))]
fn value_there<P: Port>(
    core: &mut Core,
    port: &mut P,
    window: Window,
    width: u8,
    byte: u8,
) -> Option<(u64, Window)>
    requires width { IsWidth width }
    requires window { IsSeen (P.view port.old) core.old window }
    ensures exact { Gives (λ s next. located letter.Read width (form_of byte) s
        (λ addr s. read_at addr width s next)) result
        (computer P.view core.old port.old) (computer P.view core.new port.new) }
    ensures fits { IfSome result (λ r. r.0 < 256 ^ width) }
    ensures left { IfSome result (λ r. IsSeen (P.view port.new) core.new r.1) }
    ensures reads { Reads P.view P.since core.old port.old core.new port.new }
{
    match byte >> 4 {
        6 => value_deferred(core, port, window, width, byte % 16),
        10 => value_near(core, port, window, width, byte % 16),
        _ => value_by_form(core, port, window, width, byte),
    }
}

/// The value of an operand that lies in memory.
#[inline(always)]
fn value_beyond<P: Port>(
    core: &mut Core,
    port: &mut P,
    window: Window,
    width: u8,
    byte: u8,
) -> Option<(u64, Window)>
    requires width { IsWidth width }
    requires memory { IsMemory (form_of byte) }
    requires window { IsSeen (P.view port.old) core.old window }
    ensures exact { Gives
        (λ s next. formed (read_of width) (form_of byte) s (λ o s. next (value_of o) s)) result
        (computer P.view core.old port.old) (computer P.view core.new port.new) }
    ensures fits { IfSome result (λ r. r.0 < 256 ^ width) }
    ensures left { IfSome result (λ r. IsSeen (P.view port.new) core.new r.1) }
    ensures reads { Reads P.view P.since core.old port.old core.new port.new }
{
    value_there(core, port, window, width, byte)
}

/// The place at the address in a register, checked for writing, and the value there.
#[inline(always)]
#[tactic(auto, unfolding(vax_operand::specs::Addressed::modified_there, vax_operand::specs::Addressed::checked))]
fn modified_deferred<P: Port>(
    core: &mut Core,
    port: &mut P,
    window: Window,
    width: u8,
    n: u8,
) -> Option<((Operand, u64), Window)>
    requires width { IsWidth width }
    requires of_core { n < 16 }
    requires window { IsSeen (P.view port.old) core.old window }
    ensures exact { Gives (modified_there width (form.Deferred n)) result
        (computer P.view core.old port.old) (computer P.view core.new port.new) }
    ensures place { IfSome result (λ r. IsPlace width r.0.0) }
    ensures fits { IfSome result (λ r. r.0.1 < 256 ^ width) }
    ensures left { IfSome result (λ r. IsSeen (P.view port.new) core.new r.1) }
    ensures reads { Reads P.view P.since core.old port.old core.new port.new }
{
    let (addr, behind) = deferred_address(core, port, window, Letter::Modify, width, n)?;
    check(core, port, addr, width as u32)?;
    let value = read(core, port, addr, width as u32)?;
    Some(((Operand::Memory(addr), value), behind))
}

/// The place at a displacement of one byte from a register, checked for writing, and the value there.
#[inline(always)]
#[tactic(auto, unfolding(vax_operand::specs::Addressed::modified_there, vax_operand::specs::Addressed::checked))]
fn modified_near<P: Port>(
    core: &mut Core,
    port: &mut P,
    window: Window,
    width: u8,
    n: u8,
) -> Option<((Operand, u64), Window)>
    requires width { IsWidth width }
    requires of_core { n < 16 }
    requires window { IsSeen (P.view port.old) core.old window }
    ensures exact { Gives (modified_there width (form.Displacement 1 n)) result
        (computer P.view core.old port.old) (computer P.view core.new port.new) }
    ensures place { IfSome result (λ r. IsPlace width r.0.0) }
    ensures fits { IfSome result (λ r. r.0.1 < 256 ^ width) }
    ensures left { IfSome result (λ r. IsSeen (P.view port.new) core.new r.1) }
    ensures reads { Reads P.view P.since core.old port.old core.new port.new }
{
    let (addr, behind) = near_address(core, port, window, Letter::Modify, width, n)?;
    check(core, port, addr, width as u32)?;
    let value = read(core, port, addr, width as u32)?;
    Some(((Operand::Memory(addr), value), behind))
}

/// The place at the address of a specifier byte, checked for writing, and the value there.
#[inline(always)]
#[tactic(auto, unfolding(vax_operand::specs::Addressed::modified_there, vax_operand::specs::Addressed::checked))]
fn modified_by_form<P: Port>(
    core: &mut Core,
    port: &mut P,
    window: Window,
    width: u8,
    byte: u8,
) -> Option<((Operand, u64), Window)>
    requires width { IsWidth width }
    requires window { IsSeen (P.view port.old) core.old window }
    ensures exact { Gives (modified_there width (form_of byte)) result
        (computer P.view core.old port.old) (computer P.view core.new port.new) }
    ensures place { IfSome result (λ r. IsPlace width r.0.0) }
    ensures fits { IfSome result (λ r. r.0.1 < 256 ^ width) }
    ensures left { IfSome result (λ r. IsSeen (P.view port.new) core.new r.1) }
    ensures reads { Reads P.view P.since core.old port.old core.new port.new }
{
    let (addr, behind) = address_near(core, port, window, Letter::Modify, width, byte)?;
    check(core, port, addr, width as u32)?;
    let value = read(core, port, addr, width as u32)?;
    Some(((Operand::Memory(addr), value), behind))
}

/// The same. The two commonest forms are told from the byte alone.
#[inline(never)]
#[tactic(auto, unfolding(vax_flat::specs::Operand::form_of))]
fn modified_there<P: Port>(
    core: &mut Core,
    port: &mut P,
    window: Window,
    width: u8,
    byte: u8,
) -> Option<((Operand, u64), Window)>
    requires width { IsWidth width }
    requires window { IsSeen (P.view port.old) core.old window }
    ensures exact { Gives (modified_there width (form_of byte)) result
        (computer P.view core.old port.old) (computer P.view core.new port.new) }
    ensures place { IfSome result (λ r. IsPlace width r.0.0) }
    ensures fits { IfSome result (λ r. r.0.1 < 256 ^ width) }
    ensures left { IfSome result (λ r. IsSeen (P.view port.new) core.new r.1) }
    ensures reads { Reads P.view P.since core.old port.old core.new port.new }
{
    match byte >> 4 {
        6 => modified_deferred(core, port, window, width, byte & 15),
        10 => modified_near(core, port, window, width, byte & 15),
        _ => modified_by_form(core, port, window, width, byte),
    }
}

/// An operand that lies in memory and is modified, and the value there.
#[inline(always)]
fn modified_beyond<P: Port>(
    core: &mut Core,
    port: &mut P,
    window: Window,
    width: u8,
    byte: u8,
) -> Option<((Operand, u64), Window)>
    requires width { IsWidth width }
    requires memory { IsMemory (form_of byte) }
    requires window { IsSeen (P.view port.old) core.old window }
    ensures exact { Gives (modified width (form_of byte)) result
        (computer P.view core.old port.old) (computer P.view core.new port.new) }
    ensures place { IfSome result (λ r. IsPlace width r.0.0) }
    ensures fits { IfSome result (λ r. r.0.1 < 256 ^ width) }
    ensures left { IfSome result (λ r. IsSeen (P.view port.new) core.new r.1) }
    ensures reads { Reads P.view P.since core.old port.old core.new port.new }
{
    modified_there(core, port, window, width, byte)
}

/// The place at the address of a specifier byte.
#[inline(never)]
fn place_there<P: Port>(
    core: &mut Core,
    port: &mut P,
    window: Window,
    width: u8,
    byte: u8,
) -> Option<(Operand, Window)>
    requires width { IsWidth width }
    requires window { IsSeen (P.view port.old) core.old window }
    ensures exact { Gives (λ s next. located letter.Write width (form_of byte) s
        (λ addr s. next (operand.Memory addr) s)) result
        (computer P.view core.old port.old) (computer P.view core.new port.new) }
    ensures place { IfSome result (λ r. IsPlace width r.0) }
    ensures left { IfSome result (λ r. IsSeen (P.view port.new) core.new r.1) }
    ensures reads { Reads P.view P.since core.old port.old core.new port.new }
{
    let (addr, behind) = address_near(core, port, window, Letter::Write, width, byte)?;
    Some((Operand::Memory(addr), behind))
}

/// An operand that lies in memory and is written.
#[inline(always)]
fn place_beyond<P: Port>(
    core: &mut Core,
    port: &mut P,
    window: Window,
    width: u8,
    byte: u8,
) -> Option<(Operand, Window)>
    requires width { IsWidth width }
    requires memory { IsMemory (form_of byte) }
    requires window { IsSeen (P.view port.old) core.old window }
    ensures exact { Gives (formed (write_of width) (form_of byte)) result
        (computer P.view core.old port.old) (computer P.view core.new port.new) }
    ensures place { IfSome result (λ r. IsPlace width r.0) }
    ensures left { IfSome result (λ r. IsSeen (P.view port.new) core.new r.1) }
    ensures reads { Reads P.view P.since core.old port.old core.new port.new }
{
    place_there(core, port, window, width, byte)
}

/// The value of an operand in a register.
#[inline(always)]
#[tactic(auto, unfolding(vax_flat::specs::Operand::in_register, vax_flat::specs::Rows::value_of))]
fn value_of_register<P: Port>(
    core: &Core,
    port: &P,
    window: Window,
    width: u8,
    n: u8,
) -> Option<(u64, Window)>
    requires width { IsWidth width }
    requires of_core { n < 16 }
    requires window { IsSeen (P.view port.now) core.now window }
    ensures exact { Gives (λ s next. in_register (read_of width) n s (λ o s. next (value_of o) s))
        result (computer P.view core.now port.now) (computer P.view core.now port.now) }
    ensures fits { IfSome result (λ r. r.0 < 256 ^ width) }
    ensures left { IfSome result (λ r. IsSeen (P.view port.now) core.now r.1) }
{
    let _ = port;
    if reaches_pc(width, n) {
        return None;
    }
    Some((value_in(core, width, n), window))
}

/// A register that is modified, and the value there.
#[inline(always)]
#[tactic(auto, unfolding(vax_operand::specs::Addressed::modified, vax_flat::specs::Operand::formed, vax_flat::specs::Operand::in_register, vax_flat::specs::Rows::value_at))]
pub(crate) fn modified_register<P: Port>(
    core: &Core,
    port: &P,
    window: Window,
    width: u8,
    n: u8,
) -> Option<((Operand, u64), Window)>
    requires width { IsWidth width }
    requires of_core { n < 16 }
    requires window { IsSeen (P.view port.now) core.now window }
    ensures exact { Gives (modified width (form.Register n)) result
        (computer P.view core.now port.now) (computer P.view core.now port.now) }
    ensures place { IfSome result (λ r. IsPlace width r.0.0) }
    ensures fits { IfSome result (λ r. r.0.1 < 256 ^ width) }
    ensures left { IfSome result (λ r. IsSeen (P.view port.now) core.now r.1) }
{
    let _ = port;
    if reaches_pc(width, n) {
        return None;
    }
    let value = value_in(core, width, n);
    Some(((Operand::Register(n), value), window))
}

/// A register that is written.
#[inline(always)]
#[tactic(auto, unfolding(vax_flat::specs::Operand::in_register))]
fn place_register<P: Port>(
    core: &Core,
    port: &P,
    window: Window,
    width: u8,
    n: u8,
) -> Option<(Operand, Window)>
    requires width { IsWidth width }
    requires of_core { n < 16 }
    requires window { IsSeen (P.view port.now) core.now window }
    ensures exact { Gives (in_register (write_of width) n) result
        (computer P.view core.now port.now) (computer P.view core.now port.now) }
    ensures place { IfSome result (λ r. IsPlace width r.0) }
    ensures left { IfSome result (λ r. IsSeen (P.view port.now) core.now r.1) }
{
    let _ = core;
    let _ = port;
    if reaches_pc(width, n) {
        return None;
    }
    Some((Operand::Register(n), window))
}

/// The value of an operand by its specifier byte.
#[inline(always)]
#[tactic(auto, unfolding(vax_flat::specs::Operand::formed, vax_flat::specs::Operand::form_of, vax_flat::specs::Operand::literal, vax_flat::specs::Rows::value_of))]
fn value_by_byte<P: Port>(
    core: &mut Core,
    port: &mut P,
    window: Window,
    width: u8,
    byte: u8,
) -> Option<(u64, Window)>
    requires width { IsWidth width }
    requires window { IsSeen (P.view port.old) core.old window }
    ensures exact { Gives
        (λ s next. formed (read_of width) (form_of byte) s (λ o s. next (value_of o) s)) result
        (computer P.view core.old port.old) (computer P.view core.new port.new) }
    ensures fits { IfSome result (λ r. r.0 < 256 ^ width) }
    ensures left { IfSome result (λ r. IsSeen (P.view port.new) core.new r.1) }
    ensures reads { Reads P.view P.since core.old port.old core.new port.new }
{
    match byte >> 4 {
        0 | 1 | 2 | 3 => Some((byte as u64, window)),
        5 => value_of_register(core, port, window, width, byte & 15),
        _ => value_beyond(core, port, window, width, byte),
    }
}

/// An operand that is modified, and the value there, by its specifier byte.
#[inline(always)]
#[tactic(auto, unfolding(vax_flat::specs::Operand::form_of))]
fn modified_by_byte<P: Port>(
    core: &mut Core,
    port: &mut P,
    window: Window,
    width: u8,
    byte: u8,
) -> Option<((Operand, u64), Window)>
    requires width { IsWidth width }
    requires window { IsSeen (P.view port.old) core.old window }
    ensures exact { Gives (modified width (form_of byte)) result
        (computer P.view core.old port.old) (computer P.view core.new port.new) }
    ensures place { IfSome result (λ r. IsPlace width r.0.0) }
    ensures fits { IfSome result (λ r. r.0.1 < 256 ^ width) }
    ensures left { IfSome result (λ r. IsSeen (P.view port.new) core.new r.1) }
    ensures reads { Reads P.view P.since core.old port.old core.new port.new }
{
    match byte >> 4 {
        0 | 1 | 2 | 3 => None,
        5 => modified_register(core, port, window, width, byte & 15),
        _ => modified_beyond(core, port, window, width, byte),
    }
}

/// An operand that is written, by its specifier byte.
#[inline(always)]
#[tactic(auto, unfolding(vax_flat::specs::Operand::formed, vax_flat::specs::Operand::form_of))]
fn place_by_byte<P: Port>(
    core: &mut Core,
    port: &mut P,
    window: Window,
    width: u8,
    byte: u8,
) -> Option<(Operand, Window)>
    requires width { IsWidth width }
    requires window { IsSeen (P.view port.old) core.old window }
    ensures exact { Gives (formed (write_of width) (form_of byte)) result
        (computer P.view core.old port.old) (computer P.view core.new port.new) }
    ensures place { IfSome result (λ r. IsPlace width r.0) }
    ensures left { IfSome result (λ r. IsSeen (P.view port.new) core.new r.1) }
    ensures reads { Reads P.view P.since core.old port.old core.new port.new }
{
    match byte >> 4 {
        0 | 1 | 2 | 3 => None,
        5 => place_register(core, port, window, width, byte & 15),
        _ => place_beyond(core, port, window, width, byte),
    }
}

/// Reads one operand at PC and its value.
#[inline(always)]
#[tactic(auto, unfolding(vax_flat::specs::Rows::read_value, vax_flat::specs::Operand::next_operand, vax_flat::specs::Operand::specified))]
pub(crate) fn next_value<P: Port>(
    core: &mut Core,
    port: &mut P,
    window: Window,
    size: Size,
) -> Option<(u64, Window)>
    requires window { IsSeen (P.view port.old) core.old window }
    ensures exact { Gives (read_value (bytes_of size)) result
        (computer P.view core.old port.old) (computer P.view core.new port.new) }
    ensures fits { IfSome result (λ r. r.0 < 256 ^ bytes_of size) }
    ensures left { IfSome result (λ r. IsSeen (P.view port.new) core.new r.1) }
    ensures reads { Reads P.view P.since core.old port.old core.new port.new }
{
    let width = width_of(size);
    let (byte, behind) = fetch(core, port, window, 1)?;
    value_by_byte(core, port, behind, width, byte as u8)
}

/// Reads one operand at PC that is modified: where it is, checked for writing, and the value there.
#[inline(always)]
#[tactic(auto, unfolding(vax_operand::specs::Addressed::modified, vax_flat::specs::Rows::modify_value, vax_flat::specs::Operand::next_operand, vax_flat::specs::Operand::specified))]
pub(crate) fn next_modified<P: Port>(
    core: &mut Core,
    port: &mut P,
    window: Window,
    size: Size,
) -> Option<((Operand, u64), Window)>
    requires window { IsSeen (P.view port.old) core.old window }
    ensures exact { Gives (modify_value (bytes_of size)) result
        (computer P.view core.old port.old) (computer P.view core.new port.new) }
    ensures place { IfSome result (λ r. IsPlace (bytes_of size) r.0.0) }
    ensures fits { IfSome result (λ r. r.0.1 < 256 ^ bytes_of size) }
    ensures left { IfSome result (λ r. IsSeen (P.view port.new) core.new r.1) }
    ensures reads { Reads P.view P.since core.old port.old core.new port.new }
{
    let width = width_of(size);
    let (byte, behind) = fetch(core, port, window, 1)?;
    modified_by_byte(core, port, behind, width, byte as u8)
}

/// Reads one operand at PC that is written: where it is.
#[inline(always)]
#[tactic(auto, unfolding(vax_flat::specs::Rows::write_place, vax_flat::specs::Operand::next_operand, vax_flat::specs::Operand::specified))]
pub(crate) fn next_place<P: Port>(
    core: &mut Core,
    port: &mut P,
    window: Window,
    size: Size,
) -> Option<(Operand, Window)>
    requires window { IsSeen (P.view port.old) core.old window }
    ensures exact { Gives (write_place (bytes_of size)) result
        (computer P.view core.old port.old) (computer P.view core.new port.new) }
    ensures place { IfSome result (λ r. IsPlace (bytes_of size) r.0) }
    ensures left { IfSome result (λ r. IsSeen (P.view port.new) core.new r.1) }
    ensures reads { Reads P.view P.since core.old port.old core.new port.new }
{
    let width = width_of(size);
    let (byte, behind) = fetch(core, port, window, 1)?;
    place_by_byte(core, port, behind, width, byte as u8)
}
