//! Operand specifiers: the addresses of operands that lie in memory.
ghost use Rattle.std.specs.Prelude.{◌≡◌, ◌<◌, IfSome, slice_set};
ghost use Rattle.vax_flat.specs.declared.Form.TheVariants as form;
ghost use Rattle.vax_flat.specs.Operand.{form_of, addressed, IsWidth};
ghost use Rattle.vax_operand.specs.Addressed.{direct, based, prefixed, located};
ghost use Rattle.vax_flat.specs.Form.{IsForm};
ghost use Rattle.vax_quick.specs.Made.{Gives, IsKept, IsSeen, Reads, computer};

use crate::memory::read;
use crate::window::{Window, fetch};
use vax_flat::Form;
use vax_isa::Letter;
use vax_operand::{decode, extend, is_no_base, is_reserved};
use vax_undo::Port;
use vax_word::Core;

/// Sets a register that isn't PC. What was seen of the instruction stays.
#[inline(always)]
#[tactic(auto, using(crate::proofs::Windows::seen_apart))]
fn set_register<P: Port>(core: &mut Core, port: &P, window: Window, n: u8, value: u32)
    requires other { n < 15 }
    requires window { IsSeen (P.view port.now) core.old window }
    ensures set { core.new ≡ record core.old { regs = slice_set core.old.regs n value } }
    ensures kept { IsKept core.old core.new }
    ensures left { IsSeen (P.view port.now) core.new window }
{
    let _ = port;
    let _ = window;
    core.regs[n as usize] = value;
}

/// An absolute address, which lies in the instruction itself.
#[inline(always)]
#[tactic(auto, unfolding(vax_flat::specs::Operand::addressed, vax_flat::specs::Operand::fetched, vax_flat::specs::Operand::read_at))]
fn absolute<P: Port>(
    core: &mut Core,
    port: &mut P,
    window: Window,
    width: u8,
) -> Option<(u32, Window)>
    requires window { IsSeen (P.view port.old) core.old window }
    ensures exact { Gives (addressed width (form.IncrementDeferred 15)) result
        (computer P.view core.old port.old) (computer P.view core.new port.new) }
    ensures left { IfSome result (λ r. IsSeen (P.view port.new) core.new r.1) }
    ensures reads { Reads P.view P.since core.old port.old core.new port.new }
{
    let _ = width;
    let (addr, behind) = fetch(core, port, window, 4)?;
    Some((addr as u32, behind))
}

/// The address that a memory form gives, with what it does to its register. A form that steps PC is left out.
#[inline(always)]
#[tactic(auto, unfolding(vax_flat::specs::Operand::addressed))]
fn address<P: Port>(
    core: &mut Core,
    port: &mut P,
    window: Window,
    width: u8,
    form: Form,
) -> Option<(u32, Window)>
    requires width { IsWidth width }
    requires form { IsForm form }
    requires window { IsSeen (P.view port.old) core.old window }
    ensures exact { Gives (addressed width form) result (computer P.view core.old port.old)
        (computer P.view core.new port.new) }
    ensures left { IfSome result (λ r. IsSeen (P.view port.new) core.new r.1) }
    ensures reads { Reads P.view P.since core.old port.old core.new port.new }
{
    match form {
        Form::Literal(_) => None,
        Form::Index(_) => None,
        Form::Register(_) => None,
        Form::Deferred(n) => Some((core.regs[n as usize], window)),
        Form::Decrement(n) => {
            if n == 15 {
                return None;
            }
            let addr = core.regs[n as usize].wrapping_sub(width as u32);
            set_register(core, port, window, n, addr);
            Some((addr, window))
        }
        Form::Increment(n) => {
            if n == 15 {
                return None;
            }
            let addr = core.regs[n as usize];
            set_register(core, port, window, n, addr.wrapping_add(width as u32));
            Some((addr, window))
        }
        Form::IncrementDeferred(n) => {
            if n == 15 {
                return absolute(core, port, window, width);
            }
            let at = core.regs[n as usize];
            let pointer = read(core, port, at, 4)?;
            set_register(core, port, window, n, at.wrapping_add(4));
            Some((pointer as u32, window))
        }
        Form::Displacement { width, register } => {
            let (value, behind) = fetch(core, port, window, width as u32)?;
            let displacement = extend(width, value);
            Some((
                core.regs[register as usize].wrapping_add(displacement),
                behind,
            ))
        }
        Form::DisplacementDeferred { width, register } => {
            let (value, behind) = fetch(core, port, window, width as u32)?;
            let displacement = extend(width, value);
            let at = core.regs[register as usize].wrapping_add(displacement);
            let pointer = read(core, port, at, 4)?;
            Some((pointer as u32, behind))
        }
    }
}

/// The address of a form that is no index.
#[inline(always)]
#[tactic(auto, unfolding(vax_operand::specs::Addressed::direct))]
fn direct_address<P: Port>(
    core: &mut Core,
    port: &mut P,
    window: Window,
    letter: Letter,
    width: u8,
    form: Form,
) -> Option<(u32, Window)>
    requires width { IsWidth width }
    requires form { IsForm form }
    requires window { IsSeen (P.view port.old) core.old window }
    ensures exact { Gives (direct letter width form) result
        (computer P.view core.old port.old) (computer P.view core.new port.new) }
    ensures left { IfSome result (λ r. IsSeen (P.view port.new) core.new r.1) }
    ensures reads { Reads P.view P.since core.old port.old core.new port.new }
{
    if is_reserved(letter, form) {
        return None;
    }
    address(core, port, window, width, form)
}

/// The address of a base form, indexed by register `x`.
#[inline(always)]
#[tactic(auto, unfolding(vax_operand::specs::Addressed::based))]
fn based_address<P: Port>(
    core: &mut Core,
    port: &mut P,
    window: Window,
    width: u8,
    x: u8,
    base: Form,
) -> Option<(u32, Window)>
    requires width { IsWidth width }
    requires of_core { x < 16 }
    requires form { IsForm base }
    requires window { IsSeen (P.view port.old) core.old window }
    ensures exact { Gives (based width x base) result
        (computer P.view core.old port.old) (computer P.view core.new port.new) }
    ensures left { IfSome result (λ r. IsSeen (P.view port.new) core.new r.1) }
    ensures reads { Reads P.view P.since core.old port.old core.new port.new }
{
    if is_no_base(x, base) {
        return None;
    }
    let (addr, behind) = address(core, port, window, width, base)?;
    let offset = (width as u32).wrapping_mul(core.regs[x as usize]);
    Some((addr.wrapping_add(offset), behind))
}

/// The address behind the prefix of an index by register `x`.
#[inline(never)]
#[tactic(auto, unfolding(vax_operand::specs::Addressed::prefixed))]
fn prefixed_address<P: Port>(
    core: &mut Core,
    port: &mut P,
    window: Window,
    width: u8,
    x: u8,
) -> Option<(u32, Window)>
    requires width { IsWidth width }
    requires of_core { x < 16 }
    requires window { IsSeen (P.view port.old) core.old window }
    ensures exact { Gives (prefixed width x) result
        (computer P.view core.old port.old) (computer P.view core.new port.new) }
    ensures left { IfSome result (λ r. IsSeen (P.view port.new) core.new r.1) }
    ensures reads { Reads P.view P.since core.old port.old core.new port.new }
{
    if x == 15 {
        return None;
    }
    let (byte, behind) = fetch(core, port, window, 1)?;
    let base = decode(byte as u8);
    based_address(core, port, behind, width, x, base)
}

/// The address of any form. One that has none is left out.
#[inline(never)]
#[tactic(auto, unfolding(vax_operand::specs::Addressed::located))]
fn address_of<P: Port>(
    core: &mut Core,
    port: &mut P,
    window: Window,
    letter: Letter,
    width: u8,
    form: Form,
) -> Option<(u32, Window)>
    requires width { IsWidth width }
    requires form { IsForm form }
    requires window { IsSeen (P.view port.old) core.old window }
    ensures exact { Gives (located letter width form) result
        (computer P.view core.old port.old) (computer P.view core.new port.new) }
    ensures left { IfSome result (λ r. IsSeen (P.view port.new) core.new r.1) }
    ensures reads { Reads P.view P.since core.old port.old core.new port.new }
{
    match form {
        Form::Literal(_) => None,
        Form::Index(x) => prefixed_address(core, port, window, width, x),
        Form::Register(_) => None,
        Form::Deferred(_) => direct_address(core, port, window, letter, width, form),
        Form::Decrement(_) => direct_address(core, port, window, letter, width, form),
        Form::Increment(_) => direct_address(core, port, window, letter, width, form),
        Form::IncrementDeferred(_) => { direct_address(core, port, window, letter, width, form) }
        Form::Displacement { .. } => { direct_address(core, port, window, letter, width, form) }
        Form::DisplacementDeferred { .. } => {
            direct_address(core, port, window, letter, width, form)
        }
    }
}

/// The address behind the prefix of an index.
#[inline(always)]
#[tactic(auto, unfolding(vax_operand::specs::Addressed::located))]
fn indexed_address<P: Port>(
    core: &mut Core,
    port: &mut P,
    window: Window,
    letter: Letter,
    width: u8,
    x: u8,
) -> Option<(u32, Window)>
    requires width { IsWidth width }
    requires of_core { x < 16 }
    requires window { IsSeen (P.view port.old) core.old window }
    ensures exact { Gives (located letter width (form.Index x)) result
        (computer P.view core.old port.old) (computer P.view core.new port.new) }
    ensures left { IfSome result (λ r. IsSeen (P.view port.new) core.new r.1) }
    ensures reads { Reads P.view P.since core.old port.old core.new port.new }
{
    let _ = letter;
    prefixed_address(core, port, window, width, x)
}

/// The address in a register.
#[inline(always)]
#[tactic(auto, unfolding(vax_operand::specs::Addressed::located, vax_operand::specs::Addressed::direct, vax_flat::specs::Operand::is_reserved, vax_flat::specs::Operand::addressed))]
pub(crate) fn deferred_address<P: Port>(
    core: &Core,
    port: &P,
    window: Window,
    letter: Letter,
    width: u8,
    n: u8,
) -> Option<(u32, Window)>
    requires of_core { n < 16 }
    requires window { IsSeen (P.view port.now) core.now window }
    ensures exact { Gives (located letter width (Form.Deferred n)) result
        (computer P.view core.now port.now) (computer P.view core.now port.now) }
    ensures left { IfSome result (λ r. IsSeen (P.view port.now) core.now r.1) }
{
    let _ = port;
    let _ = letter;
    let _ = width;
    if n == 15 {
        return None;
    }
    Some((core.regs[n as usize], window))
}

/// The address at a displacement of one byte from a register.
#[inline(always)]
#[tactic(auto, unfolding(vax_operand::specs::Addressed::located, vax_operand::specs::Addressed::direct, vax_flat::specs::Operand::is_reserved, vax_flat::specs::Operand::addressed))]
pub(crate) fn near_address<P: Port>(
    core: &mut Core,
    port: &mut P,
    window: Window,
    letter: Letter,
    width: u8,
    n: u8,
) -> Option<(u32, Window)>
    requires of_core { n < 16 }
    requires window { IsSeen (P.view port.old) core.old window }
    ensures exact { Gives (located letter width (Form.Displacement 1 n)) result
        (computer P.view core.old port.old) (computer P.view core.new port.new) }
    ensures left { IfSome result (λ r. IsSeen (P.view port.new) core.new r.1) }
    ensures reads { Reads P.view P.since core.old port.old core.new port.new }
{
    let _ = letter;
    let _ = width;
    let (value, behind) = fetch(core, port, window, 1)?;
    let displacement = extend(1, value);
    Some((core.regs[n as usize].wrapping_add(displacement), behind))
}

/// The address of an operand that lies in memory, by its specifier byte. The three commonest forms are told from the byte alone.
#[inline(always)]
#[tactic(auto, unfolding(vax_flat::specs::Operand::form_of))]
pub(crate) fn address_near<P: Port>(
    core: &mut Core,
    port: &mut P,
    window: Window,
    letter: Letter,
    width: u8,
    byte: u8,
) -> Option<(u32, Window)>
    requires width { IsWidth width }
    requires window { IsSeen (P.view port.old) core.old window }
    ensures exact { Gives (located letter width (form_of byte)) result
        (computer P.view core.old port.old) (computer P.view core.new port.new) }
    ensures left { IfSome result (λ r. IsSeen (P.view port.new) core.new r.1) }
    ensures reads { Reads P.view P.since core.old port.old core.new port.new }
{
    match byte >> 4 {
        4 => indexed_address(core, port, window, letter, width, byte & 15),
        6 => deferred_address(core, port, window, letter, width, byte & 15),
        10 => near_address(core, port, window, letter, width, byte & 15),
        _ => address_of(core, port, window, letter, width, decode(byte)),
    }
}
