//! Addresses of operands at PC, and where branches go.
ghost use Rattle.std.specs.Prelude.{◌≡◌, None, IfSome};
ghost use Rattle.vax_word.specs.Arithmetic.{bytes_of};
ghost use Rattle.vax_isa.specs.Actions.{size_of};
ghost use Rattle.vax_isa.specs.declared.Letter.TheVariants as letter;
ghost use Rattle.vax_flat.specs.Operand.{form_of, formed, IsWidth};
ghost use Rattle.vax_flat.specs.Rows.{address_of, address_in, address_value, branch_target};
ghost use Rattle.vax_operand.specs.Addressed.{located, IsMemory};
ghost use Rattle.vax_quick.specs.Made.{Gives, IsSeen, Reads, computer};

use crate::specifier::{address_near, near_address};
use crate::window::{Window, fetch};
use vax_isa::{Letter, Narrow};
use vax_operand::{displacement_width, extend, width_of};
use vax_undo::Port;
use vax_word::{Core, Size};

/// The address of a specifier byte.
#[inline(never)]
fn address_there<P: Port>(
    core: &mut Core,
    port: &mut P,
    window: Window,
    width: u8,
    byte: u8,
) -> Option<(u32, Window)>
    requires width { IsWidth width }
    requires window { IsSeen (P.view port.old) core.old window }
    ensures exact { Gives (located letter.Address width (form_of byte)) result
        (computer P.view core.old port.old) (computer P.view core.new port.new) }
    ensures left { IfSome result (λ r. IsSeen (P.view port.new) core.new r.1) }
    ensures reads { Reads P.view P.since core.old port.old core.new port.new }
{
    address_near(core, port, window, Letter::Address, width, byte)
}

/// The same. The commonest form is told from the byte alone.
#[inline(always)]
#[tactic(auto, unfolding(vax_flat::specs::Operand::form_of))]
fn address_by_form<P: Port>(
    core: &mut Core,
    port: &mut P,
    window: Window,
    width: u8,
    byte: u8,
) -> Option<(u32, Window)>
    requires width { IsWidth width }
    requires window { IsSeen (P.view port.old) core.old window }
    ensures exact { Gives (located letter.Address width (form_of byte)) result
        (computer P.view core.old port.old) (computer P.view core.new port.new) }
    ensures left { IfSome result (λ r. IsSeen (P.view port.new) core.new r.1) }
    ensures reads { Reads P.view P.since core.old port.old core.new port.new }
{
    match byte >> 4 {
        10 => near_address(core, port, window, Letter::Address, width, byte & 15),
        _ => address_there(core, port, window, width, byte),
    }
}

/// The address of an operand that lies in memory.
#[inline(always)]
fn address_beyond<P: Port>(
    core: &mut Core,
    port: &mut P,
    window: Window,
    width: u8,
    byte: u8,
) -> Option<(u32, Window)>
    requires width { IsWidth width }
    requires memory { IsMemory (form_of byte) }
    requires window { IsSeen (P.view port.old) core.old window }
    ensures exact { Gives
        (λ s next. formed (address_of width) (form_of byte) s (λ o s. next (address_in o) s))
        result (computer P.view core.old port.old) (computer P.view core.new port.new) }
    ensures left { IfSome result (λ r. IsSeen (P.view port.new) core.new r.1) }
    ensures reads { Reads P.view P.since core.old port.old core.new port.new }
{
    address_by_form(core, port, window, width, byte)
}

/// The address of an operand by its specifier byte.
#[inline(always)]
#[tactic(auto, unfolding(vax_flat::specs::Operand::form_of))]
fn address_by_byte<P: Port>(
    core: &mut Core,
    port: &mut P,
    window: Window,
    width: u8,
    byte: u8,
) -> Option<(u32, Window)>
    requires width { IsWidth width }
    requires window { IsSeen (P.view port.old) core.old window }
    ensures exact { Gives
        (λ s next. formed (address_of width) (form_of byte) s (λ o s. next (address_in o) s))
        result (computer P.view core.old port.old) (computer P.view core.new port.new) }
    ensures left { IfSome result (λ r. IsSeen (P.view port.new) core.new r.1) }
    ensures reads { Reads P.view P.since core.old port.old core.new port.new }
{
    match byte >> 4 {
        0 | 1 | 2 | 3 | 5 => None,
        _ => address_beyond(core, port, window, width, byte),
    }
}

/// Reads one operand at PC of which the address is taken.
#[inline(always)]
#[tactic(auto, unfolding(vax_flat::specs::Rows::address_value, vax_flat::specs::Operand::next_operand, vax_flat::specs::Operand::specified, vax_flat::specs::Operand::form_of))]
pub(crate) fn next_address<P: Port>(
    core: &mut Core,
    port: &mut P,
    window: Window,
    size: Size,
) -> Option<(u32, Window)>
    requires window { IsSeen (P.view port.old) core.old window }
    ensures exact { Gives (address_value (bytes_of size)) result
        (computer P.view core.old port.old) (computer P.view core.new port.new) }
    ensures left { IfSome result (λ r. IsSeen (P.view port.new) core.new r.1) }
    ensures reads { Reads P.view P.since core.old port.old core.new port.new }
{
    let width = width_of(size);
    let (byte, behind) = fetch(core, port, window, 1)?;
    address_by_byte(core, port, behind, width, byte as u8)
}

/// Reads the displacement at PC that a branch has: where the branch goes.
#[inline(always)]
#[tactic(auto, unfolding(vax_flat::specs::Rows::branch_target, vax_flat::specs::Operand::next_operand, vax_flat::specs::Operand::branched, vax_flat::specs::Rows::address_in))]
pub(crate) fn next_target<P: Port>(
    core: &mut Core,
    port: &mut P,
    window: Window,
    size: Narrow,
) -> Option<(u32, Window)>
    requires window { IsSeen (P.view port.old) core.old window }
    ensures exact { Gives (branch_target (bytes_of (size_of size))) result
        (computer P.view core.old port.old) (computer P.view core.new port.new) }
    ensures reads { Reads P.view P.since core.old port.old core.new port.new }
    ensures none { result ≡ None → core.new ≡ core.old }
{
    let width = displacement_width(size);
    let (value, behind) = fetch(core, port, window, width as u32)?;
    let displacement = extend(width, value);
    Some((core.regs[15].wrapping_add(displacement), behind))
}
