//! Loops whose index is in a register, made in place.
ghost use Rattle.std.specs.Prelude.{◌≡◌, ◌^◌, ◌<◌, None, IfSome};
ghost use Rattle.vax_word.specs.declared.Size.TheVariants as size;
ghost use Rattle.vax_flat.specs.Control as control;
ghost use Rattle.vax_flat.specs.Operand.{fetched, form_of, IsPlace};
ghost use Rattle.vax_flat.specs.Rows.{branch_target, modify_value};
ghost use Rattle.vax_operand.specs.Addressed.{modified};
ghost use Rattle.vax_quick.specs.Made.{Gives, IsKept, IsMoved, IsSeen, Leaves, Makes, MakesOrStays, computer};

use crate::access::modified_register;
use crate::control::jump_if;
use crate::fast::{Fast, done};
use crate::integer::store_in_register;
use crate::results::{is_quiet, set_codes, unless_made};
use crate::window::{Window, taken};
use vax_isa::Relation;
use vax_operand::{Operand, extend};
use vax_undo::Port;
use vax_word::{Codes, Core, Size, sub};
use vax_x_flow::{compares, shapes};

/// The next byte of the instruction, if it was seen. PC moves past it.
#[inline(always)]
fn next_byte<P: Port>(core: &mut Core, port: &P, window: Window) -> Option<(u64, Window)>
    requires window { IsSeen (P.view port.now) core.old window }
    ensures exact { Gives (fetched 1) result
        (computer P.view core.old port.now) (computer P.view core.new port.now) }
    ensures fits { IfSome result (λ r. r.0 < 256 ^ 1) }
    ensures left { IfSome result (λ r. IsSeen (P.view port.now) core.new r.1) }
    ensures kept { IsKept core.old core.new }
    ensures moved { IsMoved core.old core.new }
{
    if window.left == 0 {
        return None;
    }
    Some(taken(core, port, window, 1))
}

/// The longword in a register that a specifier byte names, if it names one.
#[inline(always)]
#[tactic(auto, unfolding(vax_flat::specs::Operand::form_of))]
fn index_by_byte<P: Port>(
    core: &Core,
    port: &P,
    window: Window,
    byte: u8,
) -> Option<((Operand, u64), Window)>
    requires window { IsSeen (P.view port.now) core.now window }
    ensures exact { Gives (modified 4 (form_of byte)) result
        (computer P.view core.now port.now) (computer P.view core.now port.now) }
    ensures place { IfSome result (λ r. IsPlace 4 r.0.0) }
    ensures fits { IfSome result (λ r. r.0.1 < 256 ^ 4) }
    ensures left { IfSome result (λ r. IsSeen (P.view port.now) core.now r.1) }
{
    match byte >> 4 {
        5 => modified_register(core, port, window, 4, byte & 15),
        _ => None,
    }
}

/// Reads a loop's index at PC, if it is a register: which, and the value there.
#[inline(always)]
#[tactic(auto, unfolding(vax_operand::specs::Addressed::modified, vax_flat::specs::Rows::modify_value, vax_flat::specs::Operand::next_operand, vax_flat::specs::Operand::specified))]
fn next_index<P: Port>(
    core: &mut Core,
    port: &P,
    window: Window,
) -> Option<((Operand, u64), Window)>
    requires window { IsSeen (P.view port.now) core.old window }
    ensures exact { Gives (modify_value 4) result
        (computer P.view core.old port.now) (computer P.view core.new port.now) }
    ensures place { IfSome result (λ r. IsPlace 4 r.0.0) }
    ensures fits { IfSome result (λ r. r.0.1 < 256 ^ 4) }
    ensures left { IfSome result (λ r. IsSeen (P.view port.now) core.new r.1) }
    ensures kept { IsKept core.old core.new }
    ensures moved { IsMoved core.old core.new }
{
    let (byte, behind) = next_byte(core, port, window)?;
    index_by_byte(core, port, behind, byte as u8)
}

/// Reads a displacement of one byte at PC: where the branch goes.
#[inline(always)]
#[tactic(auto, unfolding(vax_flat::specs::Rows::branch_target, vax_flat::specs::Operand::next_operand, vax_flat::specs::Operand::branched, vax_flat::specs::Rows::address_in))]
fn near_target<P: Port>(core: &mut Core, port: &P, window: Window) -> Option<(u32, Window)>
    requires window { IsSeen (P.view port.now) core.old window }
    ensures exact { Gives (branch_target 1) result
        (computer P.view core.old port.now) (computer P.view core.new port.now) }
    ensures kept { IsKept core.old core.new }
    ensures moved { IsMoved core.old core.new }
{
    let (value, behind) = next_byte(core, port, window)?;
    let displacement = extend(1, value);
    Some((core.regs[15].wrapping_add(displacement), behind))
}

/// Writes a loop's index to its register, sets its codes but C, and lets control go on at the target or behind.
#[inline(always)]
#[tactic(auto, using(crate::proofs::Quiet::quiet_still), unfolding(vax_flat::specs::Control::looped))]
fn go_on_near<P: Port>(
    core: &mut Core,
    port: &P,
    place: Operand,
    index: (u64, Codes),
    taken: bool,
    target: u32,
) -> Option<()>
    requires place { IsPlace 4 place }
    requires fits { index.0 < 256 ^ 4 }
    ensures exact { Makes (control.looped size.L place index taken target) result
        (computer P.view core.old port.now) (computer P.view core.new port.now) }
    ensures leaves { Leaves P.since core.old port.now core.new port.now }
    ensures none { result ≡ None → core.new ≡ core.old }
{
    let (value, codes) = index;
    let codes = Codes {
        c: core.psl.codes().c,
        ..codes
    };
    if !is_quiet(core.psl, false, codes) {
        return None;
    }
    store_in_register(core, port, place, value)?;
    jump_if(core, taken, target);
    set_codes(core, port, false, codes);
    Some(())
}

/// SOBGEQ, SOBGTR of a register. Where it isn't made, PC has moved at most.
#[inline(always)]
#[tactic(auto, unfolding(vax_flat::specs::Control::subtract_one))]
fn count_down_moving<P: Port>(
    core: &mut Core,
    port: &P,
    window: Window,
    relation: Relation,
) -> Option<()>
    requires window { IsSeen (P.view port.now) core.old window }
    ensures exact { Makes (control.subtract_one relation) result
        (computer P.view core.old port.now) (computer P.view core.new port.now) }
    ensures leaves { Leaves P.since core.old port.now core.new port.now }
    ensures moved { result ≡ None → IsMoved core.old core.new }
{
    let ((place, old), window) = next_index(core, port, window)?;
    let (target, _) = near_target(core, port, window)?;
    let index = sub(Size::L, old, 1, false);
    let taken = compares(relation, index.0, 0);
    go_on_near(core, port, place, index, taken, target)
}

/// The same, with PC put back where it isn't made.
#[inline(always)]
fn count_down_near<P: Port>(
    core: &mut Core,
    port: &P,
    window: Window,
    relation: Relation,
) -> Option<()>
    requires window { IsSeen (P.view port.now) core.old window }
    ensures exact { MakesOrStays (control.subtract_one relation) result
        (computer P.view core.old port.now) (computer P.view core.new port.now) }
    ensures leaves { Leaves P.since core.old port.now core.new port.now }
{
    let pc = core.regs[15];
    match count_down_moving(core, port, window, relation) {
        Some(()) => Some(()),
        None => {
            core.regs[15] = pc;
            None
        }
    }
}

/// SOBGEQ, SOBGTR.
#[cold]
#[inline(never)]
fn count_down_any<P: Port>(
    core: &mut Core,
    port: &mut P,
    window: Window,
    relation: Relation,
) -> Option<()>
    requires window { IsSeen (P.view port.old) core.old window }
    ensures exact { MakesOrStays (control.subtract_one relation) result
        (computer P.view core.old port.old) (computer P.view core.new port.new) }
    ensures leaves { Leaves P.since core.old port.old core.new port.new }
{
    let aside = *core;
    let mut fast = Fast {
        core: &mut *core,
        port: &mut *port,
        window,
    };
    let made = done(shapes::subtract_one(&mut fast, relation));
    unless_made(core, port, aside, made)
}

/// The same. An index in a register is the commonest.
#[inline(always)]
pub(crate) fn count_down<P: Port>(
    core: &mut Core,
    port: &mut P,
    window: Window,
    relation: Relation,
) -> Option<()>
    requires window { IsSeen (P.view port.old) core.old window }
    ensures exact { MakesOrStays (control.subtract_one relation) result
        (computer P.view core.old port.old) (computer P.view core.new port.new) }
    ensures leaves { Leaves P.since core.old port.old core.new port.new }
{
    match count_down_near(core, port, window, relation) {
        Some(()) => Some(()),
        None => count_down_any(core, port, window, relation),
    }
}
