//! Branches and RSB, which put no registers aside, and all control instructions by their shape.
ghost use Rattle.std.specs.Prelude.{◌^◌, ◌<◌};
ghost use Rattle.vax_word.specs.Arithmetic.{bytes_of};
ghost use Rattle.vax_isa.specs.Actions.{size_of};
ghost use Rattle.vax_flat.specs.Control as control;
ghost use Rattle.vax_flat.specs.Operand.{IsPlace};
ghost use Rattle.vax_quick.specs.Made.{Becomes, IsKept, IsSeen, Leaves, Makes, MakesOrStays, computer};

use crate::access::store;
use crate::addresses::next_target;
use crate::fast::{Fast, done};
use crate::memory::read;
use crate::results::{is_quiet, set_codes};
use crate::window::Window;
use vax_isa::{Condition, Control, Narrow};
use vax_operand::Operand;
use vax_undo::Port;
use vax_word::{Codes, Core, Size};
use vax_x_flow::{holds, shapes};

/// Lets control go on at the target, if the branch is taken.
#[inline(always)]
#[tactic(auto, unfolding(vax_flat::specs::Control::jumped_if))]
pub(crate) fn jump_if(core: &mut Core, taken: bool, target: u32)
    ensures exact { Becomes (control.jumped_if taken target) core.old core.new }
    ensures kept { IsKept core.old core.new }
{
    if taken {
        core.regs[15] = target;
    }
}

/// BRB, BRW, and the branches on the condition codes.
#[inline(always)]
#[tactic(auto, using(crate::proofs::Stays::all_same), unfolding(vax_flat::specs::Control::branch))]
pub(crate) fn branch<P: Port>(
    core: &mut Core,
    port: &mut P,
    window: Window,
    condition: Condition,
    size: Narrow,
) -> Option<()>
    requires window { IsSeen (P.view port.old) core.old window }
    ensures exact { MakesOrStays (control.branch condition (size_of size)) result
        (computer P.view core.old port.old) (computer P.view core.new port.new) }
    ensures leaves { Leaves P.since core.old port.old core.new port.new }
{
    let (target, _) = next_target(core, port, window, size)?;
    let taken = holds(condition, core.psl.codes());
    jump_if(core, taken, target);
    Some(())
}

/// RSB.
#[inline(always)]
#[tactic(auto, using(crate::proofs::Stays::all_same), unfolding(vax_flat::specs::Control::return_subroutine))]
pub(crate) fn return_subroutine<P: Port>(
    core: &mut Core,
    port: &mut P,
    window: Window,
) -> Option<()>
    requires window { IsSeen (P.view port.old) core.old window }
    ensures exact { MakesOrStays control.return_subroutine result
        (computer P.view core.old port.old) (computer P.view core.new port.new) }
    ensures leaves { Leaves P.since core.old port.old core.new port.new }
{
    let _ = window;
    let top = core.regs[14];
    let target = read(core, port, top, 4)?;
    core.regs[14] = top.wrapping_add(4);
    core.regs[15] = target as u32;
    Some(())
}

/// Writes a loop's index, sets its codes but C, and lets control go on at the target or behind.
#[inline(always)]
#[tactic(auto, using(crate::proofs::Quiet::quiet_still), unfolding(vax_flat::specs::Control::looped))]
pub(crate) fn go_on<P: Port>(
    core: &mut Core,
    port: &mut P,
    size: Size,
    place: Operand,
    index: (u64, Codes),
    taken: bool,
    target: u32,
) -> Option<()>
    requires place { IsPlace (bytes_of size) place }
    requires fits { index.0 < 256 ^ bytes_of size }
    ensures exact { Makes (control.looped size place index taken target) result
        (computer P.view core.old port.old) (computer P.view core.new port.new) }
    ensures leaves { Leaves P.since core.old port.old core.new port.new }
{
    let (value, codes) = index;
    let codes = Codes {
        c: core.psl.codes().c,
        ..codes
    };
    if !is_quiet(core.psl, false, codes) {
        return None;
    }
    store(core, port, size, place, value)?;
    jump_if(core, taken, target);
    set_codes(core, port, false, codes);
    Some(())
}

/// The instruction by its shape.
#[inline(never)]
pub(crate) fn perform<P: Port>(
    core: &mut Core,
    port: &mut P,
    window: Window,
    instruction: Control,
) -> Option<()>
    requires window { IsSeen (P.view port.old) core.old window }
    ensures exact { Makes (control.performed instruction) result
        (computer P.view core.old port.old) (computer P.view core.new port.new) }
    ensures leaves { Leaves P.since core.old port.old core.new port.new }
{
    let mut fast = Fast { core, port, window };
    done(shapes::perform(&mut fast, instruction))
}
