//! The commonest branches, loops and calls, each with its opcode as a constant.
ghost use Rattle.vax_quick.specs.Made.{IsSeen, Leaves, MakesOrStays, computer, made_by};

use crate::call::{call_with_stack, return_from};
use crate::control;
use crate::fast::{Fast, done};
use crate::near::count_down;
use crate::results::unless_made;
use crate::step::act_by_table;
use crate::window::Window;
use vax_isa::{Action, Call, Control, action};
use vax_undo::Port;
use vax_word::Core;
use vax_x_flow::shapes;

/// BRB, BRW, and the branches on the condition codes.
#[inline(never)]
pub(crate) fn branch<P: Port, const OPCODE: u8>(
    core: &mut Core,
    port: &mut P,
    window: Window,
) -> Option<()>
    requires window { IsSeen (P.view port.old) core.old window }
    ensures exact { MakesOrStays (made_by OPCODE) result
        (computer P.view core.old port.old) (computer P.view core.new port.new) }
    ensures leaves { Leaves P.since core.old port.old core.new port.new }
{
    let Some(Action::Control(Control::Branch { condition, size })) = action(OPCODE) else {
        return act_by_table(core, port, window, OPCODE);
    };
    control::branch(core, port, window, condition, size)
}

/// AOBLSS, AOBLEQ.
#[inline(never)]
pub(crate) fn add_one<P: Port, const OPCODE: u8>(
    core: &mut Core,
    port: &mut P,
    window: Window,
) -> Option<()>
    requires window { IsSeen (P.view port.old) core.old window }
    ensures exact { MakesOrStays (made_by OPCODE) result
        (computer P.view core.old port.old) (computer P.view core.new port.new) }
    ensures leaves { Leaves P.since core.old port.old core.new port.new }
{
    let Some(Action::Control(Control::AddOne(relation))) = action(OPCODE) else {
        return act_by_table(core, port, window, OPCODE);
    };
    let aside = *core;
    let mut fast = Fast {
        core: &mut *core,
        port: &mut *port,
        window,
    };
    let made = done(shapes::add_one(&mut fast, relation));
    unless_made(core, port, aside, made)
}

/// SOBGEQ, SOBGTR.
#[inline(never)]
pub(crate) fn subtract_one<P: Port, const OPCODE: u8>(
    core: &mut Core,
    port: &mut P,
    window: Window,
) -> Option<()>
    requires window { IsSeen (P.view port.old) core.old window }
    ensures exact { MakesOrStays (made_by OPCODE) result
        (computer P.view core.old port.old) (computer P.view core.new port.new) }
    ensures leaves { Leaves P.since core.old port.old core.new port.new }
{
    let Some(Action::Control(Control::SubtractOne(relation))) = action(OPCODE) else {
        return act_by_table(core, port, window, OPCODE);
    };
    count_down(core, port, window, relation)
}

/// BSBB, BSBW.
#[inline(never)]
pub(crate) fn branch_subroutine<P: Port, const OPCODE: u8>(
    core: &mut Core,
    port: &mut P,
    window: Window,
) -> Option<()>
    requires window { IsSeen (P.view port.old) core.old window }
    ensures exact { MakesOrStays (made_by OPCODE) result
        (computer P.view core.old port.old) (computer P.view core.new port.new) }
    ensures leaves { Leaves P.since core.old port.old core.new port.new }
{
    let Some(Action::Control(Control::BranchSubroutine(size))) = action(OPCODE) else {
        return act_by_table(core, port, window, OPCODE);
    };
    let aside = *core;
    let mut fast = Fast {
        core: &mut *core,
        port: &mut *port,
        window,
    };
    let made = done(shapes::branch_subroutine(&mut fast, size));
    unless_made(core, port, aside, made)
}

/// JSB.
#[inline(never)]
pub(crate) fn jump_subroutine<P: Port, const OPCODE: u8>(
    core: &mut Core,
    port: &mut P,
    window: Window,
) -> Option<()>
    requires window { IsSeen (P.view port.old) core.old window }
    ensures exact { MakesOrStays (made_by OPCODE) result
        (computer P.view core.old port.old) (computer P.view core.new port.new) }
    ensures leaves { Leaves P.since core.old port.old core.new port.new }
{
    let Some(Action::Control(Control::JumpSubroutine)) = action(OPCODE) else {
        return act_by_table(core, port, window, OPCODE);
    };
    let aside = *core;
    let mut fast = Fast {
        core: &mut *core,
        port: &mut *port,
        window,
    };
    let made = done(shapes::jump_subroutine(&mut fast));
    unless_made(core, port, aside, made)
}

/// RSB.
#[inline(never)]
pub(crate) fn return_subroutine<P: Port, const OPCODE: u8>(
    core: &mut Core,
    port: &mut P,
    window: Window,
) -> Option<()>
    requires window { IsSeen (P.view port.old) core.old window }
    ensures exact { MakesOrStays (made_by OPCODE) result
        (computer P.view core.old port.old) (computer P.view core.new port.new) }
    ensures leaves { Leaves P.since core.old port.old core.new port.new }
{
    let Some(Action::Control(Control::Return)) = action(OPCODE) else {
        return act_by_table(core, port, window, OPCODE);
    };
    control::return_subroutine(core, port, window)
}

/// CALLS.
#[inline(never)]
pub(crate) fn call<P: Port, const OPCODE: u8>(
    core: &mut Core,
    port: &mut P,
    window: Window,
) -> Option<()>
    requires window { IsSeen (P.view port.old) core.old window }
    ensures exact { MakesOrStays (made_by OPCODE) result
        (computer P.view core.old port.old) (computer P.view core.new port.new) }
    ensures leaves { Leaves P.since core.old port.old core.new port.new }
{
    let Some(Action::Call(Call::WithStack)) = action(OPCODE) else {
        return act_by_table(core, port, window, OPCODE);
    };
    let aside = *core;
    let made = call_with_stack(core, port, window);
    unless_made(core, port, aside, made)
}

/// RET.
#[inline(never)]
pub(crate) fn return_procedure<P: Port, const OPCODE: u8>(
    core: &mut Core,
    port: &mut P,
    window: Window,
) -> Option<()>
    requires window { IsSeen (P.view port.old) core.old window }
    ensures exact { MakesOrStays (made_by OPCODE) result
        (computer P.view core.old port.old) (computer P.view core.new port.new) }
    ensures leaves { Leaves P.since core.old port.old core.new port.new }
{
    let Some(Action::Call(Call::Return)) = action(OPCODE) else {
        return act_by_table(core, port, window, OPCODE);
    };
    let aside = *core;
    let made = return_from(core, port);
    unless_made(core, port, aside, made)
}
