//! The commonest moves, sums and tests, each with its opcode as a constant: the table's row is known where this is compiled.
ghost use Rattle.vax_quick.specs.Made.{IsSeen, Leaves, MakesOrStays, computer, made_by};

use crate::fast::{Fast, done};
use crate::results::unless_made;
use crate::step::act_by_table;
use crate::window::Window;
use vax_isa::{Action, Integer, action};
use vax_undo::Port;
use vax_word::Core;
use vax_x_int::shapes;

/// A move or a conversion.
#[inline(never)]
pub(crate) fn unary<P: Port, const OPCODE: u8>(
    core: &mut Core,
    port: &mut P,
    window: Window,
) -> Option<()>
    requires window { IsSeen (P.view port.old) core.old window }
    ensures exact { MakesOrStays (made_by OPCODE) result
        (computer P.view core.old port.old) (computer P.view core.new port.new) }
    ensures leaves { Leaves P.since core.old port.old core.new port.new }
{
    let Some(
        Action::Integer(
            Integer::Unary {
                operation,
                from,
                to,
            },
        ),
    ) = action(OPCODE)
    else {
        return act_by_table(core, port, window, OPCODE);
    };
    let aside = *core;
    let mut fast = Fast {
        core: &mut *core,
        port: &mut *port,
        window,
    };
    let made = done(shapes::unary(&mut fast, operation, from, to));
    unless_made(core, port, aside, made)
}

/// Two operands, of which the second is replaced.
#[inline(never)]
pub(crate) fn two<P: Port, const OPCODE: u8>(
    core: &mut Core,
    port: &mut P,
    window: Window,
) -> Option<()>
    requires window { IsSeen (P.view port.old) core.old window }
    ensures exact { MakesOrStays (made_by OPCODE) result
        (computer P.view core.old port.old) (computer P.view core.new port.new) }
    ensures leaves { Leaves P.since core.old port.old core.new port.new }
{
    let Some(Action::Integer(Integer::Two { operation, size })) = action(OPCODE) else {
        return act_by_table(core, port, window, OPCODE);
    };
    let aside = *core;
    let mut fast = Fast {
        core: &mut *core,
        port: &mut *port,
        window,
    };
    let made = done(shapes::two(&mut fast, operation, size));
    unless_made(core, port, aside, made)
}

/// Two operands, with a third for the result.
#[inline(never)]
pub(crate) fn three<P: Port, const OPCODE: u8>(
    core: &mut Core,
    port: &mut P,
    window: Window,
) -> Option<()>
    requires window { IsSeen (P.view port.old) core.old window }
    ensures exact { MakesOrStays (made_by OPCODE) result
        (computer P.view core.old port.old) (computer P.view core.new port.new) }
    ensures leaves { Leaves P.since core.old port.old core.new port.new }
{
    let Some(Action::Integer(Integer::Three { operation, size })) = action(OPCODE) else {
        return act_by_table(core, port, window, OPCODE);
    };
    let aside = *core;
    let mut fast = Fast {
        core: &mut *core,
        port: &mut *port,
        window,
    };
    let made = done(shapes::three(&mut fast, operation, size));
    unless_made(core, port, aside, made)
}

/// INC or DEC.
#[inline(never)]
pub(crate) fn by_one<P: Port, const OPCODE: u8>(
    core: &mut Core,
    port: &mut P,
    window: Window,
) -> Option<()>
    requires window { IsSeen (P.view port.old) core.old window }
    ensures exact { MakesOrStays (made_by OPCODE) result
        (computer P.view core.old port.old) (computer P.view core.new port.new) }
    ensures leaves { Leaves P.since core.old port.old core.new port.new }
{
    let Some(Action::Integer(Integer::ByOne { operation, size })) = action(OPCODE) else {
        return act_by_table(core, port, window, OPCODE);
    };
    let aside = *core;
    let mut fast = Fast {
        core: &mut *core,
        port: &mut *port,
        window,
    };
    let made = done(shapes::by_one(&mut fast, operation, size));
    unless_made(core, port, aside, made)
}

/// CLR.
#[inline(never)]
pub(crate) fn clear<P: Port, const OPCODE: u8>(
    core: &mut Core,
    port: &mut P,
    window: Window,
) -> Option<()>
    requires window { IsSeen (P.view port.old) core.old window }
    ensures exact { MakesOrStays (made_by OPCODE) result
        (computer P.view core.old port.old) (computer P.view core.new port.new) }
    ensures leaves { Leaves P.since core.old port.old core.new port.new }
{
    let Some(Action::Integer(Integer::Clear(size))) = action(OPCODE) else {
        return act_by_table(core, port, window, OPCODE);
    };
    let aside = *core;
    let mut fast = Fast {
        core: &mut *core,
        port: &mut *port,
        window,
    };
    let made = done(shapes::clear(&mut fast, size));
    unless_made(core, port, aside, made)
}

/// TST.
#[inline(never)]
pub(crate) fn test<P: Port, const OPCODE: u8>(
    core: &mut Core,
    port: &mut P,
    window: Window,
) -> Option<()>
    requires window { IsSeen (P.view port.old) core.old window }
    ensures exact { MakesOrStays (made_by OPCODE) result
        (computer P.view core.old port.old) (computer P.view core.new port.new) }
    ensures leaves { Leaves P.since core.old port.old core.new port.new }
{
    let Some(Action::Integer(Integer::Test(size))) = action(OPCODE) else {
        return act_by_table(core, port, window, OPCODE);
    };
    let aside = *core;
    let mut fast = Fast {
        core: &mut *core,
        port: &mut *port,
        window,
    };
    let made = done(shapes::test(&mut fast, size.into()));
    unless_made(core, port, aside, made)
}

/// CMP.
#[inline(never)]
pub(crate) fn compare<P: Port, const OPCODE: u8>(
    core: &mut Core,
    port: &mut P,
    window: Window,
) -> Option<()>
    requires window { IsSeen (P.view port.old) core.old window }
    ensures exact { MakesOrStays (made_by OPCODE) result
        (computer P.view core.old port.old) (computer P.view core.new port.new) }
    ensures leaves { Leaves P.since core.old port.old core.new port.new }
{
    let Some(Action::Integer(Integer::Compare(size))) = action(OPCODE) else {
        return act_by_table(core, port, window, OPCODE);
    };
    let aside = *core;
    let mut fast = Fast {
        core: &mut *core,
        port: &mut *port,
        window,
    };
    let made = done(shapes::compare(&mut fast, size.into()));
    unless_made(core, port, aside, made)
}

/// ASH.
#[inline(never)]
pub(crate) fn shift_by<P: Port, const OPCODE: u8>(
    core: &mut Core,
    port: &mut P,
    window: Window,
) -> Option<()>
    requires window { IsSeen (P.view port.old) core.old window }
    ensures exact { MakesOrStays (made_by OPCODE) result
        (computer P.view core.old port.old) (computer P.view core.new port.new) }
    ensures leaves { Leaves P.since core.old port.old core.new port.new }
{
    let Some(Action::Integer(Integer::Shift(size))) = action(OPCODE) else {
        return act_by_table(core, port, window, OPCODE);
    };
    let aside = *core;
    let mut fast = Fast {
        core: &mut *core,
        port: &mut *port,
        window,
    };
    let made = done(shapes::shift_by(&mut fast, size));
    unless_made(core, port, aside, made)
}

/// ROTL.
#[inline(never)]
pub(crate) fn rotate<P: Port, const OPCODE: u8>(
    core: &mut Core,
    port: &mut P,
    window: Window,
) -> Option<()>
    requires window { IsSeen (P.view port.old) core.old window }
    ensures exact { MakesOrStays (made_by OPCODE) result
        (computer P.view core.old port.old) (computer P.view core.new port.new) }
    ensures leaves { Leaves P.since core.old port.old core.new port.new }
{
    let Some(Action::Integer(Integer::Rotate)) = action(OPCODE) else {
        return act_by_table(core, port, window, OPCODE);
    };
    let aside = *core;
    let mut fast = Fast {
        core: &mut *core,
        port: &mut *port,
        window,
    };
    let made = done(shapes::rotate(&mut fast));
    unless_made(core, port, aside, made)
}

/// MOVA.
#[inline(never)]
pub(crate) fn move_address<P: Port, const OPCODE: u8>(
    core: &mut Core,
    port: &mut P,
    window: Window,
) -> Option<()>
    requires window { IsSeen (P.view port.old) core.old window }
    ensures exact { MakesOrStays (made_by OPCODE) result
        (computer P.view core.old port.old) (computer P.view core.new port.new) }
    ensures leaves { Leaves P.since core.old port.old core.new port.new }
{
    let Some(Action::Integer(Integer::MoveAddress(size))) = action(OPCODE) else {
        return act_by_table(core, port, window, OPCODE);
    };
    let aside = *core;
    let mut fast = Fast {
        core: &mut *core,
        port: &mut *port,
        window,
    };
    let made = done(shapes::move_address(&mut fast, size));
    unless_made(core, port, aside, made)
}

/// PUSHL.
#[inline(never)]
pub(crate) fn push_long<P: Port, const OPCODE: u8>(
    core: &mut Core,
    port: &mut P,
    window: Window,
) -> Option<()>
    requires window { IsSeen (P.view port.old) core.old window }
    ensures exact { MakesOrStays (made_by OPCODE) result
        (computer P.view core.old port.old) (computer P.view core.new port.new) }
    ensures leaves { Leaves P.since core.old port.old core.new port.new }
{
    let Some(Action::Integer(Integer::Push)) = action(OPCODE) else {
        return act_by_table(core, port, window, OPCODE);
    };
    let aside = *core;
    let mut fast = Fast {
        core: &mut *core,
        port: &mut *port,
        window,
    };
    let made = done(shapes::push_long(&mut fast));
    unless_made(core, port, aside, made)
}

/// EMUL.
#[inline(never)]
pub(crate) fn extended_multiply<P: Port, const OPCODE: u8>(
    core: &mut Core,
    port: &mut P,
    window: Window,
) -> Option<()>
    requires window { IsSeen (P.view port.old) core.old window }
    ensures exact { MakesOrStays (made_by OPCODE) result
        (computer P.view core.old port.old) (computer P.view core.new port.new) }
    ensures leaves { Leaves P.since core.old port.old core.new port.new }
{
    let Some(Action::Integer(Integer::ExtendedMultiply)) = action(OPCODE) else {
        return act_by_table(core, port, window, OPCODE);
    };
    let aside = *core;
    let mut fast = Fast {
        core: &mut *core,
        port: &mut *port,
        window,
    };
    let made = done(shapes::extended_multiply(&mut fast));
    unless_made(core, port, aside, made)
}
