//! Steps made at once.
ghost use Rattle.std.specs.Prelude.{◌≡◌, ◌≤◌, true, false};
ghost use Rattle.vax_flat.specs.Instruction.{acted_part, acted_part_if, first_part};
ghost use Rattle.vax_undo.specs.FirstPart.{first_part_done};
ghost use Rattle.vax_quick.specs.Made.{IsSeen, IsStill, Leaves, Makes, MakesOrStays, MakesStep, MakesSteps, computer, eight, made_by};

use crate::code::{Code, look_at_pc};
use crate::results::unless_made;
use crate::window::{Window, fetch};
use crate::{arms, branches, call, control, field, integer};
use vax_isa::{Action, action};
use vax_undo::Port;
use vax_word::Core;

/// Whether no interrupt is asked for and the interval clock is off.
#[inline(always)]
#[tactic(auto, using(crate::proofs::Steps::still_by))]
pub fn is_still(core: &Core) -> bool
    ensures { result ≡ true → IsStill core.now }
{
    core.iccs / 0x40 % 2 != 1 && core.sisr == 0
}

/// What an instruction does whose opcode PC is past: arithmetic, control, a field of bits, or a call. All else is left out.
#[inline(always)]
#[tactic(auto, unfolding(vax_flat::specs::Instruction::acted_part))]
fn act<P: Port>(core: &mut Core, port: &mut P, window: Window, action: Action) -> Option<()>
    requires window { IsSeen (P.view port.old) core.old window }
    ensures exact { Makes (acted_part action) result
        (computer P.view core.old port.old) (computer P.view core.new port.new) }
    ensures leaves { Leaves P.since core.old port.old core.new port.new }
{
    match action {
        Action::Integer(instruction) => { integer::perform(core, port, window, instruction) }
        Action::Control(instruction) => { control::perform(core, port, window, instruction) }
        Action::Field(instruction) => field::perform(core, port, window, instruction),
        Action::Call(instruction) => call::perform(core, port, window, instruction),
        _ => None,
    }
}

/// What an opcode does. One that is neither arithmetic, control, a field of bits, nor a call is left as it was.
#[inline(always)]
#[tactic(auto, unfolding(vax_flat::specs::Instruction::acted_part_if))]
fn act_if<P: Port>(
    core: &mut Core,
    port: &mut P,
    window: Window,
    action: Option<Action>,
) -> Option<()>
    requires window { IsSeen (P.view port.old) core.old window }
    ensures exact { MakesOrStays (acted_part_if action) result
        (computer P.view core.old port.old) (computer P.view core.new port.new) }
    ensures leaves { Leaves P.since core.old port.old core.new port.new }
{
    match action {
        None | Some(Action::System(_) | Action::Queue(_) | Action::Text(_)) => None,
        Some(action) => {
            let aside = *core;
            let made = act(core, port, window, action);
            unless_made(core, port, aside, made)
        }
    }
}

/// What an opcode stands for that has no arm of its own.
#[inline(never)]
#[tactic(auto, unfolding(crate::specs::Made::made_by))]
pub(crate) fn act_by_table<P: Port>(
    core: &mut Core,
    port: &mut P,
    window: Window,
    opcode: u8,
) -> Option<()>
    requires window { IsSeen (P.view port.old) core.old window }
    ensures exact { MakesOrStays (made_by opcode) result
        (computer P.view core.old port.old) (computer P.view core.new port.new) }
    ensures leaves { Leaves P.since core.old port.old core.new port.new }
{
    act_if(core, port, window, action(opcode))
}

/// What an opcode stands for that has an arm for longwords, or none.
#[inline(always)]
#[tactic(auto, using(crate::proofs::Opcodes::as_opcode))]
fn act_on_longwords<P: Port>(
    core: &mut Core,
    port: &mut P,
    window: Window,
    opcode: u8,
) -> Option<()>
    requires window { IsSeen (P.view port.old) core.old window }
    ensures exact { MakesOrStays (made_by opcode) result
        (computer P.view core.old port.old) (computer P.view core.new port.new) }
    ensures leaves { Leaves P.since core.old port.old core.new port.new }
{
    match opcode {
        0xC0 => arms::two::<P, 0xC0>(core, port, window),
        0xC1 => arms::three::<P, 0xC1>(core, port, window),
        0xC2 => arms::two::<P, 0xC2>(core, port, window),
        0xC3 => arms::three::<P, 0xC3>(core, port, window),
        0xC4 => arms::two::<P, 0xC4>(core, port, window),
        0xC5 => arms::three::<P, 0xC5>(core, port, window),
        0xC8 => arms::two::<P, 0xC8>(core, port, window),
        0xC9 => arms::three::<P, 0xC9>(core, port, window),
        0xCA => arms::two::<P, 0xCA>(core, port, window),
        0xCB => arms::three::<P, 0xCB>(core, port, window),
        0xCC => arms::two::<P, 0xCC>(core, port, window),
        0xCD => arms::three::<P, 0xCD>(core, port, window),
        0xD0 => arms::unary::<P, 0xD0>(core, port, window),
        0xD1 => arms::compare::<P, 0xD1>(core, port, window),
        0xD2 => arms::unary::<P, 0xD2>(core, port, window),
        0xD4 => arms::clear::<P, 0xD4>(core, port, window),
        0xD5 => arms::test::<P, 0xD5>(core, port, window),
        0xD6 => arms::by_one::<P, 0xD6>(core, port, window),
        0xD7 => arms::by_one::<P, 0xD7>(core, port, window),
        0xD8 => arms::two::<P, 0xD8>(core, port, window),
        0xDD => arms::push_long::<P, 0xDD>(core, port, window),
        0xDE => arms::move_address::<P, 0xDE>(core, port, window),
        _ => act_by_table(core, port, window, opcode),
    }
}

/// What an opcode stands for that isn't one of the branches, loops and calls with an arm.
#[inline(always)]
#[tactic(auto, using(crate::proofs::Opcodes::as_opcode))]
fn act_on_values<P: Port>(core: &mut Core, port: &mut P, window: Window, opcode: u8) -> Option<()>
    requires window { IsSeen (P.view port.old) core.old window }
    ensures exact { MakesOrStays (made_by opcode) result
        (computer P.view core.old port.old) (computer P.view core.new port.new) }
    ensures leaves { Leaves P.since core.old port.old core.new port.new }
{
    match opcode {
        0x3C => arms::unary::<P, 0x3C>(core, port, window),
        0x78 => arms::shift_by::<P, 0x78>(core, port, window),
        0x7A => arms::extended_multiply::<P, 0x7A>(core, port, window),
        0x90 => arms::unary::<P, 0x90>(core, port, window),
        0x91 => arms::compare::<P, 0x91>(core, port, window),
        0x95 => arms::test::<P, 0x95>(core, port, window),
        0x98 => arms::unary::<P, 0x98>(core, port, window),
        0x9A => arms::unary::<P, 0x9A>(core, port, window),
        0x9C => arms::rotate::<P, 0x9C>(core, port, window),
        0x9E => arms::move_address::<P, 0x9E>(core, port, window),
        0xA0 => arms::two::<P, 0xA0>(core, port, window),
        0xB0 => arms::unary::<P, 0xB0>(core, port, window),
        0xB1 => arms::compare::<P, 0xB1>(core, port, window),
        _ => act_on_longwords(core, port, window, opcode),
    }
}

/// What an opcode stands for.
#[inline(always)]
#[tactic(auto, using(crate::proofs::Opcodes::as_opcode))]
fn act_by_opcode<P: Port>(core: &mut Core, port: &mut P, window: Window, opcode: u8) -> Option<()>
    requires window { IsSeen (P.view port.old) core.old window }
    ensures exact { MakesOrStays (made_by opcode) result
        (computer P.view core.old port.old) (computer P.view core.new port.new) }
    ensures leaves { Leaves P.since core.old port.old core.new port.new }
{
    match opcode {
        0x04 => branches::return_procedure::<P, 0x04>(core, port, window),
        0x05 => branches::return_subroutine::<P, 0x05>(core, port, window),
        0x10 => branches::branch_subroutine::<P, 0x10>(core, port, window),
        0x11 => branches::branch::<P, 0x11>(core, port, window),
        0x12 => branches::branch::<P, 0x12>(core, port, window),
        0x13 => branches::branch::<P, 0x13>(core, port, window),
        0x14 => branches::branch::<P, 0x14>(core, port, window),
        0x15 => branches::branch::<P, 0x15>(core, port, window),
        0x16 => branches::jump_subroutine::<P, 0x16>(core, port, window),
        0x18 => branches::branch::<P, 0x18>(core, port, window),
        0x19 => branches::branch::<P, 0x19>(core, port, window),
        0x1A => branches::branch::<P, 0x1A>(core, port, window),
        0x1B => branches::branch::<P, 0x1B>(core, port, window),
        0x1E => branches::branch::<P, 0x1E>(core, port, window),
        0x1F => branches::branch::<P, 0x1F>(core, port, window),
        0x31 => branches::branch::<P, 0x31>(core, port, window),
        0xF2 => branches::add_one::<P, 0xF2>(core, port, window),
        0xF4 => branches::subtract_one::<P, 0xF4>(core, port, window),
        0xF5 => branches::subtract_one::<P, 0xF5>(core, port, window),
        0xFB => branches::call::<P, 0xFB>(core, port, window),
        _ => act_on_values(core, port, window, opcode),
    }
}

/// The instruction at PC.
#[inline(always)]
#[tactic(auto, unfolding(vax_flat::specs::Instruction::first_part, crate::specs::Made::made_by))]
fn execute<P: Port>(core: &mut Core, port: &mut P, window: Window) -> Option<()>
    requires window { IsSeen (P.view port.old) core.old window }
    ensures exact { MakesOrStays first_part result
        (computer P.view core.old port.old) (computer P.view core.new port.new) }
    ensures leaves { Leaves P.since core.old port.old core.new port.new }
{
    let pc = core.regs[15];
    let (opcode, behind) = fetch(core, port, window, 1)?;
    match act_by_opcode(core, port, behind, opcode as u8) {
        Some(()) => Some(()),
        None => {
            core.regs[15] = pc;
            None
        }
    }
}

/// Makes the step at PC at once, if it can, and says whether it did. If it didn't, nothing has changed.
#[inline(always)]
#[tactic(auto, using(crate::proofs::Steps::still_on))]
fn step<P: Port>(core: &mut Core, port: &mut P, bytes: u64) -> bool
    requires still { IsStill core.old }
    requires window { IsSeen (P.view port.old) core.old (eight bytes) }
    ensures made { result ≡ true → MakesStep
        (computer P.view core.old port.old) (computer P.view core.new port.new) }
    ensures none { result ≡ false
        → computer P.view core.new port.new ≡ computer P.view core.old port.old }
    ensures still { IsStill core.new }
    ensures clock { core.new.clock ≡ core.old.clock }
    ensures closed { first_part_done core.new.psl ≤ first_part_done core.old.psl }
    ensures since { (start : P) → P.since start port.old → P.since start port.new }
{
    match execute(core, port, Window { bytes, left: 8 }) {
        Some(()) => true,
        None => false,
    }
}

/// Makes at most so many steps, each at once, up to the first that can't be made so, and says how many it made. No interrupt may be asked
/// for, and the interval clock must be off.
pub fn run<P: Port>(core: &mut Core, port: &mut P, most: u64) -> u64
    requires still { IsStill core.old }
    ensures ran { MakesSteps result
        (computer P.view core.old port.old) (computer P.view core.new port.new) }
    ensures few { result ≤ most }
    ensures still { IsStill core.new }
    ensures clock { core.new.clock ≡ core.old.clock }
    ensures closed { first_part_done core.new.psl ≤ first_part_done core.old.psl }
    ensures since { (start : P) → P.since start port.old → P.since start port.new }
{
    let mut steps = 0;
    let mut code = Code::none(port);
    while steps < most {
        let Some(bytes) = look_at_pc(core, port, &mut code) else {
            return steps;
        };
        if !step(core, port, bytes) {
            return steps;
        }
        steps += 1;
    }
    steps
}
