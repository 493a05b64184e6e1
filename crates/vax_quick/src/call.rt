//! Procedure calls whose frame lies within one page: one function for each instruction, which follows its definition in `vax_flat`.
ghost use Rattle.std.specs.Prelude.{◌≡◌, true};
ghost use Rattle.vax_flat.specs.Call as call;
ghost use Rattle.vax_flat.specs.State.{register};
ghost use Rattle.vax_quick.specs.Made.{Becomes, IsSeen, Leaves, Makes, computer};
ghost use Rattle.vax_quick.specs.Frames.{Finds};

use crate::access::next_value;
use crate::addresses::next_address;
use crate::memory::read;
use crate::stack::{push_below, push_frame, restore_frame};
use crate::window::Window;
use vax_isa::Call;
use vax_undo::Port;
use vax_word::{Core, Size};
use vax_x_call::{entry_status, frame_word, is_status, return_status};

/// How a procedure is entered: where it is, its entry mask, the address of its arguments, and that of its frame.
#[derive(Clone, Copy)]
struct Entry {
    procedure: u32,
    mask: u32,
    arguments: u32,
    frame: u32,
}

/// Lets control go on at a procedure, behind its entry mask.
#[inline(always)]
#[tactic(auto, using(vax_x_call::proofs::Closed::entry_closed), unfolding(vax_flat::specs::Call::at_procedure))]
fn go_to<P: Port>(core: &mut Core, port: &P, entry: Entry)
    ensures exact { Becomes
        (call.at_procedure entry.procedure entry.mask entry.arguments entry.frame)
        core.old core.new }
    ensures leaves { Leaves P.since core.old port.now core.new port.now }
{
    let _ = port;
    core.psl = entry_status(entry.mask, core.psl);
    core.regs[12] = entry.arguments;
    core.regs[13] = entry.frame;
    core.regs[14] = entry.frame;
    core.regs[15] = entry.procedure.wrapping_add(2);
}

/// Reads a procedure's entry mask. One that is reserved is left out.
#[inline(always)]
#[tactic(auto, unfolding(vax_flat::specs::Call::entry_mask))]
fn entry_mask<P: Port>(core: &Core, port: &mut P, procedure: u32) -> Option<u32>
    ensures exact { Finds (call.entry_mask procedure) result
        (computer P.view core.now port.old) (computer P.view core.now port.new) }
    ensures same { P.view port.new ≡ P.view port.old }
    ensures since { (start : P) → P.since start port.old → P.since start port.new }
{
    let mask = read(core, port, procedure, 2)?;
    if mask / 0x1000 % 4 != 0 {
        return None;
    }
    Some(mask as u32)
}

/// Pushes the number of arguments and a frame, and enters the procedure, where all that lies within one page.
#[inline(always)]
#[tactic(auto, using(crate::proofs::Frames::room_aligned), unfolding(vax_flat::specs::Call::entered))]
fn enter<P: Port>(
    core: &mut Core,
    port: &mut P,
    procedure: u32,
    mask: u32,
    count: u32,
) -> Option<()>
    ensures exact { Makes (λ s next. call.pushed_one count (register s 14) s (λ arguments s.
        call.entered procedure mask arguments arguments true s next)) result
        (computer P.view core.old port.old) (computer P.view core.new port.new) }
    ensures leaves { Leaves P.since core.old port.old core.new port.new }
{
    let top = core.regs[14];
    if top.wrapping_sub(4) % 512 < 72 {
        return None;
    }
    let arguments = push_below(core, port, count, top)?;
    let word = frame_word(arguments % 4, true, mask, core.psl);
    let frame = push_frame(core, port, mask, word, arguments / 4 * 4);
    let entry = Entry {
        procedure,
        mask,
        arguments,
        frame,
    };
    go_to(core, port, entry);
    Some(())
}

/// CALLS.
#[inline(always)]
#[tactic(auto, unfolding(vax_flat::specs::Call::call_with_stack, vax_flat::specs::Call::called_with_stack))]
pub(crate) fn call_with_stack<P: Port>(core: &mut Core, port: &mut P, window: Window) -> Option<()>
    requires window { IsSeen (P.view port.old) core.old window }
    ensures exact { Makes call.call_with_stack result
        (computer P.view core.old port.old) (computer P.view core.new port.new) }
    ensures leaves { Leaves P.since core.old port.old core.new port.new }
{
    let (count, window) = next_value(core, port, window, Size::L)?;
    let (procedure, _) = next_address(core, port, window, Size::B)?;
    let mask = entry_mask(core, port, procedure)?;
    enter(core, port, procedure, mask, count as u32)
}

/// The address behind the arguments on the stack.
#[inline(always)]
#[tactic(auto, unfolding(vax_flat::specs::Call::behind_arguments))]
fn behind_arguments<P: Port>(core: &Core, port: &mut P, on_stack: bool, top: u32) -> Option<u32>
    ensures exact { Finds (call.behind_arguments on_stack top) result
        (computer P.view core.now port.old) (computer P.view core.now port.new) }
    ensures same { P.view port.new ≡ P.view port.old }
    ensures since { (start : P) → P.since start port.old → P.since start port.new }
{
    if !on_stack {
        return Some(top);
    }
    let count = read(core, port, top, 4)?;
    Some(top.wrapping_add(4 + 4 * (count as u32 % 0x100)))
}

/// Pops a frame whose longword was read, and the arguments behind it.
#[inline(always)]
#[tactic(auto, using(vax_x_call::proofs::Closed::return_closed), unfolding(vax_flat::specs::Call::unwound))]
fn unwind<P: Port>(core: &mut Core, port: &mut P, word: u32) -> Option<()>
    ensures exact { Makes (call.unwound word) result
        (computer P.view core.old port.old) (computer P.view core.new port.new) }
    ensures leaves { Leaves P.since core.old port.old core.new port.new }
{
    let from = core.regs[13].wrapping_add(8);
    let behind = restore_frame(core, port, word / 0x1_0000 % 0x1000, from)?;
    let on_stack = word / 0x2000_0000 % 2 == 1;
    let behind = behind.wrapping_add(word / 0x4000_0000);
    let top = behind_arguments(core, port, on_stack, behind)?;
    let status = return_status(word, core.psl);
    core.regs[14] = top;
    core.psl = status;
    Some(())
}

/// RET.
#[inline(always)]
#[tactic(auto, unfolding(vax_flat::specs::Call::return_from))]
pub(crate) fn return_from<P: Port>(core: &mut Core, port: &mut P) -> Option<()>
    ensures exact { Makes call.return_from result
        (computer P.view core.old port.old) (computer P.view core.new port.new) }
    ensures leaves { Leaves P.since core.old port.old core.new port.new }
{
    let at = core.regs[13].wrapping_add(4);
    let word = read(core, port, at, 4)? as u32;
    if !is_status(word) {
        return None;
    }
    unwind(core, port, word)
}

/// The instruction by its name. CALLG, PUSHR and POPR are left out.
#[inline(never)]
#[tactic(auto, unfolding(vax_flat::specs::Call::performed))]
pub(crate) fn perform<P: Port>(
    core: &mut Core,
    port: &mut P,
    window: Window,
    instruction: Call,
) -> Option<()>
    requires window { IsSeen (P.view port.old) core.old window }
    ensures exact { Makes (call.performed instruction) result
        (computer P.view core.old port.old) (computer P.view core.new port.new) }
    ensures leaves { Leaves P.since core.old port.old core.new port.new }
{
    match instruction {
        Call::WithList => None,
        Call::WithStack => call_with_stack(core, port, window),
        Call::Return => return_from(core, port),
        Call::PushRegisters => None,
        Call::PopRegisters => None,
    }
}
