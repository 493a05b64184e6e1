//! The instruction at PC, by the action that the table gives its opcode, and the later parts of a string instruction.
ghost use Rattle.std.specs.Prelude.{◌≡◌, ◌≤◌};
ghost use Rattle.vax_flat.specs.Instruction.{acted_part, acted_part_if, first_part};
ghost use Rattle.vax_flat.specs.StringParts.{resumed};
ghost use Rattle.vax_undo.specs.Rooms.{room_of_beginning, room_of_instruction};
ghost use Rattle.vax_undo.specs.Transaction.{room, IsSame, KeepsUnlessDone, Does};
ghost use Rattle.vax_cpu.specs.Tried.{came, is_done};
ghost use Rattle.vax_x_str.specs.Ends.{ClosesIfDone};

use vax_flat::Exception;
use vax_isa::{Action, action};
use vax_operand::{Cut, Flow, fetch};
use vax_quick::{calls, fields, flow, integers};
use vax_undo::{CutShort, Port, Txn};
use vax_x_str::Scratch;

/// Whether work was completed. How else it went is left in `other`: a result of several pieces would go through memory at each step.
#[inline(always)]
pub(crate) fn noted(work: Result<Flow, CutShort>, other: &mut Result<Flow, CutShort>) -> bool
    ensures came { came result other.new ≡ work }
    ensures done { result ≡ is_done work }
{
    match work {
        Ok(Flow::Done) => true,
        _ => {
            *other = work;
            false
        }
    }
}

/// What an instruction does whose opcode PC is past; of a string instruction its first part. It answers as [`noted`].
#[inline(never)]
#[tactic(auto, using(vax_undo::proofs::Left::always, crate::proofs::Attempts::same_of), unfolding(vax_flat::specs::Instruction::acted_part))]
fn act_any<P: Port>(
    txn: &mut Txn<P>,
    action: Action,
    other: &mut Result<Flow, CutShort>,
    scratch: &mut Scratch,
) -> bool
    requires { room_of_instruction ≤ room txn.old }
    ensures exact { Does P.view P.trail (acted_part action)
        (came result other.new) txn.old txn.new }
    ensures keeps { KeepsUnlessDone P.view P.since room_of_instruction
        (came result other.new) txn.old txn.new }
    ensures same { IsSame P.since txn.old txn.new }
{
    match action {
        Action::Integer(instruction) => noted(integers::run(txn, instruction), other),
        Action::Control(instruction) => noted(flow::run(txn, instruction), other),
        Action::System(instruction) => noted(vax_x_sys::run(txn, instruction), other),
        Action::Call(instruction) => noted(calls::run(txn, instruction), other),
        Action::Queue(instruction) => noted(vax_x_queue::run(txn, instruction), other),
        Action::Field(instruction) => noted(fields::run(txn, instruction), other),
        Action::Text(text) => noted(vax_x_str::start(txn, text, scratch), other),
    }
}

/// The same. The two commonest sorts stand in the loop over instructions; the others are one call.
#[inline(always)]
#[tactic(auto, using(vax_undo::proofs::Left::always, crate::proofs::Attempts::same_of), unfolding(vax_flat::specs::Instruction::acted_part))]
fn act<P: Port>(
    txn: &mut Txn<P>,
    action: Action,
    other: &mut Result<Flow, CutShort>,
    scratch: &mut Scratch,
) -> bool
    requires { room_of_instruction ≤ room txn.old }
    ensures exact { Does P.view P.trail (acted_part action)
        (came result other.new) txn.old txn.new }
    ensures keeps { KeepsUnlessDone P.view P.since room_of_instruction
        (came result other.new) txn.old txn.new }
    ensures same { IsSame P.since txn.old txn.new }
{
    match action {
        Action::Integer(instruction) => noted(integers::run(txn, instruction), other),
        Action::Control(instruction) => noted(flow::run(txn, instruction), other),
        _ => act_any(txn, action, other, scratch),
    }
}

/// What an opcode does; one that the table hasn't is reserved.
#[inline(always)]
#[tactic(auto, using(vax_undo::proofs::Trail::over_trail_raises, vax_undo::proofs::Left::always), unfolding(vax_flat::specs::Instruction::acted_part_if))]
fn act_if<P: Port>(
    txn: &mut Txn<P>,
    action: Option<Action>,
    other: &mut Result<Flow, CutShort>,
    scratch: &mut Scratch,
) -> bool
    requires { room_of_instruction ≤ room txn.old }
    ensures exact { Does P.view P.trail (acted_part_if action)
        (came result other.new) txn.old txn.new }
    ensures keeps { KeepsUnlessDone P.view P.since room_of_instruction
        (came result other.new) txn.old txn.new }
    ensures same { IsSame P.since txn.old txn.new }
{
    match action {
        Some(action) => act(txn, action, other, scratch),
        None => noted(Err(txn.cut(Cut::Event(Exception::Privileged))), other),
    }
}

/// The instruction at PC; of a string instruction its first part.
#[inline(always)]
#[tactic(auto, using(vax_undo::proofs::Left::behind), unfolding(vax_flat::specs::Instruction::first_part))]
pub fn execute<P: Port>(
    txn: &mut Txn<P>,
    other: &mut Result<Flow, CutShort>,
    scratch: &mut Scratch,
) -> bool
    requires { room_of_beginning ≤ room txn.old }
    ensures exact { Does P.view P.trail first_part (came result other.new) txn.old txn.new }
    ensures keeps { KeepsUnlessDone P.view P.since room_of_beginning
        (came result other.new) txn.old txn.new }
    ensures same { IsSame P.since txn.old txn.new }
{
    match fetch(txn, 1) {
        Ok(opcode) => act_if(txn, action(opcode as u8), other, scratch),
        Err(short) => noted(Err(short), other),
    }
}

/// A later part of the string instruction with this opcode.
#[inline]
#[tactic(auto, using(vax_x_str::proofs::Left::with_more, crate::proofs::Attempts::same_of))]
pub(crate) fn resume<P: Port>(
    txn: &mut Txn<P>,
    opcode: u8,
    scratch: &mut Scratch,
) -> Result<Flow, CutShort>
    requires { room_of_beginning ≤ room txn.old }
    ensures exact { Does P.view P.trail (resumed opcode) result txn.old txn.new }
    ensures keeps { KeepsUnlessDone P.view P.since room_of_beginning result txn.old txn.new }
    ensures same { IsSame P.since txn.old txn.new }
    ensures closed { ClosesIfDone result txn.new.core.now.psl }
{
    vax_x_str::resume(txn, opcode, scratch)
}
