//! Procedure calls, and registers saved on the stack, over any port (VAX MACRO and Instruction Set Reference Manual, procedure call
//! instructions; PUSHR, POPR).
//!
//! Each instruction is one function, which follows its definition in `vax_flat`. A call changes at most 31 things: 8 for its operands, 18
//! longwords that it pushes, and 5 registers and status.
#![tactic(auto)]

mod shapes;
mod stack;

ghost use Rattle.std.specs.Prelude.{◌≤◌};
ghost use Rattle.vax_flat.specs.Call.{performed};
ghost use Rattle.vax_undo.specs.Rooms.{room_of_call};
ghost use Rattle.vax_undo.specs.Transaction.{room, Keeps, Does};
ghost use Rattle.vax_operand.specs.Located.{GoesEverywhere};

pub use crate::shapes::{entry_status, frame_word, is_status, return_status};
pub use crate::stack::end_of_named;
use vax_flat::Flow;
use vax_isa::Call;
use vax_undo::{CutShort, Port, Txn};

/// Makes the instruction whose opcode PC is past.
///
/// The cut is the first exception of its operands and accesses, a reserved operand where bits 13:12 of an entry mask or bits 15:8 or 4
/// of a frame's status aren't 0, or the first page that it needs and that is absent.
pub fn run<P: Port>(txn: &mut Txn<P>, instruction: Call) -> Result<Flow, CutShort>
    requires { room_of_call ≤ room txn.old }
    ensures exact { Does P.view P.trail (performed instruction) result txn.old txn.new }
    ensures everywhere { GoesEverywhere P.view (performed instruction) result txn.old txn.new }
    ensures keeps { Keeps P.view P.since room_of_call txn.old txn.new }
{
    shapes::perform(txn, instruction)
}
