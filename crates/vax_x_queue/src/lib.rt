//! Queue instructions and the aligned sum, over any port (VAX MACRO and Instruction Set Reference Manual, queue instructions; ADAWI).
//!
//! Each instruction is one function, which follows its definition in `vax_flat`.
#![tactic(auto)]

mod shapes;

ghost use Rattle.std.specs.Prelude.{◌≤◌};
ghost use Rattle.vax_flat.specs.Queue.{performed};
ghost use Rattle.vax_undo.specs.Rooms.{room_of_queue};
ghost use Rattle.vax_undo.specs.Transaction.{room, Keeps, Does};
ghost use Rattle.vax_operand.specs.Located.{GoesEverywhere};

use vax_flat::Flow;
use vax_isa::Queue;
use vax_undo::{CutShort, Port, Txn};

/// Makes the instruction whose opcode PC is past: reads its operands, then what it reads of the queue, then writes, and sets the codes.
///
/// The cut is the first exception of its operands and accesses, a reserved operand where ADAWI's sum stands at an odd address, or the
/// first page that it needs and that is absent. A trap is answered where ADAWI's sum overflowed while the processor status word
/// enables that trap.
pub fn run<P: Port>(txn: &mut Txn<P>, instruction: Queue) -> Result<Flow, CutShort>
    requires { room_of_queue ≤ room txn.old }
    ensures exact { Does P.view P.trail (performed instruction) result txn.old txn.new }
    ensures everywhere { GoesEverywhere P.view (performed instruction) result txn.old txn.new }
    ensures keeps { Keeps P.view P.since room_of_queue txn.old txn.new }
{
    shapes::perform(txn, instruction)
}
