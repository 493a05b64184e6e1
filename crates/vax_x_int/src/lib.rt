//! Moves, conversions, arithmetic, logic, shifts and address instructions, over any port
//! (VAX MACRO and Instruction Set Reference Manual, integer arithmetic and logical instructions; address instructions).
//!
//! Each shape of instruction is one function, which follows the shape's definition in `vax_flat`.
#![tactic(auto)]

mod results;
pub mod shapes;

ghost use Rattle.std.specs.Prelude.{◌≤◌};
ghost use Rattle.vax_flat.specs.Integer.{performed};
ghost use Rattle.vax_undo.specs.Rooms.{room_of_integer};
ghost use Rattle.vax_undo.specs.Transaction.{room, Keeps, Does};
ghost use Rattle.vax_operand.specs.Located.{GoesEverywhere};

pub use crate::results::{answer_of, is_by_zero, of_one, of_two, rotated};
use vax_flat::Flow;
use vax_isa::Integer;
use vax_undo::{CutShort, Port, Txn};

/// The instruction by its shape.
#[inline(always)]
#[tactic(auto, using(vax_operand::proofs::Working::does, vax_operand::proofs::Working::keeps))]
fn perform<P: Port>(txn: &mut Txn<P>, instruction: Integer) -> Result<Flow, CutShort>
    requires { 27 ≤ room txn.old }
    ensures exact { Does P.view P.trail (performed instruction) result txn.old txn.new }
    ensures keeps { Keeps P.view P.since 27 txn.old txn.new }
{
    shapes::perform_commonest(txn, instruction)
}

/// Makes the instruction whose opcode PC is past: reads its operands, writes its results and sets the codes.
///
/// The cut is the first exception of its operands and results, or the first page that it needs and that is absent. A trap is answered where
/// the instruction was completed with a divisor of 0 (type 2), with a subscript out of range (type 7), or with an integer overflow while
/// the processor status word enables that trap (type 1).
#[inline(always)]
pub fn run<P: Port>(txn: &mut Txn<P>, instruction: Integer) -> Result<Flow, CutShort>
    requires { room_of_integer ≤ room txn.old }
    ensures exact { Does P.view P.trail (performed instruction) result txn.old txn.new }
    ensures everywhere { GoesEverywhere P.view (performed instruction) result txn.old txn.new }
    ensures keeps { Keeps P.view P.since room_of_integer txn.old txn.new }
{
    perform(txn, instruction)
}
