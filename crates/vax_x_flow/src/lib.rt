//! Branches, jumps, loops and calls of subroutines, over any port (VAX MACRO and Instruction Set Reference Manual, control instructions).
//!
//! Each shape of instruction is one function, which follows the shape's definition in `vax_flat`.
#![tactic(auto)]

mod conditions;
pub mod shapes;

ghost use Rattle.std.specs.Prelude.{◌≤◌};
ghost use Rattle.vax_flat.specs.Control.{performed};
ghost use Rattle.vax_undo.specs.Rooms.{room_of_transfer};
ghost use Rattle.vax_undo.specs.Transaction.{room, Keeps, Does};
ghost use Rattle.vax_operand.specs.Located.{GoesEverywhere};

pub use crate::conditions::{compares, holds};
use vax_flat::Flow;
use vax_isa::Control;
use vax_undo::{CutShort, Port, Txn};

/// The instruction by its shape.
#[inline(always)]
#[tactic(auto, using(vax_operand::proofs::Working::does, vax_operand::proofs::Working::keeps))]
fn perform<P: Port>(txn: &mut Txn<P>, instruction: Control) -> Result<Flow, CutShort>
    requires { 20 ≤ room txn.old }
    ensures exact { Does P.view P.trail (performed instruction) result txn.old txn.new }
    ensures keeps { Keeps P.view P.since 20 txn.old txn.new }
{
    shapes::perform_commonest(txn, instruction)
}

/// Makes the instruction whose opcode PC is past: reads its operands, and lets control go on where it says.
///
/// The cut is the first exception of its operands, its stack or its table, or the first page that it needs and that is absent. A trap is
/// answered where the index of a loop overflowed (type 1) while the processor status word enables that trap; control then goes on
/// where the instruction says.
#[inline(always)]
pub fn run<P: Port>(txn: &mut Txn<P>, instruction: Control) -> Result<Flow, CutShort>
    requires { room_of_transfer ≤ room txn.old }
    ensures exact { Does P.view P.trail (performed instruction) result txn.old txn.new }
    ensures everywhere { GoesEverywhere P.view (performed instruction) result txn.old txn.new }
    ensures keeps { Keeps P.view P.since room_of_transfer txn.old txn.new }
{
    perform(txn, instruction)
}
