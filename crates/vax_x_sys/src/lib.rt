//! Access modes, exceptions and interrupts, and the registers of the processor, over any port
//! (VAX Architecture Reference Manual, exceptions and interrupts; VAX MACRO and Instruction Set Reference Manual, system instructions).
//!
//! Each shape of instruction is one function, which follows the shape's definition in `vax_flat`. So do [`deliver`] and [`interrupt`].
#![tactic(auto)]

mod delivery;
mod frames;
mod probes;
mod registers;
mod shapes;
mod stacks;

ghost use Rattle.std.specs.Prelude.{◌≤◌};
ghost use Rattle.vax_flat.specs.System.{performed};
ghost use Rattle.vax_undo.specs.Rooms.{room_of_transfer};
ghost use Rattle.vax_undo.specs.Transaction.{room, Keeps, Does};
ghost use Rattle.vax_operand.specs.Located.{GoesEverywhere};

pub use crate::delivery::{deliver, interrupt};
pub use crate::shapes::flow_of;
use vax_flat::Flow;
use vax_isa::System;
use vax_undo::{CutShort, Port, Txn};

/// Makes the instruction whose opcode PC is past. One for kernel mode alone is privileged in another mode, before any operand is read.
///
/// The cut is the first exception of its operands or of its work, or the first page that it needs and that is absent. [`Flow::Clocked`] comes
/// exactly where the interval clock was set.
pub fn run<P: Port>(txn: &mut Txn<P>, instruction: System) -> Result<Flow, CutShort>
    requires { room_of_transfer ≤ room txn.old }
    ensures exact { Does P.view P.trail (performed instruction) result txn.old txn.new }
    ensures everywhere { GoesEverywhere P.view (performed instruction) result txn.old txn.new }
    ensures keeps { Keeps P.view P.since room_of_transfer txn.old txn.new }
{
    shapes::perform(txn, instruction)
}
