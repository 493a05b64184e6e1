//! Instructions on variable-length bit fields, over any port (VAX MACRO and Instruction Set Reference Manual, variable-length bit field
//! instructions; branch on bit).
//!
//! Each shape of instruction is one function, which follows its definition in `vax_flat`. There a field is a list of bits; here it is a number
//! that is masked and shifted.
#![tactic(auto)]

mod bits;
mod fields;
mod shapes;

ghost use Rattle.std.specs.Prelude.{◌≤◌};
ghost use Rattle.vax_flat.specs.Field.{performed};
ghost use Rattle.vax_undo.specs.Rooms.{room_of_field};
ghost use Rattle.vax_undo.specs.Transaction.{room, Keeps, Does};
ghost use Rattle.vax_operand.specs.Located.{GoesEverywhere};

pub use crate::bits::{answer_of, before_first, part, widen, with_bit, with_part};
pub use crate::fields::{holder_of, is_reserved};
use vax_flat::Flow;
use vax_isa::Field;
use vax_undo::{CutShort, Port, Txn};

/// Makes the instruction whose opcode PC is past: reads its operands, then the bytes or registers that hold the field, writes what it changes
/// and sets the codes.
///
/// The cut is the first exception of its operands and accesses, a reserved operand where the field is larger than 32 bits or lies in
/// registers and begins behind bit 31 or reaches PC, or the first page that it needs and that is absent. No trap is answered.
pub fn run<P: Port>(txn: &mut Txn<P>, instruction: Field) -> Result<Flow, CutShort>
    requires { room_of_field ≤ room txn.old }
    ensures exact { Does P.view P.trail (performed instruction) result txn.old txn.new }
    ensures everywhere { GoesEverywhere P.view (performed instruction) result txn.old txn.new }
    ensures keeps { Keeps P.view P.since room_of_field txn.old txn.new }
{
    shapes::perform(txn, instruction)
}
