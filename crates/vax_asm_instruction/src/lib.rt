//! The statements of instructions (VAX MACRO and Instruction Set Reference Manual, "Addressing modes").
//!
//! [`instruction`] reads the operands between commas, and leaves in the current section the opcode and a field for each
//! operand, to be filled in once all names have values. The bytes are then read back as the instruction. [`reference`] leaves
//! an operand without the name of an instruction, and [`operand_type_here`] tells how one is addressed.
#![tactic(auto)]

mod placing;
mod references;
mod statement;
mod types;

pub use references::reference;
pub use statement::instruction;
pub use types::operand_type_here;
