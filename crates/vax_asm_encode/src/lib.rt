//! The bytes of operands and data: what an operand of assembly language is in memory, and what a value gives the field
//! that is kept for it (VAX Architecture Reference Manual, operand specifier addressing mode formats).
//!
//! An [`Operand`] is one without its value and a [`DataKind`] an item of data without its value, a [`Field`] is what holds the
//! value, and [`fill`] finds what it holds.
#![tactic(auto)]

mod bytes;
mod filling;
mod operand;

pub use bytes::{write_number, write_operand};
pub use filling::{FieldFault, Filled, fill};
pub use operand::{Base, DataKind, Field, Operand, field_of, may_stand};
