//! The statements of MACRO-32: what a line's tokens say, before any name has a value (VAX MACRO and Instruction Set
//! Reference Manual, "VAX MACRO source statement format" and "Addressing modes").
//!
//! [`read_statement`] finds the label, the assignment or the operator of a line, [`parts`] its operands, [`operand`] the
//! addressing mode that one is written in, and [`memory_operand`] the operand in memory, once as much is known of its value as
//! stands before it.
#![tactic(auto)]

mod directives;
mod items;
mod modes;
mod operators;
mod reading;
mod registers;
mod sizes;
mod tokens;

pub use directives::{Attribute, Directive, Referring, attribute_named, directive_named};
pub use items::{Item, Piece, is_local, name_alone, pieces, read_item};
pub use modes::{Mode, Written, is_general, operand};
pub use operators::parts;
pub use reading::{Body, Label, Statement, read_statement};
pub use registers::register_named;
pub use sizes::memory_operand;
pub use tokens::text_of;
