//! Operands over any port: a specifier at PC is read, its side effects are done, and its operand is given
//! (VAX Architecture Reference Manual, operand specifiers).
//!
//! Each call follows its definition in `vax_flat`, a tree of accesses: it reads, checks and writes what the tree does in the same order,
//! and is cut short exactly where the tree is.
#![tactic(auto)]

mod access;
mod memory;
mod results;
mod specifier;
mod worker;

pub use crate::access::{
    displacement_width, next_address, next_modified, next_place, next_target, next_value, store,
    width_of,
};
pub use crate::memory::{check, fetch, is_allowed, read, read_in, write, write_in};
pub use crate::results::{answer, push, set_codes, settle};
pub use crate::specifier::next;
pub use crate::worker::Worker;
pub use vax_flat::{Cut, Flow, Operand, decode, extend, is_no_base, is_reserved, reaches_pc};
pub use vax_undo::CutShort;
