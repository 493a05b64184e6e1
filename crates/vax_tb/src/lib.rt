//! A translation buffer: what the page tables say of pages that were asked for lately
//! (VAX Architecture Reference Manual, memory management, translation buffer).
#![tactic(auto)]

mod buffer;

pub use crate::buffer::Buffer;
