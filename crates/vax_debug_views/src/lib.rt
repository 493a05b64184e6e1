//! What a debugger shows: registers, memory, instructions, frames of calls, the stack, queues and pages.
//!
//! Each call replies on Report, and leaves the machine where it is; pages may come in (specs/Showing). What it replies is told of the flat machine alone
//! (specs/Views). An expression without a value has the reply `?NO SUCH NAME OR ADDRESS`. Nothing here takes memory.
#![tactic(auto)]

mod contents;
mod frames;
mod instructions;
mod memory;
mod pages;
mod queues;
mod registers;
mod replying;
mod values;
mod watches;

pub use crate::frames::show_frames;
pub use crate::instructions::{disassemble, disassemble_here};
pub use crate::memory::{show_memory, show_stack};
pub use crate::pages::show_pages;
pub use crate::queues::show_queue;
pub use crate::registers::{show_field, show_register, show_status};
pub use crate::replying::{reply, reply_nowhere, show_breaks, show_help, show_refusal};
pub use crate::watches::show_watches;
