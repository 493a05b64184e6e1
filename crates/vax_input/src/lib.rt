//! Lines that come one at a time, as from standard input.
//!
//! A line is given without the LF at its end, and a CR right before that is dropped; the last LF may be missing. Of a line of more than 1,025 bytes the
//! first 1,025 are given. Nothing here takes memory.
#![tactic(auto)]

mod host;
mod line;
mod mem;
mod traits;

pub use crate::host::HostLines;
pub use crate::line::Line;
pub use crate::mem::MemLines;
pub use crate::traits::Lines;
