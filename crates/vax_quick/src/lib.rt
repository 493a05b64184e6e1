//! Common instructions, each made at once on the registers from the bytes that were seen of it, with no log.
//!
//! An instruction here writes to memory last of all that can fail: once, or a frame within one page. One that can't be made so, or that
//! would trap, is left to a transaction, with everything as it was.
#![tactic(auto)]

mod access;
mod addresses;
mod arms;
mod bases;
mod branches;
mod call;
mod code;
mod control;
mod fast;
mod field;
mod integer;
mod memory;
mod near;
mod results;
mod specifier;
mod stack;
mod step;
mod window;

pub use crate::step::{is_still, run};
pub use vax_x_call as calls;
pub use vax_x_field as fields;
pub use vax_x_flow as flow;
pub use vax_x_int as integers;
