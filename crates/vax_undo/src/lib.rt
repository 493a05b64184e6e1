//! Work on the registers, the console and the memory of a processor that can be undone: what the restart of an instruction stands on.
//!
//! A [`Port`] is memory in which pages may be absent. A [`Txn`] does an instruction's work over a port and logs the old value of all that
//! it changes, so that [`Txn::unwind`] leaves everything as it was.
#![tactic(auto)]

mod block;
mod entry;
mod log;
mod plain;
mod port;
mod term;
mod txn;

pub use crate::block::{number_of, number_of_parts, put_number};
pub use crate::log::Log;
pub use crate::plain::Plain;
pub use crate::port::Port;
pub use crate::term::Term;
pub use crate::txn::{CutShort, Txn};
pub use vax_flat::{Cut, Stop};
