//! The pager: the guest's memory in frames, with a page file.
#![tactic(auto)]

mod access;
mod answers;
mod calls;
mod counts;
mod marks;
mod pager;
mod poke;
mod port;
mod store;

pub use crate::calls::PageFault;
pub use crate::pager::{Counts, Pager};
