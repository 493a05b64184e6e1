//! Definitions that wait for others, and the first that comes back to itself (VAX MACRO and Instruction Set Reference
//! Manual, "Direct assignment statement").
//!
//! A direct assignment may name what is defined later, so its definition waits for those of its names. [`first_circle`]
//! tells of all of them, in the order in which they are written, the first that waits for itself at last.
#![tactic(auto)]

mod circles;
mod growing;
mod heights;
mod places;
mod steps;
mod walk;

pub use circles::{comes_back, first_circle};
pub use growing::Steps;
pub use steps::Step;
