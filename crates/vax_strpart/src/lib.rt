//! What the parts of string instructions share: kernels on byte slices, and the registers that tell how far an instruction
//! has come.
//!
//! No kernel takes memory. The searches test 32 bytes at a time, and translation is a plain loop.
#![tactic(auto)]

mod kernels;
mod lanes;
mod marks;
mod packing;

pub use kernels::{compare, locate, scan, skip, span, translate, translate_until};
pub use packing::{Layout, Progress, pack, unpack};
