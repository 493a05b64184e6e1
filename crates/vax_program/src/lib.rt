//! From the files of a program to its image.
//!
//! A program is an image or an executable that stands alone in its file, or one to eight sources, each of which is assembled and which are
//! then linked.
//! [`read_parts`] finds which, or the first fault of a source or of an image's file; [`link_parts`] gives the image, or what the linker found, which
//! [`link_refusal`] tells.
#![tactic(auto)]

mod linking;
mod parts;
mod types;

pub use linking::{link_parts, link_refusal};
pub use parts::{is_linked, read_parts};
pub use types::{Parts, ProgramError, Refusal};
