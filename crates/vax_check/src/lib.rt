//! What keeps a program from being built, as text: all faults of its sources, what the linker finds with the files and lines that it concerns, or the
//! fault of an image's file; and remarks on the sources.
#![tactic(auto)]

mod errors;
mod image;
mod laws;
mod refusal;
mod remarks;
mod sources;
mod text;

pub use laws::errors_begin_with_the_refusal;
pub use text::{Files, text_of};
