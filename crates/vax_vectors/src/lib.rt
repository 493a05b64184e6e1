//! Test vectors of single steps for other emulators (VAX Architecture Reference Manual, instruction execution): what a
//! step begins with, what it leaves, which bytes it reads and writes in order, and the JSON text of that.
#![tactic(auto)]

mod choices;
mod pages;
mod text;
mod vector;

pub use choices::{byte_told, opcode_of, rests_on_choice};
pub use pages::{lies_in, within};
pub use text::push_vector;
pub use vector::{Cell, End, Ends, Page, Start, Touch, Vector};
