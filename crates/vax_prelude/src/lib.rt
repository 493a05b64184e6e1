//! Preludes: files that stand before each source of a program, for macros that several files share.
//!
//! What is assembled for a source is the text of the preludes in their order and then its own ([`joined`]). A line of that text is told as the line of the
//! prelude or of the source that it is from ([`told_at`]).
#![tactic(auto)]

mod joining;
mod laws;
mod place;
mod types;

pub use joining::{joined, preludes_of};
pub use laws::lines_are_those_of_their_files;
pub use place::{Place, told_at, told_in};
pub use types::{Prelude, Title};
