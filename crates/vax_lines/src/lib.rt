//! The lines of a text, their words, and the numbers that these write.
//!
//! A line ends with LF, and a CR right before that is dropped. Spaces separate words. Nothing here takes memory.
#![tactic(auto)]

mod lines;
mod numbers;
mod words;

pub use lines::next_line;
pub use numbers::{number, number_in};
pub use words::{is_trimmed, next_word};
