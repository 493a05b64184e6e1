//! The words of a debugger: its lines, and what each asks for.
//!
//! A line has at most 1,024 bytes: the word of a command, perhaps with a form behind a slash, and operands, separated by spaces. Letter case is
//! ignored, and the words of commands and forms may be shortened as long as one alone begins so. A line that isn't understood tells which commands
//! it may have meant ([`Refusal`]). Nothing here takes memory.
#![tactic(auto)]

mod command;
mod expression;
mod operands;
mod read;
mod request;

pub use crate::command::{COMMANDS, Command, Form, usage};
pub use crate::expression::{is_hexadecimal, longword};
pub use crate::read::{is_meant, read_line};
pub use crate::request::{
    Base, Characters, Expression, Field, Line, Name, Refusal, Request, Size, Span, Value,
};
