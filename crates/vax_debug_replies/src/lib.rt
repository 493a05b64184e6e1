//! What a debugger replies: the texts of addresses, values, instructions, registers and stops.
//!
//! An address is eight hexadecimal digits, and behind them the nearest symbol at or below it, with the distance from there where there is one. Lines are built
//! in a text of fixed size, so nothing here takes memory. specs/ has the texts.
#![tactic(auto)]

mod frames;
mod help;
mod instructions;
mod pages;
mod places;
mod sources;
mod status;
mod stops;
mod values;
mod watches;

pub use crate::frames::{Frame, SavedRegister, push_arguments_line, push_frame, push_saved_line};
pub use crate::help::{write_breaks, write_help, write_refusal};
pub use crate::instructions::{push_instruction_line, push_listed_instruction, span_of};
pub use crate::pages::{PageState, push_frames_line, push_missed_line, push_page_line};
pub use crate::places::push_place;
pub use crate::sources::push_source_line;
pub use crate::status::{push_field_line, push_status_line};
pub use crate::stops::{push_break_line, push_here, push_reason};
pub use crate::values::{push_ascii_line, push_value_line};
pub use crate::watches::{push_watch_line, write_change};
