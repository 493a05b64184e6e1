//! The script of a console: its lines, and what each asks for.
//!
//! A line is `EXAMINE Rn`, `EXAMINE A N`, `DEPOSIT Rn V`, `DEPOSIT A BYTES`, `NEXT N`, `CONTINUE` or `SHOW`. Nothing here takes memory.
#![tactic(auto)]

mod numbers;
mod read;
mod request;

pub use read::read_line;
pub use request::{Deposit, Line, Request};
