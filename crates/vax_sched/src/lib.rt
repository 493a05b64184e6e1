//! Eviction schedules: which pages are made absent before which attempt of a run.
//!
//! A schedule is a text of lines `at T PAGE`, `each N PAGE` and `each N all`. The turns of a run count from 1. `at` names one
//! turn, and `each` every turn that its number divides.
#![tactic(auto)]

mod due;
mod line;
mod print;
mod reader;
mod rule;
mod schedule;

pub use due::Targets;
pub use print::push_at;
pub use reader::{SchedError, read};
pub use rule::{Fixed, Repeated, Rule, Target};
pub use schedule::Schedule;
