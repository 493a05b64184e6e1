//! A machine: a processor over a pager, with a page file. Its events are attempts, services, evictions and flushes, in whatever order.
#![tactic(auto)]

mod at_once;
mod console;
mod engine;
mod event;
mod held;
mod laws;
mod machine;
mod run;

pub use crate::event::{Applied, Event, Limits, RunEnd};
pub use crate::held::Held;
pub use crate::laws::{
    events_follow_the_run, output_comes_soon, parts_end_soon, pinned_pages_stay, turns_are_few,
    turns_follow_the_run, turns_go_on, writes_suffice,
};
pub use crate::machine::Machine;
