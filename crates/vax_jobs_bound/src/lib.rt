//! The bound of several processes: how many turns they take.
#![tactic(auto)]

mod laws;

pub use laws::{turns_are_few, turns_are_spent, turns_run_out};
