//! The laws of several processes: each is its own flat machine's run.
#![tactic(auto)]

mod laws;
mod sent;

pub use laws::{processes_end_whole, processes_reach_their_runs};
pub use sent::{processes_end_as_alone, processes_send_their_outputs, runs_end_alike};
