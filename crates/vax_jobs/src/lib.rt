//! Several processes on one pool of resident pages.
//!
//! Each process is a machine of its own. They share a bound on the pages that are resident together, and a page file of which each has a part.
#![tactic(auto)]

mod ends;
mod job;
mod jobs;
mod laws;
mod pool;
mod position;
mod run;
mod sending;
mod several;
mod turn;

pub use ends::JobsEnd;
pub use job::{Job, JobsError};
pub use jobs::Jobs;
pub use laws::{processes_begin, processes_follow_their_runs};
pub use pool::Pair;
pub use position::Position;
pub use turn::{Turn, Turned};
