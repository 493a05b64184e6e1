//! Traced runs: each step is listed on Record, and a run stops before steps at given addresses and tells which watched bytes a step changed.
//!
//! The turns are those of `Machine::run`, made by the same code. A step is listed once, when it is completed, so the listing is the same
//! whatever pages were absent and how often the step was tried.
#![tactic(auto)]

mod beginning;
mod filling;
mod laws;
mod lines;
mod plan;
mod steps;
mod watch;

pub use crate::laws::breaks_are_least;
pub use crate::plan::PlanError;
pub use crate::steps::{TraceEnd, traced};
pub use crate::watch::{Plan, Watch};
