//! The reports on several processes, each behind a line with its number.
#![tactic(auto)]

mod laws;
mod report;

pub use laws::reports_are_of_flat_machines;
pub use report::report_jobs;
