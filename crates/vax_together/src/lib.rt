//! Programs that run together: their processes are run in an order, and each is reported on.
#![tactic(auto)]

mod run;
mod start;

pub use run::run_and_report;
pub use start::make_jobs;
