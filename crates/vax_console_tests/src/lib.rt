//! Tests of sessions and of what stands beside the machine: schedules, scripts and reports.
#![tactic(auto)]

#[cfg(test)]
mod console;
#[cfg(test)]
mod report;
#[cfg(test)]
mod sched;
#[cfg(test)]
mod script;
