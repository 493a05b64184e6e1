//! Tests of traced runs.
#![tactic(auto)]

#[cfg(test)]
mod calls;
#[cfg(test)]
mod traced;
