//! Tests of what is shown of a machine and changed in it.
#![tactic(auto)]

#[cfg(test)]
mod deposits;
