//! Tests of the machine, and the texts of errors.
#![tactic(auto)]

#[cfg(test)]
mod errors;
#[cfg(test)]
mod machine;
