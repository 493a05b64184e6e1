//! Tests of whole commands.
#![tactic(auto)]

#[cfg(test)]
mod large;
#[cfg(test)]
mod top;
