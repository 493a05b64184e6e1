//! Tests of orders and parts of a page file.
#![tactic(auto)]

#[cfg(test)]
mod orders;
#[cfg(test)]
mod processes;
#[cfg(test)]
mod windows;
