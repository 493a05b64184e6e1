//! Tests of whole calls of `jobs`.
#![tactic(auto)]

#[cfg(test)]
mod calls;
#[cfg(test)]
mod orders;
#[cfg(test)]
mod refusals;
