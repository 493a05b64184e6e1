//! Tests of test vectors. The expected values are worked by hand from the manual's descriptions of the instructions.
#![tactic(auto)]

#[cfg(test)]
mod choices;
#[cfg(test)]
mod made;
#[cfg(test)]
mod steps;
