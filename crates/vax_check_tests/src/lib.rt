//! Tests of the errors and the remarks that are told of sources, and of what the linker finds.
#![tactic(auto)]

#[cfg(test)]
mod causes;
#[cfg(test)]
mod errors;
#[cfg(test)]
mod links;
#[cfg(test)]
mod remarks;
