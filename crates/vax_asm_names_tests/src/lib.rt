//! Tests of the assembler's names: their values, what they depend on, labels and sections.
#![tactic(auto)]

#[cfg(test)]
mod circles;
#[cfg(test)]
mod labels;
#[cfg(test)]
mod names;
#[cfg(test)]
mod scope;
#[cfg(test)]
mod sections;
#[cfg(test)]
mod values;
