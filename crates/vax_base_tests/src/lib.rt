//! Tests of words, memory, the instruction set, string parts and what lies outside.
#![tactic(auto)]

#[cfg(test)]
mod arithmetic;
#[cfg(test)]
mod errors;
#[cfg(test)]
mod host;
#[cfg(test)]
mod isa;
#[cfg(test)]
mod memory;
#[cfg(test)]
mod space;
#[cfg(test)]
mod strpart;
#[cfg(test)]
mod text;
#[cfg(test)]
mod word;
