//! Tests of the assembler's data and modules, and of its faults.
#![tactic(auto)]

#[cfg(test)]
mod asm;
#[cfg(test)]
mod check;
#[cfg(test)]
mod data;
#[cfg(test)]
mod errors;
#[cfg(test)]
mod first;
#[cfg(test)]
mod laws;
#[cfg(test)]
mod second;
