//! Tests of the dialects of the assembler's language.
#![tactic(auto)]

#[cfg(test)]
mod macros;
#[cfg(test)]
mod rows;
#[cfg(test)]
mod sections;
#[cfg(test)]
mod sources;
