//! Tests of statements and instructions: read, encoded, assembled, decoded and listed.
#![tactic(auto)]

#[cfg(test)]
mod disasm;
#[cfg(test)]
mod encode;
#[cfg(test)]
mod instruction;
#[cfg(test)]
mod listing;
#[cfg(test)]
mod module;
#[cfg(test)]
mod statement;
