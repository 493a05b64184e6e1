//! The statements that define names, choose sections and say where a program begins (VAX MACRO and Instruction Set
//! Reference Manual, "VAX MACRO source statement format" and "VAX MACRO assembler directives").
//!
//! Each call carries out one statement where it stands: [`label`] `name:`, [`assignment`] `name = e`, [`section`] `.PSECT`,
//! [`save`] `.SAVE_PSECT`, [`restore`] `.RESTORE_PSECT`, [`entry`] `.ENTRY`, [`mask`] `.MASK`, [`names`] `.GLOBAL`, `.WEAK` and `.EXTERNAL`, [`functions`] `.ENABLE` and `.DISABLE`, [`default`] `.DEFAULT`, [`assign_number`] what `.NTYPE` assigns, and [`end`] `.END`.
#![tactic(auto)]

mod assignments;
mod contexts;
mod defaults;
mod entries;
mod labels;
mod masks;
mod numbers;
mod operands;
mod sections;
mod switches;

pub use assignments::assignment;
pub use contexts::{restore, save};
pub use defaults::default;
pub use entries::{end, entry, names};
pub use labels::label;
pub use masks::mask;
pub use numbers::assign_number;
pub use sections::section;
pub use switches::functions;
