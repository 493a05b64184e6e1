//! What the first pass over a source keeps: names, definitions, sections, and in them what is filled in once all names
//! have values (VAX MACRO and Instruction Set Reference Manual, "VAX MACRO assembler directives").
//!
//! A [`Standing`] is what the statements so far leave. Data and instructions leave [`Fixup`]s in it. A statement is carried
//! out part by part, and of the faults of its parts [`lowest`] is the one that counts.
#![tactic(auto)]

mod circles;
mod faults;
mod site;
mod standing;
mod telling;
mod types;

pub use circles::first_circle;
pub use faults::{fault_of_value, first_of, lowest, number_of, unless_place};
pub use site::{Site, add, filling_of, item_place, known_count, misplaces, site_of};
pub use types::{
    Assignment, Content, Filling, Fixup, Origin, Refused, Saved, Standing, Told, Transfer,
};
pub use vax_isa::Narrow;
pub use vax_macro::FaultKind;
