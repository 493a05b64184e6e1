//! The top call: what the program does with its words, over any files, output channels and page file.
#![tactic(auto)]

mod checking;
mod commands;
mod console;
mod debugging;
mod jobs;
mod laws;
mod preludes;
mod programs;
mod saving;
mod sources;
mod together;
mod top;
mod tracing;
mod vectors;

pub use laws::sources_are_listed_as_they_are_built;
pub use top::vax_main;
pub use vax_command::{Name, Status};
