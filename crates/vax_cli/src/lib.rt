//! The words of the command line.
//!
//! Which words are plain is decided first, by one table of commands and their options; then `clap` reads them, and its
//! values are compared with those that were found. A reading of `clap` that fails, or that differs, counts as want of
//! memory: on plain words it has no other reason.
#![tactic(auto)]

mod clap_words;
mod command;
mod items;
mod jobs;
mod number;
mod option_texts;
mod plain;
mod read;
mod summaries;
mod table;
mod values;
mod vectors;

pub use command::{
    Asked, Base, Breaks, Command, DumpItem, Dumps, Format, Macros, Names, Options, Strictness,
    Target, Tracing,
};
pub use jobs::JobsOptions;
pub use read::{WordsError, about, command_of};
pub use vectors::{Opcodes, VectorRequest};
