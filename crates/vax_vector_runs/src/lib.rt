//! Makes test vectors: the first part of a step is made on a real processor over a small memory, which keeps what is read and
//! written, again and again, until each page that it needs is resident.
#![tactic(auto)]

mod run;
mod settle;
mod start;

pub use run::Workbench;
pub use vax_vector_memory::NoVector;
