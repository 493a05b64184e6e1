//! Listings of programs: what each statement of a source put where, as VAX MACRO's listings and linkers' maps tell it.
#![tactic(auto)]

mod bytes;
mod laws;
mod lines;
mod names;
mod program;
mod tables;
mod tracing;
mod types;

pub use laws::{all_rows_are_listed, opened_rows_lead_on, rows_are_statements};
pub use program::{ListingError, list_sources, trace_files};
pub use tables::listing;
pub use tracing::trace;
pub use types::{Label, Notes, Part, Point, Program, Row, Trace};
