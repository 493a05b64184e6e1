//! The pages that a pager keeps in frames and those that are modified, each in the order in which they came.
#![tactic(auto)]

mod circles;
mod lists;

pub use crate::lists::{Lists, Placed};
