//! The order in which the processes of a pool go.
//!
//! An order is a text of lines `J N`: process J, counted from 1, makes N attempts. After the last line the first follows again.
#![tactic(auto)]

mod line;
mod order;

pub use line::Line;
pub use order::{Order, OrderError, default_order};
