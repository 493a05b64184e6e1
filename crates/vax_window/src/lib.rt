//! Parts of a page file, so that several processes share one.
#![tactic(auto)]

mod laws;
mod window;

pub use laws::{other_windows_stay, windows_lie_apart};
pub use window::Window;
