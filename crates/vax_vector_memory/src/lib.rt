//! Memory of a few pages for single steps: any page may be absent, it keeps what is read and written, and it is made once and filled
//! anew for each step.
#![tactic(auto)]

mod areas;
mod error;
mod fill;
mod recorder;

pub use error::NoVector;
pub use recorder::Recorder;
