//! Sessions with a debugger on programs: lines that come one at a time, the replies to them, and the report at the end.
#![tactic(auto)]

mod session;

pub use session::{Debuggee, debug_programs};
