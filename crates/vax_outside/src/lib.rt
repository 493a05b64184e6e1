//! What the program asks of the outside: files by name, output channels, a saved state's file, and a file of numbered
//! blocks.
//!
//! Each is a trait with two meanings that contracts see. `contents` is what the object holds, where it tells that;
//! an object that tells nothing answers None. `faults` counts the calls that failed: a call that answers a failure
//! raises the count by one, and a call that answers otherwise leaves it. It also tells whether the last call failed, so
//! that a failed call is never tried again in silence. `Text` is a line on its way to a channel.
#![tactic(auto)]

mod fails;
mod faults;
mod host;
mod limit;
mod mem_files;
mod mem_pages;
mod mem_sink;
mod put;
mod text;
mod traits;

pub use fails::Fail;
pub use host::{HostFiles, HostPages, HostSink, stand_in};
pub use mem_files::MemFiles;
pub use mem_pages::MemPages;
pub use mem_sink::MemSink;
pub use put::put_all;
pub use text::Text;
pub use traits::{Chan, Failed, Files, FilesFault, PageFile, Sink, StateFile};
