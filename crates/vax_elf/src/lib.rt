//! Executables of the Executable and Linking Format, ELF, as GCC and the GNU linker make them for the VAX, read as images.
#![tactic(auto)]

mod faults;
mod header;
mod reading;
mod segments;

pub use faults::{ElfError, ElfFault};
pub use reading::{is_executable, read};
