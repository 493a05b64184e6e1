//! The report of a machine's state, line by line, and the lines that a console writes too.
//!
//! Numbers have eight capital hexadecimal digits, and counts are decimal. A line is built in a fixed buffer and
//! written whole, so nothing here takes memory.
#![tactic(auto)]

ghost use Rattle.std.specs.Prelude.{◌≡◌};

mod lines;
mod write;

pub use lines::{push_cell, push_ending, push_memory, push_register};
use std::marker::Model;
use vax_flat::Ending;
pub use write::write_report;

/// Why a run stopped.
#[derive(Clone, Copy, PartialEq, Eq)]
pub enum Last {
    /// The machine ended.
    Ending(Ending),
    /// The limit of steps.
    Steps,
    /// Before a step at an address where it is to stop.
    Break,
    /// The limit of turns.
    Turns,
    /// A call of the page file failed.
    PageFault,
}

/// Bytes of memory, None where no area has the byte. Contracts see the list itself.
#[derive(Drop)]
pub struct DumpBytes {
    items: Vec<Option<u8>>,
}

impl Model for DumpBytes {
    ghost use Rattle.std.specs.Prelude.{List, Option, ℕ};

    ghost Value = { List (Option ℕ) };

    ghost view = { λ b. b.items.items };
}

impl From<Vec<Option<u8>>> for DumpBytes {
    ghost from_gives = { λ v b. b ≡ v.items };

    fn from(items: Vec<Option<u8>>) -> DumpBytes {
        DumpBytes { items }
    }
}

impl DumpBytes {
    /// The bytes, in order.
    pub fn as_slice(&self) -> &[Option<u8>]
        ensures { result.now ≡ self.now }
    {
        &self.items
    }
}

/// Memory that the report shows: the bytes from an address on.
#[derive(Drop)]
pub struct Dump {
    pub addr: u32,
    pub bytes: DumpBytes,
}
