//! The beginning of a line.
ghost use Rattle.std.specs.Prelude.{◌≡◌, ◌≤◌, length, take};

use arrayvec::ArrayVec;
use std::marker::Model;

/// The most bytes that are kept.
const MOST: usize = 1_025;

/// The first of some bytes, at most so many.
fn first(bytes: &[u8], most: usize) -> &[u8]
    ensures exact { result.now ≡ take most bytes.entry.now }
    ensures few { length result.now ≤ most }
{
    if bytes.len() <= most {
        bytes
    } else {
        bytes.split_at(most).0
    }
}

/// At most 1,025 bytes of a line. Contracts see the list itself.
#[derive(Drop)]
pub struct Line {
    items: ArrayVec<u8, 1025>,
}

impl Model for Line {
    ghost use Rattle.std.specs.Prelude.{List, ℕ};

    ghost Value = { List ℕ };

    ghost view = { λ l. l.items.items };
}

impl Line {
    ghost use Rattle.std.specs.Prelude.{◌≡◌, [], take};

    /// No bytes.
    pub fn new() -> Line
        ensures { result ≡ [] }
    {
        Line {
            items: ArrayVec::new(),
        }
    }

    /// The bytes, in order.
    pub fn as_slice(&self) -> &[u8]
        ensures { result.now ≡ self.now }
    {
        &self.items
    }

    /// Holds the first of these bytes, in place of what it held.
    pub(crate) fn hold(&mut self, bytes: &[u8])
        ensures { self.new ≡ take 1025 bytes.now }
    {
        let mut items = ArrayVec::new();
        items.try_extend_from_slice(first(bytes, MOST)).unwrap();
        self.items = items;
    }
}
