//! The page tables of a guest, in wired memory of their own (VAX Architecture Reference Manual, memory management,
//! address translation).
//!
//! The system page table lies at a physical address. P0's and P1's tables lie at system virtual addresses, so an entry
//! of theirs is found through the system's entry for the page of the table. Those entries stay as they are, so a walk
//! reads the entry at once where they lead to. All entries are longwords, low byte first.
#![tactic(auto)]

ghost use Rattle.std.specs.Prelude.{◌≡◌, ◌<◌, ◌≤◌, true, false, Option, Some, None, IfOk, IfSome, OnOk, option_map};
ghost use Rattle.vax_space.specs.Faults.{IsSpace};
ghost use Rattle.vax_table.specs.Layout.{IsSound};
ghost use Rattle.vax_table.specs.Mapping.{ChangesAt, MapsAt, mapped, unmodified, all_absent, changed, is_inside, is_resident, frame_of, none_kept, prot_said, set_in, cleared, marked, dirty};

mod entry;
mod memory;

use entry::{entry_at, entry_with, frame_in, kept_by, prot_in, said_by};
use memory::{Memory, new_memory};
use std::alloc::Global;
use vax_space::{NoMemory, Space};

/// What the page tables say of a page.
#[derive(Clone, Copy, PartialEq, Eq)]
pub enum Walk {
    /// It is in a frame. `modified` is its entry's modify bit.
    Resident {
        frame: u32,
        prot: u8,
        modified: bool,
    },
    /// An area has it, and it is in no frame.
    Absent {
        prot: u8,
    },
    /// No area has it. `length` tells that it lies past the length of its region.
    Outside {
        length: bool,
    },
}

/// The page tables of a space.
#[derive(Drop)]
pub struct Tables {
    memory: Memory,
    ghost sound: { IsSound memory },
}

impl Tables {
    ghost use Rattle.vax_table.specs.Tables.{walked, kept};

    /// The tables of a space, all its pages absent. They take less than 300 KB: a longword for each of the 4,608 pages
    /// of the system region and its tables, and one for each page within the lengths of P0 and P1, in whole pages.
    pub fn new(alloc: Global, space: &Space) -> Result<Tables, NoMemory>
        ensures walked { IfOk result (λ tables. walked tables ≡ mapped space.now all_absent) }
        ensures kept { IfOk result (λ tables. kept tables ≡ none_kept) }
        ensures space { OnOk result (IsSpace space.now) }
    {
        let memory = new_memory(alloc, space)?;
        Ok(Tables { memory })
    }

    /// What the tables say of a page: `Outside` exactly where no area has the page.
    #[inline]
    pub fn walk(&self, page: u32) -> Walk
        ensures value { result ≡ walked self.now page }
        ensures small { IfSome (prot_said result) (λ prot. prot ≤ 15) }
    {
        match self.memory.place_of(page) {
            Some(place) => said_by(entry_at(&self.memory.bytes, place)),
            None => Walk::Outside { length: true },
        }
    }

    /// The frame that an absent page was in when it was kept; none where it wasn't kept, or was set or cleared since.
    #[inline]
    pub fn kept_frame(&self, page: u32) -> Option<u32>
        ensures { result ≡ kept self.now page }
    {
        match self.memory.place_of(page) {
            Some(place) => kept_by(entry_at(&self.memory.bytes, place)),
            None => None,
        }
    }

    /// Puts a page of an area into a frame, not modified, and leaves all other pages.
    #[inline]
    pub fn set(&mut self, page: u32, frame: u32)
        requires inside { is_inside (walked self.old page) ≡ true }
        requires frame { frame < 32768 }
        ensures walked { ChangesAt page
            (λ walk. set_in walk frame) (walked self.old) (walked self.new) }
        ensures kept { kept self.new ≡ changed (kept self.old) page None }
        ensures mapped { MapsAt page
            (λ held. Some (unmodified frame)) (walked self.old) (walked self.new) }
    {
        let place = self.memory.place_inside(page);
        let old = entry_at(&self.memory.bytes, place);
        let entry = entry_with(true, prot_in(old), false, frame);
        self.memory.put(page, place, entry);
    }

    /// Makes a resident page absent and remembers its frame, and leaves all other pages.
    #[inline]
    pub fn keep(&mut self, page: u32)
        requires resident { is_resident (walked self.old page) ≡ true }
        ensures walked { ChangesAt page cleared (walked self.old) (walked self.new) }
        ensures kept { kept self.new
            ≡ changed (kept self.old) page (frame_of (walked self.old page)) }
        ensures mapped { MapsAt page (λ held. None) (walked self.old) (walked self.new) }
    {
        let place = self.memory.place_inside(page);
        let old = entry_at(&self.memory.bytes, place);
        let entry = entry_with(false, prot_in(old), true, frame_in(old));
        self.memory.put(page, place, entry);
    }

    /// Makes a page of an area absent, and leaves all other pages.
    #[inline]
    pub fn clear(&mut self, page: u32)
        requires inside { is_inside (walked self.old page) ≡ true }
        ensures walked { ChangesAt page cleared (walked self.old) (walked self.new) }
        ensures kept { kept self.new ≡ changed (kept self.old) page None }
        ensures mapped { MapsAt page (λ held. None) (walked self.old) (walked self.new) }
    {
        let place = self.memory.place_inside(page);
        let old = entry_at(&self.memory.bytes, place);
        let entry = entry_with(false, prot_in(old), false, 0);
        self.memory.put(page, place, entry);
    }

    /// Sets the modify bit of a resident page, and leaves all other pages.
    #[inline]
    pub fn mark(&mut self, page: u32)
        requires resident { is_resident (walked self.old page) ≡ true }
        ensures walked { ChangesAt page marked (walked self.old) (walked self.new) }
        ensures kept { kept self.new ≡ changed (kept self.old) page None }
        ensures mapped { MapsAt page
            (λ held. option_map dirty (held page)) (walked self.old) (walked self.new) }
    {
        let place = self.memory.place_inside(page);
        let old = entry_at(&self.memory.bytes, place);
        let entry = entry_with(true, prot_in(old), true, frame_in(old));
        self.memory.put(page, place, entry);
    }
}
