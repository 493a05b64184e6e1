//! What is watched, and its bytes as they were seen.
ghost use Rattle.std.specs.Prelude.{◌≡◌, ◌≤◌, IfOk, Option, is_err, length};
ghost use Rattle.std.specs.List.{list_any};
ghost use Rattle.vax_outside.specs.Channels.{Channels};
ghost use Rattle.vax_outside.specs.Faults.{CountsFailure};
ghost use Rattle.vax_flat.specs.Step.{Flat};
ghost use Rattle.vax_machine.specs.Meaning.{engine};
ghost use Rattle.vax_console.specs.Ends.{scene};
ghost use Rattle.vax_debug.specs.Calls.{TellsFrom};
ghost use Rattle.vax_debug.specs.Sessions.{StaysHere};
ghost use Rattle.vax_debug.specs.Watches.{are_other, is_changed, saw, seen_in, watched};

use crate::memory::examine;
use arrayvec::ArrayVec;
use std::marker::Model;
use vax_machine::Machine;
use vax_outside::PageFile;
use vax_pager::PageFault;

/// The most watches.
const MOST: usize = 16;

/// The most bytes of a watch.
const MOST_BYTES: usize = 255;

/// Bytes that are watched: so many from an address on, which may go on at address 0.
#[derive(Clone, Copy, Default, PartialEq, Eq)]
pub struct Watch {
    pub address: u32,
    pub count: u8,
}

/// At most 16 watches. Contracts see the list itself.
#[derive(Drop)]
pub struct Watches {
    items: ArrayVec<Watch, 16>,
}

impl Model for Watches {
    ghost use Rattle.std.specs.Prelude.{List};
    ghost use Rattle.vax_debug.specs.declared.watches.Watch.{Watch};

    ghost Value = { List Watch };

    ghost view = { λ w. w.items.items };
}

impl Watches {
    ghost use Rattle.std.specs.Prelude.{◌≡◌, ◌<◌, [], ◌∷◌, ◌++◌, nat_le, length};
    ghost use Rattle.vax_debug.specs.Watches.{unwatched};

    /// Nothing is watched.
    pub fn new() -> Watches
        ensures { result ≡ [] }
    {
        Watches {
            items: ArrayVec::new(),
        }
    }

    /// The watches, in the order in which they came.
    pub fn as_slice(&self) -> &[Watch]
        ensures { result.now ≡ self.now }
    {
        &self.items
    }

    /// Whether there are 16 already.
    pub fn is_full(&self) -> bool
        ensures { result ≡ nat_le 16 (length self.now) }
    {
        MOST <= self.items.len()
    }

    /// One more watch, where there are fewer than 16.
    pub fn add(&mut self, watch: Watch)
        requires { length self.old < 16 }
        ensures { self.new ≡ self.old ++ watch ∷ [] }
    {
        self.items.push(watch);
    }

    /// All but those that begin at this address.
    pub fn beside(&self, address: u32) -> Watches
        ensures { result ≡ unwatched address self.now }
    {
        let mut items = ArrayVec::new();
        for watch in self.items.as_slice() {
            if watch.address != address {
                items.push(*watch);
            }
        }
        Watches { items }
    }
}

/// Bytes of memory, at most 255; None where no area has one. Contracts see the list itself.
#[derive(Default, Drop)]
pub struct Bytes {
    items: ArrayVec<Option<u8>, 255>,
}

impl Model for Bytes {
    ghost use Rattle.std.specs.Prelude.{List, Option, ℕ};

    ghost Value = { List (Option ℕ) };

    ghost view = { λ c. c.items.items };
}

impl Bytes {
    ghost use Rattle.std.specs.Prelude.{◌≡◌, ◌≤◌, length};

    fn new(cells: &[Option<u8>]) -> Bytes
        requires { length cells.now ≤ 255 }
        ensures { result ≡ cells.now }
    {
        let mut items = ArrayVec::new();
        items.try_extend_from_slice(cells).unwrap();
        Bytes { items }
    }

    /// The bytes, in order.
    pub fn as_slice(&self) -> &[Option<u8>]
        ensures exact { result.now ≡ self.now }
        ensures few { length result.now ≤ 255 }
    {
        &self.items
    }
}

/// The bytes of a watch as they were seen.
#[derive(Default, Drop)]
pub struct Seen {
    pub address: u32,
    pub cells: Bytes,
}

/// The bytes of at most 16 watches as they were seen. Contracts see the list itself.
#[derive(Drop)]
pub struct Snapshot {
    items: ArrayVec<Seen, 16>,
}

impl Model for Snapshot {
    ghost use Rattle.std.specs.Prelude.{List};
    ghost use Rattle.vax_debug.specs.declared.watches.Seen.{Seen};

    ghost Value = { List Seen };

    ghost view = { λ s. s.items.items };
}

impl Snapshot {
    ghost use Rattle.std.specs.Prelude.{◌≡◌, ◌<◌, [], ◌∷◌, ◌++◌, length};

    /// Nothing was looked at.
    pub fn new() -> Snapshot
        ensures { result ≡ [] }
    {
        Snapshot {
            items: ArrayVec::new(),
        }
    }

    fn add(&mut self, seen: Seen)
        requires { length self.old < 16 }
        ensures { self.new ≡ self.old ++ seen ∷ [] }
    {
        self.items.push(seen);
    }

    /// What was seen, in the order of the watches.
    pub fn as_slice(&self) -> &[Seen]
        ensures { result.now ≡ self.now }
    {
        &self.items
    }
}

/// Bytes that were seen from an address on.
fn saw(address: u32, cells: &[Option<u8>]) -> Seen
    requires { length cells.now ≤ 255 }
    ensures { result ≡ saw address cells.now }
{
    Seen {
        address,
        cells: Bytes::new(cells),
    }
}

/// Looks at the bytes of a watch.
fn look_at<F: PageFile>(
    watch: Watch,
    machine: &mut Machine,
    file: &mut F,
) -> Result<Seen, PageFault>
    ensures tells { (sink : Option Channels) → IfOk result
        (TellsFrom (scene (engine machine.old) (F.contents file.old) sink)
        (λ (m : Flat). watched m watch)) }
    ensures stays { (sink : Option Channels) →
        StaysHere (scene (engine machine.old) (F.contents file.old) sink)
        (scene (engine machine.new) (F.contents file.new) sink) }
    ensures counts { CountsFailure (is_err result) (F.faults file.old) (F.faults file.new) }
{
    let mut cells = [None; MOST_BYTES];
    let cells = &mut cells[..watch.count as usize];
    match examine(watch.address, cells, machine, file) {
        Ok(()) => Ok(saw(watch.address, cells)),
        Err(_) => Err(PageFault),
    }
}

/// Looks at all watched bytes. Nothing changes, also not which pages are resident or modified.
pub fn look<F: PageFile>(
    watches: &Watches,
    machine: &mut Machine,
    file: &mut F,
) -> Result<Snapshot, PageFault>
    ensures tells { (sink : Option Channels) → IfOk result
        (TellsFrom (scene (engine machine.old) (F.contents file.old) sink)
        (λ (m : Flat). seen_in watches.now m)) }
    ensures stays { (sink : Option Channels) →
        StaysHere (scene (engine machine.old) (F.contents file.old) sink)
        (scene (engine machine.new) (F.contents file.new) sink) }
    ensures counts { CountsFailure (is_err result) (F.faults file.old) (F.faults file.new) }
{
    let mut seen = Snapshot::new();
    for watch in watches.items.as_slice() {
        match look_at(*watch, machine, file) {
            Ok(bytes) => seen.add(bytes),
            Err(_) => return Err(PageFault),
        }
    }
    Ok(seen)
}

/// Whether two rows of bytes differ.
fn are_other(one: &[Option<u8>], other: &[Option<u8>]) -> bool
    ensures { result ≡ are_other one.now other.now }
{
    one != other
}

/// Whether a byte of these is another now.
fn is_changed<F: PageFile>(
    seen: &Seen,
    machine: &mut Machine,
    file: &mut F,
) -> Result<bool, PageFault>
    ensures tells { (sink : Option Channels) → IfOk result
        (TellsFrom (scene (engine machine.old) (F.contents file.old) sink)
        (λ (m : Flat). is_changed m seen.now)) }
    ensures stays { (sink : Option Channels) →
        StaysHere (scene (engine machine.old) (F.contents file.old) sink)
        (scene (engine machine.new) (F.contents file.new) sink) }
    ensures counts { CountsFailure (is_err result) (F.faults file.old) (F.faults file.new) }
{
    let before = seen.cells.as_slice();
    let mut cells = [None; MOST_BYTES];
    let cells = &mut cells[..before.len()];
    match examine(seen.address, cells, machine, file) {
        Ok(()) => Ok(are_other(before, cells)),
        Err(_) => Err(PageFault),
    }
}

/// Whether a watched byte is another now.
pub(crate) fn has_changed<F: PageFile>(
    seen: &[Seen],
    machine: &mut Machine,
    file: &mut F,
) -> Result<bool, PageFault>
    ensures tells { (sink : Option Channels) → IfOk result
        (TellsFrom (scene (engine machine.old) (F.contents file.old) sink)
        (λ (m : Flat). list_any (is_changed m) seen.now)) }
    ensures stays { (sink : Option Channels) →
        StaysHere (scene (engine machine.old) (F.contents file.old) sink)
        (scene (engine machine.new) (F.contents file.new) sink) }
    ensures counts { CountsFailure (is_err result) (F.faults file.old) (F.faults file.new) }
{
    let Some((first, rest)) = seen.split_first() else {
        return Ok(false);
    };
    match is_changed(first, machine, file) {
        Ok(false) => has_changed(rest, machine, file),
        Ok(true) => Ok(true),
        Err(_) => Err(PageFault),
    }
}
