//! Memory that keeps what is read from it and written to it.
ghost use Rattle.std.specs.Prelude.{◌≡◌, ◌≤◌, length, map, vec_capacity};
ghost use Rattle.vax_undo.specs.Plain.{view_of as plain_view};
ghost use Rattle.vax_vector_memory.specs.Pages.{guarded, unguarded};

use crate::areas::{guarded_space, unguarded_memory};
use crate::error::NoVector;
use crate::fill::fill;
use arrayvec::ArrayVec;
use std::alloc::Global;
use vax_space::{Access, Space, Violation};
use vax_undo::{Plain, Port, Stop, put_number};
use vax_vectors::{Cell, Page, Touch};

/// An access of at most 512 bytes.
fn touch_of(access: Access, addr: u32, bytes: &[u8]) -> Touch
    requires { length bytes.now ≤ 512 }
    ensures access { result.access ≡ access }
    ensures addr { result.addr ≡ addr }
    ensures bytes { result.bytes.items ≡ bytes.now }
{
    let mut kept = ArrayVec::new();
    match kept.try_extend_from_slice(bytes) {
        Ok(()) => Touch {
            access,
            addr,
            bytes: kept,
        },
        Err(_) => unreachable!(),
    }
}

/// Memory of pages of which any may be absent, with what was read from it and written to it since it was told to forget that. It is made
/// once, and filled anew for each step. It keeps at most 4,096 accesses.
#[derive(Drop)]
pub struct Recorder {
    alloc: Global,
    pages: Vec<Page>,
    /// What each mode may do to the pages.
    rights: Space,
    /// The bytes, with which every mode may do all.
    memory: Plain,
    touches: Vec<Touch>,
    /// Whether all of it is among `touches`. It isn't where it was more than is kept.
    complete: bool,
    ghost rights_are: { rights ≡ map guarded pages.items },
    ghost areas_are: { (plain_view memory).areas ≡ map unguarded pages.items },
    ghost room: { 4096 ≤ vec_capacity touches },
}

impl Recorder {
    ghost use Rattle.std.specs.Prelude.{◌<◌, length, is_some, IsTrue, IfSome, IfOk, OnOk, []};
    ghost use Rattle.vax_space.specs.Areas.{area_of};
    ghost use Rattle.vax_undo.specs.Blocks.{low_bytes};
    ghost use Rattle.vax_undo.specs.Plain.{with_page};
    ghost use Rattle.vax_vectors.specs.Truth.{memory_of};
    ghost use Rattle.vax_undo.specs.Trail.{noted};
    ghost use Rattle.vax_vector_memory.specs.Record.{Keeps, trail_of, view_of};
    ghost use Rattle.vax_vector_memory.specs.Seen.{seen};

    /// Memory of these pages.
    pub fn new(alloc: Global, pages: &[Page]) -> Result<Recorder, NoVector>
        ensures { IfOk result (λ r. r.pages.items ≡ pages.now) }
    {
        let rights = guarded_space(alloc, pages)?;
        let memory = unguarded_memory(alloc, pages)?;
        Ok(Recorder {
            alloc,
            pages: Vec::from_slice(alloc, pages)?,
            rights,
            memory,
            touches: Vec::with_capacity(alloc, 4096)?,
            complete: true,
        })
    }

    /// The pages.
    pub fn pages(&self) -> &[Page]
        ensures { result.now ≡ self.now.pages.items }
    {
        &self.pages
    }

    /// Makes all pages absent, with these bytes and 0 elsewhere.
    pub fn fill(&mut self, ram: &[Cell]) -> Result<(), NoVector>
        ensures view { OnOk result (view_of self.new
            ≡ seen (map guarded self.old.pages.items)
            (memory_of self.old.pages.items ram.now) []) }
        ensures pages { self.new.pages ≡ self.old.pages }
    {
        fill(&mut self.memory, &self.pages, ram)
    }

    /// Forgets what was read and written.
    pub fn forget(&mut self)
        ensures view { view_of self.new ≡ view_of self.old }
        ensures touches { self.new.touches.items ≡ [] }
        ensures complete { IsTrue self.new.complete }
    {
        self.touches.clear();
        self.complete = true;
    }

    /// Makes a page of an area resident.
    pub fn show(&mut self, page: u32)
        ensures { view_of self.new
            ≡ with_page (view_of self.old) page (is_some (area_of (view_of self.old).areas page)) }
    {
        self.memory.show(page);
    }

    /// The byte at an address; none where no area has it.
    pub fn byte(&self, addr: u32) -> Option<u8>
        ensures { IfSome result (λ byte. (view_of self.now).byte addr ≡ byte) }
    {
        self.memory.byte(addr)
    }

    /// What is kept.
    pub fn touches(&self) -> &[Touch]
        ensures { result.now ≡ self.now.touches.items }
    {
        &self.touches
    }

    /// Hands out what was read and written; none where not all of it was kept, or where memory is refused.
    pub fn take_touches(&mut self) -> Option<Vec<Touch>>
        ensures { IfSome result (λ touches.
            IsTrue self.old.complete × (touches.items ≡ self.old.touches.items)) }
    {
        let mut touches = Vec::new(self.alloc);
        if touches.append(&mut self.touches).is_err() {
            return None;
        }
        if self.complete { Some(touches) } else { None }
    }

    /// Keeps an access of at most 512 bytes.
    #[tactic(auto, using(crate::proofs::Keeping::one_kept, crate::proofs::Keeping::none_kept))]
    fn keep(&mut self, access: Access, addr: u32, bytes: &[u8])
        requires { length bytes.now ≤ 512 }
        ensures trail { trail_of self.new ≡ noted (trail_of self.old)
            (record { access = access; addr = addr; bytes = bytes.now }) }
        ensures view { view_of self.new ≡ view_of self.old }
        ensures kept { IsTrue self.new.complete → Keeps self.old self.new access addr bytes.now }
    {
        if self.touches.len() >= 4096 {
            self.complete = false;
            return;
        }
        match self.touches.push(touch_of(access, addr, bytes)) {
            Ok(()) => {}
            Err(_) => unreachable!(),
        }
    }

    /// Keeps an access to a number of 1 to 8 bytes.
    fn keep_number(&mut self, access: Access, addr: u32, n: u32, value: u64)
        requires some { 1 ≤ n }
        requires few { n ≤ 8 }
        ensures trail { trail_of self.new ≡ noted (trail_of self.old)
            (record { access = access; addr = addr; bytes = low_bytes n value }) }
        ensures view { view_of self.new ≡ view_of self.old }
        ensures kept { IsTrue self.new.complete
            → Keeps self.old self.new access addr (low_bytes n value) }
    {
        let mut all = [0u8; 8];
        let bytes = &mut all[..n as usize];
        put_number(bytes, value);
        self.keep(access, addr, bytes);
    }
}

impl Port for Recorder {
    ghost use Rattle.vax_vector_memory.specs.Record.{Since, trail_of, view_of};

    ghost view = { view_of };

    ghost trail = { trail_of };

    ghost since = { Since };

    fn check(&self, addr: u32, len: u32, mode: u8, access: Access) -> Result<(), Violation> {
        self.rights.check(addr, len, mode, access)
    }

    fn read(&mut self, addr: u32, n: u32, mode: u8) -> Result<u64, Stop> {
        if let Err(violation) = self.rights.check(addr, n, mode, Access::Read) {
            return Err(Stop::Violated(violation));
        }
        match self.memory.read(addr, n, mode) {
            Ok(value) => {
                self.keep_number(Access::Read, addr, n, value);
                Ok(value)
            }
            Err(stop) => Err(stop),
        }
    }

    fn write(&mut self, addr: u32, n: u32, value: u64, mode: u8) -> Result<u64, Stop> {
        if let Err(violation) = self.rights.check(addr, n, mode, Access::Write) {
            return Err(Stop::Violated(violation));
        }
        match self.memory.write(addr, n, value, mode) {
            Ok(old) => {
                self.keep_number(Access::Write, addr, n, value);
                Ok(old)
            }
            Err(stop) => Err(stop),
        }
    }

    fn read_run(&mut self, addr: u32, into: &mut [u8], mode: u8) -> Result<(), Stop> {
        let len = into.len() as u32;
        if let Err(violation) = self.rights.check(addr, len, mode, Access::Read) {
            return Err(Stop::Violated(violation));
        }
        match self.memory.read_run(addr, into, mode) {
            Ok(()) => {
                self.keep(Access::Read, addr, into);
                Ok(())
            }
            Err(stop) => Err(stop),
        }
    }

    fn write_run(&mut self, addr: u32, from: &[u8], mode: u8) -> Result<(), Stop> {
        let len = from.len() as u32;
        if let Err(violation) = self.rights.check(addr, len, mode, Access::Write) {
            return Err(Stop::Violated(violation));
        }
        match self.memory.write_run(addr, from, mode) {
            Ok(()) => {
                self.keep(Access::Write, addr, from);
                Ok(())
            }
            Err(stop) => Err(stop),
        }
    }
}
