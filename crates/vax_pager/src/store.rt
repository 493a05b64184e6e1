//! The parts of a pager, and its steps.
ghost use Rattle.vax_pager.specs.Paging.{bytes_in};
ghost use Rattle.vax_pager.specs.Frames.{dirty_frame};
ghost use Rattle.std.specs.Prelude.{◌≡◌, ◌<◌, ◌≤◌, ◌+◌, true, false, length, IfOk, IfSome, OnOk, Some, None, [], is_some, nat_lt, replicate, slice_index_or, take};

use crate::counts::{lowered_if, raised, raised_if};
use crate::marks::Marks;
use std::alloc::Global;
use vax_lists::{Lists, Placed};
use vax_space::{Area, NoMemory, PAGES, Space};
use vax_table::{Tables, Walk};
use vax_tb::Buffer;

/// The frame of a page of which the tables say this, where it is modified.
#[inline]
fn dirty_frame(walk: Walk) -> Option<u32>
    ensures { result ≡ dirty_frame walk }
{
    match walk {
        Walk::Resident {
            frame,
            prot: _,
            modified,
        } => { if modified { Some(frame) } else { None } }
        Walk::Absent { prot: _ } => None,
        Walk::Outside { length: _ } => None,
    }
}

/// So many frames of zeros.
fn zeros(alloc: Global, count: u32) -> Result<Vec<[u8; 512]>, NoMemory>
    ensures { IfOk result (λ frames. frames.items ≡ replicate count (replicate 512 0)) }
{
    let mut frames = Vec::with_capacity(alloc, count as usize)?;
    for _ in 0..count {
        if frames.push([0; 512]).is_err() {
            return Err(NoMemory);
        }
    }
    Ok(frames)
}

/// The parts of a pager.
#[derive(Drop)]
pub(crate) struct Store {
    pub(crate) space: Space,
    pub(crate) tables: Tables,
    pub(crate) buffer: Buffer,
    pub(crate) frames: Vec<[u8; 512]>,
    /// So many of the frames were used, the first ones.
    pub(crate) used: u32,
    pub(crate) lists: Lists,
    /// So many pages are pinned, the last in the order of service.
    pub(crate) pinned: u32,
    /// The blocks that were written in this run, by their numbers.
    pub(crate) blocked: Marks,
    pub(crate) served: u64,
    pub(crate) evicted: u64,
    pub(crate) written: u64,
    pub(crate) spoiled: u64,
}

impl Store {
    ghost use Rattle.vax_lists.specs.Lines.{frame_in};
    ghost use Rattle.vax_space.specs.Areas.{area_of, block_of, prot_of};
    ghost use Rattle.vax_space.specs.Faults.{IsSpace};
    ghost use Rattle.vax_pager.specs.Calls.{fresh};
    ghost use Rattle.vax_pager.specs.Paging.{start_of};
    ghost use Rattle.vax_pager.specs.Listing.{first, first_outside, is_listed, page_in};
    ghost use Rattle.vax_pager.specs.Steps.{brought, flushed, forgotten, released, removed, settled, taken_back};
    ghost use Rattle.vax_pager.specs.Store.{IsFree, IsSound, held, paging};

    /// No page is resident.
    pub(crate) fn new(alloc: Global, space: Space, frames: u32) -> Result<Store, NoMemory>
        requires few { frames ≤ 32768 }
        ensures sound { IfOk result (λ s. IsSound 0 s) }
        ensures paging { IfOk result (λ s. paging s ≡ fresh space frames) }
        ensures space { OnOk result (IsSpace space) }
    {
        let tables = Tables::new(alloc, &space)?;
        let bytes = zeros(alloc, frames)?;
        let lists = Lists::new(alloc, frames)?;
        let blocked = Marks::new(alloc)?;
        Ok(Store {
            space,
            tables,
            buffer: Buffer::new(),
            frames: bytes,
            used: 0,
            lists,
            pinned: 0,
            blocked,
            served: 0,
            evicted: 0,
            written: 0,
            spoiled: 0,
        })
    }

    /// The frame of a resident page.
    pub(crate) fn resident_frame(&self, page: u32) -> u32
        requires sound { IsSound 0 self.now }
        requires resident { is_listed page (paging self.now).order ≡ true }
        ensures order { frame_in self.now.lists.order page ≡ Some result }
        ensures held { held self.now page ≡ Some result }
        ensures room { result < length self.now.frames.items }
        ensures bytes { slice_index_or self.now.frames.items result []
            ≡ (paging self.now).frame page }
    {
        match self.tables.walk(page) {
            Walk::Resident {
                frame,
                prot: _,
                modified: _,
            } => frame,
            Walk::Absent { prot: _ } => unreachable!(),
            Walk::Outside { length: _ } => unreachable!(),
        }
    }

    /// The frame of a modified page.
    pub(crate) fn modified_frame(&self, page: u32) -> Option<u32>
        requires sound { IsSound 0 self.now }
        ensures none { is_some result ≡ is_listed page (paging self.now).modified }
        ensures there { IfSome result
            (λ frame. frame_in self.now.lists.modified page ≡ Some frame) }
        ensures held { IfSome result (λ frame. held self.now page ≡ Some frame) }
        ensures resident { is_some result ≡ true → is_listed page (paging self.now).order ≡ true }
        ensures room { IfSome result (λ frame. frame < length self.now.frames.items) }
        ensures bytes { IfSome result (λ frame. slice_index_or self.now.frames.items frame []
            ≡ (paging self.now).frame page) }
        ensures writable { is_some result ≡ true → is_some (block_of self.now.space page) ≡ true }
    {
        dirty_frame(self.tables.walk(page))
    }

    /// The frame of a kept page.
    pub(crate) fn kept_frame(&self, page: u32) -> Option<u32>
        requires sound { IsSound 0 self.now }
        ensures none { is_some result ≡ is_listed page (paging self.now).kept }
        ensures there { IfSome result (λ frame. frame_in self.now.lists.kept page ≡ Some frame) }
        ensures held { IfSome result (λ frame. held self.now page ≡ Some frame) }
        ensures room { IfSome result (λ frame. frame < length self.now.frames.items) }
        ensures bytes { IfSome result (λ frame. slice_index_or self.now.frames.items frame []
            ≡ (paging self.now).frame page) }
    {
        self.tables.kept_frame(page)
    }

    pub(crate) fn is_resident(&self, page: u32) -> bool
        requires sound { IsSound 0 self.now }
        ensures { result ≡ is_listed page (paging self.now).order }
    {
        match self.tables.walk(page) {
            Walk::Resident {
                frame: _,
                prot: _,
                modified: _,
            } => true,
            Walk::Absent { prot: _ } => false,
            Walk::Outside { length: _ } => false,
        }
    }

    /// A modified page's frame is in its block.
    pub(crate) fn mark_flushed(&mut self, page: u32, frame: u32, block: u32)
        requires sound { IsSound 0 self.old }
        requires there { frame_in self.old.lists.modified page ≡ Some frame }
        requires block { block_of self.old.space page ≡ Some block }
        requires few { block < PAGES }
        ensures sound { IsSound 0 self.new }
        ensures paging { paging self.new ≡ flushed page (paging self.old) }
    {
        self.tables.set(page, frame);
        self.buffer.forget(page);
        self.lists.clean(Placed { page, frame });
        self.blocked.set(block);
        self.written = raised(self.written);
    }

    /// A resident page is absent, and its frame is kept.
    pub(crate) fn release(&mut self, evicted: u32)
        requires sound { IsSound 0 self.old }
        requires resident { is_listed evicted (paging self.old).order ≡ true }
        requires unmodified { is_listed evicted (paging self.old).modified ≡ false }
        ensures sound { IsSound 0 self.new }
        ensures paging { paging self.new ≡ released evicted (paging self.old) }
    {
        let frame = self.resident_frame(evicted);
        let placed = Placed {
            page: evicted,
            frame,
        };
        let was_pinned = self.lists.is_among_last(placed, self.pinned);
        self.tables.keep(evicted);
        self.buffer.forget(evicted);
        self.lists.keep(placed);
        self.pinned = lowered_if(was_pinned, self.pinned);
        self.evicted = raised(self.evicted);
        self.spoiled = raised_if(was_pinned, self.spoiled);
    }

    /// A kept page is resident again.
    pub(crate) fn take_back(&mut self, page: u32, frame: u32)
        requires sound { IsSound 0 self.old }
        requires there { frame_in self.old.lists.kept page ≡ Some frame }
        ensures sound { IsSound 0 self.new }
        ensures paging { paging self.new ≡ taken_back page (paging self.old) }
    {
        self.tables.set(page, frame);
        self.buffer.forget(page);
        self.lists.take_back(Placed { page, frame });
        self.pinned += 1;
        self.served = raised(self.served);
    }

    /// A frame that no page has had.
    pub(crate) fn grow(&mut self) -> u32
        requires sound { IsSound 0 self.old }
        requires room { length (paging self.old).order + length (paging self.old).kept
            < (paging self.old).frames }
        ensures sound { IsSound 1 self.new }
        ensures paging { paging self.new ≡ paging self.old }
        ensures free { IsFree result self.new }
    {
        let frame = self.used;
        self.used += 1;
        frame
    }

    /// A kept page gives up its frame.
    pub(crate) fn forget(&mut self, page: u32, frame: u32)
        requires sound { IsSound 0 self.old }
        requires there { frame_in self.old.lists.kept page ≡ Some frame }
        ensures sound { IsSound 1 self.new }
        ensures paging { paging self.new ≡ forgotten page (paging self.old) }
        ensures free { IsFree frame self.new }
    {
        self.tables.clear(page);
        self.buffer.forget(page);
        self.lists.forget(Placed { page, frame });
    }

    /// A resident page gives up its frame.
    pub(crate) fn give_up(&mut self, page: u32) -> u32
        requires sound { IsSound 0 self.old }
        requires resident { is_listed page (paging self.old).order ≡ true }
        requires unmodified { is_listed page (paging self.old).modified ≡ false }
        requires unpinned { is_listed page (paging self.old).pinned ≡ false }
        ensures sound { IsSound 1 self.new }
        ensures paging { paging self.new ≡ removed page (paging self.old) }
        ensures free { IsFree result self.new }
    {
        let frame = self.resident_frame(page);
        self.tables.clear(page);
        self.buffer.forget(page);
        self.lists.give_up(Placed { page, frame });
        self.evicted = raised(self.evicted);
        frame
    }

    /// An absent page comes into a frame.
    pub(crate) fn bring(&mut self, page: u32, frame: u32, bytes: &[u8; 512])
        requires sound { IsSound 1 self.old }
        requires within { is_some (prot_of self.old.space page) ≡ true }
        requires absent { is_listed page (paging self.old).order ≡ false }
        requires unkept { is_listed page (paging self.old).kept ≡ false }
        requires free { IsFree frame self.old }
        ensures sound { IsSound 0 self.new }
        ensures paging { paging self.new ≡ brought page bytes.now (paging self.old) }
    {
        self.tables.set(page, frame);
        self.buffer.forget(page);
        self.frames[frame as usize] = *bytes;
        self.lists.serve(Placed { page, frame });
        self.pinned += 1;
        self.served = raised(self.served);
    }

    /// Unpins all pages.
    pub(crate) fn settle(&mut self)
        requires sound { IsSound 0 self.old }
        ensures sound { IsSound 0 self.new }
        ensures paging { paging self.new ≡ settled (paging self.old) }
    {
        self.pinned = 0;
    }

    /// Whether some frame was never used.
    #[tactic(auto, unfolding(crate::specs::Store::paging))]
    pub(crate) fn has_empty(&self) -> bool
        requires sound { IsSound 0 self.now }
        ensures { result ≡ nat_lt (length (paging self.now).order + length (paging self.now).kept)
            (paging self.now).frames }
    {
        (self.used as usize) < self.frames.len()
    }

    /// The page that was kept first.
    pub(crate) fn oldest_kept(&self) -> Option<Placed>
        ensures page { page_in result ≡ first (paging self.now).kept }
        ensures there { IfSome result
            (λ placed. frame_in self.now.lists.kept placed.page ≡ Some placed.frame) }
    {
        self.lists.oldest()
    }

    /// The resident page that was served longest ago and isn't pinned.
    pub(crate) fn victim(&self) -> u32
        requires sound { IsSound 0 self.now }
        requires pins { length (paging self.now).pinned < length (paging self.now).order }
        ensures value { first_outside (paging self.now).pinned (paging self.now).order
            ≡ Some result }
        ensures resident { is_listed result (paging self.now).order ≡ true }
        ensures unpinned { is_listed result (paging self.now).pinned ≡ false }
    {
        match self.lists.first() {
            Some(placed) => placed.page,
            None => unreachable!(),
        }
    }

    /// Writes the resident pages, in order of service, and answers how many these are.
    pub(crate) fn residents(&self, cells: &mut [u32]) -> usize
        requires sound { IsSound 0 self.now }
        requires room { 32768 ≤ length cells.old }
        ensures count { result ≡ length (paging self.now).order }
        ensures few { result ≤ 32768 }
        ensures pages { take result cells.new ≡ (paging self.now).order }
    {
        self.lists.residents(cells)
    }

    /// Whether an area has the page.
    #[tactic(auto, unfolding(crate::specs::Store::paging, vax_space::specs::Areas::prot_of))]
    pub(crate) fn has(&self, page: u32) -> bool
        ensures { result ≡ is_some (area_of (paging self.now).areas page) }
    {
        self.space.prot_of(page).is_some()
    }

    /// A page's bytes at the start.
    #[tactic(auto, unfolding(crate::specs::Store::paging, crate::specs::Paging::start_of))]
    pub(crate) fn start_of(&self, page: u32) -> [u8; 512]
        requires within { is_some (area_of (paging self.now).areas page) ≡ true }
        ensures { result ≡ start_of (paging self.now).areas page }
    {
        match self.space.area_of(page) {
            Some(area) => start_block(area, page),
            None => unreachable!(),
        }
    }
}

/// The bytes at the start of a page of an area.
fn start_block(area: &Area, page: u32) -> [u8; 512]
    requires has { area.now.first ≤ page }
    ensures { result ≡ bytes_in area.now page }
{
    let bytes = area.bytes.as_slice();
    let place = (page - area.first) as usize * 512;
    let rest = &bytes[place.min(bytes.len())..];
    let count = rest.len().min(512);
    let mut block = [0; 512];
    block[..count].copy_from_slice(&rest[..count]);
    block
}
