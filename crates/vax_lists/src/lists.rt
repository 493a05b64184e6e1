//! The resident, the kept and the modified pages of a pager.
ghost use Rattle.std.specs.Prelude.{is_err, ◌≡◌, ◌≢◌, ◌≤◌, ◌<◌, ◌+◌, ◌-◌, ℕ, None, Some, [], IfOk, OnOk, OnErr, drop, is_some, slice_get, length, option_map, take};
ghost use Rattle.vax_outside.specs.Blocks.{PutsBlock};
ghost use Rattle.vax_outside.specs.Faults.{CountsFailure};
ghost use Rattle.vax_lists.specs.Lines.{EachOnce, appended, frame_in, with_kept, with_modified, with_order, without, pages_of};

use crate::circles::Circles;
use std::alloc::Global;
use std::marker::Model;
use vax_outside::{Failed, PageFile};
use vax_space::NoMemory;

/// A page, and the frame that it is in.
#[derive(Clone, Copy, PartialEq, Eq)]
pub struct Placed {
    pub page: u32,
    pub frame: u32,
}

/// The resident pages in order of service, the pages whose frames are kept after they were evicted in order of eviction,
/// and the pages that are modified in order of their first write. A page has one frame in all of them. Each call names a
/// page with its frame, so that nothing is searched. Only `new` takes memory, 12 bytes a frame.
#[derive(Drop)]
pub struct Lists {
    /// The frames of the resident pages, and those of the kept pages.
    held: Circles,
    /// The frames of the modified pages in the first list, and no frame in the second.
    modified: Circles,
    /// The page in each frame.
    pages: Vec<u32>,
}

impl Model for Lists {
    ghost use Rattle.vax_lists.specs.Lines.{ArePages, PageLists, page_lists};

    ghost Value = { PageLists };

    ghost view = { λ l. page_lists l.held l.modified l.pages.items };

    ghost invariant = { λ l. ArePages l.held l.modified l.pages.items };
}

impl Lists {
    /// No page, and room for the frames below `frames`, at most 32,768.
    pub fn new(alloc: Global, frames: u32) -> Result<Lists, NoMemory>
        requires few { frames ≤ 32768 }
        ensures { IfOk result
            (λ lists. lists ≡ record { order = []; kept = []; modified = []; limit = frames }) }
    {
        let held = Circles::new(alloc, frames)?;
        let modified = Circles::new(alloc, frames)?;
        let pages = vec![in alloc; 0u32; frames as usize]?;
        Ok(Lists {
            held,
            modified,
            pages,
        })
    }

    /// A page comes into a frame that no list has.
    #[inline]
    pub fn serve(&mut self, item: Placed)
        requires below { item.frame < self.old.limit }
        requires new { frame_in self.old.order item.page ≡ None }
        requires unserved { (other : ℕ) → frame_in self.old.order other ≢ Some item.frame }
        requires unkept { (other : ℕ) → frame_in self.old.kept other ≢ Some item.frame }
        requires unmodified { (other : ℕ) → frame_in self.old.modified other ≢ Some item.frame }
        ensures { self.new ≡ with_order self.old (appended self.old.order item.page item.frame) }
    {
        self.pages[item.frame as usize] = item.page;
        self.held.push_first(item.frame);
    }

    /// A resident page gives up its frame.
    #[inline]
    pub fn give_up(&mut self, item: Placed)
        requires there { frame_in self.old.order item.page ≡ Some item.frame }
        ensures order { self.new ≡ with_order self.old (without item.page self.old.order) }
        ensures fewer { length self.new.order + 1 ≡ length self.old.order }
    {
        self.held.remove_first(item.frame);
    }

    /// A resident page is kept in its frame.
    #[inline]
    pub fn keep(&mut self, item: Placed)
        requires below { item.frame < self.old.limit }
        requires there { frame_in self.old.order item.page ≡ Some item.frame }
        requires new { frame_in self.old.kept item.page ≡ None }
        ensures moved { self.new
            ≡ with_kept (with_order self.old (without item.page self.old.order))
            (appended self.old.kept item.page item.frame) }
        ensures fewer { length self.new.order + 1 ≡ length self.old.order }
    {
        self.held.remove_first(item.frame);
        self.held.push_second(item.frame);
    }

    /// A kept page is resident again.
    #[inline]
    pub fn take_back(&mut self, item: Placed)
        requires below { item.frame < self.old.limit }
        requires there { frame_in self.old.kept item.page ≡ Some item.frame }
        requires new { frame_in self.old.order item.page ≡ None }
        ensures moved { self.new ≡ with_order (with_kept self.old (without item.page self.old.kept))
            (appended self.old.order item.page item.frame) }
        ensures fewer { length self.new.kept + 1 ≡ length self.old.kept }
    {
        self.held.remove_second(item.frame);
        self.held.push_first(item.frame);
    }

    /// A kept page gives up its frame.
    #[inline]
    pub fn forget(&mut self, item: Placed)
        requires there { frame_in self.old.kept item.page ≡ Some item.frame }
        ensures kept { self.new ≡ with_kept self.old (without item.page self.old.kept) }
        ensures fewer { length self.new.kept + 1 ≡ length self.old.kept }
    {
        self.held.remove_second(item.frame);
    }

    /// A resident page that wasn't modified is modified.
    #[inline]
    pub fn touch(&mut self, item: Placed)
        requires below { item.frame < self.old.limit }
        requires there { frame_in self.old.order item.page ≡ Some item.frame }
        requires new { frame_in self.old.modified item.page ≡ None }
        ensures { self.new
            ≡ with_modified self.old (appended self.old.modified item.page item.frame) }
    {
        self.modified.push_first(item.frame);
    }

    /// A modified page is modified no more.
    #[inline]
    pub fn clean(&mut self, item: Placed)
        requires there { frame_in self.old.modified item.page ≡ Some item.frame }
        ensures { self.new ≡ with_modified self.old (without item.page self.old.modified) }
    {
        self.modified.remove_first(item.frame);
    }

    /// Writes a modified page to its block, and cleans it. After a failure the lists are as before.
    pub fn write_one<F: PageFile>(
        &mut self,
        item: Placed,
        block: u32,
        bytes: &[u8; 512],
        file: &mut F,
    ) -> Result<(), Failed>
        requires there { frame_in self.old.modified item.page ≡ Some item.frame }
        ensures wrote { OnOk result
            (PutsBlock block bytes.now (F.contents file.old) (F.contents file.new)) }
        ensures modified { OnOk result
            (self.new ≡ with_modified self.old (without item.page self.old.modified)) }
        ensures err { OnErr result (self.new ≡ self.old) }
        ensures unwritten { OnErr result (F.contents file.new ≡ F.contents file.old) }
        ensures counts { CountsFailure (is_err result) (F.faults file.old) (F.faults file.new) }
    {
        match file.write_block(block, bytes) {
            Ok(()) => {
                self.clean(item);
                Ok(())
            }
            Err(failed) => Err(failed),
        }
    }

    /// How many pages are kept.
    #[inline]
    pub fn kept(&self) -> u32
        ensures { result ≡ length self.now.kept }
    {
        self.held.second_len()
    }

    /// The resident page that was served first, none where none is resident.
    #[inline]
    pub fn first(&self) -> Option<Placed>
        ensures first { result ≡ slice_get self.now.order 0 }
        ensures once { EachOnce self.now.order }
    {
        let frame = self.held.first()?;
        Some(Placed {
            page: self.pages[frame as usize],
            frame,
        })
    }

    /// The page that was kept first, none where none is kept.
    #[inline]
    pub fn oldest(&self) -> Option<Placed>
        ensures { result ≡ slice_get self.now.kept 0 }
    {
        let frame = self.held.second()?;
        Some(Placed {
            page: self.pages[frame as usize],
            frame,
        })
    }

    /// The page that has been modified longest, none where none is modified.
    #[inline]
    pub fn next_modified(&self) -> Option<u32>
        ensures { result ≡ option_map (λ placed. placed.page) (slice_get self.now.modified 0) }
    {
        let frame = self.modified.first()?;
        Some(self.pages[frame as usize])
    }

    /// Writes the resident pages, in order of service, and answers how many these are; looks at no others.
    pub fn residents(&self, cells: &mut [u32]) -> usize
        requires room { length self.now.order ≤ length cells.old }
        ensures count { result ≡ length self.now.order }
        ensures pages { take result cells.new ≡ pages_of self.now.order }
    {
        self.held.read(&self.pages, cells)
    }

    /// Whether a resident page is among so many that were served last; looks at so many pages.
    pub fn is_among_last(&self, item: Placed, count: u32) -> bool
        requires there { frame_in self.now.order item.page ≡ Some item.frame }
        requires few { count ≤ length self.now.order }
        ensures { result ≡ is_some
            (frame_in (drop (length self.now.order - count) self.now.order) item.page) }
    {
        self.held.is_among_last(item.frame, count)
    }
}
