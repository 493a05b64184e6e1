//! The pager.
ghost use Rattle.std.specs.Prelude.{is_err, ◌≡◌, ◌<◌, ◌≤◌, IfOk, OnOk, OnErr, IfSome, true, false, length, is_some, take};
ghost use Rattle.vax_outside.specs.Faults.{CountsFailure};
ghost use Rattle.vax_pager.specs.Store.{IsSound};

use crate::PageFault;
use crate::store::Store;
use std::alloc::Global;
use vax_outside::PageFile;
use vax_space::{Access, NoMemory, Space};

/// How many pages came in, were made absent (those whose frame was taken among them), and were written to their blocks.
/// Each count stands still at its last value.
#[derive(Clone, Copy, PartialEq, Eq)]
pub struct Counts {
    pub served: u64,
    pub evicted: u64,
    pub written: u64,
}

/// The guest's memory in frames of 512 bytes, with a page file for the modified pages that are made absent. It is a port
/// whose resident pages are those in frames.
///
/// It stands, with a page file, for the memory of which each page's bytes are those in its frame, where it is resident,
/// else those in its block, where one was written in this run, else those at the start. Only `new` takes memory.
#[derive(Drop)]
pub struct Pager {
    pub(crate) store: Store,
    ghost sound: { IsSound 0 store },
}

impl Pager {
    ghost use Rattle.vax_space.specs.Areas.{area_of};
    ghost use Rattle.vax_space.specs.Reference.{page_of, violation};
    ghost use Rattle.vax_flat.specs.Outcome.{is_allowed};
    ghost use Rattle.vax_pager.specs.Listing.{first, is_listed};
    ghost use Rattle.vax_pager.specs.Paging.{Backs, Keeps};
    ghost use Rattle.vax_flat.specs.Start.{start_memory};
    ghost use Rattle.vax_outside.specs.Blocks.{BlockFile};
    ghost use Rattle.vax_pager.specs.Steps.{settled};
    ghost use Rattle.vax_pager.specs.Calls.{FillsFrame, IsByte, IsLeft, PeekedFrom, WhereNoCall, after_evict, after_flush, came, file_after, fresh, source, victim_of, wrote_back};
    ghost use Rattle.vax_pager.specs.Meaning.{hits, pages};
    ghost use Rattle.vax_pager.specs.Poking.{IsPage, OnlyRead, Pokes, ReadsAtMost};

    /// A pager over a space, with so many frames, 64 to 32,768. No page is resident, and with any page file it stands
    /// for the memory at the start.
    pub fn new(alloc: Global, space: Space, frames: u32) -> Result<Pager, NoMemory>
        requires some { 64 ≤ frames }
        requires few { frames ≤ 32768 }
        ensures pages { IfOk result (λ p. pages p ≡ fresh space frames) }
        ensures stands { IfOk result (λ p. (file : BlockFile)
            → Backs (pages p) file (start_memory space)) }
    {
        let store = Store::new(alloc, space, frames)?;
        Ok(Pager { store })
    }

    /// Makes an absent page resident and pins it. Where it needs a resident page's frame, it takes that of the page that
    /// isn't pinned and was served longest ago, and answers that page.
    ///
    /// The page's bytes come from its own frame, where that was kept, with no call on the file; else from its block,
    /// where it has one, by one read; else they are those at the start. Where it has no block, and the page whose frame is
    /// taken isn't modified, no call is made. After a failure everything is as it was, but where it was the page that
    /// wasn't read, the page whose frame was needed is unmodified, and was written to its block if it was modified.
    pub fn serve<F: PageFile>(&mut self, page: u32, file: &mut F) -> Result<Option<u32>, PageFault>
        requires within { is_some (area_of (pages self.old).areas page) ≡ true }
        requires absent { is_listed page (pages self.old).order ≡ false }
        requires pins { length (pages self.old).pinned < (pages self.old).frames }
        ensures answer { IfOk result (λ r. r ≡ victim_of (source page (pages self.old))) }
        ensures ok { OnOk result (pages self.new ≡ came (source page (pages self.old)) page
            ((pages self.new).frame page) (pages self.old)) }
        ensures file { OnOk result (F.contents file.new ≡ file_after
            (source page (pages self.old)) page (pages self.old) (F.contents file.old)) }
        ensures bytes { OnOk result
            (FillsFrame page (pages self.old) (F.contents file.old) (pages self.new)) }
        ensures taken { is_listed page (pages self.old).kept ≡ true → file.new ≡ file.old }
        ensures err { OnErr result (IsLeft (source page (pages self.old)) page (pages self.old)
            (F.contents file.old) (pages self.new) (F.contents file.new)) }
        ensures counts { CountsFailure (is_err result) (F.faults file.old) (F.faults file.new) }
        ensures blockless { WhereNoCall page (pages self.old) (file.new ≡ file.old) }
        ensures keeps { Keeps (pages self.old) (F.contents file.old) (pages self.new)
            (F.contents file.new) }
        ensures since { (start : F) → F.since start file.old → F.since start file.new }
    {
        self.store.serve(page, file)
    }

    /// Makes a page absent, and keeps its frame; the answer tells whether it was resident. A modified page is written to
    /// its block first. After a failure everything is as it was.
    pub fn evict<F: PageFile>(&mut self, page: u32, file: &mut F) -> Result<bool, PageFault>
        requires within { is_some (area_of (pages self.old).areas page) ≡ true }
        ensures answer { IfOk result (λ r. r ≡ is_listed page (pages self.old).order) }
        ensures ok { OnOk result (pages self.new ≡ after_evict page (pages self.old)) }
        ensures wrote { OnOk result
            (F.contents file.new ≡ wrote_back page (pages self.old) (F.contents file.old)) }
        ensures untouched { is_listed page (pages self.old).modified ≡ false → file.new ≡ file.old }
        ensures err { OnErr result (pages self.new ≡ pages self.old) }
        ensures unwritten { OnErr result (F.contents file.new ≡ F.contents file.old) }
        ensures needed { OnErr result (is_listed page (pages self.old).modified ≡ true) }
        ensures counts { CountsFailure (is_err result) (F.faults file.old) (F.faults file.new) }
        ensures keeps { Keeps (pages self.old) (F.contents file.old) (pages self.new)
            (F.contents file.new) }
        ensures since { (start : F) → F.since start file.old → F.since start file.new }
    {
        self.store.evict(page, file)
    }

    /// Writes a resident modified page to its block, and marks it unmodified; the answer tells whether it did. After a
    /// failure everything is as it was.
    pub fn flush<F: PageFile>(&mut self, page: u32, file: &mut F) -> Result<bool, PageFault>
        requires within { is_some (area_of (pages self.old).areas page) ≡ true }
        ensures answer { IfOk result (λ r. r ≡ is_listed page (pages self.old).modified) }
        ensures ok { OnOk result (pages self.new ≡ after_flush page (pages self.old)) }
        ensures wrote { OnOk result
            (F.contents file.new ≡ wrote_back page (pages self.old) (F.contents file.old)) }
        ensures untouched { is_listed page (pages self.old).modified ≡ false → file.new ≡ file.old }
        ensures err { OnErr result (pages self.new ≡ pages self.old) }
        ensures unwritten { OnErr result (F.contents file.new ≡ F.contents file.old) }
        ensures needed { OnErr result (is_listed page (pages self.old).modified ≡ true) }
        ensures counts { CountsFailure (is_err result) (F.faults file.old) (F.faults file.new) }
        ensures keeps { Keeps (pages self.old) (F.contents file.old) (pages self.new)
            (F.contents file.new) }
        ensures since { (start : F) → F.since start file.old → F.since start file.new }
    {
        self.store.flush(page, file)
    }

    /// Unpins all pages.
    pub fn settle(&mut self)
        ensures { pages self.new ≡ settled (pages self.old) }
    {
        self.store.settle();
    }

    /// A byte of the memory that the pager stands for, with no change of what is resident; none exactly where no area has
    /// it. A block is read only where the page is neither resident nor kept.
    pub fn peek<F: PageFile>(&mut self, addr: u32, file: &mut F) -> Result<Option<u8>, PageFault>
        ensures none { IfOk result
            (λ r. is_some r ≡ is_some (area_of (pages self.old).areas (page_of addr))) }
        ensures byte { IfOk result
            (λ r. IfSome r (IsByte (pages self.old) (F.contents file.old) addr)) }
        ensures from { IfOk result
            (λ r. IfSome r (PeekedFrom (pages self.old) (F.contents file.old) addr)) }
        ensures same { pages self.new ≡ pages self.old }
        ensures reads { OnlyRead (F.contents file.old) (F.contents file.new) }
        ensures once { ReadsAtMost 1 (F.contents file.old) (F.contents file.new) }
        ensures keeps { Keeps (pages self.old) (F.contents file.old) (pages self.new)
            (F.contents file.new) }
        ensures untouched { is_listed (page_of addr) (pages self.old).order ≡ true
            → file.new ≡ file.old }
        ensures kept { is_listed (page_of addr) (pages self.old).kept ≡ true → file.new ≡ file.old }
        ensures blockless { (pages self.old).blocked (page_of addr) ≡ false → file.new ≡ file.old }
        ensures err { OnErr result (F.contents file.new ≡ F.contents file.old) }
        ensures counts { CountsFailure (is_err result) (F.faults file.old) (F.faults file.new) }
    {
        self.store.peek(addr, file)
    }

    /// The bytes of a page of the memory that the pager stands for, with no change of what is resident; none exactly where no area has it. A
    /// block is read only where the page is neither resident nor kept.
    pub fn page<F: PageFile>(
        &mut self,
        page: u32,
        file: &mut F,
    ) -> Result<Option<[u8; 512]>, PageFault>
        ensures none { IfOk result
            (λ r. is_some r ≡ is_some (area_of (pages self.old).areas page)) }
        ensures bytes { IfOk result
            (λ r. IfSome r (IsPage (pages self.old) (F.contents file.old) page)) }
        ensures same { pages self.new ≡ pages self.old }
        ensures reads { OnlyRead (F.contents file.old) (F.contents file.new) }
        ensures once { ReadsAtMost 1 (F.contents file.old) (F.contents file.new) }
        ensures keeps { Keeps (pages self.old) (F.contents file.old) (pages self.new)
            (F.contents file.new) }
        ensures err { OnErr result (F.contents file.new ≡ F.contents file.old) }
        ensures counts { CountsFailure (is_err result) (F.faults file.old) (F.faults file.new) }
    {
        self.store.page(page, file)
    }

    /// Writes 1 to 64 bytes whatever the protection of their pages. It answers false exactly where some byte lies in no area, or in a page that no
    /// mode may write (those that some mode may write the kernel may), and changes nothing then.
    ///
    /// The pages come in first, and no page is pinned afterwards. The file is written and read for their services alone, and no call is made behind one that
    /// failed. After a failure every byte is as it was.
    pub fn poke<F: PageFile>(
        &mut self,
        addr: u32,
        bytes: &[u8],
        file: &mut F,
    ) -> Result<bool, PageFault>
        requires some { 1 ≤ length bytes.now }
        requires few { length bytes.now ≤ 64 }
        requires frames { 3 ≤ (pages self.old).frames }
        ensures answer { IfOk result (λ r. r ≡ is_allowed
            (violation (pages self.old).areas addr (length bytes.now) 0 Access.Write)) }
        ensures refused { IfOk result (λ r. r ≡ false
            → (self.new ≡ self.old) × (file.new ≡ file.old)) }
        ensures pokes { Pokes result addr bytes.now (pages self.old) (F.contents file.old)
            (pages self.new) (F.contents file.new) }
        ensures counts { CountsFailure (is_err result) (F.faults file.old) (F.faults file.new) }
    {
        self.store.poke(addr, bytes, file)
    }

    /// The space.
    pub fn space(&self) -> &Space
        ensures { result.now ≡ (pages self.now).areas }
    {
        self.store.space()
    }

    /// Whether an area has the page.
    pub fn has(&self, page: u32) -> bool
        ensures { result ≡ is_some (area_of (pages self.now).areas page) }
    {
        self.store.has(page)
    }

    /// Whether the page is resident.
    pub fn is_resident(&self, page: u32) -> bool
        ensures { result ≡ is_listed page (pages self.now).order }
    {
        self.store.is_resident(page)
    }

    /// Writes the resident pages, in order of service, and answers how many these are. It takes time in these alone.
    pub fn residents(&self, cells: &mut [u32]) -> usize
        requires room { 32768 ≤ length cells.old }
        ensures count { result ≡ length (pages self.now).order }
        ensures few { result ≤ 32768 }
        ensures pages { take result cells.new ≡ (pages self.now).order }
    {
        self.store.residents(cells)
    }

    /// How many pages may be in frames.
    pub fn frames(&self) -> u32
        ensures { result ≡ (pages self.now).frames }
    {
        self.store.frames()
    }

    /// How many pages are pinned.
    pub fn pins(&self) -> u32
        ensures { result ≡ length (pages self.now).pinned }
    {
        self.store.pins()
    }

    /// Whether the page is pinned; looks at 40 pages at most.
    pub fn is_pinned(&self, page: u32) -> bool
        ensures { result ≡ is_listed page (pages self.now).pinned }
    {
        self.store.is_pinned(page)
    }

    /// How many pages are kept: absent pages that still have a frame.
    pub fn kept(&self) -> u32
        ensures { result ≡ length (pages self.now).kept }
    {
        self.store.kept()
    }

    /// Whether the page is kept: it is absent, and still has its frame.
    pub fn is_kept(&self, page: u32) -> bool
        ensures { result ≡ is_listed page (pages self.now).kept }
    {
        self.store.kept_frame(page).is_some()
    }

    /// Whether the page is resident and modified.
    pub fn is_modified(&self, page: u32) -> bool
        ensures { result ≡ is_listed page (pages self.now).modified }
    {
        self.store.modified_frame(page).is_some()
    }

    /// The resident page that has been modified longest, none where none is modified.
    pub fn next_flush(&self) -> Option<u32>
        ensures { result ≡ first (pages self.now).modified }
    {
        self.store.next_flush()
    }

    /// How many pages came in, were made absent and were written to their blocks.
    pub fn counts(&self) -> Counts
        ensures served { result.served ≡ (pages self.now).numbers.served }
        ensures evicted { result.evicted ≡ (pages self.now).numbers.evicted }
        ensures written { result.written ≡ (pages self.now).numbers.written }
    {
        self.store.counts()
    }

    /// How many evictions were of a pinned page.
    pub fn spoiled(&self) -> u64
        ensures { result ≡ (pages self.now).numbers.spoiled }
    {
        self.store.spoiled()
    }

    /// How often a page's entry was in the translation buffer when it was asked for.
    pub fn hits(&self) -> u64
        ensures { result ≡ hits self.now }
    {
        self.store.hits()
    }
}
