//! The calls of a pager on a page file.
ghost use Rattle.std.specs.Prelude.{is_err, ◌≡◌, ◌+◌, ◌<◌, ◌/◌, ◌%◌, ◌++◌, ◌∷◌, [], true, false, length, slice_index, slice_index_or, is_some, IfOk, OnOk, OnErr, Some, None, IfSome};
ghost use Rattle.vax_outside.specs.Faults.{CountsFailure};

use crate::store::Store;
use thiserror::Error;
use vax_lists::Placed;
use vax_outside::PageFile;
use vax_space::{PAGE_BYTES, PAGES};

/// A call of the page file failed.
#[derive(Clone, Copy, PartialEq, Eq, Debug, Error)]
#[error("a call of the page file failed")]
pub struct PageFault;

impl Store {
    ghost use Rattle.vax_space.specs.Areas.{area_of, block_of};
    ghost use Rattle.vax_space.specs.Reference.{page_of};
    ghost use Rattle.vax_lists.specs.Lines.{frame_in};
    ghost use Rattle.vax_pager.specs.Listing.{is_listed};
    ghost use Rattle.vax_pager.specs.Paging.{ComesFrom, Keeps};
    ghost use Rattle.vax_pager.specs.Poking.{OnlyRead, ReadsAtMost};
    ghost use Rattle.vax_pager.specs.Steps.{brought, forgotten, removed};
    ghost use Rattle.vax_pager.specs.Calls.{Empty, FillsFrame, OfKept, OfVictim, WhereNoCall, after_flush, wrote_back, after_evict, read_for, source, victim_of, came, file_after, IsByte, IsLeft, PeekedFrom};
    ghost use Rattle.vax_pager.specs.Store.{IsSound, paging};

    /// Writes a resident modified page to its block.
    pub(crate) fn flush<F: PageFile>(&mut self, page: u32, file: &mut F) -> Result<bool, PageFault>
        requires sound { IsSound 0 self.old }
        requires within { is_some (area_of (paging self.old).areas page) ≡ true }
        ensures sound { IsSound 0 self.new }
        ensures answer { IfOk result (λ r. r ≡ is_listed page (paging self.old).modified) }
        ensures ok { OnOk result (paging self.new ≡ after_flush page (paging self.old)) }
        ensures wrote { OnOk result
            (F.contents file.new ≡ wrote_back page (paging self.old) (F.contents file.old)) }
        ensures untouched { is_listed page (paging self.old).modified ≡ false
            → file.new ≡ file.old }
        ensures err { OnErr result (paging self.new ≡ paging self.old) }
        ensures unwritten { OnErr result (F.contents file.new ≡ F.contents file.old) }
        ensures needed { OnErr result (is_listed page (paging self.old).modified ≡ true) }
        ensures counts { CountsFailure (is_err result) (F.faults file.old) (F.faults file.new) }
        ensures keeps { Keeps (paging self.old) (F.contents file.old) (paging self.new)
            (F.contents file.new) }
        ensures since { (start : F) → F.since start file.old → F.since start file.new }
    {
        match self.modified_frame(page) {
            None => Ok(false),
            Some(frame) => {
                let block = self.block_of(page);
                match file.write_block(block, &self.frames[frame as usize]) {
                    Err(_) => Err(PageFault),
                    Ok(()) => {
                        self.mark_flushed(page, frame, block);
                        Ok(true)
                    }
                }
            }
        }
    }

    /// The number of the block of a page that some mode may write.
    fn block_of(&self, page: u32) -> u32
        requires { is_some (block_of self.now.space page) ≡ true }
        ensures value { block_of self.now.space page ≡ Some result }
        ensures few { result < PAGES }
    {
        match self.space.block_of(page) {
            Some(block) => block,
            None => unreachable!(),
        }
    }

    /// The bytes of a page that has no frame.
    pub(crate) fn fetch<F: PageFile>(&self, page: u32, file: &mut F) -> Result<[u8; 512], PageFault>
        requires sound { IsSound 0 self.now }
        requires within { is_some (area_of (paging self.now).areas page) ≡ true }
        ensures bytes { IfOk result
            (λ x. ComesFrom (paging self.now) (F.contents file.old) page x) }
        ensures read { OnOk result
            (F.contents file.new ≡ read_for page (paging self.now) (F.contents file.old)) }
        ensures untouched { (paging self.now).blocked page ≡ false → file.new ≡ file.old }
        ensures err { OnErr result (F.contents file.new ≡ F.contents file.old) }
        ensures needed { OnErr result ((paging self.now).blocked page ≡ true) }
        ensures counts { CountsFailure (is_err result) (F.faults file.old) (F.faults file.new) }
        ensures since { (start : F) → F.since start file.old → F.since start file.new }
    {
        match self.written_block(page) {
            None => Ok(self.start_of(page)),
            Some(block) => {
                let mut bytes = [0; 512];
                match file.read_block(block, &mut bytes) {
                    Err(_) => Err(PageFault),
                    Ok(()) => Ok(bytes),
                }
            }
        }
    }

    /// The number of a page's block, where it was written in this run.
    fn written_block(&self, page: u32) -> Option<u32>
        requires sound { IsSound 0 self.now }
        ensures blocked { is_some result ≡ (paging self.now).blocked page }
        ensures block { IfSome result
            (λ block. block_of (paging self.now).areas page ≡ Some block) }
    {
        match self.space.block_of(page) {
            None => None,
            Some(block) => {
                if self.blocked.has(block) {
                    Some(block)
                } else {
                    None
                }
            }
        }
    }

    /// Makes a page absent.
    pub(crate) fn evict<F: PageFile>(&mut self, page: u32, file: &mut F) -> Result<bool, PageFault>
        requires sound { IsSound 0 self.old }
        requires within { is_some (area_of (paging self.old).areas page) ≡ true }
        ensures sound { IsSound 0 self.new }
        ensures answer { IfOk result (λ r. r ≡ is_listed page (paging self.old).order) }
        ensures ok { OnOk result (paging self.new ≡ after_evict page (paging self.old)) }
        ensures wrote { OnOk result
            (F.contents file.new ≡ wrote_back page (paging self.old) (F.contents file.old)) }
        ensures untouched { is_listed page (paging self.old).modified ≡ false
            → file.new ≡ file.old }
        ensures err { OnErr result (paging self.new ≡ paging self.old) }
        ensures unwritten { OnErr result (F.contents file.new ≡ F.contents file.old) }
        ensures needed { OnErr result (is_listed page (paging self.old).modified ≡ true) }
        ensures counts { CountsFailure (is_err result) (F.faults file.old) (F.faults file.new) }
        ensures keeps { Keeps (paging self.old) (F.contents file.old) (paging self.new)
            (F.contents file.new) }
        ensures since { (start : F) → F.since start file.old → F.since start file.new }
    {
        if !self.is_resident(page) {
            return Ok(false);
        }
        self.flush(page, file)?;
        self.release(page);
        Ok(true)
    }

    /// Brings in an absent page, into a frame that no page has had.
    fn serve_empty<F: PageFile>(&mut self, page: u32, file: &mut F) -> Result<(), PageFault>
        requires sound { IsSound 0 self.old }
        requires within { is_some (area_of (paging self.old).areas page) ≡ true }
        requires absent { is_listed page (paging self.old).order ≡ false }
        requires unkept { is_listed page (paging self.old).kept ≡ false }
        requires room { length (paging self.old).order + length (paging self.old).kept
            < (paging self.old).frames }
        ensures sound { IsSound 0 self.new }
        ensures ok { OnOk result
            (paging self.new ≡ brought page ((paging self.new).frame page) (paging self.old)) }
        ensures bytes { OnOk result (ComesFrom (paging self.old) (F.contents file.old) page
            ((paging self.new).frame page)) }
        ensures read { OnOk result
            (F.contents file.new ≡ read_for page (paging self.old) (F.contents file.old)) }
        ensures err { OnErr result (IsLeft Empty page (paging self.old) (F.contents file.old)
            (paging self.new) (F.contents file.new)) }
        ensures counts { CountsFailure (is_err result) (F.faults file.old) (F.faults file.new) }
        ensures untouched { (paging self.old).blocked page ≡ false → file.new ≡ file.old }
        ensures keeps { Keeps (paging self.old) (F.contents file.old) (paging self.new)
            (F.contents file.new) }
        ensures since { (start : F) → F.since start file.old → F.since start file.new }
    {
        let bytes = self.fetch(page, file)?;
        let frame = self.grow();
        self.bring(page, frame, &bytes);
        Ok(())
    }

    /// Brings in an absent page, into the frame of a kept page.
    fn serve_kept<F: PageFile>(
        &mut self,
        page: u32,
        old: Placed,
        file: &mut F,
    ) -> Result<(), PageFault>
        requires sound { IsSound 0 self.old }
        requires within { is_some (area_of (paging self.old).areas page) ≡ true }
        requires absent { is_listed page (paging self.old).order ≡ false }
        requires unkept { is_listed page (paging self.old).kept ≡ false }
        requires kept { frame_in self.old.lists.kept old.page ≡ Some old.frame }
        ensures sound { IsSound 0 self.new }
        ensures ok { OnOk result (paging self.new
            ≡ brought page ((paging self.new).frame page) (forgotten old.page (paging self.old))) }
        ensures bytes { OnOk result (ComesFrom (paging self.old) (F.contents file.old) page
            ((paging self.new).frame page)) }
        ensures read { OnOk result
            (F.contents file.new ≡ read_for page (paging self.old) (F.contents file.old)) }
        ensures err { OnErr result (IsLeft (OfKept old.page) page (paging self.old)
            (F.contents file.old) (paging self.new) (F.contents file.new)) }
        ensures counts { CountsFailure (is_err result) (F.faults file.old) (F.faults file.new) }
        ensures untouched { (paging self.old).blocked page ≡ false → file.new ≡ file.old }
        ensures keeps { Keeps (paging self.old) (F.contents file.old) (paging self.new)
            (F.contents file.new) }
        ensures since { (start : F) → F.since start file.old → F.since start file.new }
    {
        let bytes = self.fetch(page, file)?;
        self.forget(old.page, old.frame);
        self.bring(page, old.frame, &bytes);
        Ok(())
    }

    /// Brings in an absent page, into the frame of a resident page.
    fn serve_victim<F: PageFile>(
        &mut self,
        page: u32,
        victim: u32,
        file: &mut F,
    ) -> Result<(), PageFault>
        requires sound { IsSound 0 self.old }
        requires within { is_some (area_of (paging self.old).areas page) ≡ true }
        requires absent { is_listed page (paging self.old).order ≡ false }
        requires unkept { is_listed page (paging self.old).kept ≡ false }
        requires resident { is_listed victim (paging self.old).order ≡ true }
        requires unpinned { is_listed victim (paging self.old).pinned ≡ false }
        ensures sound { IsSound 0 self.new }
        ensures ok { OnOk result (paging self.new ≡ brought page ((paging self.new).frame page)
            (removed victim (after_flush victim (paging self.old)))) }
        ensures bytes { OnOk result (ComesFrom (paging self.old) (F.contents file.old) page
            ((paging self.new).frame page)) }
        ensures read { OnOk result (F.contents file.new ≡ read_for page (paging self.old)
            (wrote_back victim (paging self.old) (F.contents file.old))) }
        ensures err { OnErr result (IsLeft (OfVictim victim) page (paging self.old)
            (F.contents file.old) (paging self.new) (F.contents file.new)) }
        ensures counts { CountsFailure (is_err result) (F.faults file.old) (F.faults file.new) }
        ensures untouched { (paging self.old).blocked page ≡ false
            → is_listed victim (paging self.old).modified ≡ false → file.new ≡ file.old }
        ensures keeps { Keeps (paging self.old) (F.contents file.old) (paging self.new)
            (F.contents file.new) }
        ensures since { (start : F) → F.since start file.old → F.since start file.new }
    {
        self.flush(victim, file)?;
        let bytes = self.fetch(page, file)?;
        let frame = self.give_up(victim);
        self.bring(page, frame, &bytes);
        Ok(())
    }

    /// Makes an absent page resident and pins it.
    pub(crate) fn serve<F: PageFile>(
        &mut self,
        page: u32,
        file: &mut F,
    ) -> Result<Option<u32>, PageFault>
        requires sound { IsSound 0 self.old }
        requires within { is_some (area_of (paging self.old).areas page) ≡ true }
        requires absent { is_listed page (paging self.old).order ≡ false }
        requires pins { length (paging self.old).pinned < (paging self.old).frames }
        ensures sound { IsSound 0 self.new }
        ensures answer { IfOk result (λ r. r ≡ victim_of (source page (paging self.old))) }
        ensures ok { OnOk result (paging self.new ≡ came (source page (paging self.old)) page
            ((paging self.new).frame page) (paging self.old)) }
        ensures pinned { OnOk result
            ((paging self.new).pinned ≡ (paging self.old).pinned ++ page ∷ []) }
        ensures file { OnOk result (F.contents file.new ≡ file_after
            (source page (paging self.old)) page (paging self.old) (F.contents file.old)) }
        ensures bytes { OnOk result
            (FillsFrame page (paging self.old) (F.contents file.old) (paging self.new)) }
        ensures taken { is_listed page (paging self.old).kept ≡ true → file.new ≡ file.old }
        ensures err { OnErr result (IsLeft (source page (paging self.old)) page (paging self.old)
            (F.contents file.old) (paging self.new) (F.contents file.new)) }
        ensures counts { CountsFailure (is_err result) (F.faults file.old) (F.faults file.new) }
        ensures blockless { WhereNoCall page (paging self.old) (file.new ≡ file.old) }
        ensures keeps { Keeps (paging self.old) (F.contents file.old) (paging self.new)
            (F.contents file.new) }
        ensures since { (start : F) → F.since start file.old → F.since start file.new }
    {
        if let Some(frame) = self.kept_frame(page) {
            self.take_back(page, frame);
            return Ok(None);
        }
        if self.has_empty() {
            self.serve_empty(page, file)?;
            return Ok(None);
        }
        match self.oldest_kept() {
            Some(old) => {
                self.serve_kept(page, old, file)?;
                Ok(None)
            }
            None => {
                let victim = self.victim();
                self.serve_victim(page, victim, file)?;
                Ok(Some(victim))
            }
        }
    }

    /// A byte of a page, resident or not.
    pub(crate) fn peek<F: PageFile>(&self, addr: u32, file: &mut F) -> Result<Option<u8>, PageFault>
        requires sound { IsSound 0 self.now }
        ensures none { IfOk result
            (λ r. is_some r ≡ is_some (area_of (paging self.now).areas (page_of addr))) }
        ensures byte { IfOk result
            (λ r. IfSome r (IsByte (paging self.now) (F.contents file.old) addr)) }
        ensures from { IfOk result
            (λ r. IfSome r (PeekedFrom (paging self.now) (F.contents file.old) addr)) }
        ensures reads { OnlyRead (F.contents file.old) (F.contents file.new) }
        ensures once { ReadsAtMost 1 (F.contents file.old) (F.contents file.new) }
        ensures untouched { is_listed (page_of addr) (paging self.now).order ≡ true
            → file.new ≡ file.old }
        ensures kept { is_listed (page_of addr) (paging self.now).kept ≡ true
            → file.new ≡ file.old }
        ensures blockless { (paging self.now).blocked (page_of addr) ≡ false → file.new ≡ file.old }
        ensures err { OnErr result (F.contents file.new ≡ F.contents file.old) }
        ensures keeps { Keeps (paging self.now) (F.contents file.old) (paging self.now)
            (F.contents file.new) }
        ensures counts { CountsFailure (is_err result) (F.faults file.old) (F.faults file.new) }
    {
        let page = addr / PAGE_BYTES;
        if !self.has(page) {
            return Ok(None);
        }
        if self.is_resident(page) {
            let frame = self.resident_frame(page);
            return Ok(Some(self.byte_of(frame, addr)));
        }
        if let Some(frame) = self.kept_frame(page) {
            return Ok(Some(self.byte_of(frame, addr)));
        }
        let bytes = self.fetch(page, file)?;
        Ok(Some(bytes[(addr % PAGE_BYTES) as usize]))
    }

    /// A byte of a frame.
    fn byte_of(&self, frame: u32, addr: u32) -> u8
        requires sound { IsSound 0 self.now }
        requires room { frame < length self.now.frames.items }
        ensures { result ≡ slice_index (slice_index_or self.now.frames.items frame [])
            (addr % 512) }
    {
        self.frames[frame as usize][(addr % PAGE_BYTES) as usize]
    }
}
