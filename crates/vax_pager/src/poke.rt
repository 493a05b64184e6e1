//! What a console asks of a pager: the bytes of a page, and bytes written whatever the page's protection.
ghost use Rattle.std.specs.Prelude.{is_err, ◌≡◌, ◌+◌, ◌-◌, ◌<◌, ◌≤◌, ◌%◌, true, false, length, is_some, IfOk, IfSome, OnOk, OnErr, None, [], ◌∷◌};
ghost use Rattle.vax_outside.specs.Faults.{CountsFailure};

use crate::PageFault;
use crate::store::Store;
use vax_outside::PageFile;
use vax_space::{Access, PAGE_BYTES};

/// The mode that may write every page that some mode may write.
const KERNEL: u8 = 0;

impl Store {
    ghost use Rattle.vax_space.specs.Areas.{area_of};
    ghost use Rattle.vax_space.specs.Reference.{byte_after, page_of, violation};
    ghost use Rattle.vax_flat.specs.Outcome.{is_allowed};
    ghost use Rattle.vax_pager.specs.Listing.{is_listed};
    ghost use Rattle.vax_pager.specs.Paging.{Keeps};
    ghost use Rattle.vax_pager.specs.Poking.{AllComeIn, BringsIn, ComesIn, IsPage, MarksNone, OnlyRead, Pokes, ReadsAtMost, SomeComeIn, StaysAlike, StaysOut, WritesThere, backed};
    ghost use Rattle.vax_pager.specs.Store.{IsSound, paging};

    /// The bytes of a page, resident or not.
    pub(crate) fn page<F: PageFile>(
        &self,
        page: u32,
        file: &mut F,
    ) -> Result<Option<[u8; 512]>, PageFault>
        requires sound { IsSound 0 self.now }
        ensures none { IfOk result
            (λ r. is_some r ≡ is_some (area_of (paging self.now).areas page)) }
        ensures bytes { IfOk result
            (λ r. IfSome r (IsPage (paging self.now) (F.contents file.old) page)) }
        ensures reads { OnlyRead (F.contents file.old) (F.contents file.new) }
        ensures once { ReadsAtMost 1 (F.contents file.old) (F.contents file.new) }
        ensures err { OnErr result (F.contents file.new ≡ F.contents file.old) }
        ensures keeps { Keeps (paging self.now) (F.contents file.old) (paging self.now)
            (F.contents file.new) }
        ensures counts { CountsFailure (is_err result) (F.faults file.old) (F.faults file.new) }
    {
        if !self.has(page) {
            return Ok(None);
        }
        if self.is_resident(page) {
            let frame = self.resident_frame(page);
            return Ok(Some(self.frames[frame as usize]));
        }
        if let Some(frame) = self.kept_frame(page) {
            return Ok(Some(self.frames[frame as usize]));
        }
        let bytes = self.fetch(page, file)?;
        Ok(Some(bytes))
    }

    /// Makes a page resident, if it isn't.
    fn bring_in<F: PageFile>(&mut self, page: u32, file: &mut F) -> Result<(), PageFault>
        requires sound { IsSound 0 self.old }
        requires within { is_some (area_of (paging self.old).areas page) ≡ true }
        requires pins { length (paging self.old).pinned < (paging self.old).frames }
        ensures sound { IsSound 0 self.new }
        ensures alike { StaysAlike (paging self.old) (paging self.new) }
        ensures marks { MarksNone (paging self.old) (F.contents file.old) (paging self.new)
            (F.contents file.new) }
        ensures brings { OnOk result (BringsIn page (paging self.old) (paging self.new)) }
        ensures comes { OnOk result (ComesIn page (backed (paging self.old) (F.contents file.old))
            (backed (paging self.new) (F.contents file.new))) }
        ensures out { OnErr result (StaysOut page (backed (paging self.old) (F.contents file.old))
            (backed (paging self.new) (F.contents file.new))) }
        ensures counts { CountsFailure (is_err result) (F.faults file.old) (F.faults file.new) }
        ensures keeps { Keeps (paging self.old) (F.contents file.old) (paging self.new)
            (F.contents file.new) }
    {
        if !self.is_resident(page) {
            self.serve(page, file)?;
        }
        Ok(())
    }

    /// Makes two pages resident, of which the service of the one may make the other absent.
    fn bring_both<F: PageFile>(
        &mut self,
        low: u32,
        high: u32,
        file: &mut F,
    ) -> Result<(), PageFault>
        requires sound { IsSound 0 self.old }
        requires low { is_some (area_of (paging self.old).areas low) ≡ true }
        requires high { is_some (area_of (paging self.old).areas high) ≡ true }
        requires unpinned { (paging self.old).pinned ≡ [] }
        requires frames { 3 ≤ (paging self.old).frames }
        ensures sound { IsSound 0 self.new }
        ensures alike { StaysAlike (paging self.old) (paging self.new) }
        ensures marks { MarksNone (paging self.old) (F.contents file.old) (paging self.new)
            (F.contents file.new) }
        ensures low { OnOk result (is_listed low (paging self.new).order ≡ true) }
        ensures high { OnOk result (is_listed high (paging self.new).order ≡ true) }
        ensures comes { OnOk result (AllComeIn (low ∷ high ∷ low ∷ [])
            (backed (paging self.old) (F.contents file.old))
            (backed (paging self.new) (F.contents file.new))) }
        ensures out { OnErr result (SomeComeIn (low ∷ high ∷ low ∷ [])
            (backed (paging self.old) (F.contents file.old))
            (backed (paging self.new) (F.contents file.new))) }
        ensures counts { CountsFailure (is_err result) (F.faults file.old) (F.faults file.new) }
        ensures keeps { Keeps (paging self.old) (F.contents file.old) (paging self.new)
            (F.contents file.new) }
    {
        self.bring_in(low, file)?;
        self.bring_in(high, file)?;
        self.bring_in(low, file)?;
        Ok(())
    }

    /// Writes bytes that lie in one resident page that the kernel may write.
    fn put_there(&mut self, addr: u32, bytes: &[u8])
        requires sound { IsSound 0 self.old }
        requires some { 1 ≤ length bytes.now }
        requires one_page { addr % 512 + length bytes.now ≤ 512 }
        requires allowed { violation (paging self.old).areas addr (length bytes.now) 0 Access.Write
            ≡ None }
        requires resident { is_listed (page_of addr) (paging self.old).order ≡ true }
        ensures sound { IsSound 0 self.new }
        ensures writes { WritesThere (paging self.old) addr bytes.now (paging self.new) }
    {
        match self.write_run(addr, bytes, KERNEL) {
            Ok(()) => {}
            Err(_) => unreachable!(),
        }
    }

    /// Writes bytes that lie in resident pages that the kernel may write.
    fn put_bytes(&mut self, addr: u32, bytes: &[u8])
        requires sound { IsSound 0 self.old }
        requires some { 1 ≤ length bytes.now }
        requires few { length bytes.now ≤ 64 }
        requires allowed { violation (paging self.old).areas addr (length bytes.now) 0 Access.Write
            ≡ None }
        requires low { is_listed (page_of addr) (paging self.old).order ≡ true }
        requires high { is_listed (page_of (byte_after addr (length bytes.now - 1)))
            (paging self.old).order ≡ true }
        ensures sound { IsSound 0 self.new }
        ensures writes { WritesThere (paging self.old) addr bytes.now (paging self.new) }
    {
        let first = (PAGE_BYTES - addr % PAGE_BYTES) as usize;
        if bytes.len() > first {
            let next = addr.wrapping_add(first as u32);
            self.put_there(next, &bytes[first..]);
            self.put_there(addr, &bytes[..first]);
        } else {
            self.put_there(addr, bytes);
        }
    }

    /// Writes bytes whatever the protection of their pages, if some mode may write each of these.
    pub(crate) fn poke<F: PageFile>(
        &mut self,
        addr: u32,
        bytes: &[u8],
        file: &mut F,
    ) -> Result<bool, PageFault>
        requires sound { IsSound 0 self.old }
        requires some { 1 ≤ length bytes.now }
        requires few { length bytes.now ≤ 64 }
        requires frames { 3 ≤ (paging self.old).frames }
        ensures sound { IsSound 0 self.new }
        ensures answer { IfOk result (λ r. r ≡ is_allowed
            (violation (paging self.old).areas addr (length bytes.now) 0 Access.Write)) }
        ensures refused { IfOk result (λ r. r ≡ false
            → (self.new ≡ self.old) × (file.new ≡ file.old)) }
        ensures pokes { Pokes result addr bytes.now (paging self.old) (F.contents file.old)
            (paging self.new) (F.contents file.new) }
        ensures counts { CountsFailure (is_err result) (F.faults file.old) (F.faults file.new) }
    {
        let count = bytes.len() as u32;
        if self.check(addr, count, KERNEL, Access::Write).is_err() {
            return Ok(false);
        }
        let last = addr.wrapping_add(count - 1);
        self.settle();
        let brought = self.bring_both(addr / PAGE_BYTES, last / PAGE_BYTES, file);
        self.settle();
        brought?;
        self.put_bytes(addr, bytes);
        Ok(true)
    }
}
