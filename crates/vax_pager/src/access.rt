//! Reads and writes of resident pages.
ghost use Rattle.std.specs.Prelude.{◌≡◌, ◌+◌, ◌-◌, ◌*◌, ◌^◌, ◌<◌, ◌≤◌, ◌%◌, false, true, length, is_some, IfNone, IfSome, OnErr, OnOk, Ok, Some, None};
ghost use Rattle.vax_table.specs.Mapping.{frame_of};

use crate::store::Store;
use vax_flat::Stop;
use vax_lists::Placed;
use vax_space::{Access, PAGE_BYTES, Violation};
use vax_table::Walk;
use vax_undo::{number_of, number_of_parts, put_number};

/// The frame that a page is in, as the tables say.
#[inline]
fn frame_of(walk: Walk) -> Option<u32>
    ensures { result ≡ frame_of walk }
{
    match walk {
        Walk::Resident {
            frame,
            prot: _,
            modified: _,
        } => Some(frame),
        Walk::Absent { prot: _ } => None,
        Walk::Outside { length: _ } => None,
    }
}

impl Store {
    ghost use Rattle.vax_space.specs.Areas.{block_of};
    ghost use Rattle.vax_space.specs.Reference.{byte_after, page_of, violation};
    ghost use Rattle.vax_tb.specs.Meaning.{buffered};
    ghost use Rattle.vax_tb.specs.Buffer.{raised_if};
    ghost use Rattle.vax_flat.specs.Memory.{bytes_from, number};
    ghost use Rattle.vax_flat.specs.Port.{AreBytes, loaded, stop, stored, stored_run, with_number};
    ghost use Rattle.vax_undo.specs.Answers.{err_of, replaced};
    ghost use Rattle.vax_undo.specs.Blocks.{low_bytes};
    ghost use Rattle.vax_pager.specs.Listing.{is_listed};
    ghost use Rattle.vax_pager.specs.Paging.{loaded_allowed, stored_allowed, view_of};
    ghost use Rattle.vax_pager.specs.Steps.{OnlyWritten, touched, touched_page};
    ghost use Rattle.vax_pager.specs.Store.{CountsHit, IsFrame, IsSound, LiesIn, held, paging, with_bytes};

    /// The frame of a page, where it is resident. Its entry is in the buffer afterwards.
    #[inline]
    fn frame_of(&mut self, page: u32) -> Option<u32>
        requires sound { IsSound 0 self.old }
        ensures sound { IsSound 0 self.new }
        ensures paging { paging self.new ≡ paging self.old }
        ensures resident { is_some result ≡ is_listed page (paging self.old).order }
        ensures held { IfSome result (λ frame. held self.new page ≡ Some frame) }
        ensures frames { held self.new ≡ held self.old }
        ensures entry { is_some (buffered self.new.buffer page) ≡ true }
        ensures hits { self.new.buffer.hits
            ≡ raised_if (is_some (buffered self.old.buffer page)) self.old.buffer.hits }
    {
        frame_of(self.buffer.walk(page, &self.tables))
    }

    /// The frame of a range within a page to which the mode may make the access with no look at the tables.
    #[inline(always)]
    fn frame_at_once(&mut self, addr: u32, n: u32, mode: u8, access: Access) -> Option<u32>
        requires sound { IsSound 0 self.old }
        requires of_mode { mode ≤ 3 }
        ensures sound { IsSound 0 self.new }
        ensures paging { paging self.new ≡ paging self.old }
        ensures held { held self.new ≡ held self.old }
        ensures frame { IfSome result
            (λ frame. IsFrame addr n mode access frame self.old self.new) }
        ensures entries { buffered self.new.buffer ≡ buffered self.old.buffer }
        ensures hits { self.new.buffer.hits ≡ raised_if (is_some result) self.old.buffer.hits }
    {
        if n > PAGE_BYTES - addr % PAGE_BYTES {
            return None;
        }
        self.buffer.frame_at_once(addr / PAGE_BYTES, mode, access)
    }

    /// The same frame, but it counts as no hit.
    #[inline(always)]
    fn seen_at_once(&self, addr: u32, n: u32, mode: u8, access: Access) -> Option<u32>
        requires sound { IsSound 0 self.now }
        requires of_mode { mode ≤ 3 }
        ensures { IfSome result (λ frame. IsFrame addr n mode access frame self.now self.now) }
    {
        if n > PAGE_BYTES - addr % PAGE_BYTES {
            return None;
        }
        self.buffer.seen_at_once(addr / PAGE_BYTES, mode, access)
    }

    /// The frame of such a range whose page has no entry in the buffer, by the tables: its entry is there afterwards.
    #[inline(always)]
    fn frame_by_walk(&mut self, addr: u32, n: u32, mode: u8, access: Access) -> Option<u32>
        requires sound { IsSound 0 self.old }
        requires of_mode { mode ≤ 3 }
        ensures sound { IsSound 0 self.new }
        ensures paging { paging self.new ≡ paging self.old }
        ensures held { held self.new ≡ held self.old }
        ensures frame { IfSome result
            (λ frame. IsFrame addr n mode access frame self.old self.new) }
        ensures left { IfNone result (buffered self.new.buffer ≡ buffered self.old.buffer) }
        ensures missed { is_some result ≡ true
            → is_some (buffered self.old.buffer (page_of addr)) ≡ false }
        ensures hits { self.new.buffer.hits ≡ self.old.buffer.hits }
    {
        if n > PAGE_BYTES - addr % PAGE_BYTES {
            return None;
        }
        self.buffer
            .frame_by_walk(addr / PAGE_BYTES, mode, access, &self.tables)
    }

    /// The number that some bytes of a frame are.
    #[inline(always)]
    fn number_in(&self, frame: u32, addr: u32, n: u32) -> u64
        requires sound { IsSound 0 self.now }
        requires some { 1 ≤ n }
        requires few { n ≤ 8 }
        requires one_page { addr % 512 + n ≤ 512 }
        requires held { held self.now (page_of addr) ≡ Some frame }
        ensures { result ≡ number (view_of (paging self.now)).byte addr n }
    {
        number_of(self.part(frame, addr, n))
    }

    /// Marks a resident page, unless it is modified.
    fn touch(&mut self, page: u32, frame: u32)
        requires sound { IsSound 0 self.old }
        requires resident { is_listed page (paging self.old).order ≡ true }
        requires held { held self.old page ≡ Some frame }
        requires writable { is_some (block_of (paging self.old).areas page) ≡ true }
        ensures sound { IsSound 0 self.new }
        ensures paging { paging self.new ≡ touched_page page (paging self.old) }
        ensures held { held self.new ≡ held self.old }
    {
        if self.modified_frame(page).is_some() {
            return;
        }
        self.tables.mark(page);
        self.buffer.forget(page);
        self.lists.touch(Placed { page, frame });
    }

    /// Writes a number to a frame.
    #[inline(always)]
    fn put_number(&mut self, frame: u32, addr: u32, n: u32, value: u64)
        requires sound { IsSound 0 self.old }
        requires some { 1 ≤ n }
        requires few { n ≤ 8 }
        requires one_page { addr % 512 + n ≤ 512 }
        requires held { held self.old (page_of addr) ≡ Some frame }
        ensures sound { IsSound 0 self.new }
        ensures paging { paging self.new ≡ with_bytes addr (low_bytes n value) (paging self.old) }
        ensures held { held self.new ≡ held self.old }
    {
        let place = (addr % PAGE_BYTES) as usize;
        put_number(
            &mut self.frames[frame as usize][place..place + n as usize],
            value,
        );
    }

    /// Writes a number to a frame, and gives the number that was there.
    #[inline(always)]
    fn exchange_bytes(&mut self, frame: u32, addr: u32, n: u32, value: u64) -> u64
        requires sound { IsSound 0 self.old }
        requires some { 1 ≤ n }
        requires few { n ≤ 8 }
        requires one_page { addr % 512 + n ≤ 512 }
        requires held { held self.old (page_of addr) ≡ Some frame }
        ensures number { result ≡ number (view_of (paging self.old)).byte addr n }
        ensures sound { IsSound 0 self.new }
        ensures paging { paging self.new ≡ with_bytes addr (low_bytes n value) (paging self.old) }
        ensures held { held self.new ≡ held self.old }
    {
        let old = self.number_in(frame, addr, n);
        self.put_number(frame, addr, n, value);
        old
    }

    /// The same. Most are longwords, so that width is told here, where it makes the shorter way.
    #[inline(always)]
    fn exchange(&mut self, frame: u32, addr: u32, n: u32, value: u64) -> u64
        requires sound { IsSound 0 self.old }
        requires some { 1 ≤ n }
        requires few { n ≤ 8 }
        requires one_page { addr % 512 + n ≤ 512 }
        requires held { held self.old (page_of addr) ≡ Some frame }
        ensures number { result ≡ number (view_of (paging self.old)).byte addr n }
        ensures sound { IsSound 0 self.new }
        ensures paging { paging self.new ≡ with_bytes addr (low_bytes n value) (paging self.old) }
        ensures held { held self.new ≡ held self.old }
    {
        match n {
            4 => self.exchange_bytes(frame, addr, 4, value),
            _ => self.exchange_bytes(frame, addr, n, value),
        }
    }

    /// Writes a run to a frame.
    fn put_run(&mut self, frame: u32, addr: u32, from: &[u8])
        requires sound { IsSound 0 self.old }
        requires one_page { addr % 512 + length from.now ≤ 512 }
        requires held { held self.old (page_of addr) ≡ Some frame }
        ensures sound { IsSound 0 self.new }
        ensures paging { paging self.new ≡ with_bytes addr from.now (paging self.old) }
        ensures held { held self.new ≡ held self.old }
    {
        let place = (addr % PAGE_BYTES) as usize;
        self.frames[frame as usize][place..place + from.len()].copy_from_slice(from);
    }

    /// Whether a range may be used so.
    #[tactic(auto, unfolding(crate::specs::Store::paging))]
    pub(crate) fn check(
        &self,
        addr: u32,
        len: u32,
        mode: u8,
        access: Access,
    ) -> Result<(), Violation>
        requires of_mode { mode ≤ 3 }
        ensures { err_of result ≡ violation (view_of (paging self.now)).areas addr len mode access }
    {
        self.space.check(addr, len, mode, access)
    }

    /// The number that `n` bytes are, 1 to 8.
    #[inline(always)]
    #[tactic(auto, using(crate::proofs::Views::are_bytes))]
    pub(crate) fn read(&mut self, addr: u32, n: u32, mode: u8) -> Result<u64, Stop>
        requires sound { IsSound 0 self.old }
        requires some { 1 ≤ n }
        requires few { n ≤ 8 }
        requires of_mode { mode ≤ 3 }
        ensures sound { IsSound 0 self.new }
        ensures paging { paging self.new ≡ paging self.old }
        ensures held { held self.new ≡ held self.old }
        ensures answer { result ≡ loaded (view_of (paging self.old)) addr n mode }
        ensures entry { OnOk result (addr % 512 + n ≤ 512
            → is_some (buffered self.new.buffer (page_of addr)) ≡ true) }
        ensures hits { OnOk result (CountsHit addr n self.old self.new) }
        ensures bytes { AreBytes (view_of (paging self.old)).byte }
    {
        if let Some(frame) = self.frame_at_once(addr, n, mode, Access::Read) {
            return Ok(self.number_in(frame, addr, n));
        }
        self.read_by_walk(addr, n, mode)
    }

    /// The same by the tables.
    #[cold]
    fn read_by_walk(&mut self, addr: u32, n: u32, mode: u8) -> Result<u64, Stop>
        requires sound { IsSound 0 self.old }
        requires some { 1 ≤ n }
        requires few { n ≤ 8 }
        requires of_mode { mode ≤ 3 }
        ensures sound { IsSound 0 self.new }
        ensures paging { paging self.new ≡ paging self.old }
        ensures held { held self.new ≡ held self.old }
        ensures answer { result ≡ loaded (view_of (paging self.old)) addr n mode }
        ensures entry { OnOk result (addr % 512 + n ≤ 512
            → is_some (buffered self.new.buffer (page_of addr)) ≡ true) }
        ensures hits { OnOk result (CountsHit addr n self.old self.new) }
    {
        if let Some(frame) = self.frame_by_walk(addr, n, mode, Access::Read) {
            return Ok(self.number_in(frame, addr, n));
        }
        self.read_slowly(addr, n, mode)
    }

    /// The same by the space and the tables.
    #[cold]
    fn read_slowly(&mut self, addr: u32, n: u32, mode: u8) -> Result<u64, Stop>
        requires sound { IsSound 0 self.old }
        requires some { 1 ≤ n }
        requires few { n ≤ 8 }
        requires of_mode { mode ≤ 3 }
        ensures sound { IsSound 0 self.new }
        ensures paging { paging self.new ≡ paging self.old }
        ensures held { held self.new ≡ held self.old }
        ensures answer { result ≡ loaded (view_of (paging self.old)) addr n mode }
        ensures entry { OnOk result (addr % 512 + n ≤ 512
            → is_some (buffered self.new.buffer (page_of addr)) ≡ true) }
        ensures hits { OnOk result (CountsHit addr n self.old self.new) }
    {
        if let Err(violation) = self.check(addr, n, mode, Access::Read) {
            return Err(Stop::Violated(violation));
        }
        if addr % PAGE_BYTES + n > PAGE_BYTES {
            return self.read_apart(addr, n);
        }
        match self.frame_of(addr / PAGE_BYTES) {
            Some(frame) => Ok(self.number_in(frame, addr, n)),
            None => Err(Stop::NotResident(addr / PAGE_BYTES)),
        }
    }

    /// Reads a number that goes on in the next page.
    fn read_apart(&mut self, addr: u32, n: u32) -> Result<u64, Stop>
        requires sound { IsSound 0 self.old }
        requires few { n ≤ 8 }
        requires apart { 512 < addr % 512 + n }
        ensures sound { IsSound 0 self.new }
        ensures paging { paging self.new ≡ paging self.old }
        ensures held { held self.new ≡ held self.old }
        ensures answer { result ≡ loaded_allowed (view_of (paging self.old)) addr n }
    {
        let first = PAGE_BYTES - addr % PAGE_BYTES;
        let next = addr.wrapping_add(first);
        let Some(low) = self.frame_of(addr / PAGE_BYTES) else {
            return Err(Stop::NotResident(addr / PAGE_BYTES));
        };
        let Some(high) = self.frame_of(next / PAGE_BYTES) else {
            return Err(Stop::NotResident(next / PAGE_BYTES));
        };
        Ok(self.number_in_two(low, high, addr, n))
    }

    /// The number that bytes at the end of one frame and at the start of another are.
    fn number_in_two(&self, low: u32, high: u32, addr: u32, n: u32) -> u64
        requires sound { IsSound 0 self.now }
        requires few { n ≤ 8 }
        requires apart { 512 < addr % 512 + n }
        requires low { held self.now (page_of addr) ≡ Some low }
        requires high { held self.now (page_of (byte_after addr (512 - addr % 512))) ≡ Some high }
        ensures { result ≡ number (view_of (paging self.now)).byte addr n }
    {
        let first = PAGE_BYTES - addr % PAGE_BYTES;
        let next = addr.wrapping_add(first);
        number_of_parts(
            self.part(low, addr, first),
            self.part(high, next, n - first),
        )
    }

    /// Some bytes of a frame.
    #[inline(always)]
    fn part(&self, frame: u32, addr: u32, len: u32) -> &[u8]
        requires sound { IsSound 0 self.now }
        requires one_page { addr % 512 + len ≤ 512 }
        requires held { held self.now (page_of addr) ≡ Some frame }
        ensures { result.now ≡ bytes_from (view_of (paging self.now)).byte addr len }
    {
        let place = (addr % PAGE_BYTES) as usize;
        &self.frames[frame as usize][place..place + len as usize]
    }

    /// Reads a run that lies within one page.
    pub(crate) fn read_run(&mut self, addr: u32, into: &mut [u8], mode: u8) -> Result<(), Stop>
        requires sound { IsSound 0 self.old }
        requires some { 1 ≤ length into.old }
        requires one_page { addr % 512 + length into.old ≤ 512 }
        requires of_mode { mode ≤ 3 }
        ensures sound { IsSound 0 self.new }
        ensures paging { paging self.new ≡ paging self.old }
        ensures held { held self.new ≡ held self.old }
        ensures answer { err_of result
            ≡ stop (view_of (paging self.old)) addr (length into.old) mode Access.Read }
        ensures bytes { OnOk result
            (into.new ≡ bytes_from (view_of (paging self.old)).byte addr (length into.old)) }
        ensures unread { OnErr result (into.new ≡ into.old) }
    {
        let len = into.len() as u32;
        if let Err(violation) = self.check(addr, len, mode, Access::Read) {
            return Err(Stop::Violated(violation));
        }
        match self.frame_of(addr / PAGE_BYTES) {
            Some(frame) => {
                into.copy_from_slice(self.part(frame, addr, len));
                Ok(())
            }
            None => Err(Stop::NotResident(addr / PAGE_BYTES)),
        }
    }

    /// Writes the `n` bytes of a number, 1 to 8, and gives the number that they were.
    #[inline(always)]
    #[tactic(auto, using(crate::proofs::Views::are_bytes))]
    pub(crate) fn write(&mut self, addr: u32, n: u32, value: u64, mode: u8) -> Result<u64, Stop>
        requires sound { IsSound 0 self.old }
        requires some { 1 ≤ n }
        requires few { n ≤ 8 }
        requires of_mode { mode ≤ 3 }
        ensures sound { IsSound 0 self.new }
        ensures answer { result ≡ replaced (view_of (paging self.old)) addr n mode }
        ensures bytes { AreBytes (view_of (paging self.old)).byte }
        ensures stored { view_of (paging self.new)
            ≡ stored (view_of (paging self.old)) addr n value mode }
        ensures listed { OnOk result
            ((paging self.new).modified ≡ touched (paging self.old).modified addr n) }
        ensures unpaged { OnErr result (paging self.new ≡ paging self.old) }
        ensures only { OnlyWritten (paging self.old) (paging self.new) }
        ensures held { held self.new ≡ held self.old }
    {
        if let Some(frame) = self.frame_at_once(addr, n, mode, Access::Write) {
            let old = self.number_in(frame, addr, n);
            self.put_number(frame, addr, n, value);
            return Ok(old);
        }
        self.write_by_walk(addr, n, value, mode)
    }

    /// The same by the tables.
    #[cold]
    fn write_by_walk(&mut self, addr: u32, n: u32, value: u64, mode: u8) -> Result<u64, Stop>
        requires sound { IsSound 0 self.old }
        requires some { 1 ≤ n }
        requires few { n ≤ 8 }
        requires of_mode { mode ≤ 3 }
        ensures sound { IsSound 0 self.new }
        ensures answer { result ≡ replaced (view_of (paging self.old)) addr n mode }
        ensures stored { view_of (paging self.new)
            ≡ stored (view_of (paging self.old)) addr n value mode }
        ensures listed { OnOk result
            ((paging self.new).modified ≡ touched (paging self.old).modified addr n) }
        ensures unpaged { OnErr result (paging self.new ≡ paging self.old) }
        ensures only { OnlyWritten (paging self.old) (paging self.new) }
        ensures held { held self.new ≡ held self.old }
    {
        if let Some(frame) = self.frame_by_walk(addr, n, mode, Access::Write) {
            return Ok(self.exchange(frame, addr, n, value));
        }
        self.write_slowly(addr, n, value, mode)
    }

    /// The same by the space and the tables.
    #[cold]
    fn write_slowly(&mut self, addr: u32, n: u32, value: u64, mode: u8) -> Result<u64, Stop>
        requires sound { IsSound 0 self.old }
        requires some { 1 ≤ n }
        requires few { n ≤ 8 }
        requires of_mode { mode ≤ 3 }
        ensures sound { IsSound 0 self.new }
        ensures answer { result ≡ replaced (view_of (paging self.old)) addr n mode }
        ensures stored { view_of (paging self.new)
            ≡ stored (view_of (paging self.old)) addr n value mode }
        ensures listed { OnOk result
            ((paging self.new).modified ≡ touched (paging self.old).modified addr n) }
        ensures unpaged { OnErr result (paging self.new ≡ paging self.old) }
        ensures only { OnlyWritten (paging self.old) (paging self.new) }
        ensures held { held self.new ≡ held self.old }
    {
        if let Err(violation) = self.check(addr, n, mode, Access::Write) {
            return Err(Stop::Violated(violation));
        }
        if addr % PAGE_BYTES + n > PAGE_BYTES {
            return self.write_apart(addr, n, value);
        }
        match self.frame_of(addr / PAGE_BYTES) {
            Some(frame) => {
                let old = self.number_in(frame, addr, n);
                self.touch(addr / PAGE_BYTES, frame);
                self.put_number(frame, addr, n, value);
                Ok(old)
            }
            None => Err(Stop::NotResident(addr / PAGE_BYTES)),
        }
    }

    /// Writes a number that goes on in the next page, and gives the number that was there.
    fn write_apart(&mut self, addr: u32, n: u32, value: u64) -> Result<u64, Stop>
        requires sound { IsSound 0 self.old }
        requires few { n ≤ 8 }
        requires apart { 512 < addr % 512 + n }
        requires low { is_some (block_of (paging self.old).areas (page_of addr)) ≡ true }
        requires high { is_some (block_of (paging self.old).areas
            (page_of (byte_after addr (512 - addr % 512)))) ≡ true }
        ensures sound { IsSound 0 self.new }
        ensures answer { result ≡ loaded_allowed (view_of (paging self.old)) addr n }
        ensures stored { view_of (paging self.new)
            ≡ stored_allowed (view_of (paging self.old)) addr n value }
        ensures listed { OnOk result
            ((paging self.new).modified ≡ touched (paging self.old).modified addr n) }
        ensures unpaged { OnErr result (paging self.new ≡ paging self.old) }
        ensures only { OnlyWritten (paging self.old) (paging self.new) }
        ensures held { held self.new ≡ held self.old }
    {
        let first = PAGE_BYTES - addr % PAGE_BYTES;
        let next = addr.wrapping_add(first);
        let Some(low) = self.frame_of(addr / PAGE_BYTES) else {
            return Err(Stop::NotResident(addr / PAGE_BYTES));
        };
        let Some(high) = self.frame_of(next / PAGE_BYTES) else {
            return Err(Stop::NotResident(next / PAGE_BYTES));
        };
        let old = self.number_in_two(low, high, addr, n);
        self.touch(addr / PAGE_BYTES, low);
        self.touch(next / PAGE_BYTES, high);
        let bytes = value.to_le_bytes();
        self.put_run(high, next, &bytes[first as usize..n as usize]);
        self.put_run(low, addr, &bytes[..first as usize]);
        Ok(old)
    }

    /// Writes a run that lies within one page.
    pub(crate) fn write_run(&mut self, addr: u32, from: &[u8], mode: u8) -> Result<(), Stop>
        requires sound { IsSound 0 self.old }
        requires some { 1 ≤ length from.now }
        requires one_page { addr % 512 + length from.now ≤ 512 }
        requires of_mode { mode ≤ 3 }
        ensures sound { IsSound 0 self.new }
        ensures answer { err_of result
            ≡ stop (view_of (paging self.old)) addr (length from.now) mode Access.Write }
        ensures stored { view_of (paging self.new)
            ≡ stored_run (view_of (paging self.old)) addr from.now mode }
        ensures listed { OnOk result ((paging self.new).modified
            ≡ touched (paging self.old).modified addr (length from.now)) }
        ensures unpaged { OnErr result (paging self.new ≡ paging self.old) }
        ensures only { OnlyWritten (paging self.old) (paging self.new) }
        ensures held { held self.new ≡ held self.old }
    {
        if let Err(violation) = self.check(addr, from.len() as u32, mode, Access::Write) {
            return Err(Stop::Violated(violation));
        }
        match self.frame_of(addr / PAGE_BYTES) {
            Some(frame) => {
                self.touch(addr / PAGE_BYTES, frame);
                self.put_run(frame, addr, from);
                Ok(())
            }
            None => Err(Stop::NotResident(addr / PAGE_BYTES)),
        }
    }

    /// The number that `n` bytes are, 1 to 8, if they lie within a page that the buffer has and to which the mode may make the access at
    /// once. It counts as no hit.
    #[inline(always)]
    #[tactic(auto, using(crate::proofs::Views::are_bytes))]
    pub(crate) fn glance(&self, addr: u32, n: u32, mode: u8, access: Access) -> Option<u64>
        requires sound { IsSound 0 self.now }
        requires some { 1 ≤ n }
        requires few { n ≤ 8 }
        requires of_mode { mode ≤ 3 }
        ensures answer { IfSome result
            (λ x. loaded (view_of (paging self.now)) addr n mode ≡ Ok x) }
        ensures free { IfSome result
            (λ x. stop (view_of (paging self.now)) addr n mode access ≡ None) }
        ensures bytes { AreBytes (view_of (paging self.now)).byte }
    {
        let frame = self.seen_at_once(addr, n, mode, access)?;
        Some(self.number_in(frame, addr, n))
    }

    /// Writes the `n` bytes of a number, 1 to 8, if they lie within a modified page that the buffer has and that the mode may write, and
    /// says whether it did. It counts as no hit.
    #[inline(always)]
    pub(crate) fn write_at_once(&mut self, addr: u32, n: u32, value: u64, mode: u8) -> bool
        requires sound { IsSound 0 self.old }
        requires some { 1 ≤ n }
        requires few { n ≤ 8 }
        requires of_mode { mode ≤ 3 }
        ensures sound { IsSound 0 self.new }
        ensures free { result ≡ true
            → stop (view_of (paging self.old)) addr n mode Access.Write ≡ None }
        ensures stored { result ≡ true → view_of (paging self.new)
            ≡ with_number (view_of (paging self.old)) addr n value }
        ensures same { result ≡ false → paging self.new ≡ paging self.old }
        ensures only { OnlyWritten (paging self.old) (paging self.new) }
        ensures held { held self.new ≡ held self.old }
    {
        match self.seen_at_once(addr, n, mode, Access::Write) {
            Some(frame) => {
                self.put_number(frame, addr, n, value);
                true
            }
            None => false,
        }
    }

    /// The frame of the page that an address lies in, if it is resident and the mode may read it, by the buffer or else the tables. It
    /// counts as no hit. None says nothing of the page.
    #[inline]
    pub(crate) fn frame_of_code(&mut self, addr: u32, mode: u8) -> Option<u32>
        requires sound { IsSound 0 self.old }
        requires of_mode { mode ≤ 3 }
        ensures sound { IsSound 0 self.new }
        ensures paging { paging self.new ≡ paging self.old }
        ensures held { held self.new ≡ held self.old }
        ensures lies { IfSome result (λ frame. LiesIn self.new frame (page_of addr) mode) }
    {
        if let Some(frame) = self.seen_at_once(addr, 1, mode, Access::Read) {
            return Some(frame);
        }
        self.frame_by_walk(addr, 1, mode, Access::Read)
    }

    /// The number that eight bytes of a page are, which is in this frame.
    #[inline(always)]
    pub(crate) fn code_in(&self, frame: u32, page: u32, place: u32) -> u64
        requires sound { IsSound 0 self.now }
        requires low { page < 2 ^ 23 }
        requires within { place ≤ 504 }
        requires held { held self.now page ≡ Some frame }
        ensures { result ≡ number (view_of (paging self.now)).byte (page * 512 + place) 8 }
    {
        let _ = page;
        let place = place as usize;
        number_of(&self.frames[frame as usize][place..place + 8])
    }
}
