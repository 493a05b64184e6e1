//! The pager as a port.
ghost use Rattle.std.specs.Prelude.{◌≡◌, ◌+◌, ◌<◌, ◌≤◌, ◌%◌, ◌^◌, true, length, OnErr, OnOk};

use crate::Pager;
use vax_flat::Stop;
use vax_space::{Access, Violation};
use vax_undo::Port;

impl Port for Pager {
    ghost use Rattle.vax_outside.specs.Faults.{raised};
    ghost use Rattle.vax_space.specs.Reference.{page_of};
    ghost use Rattle.vax_flat.specs.Memory.{bytes_from};
    ghost use Rattle.vax_flat.specs.Port.{AreBytes, loaded, stop, stored, stored_run};
    ghost use Rattle.vax_undo.specs.Answers.{err_of, replaced};
    ghost use Rattle.vax_undo.specs.Trail.{NoneKept, after_reading, after_writing, after_writing_run};
    ghost use Rattle.vax_pager.specs.Steps.{touched};
    ghost use Rattle.vax_pager.specs.Meaning.{Since, hits, in_buffer, lies_in, pages, view};
    ghost use Rattle.vax_pager.specs.declared.pager.Pager.{Pager};

    ghost view = { view };

    ghost since = { Since };

    ghost lies_in = { lies_in };

    #[inline]
    fn check(&self, addr: u32, len: u32, mode: u8, access: Access) -> Result<(), Violation> {
        self.store.check(addr, len, mode, access)
    }

    #[inline(always)]
    #[tactic(auto, using(vax_undo::proofs::Trail::unkept))]
    fn read(&mut self, addr: u32, n: u32, mode: u8) -> Result<u64, Stop>
        requires some { 1 ≤ n }
        requires few { n ≤ 8 }
        requires of_mode { mode ≤ 3 }
        ensures answer { result ≡ loaded (view self.old) addr n mode }
        ensures same { view self.new ≡ view self.old }
        ensures bytes { AreBytes (view self.old).byte }
        ensures trail { NoneKept ≡ after_reading (view self.old) NoneKept addr n mode }
        ensures since { (start : Pager) → Since start self.old → Since start self.new }
        ensures unchanged { pages self.new ≡ pages self.old }
        ensures entry { OnOk result (addr % 512 + n ≤ 512
            → in_buffer self.new (page_of addr) ≡ true) }
        ensures hits { OnOk result (addr % 512 + n ≤ 512 → in_buffer self.old (page_of addr) ≡ true
            → hits self.new ≡ raised (hits self.old)) }
    {
        self.store.read(addr, n, mode)
    }

    #[inline(always)]
    #[tactic(auto, using(vax_undo::proofs::Trail::unkept))]
    fn write(&mut self, addr: u32, n: u32, value: u64, mode: u8) -> Result<u64, Stop>
        requires some { 1 ≤ n }
        requires few { n ≤ 8 }
        requires of_mode { mode ≤ 3 }
        requires fits { value < 256 ^ n }
        ensures answer { result ≡ replaced (view self.old) addr n mode }
        ensures bytes { AreBytes (view self.old).byte }
        ensures stored { view self.new ≡ stored (view self.old) addr n value mode }
        ensures trail { NoneKept ≡ after_writing (view self.old) NoneKept addr n value mode }
        ensures since { (start : Pager) → Since start self.old → Since start self.new }
        ensures listed { OnOk result
            ((pages self.new).modified ≡ touched (pages self.old).modified addr n) }
        ensures unpaged { OnErr result (pages self.new ≡ pages self.old) }
    {
        self.store.write(addr, n, value, mode)
    }

    #[tactic(auto, using(vax_undo::proofs::Trail::unkept))]
    fn read_run(&mut self, addr: u32, into: &mut [u8], mode: u8) -> Result<(), Stop>
        requires some { 1 ≤ length into.old }
        requires one_page { addr % 512 + length into.old ≤ 512 }
        requires of_mode { mode ≤ 3 }
        ensures answer { err_of result
            ≡ stop (view self.old) addr (length into.old) mode Access.Read }
        ensures bytes { OnOk result
            (into.new ≡ bytes_from (view self.old).byte addr (length into.old)) }
        ensures unread { OnErr result (into.new ≡ into.old) }
        ensures same { view self.new ≡ view self.old }
        ensures trail { NoneKept
            ≡ after_reading (view self.old) NoneKept addr (length into.old) mode }
        ensures since { (start : Pager) → Since start self.old → Since start self.new }
        ensures unchanged { pages self.new ≡ pages self.old }
    {
        self.store.read_run(addr, into, mode)
    }

    #[tactic(auto, using(vax_undo::proofs::Trail::unkept))]
    fn write_run(&mut self, addr: u32, from: &[u8], mode: u8) -> Result<(), Stop>
        requires some { 1 ≤ length from.now }
        requires one_page { addr % 512 + length from.now ≤ 512 }
        requires of_mode { mode ≤ 3 }
        ensures answer { err_of result
            ≡ stop (view self.old) addr (length from.now) mode Access.Write }
        ensures stored { view self.new ≡ stored_run (view self.old) addr from.now mode }
        ensures trail { NoneKept ≡ after_writing_run (view self.old) NoneKept addr from.now mode }
        ensures since { (start : Pager) → Since start self.old → Since start self.new }
        ensures listed { OnOk result
            ((pages self.new).modified ≡ touched (pages self.old).modified addr (length from.now)) }
        ensures unpaged { OnErr result (pages self.new ≡ pages self.old) }
    {
        self.store.write_run(addr, from, mode)
    }

    #[inline(always)]
    fn glance(&self, addr: u32, n: u32, mode: u8, access: Access) -> Option<u64> {
        self.store.glance(addr, n, mode, access)
    }

    #[inline(always)]
    fn write_at_once(&mut self, addr: u32, n: u32, value: u64, mode: u8) -> bool {
        self.store.write_at_once(addr, n, value, mode)
    }

    #[inline]
    fn frame_of_code(&mut self, addr: u32, mode: u8) -> Option<u32> {
        self.store.frame_of_code(addr, mode)
    }

    #[inline(always)]
    fn code_in(&self, frame: u32, page: u32, place: u32, mode: u8) -> Option<u64> {
        let _ = mode;
        Some(self.store.code_in(frame, page, place))
    }
}
