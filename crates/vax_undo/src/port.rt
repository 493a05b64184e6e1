//! Memory in which pages may be absent.
ghost use Rattle.std.specs.Prelude.{◌≡◌, ℕ, ◌+◌, ◌*◌, ◌%◌, ◌^◌, ◌<◌, ◌≤◌, length, true, false, Ok, None, IfSome, OnOk, OnErr};
ghost use Rattle.vax_space.specs.Reference.{page_of, violation};
ghost use Rattle.vax_flat.specs.Memory.{bytes_from};
ghost use Rattle.vax_flat.specs.Port.{View, AreBytes, stop, loaded, stored, stored_run, with_number};
ghost use Rattle.vax_undo.specs.Answers.{err_of, replaced};
ghost use Rattle.vax_undo.specs.Trail.{Trail, NoneKept, after_reading, after_writing, after_writing_run};

use vax_flat::Stop;
use vax_space::{Access, Violation};

/// A memory in which some pages are absent (VAX Architecture Reference Manual, memory management). It shows areas, which of
/// their pages are resident, the bytes of these, and which pages are marked as written to. It stands for every whole memory that has these
/// areas and has these bytes on the resident pages. A read marks nothing, and a write marks the pages of its range, unless it is stopped.
///
/// Access modes are 0 kernel, 1 executive, 2 supervisor, 3 user. Numbers are little-endian. A range may cross pages and areas and wraps
/// at the end of the address space. No call makes a page resident or absent.
pub trait Port {
    /// Its areas, its resident pages, the bytes of these, and the marked pages.
    ghost view: { Self → View };

    /// The accesses that were made through it, in order, where it keeps them. An access that is stopped isn't made.
    ghost trail: { Self → Trail } = { λ port. NoneKept };

    /// The second came from the first by calls of this trait alone.
    ghost since: { Self → Self → Type 0 };

    /// Whether a range of at most 65,536 bytes may be used so, resident or not; else the violation at its first byte that may not.
    fn check(&self, addr: u32, len: u32, mode: u8, access: Access) -> Result<(), Violation>
        requires short { len ≤ 65536 }
        requires of_mode { mode ≤ 3 }
        ensures { err_of result ≡ violation (view self.now).areas addr len mode access };

    /// The number that `n` bytes are, 1 to 8.
    fn read(&mut self, addr: u32, n: u32, mode: u8) -> Result<u64, Stop>
        requires some { 1 ≤ n }
        requires few { n ≤ 8 }
        requires of_mode { mode ≤ 3 }
        ensures answer { result ≡ loaded (view self.old) addr n mode }
        ensures same { view self.new ≡ view self.old }
        ensures bytes { AreBytes (view self.old).byte }
        ensures trail { trail self.new
            ≡ after_reading (view self.old) (trail self.old) addr n mode }
        ensures since { (start : Self) → since start self.old → since start self.new };

    /// Writes the `n` bytes of a number, 1 to 8, and gives the number that they were.
    fn write(&mut self, addr: u32, n: u32, value: u64, mode: u8) -> Result<u64, Stop>
        requires some { 1 ≤ n }
        requires few { n ≤ 8 }
        requires of_mode { mode ≤ 3 }
        requires fits { value < 256 ^ n }
        ensures answer { result ≡ replaced (view self.old) addr n mode }
        ensures bytes { AreBytes (view self.old).byte }
        ensures stored { view self.new ≡ stored (view self.old) addr n value mode }
        ensures trail { trail self.new
            ≡ after_writing (view self.old) (trail self.old) addr n value mode }
        ensures since { (start : Self) → since start self.old → since start self.new };

    /// Reads a run of 1 to 512 bytes that lies within one page.
    fn read_run(&mut self, addr: u32, into: &mut [u8], mode: u8) -> Result<(), Stop>
        requires some { 1 ≤ length into.old }
        requires one_page { addr % 512 + length into.old ≤ 512 }
        requires of_mode { mode ≤ 3 }
        ensures answer { err_of result
            ≡ stop (view self.old) addr (length into.old) mode Access.Read }
        ensures bytes { OnOk result
            (into.new ≡ bytes_from (view self.old).byte addr (length into.old)) }
        ensures unread { OnErr result (into.new ≡ into.old) }
        ensures same { view self.new ≡ view self.old }
        ensures trail { trail self.new
            ≡ after_reading (view self.old) (trail self.old) addr (length into.old) mode }
        ensures since { (start : Self) → since start self.old → since start self.new };

    /// Writes a run of 1 to 512 bytes that lies within one page.
    fn write_run(&mut self, addr: u32, from: &[u8], mode: u8) -> Result<(), Stop>
        requires some { 1 ≤ length from.now }
        requires one_page { addr % 512 + length from.now ≤ 512 }
        requires of_mode { mode ≤ 3 }
        ensures answer { err_of result
            ≡ stop (view self.old) addr (length from.now) mode Access.Write }
        ensures stored { view self.new ≡ stored_run (view self.old) addr from.now mode }
        ensures trail { trail self.new
            ≡ after_writing_run (view self.old) (trail self.old) addr from.now mode }
        ensures since { (start : Self) → since start self.old → since start self.new };

    /// In this frame lies a page from which an instruction may be read in this access mode.
    ghost lies_in: { Self → ℕ → ℕ → ℕ → Type 0 } = { λ port frame page mode. Unit {0} };

    /// The number that `n` bytes are, 1 to 8, if their page's place is known already and this access may be made there. None says nothing.
    #[inline(always)]
    fn glance(&self, addr: u32, n: u32, mode: u8, access: Access) -> Option<u64>
        requires some { 1 ≤ n }
        requires few { n ≤ 8 }
        requires of_mode { mode ≤ 3 }
        ensures answer { IfSome result (λ x. loaded (view self.now) addr n mode ≡ Ok x) }
        ensures free { IfSome result (λ x. stop (view self.now) addr n mode access ≡ None) }
        ensures bytes { IfSome result (λ x. AreBytes (view self.now).byte) }
        ensures unkept { IfSome result (λ x. trail self.now ≡ NoneKept) }
    {
        let _ = (addr, n, mode, access);
        None
    }

    /// Writes the `n` bytes of a number, 1 to 8, if their page's place is known already and the page is marked, and says whether it did.
    #[inline(always)]
    fn write_at_once(&mut self, addr: u32, n: u32, value: u64, mode: u8) -> bool
        requires some { 1 ≤ n }
        requires few { n ≤ 8 }
        requires of_mode { mode ≤ 3 }
        requires fits { value < 256 ^ n }
        ensures free { result ≡ true → stop (view self.old) addr n mode Access.Write ≡ None }
        ensures stored { result ≡ true → view self.new ≡ with_number (view self.old) addr n value }
        ensures same { result ≡ false → view self.new ≡ view self.old }
        ensures unkept { result ≡ true → trail self.old ≡ NoneKept }
        ensures trail { trail self.new ≡ trail self.old }
        ensures since { (start : Self) → since start self.old → since start self.new }
    {
        let _ = (addr, n, value, mode);
        false
    }

    /// The frame of the page that an address lies in, if an instruction may be read from it in this access mode, and if it is told.
    #[inline(always)]
    fn frame_of_code(&mut self, addr: u32, mode: u8) -> Option<u32>
        requires of_mode { mode ≤ 3 }
        ensures lies { IfSome result (λ frame. (start : Self)
            × (lies_in start frame (page_of addr) mode × since start self.new)) }
        ensures same { view self.new ≡ view self.old }
        ensures trail { trail self.new ≡ trail self.old }
        ensures since { (start : Self) → since start self.old → since start self.new }
    {
        let _ = (addr, mode);
        None
    }

    /// The number that eight bytes of a page are, from the frame in which it lay at some time since which only calls of this trait were made.
    /// None says nothing.
    #[inline(always)]
    fn code_in(&self, frame: u32, page: u32, place: u32, mode: u8) -> Option<u64>
        requires lies { (start : Self) × (lies_in start frame page mode × since start self.now) }
        requires within { place ≤ 504 }
        ensures answer { IfSome result
            (λ x. loaded (view self.now) (page * 512 + place) 8 mode ≡ Ok x) }
        ensures bytes { IfSome result (λ x. AreBytes (view self.now).byte) }
    {
        let _ = (frame, page, place, mode);
        None
    }
}
