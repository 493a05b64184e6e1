//! What a console asks of a machine: bytes shown, and bytes and registers changed.
ghost use Rattle.std.specs.Prelude.{is_err, ◌≡◌, ◌≢◌, ◌%◌, ◌<◌, ◌≤◌, ◌^◌, List, Option, None, IfOk, IfSome, OnOk, true, false, ◌⊎◌, length};
ghost use Rattle.vax_space.specs.declared.Area.{Area};
ghost use Rattle.vax_space.specs.Reference.{page_of};
ghost use Rattle.vax_outside.specs.Faults.{CountsFailure};
ghost use Rattle.vax_pager.specs.Meaning.{pages};
ghost use Rattle.vax_pager.specs.Paging.{Keeps, StandsWith};
ghost use Rattle.vax_pager.specs.Poking.{OnlyRead, ReadsAtMost, WritesBlocks, pages_of_bytes};
ghost use Rattle.vax_machine.specs.Console.{AreShown, IsPageOf, IsThereIn, cell_in, memory_from, pages_in};
ghost use Rattle.vax_machine.specs.Paged.{one_if};

use crate::engine::Engine;
use vax_outside::PageFile;
use vax_pager::{PageFault, Pager};
use vax_space::{Access, PAGE_BYTES};
use vax_word::Core;

/// The page of an address, if an area has it: the page at hand, or where the address is in another, that one.
fn page_at<F: PageFile>(
    pager: &mut Pager,
    at_hand: &Option<[u8; 512]>,
    is_other: bool,
    addr: u32,
    file: &mut F,
) -> Result<Option<[u8; 512]>, PageFault>
    ensures same { pages pager.new ≡ pages pager.old }
    ensures reads { OnlyRead (F.contents file.old) (F.contents file.new) }
    ensures once { ReadsAtMost (one_if is_other) (F.contents file.old) (F.contents file.new) }
    ensures keeps { Keeps (pages pager.old) (F.contents file.old) (pages pager.new)
        (F.contents file.new) }
    ensures none { (is_other ≡ false → IsThereIn (pages pager.old).areas (page_of addr) at_hand.now)
        → IfOk result (IsThereIn (pages pager.old).areas (page_of addr)) }
    ensures bytes { (memory : List Area) → StandsWith (pages pager.old) (F.contents file.old) memory
        → (is_other ≡ false → IfSome at_hand.now (IsPageOf memory (page_of addr)))
        → IfOk result (λ r. IfSome r (IsPageOf memory (page_of addr))) }
    ensures counts { CountsFailure (is_err result) (F.faults file.old) (F.faults file.new) }
{
    if is_other {
        pager.page(addr / PAGE_BYTES, file)
    } else {
        Ok(*at_hand)
    }
}

/// Whether a byte is the first of all, or of its page.
fn is_first(place: usize, addr: u32) -> bool
    ensures other { result ≡ false → (0 < place) × (addr % 512 ≢ 0) }
    ensures first { result ≡ true → (place ≡ 0) ⊎ (addr % 512 ≡ 0) }
{
    place == 0 || addr % PAGE_BYTES == 0
}

/// Fills cells with the bytes of memory from an address on, None where no area has one.
fn show<F: PageFile>(
    pager: &mut Pager,
    addr: u32,
    cells: &mut [Option<u8>],
    file: &mut F,
) -> Result<(), PageFault>
    requires few { length cells.old < 2 ^ 32 }
    ensures same { pages pager.new ≡ pages pager.old }
    ensures reads { OnlyRead (F.contents file.old) (F.contents file.new) }
    ensures once { ReadsAtMost (pages_in addr (length cells.old)) (F.contents file.old)
        (F.contents file.new) }
    ensures keeps { Keeps (pages pager.old) (F.contents file.old) (pages pager.new)
        (F.contents file.new) }
    ensures len { length cells.new ≡ length cells.old }
    ensures none { OnOk result (AreShown (pages pager.old).areas addr cells.new) }
    ensures bytes { OnOk result ((memory : List Area)
        → StandsWith (pages pager.old) (F.contents file.old) memory
        → cells.new ≡ memory_from memory addr (length cells.old)) }
    ensures counts { CountsFailure (is_err result) (F.faults file.old) (F.faults file.new) }
{
    let mut page = None;
    for place in 0..cells.len() {
        let here = addr.wrapping_add(place as u32);
        page = page_at(pager, &page, is_first(place, here), here, file)?;
        cells[place] = cell(&page, here);
    }
    Ok(())
}

/// The byte at an address, of its page, if an area has that.
fn cell(page: &Option<[u8; 512]>, addr: u32) -> Option<u8>
    ensures { result ≡ cell_in page.now addr }
{
    match page {
        Some(bytes) => Some(bytes[(addr % PAGE_BYTES) as usize]),
        None => None,
    }
}

impl Engine {
    ghost use Rattle.vax_space.specs.Reference.{violation};
    ghost use Rattle.vax_flat.specs.Outcome.{is_allowed};
    ghost use Rattle.vax_outside.specs.Blocks.{BlockFile};
    ghost use Rattle.vax_machine.specs.Console.{BringsPages, Deposits, DepositsCore, DepositsRegister, ShowsMemory, cpu_with_core, cpu_with_register, let_go};
    ghost use Rattle.vax_machine.specs.Depositing.{DepositsIn, filed};
    ghost use Rattle.vax_machine.specs.Machine.{IsSound, KeepsPlace, keeping, modified_of};
    ghost use Rattle.vax_machine.specs.Marking.{Marks};

    /// Fills cells with the bytes of memory from an address on, None where no area has one.
    pub(crate) fn dump<F: PageFile>(
        &mut self,
        addr: u32,
        cells: &mut [Option<u8>],
        file: &mut F,
    ) -> Result<(), PageFault>
        requires sound { IsSound self.old }
        requires few { length cells.old < 2 ^ 32 }
        ensures sound { IsSound self.new }
        ensures cpu { self.new.cpu ≡ self.old.cpu }
        ensures keeps { keeping self.new ≡ keeping self.old }
        ensures same { pages self.new.pager ≡ pages self.old.pager }
        ensures reads { OnlyRead (F.contents file.old) (F.contents file.new) }
        ensures once { ReadsAtMost (pages_in addr (length cells.old)) (F.contents file.old)
            (F.contents file.new) }
        ensures means { KeepsPlace self.old (F.contents file.old) self.new (F.contents file.new) }
        ensures len { length cells.new ≡ length cells.old }
        ensures none { OnOk result (AreShown (keeping self.old).areas addr cells.new) }
        ensures bytes { OnOk result
            (ShowsMemory self.old (F.contents file.old) addr (length cells.old) cells.new) }
        ensures counts { CountsFailure (is_err result) (F.faults file.old) (F.faults file.new) }
    {
        show(&mut self.pager, addr, cells, file)
    }

    /// Changes bytes of memory whatever the protection of their pages, if some mode may write each of these.
    pub(crate) fn poke<F: PageFile>(
        &mut self,
        addr: u32,
        bytes: &[u8],
        file: &mut F,
    ) -> Result<bool, PageFault>
        requires sound { IsSound self.old }
        requires closed { self.old.cpu.latch ≡ None }
        requires some { 1 ≤ length bytes.now }
        requires few { length bytes.now ≤ 64 }
        ensures sound { IsSound self.new }
        ensures answer { IfOk result (λ r. r ≡ is_allowed
            (violation (keeping self.old).areas addr (length bytes.now) 0 Access.Write)) }
        ensures cpu { self.new.cpu ≡ self.old.cpu }
        ensures deposits { Deposits result addr bytes.now self.old (F.contents file.old) self.new
            (F.contents file.new) }
        ensures marks { Marks result addr (length bytes.now) self.old self.new }
        ensures brings { BringsPages result (pages_of_bytes addr (length bytes.now)) self.old
            self.new }
        ensures writes { WritesBlocks (keeping self.old).areas (F.contents file.old)
            (F.contents file.new) }
        ensures paged { DepositsIn result addr bytes.now (filed self.old (F.contents file.old))
            (filed self.new (F.contents file.new)) }
        ensures counts { CountsFailure (is_err result) (F.faults file.old) (F.faults file.new) }
    {
        match self.pager.poke(addr, bytes, file) {
            Ok(false) => Ok(false),
            Ok(true) => {
                self.wanted = None;
                Ok(true)
            }
            Err(fault) => {
                self.wanted = None;
                Err(fault)
            }
        }
    }

    /// Changes a register.
    pub(crate) fn set_reg(&mut self, n: u8, value: u32)
        requires sound { IsSound self.old }
        requires closed { self.old.cpu.latch ≡ None }
        requires number { n < 16 }
        ensures sound { IsSound self.new }
        ensures cpu { self.new.cpu ≡ cpu_with_register n value self.old.cpu }
        ensures keeps { keeping self.new ≡ let_go (keeping self.old) }
        ensures marks { modified_of self.new ≡ modified_of self.old }
        ensures blocks { (pages self.new.pager).blocked ≡ (pages self.old.pager).blocked }
        ensures deposits { DepositsRegister n value self.old self.new }
    {
        self.pager.settle();
        self.wanted = None;
        self.cpu.core.regs[n as usize] = value;
    }

    /// No page is pinned any more, and none is wanted.
    pub(crate) fn let_go(&mut self)
        requires sound { IsSound self.old }
        ensures sound { IsSound self.new }
        ensures cpu { self.new.cpu ≡ self.old.cpu }
        ensures keeps { keeping self.new ≡ let_go (keeping self.old) }
        ensures marks { modified_of self.new ≡ modified_of self.old }
        ensures means { (file : Option BlockFile) → KeepsPlace self.old file self.new file }
    {
        self.pager.settle();
        self.wanted = None;
    }

    /// Changes the registers, with the status and the stack pointers.
    pub(crate) fn set_core(&mut self, core: Core)
        requires sound { IsSound self.old }
        requires closed { self.old.cpu.latch ≡ None }
        ensures sound { IsSound self.new }
        ensures cpu { self.new.cpu ≡ cpu_with_core core self.old.cpu }
        ensures keeps { keeping self.new ≡ let_go (keeping self.old) }
        ensures marks { modified_of self.new ≡ modified_of self.old }
        ensures deposits { DepositsCore core self.old self.new }
    {
        self.pager.settle();
        self.wanted = None;
        self.cpu.core = core;
    }
}
