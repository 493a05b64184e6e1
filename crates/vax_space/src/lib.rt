//! The guest's virtual memory as a list of areas, each of whole pages with one protection code, and the check that
//! every reference passes (VAX Architecture Reference Manual, memory management).
//!
//! A page has 512 bytes. The number of a page is an address shifted right by 9. Address bits 31:30 choose the program
//! region P0, the control region P1, the system region, or the fourth region, which has no pages.
#![tactic(auto)]

ghost use Rattle.std.specs.Prelude.{◌≡◌, ◌≢◌, ◌+◌, ◌%◌, ◌<◌, ◌≤◌, ◌⊎◌, true, unwrap_or, ◌↔◌, IsOk, IfSome, option_copied, Some, None, IfOk, OnOk, IfErr};
ghost use Rattle.std.specs.Result.{result_err};
ghost use Rattle.vax_space.specs.Protection as spec;

mod codes;
mod faults;
mod lengths;
mod pages;

pub use codes::{PAGES, slot};
use codes::{NO_AREA, code_table};
use faults::first_fault;
use lengths::{control_start, is_past_region, program_end};
use std::alloc::{AllocError, Global};
use std::marker::Model;
use thiserror::Error;

/// How many bytes a page has.
pub const PAGE_BYTES: u32 = 512;

/// Memory was refused.
#[derive(Clone, Copy, PartialEq, Eq, Debug, Error)]
#[error("out of memory")]
pub struct NoMemory;

impl From<AllocError> for NoMemory {
    fn from(_error: AllocError) -> NoMemory {
        NoMemory
    }
}

/// What a reference wants of the bytes that it touches.
#[derive(Clone, Copy, PartialEq, Eq)]
pub enum Access {
    Read,
    Write,
}

/// What one mode may do to a page.
#[derive(Clone, Copy, PartialEq, Eq)]
pub enum Right {
    Nothing,
    ReadOnly,
    ReadWrite,
}

use Right::{Nothing, ReadOnly, ReadWrite};

/// The rights of kernel, executive, supervisor and user mode, by protection code.
static PROTECTION: [[Right; 4]; 16] = [
    [Nothing, Nothing, Nothing, Nothing],
    [Nothing, Nothing, Nothing, Nothing],
    [ReadWrite, Nothing, Nothing, Nothing],
    [ReadOnly, Nothing, Nothing, Nothing],
    [ReadWrite, ReadWrite, ReadWrite, ReadWrite],
    [ReadWrite, ReadWrite, Nothing, Nothing],
    [ReadWrite, ReadOnly, Nothing, Nothing],
    [ReadOnly, ReadOnly, Nothing, Nothing],
    [ReadWrite, ReadWrite, ReadWrite, Nothing],
    [ReadWrite, ReadWrite, ReadOnly, Nothing],
    [ReadWrite, ReadOnly, ReadOnly, Nothing],
    [ReadOnly, ReadOnly, ReadOnly, Nothing],
    [ReadWrite, ReadWrite, ReadWrite, ReadOnly],
    [ReadWrite, ReadWrite, ReadOnly, ReadOnly],
    [ReadWrite, ReadOnly, ReadOnly, ReadOnly],
    [ReadOnly, ReadOnly, ReadOnly, ReadOnly],
];

/// What a mode (0 kernel, 1 executive, 2 supervisor, 3 user) may do to a page with this protection code.
#[inline(always)]
#[tactic(auto, unfolding(crate::specs::Protection::right_of))]
pub fn right_of(prot: u8, mode: u8) -> Right
    requires of_code { prot ≤ 15 }
    requires of_mode { mode ≤ 3 }
    ensures { result ≡ spec.right_of prot mode }
{
    PROTECTION[prot as usize][mode as usize]
}

/// Whether a mode (0 kernel, 1 executive, 2 supervisor, 3 user) may make the access to a page with this protection
/// code (VAX Architecture Reference Manual, memory management, access control). The reserved code 1 allows nothing.
#[inline(always)]
#[tactic(auto, using(crate::proofs::Protections::allows_read), unfolding(crate::specs::Protection::allows))]
pub fn allows(prot: u8, mode: u8, access: Access) -> bool
    requires of_code { prot ≤ 15 }
    requires of_mode { mode ≤ 3 }
    ensures answer { result ≡ spec.allows prot mode access }
    // What may be written may be read.
    ensures readable { spec.allows prot mode Access.Write ≡ true
        → spec.allows prot mode Access.Read ≡ true }
{
    match right_of(prot, mode) {
        Nothing => false,
        ReadOnly => access == Access::Read,
        ReadWrite => true,
    }
}

/// An access control violation (VAX Architecture Reference Manual, memory management faults).
///
/// `addr` is the first byte of the range that may not be used so. `length` tells that its page lies past the length of
/// its region, and `write` that the reference was to write.
#[derive(Clone, Copy, PartialEq, Eq)]
pub struct Violation {
    pub addr: u32,
    pub length: bool,
    pub write: bool,
}

/// A list of bytes. Contracts see the list itself.
#[derive(Debug, Drop)]
pub struct Bytes {
    items: Vec<u8>,
}

impl Model for Bytes {
    ghost use Rattle.std.specs.Prelude.{List, ℕ};

    ghost Value = { List ℕ };

    ghost view = { λ b. b.items.items };
}

impl From<Vec<u8>> for Bytes {
    ghost from_gives = { λ v b. b ≡ v.items };

    fn from(items: Vec<u8>) -> Bytes {
        Bytes { items }
    }
}

impl Bytes {
    pub fn as_slice(&self) -> &[u8]
        ensures { result.now ≡ self.now }
    {
        &self.items
    }
}

/// A run of pages with one protection code. Its bytes past `bytes` are 0 at the start.
#[derive(Drop)]
pub struct Area {
    /// The number of its first page.
    pub first: u32,
    /// How many pages it has.
    pub pages: u32,
    /// Its protection code, as in a page table entry's bits 30:27.
    pub prot: u8,
    /// What it holds at the start.
    pub bytes: Bytes,
}

impl Area {
    ghost use Rattle.vax_space.specs.Areas.{has_page};

    #[inline]
    #[tactic(auto, unfolding(crate::specs::Areas::has_page))]
    pub fn has_page(&self, page: u32) -> bool
        ensures { result ≡ has_page self.now page }
    {
        self.first <= page && page - self.first < self.pages
    }
}

/// Why a list of areas is no space. The number is the place in the list, from 0, of the first area at fault. Where an
/// area has several faults, the first in this order is told.
#[derive(Clone, Copy, PartialEq, Eq, Debug, Error)]
pub enum SpaceError {
    /// It begins before the end of the area before it.
    #[error("area {0} begins before the end of the area before it")]
    Order(u32),
    /// It has no page, or pages outside the three regions.
    #[error("area {0} has no page, or pages outside the regions")]
    Range(u32),
    /// Its protection code is reserved or has more than four bits.
    #[error("area {0} has no valid protection code")]
    Prot(u32),
    /// It has more bytes than its pages hold.
    #[error("area {0} has more bytes than its pages hold")]
    Length(u32),
    #[error("out of memory")]
    NoMemory,
}

impl From<NoMemory> for SpaceError {
    ghost use Rattle.std.specs.Prelude.{◌≡◌};
    ghost use Rattle.vax_space.specs.declared.SpaceError.TheVariants as error;

    ghost from_gives = { λ _ e. e ≡ error.NoMemory };

    fn from(_error: NoMemory) -> SpaceError {
        SpaceError::NoMemory
    }
}

/// The areas of a guest's memory, in ascending order. Contracts see the list of the areas.
#[derive(Drop)]
pub struct Space {
    areas: Vec<Area>,
    /// The protection code of each page that an area may have, and 1 for a page in no area.
    codes: Vec<u8>,
}

impl Model for Space {
    ghost use Rattle.std.specs.Prelude.{List};
    ghost use Rattle.vax_space.specs.declared.Area.{Area};
    ghost use Rattle.vax_space.specs.Lookup.{IsBuilt};

    ghost Value = { List Area };

    ghost view = { λ s. s.areas.items };

    ghost invariant = { λ s. IsBuilt s.areas.items s.codes.items };
}

impl Space {
    ghost use Rattle.vax_space.specs.Areas as areas_spec;
    ghost use Rattle.vax_space.specs.Faults.{IsSpace, IsFirstFault};
    ghost use Rattle.vax_space.specs.Reference as reference;

    /// The space of these areas. They ascend, each has a page and lies within pages 0 to 7FFF, 3F8000 to 3FFFFF or
    /// 400000 to 400FFF (hexadecimal), its protection code is 0 or 2 to 15, and its bytes fit its pages; the error tells
    /// the first area that breaks this.
    pub fn new(alloc: Global, areas: Vec<Area>) -> Result<Space, SpaceError>
        ensures areas { IfOk result (λ space. space ≡ areas.items) }
        ensures sound { OnOk result (IsSpace areas.items) }
        ensures fault { IfErr result
            (λ error. (error ≡ SpaceError.NoMemory) ⊎ IsFirstFault areas.items error) }
    {
        if let Some(fault) = first_fault(&areas) {
            return Err(fault);
        }
        let codes = code_table(alloc, &areas)?;
        Ok(Space { areas, codes })
    }

    /// The areas, in ascending order.
    #[inline]
    pub fn areas(&self) -> &[Area]
        ensures areas { result.now ≡ self.now }
        ensures sound { IsSpace self.now }
    {
        &self.areas
    }

    /// The page after the last that an area of P0 has, which is P0's length; 0 where P0 has no area.
    pub fn p0_end(&self) -> u32
        ensures end { result ≡ reference.program_end self.now }
        ensures within { result ≤ 0x8000 }
        ensures sound { IsSpace self.now }
    {
        program_end(&self.areas)
    }

    /// The first page that an area of P1 has, from which on P1's pages are within its length; 400000 (hexadecimal),
    /// the region's end, where P1 has no area.
    pub fn p1_start(&self) -> u32
        ensures start { result ≡ reference.control_start self.now }
        ensures low { 0x3F8000 ≤ result }
        ensures high { result ≤ 0x400000 }
    {
        control_start(&self.areas)
    }

    /// The protection code of a page, and the reserved code for a page in no area.
    #[inline(always)]
    fn code(&self, page: u32) -> u8
        ensures code { result ≡ unwrap_or (areas_spec.prot_of self.now page) 1 }
        ensures valid { result ≤ 15 }
        ensures named { areas_spec.prot_of self.now page ≢ Some 1 }
    {
        match slot(page) {
            Some(place) => self.codes[place],
            None => NO_AREA,
        }
    }

    /// The protection code of a page; none where no area has the page.
    #[inline]
    pub fn prot_of(&self, page: u32) -> Option<u8>
        ensures prot { result ≡ areas_spec.prot_of self.now page }
        ensures small { IfSome result (λ code. code ≤ 15) }
    {
        match self.code(page) {
            NO_AREA => None,
            code => Some(code),
        }
    }

    /// Whether a mode may make the access to a page.
    #[inline(always)]
    #[tactic(auto, using(crate::proofs::Tables::may_access_by), unfolding(crate::specs::Reference::may_access))]
    fn may_access(&self, page: u32, mode: u8, access: Access) -> bool
        requires of_mode { mode ≤ 3 }
        ensures { result ≡ reference.may_access self.now page mode access }
    {
        allows(self.code(page), mode, access)
    }

    /// Whether the range lies within one page, to which the mode may make the access.
    #[inline(always)]
    #[tactic(auto, using(crate::proofs::References::violation_in_page), unfolding(crate::specs::Reference::is_free_page))]
    pub fn is_free_page(&self, addr: u32, len: u32, mode: u8, access: Access) -> bool
        requires of_mode { mode ≤ 3 }
        ensures answer { result ≡ reference.is_free_page self.now addr len mode access }
        ensures one_page { result ≡ true → addr % 512 + len ≤ 512 }
        ensures free { result ≡ true → reference.violation self.now addr len mode access ≡ None }
    {
        len <= PAGE_BYTES - addr % PAGE_BYTES && self.may_access(addr / PAGE_BYTES, mode, access)
    }

    /// Checks a reference to `len` bytes from `addr` on. The range may go on from FFFFFFFF to 0. A length of 0 is
    /// allowed everywhere. The violation tells the first byte that may not be accessed; `length` is set where its page
    /// lies past its region: at or past the end of the last area of P0, before the first area of P1, from page 401200
    /// (hexadecimal) on in the system region, and in the fourth region.
    #[inline]
    pub fn check(&self, addr: u32, len: u32, mode: u8, access: Access) -> Result<(), Violation>
        requires of_mode { mode ≤ 3 }
        ensures answer { result_err result ≡ reference.violation self.now addr len mode access }
        ensures accessible { IsOk result ↔ reference.IsAccessible self.now addr len mode access }
        ensures first { IfErr result (reference.IsFirstViolation self.now addr len mode access) }
        ensures readable { reference.WritableIsReadable self.now }
    {
        if self.is_free_page(addr, len, mode, access) {
            return Ok(());
        }
        match self.check_pages(addr, len, mode, access) {
            Ok(()) => Ok(()),
            Err(violation) => Err(violation),
        }
    }

    /// Checks a reference page by page.
    #[cold]
    fn check_pages(&self, addr: u32, len: u32, mode: u8, access: Access) -> Result<(), Violation>
        requires of_mode { mode ≤ 3 }
        ensures answer { result_err result ≡ reference.violation self.now addr len mode access }
        ensures accessible { IsOk result ↔ reference.IsAccessible self.now addr len mode access }
        ensures first { IfErr result (reference.IsFirstViolation self.now addr len mode access) }
        ensures readable { reference.WritableIsReadable self.now }
    {
        let mut at = addr;
        let mut left = len;
        while left > 0 {
            if !self.may_access(at / PAGE_BYTES, mode, access) {
                return Err(self.violation_at(at, access));
            }
            let step = left.min(PAGE_BYTES - at % PAGE_BYTES);
            at = at.wrapping_add(step);
            left -= step;
        }
        Ok(())
    }

    #[cold]
    fn violation_at(&self, addr: u32, access: Access) -> Violation
        ensures { result ≡ reference.violation_at self.now addr access }
    {
        Violation {
            addr,
            length: is_past_region(&self.areas, addr / PAGE_BYTES),
            write: access == Access::Write,
        }
    }

    /// The number of a page's block in a page file: its rank, from 0, among the pages that some mode may write. None
    /// for a page that no mode may write, and for a page in no area. It is below the number of pages.
    pub fn block_of(&self, page: u32) -> Option<u32>
        ensures rank { result ≡ areas_spec.block_of self.now page }
        ensures page { IfSome result
            (λ block. areas_spec.page_of_block self.now block ≡ Some page) }
        ensures few { IfSome result (λ block. block < PAGES) }
    {
        pages::block_of(&self.areas, page)
    }

    /// A page's byte at the start; none where no area has the page, or `offset` is above 511.
    #[tactic(auto, using(crate::proofs::Extents::has_first), unfolding(crate::specs::Areas::initial))]
    pub fn initial(&self, page: u32, offset: u16) -> Option<u8>
        ensures { result ≡ areas_spec.initial self.now page offset }
    {
        if offset >= 512 {
            return None;
        }
        let area = self.area_of(page)?;
        let place = (page - area.first) as usize * 512 + offset as usize;
        Some(area.bytes.as_slice().get(place).copied().unwrap_or(0))
    }

    /// The area that has a page.
    pub fn area_of(&self, page: u32) -> Option<&Area>
        ensures area { option_copied result ≡ areas_spec.area_of self.now page }
        ensures has { IfSome result (λ area. areas_spec.has_page area.now page ≡ true) }
    {
        pages::area_of(&self.areas, page)
    }
}
