//! The wired memory in which the page tables lie.
ghost use Rattle.std.specs.Prelude.{◌≡◌, ◌≤◌, ◌<◌, ◌*◌, ◌+◌, true, length, Some, IfOk, IfSome, OnOk};
ghost use Rattle.vax_table.specs.Entry as entry_spec;
ghost use Rattle.vax_table.specs.Layout as layout;
ghost use Rattle.vax_table.specs.Layout.{IsSound, walked_in, kept_in, total, IsFilled};
ghost use Rattle.vax_table.specs.Mapping.{changed, is_inside, mapped, all_absent, none_kept};
ghost use Rattle.vax_space.specs.Areas.{prot_of};
ghost use Rattle.vax_space.specs.Faults.{IsSpace};

use crate::entry::{NO_AREA, entry_at, entry_with, frame_in, put_entry};
use std::alloc::Global;
use vax_space::{NoMemory, Space};

/// The system page table, at physical address 01000000, then the pages of P0's table that are needed for its length,
/// and then those of P1's.
#[derive(Drop)]
pub struct Memory {
    pub bytes: Vec<u8>,
    /// P0's length register: the page after the last that has an entry.
    pub p0_end: u32,
    /// The first page of P1 that has an entry, by P1's length register.
    pub p1_start: u32,
}

/// The first frame of the wired memory: those below it are for the pages of areas.
const WIRED_FRAME: u32 = 0x8000;
/// How many entries the system page table has: 4,096 for areas and 512 for the pages of P0's and P1's tables.
const SYSTEM_LENGTH: u32 = 4608;
/// How many entries a page of a table holds.
const ENTRIES: u32 = 128;

impl Memory {
    /// The place of a page's entry, counted in longwords from the start of the wired memory; none where the page lies
    /// past the length of its region's table. P0's and P1's tables stand whole behind the system's, so the page alone
    /// tells the place to which the system's entries lead.
    #[inline]
    pub fn place_of(&self, page: u32) -> Option<usize>
        requires { IsSound self.now }
        ensures place { result ≡ layout.place_of self.now.p0_end self.now.p1_start page }
        ensures within { IfSome result (λ place. 4 * place + 4 ≤ length self.now.bytes.items) }
    {
        if page < 0x20_0000 {
            if page < self.p0_end {
                Some((SYSTEM_LENGTH + page) as usize)
            } else {
                None
            }
        } else if page < 0x40_0000 {
            if self.p1_start <= page {
                let first = self.p1_start - self.p1_start % ENTRIES;
                let table = SYSTEM_LENGTH + ENTRIES * self.p0_end.div_ceil(ENTRIES);
                Some((table + (page - first)) as usize)
            } else {
                None
            }
        } else if page < 0x40_1200 {
            Some((page - 0x40_0000) as usize)
        } else {
            None
        }
    }

    /// The place of the entry of a page that an area has.
    #[inline]
    pub fn place_inside(&self, page: u32) -> usize
        requires sound { IsSound self.now }
        requires inside { is_inside (walked_in self.now page) ≡ true }
        ensures place { layout.place_of self.now.p0_end self.now.p1_start page ≡ Some result }
        ensures within { 4 * result + 4 ≤ length self.now.bytes.items }
    {
        let Some(place) = self.place_of(page) else {
            unreachable!()
        };
        place
    }

    /// Writes the entry of a page that an area has.
    #[inline]
    pub fn put(&mut self, page: u32, place: usize, entry: u32)
        requires sound { IsSound self.old }
        requires found { layout.place_of self.old.p0_end self.old.p1_start page ≡ Some place }
        requires within { 4 * place + 4 ≤ length self.old.bytes.items }
        requires inside { is_inside (walked_in self.old page) ≡ true }
        ensures sound { IsSound self.new }
        ensures walked { walked_in self.new
            ≡ changed (walked_in self.old) page (entry_spec.said_by entry) }
        ensures kept { kept_in self.new
            ≡ changed (kept_in self.old) page (entry_spec.kept_by entry) }
    {
        put_entry(&mut self.bytes, place, entry);
    }
}

/// The system's entry for the page of P0's or P1's table at 80200000 + 512 * `number` (hexadecimal).
#[tactic(auto, unfolding(crate::specs::Layout::table_page))]
fn table_page(p0_end: u32, p1_start: u32, number: u32) -> u32
    requires p0 { p0_end ≤ 0x8000 }
    requires low { 0x3F8000 ≤ p1_start }
    requires high { p1_start ≤ 0x400000 }
    requires few { number < 512 }
    ensures { result ≡ layout.table_page p0_end p1_start number }
{
    let p0_pages = p0_end.div_ceil(ENTRIES);
    let p1_first = p1_start - p1_start % ENTRIES;
    if number < 256 {
        if number < p0_pages {
            entry_with(
                true,
                NO_AREA,
                false,
                WIRED_FRAME + (SYSTEM_LENGTH + ENTRIES * number) / ENTRIES,
            )
        } else {
            entry_with(false, NO_AREA, false, 0)
        }
    } else {
        let page = 0x3F_8000 + ENTRIES * (number - 256);
        if p1_first <= page {
            let place = SYSTEM_LENGTH + ENTRIES * p0_pages + (page - p1_first);
            entry_with(true, NO_AREA, false, WIRED_FRAME + place / ENTRIES)
        } else {
            entry_with(false, NO_AREA, false, 0)
        }
    }
}

/// The entry of a page that is absent.
fn absent_entry(space: &Space, page: u32) -> u32
    ensures { result ≡ layout.absent_entry space.now page }
{
    let prot = space.prot_of(page).unwrap_or(NO_AREA);
    entry_with(false, prot, false, 0)
}

/// What stands at a place of new tables.
#[tactic(auto, unfolding(crate::specs::Layout::first_entry))]
fn first_entry(space: &Space, p0_end: u32, p1_start: u32, place: u32) -> u32
    requires p0 { p0_end ≤ 0x8000 }
    requires low { 0x3F8000 ≤ p1_start }
    requires high { p1_start ≤ 0x400000 }
    requires within { place < total p0_end p1_start }
    ensures { result ≡ layout.first_entry space.now p0_end p1_start place }
{
    let p1_place = SYSTEM_LENGTH + ENTRIES * p0_end.div_ceil(ENTRIES);
    if place < 4096 {
        absent_entry(space, 0x40_0000 + place)
    } else if place < SYSTEM_LENGTH {
        table_page(p0_end, p1_start, place - 4096)
    } else if place < p1_place {
        absent_entry(space, place - SYSTEM_LENGTH)
    } else {
        absent_entry(space, p1_start - p1_start % ENTRIES + (place - p1_place))
    }
}

/// The bytes of new tables: all pages absent.
fn first_bytes(
    alloc: Global,
    space: &Space,
    p0_end: u32,
    p1_start: u32,
) -> Result<Vec<u8>, NoMemory>
    requires p0 { p0_end ≤ 0x8000 }
    requires low { 0x3F8000 ≤ p1_start }
    requires high { p1_start ≤ 0x400000 }
    ensures { IfOk result (λ bytes. IsFilled space.now p0_end p1_start
        (total p0_end p1_start) bytes.items) }
{
    let p1_first = p1_start - p1_start % ENTRIES;
    let total = SYSTEM_LENGTH + ENTRIES * p0_end.div_ceil(ENTRIES) + (0x40_0000 - p1_first);
    let mut bytes = vec![in alloc; 0; 4 * total as usize]?;
    for place in 0..total {
        put_entry(
            &mut bytes,
            place as usize,
            first_entry(space, p0_end, p1_start, place),
        );
    }
    Ok(bytes)
}

/// The memory of a space's tables, all pages absent.
pub(crate) fn new_memory(alloc: Global, space: &Space) -> Result<Memory, NoMemory>
    ensures sound { IfOk result IsSound }
    ensures walked { IfOk result (λ memory. walked_in memory ≡ mapped space.now all_absent) }
    ensures kept { IfOk result (λ memory. kept_in memory ≡ none_kept) }
    ensures space { OnOk result (IsSpace space.now) }
{
    let p0_end = space.p0_end();
    let p1_start = space.p1_start();
    let bytes = first_bytes(alloc, space, p0_end, p1_start)?;
    Ok(Memory {
        bytes,
        p0_end,
        p1_start,
    })
}
