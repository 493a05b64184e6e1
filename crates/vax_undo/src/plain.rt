//! Plain memory in which any pages may be absent.
ghost use Rattle.std.specs.Prelude.{◌≡◌, ◌<◌, IfSome, IfOk};
ghost use Rattle.vax_space.specs.Faults.{IsSpace};
ghost use Rattle.vax_space.specs.Lookup.{slot};
ghost use Rattle.vax_undo.specs.Blocks.{IsPlain, AreStarts, IsFull, number_of_area};

use crate::block::{Block, block_of, number_of, number_of_parts, put_number};
use crate::port::Port;
use std::alloc::Global;
use vax_flat::Stop;
use vax_space::{Access, Area, NoMemory, PAGE_BYTES, Space, Violation};

/// How many pages can be in an area: 32,768 in P0, 32,768 in P1 and 4,096 in the system region.
const PAGES: usize = 69_632;

/// Memory of which any pages may be absent. Each area has its bytes in one piece, so that an access within a page is one of the host's.
#[derive(Drop)]
pub struct Plain {
    space: Space,
    /// The bytes of each area.
    blocks: Vec<Block>,
    /// The number of the area that has a page, for each page that can be in an area; none where the page is absent.
    owners: Vec<Option<u32>>,
    ghost sound: { IsPlain space blocks.items owners.items },
}

/// A page's place in the table of owners: P0's pages first, then P1's and the system region's, which follow each other.
#[inline(always)]
#[tactic(auto, unfolding(vax_space::specs::Lookup::slot))]
fn slot_of(page: u32) -> Option<usize>
    ensures place { result ≡ slot page }
    ensures bound { IfSome result (λ place. place < PAGES) }
{
    if page < 0x8000 {
        Some(page as usize)
    } else if 0x3F8000 <= page && page < 0x401000 {
        Some((page - 0x3F0000) as usize)
    } else {
        None
    }
}

/// The number of the area that has a page.
#[tactic(auto, unfolding(crate::specs::Blocks::number_of_area))]
fn number_of_area(areas: &[Area], page: u32) -> Option<u32>
    requires { IsSpace areas.now }
    ensures { result ≡ number_of_area 0 areas.now page }
{
    for (number, area) in areas.iter().enumerate() {
        if area.has_page(page) {
            return Some(number as u32);
        }
    }
    None
}

/// The areas' blocks at the start.
fn blocks_of(alloc: Global, areas: &[Area]) -> Result<Vec<Block>, NoMemory>
    requires { IsSpace areas.now }
    ensures { IfOk result (λ blocks. AreStarts areas.now blocks.items) }
{
    let mut blocks = Vec::with_capacity(alloc, areas.len())?;
    for area in areas {
        let block = block_of(alloc, area)?;
        if blocks.push(block).is_err() {
            return Err(NoMemory);
        }
    }
    Ok(blocks)
}

/// The table of owners with all pages of the areas resident.
fn owners_of(alloc: Global, areas: &[Area]) -> Result<Vec<Option<u32>>, NoMemory>
    requires { IsSpace areas.now }
    ensures { IfOk result (λ owners. IsFull areas.now owners.items) }
{
    let mut owners = Vec::with_capacity(alloc, PAGES)?;
    for place in 0..PAGES as u32 {
        let page = if place < 0x8000 {
            place
        } else {
            place + 0x3F0000
        };
        if owners.push(number_of_area(areas, page)).is_err() {
            return Err(NoMemory);
        }
    }
    Ok(owners)
}

impl Plain {
    ghost use Rattle.std.specs.Prelude.{ℕ, ◌+◌, ◌%◌, ◌≤◌, Some, None, false, length, is_some, if◌then◌else◌};
    ghost use Rattle.vax_space.specs.Reference.{page_of};
    ghost use Rattle.vax_flat.specs.Memory.{bytes_from};
    ghost use Rattle.vax_flat.specs.Memory.{number, byte_at};
    ghost use Rattle.vax_flat.specs.Port.{StandsFor, first_absent, loaded, loaded_by, stop, stop_of, stored, unless_cut, with_run, with_number};
    ghost use Rattle.vax_flat.specs.Start.{start_memory};
    ghost use Rattle.vax_space.specs.Areas.{area_of};
    ghost use Rattle.vax_undo.specs.Answers.{replaced};
    ghost use Rattle.vax_undo.specs.Blocks.{owner_of};
    ghost use Rattle.vax_undo.specs.Plain.{view_of, with_page};

    /// The number of the area that has a page, where the page is resident.
    #[inline(always)]
    fn owner(&self, page: u32) -> Option<u32>
        ensures { result ≡ owner_of self.now.owners.items page }
    {
        match slot_of(page) {
            Some(place) => self.owners[place],
            None => None,
        }
    }

    /// The bytes of a range within a page; none where the page is absent.
    #[inline(always)]
    fn part(&self, addr: u32, len: u32) -> Option<&[u8]>
        requires some { 1 ≤ len }
        requires one_page { addr % 512 + len ≤ 512 }
        ensures bytes { IfSome result
            (λ bytes. bytes.now ≡ bytes_from (view_of self.now).byte addr len) }
        ensures resident { is_some result ≡ (view_of self.now).resident (page_of addr) }
    {
        match self.owner(addr / PAGE_BYTES) {
            Some(owner) => {
                let block = &self.blocks[owner as usize];
                let place = (addr - block.start) as usize;
                Some(&block.bytes[place..place + len as usize])
            }
            None => None,
        }
    }

    /// Writes a run within a page that is resident.
    #[inline]
    fn put(&mut self, owner: u32, addr: u32, from: &[u8])
        requires owner { owner_of self.old.owners.items (page_of addr) ≡ Some owner }
        requires one_page { addr % 512 + length from.now ≤ 512 }
        ensures stored { view_of self.new ≡ with_run (view_of self.old) addr from.now }
        ensures owners { self.new.owners.items ≡ self.old.owners.items }
    {
        let block = &mut self.blocks[owner as usize];
        let place = (addr - block.start) as usize;
        block.bytes[place..place + from.len()].copy_from_slice(from);
    }

    /// Writes a number within a page that is resident, and gives the number that was there.
    #[inline(always)]
    fn put_value(&mut self, owner: u32, addr: u32, n: u32, value: u64) -> u64
        requires owner { owner_of self.old.owners.items (page_of addr) ≡ Some owner }
        requires some { 1 ≤ n }
        requires few { n ≤ 8 }
        requires one_page { addr % 512 + n ≤ 512 }
        ensures old { result ≡ number (view_of self.old).byte addr n }
        ensures stored { view_of self.new ≡ with_number (view_of self.old) addr n value }
    {
        let block = &mut self.blocks[owner as usize];
        let place = (addr - block.start) as usize;
        let bytes = &mut block.bytes[place..place + n as usize];
        let old = number_of(bytes);
        put_number(bytes, value);
        old
    }

    /// Reads a number that goes on in the next page.
    #[cold]
    fn read_apart(&self, addr: u32, n: u32) -> Result<u64, Stop>
        requires few { n ≤ 8 }
        requires apart { 512 < addr % 512 + n }
        ensures { result
            ≡ loaded_by (stop_of None (first_absent (view_of self.now).resident addr n))
            (number (view_of self.now).byte addr n) }
    {
        let first = PAGE_BYTES - addr % PAGE_BYTES;
        let next = addr.wrapping_add(first);
        let Some(low) = self.part(addr, first) else {
            return Err(Stop::NotResident(addr / PAGE_BYTES));
        };
        let Some(high) = self.part(next, n - first) else {
            return Err(Stop::NotResident(next / PAGE_BYTES));
        };
        Ok(number_of_parts(low, high))
    }

    /// Writes a number that goes on in the next page, and gives the number that was there: nothing is written where either page is absent.
    #[cold]
    fn write_apart(&mut self, addr: u32, n: u32, value: u64) -> Result<u64, Stop>
        requires few { n ≤ 8 }
        requires apart { 512 < addr % 512 + n }
        ensures answer { result
            ≡ loaded_by (stop_of None (first_absent (view_of self.old).resident addr n))
            (number (view_of self.old).byte addr n) }
        ensures stored { view_of self.new
            ≡ unless_cut (stop_of None (first_absent (view_of self.old).resident addr n))
            (view_of self.old) (with_number (view_of self.old) addr n value) }
    {
        let first = PAGE_BYTES - addr % PAGE_BYTES;
        let next = addr.wrapping_add(first);
        let Some(low) = self.owner(addr / PAGE_BYTES) else {
            return Err(Stop::NotResident(addr / PAGE_BYTES));
        };
        let Some(high) = self.owner(next / PAGE_BYTES) else {
            return Err(Stop::NotResident(next / PAGE_BYTES));
        };
        let old = self.read_apart(addr, n)?;
        let bytes = value.to_le_bytes();
        self.put(high, next, &bytes[first as usize..n as usize]);
        self.put(low, addr, &bytes[..first as usize]);
        Ok(old)
    }

    /// Reads any number: one that may not be read, lies in an absent page or goes on in the next page.
    #[cold]
    #[inline(never)]
    fn read_slowly(&self, addr: u32, n: u32, mode: u8) -> Result<u64, Stop>
        requires some { 1 ≤ n }
        requires few { n ≤ 8 }
        requires of_mode { mode ≤ 3 }
        ensures { result ≡ loaded (view_of self.now) addr n mode }
    {
        if let Err(violation) = self.space.check(addr, n, mode, Access::Read) {
            return Err(Stop::Violated(violation));
        }
        if addr % PAGE_BYTES + n > PAGE_BYTES {
            return self.read_apart(addr, n);
        }
        match self.part(addr, n) {
            Some(bytes) => Ok(number_of(bytes)),
            None => Err(Stop::NotResident(addr / PAGE_BYTES)),
        }
    }

    /// Writes any number: one that may not be written, lies in an absent page or goes on in the next page.
    #[cold]
    #[inline(never)]
    fn write_slowly(&mut self, addr: u32, n: u32, value: u64, mode: u8) -> Result<u64, Stop>
        requires some { 1 ≤ n }
        requires few { n ≤ 8 }
        requires of_mode { mode ≤ 3 }
        ensures answer { result ≡ replaced (view_of self.old) addr n mode }
        ensures stored { view_of self.new ≡ stored (view_of self.old) addr n value mode }
    {
        if let Err(violation) = self.space.check(addr, n, mode, Access::Write) {
            return Err(Stop::Violated(violation));
        }
        if addr % PAGE_BYTES + n > PAGE_BYTES {
            return self.write_apart(addr, n, value);
        }
        match self.owner(addr / PAGE_BYTES) {
            Some(owner) => Ok(self.put_value(owner, addr, n, value)),
            None => Err(Stop::NotResident(addr / PAGE_BYTES)),
        }
    }

    /// Makes a page absent, if it is resident.
    pub fn hide(&mut self, page: u32)
        ensures { view_of self.new ≡ with_page (view_of self.old) page false }
    {
        if let Some(place) = slot_of(page) {
            self.owners[place] = None;
        }
    }

    /// Makes a page of an area resident again, with the bytes that it had.
    pub fn show(&mut self, page: u32)
        ensures { view_of self.new
            ≡ with_page (view_of self.old) page (is_some (area_of (view_of self.old).areas page)) }
    {
        let number = number_of_area(self.space.areas(), page);
        if let Some(place) = slot_of(page) {
            self.owners[place] = number;
        }
    }

    /// The byte at an address, whether its page is resident or not; none where no area has it.
    pub fn byte(&self, addr: u32) -> Option<u8>
        ensures { result ≡ (if is_some (area_of (view_of self.now).areas (page_of addr))
            then Some ((view_of self.now).byte addr) else None) }
    {
        match number_of_area(self.space.areas(), addr / PAGE_BYTES) {
            Some(number) => {
                let block = &self.blocks[number as usize];
                Some(block.bytes[(addr - block.start) as usize])
            }
            None => None,
        }
    }

    /// Memory with the areas' bytes, and all pages of the areas resident.
    pub fn new(alloc: Global, space: Space) -> Result<Plain, NoMemory>
        ensures areas { IfOk result (λ plain. (view_of plain).areas ≡ space) }
        ensures resident { IfOk result
            (λ plain. (page : ℕ) → (view_of plain).resident page ≡ is_some (area_of space page)) }
        ensures bytes { IfOk result (λ plain. (view_of plain).byte ≡ byte_at (start_memory space)) }
        ensures stands { IfOk result (λ plain. StandsFor (view_of plain) (start_memory space)) }
    {
        let blocks = blocks_of(alloc, space.areas())?;
        let owners = owners_of(alloc, space.areas())?;
        Ok(Plain {
            space,
            blocks,
            owners,
        })
    }
}

impl Port for Plain {
    ghost use Rattle.vax_undo.specs.Plain.{view_of};

    ghost view = { view_of };

    ghost since = { λ a b. Unit {0} };

    #[inline(always)]
    fn check(&self, addr: u32, len: u32, mode: u8, access: Access) -> Result<(), Violation> {
        self.space.check(addr, len, mode, access)
    }

    #[tactic(auto, using(crate::proofs::Trail::unkept))]
    #[inline(always)]
    fn read(&mut self, addr: u32, n: u32, mode: u8) -> Result<u64, Stop> {
        if self.space.is_free_page(addr, n, mode, Access::Read) {
            if let Some(bytes) = self.part(addr, n) {
                return Ok(number_of(bytes));
            }
        }
        match self.read_slowly(addr, n, mode) {
            Ok(value) => Ok(value),
            Err(stop) => Err(stop),
        }
    }

    #[tactic(auto, using(crate::proofs::Trail::unkept))]
    #[inline(always)]
    fn write(&mut self, addr: u32, n: u32, value: u64, mode: u8) -> Result<u64, Stop> {
        if self.space.is_free_page(addr, n, mode, Access::Write) {
            if let Some(owner) = self.owner(addr / PAGE_BYTES) {
                return Ok(self.put_value(owner, addr, n, value));
            }
        }
        match self.write_slowly(addr, n, value, mode) {
            Ok(old) => Ok(old),
            Err(stop) => Err(stop),
        }
    }

    #[tactic(auto, using(crate::proofs::Trail::unkept))]
    fn read_run(&mut self, addr: u32, into: &mut [u8], mode: u8) -> Result<(), Stop> {
        let len = into.len() as u32;
        if let Err(violation) = self.space.check(addr, len, mode, Access::Read) {
            return Err(Stop::Violated(violation));
        }
        match self.part(addr, len) {
            Some(bytes) => {
                into.copy_from_slice(bytes);
                Ok(())
            }
            None => Err(Stop::NotResident(addr / PAGE_BYTES)),
        }
    }

    #[tactic(auto, using(crate::proofs::Trail::unkept))]
    fn write_run(&mut self, addr: u32, from: &[u8], mode: u8) -> Result<(), Stop> {
        if let Err(violation) = self
            .space
            .check(addr, from.len() as u32, mode, Access::Write)
        {
            return Err(Stop::Violated(violation));
        }
        match self.owner(addr / PAGE_BYTES) {
            Some(owner) => {
                self.put(owner, addr, from);
                Ok(())
            }
            None => Err(Stop::NotResident(addr / PAGE_BYTES)),
        }
    }
}
