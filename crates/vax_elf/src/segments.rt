// The segments that program headers tell, and the areas that they are loaded into.
ghost use Rattle.std.specs.Prelude.{◌≡◌, ◌≤◌, ◌<◌, ◌+◌, ◌*◌, ◌^◌, ◌++◌, IfOk, IfSome, OnOk, Some, length, option_to_list};
ghost use Rattle.vax_image.specs.Image.{end_page, first_page};
ghost use Rattle.vax_elf.specs.declared.faults.ElfError.TheVariants.{Fault};
ghost use Rattle.vax_elf.specs.Executable as spec;
ghost use Rattle.vax_elf.specs.Faults.{Gives};
ghost use Rattle.vax_elf.specs.Reading as reading;

use crate::faults::{ElfError, ElfFault};
use crate::header::{PROGRAM_HEADER_BYTES, word_at};
use std::alloc::{AllocError, Global};
use vax_image::Base;
use vax_space::{Area, PAGE_BYTES};

/// The type of a segment that is loaded.
const LOAD: u32 = 1;
/// The type of a segment that names an interpreter.
const INTERPRETER: u32 = 3;
/// The flag of a segment that may be written.
const WRITABLE: u32 = 2;

/// A segment, as its program header tells it: offsets and sizes in bytes.
#[derive(Clone, Copy)]
pub(crate) struct Segment {
    /// Its type: 1 is loaded.
    pub(crate) kind: u32,
    /// Where its bytes stand in the file.
    pub(crate) offset: u32,
    /// The address of its first byte.
    pub(crate) address: u32,
    /// How many bytes it has in the file.
    pub(crate) file_size: u32,
    /// How many bytes it has in memory.
    pub(crate) memory_size: u32,
    /// 1 executable, 2 writable, 4 readable.
    pub(crate) flags: u32,
    /// A power of two, or 0.
    pub(crate) alignment: u32,
}

/// A fault at a field.
fn at(place: u32, kind: ElfFault) -> Option<ElfError>
    ensures { result ≡ Some (Fault place kind) }
{
    Some(ElfError::Fault { place, kind })
}

/// The program header at an offset.
fn segment_at(file: &[u8], place: u32) -> Segment
    requires { place + 32 ≤ length file.now }
    ensures { result ≡ spec.segment_at file.now place }
{
    let place = place as usize;
    Segment {
        kind: word_at(file, place),
        offset: word_at(file, place + 4),
        address: word_at(file, place + 8),
        file_size: word_at(file, place + 16),
        memory_size: word_at(file, place + 20),
        flags: word_at(file, place + 24),
        alignment: word_at(file, place + 28),
    }
}

impl Segment {
    /// Whether its address and its offset agree by its alignment.
    fn is_aligned(&self) -> bool
        ensures { result ≡ spec.is_aligned self.now }
    {
        self.alignment == 0
            || self.alignment.is_power_of_two()
                && self.address % self.alignment == self.offset % self.alignment
    }

    /// The first address behind it, of 33 bits.
    fn end(&self) -> u64
        ensures { result ≡ self.now.address + self.now.memory_size }
    {
        u64::from(self.address) + u64::from(self.memory_size)
    }

    /// Where its bytes end in the file, of 33 bits; 0 for one that has none there.
    fn file_end(&self) -> u64
        ensures { result ≡ spec.file_end self.now }
    {
        if self.file_size == 0 {
            return 0;
        }
        u64::from(self.offset) + u64::from(self.file_size)
    }

    /// Its fault as a segment that is loaded at page `low` or behind it; its program header stands at `place`.
    #[tactic(auto, unfolding(crate::specs::Reading::fault_of))]
    fn fault(&self, base: Base, low: u32, file: &[u8], place: u32) -> Option<ElfError>
        requires { place + 32 < 2 ^ 32 }
        ensures { result ≡ reading.fault_of base low (length file.now) place self.now }
    {
        let first = self.address / PAGE_BYTES;
        if !self.is_aligned() {
            return at(place + 28, ElfFault::Alignment);
        }
        if first < base.first_page() || 512 * u64::from(base.end_page()) < self.end() {
            return at(place + 8, ElfFault::Outside);
        }
        if first < low {
            return at(place + 8, ElfFault::Overlap);
        }
        if (file.len() as u64) < self.file_end() {
            return at(place + 4, ElfFault::Short);
        }
        None
    }

    /// Its area: its pages, with zeros before it and behind its bytes.
    fn area(&self, alloc: Global, base: Base, file: &[u8]) -> Result<Area, AllocError>
        requires within { spec.file_end self.now ≤ length file.now }
        requires low { self.now.address + self.now.memory_size ≤ 512 * end_page base }
        ensures { IfOk result (λ area. area ≡ spec.area_of base file.now self.now) }
    {
        let first = self.address / PAGE_BYTES;
        let behind = ((self.end() + 511) / 512) as u32;
        let start = self.offset as usize;
        let mut bytes = Vec::new(alloc);
        bytes.resize((self.address % PAGE_BYTES) as usize, 0)?;
        if self.file_size != 0 {
            bytes.extend_from_slice(&file[start..start + self.file_size as usize])?;
        }
        Ok(Area {
            first,
            pages: behind - first,
            prot: protection(base, self.flags & WRITABLE != 0),
            bytes: bytes.into(),
        })
    }
}

/// The protection code of a segment's pages.
fn protection(base: Base, is_writable: bool) -> u8
    ensures { result ≡ spec.protection base is_writable }
{
    match (base, is_writable) {
        (_, false) => 15,
        (Base::Bare, true) => 14,
        (Base::User, true) => 4,
    }
}

/// The area of the segment that the program header at `place` tells, if it is loaded.
#[tactic(auto, unfolding(crate::specs::Reading::loaded_at, crate::specs::Reading::fault_of))]
fn loaded_at(
    alloc: Global,
    base: Base,
    low: u32,
    file: &[u8],
    place: u32,
) -> Result<Option<Area>, ElfError>
    requires within { place + 32 ≤ length file.now }
    requires small { place + 32 < 2 ^ 32 }
    ensures { Gives (λ area. area) result (reading.loaded_at base low file.now place) }
{
    let segment = segment_at(file, place);
    if segment.kind == INTERPRETER {
        return Err(ElfError::Fault {
            place,
            kind: ElfFault::Interpreter,
        });
    }
    if segment.kind != LOAD {
        return Ok(None);
    }
    if segment.memory_size < segment.file_size {
        return Err(ElfError::Fault {
            place: place + 16,
            kind: ElfFault::Length,
        });
    }
    if segment.memory_size == 0 {
        return Ok(None);
    }
    if let Some(fault) = segment.fault(base, low, file, place) {
        return Err(fault);
    }
    let area = segment.area(alloc, base, file)?;
    Ok(Some(area))
}

/// Takes the next area, if there is one; the page that one behind it may begin at.
fn take(areas: &mut Vec<Area>, low: u32, next: Option<Area>) -> Result<u32, AllocError>
    requires { IfSome next (λ area. area.first + area.pages < 2 ^ 32) }
    ensures low { IfOk result (λ page. page ≡ reading.behind low next) }
    ensures items { OnOk result (areas.new.items ≡ areas.old.items ++ option_to_list next) }
{
    let Some(area) = next else {
        return Ok(low);
    };
    let behind = area.first + area.pages;
    areas.push(area)?;
    Ok(behind)
}

/// The areas that `count` program headers tell, from `place` on, each behind the one before it.
pub(crate) fn areas_at(
    alloc: Global,
    base: Base,
    file: &[u8],
    place: u32,
    count: u16,
) -> Result<Vec<Area>, ElfError>
    requires within { place + 32 * count ≤ length file.now }
    requires small { place + 32 * count < 2 ^ 32 }
    ensures { Gives (λ areas. areas.items) result
        (reading.areas_at base (first_page base) file.now place count) }
{
    let mut areas = Vec::new(alloc);
    let mut low = base.first_page();
    let mut place = place;
    for _ in 0..count {
        let next = loaded_at(alloc, base, low, file, place)?;
        low = take(&mut areas, low, next)?;
        place += PROGRAM_HEADER_BYTES;
    }
    Ok(areas)
}
