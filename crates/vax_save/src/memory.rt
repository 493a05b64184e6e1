//! The memory in a saved state.
ghost use Rattle.std.specs.Prelude.{◌≡◌, ◌+◌, ◌*◌, ◌≤◌, ◌++◌, true, length, All, IfOk, IfSome, OnOk};
ghost use Rattle.vax_space.specs.Areas.{end_of};
ghost use Rattle.vax_flat.specs.Start.{start_memory};
ghost use Rattle.vax_save.specs.Restoring as spec;
ghost use Rattle.vax_save.specs.Restoring.{Gives};
ghost use Rattle.vax_save.specs.Saved as saved;
ghost use Rattle.vax_save.specs.Views.{cursor, filled_to, or_zeros};

use crate::cursor::Cursor;
use crate::reading::{bytes_at, longword_at};
use crate::{AREA, PAGE, SaveError};
use std::alloc::{AllocError, Global};
use vax_space::{Area, PAGE_BYTES};

/// The number that stands behind the last page.
pub(crate) const END_MARK: u32 = 0xFFFF_FFFF;

/// Whether an area with these pages lies in a region.
#[tactic(auto, unfolding(vax_space::specs::Faults::is_placed))]
fn is_placed(first: u32, pages: u32) -> bool
    ensures answer { result ≡ spec.is_placed_so first pages }
    ensures small { result ≡ true → first + pages ≤ 0x401000 }
{
    let first = u64::from(first);
    let end = first + u64::from(pages);
    pages > 0
        && (end <= 0x8000
            || (0x3F_8000 <= first && end <= 0x40_0000)
            || (0x40_0000 <= first && end <= 0x40_1000))
}

/// The first page and the number of the pages of an area that stands at page `low` or behind it.
#[tactic(auto, unfolding(crate::specs::Restoring::extent_at))]
fn extent_at<'a>(low: u32, from: Cursor<'a>) -> Result<((u32, u32), Cursor<'a>), SaveError>
    ensures gives { Gives (λ x. (x.0, cursor x.1)) result (spec.extent_at low (cursor from.entry)) }
    ensures small { IfOk result (λ x. x.0.0 + x.0.1 ≤ 0x401000) }
{
    let (first, rest) = longword_at(from)?;
    let (pages, rest) = longword_at(rest)?;
    if first < low || !is_placed(first, pages) {
        return Err(SaveError::Fault {
            place: from.place,
            kind: AREA,
        });
    }
    Ok(((first, pages), rest))
}

/// A protection code: 0 or 2 to 15.
#[tactic(auto, unfolding(vax_space::specs::Faults::is_protection))]
fn protection_at<'a>(from: Cursor<'a>) -> Result<(u8, Cursor<'a>), SaveError>
    ensures { Gives (λ x. (x.0, cursor x.1)) result (spec.protection_at (cursor from.entry)) }
{
    let (code, rest) = longword_at(from)?;
    if code > 15 || code == 1 {
        return Err(SaveError::Fault {
            place: from.place,
            kind: AREA,
        });
    }
    Ok((code as u8, rest))
}

/// An area that stands at page `low` or behind it, with none of its bytes.
#[tactic(auto, unfolding(crate::specs::Restoring::area_at))]
fn area_at<'a>(alloc: Global, low: u32, from: Cursor<'a>) -> Result<(Area, Cursor<'a>), SaveError>
    ensures gives { Gives (λ x. (x.0, cursor x.1)) result (spec.area_at low (cursor from.entry)) }
    ensures small { IfOk result (λ x. end_of x.0 ≤ 0x401000) }
{
    let ((first, pages), rest) = extent_at(low, from)?;
    let (prot, rest) = protection_at(rest)?;
    let bytes = Vec::new(alloc).into();
    Ok((
        Area {
            first,
            pages,
            prot,
            bytes,
        },
        rest,
    ))
}

/// So many areas, each behind the one before it.
fn areas_at<'a>(
    alloc: Global,
    count: u32,
    from: Cursor<'a>,
) -> Result<(Vec<Area>, Cursor<'a>), SaveError>
    ensures gives { Gives (λ x. (x.0.items, cursor x.1)) result
        (spec.areas_at 0 count (cursor from.entry)) }
    ensures small { IfOk result (λ x. All (λ area. end_of area ≤ 0x401000) x.0.items) }
{
    let mut areas = Vec::new(alloc);
    let mut low = 0;
    let mut rest = from;
    for _ in 0..count {
        let (area, after) = area_at(alloc, low, rest)?;
        low = area.first + area.pages;
        areas.push(area)?;
        rest = after;
    }
    Ok((areas, rest))
}

/// How many areas there are, 1 to 256.
#[tactic(auto, unfolding(crate::specs::Restoring::count_at))]
fn count_at<'a>(from: Cursor<'a>) -> Result<(u32, Cursor<'a>), SaveError>
    ensures { Gives (λ x. (x.0, cursor x.1)) result (spec.count_at (cursor from.entry)) }
{
    let (count, rest) = longword_at(from)?;
    if count == 0 || count > 256 {
        return Err(SaveError::Fault {
            place: from.place,
            kind: AREA,
        });
    }
    Ok((count, rest))
}

/// Whether all bytes are 0.
pub(crate) fn is_blank(bytes: &[u8]) -> bool
    ensures { result ≡ saved.is_blank bytes.now }
{
    bytes.iter().all(|byte| *byte == 0)
}

/// The bytes of a page, not all of them 0.
#[tactic(auto, unfolding(crate::specs::Restoring::page_at))]
fn page_at<'a>(from: Cursor<'a>) -> Result<(&'a [u8], Cursor<'a>), SaveError>
    ensures gives { Gives (λ x. (x.0.now, cursor x.1)) result (spec.page_at (cursor from.entry)) }
    ensures all { IfOk result (λ x. length x.0.now ≡ 512) }
{
    let (bytes, rest) = bytes_at(PAGE_BYTES, from)?;
    if is_blank(bytes) {
        return Err(SaveError::Fault {
            place: from.place,
            kind: PAGE,
        });
    }
    Ok((bytes, rest))
}

/// The bytes of a page, where its number stands next.
#[tactic(auto, unfolding(crate::specs::Restoring::page_or_zeros))]
fn page_if<'a>(page: u32, from: Cursor<'a>) -> Result<(Option<&'a [u8]>, Cursor<'a>), SaveError>
    ensures gives { Gives (λ x. (or_zeros x.0, cursor x.1)) result
        (spec.page_or_zeros page (cursor from.entry)) }
    ensures all { IfOk result (λ x. IfSome x.0 (λ bytes. length bytes.now ≡ 512)) }
{
    let (number, after) = longword_at(from)?;
    if number != page {
        return Ok((None, from));
    }
    let (bytes, rest) = page_at(after)?;
    Ok((Some(bytes), rest))
}

/// Appends a page to the bytes of so many, of which the last zeros may be left out; a page that isn't there is one of zeros.
fn append(bytes: &mut Vec<u8>, count: u32, page: Option<&[u8]>) -> Result<(), AllocError>
    requires few { count ≤ 0x401000 }
    requires short { length bytes.old.items ≤ 512 * count }
    requires all { IfSome page (λ content. length content.now ≡ 512) }
    ensures filled { OnOk result (filled_to (count + 1) bytes.new.items
        ≡ filled_to count bytes.old.items ++ or_zeros page.entry) }
    ensures short { OnOk result (length bytes.new.items ≤ 512 * (count + 1)) }
{
    match page {
        Some(content) => {
            bytes.resize((PAGE_BYTES * count) as usize, 0)?;
            bytes.extend_from_slice(content)
        }
        None => Ok(()),
    }
}

/// The bytes of so many pages from one on, of which the last zeros may be left out.
fn pages_at<'a>(
    alloc: Global,
    first: u32,
    pages: u32,
    from: Cursor<'a>,
) -> Result<(Vec<u8>, Cursor<'a>), SaveError>
    requires { first + pages ≤ 0x401000 }
    ensures gives { Gives (λ x. (filled_to pages x.0.items, cursor x.1)) result
        (spec.pages_at first pages (cursor from.entry)) }
{
    let mut bytes = Vec::new(alloc);
    let mut rest = from;
    for count in 0..pages {
        let (page, after) = page_if(first + count, rest)?;
        append(&mut bytes, count, page)?;
        rest = after;
    }
    Ok((bytes, rest))
}

/// The areas with their bytes.
fn filled_at<'a>(
    alloc: Global,
    areas: &[Area],
    from: Cursor<'a>,
) -> Result<(Vec<Area>, Cursor<'a>), SaveError>
    requires { All (λ area. end_of area ≤ 0x401000) areas.now }
    ensures { Gives (λ x. (start_memory x.0.items, cursor x.1)) result
        (spec.filled_at areas.now (cursor from.entry)) }
{
    let mut filled = Vec::new(alloc);
    let mut rest = from;
    for area in areas {
        let (bytes, after) = pages_at(alloc, area.first, area.pages, rest)?;
        filled.push(Area {
            first: area.first,
            pages: area.pages,
            prot: area.prot,
            bytes: bytes.into(),
        })?;
        rest = after;
    }
    Ok((filled, rest))
}

/// The mark behind the last page.
#[tactic(auto, unfolding(crate::specs::Restoring::mark_at))]
fn mark_at<'a>(from: Cursor<'a>) -> Result<Cursor<'a>, SaveError>
    ensures { Gives (λ x. (saved.end_mark, cursor x)) result (spec.mark_at (cursor from.entry)) }
{
    let (mark, rest) = longword_at(from)?;
    if mark != END_MARK {
        return Err(SaveError::Fault {
            place: from.place,
            kind: PAGE,
        });
    }
    Ok(rest)
}

/// The areas with their bytes, and the mark.
#[tactic(auto, unfolding(crate::specs::Restoring::memory_at))]
pub(crate) fn memory_at<'a>(
    alloc: Global,
    from: Cursor<'a>,
) -> Result<(Vec<Area>, Cursor<'a>), SaveError>
    ensures { Gives (λ x. (start_memory x.0.items, cursor x.1)) result
        (spec.memory_at (cursor from.entry)) }
{
    let (count, rest) = count_at(from)?;
    let (areas, rest) = areas_at(alloc, count, rest)?;
    let (filled, rest) = filled_at(alloc, &areas, rest)?;
    let rest = mark_at(rest)?;
    Ok((filled, rest))
}
