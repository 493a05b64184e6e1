//! Where sections lie.
ghost use Rattle.std.specs.Prelude.{◌≡◌, ◌<◌, ◌≤◌, ◌+◌, ◌*◌, true, false, IfOk, IfSome, IfNone, MatchOption, length, All, slice_index};
ghost use Rattle.std.specs.List.{position_or_len};
ghost use Rattle.std.specs.Str.{bytes_eq};
ghost use Rattle.vax_link.specs.Layout as spec;
ghost use Rattle.vax_image.specs.declared.Base.{Base};
ghost use Rattle.vax_link.specs.Layout.{sections_in, names_in};
ghost use Rattle.vax_link.specs.Placed.{AreFirsts, IsLayout};

use crate::placed::Layout;
use std::alloc::{AllocError, Global};
use vax_image::Base;
use vax_module::{Module, Section};

/// The most bytes of a section: those of the pages of the program region.
const MOST: u32 = 0x100_0000;

/// How many sections there may be.
const MOST_SECTIONS: usize = 64;

/// Whether the name is that of the system control block.
pub(crate) fn is_control_block(base: Base, name: &[u8]) -> bool
    ensures { result ≡ spec.is_control_block base name.now }
{
    match base {
        Base::Bare => name == b"$SCB".as_slice(),
        Base::User => false,
    }
}

/// The sections of all modules, and the place of each module's first section among them.
fn pieces_of<'a>(
    alloc: Global,
    modules: &'a [Module],
) -> Result<(Vec<&'a Section>, Vec<usize>), AllocError>
    ensures pieces { IfOk result (λ x. sections_in x.0.items ≡ spec.pieces_of modules.entry.now) }
    ensures firsts { IfOk result (λ x. AreFirsts modules.entry.now x.1.items) }
{
    let mut pieces = Vec::new(alloc);
    let mut firsts = Vec::new(alloc);
    for module in modules {
        firsts.push(pieces.len())?;
        for section in module.sections.as_slice() {
            pieces.push(section)?;
        }
    }
    Ok((pieces, firsts))
}

/// Whether a section's name is among the names.
fn is_listed(names: &[&[u8]], name: &[u8]) -> bool
    ensures { result ≡ spec.is_listed (names_in names.now) name.now }
{
    for other in names {
        if *other == name {
            return true;
        }
    }
    false
}

/// The names of pieces, each where it first appears; none where there are more than 64.
fn names_of<'a>(alloc: Global, pieces: &[&'a Section]) -> Result<Option<Vec<&'a [u8]>>, AllocError>
    ensures named { IfOk result
        (λ found. MatchOption found (64 < length (spec.names_of (sections_in pieces.now)))
        (λ names. names_in names.items ≡ spec.names_of (sections_in pieces.now))) }
    ensures few { IfOk result (λ found. IfSome found (λ names. length names.items ≤ 64)) }
{
    let mut names = Vec::new(alloc);
    for piece in pieces {
        let name = piece.name.as_slice();
        if !is_listed(&names, name) {
            if names.len() == MOST_SECTIONS {
                return Ok(None);
            }
            names.push(name)?;
        }
    }
    Ok(Some(names))
}

/// A section's alignment.
pub(crate) fn align_of(pieces: &[&Section], name: &[u8]) -> u16
    ensures align { result ≡ spec.align_of name.now (sections_in pieces.now) }
    ensures some { 1 ≤ result }
{
    let mut align = 1;
    for piece in pieces {
        if piece.name.as_slice() == name {
            align = align.max(piece.align);
        }
    }
    align
}

/// The next multiple of an alignment.
fn aligned(align: u16, place: u32) -> u32
    requires some { 1 ≤ align }
    requires small { place ≤ 0x1000000 }
    ensures next { result ≡ spec.aligned align place }
    ensures small { result ≤ 0x1010000 }
{
    let align = u32::from(align);
    place.div_ceil(align) * align
}

/// Where a section ends behind these pieces; none where that is past the most bytes of a section.
fn end_of(pieces: &[&Section], name: &[u8], align: u16) -> Option<u32>
    requires { 1 ≤ align }
    ensures none { IfNone result
        (0x1000000 < spec.end_behind name.now align 0 (sections_in pieces.now)) }
    ensures some { IfSome result (λ end. end
        ≡ spec.end_behind name.now align 0 (sections_in pieces.now)) }
    ensures few { IfSome result (λ end. end ≤ 0x1000000) }
{
    let mut end = 0;
    for piece in pieces {
        let bytes = piece.bytes.as_slice();
        if piece.name.as_slice() == name && !bytes.is_empty() {
            let begin = aligned(align, end);
            if begin > MOST || bytes.len() > (MOST - begin) as usize {
                return None;
            }
            end = begin + bytes.len() as u32;
        }
    }
    Some(end)
}

/// Whether a piece is laid over others: it has no bytes of its own, and tells how many it covers.
fn is_overlaid(piece: &Section) -> bool
    ensures { result ≡ spec.is_overlaid piece.now }
{
    piece.bytes.as_slice().is_empty() && piece.storage != 0
}

/// How many bytes of a section its overlaid pieces cover from its begin on.
fn covered_by(pieces: &[&Section], name: &[u8]) -> u32
    ensures { result ≡ spec.covered_by name.now 0 (sections_in pieces.now) }
{
    let mut most = 0;
    for piece in pieces {
        if piece.name.as_slice() == name && is_overlaid(piece) {
            most = most.max(piece.storage);
        }
    }
    most
}

/// How many bytes a section has; none where they are more than the most of a section.
#[tactic(auto, unfolding(crate::specs::Layout::size_of))]
pub(crate) fn size_of(pieces: &[&Section], name: &[u8]) -> Option<u32>
    ensures none { IfNone result (0x1000000 < spec.size_of (sections_in pieces.now) name.now) }
    ensures some { IfSome result (λ size. size ≡ spec.size_of (sections_in pieces.now) name.now) }
    ensures few { IfSome result (λ size. size ≤ 0x1000000) }
{
    let end = end_of(pieces, name, align_of(pieces, name))?;
    let covered = covered_by(pieces, name);
    if covered > MOST {
        return None;
    }
    Some(end.max(covered))
}

/// The first page of the first section.
fn origin(base: Base) -> u32
    ensures { result ≡ spec.origin base }
{
    match base {
        Base::Bare => 0x40_0001,
        Base::User => 1,
    }
}

/// The page at which each section begins; none where one passes the last page.
fn first_pages<'a>(
    alloc: Global,
    base: Base,
    pieces: &[&'a Section],
    names: &[&'a [u8]],
) -> Result<Option<Vec<u32>>, AllocError>
    ensures room { IfOk result (λ found. MatchOption found
        (spec.has_no_room base (sections_in pieces.now) (names_in names.now) ≡ true)
        (λ pages. spec.has_no_room base (sections_in pieces.now) (names_in names.now) ≡ false)) }
    ensures pages { IfOk result (λ found. IfSome found (λ pages. pages.items
        ≡ spec.pages_from base (sections_in pieces.now) (spec.origin base) (names_in names.now))) }
    ensures low { IfOk result
        (λ found. IfSome found (λ pages. All (λ page. page ≤ 0x400800) pages.items)) }
{
    let end = base.end_page();
    let mut page = origin(base);
    let mut pages = Vec::new(alloc);
    for name in names {
        let Some(size) = size_of(pieces, name) else {
            return Ok(None);
        };
        if is_control_block(base, name) {
            if size > 512 {
                return Ok(None);
            }
            pages.push(0x40_0000)?;
        } else {
            pages.push(page)?;
            page += size.div_ceil(512);
            if page > end {
                return Ok(None);
            }
        }
    }
    Ok(Some(pages))
}

/// The place of a section's name among the names, or how many there are.
fn place_of(names: &[&[u8]], name: &[u8]) -> usize
    ensures { result ≡ position_or_len (λ n. bytes_eq n name.now) (names_in names.now) }
{
    for (place, other) in names.iter().enumerate() {
        if *other == name {
            return place;
        }
    }
    names.len()
}

/// The page at which a section begins.
fn page_of(names: &[&[u8]], pages: &[u32], name: &[u8]) -> u32
    requires { All (λ page. page ≤ 0x400800) pages.now }
    ensures page { result
        ≡ slice_index pages.now (position_or_len (λ n. bytes_eq n name.now) (names_in names.now)) }
    ensures low { result ≤ 0x400800 }
{
    match pages.get(place_of(names, name)) {
        None => 0,
        Some(page) => *page,
    }
}

/// Where a piece begins that stands behind these in its section, if the section isn't too long.
fn offset_behind(pieces: &[&Section], before: &[&Section], name: &[u8]) -> u32
    ensures offset { let align = spec.align_of name.now (sections_in pieces.now) in
        spec.end_behind name.now align 0 (sections_in before.now) ≤ 0x1000000 →
        result ≡ spec.offset_behind (sections_in pieces.now) (sections_in before.now) name.now }
    ensures small { result ≤ 0x1010000 }
{
    let align = align_of(pieces, name);
    match end_of(before, name, align) {
        None => 0,
        Some(end) => aligned(align, end),
    }
}

/// Where a piece begins that stands behind these: at the begin of its section, where it is overlaid.
fn offset_of(pieces: &[&Section], before: &[&Section], piece: &Section) -> u32
    ensures offset { let align = spec.align_of piece.now.name (sections_in pieces.now) in
        spec.end_behind piece.now.name align 0 (sections_in before.now) ≤ 0x1000000 →
        result ≡ spec.offset_of (sections_in pieces.now) (sections_in before.now) piece.now }
    ensures small { result ≤ 0x1010000 }
{
    if is_overlaid(piece) {
        0
    } else {
        offset_behind(pieces, before, piece.name.as_slice())
    }
}

/// Where each piece lies.
fn addresses_of(
    alloc: Global,
    pieces: &[&Section],
    names: &[&[u8]],
    pages: &[u32],
) -> Result<Vec<u32>, AllocError>
    requires { All (λ page. page ≤ 0x400800) pages.now }
    ensures { (region : Base) → names_in names.now ≡ spec.names_of (sections_in pieces.now) →
        pages.now ≡ spec.pages_of_names region (sections_in pieces.now) →
        spec.is_too_large region (sections_in pieces.now) ≡ false →
        IfOk result (λ addresses. addresses.items
        ≡ spec.addresses region (sections_in pieces.now)) }
{
    let mut addresses = Vec::new(alloc);
    for (place, piece) in pieces.iter().enumerate() {
        let offset = offset_of(pieces, &pieces[..place], piece);
        addresses.push(page_of(names, pages, piece.name.as_slice()) * 512 + offset)?;
    }
    Ok(addresses)
}

/// Where the sections of modules lie; none where they have no room.
pub(crate) fn lay_out<'a>(
    alloc: Global,
    base: Base,
    modules: &'a [Module],
) -> Result<Option<Layout<'a>>, AllocError>
    ensures { IfOk result (λ found. MatchOption found
        (spec.is_too_large base (spec.pieces_of modules.entry.now) ≡ true)
        (λ layout. IsLayout layout base modules.entry.now)) }
{
    let (pieces, firsts) = pieces_of(alloc, modules)?;
    let Some(names) = names_of(alloc, &pieces)? else {
        return Ok(None);
    };
    let Some(pages) = first_pages(alloc, base, &pieces, &names)? else {
        return Ok(None);
    };
    let addresses = addresses_of(alloc, &pieces, &names, &pages)?;
    Ok(Some(Layout {
        base,
        pieces,
        names,
        pages,
        addresses,
        firsts,
    }))
}

/// Where each section of modules lies, one module after another; none where they have no room.
pub fn addresses(
    alloc: Global,
    base: Base,
    modules: &[Module],
) -> Result<Option<Vec<u32>>, AllocError>
    ensures { IfOk result (λ found. MatchOption found
        (spec.is_too_large base (spec.pieces_of modules.now) ≡ true)
        (λ places. places.items ≡ spec.addresses base (spec.pieces_of modules.now))) }
{
    let Some(Layout { addresses, .. }) = lay_out(alloc, base, modules)? else {
        return Ok(None);
    };
    Ok(Some(addresses))
}
