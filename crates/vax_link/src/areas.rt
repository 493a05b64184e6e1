//! The areas of an image.
ghost use Rattle.std.specs.Prelude.{◌≡◌, ◌≤◌, ◌++◌, IfOk, OnOk, slice_index};
ghost use Rattle.std.specs.List.{filter, filter_map};
ghost use Rattle.vax_link.specs.Layout as lay;
ghost use Rattle.vax_link.specs.Layout.{sections_in};
ghost use Rattle.vax_link.specs.Placed.{bytes_in};
ghost use Rattle.vax_link.specs.Linked as spec;

use crate::layout::{align_of, is_control_block, size_of};
use crate::placed::Layout;
use std::alloc::{AllocError, Global};
use vax_image::Base;
use vax_module::Section;
use vax_space::Area;

/// A section's protection code: UW or URKW where it may be written, UR where it may not, and KW for the system control
/// block.
fn protection(base: Base, control: bool, write: bool) -> u8
    ensures { result ≡ spec.protection base control write }
{
    if control {
        return 2;
    }
    match (base, write) {
        (_, false) => 15,
        (Base::Bare, true) => 14,
        (Base::User, true) => 4,
    }
}

/// A section's bytes. Gaps hold 0.
fn bytes_of(
    alloc: Global,
    layout: &Layout,
    filled: &[Vec<u8>],
    name: &[u8],
) -> Result<Vec<u8>, AllocError>
    ensures { IfOk result (λ bytes. bytes.items
        ≡ spec.bytes_of (sections_in layout.now.pieces.items) (bytes_in filled.now) name.now) }
{
    let align = usize::from(align_of(&layout.pieces, name));
    let mut joined = Vec::new(alloc);
    for (piece, bytes) in layout.pieces.iter().zip(filled) {
        if piece.name.as_slice() == name && !bytes.is_empty() {
            let begin = joined.len().div_ceil(align) * align;
            joined.resize(begin, 0)?;
            joined.extend_from_slice(bytes)?;
        }
    }
    Ok(joined)
}

/// Whether some piece of a section may be written.
fn is_writable(pieces: &[&Section], name: &[u8]) -> bool
    ensures { result ≡ lay.is_writable name.now (sections_in pieces.now) }
{
    for piece in pieces {
        if piece.name.as_slice() == name && piece.write {
            return true;
        }
    }
    false
}

/// A section's area, unless the section is empty.
fn area_of(
    alloc: Global,
    layout: &Layout,
    filled: &[Vec<u8>],
    name: &[u8],
    first: u32,
) -> Result<Option<Area>, AllocError>
    requires { lay.size_of (sections_in layout.now.pieces.items) name.now ≤ 0x1000000 }
    ensures { IfOk result (λ area. area
        ≡ spec.area_unless_empty layout.now.base (sections_in layout.now.pieces.items)
        (bytes_in filled.now) (name.now, first)) }
{
    let Some(size) = size_of(&layout.pieces, name) else {
        return Ok(None);
    };
    if size == 0 {
        return Ok(None);
    }
    let bytes = bytes_of(alloc, layout, filled, name)?;
    let control = is_control_block(layout.base, name);
    let write = is_writable(&layout.pieces, name);
    Ok(Some(Area {
        first,
        pages: size.div_ceil(512),
        prot: protection(layout.base, control, write),
        bytes: bytes.into(),
    }))
}

/// The page at which a section begins, by its place among the names.
fn first_page(layout: &Layout, number: usize) -> u32
    ensures { result ≡ slice_index layout.now.pages.items number }
{
    match layout.pages.get(number) {
        None => 0,
        Some(page) => *page,
    }
}

/// Appends the area of the control block, or those of the other sections as they appear.
fn push_areas(
    alloc: Global,
    areas: &mut Vec<Area>,
    layout: &Layout,
    filled: &[Vec<u8>],
    control: bool,
) -> Result<(), AllocError>
    ensures { let pieces = sections_in layout.now.pieces.items in OnOk result (areas.new.items
        ≡ areas.old.items ++ filter_map (spec.area_unless_empty layout.now.base pieces
        (bytes_in filled.now)) (filter (spec.is_chosen layout.now.base control)
        (lay.placed_names layout.now.base pieces))) }
{
    for (number, name) in layout.names.iter().enumerate() {
        if is_control_block(layout.base, name) == control {
            let first = first_page(layout, number);
            if let Some(area) = area_of(alloc, layout, filled, name, first)? {
                areas.push(area)?;
            }
        }
    }
    Ok(())
}

/// The areas in ascending order: the control block first, then the others as they appear.
pub(crate) fn areas_of(
    alloc: Global,
    layout: &Layout,
    filled: &[Vec<u8>],
) -> Result<Vec<Area>, AllocError>
    ensures { IfOk result (λ areas. areas.items
        ≡ spec.areas_of layout.now.base (sections_in layout.now.pieces.items)
        (bytes_in filled.now)) }
{
    let mut areas = Vec::new(alloc);
    push_areas(alloc, &mut areas, layout, filled, true)?;
    push_areas(alloc, &mut areas, layout, filled, false)?;
    Ok(areas)
}
