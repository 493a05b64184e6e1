//! The areas of pages, one for each.
ghost use Rattle.std.specs.Prelude.{◌≡◌, [], map, IfOk};
ghost use Rattle.vax_undo.specs.Plain.{view_of};
ghost use Rattle.vax_vector_memory.specs.Pages.{guarded, unguarded};

use crate::error::NoVector;
use std::alloc::Global;
use vax_space::{Area, NoMemory, Space};
use vax_undo::Plain;
use vax_vectors::Page;

/// A page's area with this protection code and no bytes.
fn area_of(alloc: Global, page: &Page, prot: u8) -> Area
    ensures { result ≡ record { first = page.now.number; pages = 1; prot = prot; bytes = [] } }
{
    Area {
        first: page.number,
        pages: 1,
        prot,
        bytes: Vec::new(alloc).into(),
    }
}

/// The pages' areas with their own protection codes.
fn guarded_areas(alloc: Global, pages: &[Page]) -> Result<Vec<Area>, NoMemory>
    ensures { IfOk result (λ areas. areas.items ≡ map guarded pages.now) }
{
    let mut areas = Vec::with_capacity(alloc, pages.len())?;
    for page in pages {
        if areas.push(area_of(alloc, page, page.prot)).is_err() {
            return Err(NoMemory);
        }
    }
    Ok(areas)
}

/// The pages' areas with the protection code by which every mode may do all.
fn unguarded_areas(alloc: Global, pages: &[Page]) -> Result<Vec<Area>, NoMemory>
    ensures { IfOk result (λ areas. areas.items ≡ map unguarded pages.now) }
{
    let mut areas = Vec::with_capacity(alloc, pages.len())?;
    for page in pages {
        if areas.push(area_of(alloc, page, 4)).is_err() {
            return Err(NoMemory);
        }
    }
    Ok(areas)
}

/// What each mode may do to pages.
pub(crate) fn guarded_space(alloc: Global, pages: &[Page]) -> Result<Space, NoVector>
    ensures { IfOk result (λ space. space ≡ map guarded pages.now) }
{
    let areas = guarded_areas(alloc, pages)?;
    match Space::new(alloc, areas) {
        Ok(space) => Ok(space),
        Err(error) => Err(NoVector::Space(error)),
    }
}

/// Memory of pages to which every mode may do all.
pub(crate) fn unguarded_memory(alloc: Global, pages: &[Page]) -> Result<Plain, NoVector>
    ensures { IfOk result (λ plain. (view_of plain).areas ≡ map unguarded pages.now) }
{
    let areas = unguarded_areas(alloc, pages)?;
    match Space::new(alloc, areas) {
        Ok(space) => Ok(Plain::new(alloc, space)?),
        Err(error) => Err(NoVector::Space(error)),
    }
}
