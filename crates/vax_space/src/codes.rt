//! The table that a space keeps beside its areas, so that a reference finds a page's protection code in one step.
ghost use Rattle.std.specs.Prelude.{◌≡◌, ◌≤◌, ◌<◌, ◌+◌, true, length, IfSome, IfOk};
ghost use Rattle.vax_space.specs.Faults.{is_placed, IsSpace};
ghost use Rattle.vax_space.specs.Lookup as spec;

use crate::{Area, NoMemory};
use std::alloc::Global;

/// How many pages an area may have: 32,768 in P0, 32,768 in P1 and 4,096 in the system region.
pub const PAGES: usize = 69_632;

/// What stands for a page in no area: the reserved protection code, which allows nothing.
pub const NO_AREA: u8 = 1;

#[inline(always)]
fn place_of(page: u32) -> u32
    requires { 0x8000 ≤ page → 0x3F0000 ≤ page }
    ensures { result ≡ spec.place_of page }
{
    if page < 0x8000 { page } else { page - 0x3F0000 }
}

/// A page's place, from 0, among the pages that an area may have: P0's first, then P1's and the system region's, which
/// follow each other. None for a page that no area may have.
#[inline(always)]
#[tactic(auto, unfolding(crate::specs::Lookup::slot))]
pub fn slot(page: u32) -> Option<usize>
    ensures place { result ≡ spec.slot page }
    ensures bound { IfSome result (λ place. place < PAGES) }
{
    if page < 0x8000 {
        Some(page as usize)
    } else if 0x3F8000 <= page && page < 0x401000 {
        Some((page - 0x3F0000) as usize)
    } else {
        None
    }
}

/// Gives the area's pages its protection code.
fn paint(codes: &mut [u8], area: &Area)
    requires size { length codes.old ≡ PAGES }
    requires placed { is_placed area.now ≡ true }
    ensures size { length codes.new ≡ PAGES }
    ensures codes { spec.IsPainted area.now codes.old codes.new }
{
    let from = place_of(area.first);
    for place in from..from + area.pages {
        codes[place as usize] = area.prot;
    }
}

/// The protection codes of all pages.
pub(crate) fn code_table(alloc: Global, areas: &[Area]) -> Result<Vec<u8>, NoMemory>
    requires { IsSpace areas.now }
    ensures { IfOk result (λ codes. spec.Maps codes.items areas.now) }
{
    let mut codes = vec![in alloc; NO_AREA; PAGES]?;
    for i in (0..areas.len()).rev() {
        paint(&mut codes, &areas[i]);
    }
    Ok(codes)
}
