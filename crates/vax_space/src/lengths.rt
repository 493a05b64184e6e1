//! The lengths of the regions.
ghost use Rattle.std.specs.Prelude.{◌≡◌, ◌<◌, ◌≤◌, ◌^◌};
ghost use Rattle.vax_space.specs.Areas.{end_of};
ghost use Rattle.vax_space.specs.Faults.{IsSpace};
ghost use Rattle.vax_space.specs.Reference as spec;

use crate::Area;

/// Where an area of P0 ends, and 0 for another area.
fn end_in_program(area: &Area) -> u32
    requires { end_of area.now < 2 ^ 32 }
    ensures { result ≡ spec.end_in_program area.now }
{
    if area.first < 0x200000 {
        area.first + area.pages
    } else {
        0
    }
}

/// The page after the last that an area of P0 has.
#[tactic(auto, using(crate::proofs::Extents::program_small))]
pub(crate) fn program_end(areas: &[Area]) -> u32
    requires { IsSpace areas.now }
    ensures end { result ≡ spec.program_end areas.now }
    ensures within { result ≤ 0x8000 }
{
    let mut end: u32 = 0;
    for area in areas {
        end = end.max(end_in_program(area));
    }
    end
}

/// Where an area of P1 begins, and the region's end for another area.
fn start_in_control(area: &Area) -> u32
    ensures { result ≡ spec.start_in_control area.now }
{
    if 0x200000 <= area.first && area.first < 0x400000 {
        area.first
    } else {
        0x400000
    }
}

/// The first page that an area of P1 has, or the region's end.
#[tactic(auto, using(crate::proofs::Extents::control_large, crate::proofs::Extents::control_small))]
pub(crate) fn control_start(areas: &[Area]) -> u32
    requires { IsSpace areas.now }
    ensures start { result ≡ spec.control_start areas.now }
    ensures low { 0x3F8000 ≤ result }
    ensures high { result ≤ 0x400000 }
{
    let mut start: u32 = 0x400000;
    for area in areas {
        start = start.min(start_in_control(area));
    }
    start
}

/// Whether the page lies past the length of its region.
#[tactic(auto, unfolding(crate::specs::Reference::is_past_region))]
pub(crate) fn is_past_region(areas: &[Area], page: u32) -> bool
    requires { IsSpace areas.now }
    ensures { result ≡ spec.is_past_region areas.now page }
{
    match page {
        0..0x200000 => program_end(areas) <= page,
        0x200000..0x400000 => page < control_start(areas),
        _ => 0x401200 <= page,
    }
}
