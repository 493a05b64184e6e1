//! Finds the first area at fault in a list of areas.
ghost use Rattle.std.specs.Prelude.{◌≡◌, ◌<◌, ◌+◌, IfSome, IfNone};
ghost use Rattle.vax_space.specs.Areas as areas_spec;
ghost use Rattle.vax_space.specs.Faults as spec;

use crate::{Area, SpaceError};

/// Whether the area has a page and lies in a region.
#[tactic(auto, unfolding(crate::specs::Faults::is_placed))]
fn is_placed(area: &Area) -> bool
    ensures { result ≡ spec.is_placed area.now }
{
    let first = u64::from(area.first);
    let end = first + u64::from(area.pages);
    area.pages > 0
        && (end <= 0x8000
            || (0x3F8000 <= first && end <= 0x400000)
            || (0x400000 <= first && end <= 0x401000))
}

/// The fault of an area that stands at a place, behind one that ends at page `low`.
#[tactic(auto, unfolding(crate::specs::Faults::fault_of, crate::specs::Faults::is_protection))]
fn fault_of(area: &Area, low: u32, place: u32) -> Option<SpaceError>
    ensures { result ≡ spec.fault_of low place area.now }
{
    if area.first < low {
        Some(SpaceError::Order(place))
    } else if !is_placed(area) {
        Some(SpaceError::Range(place))
    } else if area.prot > 15 || area.prot == 1 {
        Some(SpaceError::Prot(place))
    } else if area.bytes.as_slice().len() > 512 * area.pages as usize {
        Some(SpaceError::Length(place))
    } else {
        None
    }
}

/// The fault of the first area at fault.
pub(crate) fn first_fault(areas: &[Area]) -> Option<SpaceError>
    ensures none { IfNone result (spec.IsSpace areas.now) }
    ensures some { IfSome result (spec.IsFirstFault areas.now) }
{
    let mut low = 0;
    for (place, area) in areas.iter().enumerate() {
        if let Some(fault) = fault_of(area, low, place as u32) {
            return Some(fault);
        }
        low = area.first + area.pages;
    }
    None
}
