//! What a list of areas says of a page.
ghost use Rattle.std.specs.Prelude.{◌≡◌, ◌<◌, true, Some, IfSome, option_copied};
ghost use Rattle.vax_space.specs.Areas as spec;
ghost use Rattle.vax_space.specs.Faults.{IsSpace};

use crate::{Access, Area, PAGES, allows};

/// The area that has a page.
pub(crate) fn area_of(areas: &[Area], page: u32) -> Option<&Area>
    ensures area { option_copied result ≡ spec.area_of areas.now page }
    ensures has { IfSome result (λ area. spec.has_page area.now page ≡ true) }
{
    for area in areas {
        if area.has_page(page) {
            return Some(area);
        }
    }
    None
}

/// A page's rank among the pages that some mode may write: kernel mode may write what any other mode may.
pub(crate) fn block_of(areas: &[Area], page: u32) -> Option<u32>
    requires { IsSpace areas.now }
    ensures rank { result ≡ spec.block_of areas.now page }
    ensures page { IfSome result (λ block. spec.page_of_block areas.now block ≡ Some page) }
    ensures few { IfSome result (λ block. block < PAGES) }
{
    let mut rank = 0;
    for area in areas {
        if !allows(area.prot, 0, Access::Write) {
            continue;
        }
        if area.has_page(page) {
            return Some(rank + (page - area.first));
        }
        rank += area.pages;
    }
    None
}
