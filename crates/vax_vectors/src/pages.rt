//! Pages, and the bytes that lie in them.
ghost use Rattle.std.specs.Prelude.{◌≡◌, ℕ, true, IfOk};
ghost use Rattle.vax_vectors.specs.Truth.{AreWithin, lies_in, told};

use crate::vector::{Cell, Page};
use std::alloc::{AllocError, Global};
use vax_space::PAGE_BYTES;

/// Whether an address lies in one of these pages.
#[tactic(auto, unfolding(crate::specs::Truth::lies_in))]
pub fn lies_in(pages: &[Page], addr: u32) -> bool
    ensures { result ≡ lies_in pages.now addr }
{
    for page in pages {
        if addr / PAGE_BYTES == page.number {
            return true;
        }
    }
    false
}

/// Those of the bytes that lie in one of these pages.
#[tactic(auto, using(crate::proofs::Inside::one_kept))]
pub fn within(alloc: Global, pages: &[Page], ram: &[Cell]) -> Result<Vec<Cell>, AllocError>
    ensures within { IfOk result (λ cells. AreWithin pages.now cells.items) }
    ensures told { IfOk result (λ cells. (addr : ℕ) → lies_in pages.now addr ≡ true
        → told cells.items addr ≡ told ram.now addr) }
{
    let mut cells = Vec::with_capacity(alloc, ram.len())?;
    for cell in ram {
        if !lies_in(pages, cell.addr) {
            continue;
        }
        if cells.push(*cell).is_err() {
            return Err(AllocError);
        }
    }
    Ok(cells)
}
