//! The memory that a step begins with.
ghost use Rattle.std.specs.Prelude.{◌≡◌, OnOk, map, true, []};
ghost use Rattle.vax_vectors.specs.Truth.{memory_of};
ghost use Rattle.vax_vector_memory.specs.Pages.{guarded};
ghost use Rattle.vax_vector_memory.specs.Record.{view_of};
ghost use Rattle.vax_vector_memory.specs.Seen.{seen};

use std::alloc::Global;
use vax_vector_memory::{NoVector, Recorder};
use vax_vectors::{Cell, Page};

/// Whether two lists of pages are the same.
#[tactic(auto, using(crate::proofs::Same::more_same, crate::proofs::Same::all_same))]
fn same_pages(these: &[Page], those: &[Page]) -> bool
    ensures { result ≡ true → these.now ≡ those.now }
{
    if these.len() != those.len() {
        return false;
    }
    for k in 0..these.len() {
        if these[k].number != those[k].number || these[k].prot != those[k].prot {
            return false;
        }
    }
    true
}

/// Makes memory that of these pages with these bytes, all of them absent. It is made anew where it has other pages.
pub(crate) fn prepare(
    alloc: Global,
    memory: &mut Recorder,
    pages: &[Page],
    ram: &[Cell],
) -> Result<(), NoVector>
    ensures { OnOk result (view_of memory.new
        ≡ seen (map guarded pages.now) (memory_of pages.now ram.now) []) }
{
    if !same_pages(memory.pages(), pages) {
        *memory = Recorder::new(alloc, pages)?;
    }
    memory.fill(ram)
}
