//! Memory that is filled anew for a step.
ghost use Rattle.std.specs.Prelude.{◌≡◌, ◌*◌, ◌<◌, ℕ, true, false, OnOk, map, List, [], ◌∷◌};
ghost use Rattle.vax_undo.specs.Plain.{view_of};
ghost use Rattle.vax_vectors.specs.declared.vector.Cell.{Cell};
ghost use Rattle.vax_vectors.specs.Truth.{memory_of};
ghost use Rattle.vax_vector_memory.specs.Pages.{HaveBytes, IsCleared, guarded, has_number, unguarded};
ghost use Rattle.vax_vector_memory.specs.Seen.{seen};

use crate::error::NoVector;
use vax_space::PAGE_BYTES;
use vax_undo::{Plain, Port};
use vax_vectors::{Cell, Page};

/// Whether one of these pages has a number.
#[tactic(auto, unfolding(crate::specs::Pages::has_number))]
fn has_number(pages: &[Page], number: u32) -> bool
    ensures { result ≡ has_number pages.now number }
{
    for page in pages {
        if number == page.number {
            return true;
        }
    }
    false
}

/// Makes a page resident, with zeros.
fn clear_page(memory: &mut Plain, page: u32) -> Result<(), NoVector>
    ensures areas { (view_of memory.new).areas ≡ (view_of memory.old).areas }
    ensures cleared { OnOk result (IsCleared page (view_of memory.old) (view_of memory.new)) }
{
    if 0x80_0000 <= page {
        return Err(NoVector::Unsettled);
    }
    memory.show(page);
    match memory.write_run(PAGE_BYTES * page, &[0; 512], 3) {
        Ok(()) => Ok(()),
        Err(_) => Err(NoVector::Unsettled),
    }
}

/// Makes all pages resident, with zeros.
fn clear(memory: &mut Plain, pages: &[Page]) -> Result<(), NoVector>
    ensures areas { (view_of memory.new).areas ≡ (view_of memory.old).areas }
    ensures bytes { OnOk result (HaveBytes pages.now [] (view_of memory.new)) }
{
    for page in pages {
        clear_page(memory, page.number)?;
    }
    Ok(())
}

/// Puts a byte where one of the pages has it.
fn put_cell(memory: &mut Plain, pages: &[Page], cell: Cell) -> Result<(), NoVector>
    ensures areas { (view_of memory.new).areas ≡ (view_of memory.old).areas }
    ensures bytes { OnOk result ((ram : List Cell) → HaveBytes pages.now ram (view_of memory.old)
        → HaveBytes pages.now (cell ∷ ram) (view_of memory.new)) }
{
    match memory.write(cell.addr, 1, u64::from(cell.byte), 3) {
        Ok(_) => Ok(()),
        Err(_) => {
            if has_number(pages, cell.addr / PAGE_BYTES) {
                return Err(NoVector::Unsettled);
            }
            Ok(())
        }
    }
}

/// Puts bytes where the pages have them, the last first: of two at an address the first stays.
fn put(memory: &mut Plain, pages: &[Page], ram: &[Cell]) -> Result<(), NoVector>
    requires { HaveBytes pages.now [] (view_of memory.old) }
    ensures areas { (view_of memory.new).areas ≡ (view_of memory.old).areas }
    ensures bytes { OnOk result (HaveBytes pages.now ram.now (view_of memory.new)) }
{
    for k in (0..ram.len()).rev() {
        put_cell(memory, pages, ram[k])?;
    }
    Ok(())
}

/// Makes all pages absent.
#[tactic(auto, unfolding(crate::specs::Pages::has_number))]
fn hide_all(memory: &mut Plain, pages: &[Page])
    requires { (page : ℕ) → (view_of memory.old).resident page ≡ true
        → has_number pages.now page ≡ true }
    ensures { view_of memory.new ≡ record (view_of memory.old) { resident = λ page. false } }
{
    for page in pages {
        memory.hide(page.number);
    }
}

/// Makes all pages absent, with these bytes and 0 elsewhere.
pub(crate) fn fill(memory: &mut Plain, pages: &[Page], ram: &[Cell]) -> Result<(), NoVector>
    requires { (view_of memory.old).areas ≡ map unguarded pages.now }
    ensures areas { (view_of memory.new).areas ≡ (view_of memory.old).areas }
    ensures view { OnOk result (record (view_of memory.new) { areas = map guarded pages.now }
        ≡ seen (map guarded pages.now) (memory_of pages.now ram.now) []) }
{
    clear(memory, pages)?;
    put(memory, pages, ram)?;
    hide_all(memory, pages);
    Ok(())
}
