//! Memory that is read by whole pages.
ghost use Rattle.std.specs.Prelude.{◌≡◌, ◌≢◌, ◌%◌, ◌<◌, ◌^◌, is_err, length, OnOk, false};
ghost use Rattle.vax_outside.specs.Faults.{CountsFailure};
ghost use Rattle.vax_machine.specs.Console.{ShowsMemory, cell_in};
ghost use Rattle.vax_machine.specs.Meaning.{engine};
ghost use Rattle.vax_watch.specs.Filling.{TurnsPage};
ghost use Rattle.vax_watch.specs.Plans.{IsLookedAt};

use vax_machine::Machine;
use vax_outside::PageFile;
use vax_pager::PageFault;

/// The bytes of a page.
const PAGE_BYTES: u32 = 512;

/// Reads the page of an address, where it is another than the one at hand.
fn turn_page<F: PageFile>(
    machine: &mut Machine,
    page: &mut Option<[u8; 512]>,
    is_other: bool,
    address: u32,
    file: &mut F,
) -> Result<(), PageFault>
    ensures turns { OnOk result
        (TurnsPage (engine machine.old) (F.contents file.old) is_other address page.old page.new) }
    ensures looked { IsLookedAt (engine machine.old) (F.contents file.old) (engine machine.new)
        (F.contents file.new) }
    ensures counts { CountsFailure (is_err result) (F.faults file.old) (F.faults file.new) }
{
    if is_other {
        *page = machine.page(address / PAGE_BYTES, file)?;
    }
    Ok(())
}

/// Whether a byte is the first of all, or of its page.
fn is_first(place: usize, address: u32) -> bool
    ensures other { result ≡ false → (0 < place) × (address % 512 ≢ 0) }
{
    place == 0 || address % PAGE_BYTES == 0
}

/// The byte at an address, of its page, if an area has that.
fn cell(page: &Option<[u8; 512]>, address: u32) -> Option<u8>
    ensures { result ≡ cell_in page.now address }
{
    match page {
        Some(bytes) => Some(bytes[(address % PAGE_BYTES) as usize]),
        None => None,
    }
}

/// Fills cells with the bytes of memory from an address on, None where no area has one. Each page is read once.
pub(crate) fn fill<F: PageFile>(
    machine: &mut Machine,
    address: u32,
    cells: &mut [Option<u8>],
    file: &mut F,
) -> Result<(), PageFault>
    requires few { length cells.old < 2 ^ 32 }
    ensures len { length cells.new ≡ length cells.old }
    ensures bytes { OnOk result (ShowsMemory (engine machine.old) (F.contents file.old) address
        (length cells.old) cells.new) }
    ensures looked { IsLookedAt (engine machine.old) (F.contents file.old) (engine machine.new)
        (F.contents file.new) }
    ensures counts { CountsFailure (is_err result) (F.faults file.old) (F.faults file.new) }
{
    let mut page = None;
    for place in 0..cells.len() {
        let here = address.wrapping_add(place as u32);
        turn_page(machine, &mut page, is_first(place, here), here, file)?;
        cells[place] = cell(&page, here);
    }
    Ok(())
}
