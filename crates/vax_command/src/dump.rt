//! The memory that a report shows.
ghost use Rattle.std.specs.Prelude.{◌≡◌, ◌≤◌, ◌<◌, [], IfOk, is_err, length, vec_capacity, All};
ghost use Rattle.vax_outside.specs.Faults.{CountsFailure};
ghost use Rattle.vax_machine.specs.Machine.{keeping};
ghost use Rattle.vax_machine.specs.Meaning.{engine};
ghost use Rattle.vax_cli.specs.Said.{IsDump};
ghost use Rattle.vax_command.specs.Fresh.{AreShown};
ghost use Rattle.vax_command.specs.Room.{ReadsFor, item_of, items_of};

use std::alloc::{AllocError, Global};
use std::collections::VecDeque;
use vax_cli::DumpItem;
use vax_machine::Machine;
use vax_outside::PageFile;
use vax_pager::PageFault;
use vax_report::{Dump, DumpBytes};

/// Room for the bytes of memory from an address on.
#[derive(Drop)]
struct Blank {
    address: u32,
    cells: Vec<Option<u8>>,
}

/// Room for the memory that a report shows, which is reserved before a run.
#[derive(Drop)]
pub(crate) struct Room {
    blanks: VecDeque<Blank>,
    dumps: Vec<Dump>,
    ghost reserved: { length blanks.items ≤ vec_capacity dumps },
    ghost empty: { dumps.items ≡ [] },
    ghost small: { All IsDump (items_of blanks.items) },
}

/// Room for the bytes that an item asks for.
fn make_room(alloc: Global, item: DumpItem) -> Result<Blank, AllocError>
    ensures { IfOk result (λ b. item_of b ≡ item) }
{
    Ok(Blank {
        address: item.address,
        cells: vec![in alloc; None; item.count as usize]?,
    })
}

/// Room for the bytes that some items ask for.
fn make_blanks(alloc: Global, items: &[DumpItem]) -> Result<VecDeque<Blank>, AllocError>
    ensures { IfOk result (λ v. items_of v.items ≡ items.now) }
{
    let mut all = VecDeque::new(alloc);
    for item in items {
        all.push_back(make_room(alloc, *item)?)?;
    }
    Ok(all)
}

/// Room for the memory that some items ask for.
pub(crate) fn reserve(alloc: Global, items: &[DumpItem]) -> Result<Room, AllocError>
    requires { All IsDump items.now }
    ensures { IfOk result (λ r. items_of r.blanks.items ≡ items.now) }
{
    let blanks = make_blanks(alloc, items)?;
    let dumps = Vec::with_capacity(alloc, blanks.len())?;
    Ok(Room { blanks, dumps })
}

/// Reads the memory for which there is room.
pub(crate) fn fill<F: PageFile>(
    machine: &mut Machine,
    room: Room,
    pages: &mut F,
) -> Result<Vec<Dump>, PageFault>
    ensures shows { IfOk result (λ v.
        AreShown (engine machine.old) (F.contents pages.old) (items_of room.blanks.items) v.items) }
    ensures reads { ReadsFor (items_of room.blanks.items) (F.contents pages.old)
        (F.contents pages.new) }
    ensures unread { items_of room.blanks.items ≡ [] → F.contents pages.new ≡ F.contents pages.old }
    ensures cpu { (engine machine.new).cpu ≡ (engine machine.old).cpu }
    ensures keeps { keeping (engine machine.new) ≡ keeping (engine machine.old) }
    ensures counts { CountsFailure (is_err result) (F.faults pages.old) (F.faults pages.new) }
{
    let Room {
        mut blanks,
        mut dumps,
    } = room;
    'blanks: while let Some(blank) = blanks.pop_front() {
        let Blank { address, mut cells } = blank;
        machine.dump(address, cells.as_mut_slice(), pages)?;
        dumps.push_reserved(Dump {
            addr: address,
            bytes: DumpBytes::from(cells),
        });
    }
    Ok(dumps)
}
