//! What stands where a step begins.
ghost use Rattle.std.specs.Prelude.{◌≡◌, ◌≤◌, length, is_err, IfOk, option_map};
ghost use Rattle.vax_outside.specs.Faults.{CountsFailure};
ghost use Rattle.vax_disasm.specs.Seen.{decoded_seen};
ghost use Rattle.vax_machine.specs.Meaning.{engine};
ghost use Rattle.vax_watch.specs.Beginning.{ShowsBeginning, ShowsInstruction, beginning};
ghost use Rattle.vax_watch.specs.Listing.{present};
ghost use Rattle.vax_watch.specs.Plans.{IsLookedAt};

use crate::filling::fill;
use arrayvec::ArrayVec;
use vax_disasm::{Decoded, decode};
use vax_machine::Machine;
use vax_outside::PageFile;
use vax_pager::PageFault;

/// The byte where a step begins, and the instruction there, where texts are listed and one begins there.
#[derive(Clone, Copy)]
pub(crate) struct Beginning {
    pub byte: Option<u8>,
    pub instruction: Option<Decoded>,
}

/// The bytes up to the first that isn't there.
fn present(cells: &[Option<u8>]) -> ArrayVec<u8, 55>
    requires { length cells.now ≤ 55 }
    ensures { result.items ≡ present cells.now }
{
    let mut bytes = ArrayVec::new();
    for cell in cells {
        match cell {
            Some(byte) => bytes.push(*byte),
            None => return bytes,
        }
    }
    bytes
}

/// The instruction that begins at an address, where texts are listed and one begins there.
fn instruction_if<F: PageFile>(
    machine: &mut Machine,
    texts: bool,
    address: u32,
    file: &mut F,
) -> Result<Option<Decoded>, PageFault>
    ensures shows { IfOk result (λ r. ShowsInstruction (engine machine.old) (F.contents file.old)
        texts address (option_map decoded_seen r)) }
    ensures looked { IsLookedAt (engine machine.old) (F.contents file.old) (engine machine.new)
        (F.contents file.new) }
    ensures counts { CountsFailure (is_err result) (F.faults file.old) (F.faults file.new) }
{
    if !texts {
        return Ok(None);
    }
    let mut cells = [None; 55];
    fill(machine, address, &mut cells, file)?;
    let bytes = present(&cells);
    Ok(decode(&bytes, address))
}

/// The byte at an address, and the instruction, where texts are listed and one begins there.
pub(crate) fn look_at<F: PageFile>(
    machine: &mut Machine,
    texts: bool,
    address: u32,
    file: &mut F,
) -> Result<Beginning, PageFault>
    ensures shows { IfOk result (λ b. ShowsBeginning (engine machine.old) (F.contents file.old)
        texts address (beginning b)) }
    ensures looked { IsLookedAt (engine machine.old) (F.contents file.old) (engine machine.new)
        (F.contents file.new) }
    ensures counts { CountsFailure (is_err result) (F.faults file.old) (F.faults file.new) }
{
    let byte = machine.peek(address, file)?;
    let instruction = instruction_if(machine, texts, address, file)?;
    Ok(Beginning { byte, instruction })
}
