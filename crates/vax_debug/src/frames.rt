//! Where calls come back.
ghost use Rattle.std.specs.Prelude.{◌≡◌, ◌≤◌, IfOk, Option, is_err, length, option_map};
ghost use Rattle.vax_outside.specs.Channels.{Channels};
ghost use Rattle.vax_outside.specs.Faults.{CountsFailure};
ghost use Rattle.vax_flat.specs.Step.{Flat};
ghost use Rattle.vax_machine.specs.Meaning.{engine};
ghost use Rattle.vax_console.specs.Ends.{scene};
ghost use Rattle.vax_debug.specs.Calls.{TellsFrom, behind_call, bytes_of, call_goal, frame_goal, is_call, longword_at, longword_in, returned};
ghost use Rattle.vax_debug.specs.Sessions.{StaysHere};

use crate::breaks::Goal;
use crate::memory::examine;
use arrayvec::ArrayVec;
use vax_disasm::decode;
use vax_machine::Machine;
use vax_outside::PageFile;
use vax_pager::PageFault;
use vax_word::Core;

/// The most bytes of a call's instruction.
const MOST: usize = 16;

/// The bytes of cells up to the first that is empty.
fn bytes_of(cells: &[Option<u8>]) -> ArrayVec<u8, 16>
    requires { length cells.now ≤ 16 }
    ensures { result.items ≡ bytes_of cells.now }
{
    let mut bytes = ArrayVec::new();
    for cell in cells {
        match cell {
            Some(byte) => bytes.push(*byte),
            None => return bytes,
        }
    }
    bytes
}

/// Whether an opcode is that of a call: BSBB, JSB, BSBW, CALLG or CALLS.
fn is_call(opcode: u8) -> bool
    ensures { result ≡ is_call opcode }
{
    opcode == 0x10 || opcode == 0x16 || opcode == 0x30 || opcode == 0xFA || opcode == 0xFB
}

/// Where the call that these bytes are comes back, if they are one.
#[tactic(auto, unfolding(crate::specs::Calls::behind_call))]
fn behind_call(core: &Core, bytes: &[u8]) -> Option<Goal>
    ensures { result ≡ behind_call core.now bytes.now }
{
    let (opcode, _) = bytes.split_first()?;
    if !is_call(*opcode) {
        return None;
    }
    let decoded = decode(bytes, core.regs[15])?;
    Some(Goal {
        address: core.regs[15].wrapping_add(u32::from(decoded.length)),
        least: core.regs[14],
    })
}

/// Where the call at PC comes back, if one is there.
pub(crate) fn call_goal<F: PageFile>(
    machine: &mut Machine,
    file: &mut F,
) -> Result<Option<Goal>, PageFault>
    ensures tells { (sink : Option Channels) → IfOk result
        (TellsFrom (scene (engine machine.old) (F.contents file.old) sink) call_goal) }
    ensures stays { (sink : Option Channels) →
        StaysHere (scene (engine machine.old) (F.contents file.old) sink)
        (scene (engine machine.new) (F.contents file.new) sink) }
    ensures counts { CountsFailure (is_err result) (F.faults file.old) (F.faults file.new) }
{
    let core = *machine.core();
    let mut cells = [None; MOST];
    match examine(core.regs[15], &mut cells, machine, file) {
        Ok(()) => Ok(behind_call(&core, &bytes_of(&cells))),
        Err(_) => Err(PageFault),
    }
}

/// The longword of four bytes.
fn longword_in(bytes: &[u8]) -> Option<u32>
    ensures { result ≡ longword_in bytes.now }
{
    match bytes {
        [a, b, c, d] => Some(u32::from_le_bytes([*a, *b, *c, *d])),
        _ => None,
    }
}

/// The longword at an address, if memory has it whole.
pub fn longword<F: PageFile>(
    addr: u32,
    machine: &mut Machine,
    file: &mut F,
) -> Result<Option<u32>, PageFault>
    ensures tells { (sink : Option Channels) → IfOk result
        (TellsFrom (scene (engine machine.old) (F.contents file.old) sink)
        (λ (m : Flat). longword_at m addr)) }
    ensures stays { (sink : Option Channels) →
        StaysHere (scene (engine machine.old) (F.contents file.old) sink)
        (scene (engine machine.new) (F.contents file.new) sink) }
    ensures counts { CountsFailure (is_err result) (F.faults file.old) (F.faults file.new) }
{
    let mut cells = [None; 4];
    match examine(addr, &mut cells, machine, file) {
        Ok(()) => Ok(longword_in(&bytes_of(&cells))),
        Err(_) => Err(PageFault),
    }
}

/// Behind the return of the frame at FP, to this address.
fn returned(core: &Core, address: u32) -> Goal
    ensures { result ≡ returned core.now address }
{
    Goal {
        address,
        least: core.regs[13].wrapping_add(1),
    }
}

/// Where the procedure comes back whose frame has this saved PC.
fn frame_at(core: &Core, address: Option<u32>) -> Option<Goal>
    ensures { result ≡ option_map (returned core.now) address }
{
    match address {
        Some(address) => Some(returned(core, address)),
        None => None,
    }
}

/// Where the procedure comes back whose frame FP points to, if memory has its saved PC. Steps up to there are those of the rest of the procedure.
pub fn frame_goal<F: PageFile>(
    machine: &mut Machine,
    file: &mut F,
) -> Result<Option<Goal>, PageFault>
    ensures tells { (sink : Option Channels) → IfOk result
        (TellsFrom (scene (engine machine.old) (F.contents file.old) sink) frame_goal) }
    ensures stays { (sink : Option Channels) →
        StaysHere (scene (engine machine.old) (F.contents file.old) sink)
        (scene (engine machine.new) (F.contents file.new) sink) }
    ensures counts { CountsFailure (is_err result) (F.faults file.old) (F.faults file.new) }
{
    let core = *machine.core();
    match longword(core.regs[13].wrapping_add(16), machine, file) {
        Ok(address) => Ok(frame_at(&core, address)),
        Err(_) => Err(PageFault),
    }
}
