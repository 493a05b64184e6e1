//! What is shown and changed between steps.
ghost use Rattle.std.specs.Prelude.{◌≡◌, ◌<◌, ◌≤◌, ◌^◌, OnOk, Option, is_err, length};
ghost use Rattle.vax_outside.specs.Channels.{Channels};
ghost use Rattle.vax_outside.specs.Faults.{CountsFailure};
ghost use Rattle.vax_machine.specs.Machine.{keeping, residence};
ghost use Rattle.vax_machine.specs.Meaning.{engine, memory_of};
ghost use Rattle.vax_machine.specs.Residence.{taken_out};
ghost use Rattle.vax_console.specs.Ends.{scene};
ghost use Rattle.vax_debug.specs.Sessions.{DepositsFrom, SetsFrom, ShowsFrom, StaysHere};

use vax_machine::{Applied, Event, Machine};
use vax_outside::PageFile;
use vax_pager::PageFault;

/// Fills cells with the bytes of memory from an address on: None exactly where no area has the byte. Nothing changes, also not which pages are resident or
/// modified. After a failure what the cells hold is left open.
pub fn examine<F: PageFile>(
    addr: u32,
    cells: &mut [Option<u8>],
    machine: &mut Machine,
    file: &mut F,
) -> Result<(), PageFault>
    requires { length cells.old < 2 ^ 32 }
    ensures shows { (sink : Option Channels) → OnOk result
        (ShowsFrom (scene (engine machine.old) (F.contents file.old) sink)
        addr (length cells.old) cells.new) }
    ensures stays { (sink : Option Channels) →
        StaysHere (scene (engine machine.old) (F.contents file.old) sink)
        (scene (engine machine.new) (F.contents file.new) sink) }
    ensures keeps { keeping (engine machine.new) ≡ keeping (engine machine.old) }
    ensures same { memory_of machine.new ≡ memory_of machine.old }
    ensures counts { CountsFailure (is_err result) (F.faults file.old) (F.faults file.new) }
{
    machine.dump(addr, cells, file)
}

/// Puts 1 to 64 bytes into memory, whatever the protection of their pages. It answers false, and changes nothing, where some byte lies in no area or in a page
/// that no mode may write, and where a string instruction is open. After a failure every byte is as it was.
pub fn deposit<F: PageFile>(
    addr: u32,
    bytes: &[u8],
    machine: &mut Machine,
    file: &mut F,
) -> Result<bool, PageFault>
    requires some { 1 ≤ length bytes.now }
    requires few { length bytes.now ≤ 64 }
    ensures deposits { (sink : Option Channels) →
        DepositsFrom (scene (engine machine.old) (F.contents file.old) sink)
        (scene (engine machine.new) (F.contents file.new) sink) addr bytes.now result }
    ensures counts { CountsFailure (is_err result) (F.faults file.old) (F.faults file.new) }
{
    if machine.is_open() {
        return Ok(false);
    }
    machine.poke(addr, bytes, file)
}

/// Puts a value into a register, R0 to R15. It answers false, and changes nothing, where a string instruction is open.
pub fn deposit_register<F: PageFile>(
    register: u8,
    value: u32,
    machine: &mut Machine,
    file: &F,
) -> bool
    requires { register < 16 }
    ensures { (sink : Option Channels) →
        SetsFrom (scene (engine machine.old) (F.contents file.now) sink)
        (scene (engine machine.new) (F.contents file.now) sink) register value result }
{
    if machine.is_open() {
        return false;
    }
    machine.set_reg(register, value);
    true
}

/// Makes a page absent, if it is resident. The session stays where it is, also after a failure.
pub fn evict<F: PageFile>(page: u32, machine: &mut Machine, file: &mut F) -> Result<(), PageFault>
    ensures stays { (sink : Option Channels) →
        StaysHere (scene (engine machine.old) (F.contents file.old) sink)
        (scene (engine machine.new) (F.contents file.new) sink) }
    ensures evicts { OnOk result
        (residence (engine machine.new) ≡ taken_out page (residence (engine machine.old))) }
    ensures counts { CountsFailure (is_err result) (F.faults file.old) (F.faults file.new) }
{
    match machine.apply(Event::Evict(page), file) {
        Applied::Failed => Err(PageFault),
        _ => Ok(()),
    }
}
