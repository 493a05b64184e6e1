//! The values of a debugger's expressions: registers, symbols and numbers, and what they lead to in memory.
ghost use Rattle.std.specs.Prelude.{◌≡◌, ◌<◌, ◌-◌, IfOk, Option, Some, is_err, option_map, slice_index};
ghost use Rattle.vax_outside.specs.Channels.{Channels};
ghost use Rattle.vax_outside.specs.Faults.{CountsFailure};
ghost use Rattle.vax_flat.specs.Step.{Flat};
ghost use Rattle.vax_machine.specs.Meaning.{engine};
ghost use Rattle.vax_console.specs.Ends.{scene};
ghost use Rattle.vax_debug.specs.Calls.{TellsFrom};
ghost use Rattle.vax_debug.specs.Sessions.{StaysHere};
ghost use Rattle.vax_debug_words.specs.Expressions.{IsBase, IsExpression};
ghost use Rattle.vax_debug_names.specs.Names.{number_of};
ghost use Rattle.vax_debug.specs.Places.{begins_too_large};
ghost use Rattle.vax_debug.specs.Values.{based, evaluated, plus, through};

use crate::frames::longword;
use vax_debug_names::{Legend, is_too_large, number_of};
use vax_debug_words::{Base, Expression};
use vax_machine::Machine;
use vax_outside::PageFile;
use vax_pager::PageFault;

/// Where an address leads behind so many `@`s: each stands for the longword there; none where memory has it not whole.
fn through<F: PageFile>(
    count: u8,
    address: u32,
    machine: &mut Machine,
    file: &mut F,
) -> Result<Option<u32>, PageFault>
    ensures tells { (sink : Option Channels) → IfOk result
        (TellsFrom (scene (engine machine.old) (F.contents file.old) sink)
        (λ (m : Flat). through count m (Some address))) }
    ensures stays { (sink : Option Channels) →
        StaysHere (scene (engine machine.old) (F.contents file.old) sink)
        (scene (engine machine.new) (F.contents file.new) sink) }
    ensures counts { CountsFailure (is_err result) (F.faults file.old) (F.faults file.new) }
{
    let mut address = address;
    for _ in 0..count {
        match longword(address, machine, file) {
            Ok(Some(next)) => address = next,
            Ok(None) => return Ok(None),
            Err(_) => return Err(PageFault),
        }
    }
    Ok(Some(address))
}

/// What a register holds.
fn held(register: u8, machine: &Machine) -> u32
    requires { register < 16 }
    ensures { result ≡ slice_index (engine machine.now).cpu.core.regs register }
{
    machine.core().regs[register as usize]
}

/// Where a register's contents lead: the first `@` stands for these.
fn from_register<F: PageFile>(
    register: u8,
    count: u8,
    machine: &mut Machine,
    file: &mut F,
) -> Result<Option<u32>, PageFault>
    requires { register < 16 }
    ensures tells { (sink : Option Channels) → IfOk result
        (TellsFrom (scene (engine machine.old) (F.contents file.old) sink)
        (λ (m : Flat). through (count - 1) m (Some (slice_index m.core.regs register)))) }
    ensures stays { (sink : Option Channels) →
        StaysHere (scene (engine machine.old) (F.contents file.old) sink)
        (scene (engine machine.new) (F.contents file.new) sink) }
    ensures counts { CountsFailure (is_err result) (F.faults file.old) (F.faults file.new) }
{
    let address = held(register, machine);
    through(count.saturating_sub(1), address, machine, file)
}

/// Where a name leads.
fn from_name<F: PageFile>(
    legend: &Legend,
    name: &[u8],
    count: u8,
    machine: &mut Machine,
    file: &mut F,
) -> Result<Option<u32>, PageFault>
    ensures tells { (sink : Option Channels) → IfOk result
        (TellsFrom (scene (engine machine.old) (F.contents file.old) sink)
        (λ (m : Flat). through count m (number_of legend.now.symbols.now name.now))) }
    ensures stays { (sink : Option Channels) →
        StaysHere (scene (engine machine.old) (F.contents file.old) sink)
        (scene (engine machine.new) (F.contents file.new) sink) }
    ensures counts { CountsFailure (is_err result) (F.faults file.old) (F.faults file.new) }
{
    match number_of(legend.symbols, name) {
        Some(address) => through(count, address, machine, file),
        None => Ok(None),
    }
}

/// Where a base leads behind so many `@`s.
fn based<F: PageFile>(
    legend: &Legend,
    base: &Base,
    count: u8,
    machine: &mut Machine,
    file: &mut F,
) -> Result<Option<u32>, PageFault>
    requires { IsBase base.now }
    ensures tells { (sink : Option Channels) → IfOk result
        (TellsFrom (scene (engine machine.old) (F.contents file.old) sink)
        (λ (m : Flat). based legend.now m count base.now)) }
    ensures stays { (sink : Option Channels) →
        StaysHere (scene (engine machine.old) (F.contents file.old) sink)
        (scene (engine machine.new) (F.contents file.new) sink) }
    ensures counts { CountsFailure (is_err result) (F.faults file.old) (F.faults file.new) }
{
    match base {
        Base::Register(register) => from_register(*register, count, machine, file),
        Base::Named(name) => from_name(legend, name.as_slice(), count, machine, file),
    }
}

/// With an offset, modulo 2^32.
fn plus(offset: u32, found: Option<u32>) -> Option<u32>
    ensures { result ≡ option_map (plus offset) found }
{
    match found {
        Some(n) => Some(n.wrapping_add(offset)),
        None => None,
    }
}

/// Whether an expression begins with a number of more than 32 bits, which is no name.
pub fn begins_too_large(legend: &Legend, base: &Base) -> bool
    ensures { result ≡ begins_too_large legend.now base.now }
{
    match base {
        Base::Register(_) => false,
        Base::Named(name) => is_too_large(legend.symbols, name.as_slice()),
    }
}

/// The value of an expression; none where a name is no symbol and no number, and where memory has no whole longword at an `@`.
pub fn evaluate<F: PageFile>(
    legend: &Legend,
    expression: &Expression,
    machine: &mut Machine,
    file: &mut F,
) -> Result<Option<u32>, PageFault>
    requires { IsExpression expression.now }
    ensures tells { (sink : Option Channels) → IfOk result
        (TellsFrom (scene (engine machine.old) (F.contents file.old) sink)
        (evaluated legend.now expression.now)) }
    ensures stays { (sink : Option Channels) →
        StaysHere (scene (engine machine.old) (F.contents file.old) sink)
        (scene (engine machine.new) (F.contents file.new) sink) }
    ensures counts { CountsFailure (is_err result) (F.faults file.old) (F.faults file.new) }
{
    match based(legend, &expression.base, expression.through, machine, file) {
        Ok(found) => Ok(plus(expression.offset, found)),
        Err(_) => Err(PageFault),
    }
}
