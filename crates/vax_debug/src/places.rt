//! Where the addresses of a debugger's expressions lie.
ghost use Rattle.std.specs.Prelude.{◌≡◌, IfOk, Option, is_err};
ghost use Rattle.vax_outside.specs.Channels.{Channels};
ghost use Rattle.vax_outside.specs.Faults.{CountsFailure};
ghost use Rattle.vax_flat.specs.Step.{Flat};
ghost use Rattle.vax_machine.specs.Meaning.{engine};
ghost use Rattle.vax_console.specs.Ends.{scene};
ghost use Rattle.vax_debug.specs.Calls.{TellsFrom};
ghost use Rattle.vax_debug.specs.Places.{located, located_at, place_of};
ghost use Rattle.vax_debug.specs.Sessions.{StaysHere};
ghost use Rattle.vax_debug_words.specs.Expressions.{IsExpression};

use crate::memory::examine;
use crate::values::evaluate;
use vax_debug_names::Legend;
use vax_debug_words::Expression;
use vax_machine::Machine;
use vax_outside::PageFile;
use vax_pager::PageFault;

/// Where an expression leads.
#[derive(Clone, Copy, PartialEq, Eq)]
pub enum Place {
    /// It has no value.
    Unknown,
    /// To an address that no area has.
    Outside,
    /// To this address, which an area has.
    Inside(u32),
}

/// Where an address lies that has this byte, if it has one.
fn place_of(address: u32, cell: Option<u8>) -> Place
    ensures { result ≡ place_of address cell }
{
    match cell {
        Some(_) => Place::Inside(address),
        None => Place::Outside,
    }
}

/// Where an address lies.
fn locate_at<F: PageFile>(
    address: u32,
    machine: &mut Machine,
    file: &mut F,
) -> Result<Place, PageFault>
    ensures tells { (sink : Option Channels) → IfOk result
        (TellsFrom (scene (engine machine.old) (F.contents file.old) sink)
        (λ (m : Flat). located_at m address)) }
    ensures stays { (sink : Option Channels) →
        StaysHere (scene (engine machine.old) (F.contents file.old) sink)
        (scene (engine machine.new) (F.contents file.new) sink) }
    ensures counts { CountsFailure (is_err result) (F.faults file.old) (F.faults file.new) }
{
    let mut cells = [None; 1];
    match examine(address, &mut cells, machine, file) {
        Ok(()) => Ok(place_of(address, cells[0])),
        Err(_) => Err(PageFault),
    }
}

/// Where an expression leads: to an address that an area has, to another, or nowhere, as it has no value.
pub fn locate<F: PageFile>(
    legend: &Legend,
    expression: &Expression,
    machine: &mut Machine,
    file: &mut F,
) -> Result<Place, PageFault>
    requires { IsExpression expression.now }
    ensures tells { (sink : Option Channels) → IfOk result
        (TellsFrom (scene (engine machine.old) (F.contents file.old) sink)
        (located legend.now expression.now)) }
    ensures stays { (sink : Option Channels) →
        StaysHere (scene (engine machine.old) (F.contents file.old) sink)
        (scene (engine machine.new) (F.contents file.new) sink) }
    ensures counts { CountsFailure (is_err result) (F.faults file.old) (F.faults file.new) }
{
    match evaluate(legend, expression, machine, file) {
        Ok(Some(address)) => locate_at(address, machine, file),
        Ok(None) => Ok(Place::Unknown),
        Err(_) => Err(PageFault),
    }
}
