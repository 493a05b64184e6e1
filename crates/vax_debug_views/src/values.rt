//! Values in memory, as they are shown.
ghost use Rattle.std.specs.Prelude.{◌≤◌, length};
ghost use Rattle.vax_outside.specs.declared.faults.Failures.{Failures};
ghost use Rattle.vax_flat.specs.Step.{Flat};
ghost use Rattle.vax_machine.specs.Console.{memory_from};
ghost use Rattle.vax_machine.specs.Meaning.{engine};
ghost use Rattle.vax_console.specs.Ends.{scene};
ghost use Rattle.vax_debug.specs.Sessions.{Counts};
ghost use Rattle.vax_debug_replies.specs.Values.{ascii_line, value_line};
ghost use Rattle.vax_debug_views.specs.Showing.{Replied, Shows};
ghost use Rattle.vax_debug_views.specs.Views.{characters_shown, values_shown};

use crate::replying::reply;
use vax_debug::{Failure, examine};
use vax_debug_names::Legend;
use vax_debug_replies::{push_ascii_line, push_value_line};
use vax_machine::Machine;
use vax_outside::{PageFile, Sink, Text};

/// Replies with a value of at most eight bytes, which lies at an address.
fn reply_value<K: Sink>(
    cells: &mut [Option<u8>],
    address: u32,
    legend: &Legend,
    sink: &mut K,
) -> Result<(), Failure>
    requires { length cells.old ≤ 8 }
    ensures replied { Replied result (K.contents sink.old) (K.contents sink.new)
        (value_line legend.now address cells.old) }
    ensures counts { (file : Failures) →
        Counts result file file (K.faults sink.old) (K.faults sink.new) }
{
    let mut text = Text::new();
    push_value_line(&mut text, legend, address, cells);
    reply(text.as_slice(), sink)
}

/// Replies with the value of at most eight bytes at an address.
pub(crate) fn show_value<F: PageFile, K: Sink>(
    size: u8,
    address: u32,
    legend: &Legend,
    machine: &mut Machine,
    file: &mut F,
    sink: &mut K,
) -> Result<(), Failure>
    requires { size ≤ 8 }
    ensures shows { Shows
        (scene (engine machine.old) (F.contents file.old) (K.contents sink.old))
        (scene (engine machine.new) (F.contents file.new) (K.contents sink.new))
        result (λ (m : Flat). value_line legend.now address (memory_from m.memory address size)) }
    ensures counts { Counts result (F.faults file.old) (F.faults file.new) (K.faults sink.old)
        (K.faults sink.new) }
{
    let mut cells = [None; 8];
    let cells = &mut cells[..size as usize];
    match examine(address, cells, machine, file) {
        Ok(()) => reply_value(cells, address, legend, sink),
        Err(_) => Err(Failure::PageFault),
    }
}

/// Replies with so many values of at most eight bytes, one behind the other.
pub(crate) fn show_values<F: PageFile, K: Sink>(
    size: u8,
    count: u8,
    address: u32,
    legend: &Legend,
    machine: &mut Machine,
    file: &mut F,
    sink: &mut K,
) -> Result<(), Failure>
    requires { size ≤ 8 }
    ensures shows { Shows
        (scene (engine machine.old) (F.contents file.old) (K.contents sink.old))
        (scene (engine machine.new) (F.contents file.new) (K.contents sink.new))
        result (values_shown legend.now size count address) }
    ensures counts { Counts result (F.faults file.old) (F.faults file.new) (K.faults sink.old)
        (K.faults sink.new) }
{
    let mut address = address;
    for _ in 0..count {
        match show_value(size, address, legend, machine, file, sink) {
            Ok(()) => {}
            Err(failure) => return Err(failure),
        }
        address = address.wrapping_add(u32::from(size));
    }
    Ok(())
}

/// Replies with characters, which lie from an address on.
fn reply_characters<K: Sink>(
    cells: &[Option<u8>],
    address: u32,
    legend: &Legend,
    sink: &mut K,
) -> Result<(), Failure>
    requires { length cells.now ≤ 64 }
    ensures replied { Replied result (K.contents sink.old) (K.contents sink.new)
        (ascii_line legend.now address cells.now) }
    ensures counts { (file : Failures) →
        Counts result file file (K.faults sink.old) (K.faults sink.new) }
{
    let mut text = Text::new();
    push_ascii_line(&mut text, legend, address, cells);
    reply(text.as_slice(), sink)
}

/// Replies with so many characters from an address on, in one line.
pub(crate) fn show_characters<F: PageFile, K: Sink>(
    count: u8,
    address: u32,
    legend: &Legend,
    machine: &mut Machine,
    file: &mut F,
    sink: &mut K,
) -> Result<(), Failure>
    requires { count ≤ 64 }
    ensures shows { Shows
        (scene (engine machine.old) (F.contents file.old) (K.contents sink.old))
        (scene (engine machine.new) (F.contents file.new) (K.contents sink.new))
        result (characters_shown legend.now count address) }
    ensures counts { Counts result (F.faults file.old) (F.faults file.new) (K.faults sink.old)
        (K.faults sink.new) }
{
    let mut cells = [None; 64];
    let cells = &mut cells[..count as usize];
    match examine(address, cells, machine, file) {
        Ok(()) => reply_characters(cells, address, legend, sink),
        Err(_) => Err(Failure::PageFault),
    }
}
