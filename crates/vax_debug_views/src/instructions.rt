//! Instructions in memory, as they are shown.
ghost use Rattle.std.specs.Prelude.{◌≤◌, IfOk, Option, is_err, length};
ghost use Rattle.vax_outside.specs.Channels.{Channels};
ghost use Rattle.vax_outside.specs.Faults.{CountsFailure};
ghost use Rattle.vax_outside.specs.declared.faults.Failures.{Failures};
ghost use Rattle.vax_machine.specs.Meaning.{engine};
ghost use Rattle.vax_console.specs.Ends.{scene};
ghost use Rattle.vax_debug.specs.Calls.{TellsFrom};
ghost use Rattle.vax_debug.specs.Sessions.{Counts, StaysHere};
ghost use Rattle.vax_debug_words.specs.Requests.{IsSpan};
ghost use Rattle.vax_debug_replies.specs.Instructions.{listed_instruction};
ghost use Rattle.vax_debug_views.specs.Showing.{Replied, Shows};
ghost use Rattle.vax_debug_views.specs.Views.{behind_instruction, disassembled, disassembled_here, instruction_shown, instructions_shown};

use crate::replying::{reply, reply_nowhere};
use vax_debug::{Failure, evaluate, examine};
use vax_debug_names::Legend;
use vax_debug_replies::{push_listed_instruction, span_of};
use vax_debug_words::Span;
use vax_machine::Machine;
use vax_outside::{PageFile, Sink, Text};
use vax_pager::PageFault;

/// How many bytes are looked at for an instruction.
const BYTES: usize = 64;

/// How many instructions are shown where that isn't said.
const USUAL: u8 = 10;

/// Replies with the instruction that cells begin with, which lie at an address, and with the statement that it came from before it.
fn reply_instruction<K: Sink>(
    cells: &[Option<u8>],
    address: u32,
    legend: &Legend,
    sink: &mut K,
) -> Result<(), Failure>
    requires { length cells.now ≤ 64 }
    ensures replied { Replied result (K.contents sink.old) (K.contents sink.new)
        (listed_instruction legend.now address cells.now) }
    ensures counts { (file : Failures) →
        Counts result file file (K.faults sink.old) (K.faults sink.new) }
{
    let mut text = Text::new();
    push_listed_instruction(&mut text, legend, address, cells);
    reply(text.as_slice(), sink)
}

/// Replies with the instruction at an address.
fn show_instruction<F: PageFile, K: Sink>(
    address: u32,
    legend: &Legend,
    machine: &mut Machine,
    file: &mut F,
    sink: &mut K,
) -> Result<(), Failure>
    ensures shows { Shows
        (scene (engine machine.old) (F.contents file.old) (K.contents sink.old))
        (scene (engine machine.new) (F.contents file.new) (K.contents sink.new))
        result (instruction_shown legend.now address) }
    ensures counts { Counts result (F.faults file.old) (F.faults file.new) (K.faults sink.old)
        (K.faults sink.new) }
{
    let mut cells = [None; BYTES];
    match examine(address, &mut cells, machine, file) {
        Ok(()) => reply_instruction(&cells, address, legend, sink),
        Err(_) => Err(Failure::PageFault),
    }
}

/// The address behind the instruction at an address.
fn behind_instruction<F: PageFile>(
    address: u32,
    machine: &mut Machine,
    file: &mut F,
) -> Result<u32, PageFault>
    ensures tells { (sink : Option Channels) → IfOk result
        (TellsFrom (scene (engine machine.old) (F.contents file.old) sink)
        (behind_instruction address)) }
    ensures stays { (sink : Option Channels) →
        StaysHere (scene (engine machine.old) (F.contents file.old) sink)
        (scene (engine machine.new) (F.contents file.new) sink) }
    ensures counts { CountsFailure (is_err result) (F.faults file.old) (F.faults file.new) }
{
    let mut cells = [None; BYTES];
    match examine(address, &mut cells, machine, file) {
        Ok(()) => Ok(address.wrapping_add(u32::from(span_of(address, &cells)))),
        Err(_) => Err(PageFault),
    }
}

/// Replies with so many instructions, one behind the other.
pub(crate) fn show_instructions<F: PageFile, K: Sink>(
    count: u8,
    address: u32,
    legend: &Legend,
    machine: &mut Machine,
    file: &mut F,
    sink: &mut K,
) -> Result<(), Failure>
    ensures shows { Shows
        (scene (engine machine.old) (F.contents file.old) (K.contents sink.old))
        (scene (engine machine.new) (F.contents file.new) (K.contents sink.new))
        result (instructions_shown legend.now count address) }
    ensures counts { Counts result (F.faults file.old) (F.faults file.new) (K.faults sink.old)
        (K.faults sink.new) }
{
    let mut address = address;
    for _ in 0..count {
        match show_instruction(address, legend, machine, file, sink) {
            Ok(()) => {}
            Err(failure) => return Err(failure),
        }
        match behind_instruction(address, machine, file) {
            Ok(next) => address = next,
            Err(_) => return Err(Failure::PageFault),
        }
    }
    Ok(())
}

/// Replies with the instructions of a span, one behind the other.
pub fn disassemble<F: PageFile, K: Sink>(
    span: &Span,
    legend: &Legend,
    machine: &mut Machine,
    file: &mut F,
    sink: &mut K,
) -> Result<(), Failure>
    requires { IsSpan span.now }
    ensures shows { Shows
        (scene (engine machine.old) (F.contents file.old) (K.contents sink.old))
        (scene (engine machine.new) (F.contents file.new) (K.contents sink.new))
        result (disassembled legend.now span.now) }
    ensures counts { Counts result (F.faults file.old) (F.faults file.new) (K.faults sink.old)
        (K.faults sink.new) }
{
    match evaluate(legend, &span.from, machine, file) {
        Ok(Some(address)) => show_instructions(span.count, address, legend, machine, file, sink),
        Ok(None) => reply_nowhere(sink),
        Err(_) => Err(Failure::PageFault),
    }
}

/// Replies with ten instructions from PC on.
pub fn disassemble_here<F: PageFile, K: Sink>(
    legend: &Legend,
    machine: &mut Machine,
    file: &mut F,
    sink: &mut K,
) -> Result<(), Failure>
    ensures shows { Shows
        (scene (engine machine.old) (F.contents file.old) (K.contents sink.old))
        (scene (engine machine.new) (F.contents file.new) (K.contents sink.new))
        result (disassembled_here legend.now) }
    ensures counts { Counts result (F.faults file.old) (F.faults file.new) (K.faults sink.old)
        (K.faults sink.new) }
{
    let address = machine.core().regs[15];
    show_instructions(USUAL, address, legend, machine, file, sink)
}
