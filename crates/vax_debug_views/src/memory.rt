//! Memory, as it is shown.
ghost use Rattle.std.specs.Prelude.{◌≤◌};
ghost use Rattle.vax_machine.specs.Meaning.{engine};
ghost use Rattle.vax_console.specs.Ends.{scene};
ghost use Rattle.vax_debug.specs.Sessions.{Counts};
ghost use Rattle.vax_debug_words.specs.Requests.{IsSpan};
ghost use Rattle.vax_debug_views.specs.Showing.{Shows};
ghost use Rattle.vax_debug_views.specs.Views.{memory_at_shown, memory_shown, stack_shown};

use crate::instructions::show_instructions;
use crate::replying::reply_nowhere;
use crate::values::{show_characters, show_values};
use vax_debug::{Failure, evaluate};
use vax_debug_names::Legend;
use vax_debug_words::{Form, Span};
use vax_machine::Machine;
use vax_outside::{PageFile, Sink};

/// Replies with so many values of a form from an address on.
#[tactic(auto, unfolding(crate::specs::Views::memory_at_shown))]
fn show_memory_at<F: PageFile, K: Sink>(
    form: Form,
    count: u8,
    address: u32,
    legend: &Legend,
    machine: &mut Machine,
    file: &mut F,
    sink: &mut K,
) -> Result<(), Failure>
    requires { count ≤ 64 }
    ensures shows { Shows
        (scene (engine machine.old) (F.contents file.old) (K.contents sink.old))
        (scene (engine machine.new) (F.contents file.new) (K.contents sink.new))
        result (memory_at_shown legend.now form count address) }
    ensures counts { Counts result (F.faults file.old) (F.faults file.new) (K.faults sink.old)
        (K.faults sink.new) }
{
    match form {
        Form::Byte => show_values(1, count, address, legend, machine, file, sink),
        Form::Word => show_values(2, count, address, legend, machine, file, sink),
        Form::Long => show_values(4, count, address, legend, machine, file, sink),
        Form::Quad => show_values(8, count, address, legend, machine, file, sink),
        Form::Ascii => show_characters(count, address, legend, machine, file, sink),
        Form::Instruction => show_instructions(count, address, legend, machine, file, sink),
    }
}

/// Replies with the values of a span, in their form: a line for each, but characters in one line. A byte that no area has is shown as two dashes, a character
/// as one.
pub fn show_memory<F: PageFile, K: Sink>(
    form: Form,
    span: &Span,
    legend: &Legend,
    machine: &mut Machine,
    file: &mut F,
    sink: &mut K,
) -> Result<(), Failure>
    requires { IsSpan span.now }
    ensures shows { Shows
        (scene (engine machine.old) (F.contents file.old) (K.contents sink.old))
        (scene (engine machine.new) (F.contents file.new) (K.contents sink.new))
        result (memory_shown legend.now form span.now) }
    ensures counts { Counts result (F.faults file.old) (F.faults file.new) (K.faults sink.old)
        (K.faults sink.new) }
{
    match evaluate(legend, &span.from, machine, file) {
        Ok(Some(address)) => {
            show_memory_at(form, span.count, address, legend, machine, file, sink)
        }
        Ok(None) => reply_nowhere(sink),
        Err(_) => Err(Failure::PageFault),
    }
}

/// Replies with so many longwords from the stack pointer on.
pub fn show_stack<F: PageFile, K: Sink>(
    count: u8,
    legend: &Legend,
    machine: &mut Machine,
    file: &mut F,
    sink: &mut K,
) -> Result<(), Failure>
    ensures shows { Shows
        (scene (engine machine.old) (F.contents file.old) (K.contents sink.old))
        (scene (engine machine.new) (F.contents file.new) (K.contents sink.new))
        result (stack_shown legend.now count) }
    ensures counts { Counts result (F.faults file.old) (F.faults file.new) (K.faults sink.old)
        (K.faults sink.new) }
{
    let address = machine.core().regs[14];
    show_values(4, count, address, legend, machine, file, sink)
}
