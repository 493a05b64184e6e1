//! The processor, as it is shown.
ghost use Rattle.std.specs.Prelude.{◌<◌};
ghost use Rattle.vax_machine.specs.Meaning.{engine};
ghost use Rattle.vax_console.specs.Ends.{scene};
ghost use Rattle.vax_debug.specs.Sessions.{Counts};
ghost use Rattle.vax_debug_views.specs.Showing.{Shows};
ghost use Rattle.vax_debug_views.specs.Views.{field_shown, register_shown, status_shown};

use crate::replying::reply;
use vax_debug::Failure;
use vax_debug_replies::{push_field_line, push_status_line};
use vax_debug_words::Field;
use vax_machine::Machine;
use vax_outside::{PageFile, Sink, Text};
use vax_report::push_register;

/// Replies with the value of a register, R0 to R15.
pub fn show_register<F: PageFile, K: Sink>(
    register: u8,
    machine: &Machine,
    file: &F,
    sink: &mut K,
) -> Result<(), Failure>
    requires { register < 16 }
    ensures shows { Shows
        (scene (engine machine.now) (F.contents file.now) (K.contents sink.old))
        (scene (engine machine.now) (F.contents file.now) (K.contents sink.new))
        result (register_shown register) }
    ensures counts { Counts result (F.faults file.now) (F.faults file.now) (K.faults sink.old)
        (K.faults sink.new) }
{
    let mut text = Text::new();
    push_register(&mut text, register, machine.core().regs[register as usize]);
    reply(text.as_slice(), sink)
}

/// Replies with the processor status longword, and what its bits say.
pub fn show_status<F: PageFile, K: Sink>(
    machine: &Machine,
    file: &F,
    sink: &mut K,
) -> Result<(), Failure>
    ensures shows { Shows
        (scene (engine machine.now) (F.contents file.now) (K.contents sink.old))
        (scene (engine machine.now) (F.contents file.now) (K.contents sink.new))
        result status_shown }
    ensures counts { Counts result (F.faults file.now) (F.faults file.now) (K.faults sink.old)
        (K.faults sink.new) }
{
    let mut text = Text::new();
    push_status_line(&mut text, machine.core().psl.0);
    reply(text.as_slice(), sink)
}

/// Replies with a field of the processor status longword.
pub fn show_field<F: PageFile, K: Sink>(
    field: Field,
    machine: &Machine,
    file: &F,
    sink: &mut K,
) -> Result<(), Failure>
    ensures shows { Shows
        (scene (engine machine.now) (F.contents file.now) (K.contents sink.old))
        (scene (engine machine.now) (F.contents file.now) (K.contents sink.new))
        result (field_shown field) }
    ensures counts { Counts result (F.faults file.now) (F.faults file.now) (K.faults sink.old)
        (K.faults sink.new) }
{
    let mut text = Text::new();
    push_field_line(&mut text, field, machine.core().psl.0);
    reply(text.as_slice(), sink)
}
