//! The request that changes the processor status longword.
ghost use Rattle.std.specs.Prelude.{◌≡◌};
ghost use Rattle.vax_machine.specs.Meaning.{engine};
ghost use Rattle.vax_machine.specs.declared.event.Limits.{Limits};
ghost use Rattle.vax_console.specs.Ends.{OnlyReplied, scene};
ghost use Rattle.vax_debug.specs.Sessions.{Counts};
ghost use Rattle.vax_debug_words.specs.Expressions.{IsExpression};
ghost use Rattle.vax_debug_acts.specs.Acting.{ActsFrom};
ghost use Rattle.vax_debug_acts.specs.Attempts.{field_act, field_put, status_act, status_line, status_put};

use crate::reply::{reply_with, tell_no_number};
use crate::stops::Setting;
use vax_debug::{Failure, deposit_field, deposit_status, evaluate};
use vax_debug_words::{Expression, Field};
use vax_machine::Machine;
use vax_outside::{PageFile, Sink};

/// Whether a status was put.
fn status_line(put: bool) -> &'static [u8]
    ensures { result.now ≡ status_line put }
{
    if put { b"OK\n" } else { b"?NO SUCH STATUS\n" }
}

/// Puts a number into the status, if it is one.
fn put_into_status<F: PageFile, K: Sink>(
    value: u32,
    machine: &mut Machine,
    file: &F,
    sink: &mut K,
) -> Result<(), Failure>
    ensures acts { (limits : Limits) → ActsFrom
        (scene (engine machine.old) (F.contents file.now) (K.contents sink.old))
        (scene (engine machine.new) (F.contents file.now) (K.contents sink.new)) result
        limits (status_put value) }
    ensures counts { Counts result (F.faults file.now) (F.faults file.now) (K.faults sink.old)
        (K.faults sink.new) }
    ensures only { OnlyReplied (K.contents sink.old) (K.contents sink.new) }
{
    let put = deposit_status(value, machine, file);
    reply_with(status_line(put), sink)
}

/// Puts the value of an expression into the status, if it is one that a program may have.
pub fn deposit_into_status<F: PageFile, K: Sink>(
    given: &Expression,
    setting: &Setting,
    machine: &mut Machine,
    file: &mut F,
    sink: &mut K,
) -> Result<(), Failure>
    requires { IsExpression given.now }
    ensures acts { ActsFrom
        (scene (engine machine.old) (F.contents file.old) (K.contents sink.old))
        (scene (engine machine.new) (F.contents file.new) (K.contents sink.new)) result
        setting.now.limits.now
        (status_act setting.now.legend.now given.now) }
    ensures counts { Counts result (F.faults file.old) (F.faults file.new) (K.faults sink.old)
        (K.faults sink.new) }
    ensures only { OnlyReplied (K.contents sink.old) (K.contents sink.new) }
{
    match evaluate(setting.legend, given, machine, file) {
        Ok(Some(value)) => put_into_status(value, machine, file, sink),
        Ok(None) => tell_no_number(setting.legend, given, sink),
        Err(_) => Err(Failure::PageFault),
    }
}

/// Puts a number into a field of the status, if it may have it.
fn put_into_field<F: PageFile, K: Sink>(
    field: Field,
    value: u32,
    machine: &mut Machine,
    file: &F,
    sink: &mut K,
) -> Result<(), Failure>
    ensures acts { (limits : Limits) → ActsFrom
        (scene (engine machine.old) (F.contents file.now) (K.contents sink.old))
        (scene (engine machine.new) (F.contents file.now) (K.contents sink.new)) result
        limits (field_put field value) }
    ensures counts { Counts result (F.faults file.now) (F.faults file.now) (K.faults sink.old)
        (K.faults sink.new) }
    ensures only { OnlyReplied (K.contents sink.old) (K.contents sink.new) }
{
    let put = deposit_field(field, value, machine, file);
    reply_with(status_line(put), sink)
}

/// Puts the value of an expression into a field of the status, if it may have it. The other fields stay.
pub fn deposit_into_field<F: PageFile, K: Sink>(
    field: Field,
    given: &Expression,
    setting: &Setting,
    machine: &mut Machine,
    file: &mut F,
    sink: &mut K,
) -> Result<(), Failure>
    requires { IsExpression given.now }
    ensures acts { ActsFrom
        (scene (engine machine.old) (F.contents file.old) (K.contents sink.old))
        (scene (engine machine.new) (F.contents file.new) (K.contents sink.new)) result
        setting.now.limits.now
        (field_act setting.now.legend.now field given.now) }
    ensures counts { Counts result (F.faults file.old) (F.faults file.new) (K.faults sink.old)
        (K.faults sink.new) }
    ensures only { OnlyReplied (K.contents sink.old) (K.contents sink.new) }
{
    match evaluate(setting.legend, given, machine, file) {
        Ok(Some(value)) => put_into_field(field, value, machine, file, sink),
        Ok(None) => tell_no_number(setting.legend, given, sink),
        Err(_) => Err(Failure::PageFault),
    }
}
