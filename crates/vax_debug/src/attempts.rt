//! One attempt at a step.
ghost use Rattle.std.specs.Prelude.{◌≡◌, ◌<◌, ◌^◌, ◌-◌, ◌&&◌, not, nat_le, Option, is_some};
ghost use Rattle.vax_outside.specs.Channels.{Channels};
ghost use Rattle.vax_outside.specs.declared.faults.Failures.{Failures};
ghost use Rattle.vax_machine.specs.Meaning.{engine};
ghost use Rattle.vax_console.specs.Ends.{OnlyReplied, scene};
ghost use Rattle.vax_debug.specs.Attempts.{AttemptsFrom, BringsFrom, Sends, bare, bytes_sent, missing_none};
ghost use Rattle.vax_debug.specs.Pages.{pages_at};
ghost use Rattle.vax_debug.specs.Sessions.{Counts};

use crate::failure::Failure;
use crate::travel::make_step;
use vax_machine::{Applied, Event, Limits, Machine};
use vax_outside::{Chan, Failed, PageFile, Sink, put_all};
use vax_sched::Schedule;

/// What an attempt at a step came to.
#[derive(Clone, Copy, PartialEq, Eq)]
pub enum Tried {
    /// It missed this page, which came in. The step is still to be made.
    Missed(u32),
    /// It made the step.
    Made,
    /// It made a part of a string instruction, and the other parts were made after it, each by attempts of its own, with the pages that these missed.
    Parted,
}

/// Brings in the page that an attempt missed. It isn't pinned.
fn bring_in<F: PageFile>(page: u32, machine: &mut Machine, file: &mut F) -> Result<Tried, Failure>
    ensures brings { (sink : Option Channels) →
        BringsFrom (scene (engine machine.old) (F.contents file.old) sink)
        (scene (engine machine.new) (F.contents file.new) sink) result page }
    ensures counts { (sink : Failures) →
        Counts (bare result) (F.faults file.old) (F.faults file.new) sink sink }
{
    match machine.apply(Event::Serve, file) {
        Applied::Failed => Err(Failure::PageFault),
        _ => {
            machine.let_go();
            Ok(Tried::Missed(page))
        }
    }
}

/// Writes the byte that a step sends to Out, if it sends one.
fn send<K: Sink>(sent: Option<u8>, sink: &mut K) -> Result<(), Failure>
    ensures sends { Sends result (K.contents sink.old) (K.contents sink.new) (bytes_sent sent) }
    ensures counts { (file : Failures) →
        Counts result file file (K.faults sink.old) (K.faults sink.new) }
{
    let Some(byte) = sent else {
        return Ok(());
    };
    match put_all(sink, Chan::Out, &[byte]) {
        Ok(()) => Ok(()),
        Err(Failed) => Err(Failure::WriteFault),
    }
}

/// An attempt that missed no page, with what is told of it.
fn missing_none(told: Tried, made: Result<(), Failure>) -> Result<Tried, Failure>
    ensures { result ≡ missing_none told made }
{
    match made {
        Ok(()) => Ok(told),
        Err(failure) => Err(failure),
    }
}

/// Whether the limit of turns is reached, and the machine hasn't ended.
fn is_out_of_turns(machine: &Machine, limits: &Limits) -> bool
    ensures { result ≡ (nat_le limits.now.turns (engine machine.now).turns
        && not (is_some (engine machine.now).ended)) }
{
    limits.turns <= machine.turns() && machine.ended().is_none()
}

/// Makes one attempt at a step with the pages that are resident: what a schedule has due isn't made absent. It answers the first page that the step touches and that
/// is absent, which comes in, or that none is and the step was made. Of a string instruction it makes a part; since a session stands between steps alone, that is made to its
/// end, and the answer says so.
pub fn attempt<F: PageFile, K: Sink>(
    machine: &mut Machine,
    limits: &Limits,
    schedule: &Schedule,
    file: &mut F,
    sink: &mut K,
) -> Result<Tried, Failure>
    requires few_turns { limits.now.turns < 2 ^ 64 - 2 }
    ensures attempts { AttemptsFrom
        (scene (engine machine.old) (F.contents file.old) (K.contents sink.old))
        (scene (engine machine.new) (F.contents file.new) (K.contents sink.new))
        result limits.now.turns (pages_at (engine machine.old)) }
    ensures counts { Counts (bare result) (F.faults file.old) (F.faults file.new)
        (K.faults sink.old) (K.faults sink.new) }
    ensures only { OnlyReplied (K.contents sink.old) (K.contents sink.new) }
{
    if is_out_of_turns(machine, limits) {
        return Err(Failure::Turns);
    }
    match machine.apply(Event::Attempt, file) {
        Applied::Absent(page) => bring_in(page, machine, file),
        Applied::Stepped(sent) => missing_none(Tried::Made, send(sent, sink)),
        Applied::Parted => {
            missing_none(
                Tried::Parted,
                make_step(machine, limits, schedule, file, sink),
            )
        }
        _ => Ok(Tried::Made),
    }
}
