//! Steps up to a stop.
ghost use Rattle.std.specs.Prelude.{◌<◌, ◌^◌, ◌-◌, IfOk, Option, is_err};
ghost use Rattle.vax_outside.specs.Channels.{Channels};
ghost use Rattle.vax_outside.specs.Faults.{CountsFailure};
ghost use Rattle.vax_outside.specs.declared.faults.Failures.{Failures};
ghost use Rattle.vax_machine.specs.Meaning.{engine};
ghost use Rattle.vax_console.specs.Ends.{OnlyReplied, scene};
ghost use Rattle.vax_console.specs.Transcript.{Session, stepped};
ghost use Rattle.vax_debug.specs.Attempts.{ResumesFrom};
ghost use Rattle.vax_debug.specs.Steps.{HaltsFrom, StepsFrom, told};
ghost use Rattle.vax_debug.specs.Travel.{halts, stops_at, travelled};
ghost use Rattle.vax_debug.specs.Calls.{TellsFrom};
ghost use Rattle.vax_debug.specs.Sessions.{ArrivesFrom, Counts, StaysHere};

use crate::breaks::{Goal, Marks, is_stop};
use crate::failure::Failure;
use crate::watches::has_changed;
use vax_machine::{Limits, Machine, RunEnd};
use vax_outside::{PageFile, Sink};
use vax_pager::PageFault;
use vax_sched::Schedule;

/// Makes one step, unless the machine has ended. Where parts of it were made it makes the rest.
pub(crate) fn make_step<F: PageFile, K: Sink>(
    machine: &mut Machine,
    limits: &Limits,
    schedule: &Schedule,
    file: &mut F,
    sink: &mut K,
) -> Result<(), Failure>
    requires few_turns { limits.now.turns < 2 ^ 64 - 2 }
    ensures goes { ArrivesFrom
        (scene (engine machine.old) (F.contents file.old) (K.contents sink.old))
        (scene (engine machine.new) (F.contents file.new) (K.contents sink.new))
        result limits.now.turns (λ (s : Session). 1) (λ (s : Session). stepped s) }
    ensures resumes { ResumesFrom
        (scene (engine machine.old) (F.contents file.old) (K.contents sink.old))
        (scene (engine machine.new) (F.contents file.new) (K.contents sink.new))
        result limits.now.turns }
    ensures counts { Counts result (F.faults file.old) (F.faults file.new) (K.faults sink.old)
        (K.faults sink.new) }
    ensures only { OnlyReplied (K.contents sink.old) (K.contents sink.new) }
{
    let limits = Limits {
        steps: machine.steps().saturating_add(1),
        turns: limits.turns,
        listed: false,
    };
    match machine.run(&limits, schedule, file, sink) {
        RunEnd::Ended(_) => Ok(()),
        RunEnd::Steps => Ok(()),
        RunEnd::Turns => Err(Failure::Turns),
        RunEnd::PageFault => Err(Failure::PageFault),
        RunEnd::WriteFault => Err(Failure::WriteFault),
    }
}

/// Whether the machine has ended, or is to stop here.
fn has_halted<F: PageFile>(
    marks: &Marks,
    goal: Option<Goal>,
    machine: &mut Machine,
    file: &mut F,
) -> Result<bool, PageFault>
    ensures tells { (sink : Option Channels) → IfOk result
        (TellsFrom (scene (engine machine.old) (F.contents file.old) sink)
        (halts (stops_at marks.now.breaks.now marks.now.seen.now goal))) }
    ensures stays { (sink : Option Channels) →
        StaysHere (scene (engine machine.old) (F.contents file.old) sink)
        (scene (engine machine.new) (F.contents file.new) sink) }
    ensures counts { CountsFailure (is_err result) (F.faults file.old) (F.faults file.new) }
{
    if machine.ended().is_some() || is_stop(marks.breaks, goal, machine.core()) {
        return Ok(true);
    }
    has_changed(marks.seen.as_slice(), machine, file)
}

/// Tells whether to stop here. A failure is one of the page file.
fn stops_here<F: PageFile>(
    marks: &Marks,
    goal: Option<Goal>,
    machine: &mut Machine,
    file: &mut F,
) -> Result<bool, Failure>
    ensures halts { (sink : Option Channels) → HaltsFrom
        (scene (engine machine.old) (F.contents file.old) sink)
        (scene (engine machine.new) (F.contents file.new) sink)
        result (stops_at marks.now.breaks.now marks.now.seen.now goal) }
    ensures counts { (sink : Failures) →
        Counts (told result) (F.faults file.old) (F.faults file.new) sink sink }
{
    match has_halted(marks, goal, machine, file) {
        Ok(halted) => Ok(halted),
        Err(_) => Err(Failure::PageFault),
    }
}

/// Makes one step, and tells whether to stop behind it.
fn step_on<F: PageFile, K: Sink>(
    goal: Option<Goal>,
    marks: &Marks,
    machine: &mut Machine,
    limits: &Limits,
    schedule: &Schedule,
    file: &mut F,
    sink: &mut K,
) -> Result<bool, Failure>
    requires few_turns { limits.now.turns < 2 ^ 64 - 2 }
    ensures goes { StepsFrom
        (scene (engine machine.old) (F.contents file.old) (K.contents sink.old))
        (scene (engine machine.new) (F.contents file.new) (K.contents sink.new))
        result limits.now.turns
        (stops_at marks.now.breaks.now marks.now.seen.now goal) }
    ensures counts { Counts (told result) (F.faults file.old) (F.faults file.new)
        (K.faults sink.old) (K.faults sink.new) }
    ensures only { OnlyReplied (K.contents sink.old) (K.contents sink.new) }
{
    match make_step(machine, limits, schedule, file, sink) {
        Ok(()) => stops_here(marks, goal, machine, file),
        Err(failure) => Err(failure),
    }
}

/// How far steps are to go: at most so many, and up to a goal, if there is one.
#[derive(Clone, Copy)]
pub(crate) struct Course {
    pub(crate) count: u64,
    pub(crate) goal: Option<Goal>,
}

/// Makes steps, up to the first behind which the machine has ended or is to stop.
pub(crate) fn travel<F: PageFile, K: Sink>(
    course: Course,
    marks: &Marks,
    machine: &mut Machine,
    limits: &Limits,
    schedule: &Schedule,
    file: &mut F,
    sink: &mut K,
) -> Result<(), Failure>
    requires few_turns { limits.now.turns < 2 ^ 64 - 2 }
    ensures goes { ArrivesFrom
        (scene (engine machine.old) (F.contents file.old) (K.contents sink.old))
        (scene (engine machine.new) (F.contents file.new) (K.contents sink.new))
        result limits.now.turns (λ (s : Session). course.count)
        (λ (s : Session). travelled course.count
        (stops_at marks.now.breaks.now marks.now.seen.now course.goal) s) }
    ensures counts { Counts result (F.faults file.old) (F.faults file.new) (K.faults sink.old)
        (K.faults sink.new) }
    ensures only { OnlyReplied (K.contents sink.old) (K.contents sink.new) }
{
    for _ in 0..course.count {
        match step_on(course.goal, marks, machine, limits, schedule, file, sink) {
            Ok(false) => {}
            Ok(true) => return Ok(()),
            Err(failure) => return Err(failure),
        }
    }
    Ok(())
}
