//! Traced runs.
ghost use Rattle.std.specs.Prelude.{◌≡◌, ◌≢◌, ◌+◌, ◌-◌, ◌<◌, ◌≤◌, ◌++◌, ◌^◌, ◌==◌, ◌&&◌, nat_le, nat_lt, slice_index, length, is_err, OnErr, OnOk, IfErr, None, true};
ghost use Rattle.std.specs.List.{list_any};
ghost use Rattle.vax_outside.specs.Channels.{Grew, GrewByPrefix, append, only};
ghost use Rattle.vax_outside.specs.Faults.{CountsFailure};
ghost use Rattle.vax_flat.specs.Parts.{At};
ghost use Rattle.vax_flat.specs.Step.{Flat};
ghost use Rattle.vax_machine.specs.Console.{IsBetween};
ghost use Rattle.vax_machine.specs.Machine.{Means};
ghost use Rattle.vax_machine.specs.Meaning.{engine};
ghost use Rattle.vax_machine.specs.Run.{system_of};
ghost use Rattle.vax_machine.specs.Writing.{OnlyWrote, held_in};
ghost use Rattle.vax_watch.specs.Beginning.{beginning};
ghost use Rattle.vax_watch.specs.Plans.{AreLookedAt, IsLookedAt, asked_of, breaks_of, changes_in};
ghost use Rattle.vax_watch.specs.Listing.{core_line};
ghost use Rattle.vax_watch.specs.Traced.{CountsTrace, Traces, by_write, trace_of};
ghost use Rattle.vax_watch.specs.Tracing.{BeginsSteps, CountsEnd, CountsSteps, Finishes, IsUnlisted, MakesStep, MakesSteps, stage_of, stopped_by};

use crate::beginning::{Beginning, look_at};
use crate::lines::{Lines, make_room, push_step};
use crate::watch::Plan;
use arrayvec::ArrayVec;
use vax_flat::Ending;
use vax_machine::{Held, Limits, Machine, RunEnd};
use vax_outside::{Chan, Failed, PageFile, Sink, put_all};
use vax_pager::PageFault;
use vax_sched::Schedule;
use vax_word::Core;

/// How a traced run stopped.
#[derive(Clone, Copy, PartialEq, Eq)]
pub enum TraceEnd {
    /// A step ended it.
    Ended(Ending),
    /// At the limit of steps.
    Steps,
    /// Before a step at one of the addresses.
    Break,
    /// At the limit of attempts.
    Turns,
    /// A call of the page file failed.
    PageFault,
    /// A write failed.
    WriteFault,
}

impl From<Failed> for TraceEnd {
    ghost use Rattle.std.specs.Prelude.{◌≡◌};
    ghost use Rattle.vax_watch.specs.declared.steps.TraceEnd.TheVariants as end;

    ghost from_gives = { λ _ e. e ≡ end.WriteFault };

    fn from(_failed: Failed) -> TraceEnd {
        TraceEnd::WriteFault
    }
}

impl From<PageFault> for TraceEnd {
    ghost use Rattle.std.specs.Prelude.{◌≡◌};
    ghost use Rattle.vax_watch.specs.declared.steps.TraceEnd.TheVariants as end;

    ghost from_gives = { λ _ e. e ≡ end.PageFault };

    fn from(_fault: PageFault) -> TraceEnd {
        TraceEnd::PageFault
    }
}

/// What a traced run holds back: what its steps send, and their lines.
#[derive(Drop)]
struct Notes {
    held: Held,
    lines: Lines,
}

/// Why a traced run stops between two steps, if it does.
fn stopped(machine: &Machine, limits: &Limits, plan: &Plan) -> Option<TraceEnd>
    ensures below { result ≡ None → (engine machine.now).steps < limits.now.steps }
    ensures why { result ≡ stopped_by (engine machine.now).ended
        (nat_le limits.now.steps (engine machine.now).steps)
        (nat_lt 0 (engine machine.now).steps
        && list_any (λ a. a == slice_index (engine machine.now).cpu.core.regs 15)
        (breaks_of plan.now)) }
{
    if let Some(ending) = machine.ended() {
        return Some(TraceEnd::Ended(ending));
    }
    if machine.steps() >= limits.steps {
        return Some(TraceEnd::Steps);
    }
    if machine.steps() > 0 && plan.is_break(machine.core().regs[15]) {
        return Some(TraceEnd::Break);
    }
    None
}

/// Lists the step that was made, and the watches whose bytes it changed.
fn list_step<F: PageFile>(
    machine: &mut Machine,
    plan: &mut Plan,
    before: &Core,
    begins: &Beginning,
    lines: &mut Lines,
    file: &mut F,
) -> Result<(), TraceEnd>
    requires { length lines.old.items + 1249 ≤ 4096 }
    ensures asked { asked_of plan.new ≡ asked_of plan.old }
    ensures seen { OnOk result (AreLookedAt (engine machine.old) (F.contents file.old)
        plan.old.seen.items plan.new.seen.items) }
    ensures looked { IsLookedAt (engine machine.old) (F.contents file.old) (engine machine.new)
        (F.contents file.new) }
    ensures lines { OnOk result (lines.new.items ≡ lines.old.items
        ++ core_line (engine machine.old).steps before.now (beginning begins.now)
        (engine machine.old).cpu.core
        ++ changes_in plan.new.seen.items) }
    ensures unlisted { OnErr result
        (IsUnlisted lines.old.items lines.new.items plan.old.seen.items) }
    ensures fault { IfErr result (λ e. e ≡ TraceEnd.PageFault) }
    ensures counts { CountsFailure (is_err result) (F.faults file.old) (F.faults file.new) }
{
    plan.look(machine, file)?;
    push_step(lines, machine.steps(), before, begins, machine.core());
    plan.push_changes(lines);
    Ok(())
}

/// Makes one step and lists it.
fn trace_step<F: PageFile, K: Sink>(
    machine: &mut Machine,
    limits: &Limits,
    plan: &mut Plan,
    schedule: &Schedule,
    notes: &mut Notes,
    file: &mut F,
    sink: &mut K,
) -> Result<(), TraceEnd>
    requires few_steps { (engine machine.old).steps < 2 ^ 64 - 1 }
    requires few_turns { limits.now.turns < 2 ^ 64 - 2 }
    ensures asked { asked_of plan.new ≡ asked_of plan.old }
    ensures steps { OnOk result ((engine machine.new).steps ≡ (engine machine.old).steps + 1) }
    ensures makes { MakesStep result limits.now schedule.now (asked_of plan.old)
        (stage_of (system_of (engine machine.old) (F.contents file.old) (K.contents sink.old))
        notes.old plan.old)
        (stage_of (system_of (engine machine.new) (F.contents file.new) (K.contents sink.new))
        notes.new plan.new) }
    ensures only { OnlyWrote true (K.contents sink.old) (K.contents sink.new) }
    ensures counts { CountsSteps result (F.faults file.old) (F.faults file.new) (K.faults sink.old)
        (K.faults sink.new) }
{
    make_room(&mut notes.lines, sink)?;
    let before = *machine.core();
    let begins = look_at(machine, plan.texts, before.regs[15], file)?;
    let next = Limits {
        steps: machine.steps() + 1,
        turns: limits.turns,
        listed: false,
    };
    match machine.go_on(&next, schedule, &mut notes.held, file, sink) {
        RunEnd::Steps => list_step(machine, plan, &before, &begins, &mut notes.lines, file),
        RunEnd::Ended(ending) => {
            list_step(machine, plan, &before, &begins, &mut notes.lines, file)?;
            Err(TraceEnd::Ended(ending))
        }
        RunEnd::Turns => Err(TraceEnd::Turns),
        RunEnd::PageFault => Err(TraceEnd::PageFault),
        RunEnd::WriteFault => Err(TraceEnd::WriteFault),
    }
}

/// Makes steps and lists them, from a machine that stands between two of them and whose watched bytes were seen.
fn trace<F: PageFile, K: Sink>(
    machine: &mut Machine,
    limits: &Limits,
    plan: &mut Plan,
    schedule: &Schedule,
    notes: &mut Notes,
    file: &mut F,
    sink: &mut K,
) -> TraceEnd
    requires few_steps { limits.now.steps < 2 ^ 64 }
    requires few_turns { limits.now.turns < 2 ^ 64 - 2 }
    ensures makes { MakesSteps result limits.now schedule.now (asked_of plan.old)
        (stage_of (system_of (engine machine.old) (F.contents file.old) (K.contents sink.old))
        notes.old plan.old)
        (stage_of (system_of (engine machine.new) (F.contents file.new) (K.contents sink.new))
        notes.new plan.new) }
    ensures only { OnlyWrote true (K.contents sink.old) (K.contents sink.new) }
    ensures counts { CountsEnd result (F.faults file.old) (F.faults file.new) (K.faults sink.old)
        (K.faults sink.new) }
{
    loop {
        if let Some(end) = stopped(machine, limits, plan) {
            return end;
        }
        match trace_step(machine, limits, plan, schedule, notes, file, sink) {
            Ok(()) => {}
            Err(end) => return end,
        }
    }
}

/// Looks at the watched bytes, and makes steps and lists them.
fn begin<F: PageFile, K: Sink>(
    machine: &mut Machine,
    limits: &Limits,
    plan: &mut Plan,
    schedule: &Schedule,
    notes: &mut Notes,
    file: &mut F,
    sink: &mut K,
) -> TraceEnd
    requires few_steps { limits.now.steps < 2 ^ 64 }
    requires few_turns { limits.now.turns < 2 ^ 64 - 2 }
    ensures begins { BeginsSteps result limits.now schedule.now (asked_of plan.old)
        (stage_of (system_of (engine machine.old) (F.contents file.old) (K.contents sink.old))
        notes.old plan.old)
        (stage_of (system_of (engine machine.new) (F.contents file.new) (K.contents sink.new))
        notes.new plan.new) }
    ensures only { OnlyWrote true (K.contents sink.old) (K.contents sink.new) }
    ensures counts { CountsEnd result (F.faults file.old) (F.faults file.new) (K.faults sink.old)
        (K.faults sink.new) }
{
    match plan.look(machine, file) {
        Ok(()) => trace(machine, limits, plan, schedule, notes, file, sink),
        Err(_) => TraceEnd::PageFault,
    }
}

/// Writes what is held back.
fn write_notes<K: Sink>(notes: &Notes, sink: &mut K) -> Result<(), Failed>
    ensures ok { OnOk result (Grew (K.contents sink.old) (K.contents sink.new)
        (append (held_in notes.now.held) (only Chan.Record notes.now.lines.items))) }
    ensures prefix { OnErr result (GrewByPrefix (K.contents sink.old) (K.contents sink.new)
        (append (held_in notes.now.held) (only Chan.Record notes.now.lines.items))) }
    ensures counts { CountsFailure (is_err result) (K.faults sink.old) (K.faults sink.new) }
{
    notes.held.write_all(sink)?;
    put_all(sink, Chan::Record, &notes.lines)
}

/// Writes what is held back, and ends so, or by a write fault.
fn finish<K: Sink>(end: TraceEnd, notes: &Notes, sink: &mut K) -> TraceEnd
    requires { end ≢ TraceEnd.WriteFault }
    ensures done { Finishes end result
        (append (held_in notes.now.held) (only Chan.Record notes.now.lines.items))
        (K.contents sink.old) (K.contents sink.new) }
    ensures counts { CountsFailure (by_write result) (K.faults sink.old) (K.faults sink.new) }
{
    match write_notes(notes, sink) {
        Ok(()) => end,
        Err(_) => TraceEnd::WriteFault,
    }
}

/// Runs a machine that hasn't run, and lists its steps on Record: for each step that is completed its number, its address, the byte there, the text of
/// the instruction there where the plan asks for texts, and the registers and the status that it changed, and behind it a line for each watch whose bytes
/// it changed. The bytes that the program sends to its console go to Out.
///
/// The turns are those of a run whose limit of steps is where the trace is to stop: before the first step, other than the first of all, whose address
/// the plan has, if that comes below the limit. A step that is undone or open has no line. Whether evictions are to be listed isn't asked.
///
/// After a page fault Record has the lines of the steps that were made, but for one whose watched bytes couldn't be read; after a write fault, a
/// prefix of what is to be written was.
pub fn traced<F: PageFile, K: Sink>(
    machine: &mut Machine,
    limits: &Limits,
    plan: &mut Plan,
    schedule: &Schedule,
    file: &mut F,
    sink: &mut K,
) -> TraceEnd
    requires few_steps { limits.now.steps < 2 ^ 64 }
    requires few_turns { limits.now.turns < 2 ^ 64 - 2 }
    requires between { IsBetween (engine machine.old) }
    ensures traces { (start : Flat) → Means (engine machine.old) (F.contents file.old) (At start)
        → (engine machine.old).steps ≡ 0
        → Traces (trace_of limits.now schedule.now plan.old (engine machine.old)
        (F.contents file.old) start) result
        (K.contents sink.old)
        (system_of (engine machine.new) (F.contents file.new) (K.contents sink.new)) }
    ensures only { OnlyWrote true (K.contents sink.old) (K.contents sink.new) }
    ensures counts { CountsTrace result (F.faults file.old) (F.faults file.new) (K.faults sink.old)
        (K.faults sink.new) }
{
    let held = Held::new(false);
    let lines = ArrayVec::new();
    let mut notes = Notes { held, lines };
    match begin(machine, limits, plan, schedule, &mut notes, file, sink) {
        TraceEnd::WriteFault => TraceEnd::WriteFault,
        end => finish(end, &notes, sink),
    }
}
