//! Runs a program and lists its steps.
ghost use Rattle.std.specs.Prelude.{◌≡◌, ◌≤◌, ◌<◌, ◌^◌, ◌-◌, ℕ, IfOk, length, map};
ghost use Rattle.vax_flat.specs.Step.{Flat};
ghost use Rattle.vax_machine.specs.Console.{IsBetween};
ghost use Rattle.vax_machine.specs.Machine.{keeping};
ghost use Rattle.vax_machine.specs.Meaning.{engine};
ghost use Rattle.vax_watch.specs.Plans.{breaks_of, watches_of};
ghost use Rattle.vax_cli.specs.Said.{AreWithin, options as said_options, tracing as said_tracing};
ghost use Rattle.vax_cli.specs.declared.command.Strictness.TheVariants.{Off};
ghost use Rattle.vax_command.specs.Around.{change, outside};
ghost use Rattle.vax_command.specs.Ends.{Admits, EndsSo};
ghost use Rattle.vax_command.specs.Fresh.{IsFresh};
ghost use Rattle.vax_command.specs.Loaded.{AreSound, loaded_seen};
ghost use Rattle.vax_command.specs.Reading.{file_limit, large_limit};
ghost use Rattle.vax_command.specs.Room.{items_of};
ghost use Rattle.vax_command.specs.Tracing.{Traces, Went, watch_of};
ghost use Rattle.vax_command.specs.TracingEnds.{last_to, status_to};

use crate::dump::Room;
use crate::programs::Programs;
use crate::refusal::refuse;
use crate::run::{prepare_run, report, report_all};
use crate::status::Status;
use std::alloc::Global;
use vax_cli::{DumpItem, Options, Tracing};
use vax_machine::{Limits, Machine};
use vax_outside::{PageFile, Sink};
use vax_report::Last;
use vax_sched::Schedule;
use vax_watch::{Plan, PlanError, TraceEnd, Watch, traced};

/// What the report tells of the end of a traced run.
fn last_to(end: TraceEnd) -> Last
    ensures { result ≡ last_to end }
{
    match end {
        TraceEnd::Ended(ending) => Last::Ending(ending),
        TraceEnd::Steps => Last::Steps,
        TraceEnd::Break => Last::Break,
        TraceEnd::Turns => Last::Turns,
        TraceEnd::PageFault | TraceEnd::WriteFault => Last::PageFault,
    }
}

/// The answer to a traced run that ended so.
fn status_to(end: TraceEnd) -> Status
    ensures { result ≡ status_to end }
{
    match end {
        TraceEnd::Ended(_) | TraceEnd::Steps | TraceEnd::Break => Status::Done,
        TraceEnd::Turns => Status::Turns,
        TraceEnd::PageFault => Status::PageFault,
        TraceEnd::WriteFault => Status::WriteFault,
    }
}

/// Runs a machine under a schedule and lists its steps, and writes the report.
fn trace<K: Sink, F: PageFile>(
    machine: Machine,
    limits: &Limits,
    schedule: &Schedule,
    plan: Plan,
    room: Room,
    sink: &mut K,
    pages: &mut F,
) -> Status
    requires few_steps { limits.now.steps < 2 ^ 64 }
    requires few_turns { limits.now.turns < 2 ^ 64 - 2 }
    requires between { IsBetween (engine machine) }
    ensures went { (frames : ℕ) → (m : Flat) → IsFresh (engine machine) frames m →
        EndsSo (change K.faults K.contents sink.old sink.new)
        (Went (outside (change K.faults K.contents sink.old sink.new)
        (change F.faults F.contents pages.old pages.new))
        (record {
          run = record {
            limits = limits.now;
            areas = (keeping (engine machine)).areas;
            rules = schedule.now;
            frames = frames;
            start = m;
            items = items_of room.blanks.items;
            strict = Off;
          };
          breaks = breaks_of plan;
          watches = watches_of plan;
          texts = plan.texts;
        }))
        result }
    ensures failed { Admits (F.faults pages.old) (F.faults pages.new) Status.PageFault result }
{
    let mut machine = machine;
    let mut plan = plan;
    match traced(&mut machine, limits, &mut plan, schedule, pages, sink) {
        TraceEnd::PageFault => report(&machine, Last::PageFault, &[], Status::PageFault, sink),
        TraceEnd::WriteFault => Status::WriteFault,
        end => report_all(machine, last_to(end), room, status_to(end), sink, pages),
    }
}

/// The bytes of an item of `--watch`.
fn watch_of(item: &DumpItem) -> Watch
    ensures { result ≡ watch_of item.now }
{
    Watch {
        address: item.address,
        count: item.count,
    }
}

/// Where a traced run is to stop, and what it is to watch.
fn plan_of(alloc: Global, tracing: &Tracing) -> Result<Plan, PlanError>
    ensures breaks { IfOk result (λ p. breaks_of p ≡ (said_tracing tracing.now).breaks) }
    ensures watches { IfOk result
        (λ p. watches_of p ≡ map watch_of (said_tracing tracing.now).watches) }
    ensures texts { IfOk result (λ p. p.texts ≡ (said_tracing tracing.now).texts) }
{
    let breaks = Vec::from_slice(alloc, tracing.breaks.as_slice())?;
    let mut watches = Vec::with_capacity(alloc, tracing.watches.len())?;
    for item in tracing.watches.as_slice() {
        watches.push(watch_of(item))?;
    }
    let plan = Plan::new(alloc, breaks, &watches)?;
    Ok(plan.with_texts(tracing.texts))
}

/// Runs programs with their input under a schedule, as far as the options let them go, and lists their steps.
pub fn trace_programs<K: Sink, F: PageFile>(
    alloc: Global,
    programs: &Programs,
    input: Vec<u8>,
    schedule: &[u8],
    tracing: &Tracing,
    options: &Options<'_>,
    sink: &mut K,
    pages: &mut F,
) -> Status
    requires sound { AreSound programs.now }
    requires input { length input.items ≤ file_limit }
    requires schedule { length schedule.now ≤ large_limit }
    requires within { AreWithin (said_options options.now) }
    ensures traces { Traces
        (outside (change K.faults K.contents sink.old sink.new)
        (change F.faults F.contents pages.old pages.new))
        (loaded_seen programs.now) input.items schedule.now (said_tracing tracing.now)
        (said_options options.now) result }
    ensures failed { Admits (F.faults pages.old) (F.faults pages.new) Status.PageFault result }
{
    let Ok(plan) = plan_of(alloc, tracing) else {
        return refuse(Status::NoMemory, sink);
    };
    match prepare_run(alloc, programs, input, schedule, options) {
        Ok((machine, schedule, room)) => {
            let limits = Limits {
                steps: options.steps,
                turns: options.turns,
                listed: false,
            };
            trace(machine, &limits, &schedule, plan, room, sink, pages)
        }
        Err(status) => refuse(status, sink),
    }
}
