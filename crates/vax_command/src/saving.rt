//! Saves the states of runs that a limit stops.
ghost use Rattle.std.specs.Prelude.{◌≡◌, ◌≤◌, ◌<◌, ◌^◌, ◌-◌, ℕ, [], false, length};
ghost use Rattle.vax_outside.specs.Channels.{append, only, removed};
ghost use Rattle.vax_outside.specs.declared.traits.Chan.TheVariants.{Report};
ghost use Rattle.vax_flat.specs.Parts.{Place};
ghost use Rattle.vax_flat.specs.Step.{Flat};
ghost use Rattle.vax_pager.specs.Poking.{OnlyRead};
ghost use Rattle.vax_machine.specs.Machine.{Means, keeping};
ghost use Rattle.vax_machine.specs.Meaning.{engine};
ghost use Rattle.vax_cli.specs.Said.{AreWithin, options as said_options};
ghost use Rattle.vax_command.specs.Around.{change, outside};
ghost use Rattle.vax_command.specs.Ends.{Admits, Ends, EndsSo};
ghost use Rattle.vax_command.specs.Fresh.{IsFresh, machine_report};
ghost use Rattle.vax_command.specs.Loaded.{AreSound, loaded_seen};
ghost use Rattle.vax_command.specs.Reading.{file_limit, large_limit};
ghost use Rattle.vax_command.specs.Saving.{AnswersSave, HasSavedRun, SaveWent, SavesAt};
ghost use Rattle.vax_cli.specs.declared.command.Strictness.TheVariants.{Off};

use crate::programs::Programs;
use crate::refusal::refuse;
use crate::run::{prepare, report};
use crate::status::Status;
use std::alloc::Global;
use vax_cli::Options;
use vax_machine::{Limits, Machine, RunEnd};
use vax_outside::{Failed, PageFile, Sink};
use vax_report::Last;
use vax_save::{SaveEnd, save};
use vax_sched::Schedule;

/// Saves the state of a machine, and writes the report on it. If a call of the page file fails, a part of the state is written and not kept, and the report says so.
pub fn save_and_report<K: Sink, F: PageFile>(
    machine: Machine,
    last: Last,
    meant: Status,
    sink: &mut K,
    pages: &mut F,
) -> Status
    ensures saves { (place : Place) → Means (engine machine) (F.contents pages.old) place →
        EndsSo (change K.faults K.contents sink.old sink.new)
        (SavesAt (change F.faults F.contents pages.old pages.new) (engine machine) place last meant)
        result }
    ensures answers { EndsSo (change K.faults K.contents sink.old sink.new)
        (AnswersSave (change F.faults F.contents pages.old pages.new) meant) result }
    ensures reads { OnlyRead (F.contents pages.old) (F.contents pages.new) }
    ensures failed { Admits (F.faults pages.old) (F.faults pages.new) Status.PageFault result }
{
    let mut machine = machine;
    match save(&mut machine, pages, sink) {
        SaveEnd::Written => report(&machine, last, &[], meant, sink),
        SaveEnd::PageFault => report(&machine, Last::PageFault, &[], Status::PageFault, sink),
        SaveEnd::WriteFault => Status::WriteFault,
    }
}

/// Removes an older state, since a run that has ended has none, and writes the report on the machine.
pub fn remove_and_report<K: Sink>(machine: &Machine, last: Last, sink: &mut K) -> Status
    ensures { Ends (change K.faults K.contents sink.old sink.new) Status.Done
        (append removed (only Report (machine_report (engine machine.now) last []))) result }
{
    match sink.remove_state() {
        Ok(()) => report(machine, last, &[], Status::Done, sink),
        Err(Failed) => Status::WriteFault,
    }
}

/// Runs a machine under a schedule, saves its state if a limit stops it, and writes the report.
fn execute_and_save<K: Sink, F: PageFile>(
    machine: Machine,
    limits: &Limits,
    schedule: &Schedule,
    sink: &mut K,
    pages: &mut F,
) -> Status
    requires few_steps { limits.now.steps < 2 ^ 64 }
    requires few_turns { limits.now.turns < 2 ^ 64 - 2 }
    requires unlisted { limits.now.listed ≡ false }
    ensures went { (frames : ℕ) → (m : Flat) → IsFresh (engine machine) frames m →
        EndsSo (change K.faults K.contents sink.old sink.new)
        (SaveWent (outside (change K.faults K.contents sink.old sink.new)
        (change F.faults F.contents pages.old pages.new))
        (record {
          limits = limits.now;
          areas = (keeping (engine machine)).areas;
          rules = schedule.now;
          frames = frames;
          start = m;
          items = [];
          strict = Off;
        }))
        result }
    ensures failed { Admits (F.faults pages.old) (F.faults pages.new) Status.PageFault result }
{
    let mut machine = machine;
    match machine.run(limits, schedule, pages, sink) {
        RunEnd::Ended(ending) => remove_and_report(&machine, Last::Ending(ending), sink),
        RunEnd::Steps => save_and_report(machine, Last::Steps, Status::Done, sink, pages),
        RunEnd::Turns => save_and_report(machine, Last::Turns, Status::Turns, sink, pages),
        RunEnd::PageFault => report(&machine, Last::PageFault, &[], Status::PageFault, sink),
        RunEnd::WriteFault => Status::WriteFault,
    }
}

/// Runs programs with their input under a schedule, as far as the options let them go, and saves their state if one of these limits stops them. If the run ends
/// instead, an older state is removed.
/// The report, which comes behind, and what the program sends are those of a run that isn't saved.
pub fn save_run<K: Sink, F: PageFile>(
    alloc: Global,
    programs: &Programs,
    input: Vec<u8>,
    schedule: &[u8],
    options: &Options<'_>,
    sink: &mut K,
    pages: &mut F,
) -> Status
    requires sound { AreSound programs.now }
    requires input { length input.items ≤ file_limit }
    requires schedule { length schedule.now ≤ large_limit }
    requires within { AreWithin (said_options options.now) }
    ensures saved { HasSavedRun
        (outside (change K.faults K.contents sink.old sink.new)
        (change F.faults F.contents pages.old pages.new))
        (loaded_seen programs.now) input.items schedule.now (said_options options.now) result }
    ensures failed { Admits (F.faults pages.old) (F.faults pages.new) Status.PageFault result }
{
    match prepare(alloc, programs, input, schedule, options.frames) {
        Ok((machine, schedule)) => {
            let limits = Limits {
                steps: options.steps,
                turns: options.turns,
                listed: false,
            };
            execute_and_save(machine, &limits, &schedule, sink, pages)
        }
        Err(status) => refuse(status, sink),
    }
}
