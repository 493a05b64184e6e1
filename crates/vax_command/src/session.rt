//! Holds sessions of the console on programs.

ghost use Rattle.std.specs.Prelude.{◌≤◌, ◌<◌, ◌^◌, ◌-◌, ℕ, length};
ghost use Rattle.vax_flat.specs.Step.{Flat};
ghost use Rattle.vax_machine.specs.Console.{IsBetween};
ghost use Rattle.vax_machine.specs.Machine.{keeping};
ghost use Rattle.vax_machine.specs.Meaning.{engine};
ghost use Rattle.vax_script.specs.Requests.{readings};
ghost use Rattle.vax_console.specs.Turns.{setting};
ghost use Rattle.vax_cli.specs.Said.{AreWithin, options as said_options};
ghost use Rattle.vax_command.specs.Reading.{file_limit, large_limit};
ghost use Rattle.vax_command.specs.Fresh.{IsFresh};
ghost use Rattle.vax_command.specs.Loaded.{AreSound, loaded_seen};
ghost use Rattle.vax_command.specs.Around.{change, outside};
ghost use Rattle.vax_command.specs.Ends.{Admits, EndsSo};
ghost use Rattle.vax_command.specs.Holding.{Held};
ghost use Rattle.vax_command.specs.SessionWent.{SessionWent, opening_of};

use crate::programs::Programs;
use crate::refusal::refuse;
use crate::run::{prepare, report};
use crate::status::Status;
use std::alloc::Global;
use vax_cli::Options;
use vax_console::{SessionEnd, session};
use vax_machine::{Limits, Machine};
use vax_outside::{PageFile, Sink};
use vax_report::Last;
use vax_sched::Schedule;

/// Holds a session on a machine under a schedule, and writes its report where the session breaks off.
fn hold<K: Sink, F: PageFile>(
    machine: Machine,
    script: &[u8],
    limits: &Limits,
    schedule: &Schedule,
    sink: &mut K,
    pages: &mut F,
) -> Status
    requires few_turns { limits.now.turns < 2 ^ 64 - 2 }
    requires between { IsBetween (engine machine) }
    ensures went { (frames : ℕ) → (m : Flat) → IsFresh (engine machine) frames m →
        EndsSo (change K.faults K.contents sink.old sink.new)
        (SessionWent
        (outside (change K.faults K.contents sink.old sink.new)
        (change F.faults F.contents pages.old pages.new))
        (opening_of frames m (setting limits.now (keeping (engine machine)).areas schedule.now)
        (readings script.now)))
        result }
    ensures failed { Admits (F.faults pages.old) (F.faults pages.new) Status.PageFault result }
{
    let mut machine = machine;
    match session(script, &mut machine, limits, schedule, pages, sink) {
        SessionEnd::Read => Status::Done,
        SessionEnd::Turns => report(&machine, Last::Turns, &[], Status::Turns, sink),
        SessionEnd::PageFault => report(&machine, Last::PageFault, &[], Status::PageFault, sink),
        SessionEnd::WriteFault => Status::WriteFault,
    }
}

/// Holds a session on programs with their input under a schedule, as a script says and as far as the options let them go.
///
/// A schedule with a fault is refused before any call of the page file. The session writes the replies to Report and what the program sends to Out;
/// where it breaks off, at the limit of turns or a failed call of the page file, the report of the machine's state comes behind. Where no rule makes
/// pages absent, the limit of turns breaks it off only if it is few for the parts of the steps that were made.
pub fn hold_session<K: Sink, F: PageFile>(
    alloc: Global,
    programs: &Programs,
    input: Vec<u8>,
    schedule: &[u8],
    script: &[u8],
    options: &Options<'_>,
    sink: &mut K,
    pages: &mut F,
) -> Status
    requires sound { AreSound programs.now }
    requires input { length input.items ≤ file_limit }
    requires schedule { length schedule.now ≤ large_limit }
    requires within { AreWithin (said_options options.now) }
    ensures held { Held
        (outside (change K.faults K.contents sink.old sink.new)
        (change F.faults F.contents pages.old pages.new))
        (loaded_seen programs.now) input.items schedule.now script.now
        (said_options options.now) result }
    ensures failed { Admits (F.faults pages.old) (F.faults pages.new) Status.PageFault result }
{
    match prepare(alloc, programs, input, schedule, options.frames) {
        Ok((machine, schedule)) => {
            let limits = Limits {
                steps: options.steps,
                turns: options.turns,
                listed: false,
            };
            hold(machine, script, &limits, &schedule, sink, pages)
        }
        Err(status) => refuse(status, sink),
    }
}
