//! Goes on with runs whose states were saved.
ghost use Rattle.std.specs.Prelude.{◌≡◌, ◌⊎◌, ◌≤◌, ◌^◌, [], None, IfErr, IfOk, length};
ghost use Rattle.vax_space.specs.Faults.{IsSpace};
ghost use Rattle.vax_machine.specs.Machine.{keeping};
ghost use Rattle.vax_machine.specs.Meaning.{engine};
ghost use Rattle.vax_sched.specs.Faults.{Denotes};
ghost use Rattle.vax_save.specs.Restored.{HasRestored};
ghost use Rattle.vax_cli.specs.Said.{AreWithin, options as said_options};
ghost use Rattle.vax_command.specs.Around.{change, outside};
ghost use Rattle.vax_command.specs.Ends.{Admits};
ghost use Rattle.vax_command.specs.Reading.{ReadsOnly, large_limit};
ghost use Rattle.vax_command.specs.ReadingView.{given_seen};
ghost use Rattle.vax_command.specs.Resuming.{HasResumed, IsUnfit};
ghost use Rattle.vax_command.specs.Room.{items_of};
ghost use Rattle.vax_command.specs.Wanting.{HasSaved, WantedEnds, resumed_files, saved_limit};

use crate::dump::{Room, reserve};
use crate::load::{Given, load_options, load_within};
use crate::refusal::refuse;
use crate::run::{Telling, execute, plan};
use crate::status::Status;
use std::alloc::Global;
use vax_cli::{Options, Strictness};
use vax_machine::{Limits, Machine};
use vax_outside::{Files, PageFile, Sink};
use vax_save::{SaveError, restore};
use vax_sched::Schedule;

/// The most bytes of the file of a saved state.
const SAVED_LIMIT: u32 = 67_108_864;

/// Reads the file of a saved state, and then those of a run's options.
pub fn load_saved<S: Files>(
    alloc: Global,
    name: &str,
    options: &Options<'_>,
    files: &mut S,
) -> Result<(Vec<u8>, Given), Status>
    ensures only { ReadsOnly (change S.faults S.contents files.old files.new) result }
    ensures saved { IfOk result (λ r. length r.0.items ≤ saved_limit) }
    ensures schedule { IfOk result (λ r. length r.1.schedule.items ≤ large_limit) }
    ensures ok { IfOk result (λ r. HasSaved (S.contents files.old) name.now
        (said_options options.now) r.0.items (given_seen [] r.1)) }
    ensures ends { IfErr result (λ status. WantedEnds
        (change S.faults S.contents files.old files.new)
        (resumed_files name.now (said_options options.now)) status) }
{
    let saved = load_within(alloc, name, SAVED_LIMIT, files)?;
    let given = load_options(alloc, options, None, files)?;
    Ok((saved, given))
}

/// A machine at a saved state, with so many frames, and the schedule of a text for its areas. The error is the answer to the first fault of the state, else
/// of the schedule, or want of memory.
fn revive(
    alloc: Global,
    saved: &[u8],
    schedule: &[u8],
    frames: u32,
) -> Result<(Machine, Schedule), Status>
    requires saved { length saved.now ≤ saved_limit }
    requires schedule { length schedule.now ≤ large_limit }
    requires some { 64 ≤ frames }
    requires few { frames ≤ 32768 }
    ensures restored { IfOk result (λ r. HasRestored saved.now frames (engine r.0)) }
    ensures counted { IfOk result (λ r. (engine r.0).steps ≤ 10 ^ 18) }
    ensures space { IfOk result (λ r. IsSpace (keeping (engine r.0)).areas) }
    ensures planned { IfOk result (λ r.
        Denotes (keeping (engine r.0)).areas schedule.now r.1) }
    ensures fault { IfErr result (λ status.
        IsUnfit saved.now schedule.now status ⊎ (status ≡ Status.NoMemory)) }
{
    let machine = match restore(alloc, saved, frames) {
        Ok(machine) => machine,
        Err(SaveError::Fault { place, kind }) => return Err(Status::Saved { place, kind }),
        Err(SaveError::NoMemory) => return Err(Status::NoMemory),
    };
    match plan(alloc, schedule, machine.space()) {
        Ok(schedule) => Ok((machine, schedule)),
        Err(status) => Err(status),
    }
}

/// The same, and room for the memory that the report is to show.
fn revive_run(
    alloc: Global,
    saved: &[u8],
    schedule: &[u8],
    options: &Options<'_>,
) -> Result<(Machine, Schedule, Room), Status>
    requires saved { length saved.now ≤ saved_limit }
    requires schedule { length schedule.now ≤ large_limit }
    requires within { AreWithin (said_options options.now) }
    ensures restored { IfOk result (λ r. HasRestored saved.now options.now.frames (engine r.0)) }
    ensures counted { IfOk result (λ r. (engine r.0).steps ≤ 10 ^ 18) }
    ensures space { IfOk result (λ r. IsSpace (keeping (engine r.0)).areas) }
    ensures planned { IfOk result (λ r.
        Denotes (keeping (engine r.0)).areas schedule.now r.1) }
    ensures room { IfOk result (λ r. items_of r.2.blanks.items ≡ (said_options options.now).dumps) }
    ensures fault { IfErr result (λ status.
        IsUnfit saved.now schedule.now status ⊎ (status ≡ Status.NoMemory)) }
{
    let (machine, schedule) = revive(alloc, saved, schedule, options.frames)?;
    match reserve(alloc, options.dumps.as_slice()) {
        Ok(room) => Ok((machine, schedule, room)),
        Err(_) => Err(Status::NoMemory),
    }
}

/// Goes on from a saved state under a schedule, as far as the options let the run go: `steps` is how many steps it may make. They are counted on from those
/// of the state, and the attempts anew. Nothing is resident at first.
pub fn resume_run<K: Sink, F: PageFile>(
    alloc: Global,
    saved: &[u8],
    schedule: &[u8],
    options: &Options<'_>,
    sink: &mut K,
    pages: &mut F,
) -> Status
    requires saved { length saved.now ≤ saved_limit }
    requires schedule { length schedule.now ≤ large_limit }
    requires within { AreWithin (said_options options.now) }
    ensures resumed { HasResumed
        (outside (change K.faults K.contents sink.old sink.new)
        (change F.faults F.contents pages.old pages.new))
        saved.now schedule.now (said_options options.now) result }
    ensures failed { Admits (F.faults pages.old) (F.faults pages.new) Status.PageFault result }
{
    match revive_run(alloc, saved, schedule, options) {
        Ok((machine, schedule, room)) => {
            let limits = Limits {
                steps: machine.steps() + options.steps,
                turns: options.turns,
                listed: false,
            };
            let telling = Telling {
                room,
                strict: Strictness::Off,
            };
            execute(machine, &limits, &schedule, telling, sink, pages)
        }
        Err(status) => refuse(status, sink),
    }
}
