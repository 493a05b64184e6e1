//! Runs a program: makes a machine and its schedule, runs it, and reports.
ghost use Rattle.std.specs.Prelude.{◌≡◌, ◌⊎◌, ◌≤◌, ◌<◌, ◌^◌, ◌-◌, [], Result, Ok, IfOk, IfErr, length};
ghost use Rattle.vax_outside.specs.Channels.{only};
ghost use Rattle.vax_outside.specs.declared.traits.Chan.TheVariants.{Report};
ghost use Rattle.vax_image.specs.Start.{Start, start_areas};
ghost use Rattle.vax_machine.specs.Meaning.{engine};
ghost use Rattle.vax_machine.specs.Machine.{keeping};
ghost use Rattle.vax_machine.specs.Paged.{Paged};
ghost use Rattle.vax_sched.specs.Faults.{Denotes};
ghost use Rattle.vax_cli.specs.Said.{AreWithin, options as said_options};
ghost use Rattle.vax_command.specs.Around.{change, outside};
ghost use Rattle.vax_command.specs.Ends.{Admits, Ends, EndsSo};
ghost use Rattle.vax_command.specs.Course.{IsReady, WentOn};
ghost use Rattle.vax_command.specs.Fresh.{IsPrepared, IsReported, machine_report};
ghost use Rattle.vax_command.specs.Loaded.{AreSound, loaded_seen};
ghost use Rattle.vax_command.specs.Reading.{file_limit, large_limit};
ghost use Rattle.vax_command.specs.Running.{IsFaulty, Ran};
ghost use Rattle.vax_command.specs.Room.{ReadsFor, items_of};
ghost use Rattle.vax_command.specs.Went.{limits_of};

use crate::answer::{answer_ended, answer_unhalted};
use crate::dump::{Room, fill, reserve};
use crate::programs::Programs;
use crate::refusal::refuse;
use crate::status::Status;
use std::alloc::Global;
use vax_cli::{Options, Strictness};
use vax_image::start;
use vax_machine::{Limits, Machine, RunEnd};
use vax_outside::{Failed, PageFile, Sink};
use vax_pager::PageFault;
use vax_report::{Dump, Last, write_report};
use vax_sched::{SchedError, Schedule, read};
use vax_space::{NoMemory, Space};

/// Writes the report on a machine, with the memory that it is to show, and answers so.
pub fn report<K: Sink>(
    machine: &Machine,
    last: Last,
    dumps: &[Dump],
    meant: Status,
    sink: &mut K,
) -> Status
    ensures { Ends (change K.faults K.contents sink.old sink.new)
        meant (only Report (machine_report (engine machine.now) last dumps.now)) result }
{
    let written = write_report(
        machine.core(),
        last,
        machine.steps(),
        machine.units(),
        machine.taken(),
        dumps,
        sink,
    );
    match written {
        Ok(()) => meant,
        Err(Failed) => Status::WriteFault,
    }
}

/// Reads the memory for which there is room, and writes the report on a machine that stopped.
pub(crate) fn report_all<K: Sink, F: PageFile>(
    machine: Machine,
    last: Last,
    room: Room,
    meant: Status,
    sink: &mut K,
    pages: &mut F,
) -> Status
    ensures reported { EndsSo (change K.faults K.contents sink.old sink.new)
        (IsReported (change F.faults F.contents pages.old pages.new)
        (engine machine) last meant (items_of room.blanks.items)) result }
    ensures reads { ReadsFor (items_of room.blanks.items) (F.contents pages.old)
        (F.contents pages.new) }
    ensures unread { items_of room.blanks.items ≡ [] → F.contents pages.new ≡ F.contents pages.old }
    ensures later { (F.faults pages.old).count ≤ (F.faults pages.new).count }
    ensures failed { Admits (F.faults pages.old) (F.faults pages.new) Status.PageFault result }
{
    let mut machine = machine;
    match fill(&mut machine, room, pages) {
        Ok(dumps) => report(&machine, last, &dumps, meant, sink),
        Err(PageFault) => report(&machine, Last::PageFault, &[], Status::PageFault, sink),
    }
}

/// What is asked for beside a run: the memory for its report, and what its answer tells of its end.
#[derive(Drop)]
pub(crate) struct Telling {
    pub(crate) room: Room,
    pub(crate) strict: Strictness,
}

/// Runs a machine under a schedule from whatever place it stands for, and writes the report.
pub(crate) fn execute<K: Sink, F: PageFile>(
    machine: Machine,
    limits: &Limits,
    schedule: &Schedule,
    telling: Telling,
    sink: &mut K,
    pages: &mut F,
) -> Status
    requires few_steps { limits.now.steps < 2 ^ 64 }
    requires few_turns { limits.now.turns < 2 ^ 64 - 2 }
    ensures went { (b : Paged) → IsReady (engine machine) b →
        EndsSo (change K.faults K.contents sink.old sink.new)
        (WentOn (outside (change K.faults K.contents sink.old sink.new)
        (change F.faults F.contents pages.old pages.new))
        (record {
          limits = limits.now;
          areas = (keeping (engine machine)).areas;
          rules = schedule.now;
          begins = b;
          items = items_of telling.room.blanks.items;
          strict = telling.strict;
        }))
        result }
    ensures failed { Admits (F.faults pages.old) (F.faults pages.new) Status.PageFault result }
{
    let Telling { room, strict } = telling;
    let mut machine = machine;
    match machine.run(limits, schedule, pages, sink) {
        RunEnd::Ended(ending) => {
            let meant = answer_ended(strict, ending, machine.core());
            report_all(machine, Last::Ending(ending), room, meant, sink, pages)
        }
        RunEnd::Steps => {
            let meant = answer_unhalted(strict);
            report_all(machine, Last::Steps, room, meant, sink, pages)
        }
        RunEnd::Turns => report_all(machine, Last::Turns, room, Status::Turns, sink, pages),
        RunEnd::PageFault => report(&machine, Last::PageFault, &[], Status::PageFault, sink),
        RunEnd::WriteFault => Status::WriteFault,
    }
}

/// The schedule of a text, or the answer to its first fault.
pub(crate) fn plan(alloc: Global, text: &[u8], space: &Space) -> Result<Schedule, Status>
    requires { length text.now ≤ large_limit }
    ensures planned { IfOk result (λ schedule. Denotes space.now text.now schedule) }
    ensures fault { IfErr result (λ status.
        IsFaulty space.now text.now status ⊎ (status ≡ Status.NoMemory)) }
{
    match read(alloc, text, space) {
        Ok(schedule) => Ok(schedule),
        Err(SchedError::Fault { line, kind }) => Err(Status::Schedule { line, kind }),
        Err(SchedError::NoMemory) => Err(Status::NoMemory),
    }
}

/// A machine at the start of programs, with so many frames, and the schedule of a text for its areas. The error is the answer to the schedule's
/// first fault, or want of memory.
pub fn prepare(
    alloc: Global,
    programs: &Programs,
    input: Vec<u8>,
    schedule: &[u8],
    frames: u32,
) -> Result<(Machine, Schedule), Status>
    requires sound { AreSound programs.now }
    requires input { length input.items ≤ file_limit }
    requires schedule { length schedule.now ≤ large_limit }
    requires some { 64 ≤ frames }
    requires few { frames ≤ 32768 }
    ensures prepared { IfOk result (λ r. IsPrepared (engine r.0) frames
        (Start programs.now.system programs.now.user input.items)
        (start_areas programs.now.system programs.now.user)) }
    ensures planned { IfOk result (λ r.
        Denotes (start_areas programs.now.system programs.now.user) schedule.now r.1) }
    ensures fault { IfErr result (λ status.
        IsFaulty (start_areas programs.now.system programs.now.user) schedule.now status
        ⊎ (status ≡ Status.NoMemory)) }
{
    let Ok((space, core)) = start(alloc, &programs.system, programs.user.as_ref()) else {
        return Err(Status::NoMemory);
    };
    let schedule = plan(alloc, schedule, &space)?;
    match Machine::new(alloc, space, core, input, frames) {
        Ok(machine) => Ok((machine, schedule)),
        Err(_) => Err(Status::NoMemory),
    }
}

/// A machine at the start of programs, with so many frames. The error is want of memory.
pub fn begin(
    alloc: Global,
    programs: &Programs,
    input: Vec<u8>,
    frames: u32,
) -> Result<Machine, NoMemory>
    requires sound { AreSound programs.now }
    requires input { length input.items ≤ file_limit }
    requires some { 64 ≤ frames }
    requires few { frames ≤ 32768 }
    ensures { IfOk result (λ machine. IsPrepared (engine machine) frames
        (Start programs.now.system programs.now.user input.items)
        (start_areas programs.now.system programs.now.user)) }
{
    let Ok((space, core)) = start(alloc, &programs.system, programs.user.as_ref()) else {
        return Err(NoMemory);
    };
    match Machine::new(alloc, space, core, input, frames) {
        Ok(machine) => Ok(machine),
        Err(_) => Err(NoMemory),
    }
}

/// The same with the schedule, and room for the memory that the report is to show.
pub(crate) fn prepare_run(
    alloc: Global,
    programs: &Programs,
    input: Vec<u8>,
    schedule: &[u8],
    options: &Options<'_>,
) -> Result<(Machine, Schedule, Room), Status>
    requires sound { AreSound programs.now }
    requires input { length input.items ≤ file_limit }
    requires schedule { length schedule.now ≤ large_limit }
    requires within { AreWithin (said_options options.now) }
    ensures prepared { IfOk result (λ r. IsPrepared (engine r.0) options.now.frames
        (Start programs.now.system programs.now.user input.items)
        (start_areas programs.now.system programs.now.user)) }
    ensures planned { IfOk result (λ r.
        Denotes (start_areas programs.now.system programs.now.user) schedule.now r.1) }
    ensures room { IfOk result (λ r. items_of r.2.blanks.items ≡ (said_options options.now).dumps) }
    ensures fault { IfErr result (λ status.
        IsFaulty (start_areas programs.now.system programs.now.user) schedule.now status
        ⊎ (status ≡ Status.NoMemory)) }
{
    let (machine, schedule) = prepare(alloc, programs, input, schedule, options.frames)?;
    match reserve(alloc, options.dumps.as_slice()) {
        Ok(room) => Ok((machine, schedule, room)),
        Err(_) => Err(Status::NoMemory),
    }
}

/// How far the options let a run go.
fn limits_of(options: &Options<'_>) -> Limits
    ensures { result ≡ limits_of (said_options options.now) }
{
    Limits {
        steps: options.steps,
        turns: options.turns,
        listed: options.recorded,
    }
}

/// Runs programs with their input under a schedule, as far as the options let them go.
pub fn run_programs<K: Sink, F: PageFile>(
    alloc: Global,
    programs: &Programs,
    input: Vec<u8>,
    schedule: &[u8],
    options: &Options<'_>,
    sink: &mut K,
    pages: &mut F,
) -> Status
    requires sound { AreSound programs.now }
    requires input { length input.items ≤ file_limit }
    requires schedule { length schedule.now ≤ large_limit }
    requires within { AreWithin (said_options options.now) }
    ensures ran { Ran
        (outside (change K.faults K.contents sink.old sink.new)
        (change F.faults F.contents pages.old pages.new))
        (loaded_seen programs.now) input.items schedule.now (said_options options.now) result }
    ensures failed { Admits (F.faults pages.old) (F.faults pages.new) Status.PageFault result }
{
    match prepare_run(alloc, programs, input, schedule, options) {
        Ok((machine, schedule, room)) => {
            let limits = limits_of(options);
            let telling = Telling {
                room,
                strict: options.strict,
            };
            execute(machine, &limits, &schedule, telling, sink, pages)
        }
        Err(status) => refuse(status, sink),
    }
}
