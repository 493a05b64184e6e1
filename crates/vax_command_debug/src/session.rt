//! Holds sessions with a debugger on programs.
ghost use Rattle.std.specs.Prelude.{◌≡◌, ◌≤◌, ◌<◌, ◌^◌, ◌-◌, ℕ, [], length, None, IfErr, IfOk, IfSome};
ghost use Rattle.vax_outside.specs.Channels.{append, only, removed};
ghost use Rattle.vax_outside.specs.declared.traits.Chan.TheVariants.{Report};
ghost use Rattle.vax_flat.specs.Parts.{Place};
ghost use Rattle.vax_flat.specs.Step.{Flat};
ghost use Rattle.vax_machine.specs.Console.{IsBetween};
ghost use Rattle.vax_machine.specs.Machine.{Means};
ghost use Rattle.vax_image.specs.Start.{Start};
ghost use Rattle.vax_machine.specs.Meaning.{engine};
ghost use Rattle.vax_console.specs.Transcript.{last_of};
ghost use Rattle.vax_debug_session.specs.Holding.{terms};
ghost use Rattle.vax_cli.specs.Said.{AreWithin, options as said_options};
ghost use Rattle.vax_command.specs.Around.{change, outside, seen_of};
ghost use Rattle.vax_command.specs.Ends.{Admits, Ends, EndsSo};
ghost use Rattle.vax_command.specs.Fresh.{IsFresh, machine_report};
ghost use Rattle.vax_command.specs.Loaded.{AreSound, loaded_seen};
ghost use Rattle.vax_command.specs.Reading.{file_limit, large_limit};
ghost use Rattle.vax_command.specs.Saving.{AnswersSave};
ghost use Rattle.vax_command_debug.specs.Course.{RunFrom, SavesBy, Went};
ghost use Rattle.vax_command_debug.specs.Debugging.{Debugged, given};
ghost use Rattle.vax_command_debug.specs.Restarting.{GoesAnew, IsReadyAnew, IsRefusedAnew, hears};

use std::alloc::Global;
use vax_cli::Options;
use vax_command::{
    Programs, Status, begin, prepare, refuse, remove_and_report, report, save_and_report,
};
use vax_debug_names::Legend;
use vax_debug_session::{Plan, SessionEnd, Setting, hold};
use vax_flat::Ending;
use vax_input::Lines;
use vax_machine::{Limits, Machine};
use vax_outside::{Chan, Failed, PageFile, Sink, put_all};
use vax_report::Last;

/// A program that is debugged, and what its session is given.
#[derive(Drop)]
pub struct Debuggee<'a> {
    pub programs: &'a Programs,
    /// What it is told by.
    pub legend: &'a Legend<'a>,
    /// The console's input.
    pub input: Vec<u8>,
    /// The text of the schedule.
    pub schedule: &'a [u8],
    /// Whether a prompt stands before each line.
    pub prompts: bool,
}

/// How a machine ended, else that it stands.
fn last_of(ended: Option<Ending>) -> Last
    ensures { result ≡ last_of ended }
{
    match ended {
        Some(ending) => Last::Ending(ending),
        None => Last::Steps,
    }
}

/// Writes the report on a machine that stands between two lines, and answers so.
fn report_here<K: Sink>(machine: &Machine, meant: Status, sink: &mut K) -> Status
    ensures { Ends (change K.faults K.contents sink.old sink.new) meant
        (only Report (machine_report (engine machine.now) (last_of (engine machine.now).ended) []))
        result }
{
    report(machine, last_of(machine.ended()), &[], meant, sink)
}

/// Removes an older state where a machine has ended, and writes the report on it.
fn remove_here<K: Sink>(machine: &Machine, sink: &mut K) -> Status
    ensures { Ends (change K.faults K.contents sink.old sink.new) Status.Done
        (append removed
        (only Report (machine_report (engine machine.now) (last_of (engine machine.now).ended) [])))
        result }
{
    remove_and_report(machine, last_of(machine.ended()), sink)
}

/// Saves the state of a machine that stands between two lines, or removes an older one if it has ended, and writes the report on it.
fn save_here<K: Sink, F: PageFile>(machine: Machine, sink: &mut K, pages: &mut F) -> Status
    ensures saves { (place : Place) → Means (engine machine) (F.contents pages.old) place →
        EndsSo (change K.faults K.contents sink.old sink.new)
        (SavesBy (engine machine).ended (change F.faults F.contents pages.old pages.new)
        (engine machine) place) result }
    ensures answers { EndsSo (change K.faults K.contents sink.old sink.new)
        (AnswersSave (change F.faults F.contents pages.old pages.new) Status.Done) result }
    ensures failed { Admits (F.faults pages.old) (F.faults pages.new) Status.PageFault result }
{
    match machine.ended() {
        None => save_and_report(machine, Last::Steps, Status::Done, sink, pages),
        Some(_) => remove_here(&machine, sink),
    }
}

/// Holds a run of a session on a machine, and writes the report at its end. None where its last line asks for the program at its start: nothing is written for
/// that line.
fn hold_run<L: Lines, K: Sink, F: PageFile>(
    machine: Machine,
    prompts: bool,
    setting: &Setting<'_>,
    breaks: &mut Plan,
    lines: &mut L,
    sink: &mut K,
    pages: &mut F,
) -> Option<Status>
    requires few_turns { setting.now.limits.now.turns < 2 ^ 64 - 2 }
    requires between { IsBetween (engine machine) }
    ensures went { IfSome result (λ status.
        (frames : ℕ) → (m : Flat) → IsFresh (engine machine) frames m →
        EndsSo (change K.faults K.contents sink.old sink.new)
        (RunFrom (F.contents pages.old)
        (outside (change K.faults K.contents sink.old sink.new)
        (change F.faults F.contents pages.old pages.new))
        (change L.faults L.rest lines.old lines.new)
        m (terms setting.now.limits.now setting.now.legend.now prompts) breaks.old) status) }
    ensures again { result ≡ None →
        GoesAnew (terms setting.now.limits.now setting.now.legend.now prompts)
        breaks.old breaks.new (engine machine)
        (hears (seen_of K.faults K.contents sink.old) (seen_of F.faults F.contents pages.old)
        (seen_of L.faults L.rest lines.old))
        (hears (seen_of K.faults K.contents sink.new) (seen_of F.faults F.contents pages.new)
        (seen_of L.faults L.rest lines.new)) }
    ensures failed { IfSome result (λ status.
        Admits (F.faults pages.old) (F.faults pages.new) Status.PageFault status) }
    ensures broken { IfSome result (λ status.
        Admits (L.faults lines.old) (L.faults lines.new) Status.LineFault status) }
{
    let mut machine = machine;
    match hold(lines, prompts, setting, breaks, &mut machine, pages, sink) {
        SessionEnd::Restart => None,
        SessionEnd::Quit => Some(report_here(&machine, Status::Done, sink)),
        SessionEnd::Save => Some(save_here(machine, sink, pages)),
        SessionEnd::Read => Some(report_here(&machine, Status::Done, sink)),
        SessionEnd::Lines => Some(report_here(&machine, Status::Done, sink)),
        SessionEnd::Turns => Some(report(&machine, Last::Turns, &[], Status::Turns, sink)),
        SessionEnd::PageFault => {
            Some(report(&machine, Last::PageFault, &[], Status::PageFault, sink))
        }
        SessionEnd::WriteFault => Some(Status::WriteFault),
        SessionEnd::LineFault => Some(report_here(&machine, Status::LineFault, sink)),
    }
}

/// What each start of a program is made of.
#[derive(Drop)]
struct Beginning<'a> {
    programs: &'a Programs,
    input: &'a [u8],
    frames: u32,
}

/// A machine at the start of a program; none where memory is refused for it.
fn start_anew(alloc: Global, beginning: &Beginning<'_>) -> Option<Machine>
    requires sound { AreSound beginning.now.programs.now }
    requires input { length beginning.now.input.now ≤ file_limit }
    requires some { 64 ≤ beginning.now.frames }
    requires few { beginning.now.frames ≤ 32768 }
    ensures fresh { IfSome result (λ machine. IsFresh (engine machine) beginning.now.frames
        (Start beginning.now.programs.now.system beginning.now.programs.now.user
        beginning.now.input.now)) }
    ensures between { IfSome result (λ machine. IsBetween (engine machine)) }
{
    let Ok(input) = beginning.input.to_vec(alloc) else {
        return None;
    };
    match begin(alloc, beginning.programs, input, beginning.frames) {
        Ok(machine) => Some(machine),
        Err(_) => None,
    }
}

/// Begins a program anew, and replies so. Where memory is refused for it, nothing is written.
fn begin_anew<K: Sink>(
    alloc: Global,
    beginning: &Beginning<'_>,
    sink: &mut K,
) -> Result<Machine, Status>
    requires sound { AreSound beginning.now.programs.now }
    requires input { length beginning.now.input.now ≤ file_limit }
    requires some { 64 ≤ beginning.now.frames }
    requires few { beginning.now.frames ≤ 32768 }
    ensures fresh { IfOk result (λ machine. IsFresh (engine machine) beginning.now.frames
        (Start beginning.now.programs.now.system beginning.now.programs.now.user
        beginning.now.input.now)) }
    ensures between { IfOk result (λ machine. IsBetween (engine machine)) }
    ensures ready { IfOk result (λ machine. IsReadyAnew
        (seen_of K.faults K.contents sink.old) (seen_of K.faults K.contents sink.new)) }
    ensures refused { IfErr result (λ status. IsRefusedAnew
        (seen_of K.faults K.contents sink.old) (seen_of K.faults K.contents sink.new) status) }
{
    match start_anew(alloc, beginning) {
        Some(machine) => match put_all(sink, Chan::Report, b"OK\n") {
            Ok(()) => Ok(machine),
            Err(Failed) => Err(Status::WriteFault),
        },
        None => Err(Status::Unfinished),
    }
}

/// Holds a session on a machine at the start of its program, run by run, and writes the report at its end.
fn hold_session<L: Lines, K: Sink, F: PageFile>(
    alloc: Global,
    beginning: &Beginning<'_>,
    machine: Machine,
    prompts: bool,
    setting: &Setting<'_>,
    lines: &mut L,
    sink: &mut K,
    pages: &mut F,
) -> Status
    requires few_turns { setting.now.limits.now.turns < 2 ^ 64 - 2 }
    requires sound { AreSound beginning.now.programs.now }
    requires input { length beginning.now.input.now ≤ file_limit }
    requires some { 64 ≤ beginning.now.frames }
    requires few { beginning.now.frames ≤ 32768 }
    requires fresh { IsFresh (engine machine) beginning.now.frames
        (Start beginning.now.programs.now.system beginning.now.programs.now.user
        beginning.now.input.now) }
    requires between { IsBetween (engine machine) }
    ensures went { EndsSo (change K.faults K.contents sink.old sink.new)
        (Went
        (outside (change K.faults K.contents sink.old sink.new)
        (change F.faults F.contents pages.old pages.new))
        (change L.faults L.rest lines.old lines.new)
        (Start beginning.now.programs.now.system beginning.now.programs.now.user
        beginning.now.input.now)
        (terms setting.now.limits.now setting.now.legend.now prompts)) result }
    ensures failed { Admits (F.faults pages.old) (F.faults pages.new) Status.PageFault result }
    ensures broken { Admits (L.faults lines.old) (L.faults lines.new) Status.LineFault result }
{
    let mut machine = machine;
    let mut breaks = Plan::new();
    for _ in 0..u64::MAX {
        match hold_run(machine, prompts, setting, &mut breaks, lines, sink, pages) {
            Some(status) => return status,
            None => {}
        }
        match begin_anew(alloc, beginning, sink) {
            Ok(anew) => machine = anew,
            Err(status) => return status,
        }
    }
    report_here(&machine, Status::Done, sink)
}

/// Holds a session with a debugger on programs, as far as the options let them go. Its lines are taken one at a time, and each is answered before the next is
/// taken.
///
/// A schedule with a fault is refused before any line is taken and any call of the page file is made. The session writes the replies to Report and what the program sends
/// to Out; at its end the report of the machine's state comes behind, also where the limit of turns is reached, or a call of the page file or the read of a line
/// fails.
///
/// Behind a line that asks for it the program begins anew: the same image with the same input, its schedule and its count of steps from their beginning, on another machine. Where steps
/// stop and what is watched stays. Where memory is refused for it the session ends, and no report is written.
pub fn debug_programs<L: Lines, K: Sink, F: PageFile>(
    alloc: Global,
    debuggee: Debuggee<'_>,
    options: &Options<'_>,
    lines: &mut L,
    sink: &mut K,
    pages: &mut F,
) -> Status
    requires sound { AreSound debuggee.programs.now }
    requires input { length debuggee.input.items ≤ file_limit }
    requires schedule { length debuggee.schedule.now ≤ large_limit }
    requires within { AreWithin (said_options options.now) }
    ensures debugged { Debugged
        (outside (change K.faults K.contents sink.old sink.new)
        (change F.faults F.contents pages.old pages.new))
        (change L.faults L.rest lines.old lines.new)
        (loaded_seen debuggee.entry.programs.now)
        (given debuggee.entry.input.items debuggee.entry.schedule.now
        debuggee.entry.legend.now debuggee.entry.prompts)
        (said_options options.now) result }
    ensures failed { Admits (F.faults pages.old) (F.faults pages.new) Status.PageFault result }
    ensures broken { Admits (L.faults lines.old) (L.faults lines.new) Status.LineFault result }
{
    let Debuggee {
        programs,
        legend,
        input,
        schedule,
        prompts,
    } = debuggee;
    let Ok(first) = input.to_vec(alloc) else {
        return refuse(Status::NoMemory, sink);
    };
    match prepare(alloc, programs, first, schedule, options.frames) {
        Ok((machine, schedule)) => {
            let limits = Limits {
                steps: options.steps,
                turns: options.turns,
                listed: false,
            };
            let setting = Setting {
                legend,
                limits: &limits,
                schedule: &schedule,
            };
            let beginning = Beginning {
                programs,
                input: &input,
                frames: options.frames,
            };
            hold_session(
                alloc, &beginning, machine, prompts, &setting, lines, sink, pages,
            )
        }
        Err(status) => refuse(status, sink),
    }
}
