//! Where and why steps stopped.
ghost use Rattle.std.specs.Prelude.{◌≡◌, ◌==◌, ◌≤◌, ◌++◌, [], length, nat_le};
ghost use Rattle.std.specs.List.{list_any};
ghost use Rattle.vax_machine.specs.Meaning.{engine};
ghost use Rattle.vax_console.specs.Ends.{OnlyReplied, scene};
ghost use Rattle.vax_debug.specs.Sessions.{Counts};
ghost use Rattle.vax_debug.specs.Travel.{pc_of};
ghost use Rattle.vax_debug_replies.specs.Stops.{here, reason};
ghost use Rattle.vax_debug_acts.specs.Acting.{Replies, RepliesFrom};
ghost use Rattle.vax_debug_acts.specs.Acts.{changes, stop_reply, stop_text, why_stopped};

use crate::changes::{Sights, tell_all_changes};
use crate::reply::reply_with;
use vax_debug::{Breaks, Failure, Plan, Snapshot, examine, look};
use vax_debug_names::Legend;
use vax_debug_replies::{push_here, push_reason};
use vax_flat::Ending;
use vax_machine::{Limits, Machine};
use vax_outside::{PageFile, Sink, Text};
use vax_report::Last;
use vax_sched::Schedule;

/// What a machine is debugged under.
#[derive(Clone, Copy)]
pub struct Setting<'a> {
    /// What its program is told by.
    pub legend: &'a Legend<'a>,
    /// The limits of the whole session.
    pub limits: &'a Limits,
    /// When pages are made absent.
    pub schedule: &'a Schedule,
}

/// How many bytes an instruction may have.
const MOST: usize = 64;

/// Why a machine stands still, but that its steps were made.
fn why_stopped(ended: Option<Ending>, at_break: bool, at_limit: bool) -> Option<Last>
    ensures { result ≡ why_stopped ended at_break at_limit }
{
    match ended {
        Some(ending) => Some(Last::Ending(ending)),
        None if at_limit => Some(Last::Steps),
        None if at_break => Some(Last::Break),
        None => None,
    }
}

/// The program counter.
fn pc_of(machine: &Machine) -> u32
    ensures { result ≡ pc_of (engine machine.now).cpu.core }
{
    machine.core().regs[15]
}

/// Why this machine does.
fn why(breaks: &Breaks, limits: &Limits, machine: &Machine) -> Option<Last>
    ensures { result ≡ why_stopped (engine machine.now).ended
        (list_any (λ a. a == pc_of (engine machine.now).cpu.core) breaks.now)
        (nat_le limits.now.steps (engine machine.now).steps) }
{
    let at_break = breaks.has(pc_of(machine));
    let at_limit = limits.steps <= machine.steps();
    why_stopped(machine.ended(), at_break, at_limit)
}

/// Replies why steps stopped, if there is a reason but that they were made.
fn tell_reason<K: Sink>(last: Option<Last>, sink: &mut K) -> Result<(), Failure>
    ensures { Replies result (K.faults sink.old) (K.faults sink.new)
        (K.contents sink.old) (K.contents sink.new) (reason last) }
{
    let mut text = Text::new();
    push_reason(&mut text, last);
    reply_with(text.as_slice(), sink)
}

/// Replies where steps stopped.
fn tell_here<K: Sink>(
    legend: &Legend,
    address: u32,
    cells: &[Option<u8>],
    sink: &mut K,
) -> Result<(), Failure>
    requires { length cells.now ≤ 64 }
    ensures { Replies result (K.faults sink.old) (K.faults sink.new)
        (K.contents sink.old) (K.contents sink.new) (here legend.now address cells.now) }
{
    let mut text = Text::new();
    push_here(&mut text, legend, address, cells);
    reply_with(text.as_slice(), sink)
}

/// Replies which watched bytes were changed, and where steps stopped.
fn tell_changes_here<K: Sink>(
    legend: &Legend,
    seen: &Sights,
    address: u32,
    cells: &[Option<u8>],
    sink: &mut K,
) -> Result<(), Failure>
    requires { length cells.now ≤ 64 }
    ensures { Replies result (K.faults sink.old) (K.faults sink.new)
        (K.contents sink.old) (K.contents sink.new)
        (changes legend.now seen.now.before.now seen.now.after.now
        ++ here legend.now address cells.now) }
{
    match tell_all_changes(legend, seen, sink) {
        Ok(()) => tell_here(legend, address, cells, sink),
        Err(failure) => Err(failure),
    }
}

/// Where steps stopped: the address, and the bytes from there on.
#[derive(Clone, Copy)]
struct Here<'a> {
    address: u32,
    cells: &'a [Option<u8>],
}

/// Replies why steps stopped, which watched bytes were changed, and where it is.
fn reply_stop<K: Sink>(
    last: Option<Last>,
    legend: &Legend,
    seen: &Sights,
    place: &Here,
    sink: &mut K,
) -> Result<(), Failure>
    requires { length place.now.cells.now ≤ 64 }
    ensures { Replies result (K.faults sink.old) (K.faults sink.new)
        (K.contents sink.old) (K.contents sink.new)
        (reason last ++ changes legend.now seen.now.before.now seen.now.after.now
        ++ here legend.now place.now.address place.now.cells.now) }
{
    match tell_reason(last, sink) {
        Ok(()) => tell_changes_here(legend, seen, place.address, place.cells, sink),
        Err(failure) => Err(failure),
    }
}

/// Replies where and why a machine stopped whose watched bytes were seen before and are these now.
fn tell_stop_here<F: PageFile, K: Sink>(
    setting: &Setting,
    plan: &Plan,
    seen: &Sights,
    machine: &mut Machine,
    file: &mut F,
    sink: &mut K,
) -> Result<(), Failure>
    ensures replies { RepliesFrom
        (scene (engine machine.old) (F.contents file.old) (K.contents sink.old))
        (scene (engine machine.new) (F.contents file.new) (K.contents sink.new)) result
        (stop_text setting.now.limits.now.steps setting.now.legend.now plan.now.breaks
        (changes setting.now.legend.now seen.now.before.now seen.now.after.now)) }
    ensures counts { Counts result (F.faults file.old) (F.faults file.new) (K.faults sink.old)
        (K.faults sink.new) }
    ensures only { OnlyReplied (K.contents sink.old) (K.contents sink.new) }
{
    let last = why(&plan.breaks, setting.limits, machine);
    let address = pc_of(machine);
    let mut cells = [None; MOST];
    match examine(address, &mut cells, machine, file) {
        Ok(()) => {
            let place = Here {
                address,
                cells: &cells,
            };
            reply_stop(last, setting.legend, seen, &place, sink)
        }
        Err(_) => Err(Failure::PageFault),
    }
}

/// Replies where and why a machine stopped, and which watched bytes were changed since they were seen.
pub(crate) fn tell_stop<F: PageFile, K: Sink>(
    setting: &Setting,
    plan: &Plan,
    seen: &Snapshot,
    machine: &mut Machine,
    file: &mut F,
    sink: &mut K,
) -> Result<(), Failure>
    ensures replies { RepliesFrom
        (scene (engine machine.old) (F.contents file.old) (K.contents sink.old))
        (scene (engine machine.new) (F.contents file.new) (K.contents sink.new)) result
        (stop_reply setting.now.limits.now.steps setting.now.legend.now plan.now seen.now) }
    ensures counts { Counts result (F.faults file.old) (F.faults file.new) (K.faults sink.old)
        (K.faults sink.new) }
    ensures only { OnlyReplied (K.contents sink.old) (K.contents sink.new) }
{
    match look(&plan.watches, machine, file) {
        Ok(after) => {
            let seen = Sights {
                before: seen,
                after: &after,
            };
            tell_stop_here(setting, plan, &seen, machine, file, sink)
        }
        Err(_) => Err(Failure::PageFault),
    }
}

/// Replies where and why a machine stopped, and nothing of watched bytes.
pub(crate) fn tell_plain_stop<F: PageFile, K: Sink>(
    setting: &Setting,
    plan: &Plan,
    machine: &mut Machine,
    file: &mut F,
    sink: &mut K,
) -> Result<(), Failure>
    ensures replies { RepliesFrom
        (scene (engine machine.old) (F.contents file.old) (K.contents sink.old))
        (scene (engine machine.new) (F.contents file.new) (K.contents sink.new)) result
        (stop_reply setting.now.limits.now.steps setting.now.legend.now plan.now []) }
    ensures counts { Counts result (F.faults file.old) (F.faults file.new) (K.faults sink.old)
        (K.faults sink.new) }
    ensures only { OnlyReplied (K.contents sink.old) (K.contents sink.new) }
{
    tell_stop(setting, plan, &Snapshot::new(), machine, file, sink)
}
