//! The request that makes one attempt.
ghost use Rattle.std.specs.Prelude.{◌≡◌, ◌+◌, ◌<◌, ◌^◌, ◌-◌, ◌++◌, [], false, nat_le};
ghost use Rattle.vax_machine.specs.Meaning.{engine};
ghost use Rattle.vax_console.specs.Ends.{OnlyReplied, scene};
ghost use Rattle.vax_debug.specs.Pages.{pages_at, start_of_page};
ghost use Rattle.vax_debug.specs.Sessions.{Counts};
ghost use Rattle.vax_debug_replies.specs.Pages.{missed_line};
ghost use Rattle.vax_console.specs.Transcript.{Session};
ghost use Rattle.vax_debug_acts.specs.Acting.{ActsFrom, Replies, RepliesFrom};
ghost use Rattle.vax_debug_acts.specs.Acts.{stop_reply};
ghost use Rattle.vax_debug_acts.specs.Attempts.{parts_line, turn_act};

use crate::reply::reply_with;
use crate::stops::{Setting, tell_plain_stop};
use vax_debug::{Failure, Plan, Tried, attempt};
use vax_debug_names::Legend;
use vax_debug_replies::push_missed_line;
use vax_machine::{Limits, Machine};
use vax_outside::{PageFile, Sink, Text};

/// How many bytes a page has.
const PAGE_BYTES: u32 = 512;

/// Replies which page an attempt missed.
fn tell_missed<K: Sink>(legend: &Legend, page: u32, sink: &mut K) -> Result<(), Failure>
    ensures { Replies result (K.faults sink.old) (K.faults sink.new)
        (K.contents sink.old) (K.contents sink.new)
        (missed_line legend.now (start_of_page page)) }
{
    let mut text = Text::new();
    push_missed_line(&mut text, legend, page.wrapping_mul(PAGE_BYTES));
    reply_with(text.as_slice(), sink)
}

/// Replies that a string instruction was made in parts.
fn tell_parts<K: Sink>(sink: &mut K) -> Result<(), Failure>
    ensures { Replies result (K.faults sink.old) (K.faults sink.new)
        (K.contents sink.old) (K.contents sink.new) parts_line }
{
    reply_with(b"IN PARTS\n", sink)
}

/// Replies that a string instruction was made in parts, and where and why the machine stopped.
fn tell_parted_stop<F: PageFile, K: Sink>(
    setting: &Setting,
    plan: &Plan,
    machine: &mut Machine,
    file: &mut F,
    sink: &mut K,
) -> Result<(), Failure>
    ensures replies { RepliesFrom
        (scene (engine machine.old) (F.contents file.old) (K.contents sink.old))
        (scene (engine machine.new) (F.contents file.new) (K.contents sink.new)) result
        (λ (s : Session). parts_line
        ++ stop_reply setting.now.limits.now.steps setting.now.legend.now plan.now [] s) }
    ensures counts { Counts result (F.faults file.old) (F.faults file.new) (K.faults sink.old)
        (K.faults sink.new) }
    ensures only { OnlyReplied (K.contents sink.old) (K.contents sink.new) }
{
    match tell_parts(sink) {
        Ok(()) => tell_plain_stop(setting, plan, machine, file, sink),
        Err(failure) => Err(failure),
    }
}

/// Whether the limit of steps is reached.
fn is_at_limit(machine: &Machine, limits: &Limits) -> bool
    ensures limit { result ≡ nat_le limits.now.steps (engine machine.now).steps }
    ensures room { result ≡ false → (engine machine.now).steps + 1 < 2 ^ 64 }
{
    limits.steps <= machine.steps()
}

/// Makes one attempt at a step, and tells which page it missed, or where and why the machine stopped behind the step. Where the attempt made a part of a string instruction, the
/// other parts are made too, and that is told. At the limit of steps it makes no attempt.
pub fn turn<F: PageFile, K: Sink>(
    setting: &Setting,
    plan: &Plan,
    machine: &mut Machine,
    file: &mut F,
    sink: &mut K,
) -> Result<(), Failure>
    requires few_turns { setting.now.limits.now.turns < 2 ^ 64 - 2 }
    ensures acts { ActsFrom
        (scene (engine machine.old) (F.contents file.old) (K.contents sink.old))
        (scene (engine machine.new) (F.contents file.new) (K.contents sink.new)) result
        setting.now.limits.now
        (turn_act setting.now.limits.now.steps setting.now.legend.now plan.now
        (pages_at (engine machine.old))) }
    ensures counts { Counts result (F.faults file.old) (F.faults file.new) (K.faults sink.old)
        (K.faults sink.new) }
    ensures only { OnlyReplied (K.contents sink.old) (K.contents sink.new) }
{
    if is_at_limit(machine, setting.limits) {
        return tell_plain_stop(setting, plan, machine, file, sink);
    }
    match attempt(machine, setting.limits, setting.schedule, file, sink) {
        Ok(Tried::Missed(page)) => tell_missed(setting.legend, page, sink),
        Ok(Tried::Made) => tell_plain_stop(setting, plan, machine, file, sink),
        Ok(Tried::Parted) => tell_parted_stop(setting, plan, machine, file, sink),
        Err(failure) => Err(failure),
    }
}
