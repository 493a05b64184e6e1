//! The requests of where steps stop.
ghost use Rattle.std.specs.Prelude.{◌≡◌};
ghost use Rattle.vax_machine.specs.Meaning.{engine};
ghost use Rattle.vax_console.specs.Ends.{OnlyReplied, scene};
ghost use Rattle.vax_debug.specs.Sessions.{Counts};
ghost use Rattle.vax_debug.specs.Plans.{no_plan};
ghost use Rattle.vax_debug_words.specs.Expressions.{IsExpression};
ghost use Rattle.vax_debug_words.specs.Requests.{IsSpan};
ghost use Rattle.vax_debug_replies.specs.Stops.{break_line, watch_line};
ghost use Rattle.vax_debug_acts.specs.Acting.{ActsFrom, BreaksFrom, Replies};
ghost use Rattle.vax_debug_acts.specs.Acts.{added_line, break_act, breaks_with, breaks_without, clear_act, cleared_at, done_line, watch_act, watch_reply, watches_with, with_break, with_watch};

use crate::reply::{
    reply_with, tell_done, tell_full, tell_full_watches, tell_no_value, tell_outside,
};
use crate::stops::Setting;
use vax_debug::{Breaks, Failure, Place, Plan, Watch, Watches, evaluate, locate};
use vax_debug_names::Legend;
use vax_debug_replies::{push_break_line, push_watch_line};
use vax_debug_words::{Expression, Span};
use vax_machine::Machine;
use vax_outside::{PageFile, Sink, Text};

/// Replies with the line of an address at which steps stop.
fn tell_break<K: Sink>(legend: &Legend, address: u32, sink: &mut K) -> Result<(), Failure>
    ensures { Replies result (K.faults sink.old) (K.faults sink.new)
        (K.contents sink.old) (K.contents sink.new) (break_line legend.now address) }
{
    let mut text = Text::new();
    push_break_line(&mut text, legend, address);
    reply_with(text.as_slice(), sink)
}

/// One more address, unless there are 16.
fn add<K: Sink>(
    legend: &Legend,
    address: u32,
    breaks: &mut Breaks,
    sink: &mut K,
) -> Result<(), Failure>
    ensures replies { Replies result (K.faults sink.old) (K.faults sink.new)
        (K.contents sink.old) (K.contents sink.new) (added_line legend.now breaks.old address) }
    ensures breaks { breaks.new ≡ with_break breaks.old address }
{
    if breaks.has(address) {
        return tell_break(legend, address, sink);
    }
    if breaks.is_full() {
        return tell_full(sink);
    }
    breaks.add(address);
    tell_break(legend, address, sink)
}

/// Neither a stop nor a watch at an address.
fn remove<K: Sink>(address: u32, plan: &mut Plan, sink: &mut K) -> Result<(), Failure>
    ensures replies { Replies result (K.faults sink.old) (K.faults sink.new)
        (K.contents sink.old) (K.contents sink.new) done_line }
    ensures plan { plan.new ≡ cleared_at plan.old address }
{
    plan.breaks.remove(address);
    plan.watches = plan.watches.beside(address);
    tell_done(sink)
}

/// Replies with the line of a watch.
fn tell_watch<K: Sink>(legend: &Legend, watch: Watch, sink: &mut K) -> Result<(), Failure>
    ensures { Replies result (K.faults sink.old) (K.faults sink.new)
        (K.contents sink.old) (K.contents sink.new)
        (watch_line legend.now watch.address watch.count) }
{
    let mut text = Text::new();
    push_watch_line(&mut text, legend, watch.address, watch.count);
    reply_with(text.as_slice(), sink)
}

/// One more watch, in place of those that begin there, unless there are 16 others.
fn add_watch<K: Sink>(
    legend: &Legend,
    watch: Watch,
    watches: &mut Watches,
    sink: &mut K,
) -> Result<(), Failure>
    ensures replies { Replies result (K.faults sink.old) (K.faults sink.new)
        (K.contents sink.old) (K.contents sink.new)
        (watch_reply legend.now watches.old watch) }
    ensures watches { watches.new ≡ with_watch watches.old watch }
{
    let mut left = watches.beside(watch.address);
    if left.is_full() {
        return tell_full_watches(sink);
    }
    left.add(watch);
    *watches = left;
    tell_watch(legend, watch, sink)
}

/// Steps are to stop at an address that an area has, unless there are 16 others.
pub fn stop_at<F: PageFile, K: Sink>(
    at: &Expression,
    setting: &Setting,
    plan: &mut Plan,
    machine: &mut Machine,
    file: &mut F,
    sink: &mut K,
) -> Result<(), Failure>
    requires { IsExpression at.now }
    ensures acts { ActsFrom
        (scene (engine machine.old) (F.contents file.old) (K.contents sink.old))
        (scene (engine machine.new) (F.contents file.new) (K.contents sink.new)) result
        setting.now.limits.now
        (break_act setting.now.legend.now plan.old at.now) }
    ensures breaks { BreaksFrom
        (scene (engine machine.old) (F.contents file.old) (K.contents sink.old)) result plan.new
        (breaks_with setting.now.legend.now plan.old at.now) }
    ensures counts { Counts result (F.faults file.old) (F.faults file.new) (K.faults sink.old)
        (K.faults sink.new) }
    ensures only { OnlyReplied (K.contents sink.old) (K.contents sink.new) }
{
    match locate(setting.legend, at, machine, file) {
        Ok(Place::Inside(address)) => add(setting.legend, address, &mut plan.breaks, sink),
        Ok(Place::Outside) => tell_outside(sink),
        Ok(Place::Unknown) => tell_no_value(sink),
        Err(_) => Err(Failure::PageFault),
    }
}

/// Bytes are to be watched, of which an area has the first, unless 16 others are.
pub fn watch<F: PageFile, K: Sink>(
    at: &Span,
    setting: &Setting,
    plan: &mut Plan,
    machine: &mut Machine,
    file: &mut F,
    sink: &mut K,
) -> Result<(), Failure>
    requires { IsSpan at.now }
    ensures acts { ActsFrom
        (scene (engine machine.old) (F.contents file.old) (K.contents sink.old))
        (scene (engine machine.new) (F.contents file.new) (K.contents sink.new)) result
        setting.now.limits.now
        (watch_act setting.now.legend.now plan.old at.now) }
    ensures breaks { BreaksFrom
        (scene (engine machine.old) (F.contents file.old) (K.contents sink.old)) result plan.new
        (watches_with setting.now.legend.now plan.old at.now) }
    ensures counts { Counts result (F.faults file.old) (F.faults file.new) (K.faults sink.old)
        (K.faults sink.new) }
    ensures only { OnlyReplied (K.contents sink.old) (K.contents sink.new) }
{
    match locate(setting.legend, &at.from, machine, file) {
        Ok(Place::Inside(address)) => {
            let watch = Watch {
                address,
                count: at.count,
            };
            add_watch(setting.legend, watch, &mut plan.watches, sink)
        }
        Ok(Place::Outside) => tell_outside(sink),
        Ok(Place::Unknown) => tell_no_value(sink),
        Err(_) => Err(Failure::PageFault),
    }
}

/// Steps aren't to stop at an address any more, and what is watched from there on isn't any more.
pub fn clear_at<F: PageFile, K: Sink>(
    at: &Expression,
    setting: &Setting,
    plan: &mut Plan,
    machine: &mut Machine,
    file: &mut F,
    sink: &mut K,
) -> Result<(), Failure>
    requires { IsExpression at.now }
    ensures acts { ActsFrom
        (scene (engine machine.old) (F.contents file.old) (K.contents sink.old))
        (scene (engine machine.new) (F.contents file.new) (K.contents sink.new)) result
        setting.now.limits.now
        (clear_act setting.now.legend.now at.now) }
    ensures breaks { BreaksFrom
        (scene (engine machine.old) (F.contents file.old) (K.contents sink.old)) result plan.new
        (breaks_without setting.now.legend.now plan.old at.now) }
    ensures counts { Counts result (F.faults file.old) (F.faults file.new) (K.faults sink.old)
        (K.faults sink.new) }
    ensures only { OnlyReplied (K.contents sink.old) (K.contents sink.new) }
{
    match evaluate(setting.legend, at, machine, file) {
        Ok(Some(address)) => remove(address, plan, sink),
        Ok(None) => tell_no_value(sink),
        Err(_) => Err(Failure::PageFault),
    }
}

/// Steps aren't to stop at any address any more, and nothing is watched.
pub fn clear_all<K: Sink>(plan: &mut Plan, sink: &mut K) -> Result<(), Failure>
    ensures replies { Replies result (K.faults sink.old) (K.faults sink.new)
        (K.contents sink.old) (K.contents sink.new) done_line }
    ensures breaks { plan.new ≡ no_plan }
{
    *plan = Plan::new();
    tell_done(sink)
}
