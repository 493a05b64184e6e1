//! What is watched, as it is shown.
ghost use Rattle.std.specs.Prelude.{◌≡◌, OnErr, OnOk, is_err};
ghost use Rattle.std.specs.List.{flat_map};
ghost use Rattle.vax_outside.specs.Channels.{Grew, GrewByPrefix, only};
ghost use Rattle.vax_outside.specs.Faults.{CountsFailure};
ghost use Rattle.vax_outside.specs.declared.faults.Failures.{Failures};
ghost use Rattle.vax_debug.specs.Sessions.{Counts};
ghost use Rattle.vax_debug_views.specs.Showing.{Replied};
ghost use Rattle.vax_debug_views.specs.Watches.{watch_shown, watches_shown};

use vax_debug::{Failure, Watch, Watches};
use vax_debug_names::Legend;
use vax_debug_replies::push_watch_line;
use vax_outside::{Chan, Failed, Sink, Text, put_all};

/// Writes the line of a watch.
fn write_watch<K: Sink>(legend: &Legend, watch: Watch, sink: &mut K) -> Result<(), Failed>
    ensures ok { OnOk result (Grew (K.contents sink.old) (K.contents sink.new)
        (only Chan.Report (watch_shown legend.now watch))) }
    ensures prefix { OnErr result (GrewByPrefix (K.contents sink.old) (K.contents sink.new)
        (only Chan.Report (watch_shown legend.now watch))) }
    ensures counts { CountsFailure (is_err result) (K.faults sink.old) (K.faults sink.new) }
{
    let mut text = Text::new();
    push_watch_line(&mut text, legend, watch.address, watch.count);
    put_all(sink, Chan::Report, text.as_slice())
}

/// Writes the lines of watches.
fn write_each_watch<K: Sink>(legend: &Legend, watches: &[Watch], sink: &mut K) -> Result<(), Failed>
    ensures ok { OnOk result (Grew (K.contents sink.old) (K.contents sink.new)
        (only Chan.Report (flat_map (watch_shown legend.now) watches.now))) }
    ensures prefix { OnErr result (GrewByPrefix (K.contents sink.old) (K.contents sink.new)
        (only Chan.Report (flat_map (watch_shown legend.now) watches.now))) }
    ensures counts { CountsFailure (is_err result) (K.faults sink.old) (K.faults sink.new) }
{
    for watch in watches {
        write_watch(legend, *watch, sink)?;
    }
    Ok(())
}

/// Writes the lines of watches, or that there is none.
#[tactic(auto, unfolding(crate::specs::Watches::watches_shown))]
fn write_watches<K: Sink>(legend: &Legend, watches: &[Watch], sink: &mut K) -> Result<(), Failed>
    ensures ok { OnOk result (Grew (K.contents sink.old) (K.contents sink.new)
        (only Chan.Report (watches_shown legend.now watches.now))) }
    ensures prefix { OnErr result (GrewByPrefix (K.contents sink.old) (K.contents sink.new)
        (only Chan.Report (watches_shown legend.now watches.now))) }
    ensures counts { CountsFailure (is_err result) (K.faults sink.old) (K.faults sink.new) }
{
    match watches.first() {
        None => put_all(sink, Chan::Report, b"NO WATCHES\n"),
        Some(_) => write_each_watch(legend, watches, sink),
    }
}

/// Replies with what is watched, or that nothing is.
pub fn show_watches<K: Sink>(
    legend: &Legend,
    watches: &Watches,
    sink: &mut K,
) -> Result<(), Failure>
    ensures replied { Replied result (K.contents sink.old) (K.contents sink.new)
        (watches_shown legend.now watches.now) }
    ensures counts { (file : Failures) →
        Counts result file file (K.faults sink.old) (K.faults sink.new) }
{
    match write_watches(legend, watches.as_slice(), sink) {
        Ok(()) => Ok(()),
        Err(Failed) => Err(Failure::WriteFault),
    }
}
