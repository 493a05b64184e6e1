//! Which watched bytes were changed.
ghost use Rattle.std.specs.Prelude.{◌≤◌, length};
ghost use Rattle.vax_debug.specs.Watches.{are_other};
ghost use Rattle.vax_debug_replies.specs.Stops.{change_line};
ghost use Rattle.vax_debug_acts.specs.Acting.{Replies};
ghost use Rattle.vax_debug_acts.specs.Acts.{change_if, changes};

use vax_debug::{Failure, Seen, Snapshot};
use vax_debug_names::Legend;
use vax_debug_replies::write_change;
use vax_outside::{Failed, Sink};

/// The most bytes of a watch.
const MOST: usize = 255;

/// Watched bytes as they were seen before steps, and behind them.
#[derive(Clone, Copy)]
pub(crate) struct Sights<'a> {
    pub(crate) before: &'a Snapshot,
    pub(crate) after: &'a Snapshot,
}

/// Replies with the line of watched bytes that were changed.
fn tell_change<K: Sink>(
    legend: &Legend,
    address: u32,
    before: &[Option<u8>],
    after: &[Option<u8>],
    sink: &mut K,
) -> Result<(), Failure>
    requires before { length before.now ≤ 255 }
    requires after { length after.now ≤ 255 }
    ensures { Replies result (K.faults sink.old) (K.faults sink.new)
        (K.contents sink.old) (K.contents sink.new)
        (change_line legend.now address before.now after.now) }
{
    let mut old = [None; MOST];
    let old = &mut old[..before.len()];
    old.copy_from_slice(before);
    let mut new = [None; MOST];
    let new = &mut new[..after.len()];
    new.copy_from_slice(after);
    match write_change(legend, address, old, new, sink) {
        Ok(()) => Ok(()),
        Err(Failed) => Err(Failure::WriteFault),
    }
}

/// Replies with the line of watched bytes, where they are others now.
fn tell_if_changed<K: Sink>(
    legend: &Legend,
    before: &Seen,
    after: &Seen,
    sink: &mut K,
) -> Result<(), Failure>
    ensures { Replies result (K.faults sink.old) (K.faults sink.new)
        (K.contents sink.old) (K.contents sink.new) (change_if legend.now before.now after.now) }
{
    let old = before.cells.as_slice();
    let new = after.cells.as_slice();
    if old != new {
        tell_change(legend, before.address, old, new, sink)
    } else {
        Ok(())
    }
}

/// Replies with the lines of the watched bytes that are others now.
#[tactic(auto, unfolding(crate::specs::Acts::changes))]
fn tell_changes<K: Sink>(
    legend: &Legend,
    before: &[Seen],
    after: &[Seen],
    sink: &mut K,
) -> Result<(), Failure>
    ensures { Replies result (K.faults sink.old) (K.faults sink.new)
        (K.contents sink.old) (K.contents sink.new) (changes legend.now before.now after.now) }
{
    let Some((old, before)) = before.split_first() else {
        return Ok(());
    };
    let Some((new, after)) = after.split_first() else {
        return Ok(());
    };
    match tell_if_changed(legend, old, new, sink) {
        Ok(()) => tell_changes(legend, before, after, sink),
        Err(failure) => Err(failure),
    }
}

/// Replies with the lines of all watched bytes that are others behind steps than before.
pub(crate) fn tell_all_changes<K: Sink>(
    legend: &Legend,
    seen: &Sights,
    sink: &mut K,
) -> Result<(), Failure>
    ensures { Replies result (K.faults sink.old) (K.faults sink.new)
        (K.contents sink.old) (K.contents sink.new)
        (changes legend.now seen.now.before.now seen.now.after.now) }
{
    let before = seen.before.as_slice();
    let after = seen.after.as_slice();
    tell_changes(legend, before, after, sink)
}
