//! Queues, as they are shown.
ghost use Rattle.std.specs.Prelude.{◌≡◌, IfOk, Option, is_err};
ghost use Rattle.vax_outside.specs.Channels.{Channels};
ghost use Rattle.vax_outside.specs.Faults.{CountsFailure};
ghost use Rattle.vax_machine.specs.Meaning.{engine};
ghost use Rattle.vax_console.specs.Ends.{scene};
ghost use Rattle.vax_debug.specs.Calls.{TellsFrom};
ghost use Rattle.vax_debug.specs.Sessions.{Counts, StaysHere};
ghost use Rattle.vax_debug_words.specs.Expressions.{IsExpression};
ghost use Rattle.vax_debug_views.specs.Showing.{Shows};
ghost use Rattle.vax_debug_views.specs.Views.{entries_from, next_entry, queue_shown, unless_head};

use crate::replying::reply_nowhere;
use crate::values::show_value;
use vax_debug::{Failure, evaluate, longword};
use vax_debug_names::Legend;
use vax_debug_words::Expression;
use vax_machine::Machine;
use vax_outside::{PageFile, Sink};
use vax_pager::PageFault;

/// The most entries that are shown.
const MOST: u8 = 64;

/// The entry that a link leads to, unless that is the head again.
fn unless_head(head: u32, link: Option<u32>) -> Option<u32>
    ensures { result ≡ unless_head head link }
{
    match link {
        None => None,
        Some(link) => { if link == head { None } else { Some(link) } }
    }
}

/// The entry behind one, where memory has its forward link and that doesn't lead to the head.
fn next_entry<F: PageFile>(
    head: u32,
    entry: u32,
    machine: &mut Machine,
    file: &mut F,
) -> Result<Option<u32>, PageFault>
    ensures tells { (sink : Option Channels) → IfOk result
        (TellsFrom (scene (engine machine.old) (F.contents file.old) sink)
        (next_entry head entry)) }
    ensures stays { (sink : Option Channels) →
        StaysHere (scene (engine machine.old) (F.contents file.old) sink)
        (scene (engine machine.new) (F.contents file.new) sink) }
    ensures counts { CountsFailure (is_err result) (F.faults file.old) (F.faults file.new) }
{
    match longword(entry, machine, file) {
        Ok(link) => Ok(unless_head(head, link)),
        Err(_) => Err(PageFault),
    }
}

/// Replies with at most 64 entries of the queue with this head.
fn show_entries<F: PageFile, K: Sink>(
    head: u32,
    legend: &Legend,
    machine: &mut Machine,
    file: &mut F,
    sink: &mut K,
) -> Result<(), Failure>
    ensures shows { Shows
        (scene (engine machine.old) (F.contents file.old) (K.contents sink.old))
        (scene (engine machine.new) (F.contents file.new) (K.contents sink.new))
        result (entries_from legend.now head 64 head) }
    ensures counts { Counts result (F.faults file.old) (F.faults file.new) (K.faults sink.old)
        (K.faults sink.new) }
{
    let mut entry = head;
    for _ in 0..MOST {
        match show_value(4, entry, legend, machine, file, sink) {
            Ok(()) => {}
            Err(failure) => return Err(failure),
        }
        match next_entry(head, entry, machine, file) {
            Ok(Some(next)) => entry = next,
            Ok(None) => return Ok(()),
            Err(_) => return Err(Failure::PageFault),
        }
    }
    Ok(())
}

/// Replies with the entries of a queue, from its head on, each with its forward link. It ends where a link leads to the head again, at an entry whose link
/// memory hasn't whole, and after 64 entries.
pub fn show_queue<F: PageFile, K: Sink>(
    head: &Expression,
    legend: &Legend,
    machine: &mut Machine,
    file: &mut F,
    sink: &mut K,
) -> Result<(), Failure>
    requires { IsExpression head.now }
    ensures shows { Shows
        (scene (engine machine.old) (F.contents file.old) (K.contents sink.old))
        (scene (engine machine.new) (F.contents file.new) (K.contents sink.new))
        result (queue_shown legend.now head.now) }
    ensures counts { Counts result (F.faults file.old) (F.faults file.new) (K.faults sink.old)
        (K.faults sink.new) }
{
    match evaluate(legend, head, machine, file) {
        Ok(Some(head)) => show_entries(head, legend, machine, file, sink),
        Ok(None) => reply_nowhere(sink),
        Err(_) => Err(Failure::PageFault),
    }
}
