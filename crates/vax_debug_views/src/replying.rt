//! Replies that nothing is looked up for.
ghost use Rattle.std.specs.Prelude.{◌≡◌};
ghost use Rattle.vax_outside.specs.declared.faults.Failures.{Failures};
ghost use Rattle.vax_debug.specs.Sessions.{Counts};
ghost use Rattle.vax_debug_replies.specs.Help.{breaks_shown, help, refused};
ghost use Rattle.vax_debug_views.specs.Showing.{Replied};
ghost use Rattle.vax_debug_views.specs.Views.{nowhere_line};

use vax_debug::{Breaks, Failure};
use vax_debug_names::Legend;
use vax_debug_replies::{write_breaks, write_help, write_refusal};
use vax_debug_words::{Command, Refusal};
use vax_outside::{Chan, Failed, Sink, put_all};

/// Writes a reply.
pub fn reply<K: Sink>(text: &[u8], sink: &mut K) -> Result<(), Failure>
    ensures replied { Replied result (K.contents sink.old) (K.contents sink.new) text.now }
    ensures counts { (file : Failures) →
        Counts result file file (K.faults sink.old) (K.faults sink.new) }
{
    match put_all(sink, Chan::Report, text) {
        Ok(()) => Ok(()),
        Err(Failed) => Err(Failure::WriteFault),
    }
}

/// Replies that an expression has no value.
pub fn reply_nowhere<K: Sink>(sink: &mut K) -> Result<(), Failure>
    ensures replied { Replied result (K.contents sink.old) (K.contents sink.new) nowhere_line }
    ensures counts { (file : Failures) →
        Counts result file file (K.faults sink.old) (K.faults sink.new) }
{
    reply(b"?NO SUCH NAME OR ADDRESS\n", sink)
}

/// Replies with the addresses at which steps stop, or that there is none.
pub fn show_breaks<K: Sink>(legend: &Legend, breaks: &Breaks, sink: &mut K) -> Result<(), Failure>
    ensures replied { Replied result (K.contents sink.old) (K.contents sink.new)
        (breaks_shown legend.now breaks.now) }
    ensures counts { (file : Failures) →
        Counts result file file (K.faults sink.old) (K.faults sink.new) }
{
    match write_breaks(legend, breaks.as_slice(), sink) {
        Ok(()) => Ok(()),
        Err(Failed) => Err(Failure::WriteFault),
    }
}

/// Replies with how one command is used, or all.
pub fn show_help<K: Sink>(command: Option<Command>, sink: &mut K) -> Result<(), Failure>
    ensures replied { Replied result (K.contents sink.old) (K.contents sink.new) (help command) }
    ensures counts { (file : Failures) →
        Counts result file file (K.faults sink.old) (K.faults sink.new) }
{
    match write_help(command, sink) {
        Ok(()) => Ok(()),
        Err(Failed) => Err(Failure::WriteFault),
    }
}

/// Replies why a line isn't understood, and how the commands are used that it may have meant.
pub fn show_refusal<K: Sink>(refusal: Refusal, line: &[u8], sink: &mut K) -> Result<(), Failure>
    ensures replied { Replied result (K.contents sink.old) (K.contents sink.new)
        (refused refusal line.now) }
    ensures counts { (file : Failures) →
        Counts result file file (K.faults sink.old) (K.faults sink.new) }
{
    match write_refusal(refusal, line, sink) {
        Ok(()) => Ok(()),
        Err(Failed) => Err(Failure::WriteFault),
    }
}
