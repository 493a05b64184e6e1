//! Replies of one line.
ghost use Rattle.vax_debug_acts.specs.Acting.{Replies};
ghost use Rattle.vax_debug_acts.specs.Acts.{done_line, full_line, full_watches_line, no_frame_line, no_number_line, no_value_line, outside_line, too_large_line};

use vax_debug::{Failure, begins_too_large};
use vax_debug_names::Legend;
use vax_debug_words::Expression;
use vax_outside::{Chan, Failed, Sink, put_all};

/// Writes a reply.
pub(crate) fn reply_with<K: Sink>(text: &[u8], sink: &mut K) -> Result<(), Failure>
    ensures { Replies result (K.faults sink.old) (K.faults sink.new)
        (K.contents sink.old) (K.contents sink.new) text.now }
{
    match put_all(sink, Chan::Report, text) {
        Ok(()) => Ok(()),
        Err(Failed) => Err(Failure::WriteFault),
    }
}

/// Replies that it was done.
pub(crate) fn tell_done<K: Sink>(sink: &mut K) -> Result<(), Failure>
    ensures { Replies result (K.faults sink.old) (K.faults sink.new)
        (K.contents sink.old) (K.contents sink.new) done_line }
{
    reply_with(b"OK\n", sink)
}

/// Replies that an expression has no value.
pub(crate) fn tell_no_value<K: Sink>(sink: &mut K) -> Result<(), Failure>
    ensures { Replies result (K.faults sink.old) (K.faults sink.new)
        (K.contents sink.old) (K.contents sink.new) no_value_line }
{
    reply_with(b"?NO SUCH NAME OR ADDRESS\n", sink)
}

/// Replies that an address lies in no area.
pub(crate) fn tell_outside<K: Sink>(sink: &mut K) -> Result<(), Failure>
    ensures { Replies result (K.faults sink.old) (K.faults sink.new)
        (K.contents sink.old) (K.contents sink.new) outside_line }
{
    reply_with(b"?IN NO AREA\n", sink)
}

/// Replies that a number has no room.
pub(crate) fn tell_too_large<K: Sink>(sink: &mut K) -> Result<(), Failure>
    ensures { Replies result (K.faults sink.old) (K.faults sink.new)
        (K.contents sink.old) (K.contents sink.new) too_large_line }
{
    reply_with(b"?VALUE TOO LARGE\n", sink)
}

/// Replies that an expression has no value, or that its number is too large for one.
pub(crate) fn tell_no_number<K: Sink>(
    legend: &Legend,
    given: &Expression,
    sink: &mut K,
) -> Result<(), Failure>
    ensures { Replies result (K.faults sink.old) (K.faults sink.new)
        (K.contents sink.old) (K.contents sink.new) (no_number_line legend.now given.now) }
{
    if begins_too_large(legend, &given.base) {
        tell_too_large(sink)
    } else {
        tell_no_value(sink)
    }
}

/// Replies that there are as many addresses as there may be.
pub(crate) fn tell_full<K: Sink>(sink: &mut K) -> Result<(), Failure>
    ensures { Replies result (K.faults sink.old) (K.faults sink.new)
        (K.contents sink.old) (K.contents sink.new) full_line }
{
    reply_with(b"?NO MORE THAN 16 BREAKS\n", sink)
}

/// Replies that there are as many watches as there may be.
pub(crate) fn tell_full_watches<K: Sink>(sink: &mut K) -> Result<(), Failure>
    ensures { Replies result (K.faults sink.old) (K.faults sink.new)
        (K.contents sink.old) (K.contents sink.new) full_watches_line }
{
    reply_with(b"?NO MORE THAN 16 WATCHES\n", sink)
}

/// Replies that memory has no saved PC of a frame.
pub(crate) fn tell_no_frame<K: Sink>(sink: &mut K) -> Result<(), Failure>
    ensures { Replies result (K.faults sink.old) (K.faults sink.new)
        (K.contents sink.old) (K.contents sink.new) no_frame_line }
{
    reply_with(b"?NO FRAME\n", sink)
}
