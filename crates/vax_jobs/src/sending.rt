//! Bytes on their way to Out, held back until a line ends or there are many.
ghost use Rattle.std.specs.Prelude.{◌<◌, ◌++◌, ◌∷◌, [], OnErr, OnOk, is_err, length};
ghost use Rattle.vax_outside.specs.Channels.{GrewByPrefix, only};
ghost use Rattle.vax_outside.specs.Faults.{CountsFailure};
ghost use Rattle.vax_jobs.specs.Sending.{Finishes, Holds};

use crate::ends::JobsEnd;
use arrayvec::ArrayVec;
use vax_outside::{Chan, Failed, Sink, put_all};

/// Bytes that are held back.
pub(crate) type Held = ArrayVec<u8, 512>;

/// Holds a byte more back, where there is room for it. All that are held are written behind an LF, and where no other has room beside them.
pub(crate) fn hold<K: Sink>(held: &mut Held, byte: u8, sink: &mut K) -> Result<(), Failed>
    requires { length held.old.items < 512 }
    ensures room { OnOk result (length held.new.items < 512) }
    ensures ok { OnOk result (Holds byte (K.contents sink.old) held.old.items
        (K.contents sink.new) held.new.items) }
    ensures cut { OnErr result (GrewByPrefix (K.contents sink.old) (K.contents sink.new)
        (only Chan.Out (held.old.items ++ byte ∷ []))) }
    ensures counts { CountsFailure (is_err result) (K.faults sink.old) (K.faults sink.new) }
{
    held.push(byte);
    if byte == b'\n' || held.is_full() {
        put_all(sink, Chan::Out, held)?;
        held.clear();
    }
    Ok(())
}

/// Writes what is held back, and ends so, or by a write fault.
pub(crate) fn finish<K: Sink>(held: &Held, end: JobsEnd, sink: &mut K) -> JobsEnd
    ensures { Finishes end result held.now.items (K.contents sink.old) (K.contents sink.new)
        (K.faults sink.old) (K.faults sink.new) }
{
    match put_all(sink, Chan::Out, held) {
        Ok(()) => end,
        Err(_) => JobsEnd::WriteFault,
    }
}
