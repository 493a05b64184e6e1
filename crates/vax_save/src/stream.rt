//! Bytes on their way to State, held back until there are many.
ghost use Rattle.std.specs.Prelude.{◌≡◌, ◌+◌, ◌≤◌, ◌⊎◌, [], length, OnErr, OnOk, is_err};
ghost use Rattle.vax_outside.specs.Channels.{Grew, GrewByPrefix, only};
ghost use Rattle.vax_outside.specs.Faults.{CountsFailure};
ghost use Rattle.vax_save.specs.Stream.{Cuts, Puts, stream};

use arrayvec::ArrayVec;
use vax_outside::{Chan, Failed, Sink, put_all};

/// How many bytes are held back.
const HELD: usize = 4_096;

/// Bytes that are held back.
pub(crate) type Held = ArrayVec<u8, 4096>;

/// Writes the bytes that are held back, where so many more have no room beside them.
fn make_room<K: Sink>(held: &mut Held, sink: &mut K, len: usize) -> Result<(), Failed>
    ensures ok { OnOk result (Puts [] (stream (K.contents sink.old) held.old.items)
        (stream (K.contents sink.new) held.new.items)) }
    ensures room { OnOk result ((length held.new.items + len ≤ 4096) ⊎ (held.new.items ≡ [])) }
    ensures cut { OnErr result (GrewByPrefix (K.contents sink.old) (K.contents sink.new)
        (only Chan.State held.old.items)) }
    ensures counts { CountsFailure (is_err result) (K.faults sink.old) (K.faults sink.new) }
{
    if len <= HELD - held.len() {
        return Ok(());
    }
    put_all(sink, Chan::State, held)?;
    held.clear();
    Ok(())
}

/// Appends bytes.
pub(crate) fn put<K: Sink>(held: &mut Held, sink: &mut K, bytes: &[u8]) -> Result<(), Failed>
    ensures ok { OnOk result (Puts bytes.now (stream (K.contents sink.old) held.old.items)
        (stream (K.contents sink.new) held.new.items)) }
    ensures cut { OnErr result (Cuts bytes.now (stream (K.contents sink.old) held.old.items)
        (K.contents sink.new)) }
    ensures counts { CountsFailure (is_err result) (K.faults sink.old) (K.faults sink.new) }
{
    make_room(held, sink, bytes.len())?;
    match held.try_extend_from_slice(bytes) {
        Ok(()) => Ok(()),
        Err(_) => put_all(sink, Chan::State, bytes),
    }
}

/// Writes the bytes that are held back.
pub(crate) fn finish<K: Sink>(held: &Held, sink: &mut K) -> Result<(), Failed>
    ensures ok { OnOk result (Grew (K.contents sink.old) (K.contents sink.new)
        (only Chan.State held.now.items)) }
    ensures cut { OnErr result (GrewByPrefix (K.contents sink.old) (K.contents sink.new)
        (only Chan.State held.now.items)) }
    ensures counts { CountsFailure (is_err result) (K.faults sink.old) (K.faults sink.new) }
{
    put_all(sink, Chan::State, held)
}
