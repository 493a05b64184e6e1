//! Writing all of some bytes.
ghost use Rattle.std.specs.Prelude.{is_err, OnErr, OnOk};
ghost use Rattle.vax_outside.specs.Channels.{Grew, GrewByPrefix, only};
ghost use Rattle.vax_outside.specs.Faults.{CountsFailure};

use crate::{Chan, Failed, Sink};

/// Writes all the bytes to a channel. After a failure a prefix of them was written.
pub fn put_all<K: Sink>(sink: &mut K, chan: Chan, bytes: &[u8]) -> Result<(), Failed>
    ensures ok { OnOk result
        (Grew (K.contents sink.old) (K.contents sink.new) (only chan bytes.now)) }
    ensures prefix { OnErr result
        (GrewByPrefix (K.contents sink.old) (K.contents sink.new) (only chan bytes.now)) }
    ensures counts { CountsFailure (is_err result) (K.faults sink.old) (K.faults sink.new) }
{
    let mut rest = bytes;
    while !rest.is_empty() {
        let count = sink.write(chan, rest)?;
        rest = rest.split_at(count).1;
    }
    Ok(())
}
