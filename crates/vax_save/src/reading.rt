//! The fields of a saved state, read one after the other.
ghost use Rattle.std.specs.Prelude.{◌≡◌, ◌≤◌, ◌^◌, length, IfOk};
ghost use Rattle.vax_save.specs.Restoring as spec;
ghost use Rattle.vax_save.specs.Restoring.{Gives};
ghost use Rattle.vax_save.specs.Views.{cursor};

use crate::cursor::Cursor;
use crate::{MAGIC, SHORT, STEPS, SaveError, VERSION};
use byteorder::{ByteOrder, LittleEndian};

/// So many bytes.
#[tactic(auto, unfolding(crate::specs::Restoring::bytes_at))]
pub(crate) fn bytes_at<'a>(len: u32, from: Cursor<'a>) -> Result<(&'a [u8], Cursor<'a>), SaveError>
    ensures gives { Gives (λ x. (x.0.now, cursor x.1)) result
        (spec.bytes_at len (cursor from.entry)) }
    ensures all { IfOk result (λ x. length x.0.now ≡ len) }
{
    if from.rest.len() < len as usize {
        return Err(SaveError::Fault {
            place: from.place,
            kind: SHORT,
        });
    }
    let (bytes, rest) = from.rest.split_at(len as usize);
    let place = from.place + len;
    Ok((bytes, Cursor { rest, place }))
}

#[tactic(auto, unfolding(crate::specs::Restoring::number_at))]
pub(crate) fn byte_at<'a>(from: Cursor<'a>) -> Result<(u8, Cursor<'a>), SaveError>
    ensures gives { Gives (λ x. (x.0, cursor x.1)) result (spec.number_at 1 (cursor from.entry)) }
{
    let (bytes, rest) = bytes_at(1, from)?;
    Ok((bytes[0], rest))
}

#[tactic(auto, unfolding(crate::specs::Restoring::number_at))]
pub(crate) fn word_at<'a>(from: Cursor<'a>) -> Result<(u16, Cursor<'a>), SaveError>
    ensures gives { Gives (λ x. (x.0, cursor x.1)) result (spec.number_at 2 (cursor from.entry)) }
{
    let (bytes, rest) = bytes_at(2, from)?;
    Ok((LittleEndian::read_u16(bytes), rest))
}

#[tactic(auto, unfolding(crate::specs::Restoring::number_at))]
pub(crate) fn longword_at<'a>(from: Cursor<'a>) -> Result<(u32, Cursor<'a>), SaveError>
    ensures gives { Gives (λ x. (x.0, cursor x.1)) result (spec.number_at 4 (cursor from.entry)) }
{
    let (bytes, rest) = bytes_at(4, from)?;
    Ok((LittleEndian::read_u32(bytes), rest))
}

#[tactic(auto, unfolding(crate::specs::Restoring::number_at))]
fn quadword_at<'a>(from: Cursor<'a>) -> Result<(u64, Cursor<'a>), SaveError>
    ensures gives { Gives (λ x. (x.0, cursor x.1)) result (spec.number_at 8 (cursor from.entry)) }
{
    let (bytes, rest) = bytes_at(8, from)?;
    Ok((LittleEndian::read_u64(bytes), rest))
}

/// The letters with which a file begins.
#[tactic(auto, unfolding(crate::specs::Restoring::magic_at))]
pub(crate) fn magic_at<'a>(from: Cursor<'a>) -> Result<Cursor<'a>, SaveError>
    ensures gives { Gives cursor result (spec.magic_at (cursor from.entry)) }
{
    let (bytes, rest) = bytes_at(4, from)?;
    if bytes != b"VAXS".as_slice() {
        return Err(SaveError::Fault {
            place: from.place,
            kind: MAGIC,
        });
    }
    Ok(rest)
}

/// A word of the version, which must have this value.
fn version_at<'a>(value: u16, from: Cursor<'a>) -> Result<Cursor<'a>, SaveError>
    ensures gives { Gives (λ x. (value, cursor x)) result
        (spec.version_at value (cursor from.entry)) }
{
    let (n, rest) = word_at(from)?;
    if n != value {
        return Err(SaveError::Fault {
            place: from.place,
            kind: VERSION,
        });
    }
    Ok(rest)
}

/// How many steps were completed.
#[tactic(auto, unfolding(crate::specs::Restoring::steps_at))]
pub(crate) fn steps_at<'a>(from: Cursor<'a>) -> Result<(u64, Cursor<'a>), SaveError>
    ensures gives { Gives (λ x. (x.0, cursor x.1)) result (spec.steps_at (cursor from.entry)) }
    ensures few { IfOk result (λ x. x.0 ≤ 10 ^ 18) }
{
    let rest = version_at(1, from)?;
    let rest = version_at(0, rest)?;
    let (steps, after) = quadword_at(rest)?;
    if steps > 1_000_000_000_000_000_000 {
        return Err(SaveError::Fault {
            place: rest.place,
            kind: STEPS,
        });
    }
    Ok((steps, after))
}
