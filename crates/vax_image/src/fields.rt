//! The fields of a file, read one after the other.
ghost use Rattle.std.specs.Prelude.{◌≡◌, ◌+◌, ◌*◌, ◌^◌, ◌<◌, ◌≤◌, length, IfOk, true};
ghost use Rattle.vax_space.specs.Faults.{is_protection};
ghost use Rattle.vax_image.specs.Image as image;
ghost use Rattle.vax_image.specs.Reading as spec;
ghost use Rattle.vax_image.specs.Reading.{Gives};
ghost use Rattle.vax_image.specs.Views.{cursor};

use crate::{AREA, BASE, Base, COUNT, ImageError, LENGTH, MAGIC, PROTECTION, SHORT, VERSION};
use byteorder::{ByteOrder, LittleEndian};

/// What is left of a file, and the offset at which that begins.
#[derive(Clone, Copy)]
pub(crate) struct Cursor<'a> {
    pub(crate) rest: &'a [u8],
    pub(crate) place: u32,
}

/// So many bytes.
#[tactic(auto, unfolding(crate::specs::Reading::bytes_at))]
pub(crate) fn bytes_at<'a>(len: u32, from: Cursor<'a>) -> Result<(&'a [u8], Cursor<'a>), ImageError>
    requires { from.place + len < 2 ^ 32 }
    ensures gives { Gives (λ x. (x.0.now, cursor x.1)) result
        (spec.bytes_at len (cursor from.entry)) }
    ensures all { IfOk result (λ x. length x.0.now ≡ len) }
    ensures moved { IfOk result (λ x. x.1.place ≡ from.entry.place + len) }
{
    if from.rest.len() < len as usize {
        return Err(ImageError::Fault {
            place: from.place,
            kind: SHORT,
        });
    }
    let (bytes, rest) = from.rest.split_at(len as usize);
    let place = from.place + len;
    Ok((bytes, Cursor { rest, place }))
}

#[tactic(auto, unfolding(crate::specs::Reading::number_at))]
fn word_at<'a>(from: Cursor<'a>) -> Result<(u16, Cursor<'a>), ImageError>
    requires { from.place + 2 < 2 ^ 32 }
    ensures gives { Gives (λ x. (x.0, cursor x.1)) result (spec.number_at 2 (cursor from.entry)) }
    ensures moved { IfOk result (λ x. x.1.place ≡ from.entry.place + 2) }
{
    let (bytes, rest) = bytes_at(2, from)?;
    Ok((LittleEndian::read_u16(bytes), rest))
}

#[tactic(auto, unfolding(crate::specs::Reading::number_at))]
pub(crate) fn longword_at<'a>(from: Cursor<'a>) -> Result<(u32, Cursor<'a>), ImageError>
    requires { from.place + 4 < 2 ^ 32 }
    ensures gives { Gives (λ x. (x.0, cursor x.1)) result (spec.number_at 4 (cursor from.entry)) }
    ensures moved { IfOk result (λ x. x.1.place ≡ from.entry.place + 4) }
{
    let (bytes, rest) = bytes_at(4, from)?;
    Ok((LittleEndian::read_u32(bytes), rest))
}

/// The letters with which a file begins.
#[tactic(auto, unfolding(crate::specs::Reading::magic_at))]
pub(crate) fn magic_at<'a>(from: Cursor<'a>) -> Result<Cursor<'a>, ImageError>
    requires { from.place + 4 < 2 ^ 32 }
    ensures gives { Gives cursor result (spec.magic_at (cursor from.entry)) }
    ensures moved { IfOk result (λ x. x.place ≡ from.entry.place + 4) }
{
    let (bytes, rest) = bytes_at(4, from)?;
    if bytes != b"VAXI".as_slice() {
        return Err(ImageError::Fault {
            place: from.place,
            kind: MAGIC,
        });
    }
    Ok(rest)
}

/// The version, 1 or 2.
#[tactic(auto, unfolding(crate::specs::Reading::version_at))]
pub(crate) fn version_at<'a>(from: Cursor<'a>) -> Result<(u16, Cursor<'a>), ImageError>
    requires { from.place + 2 < 2 ^ 32 }
    ensures gives { Gives (λ x. (x.0, cursor x.1)) result (spec.version_at (cursor from.entry)) }
    ensures moved { IfOk result (λ x. x.1.place ≡ from.entry.place + 2) }
{
    let (version, rest) = word_at(from)?;
    if version != 1 && version != 2 {
        return Err(ImageError::Fault {
            place: from.place,
            kind: VERSION,
        });
    }
    Ok((version, rest))
}

#[tactic(auto, unfolding(crate::specs::Reading::base_at))]
pub(crate) fn base_at<'a>(from: Cursor<'a>) -> Result<(Base, Cursor<'a>), ImageError>
    requires { from.place + 2 < 2 ^ 32 }
    ensures gives { Gives (λ x. (x.0, cursor x.1)) result (spec.base_at (cursor from.entry)) }
    ensures moved { IfOk result (λ x. x.1.place ≡ from.entry.place + 2) }
{
    let (number, rest) = word_at(from)?;
    match number {
        0 => Ok((Base::Bare, rest)),
        1 => Ok((Base::User, rest)),
        _ => Err(ImageError::Fault {
            place: from.place,
            kind: BASE,
        }),
    }
}

/// How many areas there are, 1 to 64.
#[tactic(auto, unfolding(crate::specs::Reading::count_at))]
pub(crate) fn count_at<'a>(from: Cursor<'a>) -> Result<(u32, Cursor<'a>), ImageError>
    requires { from.place + 4 < 2 ^ 32 }
    ensures gives { Gives (λ x. (x.0, cursor x.1)) result (spec.count_at (cursor from.entry)) }
    ensures few { IfOk result (λ x. x.0 ≤ 64) }
    ensures moved { IfOk result (λ x. x.1.place ≡ from.entry.place + 4) }
{
    let (count, rest) = longword_at(from)?;
    if count == 0 || count > 64 {
        return Err(ImageError::Fault {
            place: from.place,
            kind: COUNT,
        });
    }
    Ok((count, rest))
}

/// How many texts there are, at most 64.
#[tactic(auto, unfolding(crate::specs::Reading::text_count_at))]
pub(crate) fn text_count_at<'a>(from: Cursor<'a>) -> Result<(u32, Cursor<'a>), ImageError>
    requires { from.place + 4 < 2 ^ 32 }
    ensures gives { Gives (λ x. (x.0, cursor x.1)) result (spec.text_count_at (cursor from.entry)) }
    ensures few { IfOk result (λ x. x.0 ≤ 64) }
    ensures moved { IfOk result (λ x. x.1.place ≡ from.entry.place + 4) }
{
    let (count, rest) = longword_at(from)?;
    if count > 64 {
        return Err(ImageError::Fault {
            place: from.place,
            kind: COUNT,
        });
    }
    Ok((count, rest))
}

/// The first page and the number of the pages of an area that stands at page `low` or behind it.
#[tactic(auto, unfolding(crate::specs::Reading::pages_at))]
pub(crate) fn pages_at<'a>(
    base: Base,
    low: u32,
    from: Cursor<'a>,
) -> Result<((u32, u32), Cursor<'a>), ImageError>
    requires { from.place + 8 < 2 ^ 32 }
    ensures gives { Gives (λ x. (x.0, cursor x.1)) result
        (spec.pages_at base low (cursor from.entry)) }
    ensures behind { IfOk result (λ x. low ≤ x.0.0) }
    ensures within { IfOk result (λ x. x.0.0 + x.0.1 ≤ image.end_page base) }
    ensures small { IfOk result (λ x. x.0.0 + x.0.1 ≤ 0x400800) }
    ensures moved { IfOk result (λ x. x.1.place ≡ from.entry.place + 8) }
{
    let (first, rest) = longword_at(from)?;
    let (pages, rest) = longword_at(rest)?;
    let end = u64::from(first) + u64::from(pages);
    if pages == 0 || first < low || u64::from(base.end_page()) < end {
        return Err(ImageError::Fault {
            place: from.place,
            kind: AREA,
        });
    }
    Ok(((first, pages), rest))
}

/// A protection code: 0 or 2 to 15.
#[tactic(auto, unfolding(crate::specs::Reading::protection_at, vax_space::specs::Faults::is_protection))]
pub(crate) fn protection_at<'a>(from: Cursor<'a>) -> Result<(u8, Cursor<'a>), ImageError>
    requires { from.place + 4 < 2 ^ 32 }
    ensures gives { Gives (λ x. (x.0, cursor x.1)) result (spec.protection_at (cursor from.entry)) }
    ensures sound { IfOk result (λ x. is_protection x.0 ≡ true) }
    ensures few { IfOk result (λ x. x.0 ≤ 15) }
    ensures moved { IfOk result (λ x. x.1.place ≡ from.entry.place + 4) }
{
    let (code, rest) = longword_at(from)?;
    if code > 15 || code == 1 {
        return Err(ImageError::Fault {
            place: from.place,
            kind: PROTECTION,
        });
    }
    Ok((code as u8, rest))
}

/// The number of an area's bytes.
#[tactic(auto, unfolding(crate::specs::Reading::length_at))]
pub(crate) fn length_at<'a>(pages: u32, from: Cursor<'a>) -> Result<(u32, Cursor<'a>), ImageError>
    requires { from.place + 4 < 2 ^ 32 }
    ensures gives { Gives (λ x. (x.0, cursor x.1)) result
        (spec.length_at pages (cursor from.entry)) }
    ensures fits { IfOk result (λ x. x.0 ≤ 512 * pages) }
    ensures moved { IfOk result (λ x. x.1.place ≡ from.entry.place + 4) }
{
    let (len, rest) = longword_at(from)?;
    if u64::from(len) > 512 * u64::from(pages) {
        return Err(ImageError::Fault {
            place: from.place,
            kind: LENGTH,
        });
    }
    Ok((len, rest))
}
