//! Files of version 2.
ghost use Rattle.std.specs.Prelude.{◌≡◌, ◌+◌, ◌*◌, ◌^◌, ◌<◌, ◌≤◌, IfOk, OnOk, length, map, Result, Ok, Err};
ghost use Rattle.vax_image.specs.Image as image;
ghost use Rattle.vax_image.specs.Reading as spec;
ghost use Rattle.vax_image.specs.Reading.{Gives};
ghost use Rattle.vax_image.specs.Views as view;
ghost use Rattle.vax_image.specs.Views.{contents, cursor};
ghost use Rattle.std.specs.Prelude.{[]};

use crate::fields::{
    Cursor, base_at, bytes_at, count_at, longword_at, pages_at, protection_at, text_count_at,
};
use crate::first_version::Contents;
use crate::texts::{Text, number_among, take_text};
use crate::{Base, Image, ImageError, LENGTH, NO_TEXT, TEXT};
use std::alloc::Global;
use vax_space::Area;

/// The most bytes of a text.
const MOST: u32 = 16_777_216;

#[tactic(auto, unfolding(crate::specs::Reading::text_at))]
fn text_at<'a>(from: Cursor<'a>) -> Result<(&'a [u8], Cursor<'a>), ImageError>
    requires { from.place + 16777220 < 2 ^ 32 }
    ensures gives { Gives (λ x. (x.0.now, cursor x.1)) result (spec.text_at (cursor from.entry)) }
    ensures moved { IfOk result (λ x. x.1.place ≤ from.entry.place + 16777220) }
{
    let (len, rest) = longword_at(from)?;
    if len == 0 || len > MOST {
        return Err(ImageError::Fault {
            place: from.place,
            kind: LENGTH,
        });
    }
    bytes_at(len, rest)
}

/// So many texts.
fn texts_at<'a>(
    alloc: Global,
    count: u32,
    from: Cursor<'a>,
) -> Result<(Vec<&'a [u8]>, Cursor<'a>), ImageError>
    requires few { count ≤ 64 }
    requires early { from.place ≤ 24 }
    ensures gives { Gives (λ x. (map (λ t. t.now) x.0.items, cursor x.1)) result
        (spec.texts_at count (cursor from.entry)) }
    ensures moved { IfOk result (λ x. x.1.place ≤ 24 + 64 * 16777220) }
{
    let mut texts = Vec::new(alloc);
    let mut rest = from;
    for _ in 0..count {
        let (text, after) = text_at(rest)?;
        texts.push(text)?;
        rest = after;
    }
    Ok((texts, rest))
}

/// The text that a number names, where areas before have taken these. The number stands at `place`.
#[tactic(auto, unfolding(crate::specs::Reading::named))]
fn named<'a>(
    texts: &[&'a [u8]],
    taken: &[Text<'a>],
    pages: u32,
    prot: u8,
    place: u32,
    number: u32,
) -> Result<&'a [u8], ImageError>
    requires code { prot ≤ 15 }
    requires few { length taken.now ≤ 64 }
    ensures { Gives (λ x. x.now) result
        (spec.named (map (λ t. t.now) texts.now) (view.texts taken.now) pages prot place number) }
{
    if number == NO_TEXT {
        return Ok(&[]);
    }
    let Some(text) = texts.get(number as usize) else {
        return Err(ImageError::Fault { place, kind: TEXT });
    };
    if number_among(taken, text, prot) != number {
        return Err(ImageError::Fault { place, kind: TEXT });
    }
    if text.len() as u64 > 512 * u64::from(pages) {
        return Err(ImageError::Fault {
            place,
            kind: LENGTH,
        });
    }
    Ok(*text)
}

/// An area that stands at page `low` or behind it, with the number of its text.
#[tactic(auto, unfolding(crate::specs::Reading::numbered_area_at))]
fn numbered_area_at<'a>(
    alloc: Global,
    base: Base,
    low: u32,
    texts: &[&'a [u8]],
    taken: &mut Vec<Text<'a>>,
    from: Cursor<'a>,
) -> Result<(Area, Cursor<'a>), ImageError>
    requires early { from.place + 16 < 2 ^ 32 }
    requires few { length taken.old.items < 64 }
    ensures gives { Gives (λ x. ((x.0, view.texts taken.new.items), cursor x.1)) result
        (spec.numbered_area_at base low (map (λ t. t.now) texts.now)
        (view.texts taken.old.items) (cursor from.entry)) }
    ensures behind { IfOk result (λ x. low ≤ x.0.first) }
    ensures within { IfOk result (λ x. x.0.first + x.0.pages ≤ image.end_page base) }
    ensures small { IfOk result (λ x. x.0.first + x.0.pages ≤ 0x400800) }
    ensures few { OnOk result (length taken.new.items ≤ length taken.old.items + 1) }
    ensures moved { IfOk result (λ x. x.1.place ≡ from.entry.place + 16) }
{
    let ((first, pages), rest) = pages_at(base, low, from)?;
    let (prot, number_field) = protection_at(rest)?;
    let (number, rest) = longword_at(number_field)?;
    let text = named(texts, taken, pages, prot, number_field.place, number)?;
    take_text(taken, text, prot)?;
    let bytes = Vec::from_slice(alloc, text)?.into();
    Ok((
        Area {
            first,
            pages,
            prot,
            bytes,
        },
        rest,
    ))
}

/// So many areas, each behind the one before it, and the texts that they take.
fn numbered_areas_at<'a>(
    alloc: Global,
    base: Base,
    texts: &[&'a [u8]],
    count: u32,
    from: Cursor<'a>,
) -> Result<(Vec<Area>, Vec<Text<'a>>, Cursor<'a>), ImageError>
    requires few { count ≤ 64 }
    requires early { from.place ≤ 24 + 64 * 16777220 }
    ensures { Gives (λ x. ((x.0.items, view.texts x.1.items), cursor x.2)) result
        (spec.numbered_areas_at base (image.first_page base)
        (map (λ t. t.now) texts.now) [] count (cursor from.entry)) }
{
    let mut areas = Vec::new(alloc);
    let mut taken = Vec::new(alloc);
    let mut low = base.first_page();
    let mut rest = from;
    for _ in 0..count {
        let (area, after) = numbered_area_at(alloc, base, low, texts, &mut taken, rest)?;
        low = area.first + area.pages;
        areas.push(area)?;
        rest = after;
    }
    Ok((areas, taken, rest))
}

/// The fields behind the version.
#[tactic(auto, unfolding(crate::specs::Reading::contents_2))]
pub(crate) fn second_contents<'a>(
    alloc: Global,
    from: Cursor<'a>,
) -> Result<Contents<'a>, ImageError>
    requires { from.place ≤ 6 }
    ensures { Gives contents result (spec.contents_2 (cursor from.entry)) }
{
    let (base, rest) = base_at(from)?;
    let (transfer, rest) = longword_at(rest)?;
    let (text_count, rest) = text_count_at(rest)?;
    let (count, rest) = count_at(rest)?;
    let (texts, rest) = texts_at(alloc, text_count, rest)?;
    let (areas, taken, end) = numbered_areas_at(alloc, base, &texts, count, rest)?;
    let image = Image {
        base,
        transfer,
        areas: areas.into(),
    };
    Ok(Contents {
        image,
        complete: taken.len() == texts.len(),
        end,
    })
}
