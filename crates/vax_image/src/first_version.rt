//! Files of version 1.
ghost use Rattle.std.specs.Prelude.{◌+◌, ◌*◌, ◌<◌, ◌≤◌, IfOk};
ghost use Rattle.vax_image.specs.Image as image;
ghost use Rattle.vax_image.specs.Reading as spec;
ghost use Rattle.vax_image.specs.Reading.{Gives};
ghost use Rattle.vax_image.specs.Views.{contents, cursor};

use crate::fields::{
    Cursor, base_at, bytes_at, count_at, length_at, longword_at, pages_at, protection_at,
};
use crate::{Base, Image, ImageError};
use std::alloc::Global;
use vax_space::Area;

/// What the fields of a file say.
#[derive(Drop)]
pub(crate) struct Contents<'a> {
    pub(crate) image: Image,
    /// Whether each text is used.
    pub(crate) complete: bool,
    /// What stands behind the last field.
    pub(crate) end: Cursor<'a>,
}

/// An area that stands at page `low` or behind it.
#[tactic(auto, unfolding(crate::specs::Reading::area_at))]
fn area_at<'a>(
    alloc: Global,
    base: Base,
    low: u32,
    from: Cursor<'a>,
) -> Result<(Area, Cursor<'a>), ImageError>
    requires early { from.place ≤ 2048 + 512 * low }
    requires low { low ≤ image.end_page base }
    ensures gives { Gives (λ x. (x.0, cursor x.1)) result
        (spec.area_at base low (cursor from.entry)) }
    ensures behind { IfOk result (λ x. low ≤ x.0.first) }
    ensures within { IfOk result (λ x. x.0.first + x.0.pages ≤ image.end_page base) }
    ensures small { IfOk result (λ x. x.0.first + x.0.pages ≤ 0x400800) }
    ensures moved { IfOk result (λ x. x.1.place ≤ from.entry.place + 16 + 512 * x.0.pages) }
{
    let ((first, pages), rest) = pages_at(base, low, from)?;
    let (prot, rest) = protection_at(rest)?;
    let (len, rest) = length_at(pages, rest)?;
    let (bytes, rest) = bytes_at(len, rest)?;
    let bytes = Vec::from_slice(alloc, bytes)?.into();
    Ok((
        Area {
            first,
            pages,
            prot,
            bytes,
        },
        rest,
    ))
}

/// So many areas, each behind the one before it.
fn areas_at<'a>(
    alloc: Global,
    base: Base,
    count: u32,
    from: Cursor<'a>,
) -> Result<(Vec<Area>, Cursor<'a>), ImageError>
    requires few { count ≤ 64 }
    requires early { from.place ≤ 24 }
    ensures { Gives (λ x. (x.0.items, cursor x.1)) result
        (spec.areas_at base (image.first_page base) count (cursor from.entry)) }
{
    let mut areas = Vec::new(alloc);
    let mut low = base.first_page();
    let mut rest = from;
    for _ in 0..count {
        let (area, after) = area_at(alloc, base, low, rest)?;
        low = area.first + area.pages;
        areas.push(area)?;
        rest = after;
    }
    Ok((areas, rest))
}

/// The fields behind the version.
#[tactic(auto, unfolding(crate::specs::Reading::contents_1))]
pub(crate) fn first_contents<'a>(
    alloc: Global,
    from: Cursor<'a>,
) -> Result<Contents<'a>, ImageError>
    requires { from.place ≤ 6 }
    ensures { Gives contents result (spec.contents_1 (cursor from.entry)) }
{
    let (base, rest) = base_at(from)?;
    let (transfer, rest) = longword_at(rest)?;
    let (count, rest) = count_at(rest)?;
    let (areas, end) = areas_at(alloc, base, count, rest)?;
    let image = Image {
        base,
        transfer,
        areas: areas.into(),
    };
    Ok(Contents {
        image,
        complete: true,
        end,
    })
}
