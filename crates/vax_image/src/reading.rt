//! Reads a file.
ghost use Rattle.std.specs.Prelude.{◌≡◌, ◌⊎◌, ◌++◌, ℕ, List, [], IfOk, Ok, Result};
ghost use Rattle.vax_image.specs.declared.Image.{Image};
ghost use Rattle.vax_image.specs.File.{File, File2, IsSpelled};
ghost use Rattle.vax_image.specs.Image.{is_in, IsImage};
ghost use Rattle.vax_image.specs.Reading as spec;
ghost use Rattle.vax_image.specs.Reading.{Gives};
ghost use Rattle.vax_image.specs.Views as view;

use crate::fields::{Cursor, magic_at, version_at};
use crate::first_version::{Contents, first_contents};
use crate::second_version::second_contents;
use crate::{Image, ImageError, REST, TEXT, TRANSFER};
use std::alloc::Global;
use vax_space::{Area, PAGE_BYTES};

/// The fields of a file.
#[tactic(auto, unfolding(crate::specs::Reading::contents_at))]
fn contents_at<'a>(alloc: Global, bytes: &'a [u8]) -> Result<Contents<'a>, ImageError>
    ensures { Gives view.contents result
        (spec.contents_at (record { place = 0; rest = bytes.entry.now })) }
{
    let start = Cursor {
        rest: bytes,
        place: 0,
    };
    let rest = magic_at(start)?;
    let (version, rest) = version_at(rest)?;
    if version == 1 {
        first_contents(alloc, rest)
    } else {
        second_contents(alloc, rest)
    }
}

/// Whether an area has the byte at an address.
fn is_in(areas: &[Area], addr: u32) -> bool
    ensures { result ≡ is_in areas.now addr }
{
    let page = addr / PAGE_BYTES;
    areas.iter().any(|area| area.has_page(page))
}

/// The image, if nothing is wrong behind the last field or with the whole.
#[tactic(auto, unfolding(crate::specs::Reading::ended))]
fn ended(contents: Contents) -> Result<Image, ImageError>
    ensures { Gives (λ image. image) result (spec.ended (view.contents contents.entry)) }
{
    if !contents.end.rest.is_empty() {
        return Err(ImageError::Fault {
            place: contents.end.place,
            kind: REST,
        });
    }
    if !contents.complete {
        return Err(ImageError::Fault {
            place: 12,
            kind: TEXT,
        });
    }
    if !is_in(contents.image.areas.as_slice(), contents.image.transfer) {
        return Err(ImageError::Fault {
            place: 8,
            kind: TRANSFER,
        });
    }
    Ok(contents.image)
}

#[tactic(auto, unfolding(crate::specs::Reading::image_of))]
fn image_of(alloc: Global, bytes: &[u8]) -> Result<Image, ImageError>
    ensures { Gives (λ image. image) result (spec.image_of bytes.now) }
{
    let contents = contents_at(alloc, bytes)?;
    ended(contents)
}

/// Reads a file of either version. A fault is the first that stands in the file, its fields taken in order: an end inside
/// a field comes before the field's other faults; behind the last field it is first that bytes follow, then that a text
/// isn't used, then that the transfer address lies in no area. No more memory is taken than for the areas' own bytes, which
/// the file has.
pub fn read(alloc: Global, bytes: &[u8]) -> Result<Image, ImageError>
    // What is read is spelled so, each byte of it.
    ensures found { IfOk result (λ image. File image bytes.now ⊎ File2 image bytes.now) }
    ensures image { IfOk result IsImage }
    // What is spelled so is read, unless memory is refused.
    ensures first { (image : Image) →
        File image bytes.now → Gives (λ read. read) result (Ok image) }
    ensures second { (image : Image) →
        File2 image bytes.now → Gives (λ read. read) result (Ok image) }
    // Which fault it is.
    ensures exact { Gives (λ image. image) result (spec.image_of bytes.now) }
{
    image_of(alloc, bytes)
}

/// No file of an image begins another file: a file that goes on behind an image's fields is none.
pub fn one_spelling()
    ensures { (a b : Image) (x y rest : List ℕ) →
        IsSpelled a x → IsSpelled b y → x ++ rest ≡ y → (a ≡ b) × (rest ≡ []) }
{}
