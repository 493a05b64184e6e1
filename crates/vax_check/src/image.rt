// The fault of an image's or an executable's file.

ghost use Rattle.std.specs.Prelude.{◌≡◌, ◌++◌, IfOk, OnOk};
ghost use Rattle.vax_check.specs.Told.{executable_words, image_head, image_place, image_text, image_words};

use crate::refusal::{copied, push};
use std::alloc::Global;
use vax_outside::Text;
use vax_space::NoMemory;

/// The fault of a field of an executable, in words.
#[tactic(auto, unfolding(crate::specs::Told::executable_words))]
fn executable_words(kind: u8) -> &'static [u8]
    ensures { result.now ≡ executable_words kind }
{
    match kind {
        20 => b"the executable isn't one of 32 bits",
        21 => b"its numbers don't have their low bytes first",
        22 => b"its version isn't 1",
        23 => b"it is no executable with fixed addresses",
        24 => b"it is for another machine than the VAX",
        25 => b"its header hasn't 52 bytes, or a program header hasn't 32",
        26 => b"it has no program headers, more than 64, or nothing that is loaded",
        27 => b"the file ends inside a header or a segment's bytes",
        28 => b"it wants an interpreter, as programs with shared libraries do",
        29 => b"a segment has more bytes in the file than in memory",
        30 => {
            b"a segment's alignment is no power of two, or its address and its offset don't agree by it"
        }
        31 => b"a segment lies outside the part of memory in which the program begins",
        32 => b"a segment begins on a page of the one before it, or before that",
        33 => b"the program begins in no segment",
        34 => b"it is for another base than the command needs",
        _ => b"the file isn't one that can be run here",
    }
}

/// The fault of a field of an image, in words.
#[tactic(auto, unfolding(crate::specs::Told::image_words))]
fn image_words(kind: u8) -> &'static [u8]
    ensures { result.now ≡ image_words kind }
{
    match kind {
        1 => b"an image begins with `VAXI`",
        2 => b"its version is neither 1 nor 2",
        3 => b"it is for another base, or for none that there is",
        4 => b"it has no areas, or more than 64 areas or texts",
        5 => b"an area has no page, overlaps the one before it, or lies outside its part of memory",
        6 => b"there is no such protection",
        7 => b"it has more bytes than the area's pages hold, or a text that is empty or too long",
        8 => b"the file ends inside the field",
        9 => b"bytes stand behind the last area",
        10 => b"the program begins in no area",
        11 => b"an image or an executable can't be joined with other files",
        12 => b"an area's text has another number than it must have, or no area uses a text",
        _ => executable_words(kind),
    }
}

/// How the error of a file begins, with its kind.
#[tactic(auto, unfolding(crate::specs::Told::image_head))]
fn image_head(alloc: Global, kind: u8) -> Result<Vec<u8>, NoMemory>
    ensures { IfOk result (λ v. v.items ≡ image_head kind) }
{
    let mut text = Text::new();
    text.push(b"error: image ");
    text.push_decimal(u64::from(kind));
    text.push(b": ");
    copied(alloc, text.as_slice())
}

/// How the error of a file ends, with the place of the field, counted from 0.
#[tactic(auto, unfolding(crate::specs::Told::image_place))]
fn push_place(out: &mut Vec<u8>, place: u32) -> Result<(), NoMemory>
    ensures { OnOk result (out.new.items ≡ out.old.items ++ image_place place) }
{
    let mut text = Text::new();
    text.push(b", at its byte ");
    text.push_decimal(u64::from(place));
    text.push(b"\n");
    push(out, text.as_slice())
}

/// The error of an image's or an executable's file: what is wrong, and with the field at which place, counted from 0.
#[tactic(auto, unfolding(crate::specs::Told::image_text))]
pub(crate) fn image_text(alloc: Global, place: u32, kind: u8) -> Result<Vec<u8>, NoMemory>
    ensures { IfOk result (λ v. v.items ≡ image_text place kind) }
{
    let mut out = image_head(alloc, kind)?;
    push(&mut out, image_words(kind))?;
    push_place(&mut out, place)?;
    Ok(out)
}
