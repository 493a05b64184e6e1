// Reads an executable.
ghost use Rattle.std.specs.Prelude.{◌≡◌, ◌≤◌, IfOk, Ok, length};
ghost use Rattle.vax_image.specs.declared.Image.{Image};
ghost use Rattle.vax_image.specs.Image.{IsImage, is_in};
ghost use Rattle.vax_elf.specs.Executable as spec;
ghost use Rattle.vax_elf.specs.Faults.{Gives};
ghost use Rattle.vax_elf.specs.Reading as reading;

use crate::faults::{ElfError, ElfFault};
use crate::header::{header_of, word_at};
use crate::segments::areas_at;
use std::alloc::Global;
use vax_image::{Areas, Base, Image};
use vax_space::{Area, PAGE_BYTES};

/// Whether a file is one of the format, by its first four bytes.
pub fn is_executable(file: &[u8]) -> bool
    ensures { result ≡ spec.is_executable file.now }
{
    file.starts_with(b"\x7FELF")
}

/// Whether an area has the byte at an address.
fn is_in(areas: &[Area], addr: u32) -> bool
    ensures { result ≡ is_in areas.now addr }
{
    let page = addr / PAGE_BYTES;
    areas.iter().any(|area| area.has_page(page))
}

/// The part of memory in which a program begins.
fn base_of(entry: u32) -> Base
    ensures { result ≡ spec.base_of entry }
{
    if entry < 0x8000_0000 {
        Base::User
    } else {
        Base::Bare
    }
}

/// The image of areas, if there are any and the program begins in one of them.
#[tactic(auto, unfolding(crate::specs::Reading::ended))]
fn ended(file: &[u8], areas: Vec<Area>) -> Result<Image, ElfError>
    requires { 52 ≤ length file.now }
    ensures { Gives (λ image. image) result (reading.ended file.now areas.items) }
{
    let entry = word_at(file, 24);
    if areas.is_empty() {
        return Err(ElfError::Fault {
            place: 44,
            kind: ElfFault::Count,
        });
    }
    if !is_in(&areas, entry) {
        return Err(ElfError::Fault {
            place: 24,
            kind: ElfFault::Entry,
        });
    }
    Ok(Image {
        base: base_of(entry),
        transfer: entry,
        areas: Areas::from(areas),
    })
}

#[tactic(auto, unfolding(crate::specs::Reading::image_of))]
fn image_of(alloc: Global, file: &[u8]) -> Result<Image, ElfError>
    ensures { Gives (λ image. image) result (reading.image_of file.now) }
{
    let count = header_of(file)?;
    let base = base_of(word_at(file, 24));
    let areas = areas_at(alloc, base, file, word_at(file, 28), count)?;
    ended(file, areas)
}

/// The image of an executable with fixed addresses: a program for an executive where it begins below 80000000 (hexadecimal), else a bare
/// one. Each segment that is loaded is an area: pages of 512 bytes that all may read, and a user (in a bare program the kernel) may write where
/// the segment may be written; what the file doesn't hold of them is 0.
///
/// [`ElfError::Fault`] with the first fault: the header's, in the order of its fields, then each program header's, then that nothing is
/// loaded, then that the program begins in no area. No more memory is taken than for the bytes that are loaded.
pub fn read(alloc: Global, file: &[u8]) -> Result<Image, ElfError>
    // What is read is an executable as its fields describe it.
    ensures found { IfOk result (spec.ElfImage file.now) }
    ensures image { IfOk result IsImage }
    // Each of these is read, unless memory is refused.
    ensures first { (image : Image) → spec.ElfImage file.now image
        → Gives (λ read. read) result (Ok image) }
    // Which fault it is.
    ensures exact { Gives (λ image. image) result (reading.image_of file.now) }
{
    image_of(alloc, file)
}
