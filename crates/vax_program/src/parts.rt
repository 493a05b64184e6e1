// What the files of a program are.

ghost use Rattle.std.specs.Prelude.{◌≡◌, ◌≤◌, ◌+◌, ◌∷◌, [], All, IfOk, Ok, length, true};
ghost use Rattle.vax_image.specs.Image.{IsImage};
ghost use Rattle.vax_image.specs.Reading.{image_of};
ghost use Rattle.vax_module.specs.Formed.{Formed};
ghost use Rattle.vax_elf.specs.Reading as elf;
ghost use Rattle.vax_program.specs.Program.{for_base, from_executable, from_image, is_image, is_linked, modules_of, parts_of, same_base};
ghost use Rattle.vax_program.specs.View.{Answers, IsSound, base_of, parts_seen, texts};

use crate::types::{Parts, ProgramError, Refusal};
use std::alloc::Global;
use vax_asm::{AsmError, assemble};
use vax_dialect::Dialect;
use vax_elf::{ElfError, is_executable};
use vax_image::{BASE, Base, Image, ImageError, read};
use vax_module::Module;

/// Where the base stands in an image's file.
const BASE_PLACE: u32 = 6;

/// Where an executable says at which address it begins.
const ENTRY_PLACE: u32 = 24;

/// An executable is one for another base.
const OTHER_BASE: u8 = 34;

/// A linked program stands among several files.
const NOT_ALONE: u8 = 11;

/// Whether a file is one of an image, by its first four bytes.
fn is_image(file: &[u8]) -> bool
    ensures { result ≡ is_image file.now }
{
    file.starts_with(b"VAXI")
}

/// Whether a file is one of a linked program: an image or an executable, by its first bytes.
pub fn is_linked(file: &[u8]) -> bool
    ensures { result ≡ is_linked file.now }
{
    is_image(file) || is_executable(file)
}

fn same_base(a: Base, b: Base) -> bool
    ensures value { result ≡ same_base a b }
    ensures same { result ≡ true → a ≡ b }
{
    match (a, b) {
        (Base::Bare, Base::Bare) | (Base::User, Base::User) => true,
        _ => false,
    }
}

/// A linked program, if it is one for this base; else a fault at the field that tells its base.
fn for_base(base: Base, place: u32, kind: u8, image: Image) -> Result<Parts, ProgramError>
    requires { IsImage image }
    ensures parts { Answers parts_seen result (for_base base place kind image) }
    ensures sound { IfOk result IsSound }
    ensures base { IfOk result (λ p. base_of p ≡ base) }
{
    if same_base(base, image.base) {
        return Ok(Parts::Image(image));
    }
    Err(ProgramError::Refused(Refusal::Image { place, kind }))
}

/// The image in a file.
fn read_image(alloc: Global, base: Base, file: &[u8]) -> Result<Parts, ProgramError>
    ensures parts { Answers parts_seen result (from_image base (image_of file.now)) }
    ensures sound { IfOk result IsSound }
    ensures base { IfOk result (λ p. base_of p ≡ base) }
{
    match read(alloc, file) {
        Ok(image) => for_base(base, BASE_PLACE, BASE, image),
        Err(ImageError::Fault { place, kind }) => Err(ProgramError::Refused(Refusal::Image {
            place,
            kind,
        })),
        Err(ImageError::NoMemory) => Err(ProgramError::NoMemory),
    }
}

/// The image in an executable.
fn read_executable(alloc: Global, base: Base, file: &[u8]) -> Result<Parts, ProgramError>
    ensures parts { Answers parts_seen result (from_executable base (elf.image_of file.now)) }
    ensures sound { IfOk result IsSound }
    ensures base { IfOk result (λ p. base_of p ≡ base) }
{
    match vax_elf::read(alloc, file) {
        Ok(image) => for_base(base, ENTRY_PLACE, OTHER_BASE, image),
        Err(ElfError::Fault { place, kind }) => Err(ProgramError::Refused(Refusal::Image {
            place,
            kind: kind.code(),
        })),
        Err(ElfError::NoMemory) => Err(ProgramError::NoMemory),
    }
}

/// The module of a source among several files.
fn module_of(
    alloc: Global,
    dialect: Dialect,
    file: u8,
    source: &[u8],
) -> Result<Module, ProgramError>
    ensures modules { Answers (λ m. m ∷ []) result (modules_of dialect file (source.now ∷ [])) }
    ensures formed { IfOk result Formed }
{
    if is_linked(source) {
        return Err(ProgramError::Refused(Refusal::Image {
            place: 0,
            kind: NOT_ALONE,
        }));
    }
    match assemble(alloc, dialect, source) {
        Ok(module) => Ok(module),
        Err(AsmError::Fault { line, kind }) => Err(ProgramError::Refused(Refusal::Source {
            file,
            line,
            kind: kind.code(),
        })),
        Err(AsmError::NoMemory) => Err(ProgramError::NoMemory),
    }
}

/// The modules of sources of a dialect.
#[tactic(auto, using(crate::proofs::Joining::one_more, crate::proofs::Joining::refused))]
fn read_sources(
    alloc: Global,
    dialect: Dialect,
    first: u8,
    files: &[Vec<u8>],
) -> Result<Vec<Module>, ProgramError>
    requires few { first + length files.now ≤ 255 }
    ensures modules { Answers (λ v. v.items) result (modules_of dialect first (texts files.now)) }
    ensures formed { IfOk result (λ v. All Formed v.items) }
    ensures count { IfOk result (λ v. length v.items ≡ length files.now) }
{
    let mut modules = Vec::new(alloc);
    let mut number = first;
    for file in files {
        let module = module_of(alloc, dialect, number, file)?;
        modules.push(module)?;
        number += 1;
    }
    Ok(modules)
}

/// The parts of a program for a base, whose files are numbered from `first` on: an image or an executable that
/// stands alone, or sources, which are of a dialect. To an image or an executable the dialect means nothing.
///
/// [`Refusal::Source`] with the first fault of the first source that has one; [`Refusal::Image`] with the first fault of an
/// image's or an executable's file, also where it is one for another base, or where it stands among several files; [`ProgramError::NoMemory`] where memory is refused.
#[tactic(auto, unfolding(crate::specs::Program::parts_of))]
pub fn read_parts(
    alloc: Global,
    dialect: Dialect,
    base: Base,
    first: u8,
    files: &[Vec<u8>],
) -> Result<Parts, ProgramError>
    requires some { 1 ≤ length files.now }
    requires few { length files.now ≤ 8 }
    requires numbers { first + length files.now ≤ 255 }
    ensures parts { Answers parts_seen result (parts_of dialect base first (texts files.now)) }
    ensures sound { IfOk result IsSound }
    ensures base { IfOk result (λ p. base_of p ≡ base) }
{
    if let [file] = files {
        if is_image(file) {
            return read_image(alloc, base, file);
        }
        if is_executable(file) {
            return read_executable(alloc, base, file);
        }
    }
    let list = read_sources(alloc, dialect, first, files)?;
    Ok(Parts::Modules { base, list })
}
