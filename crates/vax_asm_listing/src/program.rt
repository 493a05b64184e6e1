// The listing of a program's sources.

ghost use Rattle.std.specs.Prelude.{◌≡◌, ◌≤◌, All, IfErr, IfOk, Ok, length};
ghost use Rattle.vax_link.specs.Linked.{linked};
ghost use Rattle.vax_module.specs.Formed.{Formed};
ghost use Rattle.vax_asm_listing.specs.Listed.{AreTraced, FileRefuses, FilesRefuse, IsListing, IsTraced, LinkRefuses, Refuses, parts_in, texts};
ghost use Rattle.vax_asm_listing.specs.Placings.{parts_of};

use crate::tables::listing;
use crate::tracing::trace;
use crate::types::{Notes, Part, Program, Trace};
use std::alloc::{AllocError, AllocFailed, Global};
use thiserror::Error;
use vax_asm::{AsmError, FaultKind};
use vax_dialect::Dialect;
use vax_image::{Base, Image};
use vax_link::{LinkError, addresses, link};
use vax_module::Module;

/// Why sources have no listing.
#[derive(Debug, Drop, Error)]
pub enum ListingError {
    /// The first fault of the first source that has one, by the number of its file, from 1 on.
    #[error("source {file} line {line}: {kind}")]
    Source {
        file: u8,
        line: u32,
        kind: FaultKind,
    },
    /// What the linker found.
    #[error("{0}")]
    Link(LinkError),
    #[error("out of memory")]
    NoMemory,
}

impl From<AllocError> for ListingError {
    ghost use Rattle.std.specs.Prelude.{◌≡◌};
    ghost use Rattle.vax_asm_listing.specs.declared.program.ListingError.TheVariants as error;

    ghost from_gives = { λ _ e. e ≡ error.NoMemory };

    fn from(_error: AllocError) -> ListingError {
        ListingError::NoMemory
    }
}

impl<T: Drop> From<AllocFailed<T>> for ListingError {
    ghost use Rattle.std.specs.Prelude.{◌≡◌};
    ghost use Rattle.vax_asm_listing.specs.declared.program.ListingError.TheVariants as error;

    ghost from_gives = { λ _ e. e ≡ error.NoMemory };

    fn from(_error: AllocFailed<T>) -> ListingError {
        ListingError::NoMemory
    }
}

/// The module of a source, and what its statements leave beside it.
fn trace_file(
    alloc: Global,
    dialect: Dialect,
    file: u8,
    source: &[u8],
) -> Result<Trace, ListingError>
    ensures trace { IfOk result (λ t. IsTraced dialect source.now t.module t.notes) }
    ensures formed { IfOk result (λ t. Formed t.module) }
    ensures refused { IfErr result (FileRefuses dialect source.now file) }
{
    match trace(alloc, dialect, source) {
        Ok(trace) => Ok(trace),
        Err(AsmError::Fault { line, kind }) => Err(ListingError::Source { file, line, kind }),
        Err(AsmError::NoMemory) => Err(ListingError::NoMemory),
    }
}

/// The modules of sources, at most 8, and what their statements leave beside them.
///
/// [`ListingError::Source`] with the first fault of the first source that has one; [`ListingError::NoMemory`] where memory is refused.
pub fn trace_files(
    alloc: Global,
    dialect: Dialect,
    files: &[Vec<u8>],
) -> Result<(Vec<Module>, Vec<Notes>), ListingError>
    requires { length files.now ≤ 8 }
    ensures traced { IfOk result (λ x. AreTraced dialect (texts files.now) x.0.items x.1.items) }
    ensures formed { IfOk result (λ x. All Formed x.0.items) }
    ensures count { IfOk result (λ x. length x.0.items ≡ length files.now) }
    ensures refused { IfErr result (FilesRefuse dialect (texts files.now)) }
{
    let mut modules = Vec::new(alloc);
    let mut notes = Vec::new(alloc);
    let mut number = 0;
    for file in files {
        number += 1;
        let trace = match trace_file(alloc, dialect, number, file) {
            Ok(trace) => trace,
            Err(error) => return Err(error),
        };
        modules.push(trace.module)?;
        notes.push(trace.notes)?;
    }
    Ok((modules, notes))
}

/// The image of modules.
fn link_modules(alloc: Global, base: Base, modules: &[Module]) -> Result<Image, ListingError>
    requires some { 1 ≤ length modules.now }
    requires few { length modules.now ≤ 8 }
    requires formed { All Formed modules.now }
    ensures image { IfOk result (λ image. linked base modules.now ≡ Ok image) }
    ensures refused { IfErr result (LinkRefuses base modules.now) }
{
    match link(alloc, modules, base) {
        Ok(image) => Ok(image),
        Err(LinkError::NoMemory) => Err(ListingError::NoMemory),
        Err(error) => Err(ListingError::Link(error)),
    }
}

/// Modules with their sources and what these leave, as they are listed.
fn parts_in<'a>(
    alloc: Global,
    files: &'a [Vec<u8>],
    modules: &'a [Module],
    notes: &'a [Notes],
) -> Result<Vec<Part<'a>>, AllocError>
    ensures { IfOk result (λ v. parts_of v.items
        ≡ parts_in (texts files.entry.now) modules.entry.now notes.entry.now) }
{
    let mut parts = Vec::new(alloc);
    let mut modules = modules;
    let mut notes = notes;
    for source in files {
        let Some((module, more)) = modules.split_first() else {
            return Ok(parts);
        };
        let Some((note, others)) = notes.split_first() else {
            return Ok(parts);
        };
        parts.push(Part {
            source,
            module,
            notes: note,
        })?;
        modules = more;
        notes = others;
    }
    Ok(parts)
}

/// The listing of a program's sources, 1 to 8 of a dialect, linked for a base.
///
/// [`ListingError::Source`] with the first fault of the first source that has one; [`ListingError::Link`] with what the linker found;
/// [`ListingError::NoMemory`] where memory is refused.
pub fn list_sources(
    alloc: Global,
    dialect: Dialect,
    base: Base,
    files: &[Vec<u8>],
) -> Result<Vec<u8>, ListingError>
    requires some { 1 ≤ length files.now }
    requires few { length files.now ≤ 8 }
    ensures listing { IfOk result (λ text. IsListing dialect base (texts files.now) text.items) }
    ensures refused { IfErr result (Refuses dialect base (texts files.now)) }
{
    let (modules, notes) = match trace_files(alloc, dialect, files) {
        Ok(found) => found,
        Err(error) => return Err(error),
    };
    let image = match link_modules(alloc, base, &modules) {
        Ok(image) => image,
        Err(error) => return Err(error),
    };
    // What has an image has room.
    let Some(places) = addresses(alloc, base, &modules)? else {
        return Err(ListingError::NoMemory);
    };
    let parts = parts_in(alloc, files, &modules, &notes)?;
    let text = listing(
        alloc,
        Program {
            parts: &parts,
            places: &places,
            areas: image.areas.as_slice(),
            transfer: image.transfer,
        },
    )?;
    Ok(text)
}
