//! The programs of a command.
ghost use Rattle.std.specs.Prelude.{◌≡◌, ◌≤◌, ◌∷◌, [], IfOk, length};
ghost use Rattle.vax_image.specs.Image.{IsImage};
ghost use Rattle.vax_image.specs.declared.Base.TheVariants as base;
ghost use Rattle.vax_prelude.specs.View.{preludes_seen};
ghost use Rattle.vax_program.specs.Program.{parts_of};
ghost use Rattle.vax_program.specs.View.{IsSound, base_of, parts_seen};
ghost use Rattle.vax_top.specs.Loaded.{bare_loaded, image_for, image_from, linked_over, system_parts, user_loaded};
ghost use Rattle.vax_command.specs.Loaded.{AreSound, loaded_seen};
ghost use Rattle.vax_top.specs.LoadedView.{Answers, Loads};
ghost use Rattle.vax_command.specs.ReadingView.{bytes_of, texts};

use crate::preludes::{join_files, tell_at};
use std::alloc::{AllocError, Global};
use vax_command::{Programs, Status};
use vax_dialect::Dialect;
use vax_guest::executive;
use vax_image::{Base, Image};
use vax_prelude::Prelude;
use vax_program::{Parts, ProgramError, Refusal, link_parts, read_parts};

/// The answer to an error.
pub(crate) fn answer_to(error: ProgramError) -> Status
    ensures { Answers error result }
{
    match error {
        ProgramError::Refused(Refusal::Source { file, line, kind }) => {
            Status::Refused { file, line, kind }
        }
        ProgramError::Refused(
            Refusal::Link {
                kind,
                name,
                address,
            },
        ) => Status::Link {
            kind,
            name,
            place: address,
        },
        ProgramError::Refused(Refusal::Image { place, kind }) => Status::Image { place, kind },
        ProgramError::NoMemory => Status::NoMemory,
    }
}

/// The image of a program's files for a base; its sources are of a dialect.
fn load_image(
    alloc: Global,
    dialect: Dialect,
    base: Base,
    files: &[Vec<u8>],
) -> Result<Image, Status>
    requires some { 1 ≤ length files.now }
    requires few { length files.now ≤ 8 }
    ensures image { Loads (λ image. image) result (image_from dialect base (texts files.now)) }
    ensures sound { IfOk result IsImage }
    ensures base { IfOk result (λ image. image.base ≡ base) }
{
    let parts = match read_parts(alloc, dialect, base, 1, files) {
        Ok(parts) => parts,
        Err(error) => return Err(answer_to(error)),
    };
    match link_parts(alloc, parts) {
        Ok(image) => Ok(image),
        Err(error) => Err(answer_to(error)),
    }
}

/// The same of files whose sources have preludes.
#[tactic(auto, using(crate::proofs::Retelling::told_loads, crate::proofs::Retelling::told_refused))]
pub(crate) fn load_image_for(
    alloc: Global,
    preludes: &[Prelude<'_>],
    dialect: Dialect,
    base: Base,
    files: &[Vec<u8>],
) -> Result<Image, Status>
    requires some { 1 ≤ length files.now }
    requires few { length files.now ≤ 8 }
    ensures image { Loads (λ image. image) result
        (image_for (preludes_seen preludes.now) dialect base (texts files.now)) }
    ensures sound { IfOk result IsImage }
    ensures base { IfOk result (λ image. image.base ≡ base) }
{
    let Ok(joined) = join_files(alloc, preludes, files) else {
        return Err(Status::NoMemory);
    };
    match load_image(alloc, dialect, base, &joined) {
        Ok(image) => Ok(image),
        Err(status) => Err(tell_at(preludes, status)),
    }
}

/// A program for the bare machine.
pub(crate) fn load_bare(
    alloc: Global,
    dialect: Dialect,
    files: &[Vec<u8>],
) -> Result<Programs, Status>
    requires some { 1 ≤ length files.now }
    requires few { length files.now ≤ 8 }
    ensures loads { Loads loaded_seen result (bare_loaded dialect (texts files.now)) }
    ensures sound { IfOk result AreSound }
{
    match load_image(alloc, dialect, Base::Bare, files) {
        Ok(system) => Ok(Programs { system, user: None }),
        Err(status) => Err(status),
    }
}

/// A program in user mode over its system: both are parts so far.
fn link_over(alloc: Global, user: Parts, below: Parts) -> Result<Programs, Status>
    requires user { base_of user ≡ base.User }
    requires user_sound { IsSound user }
    requires below { base_of below ≡ base.Bare }
    requires below_sound { IsSound below }
    ensures loads { Loads loaded_seen result (linked_over (parts_seen user) (parts_seen below)) }
    ensures sound { IfOk result AreSound }
{
    let user = match link_parts(alloc, user) {
        Ok(image) => image,
        Err(error) => return Err(answer_to(error)),
    };
    match link_parts(alloc, below) {
        Ok(system) => Ok(Programs {
            system,
            user: Some(user),
        }),
        Err(error) => Err(answer_to(error)),
    }
}

/// One text as a list of files.
pub(crate) fn alone(alloc: Global, text: Vec<u8>) -> Result<Vec<Vec<u8>>, AllocError>
    ensures { IfOk result (λ v. v.items ≡ text ∷ []) }
{
    let mut files = Vec::new(alloc);
    files.push(text)?;
    Ok(files)
}

/// The parts of a system, of one text.
fn read_below(alloc: Global, dialect: Dialect, text: Vec<u8>) -> Result<Parts, Status>
    ensures parts { Loads parts_seen result (parts_of dialect base.Bare 0 (text.items ∷ [])) }
    ensures sound { IfOk result IsSound }
    ensures base { IfOk result (λ p. base_of p ≡ base.Bare) }
{
    let Ok(files) = alone(alloc, text) else {
        return Err(Status::NoMemory);
    };
    match read_parts(alloc, dialect, Base::Bare, 0, &files) {
        Ok(parts) => Ok(parts),
        Err(error) => Err(answer_to(error)),
    }
}

/// The parts of a system: of the file that is given, whose source is of a dialect, else of the executive's source, which is
/// of the smaller one.
pub(crate) fn read_system(
    alloc: Global,
    dialect: Dialect,
    given: Option<Vec<u8>>,
) -> Result<Parts, Status>
    ensures parts { Loads parts_seen result (system_parts dialect (bytes_of given)) }
    ensures sound { IfOk result IsSound }
    ensures base { IfOk result (λ p. base_of p ≡ base.Bare) }
{
    if let Some(text) = given {
        return read_below(alloc, dialect, text);
    }
    let Ok(text) = Vec::from_slice(alloc, executive()) else {
        return Err(Status::NoMemory);
    };
    read_below(alloc, Dialect::Vax, text)
}

/// A program in user mode, of the texts of its files, and its system.
pub(crate) fn load_user(
    alloc: Global,
    dialect: Dialect,
    files: &[Vec<u8>],
    system: Option<Vec<u8>>,
) -> Result<Programs, Status>
    requires some { 1 ≤ length files.now }
    requires few { length files.now ≤ 8 }
    ensures loads { Loads loaded_seen result
        (user_loaded dialect (texts files.now) (bytes_of system)) }
    ensures sound { IfOk result AreSound }
{
    let user = match read_parts(alloc, dialect, Base::User, 1, files) {
        Ok(parts) => parts,
        Err(error) => return Err(answer_to(error)),
    };
    let below = match read_system(alloc, dialect, system) {
        Ok(parts) => parts,
        Err(status) => return Err(status),
    };
    link_over(alloc, user, below)
}
