// What is told of a program.

ghost use Rattle.std.specs.Prelude.{◌≡◌, IfOk};
ghost use Rattle.std.specs.Option.{option_map};
ghost use Rattle.vax_asm_causes.specs.View.{asked_by};
ghost use Rattle.vax_check.specs.Linking.{files_of, link_text};
ghost use Rattle.vax_check.specs.Told.{AreErrorsOf, Tells, asked_of, asked_with};
ghost use Rattle.vax_check.specs.View.{titles_of};
ghost use Rattle.vax_prelude.specs.View.{preludes_seen};
ghost use Rattle.vax_program.specs.View.{refusal_seen, texts};

use crate::errors::errors_of;
use crate::image::image_text;
use crate::refusal::{Found, link_text};
use crate::remarks::push_each;
use crate::sources::files_of;
use std::alloc::Global;
use vax_asm_errors::{Prelude, Wanted};
use vax_dialect::Dialect;
use vax_program::Refusal;
use vax_space::NoMemory;

/// The files of a program: the dialect of its sources, the preludes that stand before them, their names, their bytes with those of the preludes, one for each
/// name; and whether it is one for the bare machine.
#[derive(Clone, Copy)]
pub struct Files<'a> {
    pub dialect: Dialect,
    pub preludes: &'a [Prelude<'a>],
    pub names: &'a [&'a str],
    pub texts: &'a [Vec<u8>],
    pub bare: bool,
}

/// The error of what the linker found.
fn link_error(alloc: Global, files: Files<'_>, found: Found<'_>) -> Result<Vec<u8>, NoMemory>
    ensures { IfOk result (λ v. v.items ≡ link_text files.entry.dialect
        found.entry.kind found.entry.name.now found.entry.address
        (files_of (titles_of (preludes_seen files.entry.preludes.now) files.entry.names.now)
        (texts files.entry.texts.now))) }
{
    let all = files_of(alloc, files)?;
    link_text(alloc, files.dialect, found, &all)
}

/// Why files give no program.
fn errors_in(alloc: Global, files: Files<'_>, refusal: &Refusal) -> Result<Vec<u8>, NoMemory>
    ensures { IfOk result (λ v. AreErrorsOf files.entry.dialect
        (titles_of (preludes_seen files.entry.preludes.now) files.entry.names.now)
        (texts files.entry.texts.now) (refusal_seen refusal.now)
        v.items) }
{
    match refusal {
        Refusal::Source { .. } => errors_of(alloc, files),
        Refusal::Link {
            kind,
            name,
            address,
        } => {
            let found = Found {
                kind: *kind,
                name: name.as_slice(),
                address: *address,
            };
            link_error(alloc, files, found)
        }
        Refusal::Image { place, kind } => image_text(alloc, *place, *kind),
    }
}

/// Remarks that are asked for.
#[tactic(auto, unfolding(crate::specs::Told::asked_with))]
fn asked_with(bare: bool, unused: bool, name: &[u8]) -> Wanted<'_>
    ensures { asked_by result ≡ asked_with bare unused name.entry.now }
{
    Wanted { bare, unused, name }
}

/// Which remarks are asked for beside a refusal, or where there is none.
fn asked_of<'a>(bare: bool, refusal: Option<&'a Refusal>) -> Wanted<'a>
    ensures { asked_by result ≡ asked_of bare (option_map (λ r. refusal_seen r.now) refusal.entry) }
{
    match refusal {
        None => asked_with(bare, true, &[]),
        Some(Refusal::Link { name, .. }) => asked_with(bare, true, name.as_slice()),
        Some(_) => asked_with(bare, false, &[]),
    }
}

/// What is to be told of files that have this refusal, or none: where a source has a fault, all errors of all sources; else what the linker found, or the
/// fault of an image's or an executable's file; and then remarks on the sources.
///
/// # Errors
///
/// [`NoMemory`] where memory is refused.
pub fn text_of(
    alloc: Global,
    files: Files<'_>,
    refusal: Option<&Refusal>,
) -> Result<Vec<u8>, NoMemory>
    ensures { IfOk result (λ v. Tells files.entry.dialect files.entry.bare
        (titles_of (preludes_seen files.entry.preludes.now) files.entry.names.now)
        (texts files.entry.texts.now)
        (option_map (λ r. refusal_seen r.now) refusal.entry) v.items) }
{
    let mut out = match refusal {
        Some(refusal) => errors_in(alloc, files, refusal)?,
        None => Vec::new(alloc),
    };
    push_each(alloc, &mut out, files, asked_of(files.bare, refusal))?;
    Ok(out)
}
