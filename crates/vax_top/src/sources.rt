//! The listing of a program's sources.
ghost use Rattle.std.specs.Prelude.{◌≡◌, ◌≤◌, ◌⊎◌, IfErr, IfOk, length};
ghost use Rattle.vax_asm_listing.specs.Listed.{IsListing};
ghost use Rattle.vax_command.specs.ReadingView.{texts};
ghost use Rattle.vax_top.specs.Loaded.{IsRefused, sources_image};
ghost use Rattle.vax_top.specs.LoadedView.{AnswersListing};

use crate::programs::answer_to;
use std::alloc::Global;
use vax_asm_listing::{ListingError, list_sources};
use vax_command::Status;
use vax_dialect::Dialect;
use vax_image::Base;
use vax_program::{ProgramError, Refusal, link_refusal};

/// Why sources that have no listing give no program.
fn program_error(alloc: Global, error: ListingError) -> ProgramError
    ensures answers { AnswersListing error result }
{
    match error {
        ListingError::Source { file, line, kind } => {
            let kind = kind.code();
            ProgramError::Refused(Refusal::Source { file, line, kind })
        }
        ListingError::Link(error) => link_refusal(alloc, error),
        ListingError::NoMemory => ProgramError::NoMemory,
    }
}

/// The listing of the texts of a program's sources, of a dialect, for a base.
pub(crate) fn load_listing(
    alloc: Global,
    dialect: Dialect,
    base: Base,
    files: &[Vec<u8>],
) -> Result<Vec<u8>, Status>
    requires some { 1 ≤ length files.now }
    requires few { length files.now ≤ 8 }
    ensures listing { IfOk result (λ text. IsListing dialect base (texts files.now) text.items) }
    ensures refused { IfErr result (λ status.
        IsRefused (sources_image dialect base (texts files.now)) status
        ⊎ (status ≡ Status.NoMemory)) }
{
    match list_sources(alloc, dialect, base, files) {
        Ok(text) => Ok(text),
        Err(error) => Err(answer_to(program_error(alloc, error))),
    }
}
