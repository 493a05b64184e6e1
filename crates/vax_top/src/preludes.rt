//! What stands before the sources of a command.
ghost use Rattle.std.specs.Prelude.{◌≡◌, ◌⊎◌, IfErr, IfOk, length};
ghost use Rattle.std.specs.Option.{option_map};
ghost use Rattle.vax_command.specs.ReadingView.{bytes_of, texts};
ghost use Rattle.vax_prelude.specs.View.{preludes_seen};
ghost use Rattle.vax_top.specs.Loaded.{joined_file, joined_files};
ghost use Rattle.vax_top.specs.LoadedView.{retold};

use std::alloc::Global;
use vax_command::Status;
use vax_prelude::{Place, Prelude, joined, told_at};
use vax_program::is_linked;
use vax_space::NoMemory;

/// What is read for a file: a source begins with its preludes.
fn join_file(alloc: Global, preludes: &[Prelude<'_>], text: &[u8]) -> Result<Vec<u8>, NoMemory>
    ensures { IfOk result (λ v. v.items ≡ joined_file (preludes_seen preludes.now) text.now) }
{
    if is_linked(text) {
        return text.to_vec(alloc).map_err(|_| NoMemory);
    }
    joined(alloc, preludes, text).map_err(|_| NoMemory)
}

/// The same of the files of a program.
#[tactic(auto, using(crate::proofs::Joining::file_joined, crate::proofs::Joining::files_joined, crate::proofs::Joining::joined_counted))]
pub(crate) fn join_files(
    alloc: Global,
    preludes: &[Prelude<'_>],
    files: &[Vec<u8>],
) -> Result<Vec<Vec<u8>>, NoMemory>
    ensures joined { IfOk result (λ v. texts v.items
        ≡ joined_files (preludes_seen preludes.now) (texts files.now)) }
    ensures count { IfOk result (λ v. length v.items ≡ length files.now) }
{
    let mut all = Vec::new(alloc);
    for file in files {
        let text = join_file(alloc, preludes, file)?;
        all.push(text).map_err(|_| NoMemory)?;
    }
    Ok(all)
}

/// The same of a system's file, if it is given.
pub(crate) fn join_given(
    alloc: Global,
    preludes: &[Prelude<'_>],
    file: Option<Vec<u8>>,
) -> Result<Option<Vec<u8>>, NoMemory>
    ensures { IfOk result (λ o. bytes_of o
        ≡ option_map (joined_file (preludes_seen preludes.now)) (bytes_of file)) }
{
    match file {
        None => Ok(None),
        Some(file) => Ok(Some(join_file(alloc, preludes, &file)?)),
    }
}

/// A fault of a source's text is told where it is: at a line of a prelude, or of the source.
pub(crate) fn tell_at(preludes: &[Prelude<'_>], status: Status) -> Status
    ensures { result ≡ retold (preludes_seen preludes.now) status }
{
    match status {
        Status::Refused { file, line, kind } => match told_at(preludes, line as usize) {
            Place::Prelude { number, line, .. } => Status::Macros {
                file: number,
                line: line as u32,
                kind,
            },
            Place::Source { line } => Status::Refused {
                file,
                line: line as u32,
                kind,
            },
        },
        other => other,
    }
}
