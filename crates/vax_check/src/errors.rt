// The errors of all sources.

ghost use Rattle.std.specs.Prelude.{◌≡◌, [], IfOk, OnOk};
ghost use Rattle.vax_check.specs.Told.{AreTold, IsFileTold};
ghost use Rattle.vax_check.specs.View.{titles_of};
ghost use Rattle.vax_prelude.specs.View.{preludes_seen, title_seen};
ghost use Rattle.vax_program.specs.Program.{is_image, is_linked};
ghost use Rattle.vax_program.specs.View.{texts as texts_seen};

use crate::text::Files;
use std::alloc::Global;
use vax_asm_errors::{Prelude, Source, Title, push_errors};
use vax_dialect::Dialect;
use vax_elf::is_executable;
use vax_space::NoMemory;

/// Whether a file begins as that of an image.
fn is_image(file: &[u8]) -> bool
    ensures { result ≡ is_image file.now }
{
    file.starts_with(b"VAXI")
}

/// Whether a file is that of a linked program, and no source.
pub(crate) fn is_linked(file: &[u8]) -> bool
    ensures { result ≡ is_linked file.now }
{
    is_image(file) || is_executable(file)
}

/// Appends the errors of a file, if it is a source.
fn push_file(alloc: Global, out: &mut Vec<u8>, file: Source<'_>) -> Result<(), NoMemory>
    ensures { OnOk result (IsFileTold file.entry.dialect (title_seen file.entry.title)
        file.entry.text.now out.old.items out.new.items) }
{
    if is_linked(file.text) {
        return Ok(());
    }
    push_errors(alloc, out, file)
}

/// Appends the errors of a file of a dialect, if it is a source.
fn push_named(
    alloc: Global,
    out: &mut Vec<u8>,
    dialect: Dialect,
    title: Title<'_>,
    text: &[u8],
) -> Result<(), NoMemory>
    ensures { OnOk result (IsFileTold dialect (title_seen title.entry) text.now
        out.old.items out.new.items) }
{
    let file = Source {
        dialect,
        title,
        text,
    };
    push_file(alloc, out, file)
}

/// The title of a file with a name.
pub(crate) fn title_of<'a>(preludes: &'a [Prelude<'a>], name: &'a str) -> Title<'a>
    ensures { title_seen result ≡ record {
      preludes = preludes_seen preludes.entry.now;
      name = name.entry.now;
    } }
{
    let name = name.as_bytes();
    Title { preludes, name }
}

/// The errors of all sources of a dialect among these files, in order.
#[tactic(auto, using(crate::proofs::Telling::file_more))]
pub(crate) fn errors_of(alloc: Global, files: Files<'_>) -> Result<Vec<u8>, NoMemory>
    ensures { IfOk result (λ v. AreTold files.entry.dialect
        (titles_of (preludes_seen files.entry.preludes.now) files.entry.names.now)
        (texts_seen files.entry.texts.now) [] v.items) }
{
    let mut out = Vec::new(alloc);
    for i in 0..files.names.len().min(files.texts.len()) {
        let title = title_of(files.preludes, files.names[i]);
        push_named(alloc, &mut out, files.dialect, title, &files.texts[i])?;
    }
    Ok(out)
}
