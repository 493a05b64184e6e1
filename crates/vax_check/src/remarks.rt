// The remarks on all sources.

ghost use Rattle.std.specs.Prelude.{OnOk};
ghost use Rattle.vax_asm_causes.specs.View.{asked_by};
ghost use Rattle.vax_check.specs.Told.{AreRemarked, IsFileRemarked};
ghost use Rattle.vax_check.specs.View.{titles_of};
ghost use Rattle.vax_prelude.specs.View.{preludes_seen, title_seen};
ghost use Rattle.vax_program.specs.View.{texts as texts_seen};

use crate::errors::{is_linked, title_of};
use crate::text::Files;
use std::alloc::Global;
use vax_asm_errors::{Source, Title, Wanted, push_remarks};
use vax_dialect::Dialect;
use vax_space::NoMemory;

/// Appends remarks on a file, if it is a source.
fn push_file(
    alloc: Global,
    out: &mut Vec<u8>,
    file: Source<'_>,
    wanted: Wanted<'_>,
) -> Result<(), NoMemory>
    ensures { OnOk result (IsFileRemarked file.entry.dialect (asked_by wanted.entry)
        (title_seen file.entry.title) file.entry.text.now out.old.items out.new.items) }
{
    if is_linked(file.text) {
        return Ok(());
    }
    push_remarks(alloc, out, file, wanted)
}

/// Appends remarks on a file of a dialect, if it is a source.
fn push_named(
    alloc: Global,
    out: &mut Vec<u8>,
    dialect: Dialect,
    title: Title<'_>,
    text: &[u8],
    wanted: Wanted<'_>,
) -> Result<(), NoMemory>
    ensures { OnOk result (IsFileRemarked dialect (asked_by wanted.entry)
        (title_seen title.entry) text.now out.old.items out.new.items) }
{
    let file = Source {
        dialect,
        title,
        text,
    };
    push_file(alloc, out, file, wanted)
}

/// Appends remarks on all sources among these files, in order.
#[tactic(auto, using(crate::proofs::Telling::remark_more))]
pub(crate) fn push_each(
    alloc: Global,
    out: &mut Vec<u8>,
    files: Files<'_>,
    wanted: Wanted<'_>,
) -> Result<(), NoMemory>
    ensures { OnOk result (AreRemarked files.entry.dialect (asked_by wanted.entry)
        (titles_of (preludes_seen files.entry.preludes.now) files.entry.names.now)
        (texts_seen files.entry.texts.now) out.old.items out.new.items) }
{
    for i in 0..files.names.len().min(files.texts.len()) {
        let title = title_of(files.preludes, files.names[i]);
        push_named(alloc, out, files.dialect, title, &files.texts[i], wanted)?;
    }
    Ok(())
}
