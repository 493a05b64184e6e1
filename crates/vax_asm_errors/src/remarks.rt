// Remarks on a source as text.

ghost use Rattle.std.specs.Prelude.{◌≡◌, ◌++◌, OnOk};
ghost use Rattle.std.specs.List.{flat_map};
ghost use Rattle.vax_asm_causes.specs.View.{asked_by};
ghost use Rattle.vax_asm_errors.specs.Remarks.{IsRemarked, quoted, remark, remark_at, tone_words, words, words_on};
ghost use Rattle.vax_prelude.specs.View.{title_seen};

use crate::errors::{Source, push, push_mark, push_number};
use crate::line::{line_at, push_bytes};
use crate::notes::{notes_of, push_messages};
use std::alloc::Global;
use vax_asm_causes::{About, Remark, Wanted, remarks_of, text_of};
use vax_prelude::{Title, told_in};
use vax_space::NoMemory;

/// How a remark is meant, in words.
#[tactic(auto, unfolding(crate::specs::Remarks::tone_words))]
fn tone_words(about: About) -> &'static [u8]
    ensures { result.now ≡ tone_words about }
{
    match about {
        About::Place => b": note: ",
        About::Register | About::Mask | About::Unused => b": warning: ",
    }
}

/// Appends a name between words.
#[tactic(auto, unfolding(crate::specs::Remarks::quoted))]
fn push_named(out: &mut Vec<u8>, before: &[u8], name: &[u8], behind: &[u8]) -> Result<(), NoMemory>
    ensures { OnOk result
        (out.new.items ≡ out.old.items ++ quoted before.now name.now behind.now) }
{
    push(out, before)?;
    push_bytes(out, name)?;
    push(out, behind)
}

/// Appends what a remark says of the name that is asked for, or of a name in the source.
#[tactic(auto, unfolding(crate::specs::Remarks::words))]
fn push_words(out: &mut Vec<u8>, about: About, asked: &[u8], name: &[u8]) -> Result<(), NoMemory>
    ensures { OnOk result (out.new.items ≡ out.old.items ++ words about asked.now name.now) }
{
    match about {
        About::Place => push_named(out, b"`", asked, b"` stands here"),
        About::Register => push_named(out, b"`", name, b"` is a name and no register"),
        About::Mask => push(
            out,
            b"a program for the bare machine begins at an instruction, and .ENTRY begins with a mask",
        ),
        About::Unused => push_named(out, b"nothing uses the label `", name, b"`"),
    }
}

/// Appends a remark on a line.
#[tactic(auto, unfolding(crate::specs::Remarks::remark_at))]
fn push_on(
    out: &mut Vec<u8>,
    title: Title<'_>,
    asked: &[u8],
    line: &[u8],
    one: &Remark,
) -> Result<(), NoMemory>
    ensures { OnOk result
        (out.new.items ≡ out.old.items
        ++ remark_at (title_seen title.entry) asked.now line.now one.now) }
{
    let (name, number) = told_in(title, one.line);
    push(out, name)?;
    push(out, b":")?;
    push_number(out, number as u64)?;
    push(out, b":")?;
    push_number(out, u64::from(one.piece.start) + 1)?;
    push(out, tone_words(one.about))?;
    push_words(out, one.about, asked, text_of(line, one.piece))?;
    push(out, b"\n")?;
    push_mark(out, line, one.piece.start)
}

/// Appends a remark.
fn push_remark(
    out: &mut Vec<u8>,
    source: Source<'_>,
    asked: &[u8],
    one: &Remark,
) -> Result<(), NoMemory>
    ensures { OnOk result (out.new.items ≡ out.old.items
        ++ remark (title_seen source.entry.title) source.entry.text.now asked.now one.now) }
{
    push_on(
        out,
        source.title,
        asked,
        line_at(source.text, one.line),
        one,
    )
}

/// Appends remarks.
#[tactic(auto, using(crate::proofs::Listing::error_added, crate::proofs::Listing::errors_added))]
fn push_all(
    out: &mut Vec<u8>,
    source: Source<'_>,
    asked: &[u8],
    all: &[Remark],
) -> Result<(), NoMemory>
    ensures { OnOk result (out.new.items ≡ out.old.items
        ++ flat_map (remark (title_seen source.entry.title) source.entry.text.now asked.now)
        all.now) }
{
    for one in all {
        push_remark(out, source, asked, one)?;
    }
    Ok(())
}

/// Appends the messages that a source gives, and the remarks on it that are wanted, where it has something that may not be meant, or that was told of before.
///
/// # Errors
///
/// [`NoMemory`] where memory is refused.
pub fn push_remarks(
    alloc: Global,
    out: &mut Vec<u8>,
    source: Source<'_>,
    wanted: Wanted<'_>,
) -> Result<(), NoMemory>
    ensures { OnOk result (IsRemarked source.entry.dialect (title_seen source.entry.title)
        source.entry.text.now (asked_by wanted.entry) out.old.items out.new.items) }
{
    let notes = notes_of(alloc, source)?;
    push_messages(out, source, &notes)?;
    let all = remarks_of(alloc, source.dialect, source.text, wanted)?;
    push_all(out, source, wanted.name, &all)
}
