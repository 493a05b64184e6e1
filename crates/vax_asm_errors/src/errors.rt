// Errors of a source.

ghost use Rattle.std.specs.Prelude.{◌≡◌, ◌++◌, ◌+◌, OnOk, decimal, take};
ghost use Rattle.std.specs.List.{flat_map};
ghost use Rattle.vax_asm_errors.specs.Errors.{IsErrors, count_words, ending, error, headline, mark, more_words, noted, place, said_words};
ghost use Rattle.vax_prelude.specs.View.{title_seen};

use crate::line::{line_at, push_line, push_under};
use crate::messages::{is_message, message};
use crate::said::{Said, said_of};
use std::alloc::Global;
use vax_asm::FaultKind;
use vax_asm_check::faults;
use vax_asm_second::Fault;
use vax_dialect::Dialect;
use vax_outside::Text;
use vax_prelude::{Title, told_in};
use vax_space::NoMemory;

/// So many faults of a source are told at most.
pub const MOST: usize = 100;

/// A source with its dialect, the name of its file and what stands before it: its text begins with the preludes.
#[derive(Clone, Copy)]
pub struct Source<'a> {
    pub dialect: Dialect,
    pub title: Title<'a>,
    pub text: &'a [u8],
}

pub(crate) fn push(out: &mut Vec<u8>, bytes: &[u8]) -> Result<(), NoMemory>
    ensures { OnOk result (out.new.items ≡ out.old.items ++ bytes.now) }
{
    out.extend_from_slice(bytes).map_err(|_| NoMemory)
}

pub(crate) fn push_number(out: &mut Vec<u8>, number: u64) -> Result<(), NoMemory>
    ensures { OnOk result (out.new.items ≡ out.old.items ++ decimal number) }
{
    let mut text = Text::new();
    text.push_decimal(number);
    push(out, text.as_slice())
}

/// Appends where an error stands: the file, the line and the column, counted from 0.
#[tactic(auto, unfolding(crate::specs::Errors::place))]
fn push_place(out: &mut Vec<u8>, title: Title<'_>, line: u32, column: u32) -> Result<(), NoMemory>
    ensures { OnOk result
        (out.new.items ≡ out.old.items ++ place (title_seen title.entry) line (column + 1)) }
{
    let (name, number) = told_in(title, line as usize);
    push(out, name)?;
    push(out, b":")?;
    push_number(out, number as u64)?;
    push(out, b":")?;
    push_number(out, u64::from(column) + 1)?;
    push(out, b": error: ")
}

/// Appends a line, and below it a mark under a column.
#[tactic(auto, unfolding(crate::specs::Errors::mark))]
pub(crate) fn push_mark(out: &mut Vec<u8>, line: &[u8], column: u32) -> Result<(), NoMemory>
    ensures { OnOk result (out.new.items ≡ out.old.items ++ mark line.now column) }
{
    push_line(out, line)?;
    push(out, b"\n")?;
    push_under(out, line, column as usize)?;
    push(out, b"^\n")
}

/// Appends the line of an expansion, if there is one.
#[tactic(auto, unfolding(crate::specs::Errors::noted))]
pub(crate) fn push_note(
    out: &mut Vec<u8>,
    title: Title<'_>,
    line: u32,
    expansion: &[u8],
) -> Result<(), NoMemory>
    ensures { OnOk result
        (out.new.items ≡ out.old.items ++ noted (title_seen title.entry) line expansion.now) }
{
    if expansion.is_empty() {
        return Ok(());
    }
    let (name, number) = told_in(title, line as usize);
    push(out, name)?;
    push(out, b":")?;
    push_number(out, number as u64)?;
    push(out, b": ")?;
    push(out, expansion)?;
    push(out, b"\n")
}

/// Appends what a fault of a kind is, and words on its cause. A source that says of itself that it is wrong has words of its own.
fn push_said(out: &mut Vec<u8>, kind: FaultKind, cause: &[u8]) -> Result<(), NoMemory>
    ensures { OnOk result (out.new.items ≡ out.old.items ++ said_words kind cause.now) }
{
    if cause.is_empty() {
        return push(out, message(kind));
    }
    if is_message(kind) {
        return push(out, cause);
    }
    push(out, message(kind))?;
    push(out, cause)
}

/// Appends the first line of an error: its place, its kind, what that says, and words on its cause.
#[tactic(auto, unfolding(crate::specs::Errors::headline))]
fn push_headline(out: &mut Vec<u8>, title: Title<'_>, said: &Said) -> Result<(), NoMemory>
    ensures { OnOk result
        (out.new.items ≡ out.old.items ++ headline (title_seen title.entry) said.now) }
{
    push_place(out, title, said.fault.origin.line, said.column)?;
    push_number(out, u64::from(said.fault.kind.code()))?;
    push(out, b": ")?;
    push_said(out, said.fault.kind, &said.cause)?;
    push(out, b"\n")
}

/// Appends an error.
#[tactic(auto, unfolding(crate::specs::Errors::error))]
fn push_error(out: &mut Vec<u8>, source: Source<'_>, said: &Said) -> Result<(), NoMemory>
    ensures { OnOk result (out.new.items
        ≡ out.old.items ++ error (title_seen source.entry.title) source.entry.text.now said.now) }
{
    let number = said.fault.origin.line;
    push_headline(out, source.title, said)?;
    push_mark(out, line_at(source.text, number as usize), said.column)?;
    push_note(out, source.title, number, &said.expansion)
}

/// Appends errors.
#[tactic(auto, using(crate::proofs::Listing::error_added, crate::proofs::Listing::errors_added))]
fn push_each(out: &mut Vec<u8>, source: Source<'_>, said: &[Said]) -> Result<(), NoMemory>
    ensures { OnOk result (out.new.items ≡ out.old.items
        ++ flat_map (error (title_seen source.entry.title) source.entry.text.now) said.now) }
{
    for one in said {
        push_error(out, source, one)?;
    }
    Ok(())
}

/// Appends how many more there are.
#[tactic(auto, unfolding(crate::specs::Errors::count_words))]
fn push_count(out: &mut Vec<u8>, count: usize) -> Result<(), NoMemory>
    ensures { OnOk result (out.new.items ≡ out.old.items ++ count_words count) }
{
    push_number(out, count as u64)?;
    push(out, b" more in this file\n")
}

/// Appends how many more faults there are than are told.
#[tactic(auto, unfolding(crate::specs::Errors::more_words))]
fn push_more(out: &mut Vec<u8>, name: &[u8], count: usize) -> Result<(), NoMemory>
    ensures { OnOk result (out.new.items ≡ out.old.items ++ more_words name.now count) }
{
    push(out, name)?;
    push(out, b": error: ")?;
    push_count(out, count)
}

/// Appends how many more faults there are than are told, if there are more.
fn push_ending(out: &mut Vec<u8>, name: &[u8], count: usize) -> Result<(), NoMemory>
    ensures { OnOk result (out.new.items ≡ out.old.items ++ ending name.now count) }
{
    if count <= MOST {
        return Ok(());
    }
    push_more(out, name, count - MOST)
}

/// The first so many faults, or all.
fn front(found: &[Fault], count: usize) -> &[Fault]
    ensures { result.now ≡ take count found.now }
{
    found.split_at(count.min(found.len())).0
}

/// The faults that are told.
fn told(found: &[Fault]) -> &[Fault]
    ensures { result.now ≡ take 100 found.now }
{
    front(found, MOST)
}

/// Appends the errors of a source, those that lines have by themselves first and then those that the whole of it decides, both
/// by their lines: each with its place, what is wrong, the line and a mark below it. Nothing where it has no fault.
///
/// # Errors
///
/// [`NoMemory`] where memory is refused.
pub fn push_errors(alloc: Global, out: &mut Vec<u8>, source: Source<'_>) -> Result<(), NoMemory>
    ensures { OnOk result (IsErrors source.entry.dialect (title_seen source.entry.title)
        source.entry.text.now out.old.items out.new.items) }
{
    let found = faults(alloc, source.dialect, source.text)?;
    let said = said_of(alloc, source, told(&found))?;
    push_each(out, source, &said)?;
    push_ending(out, source.title.name, found.len())
}
