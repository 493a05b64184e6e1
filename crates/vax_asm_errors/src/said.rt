// Faults as they are told.

ghost use Rattle.std.specs.Prelude.{◌≡◌, All, IfOk, map};
ghost use Rattle.vax_asm_causes.specs.Printed.{ArePrinted};
ghost use Rattle.vax_asm_errors.specs.Errors.{IsPlain};

use crate::errors::Source;
use crate::line::{indent, line_at};
use crate::walk::{Seen, Statements, refused_lines, statements_of};
use std::alloc::Global;
use vax_asm_causes::{Cause, Facts, Place, cause_of, expansion_of, is_continued};
use vax_asm_second::Fault;
use vax_space::NoMemory;

/// A fault as it is told: the column at which it is marked, counted from 0, and words on its cause. Behind an error in an expansion stands the
/// expansion's line; else that is empty.
#[derive(Drop)]
pub struct Said {
    pub fault: Fault,
    pub column: u32,
    pub cause: Vec<u8>,
    pub expansion: Vec<u8>,
}

/// A column of a line that isn't too long; else the first.
fn as_column(column: usize) -> u32 {
    u32::try_from(column).unwrap_or(0)
}

/// Where a fault stands: the line with this text, and what is known there.
fn place_of<'a>(
    source: Source<'a>,
    line: &'a [u8],
    refused: &'a [u32],
    facts: &'a Facts,
    fault: Fault,
) -> Place<'a> {
    Place {
        dialect: source.dialect,
        source: source.text,
        number: fault.origin.line,
        line,
        refused,
        facts,
    }
}

/// A fault in an expansion, whose line has this text.
fn said_inside(
    alloc: Global,
    place: Place<'_>,
    column: usize,
    expansion: Vec<u8>,
    fault: Fault,
) -> Result<Said, NoMemory>
    requires { ArePrinted expansion.items }
    ensures fault { IfOk result (λ s. s.fault ≡ fault) }
    ensures plain { IfOk result IsPlain }
{
    let Cause { words, .. } = cause_of(alloc, place, fault.kind)?;
    Ok(Said {
        fault,
        column: as_column(column),
        cause: words,
        expansion,
    })
}

/// A fault of a line.
fn said_there(alloc: Global, place: Place<'_>, fault: Fault) -> Result<Said, NoMemory>
    ensures fault { IfOk result (λ s. s.fault ≡ fault) }
    ensures plain { IfOk result IsPlain }
{
    let Cause { column, words } = cause_of(alloc, place, fault.kind)?;
    Ok(Said {
        fault,
        column: as_column(column),
        cause: words,
        expansion: Vec::new(alloc),
    })
}

/// A fault of a statement with this text that begins on a line and goes on behind it. The column is that of the line.
fn said_joined(
    alloc: Global,
    there: Place<'_>,
    whole: Place<'_>,
    fault: Fault,
) -> Result<Said, NoMemory>
    ensures fault { IfOk result (λ s. s.fault ≡ fault) }
    ensures plain { IfOk result IsPlain }
{
    let Cause { column, .. } = cause_of(alloc, there, fault.kind)?;
    let Cause { words, .. } = cause_of(alloc, whole, fault.kind)?;
    Ok(Said {
        fault,
        column: as_column(column),
        cause: words,
        expansion: Vec::new(alloc),
    })
}

/// A fault of a statement whose text is the end of a line, as that of an `.IIF`: so many bytes of the line stand before it.
fn said_at_end(
    alloc: Global,
    place: Place<'_>,
    before: usize,
    fault: Fault,
) -> Result<Said, NoMemory>
    ensures fault { IfOk result (λ s. s.fault ≡ fault) }
    ensures plain { IfOk result IsPlain }
{
    let Cause { column, words } = cause_of(alloc, place, fault.kind)?;
    Ok(Said {
        fault,
        column: as_column(column.saturating_add(before)),
        cause: words,
        expansion: Vec::new(alloc),
    })
}

/// How many bytes of a line stand before a statement that is its end and not the whole; none where it isn't, or where the fault is that of the label.
fn bytes_before(line: &[u8], seen: &Seen, fault: Fault) -> Option<usize> {
    let is_end = seen.text.len() < line.len() && line.ends_with(&seen.text);
    if is_end && seen.label != Some(fault.kind) {
        Some(line.len() - seen.text.len())
    } else {
        None
    }
}

/// A fault of a statement that was seen.
pub(crate) fn said_of_seen(
    alloc: Global,
    source: Source<'_>,
    refused: &[u32],
    seen: &Seen,
    fault: Fault,
) -> Result<Said, NoMemory>
    ensures fault { IfOk result (λ s. s.fault ≡ fault) }
    ensures plain { IfOk result IsPlain }
{
    let line = line_at(source.text, fault.origin.line as usize);
    let outer = place_of(source, line, refused, &seen.facts, fault);
    let expansion = expansion_of(alloc, outer, &seen.text)?;
    let inner = place_of(source, &seen.text, refused, &seen.facts, fault);
    if expansion.is_empty() && is_continued(alloc, source.dialect, line)? {
        return said_joined(alloc, outer, inner, fault);
    }
    if expansion.is_empty() {
        return match bytes_before(line, seen, fault) {
            Some(before) => said_at_end(alloc, inner, before, fault),
            None => said_there(alloc, outer, fault),
        };
    }
    said_inside(alloc, inner, indent(line), expansion, fault)
}

/// A fault as it is told.
fn one_said(
    alloc: Global,
    source: Source<'_>,
    refused: &[u32],
    seen: &Statements,
    fault: Fault,
) -> Result<Said, NoMemory>
    ensures fault { IfOk result (λ s. s.fault ≡ fault) }
    ensures plain { IfOk result IsPlain }
{
    if let Some(seen) = seen.get(&fault.origin.place) {
        return said_of_seen(alloc, source, refused, seen, fault);
    }
    let facts = Facts::new(alloc);
    let line = line_at(source.text, fault.origin.line as usize);
    said_there(alloc, place_of(source, line, refused, &facts, fault), fault)
}

/// Faults as they are told.
#[tactic(auto, using(crate::proofs::Saying::said_added, crate::proofs::Saying::all_said))]
pub(crate) fn said_of(
    alloc: Global,
    source: Source<'_>,
    faults: &[Fault],
) -> Result<Vec<Said>, NoMemory>
    ensures faults { IfOk result (λ v. map (λ s. s.fault) v.items ≡ faults.now) }
    ensures plain { IfOk result (λ v. All IsPlain v.items) }
{
    let seen = statements_of(alloc, source, faults)?;
    let refused = refused_lines(alloc, &seen, faults)?;
    let mut all = Vec::new(alloc);
    for fault in faults {
        let one = one_said(alloc, source, &refused, &seen, *fault)?;
        all.push(one).map_err(|_| NoMemory)?;
    }
    Ok(all)
}
