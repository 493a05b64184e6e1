//! The lines of one case.
ghost use Rattle.std.specs.Prelude.{◌≡◌, ◌∷◌, ◌++◌, [], if◌then◌else◌, IfOk, OnOk};
ghost use Rattle.vax_vectors.specs.Text.{json_text};
ghost use Rattle.vax_vector_lines.specs.Lines.{AreLinesWithout, IsGroup, IsMore, choices, pairs};

use crate::told::{whole, without};
use std::alloc::Global;
use vax_vector_cases::Case;
use vax_vector_runs::{NoVector, Workbench};
use vax_vectors::{Vector, push_vector};

/// Appends the line of a vector.
fn push_line(out: &mut Vec<u8>, vector: &Vector) -> Result<(), NoVector>
    ensures { OnOk result (out.new.items ≡ out.old.items ++ json_text vector.now) }
{
    match push_vector(out, vector) {
        Ok(()) => Ok(()),
        Err(_) => Err(NoVector::NoMemory),
    }
}

/// Appends the line of a vector with these pages absent.
#[tactic(auto, using(crate::proofs::More::one_line))]
fn push_without(
    alloc: Global,
    bench: &mut Workbench,
    out: &mut Vec<u8>,
    vector: &Vector,
    absent: &[u32],
) -> Result<(), NoVector>
    ensures { OnOk result (IsMore (AreLinesWithout vector.now (absent.now ∷ []))
        out.old.items out.new.items) }
{
    let other = without(alloc, bench, vector, absent)?;
    push_line(out, &other)?;
    Ok(())
}

/// Appends the lines of a vector with a page absent, and with it each of some others.
fn push_pairs(
    alloc: Global,
    bench: &mut Workbench,
    out: &mut Vec<u8>,
    vector: &Vector,
    pages: (u32, &[u32]),
) -> Result<(), NoVector>
    ensures { OnOk result
        (IsMore (AreLinesWithout vector.now (pairs pages.entry.0 pages.entry.1.now))
        out.old.items out.new.items) }
{
    let (first, others) = pages;
    push_without(alloc, bench, out, vector, &[first])?;
    for second in others {
        push_without(alloc, bench, out, vector, &[first, *second])?;
    }
    Ok(())
}

/// Appends the lines of a vector with one or two of the pages absent that it touches, for each choice of them.
fn push_absent(
    alloc: Global,
    bench: &mut Workbench,
    out: &mut Vec<u8>,
    vector: &Vector,
) -> Result<(), NoVector>
    ensures { OnOk result (IsMore (AreLinesWithout vector.now (choices vector.now.touched.items))
        out.old.items out.new.items) }
{
    let pages = vector.touched.as_slice();
    for k in 0..pages.len() {
        push_pairs(alloc, bench, out, vector, (pages[k], &pages[k + 1..]))?;
    }
    Ok(())
}

/// Appends these lines where they are asked for.
fn push_asked(
    alloc: Global,
    bench: &mut Workbench,
    out: &mut Vec<u8>,
    absent: bool,
    vector: &Vector,
) -> Result<(), NoVector>
    ensures { OnOk result (IsMore (AreLinesWithout vector.now
        (if absent then choices vector.now.touched.items else [])) out.old.items out.new.items) }
{
    if absent {
        return push_absent(alloc, bench, out, vector);
    }
    Ok(())
}

/// The lines of a case: its vector, and where asked for the same with one or two of its pages absent.
pub(crate) fn lines_of(
    alloc: Global,
    bench: &mut Workbench,
    case: Case,
    absent: bool,
) -> Result<Vec<u8>, NoVector>
    ensures { IfOk result (λ text. IsGroup case.opcode case.mode absent text.items) }
{
    let vector = whole(alloc, bench, case)?;
    let mut text = Vec::new(alloc);
    push_line(&mut text, &vector)?;
    push_asked(alloc, bench, &mut text, absent, &vector)?;
    Ok(text)
}
