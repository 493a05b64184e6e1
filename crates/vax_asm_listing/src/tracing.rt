// A source from its first statement to its last, with what each put where.

ghost use Rattle.std.specs.Prelude.{◌≡◌, ℕ, Err, List, None, IfOk, OnOk};
ghost use Rattle.vax_asm.specs.View.{assembly_of, Says};
ghost use Rattle.vax_asm.specs.Walk.{assembled, ended, resumed};
ghost use Rattle.vax_asm_first.specs.View.{standing_of};
ghost use Rattle.vax_asm_second.specs.View as second;
ghost use Rattle.vax_dialect.specs.declared.Dialect.{Dialect};
ghost use Rattle.vax_macro.specs.Expanders.{FaultIs, read_of, unclosed_of};
ghost use Rattle.vax_macro.specs.Expansion.{Opened};
ghost use Rattle.vax_macro.specs.Rest.{Rest};
ghost use Rattle.vax_module.specs.Formed.{Formed};
ghost use Rattle.vax_asm_listing.specs.Rows.{AreRowsOf, IsAtEnd, IsTrace, Opens, point_of, row_of};
ghost use Rattle.vax_asm_listing.specs.View.{Answers, Fills};

use crate::names::labels_of;
use crate::types::{Notes, Point, Row, Trace};
use std::alloc::{AllocError, Global};
use vax_asm::{AsmError, Walk};
use vax_asm_first::{Origin, Standing};
use vax_asm_scope::KnownNames;
use vax_asm_second::FillError;
use vax_dialect::Dialect;
use vax_macro::{Expander, FaultKind, Line, MacroError};
use vax_module::Bytes;

/// Where the next statement begins.
fn point_of(standing: &Standing) -> Point
    ensures { result ≡ point_of (standing_of standing.now) }
{
    Point {
        section: standing.layout.number(),
        offset: standing.place(),
        absolute: standing.in_absolute(),
        counts: standing.only_counts(),
    }
}

/// The row of a statement.
fn row_of(origin: Origin, text: Bytes, before: Point, after: Point) -> Row
    ensures { result ≡ row_of origin text before after }
{
    Row {
        origin,
        text,
        section: after.section,
        begin: if before.section == after.section {
            before.offset
        } else {
            after.offset
        },
        end: after.offset,
        absolute: after.absolute,
        counts: after.counts,
    }
}

/// A text of its own.
fn copied(text: &[u8], alloc: Global) -> Result<Bytes, AllocError>
    ensures { IfOk result (λ b. b ≡ text.now) }
{
    Ok(Bytes::from(text.to_vec(alloc)?))
}

/// Carries out a statement, and adds its row to the others.
fn say(
    walk: &mut Walk,
    rows: &mut Vec<Row>,
    alloc: Global,
    origin: Origin,
    said: Line,
) -> Result<(), FillError>
    ensures says { Says result origin said.text.items
        (assembly_of walk.old.standing walk.old.assignments)
        (assembly_of walk.new.standing walk.new.assignments) walk.old.met walk.new.met }
    ensures rows { OnOk result ((dialect : Dialect) → (source : List ℕ) → (before after : Rest) →
        Opens before (assembly_of walk.old.standing walk.old.assignments) origin said.text.items
        after → (walk.old.met ≡ None → AreRowsOf dialect source rows.old.items before
        (assembly_of walk.old.standing walk.old.assignments)) → walk.new.met ≡ None →
        AreRowsOf dialect source rows.new.items after
        (assembly_of walk.new.standing walk.new.assignments)) }
{
    let before = point_of(&walk.standing);
    let Ok(copy) = copied(&said.text, alloc) else {
        return Err(FillError::NoMemory);
    };
    walk.say(alloc, origin, said)?;
    let after = point_of(&walk.standing);
    let row = row_of(origin, copy, before, after);
    if rows.push(row).is_err() {
        return Err(FillError::NoMemory);
    }
    Ok(())
}

/// The module and the names, once the source is read to its end.
#[tactic(auto, using(crate::proofs::Rows::trace_ended))]
fn end(walk: Walk, alloc: Global, rows: Vec<Row>) -> Result<Trace, FillError>
    ensures module { Fills result
        (ended (assembly_of walk.standing walk.assignments) walk.met None) }
    ensures trace { (dialect : Dialect) → (source : List ℕ) → (left : Rest) →
        IsAtEnd left (assembly_of walk.standing walk.assignments) → (walk.met ≡ None →
        AreRowsOf dialect source rows.items left
        (assembly_of walk.standing walk.assignments)) →
        IfOk result (IsTrace dialect source) }
    ensures formed { IfOk result (λ t. Formed t.module) }
{
    let Ok(labels) = labels_of(alloc, &walk.standing.scope) else {
        return Err(FillError::NoMemory);
    };
    let module = walk.end(alloc, None)?;
    Ok(Trace {
        module,
        notes: Notes { rows, labels },
    })
}

/// The fault with which a source ends that macros, repeats and conditions show, or a begin without its end.
fn stop(walk: Walk, alloc: Global, expander: &Expander, line: u32, kind: FaultKind) -> FillError
    ensures { (o : Opened) → FaultIs (unclosed_of expander.now) (read_of expander.now) line kind o →
        Fills (Err result) (resumed o (assembly_of walk.standing walk.assignments) walk.met) }
{
    match walk.stop(alloc, expander, line, kind) {
        Err(error) => error,
        // None ends so with a module.
        Ok(_) => FillError::NoMemory,
    }
}

#[tactic(auto, using(vax_asm::proofs::Opening::walked_opened))]
fn traced(alloc: Global, dialect: Dialect, source: &[u8]) -> Result<Trace, FillError>
    ensures module { Fills result (assembled dialect source.now) }
    ensures trace { IfOk result (IsTrace dialect source.now) }
    ensures formed { IfOk result (λ t. Formed t.module) }
{
    let Ok(mut expander) = Expander::new(alloc, dialect, source) else {
        return Err(FillError::NoMemory);
    };
    let Ok(standing) = Standing::new(alloc, dialect) else {
        return Err(FillError::NoMemory);
    };
    let mut walk = Walk {
        standing,
        assignments: Vec::new(alloc),
        met: None,
    };
    let mut rows = Vec::new(alloc);
    'statements: loop {
        let Ok(here) = walk.standing.here() else {
            return Err(FillError::NoMemory);
        };
        let names = KnownNames {
            dialect: walk.standing.dialect,
            scope: &walk.standing.scope,
            here,
        };
        match expander.next(&names) {
            Ok(Some(said)) => {
                let origin = Origin {
                    line: said.number,
                    place: expander.lines_read(),
                };
                say(&mut walk, &mut rows, alloc, origin, said)?;
            }
            Ok(None) => return end(walk, alloc, rows),
            Err(MacroError::Fault { line, kind }) => {
                return Err(stop(walk, alloc, &expander, line, kind));
            }
            Err(MacroError::NoMemory) => return Err(FillError::NoMemory),
        }
    }
}

/// The module of a source in a dialect of MACRO-32 with what each of its statements put where, or its first fault.
///
/// [`AsmError`] as for `vax_asm`'s `assemble`.
pub fn trace(alloc: Global, dialect: Dialect, source: &[u8]) -> Result<Trace, AsmError>
    // The module is that of the assembler.
    ensures module { Answers result (assembled dialect source.now) }
    // The rows are those of the statements that the source opens to, from the first to the last.
    ensures trace { IfOk result (IsTrace dialect source.now) }
    ensures formed { IfOk result (λ t. Formed t.module) }
{
    match traced(alloc, dialect, source) {
        Ok(trace) => Ok(trace),
        Err(FillError::Fault(fault)) => Err(AsmError::Fault {
            line: fault.origin.line,
            kind: fault.kind,
        }),
        Err(FillError::NoMemory) => Err(AsmError::NoMemory),
    }
}
