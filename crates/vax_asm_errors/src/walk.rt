// The texts of statements with a fault, and what is known there.

ghost use Rattle.std.specs.Prelude.{◌≡◌};

use crate::circles::circle_of;
use crate::errors::Source;
use crate::facts::{facts_behind, facts_here, unknown_here};
use crate::line::line_at;
use std::alloc::Global;
use std::collections::BTreeMap;
use vax_asm::{Placed, place};
use vax_asm_causes::Facts;
use vax_asm_first::{Origin, Standing};
use vax_asm_scope::KnownNames;
use vax_asm_second::Fault;
use vax_lex::Value;
use vax_macro::{Expander, FaultKind, Line, MacroError};
use vax_space::NoMemory;

/// More statements than a source has.
const MOST_STATEMENTS: u32 = 1_000_000;

/// The text of a statement, and what is known of it.
#[derive(Drop)]
pub(crate) struct Seen {
    pub(crate) text: Vec<u8>,
    pub(crate) facts: Facts,
    /// The fault of the label that its line has beside it.
    pub(crate) label: Option<FaultKind>,
    is_refused: bool,
}

impl Seen {
    /// A statement with this text of which nothing more is known.
    pub(crate) fn of(alloc: Global, text: Vec<u8>) -> Seen
        ensures { result.text ≡ text }
    {
        Seen {
            text,
            facts: Facts::new(alloc),
            label: None,
            is_refused: false,
        }
    }
}

/// The statements by the places of their lines. Of a line with several the last is kept.
pub(crate) type Statements = BTreeMap<u32, Seen>;

/// Whether a fault stands at this place.
fn has_fault(faults: &[Fault], place: u32) -> bool {
    faults.iter().any(|fault| fault.origin.place == place)
}

/// The text of a line, if a fault stands there.
fn text_at(
    alloc: Global,
    faults: &[Fault],
    place: u32,
    line: &Line,
) -> Result<Option<Vec<u8>>, NoMemory> {
    if !has_fault(faults, place) {
        return Ok(None);
    }
    let text = line.text.to_vec(alloc).map_err(|_| NoMemory)?;
    Ok(Some(text))
}

/// The fault of the label of a line: that of a label alone, or that which was seen before.
fn label_fault(all: &Statements, place: u32, label: Option<FaultKind>) -> Option<FaultKind> {
    match all.get(&place) {
        Some(before) => label.or(before.label),
        None => label,
    }
}

/// Keeps a statement with a fault, with that of a label before it.
fn keep(all: &mut Statements, place: u32, mut seen: Seen) -> Result<(), NoMemory> {
    seen.label = label_fault(all, place, seen.label);
    match all.insert(place, seen) {
        Ok(_) => Ok(()),
        Err(_) => Err(NoMemory),
    }
}

/// The kinds of fault of a statement that is refused, and of one that is a label alone.
#[derive(Clone, Copy)]
struct Kinds {
    refused: Option<FaultKind>,
    label: Option<FaultKind>,
}

/// The kinds of fault that a statement has.
fn kinds_of(placed: Placed) -> Kinds {
    match placed {
        Placed::Faulty(kind) => Kinds {
            refused: Some(kind),
            label: None,
        },
        Placed::FaultyLabel(kind) => Kinds {
            refused: None,
            label: Some(kind),
        },
        Placed::Stands => Kinds {
            refused: None,
            label: None,
        },
    }
}

/// What is seen of a statement: where it is refused for a value that is out of range, what is known there, and for a name without a value, which
/// have none.
fn seen_at(
    alloc: Global,
    standing: &Standing,
    here: Value,
    kinds: Kinds,
    text: Vec<u8>,
) -> Result<Seen, NoMemory> {
    let facts = match kinds.refused {
        Some(FaultKind::Range) => facts_here(alloc, standing, here, &text)?,
        Some(FaultKind::Undefined) => unknown_here(alloc, standing, here, &text)?,
        _ => Facts::new(alloc),
    };
    Ok(Seen {
        text,
        facts,
        label: kinds.label,
        is_refused: kinds.refused.is_some(),
    })
}

/// Keeps the line at which a source isn't read on for a fault, with the names in it that have no value there. Of a label that was seen there the text stays.
fn keep_last(
    alloc: Global,
    all: &mut Statements,
    source: Source<'_>,
    fault: Fault,
    standing: &Standing,
) -> Result<(), NoMemory> {
    let here = standing.here()?;
    let text = line_at(source.text, fault.origin.line as usize);
    let facts = unknown_here(alloc, standing, here, text)?;
    if let Some(seen) = all.get_mut(&fault.origin.place) {
        seen.facts = facts;
        return Ok(());
    }
    let text = text.to_vec(alloc).map_err(|_| NoMemory)?;
    let mut seen = Seen::of(alloc, text);
    seen.facts = facts;
    keep(all, fault.origin.place, seen)
}

/// Whether this fault is among some.
fn is_among(faults: &[Fault], fault: Fault) -> bool {
    faults.iter().any(|other| other.origin == fault.origin && other.kind == fault.kind)
}

/// Adds what is known once the source is read.
fn complete(
    alloc: Global,
    all: &mut Statements,
    faults: &[Fault],
    standing: &Standing,
) -> Result<(), NoMemory> {
    for fault in faults {
        if fault.kind == FaultKind::Range {
            if let Some(seen) = all.get_mut(&fault.origin.place) {
                if !seen.is_refused {
                    seen.facts = facts_behind(alloc, standing, fault.origin.place, &seen.text)?;
                }
            }
        }
    }
    Ok(())
}

/// The statements that stand where these faults do.
pub(crate) fn statements_of(
    alloc: Global,
    source: Source<'_>,
    faults: &[Fault],
) -> Result<Statements, NoMemory> {
    let mut all = BTreeMap::new(alloc);
    if faults.is_empty() {
        return Ok(all);
    }
    let mut expander = Expander::new(alloc, source.dialect, source.text)?;
    let mut standing = Standing::new(alloc, source.dialect)?;
    let mut assignments = Vec::new(alloc);
    for _ in 0..MOST_STATEMENTS {
        let here = standing.here()?;
        let names = KnownNames {
            dialect: standing.dialect,
            scope: &standing.scope,
            here,
        };
        match expander.next(&names) {
            Ok(Some(said)) => {
                let origin = Origin {
                    line: said.number,
                    place: expander.lines_read(),
                };
                let text = text_at(alloc, faults, origin.place, &said)?;
                let before = assignments.len();
                let kinds = kinds_of(place(&mut standing, &mut assignments, alloc, origin, said)?);
                if let Some(text) = text {
                    let mut seen = seen_at(alloc, &standing, here, kinds, text)?;
                    if assignments.len() > before {
                        seen.facts.circle = circle_of(alloc, &assignments)?;
                    }
                    keep(&mut all, origin.place, seen)?;
                }
            }
            Ok(None) => {
                complete(alloc, &mut all, faults, &standing)?;
                return Ok(all);
            }
            Err(MacroError::Fault { line, kind }) => {
                let place = expander.lines_read();
                let fault = Fault {
                    origin: Origin { line, place },
                    kind,
                };
                if is_among(faults, fault) {
                    keep_last(alloc, &mut all, source, fault, &standing)?;
                }
                complete(alloc, &mut all, faults, &standing)?;
                return Ok(all);
            }
            Err(MacroError::NoMemory) => return Err(NoMemory),
        }
    }
    Ok(all)
}

/// The numbers of the lines that are refused, of those on which these faults stand.
pub(crate) fn refused_lines(
    alloc: Global,
    all: &Statements,
    faults: &[Fault],
) -> Result<Vec<u32>, NoMemory> {
    let mut lines = Vec::new(alloc);
    for fault in faults {
        if let Some(seen) = all.get(&fault.origin.place) {
            if seen.is_refused {
                lines.push(fault.origin.line).map_err(|_| NoMemory)?;
            }
        }
    }
    Ok(lines)
}
