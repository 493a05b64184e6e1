// What the assembler knows of statements with a fault.

use std::alloc::Global;
use vax_asm_causes::{
    Branch, Facts, KnownValue, branch_of, expressions_in, is_definition, names_of,
};
use vax_asm_encode::Operand;
use vax_asm_first::{Content, Filling, Fixup, Standing};
use vax_asm_scope::{KnownNames, Scope};
use vax_asm_sections::Piece;
use vax_lex::{LexError, Value, evaluate, scan};
use vax_space::NoMemory;

/// The longest line of a source.
const LONGEST: usize = 1024;

/// A place of a section.
#[derive(Clone, Copy)]
struct Place {
    section: u32,
    offset: i64,
}

/// A value that is a place.
fn place_of(value: Value) -> Option<Place> {
    match value {
        Value::Section { section, offset } => Some(Place { section, offset }),
        _ => None,
    }
}

/// How far a place lies behind another one of its section.
fn distance(from: Place, to: Place) -> Option<i64> {
    if from.section == to.section {
        to.offset.checked_sub(from.offset)
    } else {
        None
    }
}

/// A name in capitals.
fn capitals(alloc: Global, name: &[u8]) -> Result<Vec<u8>, NoMemory> {
    let mut all = Vec::new(alloc);
    for byte in name {
        all.push(byte.to_ascii_uppercase()).map_err(|_| NoMemory)?;
    }
    Ok(all)
}

/// What a name is worth where the next statement stands.
fn value_of(
    alloc: Global,
    standing: &Standing,
    here: Value,
    name: &[u8],
) -> Result<Option<Value>, NoMemory> {
    let name = capitals(alloc, name)?;
    Ok(standing.scope.known(&name, here))
}

/// The value of an expression of this text where the next statement stands, if it has one.
fn value_in(
    alloc: Global,
    standing: &Standing,
    here: Value,
    text: &[u8],
) -> Result<Option<Value>, NoMemory> {
    if text.len() > LONGEST {
        return Ok(None);
    }
    let names = KnownNames {
        dialect: standing.dialect,
        scope: &standing.scope,
        here,
    };
    match scan(alloc, text) {
        Ok(tokens) => Ok(evaluate(text, &tokens, &names).ok()),
        Err(LexError::NoMemory) => Err(NoMemory),
        Err(_) => Ok(None),
    }
}

/// The same, if that is a number.
fn number_of(
    alloc: Global,
    standing: &Standing,
    here: Value,
    text: &[u8],
) -> Result<Option<i64>, NoMemory> {
    match value_in(alloc, standing, here, text)? {
        Some(Value::Absolute(value)) => Ok(Some(value)),
        _ => Ok(None),
    }
}

/// The values of the expressions in a statement's text.
fn push_values(
    alloc: Global,
    facts: &mut Facts,
    standing: &Standing,
    here: Value,
    text: &[u8],
) -> Result<(), NoMemory> {
    let expressions = expressions_in(alloc, standing.dialect, text)?;
    for text in expressions {
        if let Some(value) = number_of(alloc, standing, here, &text)? {
            facts
                .values
                .push(KnownValue { text, value })
                .map_err(|_| NoMemory)?;
        }
    }
    Ok(())
}

/// How far the branch that a statement is would have to reach, where it stands at this place.
fn reach_here(
    alloc: Global,
    standing: &Standing,
    here: Value,
    text: &[u8],
) -> Result<Option<i64>, NoMemory> {
    let Some(Branch { target, length }) = branch_of(alloc, standing.dialect, text)? else {
        return Ok(None);
    };
    let value = value_of(alloc, standing, here, &target)?;
    let (Some(from), Some(to)) = (place_of(here), value.and_then(place_of)) else {
        return Ok(None);
    };
    Ok(distance(from, to).and_then(|bytes| bytes.checked_sub(i64::from(length))))
}

/// How far `.` would have to go, where a statement is `. = e` and stands at this place.
fn move_here(
    alloc: Global,
    standing: &Standing,
    here: Value,
    text: &[u8],
) -> Result<Option<i64>, NoMemory> {
    if !is_definition(text, b".") {
        return Ok(None);
    }
    let expressions = expressions_in(alloc, standing.dialect, text)?;
    let Some(expression) = expressions.first() else {
        return Ok(None);
    };
    let value = value_in(alloc, standing, here, expression)?;
    let (Some(from), Some(to)) = (place_of(here), value.and_then(place_of)) else {
        return Ok(None);
    };
    Ok(distance(from, to))
}

/// What is known of a statement of this text that would stand here, which may be before what was placed of it.
pub(crate) fn facts_here(
    alloc: Global,
    standing: &Standing,
    here: Value,
    text: &[u8],
) -> Result<Facts, NoMemory> {
    let mut facts = Facts::new(alloc);
    push_values(alloc, &mut facts, standing, here, text)?;
    facts.reach = match reach_here(alloc, standing, here, text)? {
        Some(bytes) => Some(bytes),
        None => move_here(alloc, standing, here, text)?,
    };
    Ok(facts)
}

/// The names in a statement of this text that have no value where it would stand.
pub(crate) fn unknown_here(
    alloc: Global,
    standing: &Standing,
    here: Value,
    text: &[u8],
) -> Result<Facts, NoMemory> {
    let mut facts = Facts::new(alloc);
    for name in names_of(alloc, standing.dialect, text)? {
        if value_of(alloc, standing, here, &name)?.is_none() {
            facts.unknown.push(name).map_err(|_| NoMemory)?;
        }
    }
    Ok(facts)
}

/// How far a branch would have to reach that is filled in later, if the fixup is one.
fn reach_of(scope: &Scope, section: u32, fixup: &Fixup) -> Option<i64> {
    let Content::Operand {
        kind,
        operand: Operand::Branch,
    } = fixup.content
    else {
        return None;
    };
    let value = match &fixup.filling {
        Filling::Known(value) => *value,
        Filling::Later(expression) => scope.evaluate(expression).ok()?,
    };
    let end = Place {
        section,
        offset: i64::from(fixup.at) + i64::from(kind.width),
    };
    distance(end, place_of(value)?)
}

/// How far the branch of the statement of the line with this place would have to reach, once the source is read.
fn reach_at(standing: &Standing, line: u32) -> Option<i64> {
    let mut number: u32 = 0;
    for section in standing.layout.sections() {
        for piece in section.pieces.as_slice() {
            if let Piece::Field(fixup) = piece {
                if fixup.origin.place == line {
                    if let Some(reach) = reach_of(&standing.scope, number, fixup) {
                        return Some(reach);
                    }
                }
            }
        }
        number = number.saturating_add(1);
    }
    None
}

/// What is known of the statement with this text, which stands on the line with this place, once the source is read.
pub(crate) fn facts_behind(
    alloc: Global,
    standing: &Standing,
    line: u32,
    text: &[u8],
) -> Result<Facts, NoMemory> {
    let here = standing.here()?;
    let mut facts = Facts::new(alloc);
    push_values(alloc, &mut facts, standing, here, text)?;
    facts.reach = reach_at(standing, line);
    Ok(facts)
}
