// The way of a definition back to itself.

use std::alloc::Global;
use vax_asm_causes::Way;
use vax_asm_first::Assignment;
use vax_space::NoMemory;

/// Of so many definitions on the way it is sought at most.
const MOST: usize = 64;

/// A definition that is met: its number, and from which one that was met before, if from any but the last assignment.
#[derive(Clone, Copy)]
struct Met {
    definition: usize,
    from: Option<usize>,
}

/// The first assignment that is this definition.
fn assignment_of(assignments: &[Assignment], definition: usize) -> Option<&Assignment> {
    for assignment in assignments {
        if assignment.definition == definition {
            return Some(assignment);
        }
    }
    None
}

/// The name of a definition, as the first expression of an assignment has it that waits for it.
fn name_of(
    alloc: Global,
    assignments: &[Assignment],
    definition: usize,
) -> Result<Vec<u8>, NoMemory> {
    for assignment in assignments {
        for meaning in assignment.expression.names() {
            if meaning.definition == definition {
                return meaning.name.to_vec(alloc).map_err(|_| NoMemory);
            }
        }
    }
    Ok(Vec::new(alloc))
}

/// Whether a definition is met.
fn is_met(all: &[Met], definition: usize) -> bool {
    all.iter().any(|met| met.definition == definition)
}

/// Adds the definitions for which an assignment waits, if they aren't met yet.
fn meet(all: &mut Vec<Met>, assignment: &Assignment, from: Option<usize>) -> Result<(), NoMemory> {
    for meaning in assignment.expression.names() {
        if !is_met(all, meaning.definition) {
            let met = Met {
                definition: meaning.definition,
                from,
            };
            all.push(met).map_err(|_| NoMemory)?;
        }
    }
    Ok(())
}

/// The definitions that were met on the way to the one here, with the names and the lines of their assignments: the first is the one after the last
/// assignment.
fn way_to(
    alloc: Global,
    assignments: &[Assignment],
    all: &[Met],
    from: Option<usize>,
) -> Result<Vec<Way>, NoMemory> {
    let mut ways = Vec::new(alloc);
    let mut next = from;
    for _ in 0..MOST {
        let Some(met) = next.and_then(|at| all.get(at)) else {
            return Ok(ways);
        };
        if let Some(assignment) = assignment_of(assignments, met.definition) {
            let name = name_of(alloc, assignments, met.definition)?;
            let way = Way {
                name,
                line: assignment.origin.line,
            };
            ways.insert(0, way).map_err(|_| NoMemory)?;
        }
        next = met.from;
    }
    Ok(ways)
}

/// The way on which the last of these assignments comes back to itself, if it does: the other definitions on it.
pub(crate) fn circle_of(
    alloc: Global,
    assignments: &[Assignment],
) -> Result<Option<Vec<Way>>, NoMemory> {
    let Some(last) = assignments.last() else {
        return Ok(None);
    };
    let mut all = Vec::new(alloc);
    meet(&mut all, last, None)?;
    for at in 0..MOST {
        let Some(met) = all.get(at) else {
            return Ok(None);
        };
        let Met { definition, from } = *met;
        if definition == last.definition {
            return Ok(Some(way_to(alloc, assignments, &all, from)?));
        }
        if let Some(assignment) = assignment_of(assignments, definition) {
            meet(&mut all, assignment, Some(at))?;
        }
    }
    Ok(None)
}
