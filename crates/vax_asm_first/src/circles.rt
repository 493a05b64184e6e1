// Assignments that make their names come back to themselves.

ghost use Rattle.std.specs.Prelude.{◌≡◌, ◌++◌, ◌∷◌, [], IfOk, OnOk, map};
ghost use Rattle.vax_asm_circles.specs.View.{step_of};
ghost use Rattle.vax_asm_first.specs.Circles.{first_circle, step_by, steps_by};
ghost use Rattle.vax_asm_first.specs.View.{assignment_of};

use crate::types::{Assignment, Origin};
use std::alloc::Global;
use vax_asm_circles::Step;
use vax_asm_values::Meaning;
use vax_space::NoMemory;

/// The definitions that names mean.
#[tactic(auto, using(crate::proofs::Waiting::definition_added))]
fn definitions(alloc: Global, names: &[Meaning]) -> Result<Vec<usize>, NoMemory>
    ensures { IfOk result (λ v. v.items ≡ map (λ m. m.definition) names.now) }
{
    let mut list = Vec::new(alloc);
    for meaning in names {
        list.push(meaning.definition).map_err(|_| NoMemory)?;
    }
    Ok(list)
}

/// An assignment as a step.
#[tactic(auto, using(crate::proofs::Waiting::same_definitions))]
fn step(alloc: Global, assignment: &Assignment) -> Result<Step, NoMemory>
    ensures { IfOk result (λ s. step_of s ≡ step_by (assignment_of assignment.now)) }
{
    let to = definitions(alloc, assignment.expression.names())?;
    Ok(Step {
        from: assignment.definition,
        to,
    })
}

/// One more step.
#[tactic(auto, using(crate::proofs::Waiting::step_added))]
fn add_step(alloc: Global, list: &mut Vec<Step>, assignment: &Assignment) -> Result<(), NoMemory>
    ensures { OnOk result (map step_of list.new.items
        ≡ map step_of list.old.items ++ step_by (assignment_of assignment.now) ∷ []) }
{
    let more = step(alloc, assignment)?;
    list.push(more).map_err(|_| NoMemory)?;
    Ok(())
}

/// The assignments as steps.
#[tactic(auto, using(crate::proofs::Waiting::steps_step))]
fn steps(alloc: Global, assignments: &[Assignment]) -> Result<Vec<Step>, NoMemory>
    ensures { IfOk result (λ v. map step_of v.items
        ≡ steps_by (map assignment_of assignments.now)) }
{
    let mut list = Vec::new(alloc);
    for assignment in assignments {
        add_step(alloc, &mut list, assignment)?;
    }
    Ok(list)
}

/// The statement of the first assignment that makes its name come back to itself by those up to it, of assignments that had no
/// value where they stood. Takes time with the names in them where none does, and a logarithm of their number as often where
/// one does.
#[tactic(auto, using(crate::proofs::Waiting::origin_found), unfolding(crate::specs::Circles::first_circle))]
pub fn first_circle(alloc: Global, assignments: &[Assignment]) -> Result<Option<Origin>, NoMemory>
    ensures { IfOk result (λ o. o ≡ first_circle (map assignment_of assignments.now)) }
{
    let steps = steps(alloc, assignments)?;
    match vax_asm_circles::first_circle(alloc, &steps)? {
        Some(place) => match assignments.get(place) {
            Some(found) => Ok(Some(found.origin)),
            None => Ok(None),
        },
        None => Ok(None),
    }
}
