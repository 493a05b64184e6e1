// Assignments that make their names come back to themselves.

ghost use Rattle.std.specs.Prelude.{◌≡◌, ◌++◌, ◌∷◌, [], IfOk, List, OnOk, Option, if◌then◌else◌, length, map};
ghost use Rattle.std.specs.List.{cons_option};
ghost use Rattle.vax_asm_check.specs.View.{KeepsSteps, TellsCircle};
ghost use Rattle.vax_asm_circles.specs.Circles.{comes_back};
ghost use Rattle.vax_asm_circles.specs.Growing.{IsIndexed, steps_in};
ghost use Rattle.vax_asm_circles.specs.View.{step_of};
ghost use Rattle.vax_asm_first.specs.Circles.{step_by};
ghost use Rattle.vax_asm_first.specs.View.{assignment_of};
ghost use Rattle.vax_macro.specs.declared.error.FaultKind.TheVariants.{Form};

use std::alloc::Global;
use vax_asm_circles::{Step, Steps};
use vax_asm_first::{Assignment, FaultKind};
use vax_asm_second::Fault;
use vax_asm_values::Meaning;
use vax_space::NoMemory;

/// The definitions that names mean.
#[tactic(auto, using(vax_asm_first::proofs::Waiting::definition_added))]
fn definitions(alloc: Global, names: &[Meaning]) -> Result<Vec<usize>, NoMemory>
    ensures { IfOk result (λ v. v.items ≡ map (λ m. m.definition) names.now) }
{
    let mut list = Vec::new(alloc);
    for meaning in names {
        list.push(meaning.definition).map_err(|_| NoMemory)?;
    }
    Ok(list)
}

/// An assignment as a step.
#[tactic(auto, using(vax_asm_first::proofs::Waiting::same_definitions))]
fn step(alloc: Global, assignment: &Assignment) -> Result<Step, NoMemory>
    ensures { IfOk result (λ s. step_of s ≡ step_by (assignment_of assignment.now)) }
{
    let to = definitions(alloc, assignment.expression.names())?;
    Ok(Step {
        from: assignment.definition,
        to,
    })
}

/// One more assignment. Its fault, if it makes its name come back to itself by those up to it.
fn add_assignment(
    alloc: Global,
    steps: &mut Steps,
    assignment: &Assignment,
) -> Result<Option<Fault>, NoMemory>
    requires { IsIndexed steps.old }
    ensures steps { OnOk result (steps_in steps.new
        ≡ steps_in steps.old ++ step_by (assignment_of assignment.now) ∷ []) }
    ensures fault { IfOk result (λ o. cons_option o []
        ≡ (if comes_back (steps_in steps.new) assignment.now.definition
        then record { origin = assignment.now.origin; kind = Form } ∷ [] else [])) }
    ensures indexed { OnOk result (IsIndexed steps.new) }
{
    let step = step(alloc, assignment)?;
    if steps.add(alloc, step)? {
        return Ok(Some(Fault {
            origin: assignment.origin,
            kind: FaultKind::Form,
        }));
    }
    Ok(None)
}

/// The fault of one more assignment that leaves the steps as they were. Most lead nowhere back, which is seen without a walk.
fn beside_assignment(
    alloc: Global,
    steps: &mut Steps,
    assignment: &Assignment,
) -> Result<Option<Fault>, NoMemory>
    requires { IsIndexed steps.old }
    ensures same { OnOk result (steps_in steps.new ≡ steps_in steps.old) }
    ensures fault { IfOk result (λ o. cons_option o []
        ≡ (if comes_back (steps_in steps.old ++ step_by (assignment_of assignment.now) ∷ [])
        assignment.now.definition
        then record { origin = assignment.now.origin; kind = Form } ∷ [] else [])) }
    ensures indexed { OnOk result (IsIndexed steps.new) }
{
    let step = step(alloc, assignment)?;
    if !steps.may_come_back(&step) {
        return Ok(None);
    }
    let fault = add_assignment(alloc, steps, assignment)?;
    steps.take_back();
    Ok(fault)
}

/// The fault of the assignment that stands behind so many before, if there is one and it makes its name come back to itself. It is
/// one of the steps from then on.
pub(crate) fn circle_fault(
    alloc: Global,
    steps: &mut Steps,
    assignments: &[Assignment],
    before: usize,
) -> Result<Option<Fault>, NoMemory>
    requires { IsIndexed steps.old }
    ensures fault { IfOk result (λ o.
        TellsCircle (cons_option o []) before (steps_in steps.old) (map assignment_of assignments.now)) }
    ensures steps { OnOk result (KeepsSteps before
        (steps_in steps.old) (steps_in steps.new) (map assignment_of assignments.now)) }
    ensures indexed { OnOk result (IsIndexed steps.new) }
{
    if assignments.len() <= before {
        return Ok(None);
    }
    let last = &assignments[assignments.len() - 1];
    add_assignment(alloc, steps, last)
}

/// The same of an assignment that has another fault, and so leaves the steps as they were.
pub(crate) fn circle_beside(
    alloc: Global,
    steps: &mut Steps,
    assignments: &[Assignment],
    before: usize,
) -> Result<Option<Fault>, NoMemory>
    requires { IsIndexed steps.old }
    ensures fault { IfOk result (λ o.
        TellsCircle (cons_option o []) before (steps_in steps.old) (map assignment_of assignments.now)) }
    ensures same { OnOk result (steps_in steps.new ≡ steps_in steps.old) }
    ensures indexed { OnOk result (IsIndexed steps.new) }
{
    if assignments.len() <= before {
        return Ok(None);
    }
    let last = &assignments[assignments.len() - 1];
    beside_assignment(alloc, steps, last)
}
