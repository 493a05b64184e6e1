// Steps one behind another, and whether the last makes its definition come back to itself.

ghost use Rattle.std.specs.Prelude.{◌≡◌, ◌==◌, ◌++◌, ◌∷◌, [], ℕ, false, IfOk, List, None, OnOk, Some, if◌then◌else◌, nat_eq};
ghost use Rattle.std.specs.HashMap.{get};
ghost use Rattle.vax_asm_circles.specs.Circles as spec;
ghost use Rattle.vax_asm_circles.specs.Growing.{IsIndexed, steps_in, without};
ghost use Rattle.vax_asm_circles.specs.View.{step_of};

use crate::places::keep;
use crate::steps::Step;
use crate::walk::{is_met, meet_all};
use std::alloc::Global;
use std::collections::{HashMap, HashSet};
use vax_space::NoMemory;

/// Steps in the order in which they are written, with the place of each definition's first, and the definitions for which any
/// of them waits or has waited.
#[derive(Drop)]
pub struct Steps {
    pub(crate) list: Vec<Step>,
    pub(crate) places: HashMap<usize, usize>,
    pub(crate) awaited: HashSet<usize>,
}

/// No longer keeps the place of a definition, if it is this one.
fn forget(places: &mut HashMap<usize, usize>, number: usize, at: usize)
    ensures { (i : ℕ) → get nat_eq places.new i
        ≡ (if number == i then without at (get nat_eq places.old i) else get nat_eq places.old i) }
{
    let kept = match places.get(&number) {
        Some(place) => *place == at,
        None => false,
    };
    if kept {
        places.remove(&number);
    }
}

impl Steps {
    pub fn new(alloc: Global) -> Steps
        ensures none { steps_in result ≡ [] }
        ensures indexed { IsIndexed result }
    {
        Steps {
            list: Vec::new(alloc),
            places: HashMap::new(alloc),
            awaited: HashSet::new(alloc),
        }
    }

    /// One more step. Whether its definition comes back to itself by the steps up to it: it waits for itself, or for some that lead
    /// back to it. Of a definition's steps the first counts.
    ///
    /// A definition for which no step waits doesn't come back. For any other the steps are walked over to which it leads.
    ///
    /// # Errors
    ///
    /// [`NoMemory`] where memory is refused.
    pub fn add(&mut self, alloc: Global, step: Step) -> Result<bool, NoMemory>
        requires { IsIndexed self.old }
        ensures steps { OnOk result (steps_in self.new ≡ steps_in self.old ++ step_of step ∷ []) }
        ensures back { IfOk result (λ b. b ≡ spec.comes_back (steps_in self.new) step.from) }
        ensures indexed { OnOk result (IsIndexed self.new) }
    {
        let number = step.from;
        let at = self.list.len();
        keep(&mut self.places, number, at)?;
        let mut work = Vec::new(alloc);
        meet_all(&mut self.awaited, &mut work, &step.to)?;
        self.list.push(step).map_err(|_| NoMemory)?;
        if !self.awaited.contains(&number) {
            return Ok(false);
        }
        is_met(alloc, &self.places, &self.list, number)
    }

    /// Whether a step's definition may come back to itself by the steps so far and this one: another waits for it, or has waited, or it
    /// waits for itself. False is exact.
    #[tactic(auto, using(crate::proofs::Adding::apart_back))]
    pub fn may_come_back(&self, step: &Step) -> bool
        requires { IsIndexed self.now }
        ensures { result ≡ false → spec.comes_back (steps_in self.now ++ step_of step.now ∷ [])
            step.now.from ≡ false }
    {
        self.awaited.contains(&step.from) || step.to.contains(&step.from)
    }

    /// Takes back the last step.
    pub fn take_back(&mut self)
        requires { IsIndexed self.old }
        ensures steps { (before : List spec.Step) → (s : spec.Step) →
            steps_in self.old ≡ before ++ s ∷ [] → steps_in self.new ≡ before }
        ensures indexed { IsIndexed self.new }
    {
        if let Some(step) = self.list.pop() {
            forget(&mut self.places, step.from, self.list.len());
        }
    }
}
