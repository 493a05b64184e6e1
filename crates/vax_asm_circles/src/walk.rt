// A walk over definitions, from one on.

ghost use Rattle.std.specs.Prelude.{◌≡◌, ◌++◌, ◌∷◌, [], IfOk, OnOk, map, nat_eq};
ghost use Rattle.std.specs.List.{IsDistinct};
ghost use Rattle.vax_asm_circles.specs.Circles.{comes_back};
ghost use Rattle.vax_asm_circles.specs.Places.{AreFirsts};
ghost use Rattle.vax_asm_circles.specs.View.{step_of};
ghost use Rattle.vax_asm_circles.specs.Walks.{Met};

use crate::places::awaited;
use crate::steps::Step;
use std::alloc::Global;
use std::collections::{HashMap, HashSet};
use vax_space::NoMemory;

pub(crate) fn add_last(list: &mut Vec<usize>, item: usize) -> Result<(), NoMemory>
    ensures { OnOk result (list.new.items ≡ list.old.items ++ item ∷ []) }
{
    list.push(item).map_err(|_| NoMemory)?;
    Ok(())
}

/// Meets these definitions: those that weren't met before are to be looked at.
pub(crate) fn meet_all(
    met: &mut HashSet<usize>,
    work: &mut Vec<usize>,
    numbers: &[usize],
) -> Result<(), NoMemory>
    requires { IsDistinct nat_eq met.old.keys }
    ensures { OnOk result
        (Met numbers.now met.old.keys work.old.items met.new.keys work.new.items) }
{
    for number in numbers {
        if met.insert(*number).map_err(|_| NoMemory)? {
            add_last(work, *number)?;
        }
    }
    Ok(())
}

/// Whether a definition is among all those to which it leads.
pub(crate) fn is_met(
    alloc: Global,
    places: &HashMap<usize, usize>,
    steps: &[Step],
    number: usize,
) -> Result<bool, NoMemory>
    requires { AreFirsts (map step_of steps.now) places.now }
    ensures { IfOk result (λ b. b ≡ comes_back (map step_of steps.now) number) }
{
    let mut met = HashSet::new(alloc);
    let mut work = Vec::new(alloc);
    add_last(&mut work, number)?;
    'work: while let Some(next) = work.pop() {
        meet_all(&mut met, &mut work, awaited(places, steps, next))?;
    }
    Ok(met.contains(&number))
}
