// Where the steps of definitions stand.

ghost use Rattle.std.specs.Prelude.{◌≡◌, ◌==◌, ℕ, IfOk, OnOk, Some, if◌then◌else◌, map, nat_eq, take, unwrap_or};
ghost use Rattle.std.specs.HashMap.{get};
ghost use Rattle.vax_asm_circles.specs.Circles.{waits};
ghost use Rattle.vax_asm_circles.specs.Places.{place, AreFirsts};
ghost use Rattle.vax_asm_circles.specs.View.{step_of};

use crate::steps::Step;
use std::alloc::Global;
use std::collections::HashMap;
use vax_space::NoMemory;

/// Keeps a place for a definition, unless one is kept.
pub(crate) fn keep(
    places: &mut HashMap<usize, usize>,
    number: usize,
    at: usize,
) -> Result<(), NoMemory>
    ensures { OnOk result ((i : ℕ) →
        get nat_eq places.new i ≡ (if number == i then Some (unwrap_or (get nat_eq places.old i) at)
        else get nat_eq places.old i)) }
{
    if places.get(&number).is_none() {
        places.insert(number, at).map_err(|_| NoMemory)?;
    }
    Ok(())
}

/// The places of the first steps, by definition. They serve for the first so many of the steps too.
pub(crate) fn index(alloc: Global, steps: &[Step]) -> Result<HashMap<usize, usize>, NoMemory>
    ensures { IfOk result (λ places. (n : ℕ) → AreFirsts (take n (map step_of steps.now)) places) }
{
    let mut places = HashMap::with_capacity(alloc, steps.len())?;
    for at in 0..steps.len() {
        keep(&mut places, steps[at].from, at)?;
    }
    Ok(places)
}

/// The place of a definition's first step, past all where none is its.
pub(crate) fn place(places: &HashMap<usize, usize>, steps: &[Step], number: usize) -> usize
    requires { AreFirsts (map step_of steps.now) places.now }
    ensures { result ≡ place (map step_of steps.now) number }
{
    match places.get(&number) {
        Some(at) if *at < steps.len() => *at,
        _ => steps.len(),
    }
}

/// The definitions for which one waits.
pub(crate) fn awaited<'a>(
    places: &HashMap<usize, usize>,
    steps: &'a [Step],
    number: usize,
) -> &'a [usize]
    requires { AreFirsts (map step_of steps.now) places.now }
    ensures { result.now ≡ waits (map step_of steps.now) number }
{
    match steps.get(place(places, steps, number)) {
        Some(step) => &step.to,
        None => &[],
    }
}
