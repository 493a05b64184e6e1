// Heights of definitions, each above those for which it waits.

ghost use Rattle.std.specs.Prelude.{◌≡◌, ◌<◌, ℕ, IfOk, length, map, true, slice_index_or};
ghost use Rattle.vax_asm_circles.specs.Circles.{among};
ghost use Rattle.vax_asm_circles.specs.Heights.{height, AreHigher, NoneBack};
ghost use Rattle.vax_asm_circles.specs.Places.{AreFirsts};
ghost use Rattle.vax_asm_circles.specs.View.{step_of};

use crate::places::place;
use crate::steps::Step;
use crate::walk::add_last;
use std::alloc::Global;
use std::collections::HashMap;
use vax_space::NoMemory;

/// The places of those that wait for each step, in the order of their places: as often as they wait. A step that isn't its
/// definition's first counts for nothing.
pub(crate) fn all_waiting(
    alloc: Global,
    places: &HashMap<usize, usize>,
    steps: &[Step],
) -> Result<Vec<Vec<usize>>, NoMemory>
    requires { AreFirsts (map step_of steps.now) places.now }
{
    let mut waiting = Vec::with_capacity(alloc, steps.len())?;
    for _ in 0..steps.len() {
        waiting.push(Vec::new(alloc)).map_err(|_| NoMemory)?;
    }
    for at in 0..steps.len() {
        let step = &steps[at];
        if place(places, steps, step.from) == at {
            for number in &step.to {
                if let Some(list) = waiting.get_mut(place(places, steps, *number)) {
                    add_last(list, at)?;
                }
            }
        }
    }
    Ok(waiting)
}

/// For how many each of the first so many steps waits.
fn counts(alloc: Global, waiting: &[Vec<usize>], count: usize) -> Result<Vec<usize>, NoMemory> {
    let mut counts = vec![in alloc; 0usize; count]?;
    for list in waiting.iter().take(count) {
        for at in list {
            if let Some(n) = counts.get_mut(*at) {
                *n = n.saturating_add(1);
            }
        }
    }
    Ok(counts)
}

/// One for which these wait has its height: those that wait for no more are ready.
fn release(ready: &mut Vec<usize>, counts: &mut [usize], list: &[usize]) -> Result<(), NoMemory> {
    for at in list {
        if let Some(n) = counts.get_mut(*at) {
            *n = n.saturating_sub(1);
            if *n == 0 {
                add_last(ready, *at)?;
            }
        }
    }
    Ok(())
}

/// Heights for the first so many steps, each once all for which it waits have theirs. Those that come back to themselves
/// stay at 0, as do all that wait for them.
fn heights(alloc: Global, waiting: &[Vec<usize>], count: usize) -> Result<Vec<usize>, NoMemory> {
    let mut counts = counts(alloc, waiting, count)?;
    let mut heights = vec![in alloc; 0usize; count]?;
    let mut ready = Vec::new(alloc);
    for at in 0..counts.len() {
        if counts[at] == 0 {
            add_last(&mut ready, at)?;
        }
    }
    for done in 0..count {
        let Some(at) = ready.pop() else {
            break;
        };
        if let Some(height) = heights.get_mut(at) {
            *height = done + 1;
        }
        if let Some(list) = waiting.get(at) {
            release(&mut ready, &mut counts, list)?;
        }
    }
    Ok(heights)
}

fn height_at(heights: &[usize], at: usize) -> usize
    ensures { result ≡ slice_index_or heights.now at 0 }
{
    match heights.get(at) {
        Some(height) => *height,
        None => 0,
    }
}

/// Whether these definitions are all below a height.
fn are_below(
    places: &HashMap<usize, usize>,
    steps: &[Step],
    heights: &[usize],
    numbers: &[usize],
    limit: usize,
) -> bool
    requires { AreFirsts (map step_of steps.now) places.now }
    ensures { result ≡ true → (k : ℕ) →
        among k numbers.now ≡ true → height heights.now (map step_of steps.now) k < limit }
{
    for number in numbers {
        if height_at(heights, place(places, steps, *number)) >= limit {
            return false;
        }
    }
    true
}

/// Whether the definition of the step here is higher than all for which it waits, if the step is its first.
fn is_higher(places: &HashMap<usize, usize>, steps: &[Step], heights: &[usize], at: usize) -> bool
    requires places { AreFirsts (map step_of steps.now) places.now }
    requires at { at < length steps.now }
    ensures { result ≡ true → AreHigher heights.now (map step_of steps.now) at }
{
    let step = &steps[at];
    if place(places, steps, step.from) != at {
        return true;
    }
    are_below(places, steps, heights, &step.to, height_at(heights, at))
}

/// Whether each definition is higher than all for which it waits.
fn are_higher(places: &HashMap<usize, usize>, steps: &[Step], heights: &[usize]) -> bool
    requires { AreFirsts (map step_of steps.now) places.now }
    ensures { result ≡ true → NoneBack (map step_of steps.now) }
{
    for at in 0..steps.len() {
        if !is_higher(places, steps, heights, at) {
            return false;
        }
    }
    true
}

/// Whether there are heights for these steps, the first so many of all. Then no definition comes back to itself.
pub(crate) fn have_heights(
    alloc: Global,
    places: &HashMap<usize, usize>,
    steps: &[Step],
    waiting: &[Vec<usize>],
) -> Result<bool, NoMemory>
    requires { AreFirsts (map step_of steps.now) places.now }
    ensures { IfOk result (λ b. b ≡ true → NoneBack (map step_of steps.now)) }
{
    let heights = heights(alloc, waiting, steps.len())?;
    Ok(are_higher(places, steps, &heights))
}
