// The first definition that comes back to itself.

ghost use Rattle.std.specs.Prelude.{◌≡◌, ◌≤◌, ℕ, IfOk, length, map, take};
ghost use Rattle.vax_asm_circles.specs.Circles as spec;
ghost use Rattle.vax_asm_circles.specs.Heights.{NoneBack};
ghost use Rattle.vax_asm_circles.specs.Places.{AreFirsts};
ghost use Rattle.vax_asm_circles.specs.View.{step_of};

use crate::heights::{all_waiting, have_heights};
use crate::places::index;
use crate::steps::Step;
use crate::walk::is_met;
use std::alloc::Global;
use std::collections::HashMap;
use vax_space::NoMemory;

/// For how many of the steps there are heights: all of them, or as many as halving finds.
fn most_with_heights(
    alloc: Global,
    places: &HashMap<usize, usize>,
    steps: &[Step],
) -> Result<usize, NoMemory>
    requires { (n : ℕ) → AreFirsts (take n (map step_of steps.now)) places.now }
    ensures within { IfOk result (λ count. count ≤ length steps.now) }
    ensures none_back { IfOk result (λ count. NoneBack (take count (map step_of steps.now))) }
{
    let waiting = all_waiting(alloc, places, steps)?;
    if have_heights(alloc, places, steps, &waiting)? {
        return Ok(steps.len());
    }
    let mut count = 0;
    let mut past = steps.len();
    'halving: while past - count > 1 {
        let middle = count + (past - count) / 2;
        if have_heights(alloc, places, &steps[..middle], &waiting)? {
            count = middle;
        } else {
            past = middle;
        }
    }
    Ok(count)
}

/// The place in the list of the first step that makes its definition come back to itself by the steps up to it: it waits for
/// itself, or for some that lead back to it. Of a definition's steps the first counts. None where no step does.
///
/// # Errors
///
/// [`NoMemory`] where memory for the walk is refused.
pub fn first_circle(alloc: Global, steps: &[Step]) -> Result<Option<usize>, NoMemory>
    ensures { IfOk result (λ o. o ≡ spec.circle (map step_of steps.now)) }
{
    let places = index(alloc, steps)?;
    let count = most_with_heights(alloc, &places, steps)?;
    for at in count..steps.len() {
        if is_met(alloc, &places, &steps[..at + 1], steps[at].from)? {
            return Ok(Some(at));
        }
    }
    Ok(None)
}

/// Whether a definition comes back to itself by these steps: it waits for itself, or for some that lead back to it. Of a
/// definition's steps the first counts.
///
/// # Errors
///
/// [`NoMemory`] where memory for the walk is refused.
pub fn comes_back(alloc: Global, steps: &[Step], from: usize) -> Result<bool, NoMemory>
    ensures { IfOk result (λ b. b ≡ spec.comes_back (map step_of steps.now) from) }
{
    let places = index(alloc, steps)?;
    is_met(alloc, &places, steps, from)
}
