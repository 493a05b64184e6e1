//! Definitions in circles, and in none.

use std::alloc::Global;
use std::test::Fail;
use vax_asm_circles::*;

/// A step: a definition that waits for these.
fn step(alloc: Global, from: usize, to: &[usize]) -> Result<Step, Fail> {
    Ok(Step {
        from,
        to: to.to_vec(alloc)?,
    })
}

/// So many definitions, of which each waits for the next.
fn chain(alloc: Global, length: usize) -> Result<Vec<Step>, Fail> {
    let mut steps = Vec::new(alloc);
    for from in 0..length {
        steps.push(step(alloc, from, &[from + 1])?)?;
    }
    Ok(steps)
}

#[test]
fn a_chain_ends(rt: HostRuntime) -> Result<(), Fail> {
    let alloc = rt.alloc();
    let steps = vec![in alloc;
        step(alloc, 0, &[1, 2])?,
        step(alloc, 1, &[2, 2])?,
        step(alloc, 2, &[])?,
    ]?;
    assert!(rt; first_circle(alloc, &steps)? == None);
    assert!(rt; first_circle(alloc, &[])? == None);
    assert!(rt; !comes_back(alloc, &steps, 0)?);
    assert!(rt; !comes_back(alloc, &steps, 9)?);
    Ok(())
}

#[test]
fn a_definition_waits_for_itself(rt: HostRuntime) -> Result<(), Fail> {
    let alloc = rt.alloc();
    let steps = vec![in alloc; step(alloc, 5, &[7])?, step(alloc, 7, &[8, 7])?]?;
    assert!(rt; first_circle(alloc, &steps)? == Some(1));
    assert!(rt; comes_back(alloc, &steps, 7)?);
    assert!(rt; !comes_back(alloc, &steps, 5)?);
    Ok(())
}

#[test]
fn the_last_of_three_closes_a_circle(rt: HostRuntime) -> Result<(), Fail> {
    let alloc = rt.alloc();
    let steps = vec![in alloc;
        step(alloc, 2, &[0])?,
        step(alloc, 0, &[9, 1])?,
        step(alloc, 4, &[0])?,
        step(alloc, 1, &[2])?,
        step(alloc, 9, &[])?,
    ]?;
    assert!(rt; first_circle(alloc, &steps)? == Some(3));
    assert!(rt; comes_back(alloc, &steps, 0)?);
    assert!(rt; !comes_back(alloc, &steps, 4)?);
    Ok(())
}

#[test]
fn the_earlier_of_two_circles_counts(rt: HostRuntime) -> Result<(), Fail> {
    let alloc = rt.alloc();
    let steps = vec![in alloc;
        step(alloc, 0, &[1])?,
        step(alloc, 2, &[3])?,
        step(alloc, 3, &[2])?,
        step(alloc, 1, &[0])?,
    ]?;
    assert!(rt; first_circle(alloc, &steps)? == Some(2));
    Ok(())
}

#[test]
fn the_first_step_of_a_definition_counts(rt: HostRuntime) -> Result<(), Fail> {
    let alloc = rt.alloc();
    let mut steps = vec![in alloc;
        step(alloc, 0, &[1])?,
        step(alloc, 1, &[2])?,
        step(alloc, 1, &[0])?,
    ]?;
    assert!(rt; first_circle(alloc, &steps)? == None);
    assert!(rt; !comes_back(alloc, &steps, 1)?);
    steps.push(step(alloc, 2, &[1])?)?;
    assert!(rt; first_circle(alloc, &steps)? == Some(3));
    Ok(())
}

#[test]
fn a_long_chain_ends_or_comes_back(rt: HostRuntime) -> Result<(), Fail> {
    let alloc = rt.alloc();
    let mut steps = chain(alloc, 2000)?;
    assert!(rt; first_circle(alloc, &steps)? == None);
    steps.push(step(alloc, 2000, &[0])?)?;
    assert!(rt; first_circle(alloc, &steps)? == Some(2000));
    steps.reverse();
    assert!(rt; first_circle(alloc, &steps)? == Some(2000));
    steps.push(step(alloc, 3000, &[3000])?)?;
    assert!(rt; first_circle(alloc, &steps)? == Some(2000));
    assert!(rt; comes_back(alloc, &steps, 1000)?);
    Ok(())
}

#[test]
fn steps_are_added_and_taken_back(rt: HostRuntime) -> Result<(), Fail> {
    let alloc = rt.alloc();
    let mut steps = Steps::new(alloc);
    assert!(rt; !steps.add(alloc, step(alloc, 3, &[1])?)?);
    assert!(rt; !steps.add(alloc, step(alloc, 1, &[2])?)?);
    assert!(rt; steps.add(alloc, step(alloc, 2, &[9, 3])?)?);
    steps.take_back();
    // 2 has no step again, and of those that it gets the first counts
    assert!(rt; !steps.add(alloc, step(alloc, 2, &[9])?)?);
    assert!(rt; !steps.add(alloc, step(alloc, 2, &[3])?)?);
    steps.take_back();
    steps.take_back();
    assert!(rt; steps.add(alloc, step(alloc, 2, &[3])?)?);
    assert!(rt; steps.add(alloc, step(alloc, 8, &[8])?)?);
    // what leads into a circle isn't in it
    assert!(rt; !steps.add(alloc, step(alloc, 9, &[8, 3])?)?);
    Ok(())
}
