//! Tests of steps up to stops. Expected values are worked by hand.
ghost use Rattle.std.specs.Prelude.{◌<◌, ◌^◌, ◌-◌};

use std::alloc::Global;
use std::process::Abort;
use std::test::Fail;
use vax_debug::{
    Breaks, Marks, Snapshot, Watch, Watches, deposit, evict, examine, frame_goal, go, go_to, look,
    over, step, until,
};
use vax_machine::{Limits, Machine};
use vax_outside::{MemPages, MemSink};
use vax_sched::Schedule;
use vax_test_machines::{CALLS, PAGE, PROCEDURE, SUBROUTINE, machine_with, surroundings};

/// How a machine is moved.
#[derive(Clone, Copy)]
enum Move {
    Step(u64),
    Over,
    Until(u32),
    /// Out of the procedure of a frame, to where its caller goes on.
    Leave(u32),
    Go,
}

/// Moves a machine, and tells whether nothing failed.
fn moves(
    by: Move,
    marks: &Marks,
    machine: &mut Machine,
    limits: &Limits,
    schedule: &Schedule,
    file: &mut MemPages,
    sink: &mut MemSink,
) -> bool
    requires { limits.now.turns < 2 ^ 64 - 2 }
{
    let moved = match by {
        Move::Step(count) => step(count, marks, machine, limits, schedule, file, sink),
        Move::Over => over(marks, machine, limits, schedule, file, sink),
        Move::Until(to) => until(to, marks, machine, limits, schedule, file, sink),
        Move::Leave(to) => {
            let Ok(Some(goal)) = frame_goal(machine, file) else {
                return false;
            };
            if goal.address != to {
                return false;
            }
            go_to(goal, marks, machine, limits, schedule, file, sink)
        }
        Move::Go => go(marks, machine, limits, schedule, file, sink),
    };
    moved.is_ok()
}

/// A move, and where it leads: behind so many steps in all, to an instruction.
#[derive(Clone, Copy)]
struct Leg {
    by: Move,
    steps: u64,
    to: u32,
}

/// Moves a machine with a program, which stops at an address, along these legs; the answer is the machine behind them.
fn travels<R: Abort>(
    rt: &R,
    alloc: Global,
    program: &[u8],
    stop: Option<u32>,
    legs: &[Leg],
) -> Result<Machine, Fail> {
    let mut machine = machine_with(alloc, program)?;
    let mut a = surroundings(alloc, 100)?;
    let mut breaks = Breaks::new();
    if let Some(at) = stop {
        breaks.add(at);
    }
    let marks = Marks {
        breaks: &breaks,
        seen: &Snapshot::new(),
    };
    let (limits, schedule) = (&a.limits, &a.schedule);
    for leg in legs {
        let (file, sink) = (&mut a.file, &mut a.sink);
        assert!(rt; moves(leg.by, &marks, &mut machine, limits, schedule, file, sink));
        assert!(rt; machine.steps() == leg.steps);
        assert!(rt; machine.core().regs.get(15) == Some(&leg.to));
    }
    Ok(machine)
}

#[test]
fn a_step_is_one_instruction(rt: HostRuntime) -> Result<(), Fail> {
    let legs = [Leg {
        by: Move::Step(2),
        steps: 2,
        to: 0x8000_0208,
    }];
    let machine = travels(&rt, rt.alloc(), &CALLS, None, &legs)?;
    assert!(rt; machine.core().regs.get(2) == Some(&1));
    Ok(())
}

#[test]
fn a_call_is_stepped_over(rt: HostRuntime) -> Result<(), Fail> {
    let legs = [
        Leg {
            by: Move::Over,
            steps: 3,
            to: 0x8000_0202,
        },
        Leg {
            by: Move::Over,
            steps: 4,
            to: 0x8000_0204,
        },
    ];
    travels(&rt, rt.alloc(), &CALLS, None, &legs)?;
    Ok(())
}

#[test]
fn a_stop_is_taken_once(rt: HostRuntime) -> Result<(), Fail> {
    let legs = [
        Leg {
            by: Move::Go,
            steps: 1,
            to: SUBROUTINE,
        },
        // INCL R2, RSB, INCL R1 and HALT, at which PC stays
        Leg {
            by: Move::Go,
            steps: 5,
            to: 0x8000_0204,
        },
    ];
    let machine = travels(&rt, rt.alloc(), &CALLS, Some(SUBROUTINE), &legs)?;
    assert!(rt; machine.ended().is_some());
    assert!(rt; machine.core().regs.get(1) == Some(&1));
    Ok(())
}

#[test]
fn a_stop_is_taken_away(rt: HostRuntime) {
    let mut breaks = Breaks::new();
    breaks.add(SUBROUTINE);
    breaks.remove(SUBROUTINE);
    assert!(rt; !breaks.has(SUBROUTINE));
}

#[test]
fn an_address_is_reached(rt: HostRuntime) -> Result<(), Fail> {
    let legs = [Leg {
        by: Move::Until(0x8000_0202),
        steps: 3,
        to: 0x8000_0202,
    }];
    travels(&rt, rt.alloc(), &CALLS, None, &legs)?;
    Ok(())
}

#[test]
fn a_procedure_is_left(rt: HostRuntime) -> Result<(), Fail> {
    let legs = [
        Leg {
            by: Move::Step(1),
            steps: 1,
            to: 0x8000_0208,
        },
        Leg {
            by: Move::Leave(0x8000_0204),
            steps: 3,
            to: 0x8000_0204,
        },
    ];
    travels(&rt, rt.alloc(), &PROCEDURE, None, &legs)?;
    Ok(())
}

#[test]
fn an_eviction_loses_no_byte(rt: HostRuntime) -> Result<(), Fail> {
    let mut machine = machine_with(rt.alloc(), &CALLS)?;
    let mut a = surroundings(rt.alloc(), 100)?;
    // INCL R3 in place of INCL R2
    assert!(rt; deposit(SUBROUTINE, &[0xD6, 0x53], &mut machine, &mut a.file) == Ok(true));
    assert!(rt; evict(PAGE, &mut machine, &mut a.file).is_ok());
    let mut cells = [None; 3];
    assert!(rt; examine(SUBROUTINE, &mut cells, &mut machine, &mut a.file).is_ok());
    assert!(rt; cells == [Some(0xD6), Some(0x53), Some(5)]);
    let marks = Marks {
        breaks: &Breaks::new(),
        seen: &Snapshot::new(),
    };
    let (limits, schedule) = (&a.limits, &a.schedule);
    let (file, sink) = (&mut a.file, &mut a.sink);
    assert!(rt; moves(Move::Go, &marks, &mut machine, limits, schedule, file, sink));
    assert!(rt; machine.core().regs.get(3) == Some(&1));
    assert!(rt; machine.core().regs.get(2) == Some(&0));
    // no area has the byte
    assert!(rt; deposit(0x8000_0600, &[0], &mut machine, &mut a.file) == Ok(false));
    Ok(())
}

/// BSBB pushes its return address, which RSB takes off.
#[test]
fn a_change_is_seen(rt: HostRuntime) -> Result<(), Fail> {
    let mut machine = machine_with(rt.alloc(), &CALLS)?;
    let mut a = surroundings(rt.alloc(), 100)?;
    let mut watches = Watches::new();
    watches.add(Watch {
        address: 0x8000_05FC,
        count: 4,
    });
    let Ok(seen) = look(&watches, &mut machine, &mut a.file) else {
        panic!(rt; "the page file failed");
    };
    let marks = Marks {
        breaks: &Breaks::new(),
        seen: &seen,
    };
    let (limits, schedule) = (&a.limits, &a.schedule);
    let (file, sink) = (&mut a.file, &mut a.sink);
    assert!(rt; moves(Move::Go, &marks, &mut machine, limits, schedule, file, sink));
    assert!(rt; machine.steps() == 1);
    Ok(())
}
