//! The calls that make steps.
ghost use Rattle.std.specs.Prelude.{◌≡◌, ◌+◌, ◌<◌, ◌^◌, ◌-◌, min};
ghost use Rattle.vax_machine.specs.Meaning.{engine};
ghost use Rattle.vax_console.specs.Ends.{OnlyReplied, scene};
ghost use Rattle.vax_console.specs.Transcript.{Session, left};
ghost use Rattle.vax_debug.specs.Calls.{goal_at, gone_on, gone_to, over_count, stepped_on, stepped_over};
ghost use Rattle.vax_debug.specs.Sessions.{Counts, LeadsFrom};

use crate::breaks::{Goal, Marks};
use crate::failure::Failure;
use crate::frames::call_goal;
use crate::travel::{Course, travel};
use vax_machine::{Limits, Machine};
use vax_outside::{PageFile, Sink};
use vax_sched::Schedule;

/// How many steps are left up to the limit.
fn steps_left(machine: &Machine, limits: &Limits) -> u64
    ensures left { result ≡ limits.now.steps - (engine machine.now).steps }
    ensures within { (engine machine.now).steps + result < 2 ^ 64 }
{
    limits.steps.saturating_sub(machine.steps())
}

/// Makes at most so many steps, but for the limit, up to a stop: behind at least one the machine has ended, PC is one of the addresses, or a watched byte
/// isn't as it was seen. So steps that begin at one of the addresses go on from there.
pub fn step<F: PageFile, K: Sink>(
    count: u64,
    marks: &Marks,
    machine: &mut Machine,
    limits: &Limits,
    schedule: &Schedule,
    file: &mut F,
    sink: &mut K,
) -> Result<(), Failure>
    requires few_turns { limits.now.turns < 2 ^ 64 - 2 }
    ensures goes { LeadsFrom
        (scene (engine machine.old) (F.contents file.old) (K.contents sink.old))
        (scene (engine machine.new) (F.contents file.new) (K.contents sink.new))
        result limits.now.turns (λ (s : Session). min count (left limits.now.steps s))
        (stepped_on limits.now.steps count marks.now.breaks.now marks.now.seen.now) }
    ensures counts { Counts result (F.faults file.old) (F.faults file.new) (K.faults sink.old)
        (K.faults sink.new) }
    ensures only { OnlyReplied (K.contents sink.old) (K.contents sink.new) }
{
    let count = count.min(steps_left(machine, limits));
    let course = Course { count, goal: None };
    travel(course, marks, machine, limits, schedule, file, sink)
}

/// Makes steps up to a stop or the limit.
pub fn go<F: PageFile, K: Sink>(
    marks: &Marks,
    machine: &mut Machine,
    limits: &Limits,
    schedule: &Schedule,
    file: &mut F,
    sink: &mut K,
) -> Result<(), Failure>
    requires few_turns { limits.now.turns < 2 ^ 64 - 2 }
    ensures goes { LeadsFrom
        (scene (engine machine.old) (F.contents file.old) (K.contents sink.old))
        (scene (engine machine.new) (F.contents file.new) (K.contents sink.new))
        result limits.now.turns (left limits.now.steps)
        (gone_on limits.now.steps marks.now.breaks.now marks.now.seen.now) }
    ensures counts { Counts result (F.faults file.old) (F.faults file.new) (K.faults sink.old)
        (K.faults sink.new) }
    ensures only { OnlyReplied (K.contents sink.old) (K.contents sink.new) }
{
    let count = steps_left(machine, limits);
    let course = Course { count, goal: None };
    travel(course, marks, machine, limits, schedule, file, sink)
}

/// Makes steps up to a goal, a stop or the limit.
pub fn go_to<F: PageFile, K: Sink>(
    goal: Goal,
    marks: &Marks,
    machine: &mut Machine,
    limits: &Limits,
    schedule: &Schedule,
    file: &mut F,
    sink: &mut K,
) -> Result<(), Failure>
    requires few_turns { limits.now.turns < 2 ^ 64 - 2 }
    ensures goes { LeadsFrom
        (scene (engine machine.old) (F.contents file.old) (K.contents sink.old))
        (scene (engine machine.new) (F.contents file.new) (K.contents sink.new))
        result limits.now.turns (left limits.now.steps)
        (gone_to limits.now.steps goal marks.now.breaks.now marks.now.seen.now) }
    ensures counts { Counts result (F.faults file.old) (F.faults file.new) (K.faults sink.old)
        (K.faults sink.new) }
    ensures only { OnlyReplied (K.contents sink.old) (K.contents sink.new) }
{
    let count = steps_left(machine, limits);
    let goal = Some(goal);
    let course = Course { count, goal };
    travel(course, marks, machine, limits, schedule, file, sink)
}

/// Makes steps up to an address, a stop or the limit.
pub fn until<F: PageFile, K: Sink>(
    address: u32,
    marks: &Marks,
    machine: &mut Machine,
    limits: &Limits,
    schedule: &Schedule,
    file: &mut F,
    sink: &mut K,
) -> Result<(), Failure>
    requires few_turns { limits.now.turns < 2 ^ 64 - 2 }
    ensures goes { LeadsFrom
        (scene (engine machine.old) (F.contents file.old) (K.contents sink.old))
        (scene (engine machine.new) (F.contents file.new) (K.contents sink.new))
        result limits.now.turns (left limits.now.steps)
        (gone_to limits.now.steps (goal_at address 0) marks.now.breaks.now marks.now.seen.now) }
    ensures counts { Counts result (F.faults file.old) (F.faults file.new) (K.faults sink.old)
        (K.faults sink.new) }
    ensures only { OnlyReplied (K.contents sink.old) (K.contents sink.new) }
{
    let goal = Goal { address, least: 0 };
    go_to(goal, marks, machine, limits, schedule, file, sink)
}

/// Makes one step, or all of those of a call: where the instruction at PC is BSBB, BSBW, JSB, CALLG or CALLS, steps up to the instruction behind it,
/// with no more on the stack than now. It stops before at a stop or the limit.
pub fn over<F: PageFile, K: Sink>(
    marks: &Marks,
    machine: &mut Machine,
    limits: &Limits,
    schedule: &Schedule,
    file: &mut F,
    sink: &mut K,
) -> Result<(), Failure>
    requires few_turns { limits.now.turns < 2 ^ 64 - 2 }
    ensures goes { LeadsFrom
        (scene (engine machine.old) (F.contents file.old) (K.contents sink.old))
        (scene (engine machine.new) (F.contents file.new) (K.contents sink.new))
        result limits.now.turns (over_count limits.now.steps)
        (stepped_over limits.now.steps marks.now.breaks.now marks.now.seen.now) }
    ensures counts { Counts result (F.faults file.old) (F.faults file.new) (K.faults sink.old)
        (K.faults sink.new) }
    ensures only { OnlyReplied (K.contents sink.old) (K.contents sink.new) }
{
    match call_goal(machine, file) {
        Ok(None) => step(1, marks, machine, limits, schedule, file, sink),
        Ok(Some(goal)) => go_to(goal, marks, machine, limits, schedule, file, sink),
        Err(_) => Err(Failure::PageFault),
    }
}
