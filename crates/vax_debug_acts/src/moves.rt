//! The requests that make steps.
ghost use Rattle.std.specs.Prelude.{◌<◌, ◌^◌, ◌-◌};
ghost use Rattle.vax_machine.specs.Meaning.{engine};
ghost use Rattle.vax_console.specs.Ends.{OnlyReplied, scene};
ghost use Rattle.vax_debug.specs.Sessions.{Counts};
ghost use Rattle.vax_debug_words.specs.Expressions.{IsExpression};
ghost use Rattle.vax_debug_acts.specs.Acting.{ActsFrom};
ghost use Rattle.vax_debug_acts.specs.Acts.{go_act, go_seen, goal_seen, out_act, over_act, over_seen, step_act, step_seen, to_goal, until_act};

use crate::reply::{tell_no_frame, tell_no_value, tell_outside};
use crate::stops::{Setting, tell_stop};
use vax_debug::{Failure, Goal, Marks, Place, Plan, Snapshot, frame_goal, locate, look};
use vax_debug_words::Expression;
use vax_machine::Machine;
use vax_outside::{PageFile, Sink};

/// The same, with the watched bytes as they were seen before.
fn step_seen<F: PageFile, K: Sink>(
    count: u64,
    setting: &Setting,
    plan: &Plan,
    seen: &Snapshot,
    machine: &mut Machine,
    file: &mut F,
    sink: &mut K,
) -> Result<(), Failure>
    requires few_turns { setting.now.limits.now.turns < 2 ^ 64 - 2 }
    ensures acts { ActsFrom
        (scene (engine machine.old) (F.contents file.old) (K.contents sink.old))
        (scene (engine machine.new) (F.contents file.new) (K.contents sink.new)) result
        setting.now.limits.now
        (step_seen setting.now.limits.now.steps setting.now.legend.now plan.now count seen.now) }
    ensures counts { Counts result (F.faults file.old) (F.faults file.new) (K.faults sink.old)
        (K.faults sink.new) }
    ensures only { OnlyReplied (K.contents sink.old) (K.contents sink.new) }
{
    let marks = Marks {
        breaks: &plan.breaks,
        seen,
    };
    match vax_debug::step(
        count,
        &marks,
        machine,
        setting.limits,
        setting.schedule,
        file,
        sink,
    ) {
        Ok(()) => tell_stop(setting, plan, seen, machine, file, sink),
        Err(failure) => Err(failure),
    }
}

/// Makes at most so many steps, up to a stop, and tells where and why it stopped.
pub fn step<F: PageFile, K: Sink>(
    count: u64,
    setting: &Setting,
    plan: &Plan,
    machine: &mut Machine,
    file: &mut F,
    sink: &mut K,
) -> Result<(), Failure>
    requires few_turns { setting.now.limits.now.turns < 2 ^ 64 - 2 }
    ensures acts { ActsFrom
        (scene (engine machine.old) (F.contents file.old) (K.contents sink.old))
        (scene (engine machine.new) (F.contents file.new) (K.contents sink.new)) result
        setting.now.limits.now
        (step_act setting.now.limits.now.steps setting.now.legend.now plan.now count) }
    ensures counts { Counts result (F.faults file.old) (F.faults file.new) (K.faults sink.old)
        (K.faults sink.new) }
    ensures only { OnlyReplied (K.contents sink.old) (K.contents sink.new) }
{
    match look(&plan.watches, machine, file) {
        Ok(seen) => step_seen(count, setting, plan, &seen, machine, file, sink),
        Err(_) => Err(Failure::PageFault),
    }
}

/// The same, with the watched bytes as they were seen before.
fn go_seen<F: PageFile, K: Sink>(
    setting: &Setting,
    plan: &Plan,
    seen: &Snapshot,
    machine: &mut Machine,
    file: &mut F,
    sink: &mut K,
) -> Result<(), Failure>
    requires few_turns { setting.now.limits.now.turns < 2 ^ 64 - 2 }
    ensures acts { ActsFrom
        (scene (engine machine.old) (F.contents file.old) (K.contents sink.old))
        (scene (engine machine.new) (F.contents file.new) (K.contents sink.new)) result
        setting.now.limits.now
        (go_seen setting.now.limits.now.steps setting.now.legend.now plan.now seen.now) }
    ensures counts { Counts result (F.faults file.old) (F.faults file.new) (K.faults sink.old)
        (K.faults sink.new) }
    ensures only { OnlyReplied (K.contents sink.old) (K.contents sink.new) }
{
    let marks = Marks {
        breaks: &plan.breaks,
        seen,
    };
    match vax_debug::go(
        &marks,
        machine,
        setting.limits,
        setting.schedule,
        file,
        sink,
    ) {
        Ok(()) => tell_stop(setting, plan, seen, machine, file, sink),
        Err(failure) => Err(failure),
    }
}

/// Makes steps up to a stop or the limit, and tells where and why it stopped.
pub fn go<F: PageFile, K: Sink>(
    setting: &Setting,
    plan: &Plan,
    machine: &mut Machine,
    file: &mut F,
    sink: &mut K,
) -> Result<(), Failure>
    requires few_turns { setting.now.limits.now.turns < 2 ^ 64 - 2 }
    ensures acts { ActsFrom
        (scene (engine machine.old) (F.contents file.old) (K.contents sink.old))
        (scene (engine machine.new) (F.contents file.new) (K.contents sink.new)) result
        setting.now.limits.now
        (go_act setting.now.limits.now.steps setting.now.legend.now plan.now) }
    ensures counts { Counts result (F.faults file.old) (F.faults file.new) (K.faults sink.old)
        (K.faults sink.new) }
    ensures only { OnlyReplied (K.contents sink.old) (K.contents sink.new) }
{
    match look(&plan.watches, machine, file) {
        Ok(seen) => go_seen(setting, plan, &seen, machine, file, sink),
        Err(_) => Err(Failure::PageFault),
    }
}

/// The same, with the watched bytes as they were seen before.
fn over_seen<F: PageFile, K: Sink>(
    setting: &Setting,
    plan: &Plan,
    seen: &Snapshot,
    machine: &mut Machine,
    file: &mut F,
    sink: &mut K,
) -> Result<(), Failure>
    requires few_turns { setting.now.limits.now.turns < 2 ^ 64 - 2 }
    ensures acts { ActsFrom
        (scene (engine machine.old) (F.contents file.old) (K.contents sink.old))
        (scene (engine machine.new) (F.contents file.new) (K.contents sink.new)) result
        setting.now.limits.now
        (over_seen setting.now.limits.now.steps setting.now.legend.now plan.now seen.now) }
    ensures counts { Counts result (F.faults file.old) (F.faults file.new) (K.faults sink.old)
        (K.faults sink.new) }
    ensures only { OnlyReplied (K.contents sink.old) (K.contents sink.new) }
{
    let marks = Marks {
        breaks: &plan.breaks,
        seen,
    };
    match vax_debug::over(
        &marks,
        machine,
        setting.limits,
        setting.schedule,
        file,
        sink,
    ) {
        Ok(()) => tell_stop(setting, plan, seen, machine, file, sink),
        Err(failure) => Err(failure),
    }
}

/// Makes a step, or all of those of a call, and tells where and why it stopped.
pub fn over<F: PageFile, K: Sink>(
    setting: &Setting,
    plan: &Plan,
    machine: &mut Machine,
    file: &mut F,
    sink: &mut K,
) -> Result<(), Failure>
    requires few_turns { setting.now.limits.now.turns < 2 ^ 64 - 2 }
    ensures acts { ActsFrom
        (scene (engine machine.old) (F.contents file.old) (K.contents sink.old))
        (scene (engine machine.new) (F.contents file.new) (K.contents sink.new)) result
        setting.now.limits.now
        (over_act setting.now.limits.now.steps setting.now.legend.now plan.now) }
    ensures counts { Counts result (F.faults file.old) (F.faults file.new) (K.faults sink.old)
        (K.faults sink.new) }
    ensures only { OnlyReplied (K.contents sink.old) (K.contents sink.new) }
{
    match look(&plan.watches, machine, file) {
        Ok(seen) => over_seen(setting, plan, &seen, machine, file, sink),
        Err(_) => Err(Failure::PageFault),
    }
}

/// The same, with the watched bytes as they were seen before.
fn go_to_seen<F: PageFile, K: Sink>(
    goal: Goal,
    setting: &Setting,
    plan: &Plan,
    seen: &Snapshot,
    machine: &mut Machine,
    file: &mut F,
    sink: &mut K,
) -> Result<(), Failure>
    requires few_turns { setting.now.limits.now.turns < 2 ^ 64 - 2 }
    ensures acts { ActsFrom
        (scene (engine machine.old) (F.contents file.old) (K.contents sink.old))
        (scene (engine machine.new) (F.contents file.new) (K.contents sink.new)) result
        setting.now.limits.now
        (goal_seen setting.now.limits.now.steps setting.now.legend.now plan.now goal seen.now) }
    ensures counts { Counts result (F.faults file.old) (F.faults file.new) (K.faults sink.old)
        (K.faults sink.new) }
    ensures only { OnlyReplied (K.contents sink.old) (K.contents sink.new) }
{
    let marks = Marks {
        breaks: &plan.breaks,
        seen,
    };
    match vax_debug::go_to(
        goal,
        &marks,
        machine,
        setting.limits,
        setting.schedule,
        file,
        sink,
    ) {
        Ok(()) => tell_stop(setting, plan, seen, machine, file, sink),
        Err(failure) => Err(failure),
    }
}

/// Makes steps up to a goal, a stop or the limit, and tells where and why it stopped.
fn go_to<F: PageFile, K: Sink>(
    goal: Goal,
    setting: &Setting,
    plan: &Plan,
    machine: &mut Machine,
    file: &mut F,
    sink: &mut K,
) -> Result<(), Failure>
    requires few_turns { setting.now.limits.now.turns < 2 ^ 64 - 2 }
    ensures acts { ActsFrom
        (scene (engine machine.old) (F.contents file.old) (K.contents sink.old))
        (scene (engine machine.new) (F.contents file.new) (K.contents sink.new)) result
        setting.now.limits.now
        (to_goal setting.now.limits.now.steps setting.now.legend.now plan.now goal) }
    ensures counts { Counts result (F.faults file.old) (F.faults file.new) (K.faults sink.old)
        (K.faults sink.new) }
    ensures only { OnlyReplied (K.contents sink.old) (K.contents sink.new) }
{
    match look(&plan.watches, machine, file) {
        Ok(seen) => go_to_seen(goal, setting, plan, &seen, machine, file, sink),
        Err(_) => Err(Failure::PageFault),
    }
}

/// Makes steps up to an address that an area has, a stop or the limit, and tells where and why it stopped.
pub fn until<F: PageFile, K: Sink>(
    to: &Expression,
    setting: &Setting,
    plan: &Plan,
    machine: &mut Machine,
    file: &mut F,
    sink: &mut K,
) -> Result<(), Failure>
    requires proper { IsExpression to.now }
    requires few_turns { setting.now.limits.now.turns < 2 ^ 64 - 2 }
    ensures acts { ActsFrom
        (scene (engine machine.old) (F.contents file.old) (K.contents sink.old))
        (scene (engine machine.new) (F.contents file.new) (K.contents sink.new)) result
        setting.now.limits.now
        (until_act setting.now.limits.now.steps setting.now.legend.now plan.now to.now) }
    ensures counts { Counts result (F.faults file.old) (F.faults file.new) (K.faults sink.old)
        (K.faults sink.new) }
    ensures only { OnlyReplied (K.contents sink.old) (K.contents sink.new) }
{
    match locate(setting.legend, to, machine, file) {
        Ok(Place::Inside(address)) => {
            let goal = Goal { address, least: 0 };
            go_to(goal, setting, plan, machine, file, sink)
        }
        Ok(Place::Outside) => tell_outside(sink),
        Ok(Place::Unknown) => tell_no_value(sink),
        Err(_) => Err(Failure::PageFault),
    }
}

/// Makes the rest of the steps of a procedure, up to a stop or the limit, and tells where and why it stopped.
pub fn leave<F: PageFile, K: Sink>(
    setting: &Setting,
    plan: &Plan,
    machine: &mut Machine,
    file: &mut F,
    sink: &mut K,
) -> Result<(), Failure>
    requires few_turns { setting.now.limits.now.turns < 2 ^ 64 - 2 }
    ensures acts { ActsFrom
        (scene (engine machine.old) (F.contents file.old) (K.contents sink.old))
        (scene (engine machine.new) (F.contents file.new) (K.contents sink.new)) result
        setting.now.limits.now
        (out_act setting.now.limits.now.steps setting.now.legend.now plan.now) }
    ensures counts { Counts result (F.faults file.old) (F.faults file.new) (K.faults sink.old)
        (K.faults sink.new) }
    ensures only { OnlyReplied (K.contents sink.old) (K.contents sink.new) }
{
    match frame_goal(machine, file) {
        Ok(Some(goal)) => go_to(goal, setting, plan, machine, file, sink),
        Ok(None) => tell_no_frame(sink),
        Err(_) => Err(Failure::PageFault),
    }
}
