//! The requests that make steps.
ghost use Rattle.std.specs.Prelude.{◌≡◌, ◌+◌, ◌<◌, ◌^◌, ◌-◌, [], ◌∷◌, IsOk};
ghost use Rattle.vax_flat.specs.Step.{Flat};
ghost use Rattle.vax_machine.specs.Console.{IsBetween};
ghost use Rattle.vax_machine.specs.Meaning.{engine};
ghost use Rattle.vax_script.specs.declared.request.Request.TheVariants as request;
ghost use Rattle.vax_script.specs.declared.request.Line.TheVariants as line;
ghost use Rattle.vax_report.specs.Lines.{ending_line};
ghost use Rattle.vax_console.specs.Transcript.{at_line, last_of, next_line};
ghost use Rattle.vax_console.specs.Ends.{AdvancesFrom, Causes, GoesFrom, OnlyReplied, answer_of, scene, session_on};
ghost use Rattle.vax_console.specs.Parts.{SpendsFrom, StepsSpendFrom};
ghost use Rattle.vax_console.specs.Turns.{HoldsFrom, StepsHoldFrom};

use crate::requests::{last_of, reply};
use crate::stopped::Stopped;
use vax_flat::Ending;
use vax_machine::{Limits, Machine, RunEnd};
use vax_outside::{PageFile, Sink, Text};
use vax_report::push_ending;
use vax_sched::Schedule;

/// What the end of a run means for its steps: how the machine ended, none where all were made, or what stopped them.
fn answer_of(end: RunEnd) -> Result<Option<Ending>, Stopped>
    ensures { result ≡ answer_of end }
{
    match end {
        RunEnd::Ended(ending) => Ok(Some(ending)),
        RunEnd::Steps => Ok(None),
        RunEnd::Turns => Err(Stopped::Turns),
        RunEnd::PageFault => Err(Stopped::PageFault),
        RunEnd::WriteFault => Err(Stopped::WriteFault),
    }
}

/// Makes so many steps, or fewer where the machine ends, and tells how it ended.
fn advance<F: PageFile, K: Sink>(
    count: u64,
    machine: &mut Machine,
    limits: &Limits,
    schedule: &Schedule,
    file: &mut F,
    sink: &mut K,
) -> Result<Option<Ending>, Stopped>
    requires few_steps { (engine machine.old).steps + count < 2 ^ 64 }
    requires few_turns { limits.now.turns < 2 ^ 64 - 2 }
    requires between { IsBetween (engine machine.old) }
    ensures goes { AdvancesFrom
        (scene (engine machine.old) (F.contents file.old) (K.contents sink.old))
        (scene (engine machine.new) (F.contents file.new) (K.contents sink.new))
        limits.now count result }
    ensures holds { StepsHoldFrom
        (scene (engine machine.old) (F.contents file.old) (K.contents sink.old))
        (scene (engine machine.new) (F.contents file.new) (K.contents sink.new))
        limits.now schedule.now count result }
    ensures spends { StepsSpendFrom
        (scene (engine machine.old) (F.contents file.old) (K.contents sink.old))
        (scene (engine machine.new) (F.contents file.new) (K.contents sink.new))
        count schedule.now result }
    ensures between { IsOk result → IsBetween (engine machine.new) }
    ensures causes { Causes result (F.faults file.old) (F.faults file.new)
        (K.faults sink.old) (K.faults sink.new) }
    ensures only { OnlyReplied (K.contents sink.old) (K.contents sink.new) }
{
    let limits = Limits {
        steps: machine.steps() + count,
        turns: limits.turns,
        listed: false,
    };
    answer_of(machine.run(&limits, schedule, file, sink))
}

/// How many steps are left up to the limit.
fn steps_left(machine: &Machine, limits: &Limits) -> u64
    ensures left { result ≡ limits.now.steps - (engine machine.now).steps }
    ensures within { (engine machine.now).steps + result < 2 ^ 64 }
{
    limits.steps.saturating_sub(machine.steps())
}

/// The reply where a run stops: how the machine ended, or that it reached the limit of steps.
fn stop_line(ended: Option<Ending>) -> Text
    ensures { result ≡ ending_line (last_of ended) }
{
    let mut text = Text::new();
    push_ending(&mut text, last_of(ended));
    text
}

/// The reply where all steps were made: the program counter, and how many steps were made.
#[tactic(auto, unfolding(crate::specs::Transcript::at_line))]
fn at_line(machine: &Machine) -> Text
    ensures { (m : Flat) → m.core ≡ (engine machine.now).cpu.core →
        result ≡ at_line (session_on (engine machine.now) m) }
{
    let mut text = Text::new();
    text.push(b"AT ");
    text.push_hex8(machine.core().regs[15]);
    text.push(b" STEPS ");
    text.push_decimal(machine.steps());
    text.push(b"\n");
    text
}

/// The reply behind steps of which the limit may have left some out.
fn next_line(machine: &Machine, ended: Option<Ending>, short: bool) -> Text
    ensures { (m : Flat) → m.core ≡ (engine machine.now).cpu.core → m.ending ≡ ended →
        result ≡ next_line short (session_on (engine machine.now) m) }
{
    if ended.is_some() || short {
        stop_line(ended)
    } else {
        at_line(machine)
    }
}

/// Makes so many steps, unless the machine has ended, and replies.
pub(crate) fn next<F: PageFile, K: Sink>(
    count: u64,
    machine: &mut Machine,
    limits: &Limits,
    schedule: &Schedule,
    file: &mut F,
    sink: &mut K,
) -> Result<(), Stopped>
    requires few_turns { limits.now.turns < 2 ^ 64 - 2 }
    requires between { IsBetween (engine machine.old) }
    ensures goes { GoesFrom
        (scene (engine machine.old) (F.contents file.old) (K.contents sink.old))
        (scene (engine machine.new) (F.contents file.new) (K.contents sink.new))
        limits.now (line.Request (request.Next count) ∷ []) result }
    ensures holds { HoldsFrom
        (scene (engine machine.old) (F.contents file.old) (K.contents sink.old))
        (scene (engine machine.new) (F.contents file.new) (K.contents sink.new))
        limits.now schedule.now (line.Request (request.Next count) ∷ []) result }
    ensures spends { SpendsFrom
        (scene (engine machine.old) (F.contents file.old) (K.contents sink.old))
        (scene (engine machine.new) (F.contents file.new) (K.contents sink.new))
        limits.now.steps schedule.now (line.Request (request.Next count) ∷ []) result }
    ensures between { IsOk result → IsBetween (engine machine.new) }
    ensures causes { Causes result (F.faults file.old) (F.faults file.new)
        (K.faults sink.old) (K.faults sink.new) }
    ensures only { OnlyReplied (K.contents sink.old) (K.contents sink.new) }
{
    if machine.ended().is_some() {
        return reply(b"?ENDED\n", sink);
    }
    let left = steps_left(machine, limits);
    let ended = advance(count.min(left), machine, limits, schedule, file, sink)?;
    let text = next_line(machine, ended, left < count);
    reply(text.as_slice(), sink)
}

/// Makes all steps up to an ending or the limit, unless the machine has ended, and replies.
pub(crate) fn proceed<F: PageFile, K: Sink>(
    machine: &mut Machine,
    limits: &Limits,
    schedule: &Schedule,
    file: &mut F,
    sink: &mut K,
) -> Result<(), Stopped>
    requires few_turns { limits.now.turns < 2 ^ 64 - 2 }
    requires between { IsBetween (engine machine.old) }
    ensures goes { GoesFrom
        (scene (engine machine.old) (F.contents file.old) (K.contents sink.old))
        (scene (engine machine.new) (F.contents file.new) (K.contents sink.new))
        limits.now (line.Request request.Continue ∷ []) result }
    ensures holds { HoldsFrom
        (scene (engine machine.old) (F.contents file.old) (K.contents sink.old))
        (scene (engine machine.new) (F.contents file.new) (K.contents sink.new))
        limits.now schedule.now (line.Request request.Continue ∷ []) result }
    ensures spends { SpendsFrom
        (scene (engine machine.old) (F.contents file.old) (K.contents sink.old))
        (scene (engine machine.new) (F.contents file.new) (K.contents sink.new))
        limits.now.steps schedule.now (line.Request request.Continue ∷ []) result }
    ensures between { IsOk result → IsBetween (engine machine.new) }
    ensures causes { Causes result (F.faults file.old) (F.faults file.new)
        (K.faults sink.old) (K.faults sink.new) }
    ensures only { OnlyReplied (K.contents sink.old) (K.contents sink.new) }
{
    if machine.ended().is_some() {
        return reply(b"?ENDED\n", sink);
    }
    let left = steps_left(machine, limits);
    let ended = advance(left, machine, limits, schedule, file, sink)?;
    reply(stop_line(ended).as_slice(), sink)
}
