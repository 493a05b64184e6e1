//! The lines of a script, one after the other.
ghost use Rattle.std.specs.Prelude.{◌<◌, ◌^◌, ◌-◌, [], ◌∷◌, IsOk};
ghost use Rattle.vax_machine.specs.Console.{IsBetween};
ghost use Rattle.vax_machine.specs.Meaning.{engine};
ghost use Rattle.vax_script.specs.Requests.{IsProper, IsProperLine, readings};
ghost use Rattle.vax_script.specs.declared.request.Line.TheVariants as line;
ghost use Rattle.vax_console.specs.Ends.{Causes, GoesFrom, OnlyReplied, scene};
ghost use Rattle.vax_console.specs.Parts.{SpendsFrom};
ghost use Rattle.vax_console.specs.Turns.{HoldsFrom};

use crate::requests::{
    deposit_memory, deposit_register, examine_memory, examine_register, reply, show,
};
use crate::runs::{next, proceed};
use crate::stopped::Stopped;
use vax_lines::next_line;
use vax_machine::{Limits, Machine};
use vax_outside::{PageFile, Sink};
use vax_sched::Schedule;
use vax_script::{Line, Request, read_line};

/// Does what a request asks for, and replies.
#[tactic(auto, unfolding(vax_script::specs::Requests::IsProper))]
fn answer<F: PageFile, K: Sink>(
    request: &Request,
    machine: &mut Machine,
    limits: &Limits,
    schedule: &Schedule,
    file: &mut F,
    sink: &mut K,
) -> Result<(), Stopped>
    requires proper { IsProper request.now }
    requires few_turns { limits.now.turns < 2 ^ 64 - 2 }
    requires between { IsBetween (engine machine.old) }
    ensures goes { GoesFrom
        (scene (engine machine.old) (F.contents file.old) (K.contents sink.old))
        (scene (engine machine.new) (F.contents file.new) (K.contents sink.new))
        limits.now (line.Request request.now ∷ []) result }
    ensures holds { HoldsFrom
        (scene (engine machine.old) (F.contents file.old) (K.contents sink.old))
        (scene (engine machine.new) (F.contents file.new) (K.contents sink.new))
        limits.now schedule.now (line.Request request.now ∷ []) result }
    ensures spends { SpendsFrom
        (scene (engine machine.old) (F.contents file.old) (K.contents sink.old))
        (scene (engine machine.new) (F.contents file.new) (K.contents sink.new))
        limits.now.steps schedule.now (line.Request request.now ∷ []) result }
    ensures between { IsOk result → IsBetween (engine machine.new) }
    ensures causes { Causes result (F.faults file.old) (F.faults file.new)
        (K.faults sink.old) (K.faults sink.new) }
    ensures only { OnlyReplied (K.contents sink.old) (K.contents sink.new) }
{
    match request {
        Request::ExamineRegister(n) => examine_register(*n, machine, limits, file, sink),
        Request::ExamineMemory { addr, count } => {
            examine_memory(*addr, *count, machine, limits, file, sink)
        }
        Request::DepositRegister { register, value } => {
            deposit_register(*register, *value, machine, limits, file, sink)
        }
        Request::DepositMemory { addr, bytes } => {
            deposit_memory(*addr, bytes.as_slice(), machine, limits, file, sink)
        }
        Request::Next(count) => next(*count, machine, limits, schedule, file, sink),
        Request::Continue => proceed(machine, limits, schedule, file, sink),
        Request::Show => show(machine, limits, file, sink),
    }
}

/// Carries out a line, or refuses it.
fn carry_out<F: PageFile, K: Sink>(
    line: &Line,
    machine: &mut Machine,
    limits: &Limits,
    schedule: &Schedule,
    file: &mut F,
    sink: &mut K,
) -> Result<(), Stopped>
    requires proper { IsProperLine line.now }
    requires few_turns { limits.now.turns < 2 ^ 64 - 2 }
    requires between { IsBetween (engine machine.old) }
    ensures goes { GoesFrom
        (scene (engine machine.old) (F.contents file.old) (K.contents sink.old))
        (scene (engine machine.new) (F.contents file.new) (K.contents sink.new))
        limits.now (line.now ∷ []) result }
    ensures holds { HoldsFrom
        (scene (engine machine.old) (F.contents file.old) (K.contents sink.old))
        (scene (engine machine.new) (F.contents file.new) (K.contents sink.new))
        limits.now schedule.now (line.now ∷ []) result }
    ensures spends { SpendsFrom
        (scene (engine machine.old) (F.contents file.old) (K.contents sink.old))
        (scene (engine machine.new) (F.contents file.new) (K.contents sink.new))
        limits.now.steps schedule.now (line.now ∷ []) result }
    ensures between { IsOk result → IsBetween (engine machine.new) }
    ensures causes { Causes result (F.faults file.old) (F.faults file.new)
        (K.faults sink.old) (K.faults sink.new) }
    ensures only { OnlyReplied (K.contents sink.old) (K.contents sink.new) }
{
    match line {
        Line::Blank => Ok(()),
        Line::Request(request) => answer(request, machine, limits, schedule, file, sink),
        Line::Malformed => reply(b"?COMMAND\n", sink),
    }
}

/// Carries out the lines of a script.
pub(crate) fn carry_out_all<F: PageFile, K: Sink>(
    script: &[u8],
    machine: &mut Machine,
    limits: &Limits,
    schedule: &Schedule,
    file: &mut F,
    sink: &mut K,
) -> Result<(), Stopped>
    requires few_turns { limits.now.turns < 2 ^ 64 - 2 }
    requires between { IsBetween (engine machine.old) }
    ensures goes { GoesFrom
        (scene (engine machine.old) (F.contents file.old) (K.contents sink.old))
        (scene (engine machine.new) (F.contents file.new) (K.contents sink.new))
        limits.now (readings script.now) result }
    ensures holds { HoldsFrom
        (scene (engine machine.old) (F.contents file.old) (K.contents sink.old))
        (scene (engine machine.new) (F.contents file.new) (K.contents sink.new))
        limits.now schedule.now (readings script.now) result }
    ensures spends { SpendsFrom
        (scene (engine machine.old) (F.contents file.old) (K.contents sink.old))
        (scene (engine machine.new) (F.contents file.new) (K.contents sink.new))
        limits.now.steps schedule.now (readings script.now) result }
    ensures between { IsOk result → IsBetween (engine machine.new) }
    ensures causes { Causes result (F.faults file.old) (F.faults file.new)
        (K.faults sink.old) (K.faults sink.new) }
    ensures only { OnlyReplied (K.contents sink.old) (K.contents sink.new) }
{
    let mut rest = script;
    while let Some((line, behind)) = next_line(rest) {
        carry_out(&read_line(line), machine, limits, schedule, file, sink)?;
        rest = behind;
    }
    Ok(())
}
