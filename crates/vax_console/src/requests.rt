//! The requests that make no steps.
ghost use Rattle.std.specs.Prelude.{◌≡◌, ◌<◌, ◌≤◌, List, [], ◌∷◌, length};
ghost use Rattle.vax_sched.specs.declared.rule.Rule.{Rule};
ghost use Rattle.vax_machine.specs.Console.{IsBetween};
ghost use Rattle.vax_machine.specs.Meaning.{engine};
ghost use Rattle.vax_report.specs.Lines.{memory_line};
ghost use Rattle.vax_script.specs.declared.request.Request.TheVariants as request;
ghost use Rattle.vax_script.specs.declared.request.Line.TheVariants as line;
ghost use Rattle.vax_console.specs.Transcript.{last_of};
ghost use Rattle.vax_console.specs.Ends.{Causes, GoesFrom, OnlyReplied, Replies, report_on, scene};
ghost use Rattle.vax_console.specs.Parts.{SpendsFrom};
ghost use Rattle.vax_console.specs.Turns.{HoldsFrom};

use crate::stopped::Stopped;
use vax_flat::Ending;
use vax_machine::{Limits, Machine};
use vax_outside::{Chan, Failed, PageFile, Sink, Text, put_all};
use vax_report::{Last, push_memory, push_register, write_report};

/// Writes a reply.
pub(crate) fn reply<K: Sink>(text: &[u8], sink: &mut K) -> Result<(), Stopped>
    ensures { Replies result (K.faults sink.old) (K.faults sink.new)
        (K.contents sink.old) (K.contents sink.new) text.now }
{
    match put_all(sink, Chan::Report, text) {
        Ok(()) => Ok(()),
        Err(Failed) => Err(Stopped::WriteFault),
    }
}

/// Replies with a register's value.
pub(crate) fn examine_register<F: PageFile, K: Sink>(
    n: u8,
    machine: &Machine,
    limits: &Limits,
    file: &F,
    sink: &mut K,
) -> Result<(), Stopped>
    requires { n < 16 }
    ensures goes { GoesFrom
        (scene (engine machine.now) (F.contents file.now) (K.contents sink.old))
        (scene (engine machine.now) (F.contents file.now) (K.contents sink.new))
        limits.now (line.Request (request.ExamineRegister n) ∷ []) result }
    ensures holds { (rules : List Rule) →
        HoldsFrom (scene (engine machine.now) (F.contents file.now) (K.contents sink.old))
        (scene (engine machine.now) (F.contents file.now) (K.contents sink.new))
        limits.now rules (line.Request (request.ExamineRegister n) ∷ []) result }
    ensures spends { (rules : List Rule) →
        SpendsFrom (scene (engine machine.now) (F.contents file.now) (K.contents sink.old))
        (scene (engine machine.now) (F.contents file.now) (K.contents sink.new))
        limits.now.steps rules (line.Request (request.ExamineRegister n) ∷ []) result }
    ensures causes { Causes result (F.faults file.now) (F.faults file.now)
        (K.faults sink.old) (K.faults sink.new) }
    ensures only { OnlyReplied (K.contents sink.old) (K.contents sink.new) }
{
    let mut text = Text::new();
    push_register(&mut text, n, machine.core().regs[n as usize]);
    reply(text.as_slice(), sink)
}

/// Replies with bytes of memory.
fn reply_memory<K: Sink>(addr: u32, cells: &[Option<u8>], sink: &mut K) -> Result<(), Stopped>
    requires { length cells.now ≤ 16 }
    ensures { Replies result (K.faults sink.old) (K.faults sink.new)
        (K.contents sink.old) (K.contents sink.new) (memory_line addr cells.now) }
{
    let mut text = Text::new();
    push_memory(&mut text, addr, cells);
    reply(text.as_slice(), sink)
}

/// Reads bytes of memory, and replies with them.
pub(crate) fn examine_memory<F: PageFile, K: Sink>(
    addr: u32,
    count: u8,
    machine: &mut Machine,
    limits: &Limits,
    file: &mut F,
    sink: &mut K,
) -> Result<(), Stopped>
    requires some { 1 ≤ count }
    requires few { count ≤ 16 }
    requires between { IsBetween (engine machine.old) }
    ensures goes { GoesFrom
        (scene (engine machine.old) (F.contents file.old) (K.contents sink.old))
        (scene (engine machine.new) (F.contents file.new) (K.contents sink.new))
        limits.now (line.Request (request.ExamineMemory addr count) ∷ []) result }
    ensures holds { (rules : List Rule) →
        HoldsFrom (scene (engine machine.old) (F.contents file.old) (K.contents sink.old))
        (scene (engine machine.new) (F.contents file.new) (K.contents sink.new))
        limits.now rules (line.Request (request.ExamineMemory addr count) ∷ []) result }
    ensures spends { (rules : List Rule) →
        SpendsFrom (scene (engine machine.old) (F.contents file.old) (K.contents sink.old))
        (scene (engine machine.new) (F.contents file.new) (K.contents sink.new))
        limits.now.steps rules (line.Request (request.ExamineMemory addr count) ∷ []) result }
    ensures between { IsBetween (engine machine.new) }
    ensures causes { Causes result (F.faults file.old) (F.faults file.new)
        (K.faults sink.old) (K.faults sink.new) }
    ensures only { OnlyReplied (K.contents sink.old) (K.contents sink.new) }
{
    let mut cells = [None; 16];
    let cells = &mut cells[..count as usize];
    match machine.dump(addr, cells, file) {
        Ok(()) => reply_memory(addr, cells, sink),
        Err(_) => Err(Stopped::PageFault),
    }
}

/// Changes a register.
pub(crate) fn deposit_register<F: PageFile, K: Sink>(
    n: u8,
    value: u32,
    machine: &mut Machine,
    limits: &Limits,
    file: &F,
    sink: &mut K,
) -> Result<(), Stopped>
    requires number { n < 16 }
    requires between { IsBetween (engine machine.old) }
    ensures goes { GoesFrom
        (scene (engine machine.old) (F.contents file.now) (K.contents sink.old))
        (scene (engine machine.new) (F.contents file.now) (K.contents sink.new))
        limits.now (line.Request (request.DepositRegister n value) ∷ []) result }
    ensures holds { (rules : List Rule) →
        HoldsFrom (scene (engine machine.old) (F.contents file.now) (K.contents sink.old))
        (scene (engine machine.new) (F.contents file.now) (K.contents sink.new))
        limits.now rules (line.Request (request.DepositRegister n value) ∷ []) result }
    ensures spends { (rules : List Rule) →
        SpendsFrom (scene (engine machine.old) (F.contents file.now) (K.contents sink.old))
        (scene (engine machine.new) (F.contents file.now) (K.contents sink.new))
        limits.now.steps rules (line.Request (request.DepositRegister n value) ∷ []) result }
    ensures between { IsBetween (engine machine.new) }
    ensures causes { Causes result (F.faults file.now) (F.faults file.now)
        (K.faults sink.old) (K.faults sink.new) }
    ensures only { OnlyReplied (K.contents sink.old) (K.contents sink.new) }
{
    machine.set_reg(n, value);
    reply(b"OK\n", sink)
}

/// Changes bytes of memory, if all of them lie in pages that some mode may write.
pub(crate) fn deposit_memory<F: PageFile, K: Sink>(
    addr: u32,
    bytes: &[u8],
    machine: &mut Machine,
    limits: &Limits,
    file: &mut F,
    sink: &mut K,
) -> Result<(), Stopped>
    requires some { 1 ≤ length bytes.now }
    requires few { length bytes.now ≤ 64 }
    requires between { IsBetween (engine machine.old) }
    ensures goes { GoesFrom
        (scene (engine machine.old) (F.contents file.old) (K.contents sink.old))
        (scene (engine machine.new) (F.contents file.new) (K.contents sink.new))
        limits.now (line.Request (request.DepositMemory addr bytes.now) ∷ []) result }
    ensures holds { (rules : List Rule) →
        HoldsFrom (scene (engine machine.old) (F.contents file.old) (K.contents sink.old))
        (scene (engine machine.new) (F.contents file.new) (K.contents sink.new))
        limits.now rules (line.Request (request.DepositMemory addr bytes.now) ∷ []) result }
    ensures spends { (rules : List Rule) →
        SpendsFrom (scene (engine machine.old) (F.contents file.old) (K.contents sink.old))
        (scene (engine machine.new) (F.contents file.new) (K.contents sink.new))
        limits.now.steps rules (line.Request (request.DepositMemory addr bytes.now) ∷ []) result }
    ensures between { IsBetween (engine machine.new) }
    ensures causes { Causes result (F.faults file.old) (F.faults file.new)
        (K.faults sink.old) (K.faults sink.new) }
    ensures only { OnlyReplied (K.contents sink.old) (K.contents sink.new) }
{
    match machine.poke(addr, bytes, file) {
        Ok(true) => reply(b"OK\n", sink),
        Ok(false) => reply(b"?ADDRESS\n", sink),
        Err(_) => Err(Stopped::PageFault),
    }
}

/// Why the machine stands still: it has ended, or else the limit of steps.
pub(crate) fn last_of(ended: Option<Ending>) -> Last
    ensures { result ≡ last_of ended }
{
    match ended {
        Some(ending) => Last::Ending(ending),
        None => Last::Steps,
    }
}

/// Writes the report of the present state, without dumps.
fn report<K: Sink>(machine: &Machine, last: Last, sink: &mut K) -> Result<(), Stopped>
    ensures { Replies result (K.faults sink.old) (K.faults sink.new)
        (K.contents sink.old) (K.contents sink.new) (report_on (engine machine.now) last) }
{
    let written = write_report(
        machine.core(),
        last,
        machine.steps(),
        machine.units(),
        machine.taken(),
        &[],
        sink,
    );
    match written {
        Ok(()) => Ok(()),
        Err(Failed) => Err(Stopped::WriteFault),
    }
}

/// Replies with the report of the present state.
pub(crate) fn show<F: PageFile, K: Sink>(
    machine: &Machine,
    limits: &Limits,
    file: &F,
    sink: &mut K,
) -> Result<(), Stopped>
    requires between { IsBetween (engine machine.now) }
    ensures goes { GoesFrom
        (scene (engine machine.now) (F.contents file.now) (K.contents sink.old))
        (scene (engine machine.now) (F.contents file.now) (K.contents sink.new))
        limits.now (line.Request request.Show ∷ []) result }
    ensures holds { (rules : List Rule) →
        HoldsFrom (scene (engine machine.now) (F.contents file.now) (K.contents sink.old))
        (scene (engine machine.now) (F.contents file.now) (K.contents sink.new))
        limits.now rules (line.Request request.Show ∷ []) result }
    ensures spends { (rules : List Rule) →
        SpendsFrom (scene (engine machine.now) (F.contents file.now) (K.contents sink.old))
        (scene (engine machine.now) (F.contents file.now) (K.contents sink.new))
        limits.now.steps rules (line.Request request.Show ∷ []) result }
    ensures causes { Causes result (F.faults file.now) (F.faults file.now)
        (K.faults sink.old) (K.faults sink.new) }
    ensures only { OnlyReplied (K.contents sink.old) (K.contents sink.new) }
{
    report(machine, last_of(machine.ended()), sink)
}
