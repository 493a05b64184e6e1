//! The processor.
ghost use Rattle.std.specs.Prelude.{◌≡◌, ◌⊎◌, ◌+◌, ◌<◌, ◌≤◌, ℕ, List, None, Some, IsSome};
ghost use Rattle.vax_space.specs.declared.Area.{Area};
ghost use Rattle.vax_flat.specs.Port.{StandsFor};
ghost use Rattle.vax_cpu.specs.Attempt.{answer_of, open_after};
ghost use Rattle.vax_flat.specs.Parts.{Place, machine_at, units_after};
ghost use Rattle.vax_cpu.specs.Tried.{IsFinal};

use crate::attempt::{Tried, settle, try_once, try_steps};
use vax_flat::Ending;
use vax_undo::{Log, Port, Term};
use vax_word::Core;
use vax_x_str::Scratch;

/// A string instruction that is open between two of its parts: its opcode, the registers at its start, and how many of its units are done.
#[derive(Clone, Copy, PartialEq, Eq)]
pub struct Open {
    pub opcode: u8,
    pub start: Core,
    pub units: u32,
}

/// What an attempt came to.
#[derive(Clone, Copy, PartialEq, Eq)]
pub enum Attempt {
    /// One whole instruction, or the delivery of its exception or of an interrupt, was completed; it sent this byte to the console.
    Step(Option<u8>),
    /// A part of a string instruction was completed, and more remains.
    Part,
    /// The attempt needs this page, which isn't resident. Everything is as before.
    Absent(u32),
    /// The step from here ends the run. Everything is as at its start: as before, and where a string instruction was open, the registers are
    /// those at its start, and none is open.
    Ended(Ending),
}

/// What a batch of attempts came to: how many steps were completed with no byte sent, and what the attempt after them came to.
#[derive(Clone, Copy, PartialEq, Eq)]
pub struct Batch {
    pub steps: u64,
    pub last: Attempt,
}

/// A processor: its registers, its console, and the string instruction that is open, if one is.
#[derive(Drop)]
pub struct Cpu {
    pub core: Core,
    pub term: Term,
    pub latch: Option<Open>,
    /// What the attempts' transactions log, lent to one after the other.
    log: Log,
    /// What the parts of string instructions read into.
    scratch: Scratch,
}

/// What is answered of an instruction with the delivery of its exception.
#[inline]
fn answer_of(tried: Tried) -> Attempt
    requires { IsFinal tried }
    ensures { answer_of tried ≡ Some result }
{
    match tried {
        Tried::Step(sent) => Attempt::Step(sent),
        Tried::Part(_) => Attempt::Part,
        Tried::Absent(page) => Attempt::Absent(page),
        Tried::Ended(ending) => Attempt::Ended(ending),
        Tried::Event(_) => unreachable!(),
    }
}

/// So many units more. They are counted up to 2^32 - 1.
#[inline]
fn units_after(units: u32, more: u32) -> u32
    ensures { result ≡ units_after units more }
{
    units.saturating_add(more)
}

/// The string instruction that is open after an attempt: a part more of the one that was open, or the first part of one.
#[inline]
fn open_after(latch: Option<Open>, tried: Tried) -> Option<Open>
    ensures { result ≡ open_after latch tried }
{
    match tried {
        Tried::Part(part) => match latch {
            None => Some(Open {
                opcode: part.opcode,
                start: part.start,
                units: units_after(0, part.units),
            }),
            Some(latched) => Some(Open {
                opcode: part.opcode,
                start: latched.start,
                units: units_after(latched.units, part.units),
            }),
        },
        Tried::Absent(_) => latch,
        Tried::Step(_) | Tried::Ended(_) | Tried::Event(_) => None,
    }
}

impl Cpu {
    ghost use Rattle.vax_cpu.specs.Attempt.{flat_of, Attempted, IsAsBefore, IsAt, IsOpenAfter, KeepsTime, StartsClosed, StopsInside};
    ghost use Rattle.vax_cpu.specs.Trail.{Trailed, traced_of};
    ghost use Rattle.vax_cpu.specs.Tried.{start_by, tree_of};
    ghost use Rattle.vax_flat.specs.Step.{run};
    ghost use Rattle.vax_cpu.specs.Batch.{AreAttempts, IsOneAttempt, Raises};

    /// A processor with these registers and this console. No string instruction is open.
    pub fn new(core: Core, term: Term) -> Cpu
        ensures core { result.core ≡ core }
        ensures term { result.term ≡ term }
        ensures latch { result.latch ≡ None }
    {
        Cpu {
            core,
            term,
            latch: None,
            log: Log::new(),
            scratch: Scratch::new(),
        }
    }

    /// Makes one attempt at the step at PC, or at the next part of the string instruction that is open. Nothing that was sent to the console
    /// is left.
    ///
    /// It answers the first page, in the order in which the attempt touches memory, that isn't resident, and then everything is as before; else
    /// it makes the step of the flat machine, or a part of it. It makes the accesses of the instruction alone, and of an exception's delivery. Pages to which it wrote are marked, also where it was undone. The interval
    /// clock counts to 999. First part done is clear where no instruction is open.
    pub fn attempt<P: Port>(&mut self, port: &mut P) -> Attempt
        requires unsent { self.old.term.out ≡ None }
        ensures attempted { (place : Place) → IsAt self.old place
            → StandsFor (P.view port.old) (machine_at place).memory
            → Attempted (P.view port.old) place result self.new (P.view port.new) }
        ensures before { IsAsBefore result self.old (P.view port.old) self.new (P.view port.new) }
        ensures trail { Trailed (tree_of self.old.latch) (start_by self.old.latch self.old.core)
            (traced_of P.view P.trail self.old.core self.old.term port.old) result
            (P.trail port.new) }
        ensures absent { StopsInside result (P.view port.old) }
        ensures latch { IsOpenAfter result self.old.latch self.new.latch }
        ensures unsent { self.new.term.out ≡ None }
        ensures input { self.new.term.input ≡ self.old.term.input }
        ensures clock { KeepsTime self.old → KeepsTime self.new }
        ensures closed { StartsClosed self.old → StartsClosed self.new }
        ensures since { (start : P) → P.since start port.old → P.since start port.new }
    {
        let tried = try_once(
            &mut self.core,
            &mut self.term,
            port,
            self.latch,
            &mut self.log,
            &mut self.scratch,
        );
        self.latch = open_after(self.latch, tried);
        answer_of(tried)
    }

    /// Makes at most `most` attempts, at least one, up to the first that doesn't complete a step at once, that sends a byte to the console, or
    /// that delivers an exception. Where a string instruction is open, it makes one attempt, at its next part.
    ///
    /// It does what as many calls of [`Cpu::attempt`] do, and spends less on each.
    pub fn attempts<P: Port>(&mut self, port: &mut P, most: u64) -> Batch
        requires unsent { self.old.term.out ≡ None }
        requires some { 1 ≤ most }
        ensures steps { self.old.latch ≡ None → (memory : List Area) → (output : List ℕ) →
            StandsFor (P.view port.old) memory
            → AreAttempts (P.view port.old) (flat_of self.old memory output) result.steps
            result.last self.new (P.view port.new) }
        ensures within { IsSome self.old.latch → (place : Place) → IsAt self.old place
            → StandsFor (P.view port.old) (machine_at place).memory
            → IsOneAttempt (P.view port.old) place result.steps result.last self.new
            (P.view port.new) }
        ensures before { result.steps ≡ 0
            → IsAsBefore result.last self.old (P.view port.old) self.new (P.view port.new) }
        ensures absent { StopsInside result.last (P.view port.old) }
        ensures few { result.steps < most }
        ensures all { self.old.latch ≡ None → (memory : List Area) → (output : List ℕ) →
            StandsFor (P.view port.old) memory → result.last ≡ Attempt.Step None
            → (result.steps + 1 ≡ most)
            ⊎ Raises (run result.steps (flat_of self.old memory output)) }
        ensures latch { IsOpenAfter result.last self.old.latch self.new.latch }
        ensures unsent { self.new.term.out ≡ None }
        ensures input { self.new.term.input ≡ self.old.term.input }
        ensures clock { KeepsTime self.old → KeepsTime self.new }
        ensures closed { StartsClosed self.old → StartsClosed self.new }
        ensures since { (start : P) → P.since start port.old → P.since start port.new }
    {
        if self.latch.is_some() {
            let last = self.attempt(port);
            return Batch { steps: 0, last };
        }
        let several = try_steps(
            &mut self.core,
            &mut self.term,
            port,
            most,
            &mut self.log,
            &mut self.scratch,
        );
        let last = settle(
            &mut self.core,
            &mut self.term,
            port,
            &mut self.log,
            several.last,
        );
        self.latch = open_after(None, last);
        Batch {
            steps: several.steps,
            last: answer_of(last),
        }
    }
}
