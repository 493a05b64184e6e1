//! Several turns of one process in a row.
ghost use Rattle.std.specs.Prelude.{◌≡◌, ◌<◌, ◌≤◌, IfOk, OnOk, length, true};
ghost use Rattle.vax_outside.specs.Faults.{CountsFailure};
ghost use Rattle.vax_jobs.specs.Pool.{IsPool, pooling_of};
ghost use Rattle.vax_jobs.specs.Running.{going, is_page_fault, is_write_fault, system_of};
ghost use Rattle.vax_jobs.specs.Sending.{WritesOn};
ghost use Rattle.vax_jobs.specs.Several.{GoesOnAtOnce, MakesTurns};

use crate::ends::Fault;
use crate::pool::Pool;
use crate::sending::Held;
use vax_outside::{PageFile, Sink};

/// The lesser of two numbers.
fn fewer(a: u64, b: u64) -> u64
    ensures first { result ≤ a }
    ensures second { result ≤ b }
{
    a.min(b)
}

impl Pool {
    /// Makes at most `most` attempts of a process that goes on, each of which completes a step with no byte sent, and says how many. It calls no page file.
    fn advance(&mut self, job: u8, most: u64, steps: u64) -> u64
        requires sound { IsPool self.old }
        requires there { job < length self.old.machines.items }
        requires going { going steps (pooling_of self.old) job ≡ true }
        ensures sound { IsPool self.new }
        ensures few { result ≤ most }
        ensures residents { self.new.residents ≡ self.old.residents }
        ensures most { self.new.most ≡ self.old.most }
        ensures advanced { GoesOnAtOnce job result steps self.old.machines.items
            self.new.machines.items }
    {
        let machine = &mut self.machines[job as usize];
        let room = fewer(most, steps - machine.steps());
        machine.advance(fewer(room, u64::MAX - machine.turns()))
    }

    /// Makes attempts of a process that goes on, at least one and at most `most`, and says how many: those that complete a step with no byte sent, as long as that
    /// can be, and else one more. The page that this one misses is served, and the byte that it sends is held back for Out.
    pub(crate) fn several_turns<F: PageFile, K: Sink>(
        &mut self,
        job: u8,
        most: u64,
        steps: u64,
        held: &mut Held,
        file: &mut F,
        sink: &mut K,
    ) -> Result<u64, Fault>
        requires sound { IsPool self.old }
        requires there { job < length self.old.machines.items }
        requires going { going steps (pooling_of self.old) job ≡ true }
        requires some { 1 ≤ most }
        requires room { length held.old.items < 512 }
        ensures sound { IsPool self.new }
        ensures count { length self.new.machines.items ≡ length self.old.machines.items }
        ensures most { self.new.most ≡ self.old.most }
        ensures room { OnOk result (length held.new.items < 512) }
        ensures some { IfOk result (λ made. (1 ≤ made) × (made ≤ most)) }
        ensures done { MakesTurns result most steps job
            (system_of (pooling_of self.old) self.old.machines.items (F.contents file.old))
            held.old.items (K.contents sink.old)
            (system_of (pooling_of self.new) self.new.machines.items (F.contents file.new))
            held.new.items (K.contents sink.new) }
        ensures writes { WritesOn result (K.contents sink.old) held.old.items
            (K.contents sink.new) held.new.items }
        ensures file { CountsFailure (is_page_fault result) (F.faults file.old)
            (F.faults file.new) }
        ensures sink { CountsFailure (is_write_fault result) (K.faults sink.old)
            (K.faults sink.new) }
    {
        let made = self.advance(job, most, steps);
        if made == most {
            return Ok(made);
        }
        if !self.goes_on(job, steps) {
            return Ok(made);
        }
        match self.one_turn(job, held, file, sink) {
            Ok(()) => Ok(made + 1),
            Err(fault) => Err(fault),
        }
    }
}
