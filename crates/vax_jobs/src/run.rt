//! Runs of several processes.
ghost use Rattle.std.specs.Prelude.{◌≡◌, ◌<◌, ◌≤◌, IfSome, OnOk, drop, length, true};
ghost use Rattle.std.specs.List.{list_all};
ghost use Rattle.vax_outside.specs.Faults.{CountsFailure};
ghost use Rattle.vax_order.specs.Orders.{IsOrder, is_line};
ghost use Rattle.vax_jobs.specs.Pool.{IsPool, pooling_of};
ghost use Rattle.vax_jobs.specs.Running.{CountsEnd, IsPosition, MakesTurn, RunsTo, byte_of, bytes_in, going, is_page_fault, is_write_fault, setting_of, system_of};
ghost use Rattle.vax_jobs.specs.Sending.{OnlySent, WritesOn};
ghost use Rattle.vax_jobs.specs.Shared.{first_going, next_position};

use crate::ends::{Fault, JobsEnd};
use crate::pool::Pool;
use crate::position::Position;
use crate::sending::{Held, finish, hold};
use crate::turn::Turned;
use vax_order::Line;
use vax_outside::{PageFile, Sink};

/// The byte that a turn sends, if it sends one.
fn byte_of(turned: Turned) -> Option<u8>
    ensures { bytes_in result ≡ byte_of turned }
{
    match turned {
        Turned::Stepped(sent) => sent,
        Turned::Parted
        | Turned::Absent(_)
        | Turned::Ended(_)
        | Turned::Moved
        | Turned::Nothing
        | Turned::Failed => None,
    }
}

/// How many turns of a line may follow at once, by what is left of it and of the limit.
fn most_turns(left: u32, turns: u64) -> u64
    requires line { 1 ≤ left }
    requires limit { 1 ≤ turns }
    ensures some { 1 ≤ result }
    ensures line { result ≤ left }
    ensures limit { result ≤ turns }
{
    u64::from(left).min(turns)
}

impl Pool {
    /// Whether a process hasn't ended, and has steps left of so many.
    pub(crate) fn goes_on(&self, job: u8, steps: u64) -> bool
        requires { job < length self.now.machines.items }
        ensures { result ≡ going steps (pooling_of self.now) job }
    {
        let machine = &self.machines[job as usize];
        machine.ended().is_none() && machine.steps() < steps
    }

    /// The first line from this one on whose process goes on.
    fn first_going(&self, order: &[Line], from: usize, steps: u64) -> Option<Position>
        requires { list_all (is_line (length self.now.machines.items)) order.now ≡ true }
        ensures first { result
            ≡ first_going (going steps (pooling_of self.now)) from (drop from order.now) }
        ensures there { IfSome result (IsPosition (going steps (pooling_of self.now)) order.now) }
    {
        for line in from..order.len() {
            let Line { job, count } = order[line];
            if self.goes_on(job, steps) {
                return Some(Position { line, left: count });
            }
        }
        None
    }

    /// From where the next attempt is made: the line at which the order stands, where attempts are left of it and its process goes on; else the first
    /// behind it whose process does. After the last line the first follows again.
    #[tactic(auto, unfolding(crate::specs::Shared::next_position))]
    fn next_position(&self, order: &[Line], at: Position, steps: u64) -> Option<Position>
        requires named { list_all (is_line (length self.now.machines.items)) order.now ≡ true }
        requires within { at.line < length order.now }
        ensures next { result ≡ next_position (going steps (pooling_of self.now)) order.now at }
        ensures there { IfSome result (IsPosition (going steps (pooling_of self.now)) order.now) }
    {
        if at.left > 0 && self.goes_on(order[at.line].job, steps) {
            return Some(at);
        }
        match self.first_going(order, at.line + 1, steps) {
            Some(next) => Some(next),
            None => self.first_going(order, 0, steps),
        }
    }

    /// An attempt of a process. The page that it misses is served, and the byte that it sends is held back for Out.
    pub(crate) fn one_turn<F: PageFile, K: Sink>(
        &mut self,
        job: u8,
        held: &mut Held,
        file: &mut F,
        sink: &mut K,
    ) -> Result<(), Fault>
        requires sound { IsPool self.old }
        requires there { job < length self.old.machines.items }
        requires room { length held.old.items < 512 }
        ensures sound { IsPool self.new }
        ensures count { length self.new.machines.items ≡ length self.old.machines.items }
        ensures most { self.new.most ≡ self.old.most }
        ensures room { OnOk result (length held.new.items < 512) }
        ensures done { MakesTurn result job
            (system_of (pooling_of self.old) self.old.machines.items (F.contents file.old))
            held.old.items (K.contents sink.old)
            (system_of (pooling_of self.new) self.new.machines.items (F.contents file.new))
            held.new.items (K.contents sink.new) }
        ensures writes { WritesOn result (K.contents sink.old) held.old.items (K.contents sink.new)
            held.new.items }
        ensures file { CountsFailure (is_page_fault result) (F.faults file.old)
            (F.faults file.new) }
        ensures sink { CountsFailure (is_write_fault result) (K.faults sink.old)
            (K.faults sink.new) }
    {
        match self.go(job, file) {
            Turned::Failed => Err(Fault::Page),
            turned => match byte_of(turned) {
                None => Ok(()),
                Some(byte) => match hold(held, byte, sink) {
                    Ok(()) => Ok(()),
                    Err(_) => Err(Fault::Write),
                },
            },
        }
    }

    /// Makes attempts in an order, up to where no process goes on or so many were made. The bytes that the processes send go to Out in order.
    pub(crate) fn run<F: PageFile, K: Sink>(
        &mut self,
        order: &[Line],
        steps: u64,
        turns: u64,
        file: &mut F,
        sink: &mut K,
    ) -> JobsEnd
        requires sound { IsPool self.old }
        requires order { IsOrder (length self.old.machines.items) order.now }
        ensures sound { IsPool self.new }
        ensures count { length self.new.machines.items ≡ length self.old.machines.items }
        ensures most { self.new.most ≡ self.old.most }
        ensures runs { RunsTo result (setting_of order.now steps turns (pooling_of self.old))
            (system_of (pooling_of self.old) self.old.machines.items (F.contents file.old))
            (K.contents sink.old)
            (system_of (pooling_of self.new) self.new.machines.items (F.contents file.new))
            (K.contents sink.new) }
        ensures only { OnlySent result (K.contents sink.old) (K.contents sink.new) }
        ensures counts { CountsEnd result (F.faults file.old) (F.faults file.new)
            (K.faults sink.old) (K.faults sink.new) }
    {
        let mut at = Position {
            line: 0,
            left: order[0].count,
        };
        let mut held = Held::new();
        let mut made = 0u64;
        loop {
            let Some(next) = self.next_position(order, at, steps) else {
                return finish(&held, JobsEnd::Done, sink);
            };
            if made >= turns {
                return finish(&held, JobsEnd::Turns, sink);
            }
            let most = most_turns(next.left, turns - made);
            match self.several_turns(order[next.line].job, most, steps, &mut held, file, sink) {
                Ok(count) => {
                    made += count;
                    at = Position {
                        line: next.line,
                        left: next.left - count as u32,
                    };
                }
                Err(Fault::Page) => return finish(&held, JobsEnd::PageFault, sink),
                Err(Fault::Write) => return JobsEnd::WriteFault,
            }
        }
    }
}
