//! Several processes and their pool.
ghost use Rattle.std.specs.Prelude.{◌≡◌, ◌<◌, ◌≤◌, Some, Err, IfOk, IsOk, length, slice_get};
ghost use Rattle.std.specs.List.{All};
ghost use Rattle.vax_outside.specs.Faults.{CountsFailure};
ghost use Rattle.vax_order.specs.Orders.{IsOrder};
ghost use Rattle.vax_jobs.specs.Pool.{IsPool};

use crate::ends::JobsEnd;
use crate::job::{Job, JobsError, machines_of};
use crate::pool::Pool;
use crate::turn::{Turn, Turned};
use std::alloc::Global;
use std::collections::VecDeque;
use vax_machine::Machine;
use vax_order::Order;
use vax_outside::{PageFile, Sink};

/// The most processes.
const MOST_JOBS: usize = 8;

/// The fewest resident pages for each process.
const FEWEST_PAGES: u32 = 64;

/// The most resident pages.
const MOST_PAGES: u32 = 32_768;

/// Several processes, numbered from 0: each a machine of its own, with a bound on the pages that are resident together. Only `new` takes memory.
#[derive(Drop)]
pub struct Jobs {
    pub(crate) pool: Pool,
    ghost sound: { IsPool pool },
}

impl Jobs {
    ghost use Rattle.vax_jobs.specs.Beginning.{Begins, IsCount, IsMost, machines, pooling};
    ghost use Rattle.vax_jobs.specs.Running.{CountsEnd, RunsTo, setting_of, system_of};
    ghost use Rattle.vax_jobs.specs.Sending.{OnlySent};
    ghost use Rattle.vax_jobs.specs.Turning.{DropsNoPins, HasTurned, IsTurned, has_failed, job_of};

    /// Processes at the start, with so many resident pages together, 64 for each to 32,768. An input has at most 4,194,304 bytes.
    ///
    /// Nothing is resident, and with any page file each stands for the flat machine with which it begins.
    pub fn new(alloc: Global, jobs: Vec<Job>, pool: u32) -> Result<Jobs, JobsError>
        requires short { All (λ j. length j.input.items ≤ 4194304) jobs.items }
        ensures begins { IfOk result (Begins jobs.items pool) }
        ensures count { result ≡ Err JobsError.Count → IsCount (length jobs.items) → ⊥ }
        ensures pool { result ≡ Err JobsError.Pool
            → IsCount (length jobs.items) × (IsMost (length jobs.items) pool → ⊥) }
        ensures whole { IsOk result
            → IsCount (length jobs.items) × IsMost (length jobs.items) pool }
    {
        let count = jobs.len();
        if count == 0 || MOST_JOBS < count {
            return Err(JobsError::Count);
        }
        if pool < FEWEST_PAGES * count as u32 || MOST_PAGES < pool {
            return Err(JobsError::Pool);
        }
        let machines = machines_of(alloc, jobs, pool)?;
        let residents = VecDeque::with_capacity(alloc, pool as usize)?;
        Ok(Jobs {
            pool: Pool {
                machines,
                residents,
                most: pool,
            },
        })
    }

    /// Makes a turn of a process that there is. It takes no memory.
    ///
    /// `Go` makes one attempt; the page that it misses is served. Where the pool is full, the page that was served longest ago and that no process has
    /// pinned is made absent first. After a failure the attempt is made, and the page isn't served. No other turn makes an attempt.
    pub fn turn<F: PageFile>(&mut self, turn: Turn, file: &mut F) -> Turned
        requires there { job_of turn < length (machines self.old) }
        ensures turned { IsTurned turn result (pooling self.old) (pooling self.new) }
        ensures goes { HasTurned turn result (pooling self.old) (machines self.old)
            (F.contents file.old) (machines self.new) (F.contents file.new) }
        ensures unsettled { DropsNoPins turn result (machines self.old) (F.contents file.old) }
        ensures counts { CountsFailure (has_failed result) (F.faults file.old) (F.faults file.new) }
        ensures since { (start : F) → F.since start file.old → F.since start file.new }
    {
        match turn {
            Turn::Go(job) => self.pool.go(job, file),
            Turn::Out(job, page) => self.pool.evict(job, page, file),
            Turn::Clean(job) => self.pool.clean(job, file),
        }
    }

    /// Makes attempts in an order of the processes that there are, up to where no process goes on or so many attempts were made. A process goes on that
    /// hasn't ended and has completed fewer than `steps` steps. The bytes that the processes send go to Out in the order of the steps that send them.
    ///
    /// It makes turns `Go` alone, and takes no memory. From wherever the processes stand it follows the turns of the flat machines. After a failure of the
    /// page file each process is where the turns before it left it; after one of the sink each is where some turns lead, and a prefix of what these send was written.
    pub fn run<F: PageFile, K: Sink>(
        &mut self,
        order: &Order,
        steps: u64,
        turns: u64,
        file: &mut F,
        sink: &mut K,
    ) -> JobsEnd
        requires { IsOrder (length (machines self.old)) order.now }
        ensures count { length (machines self.new) ≡ length (machines self.old) }
        ensures most { (pooling self.new).most ≡ (pooling self.old).most }
        ensures runs { RunsTo result (setting_of order.now steps turns (pooling self.old))
            (system_of (pooling self.old) (machines self.old) (F.contents file.old))
            (K.contents sink.old)
            (system_of (pooling self.new) (machines self.new) (F.contents file.new))
            (K.contents sink.new) }
        ensures only { OnlySent result (K.contents sink.old) (K.contents sink.new) }
        ensures counts { CountsEnd result (F.faults file.old) (F.faults file.new)
            (K.faults sink.old) (K.faults sink.new) }
    {
        self.pool.run(order.lines(), steps, turns, file, sink)
    }

    /// How many processes there are, 1 to 8.
    pub fn count(&self) -> u8
        ensures { result ≡ length (machines self.now) }
    {
        self.pool.machines.len() as u8
    }

    /// The machine of a process that there is.
    pub fn machine(&self, job: u8) -> &Machine
        requires { job < length (machines self.now) }
        ensures { slice_get (machines self.now) job ≡ Some result.now }
    {
        &self.pool.machines[job as usize]
    }

    /// How many pages are resident.
    pub fn used(&self) -> u32
        ensures count { result ≡ length (pooling self.now).resident }
        ensures most { result ≤ (pooling self.now).most }
    {
        self.pool.used()
    }
}
