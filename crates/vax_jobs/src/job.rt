//! Processes at the start.
ghost use Rattle.std.specs.Prelude.{◌≡◌, ◌≤◌, IfErr, IfOk, length};
ghost use Rattle.std.specs.List.{All, AllZip};
ghost use Rattle.vax_jobs.specs.Beginning.{IsFresh};

use std::alloc::{AllocError, Global};
use std::collections::VecDeque;
use thiserror::Error;
use vax_machine::Machine;
use vax_space::{NoMemory, Space};
use vax_word::Core;

/// What a process begins with: its memory, its registers and its input.
#[derive(Drop)]
pub struct Job {
    pub space: Space,
    pub core: Core,
    pub input: Vec<u8>,
}

/// Why there are no processes.
#[derive(Clone, Copy, PartialEq, Eq, Debug, Error)]
pub enum JobsError {
    /// There are none, or more than 8.
    #[error("no processes, or more than 8")]
    Count,
    /// The pool is smaller than 64 pages for each process, or larger than 32,768.
    #[error("the pool is too small or too large")]
    Pool,
    /// Memory was refused.
    #[error("out of memory")]
    NoMemory,
}

impl From<NoMemory> for JobsError {
    ghost use Rattle.std.specs.Prelude.{◌≡◌};
    ghost use Rattle.vax_jobs.specs.declared.job.JobsError.TheVariants as error;

    ghost from_gives = { λ _ e. e ≡ error.NoMemory };

    fn from(_error: NoMemory) -> JobsError {
        JobsError::NoMemory
    }
}

impl From<AllocError> for JobsError {
    ghost use Rattle.std.specs.Prelude.{◌≡◌};
    ghost use Rattle.vax_jobs.specs.declared.job.JobsError.TheVariants as error;

    ghost from_gives = { λ _ e. e ≡ error.NoMemory };

    fn from(_error: AllocError) -> JobsError {
        JobsError::NoMemory
    }
}

/// The machine of a process.
fn machine_of(alloc: Global, job: Job, pool: u32) -> Result<Machine, NoMemory>
    requires some { 64 ≤ pool }
    requires few { pool ≤ 32768 }
    requires short { length job.input.items ≤ 4194304 }
    ensures { IfOk result (IsFresh pool job) }
{
    Machine::new(alloc, job.space, job.core, job.input, pool)
}

/// The machines of processes, in their order.
pub(crate) fn machines_of(
    alloc: Global,
    jobs: Vec<Job>,
    pool: u32,
) -> Result<Vec<Machine>, JobsError>
    requires some { 64 ≤ pool }
    requires few { pool ≤ 32768 }
    requires short { All (λ j. length j.input.items ≤ 4194304) jobs.items }
    ensures fresh { IfOk result (λ machines. AllZip (IsFresh pool) jobs.items machines.items) }
    ensures memory { IfErr result (λ e. e ≡ JobsError.NoMemory) }
{
    let mut left = VecDeque::from_vec(jobs);
    let mut machines = Vec::with_capacity(alloc, left.len())?;
    while let Some(job) = left.pop_front() {
        machines.push_reserved(machine_of(alloc, job, pool)?);
    }
    Ok(machines)
}
