//! The processes of programs.
ghost use Rattle.std.specs.Prelude.{◌≡◌, ◌*◌, ◌≤◌, IfOk, Some, length, map};
ghost use Rattle.std.specs.List.{All};
ghost use Rattle.vax_outside.specs.Blocks.{BlockFile};
ghost use Rattle.vax_image.specs.Image.{IsImage};
ghost use Rattle.vax_image.specs.Start.{Start};
ghost use Rattle.vax_jobs.specs.Beginning.{machines, pooling, start_of};
ghost use Rattle.vax_jobs.specs.Running.{IsReady, system_of};
ghost use Rattle.vax_jobs.specs.Shared.{Setting, begun};
ghost use Rattle.vax_together.specs.Starting.{HasInput, IsUser, starts_of};

use std::alloc::Global;
use vax_image::{Base, Image, start};
use vax_jobs::{Job, Jobs, JobsError};
use vax_space::NoMemory;

/// A process at the start of a program under its system, with all of the input.
fn job_of(alloc: Global, system: &Image, user: &Image, input: &[u8]) -> Result<Job, NoMemory>
    requires system { IsImage system.now }
    requires bare { system.now.base ≡ Base.Bare }
    requires user { IsUser user.now }
    ensures start { IfOk result (λ job.
        start_of job ≡ Start system.now (Some user.now) input.now) }
    ensures input { IfOk result (HasInput input.now) }
{
    let (space, core) = start(alloc, system, Some(user))?;
    match Vec::from_slice(alloc, input) {
        Ok(input) => Ok(Job { space, core, input }),
        Err(_) => Err(NoMemory),
    }
}

/// A process of each program.
fn jobs_of(
    alloc: Global,
    system: &Image,
    users: &[Image],
    input: &[u8],
) -> Result<Vec<Job>, NoMemory>
    requires system { IsImage system.now }
    requires bare { system.now.base ≡ Base.Bare }
    requires users { All IsUser users.now }
    ensures starts { IfOk result (λ jobs.
        map start_of jobs.items ≡ starts_of system.now users.now input.now) }
    ensures inputs { IfOk result (λ jobs. All (HasInput input.now) jobs.items) }
{
    let mut jobs = Vec::new(alloc);
    for user in users {
        let job = job_of(alloc, system, user, input)?;
        if jobs.push(job).is_err() {
            return Err(NoMemory);
        }
    }
    Ok(jobs)
}

/// Processes of 1 to 8 programs in user mode under one system, each with all of the input, with so many resident pages together, 64 for each to 32,768.
pub fn make_jobs(
    alloc: Global,
    system: &Image,
    users: &[Image],
    input: &[u8],
    pool: u32,
) -> Result<Jobs, NoMemory>
    requires system { IsImage system.now }
    requires bare { system.now.base ≡ Base.Bare }
    requires users { All IsUser users.now }
    requires some { 1 ≤ length users.now }
    requires few { length users.now ≤ 8 }
    requires least { 64 * length users.now ≤ pool }
    requires most { pool ≤ 32768 }
    requires input { length input.now ≤ 4194304 }
    ensures ready { IfOk result (λ r. (x : Setting) → (file : BlockFile)
        → IsReady x (system_of (pooling r) (machines r) (Some file))
        (begun x.order (starts_of system.now users.now input.now))) }
    ensures count { IfOk result (λ r. length (machines r) ≡ length users.now) }
    ensures most { IfOk result (λ r. (pooling r).most ≡ pool) }
{
    let jobs = jobs_of(alloc, system, users, input)?;
    match Jobs::new(alloc, jobs, pool) {
        Ok(jobs) => Ok(jobs),
        Err(JobsError::NoMemory) => Err(NoMemory),
        Err(JobsError::Count | JobsError::Pool) => unreachable!(),
    }
}
