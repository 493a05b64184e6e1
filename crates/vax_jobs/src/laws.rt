//! The laws of several processes, each the contract of a call that does nothing.
ghost use Rattle.std.specs.Prelude.{ℕ, List, Some, map};
ghost use Rattle.vax_outside.specs.Blocks.{BlockFile};
ghost use Rattle.vax_flat.specs.Step.{Flat};
ghost use Rattle.vax_jobs.specs.Alone.{FollowTheirRuns, after_turns};
ghost use Rattle.vax_jobs.specs.Beginning.{Begins, machines, pooling, start_of};
ghost use Rattle.vax_jobs.specs.Running.{IsReady, system_of};
ghost use Rattle.vax_jobs.specs.Shared.{Setting, begun};
ghost use Rattle.vax_jobs.specs.declared.job.Job.{Job};
ghost use Rattle.vax_jobs.specs.declared.jobs.Jobs.{Jobs};

/// After any number of turns from the start each process is where the steps that it counts lead its own flat machine, or where parts of the next one do,
/// whatever the other processes do and whichever pages are resident.
pub fn processes_follow_their_runs()
    ensures { (x : Setting) (starts : List Flat) (count : ℕ)
        → FollowTheirRuns starts (after_turns x starts count).processes }
{}

/// Processes that were made stand where turns begin from their own flat machines, with any page file that tells its contents.
pub fn processes_begin()
    ensures { (jobs : List Job) (most : ℕ) (r : Jobs) (x : Setting) (file : BlockFile)
        → Begins jobs most r → IsReady x (system_of (pooling r) (machines r) (Some file))
        (begun x.order (map start_of jobs)) }
{}
