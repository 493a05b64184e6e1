//! The laws, each the contract of a call that does nothing.
ghost use Rattle.std.specs.Prelude.{◌≡◌, ℕ, List, Some};
ghost use Rattle.vax_flat.specs.Step.{Flat};
ghost use Rattle.vax_jobs.specs.Alone.{after_turns};
ghost use Rattle.vax_jobs.specs.Shared.{AllDone, Setting, stops};
ghost use Rattle.vax_jobs_laws.specs.Whole.{AreWhole, EndWhole, ReachTheirRuns};

/// After any number of turns each process is where its own flat machine's run comes, whatever the other processes do. One that has ended, or that has no steps
/// left, is the whole of that run within the limit of steps.
pub fn processes_reach_their_runs()
    ensures reaches { (x : Setting) (starts : List Flat) (count : ℕ)
        → ReachTheirRuns starts (after_turns x starts count).processes }
    ensures whole { (x : Setting) (starts : List Flat) (count : ℕ)
        → EndWhole x.steps starts (after_turns x starts count).processes }
{}

/// Where no process goes on, each is the whole of its own flat machine's run within the limit of steps, as a run of it alone is.
pub fn processes_end_whole()
    ensures { (x : Setting) (starts : List Flat) (count : ℕ)
        → stops x (after_turns x starts count) ≡ Some AllDone
        → AreWhole x.steps starts (after_turns x starts count).processes }
{}
