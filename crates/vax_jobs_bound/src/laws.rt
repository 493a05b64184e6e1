//! The laws, each the contract of a call that does nothing.
ghost use Rattle.std.specs.Prelude.{◌≡◌, ◌+◌, ◌*◌, ◌<◌, ◌≤◌, ℕ, List, Option, Some, length};
ghost use Rattle.vax_outside.specs.Blocks.{BlockFile};
ghost use Rattle.vax_flat.specs.Step.{Flat};
ghost use Rattle.vax_jobs.specs.Alone.{after_turns};
ghost use Rattle.vax_jobs.specs.Beginning.{machines, pooling};
ghost use Rattle.vax_jobs.specs.Pooling.{Pooling};
ghost use Rattle.vax_jobs.specs.Running.{IsReady, system_of};
ghost use Rattle.vax_jobs.specs.Shared.{ByTurns, Setting, Shared, shared, stops};
ghost use Rattle.vax_jobs.specs.Turning.{IsTurned, job_of};
ghost use Rattle.vax_jobs.specs.declared.jobs.Jobs.{Jobs};
ghost use Rattle.vax_jobs.specs.declared.turn.Turn.{Turn};
ghost use Rattle.vax_jobs.specs.declared.turn.Turned.{Turned};
ghost use Rattle.vax_jobs_bound.specs.Few.{HasFewTurns, HaveSpaces, IsPaid, most_turns};
ghost use Rattle.vax_jobs_bound.specs.Spending.{AllHappen, AreCounted, Happening, HaveFewPins, RisesAtMost, Spends, failures};

/// Few turns are made in vain, however many processes share the pages. From the start on there are at most 41 for each part of a step that was completed, and 40
/// for the part of each process that is open. From wherever turns begin they are paid: by 41 for each part, and one for each page that is pinned.
pub fn turns_are_few()
    ensures start { (x : Setting) (starts : List Flat) (count : ℕ) → HaveSpaces starts
        → HasFewTurns (after_turns x starts count) }
    ensures anywhere { (x : Setting) (r : Jobs) (file : Option BlockFile) (s : Shared) (count : ℕ)
        → IsReady x (system_of (pooling r) (machines r) file) s → IsPaid s (shared x count s) }
{}

/// Where the limit of turns stops several processes, that limit is at most this.
pub fn turns_run_out()
    ensures { (x : Setting) (starts : List Flat) (count : ℕ) → HaveSpaces starts
        → stops x (after_turns x starts count) ≡ Some ByTurns
        → x.turns ≤ most_turns (after_turns x starts count).processes }
{}

/// What a turn takes, by attempts less pins and evictions of pinned pages: they rise by at most 41 where a part is completed, by nothing where a page is missed and
/// served with fewer than 40 pinned, and by 1 where its service fails. No other turn takes them up or down. So several turns take at most 41 for each part that
/// they complete, and 1 for each that fails.
pub fn turns_are_spent()
    ensures spends { (turn : Turn) (result : Turned) (old new : Pooling)
        → job_of turn < length old.processes → HaveFewPins old → AreCounted old
        → IsTurned turn result old new → Spends turn result old new }
    ensures few { (r : Jobs) → HaveFewPins (pooling r) }
    ensures several { (list : List Happening) (parts : ℕ) (old new : Pooling)
        → AllHappen list parts old new → RisesAtMost (41 * parts + failures list) old new }
{}
