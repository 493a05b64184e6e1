//! The laws of what processes sent and of how they ended, each the contract of a call that does nothing.
ghost use Rattle.std.specs.Prelude.{◌≡◌, ℕ, List, Some};
ghost use Rattle.vax_flat.specs.Step.{Flat};
ghost use Rattle.vax_jobs.specs.Alone.{after_turns};
ghost use Rattle.vax_jobs.specs.Shared.{AllDone, Setting, stops};
ghost use Rattle.vax_jobs_laws.specs.Ended.{End, HaveEnded, IsEnd};
ghost use Rattle.vax_jobs_laws.specs.Outputs.{HaveSent};

/// After any number of turns the bytes that came from each process, among those of all, are what the output of its own flat machine has behind that of the
/// start.
pub fn processes_send_their_outputs()
    ensures { (x : Setting) (starts : List Flat) (count : ℕ)
        → HaveSent starts (after_turns x starts count) }
{}

/// Where no process goes on, each has ended as a run of it alone does whose turns are enough.
pub fn processes_end_as_alone()
    ensures { (x : Setting) (starts : List Flat) (count : ℕ)
        → stops x (after_turns x starts count) ≡ Some AllDone
        → HaveEnded x.steps starts (after_turns x starts count).processes }
{}

/// Runs from one start within one limit of steps end alike, where their turns are enough.
pub fn runs_end_alike()
    ensures { (limit : ℕ) (start : Flat) (a b : End)
        → IsEnd limit start a → IsEnd limit start b → a ≡ b }
{}
