//! The laws.
ghost use Rattle.std.specs.Prelude.{◌≡◌, ◌<◌, ◌≤◌, ◌+◌, ◌*◌, ◌-◌, ◌^◌, ℕ, List, Option, Some, length};
ghost use Rattle.vax_space.specs.declared.Area.{Area};
ghost use Rattle.vax_outside.specs.Blocks.{BlockFile};
ghost use Rattle.vax_flat.specs.Step.{Flat};
ghost use Rattle.vax_sched.specs.Due.{due};
ghost use Rattle.vax_sched.specs.declared.rule.Rule.{Rule};
ghost use Rattle.vax_machine.specs.Events.{FollowsFrom};
ghost use Rattle.vax_machine.specs.Laws.{IsProper, Run, state_at};
ghost use Rattle.vax_machine.specs.Machine.{IsSound, residence};
ghost use Rattle.vax_machine.specs.Paged.{ByTurns, Why, stops};
ghost use Rattle.vax_machine.specs.declared.engine.Engine.{Engine};
ghost use Rattle.vax_machine.specs.declared.event.Limits.{Limits};
ghost use Rattle.vax_machine_laws.specs.Enough.{IsOnlyFixed, pages_due};
ghost use Rattle.vax_machine_laws.specs.FlatRun.{GoesOnFor, IsOver, Reaches, StopsSo, stage, stage_of};
ghost use Rattle.vax_machine_laws.specs.Happenings.{AllHappen, Happening, last_part, parts_by};

/// A paged run from a start is where the flat machine's run comes, whatever is resident or made absent. Where it stops by an ending or at the limit of
/// steps, it is the flat machine's whole run within that limit; where the limit of turns stops it, that run isn't over.
pub fn runs_stop_so()
    ensures comes { (limits : Limits) → (r : Run) → (count : ℕ) → GoesOnFor limits r count
        → Reaches r.start (stage_of (state_at r count)) }
    ensures stops { (limits : Limits) → (r : Run) → (count : ℕ) → (why : Why)
        → GoesOnFor limits r count
        → stops limits.steps limits.turns (state_at r count) ≡ Some why
        → StopsSo why limits.steps r.start (stage_of (state_at r count)) }
{}

/// It comes there by the parts that it counts.
pub fn runs_come_by_parts()
    ensures { (r : Run) → (count : ℕ)
        → stage_of (state_at r count) ≡ stage r.start (state_at r count).parts }
{}

/// The flat machine's run within a limit of steps is over after some number of parts.
pub fn runs_are_over_after_parts()
    ensures { (limit : ℕ) → (start : Flat) → (parts : ℕ) × IsOver limit (stage start parts) }
{}

/// Enough turns end a run: where the limit of turns stops it, that limit is less than 41 for each part of the flat machine's run within the limit of
/// steps, and one for each eviction of a pinned page.
pub fn turns_suffice()
    ensures { (limits : Limits) → (r : Run) → (count parts : ℕ)
        → IsProper r → limits.turns < 2 ^ 64 - 1 → GoesOnFor limits r count
        → stops limits.steps limits.turns (state_at r count) ≡ Some ByTurns
        → IsOver limits.steps (stage r.start parts)
        → limits.turns < 41 * parts + (state_at r count).residence.spoiled }
{}

/// Pinned pages are evicted no more often than pages are named for the turns that were made.
pub fn evictions_are_due()
    ensures { (limits : Limits) → (r : Run) → (count : ℕ) → GoesOnFor limits r count
        → (state_at r count).residence.spoiled ≤ pages_due r.areas r.asks count }
{}

/// A schedule in which each line is for one turn names no more pages than it has lines.
pub fn fixed_rules_are_due_once()
    ensures { (areas : List Area) → (rules : List Rule) → (count : ℕ) → IsOnlyFixed rules
        → pages_due areas (due rules) count ≤ length rules }
{}

/// Every list of events takes few turns in which each page that was missed is served before the next attempt: at most 41 for each part that it completes,
/// 40 for the part that is open, and one for each eviction of a pinned page, as long as both can be counted. The machine followed the flat machine's run
/// before it, and the contract of `apply` holds of each event.
pub fn events_take_few_turns()
    ensures { (list : List Happening) → (old new : Engine) → (before after : Option BlockFile)
        → (first : ℕ) → (start : Flat) → old.steps + length list < 2 ^ 64
        → FollowsFrom first old before start
        → IsSound old → AllHappen list old before new after
        → new.turns < 2 ^ 64 - 1 → (residence new).spoiled < 2 ^ 64 - 1
        → new.turns + length (residence old).pinned + (residence old).spoiled
        ≤ old.turns + 41 * (parts_by list + last_part new.ended) + 40 + (residence new).spoiled }
{}
