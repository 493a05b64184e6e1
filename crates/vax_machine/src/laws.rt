//! The laws of machines, each the contract of a call that does nothing.
ghost use Rattle.std.specs.Prelude.{◌≡◌, ◌+◌, ◌<◌, ◌^◌, ℕ, List, Option, length};
ghost use Rattle.vax_space.specs.declared.Area.{Area};
ghost use Rattle.vax_outside.specs.Blocks.{BlockFile};
ghost use Rattle.vax_flat.specs.Parts.{GoesBy};
ghost use Rattle.vax_flat.specs.Step.{Flat, run};
ghost use Rattle.vax_sched.specs.declared.rule.Target.{Target};
ghost use Rattle.vax_outside.specs.Channels.{Channels};
ghost use Rattle.vax_machine.specs.Delivery.{Delivers, Waits};
ghost use Rattle.vax_machine.specs.Events.{FollowsFrom, GoesOn, Happen};
ghost use Rattle.vax_machine.specs.Laws.{HasFewTurns, IsAsWritten, IsCounted, IsIdle, IsProper, IsSoonAfter, Run, state_at};
ghost use Rattle.vax_machine.specs.Paged.{Paged, all_evicted, paged};
ghost use Rattle.vax_machine.specs.declared.engine.Engine.{Engine};
ghost use Rattle.vax_machine.specs.declared.event.Event.{Event};
ghost use Rattle.vax_machine.specs.declared.held.Held.{Held};

/// After any list of events the machine with its page file stands for the flat machine's run, whatever steps it had counted at its start: it is
/// where the steps that were completed since lead, or where parts of the next one do, and the attempt that comes touches each page that is pinned.
pub fn events_follow_the_run()
    ensures { (events : List Event) (old new : Engine) (before after : Option BlockFile) (first : ℕ)
        (start : Flat) → old.steps + length events < 2 ^ 64 → Happen events old before new after
        → FollowsFrom first old before start → FollowsFrom first new after start }
{}

/// After any number of turns from the start the paged run is where the steps that it counts lead the flat machine, or where parts of the next one
/// do, whatever is resident or made absent.
pub fn turns_follow_the_run()
    ensures { (r : Run) (n : ℕ) → GoesBy (run (state_at r n).steps r.start) (state_at r n).place }
{}

/// So it is from any beginning, at the start of a step or within it: where the steps that were counted before lead to it from a flat machine, those
/// that were made since lead on from there.
pub fn turns_go_on()
    ensures { (areas : List Area) (asks : ℕ → List Target) (n : ℕ) (b : Paged) (first : ℕ)
        (start : Flat) → GoesOn first start b → GoesOn first start (paged areas asks n b) }
{}

/// A page that is made absent is written to its block wherever that is needed: at every moment, after so many turns and with these pages made absent then,
/// one to which no attempt has written since it came in has the bytes that were last written of it, or those at the start.
pub fn writes_suffice()
    ensures { (r : Run) (n : ℕ) (absent : List ℕ) (page : ℕ)
        → page < 2 ^ 23 → IsAsWritten r.start page (all_evicted absent (state_at r n)) }
{}

/// Few turns are made in vain: from the start on there are at most 41 for each part that was completed, 40 for the part that is open, and one for
/// each eviction of a pinned page, as long as these haven't been counted up to their last value.
pub fn turns_are_few()
    ensures { (r : Run) (n : ℕ) → IsProper r → IsCounted (state_at r n)
        → HasFewTurns (state_at r n) }
{}

/// Each part ends soon: while none is completed, attempts are at most 40 and one for each eviction of a pinned page that is made then.
pub fn parts_end_soon()
    ensures { (r : Run) (n more : ℕ) → IsProper r → IsCounted (state_at r (more + n))
        → (state_at r (more + n)).parts ≡ (state_at r n).parts
        → IsSoonAfter (state_at r n) (state_at r (more + n)) }
{}

/// Where nothing is ever due, no pinned page is evicted.
pub fn pinned_pages_stay()
    ensures { (r : Run) (n : ℕ) → IsIdle r → (state_at r n).residence.spoiled ≡ 0 }
{}

/// What is held back is written soon: as long as not all of it was, fewer than 1,000,000 steps were made since.
pub fn output_comes_soon()
    ensures { (since steps : ℕ) (before after : Held) (old new : Option Channels) →
        Waits since before → (d : Delivers since steps before after old new) →
        length d.written.out < length before.bytes.items → steps < since + 1000000 }
{}
