//! Queues, and PROBE (VAX Architecture Reference Manual, queue instructions; PROBE).
ghost use Rattle.std.specs.Prelude.{◌≡◌, ◌==◌, ℕ, Bool, List};
ghost use Rattle.vax_space.specs.declared.Area.{Area};
ghost use Rattle.vax_word.specs.Status.{codes_of};
ghost use Rattle.vax_flat.specs.declared.Operand.TheVariants.{Register};
ghost use Rattle.vax_flat.specs.Memory.{byte_at};
ghost use Rattle.vax_flat.specs.Operand.{plus};
ghost use Rattle.vax_flat.specs.Queue.{removed};
ghost use Rattle.vax_flat.specs.State.{State};
ghost use Rattle.vax_flat.specs.Step.{leaf};
ghost use Rattle.vax_flat.specs.System.{probed};
ghost use Rattle.vax_flat_laws.specs.Handlers.{ComesTo};
ghost use Rattle.vax_flat_laws.specs.Machines.{longword_at};
ghost use Rattle.vax_flat_laws.specs.Places.{IsOutside, probe_codes, put_and_removed, with_links};

/// REMQUE undoes INSQUE: memory is as before but for the entry's own two links.
pub fn removals_undo_insertions()
    ensures { (entry predecessor n : ℕ) → (s t : State) → (memory end : List Area) →
        IsOutside entry predecessor memory
        → ComesTo (put_and_removed entry predecessor (Register n) s) memory t end →
        byte_at end ≡ with_links entry predecessor memory }
{}

/// REMQUE sets V exactly where the entry's predecessor is the entry, so that there was none to remove.
pub fn removals_tell_emptiness()
    ensures { (entry n : ℕ) → (s t : State) → (memory end : List Area) →
        ComesTo (removed entry (Register n) s leaf) memory t end →
        (codes_of t.core.psl).v ≡ (longword_at memory (plus entry 4) == entry) }
{}

/// PROBE keeps C. Z is 1 where the first or the last byte may not be used so, and N and V are 0.
pub fn probes_keep_the_carry()
    ensures { (writing : Bool) → (mode length base : ℕ) → (s t : State) → (memory end : List Area) →
        ComesTo (probed writing mode length base s leaf) memory t end →
        codes_of t.core.psl ≡ probe_codes writing mode length base memory (codes_of s.core.psl).c }
{}
