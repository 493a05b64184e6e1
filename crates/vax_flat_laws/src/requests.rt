//! Requests of interrupts, and the interval clock (VAX Architecture Reference Manual, interrupts; processor registers).
ghost use Rattle.std.specs.Prelude.{◌≡◌, ◌≤◌, ◌&&◌, true, false, ℕ, List};
ghost use Rattle.vax_space.specs.declared.Area.{Area};
ghost use Rattle.vax_word.specs.declared.Core.{Core};
ghost use Rattle.vax_word.specs.Status.{is_one};
ghost use Rattle.vax_flat.specs.declared.Exception.{Exception};
ghost use Rattle.vax_flat.specs.declared.Flow.TheVariants.{Done, Trap};
ghost use Rattle.vax_flat.specs.declared.Trap.{Trap as TrapKind};
ghost use Rattle.vax_flat.specs.Delivery.{parameters};
ghost use Rattle.vax_flat.specs.State.{State};
ghost use Rattle.vax_flat.specs.Step.{finished, leaf, level, whole_delivery};
ghost use Rattle.vax_flat.specs.System.{requested};
ghost use Rattle.vax_flat_laws.specs.Handlers.{ComesTo, InterruptComes};
ghost use Rattle.vax_flat_laws.specs.Machines.{AreWords, IsMachine};
ghost use Rattle.vax_flat_laws.specs.Requests.{IsClockTakenBack, IsCounted, IsHighest, IsRequested, IsTakenBack};

/// The clock's request, where it is on and has run out, is taken first, and else the highest of the others. A request that is made changes no other.
pub fn the_highest_request_is_taken()
    ensures clock { (core : Core) → (is_one core.iccs 6 && is_one core.iccs 7) ≡ true →
        level core ≡ 22 }
    ensures others { (core : Core) → (is_one core.iccs 6 && is_one core.iccs 7) ≡ false →
        IsHighest core.sisr (level core) }
    ensures made { (k : ℕ) → (s : State) → IsRequested k s.core (requested k s).core }
{}

/// An interrupt takes back the request of its level and no other.
pub fn interrupts_take_their_request()
    ensures others { (k : ℕ) → (s t : State) → (memory end : List Area) →
        k ≤ 15 → InterruptComes k s memory t end → IsTakenBack k s.core t.core }
    ensures clock { (s t : State) → (memory end : List Area) →
        InterruptComes 22 s memory t end → IsClockTakenBack s.core t.core }
{}

/// Where the clock is on, it counts each step: one of an instruction, of an exception that was delivered, and of a trap.
pub fn clocks_count_steps()
    ensures instructions { (s t : State) → (memory end : List Area) →
        ComesTo (finished Done s leaf) memory t end → IsCounted s.core.iccs s.core.clock t.core }
    ensures exceptions { (e : Exception) (s t : State) (memory end : List Area) →
        IsMachine s memory →
        AreWords (parameters e) → ComesTo (whole_delivery e s) memory t end
        → IsCounted s.core.iccs s.core.clock t.core }
    ensures traps { (kind : TrapKind) (s t : State) (memory end : List Area) → IsMachine s memory →
        ComesTo (finished (Trap kind) s leaf) memory t end
        → IsCounted s.core.iccs s.core.clock t.core }
{}
