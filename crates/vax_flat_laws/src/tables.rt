//! The manual's tables (VAX Architecture Reference Manual, system control block; arithmetic exceptions; access control violations).
ghost use Rattle.std.specs.Prelude.{◌≡◌, ℕ, [], ◌∷◌, map};
ghost use Rattle.vax_space.specs.declared.Violation.{Violation};
ghost use Rattle.vax_flat.specs.declared.Trap.{Trap};
ghost use Rattle.vax_flat.specs.Delivery.{change_vector, interrupt_vector, reason, vector_of};
ghost use Rattle.vax_flat.specs.State.{trap_number};
ghost use Rattle.vax_flat_laws.specs.Tables.{exceptions, levels, modes, traps, vectors_of_levels, violations};

/// The vector of each exception, of CHMK, CHME, CHMS and CHMU, and of each interrupt; the types of the traps; and the reason of each violation.
pub fn tables_are_the_manuals()
    ensures exceptions { (violation : Violation) → (kind : Trap) →
        map vector_of (exceptions violation kind)
        ≡ 0x10 ∷ 0x14 ∷ 0x18 ∷ 0x1C ∷ 0x20 ∷ 0x2C ∷ 0x34 ∷ [] }
    ensures changes { map change_vector modes ≡ 0x40 ∷ 0x44 ∷ 0x48 ∷ 0x4C ∷ [] }
    ensures interrupts { map interrupt_vector levels ≡ vectors_of_levels }
    ensures traps { map trap_number traps ≡ 1 ∷ 2 ∷ 7 ∷ [] }
    ensures reasons { (addr : ℕ) → map reason (violations addr) ≡ 0 ∷ 1 ∷ 4 ∷ 5 ∷ [] }
{}
