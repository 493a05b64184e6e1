//! Registers and arguments on the stack (VAX Architecture Reference Manual, PUSHR, POPR; procedure call instructions).
ghost use Rattle.std.specs.Prelude.{◌≡◌, ◌+◌, ◌*◌, ◌<◌, None, [], ◌∷◌, true, ℕ, List, map};
ghost use Rattle.vax_space.specs.declared.Access.TheVariants.{Read};
ghost use Rattle.vax_space.specs.declared.Area.{Area};
ghost use Rattle.vax_space.specs.Reference.{violation};
ghost use Rattle.vax_flat.specs.Accesses.{Accesses, Leaf};
ghost use Rattle.vax_flat.specs.Call.{behind_arguments, named, registers_pushed};
ghost use Rattle.vax_flat.specs.Memory.{byte_at};
ghost use Rattle.vax_flat.specs.Operand.{plus};
ghost use Rattle.vax_flat.specs.Outcome.{outcome_of};
ghost use Rattle.vax_flat.specs.Returned.{AreThere};
ghost use Rattle.vax_flat.specs.Step.{leaf};
ghost use Rattle.vax_flat.specs.State.{State, mode, register};
ghost use Rattle.vax_flat_laws.specs.Handlers.{ComesTo};
ghost use Rattle.vax_flat_laws.specs.Machines.{IsMachine};
ghost use Rattle.vax_flat_laws.specs.Places.{pushed_and_popped};

/// POPR undoes PUSHR with the same mask: all registers are as they were, and the status.
pub fn pops_undo_pushes()
    ensures registers { (mask n : ℕ) (s t : State) (memory end : List Area) → IsMachine s memory →
        ComesTo (pushed_and_popped mask s) memory t end → register t n ≡ register s n }
    ensures status { (mask : ℕ) → (s t : State) → (memory end : List Area) → IsMachine s memory →
        ComesTo (pushed_and_popped mask s) memory t end → t.core.psl ≡ s.core.psl }
{}

/// RET goes past the arguments on the stack by the first byte of their count, whatever the other three are.
pub fn arguments_are_counted_by_a_byte()
    ensures { (top : ℕ) → (s : State) → (next : ℕ → State → Accesses Leaf) → (memory : List Area) →
        violation memory top 4 (mode s) Read ≡ None → byte_at memory top < 256 →
        outcome_of (behind_arguments true top s next) memory
        ≡ outcome_of (next (plus top (4 + 4 * byte_at memory top)) s) memory }
{}

/// PUSHR leaves the named registers on the stack, the lowest at its top: bit k of the mask names Rk, and bit 15 nothing.
pub fn pushes_name_their_registers()
    ensures there { (mask : ℕ) → (s t : State) → (memory end : List Area) → IsMachine s memory →
        ComesTo (registers_pushed mask s leaf) memory t end →
        AreThere end (mode s) (register t 14) (map (register s) (named 15 mask)) }
    ensures all { named 15 0xFFFF
        ≡ 0 ∷ 1 ∷ 2 ∷ 3 ∷ 4 ∷ 5 ∷ 6 ∷ 7 ∷ 8 ∷ 9 ∷ 10 ∷ 11 ∷ 12 ∷ 13 ∷ 14 ∷ [] }
    ensures some { named 15 0xC025 ≡ 0 ∷ 2 ∷ 5 ∷ 14 ∷ [] }
    ensures none { named 15 0x8000 ≡ [] }
    ensures saved { named 12 0xF822 ≡ 1 ∷ 5 ∷ 11 ∷ [] }
{}
