//! The processor status word (VAX Architecture Reference Manual, BISPSW, BICPSW; procedure call instructions).
ghost use Rattle.std.specs.Prelude.{◌≡◌, ◌/◌, ◌^◌, ◌<◌, ◌⊎◌, ◌≢◌, ℕ, List};
ghost use Rattle.std.specs.Int.{bit_at};
ghost use Rattle.vax_space.specs.declared.Area.{Area};
ghost use Rattle.vax_word.specs.declared.Psl.{Psl};
ghost use Rattle.vax_flat.specs.declared.Exception.TheVariants.{Operand};
ghost use Rattle.vax_flat.specs.declared.Flow.{Flow};
ghost use Rattle.vax_flat.specs.Accesses.{Accesses, Leaf, Raises};
ghost use Rattle.vax_flat.specs.Call.{entry_status};
ghost use Rattle.vax_flat.specs.State.{State};
ghost use Rattle.vax_flat.specs.Step.{leaf};
ghost use Rattle.vax_flat.specs.System.{status_cleared, status_set};
ghost use Rattle.vax_flat_laws.specs.Handlers.{ComesTo};
ghost use Rattle.vax_flat_laws.specs.Processor.{HasCleared, HasSet, IsEntryStatus};

/// BISPSW sets the mask's bits and BICPSW clears them, and neither changes another. A mask beyond bits 7:0 is a reserved operand, and so is trace in
/// BISPSW.
pub fn masks_change_their_bits()
    ensures set { (mask : ℕ) → (s t : State) → (memory end : List Area) →
        ComesTo (status_set mask s leaf) memory t end → HasSet mask s.core.psl t.core.psl }
    ensures cleared { (mask : ℕ) → (s t : State) → (memory end : List Area) → mask < 2 ^ 32 →
        ComesTo (status_cleared mask s leaf) memory t end → HasCleared mask s.core.psl t.core.psl }
    ensures refused { (mask : ℕ) → (s : State) → (next : Flow → State → Accesses Leaf) →
        (mask / 2 ^ 8 ≢ 0) ⊎ (bit_at mask 4 ≡ 1) → status_set mask s next ≡ Raises Operand }
    ensures wide { (mask : ℕ) → (s : State) → (next : Flow → State → Accesses Leaf) →
        mask / 2 ^ 8 ≢ 0 → status_cleared mask s next ≡ Raises Operand }
{}

/// A procedure's status is by its entry mask.
pub fn procedures_take_their_status()
    ensures { (mask : ℕ) → (psl : Psl) → IsEntryStatus mask psl (entry_status mask psl) }
{}
