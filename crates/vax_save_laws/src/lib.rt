//! The laws of saved states: what is saved is restored, and what is restored was saved so. Each is the contract of a call that does nothing.
#![tactic(auto)]

ghost use Rattle.std.specs.Prelude.{◌≡◌, ℕ, List, Ok};
ghost use Rattle.vax_flat.specs.Parts.{Place, machine_at};
ghost use Rattle.vax_save.specs.Restored.{restored_place};
ghost use Rattle.vax_save.specs.Restoring.{Restored, restored};
ghost use Rattle.vax_save.specs.Saved.{saved};
ghost use Rattle.vax_save_laws.specs.Saveable.{IsBytes, IsSaveable, kept};

/// The bytes of a place and of a number of steps are read as these, without a fault. With the output that the place had, it is the same again.
pub fn saved_states_are_restored()
    ensures bytes { (place : Place) → (steps : ℕ) → IsSaveable place steps →
        restored (saved place steps) ≡ Ok (kept place steps) }
    ensures place { (place : Place) → (steps : ℕ) → IsSaveable place steps →
        restored_place (kept place steps) (machine_at place).output ≡ place }
{}

/// Bytes that are read without a fault are those of the place and the steps that are read, whatever its output. So no state has two files.
pub fn restored_states_have_their_bytes()
    ensures { (bytes : List ℕ) → (r : Restored) → (output : List ℕ) →
        IsBytes bytes → restored bytes ≡ Ok r →
        saved (restored_place r output) r.steps ≡ bytes }
{}
