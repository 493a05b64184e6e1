//! Fields (VAX Architecture Reference Manual, variable-length bit field instructions).
ghost use Rattle.std.specs.Prelude.{◌≡◌, ◌+◌, ◌%◌, ◌^◌, ◌<◌, ◌≤◌, ◌⊎◌, ℕ, Bool, false, List, length, slice_index_or};
ghost use Rattle.vax_space.specs.declared.Area.{Area};
ghost use Rattle.vax_word.specs.declared.Size.TheVariants.{L};
ghost use Rattle.vax_word.specs.Arithmetic.{compared};
ghost use Rattle.vax_word.specs.Status.{codes_of};
ghost use Rattle.vax_flat.specs.declared.Operand.{Operand};
ghost use Rattle.vax_flat.specs.declared.Operand.TheVariants.{FieldRegister, Memory, Register};
ghost use Rattle.vax_flat.specs.Accesses.{Accesses, Leaf};
ghost use Rattle.vax_flat.specs.Memory.{IsWhole};
ghost use Rattle.vax_flat.specs.Outcome.{Ends, outcome_of};
ghost use Rattle.vax_flat.specs.Field.{before_first, compared_field, extracted, is_reserved_field, part, with_part};
ghost use Rattle.vax_flat.specs.State.{State, register};
ghost use Rattle.vax_flat.specs.Step.{leaf};
ghost use Rattle.vax_flat_laws.specs.Handlers.{ComesTo};
ghost use Rattle.vax_flat_laws.specs.Places.{IsFirstBit, put_and_extracted};

/// EXTZV reads what INSV wrote, in registers and in memory: the source's low bits, as many as the field has. Of all bits that hold a field, a part that is put is
/// read back, and those beside it stay.
pub fn fields_are_read_back()
    ensures registers { (source position size n : ℕ) → (s : State) → (next : ℕ → Accesses Leaf) →
        length s.core.regs ≡ 16 → n < 15
        → is_reserved_field position size (FieldRegister n) ≡ false →
        put_and_extracted source position size (FieldRegister n) s next ≡ next (source % 2 ^ size) }
    ensures memory { (source position size addr : ℕ) (s : State) (memory end : List Area)
        (x : Leaf) →
        (next : ℕ → Accesses Leaf) → IsWhole memory → 0 < size → size ≤ 32 →
        outcome_of (put_and_extracted source position size (Memory addr) s next) memory
        ≡ Ends x end →
        (after : List Area) × (outcome_of (next (source % 2 ^ size)) after ≡ Ends x end) }
    ensures part { (first : ℕ) → (new bits : List Bool) → first + length new ≤ length bits →
        part first (length new) (with_part first new bits) ≡ new }
    ensures beside { (first k : ℕ) → (new bits : List Bool) → first + length new ≤ length bits →
        (k < first) ⊎ (first + length new ≤ k)
        → slice_index_or (with_part first new bits) k false ≡ slice_index_or bits k false }
{}

/// CMPV and CMPZV are EXTV and EXTZV and then CMPL of what these gave.
pub fn comparisons_follow_extraction()
    ensures { (signed : Bool) → (position size source n : ℕ) → (base : Operand) → (s t u : State) →
        (memory end after : List Area) → length s.core.regs ≡ 16 → n < 16 →
        ComesTo (extracted signed position size base (Register n) s leaf) memory t end →
        ComesTo (compared_field signed position size base source s leaf) memory u after →
        codes_of u.core.psl ≡ compared L (register t n) source }
{}

/// FFS and FFC count the bits before the first that is 1, or 0, or all where none is.
pub fn first_bits_are_found()
    ensures { (set : Bool) → (bits : List Bool) → IsFirstBit set bits (before_first set bits) }
{}
