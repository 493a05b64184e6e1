//! Parts of string instructions (VAX MACRO and Instruction Set Reference Manual, character string instructions).
ghost use Rattle.std.specs.Prelude.{◌≡◌, ◌<◌, ◌≤◌, Bool, List, None, [], ◌∷◌};
ghost use Rattle.vax_space.specs.declared.Area.{Area};
ghost use Rattle.vax_strpart.specs.declared.packing.Progress.{Progress};
ghost use Rattle.vax_flat.specs.Memory.{IsWhole, byte_at};
ghost use Rattle.vax_flat.specs.Outcome.{outcome_of};
ghost use Rattle.vax_flat.specs.Port.{AreBytes};
ghost use Rattle.vax_flat.specs.State.{State};
ghost use Rattle.vax_flat.specs.Step.{leaf};
ghost use Rattle.vax_flat.specs.StringEscape.{escape_part};
ghost use Rattle.vax_flat.specs.StringLaws.{IsCheckedEscape, IsCheckedMove};
ghost use Rattle.vax_flat.specs.StringMove.{move_part, moved_count};
ghost use Rattle.vax_flat_laws.specs.Moved.{HasEscaped, HasFilled, HasMoved, IfLeftMemory};
ghost use Rattle.vax_flat_laws.specs.Leaving.{comparing, dump_after, filling, left, left_after, scanning, spanning, translating};

/// What the parts of five instructions leave: each ends where its first unit's pages end, and R0 to R5 say what remains. The moved bytes are a part of
/// their own before the filled ones.
pub fn parts_end_with_their_pages()
    ensures first_compared { left_after 0 comparing
        ≡ left 4 (0x04000008 ∷ 0x1FC ∷ 0x40008 ∷ 0x9FB ∷ 0x44 ∷ 0x55 ∷ []) }
    ensures second_compared { left_after 1 comparing
        ≡ left 5 (0x04000008 ∷ 0x1FC ∷ 0x50008 ∷ 0x9FB ∷ 0x44 ∷ 0x55 ∷ []) }
    ensures all_compared { left_after 2 comparing ≡ None }
    ensures first_scanned { left_after 0 scanning
        ≡ left 2 (0x05030004 ∷ 0x200 ∷ 0 ∷ 0xC00 ∷ 0x44 ∷ 0x55 ∷ []) }
    ensures all_scanned { left_after 1 scanning ≡ None }
    ensures first_spanned { left_after 0 spanning
        ≡ left 2 (0x05020004 ∷ 0x200 ∷ 0 ∷ 0xC00 ∷ 0x44 ∷ 0x55 ∷ []) }
    ensures all_spanned { left_after 1 spanning ≡ None }
    ensures first_translated { left_after 0 translating
        ≡ left 2 (0x07200004 ∷ 0x1FE ∷ 0x20006 ∷ 0xC00 ∷ 0 ∷ 0x800 ∷ []) }
    ensures second_translated { left_after 1 translating
        ≡ left 4 (0x07200004 ∷ 0x1FE ∷ 0x40006 ∷ 0xC00 ∷ 0 ∷ 0x800 ∷ []) }
    ensures all_translated { left_after 2 translating ≡ None }
    ensures moved { left_after 0 filling
        ≡ left 2 (0x062A0002 ∷ 0x100 ∷ 0x20008 ∷ 0x9FC ∷ 0 ∷ 0 ∷ []) }
    ensures first_filled { left_after 1 filling
        ≡ left 4 (0x062A0002 ∷ 0x100 ∷ 0x40008 ∷ 0x9FC ∷ 0 ∷ 0 ∷ []) }
    ensures all_filled { left_after 2 filling ≡ None }
{}

/// What stands in memory between two of those parts.
pub fn parts_write_their_units()
    ensures first_translated { dump_after 0 translating 0x800 6 ≡ 0x41 ∷ 0x41 ∷ 0 ∷ 0 ∷ 0 ∷ 0 ∷ [] }
    ensures second_translated { dump_after 1 translating 0x800 6
        ≡ 0x41 ∷ 0x41 ∷ 0x41 ∷ 0x41 ∷ 0 ∷ 0 ∷ [] }
    ensures moved { dump_after 0 filling 0x9FC 8 ≡ 0 ∷ 0 ∷ 0 ∷ 0 ∷ 0 ∷ 0 ∷ 0 ∷ 0 ∷ [] }
    ensures first_filled { dump_after 1 filling 0x9FC 8 ≡ 0 ∷ 0 ∷ 0x2A ∷ 0x2A ∷ 0 ∷ 0 ∷ 0 ∷ 0 ∷ [] }
{}

/// What a part of a move writes. Each unit writes a byte of the source as that stood before the part, from the last backward or from the first on,
/// by the table where there is one; or the fill byte. MOVTUC writes none that escapes. Nothing else is written.
pub fn moves_write_their_units()
    ensures moved { (translate : Bool) (p : Progress) (s : State) (memory : List Area) →
        IsWhole memory → AreBytes (byte_at memory) → IsCheckedMove translate p s memory
        → p.done < moved_count p →
        IfLeftMemory (HasMoved translate p memory)
        (outcome_of (move_part translate p s leaf) memory) }
    ensures filled { (translate : Bool) (p : Progress) (s : State) (memory : List Area) →
        IsWhole memory → IsCheckedMove translate p s memory
        → moved_count p ≤ p.done → p.done < p.len2 →
        IfLeftMemory (HasFilled p memory) (outcome_of (move_part translate p s leaf) memory) }
    ensures escape { (p : Progress) (s : State) (memory : List Area) →
        IsWhole memory → AreBytes (byte_at memory) → IsCheckedEscape p s memory
        → p.done < moved_count p →
        IfLeftMemory (HasEscaped p memory) (outcome_of (escape_part p s leaf) memory) }
{}
