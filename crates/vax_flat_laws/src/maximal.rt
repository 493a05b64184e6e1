//! How far a part of a string instruction goes (what the VAX Architecture Reference Manual leaves to the processor, first part done).
ghost use Rattle.std.specs.Prelude.{◌+◌, ◌^◌, ◌<◌, ◌≤◌, Bool, List};
ghost use Rattle.vax_space.specs.declared.Area.{Area};
ghost use Rattle.vax_strpart.specs.declared.packing.Progress.{Progress};
ghost use Rattle.vax_flat.specs.Memory.{byte_at};
ghost use Rattle.vax_flat.specs.Port.{AreBytes};
ghost use Rattle.vax_flat.specs.Outcome.{outcome_of};
ghost use Rattle.vax_flat.specs.State.{State, mode};
ghost use Rattle.vax_flat.specs.Step.{leaf};
ghost use Rattle.vax_flat.specs.String.{suspended};
ghost use Rattle.vax_flat.specs.StringCompare.{compare_part, whole_compare};
ghost use Rattle.vax_flat.specs.StringEscape.{escape_part};
ghost use Rattle.vax_flat.specs.StringMatch.{match_part, whole_match};
ghost use Rattle.vax_flat.specs.StringMove.{move_part, moved_count};
ghost use Rattle.vax_flat.specs.StringSearch.{scan_part, search_part, searched, whole_scan, whole_search};
ghost use Rattle.vax_flat_laws.specs.Maximal.{IfLeft, after_units, match_needs, entry_barred, escape_needs, IsKept, IsMovePlain, IsPlain, LeavesPart, compare_needs, fill_needs, move_needs, never, search_needs, turns_to_fills};

/// A part of a string instruction that leaves something goes as far as it may: to 512 units, to the first fill
/// behind what is moved, to a byte whose table byte may not be read, or to the first unit that needs a page which its first doesn't. The registers are then those of a progress with as many more units done.
pub fn parts_are_maximal()
    ensures search { (equal : Bool) (p : Progress) (s : State) (memory : List Area) →
        p.addr1 < 2 ^ 32 →
        IfLeft (LeavesPart (search_needs p) never (λ made. suspended (searched p made) s))
        (outcome_of (search_part equal p s leaf) memory) }
    ensures scan { (some : Bool) (p : Progress) (s : State) (memory : List Area) →
        AreBytes (byte_at memory) →
        p.addr1 < 2 ^ 32 → p.table < 2 ^ 32 →
        IfLeft (LeavesPart (search_needs p) (entry_barred p (mode s) memory)
        (λ made. suspended (searched p made) s))
        (outcome_of (scan_part some p s leaf) memory) }
    ensures compare { (p : Progress) → (s : State) → (memory : List Area) → IsPlain p →
        IfLeft (LeavesPart (compare_needs p) never
        (λ made. suspended (record p { done = p.done + made }) s))
        (outcome_of (compare_part p s leaf) memory) }
    ensures moves { (translate : Bool) (p : Progress) (s : State) (memory : List Area) →
        IsMovePlain p →
        p.done < moved_count p →
        IfLeft (LeavesPart (move_needs p) (turns_to_fills p)
        (λ made. suspended (record p { done = p.done + made }) s))
        (outcome_of (move_part translate p s leaf) memory) }
    ensures escape { (p : Progress) (s : State) (memory : List Area) → IsMovePlain p →
        p.done < moved_count p →
        IfLeft (LeavesPart (escape_needs p) (turns_to_fills p)
        (λ made. suspended (record p { done = p.done + made }) s))
        (outcome_of (escape_part p s leaf) memory) }
    ensures matching { (p : Progress) → (s : State) → (memory : List Area) →
        IfLeft (LeavesPart (match_needs p memory) never
        (λ made. suspended (after_units p memory made) s))
        (outcome_of (match_part p s leaf) memory) }
    ensures fills { (translate : Bool) → (p : Progress) → (s : State) → (memory : List Area) →
        moved_count p ≤ p.done → p.done < p.len2 →
        IfLeft (LeavesPart (fill_needs p) never
        (λ made. suspended (record p { done = p.done + made }) s))
        (outcome_of (move_part translate p s leaf) memory) }
{}

/// LOCC, SKPC, SCANC, SPANC, CMPC3, CMPC5 and MATCHC write nothing, neither as wholes nor in a part: memory with any of their units done is that of the
/// start.
pub fn searches_write_nothing()
    ensures wholes { (memory : List Area) → (s : State) → (p : Progress) → (choice : Bool) →
        IsKept memory (outcome_of (whole_search choice p s leaf) memory)
        × IsKept memory (outcome_of (whole_scan choice p s leaf) memory)
        × IsKept memory (outcome_of (whole_compare p s leaf) memory)
        × IsKept memory (outcome_of (whole_match p s leaf) memory) }
    ensures parts { (memory : List Area) → (s : State) → (p : Progress) → (choice : Bool) →
        IsKept memory (outcome_of (search_part choice p s leaf) memory)
        × IsKept memory (outcome_of (scan_part choice p s leaf) memory)
        × IsKept memory (outcome_of (compare_part p s leaf) memory)
        × IsKept memory (outcome_of (match_part p s leaf) memory) }
{}
