//! The laws of units (VAX Architecture Reference Manual, first part done): what the parts of a string instruction count is how many units it
//! has. Each is the contract of a call that does nothing.
#![tactic(auto)]

ghost use Rattle.std.specs.Prelude.{true, ◌≡◌, ◌<◌, ◌+◌, ◌*◌, ◌^◌, ℕ, Bool, List};
ghost use Rattle.vax_space.specs.declared.Area.{Area};
ghost use Rattle.vax_strpart.specs.declared.packing.Progress.{Progress};
ghost use Rattle.vax_flat.specs.declared.Flow.{Flow};
ghost use Rattle.vax_flat.specs.State.{State};
ghost use Rattle.vax_flat.specs.Laws.{Following};
ghost use Rattle.vax_flat.specs.Outcome.{outcome_of};
ghost use Rattle.vax_flat.specs.Parts.{Partway, Place, Leaves, GoesBy, turn, units_done};
ghost use Rattle.vax_flat.specs.Step.{Flat};
ghost use Rattle.vax_flat.specs.StringAgree.{IsBehind};
ghost use Rattle.vax_flat.specs.StringCompare.{compare_part, whole_compare};
ghost use Rattle.vax_flat.specs.StringEscape.{escape_part, whole_escape};
ghost use Rattle.vax_flat.specs.StringMatch.{match_part, whole_match};
ghost use Rattle.vax_flat.specs.StringMove.{move_part, whole_move};
ghost use Rattle.vax_flat.specs.StringParts.{resumed};
ghost use Rattle.vax_flat.specs.StringSearch.{scan_part, search_part, whole_scan, whole_search};
ghost use Rattle.vax_flat_units.specs.Laws.{CanResume, IsComparison, IsEscape, IsMatch, IsMove, IsScan, IsSearch, PartsCount, Reads, Writes, WritesOrEscapes, bytes_compared};
ghost use Rattle.vax_flat_units.specs.Places.{AreMade, is_interrupted, units_at_start, units_from, units_of};
ghost use Rattle.vax_flat_units.specs.Units.{Counts, compare_units, escape_units, match_units, move_units, scan_units, search_units, units_in, units_left};
ghost use Rattle.vax_flat_units.specs.Violations.{is_reserved_by, is_violated_by};

/// Units are what a whole instruction, whose definition knows no parts, touches where it is completed: a search reads a byte for each of its
/// units, and a search by a table or a match two; a comparison reads for each a byte of both strings, but none of one that is exhausted; a move
/// writes a byte for each, and one up to an escape for each but the byte that escapes.
pub fn wholes_have_units()
    ensures search { (equal : Bool) → Reads (whole_search equal) (search_units equal) }
    ensures scan { (some : Bool) →
        Reads (whole_scan some) (λ p memory. 2 * scan_units some p memory) }
    ensures compare { Reads whole_compare bytes_compared }
    ensures moves { (translate : Bool) → Writes (whole_move translate) move_units }
    ensures escape { WritesOrEscapes whole_escape escape_units }
    ensures matching { Reads whole_match (λ p memory. 2 * match_units p memory) }
{}

/// Where a part of a string instruction leaves something, from a progress whose numbers are in their ranges, it made one unit or more, and as
/// many fewer are left, one or more, by the registers and the memory as they are then; of MOVTUC where its strings and its table aren't reserved.
pub fn parts_count_units()
    ensures search { (equal : Bool) → PartsCount IsSearch (search_units equal) (search_part equal) }
    ensures scan { (some : Bool) → PartsCount IsScan (scan_units some) (scan_part some) }
    ensures compare { PartsCount IsComparison compare_units compare_part }
    ensures moves { (translate : Bool) →
        PartsCount (IsMove translate) move_units (move_part translate) }
    ensures escape { PartsCount IsEscape escape_units escape_part }
    ensures matching { PartsCount IsMatch match_units match_part }
{}

/// The same of every later part by the registers alone, whatever these hold; of MOVTUC with the same condition, which is checked at its start.
pub fn later_parts_count_units()
    ensures { (opcode : ℕ) (s : State) (memory : List Area) (next : Following Flow) →
        IsBehind next → CanResume opcode s →
        Counts (units_left opcode) opcode (units_in opcode s memory)
        (outcome_of (resumed opcode s next) memory) }
{}

/// At every place by which a step goes, the units that are done and those that are left come to the units of its instruction. An attempt from
/// there that leaves a place made one unit or more: so many more are done at that place, and so many fewer are left, one or more. An instruction
/// has fewer than 2^32 of them, so the count of what is done, which goes no further, never stops short. They end with the first that violates in the
/// current access mode. A step that takes an interrupt has none, and neither has a move that raises a reserved operand or whose checks are violated.
pub fn places_count_units()
    ensures sum { (m : Flat) (place : Place) → GoesBy m place →
        units_done place + units_from place ≡ units_of m }
    ensures made { (m : Flat) (place : Place) (next : Partway) →
        GoesBy m place → turn place ≡ Leaves next → AreMade place next }
    ensures few { (m : Flat) → units_of m < 2 ^ 32 }
    ensures interrupted { (m : Flat) → is_interrupted m ≡ true → units_of m ≡ 0 }
    ensures reserved { (p : Progress) (in_mode : ℕ) (memory : List Area) →
        is_reserved_by p.op p ≡ true → units_at_start p in_mode memory ≡ 0 }
    ensures violated { (p : Progress) (in_mode : ℕ) (memory : List Area) →
        is_violated_by p.op p in_mode memory ≡ true → units_at_start p in_mode memory ≡ 0 }
{}
