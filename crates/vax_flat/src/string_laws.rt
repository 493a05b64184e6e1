//! The laws of the string instructions, each the contract of a call that does nothing.
ghost use Rattle.std.specs.Prelude.{Bool};
ghost use Rattle.vax_flat.specs.StringCompare.{compare_part, whole_compare};
ghost use Rattle.vax_flat.specs.StringMatch.{match_part, whole_match};
ghost use Rattle.vax_flat.specs.StringEscape.{escape_part, escape_rest, escape_start, whole_escape};
ghost use Rattle.vax_flat.specs.StringMove.{move_part, move_rest, move_start, whole_move};
ghost use Rattle.vax_flat.specs.StringSearch.{search_part, whole_search, scan_part, whole_scan};
ghost use Rattle.vax_flat.specs.StringLaws.{ComesInParts, OfProgress, IsSearch, IsScan, IsComparison, IsMatch, IsMoveWithin, IsCheckedMove, IsEscape, IsCheckedEscape};

/// One part of a search, and then the search of what it left by the registers, come to the whole search.
pub fn searches_agree()
    ensures search { (equal : Bool) →
        ComesInParts (OfProgress IsSearch)
        (whole_search equal) (search_part equal) (whole_search equal) }
    ensures scan { (some : Bool) →
        ComesInParts (OfProgress IsScan) (whole_scan some) (scan_part some) (whole_scan some) }
{}

/// One part of a comparison, and then the comparison of what it left by the registers, come to the whole comparison.
pub fn comparisons_agree()
    ensures { ComesInParts (OfProgress IsComparison) whole_compare compare_part whole_compare }
{}

/// Where the strings of a move were checked, one part of it, and then the rest by the registers, come to all that remains. At its start a move
/// is checked in the same way whether it is made at once or in parts.
pub fn moves_agree()
    ensures rest { (translate : Bool) →
        ComesInParts (IsCheckedMove translate)
        (move_rest translate) (move_part translate) (move_rest translate) }
    ensures start { (translate : Bool) →
        ComesInParts (OfProgress (IsMoveWithin translate))
        (whole_move translate) (move_start translate) (move_rest translate) }
{}

/// One part of a match, and then the match of what it left by the registers, come to the whole match.
pub fn matches_agree()
    ensures { ComesInParts (OfProgress IsMatch) whole_match match_part whole_match }
{}

/// The same of a move up to a byte that escapes.
pub fn escapes_agree()
    ensures rest { ComesInParts IsCheckedEscape escape_rest escape_part escape_rest }
    ensures start { ComesInParts (OfProgress IsEscape) whole_escape escape_start escape_rest }
{}
