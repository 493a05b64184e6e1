//! Later parts of instructions, by the registers and the opcode alone.
ghost use Rattle.std.specs.Prelude.{◌≡◌, ◌≤◌};
ghost use Rattle.vax_flat.specs.String.{from_registers};
ghost use Rattle.vax_flat.specs.StringCompare.{compare_part, pairs_of};
ghost use Rattle.vax_flat.specs.StringEscape.{escape_part};
ghost use Rattle.vax_flat.specs.StringMatch.{match_part};
ghost use Rattle.vax_flat.specs.StringMove.{move_part, moved_count};
ghost use Rattle.vax_flat.specs.StringParts.{done_within, resumed};
ghost use Rattle.vax_flat.specs.StringSearch.{scan_part, search_part};
ghost use Rattle.vax_undo.specs.Transaction.{room, KeepsUnlessDone, Does};
ghost use Rattle.vax_x_str.specs.Ends.{ClosesIfDone};

use crate::registers::continue_from;
use crate::scratch::Scratch;
use crate::{compare, escape, matching, moves, search};
use vax_flat::Flow;
use vax_strpart::Progress;
use vax_undo::{CutShort, Port, Txn};

/// The same progress with no more done than there is.
fn done_within(most: u16, p: Progress) -> Progress
    ensures exact { result ≡ done_within most p }
    ensures within { result.done ≤ most }
{
    Progress {
        done: p.done.min(most),
        ..p
    }
}

/// LOCC and SKPC.
#[tactic(auto, using(vax_undo::proofs::Left::behind, crate::proofs::Left::closes))]
fn resume_search<P: Port>(
    txn: &mut Txn<P>,
    op: u8,
    equal: bool,
    scratch: &mut Scratch,
) -> Result<Flow, CutShort>
    requires { 10 ≤ room txn.old }
    ensures exact { Does P.view P.trail (from_registers op (search_part equal))
        result txn.old txn.new }
    ensures closed { ClosesIfDone result txn.new.core.now.psl }
    ensures keeps { KeepsUnlessDone P.view P.since 10 result txn.old txn.new }
{
    let p = continue_from(txn, op);
    search::search_part(txn, equal, &p, &mut scratch.first)
}

/// SCANC and SPANC.
#[tactic(auto, using(vax_undo::proofs::Left::behind, crate::proofs::Left::closes))]
fn resume_scan<P: Port>(
    txn: &mut Txn<P>,
    op: u8,
    some: bool,
    scratch: &mut Scratch,
) -> Result<Flow, CutShort>
    requires { 10 ≤ room txn.old }
    ensures exact { Does P.view P.trail (from_registers op (scan_part some))
        result txn.old txn.new }
    ensures closed { ClosesIfDone result txn.new.core.now.psl }
    ensures keeps { KeepsUnlessDone P.view P.since 10 result txn.old txn.new }
{
    let p = continue_from(txn, op);
    search::scan_part(txn, some, &p, &mut scratch.first, &mut scratch.table)
}

/// CMPC3 and CMPC5.
#[tactic(auto, using(vax_undo::proofs::Left::behind, crate::proofs::Left::closes))]
fn resume_compare<P: Port>(
    txn: &mut Txn<P>,
    op: u8,
    scratch: &mut Scratch,
) -> Result<Flow, CutShort>
    requires { 10 ≤ room txn.old }
    ensures exact { Does P.view P.trail
        (from_registers op (λ p s next. compare_part (done_within (pairs_of p) p) s next))
        result txn.old txn.new }
    ensures closed { ClosesIfDone result txn.new.core.now.psl }
    ensures keeps { KeepsUnlessDone P.view P.since 10 result txn.old txn.new }
{
    let p = continue_from(txn, op);
    let most = p.len1.max(p.len2);
    compare::compare_part(
        txn,
        &done_within(most, p),
        &mut scratch.first,
        &mut scratch.second,
    )
}

/// MATCHC.
#[tactic(auto, using(vax_undo::proofs::Left::behind, crate::proofs::Left::closes))]
fn resume_match<P: Port>(txn: &mut Txn<P>, op: u8) -> Result<Flow, CutShort>
    requires { 10 ≤ room txn.old }
    ensures exact { Does P.view P.trail
        (from_registers op (λ p s next. match_part (done_within p.len1 p) s next))
        result txn.old txn.new }
    ensures closed { ClosesIfDone result txn.new.core.now.psl }
    ensures keeps { KeepsUnlessDone P.view P.since 10 result txn.old txn.new }
{
    let p = continue_from(txn, op);
    matching::match_part(txn, &done_within(p.len1, p))
}

/// MOVC3, MOVC5 and MOVTC.
#[tactic(auto, using(vax_undo::proofs::Left::behind, crate::proofs::Left::closes))]
fn resume_move<P: Port>(
    txn: &mut Txn<P>,
    op: u8,
    by_table: bool,
    scratch: &mut Scratch,
) -> Result<Flow, CutShort>
    requires { 43 ≤ room txn.old }
    ensures exact { Does P.view P.trail
        (from_registers op (λ p s next. move_part by_table (done_within p.len2 p) s next))
        result txn.old txn.new }
    ensures closed { ClosesIfDone result txn.new.core.now.psl }
    ensures keeps { KeepsUnlessDone P.view P.since 43 result txn.old txn.new }
{
    let p = continue_from(txn, op);
    moves::move_part(
        txn,
        by_table,
        &done_within(p.len2, p),
        &mut scratch.first,
        &mut scratch.table,
    )
}

/// MOVTUC.
#[tactic(auto, using(vax_undo::proofs::Left::behind, crate::proofs::Left::closes))]
fn resume_escape<P: Port>(txn: &mut Txn<P>, op: u8, scratch: &mut Scratch) -> Result<Flow, CutShort>
    requires { 43 ≤ room txn.old }
    ensures exact { Does P.view P.trail
        (from_registers op (λ p s next. escape_part (done_within (moved_count p) p) s next))
        result txn.old txn.new }
    ensures closed { ClosesIfDone result txn.new.core.now.psl }
    ensures keeps { KeepsUnlessDone P.view P.since 43 result txn.old txn.new }
{
    let p = continue_from(txn, op);
    escape::escape_part(
        txn,
        &done_within(moves::moved_count(&p), p),
        &mut scratch.first,
        &mut scratch.table,
    )
}

/// A later part of the string instruction with this opcode, by R0 to R5, which say what remains of it, and by PC, which is at the
/// instruction (VAX MACRO and Instruction Set Reference Manual, character string instructions). The bytes of the instruction aren't read again.
///
/// Answers `Done` where the instruction is completed, with PC behind it, and `More` where something remains, which R0 to R5 then hold. The
/// work is cut short by the first page that is missing, or by a violation at the part's first unit.
#[tactic(auto, using(crate::proofs::Left::with_more), unfolding(vax_flat::specs::StringParts::resumed))]
pub fn resume<P: Port>(
    txn: &mut Txn<P>,
    opcode: u8,
    scratch: &mut Scratch,
) -> Result<Flow, CutShort>
    requires { 43 ≤ room txn.old }
    ensures exact { Does P.view P.trail (resumed opcode) result txn.old txn.new }
    ensures closed { ClosesIfDone result txn.new.core.now.psl }
    ensures keeps { KeepsUnlessDone P.view P.since 43 result txn.old txn.new }
{
    match opcode {
        0x28 | 0x2C => resume_move(txn, opcode, false, scratch),
        0x2E => resume_move(txn, opcode, true, scratch),
        0x2F => resume_escape(txn, opcode, scratch),
        0x3A => resume_search(txn, opcode, true, scratch),
        0x3B => resume_search(txn, opcode, false, scratch),
        0x2A => resume_scan(txn, opcode, true, scratch),
        0x2B => resume_scan(txn, opcode, false, scratch),
        0x39 => resume_match(txn, opcode),
        _ => resume_compare(txn, opcode, scratch),
    }
}
