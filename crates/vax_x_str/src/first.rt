//! Instructions at their start, whose opcode PC is past: the operands, and the first part.
ghost use Rattle.std.specs.Prelude.{◌≤◌};
ghost use Rattle.vax_flat.specs.StringParts as parts;
ghost use Rattle.vax_undo.specs.Transaction.{room, KeepsUnlessDone, Does};

use crate::compare::compare_part;
use crate::escape::start_escape;
use crate::matching::match_part;
use crate::moves::start_move;
use crate::operands::{
    equal_operands, filled_operands, match_operands, scan_operands, search_operands,
    translated_operands,
};
use crate::scratch::Scratch;
use crate::search::{scan_part, search_part};
use vax_flat::Flow;
use vax_isa::Text;
use vax_undo::{CutShort, Port, Txn};

/// LOCC and SKPC.
#[tactic(auto, using(vax_undo::proofs::Left::always, vax_undo::proofs::Left::behind), unfolding(vax_flat::specs::StringParts::first_search))]
fn start_search<P: Port>(
    txn: &mut Txn<P>,
    op: u8,
    equal: bool,
    scratch: &mut Scratch,
) -> Result<Flow, CutShort>
    requires { 21 ≤ room txn.old }
    ensures exact { Does P.view P.trail (parts.first_search op equal) result txn.old txn.new }
    ensures keeps { KeepsUnlessDone P.view P.since 21 result txn.old txn.new }
{
    let p = search_operands(txn, op)?;
    search_part(txn, equal, &p, &mut scratch.first)
}

/// SCANC and SPANC.
#[tactic(auto, using(vax_undo::proofs::Left::always, vax_undo::proofs::Left::behind), unfolding(vax_flat::specs::StringParts::first_scan))]
fn start_scan<P: Port>(
    txn: &mut Txn<P>,
    op: u8,
    some: bool,
    scratch: &mut Scratch,
) -> Result<Flow, CutShort>
    requires { 25 ≤ room txn.old }
    ensures exact { Does P.view P.trail (parts.first_scan op some) result txn.old txn.new }
    ensures keeps { KeepsUnlessDone P.view P.since 25 result txn.old txn.new }
{
    let p = scan_operands(txn, op)?;
    scan_part(txn, some, &p, &mut scratch.first, &mut scratch.table)
}

/// CMPC3.
#[tactic(auto, using(vax_undo::proofs::Left::always, vax_undo::proofs::Left::behind), unfolding(vax_flat::specs::StringParts::first_compare))]
fn start_compare<P: Port>(txn: &mut Txn<P>, op: u8, scratch: &mut Scratch) -> Result<Flow, CutShort>
    requires { 21 ≤ room txn.old }
    ensures exact { Does P.view P.trail (parts.first_compare op) result txn.old txn.new }
    ensures keeps { KeepsUnlessDone P.view P.since 21 result txn.old txn.new }
{
    let p = equal_operands(txn, op)?;
    compare_part(txn, &p, &mut scratch.first, &mut scratch.second)
}

/// CMPC5.
#[tactic(auto, using(vax_undo::proofs::Left::always, vax_undo::proofs::Left::behind), unfolding(vax_flat::specs::StringParts::first_compare_filled))]
fn start_compare_filled<P: Port>(
    txn: &mut Txn<P>,
    op: u8,
    scratch: &mut Scratch,
) -> Result<Flow, CutShort>
    requires { 29 ≤ room txn.old }
    ensures exact { Does P.view P.trail (parts.first_compare_filled op) result txn.old txn.new }
    ensures keeps { KeepsUnlessDone P.view P.since 29 result txn.old txn.new }
{
    let p = filled_operands(txn, op)?;
    compare_part(txn, &p, &mut scratch.first, &mut scratch.second)
}

/// MOVC3.
#[tactic(auto, using(vax_undo::proofs::Left::always, vax_undo::proofs::Left::behind), unfolding(vax_flat::specs::StringParts::first_move))]
fn start_move_equal<P: Port>(
    txn: &mut Txn<P>,
    op: u8,
    scratch: &mut Scratch,
) -> Result<Flow, CutShort>
    requires { 54 ≤ room txn.old }
    ensures exact { Does P.view P.trail (parts.first_move op) result txn.old txn.new }
    ensures keeps { KeepsUnlessDone P.view P.since 54 result txn.old txn.new }
{
    let p = equal_operands(txn, op)?;
    start_move(txn, false, &p, &mut scratch.first, &mut scratch.table)
}

/// MOVC5.
#[tactic(auto, using(vax_undo::proofs::Left::always, vax_undo::proofs::Left::behind), unfolding(vax_flat::specs::StringParts::first_move_filled))]
fn start_move_filled<P: Port>(
    txn: &mut Txn<P>,
    op: u8,
    scratch: &mut Scratch,
) -> Result<Flow, CutShort>
    requires { 62 ≤ room txn.old }
    ensures exact { Does P.view P.trail (parts.first_move_filled op) result txn.old txn.new }
    ensures keeps { KeepsUnlessDone P.view P.since 62 result txn.old txn.new }
{
    let p = filled_operands(txn, op)?;
    start_move(txn, false, &p, &mut scratch.first, &mut scratch.table)
}

/// MOVTC.
#[tactic(auto, using(vax_undo::proofs::Left::always, vax_undo::proofs::Left::behind), unfolding(vax_flat::specs::StringParts::first_move_translated))]
fn start_move_translated<P: Port>(
    txn: &mut Txn<P>,
    op: u8,
    scratch: &mut Scratch,
) -> Result<Flow, CutShort>
    requires { 66 ≤ room txn.old }
    ensures exact { Does P.view P.trail (parts.first_move_translated op) result txn.old txn.new }
    ensures keeps { KeepsUnlessDone P.view P.since 66 result txn.old txn.new }
{
    let p = translated_operands(txn, op)?;
    start_move(txn, true, &p, &mut scratch.first, &mut scratch.table)
}

/// MOVTUC.
#[tactic(auto, using(vax_undo::proofs::Left::always, vax_undo::proofs::Left::behind), unfolding(vax_flat::specs::StringParts::first_escape))]
fn start_move_escaped<P: Port>(
    txn: &mut Txn<P>,
    op: u8,
    scratch: &mut Scratch,
) -> Result<Flow, CutShort>
    requires { 66 ≤ room txn.old }
    ensures exact { Does P.view P.trail (parts.first_escape op) result txn.old txn.new }
    ensures keeps { KeepsUnlessDone P.view P.since 66 result txn.old txn.new }
{
    let p = translated_operands(txn, op)?;
    start_escape(txn, &p, &mut scratch.first, &mut scratch.table)
}

/// MATCHC.
#[tactic(auto, using(vax_undo::proofs::Left::always, vax_undo::proofs::Left::behind), unfolding(vax_flat::specs::StringParts::first_match))]
fn start_match<P: Port>(txn: &mut Txn<P>, op: u8) -> Result<Flow, CutShort>
    requires { 25 ≤ room txn.old }
    ensures exact { Does P.view P.trail (parts.first_match op) result txn.old txn.new }
    ensures keeps { KeepsUnlessDone P.view P.since 25 result txn.old txn.new }
{
    let p = match_operands(txn, op)?;
    match_part(txn, &p)
}

/// The operands and the first part of a string instruction, whose opcode PC is past (VAX MACRO and Instruction Set Reference Manual, character
/// string instructions).
///
/// Answers `Done` where the instruction is completed, and `More` where something remains: then PC is back at the instruction, first part done is
/// set, and R0 to R5 hold what remains ([`resume`] goes on with it). The work is cut short by the first page that is missing, by a reserved
/// operand, and by a violation: of an instruction that writes, anywhere in its strings and its table, and of any other at its first unit.
///
/// [`resume`]: crate::resume
#[tactic(auto, using(crate::proofs::Left::with_more), unfolding(vax_flat::specs::StringParts::text_part))]
pub fn start<P: Port>(txn: &mut Txn<P>, text: Text, scratch: &mut Scratch) -> Result<Flow, CutShort>
    requires { 66 ≤ room txn.old }
    ensures exact { Does P.view P.trail (parts.text_part text) result txn.old txn.new }
    ensures keeps { KeepsUnlessDone P.view P.since 66 result txn.old txn.new }
{
    match text {
        Text::Move => start_move_equal(txn, 0x28, scratch),
        Text::MoveFilled => start_move_filled(txn, 0x2C, scratch),
        Text::MoveTranslated => start_move_translated(txn, 0x2E, scratch),
        Text::MoveTranslatedUntil => start_move_escaped(txn, 0x2F, scratch),
        Text::Compare => start_compare(txn, 0x29, scratch),
        Text::CompareFilled => start_compare_filled(txn, 0x2D, scratch),
        Text::Locate => start_search(txn, 0x3A, true, scratch),
        Text::Skip => start_search(txn, 0x3B, false, scratch),
        Text::Scan => start_scan(txn, 0x2A, true, scratch),
        Text::Span => start_scan(txn, 0x2B, false, scratch),
        Text::Match => start_match(txn, 0x39),
    }
}
