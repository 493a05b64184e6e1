//! MOVTUC.
ghost use Rattle.std.specs.Prelude.{◌≡◌, ℕ, ◌+◌, ◌<◌, ◌≤◌, Ok, length, take, OnErr, OnOk};
ghost use Rattle.std.specs.List.{position_or_len};
ghost use Rattle.vax_strpart.specs.Kernels.{is_escape, translated};
ghost use Rattle.vax_flat.specs.StringEscape as escaping;
ghost use Rattle.vax_flat.specs.StringMove as moving;
ghost use Rattle.vax_undo.specs.Transaction.{room, IsLeft, IsLeftOpen, Keeps, KeepsUnlessDone, Acts, Does};
ghost use Rattle.vax_x_str.specs.Ends.{IsPartEnd};

use crate::compare::room_up;
use crate::moves::{check_move, is_reserved, moved_count, overlaps};
use crate::registers::{set_completed, suspend};
use crate::run::{read_span, write_span};
use vax_flat::{Cut, Exception, Flow};
use vax_strpart::{Progress, translate_until};
use vax_undo::{CutShort, Port, Txn};
use vax_word::{Codes, Size, compare};

/// Whether the table would be written over, or the strings overlap without being the same.
fn is_escape_reserved(p: &Progress) -> bool
    ensures { result ≡ escaping.is_escape_reserved p.now }
{
    let count = u32::from(moved_count(p));
    is_reserved(true, p)
        || count != 0 && p.addr1 != p.addr2 && overlaps(p.addr2, count, p.addr1, count)
}

/// R0 to R5 once so many bytes are moved.
fn escaped_low(p: &Progress, count: u16) -> [u32; 6]
    requires { count ≤ moving.moved_count p.now }
    ensures { result ≡ escaping.escaped_low p.now count }
{
    [
        u32::from(p.len1 - count),
        p.addr1.wrapping_add(u32::from(count)),
        0,
        p.table,
        u32::from(p.len2 - count),
        p.addr2.wrapping_add(u32::from(count)),
    ]
}

/// Ends the instruction once so many bytes are moved, by a byte that escapes or by the end of a string.
#[tactic(auto, unfolding(vax_flat::specs::StringEscape::escaped, vax_flat::specs::String::completed))]
fn finish_escape<P: Port>(txn: &mut Txn<P>, p: &Progress, count: u16, escape: bool) -> Flow
    requires within { count ≤ moving.moved_count p.now }
    requires room { 7 ≤ room txn.old }
    ensures exact { Does P.view P.trail (escaping.escaped p.now count escape) (Ok result)
        txn.old txn.new }
    ensures ends { IsPartEnd result }
    ensures keeps { Keeps P.view P.since 7 txn.old txn.new }
{
    let codes = Codes {
        v: escape,
        ..compare(Size::W, u64::from(p.len1), u64::from(p.len2))
    };
    set_completed(txn, &escaped_low(p, count), codes);
    Flow::Done
}

/// How many bytes a part has room to move.
#[tactic(auto, unfolding(vax_flat::specs::StringEscape::escape_room))]
fn escape_room(p: &Progress) -> u16
    requires { p.now.done < moving.moved_count p.now }
    ensures exact { result ≡ escaping.escape_room p.now }
    ensures few { result ≤ 512 }
{
    let a = p.addr1.wrapping_add(u32::from(p.done));
    let b = p.addr2.wrapping_add(u32::from(p.done));
    let room = room_up(a, b / 512).min(room_up(b, a / 512));
    (moved_count(p) - p.done).min(512).min(room)
}

/// How many bytes a part reads: one more than it has room to move, since a byte that escapes isn't moved.
#[tactic(auto, unfolding(vax_flat::specs::StringEscape::source_room))]
fn source_room(p: &Progress) -> u16
    requires { p.now.done < moving.moved_count p.now }
    ensures exact { result ≡ escaping.source_room p.now }
    ensures some { 1 ≤ result }
    ensures few { result ≤ 512 }
    ensures within { p.now.done + result ≤ moving.moved_count p.now }
{
    let a = p.addr1.wrapping_add(u32::from(p.done));
    let b = p.addr2.wrapping_add(u32::from(p.done));
    let room = room_up(a, b / 512).min(room_up(b, a / 512) + 1);
    (moved_count(p) - p.done).min(512).min(room)
}

/// Writes a run that may be empty, and may go on in the next page. Once it succeeded it isn't undone.
#[tactic(auto, using(vax_undo::proofs::Left::left_of, vax_undo::proofs::Left::open_of), unfolding(vax_flat::specs::StringEscape::written_some))]
fn write_some<P: Port>(txn: &mut Txn<P>, addr: u32, from: &[u8]) -> Result<(), CutShort>
    requires few { length from.now ≤ 512 }
    requires room { 33 ≤ room txn.old }
    ensures exact { Acts P.view P.trail (escaping.written_some addr from.now)
        result txn.old txn.new }
    ensures keeps { OnErr result (Keeps P.view P.since 33 txn.old txn.new) }
    ensures left { OnOk result (IsLeftOpen P.view P.since 33 txn.old txn.new) }
    ensures completed { OnOk result (IsLeft P.since 33 txn.old txn.new) }
{
    if from.is_empty() {
        return Ok(());
    }
    write_span(txn, addr, from)
}

/// Ends a part that had so many bytes before the first that escapes, had room to move so many, and read so many.
#[tactic(auto, using(vax_undo::proofs::Left::left_of), unfolding(vax_flat::specs::String::leaves))]
fn close_escape<P: Port>(txn: &mut Txn<P>, p: &Progress, count: u16, space: u16, len: u16) -> Flow
    requires read { count ≤ len }
    requires within { p.now.done + len ≤ moving.moved_count p.now }
    requires room { 8 ≤ room txn.old }
    ensures exact { Does P.view P.trail (escaping.escape_close p.now count space len)
        (Ok result) txn.old txn.new }
    ensures ends { IsPartEnd result }
    ensures keeps { KeepsUnlessDone P.view P.since 8 (Ok result) txn.old txn.new }
{
    if count <= space && count < len {
        return finish_escape(txn, p, p.done + count, true);
    }
    let moved = count.min(space);
    let done = p.done + moved;
    if done == moved_count(p) {
        return finish_escape(txn, p, done, false);
    }
    let rest = Progress { done, ..*p };
    suspend(txn, &rest);
    Flow::More {
        opcode: rest.op,
        units: u32::from(moved),
    }
}

/// Translates the bytes before the first that escapes. Answers how many these are.
#[tactic(auto, using(crate::proofs::Translation::part_translated, vax_strpart::proofs::MarkLaws::end_of))]
fn translate_before(bytes: &mut [u8], table: &[u8; 256], escape: u8) -> usize
    ensures exact { result ≡ position_or_len (is_escape table.now escape) bytes.old }
    ensures within { result ≤ length bytes.old }
    ensures length { length bytes.new ≡ length bytes.old }
    ensures translated { (count : ℕ) → count ≤ result
        → take count bytes.new ≡ translated table.now (take count bytes.old) }
{
    let len = bytes.len();
    translate_until(bytes, table, escape).unwrap_or(len)
}

/// The end of a part that has read these bytes of the source, and has room to move so many.
#[tactic(auto, using(crate::proofs::Left::part_ends), unfolding(vax_flat::specs::StringEscape::escape_end))]
fn end_escape<P: Port>(
    txn: &mut Txn<P>,
    p: &Progress,
    space: u16,
    bytes: &mut [u8],
    table: &[u8; 256],
) -> Result<Flow, CutShort>
    requires few { length bytes.old ≤ 512 }
    requires within { p.now.done + length bytes.old ≤ moving.moved_count p.now }
    requires room { 41 ≤ room txn.old }
    ensures exact { Does P.view P.trail (escaping.escape_end p.now space bytes.old table.now)
        result txn.old txn.new }
    ensures keeps { KeepsUnlessDone P.view P.since 41 result txn.old txn.new }
{
    let len = bytes.len();
    let count = translate_before(bytes, table, p.byte);
    let moved = count.min(usize::from(space));
    write_some(
        txn,
        p.addr2.wrapping_add(u32::from(p.done)),
        &bytes[..moved],
    )?;
    Ok(close_escape(txn, p, count as u16, space, len as u16))
}

/// A part that reads at most as many bytes as the buffer has, and has room to move so many. Where its first byte escapes, it reads none behind it:
/// these may lie in the destination's page, which then no byte of the part needs.
#[tactic(auto, using(vax_undo::proofs::Left::behind), unfolding(vax_flat::specs::StringEscape::escape_run))]
fn escape_run<P: Port>(
    txn: &mut Txn<P>,
    p: &Progress,
    space: u16,
    buffer: &mut [u8],
    table: &mut [u8; 256],
) -> Result<Flow, CutShort>
    requires some { 1 ≤ length buffer.old }
    requires few { length buffer.old ≤ 512 }
    requires within { p.now.done + length buffer.old ≤ moving.moved_count p.now }
    requires room { 41 ≤ room txn.old }
    ensures exact { Does P.view P.trail (escaping.escape_run p.now (length buffer.old) space)
        result txn.old txn.new }
    ensures keeps { KeepsUnlessDone P.view P.since 41 result txn.old txn.new }
{
    let source = p.addr1.wrapping_add(u32::from(p.done));
    let mut first = [0];
    read_span(txn, source, &mut first)?;
    read_span(txn, p.table, table)?;
    if table[first[0] as usize] == p.byte {
        return Ok(finish_escape(txn, p, p.done, true));
    }
    read_span(txn, source, buffer)?;
    end_escape(txn, p, space, buffer, table)
}

/// A part of MOVTUC.
#[tactic(auto, using(vax_undo::proofs::Left::always), unfolding(vax_flat::specs::StringEscape::escape_part))]
pub(crate) fn escape_part<P: Port>(
    txn: &mut Txn<P>,
    p: &Progress,
    buffer: &mut [u8; 512],
    table: &mut [u8; 256],
) -> Result<Flow, CutShort>
    requires done { p.now.done ≤ moving.moved_count p.now }
    requires room { 41 ≤ room txn.old }
    ensures exact { Does P.view P.trail (escaping.escape_part p.now) result txn.old txn.new }
    ensures keeps { KeepsUnlessDone P.view P.since 41 result txn.old txn.new }
{
    let whole = moved_count(p);
    if p.done == whole {
        return Ok(finish_escape(txn, p, whole, false));
    }
    escape_run(
        txn,
        p,
        escape_room(p),
        &mut buffer[..source_room(p) as usize],
        table,
    )
}

/// The first part of MOVTUC, with its checks.
#[tactic(auto, using(vax_undo::proofs::Left::always, vax_undo::proofs::Left::behind, vax_undo::proofs::Trail::over_trail_raises), unfolding(vax_flat::specs::StringEscape::escape_start))]
pub(crate) fn start_escape<P: Port>(
    txn: &mut Txn<P>,
    p: &Progress,
    buffer: &mut [u8; 512],
    table: &mut [u8; 256],
) -> Result<Flow, CutShort>
    requires done { p.now.done ≤ moving.moved_count p.now }
    requires room { 41 ≤ room txn.old }
    ensures exact { Does P.view P.trail (escaping.escape_start p.now) result txn.old txn.new }
    ensures keeps { KeepsUnlessDone P.view P.since 41 result txn.old txn.new }
{
    if is_escape_reserved(p) {
        return Err(txn.cut(Cut::Event(Exception::Operand)));
    }
    check_move(txn, true, p, moved_count(p))?;
    escape_part(txn, p, buffer, table)
}
