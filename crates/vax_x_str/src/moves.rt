//! MOVC3, MOVC5 and MOVTC.
ghost use Rattle.std.specs.Prelude.{◌≡◌, ◌+◌, ◌-◌, ◌/◌, ◌%◌, ◌<◌, ◌≤◌, Ok, length, min};
ghost use Rattle.vax_flat.specs.String as text;
ghost use Rattle.vax_flat.specs.StringMove as moving;
ghost use Rattle.vax_undo.specs.Transaction.{present, room, Keeps, KeepsUnlessDone, Acts, Does, Passes};
ghost use Rattle.vax_x_str.specs.Ends.{IsPartEnd};

use crate::compare::room_up;
use crate::registers::{set_completed, suspend};
use crate::run::{read_span, write_run, write_span};
use vax_flat::{Cut, Exception, Flow};
use vax_operand::check;
use vax_space::Access;
use vax_strpart::{Progress, translate};
use vax_undo::{CutShort, Port, Txn};
use vax_word::{Size, compare};

/// The bytes that are moved.
pub(crate) fn moved_count(p: &Progress) -> u16
    ensures { result ≡ moving.moved_count p.now }
{
    p.len1.min(p.len2)
}

/// Whether a move goes backward.
#[tactic(auto, unfolding(vax_flat::specs::StringMove::is_backward))]
fn is_backward(p: &Progress) -> bool
    ensures { result ≡ moving.is_backward p.now }
{
    let far = p.addr2.wrapping_sub(p.addr1);
    0 < far && far < u32::from(moved_count(p))
}

/// Whether two ranges have a byte in common.
pub(crate) fn overlaps(a: u32, m: u32, b: u32, n: u32) -> bool
    ensures { result ≡ moving.overlaps a m b n }
{
    b.wrapping_sub(a) < m || a.wrapping_sub(b) < n
}

/// Whether there is a table, and it would be written over.
pub(crate) fn is_reserved(by_table: bool, p: &Progress) -> bool
    ensures { result ≡ moving.is_reserved by_table p.now }
{
    by_table && moved_count(p) != 0 && overlaps(p.addr2, u32::from(p.len2), p.table, 256)
}

/// Checks the source, the table where one is used, and so many bytes of the destination.
#[tactic(auto, unfolding(vax_flat::specs::StringMove::move_checked, vax_flat::specs::StringMove::table_checked))]
pub(crate) fn check_move<P: Port>(
    txn: &mut Txn<P>,
    by_table: bool,
    p: &Progress,
    written: u16,
) -> Result<(), CutShort>
    ensures exact { Acts P.view P.trail (moving.move_checked by_table p.now written)
        result txn.old txn.new }
    ensures same { present P.view txn.new ≡ present P.view txn.old }
    ensures keeps { Keeps P.view P.since 0 txn.old txn.new }
{
    check(txn, p.addr1, u32::from(moved_count(p)), Access::Read)?;
    if by_table && moved_count(p) != 0 {
        check(txn, p.table, 256, Access::Read)?;
    }
    check(txn, p.addr2, u32::from(written), Access::Write)
}

/// The lowest of the indices of so many bytes that are moved next.
#[tactic(auto, unfolding(vax_flat::specs::StringMove::lowest))]
fn lowest(p: &Progress, count: u16) -> u16
    requires { p.now.done + count ≤ moving.moved_count p.now }
    ensures exact { result ≡ moving.lowest p.now count }
    ensures within { result + count ≤ moving.moved_count p.now }
{
    if is_backward(p) {
        moved_count(p) - (p.done + count)
    } else {
        p.done
    }
}

/// How many bytes from an address down lie in its page, or in another that is beside it; at most 512 count.
#[tactic(auto, unfolding(vax_flat::specs::String::room_down))]
fn room_down(addr: u32, page: u32) -> u16
    requires { page < 16777216 }
    ensures exact { result ≡ text.room_down addr page }
    ensures some { 1 ≤ result }
    ensures few { result ≤ 512 }
{
    if addr / 512 == page + 1 {
        512
    } else {
        (addr % 512) as u16 + 1
    }
}

/// How many bytes a part has room for, from its first source and destination byte.
#[tactic(auto, unfolding(vax_flat::specs::StringMove::run_room))]
fn run_room(p: &Progress, a: u32, b: u32) -> u16
    ensures exact { result ≡ moving.run_room p.now a b }
    ensures some { 1 ≤ result }
    ensures few { result ≤ 512 }
{
    if is_backward(p) {
        room_down(a, b / 512).min(room_down(b, a / 512))
    } else {
        room_up(a, b / 512).min(room_up(b, a / 512))
    }
}

/// The bytes that a part moves.
#[tactic(auto, unfolding(vax_flat::specs::StringMove::move_room))]
fn move_room(p: &Progress) -> u16
    requires { p.now.done < moving.moved_count p.now }
    ensures exact { result ≡ moving.move_room p.now }
    ensures some { 1 ≤ result }
    ensures few { result ≤ 512 }
    ensures within { p.now.done + result ≤ moving.moved_count p.now }
{
    let first = u32::from(lowest(p, 1));
    let room = run_room(p, p.addr1.wrapping_add(first), p.addr2.wrapping_add(first));
    (moved_count(p) - p.done).min(512).min(room)
}

/// R0 to R5 at the end.
fn moved_low(by_table: bool, p: &Progress) -> [u32; 6]
    ensures { result ≡ moving.moved_low by_table p.now }
{
    let left = u32::from(p.len1 - moved_count(p));
    let source = p.addr1.wrapping_add(u32::from(moved_count(p)));
    let end = p.addr2.wrapping_add(u32::from(p.len2));
    if by_table {
        [left, source, 0, p.table, 0, end]
    } else {
        [left, source, 0, end, 0, 0]
    }
}

/// Ends a move.
#[tactic(auto, unfolding(vax_flat::specs::StringMove::moved, vax_flat::specs::String::completed))]
fn finish_move<P: Port>(txn: &mut Txn<P>, by_table: bool, p: &Progress) -> Flow
    requires { 7 ≤ room txn.old }
    ensures exact { Does P.view P.trail (moving.moved by_table p.now) (Ok result) txn.old txn.new }
    ensures ends { IsPartEnd result }
    ensures keeps { Keeps P.view P.since 7 txn.old txn.new }
{
    let codes = compare(Size::W, u64::from(p.len1), u64::from(p.len2));
    set_completed(txn, &moved_low(by_table, p), codes);
    Flow::Done
}

/// Ends a part of so many units.
#[tactic(auto, using(vax_undo::proofs::Left::left_of), unfolding(vax_flat::specs::StringMove::move_end, vax_flat::specs::String::leaves))]
fn end_move<P: Port>(txn: &mut Txn<P>, by_table: bool, p: &Progress, count: u16) -> Flow
    requires within { p.now.done + count ≤ p.now.len2 }
    requires room { 8 ≤ room txn.old }
    ensures exact { Does P.view P.trail (moving.move_end by_table p.now count) (Ok result)
        txn.old txn.new }
    ensures ends { IsPartEnd result }
    ensures keeps { KeepsUnlessDone P.view P.since 8 (Ok result) txn.old txn.new }
{
    let whole = p.len2;
    let done = p.done + count;
    if done == whole {
        return finish_move(txn, by_table, p);
    }
    let rest = Progress { done, ..*p };
    suspend(txn, &rest);
    Flow::More {
        opcode: rest.op,
        units: u32::from(count),
    }
}

/// Puts the table's bytes in the places of bytes, where there is a table.
#[tactic(auto, unfolding(vax_flat::specs::StringMove::table_applied))]
fn apply_table<P: Port>(
    txn: &mut Txn<P>,
    by_table: bool,
    p: &Progress,
    bytes: &mut [u8],
    table: &mut [u8; 256],
) -> Result<(), CutShort>
    ensures exact { Passes P.view P.trail (moving.table_applied by_table p.now bytes.old)
        (λ next _. next bytes.new) result txn.old txn.new }
    ensures length { length bytes.new ≡ length bytes.old }
    ensures same { present P.view txn.new ≡ present P.view txn.old }
    ensures keeps { Keeps P.view P.since 0 txn.old txn.new }
{
    if by_table {
        read_span(txn, p.table, table)?;
        translate(bytes, table);
    }
    Ok(())
}

/// A part that moves as many bytes as the buffer has.
#[tactic(auto, using(crate::proofs::Left::part_ends), unfolding(vax_flat::specs::StringMove::move_run))]
fn move_run<P: Port>(
    txn: &mut Txn<P>,
    by_table: bool,
    p: &Progress,
    buffer: &mut [u8],
    table: &mut [u8; 256],
) -> Result<Flow, CutShort>
    requires some { 1 ≤ length buffer.old }
    requires few { length buffer.old ≤ 512 }
    requires within { p.now.done + length buffer.old ≤ moving.moved_count p.now }
    requires room { 41 ≤ room txn.old }
    ensures exact { Does P.view P.trail (moving.move_run by_table p.now (length buffer.old))
        result txn.old txn.new }
    ensures keeps { KeepsUnlessDone P.view P.since 41 result txn.old txn.new }
{
    let count = buffer.len() as u16;
    let first = u32::from(lowest(p, count));
    read_span(txn, p.addr1.wrapping_add(first), buffer)?;
    apply_table(txn, by_table, p, buffer, table)?;
    write_span(txn, p.addr2.wrapping_add(first), buffer)?;
    Ok(end_move(txn, by_table, p, count))
}

/// The bytes that a part fills.
#[tactic(auto, unfolding(vax_flat::specs::StringMove::fill_room))]
fn fill_room(p: &Progress) -> u16
    requires { p.now.done < p.now.len2 }
    ensures exact { result ≡ moving.fill_room p.now }
    ensures some { 1 ≤ result }
    ensures few { result ≤ 512 }
    ensures within { p.now.done + result ≤ p.now.len2 }
    ensures one_page { (p.now.addr2 + p.now.done) % 4294967296 % 512 + result ≤ 512 }
{
    let addr = p.addr2.wrapping_add(u32::from(p.done));
    (p.len2 - p.done).min(512).min(512 - (addr % 512) as u16)
}

/// A part that fills as many bytes as the buffer has.
#[tactic(auto, using(crate::proofs::Left::part_ends), unfolding(vax_flat::specs::StringMove::fill_run))]
fn fill_run<P: Port>(
    txn: &mut Txn<P>,
    by_table: bool,
    p: &Progress,
    buffer: &mut [u8],
) -> Result<Flow, CutShort>
    requires some { 1 ≤ length buffer.old }
    requires one_page { (p.now.addr2 + p.now.done) % 4294967296 % 512 + length buffer.old ≤ 512 }
    requires within { p.now.done + length buffer.old ≤ p.now.len2 }
    requires room { 8 ≤ room txn.old }
    ensures exact { Does P.view P.trail (moving.fill_run by_table p.now (length buffer.old))
        result txn.old txn.new }
    ensures keeps { KeepsUnlessDone P.view P.since 8 result txn.old txn.new }
{
    let count = buffer.len() as u16;
    buffer.fill(p.byte);
    write_run(txn, p.addr2.wrapping_add(u32::from(p.done)), buffer)?;
    Ok(end_move(txn, by_table, p, count))
}

/// A part of a move.
#[tactic(auto, using(vax_undo::proofs::Left::always), unfolding(vax_flat::specs::StringMove::move_part))]
pub(crate) fn move_part<P: Port>(
    txn: &mut Txn<P>,
    by_table: bool,
    p: &Progress,
    buffer: &mut [u8; 512],
    table: &mut [u8; 256],
) -> Result<Flow, CutShort>
    requires done { p.now.done ≤ p.now.len2 }
    requires room { 41 ≤ room txn.old }
    ensures exact { Does P.view P.trail (moving.move_part by_table p.now) result txn.old txn.new }
    ensures keeps { KeepsUnlessDone P.view P.since 41 result txn.old txn.new }
{
    if p.done == p.len2 {
        return Ok(finish_move(txn, by_table, p));
    }
    if p.done < moved_count(p) {
        move_run(
            txn,
            by_table,
            p,
            &mut buffer[..move_room(p) as usize],
            table,
        )
    } else {
        fill_run(txn, by_table, p, &mut buffer[..fill_room(p) as usize])
    }
}

/// The first part of a move, with its checks.
#[tactic(auto, using(vax_undo::proofs::Left::always, vax_undo::proofs::Left::behind, vax_undo::proofs::Trail::over_trail_raises), unfolding(vax_flat::specs::StringMove::move_start))]
pub(crate) fn start_move<P: Port>(
    txn: &mut Txn<P>,
    by_table: bool,
    p: &Progress,
    buffer: &mut [u8; 512],
    table: &mut [u8; 256],
) -> Result<Flow, CutShort>
    requires done { p.now.done ≤ p.now.len2 }
    requires room { 41 ≤ room txn.old }
    ensures exact { Does P.view P.trail (moving.move_start by_table p.now) result txn.old txn.new }
    ensures keeps { KeepsUnlessDone P.view P.since 41 result txn.old txn.new }
{
    if is_reserved(by_table, p) {
        return Err(txn.cut(Cut::Event(Exception::Operand)));
    }
    check_move(txn, by_table, p, p.len2)?;
    move_part(txn, by_table, p, buffer, table)
}
