//! LOCC, SKPC, SCANC and SPANC.
ghost use Rattle.std.specs.Prelude.{◌≡◌, ◌+◌, ◌-◌, ◌%◌, ◌<◌, ◌≤◌, IfSome, length};
ghost use Rattle.std.specs.List.{position, position_or_len};
ghost use Rattle.vax_flat.specs.StringSearch as search;
ghost use Rattle.vax_undo.specs.Transaction.{present, room, Keeps, KeepsUnlessDone, Does, Passes};

use crate::registers::{complete, leave_rest, low_registers};
use crate::run::read_run;
use vax_flat::Flow;
use vax_operand::{check, is_allowed, read};
use vax_space::Access;
use vax_strpart::{Progress, locate, scan, skip, span};
use vax_undo::{CutShort, Port, Txn};
use vax_word::Codes;

/// Z where nothing is left.
fn found_codes(left: u32) -> Codes
    ensures { result ≡ search.found_codes left }
{
    Codes {
        n: false,
        z: left == 0,
        v: false,
        c: false,
    }
}

/// Ends LOCC and SKPC here, with so much of the string left.
#[tactic(auto, unfolding(vax_flat::specs::StringSearch::located))]
fn locate_at<P: Port>(txn: &mut Txn<P>, left: u32, addr: u32) -> Result<Flow, CutShort>
    requires { 7 ≤ room txn.old }
    ensures exact { Does P.view P.trail (search.located left addr) result txn.old txn.new }
    ensures keeps { Keeps P.view P.since 7 txn.old txn.new }
{
    let old = low_registers(txn);
    complete(
        txn,
        &[left, addr, old[2], old[3], old[4], old[5]],
        found_codes(left),
    )
}

/// What remains once so many bytes are searched.
fn searched(p: &Progress, count: u16) -> Progress
    requires { count ≤ p.now.len1 }
    ensures { result ≡ search.searched p.now count }
{
    Progress {
        len1: p.len1 - count,
        addr1: p.addr1.wrapping_add(u32::from(count)),
        ..*p
    }
}

/// The bytes of a part.
#[tactic(auto, unfolding(vax_flat::specs::StringSearch::search_room))]
fn search_room(p: &Progress) -> u16
    ensures exact { result ≡ search.search_room p.now }
    ensures some { 0 < p.now.len1 → 1 ≤ result }
    ensures few { result ≤ 512 }
    ensures rest { result ≤ p.now.len1 }
    ensures one_page { p.now.addr1 % 512 + result ≤ 512 }
{
    p.len1.min(512).min(512 - (p.addr1 % 512) as u16)
}

/// The first byte that is the character, or that isn't.
fn sought(bytes: &[u8], equal: bool, character: u8) -> Option<usize>
    ensures exact { result ≡ position (search.is_sought equal character) bytes.now }
    ensures within { IfSome result (λ i. i < length bytes.now) }
{
    if equal {
        locate(bytes, character)
    } else {
        skip(bytes, character)
    }
}

/// The end of a part of LOCC or SKPC that has these bytes of the string.
#[tactic(auto, using(vax_undo::proofs::Left::always), unfolding(vax_flat::specs::StringSearch::search_end))]
fn end_search<P: Port>(
    txn: &mut Txn<P>,
    equal: bool,
    p: &Progress,
    bytes: &[u8],
) -> Result<Flow, CutShort>
    requires rest { length bytes.now ≤ p.now.len1 }
    requires room { 8 ≤ room txn.old }
    ensures exact { Does P.view P.trail
        (search.search_end search.located (search.is_sought equal p.now.byte) p.now bytes.now)
        result txn.old txn.new }
    ensures keeps { KeepsUnlessDone P.view P.since 8 result txn.old txn.new }
{
    let whole = p.len1;
    let count = bytes.len() as u16;
    match sought(bytes, equal, p.byte) {
        Some(i) => locate_at(
            txn,
            u32::from(whole - i as u16),
            p.addr1.wrapping_add(i as u32),
        ),
        None => {
            if count == whole {
                return locate_at(txn, 0, p.addr1.wrapping_add(u32::from(count)));
            }
            leave_rest(txn, &searched(p, count), u32::from(count))
        }
    }
}

/// A part of LOCC or SKPC that reads as many bytes as the buffer has.
#[tactic(auto, using(vax_undo::proofs::Left::behind), unfolding(vax_flat::specs::StringSearch::search_run))]
fn search_run<P: Port>(
    txn: &mut Txn<P>,
    equal: bool,
    p: &Progress,
    buffer: &mut [u8],
) -> Result<Flow, CutShort>
    requires some { 1 ≤ length buffer.old }
    requires rest { length buffer.old ≤ p.now.len1 }
    requires one_page { p.now.addr1 % 512 + length buffer.old ≤ 512 }
    requires room { 8 ≤ room txn.old }
    ensures exact { Does P.view P.trail (search.search_run equal p.now (length buffer.old))
        result txn.old txn.new }
    ensures keeps { KeepsUnlessDone P.view P.since 8 result txn.old txn.new }
{
    read_run(txn, p.addr1, buffer)?;
    end_search(txn, equal, p, buffer)
}

/// A part of LOCC or SKPC.
#[tactic(auto, using(vax_undo::proofs::Left::always), unfolding(vax_flat::specs::StringSearch::search_part))]
pub(crate) fn search_part<P: Port>(
    txn: &mut Txn<P>,
    equal: bool,
    p: &Progress,
    buffer: &mut [u8; 512],
) -> Result<Flow, CutShort>
    requires { 8 ≤ room txn.old }
    ensures exact { Does P.view P.trail (search.search_part equal p.now) result txn.old txn.new }
    ensures keeps { KeepsUnlessDone P.view P.since 8 result txn.old txn.new }
{
    if p.len1 == 0 {
        return locate_at(txn, 0, p.addr1);
    }
    search_run(txn, equal, p, &mut buffer[..search_room(p) as usize])
}

/// Ends SCANC and SPANC here, with so much of the string left.
#[tactic(auto, unfolding(vax_flat::specs::StringSearch::scanned))]
fn scan_at<P: Port>(txn: &mut Txn<P>, table: u32, left: u32, addr: u32) -> Result<Flow, CutShort>
    requires { 7 ≤ room txn.old }
    ensures exact { Does P.view P.trail (search.scanned table left addr) result txn.old txn.new }
    ensures keeps { Keeps P.view P.since 7 txn.old txn.new }
{
    let old = low_registers(txn);
    complete(
        txn,
        &[left, addr, 0, table, old[4], old[5]],
        found_codes(left),
    )
}

/// Reads a piece of a table that lies within one page, where it may be read; else it is zero. Answers whether it was read.
#[tactic(auto, unfolding(vax_flat::specs::StringSearch::piece_read))]
fn read_piece<P: Port>(txn: &mut Txn<P>, addr: u32, into: &mut [u8]) -> Result<bool, CutShort>
    requires some { 1 ≤ length into.old }
    requires one_page { addr % 512 + length into.old ≤ 512 }
    ensures exact { Passes P.view P.trail (search.piece_read addr (length into.old))
        (λ next allowed. next allowed into.new) result txn.old txn.new }
    ensures same { present P.view txn.new ≡ present P.view txn.old }
    ensures keeps { Keeps P.view P.since 0 txn.old txn.new }
{
    let mode = txn.psl().mode();
    if !is_allowed(txn, addr, into.len() as u32, mode, Access::Read) {
        into.fill(0);
        return Ok(false);
    }
    read_run(txn, addr, into)?;
    Ok(true)
}

/// Reads what may be read of a table. Answers the first entry that was read, and the end of those that were.
#[tactic(auto, unfolding(vax_flat::specs::StringSearch::table_read))]
fn read_table<P: Port>(
    txn: &mut Txn<P>,
    table: u32,
    into: &mut [u8],
) -> Result<(u16, u16), CutShort>
    requires whole { length into.old ≡ 256 }
    ensures exact { Passes P.view P.trail (search.table_read table)
        (λ next known. next known.0 known.1 into.new) result txn.old txn.new }
    ensures same { present P.view txn.new ≡ present P.view txn.old }
    ensures keeps { Keeps P.view P.since 0 txn.old txn.new }
{
    let split = (512 - table % 512).min(256) as u16;
    if split == 256 {
        let first = read_piece(txn, table, into)?;
        return Ok((if first { 0 } else { 256 }, 256));
    }
    let (low, high) = into.split_at_mut(split as usize);
    let first = read_piece(txn, table, low)?;
    let second = read_piece(txn, table.wrapping_add(u32::from(split)), high)?;
    Ok((
        if first { 0 } else { split },
        if second { 256 } else { split },
    ))
}

/// The first byte whose entry wasn't read.
fn first_unknown(bytes: &[u8], from: u16, to: u16) -> Option<usize>
    ensures exact { result ≡ position (search.is_unknown from to) bytes.now }
    ensures within { IfSome result (λ i. i < length bytes.now) }
{
    bytes
        .iter()
        .position(|x| !(from <= u16::from(*x) && u16::from(*x) < to))
}

/// How many bytes go before the first whose entry wasn't read.
#[tactic(auto, using(vax_strpart::proofs::MarkLaws::end_of))]
fn known_len(bytes: &[u8], from: u16, to: u16) -> usize
    ensures exact { result ≡ position_or_len (search.is_unknown from to) bytes.now }
    ensures within { result ≤ length bytes.now }
{
    first_unknown(bytes, from, to).unwrap_or(bytes.len())
}

/// The first byte whose entry has a bit of the mask, or has none.
fn masked(bytes: &[u8], some: bool, entries: &[u8; 256], mask: u8) -> Option<usize>
    ensures exact { result ≡ position (search.is_masked_entry some entries.now mask) bytes.now }
    ensures within { IfSome result (λ i. i < length bytes.now) }
{
    if some {
        scan(bytes, entries, mask)
    } else {
        span(bytes, entries, mask)
    }
}

/// Whether an entry has a bit of the mask, or has none.
fn is_masked(some: bool, entry: u8, mask: u8) -> bool
    ensures { result ≡ search.is_masked some mask entry }
{
    if some {
        entry & mask != 0
    } else {
        entry & mask == 0
    }
}

/// The first byte, where the entry that is its own is found.
fn own_found(bytes: &[u8], found: bool) -> Option<usize>
    ensures exact { result ≡ position (λ byte. found) bytes.now }
    ensures within { IfSome result (λ i. i < length bytes.now) }
{
    bytes.iter().position(|_| found)
}

/// The end of a part of SCANC or SPANC that has one byte of the string, with its entry.
#[tactic(auto, using(vax_undo::proofs::Left::always), unfolding(vax_flat::specs::StringSearch::search_end))]
fn end_own<P: Port>(
    txn: &mut Txn<P>,
    some: bool,
    p: &Progress,
    entry: u8,
    bytes: &[u8],
) -> Result<Flow, CutShort>
    requires rest { length bytes.now ≤ p.now.len1 }
    requires room { 8 ≤ room txn.old }
    ensures exact { Does P.view P.trail
        (search.search_end (search.scanned p.now.table)
        (λ byte. search.is_masked some p.now.byte entry) p.now bytes.now)
        result txn.old txn.new }
    ensures keeps { KeepsUnlessDone P.view P.since 8 result txn.old txn.new }
{
    let whole = p.len1;
    let count = bytes.len() as u16;
    match own_found(bytes, is_masked(some, entry, p.byte)) {
        Some(i) => scan_at(
            txn,
            p.table,
            u32::from(whole - i as u16),
            p.addr1.wrapping_add(i as u32),
        ),
        None => {
            if count == whole {
                return scan_at(txn, p.table, 0, p.addr1.wrapping_add(u32::from(count)));
            }
            leave_rest(txn, &searched(p, count), u32::from(count))
        }
    }
}

/// The end of a part of SCANC or SPANC that has these bytes of the string.
#[tactic(auto, using(vax_undo::proofs::Left::always), unfolding(vax_flat::specs::StringSearch::search_end))]
fn end_scan<P: Port>(
    txn: &mut Txn<P>,
    some: bool,
    p: &Progress,
    entries: &[u8; 256],
    bytes: &[u8],
) -> Result<Flow, CutShort>
    requires rest { length bytes.now ≤ p.now.len1 }
    requires room { 8 ≤ room txn.old }
    ensures exact { Does P.view P.trail
        (search.search_end (search.scanned p.now.table)
        (search.is_masked_entry some entries.now p.now.byte) p.now bytes.now)
        result txn.old txn.new }
    ensures keeps { KeepsUnlessDone P.view P.since 8 result txn.old txn.new }
{
    let whole = p.len1;
    let count = bytes.len() as u16;
    match masked(bytes, some, entries, p.byte) {
        Some(i) => scan_at(
            txn,
            p.table,
            u32::from(whole - i as u16),
            p.addr1.wrapping_add(i as u32),
        ),
        None => {
            if count == whole {
                return scan_at(txn, p.table, 0, p.addr1.wrapping_add(u32::from(count)));
            }
            leave_rest(txn, &searched(p, count), u32::from(count))
        }
    }
}

/// A part of SCANC or SPANC that reads as many bytes as the buffer has.
#[tactic(auto, using(vax_undo::proofs::Left::behind), unfolding(vax_flat::specs::StringSearch::scan_run, vax_flat::specs::StringSearch::scan_end))]
fn scan_run<P: Port>(
    txn: &mut Txn<P>,
    some: bool,
    p: &Progress,
    buffer: &mut [u8],
    entries: &mut [u8; 256],
) -> Result<Flow, CutShort>
    requires any { 1 ≤ length buffer.old }
    requires rest { length buffer.old ≤ p.now.len1 }
    requires one_page { p.now.addr1 % 512 + length buffer.old ≤ 512 }
    requires room { 8 ≤ room txn.old }
    ensures exact { Does P.view P.trail (search.scan_run some p.now (length buffer.old))
        result txn.old txn.new }
    ensures keeps { KeepsUnlessDone P.view P.since 8 result txn.old txn.new }
{
    read_run(txn, p.addr1, buffer)?;
    let (from, to) = read_table(txn, p.table, entries)?;
    check(
        txn,
        p.table.wrapping_add(u32::from(buffer[0])),
        1,
        Access::Read,
    )?;
    let known = known_len(buffer, from, to);
    if known == 0 {
        let entry = read(txn, p.table.wrapping_add(u32::from(buffer[0])), 1)?;
        return end_own(txn, some, p, entry as u8, &buffer[..1]);
    }
    end_scan(txn, some, p, entries, &buffer[..known])
}

/// A part of SCANC or SPANC.
#[tactic(auto, using(vax_undo::proofs::Left::always), unfolding(vax_flat::specs::StringSearch::scan_part))]
pub(crate) fn scan_part<P: Port>(
    txn: &mut Txn<P>,
    some: bool,
    p: &Progress,
    buffer: &mut [u8; 512],
    entries: &mut [u8; 256],
) -> Result<Flow, CutShort>
    requires { 8 ≤ room txn.old }
    ensures exact { Does P.view P.trail (search.scan_part some p.now) result txn.old txn.new }
    ensures keeps { KeepsUnlessDone P.view P.since 8 result txn.old txn.new }
{
    if p.len1 == 0 {
        return scan_at(txn, p.table, 0, p.addr1);
    }
    scan_run(
        txn,
        some,
        p,
        &mut buffer[..search_room(p) as usize],
        entries,
    )
}
