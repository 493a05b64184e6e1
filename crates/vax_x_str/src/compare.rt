//! CMPC3 and CMPC5.
ghost use Rattle.std.specs.Prelude.{◌≡◌, ◌+◌, ◌-◌, ◌<◌, ◌≤◌, length};
ghost use Rattle.vax_flat.specs.String as text;
ghost use Rattle.vax_flat.specs.StringCompare as comparison;
ghost use Rattle.vax_undo.specs.Transaction.{present, room, Keeps, KeepsUnlessDone, Acts, Does, Passes};

use crate::registers::{complete, leave_rest, low_registers};
use crate::run::read_span;
use vax_flat::{Flow, Rest};
use vax_operand::{check, read};
use vax_space::Access;
use vax_strpart::{Progress, compare};
use vax_undo::{CutShort, Port, Txn};
use vax_word::{Codes, Size};

/// The rest behind so many bytes.
fn behind(count: u16, rest: Rest) -> Rest
    ensures { result ≡ comparison.behind count rest }
{
    Rest {
        len: rest.len.saturating_sub(count),
        addr: rest.addr.wrapping_add(u32::from(count.min(rest.len))),
    }
}

/// What is left of the first string.
fn first_rest(p: &Progress) -> Rest
    ensures { result ≡ comparison.behind p.now.done (comparison.first_of p.now) }
{
    behind(
        p.done,
        Rest {
            len: p.len1,
            addr: p.addr1,
        },
    )
}

/// What is left of the second string.
fn second_rest(p: &Progress) -> Rest
    ensures { result ≡ comparison.behind p.now.done (comparison.second_of p.now) }
{
    behind(
        p.done,
        Rest {
            len: p.len2,
            addr: p.addr2,
        },
    )
}

/// Ends a comparison where the strings differ.
#[tactic(auto, unfolding(vax_flat::specs::StringCompare::differs))]
fn differ<P: Port>(txn: &mut Txn<P>, a: Rest, b: Rest, x: u8, y: u8) -> Result<Flow, CutShort>
    requires { 7 ≤ room txn.old }
    ensures exact { Does P.view P.trail (comparison.differs a b x y) result txn.old txn.new }
    ensures keeps { Keeps P.view P.since 7 txn.old txn.new }
{
    let old = low_registers(txn);
    let codes = vax_word::compare(Size::B, u64::from(x), u64::from(y));
    complete(
        txn,
        &[
            u32::from(a.len),
            a.addr,
            u32::from(b.len),
            b.addr,
            old[4],
            old[5],
        ],
        codes,
    )
}

/// Ends a comparison of strings that are equal.
#[tactic(auto, unfolding(vax_flat::specs::StringCompare::equals))]
fn be_equal<P: Port>(txn: &mut Txn<P>, a: Rest, b: Rest) -> Result<Flow, CutShort>
    requires { 7 ≤ room txn.old }
    ensures exact { Does P.view P.trail (comparison.equals a b) result txn.old txn.new }
    ensures keeps { Keeps P.view P.since 7 txn.old txn.new }
{
    let old = low_registers(txn);
    complete(
        txn,
        &[
            u32::from(a.len),
            a.addr,
            u32::from(b.len),
            b.addr,
            old[4],
            old[5],
        ],
        Codes {
            n: false,
            z: true,
            v: false,
            c: false,
        },
    )
}

/// How many bytes from an address lie in its page, or in another that is beside it; at most 512 count.
#[tactic(auto, unfolding(vax_flat::specs::String::room_up))]
pub(crate) fn room_up(addr: u32, page: u32) -> u16
    ensures exact { result ≡ text.room_up addr page }
    ensures some { 1 ≤ result }
    ensures few { result ≤ 512 }
{
    if page == addr / 512 + 1 {
        512
    } else {
        512 - (addr % 512) as u16
    }
}

/// The page of the first byte of what is left.
fn first_page(rest: Rest) -> u32
    ensures { result ≡ comparison.first_page rest }
{
    if rest.len == 0 {
        0x80_0001
    } else {
        rest.addr / 512
    }
}

/// How many pairs one string allows a part.
#[tactic(auto, unfolding(vax_flat::specs::StringCompare::string_room))]
fn string_room(rest: Rest, page: u32) -> u16
    ensures exact { result ≡ comparison.string_room rest page }
    ensures some { 1 ≤ result }
    ensures few { result ≤ 512 }
{
    let room = room_up(rest.addr, page);
    if rest.len <= room { 512 } else { room }
}

/// The pairs of a part.
#[tactic(auto, unfolding(vax_flat::specs::StringCompare::compare_room))]
fn compare_room(p: &Progress) -> u16
    requires { p.now.done < comparison.pairs_of p.now }
    ensures exact { result ≡ comparison.compare_room p.now }
    ensures some { 1 ≤ result }
    ensures few { result ≤ 512 }
    ensures within { result ≤ comparison.pairs_of p.now - p.now.done }
{
    let a = first_rest(p);
    let b = second_rest(p);
    let left = p.len1.max(p.len2) - p.done;
    left.min(512).min(string_room(a, first_page(b)).min(string_room(b, first_page(a))))
}

/// Reads as many bytes of a string as the buffer has, with the fill behind its end.
#[tactic(auto, unfolding(vax_flat::specs::StringCompare::filled_run))]
fn read_filled<P: Port>(
    txn: &mut Txn<P>,
    fill: u8,
    rest: Rest,
    into: &mut [u8],
) -> Result<(), CutShort>
    requires some { 1 ≤ length into.old }
    requires few { length into.old ≤ 512 }
    ensures exact { Passes P.view P.trail (comparison.filled_run fill (length into.old) rest)
        (λ next _. next into.new) result txn.old txn.new }
    ensures same { present P.view txn.new ≡ present P.view txn.old }
    ensures keeps { Keeps P.view P.since 0 txn.old txn.new }
{
    if rest.len == 0 {
        into.fill(fill);
        return Ok(());
    }
    let count = into.len().min(rest.len as usize);
    let (low, high) = into.split_at_mut(count);
    read_span(txn, rest.addr, low)?;
    high.fill(fill);
    Ok(())
}

/// Reads the first byte of what is left of a string, where something is left.
#[tactic(auto, unfolding(vax_flat::specs::StringCompare::first_read))]
fn read_first<P: Port>(txn: &mut Txn<P>, rest: Rest) -> Result<(), CutShort>
    ensures exact { Acts P.view P.trail (comparison.first_read rest) result txn.old txn.new }
    ensures same { present P.view txn.new ≡ present P.view txn.old }
    ensures keeps { Keeps P.view P.since 0 txn.old txn.new }
{
    if rest.len == 0 {
        return Ok(());
    }
    let _byte = read(txn, rest.addr, 1)?;
    Ok(())
}

/// Checks that the first byte of what is left of a string may be read, where something is left.
#[tactic(auto, unfolding(vax_flat::specs::StringCompare::first_checked))]
fn check_first<P: Port>(txn: &mut Txn<P>, rest: Rest) -> Result<(), CutShort>
    ensures exact { Acts P.view P.trail (comparison.first_checked rest) result txn.old txn.new }
    ensures same { present P.view txn.new ≡ present P.view txn.old }
    ensures keeps { Keeps P.view P.since 0 txn.old txn.new }
{
    if rest.len == 0 {
        return Ok(());
    }
    check(txn, rest.addr, 1, Access::Read)
}

/// The end of a part that has so many pairs of the strings.
#[tactic(auto, using(vax_undo::proofs::Left::always), unfolding(vax_flat::specs::StringCompare::compare_end))]
fn end_compare<P: Port>(
    txn: &mut Txn<P>,
    p: &Progress,
    a: Rest,
    b: Rest,
    xs: &[u8],
    ys: &[u8],
) -> Result<Flow, CutShort>
    requires equal { length xs.now ≡ length ys.now }
    requires few { length xs.now ≤ 512 }
    requires within { p.now.done + length xs.now ≤ comparison.pairs_of p.now }
    requires room { 8 ≤ room txn.old }
    ensures exact { Does P.view P.trail
        (comparison.compare_end p.now (length xs.now) a b xs.now ys.now)
        result txn.old txn.new }
    ensures keeps { KeepsUnlessDone P.view P.since 8 result txn.old txn.new }
{
    let pairs = p.len1.max(p.len2);
    let count = xs.len() as u16;
    match compare(xs, ys) {
        Some(i) => differ(txn, behind(i as u16, a), behind(i as u16, b), xs[i], ys[i]),
        None => {
            let done = p.done + count;
            if done == pairs {
                return be_equal(txn, behind(count, a), behind(count, b));
            }
            leave_rest(txn, &Progress { done, ..*p }, u32::from(count))
        }
    }
}

/// A part of a comparison that has as many pairs as the buffers have bytes.
#[tactic(auto, using(vax_undo::proofs::Left::behind), unfolding(vax_flat::specs::StringCompare::compare_run))]
fn compare_run<P: Port>(
    txn: &mut Txn<P>,
    p: &Progress,
    xs: &mut [u8],
    ys: &mut [u8],
) -> Result<Flow, CutShort>
    requires some { 1 ≤ length xs.old }
    requires few { length xs.old ≤ 512 }
    requires equal { length ys.old ≡ length xs.old }
    requires within { p.now.done + length xs.old ≤ comparison.pairs_of p.now }
    requires room { 8 ≤ room txn.old }
    ensures exact { Does P.view P.trail (comparison.compare_run p.now (length xs.old))
        result txn.old txn.new }
    ensures keeps { KeepsUnlessDone P.view P.since 8 result txn.old txn.new }
{
    let a = first_rest(p);
    let b = second_rest(p);
    read_first(txn, a)?;
    check_first(txn, b)?;
    read_filled(txn, p.byte, a, xs)?;
    read_filled(txn, p.byte, b, ys)?;
    end_compare(txn, p, a, b, xs, ys)
}

/// A part of a comparison.
#[tactic(auto, using(vax_undo::proofs::Left::always), unfolding(vax_flat::specs::StringCompare::compare_part))]
pub(crate) fn compare_part<P: Port>(
    txn: &mut Txn<P>,
    p: &Progress,
    first: &mut [u8; 512],
    second: &mut [u8; 512],
) -> Result<Flow, CutShort>
    requires room { 8 ≤ room txn.old }
    ensures exact { Does P.view P.trail (comparison.compare_part p.now) result txn.old txn.new }
    ensures keeps { KeepsUnlessDone P.view P.since 8 result txn.old txn.new }
{
    if p.len1.max(p.len2).saturating_sub(p.done) == 0 {
        return be_equal(txn, first_rest(p), second_rest(p));
    }
    let count = compare_room(p) as usize;
    compare_run(txn, p, &mut first[..count], &mut second[..count])
}
