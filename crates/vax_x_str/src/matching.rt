//! MATCHC.
ghost use Rattle.std.specs.Prelude.{◌≡◌, ◌<◌, ◌≤◌, ◌==◌, ◌&&◌, nat_le, not, IfOk};
ghost use Rattle.vax_flat.specs.StringMatch as matching;
ghost use Rattle.vax_undo.specs.Transaction.{present, room, Keeps, KeepsUnlessDone, Does};

use crate::registers::{complete, leave_rest, low_registers};
use vax_flat::Flow;
use vax_operand::read;
use vax_strpart::Progress;
use vax_undo::{CutShort, Port, Txn};
use vax_word::Codes;

/// Z where the object was found.
fn match_codes(found: bool) -> Codes
    ensures { result ≡ matching.match_codes found }
{
    Codes {
        n: false,
        z: found,
        v: false,
        c: false,
    }
}

/// Ends a match whose object stands at the present place.
#[tactic(auto, unfolding(vax_flat::specs::StringMatch::matched))]
fn be_matched<P: Port>(txn: &mut Txn<P>, p: &Progress) -> Result<Flow, CutShort>
    requires fits { p.now.len1 ≤ p.now.len2 }
    requires room { 7 ≤ room txn.old }
    ensures exact { Does P.view P.trail (matching.matched p.now) result txn.old txn.new }
    ensures keeps { Keeps P.view P.since 7 txn.old txn.new }
{
    let old = low_registers(txn);
    let len = u32::from(p.len1);
    let low = [
        0,
        p.addr1.wrapping_add(len),
        u32::from(p.len2 - p.len1),
        p.addr2.wrapping_add(len),
        old[4],
        old[5],
    ];
    complete(txn, &low, match_codes(true))
}

/// Ends a match whose object stands nowhere in the string.
#[tactic(auto, unfolding(vax_flat::specs::StringMatch::unmatched))]
fn be_unmatched<P: Port>(txn: &mut Txn<P>, p: &Progress) -> Result<Flow, CutShort>
    requires { 7 ≤ room txn.old }
    ensures exact { Does P.view P.trail (matching.unmatched p.now) result txn.old txn.new }
    ensures keeps { Keeps P.view P.since 7 txn.old txn.new }
{
    let old = low_registers(txn);
    let low = [
        u32::from(p.len1),
        p.addr1,
        0,
        p.addr2.wrapping_add(u32::from(p.len2)),
        old[4],
        old[5],
    ];
    complete(txn, &low, match_codes(false))
}

/// Ends a part that made so many units, of which this remains.
#[tactic(auto, using(vax_undo::proofs::Left::always))]
fn end_match<P: Port>(txn: &mut Txn<P>, p: &Progress, units: u32) -> Result<Flow, CutShort>
    requires { 8 ≤ room txn.old }
    ensures exact { Does P.view P.trail (matching.match_end p.now units) result txn.old txn.new }
    ensures keeps { KeepsUnlessDone P.view P.since 8 result txn.old txn.new }
{
    if p.len2 < p.len1 {
        return be_unmatched(txn, p);
    }
    if p.done == p.len1 {
        return be_matched(txn, p);
    }
    leave_rest(txn, p, units)
}

/// The match at the next place of the string.
fn at_next_place(p: &Progress) -> Progress
    requires { 1 ≤ p.now.len2 }
    ensures { result ≡ matching.at_next_place p.now }
{
    Progress {
        len2: p.len2 - 1,
        addr2: p.addr2.wrapping_add(1),
        done: 0,
        ..*p
    }
}

/// Compares one byte of the object. Answers what remains.
#[tactic(auto, unfolding(vax_flat::specs::StringMatch::match_unit))]
fn compare_one<P: Port>(txn: &mut Txn<P>, p: &Progress) -> Result<Progress, CutShort>
    requires some { p.now.done < p.now.len1 }
    requires fits { p.now.len1 ≤ p.now.len2 }
    ensures exact { Does P.view P.trail (matching.match_unit p.now) result txn.old txn.new }
    ensures done { IfOk result (λ rest. rest.done ≤ rest.len1) }
    ensures same { present P.view txn.new ≡ present P.view txn.old }
    ensures keeps { Keeps P.view P.since 0 txn.old txn.new }
{
    let done = u32::from(p.done);
    let x = read(txn, p.addr1.wrapping_add(done), 1)?;
    let y = read(txn, p.addr2.wrapping_add(done), 1)?;
    if x == y {
        Ok(Progress {
            done: p.done + 1,
            ..*p
        })
    } else {
        Ok(at_next_place(p))
    }
}

/// Whether the next two bytes lie in these pages.
fn is_near(p: &Progress, first: u32, second: u32) -> bool
    ensures { result ≡ matching.is_near first second p.now }
{
    let done = u32::from(p.done);
    let a = p.addr1.wrapping_add(done) / 512;
    let b = p.addr2.wrapping_add(done) / 512;
    (a == first || a == second) && (b == first || b == second)
}

/// Whether a unit remains, and lies in these pages.
fn has_unit(p: &Progress, first: u32, second: u32) -> bool
    ensures { result ≡ (nat_le p.now.len1 p.now.len2 && (not (p.now.done == p.now.len1)
        && matching.is_near first second p.now)) }
{
    p.len1 <= p.len2 && p.done != p.len1 && is_near(p, first, second)
}

/// A part of a match that makes at most 512 units, all in these pages.
fn match_within<P: Port>(
    txn: &mut Txn<P>,
    p: &Progress,
    first: u32,
    second: u32,
) -> Result<Flow, CutShort>
    requires done { p.now.done ≤ p.now.len1 }
    requires room { 8 ≤ room txn.old }
    ensures exact { Does P.view P.trail (matching.match_on 512 0 first second p.now)
        result txn.old txn.new }
    ensures keeps { KeepsUnlessDone P.view P.since 8 result txn.old txn.new }
{
    let mut rest = *p;
    let mut units = 0;
    while units < 512 && has_unit(&rest, first, second) {
        rest = compare_one(txn, &rest)?;
        units += 1;
    }
    end_match(txn, &rest, units)
}

/// A part of a match, in the pages of its first unit.
#[tactic(auto, unfolding(vax_flat::specs::StringMatch::match_part))]
pub(crate) fn match_part<P: Port>(txn: &mut Txn<P>, p: &Progress) -> Result<Flow, CutShort>
    requires done { p.now.done ≤ p.now.len1 }
    requires room { 8 ≤ room txn.old }
    ensures exact { Does P.view P.trail (matching.match_part p.now) result txn.old txn.new }
    ensures keeps { KeepsUnlessDone P.view P.since 8 result txn.old txn.new }
{
    let done = u32::from(p.done);
    let first = p.addr1.wrapping_add(done) / 512;
    let second = p.addr2.wrapping_add(done) / 512;
    match_within(txn, p, first, second)
}
