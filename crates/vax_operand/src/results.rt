//! What instructions do with their results: they are written or pushed, codes are set, and a trap may follow.
ghost use Rattle.std.specs.Prelude.{◌≡◌, ◌^◌, ◌<◌, ◌≤◌, Ok};
ghost use Rattle.vax_word.specs.Arithmetic.{bytes_of};
ghost use Rattle.vax_flat.specs.Control.{jumped_if, looped};
ghost use Rattle.vax_flat.specs.Operand.{IsPlace};
ghost use Rattle.vax_flat.specs.Rows.{flow_of, settled, answered, pushed};
ghost use Rattle.vax_flat.specs.State.{with_conditions, overflow_enabled};
ghost use Rattle.vax_undo.specs.Transaction.{present, room, Keeps, Acts, Does, Updates};

use crate::access::store;
use crate::memory::write;
use vax_flat::{Flow, Operand, Trap};
use vax_undo::{CutShort, Port, Txn};
use vax_word::{Codes, Psl, Size};

/// Sets the condition codes.
#[inline(always)]
#[tactic(auto, using(vax_undo::proofs::FirstPart::codes_closed))]
pub fn set_codes<P: Port>(txn: &mut Txn<P>, codes: Codes)
    requires { 1 ≤ room txn.old }
    ensures exact { Updates P.view P.trail (λ s. with_conditions s codes) txn.old txn.new }
    ensures keeps { Keeps P.view P.since 1 txn.old txn.new }
{
    let psl = txn.psl().with_codes(codes);
    txn.set_psl(psl);
}

/// Whether an integer overflow traps.
#[inline(always)]
fn traps_overflow<P: Port>(txn: &Txn<P>) -> bool
    ensures { result ≡ overflow_enabled (present P.view txn.now).state }
{
    let Psl(bits) = txn.psl();
    bits >> 5 & 1 == 1
}

/// Sets the condition codes. A division by 0 traps then, and so does an overflow where that is enabled.
#[inline(always)]
#[tactic(auto, unfolding(vax_flat::specs::Rows::settled, vax_flat::specs::Rows::flow_of))]
pub fn settle<P: Port>(txn: &mut Txn<P>, by_zero: bool, codes: Codes) -> Result<Flow, CutShort>
    requires { 1 ≤ room txn.old }
    ensures exact { Does P.view P.trail (settled by_zero codes) result txn.old txn.new }
    ensures keeps { Keeps P.view P.since 1 txn.old txn.new }
{
    let flow = if by_zero {
        Flow::Trap(Trap::IntegerDivide)
    } else if codes.v && traps_overflow(txn) {
        Flow::Trap(Trap::IntegerOverflow)
    } else {
        Flow::Done
    };
    set_codes(txn, codes);
    Ok(flow)
}

/// Writes a result to its place, and sets its codes.
#[inline(always)]
#[tactic(auto, unfolding(vax_flat::specs::Rows::answered))]
pub fn answer<P: Port>(
    txn: &mut Txn<P>,
    size: Size,
    place: Operand,
    by_zero: bool,
    result_and_codes: (u64, Codes),
) -> Result<Flow, CutShort>
    requires place { IsPlace (bytes_of size) place }
    requires fits { result_and_codes.0 < 256 ^ bytes_of size }
    requires room { 3 ≤ room txn.old }
    ensures exact { Does P.view P.trail (answered (bytes_of size) place by_zero result_and_codes)
        result txn.old txn.new }
    ensures keeps { Keeps P.view P.since 3 txn.old txn.new }
{
    let (value, codes) = result_and_codes;
    store(txn, size, place, value)?;
    settle(txn, by_zero, codes)
}

/// Pushes a longword onto the stack in use.
#[inline(always)]
#[tactic(auto, unfolding(vax_flat::specs::Rows::pushed))]
pub fn push<P: Port>(txn: &mut Txn<P>, value: u32) -> Result<(), CutShort>
    requires { 2 ≤ room txn.old }
    ensures exact { Acts P.view P.trail (pushed value) result txn.old txn.new }
    ensures keeps { Keeps P.view P.since 2 txn.old txn.new }
{
    let top = txn.reg(14).wrapping_sub(4);
    write(txn, top, 4, value as u64)?;
    txn.set_reg(14, top);
    Ok(())
}

/// Lets control go on at the target, if a branch is taken.
#[inline(always)]
#[tactic(auto, unfolding(vax_flat::specs::Control::jumped_if))]
fn jump_if<P: Port>(txn: &mut Txn<P>, taken: bool, target: u32)
    requires { 1 ≤ room txn.old }
    ensures exact { Updates P.view P.trail (jumped_if taken target) txn.old txn.new }
    ensures keeps { Keeps P.view P.since 1 txn.old txn.new }
{
    if taken {
        txn.set_reg(15, target);
    }
}

/// Writes a loop's index, sets its codes but C, and lets control go on at the target or after the instruction.
#[inline(always)]
#[tactic(auto, unfolding(vax_flat::specs::Control::looped))]
pub(crate) fn go_on<P: Port>(
    txn: &mut Txn<P>,
    size: Size,
    place: Operand,
    index: (u64, Codes),
    taken: bool,
    target: u32,
) -> Result<Flow, CutShort>
    requires place { IsPlace (bytes_of size) place }
    requires fits { index.0 < 256 ^ bytes_of size }
    requires room { 4 ≤ room txn.old }
    ensures exact { Does P.view P.trail (looped size place index taken target)
        result txn.old txn.new }
    ensures keeps { Keeps P.view P.since 4 txn.old txn.new }
{
    let (value, codes) = index;
    store(txn, size, place, value)?;
    let codes = Codes {
        c: txn.psl().codes().c,
        ..codes
    };
    jump_if(txn, taken, target);
    settle(txn, false, codes)
}
