//! One function for each shape of instruction, whoever carries it out.
ghost use Rattle.std.specs.Prelude.{◌≡◌, ◌^◌, ◌<◌, ◌≤◌, IfOk, OnErr, OnOk};
ghost use Rattle.vax_word.specs.Arithmetic.{extended_quotient};
ghost use Rattle.vax_isa.specs.Actions.{size_of};
ghost use Rattle.vax_flat.specs.Integer as integer;
ghost use Rattle.vax_operand.specs.Working.{Moves, Performs};

use crate::results::{answer_of, is_by_zero, of_one, of_two, rotated};
use vax_flat::{Flow, Trap};
use vax_isa::{Binary, Integer, Narrow, Unary};
use vax_operand::{CutShort, Worker};
use vax_word::{Codes, Size, add, ediv, emul, mul, shift, signed_less};

/// MOV, MCOM, MNEG, MOVZ, CVT.
#[inline(always)]
#[tactic(auto, unfolding(vax_flat::specs::Integer::unary))]
pub fn unary<W: Worker>(w: &mut W, operation: Unary, from: Size, to: Size) -> Result<Flow, CutShort>
    requires sound { W.sound w.old }
    requires room { 11 ≤ W.room w.old }
    ensures exact { Performs W.state W.reading W.stops W.holds (integer.unary operation from to)
        result w.old w.new }
    ensures moves { Moves W.holds W.room W.kept 11 w.old w.new }
    ensures holds { OnOk result (W.holds w.new) }
    ensures stays { OnErr result ((start : W) → W.stays start w.old → W.stays start w.new) }
    ensures follows { IfOk result W.follows }
{
    let x = w.value(from)?;
    let destination = w.place(to)?;
    let made = of_one(operation, from, to, x, w.codes().c);
    w.answered(to, destination, false, made)
}

/// ADDx2, SUBx2, MULx2, DIVx2, BISx2, BICx2, XORx2, ADWC, SBWC.
#[inline(always)]
#[tactic(auto, unfolding(vax_flat::specs::Integer::two))]
pub fn two<W: Worker>(w: &mut W, operation: Binary, size: Narrow) -> Result<Flow, CutShort>
    requires sound { W.sound w.old }
    requires room { 11 ≤ W.room w.old }
    ensures exact { Performs W.state W.reading W.stops W.holds (integer.two operation (size_of size))
        result w.old w.new }
    ensures moves { Moves W.holds W.room W.kept 11 w.old w.new }
    ensures holds { OnOk result (W.holds w.new) }
    ensures stays { OnErr result ((start : W) → W.stays start w.old → W.stays start w.new) }
    ensures follows { IfOk result W.follows }
{
    let a = w.value(size.into())?;
    let (place, b) = w.modified(size.into())?;
    let made = of_two(operation, size, a, b, w.codes().c);
    w.answered(size.into(), place, is_by_zero(operation, a), made)
}

/// ADDx3, SUBx3, MULx3, DIVx3, BISx3, BICx3, XORx3.
#[inline(always)]
#[tactic(auto, unfolding(vax_flat::specs::Integer::three))]
pub fn three<W: Worker>(w: &mut W, operation: Binary, size: Narrow) -> Result<Flow, CutShort>
    requires sound { W.sound w.old }
    requires room { 15 ≤ W.room w.old }
    ensures exact { Performs W.state W.reading W.stops W.holds (integer.three operation (size_of size))
        result w.old w.new }
    ensures moves { Moves W.holds W.room W.kept 15 w.old w.new }
    ensures holds { OnOk result (W.holds w.new) }
    ensures stays { OnErr result ((start : W) → W.stays start w.old → W.stays start w.new) }
    ensures follows { IfOk result W.follows }
{
    let a = w.value(size.into())?;
    let b = w.value(size.into())?;
    let destination = w.place(size.into())?;
    let made = of_two(operation, size, a, b, w.codes().c);
    w.answered(size.into(), destination, is_by_zero(operation, a), made)
}

/// INC, DEC.
#[inline(always)]
#[tactic(auto, unfolding(vax_flat::specs::Integer::by_one))]
pub fn by_one<W: Worker>(w: &mut W, operation: Binary, size: Narrow) -> Result<Flow, CutShort>
    requires sound { W.sound w.old }
    requires room { 7 ≤ W.room w.old }
    ensures exact { Performs W.state W.reading W.stops W.holds (integer.by_one operation (size_of size))
        result w.old w.new }
    ensures moves { Moves W.holds W.room W.kept 7 w.old w.new }
    ensures holds { OnOk result (W.holds w.new) }
    ensures stays { OnErr result ((start : W) → W.stays start w.old → W.stays start w.new) }
    ensures follows { IfOk result W.follows }
{
    let (place, b) = w.modified(size.into())?;
    let made = of_two(operation, size, 1, b, w.codes().c);
    w.answered(size.into(), place, is_by_zero(operation, 1), made)
}

/// CLR.
#[inline(always)]
#[tactic(auto, unfolding(vax_flat::specs::Integer::clear))]
pub fn clear<W: Worker>(w: &mut W, size: Size) -> Result<Flow, CutShort>
    requires sound { W.sound w.old }
    requires room { 7 ≤ W.room w.old }
    ensures exact { Performs W.state W.reading W.stops W.holds (integer.clear size)
        result w.old w.new }
    ensures moves { Moves W.holds W.room W.kept 7 w.old w.new }
    ensures holds { OnOk result (W.holds w.new) }
    ensures stays { OnErr result ((start : W) → W.stays start w.old → W.stays start w.new) }
    ensures follows { IfOk result W.follows }
{
    let destination = w.place(size)?;
    let made = answer_of(size, 0, false, w.codes().c);
    w.answered(size, destination, false, made)
}

/// TST.
#[inline(always)]
#[tactic(auto, unfolding(vax_flat::specs::Integer::test_value))]
pub fn test<W: Worker>(w: &mut W, size: Size) -> Result<Flow, CutShort>
    requires sound { W.sound w.old }
    requires room { 5 ≤ W.room w.old }
    ensures exact { Performs W.state W.reading W.stops W.holds (integer.test_value size)
        result w.old w.new }
    ensures moves { Moves W.holds W.room W.kept 5 w.old w.new }
    ensures holds { OnOk result (W.holds w.new) }
    ensures stays { OnErr result ((start : W) → W.stays start w.old → W.stays start w.new) }
    ensures follows { IfOk result W.follows }
{
    let x = w.value(size)?;
    w.settled(false, answer_of(size, x, false, false).1)
}

/// CMP.
#[inline(always)]
#[tactic(auto, unfolding(vax_flat::specs::Integer::compare))]
pub fn compare<W: Worker>(w: &mut W, size: Size) -> Result<Flow, CutShort>
    requires sound { W.sound w.old }
    requires room { 9 ≤ W.room w.old }
    ensures exact { Performs W.state W.reading W.stops W.holds (integer.compare size)
        result w.old w.new }
    ensures moves { Moves W.holds W.room W.kept 9 w.old w.new }
    ensures holds { OnOk result (W.holds w.new) }
    ensures stays { OnErr result ((start : W) → W.stays start w.old → W.stays start w.new) }
    ensures follows { IfOk result W.follows }
{
    let a = w.value(size)?;
    let b = w.value(size)?;
    w.settled(false, vax_word::compare(size, a, b))
}

/// BIT.
#[inline(always)]
#[tactic(auto, using(crate::proofs::Sizes::and_fits), unfolding(vax_flat::specs::Integer::bit_test))]
pub fn bit_test<W: Worker>(w: &mut W, size: Size) -> Result<Flow, CutShort>
    requires sound { W.sound w.old }
    requires room { 9 ≤ W.room w.old }
    ensures exact { Performs W.state W.reading W.stops W.holds (integer.bit_test size)
        result w.old w.new }
    ensures moves { Moves W.holds W.room W.kept 9 w.old w.new }
    ensures holds { OnOk result (W.holds w.new) }
    ensures stays { OnErr result ((start : W) → W.stays start w.old → W.stays start w.new) }
    ensures follows { IfOk result W.follows }
{
    let mask = w.value(size)?;
    let x = w.value(size)?;
    let made = answer_of(size, x & mask, false, w.codes().c);
    w.settled(false, made.1)
}

/// ASH.
#[inline(always)]
#[tactic(auto, using(crate::proofs::Sizes::signed_count), unfolding(vax_flat::specs::Integer::shift))]
pub fn shift_by<W: Worker>(w: &mut W, size: Size) -> Result<Flow, CutShort>
    requires sound { W.sound w.old }
    requires room { 15 ≤ W.room w.old }
    ensures exact { Performs W.state W.reading W.stops W.holds (integer.shift size)
        result w.old w.new }
    ensures moves { Moves W.holds W.room W.kept 15 w.old w.new }
    ensures holds { OnOk result (W.holds w.new) }
    ensures stays { OnErr result ((start : W) → W.stays start w.old → W.stays start w.new) }
    ensures follows { IfOk result W.follows }
{
    let count = w.value(Size::B)?;
    let x = w.value(size)?;
    let destination = w.place(size)?;
    let made = shift(size, (count as u8).cast_signed(), x);
    w.answered(size, destination, false, made)
}

/// ROTL.
#[inline(always)]
#[tactic(auto, unfolding(vax_flat::specs::Integer::rotate))]
pub fn rotate<W: Worker>(w: &mut W) -> Result<Flow, CutShort>
    requires sound { W.sound w.old }
    requires room { 15 ≤ W.room w.old }
    ensures exact { Performs W.state W.reading W.stops W.holds integer.rotate
        result w.old w.new }
    ensures moves { Moves W.holds W.room W.kept 15 w.old w.new }
    ensures holds { OnOk result (W.holds w.new) }
    ensures stays { OnErr result ((start : W) → W.stays start w.old → W.stays start w.new) }
    ensures follows { IfOk result W.follows }
{
    let count = w.value(Size::B)?;
    let x = w.value(Size::L)?;
    let destination = w.place(Size::L)?;
    let made = answer_of(Size::L, rotated(count, x), false, w.codes().c);
    w.answered(Size::L, destination, false, made)
}

/// MOVA.
#[inline(always)]
#[tactic(auto, unfolding(vax_flat::specs::Integer::move_address))]
pub fn move_address<W: Worker>(w: &mut W, size: Size) -> Result<Flow, CutShort>
    requires sound { W.sound w.old }
    requires room { 11 ≤ W.room w.old }
    ensures exact { Performs W.state W.reading W.stops W.holds (integer.move_address size)
        result w.old w.new }
    ensures moves { Moves W.holds W.room W.kept 11 w.old w.new }
    ensures holds { OnOk result (W.holds w.new) }
    ensures stays { OnErr result ((start : W) → W.stays start w.old → W.stays start w.new) }
    ensures follows { IfOk result W.follows }
{
    let addr = w.address(size)?;
    let destination = w.place(Size::L)?;
    let made = answer_of(Size::L, addr as u64, false, w.codes().c);
    w.answered(Size::L, destination, false, made)
}

/// A longword pushed as a result.
#[inline(always)]
#[tactic(auto, unfolding(vax_flat::specs::Integer::pushed_result, vax_word::specs::Arithmetic::answer))]
fn push_result<W: Worker>(w: &mut W, x: u32) -> Result<Flow, CutShort>
    requires room { 3 ≤ W.room w.old }
    ensures exact { Performs W.state W.reading W.stops W.holds (integer.pushed_result x)
        result w.old w.new }
    ensures moves { Moves W.holds W.room W.kept 3 w.old w.new }
    ensures holds { OnOk result (W.holds w.new) }
    ensures stays { OnErr result ((start : W) → W.stays start w.old → W.stays start w.new) }
    ensures follows { IfOk result W.follows }
{
    w.push(x)?;
    let made = answer_of(Size::L, x as u64, false, w.codes().c);
    Ok(w.complete(made.1))
}

/// PUSHA.
#[inline(always)]
#[tactic(auto, unfolding(vax_flat::specs::Integer::push_address))]
pub fn push_address<W: Worker>(w: &mut W, size: Size) -> Result<Flow, CutShort>
    requires sound { W.sound w.old }
    requires room { 7 ≤ W.room w.old }
    ensures exact { Performs W.state W.reading W.stops W.holds (integer.push_address size)
        result w.old w.new }
    ensures moves { Moves W.holds W.room W.kept 7 w.old w.new }
    ensures holds { OnOk result (W.holds w.new) }
    ensures stays { OnErr result ((start : W) → W.stays start w.old → W.stays start w.new) }
    ensures follows { IfOk result W.follows }
{
    let addr = w.address(size)?;
    push_result(w, addr)
}

/// PUSHL.
#[inline(always)]
#[tactic(auto, unfolding(vax_flat::specs::Integer::push))]
pub fn push_long<W: Worker>(w: &mut W) -> Result<Flow, CutShort>
    requires sound { W.sound w.old }
    requires room { 7 ≤ W.room w.old }
    ensures exact { Performs W.state W.reading W.stops W.holds integer.push
        result w.old w.new }
    ensures moves { Moves W.holds W.room W.kept 7 w.old w.new }
    ensures holds { OnOk result (W.holds w.new) }
    ensures stays { OnErr result ((start : W) → W.stays start w.old → W.stays start w.new) }
    ensures follows { IfOk result W.follows }
{
    let x = w.value(Size::L)?;
    push_result(w, x as u32)
}

/// EMUL.
#[inline(always)]
#[tactic(auto, using(crate::proofs::Sizes::product_fits), unfolding(vax_flat::specs::Integer::extended_multiply))]
pub fn extended_multiply<W: Worker>(w: &mut W) -> Result<Flow, CutShort>
    requires sound { W.sound w.old }
    requires room { 19 ≤ W.room w.old }
    ensures exact { Performs W.state W.reading W.stops W.holds integer.extended_multiply
        result w.old w.new }
    ensures moves { Moves W.holds W.room W.kept 19 w.old w.new }
    ensures holds { OnOk result (W.holds w.new) }
    ensures stays { OnErr result ((start : W) → W.stays start w.old → W.stays start w.new) }
    ensures follows { IfOk result W.follows }
{
    let a = w.value(Size::L)?;
    let b = w.value(Size::L)?;
    let addend = w.value(Size::L)?;
    let product = w.place(Size::Q)?;
    let made = emul(a as u32, b as u32, addend as u32);
    w.answered(Size::Q, product, false, made)
}

/// The quotient, and the remainder with the codes.
#[inline(always)]
fn divided(divisor: u64, dividend: u64) -> (u64, (u64, Codes))
    requires divisor { divisor < 256 ^ 4 }
    requires dividend { dividend < 256 ^ 8 }
    ensures exact { result ≡ (
      (extended_quotient divisor dividend).0,
      ((extended_quotient divisor dividend).1, (extended_quotient divisor dividend).2),
    ) }
    ensures quotient { result.0 < 256 ^ 4 }
    ensures remainder { result.1.0 < 256 ^ 4 }
{
    let (quotient, remainder, codes) = ediv(divisor as u32, dividend);
    (quotient as u64, (remainder as u64, codes))
}

/// EDIV.
#[inline(always)]
#[tactic(auto, unfolding(vax_flat::specs::Integer::extended_divide, vax_flat::specs::Rows::answered))]
pub fn extended_divide<W: Worker>(w: &mut W) -> Result<Flow, CutShort>
    requires sound { W.sound w.old }
    requires room { 21 ≤ W.room w.old }
    ensures exact { Performs W.state W.reading W.stops W.holds integer.extended_divide
        result w.old w.new }
    ensures moves { Moves W.holds W.room W.kept 21 w.old w.new }
    ensures holds { OnOk result (W.holds w.new) }
    ensures stays { OnErr result ((start : W) → W.stays start w.old → W.stays start w.new) }
    ensures follows { IfOk result W.follows }
{
    let divisor = w.value(Size::L)?;
    let dividend = w.value(Size::Q)?;
    let quotient = w.place(Size::L)?;
    let remainder = w.place(Size::L)?;
    let made = divided(divisor, dividend);
    w.store(Size::L, quotient, made.0)?;
    w.answered(Size::L, remainder, divisor == 0, made.1)
}

/// The index so far and the subscript added, times the size.
#[inline(always)]
#[tactic(auto, unfolding(vax_flat::specs::Integer::index_of))]
fn index_of(subscript: u64, size: u64, so_far: u64) -> u64
    requires subscript { subscript < 256 ^ 4 }
    requires size { size < 256 ^ 4 }
    requires so_far { so_far < 256 ^ 4 }
    ensures exact { result ≡ integer.index_of subscript size so_far }
    ensures fits { result < 256 ^ 4 }
{
    let sum = add(Size::L, so_far, subscript, false).0;
    mul(Size::L, sum, size).0
}

/// The trap of a subscript that is out of range.
#[inline]
#[tactic(auto, unfolding(vax_flat::specs::Integer::subscript_flow))]
fn subscript_flow(subscript: u64, low: u64, high: u64) -> Flow
    requires subscript { subscript < 256 ^ 4 }
    requires low { low < 256 ^ 4 }
    requires high { high < 256 ^ 4 }
    ensures { result ≡ integer.subscript_flow subscript low high }
{
    if signed_less(Size::L, subscript, low) || signed_less(Size::L, high, subscript) {
        Flow::Trap(Trap::SubscriptRange)
    } else {
        Flow::Done
    }
}

/// INDEX.
#[inline(always)]
#[tactic(auto, unfolding(vax_flat::specs::Integer::index))]
pub fn index<W: Worker>(w: &mut W) -> Result<Flow, CutShort>
    requires sound { W.sound w.old }
    requires room { 27 ≤ W.room w.old }
    ensures exact { Performs W.state W.reading W.stops W.holds integer.index
        result w.old w.new }
    ensures moves { Moves W.holds W.room W.kept 27 w.old w.new }
    ensures holds { OnOk result (W.holds w.new) }
    ensures stays { OnErr result ((start : W) → W.stays start w.old → W.stays start w.new) }
    ensures follows { IfOk result W.follows }
{
    let subscript = w.value(Size::L)?;
    let low = w.value(Size::L)?;
    let high = w.value(Size::L)?;
    let size = w.value(Size::L)?;
    let so_far = w.value(Size::L)?;
    let destination = w.place(Size::L)?;
    let value = index_of(subscript, size, so_far);
    w.store(Size::L, destination, value)?;
    let codes = answer_of(Size::L, value, false, false).1;
    w.end(codes, subscript_flow(subscript, low, high))
}

/// The instruction by its shape.
#[inline(always)]
#[tactic(auto, unfolding(vax_flat::specs::Integer::performed))]
pub fn perform<W: Worker>(w: &mut W, instruction: Integer) -> Result<Flow, CutShort>
    requires sound { W.sound w.old }
    requires room { 27 ≤ W.room w.old }
    ensures exact { Performs W.state W.reading W.stops W.holds (integer.performed instruction)
        result w.old w.new }
    ensures holds { OnOk result (W.holds w.new) }
    ensures moves { Moves W.holds W.room W.kept 27 w.old w.new }
    ensures stays { OnErr result ((start : W) → W.stays start w.old → W.stays start w.new) }
    ensures follows { IfOk result W.follows }
{
    match instruction {
        Integer::Unary {
            operation,
            from,
            to,
        } => unary(w, operation, from, to),
        Integer::Two { operation, size } => two(w, operation, size),
        Integer::Three { operation, size } => three(w, operation, size),
        Integer::ByOne { operation, size } => by_one(w, operation, size),
        Integer::Clear(size) => clear(w, size),
        Integer::Test(size) => test(w, size.into()),
        Integer::Compare(size) => compare(w, size.into()),
        Integer::BitTest(size) => bit_test(w, size.into()),
        Integer::Shift(size) => shift_by(w, size),
        Integer::Rotate => rotate(w),
        Integer::MoveAddress(size) => move_address(w, size),
        Integer::PushAddress(size) => push_address(w, size),
        Integer::Push => push_long(w),
        Integer::ExtendedMultiply => extended_multiply(w),
        Integer::ExtendedDivide => extended_divide(w),
        Integer::Index => index(w),
    }
}

/// The instruction by its shape, as one call.
#[inline(never)]
fn perform_any<W: Worker>(w: &mut W, instruction: Integer) -> Result<Flow, CutShort>
    requires sound { W.sound w.old }
    requires room { 27 ≤ W.room w.old }
    ensures exact { Performs W.state W.reading W.stops W.holds (integer.performed instruction)
        result w.old w.new }
    ensures holds { OnOk result (W.holds w.new) }
    ensures moves { Moves W.holds W.room W.kept 27 w.old w.new }
    ensures stays { OnErr result ((start : W) → W.stays start w.old → W.stays start w.new) }
    ensures follows { IfOk result W.follows }
{
    perform(w, instruction)
}

/// The instruction by its shape. The commonest have arms of their own and stand in the loop over instructions; the others are one call.
#[inline(always)]
#[tactic(auto, unfolding(vax_flat::specs::Integer::performed))]
pub(crate) fn perform_commonest<W: Worker>(
    w: &mut W,
    instruction: Integer,
) -> Result<Flow, CutShort>
    requires sound { W.sound w.old }
    requires room { 27 ≤ W.room w.old }
    ensures exact { Performs W.state W.reading W.stops W.holds (integer.performed instruction)
        result w.old w.new }
    ensures holds { OnOk result (W.holds w.new) }
    ensures moves { Moves W.holds W.room W.kept 27 w.old w.new }
    ensures stays { OnErr result ((start : W) → W.stays start w.old → W.stays start w.new) }
    ensures follows { IfOk result W.follows }
{
    match instruction {
        Integer::Unary {
            operation: Unary::Move,
            from: Size::L,
            to: Size::L,
        } => unary(w, Unary::Move, Size::L, Size::L),
        Integer::Two {
            operation: Binary::Add,
            size: Narrow::L,
        } => two(w, Binary::Add, Narrow::L),
        Integer::Two {
            operation: Binary::Subtract,
            size: Narrow::L,
        } => two(w, Binary::Subtract, Narrow::L),
        Integer::ByOne {
            operation: Binary::Add,
            size: Narrow::L,
        } => by_one(w, Binary::Add, Narrow::L),
        Integer::Compare(Narrow::L) => compare(w, Size::L),
        Integer::Test(Narrow::L) => test(w, Size::L),
        _ => perform_any(w, instruction),
    }
}
