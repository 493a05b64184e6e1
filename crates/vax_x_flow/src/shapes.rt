//! One function for each shape of instruction, whoever carries it out.
ghost use Rattle.std.specs.Prelude.{◌≡◌, ◌^◌, ◌<◌, ◌≤◌, IfOk, OnErr, OnOk};
ghost use Rattle.vax_word.specs.Arithmetic.{bytes_of};
ghost use Rattle.vax_isa.specs.Actions.{size_of};
ghost use Rattle.vax_flat.specs.Control as control;
ghost use Rattle.vax_operand.specs.Working.{Becomes, Moves, Performs};

use crate::conditions::{compares, holds, within};
use vax_flat::Flow;
use vax_isa::{Condition, Control, Narrow, Relation};
use vax_operand::{CutShort, Worker, extend};
use vax_word::{Size, add, compare, sub};

/// Lets control go on at the target, if the branch is taken.
#[inline(always)]
#[tactic(auto, unfolding(vax_flat::specs::Control::jumped_if))]
fn jump_if<W: Worker>(w: &mut W, taken: bool, target: u32)
    requires holds { W.holds w.old }
    requires room { 1 ≤ W.room w.old }
    ensures exact { Becomes W.state W.reading (control.jumped_if taken target) w.old w.new }
    ensures holds { W.holds w.new }
    ensures moves { Moves W.holds W.room W.kept 1 w.old w.new }
{
    if taken {
        w.jump(target);
    }
}

/// BRB, BRW, and the branches on the condition codes.
#[inline(always)]
#[tactic(auto, unfolding(vax_flat::specs::Control::branch))]
pub fn branch<W: Worker>(w: &mut W, condition: Condition, size: Narrow) -> Result<Flow, CutShort>
    requires sound { W.sound w.old }
    requires room { 5 ≤ W.room w.old }
    ensures exact { Performs W.state W.reading W.stops W.holds (control.branch condition (size_of size))
        result w.old w.new }
    ensures holds { OnOk result (W.holds w.new) }
    ensures moves { Moves W.holds W.room W.kept 5 w.old w.new }
    ensures stays { OnErr result ((start : W) → W.stays start w.old → W.stays start w.new) }
    ensures follows { IfOk result W.follows }
{
    let target = w.target(size)?;
    let taken = holds(condition, w.codes());
    w.whole()?;
    jump_if(w, taken, target);
    Ok(w.finish())
}

/// Pushes PC, and lets control go on at the target.
#[inline(always)]
#[tactic(auto, unfolding(vax_flat::specs::Control::called))]
fn call<W: Worker>(w: &mut W, target: u32) -> Result<Flow, CutShort>
    requires room { 3 ≤ W.room w.old }
    ensures exact { Performs W.state W.reading W.stops W.holds (control.called target)
        result w.old w.new }
    ensures holds { OnOk result (W.holds w.new) }
    ensures moves { Moves W.holds W.room W.kept 3 w.old w.new }
    ensures stays { OnErr result ((start : W) → W.stays start w.old → W.stays start w.new) }
    ensures follows { IfOk result W.follows }
{
    let after = w.register(15);
    w.push(after)?;
    w.jump(target);
    Ok(w.finish())
}

/// BSBB, BSBW.
#[inline(always)]
#[tactic(auto, unfolding(vax_flat::specs::Control::branch_subroutine))]
pub fn branch_subroutine<W: Worker>(w: &mut W, size: Narrow) -> Result<Flow, CutShort>
    requires sound { W.sound w.old }
    requires room { 7 ≤ W.room w.old }
    ensures exact { Performs W.state W.reading W.stops W.holds (control.branch_subroutine (size_of size))
        result w.old w.new }
    ensures holds { OnOk result (W.holds w.new) }
    ensures moves { Moves W.holds W.room W.kept 7 w.old w.new }
    ensures stays { OnErr result ((start : W) → W.stays start w.old → W.stays start w.new) }
    ensures follows { IfOk result W.follows }
{
    let target = w.target(size)?;
    call(w, target)
}

/// JMP.
#[inline(always)]
#[tactic(auto, unfolding(vax_flat::specs::Control::jump))]
pub fn jump<W: Worker>(w: &mut W) -> Result<Flow, CutShort>
    requires sound { W.sound w.old }
    requires room { 5 ≤ W.room w.old }
    ensures exact { Performs W.state W.reading W.stops W.holds control.jump
        result w.old w.new }
    ensures holds { OnOk result (W.holds w.new) }
    ensures moves { Moves W.holds W.room W.kept 5 w.old w.new }
    ensures stays { OnErr result ((start : W) → W.stays start w.old → W.stays start w.new) }
    ensures follows { IfOk result W.follows }
{
    let target = w.address(Size::B)?;
    w.whole()?;
    w.jump(target);
    Ok(w.finish())
}

/// JSB.
#[inline(always)]
#[tactic(auto, unfolding(vax_flat::specs::Control::jump_subroutine))]
pub fn jump_subroutine<W: Worker>(w: &mut W) -> Result<Flow, CutShort>
    requires sound { W.sound w.old }
    requires room { 7 ≤ W.room w.old }
    ensures exact { Performs W.state W.reading W.stops W.holds control.jump_subroutine
        result w.old w.new }
    ensures holds { OnOk result (W.holds w.new) }
    ensures moves { Moves W.holds W.room W.kept 7 w.old w.new }
    ensures stays { OnErr result ((start : W) → W.stays start w.old → W.stays start w.new) }
    ensures follows { IfOk result W.follows }
{
    let target = w.address(Size::B)?;
    call(w, target)
}

/// RSB.
#[inline(always)]
#[tactic(auto, unfolding(vax_flat::specs::Control::return_subroutine))]
pub fn return_subroutine<W: Worker>(w: &mut W) -> Result<Flow, CutShort>
    requires room { 2 ≤ W.room w.old }
    ensures exact { Performs W.state W.reading W.stops W.holds control.return_subroutine
        result w.old w.new }
    ensures holds { OnOk result (W.holds w.new) }
    ensures moves { Moves W.holds W.room W.kept 2 w.old w.new }
    ensures stays { OnErr result ((start : W) → W.stays start w.old → W.stays start w.new) }
    ensures follows { IfOk result W.follows }
{
    let top = w.register(14);
    let target = w.read(top, 4)?;
    w.whole()?;
    w.set_register(14, top.wrapping_add(4));
    w.jump(target as u32);
    Ok(w.finish())
}

/// BLBS, BLBC.
#[inline(always)]
#[tactic(auto, unfolding(vax_flat::specs::Control::low_bit))]
pub fn low_bit<W: Worker>(w: &mut W, set: bool) -> Result<Flow, CutShort>
    requires sound { W.sound w.old }
    requires room { 9 ≤ W.room w.old }
    ensures exact { Performs W.state W.reading W.stops W.holds (control.low_bit set)
        result w.old w.new }
    ensures holds { OnOk result (W.holds w.new) }
    ensures moves { Moves W.holds W.room W.kept 9 w.old w.new }
    ensures stays { OnErr result ((start : W) → W.stays start w.old → W.stays start w.new) }
    ensures follows { IfOk result W.follows }
{
    let x = w.value(Size::L)?;
    let target = w.target(Narrow::B)?;
    let taken = if set { x % 2 == 1 } else { x % 2 == 0 };
    w.whole()?;
    jump_if(w, taken, target);
    Ok(w.finish())
}

/// AOBLSS, AOBLEQ.
#[inline(always)]
#[tactic(auto, unfolding(vax_flat::specs::Control::add_one))]
pub fn add_one<W: Worker>(w: &mut W, relation: Relation) -> Result<Flow, CutShort>
    requires sound { W.sound w.old }
    requires room { 16 ≤ W.room w.old }
    ensures exact { Performs W.state W.reading W.stops W.holds (control.add_one relation)
        result w.old w.new }
    ensures holds { OnOk result (W.holds w.new) }
    ensures moves { Moves W.holds W.room W.kept 16 w.old w.new }
    ensures stays { OnErr result ((start : W) → W.stays start w.old → W.stays start w.new) }
    ensures follows { IfOk result W.follows }
{
    let limit = w.value(Size::L)?;
    let (place, old) = w.modified(Size::L)?;
    let target = w.target(Narrow::B)?;
    let index = add(Size::L, old, 1, false);
    let taken = compares(relation, index.0, limit);
    w.looped(Size::L, place, index, taken, target)
}

/// SOBGEQ, SOBGTR.
#[inline(always)]
#[tactic(auto, unfolding(vax_flat::specs::Control::subtract_one))]
pub fn subtract_one<W: Worker>(w: &mut W, relation: Relation) -> Result<Flow, CutShort>
    requires sound { W.sound w.old }
    requires room { 12 ≤ W.room w.old }
    ensures exact { Performs W.state W.reading W.stops W.holds (control.subtract_one relation)
        result w.old w.new }
    ensures holds { OnOk result (W.holds w.new) }
    ensures moves { Moves W.holds W.room W.kept 12 w.old w.new }
    ensures stays { OnErr result ((start : W) → W.stays start w.old → W.stays start w.new) }
    ensures follows { IfOk result W.follows }
{
    let (place, old) = w.modified(Size::L)?;
    let target = w.target(Narrow::B)?;
    let index = sub(Size::L, old, 1, false);
    let taken = compares(relation, index.0, 0);
    w.looped(Size::L, place, index, taken, target)
}

/// ACB.
#[inline(always)]
#[tactic(auto, unfolding(vax_flat::specs::Control::add_compare))]
pub fn add_compare<W: Worker>(w: &mut W, size: Size) -> Result<Flow, CutShort>
    requires sound { W.sound w.old }
    requires room { 20 ≤ W.room w.old }
    ensures exact { Performs W.state W.reading W.stops W.holds (control.add_compare size)
        result w.old w.new }
    ensures holds { OnOk result (W.holds w.new) }
    ensures moves { Moves W.holds W.room W.kept 20 w.old w.new }
    ensures stays { OnErr result ((start : W) → W.stays start w.old → W.stays start w.new) }
    ensures follows { IfOk result W.follows }
{
    let limit = w.value(size)?;
    let addend = w.value(size)?;
    let (place, old) = w.modified(size)?;
    let target = w.target(Narrow::W)?;
    let index = add(size, old, addend, false);
    let taken = within(size, addend, limit, index.0);
    w.looped(size, place, index, taken, target)
}

/// Lets control go on by the displacement at a place of the table behind PC, or behind the table where the place is above the limit.
#[inline(always)]
#[tactic(auto, unfolding(vax_flat::specs::Control::chosen, vax_word::specs::Arithmetic::compared))]
fn choose<W: Worker>(w: &mut W, size: Narrow, place: u64, limit: u64) -> Result<Flow, CutShort>
    requires place { place < 256 ^ bytes_of (size_of size) }
    requires limit { limit < 256 ^ bytes_of (size_of size) }
    requires room { 2 ≤ W.room w.old }
    ensures exact { Performs W.state W.reading W.stops W.holds (control.chosen (size_of size) place limit)
        result w.old w.new }
    ensures holds { OnOk result (W.holds w.new) }
    ensures moves { Moves W.holds W.room W.kept 2 w.old w.new }
    ensures stays { OnErr result ((start : W) → W.stays start w.old → W.stays start w.new) }
    ensures follows { IfOk result W.follows }
{
    let table = w.register(15);
    let codes = compare(size.into(), place, limit);
    if place > limit {
        let after = (limit as u32).wrapping_mul(2).wrapping_add(2);
        w.whole()?;
        w.jump(table.wrapping_add(after));
        return Ok(w.complete(codes));
    }
    let entry = table.wrapping_add((place as u32).wrapping_mul(2));
    let displacement = extend(2, w.read(entry, 2)?);
    w.whole()?;
    w.jump(table.wrapping_add(displacement));
    Ok(w.complete(codes))
}

/// CASE.
#[inline(always)]
#[tactic(auto, unfolding(vax_flat::specs::Control::case_of))]
pub fn case_of<W: Worker>(w: &mut W, size: Narrow) -> Result<Flow, CutShort>
    requires sound { W.sound w.old }
    requires room { 14 ≤ W.room w.old }
    ensures exact { Performs W.state W.reading W.stops W.holds (control.case_of (size_of size))
        result w.old w.new }
    ensures holds { OnOk result (W.holds w.new) }
    ensures moves { Moves W.holds W.room W.kept 14 w.old w.new }
    ensures stays { OnErr result ((start : W) → W.stays start w.old → W.stays start w.new) }
    ensures follows { IfOk result W.follows }
{
    let selector = w.value(size.into())?;
    let base = w.value(size.into())?;
    let limit = w.value(size.into())?;
    let place = sub(size.into(), selector, base, false).0;
    choose(w, size, place, limit)
}

/// The instruction by its shape.
#[inline(always)]
#[tactic(auto, unfolding(vax_flat::specs::Control::performed))]
pub fn perform<W: Worker>(w: &mut W, instruction: Control) -> Result<Flow, CutShort>
    requires sound { W.sound w.old }
    requires room { 20 ≤ W.room w.old }
    ensures exact { Performs W.state W.reading W.stops W.holds (control.performed instruction)
        result w.old w.new }
    ensures holds { OnOk result (W.holds w.new) }
    ensures moves { Moves W.holds W.room W.kept 20 w.old w.new }
    ensures stays { OnErr result ((start : W) → W.stays start w.old → W.stays start w.new) }
    ensures follows { IfOk result W.follows }
{
    match instruction {
        Control::Branch { condition, size } => branch(w, condition, size),
        Control::BranchSubroutine(size) => branch_subroutine(w, size),
        Control::Jump => jump(w),
        Control::JumpSubroutine => jump_subroutine(w),
        Control::Return => return_subroutine(w),
        Control::LowBit { set } => low_bit(w, set),
        Control::AddOne(relation) => add_one(w, relation),
        Control::SubtractOne(relation) => subtract_one(w, relation),
        Control::AddCompare(size) => add_compare(w, size.into()),
        Control::Case(size) => case_of(w, size),
    }
}

/// The instruction by its shape, as one call.
#[inline(never)]
fn perform_any<W: Worker>(w: &mut W, instruction: Control) -> Result<Flow, CutShort>
    requires sound { W.sound w.old }
    requires room { 20 ≤ W.room w.old }
    ensures exact { Performs W.state W.reading W.stops W.holds (control.performed instruction)
        result w.old w.new }
    ensures holds { OnOk result (W.holds w.new) }
    ensures moves { Moves W.holds W.room W.kept 20 w.old w.new }
    ensures stays { OnErr result ((start : W) → W.stays start w.old → W.stays start w.new) }
    ensures follows { IfOk result W.follows }
{
    perform(w, instruction)
}

/// The instruction by its shape. The commonest have arms of their own and stand in the loop over instructions; the others are one call.
#[inline(always)]
#[tactic(auto, unfolding(vax_flat::specs::Control::performed))]
pub(crate) fn perform_commonest<W: Worker>(
    w: &mut W,
    instruction: Control,
) -> Result<Flow, CutShort>
    requires sound { W.sound w.old }
    requires room { 20 ≤ W.room w.old }
    ensures exact { Performs W.state W.reading W.stops W.holds (control.performed instruction)
        result w.old w.new }
    ensures holds { OnOk result (W.holds w.new) }
    ensures moves { Moves W.holds W.room W.kept 20 w.old w.new }
    ensures stays { OnErr result ((start : W) → W.stays start w.old → W.stays start w.new) }
    ensures follows { IfOk result W.follows }
{
    match instruction {
        Control::Branch {
            condition,
            size: Narrow::B,
        } => branch(w, condition, Narrow::B),
        Control::BranchSubroutine(Narrow::B) => branch_subroutine(w, Narrow::B),
        Control::Return => return_subroutine(w),
        Control::SubtractOne(relation) => subtract_one(w, relation),
        _ => perform_any(w, instruction),
    }
}
