//! One function for each shape of instruction.
ghost use Rattle.std.specs.Prelude.{◌≡◌, ◌+◌, ◌*◌, ◌^◌, ◌<◌, ◌≤◌};
ghost use Rattle.vax_flat.specs.Control.{jumped_if};
ghost use Rattle.vax_flat.specs.Field as field;
ghost use Rattle.vax_flat.specs.Field.{bits_of};
ghost use Rattle.vax_flat.specs.Operand.{IsBase};
ghost use Rattle.vax_flat.specs.Rows.{carry_of};
ghost use Rattle.vax_undo.specs.Transaction.{present, room, Keeps, Acts, Does, Updates};
ghost use Rattle.vax_x_field.specs.Fields.{IsHeld};

use crate::bits::{answer_of, before_first, part, widen, with_bit, with_part};
use crate::fields::{field_bits, held, holder_of, is_reserved, next_base, put};
use vax_flat::{Cut, Exception, Flow, Holder, Operand};
use vax_isa::{Field, Narrow};
use vax_operand::{answer, next_place, next_target, next_value, set_codes};
use vax_undo::{CutShort, Port, Txn};
use vax_word::{Codes, Size};

/// The carry as it is.
#[inline(always)]
fn carry<P: Port>(txn: &Txn<P>) -> bool
    ensures { result ≡ carry_of (present P.view txn.now).state }
{
    txn.psl().codes().c
}

/// EXTV, EXTZV.
#[inline(always)]
#[tactic(auto, unfolding(vax_flat::specs::Field::extract, vax_flat::specs::Field::extracted))]
fn extract<P: Port>(txn: &mut Txn<P>, signed: bool) -> Result<Flow, CutShort>
    requires { 19 ≤ room txn.old }
    ensures exact { Does P.view P.trail (field.extract signed) result txn.old txn.new }
    ensures keeps { Keeps P.view P.since 19 txn.old txn.new }
{
    let position = next_value(txn, Size::L)? as u32;
    let size = next_value(txn, Size::B)? as u8;
    let base = next_base(txn)?;
    let place = next_place(txn, Size::L)?;
    let bits = field_bits(txn, position, size, base)?;
    let made = answer_of(widen(signed, size, bits), carry(txn));
    answer(txn, Size::L, place, false, made)
}

/// CMPV, CMPZV.
#[tactic(auto, unfolding(vax_flat::specs::Field::compare, vax_flat::specs::Field::compared_field))]
fn compare<P: Port>(txn: &mut Txn<P>, signed: bool) -> Result<Flow, CutShort>
    requires { 17 ≤ room txn.old }
    ensures exact { Does P.view P.trail (field.compare signed) result txn.old txn.new }
    ensures keeps { Keeps P.view P.since 17 txn.old txn.new }
{
    let position = next_value(txn, Size::L)? as u32;
    let size = next_value(txn, Size::B)? as u8;
    let base = next_base(txn)?;
    let source = next_value(txn, Size::L)?;
    let bits = field_bits(txn, position, size, base)?;
    set_codes(
        txn,
        vax_word::compare(Size::L, widen(signed, size, bits), source),
    );
    Ok(Flow::Done)
}

/// FFS, FFC.
#[tactic(auto, using(crate::proofs::BitLaws::length_of), unfolding(vax_flat::specs::Field::find_first, vax_flat::specs::Field::found))]
fn find_first<P: Port>(txn: &mut Txn<P>, set: bool) -> Result<Flow, CutShort>
    requires { 19 ≤ room txn.old }
    ensures exact { Does P.view P.trail (field.find_first set) result txn.old txn.new }
    ensures keeps { Keeps P.view P.since 19 txn.old txn.new }
{
    let position = next_value(txn, Size::L)? as u32;
    let size = next_value(txn, Size::B)? as u8;
    let base = next_base(txn)?;
    let place = next_place(txn, Size::L)?;
    let bits = field_bits(txn, position, size, base)?;
    let before = before_first(set, size, bits);
    let codes = Codes {
        n: false,
        z: !(before < u32::from(size)),
        v: false,
        c: false,
    };
    let found = u64::from(position.wrapping_add(before));
    answer(txn, Size::L, place, false, (found, codes))
}

/// The field of INSV becomes the lowest bits of the source.
#[tactic(auto, using(vax_undo::proofs::Trail::over_trail_raises), unfolding(vax_flat::specs::Field::inserted, vax_flat::specs::Field::held, vax_flat::specs::Field::put))]
fn insert_bits<P: Port>(
    txn: &mut Txn<P>,
    source: u64,
    position: u32,
    size: u8,
    base: Operand,
) -> Result<Flow, CutShort>
    requires base { IsBase base }
    requires room { 2 ≤ room txn.old }
    ensures exact { Does P.view P.trail (field.inserted source position size base)
        result txn.old txn.new }
    ensures keeps { Keeps P.view P.since 2 txn.old txn.new }
{
    if is_reserved(position, size, base) {
        return Err(txn.cut(Cut::Event(Exception::Operand)));
    }
    if size == 0 {
        return Ok(Flow::Done);
    }
    let holder = holder_of(position, size, base);
    let bits = held(txn, holder)?;
    put(txn, holder, with_part(holder, bits, size, source))?;
    Ok(Flow::Done)
}

/// INSV.
#[tactic(auto, unfolding(vax_flat::specs::Field::insert))]
fn insert<P: Port>(txn: &mut Txn<P>) -> Result<Flow, CutShort>
    requires { 18 ≤ room txn.old }
    ensures exact { Does P.view P.trail field.insert result txn.old txn.new }
    ensures keeps { Keeps P.view P.since 18 txn.old txn.new }
{
    let source = next_value(txn, Size::L)?;
    let position = next_value(txn, Size::L)? as u32;
    let size = next_value(txn, Size::B)? as u8;
    let base = next_base(txn)?;
    insert_bits(txn, source, position, size, base)
}

/// Lets control go on at the target, if the branch is taken.
#[inline(always)]
#[tactic(auto, unfolding(vax_flat::specs::Control::jumped_if))]
fn jump_if<P: Port>(txn: &mut Txn<P>, taken: bool, target: u32)
    requires { 1 ≤ room txn.old }
    ensures exact { Updates P.view P.trail (jumped_if taken target) txn.old txn.new }
    ensures keeps { Keeps P.view P.since 1 txn.old txn.new }
{
    if taken {
        txn.set_reg(15, target);
    }
}

/// A bit becomes what is said, if anything is.
#[inline(always)]
#[tactic(auto, unfolding(vax_flat::specs::Field::becoming, vax_flat::specs::Field::put))]
fn becoming<P: Port>(
    txn: &mut Txn<P>,
    becomes: Option<bool>,
    holder: Holder,
    bits: u64,
) -> Result<(), CutShort>
    requires some { 1 ≤ holder.width }
    requires few { holder.width ≤ 8 }
    requires place { IsHeld holder.width holder.place }
    requires within { holder.first + 1 ≤ 8 * holder.width }
    requires first { holder.first < 32 }
    requires fits { bits < 256 ^ holder.width }
    requires room { 2 ≤ room txn.old }
    ensures exact { Acts P.view P.trail
        (field.becoming becomes holder (bits_of (8 * holder.width) bits))
        result txn.old txn.new }
    ensures keeps { Keeps P.view P.since 2 txn.old txn.new }
{
    match becomes {
        Some(bit) => put(txn, holder, with_bit(holder, bits, bit)),
        None => Ok(()),
    }
}

/// A bit is tested, becomes what is said, and control goes on at the target where the bit was so.
#[inline(always)]
#[tactic(auto, using(vax_undo::proofs::Trail::over_trail_raises), unfolding(vax_flat::specs::Field::branched_on, vax_flat::specs::Field::held))]
fn branch_on<P: Port>(
    txn: &mut Txn<P>,
    set: bool,
    becomes: Option<bool>,
    position: u32,
    base: Operand,
    target: u32,
) -> Result<Flow, CutShort>
    requires base { IsBase base }
    requires room { 3 ≤ room txn.old }
    ensures exact { Does P.view P.trail (field.branched_on set becomes position base target)
        result txn.old txn.new }
    ensures keeps { Keeps P.view P.since 3 txn.old txn.new }
{
    if is_reserved(position, 1, base) {
        return Err(txn.cut(Cut::Event(Exception::Operand)));
    }
    let holder = holder_of(position, 1, base);
    let bits = held(txn, holder)?;
    becoming(txn, becomes, holder, bits)?;
    jump_if(txn, part(holder, bits, 1) == u64::from(set), target);
    Ok(Flow::Done)
}

/// BBS, BBC, BBSS, BBCS, BBSC, BBCC, BBSSI, BBCCI.
#[tactic(auto, unfolding(vax_flat::specs::Field::branch))]
fn branch<P: Port>(txn: &mut Txn<P>, set: bool, becomes: Option<bool>) -> Result<Flow, CutShort>
    requires { 15 ≤ room txn.old }
    ensures exact { Does P.view P.trail (field.branch set becomes) result txn.old txn.new }
    ensures keeps { Keeps P.view P.since 15 txn.old txn.new }
{
    let position = next_value(txn, Size::L)? as u32;
    let base = next_base(txn)?;
    let target = next_target(txn, Narrow::B)?;
    branch_on(txn, set, becomes, position, base, target)
}

/// The instruction by its name.
#[inline]
#[tactic(auto, unfolding(vax_flat::specs::Field::performed))]
pub(crate) fn perform<P: Port>(txn: &mut Txn<P>, instruction: Field) -> Result<Flow, CutShort>
    requires { 19 ≤ room txn.old }
    ensures exact { Does P.view P.trail (field.performed instruction) result txn.old txn.new }
    ensures keeps { Keeps P.view P.since 19 txn.old txn.new }
{
    match instruction {
        Field::Extract { signed } => extract(txn, signed),
        Field::Compare { signed } => compare(txn, signed),
        Field::Insert => insert(txn),
        Field::FindFirst { set } => find_first(txn, set),
        Field::Branch { set, becomes } => branch(txn, set, becomes),
    }
}
