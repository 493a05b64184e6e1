//! Fields of bits: one function for each shape of instruction, which follows the shape's definition in `vax_flat`.
ghost use Rattle.std.specs.Prelude.{◌+◌, ◌*◌, ◌^◌, ◌<◌, ◌≤◌};
ghost use Rattle.vax_flat.specs.Field as field;
ghost use Rattle.vax_flat.specs.Field.{bits_of};
ghost use Rattle.vax_flat.specs.Operand.{IsBase};
ghost use Rattle.vax_x_field.specs.Fields.{IsHeld};
ghost use Rattle.vax_quick.specs.Made.{Acts, IsKept, IsSeen, Leaves, Makes, computer};

use crate::access::{next_place, next_value};
use crate::addresses::next_target;
use crate::bases::{bits_of_field, held, next_base, put};
use crate::control::jump_if;
use crate::results::answer;
use crate::window::Window;
use vax_flat::Holder;
use vax_isa::{Field, Narrow};
use vax_operand::Operand;
use vax_undo::Port;
use vax_word::{Codes, Core, Size};
use vax_x_field::{
    answer_of, before_first, holder_of, is_reserved, part, widen, with_bit, with_part,
};

/// EXTV, EXTZV.
#[inline(always)]
#[tactic(auto, unfolding(vax_flat::specs::Field::extract, vax_flat::specs::Field::extracted))]
fn extract<P: Port>(core: &mut Core, port: &mut P, window: Window, signed: bool) -> Option<()>
    requires window { IsSeen (P.view port.old) core.old window }
    ensures exact { Makes (field.extract signed) result
        (computer P.view core.old port.old) (computer P.view core.new port.new) }
    ensures leaves { Leaves P.since core.old port.old core.new port.new }
{
    let (position, window) = next_value(core, port, window, Size::L)?;
    let (size, window) = next_value(core, port, window, Size::B)?;
    let (base, window) = next_base(core, port, window)?;
    let (place, _) = next_place(core, port, window, Size::L)?;
    let size = size as u8;
    let bits = bits_of_field(core, port, position as u32, size, base)?;
    let made = answer_of(widen(signed, size, bits), core.psl.codes().c);
    answer(core, port, Size::L, place, false, made)
}

/// CMPV, CMPZV.
#[inline(always)]
#[tactic(auto, using(vax_undo::proofs::FirstPart::codes_closed), unfolding(vax_flat::specs::Field::compare, vax_flat::specs::Field::compared_field))]
fn compare<P: Port>(core: &mut Core, port: &mut P, window: Window, signed: bool) -> Option<()>
    requires window { IsSeen (P.view port.old) core.old window }
    ensures exact { Makes (field.compare signed) result
        (computer P.view core.old port.old) (computer P.view core.new port.new) }
    ensures leaves { Leaves P.since core.old port.old core.new port.new }
{
    let (position, window) = next_value(core, port, window, Size::L)?;
    let (size, window) = next_value(core, port, window, Size::B)?;
    let (base, window) = next_base(core, port, window)?;
    let (source, _) = next_value(core, port, window, Size::L)?;
    let size = size as u8;
    let bits = bits_of_field(core, port, position as u32, size, base)?;
    let codes = vax_word::compare(Size::L, widen(signed, size, bits), source);
    core.psl = core.psl.with_codes(codes);
    Some(())
}

/// FFS, FFC.
#[inline(always)]
#[tactic(auto, using(vax_x_field::proofs::BitLaws::length_of), unfolding(vax_flat::specs::Field::find_first, vax_flat::specs::Field::found))]
fn find_first<P: Port>(core: &mut Core, port: &mut P, window: Window, set: bool) -> Option<()>
    requires window { IsSeen (P.view port.old) core.old window }
    ensures exact { Makes (field.find_first set) result
        (computer P.view core.old port.old) (computer P.view core.new port.new) }
    ensures leaves { Leaves P.since core.old port.old core.new port.new }
{
    let (position, window) = next_value(core, port, window, Size::L)?;
    let (size, window) = next_value(core, port, window, Size::B)?;
    let (base, window) = next_base(core, port, window)?;
    let (place, _) = next_place(core, port, window, Size::L)?;
    let position = position as u32;
    let size = size as u8;
    let bits = bits_of_field(core, port, position, size, base)?;
    let before = before_first(set, size, bits);
    let codes = Codes {
        n: false,
        z: !(before < u32::from(size)),
        v: false,
        c: false,
    };
    let found = u64::from(position.wrapping_add(before));
    answer(core, port, Size::L, place, false, (found, codes))
}

/// The field of INSV becomes the lowest bits of the source.
#[inline(always)]
#[tactic(auto, unfolding(vax_flat::specs::Field::inserted, vax_flat::specs::Field::held, vax_flat::specs::Field::put))]
fn insert_bits<P: Port>(
    core: &mut Core,
    port: &mut P,
    source: u64,
    position: u32,
    size: u8,
    base: Operand,
) -> Option<()>
    requires base { IsBase base }
    ensures exact { Makes (field.inserted source position size base) result
        (computer P.view core.old port.old) (computer P.view core.new port.new) }
    ensures leaves { Leaves P.since core.old port.old core.new port.new }
{
    if is_reserved(position, size, base) {
        return None;
    }
    if size == 0 {
        return Some(());
    }
    let holder = holder_of(position, size, base);
    let bits = held(core, port, holder)?;
    put(core, port, holder, with_part(holder, bits, size, source))?;
    Some(())
}

/// INSV.
#[inline(always)]
#[tactic(auto, unfolding(vax_flat::specs::Field::insert))]
fn insert<P: Port>(core: &mut Core, port: &mut P, window: Window) -> Option<()>
    requires window { IsSeen (P.view port.old) core.old window }
    ensures exact { Makes field.insert result
        (computer P.view core.old port.old) (computer P.view core.new port.new) }
    ensures leaves { Leaves P.since core.old port.old core.new port.new }
{
    let (source, window) = next_value(core, port, window, Size::L)?;
    let (position, window) = next_value(core, port, window, Size::L)?;
    let (size, window) = next_value(core, port, window, Size::B)?;
    let (base, _) = next_base(core, port, window)?;
    insert_bits(core, port, source, position as u32, size as u8, base)
}

/// A bit becomes what is said, if anything is.
#[inline(always)]
#[tactic(auto, unfolding(vax_flat::specs::Field::becoming, vax_flat::specs::Field::put))]
fn becoming<P: Port>(
    core: &mut Core,
    port: &mut P,
    becomes: Option<bool>,
    holder: Holder,
    bits: u64,
) -> Option<()>
    requires some { 1 ≤ holder.width }
    requires few { holder.width ≤ 8 }
    requires place { IsHeld holder.width holder.place }
    requires within { holder.first + 1 ≤ 8 * holder.width }
    requires first { holder.first < 32 }
    requires fits { bits < 256 ^ holder.width }
    ensures exact { Acts (field.becoming becomes holder (bits_of (8 * holder.width) bits)) result
        (computer P.view core.old port.old) (computer P.view core.new port.new) }
    ensures kept { IsKept core.old core.new }
    ensures since { (start : P) → P.since start port.old → P.since start port.new }
{
    match becomes {
        Some(bit) => put(core, port, holder, with_bit(holder, bits, bit)),
        None => Some(()),
    }
}

/// A bit that a branch tests: whether it branches where the bit is set, what the bit becomes, its position from a base, and where control goes on.
#[derive(Clone, Copy)]
struct TestedBit {
    set: bool,
    becomes: Option<bool>,
    position: u32,
    base: Operand,
    target: u32,
}

/// A bit is tested, becomes what is said, and control goes on at the target where the bit was so.
#[inline(always)]
#[tactic(auto, unfolding(vax_flat::specs::Field::branched_on, vax_flat::specs::Field::held))]
fn branch_on<P: Port>(core: &mut Core, port: &mut P, bit: TestedBit) -> Option<()>
    requires base { IsBase bit.base }
    ensures exact { Makes
        (field.branched_on bit.set bit.becomes bit.position bit.base bit.target) result
        (computer P.view core.old port.old) (computer P.view core.new port.new) }
    ensures leaves { Leaves P.since core.old port.old core.new port.new }
{
    if is_reserved(bit.position, 1, bit.base) {
        return None;
    }
    let holder = holder_of(bit.position, 1, bit.base);
    let bits = held(core, port, holder)?;
    becoming(core, port, bit.becomes, holder, bits)?;
    let taken = part(holder, bits, 1) == u64::from(bit.set);
    jump_if(core, taken, bit.target);
    Some(())
}

/// BBS, BBC, BBSS, BBCS, BBSC, BBCC, BBSSI, BBCCI.
#[inline(always)]
#[tactic(auto, unfolding(vax_flat::specs::Field::branch))]
fn branch<P: Port>(
    core: &mut Core,
    port: &mut P,
    window: Window,
    set: bool,
    becomes: Option<bool>,
) -> Option<()>
    requires window { IsSeen (P.view port.old) core.old window }
    ensures exact { Makes (field.branch set becomes) result
        (computer P.view core.old port.old) (computer P.view core.new port.new) }
    ensures leaves { Leaves P.since core.old port.old core.new port.new }
{
    let (position, window) = next_value(core, port, window, Size::L)?;
    let (base, window) = next_base(core, port, window)?;
    let (target, _) = next_target(core, port, window, Narrow::B)?;
    let bit = TestedBit {
        set,
        becomes,
        position: position as u32,
        base,
        target,
    };
    branch_on(core, port, bit)
}

/// The instruction by its name.
#[inline(never)]
#[tactic(auto, unfolding(vax_flat::specs::Field::performed))]
pub(crate) fn perform<P: Port>(
    core: &mut Core,
    port: &mut P,
    window: Window,
    instruction: Field,
) -> Option<()>
    requires window { IsSeen (P.view port.old) core.old window }
    ensures exact { Makes (field.performed instruction) result
        (computer P.view core.old port.old) (computer P.view core.new port.new) }
    ensures leaves { Leaves P.since core.old port.old core.new port.new }
{
    match instruction {
        Field::Extract { signed } => extract(core, port, window, signed),
        Field::Compare { signed } => compare(core, port, window, signed),
        Field::Insert => insert(core, port, window),
        Field::FindFirst { set } => find_first(core, port, window, set),
        Field::Branch { set, becomes } => branch(core, port, window, set, becomes),
    }
}
