//! Longwords and registers on the stack.
ghost use Rattle.std.specs.Prelude.{◌≡◌, ◌<◌, ◌≤◌, ◌∷◌, []};
ghost use Rattle.vax_flat.specs.Call.{frame, linked, named, pushed_below, pushed_one, restored, saved};
ghost use Rattle.vax_flat.specs.Operand.{write_at};
ghost use Rattle.vax_undo.specs.Transaction.{room, Keeps, Acts, Does};
ghost use Rattle.vax_word.specs.Status.{is_one};
ghost use Rattle.vax_x_call.specs.Stack.{links_pushed, links_restored, restored_if, saved_if};

use vax_flat::Cut;
use vax_operand::read;
use vax_undo::{CutShort, Port, Txn};

/// Writes a longword. With the width known it takes three quarters of what [`vax_operand::write`] does.
#[inline(never)]
#[tactic(auto, unfolding(vax_undo::specs::Trail::over_trail, vax_flat::specs::Operand::write_at))]
fn write_long<P: Port>(txn: &mut Txn<P>, addr: u32, value: u32) -> Result<(), CutShort>
    requires { 1 ≤ room txn.old }
    ensures exact { Acts P.view P.trail (write_at addr 4 value) result txn.old txn.new }
    ensures keeps { Keeps P.view P.since 1 txn.old txn.new }
{
    let mode = txn.psl().mode();
    match txn.write(addr, 4, u64::from(value), mode) {
        Ok(()) => Ok(()),
        Err(stop) => Err(txn.cut(Cut::from(stop))),
    }
}

/// Pushes a longword just below an address, and gives its address.
#[inline(always)]
#[tactic(auto, unfolding(vax_flat::specs::Call::pushed_one))]
pub(crate) fn push_below<P: Port>(txn: &mut Txn<P>, value: u32, top: u32) -> Result<u32, CutShort>
    requires { 1 ≤ room txn.old }
    ensures exact { Does P.view P.trail (pushed_one value top) result txn.old txn.new }
    ensures keeps { Keeps P.view P.since 1 txn.old txn.new }
{
    let at = top.wrapping_sub(4);
    write_long(txn, at, value)?;
    Ok(at)
}

/// Pops a register's value from an address, and gives the address behind.
#[inline(always)]
#[tactic(auto, unfolding(vax_flat::specs::Call::restored, vax_flat::specs::Call::popped_from))]
fn restore_one<P: Port>(txn: &mut Txn<P>, n: u8, from: u32) -> Result<u32, CutShort>
    requires of_core { n < 16 }
    requires room { 1 ≤ room txn.old }
    ensures exact { Does P.view P.trail (restored (n ∷ []) from) result txn.old txn.new }
    ensures keeps { Keeps P.view P.since 1 txn.old txn.new }
{
    let value = read(txn, from, 4)?;
    txn.set_reg(n, value as u32);
    Ok(from.wrapping_add(4))
}

/// Pushes a register just below an address, if a mask names it, and gives the address of what was pushed last.
#[inline(always)]
fn save_if<P: Port>(txn: &mut Txn<P>, mask: u32, n: u8, top: u32) -> Result<u32, CutShort>
    requires of_core { n < 16 }
    requires room { 1 ≤ room txn.old }
    ensures exact { Does P.view P.trail (saved_if (is_one mask n) n top) result txn.old txn.new }
    ensures keeps { Keeps P.view P.since 1 txn.old txn.new }
{
    if (mask >> n) % 2 == 1 {
        push_below(txn, txn.reg(n), top)
    } else {
        Ok(top)
    }
}

/// Pops a register from an address, if a mask names it, and gives the address behind what was popped last.
#[inline(always)]
fn restore_if<P: Port>(txn: &mut Txn<P>, mask: u32, n: u8, from: u32) -> Result<u32, CutShort>
    requires of_core { n < 16 }
    requires room { 1 ≤ room txn.old }
    ensures exact { Does P.view P.trail (restored_if (is_one mask n) n from)
        result txn.old txn.new }
    ensures keeps { Keeps P.view P.since 1 txn.old txn.new }
{
    if (mask >> n) % 2 == 1 {
        restore_one(txn, n, from)
    } else {
        Ok(from)
    }
}

/// A number from which on, up to another, a mask names no register. Few registers are named as a rule, and those are low ones.
#[inline(always)]
pub fn end_of_named(mask: u32, count: u8) -> u8
    requires { count ≤ 15 }
    ensures named { named result mask ≡ named count mask }
    ensures within { result ≤ count }
{
    if count > 4 && mask / 0x10 % 0x800 == 0 {
        4
    } else if count > 8 && mask / 0x100 % 0x80 == 0 {
        8
    } else {
        count
    }
}

/// Pushes the registers below a number that a mask names, from the highest down, the first just below an address. Gives the address of
/// the last.
pub(crate) fn save<P: Port>(
    txn: &mut Txn<P>,
    mask: u32,
    count: u8,
    top: u32,
) -> Result<u32, CutShort>
    requires of_core { count ≤ 15 }
    requires room { count ≤ room txn.old }
    ensures exact { Does P.view P.trail (saved (named count mask) top) result txn.old txn.new }
    ensures keeps { Keeps P.view P.since count txn.old txn.new }
{
    let mut at = top;
    let mut n = end_of_named(mask, count);
    while n > 0 {
        n -= 1;
        at = save_if(txn, mask, n, at)?;
    }
    Ok(at)
}

/// Pops the registers below a number that a mask names, from R0 up, the first at an address. Gives the address behind the last.
pub(crate) fn restore<P: Port>(
    txn: &mut Txn<P>,
    mask: u32,
    count: u8,
    from: u32,
) -> Result<u32, CutShort>
    requires of_core { count ≤ 15 }
    requires room { count ≤ room txn.old }
    ensures exact { Does P.view P.trail (restored (named count mask) from) result txn.old txn.new }
    ensures keeps { Keeps P.view P.since count txn.old txn.new }
{
    let mut at = from;
    let end = end_of_named(mask, count);
    let mut n = 0;
    while n < end {
        at = restore_if(txn, mask, n, at)?;
        n += 1;
    }
    Ok(at)
}

/// Pushes the registers that a mask names, PC, FP, AP, and two longwords.
#[inline]
fn push_links<P: Port>(txn: &mut Txn<P>, mask: u32, word: u32, top: u32) -> Result<u32, CutShort>
    requires { 17 ≤ room txn.old }
    ensures exact { Does P.view P.trail (links_pushed mask word top) result txn.old txn.new }
    ensures keeps { Keeps P.view P.since 17 txn.old txn.new }
{
    let (ap, fp, pc) = (txn.reg(12), txn.reg(13), txn.reg(15));
    let at = save(txn, mask, 12, top)?;
    let at = push_below(txn, pc, at)?;
    let at = push_below(txn, fp, at)?;
    let at = push_below(txn, ap, at)?;
    let at = push_below(txn, word, at)?;
    push_below(txn, 0, at)
}

/// Pushes a frame just below an address: its registers, the longword that says how it was made, and one for a condition handler. Gives the
/// address of the last.
pub(crate) fn push_frame<P: Port>(
    txn: &mut Txn<P>,
    mask: u32,
    word: u32,
    top: u32,
) -> Result<u32, CutShort>
    requires { 17 ≤ room txn.old }
    ensures exact { Does P.view P.trail (λ s. pushed_below (frame mask word s) top s)
        result txn.old txn.new }
    ensures keeps { Keeps P.view P.since 17 txn.old txn.new }
{
    push_links(txn, mask, word, top)
}

/// Pops AP, FP, PC and the registers that a mask names.
#[inline]
fn restore_links<P: Port>(txn: &mut Txn<P>, mask: u32, from: u32) -> Result<u32, CutShort>
    requires { 15 ≤ room txn.old }
    ensures exact { Does P.view P.trail (links_restored mask from) result txn.old txn.new }
    ensures keeps { Keeps P.view P.since 15 txn.old txn.new }
{
    let at = restore_one(txn, 12, from)?;
    let at = restore_one(txn, 13, at)?;
    let at = restore_one(txn, 15, at)?;
    restore(txn, mask, 12, at)
}

/// Pops a frame's registers, from the lowest longword up, the first at an address. Gives the address behind the last.
pub(crate) fn restore_frame<P: Port>(
    txn: &mut Txn<P>,
    mask: u32,
    from: u32,
) -> Result<u32, CutShort>
    requires { 15 ≤ room txn.old }
    ensures exact { Does P.view P.trail (restored (linked mask) from) result txn.old txn.new }
    ensures keeps { Keeps P.view P.since 15 txn.old txn.new }
{
    restore_links(txn, mask, from)
}
