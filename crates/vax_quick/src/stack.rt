//! Longwords and registers on the stack.
ghost use Rattle.std.specs.Prelude.{◌≡◌, ℕ, ◌+◌, ◌-◌, ◌%◌, ◌^◌, ◌<◌, ◌≤◌, ◌∷◌, [], None, IfSome};
ghost use Rattle.vax_word.specs.Status.{is_one};
ghost use Rattle.vax_flat.specs.Call.{frame, linked, named, pushed_below, pushed_one, restored, saved};
ghost use Rattle.vax_flat.specs.Operand.{plus};
ghost use Rattle.vax_x_call.specs.Stack.{links_pushed, links_restored, restored_if, saved_if};
ghost use Rattle.vax_quick.specs.Made.{GoesOn, Reads, computer};
ghost use Rattle.vax_quick.specs.Frames.{Finds, HasRoom};

use crate::memory::{read, write};
use vax_undo::Port;
use vax_word::Core;
use vax_x_call::end_of_named;

/// Pushes a longword just below an address, where that can be done, and gives its address.
#[inline(always)]
#[tactic(auto, using(crate::proofs::Frames::room_found), unfolding(vax_flat::specs::Call::pushed_one))]
pub(crate) fn push_below<P: Port>(core: &Core, port: &mut P, value: u32, top: u32) -> Option<u32>
    ensures exact { Finds (pushed_one value top) result
        (computer P.view core.now port.old) (computer P.view core.now port.new) }
    ensures none { result ≡ None → P.view port.new ≡ P.view port.old }
    ensures room { IfSome result (λ at. 72 ≤ at % 512 → HasRoom (P.view port.new) core.now at 18) }
    ensures below { IfSome result (λ at. at ≡ plus top (2 ^ 32 - 4)) }
    ensures since { (start : P) → P.since start port.old → P.since start port.new }
{
    let at = top.wrapping_sub(4);
    write(core, port, at, 4, value as u64)?;
    Some(at)
}

/// Pushes a longword just below an address, within a page that may be written, and gives its address.
#[inline(always)]
#[tactic(auto, using(crate::proofs::Frames::may_push, crate::proofs::Frames::room_left), unfolding(vax_flat::specs::Call::pushed_one))]
fn push_within<P: Port>(core: &Core, port: &mut P, value: u32, top: u32) -> u32
    requires room { HasRoom (P.view port.old) core.now top 1 }
    ensures exact { GoesOn (pushed_one value top) result
        (computer P.view core.now port.old) (computer P.view core.now port.new) }
    ensures room { (count : ℕ) → HasRoom (P.view port.old) core.now top (count + 1)
        → HasRoom (P.view port.new) core.now result count }
    ensures since { (start : P) → P.since start port.old → P.since start port.new }
{
    let at = top.wrapping_sub(4);
    match write(core, port, at, 4, value as u64) {
        Some(()) => at,
        None => unreachable!(),
    }
}

/// Pushes a register just below an address, if a mask names it, and gives the address of what was pushed last.
#[inline(always)]
#[tactic(auto, using(crate::proofs::Frames::room_fewer))]
fn save_if<P: Port>(core: &Core, port: &mut P, mask: u32, n: u8, top: u32) -> u32
    requires of_core { n < 16 }
    requires room { HasRoom (P.view port.old) core.now top 1 }
    ensures exact { GoesOn (saved_if (is_one mask n) n top) result
        (computer P.view core.now port.old) (computer P.view core.now port.new) }
    ensures room { (count : ℕ) → HasRoom (P.view port.old) core.now top (count + 1)
        → HasRoom (P.view port.new) core.now result count }
    ensures since { (start : P) → P.since start port.old → P.since start port.new }
{
    if (mask >> n) % 2 == 1 {
        push_within(core, port, core.regs[n as usize], top)
    } else {
        top
    }
}

/// Pushes the registers below a number that a mask names, from the highest down, the first just below an address. Gives the address of
/// the last.
#[inline(always)]
fn save<P: Port>(core: &Core, port: &mut P, mask: u32, top: u32) -> u32
    requires room { HasRoom (P.view port.old) core.now top 17 }
    ensures exact { GoesOn (saved (named 12 mask) top) result
        (computer P.view core.now port.old) (computer P.view core.now port.new) }
    ensures room { HasRoom (P.view port.new) core.now result 5 }
    ensures since { (start : P) → P.since start port.old → P.since start port.new }
{
    let mut at = top;
    let mut n = end_of_named(mask, 12);
    while n > 0 {
        n -= 1;
        at = save_if(core, port, mask, n, at);
    }
    at
}

/// Pushes the registers that a mask names, PC, FP, AP, and two longwords.
#[inline(always)]
fn push_links<P: Port>(core: &Core, port: &mut P, mask: u32, word: u32, top: u32) -> u32
    requires room { HasRoom (P.view port.old) core.now top 17 }
    ensures exact { GoesOn (links_pushed mask word top) result
        (computer P.view core.now port.old) (computer P.view core.now port.new) }
    ensures since { (start : P) → P.since start port.old → P.since start port.new }
{
    let (ap, fp, pc) = (core.regs[12], core.regs[13], core.regs[15]);
    let at = save(core, port, mask, top);
    let at = push_within(core, port, pc, at);
    let at = push_within(core, port, fp, at);
    let at = push_within(core, port, ap, at);
    let at = push_within(core, port, word, at);
    push_within(core, port, 0, at)
}

/// Pushes a frame just below an address: its registers, the longword that says how it was made, and one for a condition handler. Gives the
/// address of the last.
#[inline(always)]
pub(crate) fn push_frame<P: Port>(core: &Core, port: &mut P, mask: u32, word: u32, top: u32) -> u32
    requires room { HasRoom (P.view port.old) core.now top 17 }
    ensures exact { GoesOn (λ s. pushed_below (frame mask word s) top s) result
        (computer P.view core.now port.old) (computer P.view core.now port.new) }
    ensures since { (start : P) → P.since start port.old → P.since start port.new }
{
    push_links(core, port, mask, word, top)
}

/// Pops a register's value from an address, and gives the address behind.
#[inline(always)]
#[tactic(auto, unfolding(vax_flat::specs::Call::restored, vax_flat::specs::Call::popped_from))]
fn restore_one<P: Port>(core: &mut Core, port: &mut P, n: u8, from: u32) -> Option<u32>
    requires of_core { n < 16 }
    ensures exact { Finds (restored (n ∷ []) from) result
        (computer P.view core.old port.old) (computer P.view core.new port.new) }
    ensures reads { Reads P.view P.since core.old port.old core.new port.new }
{
    let value = read(core, port, from, 4)?;
    core.regs[n as usize] = value as u32;
    Some(from.wrapping_add(4))
}

/// Pops a register from an address, if a mask names it, and gives the address behind what was popped last.
#[inline(always)]
fn restore_if<P: Port>(core: &mut Core, port: &mut P, mask: u32, n: u8, from: u32) -> Option<u32>
    requires of_core { n < 16 }
    ensures exact { Finds (restored_if (is_one mask n) n from) result
        (computer P.view core.old port.old) (computer P.view core.new port.new) }
    ensures reads { Reads P.view P.since core.old port.old core.new port.new }
{
    if (mask >> n) % 2 == 1 {
        restore_one(core, port, n, from)
    } else {
        Some(from)
    }
}

/// Pops the registers below R12 that a mask names, from R0 up, the first at an address. Gives the address behind the last.
#[inline(always)]
fn restore<P: Port>(core: &mut Core, port: &mut P, mask: u32, from: u32) -> Option<u32>
    ensures exact { Finds (restored (named 12 mask) from) result
        (computer P.view core.old port.old) (computer P.view core.new port.new) }
    ensures reads { Reads P.view P.since core.old port.old core.new port.new }
{
    let mut at = from;
    let end = end_of_named(mask, 12);
    let mut n = 0;
    while n < end {
        at = restore_if(core, port, mask, n, at)?;
        n += 1;
    }
    Some(at)
}

/// Pops AP, FP, PC and the registers that a mask names.
#[inline(always)]
fn restore_links<P: Port>(core: &mut Core, port: &mut P, mask: u32, from: u32) -> Option<u32>
    ensures exact { Finds (links_restored mask from) result
        (computer P.view core.old port.old) (computer P.view core.new port.new) }
    ensures reads { Reads P.view P.since core.old port.old core.new port.new }
{
    let at = restore_one(core, port, 12, from)?;
    let at = restore_one(core, port, 13, at)?;
    let at = restore_one(core, port, 15, at)?;
    restore(core, port, mask, at)
}

/// Pops a frame's registers, from the lowest longword up, the first at an address. Gives the address behind the last.
#[inline(always)]
pub(crate) fn restore_frame<P: Port>(
    core: &mut Core,
    port: &mut P,
    mask: u32,
    from: u32,
) -> Option<u32>
    ensures exact { Finds (restored (linked mask) from) result
        (computer P.view core.old port.old) (computer P.view core.new port.new) }
    ensures reads { Reads P.view P.since core.old port.old core.new port.new }
{
    restore_links(core, port, mask, from)
}
