//! The stacks of the access modes and of interrupts, and the status that goes with them.
ghost use Rattle.std.specs.Prelude.{◌≡◌, ◌<◌, ◌≤◌};
ghost use Rattle.vax_undo.specs.FirstPart.{NothingOpen};
ghost use Rattle.vax_flat.specs.Delivery.{at_handler, on_interrupt_stack, stack_in_use, status, switched};
ghost use Rattle.vax_undo.specs.Transaction.{room, Keeps, Updates};

use vax_undo::{Port, Txn};
use vax_word::Psl;

/// Whether the interrupt stack is in use.
#[inline]
pub(crate) fn on_interrupt_stack(psl: Psl) -> bool
    ensures { result ≡ on_interrupt_stack psl }
{
    let Psl(bits) = psl;
    bits >> 26 & 1 == 1
}

/// The stack in use, by its place among the kept pointers.
#[inline]
#[tactic(auto, unfolding(vax_flat::specs::Delivery::stack_in_use))]
pub(crate) fn stack_in_use(psl: Psl) -> u8
    ensures exact { result ≡ stack_in_use psl }
    ensures within { result < 5 }
{
    if on_interrupt_stack(psl) {
        4
    } else {
        psl.mode()
    }
}

/// Takes another stack: the pointer of the one in use is kept, and the other's goes into SP.
#[inline]
#[tactic(auto, unfolding(vax_flat::specs::Delivery::switched))]
pub(crate) fn switch<P: Port>(txn: &mut Txn<P>, from: u8, to: u8)
    requires from { from < 5 }
    requires to { to < 5 }
    requires room { 3 ≤ room txn.old }
    ensures exact { Updates P.view P.trail (switched from to) txn.old txn.new }
    ensures keeps { Keeps P.view P.since 3 txn.old txn.new }
{
    if from != to {
        let top = txn.stack(to);
        let kept = txn.reg(14);
        txn.set_stack(from, kept);
        txn.set_reg(14, top);
        txn.set_stack(to, 0);
    }
}

/// The status with these access modes, priority and stack, and all else 0.
#[inline]
#[tactic(auto, using(crate::proofs::Closed::below_first_part))]
pub(crate) fn status(current: u8, previous: u8, level: u8, interrupt: bool) -> Psl
    requires current { current < 4 }
    requires previous { previous < 4 }
    requires level { level < 32 }
    ensures exact { result ≡ status current previous level interrupt }
    ensures closed { NothingOpen result }
{
    let stack = interrupt as u32 * 0x400_0000;
    let modes = current as u32 * 0x100_0000 + previous as u32 * 0x40_0000;
    Psl(stack + modes + level as u32 * 0x1_0000)
}

/// Lets control go on at an address, with another status.
#[inline]
pub(crate) fn go_on<P: Port>(txn: &mut Txn<P>, handler: u32, psl: Psl)
    requires closed { NothingOpen psl }
    requires room { 2 ≤ room txn.old }
    ensures exact { Updates P.view P.trail (at_handler handler psl) txn.old txn.new }
    ensures keeps { Keeps P.view P.since 2 txn.old txn.new }
{
    txn.set_reg(15, handler);
    txn.set_psl(psl);
}
