//! One function for each shape of instruction.
ghost use Rattle.std.specs.Prelude.{◌≡◌, ◌≤◌, true};
ghost use Rattle.vax_flat.specs.System as system;
ghost use Rattle.vax_undo.specs.Transaction.{room, Keeps, Does};

use crate::delivery::change_mode;
use crate::probes::probe;
use crate::registers::{from_register, to_register};
use crate::stacks::{go_on, on_interrupt_stack, stack_in_use, switch};
use vax_flat::{Cut, Delivery, Ending, Exception, Flow};
use vax_isa::{AccessMode, System};
use vax_operand::{next_place, next_value, read, store};
use vax_undo::{CutShort, Port, Txn};
use vax_word::{Psl, Size};

/// HALT, in kernel mode alone.
#[inline]
#[tactic(auto, using(vax_undo::proofs::Trail::over_trail_raises), unfolding(vax_flat::specs::System::halt))]
fn halt<P: Port>(txn: &mut Txn<P>) -> Result<Flow, CutShort>
    ensures exact { Does P.view P.trail system.halt result txn.old txn.new }
    ensures keeps { Keeps P.view P.since 0 txn.old txn.new }
{
    if txn.psl().mode() == 0 {
        Ok(Flow::Ended(Ending::Halt))
    } else {
        Err(txn.cut(Cut::Event(Exception::Privileged)))
    }
}

/// Whether a status has a bit that it can't have: one that must be zero, trace, trace pending, first part done or compatibility mode.
#[inline]
fn has_reserved_bits(bits: u32) -> bool
    ensures { result ≡ system.has_reserved_bits bits }
{
    bits / 0x100 % 0x100 != 0
        || bits / 0x20_0000 % 2 == 1
        || bits / 0x1000_0000 % 0x10 != 0
        || bits / 0x10 % 2 == 1
        || bits / 0x800_0000 % 2 == 1
}

/// Whether REI refuses a new status.
#[inline]
#[tactic(auto, unfolding(vax_flat::specs::System::is_refused))]
fn is_refused(old: Psl, new: Psl) -> bool
    ensures { result ≡ system.is_refused old new }
{
    new.mode() < old.mode()
        || (on_interrupt_stack(new) && !on_interrupt_stack(old))
        || (on_interrupt_stack(new) && (new.mode() != 0 || new.ipl() == 0))
        || (0 < new.ipl() && new.mode() != 0)
        || new.prev() < new.mode()
        || old.ipl() < new.ipl()
        || has_reserved_bits(new.0)
}

/// Takes PC and the status that were popped, unless they are refused.
#[inline]
#[tactic(auto, using(vax_undo::proofs::Trail::over_trail_raises), unfolding(vax_flat::specs::System::return_from))]
fn return_from<P: Port>(txn: &mut Txn<P>, pc: u32, psl: Psl) -> Result<Flow, CutShort>
    requires { 6 ≤ room txn.old }
    ensures exact { Does P.view P.trail (system.return_from pc psl) result txn.old txn.new }
    ensures keeps { Keeps P.view P.since 6 txn.old txn.new }
{
    let old = txn.psl();
    if is_refused(old, psl) {
        return Err(txn.cut(Cut::Event(Exception::Operand)));
    }
    let above = txn.reg(14).wrapping_add(8);
    txn.set_reg(14, above);
    switch(txn, stack_in_use(old), stack_in_use(psl));
    go_on(txn, pc, psl);
    Ok(Flow::Done)
}

/// REI.
#[tactic(auto, unfolding(vax_flat::specs::System::return_exception))]
fn return_exception<P: Port>(txn: &mut Txn<P>) -> Result<Flow, CutShort>
    requires { 6 ≤ room txn.old }
    ensures exact { Does P.view P.trail system.return_exception result txn.old txn.new }
    ensures keeps { Keeps P.view P.since 6 txn.old txn.new }
{
    let top = txn.reg(14);
    let pc = read(txn, top, 4)?;
    let bits = read(txn, top.wrapping_add(4), 4)?;
    return_from(txn, pc as u32, Psl(bits as u32))
}

/// How an instruction, or an interrupt in its place, went that came to this delivery.
#[inline]
pub fn flow_of(delivery: Delivery) -> Flow
    ensures { result ≡ system.flow_of_delivery delivery }
{
    match delivery {
        Delivery::Entered => Flow::Done,
        Delivery::Ended(ending) => Flow::Ended(ending),
    }
}

/// CHMK, CHME, CHMS, CHMU.
#[tactic(auto, unfolding(vax_flat::specs::System::change_of_mode))]
fn change_of_mode<P: Port>(txn: &mut Txn<P>, target: AccessMode) -> Result<Flow, CutShort>
    requires { 20 ≤ room txn.old }
    ensures exact { Does P.view P.trail (system.change_of_mode target) result txn.old txn.new }
    ensures keeps { Keeps P.view P.since 20 txn.old txn.new }
{
    let code = next_value(txn, Size::W)?;
    let how = change_mode(txn, target, code as u16)?;
    Ok(flow_of(how))
}

/// MOVPSL.
#[tactic(auto, unfolding(vax_flat::specs::System::move_status))]
fn move_status<P: Port>(txn: &mut Txn<P>) -> Result<Flow, CutShort>
    requires { 6 ≤ room txn.old }
    ensures exact { Does P.view P.trail system.move_status result txn.old txn.new }
    ensures keeps { Keeps P.view P.since 6 txn.old txn.new }
{
    let destination = next_place(txn, Size::L)?;
    let Psl(bits) = txn.psl();
    store(txn, Size::L, destination, bits as u64)?;
    Ok(Flow::Done)
}

#[inline]
#[tactic(auto, using(vax_undo::proofs::Trail::over_trail_raises, vax_undo::proofs::FirstPart::set_closed), unfolding(vax_flat::specs::System::status_set))]
fn set_bits<P: Port>(txn: &mut Txn<P>, mask: u32) -> Result<Flow, CutShort>
    requires { 1 ≤ room txn.old }
    ensures exact { Does P.view P.trail (system.status_set mask) result txn.old txn.new }
    ensures keeps { Keeps P.view P.since 1 txn.old txn.new }
{
    if mask / 0x100 != 0 || mask / 0x10 % 2 == 1 {
        return Err(txn.cut(Cut::Event(Exception::Operand)));
    }
    let Psl(bits) = txn.psl();
    txn.set_psl(Psl(bits | mask));
    Ok(Flow::Done)
}

/// BISPSW.
#[tactic(auto, unfolding(vax_flat::specs::System::set_status))]
fn set_status<P: Port>(txn: &mut Txn<P>) -> Result<Flow, CutShort>
    requires { 5 ≤ room txn.old }
    ensures exact { Does P.view P.trail system.set_status result txn.old txn.new }
    ensures keeps { Keeps P.view P.since 5 txn.old txn.new }
{
    let mask = next_value(txn, Size::W)?;
    set_bits(txn, mask as u32)
}

#[inline]
#[tactic(auto, using(vax_undo::proofs::Trail::over_trail_raises, vax_undo::proofs::FirstPart::cleared_closed), unfolding(vax_flat::specs::System::status_cleared))]
fn clear_bits<P: Port>(txn: &mut Txn<P>, mask: u32) -> Result<Flow, CutShort>
    requires { 1 ≤ room txn.old }
    ensures exact { Does P.view P.trail (system.status_cleared mask) result txn.old txn.new }
    ensures keeps { Keeps P.view P.since 1 txn.old txn.new }
{
    if mask / 0x100 != 0 {
        return Err(txn.cut(Cut::Event(Exception::Operand)));
    }
    let Psl(bits) = txn.psl();
    txn.set_psl(Psl(bits & !mask));
    Ok(Flow::Done)
}

/// BICPSW.
#[tactic(auto, unfolding(vax_flat::specs::System::clear_status))]
fn clear_status<P: Port>(txn: &mut Txn<P>) -> Result<Flow, CutShort>
    requires { 5 ≤ room txn.old }
    ensures exact { Does P.view P.trail system.clear_status result txn.old txn.new }
    ensures keeps { Keeps P.view P.since 5 txn.old txn.new }
{
    let mask = next_value(txn, Size::W)?;
    clear_bits(txn, mask as u32)
}

/// MTPR and MFPR, which are privileged outside kernel mode before any operand is read.
#[inline]
#[tactic(auto, using(vax_undo::proofs::Trail::over_trail_raises))]
fn move_to<P: Port>(txn: &mut Txn<P>) -> Result<Flow, CutShort>
    requires { 11 ≤ room txn.old }
    ensures exact { Does P.view P.trail
        (λ s next. system.unless_privileged true s (system.to_register s next))
        result txn.old txn.new }
    ensures keeps { Keeps P.view P.since 11 txn.old txn.new }
{
    if txn.psl().mode() != 0 {
        return Err(txn.cut(Cut::Event(Exception::Privileged)));
    }
    to_register(txn)
}

#[inline]
#[tactic(auto, using(vax_undo::proofs::Trail::over_trail_raises))]
fn move_from<P: Port>(txn: &mut Txn<P>) -> Result<Flow, CutShort>
    requires { 12 ≤ room txn.old }
    ensures exact { Does P.view P.trail
        (λ s next. system.unless_privileged true s (system.from_register s next))
        result txn.old txn.new }
    ensures keeps { Keeps P.view P.since 12 txn.old txn.new }
{
    if txn.psl().mode() != 0 {
        return Err(txn.cut(Cut::Event(Exception::Privileged)));
    }
    from_register(txn)
}

/// The instruction by its shape.
#[tactic(auto, using(vax_undo::proofs::Trail::over_trail_raises), unfolding(vax_flat::specs::System::performed))]
pub(crate) fn perform<P: Port>(txn: &mut Txn<P>, instruction: System) -> Result<Flow, CutShort>
    requires { 20 ≤ room txn.old }
    ensures exact { Does P.view P.trail (system.performed instruction) result txn.old txn.new }
    ensures keeps { Keeps P.view P.since 20 txn.old txn.new }
{
    match instruction {
        System::Halt => halt(txn),
        System::NoOperation => Ok(Flow::Done),
        System::Breakpoint => Err(txn.cut(Cut::Event(Exception::Breakpoint))),
        System::Customer => Err(txn.cut(Cut::Event(Exception::Customer))),
        System::Return => return_exception(txn),
        System::ChangeMode(target) => change_of_mode(txn, target),
        System::Probe { writing } => probe(txn, writing),
        System::ToRegister => move_to(txn),
        System::FromRegister => move_from(txn),
        System::MoveStatus => move_status(txn),
        System::SetStatus => set_status(txn),
        System::ClearStatus => clear_status(txn),
    }
}
