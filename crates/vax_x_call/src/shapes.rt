//! One function for each instruction.
ghost use Rattle.std.specs.Prelude.{◌≡◌, ◌+◌, ◌<◌, ◌≤◌};
ghost use Rattle.vax_flat.specs.Call as call;
ghost use Rattle.vax_undo.specs.Transaction.{present, room, Keeps, Does, Updates};

use crate::stack::{push_below, push_frame, restore, restore_frame, save};
use vax_flat::{Cut, Exception, Flow};
use vax_isa::Call;
use vax_operand::{next_address, next_value, read};
use vax_undo::{CutShort, Port, Txn};
use vax_word::{Psl, Size};

/// PUSHR.
#[tactic(auto, unfolding(vax_flat::specs::Call::push_registers, vax_flat::specs::Call::registers_pushed))]
fn push_registers<P: Port>(txn: &mut Txn<P>) -> Result<Flow, CutShort>
    requires { 20 ≤ room txn.old }
    ensures exact { Does P.view P.trail call.push_registers result txn.old txn.new }
    ensures keeps { Keeps P.view P.since 20 txn.old txn.new }
{
    let mask = next_value(txn, Size::W)?;
    let top = save(txn, mask as u32, 15, txn.reg(14))?;
    txn.set_reg(14, top);
    Ok(Flow::Done)
}

/// POPR.
#[tactic(auto, unfolding(vax_flat::specs::Call::pop_registers, vax_flat::specs::Call::registers_popped))]
fn pop_registers<P: Port>(txn: &mut Txn<P>) -> Result<Flow, CutShort>
    requires { 20 ≤ room txn.old }
    ensures exact { Does P.view P.trail call.pop_registers result txn.old txn.new }
    ensures keeps { Keeps P.view P.since 20 txn.old txn.new }
{
    let mask = next_value(txn, Size::W)?;
    let top = restore(txn, mask as u32, 15, txn.reg(14))?;
    if mask >> 14 & 1 == 0 {
        txn.set_reg(14, top);
    }
    Ok(Flow::Done)
}

/// The longword of a frame that says how it was made.
#[inline]
#[tactic(auto, unfolding(vax_flat::specs::Call::frame_word))]
pub fn frame_word(offset: u32, on_stack: bool, mask: u32, psl: Psl) -> u32
    requires { offset < 4 }
    ensures { result ≡ call.frame_word offset on_stack mask psl }
{
    let Psl(bits) = psl;
    offset * 0x4000_0000
        + u32::from(on_stack) * 0x2000_0000
        + mask % 0x1000 * 0x1_0000
        + bits / 32 % 0x800 * 32
}

/// The status of a procedure that is entered.
#[inline]
#[tactic(auto, unfolding(vax_flat::specs::Call::entry_status))]
pub fn entry_status(mask: u32, psl: Psl) -> Psl
    ensures { result ≡ call.entry_status mask psl }
{
    let Psl(bits) = psl;
    let enables = mask / 0x8000 % 2 * 128 + mask / 0x4000 % 2 * 32;
    Psl(bits / 256 * 256 + enables + bits / 16 % 2 * 16)
}

/// Lets control go on at a procedure, behind its entry mask.
#[inline]
#[tactic(auto, using(crate::proofs::Closed::entry_closed), unfolding(vax_flat::specs::Call::at_procedure))]
fn go_to<P: Port>(txn: &mut Txn<P>, procedure: u32, mask: u32, arguments: u32, bottom: u32)
    requires { 5 ≤ room txn.old }
    ensures exact { Updates P.view P.trail (call.at_procedure procedure mask arguments bottom)
        txn.old txn.new }
    ensures keeps { Keeps P.view P.since 5 txn.old txn.new }
{
    let status = entry_status(mask, txn.psl());
    txn.set_reg(12, arguments);
    txn.set_reg(13, bottom);
    txn.set_reg(14, bottom);
    txn.set_reg(15, procedure.wrapping_add(2));
    txn.set_psl(status);
}

/// Pushes a frame below the multiple of 4 at or below an address, and enters the procedure.
#[tactic(auto, unfolding(vax_flat::specs::Call::entered))]
fn enter<P: Port>(
    txn: &mut Txn<P>,
    procedure: u32,
    mask: u32,
    arguments: u32,
    top: u32,
    on_stack: bool,
) -> Result<Flow, CutShort>
    requires { 22 ≤ room txn.old }
    ensures exact { Does P.view P.trail (call.entered procedure mask arguments top on_stack)
        result txn.old txn.new }
    ensures keeps { Keeps P.view P.since 22 txn.old txn.new }
{
    let word = frame_word(top % 4, on_stack, mask, txn.psl());
    let bottom = push_frame(txn, mask, word, top / 4 * 4)?;
    go_to(txn, procedure, mask, arguments, bottom);
    Ok(Flow::Done)
}

/// Reads a procedure's entry mask.
#[tactic(auto, using(vax_undo::proofs::Trail::over_trail_raises), unfolding(vax_flat::specs::Call::entry_mask))]
fn entry_mask<P: Port>(txn: &mut Txn<P>, procedure: u32) -> Result<u32, CutShort>
    ensures exact { Does P.view P.trail (call.entry_mask procedure) result txn.old txn.new }
    ensures same { present P.view txn.new ≡ present P.view txn.old }
    ensures keeps { Keeps P.view P.since 0 txn.old txn.new }
{
    let mask = read(txn, procedure, 2)?;
    if mask / 0x1000 % 4 != 0 {
        return Err(txn.cut(Cut::Event(Exception::Operand)));
    }
    Ok(mask as u32)
}

/// CALLG.
#[tactic(auto, unfolding(vax_flat::specs::Call::call_with_list, vax_flat::specs::Call::called_with_list))]
fn call_with_list<P: Port>(txn: &mut Txn<P>) -> Result<Flow, CutShort>
    requires { 30 ≤ room txn.old }
    ensures exact { Does P.view P.trail call.call_with_list result txn.old txn.new }
    ensures keeps { Keeps P.view P.since 30 txn.old txn.new }
{
    let arguments = next_address(txn, Size::B)?;
    let procedure = next_address(txn, Size::B)?;
    let mask = entry_mask(txn, procedure)?;
    let top = txn.reg(14);
    enter(txn, procedure, mask, arguments, top, false)
}

/// CALLS.
#[tactic(auto, unfolding(vax_flat::specs::Call::call_with_stack, vax_flat::specs::Call::called_with_stack))]
fn call_with_stack<P: Port>(txn: &mut Txn<P>) -> Result<Flow, CutShort>
    requires { 31 ≤ room txn.old }
    ensures exact { Does P.view P.trail call.call_with_stack result txn.old txn.new }
    ensures keeps { Keeps P.view P.since 31 txn.old txn.new }
{
    let count = next_value(txn, Size::L)?;
    let procedure = next_address(txn, Size::B)?;
    let mask = entry_mask(txn, procedure)?;
    let top = txn.reg(14);
    let arguments = push_below(txn, count as u32, top)?;
    enter(txn, procedure, mask, arguments, arguments, true)
}

/// Whether a frame's status can be given back.
#[inline]
#[tactic(auto, unfolding(vax_flat::specs::Call::is_status))]
pub fn is_status(word: u32) -> bool
    ensures { result ≡ call.is_status word }
{
    word / 0x100 % 0x100 == 0 && word / 16 % 2 == 0
}

/// The status that a frame gives back.
#[inline]
#[tactic(auto, unfolding(vax_flat::specs::Call::return_status))]
pub fn return_status(word: u32, psl: Psl) -> Psl
    ensures { result ≡ call.return_status word psl }
{
    let Psl(bits) = psl;
    Psl(bits / 0x1_0000 * 0x1_0000 + word % 0x1_0000)
}

/// The address behind the arguments on the stack.
#[inline]
#[tactic(auto, unfolding(vax_flat::specs::Call::behind_arguments))]
fn behind_arguments<P: Port>(txn: &mut Txn<P>, on_stack: bool, top: u32) -> Result<u32, CutShort>
    ensures exact { Does P.view P.trail (call.behind_arguments on_stack top)
        result txn.old txn.new }
    ensures same { present P.view txn.new ≡ present P.view txn.old }
    ensures keeps { Keeps P.view P.since 0 txn.old txn.new }
{
    if !on_stack {
        return Ok(top);
    }
    let count = read(txn, top, 4)?;
    Ok(top.wrapping_add(4 + 4 * (count as u32 % 0x100)))
}

/// Pops a frame whose longword was read, and the arguments behind it.
#[tactic(auto, using(crate::proofs::Closed::return_closed), unfolding(vax_flat::specs::Call::unwound))]
fn unwind<P: Port>(txn: &mut Txn<P>, word: u32) -> Result<Flow, CutShort>
    requires { 17 ≤ room txn.old }
    ensures exact { Does P.view P.trail (call.unwound word) result txn.old txn.new }
    ensures keeps { Keeps P.view P.since 17 txn.old txn.new }
{
    let from = txn.reg(13).wrapping_add(8);
    let behind = restore_frame(txn, word / 0x1_0000 % 0x1000, from)?;
    let on_stack = word / 0x2000_0000 % 2 == 1;
    let top = behind_arguments(txn, on_stack, behind.wrapping_add(word / 0x4000_0000))?;
    let status = return_status(word, txn.psl());
    txn.set_reg(14, top);
    txn.set_psl(status);
    Ok(Flow::Done)
}

/// RET.
#[tactic(auto, using(vax_undo::proofs::Trail::over_trail_raises), unfolding(vax_flat::specs::Call::return_from))]
fn return_from<P: Port>(txn: &mut Txn<P>) -> Result<Flow, CutShort>
    requires { 17 ≤ room txn.old }
    ensures exact { Does P.view P.trail call.return_from result txn.old txn.new }
    ensures keeps { Keeps P.view P.since 17 txn.old txn.new }
{
    let at = txn.reg(13).wrapping_add(4);
    let word = read(txn, at, 4)? as u32;
    if !is_status(word) {
        return Err(txn.cut(Cut::Event(Exception::Operand)));
    }
    unwind(txn, word)
}

/// The instruction by its name.
#[inline]
#[tactic(auto, unfolding(vax_flat::specs::Call::performed))]
pub(crate) fn perform<P: Port>(txn: &mut Txn<P>, instruction: Call) -> Result<Flow, CutShort>
    requires { 31 ≤ room txn.old }
    ensures exact { Does P.view P.trail (call.performed instruction) result txn.old txn.new }
    ensures keeps { Keeps P.view P.since 31 txn.old txn.new }
{
    match instruction {
        Call::WithList => call_with_list(txn),
        Call::WithStack => call_with_stack(txn),
        Call::Return => return_from(txn),
        Call::PushRegisters => push_registers(txn),
        Call::PopRegisters => pop_registers(txn),
    }
}
