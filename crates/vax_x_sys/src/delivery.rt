//! The delivery of exceptions, changes of mode and interrupts (VAX Architecture Reference Manual, exceptions and interrupts).
ghost use Rattle.std.specs.Prelude.{◌≡◌, ◌<◌, ◌≤◌};
ghost use Rattle.vax_undo.specs.FirstPart.{NothingOpen};
ghost use Rattle.vax_flat.specs.Operand.{extended};
ghost use Rattle.vax_flat.specs.Delivery.{change_by, change_mode, change_vector, changed, changed_to, delivery, dispatched, entered, interrupt, interrupt_vector, interrupted, pushed_outside, served, vector_of, vectored};
ghost use Rattle.vax_undo.specs.Rooms.{room_of_delivery};
ghost use Rattle.vax_undo.specs.Transaction.{present, room, Keeps, told, Acts, Does, Updates};
ghost use Rattle.vax_x_sys.specs.Frames.{listed, IsLevel};
ghost use Rattle.vax_x_sys.specs.Raised.{RaisedNothing};

use crate::frames::{Parameters, parameters_of, push_frame, push_in};
use crate::stacks::{go_on, on_interrupt_stack, stack_in_use, status, switch};
use vax_flat::{Delivery, Ending, Exception};
use vax_isa::AccessMode;
use vax_operand::{is_allowed, read_in};
use vax_space::Access;
use vax_undo::{CutShort, Port, Txn};
use vax_word::Psl;

/// Where the system control block begins.
const CONTROL_BLOCK: u32 = 0x8000_0000;

/// The vector at this offset of the system control block, None where it can't be read in kernel mode.
#[inline]
#[tactic(auto, unfolding(vax_flat::specs::Delivery::vectored))]
fn vector<P: Port>(txn: &mut Txn<P>, offset: u16) -> Result<Option<u32>, CutShort>
    ensures exact { Does P.view P.trail (vectored offset) result txn.old txn.new }
    ensures same { present P.view txn.new ≡ present P.view txn.old }
    ensures keeps { Keeps P.view P.since 0 txn.old txn.new }
{
    let addr = CONTROL_BLOCK + offset as u32;
    if !is_allowed(txn, addr, 4, 0, Access::Read) {
        return Ok(None);
    }
    let vector = read_in(txn, addr, 4, 0)?;
    Ok(Some(vector as u32))
}

/// Enters a handler in kernel mode, on the kernel stack or on the interrupt stack, with this status.
#[tactic(auto, unfolding(vax_flat::specs::Delivery::entered))]
fn enter<P: Port>(
    txn: &mut Txn<P>,
    parameters: Parameters,
    vector: u32,
    interrupt: bool,
    psl: Psl,
) -> Result<Delivery, CutShort>
    requires closed { NothingOpen psl }
    requires room { 13 ≤ room txn.old }
    ensures exact { Does P.view P.trail (entered (listed parameters) vector interrupt psl)
        result txn.old txn.new }
    ensures keeps { Keeps P.view P.since 13 txn.old txn.new }
{
    let old = txn.psl();
    let pc = txn.reg(15);
    let stack = if interrupt { 4 } else { 0 };
    switch(txn, stack_in_use(old), stack);
    if !push_frame(txn, old, pc, parameters)? {
        return Ok(Delivery::Ended(Ending::Stack));
    }
    go_on(txn, vector / 4 * 4, psl);
    Ok(Delivery::Entered)
}

/// The offset of an exception's vector.
#[inline]
#[tactic(auto, unfolding(vax_flat::specs::Delivery::vector_of))]
fn vector_of(exception: Exception) -> u16
    ensures { result ≡ vector_of exception }
{
    match exception {
        Exception::Privileged => 0x10,
        Exception::Customer => 0x14,
        Exception::Operand => 0x18,
        Exception::Mode => 0x1C,
        Exception::Access(_) => 0x20,
        Exception::Breakpoint => 0x2C,
        Exception::Arithmetic(_) => 0x34,
    }
}

/// Delivers an exception by its vector.
#[inline]
#[tactic(auto, unfolding(vax_flat::specs::Delivery::dispatched))]
fn dispatch<P: Port>(
    txn: &mut Txn<P>,
    exception: Exception,
    vector: Option<u32>,
) -> Result<Delivery, CutShort>
    requires { 13 ≤ room txn.old }
    ensures exact { Does P.view P.trail (dispatched exception vector) result txn.old txn.new }
    ensures keeps { Keeps P.view P.since 13 txn.old txn.new }
{
    let Some(vector) = vector else {
        return Ok(Delivery::Ended(Ending::Scb));
    };
    if 2 <= vector % 4 {
        return Ok(Delivery::Ended(Ending::Vector(vector_of(exception))));
    }
    let old = txn.psl();
    if vector % 4 == 1 {
        let psl = status(0, old.mode(), 31, true);
        enter(txn, parameters_of(exception), vector, true, psl)
    } else {
        let stack = on_interrupt_stack(old);
        let psl = status(0, old.mode(), old.ipl(), stack);
        enter(txn, parameters_of(exception), vector, stack, psl)
    }
}

/// Delivers an exception by the vector that is read.
#[inline]
#[tactic(auto, unfolding(vax_flat::specs::Delivery::delivery))]
fn deliver_by_vector<P: Port>(txn: &mut Txn<P>, exception: Exception) -> Result<Delivery, CutShort>
    requires { room_of_delivery ≤ room txn.old }
    ensures exact { Does P.view P.trail (delivery exception) result txn.old txn.new }
    ensures keeps { Keeps P.view P.since room_of_delivery txn.old txn.new }
{
    let vector = vector(txn, vector_of(exception))?;
    dispatch(txn, exception, vector)
}

/// Delivers an exception, from the state at the start of the instruction or, for a trap, behind it: PSL, PC and what the exception tells are pushed,
/// and control goes on at the handler in kernel mode.
///
/// The run ends where the vector can't be read or asks for it, or where the frame can't be pushed. The cut is a page that is absent alone.
pub fn deliver<P: Port>(txn: &mut Txn<P>, exception: Exception) -> Result<Delivery, CutShort>
    requires { room_of_delivery ≤ room txn.old }
    ensures exact { Does P.view P.trail (delivery exception) result txn.old txn.new }
    ensures quiet { RaisedNothing (told txn.new result) }
    ensures keeps { Keeps P.view P.since room_of_delivery txn.old txn.new }
{
    deliver_by_vector(txn, exception)
}

/// The offset of an interrupt's vector.
#[inline]
#[tactic(auto, unfolding(vax_flat::specs::Delivery::interrupt_vector))]
fn interrupt_vector(level: u8) -> u16
    requires { IsLevel level }
    ensures { result ≡ interrupt_vector level }
{
    if level == 22 {
        0xC0
    } else {
        0x80 + 4 * level as u16
    }
}

/// Takes the request of an interrupt back.
#[inline]
#[tactic(auto, unfolding(vax_flat::specs::Delivery::served))]
fn take_back<P: Port>(txn: &mut Txn<P>, level: u8)
    requires of_level { IsLevel level }
    requires room { 1 ≤ room txn.old }
    ensures exact { Updates P.view P.trail (served level) txn.old txn.new }
    ensures keeps { Keeps P.view P.since 1 txn.old txn.new }
{
    if level == 22 {
        txn.set_iccs(txn.iccs() % 0x80);
    } else {
        txn.set_sisr(txn.sisr() & !(1 << level));
    }
}

/// Delivers an interrupt by its vector.
#[inline]
#[tactic(auto, unfolding(vax_flat::specs::Delivery::interrupted))]
fn interrupt_by<P: Port>(
    txn: &mut Txn<P>,
    level: u8,
    vector: Option<u32>,
) -> Result<Delivery, CutShort>
    requires of_level { IsLevel level }
    requires room { 14 ≤ room txn.old }
    ensures exact { Does P.view P.trail (interrupted level vector) result txn.old txn.new }
    ensures keeps { Keeps P.view P.since 14 txn.old txn.new }
{
    let Some(vector) = vector else {
        return Ok(Delivery::Ended(Ending::Scb));
    };
    if 2 <= vector % 4 {
        return Ok(Delivery::Ended(Ending::Vector(interrupt_vector(level))));
    }
    let stack = vector % 4 == 1 || on_interrupt_stack(txn.psl());
    take_back(txn, level);
    enter(
        txn,
        Parameters::None,
        vector,
        stack,
        status(0, 0, level, stack),
    )
}

/// Delivers an interrupt by the vector that is read.
#[inline]
#[tactic(auto, unfolding(vax_flat::specs::Delivery::interrupt))]
fn interrupt_by_vector<P: Port>(txn: &mut Txn<P>, level: u8) -> Result<Delivery, CutShort>
    requires of_level { IsLevel level }
    requires room { room_of_delivery ≤ room txn.old }
    ensures exact { Does P.view P.trail (interrupt level) result txn.old txn.new }
    ensures keeps { Keeps P.view P.since room_of_delivery txn.old txn.new }
{
    let vector = vector(txn, interrupt_vector(level))?;
    interrupt_by(txn, level, vector)
}

/// Delivers an interrupt at a level, 1 to 15 or the interval clock's 22: PSL and PC are pushed, the request is taken back, and control goes on at
/// the handler in kernel mode, at that priority. It ends the run where a delivery does.
pub fn interrupt<P: Port>(txn: &mut Txn<P>, level: u8) -> Result<Delivery, CutShort>
    requires of_level { IsLevel level }
    requires room { room_of_delivery ≤ room txn.old }
    ensures exact { Does P.view P.trail (interrupt level) result txn.old txn.new }
    ensures quiet { RaisedNothing (told txn.new result) }
    ensures keeps { Keeps P.view P.since room_of_delivery txn.old txn.new }
{
    interrupt_by_vector(txn, level)
}

/// Pushes PSL, PC and code on the stack of a mode other than kernel, in that mode.
#[inline]
#[tactic(auto, unfolding(vax_flat::specs::Delivery::pushed_outside))]
fn push_outside<P: Port>(
    txn: &mut Txn<P>,
    mode: u8,
    old: Psl,
    pc: u32,
    code: u32,
) -> Result<(), CutShort>
    requires of_mode { mode ≤ 3 }
    requires room { 6 ≤ room txn.old }
    ensures exact { Acts P.view P.trail (pushed_outside mode old pc code) result txn.old txn.new }
    ensures keeps { Keeps P.view P.since 6 txn.old txn.new }
{
    push_in(txn, mode, old.0)?;
    push_in(txn, mode, pc)?;
    push_in(txn, mode, code)
}

/// Lets control go on at the handler, in the new mode.
#[inline]
#[tactic(auto, unfolding(vax_flat::specs::Delivery::changed))]
fn arrive<P: Port>(txn: &mut Txn<P>, new: u8, vector: u32, old: Psl)
    requires new { new < 4 }
    requires room { 2 ≤ room txn.old }
    ensures exact { Updates P.view P.trail (changed new vector old) txn.old txn.new }
    ensures keeps { Keeps P.view P.since 2 txn.old txn.new }
{
    go_on(txn, vector, status(new, old.mode(), old.ipl(), false));
}

/// Pushes the frame of a change of mode on the new mode's stack, and enters the handler.
#[tactic(auto, unfolding(vax_flat::specs::Delivery::changed_to))]
fn change_to<P: Port>(
    txn: &mut Txn<P>,
    new: u8,
    code: u32,
    vector: u32,
) -> Result<Delivery, CutShort>
    requires new { new < 4 }
    requires room { 13 ≤ room txn.old }
    ensures exact { Does P.view P.trail (changed_to new code vector) result txn.old txn.new }
    ensures keeps { Keeps P.view P.since 13 txn.old txn.new }
{
    let old = txn.psl();
    let pc = txn.reg(15);
    switch(txn, old.mode(), new);
    if new != 0 {
        push_outside(txn, new, old, pc, code)?;
        arrive(txn, new, vector, old);
        return Ok(Delivery::Entered);
    }
    if !push_frame(txn, old, pc, Parameters::One(code))? {
        return Ok(Delivery::Ended(Ending::Stack));
    }
    arrive(txn, new, vector, old);
    Ok(Delivery::Entered)
}

/// The code of a change of mode, sign-extended.
#[inline]
#[tactic(auto, unfolding(vax_flat::specs::Operand::extended))]
fn extend_word(code: u16) -> u32
    ensures { result ≡ extended 2 code }
{
    if code >= 0x8000 {
        code as u32 + 0xffff_0000
    } else {
        code as u32
    }
}

/// The offset of the vector of a change of mode.
#[inline]
#[tactic(auto, unfolding(vax_flat::specs::Delivery::change_vector))]
fn change_vector(target: AccessMode) -> u16
    ensures { result ≡ change_vector target }
{
    0x40 + 4 * target.number() as u16
}

/// Changes the mode by the vector.
#[inline]
#[tactic(auto, unfolding(vax_flat::specs::Delivery::change_by))]
fn change_by<P: Port>(
    txn: &mut Txn<P>,
    target: AccessMode,
    code: u16,
    vector: Option<u32>,
) -> Result<Delivery, CutShort>
    requires { 13 ≤ room txn.old }
    ensures exact { Does P.view P.trail (change_by target code vector) result txn.old txn.new }
    ensures keeps { Keeps P.view P.since 13 txn.old txn.new }
{
    let Some(vector) = vector else {
        return Ok(Delivery::Ended(Ending::Scb));
    };
    if vector % 4 != 0 {
        return Ok(Delivery::Ended(Ending::Vector(change_vector(target))));
    }
    let new = target.number().min(txn.psl().mode());
    change_to(txn, new, extend_word(code), vector)
}

/// CHMK, CHME, CHMS, CHMU: to the more privileged of the mode named and the current one.
#[tactic(auto, unfolding(vax_flat::specs::Delivery::change_mode))]
pub(crate) fn change_mode<P: Port>(
    txn: &mut Txn<P>,
    target: AccessMode,
    code: u16,
) -> Result<Delivery, CutShort>
    requires { room_of_delivery ≤ room txn.old }
    ensures exact { Does P.view P.trail (change_mode target code) result txn.old txn.new }
    ensures keeps { Keeps P.view P.since room_of_delivery txn.old txn.new }
{
    if on_interrupt_stack(txn.psl()) {
        return Ok(Delivery::Ended(Ending::Change));
    }
    let vector = vector(txn, change_vector(target))?;
    change_by(txn, target, code, vector)
}
