//! The registers of the processor, MTPR and MFPR (VAX Architecture Reference Manual, processor registers).
ghost use Rattle.std.specs.Prelude.{◌≡◌, ◌<◌, ◌≤◌, ◌%◌};
ghost use Rattle.vax_flat.specs.System.{clock_set, from_register, get_processor, pointer, requested, set_processor, to_register, with_moved, with_pointer, with_priority};
ghost use Rattle.vax_undo.specs.Transaction.{present, room, Keeps, Does, Updates};

use crate::stacks::stack_in_use;
use vax_flat::{Cut, Exception, Flow};
use vax_operand::{next_place, next_value, set_codes, store};
use vax_undo::{CutShort, Port, Txn};
use vax_word::{Codes, Psl, Size, is_negative};

/// The codes of a value that is moved.
#[inline]
#[tactic(auto, unfolding(vax_word::specs::Arithmetic::answer))]
fn set_moved<P: Port>(txn: &mut Txn<P>, value: u32)
    requires { 1 ≤ room txn.old }
    ensures exact { Updates P.view P.trail (with_moved value) txn.old txn.new }
    ensures keeps { Keeps P.view P.since 1 txn.old txn.new }
{
    let codes = Codes {
        n: is_negative(Size::L, value as u64),
        z: value == 0,
        v: false,
        c: txn.psl().codes().c,
    };
    set_codes(txn, codes);
}

/// A stack pointer; that of the stack in use is SP.
#[inline]
#[tactic(auto, unfolding(vax_flat::specs::System::pointer))]
fn pointer<P: Port>(txn: &Txn<P>, n: u8) -> u32
    requires { n < 5 }
    ensures { result ≡ pointer n (present P.view txn.now).state }
{
    if n == stack_in_use(txn.psl()) {
        txn.reg(14)
    } else {
        txn.stack(n)
    }
}

#[inline]
#[tactic(auto, unfolding(vax_flat::specs::System::with_pointer))]
fn set_pointer<P: Port>(txn: &mut Txn<P>, n: u8, value: u32)
    requires n { n < 5 }
    requires room { 1 ≤ room txn.old }
    ensures exact { Updates P.view P.trail (with_pointer n value) txn.old txn.new }
    ensures keeps { Keeps P.view P.since 1 txn.old txn.new }
{
    if n == stack_in_use(txn.psl()) {
        txn.set_reg(14, value);
    } else {
        txn.set_stack(n, value);
    }
}

/// Sets the interrupt priority level.
#[inline]
#[tactic(auto, using(crate::proofs::Closed::level_closed), unfolding(vax_word::specs::Status::ipl_of))]
fn set_priority<P: Port>(txn: &mut Txn<P>, level: u32)
    requires level { level < 32 }
    requires room { 1 ≤ room txn.old }
    ensures exact { Updates P.view P.trail (with_priority level) txn.old txn.new }
    ensures keeps { Keeps P.view P.since 1 txn.old txn.new }
{
    let Psl(bits) = txn.psl();
    let old = bits / 0x1_0000 % 32;
    txn.set_psl(Psl(bits - old * 0x1_0000 + level * 0x1_0000));
}

/// Requests a software interrupt; there is none at level 0.
#[inline]
#[tactic(auto, unfolding(vax_flat::specs::System::requested))]
fn request<P: Port>(txn: &mut Txn<P>, level: u32)
    requires level { level < 16 }
    requires room { 1 ≤ room txn.old }
    ensures exact { Updates P.view P.trail (requested level) txn.old txn.new }
    ensures keeps { Keeps P.view P.since 1 txn.old txn.new }
{
    if level != 0 {
        txn.set_sisr(txn.sisr() | 1 << level);
    }
}

/// Turns the interval clock on or off by bit 6, takes its request back by bit 7, and lets it count anew.
#[inline]
#[tactic(auto, unfolding(vax_flat::specs::System::clock_set))]
fn set_clock<P: Port>(txn: &mut Txn<P>, value: u32)
    requires { 2 ≤ room txn.old }
    ensures exact { Updates P.view P.trail (clock_set value) txn.old txn.new }
    ensures keeps { Keeps P.view P.since 2 txn.old txn.new }
{
    let on = value / 0x40 % 2 == 1;
    let asks = txn.iccs() / 0x80 % 2 == 1 && value / 0x80 % 2 != 1;
    txn.set_iccs(0x40 * on as u8 + 0x80 * asks as u8);
    txn.set_clock(0);
}

/// Writes a register of the processor.
#[tactic(auto, using(vax_undo::proofs::Trail::over_trail_raises), unfolding(vax_flat::specs::System::set_processor))]
fn set_register<P: Port>(txn: &mut Txn<P>, number: u32, value: u32) -> Result<Flow, CutShort>
    requires { 2 ≤ room txn.old }
    ensures exact { Does P.view P.trail (set_processor number value) result txn.old txn.new }
    ensures keeps { Keeps P.view P.since 2 txn.old txn.new }
{
    if number <= 4 {
        set_pointer(txn, number as u8, value);
    } else if number == 18 {
        set_priority(txn, value % 32);
    } else if number == 20 {
        request(txn, value % 16);
    } else if number == 21 {
        txn.set_sisr((value % 0x1_0000 / 2 * 2) as u16);
    } else if number == 24 {
        set_clock(txn, value);
        return Ok(Flow::Clocked);
    } else if number == 35 {
        txn.emit((value % 0x100) as u8);
    } else if !(number == 32 || number == 34 || number == 57 || number == 58) {
        return Err(txn.cut(Cut::Event(Exception::Operand)));
    }
    Ok(Flow::Done)
}

/// MTPR.
#[tactic(auto, unfolding(vax_flat::specs::System::to_register))]
pub(crate) fn to_register<P: Port>(txn: &mut Txn<P>) -> Result<Flow, CutShort>
    requires { 11 ≤ room txn.old }
    ensures exact { Does P.view P.trail to_register result txn.old txn.new }
    ensures keeps { Keeps P.view P.since 11 txn.old txn.new }
{
    let value = next_value(txn, Size::L)? as u32;
    let number = next_value(txn, Size::L)? as u32;
    set_moved(txn, value);
    set_register(txn, number, value)
}

/// The value of a register of the processor. That of the console's input takes a byte.
#[tactic(auto, using(vax_undo::proofs::Trail::over_trail_raises), unfolding(vax_flat::specs::System::get_processor))]
fn get_register<P: Port>(txn: &mut Txn<P>, number: u32) -> Result<u32, CutShort>
    requires { 1 ≤ room txn.old }
    ensures exact { Does P.view P.trail (get_processor number) result txn.old txn.new }
    ensures keeps { Keeps P.view P.since 1 txn.old txn.new }
{
    if number <= 4 {
        Ok(pointer(txn, number as u8))
    } else if number == 18 {
        Ok(txn.psl().ipl() as u32)
    } else if number == 21 {
        Ok(txn.sisr() as u32)
    } else if number == 24 {
        Ok(txn.iccs() as u32)
    } else if number == 32 {
        Ok(if txn.has_input() { 0x80 } else { 0 })
    } else if number == 33 {
        match txn.take() {
            Some(byte) => Ok(byte as u32),
            None => Ok(0),
        }
    } else if number == 34 {
        Ok(0x80)
    } else {
        Err(txn.cut(Cut::Event(Exception::Operand)))
    }
}

/// MFPR.
#[tactic(auto, unfolding(vax_flat::specs::System::from_register))]
pub(crate) fn from_register<P: Port>(txn: &mut Txn<P>) -> Result<Flow, CutShort>
    requires { 12 ≤ room txn.old }
    ensures exact { Does P.view P.trail from_register result txn.old txn.new }
    ensures keeps { Keeps P.view P.since 12 txn.old txn.new }
{
    let number = next_value(txn, Size::L)? as u32;
    let destination = next_place(txn, Size::L)?;
    let value = get_register(txn, number)?;
    store(txn, Size::L, destination, value as u64)?;
    set_moved(txn, value);
    Ok(Flow::Done)
}
