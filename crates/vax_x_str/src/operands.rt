//! The operands of an instruction, as the progress at its start.
ghost use Rattle.std.specs.Prelude.{◌≡◌, ◌-◌, ◌%◌, ◌^◌, ◌<◌, ◌≤◌, IfOk};
ghost use Rattle.vax_flat.specs.Operand.{plus};
ghost use Rattle.vax_flat.specs.StringOperands as operands;
ghost use Rattle.vax_undo.specs.Transaction.{room, Keeps, Does};

use crate::registers::begin_anew;
use vax_operand::{next_address, next_value};
use vax_strpart::Progress;
use vax_undo::{CutShort, Port, Txn};
use vax_word::Size;

/// What an instruction with no operand begins from.
const NOTHING: Progress = Progress {
    op: 0,
    len1: 0,
    addr1: 0,
    byte: 0,
    len2: 0,
    addr2: 0,
    table: 0,
    done: 0,
    delta: 0,
};

/// The instruction's length, where PC was past its opcode and is past its operands.
fn length_between(from: u32, to: u32) -> u8
    ensures { result ≡ plus (plus to (2 ^ 32 - from)) 1 % 256 }
{
    (to.wrapping_sub(from).wrapping_add(1) % 256) as u8
}

/// A length, from a word operand.
fn length_in(value: u64) -> u16
    requires { value < 65536 }
    ensures { result ≡ operands.word value }
{
    value as u16
}

/// A character, a fill, an escape or a mask, from a byte operand.
fn byte_in(value: u64) -> u8
    requires { value < 256 }
    ensures { result ≡ operands.byte_in value }
{
    value as u8
}

/// An address, which is below 2^32 as it is.
fn address_in(addr: u32) -> u32
    ensures { result ≡ operands.longword addr }
{
    addr
}

/// The next operand, which is a length.
#[tactic(auto, unfolding(vax_flat::specs::StringOperands::next_word))]
fn next_length<P: Port>(txn: &mut Txn<P>) -> Result<u16, CutShort>
    requires { 4 ≤ room txn.old }
    ensures exact { Does P.view P.trail operands.next_word result txn.old txn.new }
    ensures keeps { Keeps P.view P.since 4 txn.old txn.new }
{
    let value = next_value(txn, Size::W)?;
    Ok(length_in(value))
}

/// The next operand, which is a byte.
#[tactic(auto, unfolding(vax_flat::specs::StringOperands::next_byte))]
fn next_byte<P: Port>(txn: &mut Txn<P>) -> Result<u8, CutShort>
    requires { 4 ≤ room txn.old }
    ensures exact { Does P.view P.trail operands.next_byte result txn.old txn.new }
    ensures keeps { Keeps P.view P.since 4 txn.old txn.new }
{
    let value = next_value(txn, Size::B)?;
    Ok(byte_in(value))
}

/// The next operand, of which the address is taken.
#[tactic(auto, unfolding(vax_flat::specs::StringOperands::next_longword))]
fn next_place<P: Port>(txn: &mut Txn<P>) -> Result<u32, CutShort>
    requires { 4 ≤ room txn.old }
    ensures exact { Does P.view P.trail operands.next_longword result txn.old txn.new }
    ensures keeps { Keeps P.view P.since 4 txn.old txn.new }
{
    let addr = next_address(txn, Size::B)?;
    Ok(address_in(addr))
}

/// Character, length and string.
#[tactic(auto, unfolding(vax_flat::specs::StringOperands::search_operands, vax_flat::specs::StringOperands::length_of))]
pub(crate) fn search_operands<P: Port>(txn: &mut Txn<P>, op: u8) -> Result<Progress, CutShort>
    requires { 13 ≤ room txn.old }
    ensures exact { Does P.view P.trail (operands.search_operands op) result txn.old txn.new }
    ensures keeps { Keeps P.view P.since 13 txn.old txn.new }
{
    let from = txn.reg(15);
    let byte = next_byte(txn)?;
    let len1 = next_length(txn)?;
    let addr1 = next_place(txn)?;
    let delta = length_between(from, begin_anew(txn));
    Ok(Progress {
        op,
        len1,
        addr1,
        byte,
        delta,
        ..NOTHING
    })
}

/// Length, string, table and mask.
#[tactic(auto, unfolding(vax_flat::specs::StringOperands::scan_operands, vax_flat::specs::StringOperands::length_of))]
pub(crate) fn scan_operands<P: Port>(txn: &mut Txn<P>, op: u8) -> Result<Progress, CutShort>
    requires { 17 ≤ room txn.old }
    ensures exact { Does P.view P.trail (operands.scan_operands op) result txn.old txn.new }
    ensures keeps { Keeps P.view P.since 17 txn.old txn.new }
{
    let from = txn.reg(15);
    let len1 = next_length(txn)?;
    let addr1 = next_place(txn)?;
    let table = next_place(txn)?;
    let byte = next_byte(txn)?;
    let delta = length_between(from, begin_anew(txn));
    Ok(Progress {
        op,
        len1,
        addr1,
        byte,
        table,
        delta,
        ..NOTHING
    })
}

/// A length, and two strings of this length.
#[tactic(auto, unfolding(vax_flat::specs::StringOperands::equal_operands, vax_flat::specs::StringOperands::length_of))]
pub(crate) fn equal_operands<P: Port>(txn: &mut Txn<P>, op: u8) -> Result<Progress, CutShort>
    requires { 13 ≤ room txn.old }
    ensures exact { Does P.view P.trail (operands.equal_operands op) result txn.old txn.new }
    ensures fresh { IfOk result (λ p. p.done ≡ 0) }
    ensures keeps { Keeps P.view P.since 13 txn.old txn.new }
{
    let from = txn.reg(15);
    let len = next_length(txn)?;
    let addr1 = next_place(txn)?;
    let addr2 = next_place(txn)?;
    let delta = length_between(from, begin_anew(txn));
    Ok(Progress {
        op,
        len1: len,
        addr1,
        len2: len,
        addr2,
        delta,
        ..NOTHING
    })
}

/// Length and string, fill, length and string.
#[tactic(auto, unfolding(vax_flat::specs::StringOperands::filled_operands, vax_flat::specs::StringOperands::length_of))]
pub(crate) fn filled_operands<P: Port>(txn: &mut Txn<P>, op: u8) -> Result<Progress, CutShort>
    requires { 21 ≤ room txn.old }
    ensures exact { Does P.view P.trail (operands.filled_operands op) result txn.old txn.new }
    ensures fresh { IfOk result (λ p. p.done ≡ 0) }
    ensures keeps { Keeps P.view P.since 21 txn.old txn.new }
{
    let from = txn.reg(15);
    let len1 = next_length(txn)?;
    let addr1 = next_place(txn)?;
    let byte = next_byte(txn)?;
    let len2 = next_length(txn)?;
    let addr2 = next_place(txn)?;
    let delta = length_between(from, begin_anew(txn));
    Ok(Progress {
        op,
        len1,
        addr1,
        byte,
        len2,
        addr2,
        delta,
        ..NOTHING
    })
}

/// Length and string, fill or escape, table, length and string.
#[tactic(auto, unfolding(vax_flat::specs::StringOperands::translated_operands, vax_flat::specs::StringOperands::length_of))]
pub(crate) fn translated_operands<P: Port>(txn: &mut Txn<P>, op: u8) -> Result<Progress, CutShort>
    requires { 25 ≤ room txn.old }
    ensures exact { Does P.view P.trail (operands.translated_operands op) result txn.old txn.new }
    ensures fresh { IfOk result (λ p. p.done ≡ 0) }
    ensures keeps { Keeps P.view P.since 25 txn.old txn.new }
{
    let from = txn.reg(15);
    let len1 = next_length(txn)?;
    let addr1 = next_place(txn)?;
    let byte = next_byte(txn)?;
    let table = next_place(txn)?;
    let len2 = next_length(txn)?;
    let addr2 = next_place(txn)?;
    let delta = length_between(from, begin_anew(txn));
    Ok(Progress {
        op,
        len1,
        addr1,
        byte,
        len2,
        addr2,
        table,
        delta,
        ..NOTHING
    })
}

/// Length and object, length and string.
#[tactic(auto, unfolding(vax_flat::specs::StringOperands::match_operands, vax_flat::specs::StringOperands::length_of))]
pub(crate) fn match_operands<P: Port>(txn: &mut Txn<P>, op: u8) -> Result<Progress, CutShort>
    requires { 17 ≤ room txn.old }
    ensures exact { Does P.view P.trail (operands.match_operands op) result txn.old txn.new }
    ensures fresh { IfOk result (λ p. p.done ≡ 0) }
    ensures keeps { Keeps P.view P.since 17 txn.old txn.new }
{
    let from = txn.reg(15);
    let len1 = next_length(txn)?;
    let addr1 = next_place(txn)?;
    let len2 = next_length(txn)?;
    let addr2 = next_place(txn)?;
    let delta = length_between(from, begin_anew(txn));
    Ok(Progress {
        op,
        len1,
        addr1,
        len2,
        addr2,
        delta,
        ..NOTHING
    })
}
