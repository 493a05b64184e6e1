//! Values of operands, read and written.
ghost use Rattle.std.specs.Prelude.{◌≡◌, ◌+◌, ◌*◌, ◌/◌, ◌^◌, ◌<◌, ◌≤◌, IfOk};
ghost use Rattle.vax_word.specs.Arithmetic.{bytes_of};
ghost use Rattle.vax_isa.specs.Actions.{size_of};
ghost use Rattle.vax_space.specs.declared.Access.TheVariants as access;
ghost use Rattle.vax_isa.specs.declared.Letter.TheVariants as letter;
ghost use Rattle.vax_flat.specs.declared.Operand.TheVariants as operand;
ghost use Rattle.vax_flat.specs.Operand.{form_of, formed, in_register, read_at, IsWidth, IsPlace};
ghost use Rattle.vax_flat.specs.Rows.{read_of, write_of, value_at, value_of, address_in, with_value, stored, read_value, modify_value, write_place, address_value, branch_target};
ghost use Rattle.vax_undo.specs.Transaction.{room, Keeps, Acts, Does, Updates};
ghost use Rattle.vax_operand.specs.Addressed.{located, checked, modified, modified_there, IsMemory};
ghost use Rattle.vax_flat.specs.declared.Form.TheVariants as form;
ghost use Rattle.vax_flat.specs.Form.{IsDisplacement};

use crate::memory::{check, fetch, read, write};
use crate::specifier::{address_near, next, value_in};
use vax_flat::{Cut, Exception, Operand, extend, reaches_pc};
use vax_isa::{Letter, Narrow, OperandKind};
use vax_space::Access;
use vax_undo::{CutShort, Port, Txn};
use vax_word::Size;

/// The bytes of a size, as an operand's kind has them.
#[inline(always)]
pub fn width_of(size: Size) -> u8
    ensures exact { result ≡ bytes_of size }
    ensures width { IsWidth result }
{
    match size {
        Size::B => 1,
        Size::W => 2,
        Size::L => 4,
        Size::Q => 8,
    }
}

/// The bytes of a displacement to branch by.
#[inline(always)]
pub fn displacement_width(size: Narrow) -> u8
    ensures exact { result ≡ bytes_of (size_of size) }
    ensures displacement { IsDisplacement result }
    ensures width { IsWidth result }
{
    match size {
        Narrow::B => 1,
        Narrow::W => 2,
        Narrow::L => 4,
    }
}

/// The address of an operand in memory, or that a branch goes to.
#[inline]
#[tactic(auto, unfolding(vax_flat::specs::Rows::address_in))]
fn address_in(operand: Operand) -> u32
    ensures { result ≡ address_in operand }
{
    match operand {
        Operand::Value(_) => 0,
        Operand::Register(_) => 0,
        Operand::Memory(addr) => addr,
        Operand::FieldRegister(_) => 0,
        Operand::Target(addr) => addr,
    }
}

/// Sets a register, or the pair of a quadword. A byte or a word leaves the register's other bits.
#[inline(always)]
#[tactic(auto, unfolding(vax_flat::specs::Rows::with_value))]
fn set_value<P: Port>(txn: &mut Txn<P>, width: u8, n: u8, value: u64)
    requires width { IsWidth width }
    requires below { n < 15 }
    requires pair { width ≡ 8 → n < 14 }
    requires fits { value < 256 ^ width }
    requires room { 2 ≤ room txn.old }
    ensures exact { Updates P.view P.trail (with_value width n value) txn.old txn.new }
    ensures keeps { Keeps P.view P.since 2 txn.old txn.new }
{
    match width {
        1 => txn.set_reg(n, txn.reg(n) / 0x100 * 0x100 + value as u32),
        2 => txn.set_reg(n, txn.reg(n) / 0x1_0000 * 0x1_0000 + value as u32),
        4 => txn.set_reg(n, value as u32),
        _ => {
            txn.set_reg(n, (value & 0xffff_ffff) as u32);
            txn.set_reg(n + 1, (value >> 32) as u32);
        }
    }
}

/// Writes a value of so many bytes to an operand.
#[inline(always)]
#[tactic(auto, unfolding(vax_flat::specs::Rows::stored))]
fn store_at<P: Port>(
    txn: &mut Txn<P>,
    width: u8,
    operand: Operand,
    value: u64,
) -> Result<(), CutShort>
    requires width { IsWidth width }
    requires place { IsPlace width operand }
    requires fits { value < 256 ^ width }
    requires room { 2 ≤ room txn.old }
    ensures exact { Acts P.view P.trail (stored width operand value) result txn.old txn.new }
    ensures keeps { Keeps P.view P.since 2 txn.old txn.new }
{
    match operand {
        Operand::Value(_) => Ok(()),
        Operand::Register(n) => {
            set_value(txn, width, n, value);
            Ok(())
        }
        Operand::Memory(addr) => write(txn, addr, width as u32, value),
        Operand::FieldRegister(_) => Ok(()),
        Operand::Target(_) => Ok(()),
    }
}

/// Writes a value to an operand.
#[inline(always)]
pub fn store<P: Port>(
    txn: &mut Txn<P>,
    size: Size,
    operand: Operand,
    value: u64,
) -> Result<(), CutShort>
    requires place { IsPlace (bytes_of size) operand }
    requires fits { value < 256 ^ bytes_of size }
    requires room { 2 ≤ room txn.old }
    ensures exact { Acts P.view P.trail (stored (bytes_of size) operand value)
        result txn.old txn.new }
    ensures keeps { Keeps P.view P.since 2 txn.old txn.new }
{
    store_at(txn, width_of(size), operand, value)
}

/// The value at the address of a specifier byte.
#[inline(never)]
fn value_there<P: Port>(txn: &mut Txn<P>, width: u8, byte: u8) -> Result<u64, CutShort>
    requires width { IsWidth width }
    requires room { 3 ≤ room txn.old }
    ensures exact { Does P.view P.trail
        (λ s next. located letter.Read width (form_of byte) s (λ addr s. read_at addr width s next))
        result txn.old txn.new }
    ensures fits { IfOk result (λ x. x < 256 ^ width) }
    ensures keeps { Keeps P.view P.since 3 txn.old txn.new }
{
    let addr = address_near(txn, Letter::Read, width, byte)?;
    read(txn, addr, width as u32)
}

/// The value of an operand that lies in memory.
#[inline(always)]
fn value_beyond<P: Port>(txn: &mut Txn<P>, width: u8, byte: u8) -> Result<u64, CutShort>
    requires width { IsWidth width }
    requires memory { IsMemory (form_of byte) }
    requires room { 3 ≤ room txn.old }
    ensures exact { Does P.view P.trail
        (λ s next. formed (read_of width) (form_of byte) s (λ o s. next (value_of o) s))
        result txn.old txn.new }
    ensures fits { IfOk result (λ x. x < 256 ^ width) }
    ensures keeps { Keeps P.view P.since 3 txn.old txn.new }
{
    value_there(txn, width, byte)
}

/// The address of a specifier byte, checked for writing.
#[inline(never)]
#[tactic(auto, unfolding(crate::specs::Addressed::checked))]
fn checked_address<P: Port>(txn: &mut Txn<P>, width: u8, byte: u8) -> Result<u32, CutShort>
    requires width { IsWidth width }
    requires room { 3 ≤ room txn.old }
    ensures exact { Does P.view P.trail (checked width (form_of byte)) result txn.old txn.new }
    ensures keeps { Keeps P.view P.since 3 txn.old txn.new }
{
    let addr = address_near(txn, Letter::Modify, width, byte)?;
    check(txn, addr, width as u32, Access::Write)?;
    Ok(addr)
}

/// The place at the address of a specifier byte, checked for writing, and the value there.
#[inline(always)]
#[tactic(auto, unfolding(crate::specs::Addressed::modified_there))]
fn modified_there<P: Port>(
    txn: &mut Txn<P>,
    width: u8,
    byte: u8,
) -> Result<(Operand, u64), CutShort>
    requires width { IsWidth width }
    requires room { 3 ≤ room txn.old }
    ensures exact { Does P.view P.trail (modified_there width (form_of byte))
        result txn.old txn.new }
    ensures place { IfOk result (λ m. IsPlace width m.0) }
    ensures fits { IfOk result (λ m. m.1 < 256 ^ width) }
    ensures keeps { Keeps P.view P.since 3 txn.old txn.new }
{
    let addr = checked_address(txn, width, byte)?;
    let value = read(txn, addr, width as u32)?;
    Ok((Operand::Memory(addr), value))
}

/// An operand that lies in memory and is modified, and the value there.
#[inline(always)]
fn modified_beyond<P: Port>(
    txn: &mut Txn<P>,
    width: u8,
    byte: u8,
) -> Result<(Operand, u64), CutShort>
    requires width { IsWidth width }
    requires memory { IsMemory (form_of byte) }
    requires room { 3 ≤ room txn.old }
    ensures exact { Does P.view P.trail (modified width (form_of byte)) result txn.old txn.new }
    ensures place { IfOk result (λ m. IsPlace width m.0) }
    ensures fits { IfOk result (λ m. m.1 < 256 ^ width) }
    ensures keeps { Keeps P.view P.since 3 txn.old txn.new }
{
    modified_there(txn, width, byte)
}

/// The address of an operand that is written.
#[inline(never)]
fn written_address<P: Port>(txn: &mut Txn<P>, width: u8, byte: u8) -> Result<u32, CutShort>
    requires width { IsWidth width }
    requires room { 3 ≤ room txn.old }
    ensures exact { Does P.view P.trail (located letter.Write width (form_of byte))
        result txn.old txn.new }
    ensures keeps { Keeps P.view P.since 3 txn.old txn.new }
{
    address_near(txn, Letter::Write, width, byte)
}

/// The place at the address of a specifier byte.
#[inline(always)]
fn place_there<P: Port>(txn: &mut Txn<P>, width: u8, byte: u8) -> Result<Operand, CutShort>
    requires width { IsWidth width }
    requires room { 3 ≤ room txn.old }
    ensures exact { Does P.view P.trail
        (λ s next. located letter.Write width (form_of byte) s
        (λ addr s. next (operand.Memory addr) s))
        result txn.old txn.new }
    ensures place { IfOk result (IsPlace width) }
    ensures keeps { Keeps P.view P.since 3 txn.old txn.new }
{
    let addr = written_address(txn, width, byte)?;
    Ok(Operand::Memory(addr))
}

/// An operand that lies in memory and is written.
#[inline(always)]
fn place_beyond<P: Port>(txn: &mut Txn<P>, width: u8, byte: u8) -> Result<Operand, CutShort>
    requires width { IsWidth width }
    requires memory { IsMemory (form_of byte) }
    requires room { 3 ≤ room txn.old }
    ensures exact { Does P.view P.trail (formed (write_of width) (form_of byte))
        result txn.old txn.new }
    ensures place { IfOk result (IsPlace width) }
    ensures keeps { Keeps P.view P.since 3 txn.old txn.new }
{
    place_there(txn, width, byte)
}

/// The value of an operand in a register.
#[inline(always)]
#[tactic(auto, using(vax_undo::proofs::Trail::over_trail_raises), unfolding(vax_flat::specs::Operand::in_register, vax_flat::specs::Rows::value_of))]
fn value_of_register<P: Port>(txn: &mut Txn<P>, width: u8, n: u8) -> Result<u64, CutShort>
    requires width { IsWidth width }
    requires of_core { n < 16 }
    ensures exact { Does P.view P.trail
        (λ s next. in_register (read_of width) n s (λ o s. next (value_of o) s))
        result txn.old txn.new }
    ensures fits { IfOk result (λ x. x < 256 ^ width) }
    ensures keeps { Keeps P.view P.since 0 txn.old txn.new }
{
    if reaches_pc(width, n) {
        return Err(txn.cut(Cut::Event(Exception::Mode)));
    }
    Ok(value_in(txn, width, n))
}

/// A register that is modified, and the value there.
#[inline(always)]
#[tactic(auto, using(vax_undo::proofs::Trail::over_trail_raises), unfolding(crate::specs::Addressed::modified, vax_flat::specs::Operand::formed, vax_flat::specs::Operand::in_register, vax_flat::specs::Rows::value_at))]
fn modified_register<P: Port>(
    txn: &mut Txn<P>,
    width: u8,
    n: u8,
) -> Result<(Operand, u64), CutShort>
    requires width { IsWidth width }
    requires of_core { n < 16 }
    ensures exact { Does P.view P.trail (modified width (form.Register n)) result txn.old txn.new }
    ensures place { IfOk result (λ m. IsPlace width m.0) }
    ensures fits { IfOk result (λ m. m.1 < 256 ^ width) }
    ensures keeps { Keeps P.view P.since 0 txn.old txn.new }
{
    if reaches_pc(width, n) {
        return Err(txn.cut(Cut::Event(Exception::Mode)));
    }
    Ok((Operand::Register(n), value_in(txn, width, n)))
}

/// A register that is written.
#[inline(always)]
#[tactic(auto, using(vax_undo::proofs::Trail::over_trail_raises), unfolding(vax_flat::specs::Operand::in_register))]
fn place_register<P: Port>(txn: &mut Txn<P>, width: u8, n: u8) -> Result<Operand, CutShort>
    requires width { IsWidth width }
    requires of_core { n < 16 }
    ensures exact { Does P.view P.trail (in_register (write_of width) n) result txn.old txn.new }
    ensures place { IfOk result (IsPlace width) }
    ensures keeps { Keeps P.view P.since 0 txn.old txn.new }
{
    if reaches_pc(width, n) {
        return Err(txn.cut(Cut::Event(Exception::Mode)));
    }
    Ok(Operand::Register(n))
}

/// A literal is no operand that is modified.
#[cold]
#[tactic(auto, using(vax_undo::proofs::Trail::over_trail_raises), unfolding(crate::specs::Addressed::modified, vax_flat::specs::Operand::formed, vax_flat::specs::Operand::literal))]
fn modified_literal<P: Port>(
    txn: &mut Txn<P>,
    width: u8,
    byte: u8,
) -> Result<(Operand, u64), CutShort>
    ensures exact { Does P.view P.trail (modified width (form.Literal byte))
        result txn.old txn.new }
    ensures place { IfOk result (λ m. IsPlace width m.0) }
    ensures fits { IfOk result (λ m. m.1 < 256 ^ width) }
    ensures keeps { Keeps P.view P.since 0 txn.old txn.new }
{
    let _ = (width, byte);
    Err(txn.cut(Cut::Event(Exception::Mode)))
}

/// The value of an operand by its specifier byte.
#[inline(always)]
#[tactic(auto, unfolding(vax_flat::specs::Operand::formed, vax_flat::specs::Operand::form_of, vax_flat::specs::Operand::literal, vax_flat::specs::Rows::value_of))]
fn value_by_byte<P: Port>(txn: &mut Txn<P>, width: u8, byte: u8) -> Result<u64, CutShort>
    requires width { IsWidth width }
    requires room { 3 ≤ room txn.old }
    ensures exact { Does P.view P.trail
        (λ s next. formed (read_of width) (form_of byte) s (λ o s. next (value_of o) s))
        result txn.old txn.new }
    ensures fits { IfOk result (λ x. x < 256 ^ width) }
    ensures keeps { Keeps P.view P.since 3 txn.old txn.new }
{
    match byte >> 4 {
        0 | 1 | 2 | 3 => Ok(byte as u64),
        5 => value_of_register(txn, width, byte & 15),
        _ => value_beyond(txn, width, byte),
    }
}

/// An operand that is modified, and the value there, by its specifier byte.
#[inline(always)]
#[tactic(auto, unfolding(vax_flat::specs::Operand::form_of))]
fn modified_by_byte<P: Port>(
    txn: &mut Txn<P>,
    width: u8,
    byte: u8,
) -> Result<(Operand, u64), CutShort>
    requires width { IsWidth width }
    requires room { 3 ≤ room txn.old }
    ensures exact { Does P.view P.trail (modified width (form_of byte)) result txn.old txn.new }
    ensures place { IfOk result (λ m. IsPlace width m.0) }
    ensures fits { IfOk result (λ m. m.1 < 256 ^ width) }
    ensures keeps { Keeps P.view P.since 3 txn.old txn.new }
{
    match byte >> 4 {
        0 | 1 | 2 | 3 => modified_literal(txn, width, byte),
        5 => modified_register(txn, width, byte & 15),
        _ => modified_beyond(txn, width, byte),
    }
}

/// An operand that is written, by its specifier byte.
#[inline(always)]
#[tactic(auto, using(vax_undo::proofs::Trail::over_trail_raises), unfolding(vax_flat::specs::Operand::formed, vax_flat::specs::Operand::form_of, vax_flat::specs::Operand::literal))]
fn place_by_byte<P: Port>(txn: &mut Txn<P>, width: u8, byte: u8) -> Result<Operand, CutShort>
    requires width { IsWidth width }
    requires room { 3 ≤ room txn.old }
    ensures exact { Does P.view P.trail (formed (write_of width) (form_of byte))
        result txn.old txn.new }
    ensures place { IfOk result (IsPlace width) }
    ensures keeps { Keeps P.view P.since 3 txn.old txn.new }
{
    match byte >> 4 {
        0 | 1 | 2 | 3 => Err(txn.cut(Cut::Event(Exception::Mode))),
        5 => place_register(txn, width, byte & 15),
        _ => place_beyond(txn, width, byte),
    }
}

/// Reads one operand at PC and its value.
#[inline(always)]
#[tactic(auto, unfolding(vax_flat::specs::Rows::read_value, vax_flat::specs::Operand::next_operand, vax_flat::specs::Operand::specified))]
pub fn next_value<P: Port>(txn: &mut Txn<P>, size: Size) -> Result<u64, CutShort>
    requires room { 4 ≤ room txn.old }
    ensures exact { Does P.view P.trail (read_value (bytes_of size)) result txn.old txn.new }
    ensures fits { IfOk result (λ x. x < 256 ^ bytes_of size) }
    ensures keeps { Keeps P.view P.since 4 txn.old txn.new }
{
    let width = width_of(size);
    let byte = fetch(txn, 1)? as u8;
    value_by_byte(txn, width, byte)
}

/// Reads one operand at PC that is modified: where it is, checked for writing, and the value there.
#[inline(always)]
#[tactic(auto, unfolding(crate::specs::Addressed::modified, vax_flat::specs::Rows::modify_value, vax_flat::specs::Operand::next_operand, vax_flat::specs::Operand::specified))]
pub fn next_modified<P: Port>(txn: &mut Txn<P>, size: Size) -> Result<(Operand, u64), CutShort>
    requires room { 4 ≤ room txn.old }
    ensures exact { Does P.view P.trail (modify_value (bytes_of size)) result txn.old txn.new }
    ensures place { IfOk result (λ m. IsPlace (bytes_of size) m.0) }
    ensures fits { IfOk result (λ m. m.1 < 256 ^ bytes_of size) }
    ensures keeps { Keeps P.view P.since 4 txn.old txn.new }
{
    let width = width_of(size);
    let byte = fetch(txn, 1)? as u8;
    modified_by_byte(txn, width, byte)
}

/// Reads one operand at PC that is written: where it is.
#[inline(always)]
#[tactic(auto, unfolding(vax_flat::specs::Rows::write_place, vax_flat::specs::Operand::next_operand, vax_flat::specs::Operand::specified))]
pub fn next_place<P: Port>(txn: &mut Txn<P>, size: Size) -> Result<Operand, CutShort>
    requires room { 4 ≤ room txn.old }
    ensures exact { Does P.view P.trail (write_place (bytes_of size)) result txn.old txn.new }
    ensures place { IfOk result (IsPlace (bytes_of size)) }
    ensures keeps { Keeps P.view P.since 4 txn.old txn.new }
{
    let width = width_of(size);
    let byte = fetch(txn, 1)? as u8;
    place_by_byte(txn, width, byte)
}

/// Reads one operand at PC of which the address is taken.
#[inline]
#[tactic(auto, unfolding(vax_flat::specs::Rows::address_value))]
pub fn next_address<P: Port>(txn: &mut Txn<P>, size: Size) -> Result<u32, CutShort>
    requires room { 4 ≤ room txn.old }
    ensures exact { Does P.view P.trail (address_value (bytes_of size)) result txn.old txn.new }
    ensures keeps { Keeps P.view P.since 4 txn.old txn.new }
{
    let kind = OperandKind {
        letter: Letter::Address,
        width: width_of(size),
    };
    let operand = next(txn, kind)?;
    Ok(address_in(operand))
}

/// Reads the displacement at PC that a branch has: where the branch goes.
#[inline(always)]
#[tactic(auto, unfolding(vax_flat::specs::Rows::branch_target, vax_flat::specs::Operand::next_operand, vax_flat::specs::Operand::branched, vax_flat::specs::Rows::address_in))]
pub fn next_target<P: Port>(txn: &mut Txn<P>, size: Narrow) -> Result<u32, CutShort>
    requires room { 4 ≤ room txn.old }
    ensures exact { Does P.view P.trail (branch_target (bytes_of (size_of size)))
        result txn.old txn.new }
    ensures keeps { Keeps P.view P.since 4 txn.old txn.new }
{
    let width = displacement_width(size);
    let value = fetch(txn, width as u32)?;
    let displacement = extend(width, value);
    Ok(txn.reg(15).wrapping_add(displacement))
}
