//! Operand specifiers.
ghost use Rattle.std.specs.Prelude.{◌≡◌, ◌+◌, ◌^◌, ◌<◌, ◌≤◌, IfOk};
ghost use Rattle.vax_flat.specs.Form.{IsDisplacement, IsForm};
ghost use Rattle.vax_flat.specs.Operand.{form_of, at_address, literal, in_register, register_value, addressed, formed, specified, branched, next_operand, IsWidth, IsTarget, Fits};
ghost use Rattle.vax_undo.specs.Transaction.{present, room, Keeps, Does};
ghost use Rattle.vax_operand.specs.Located.{LocatesEverywhere};
ghost use Rattle.vax_operand.specs.Addressed.{direct, based, prefixed, located, IsMemory};

use crate::memory::{check, fetch, read};
use vax_flat::{
    Cut, Exception, Form, Operand, decode, extend, is_no_base, is_reserved, reaches_pc,
};
use vax_isa::{Letter, OperandKind};
use vax_space::Access;
use vax_undo::{CutShort, Port, Txn};

/// An operand at an address: one that is read is read, one that is modified is checked for writing.
#[inline]
#[tactic(auto, using(vax_undo::proofs::Trail::over_trail_raises), unfolding(vax_flat::specs::Operand::at_address))]
fn locate<P: Port>(txn: &mut Txn<P>, kind: OperandKind, addr: u32) -> Result<Operand, CutShort>
    requires width { IsWidth kind.width }
    ensures exact { Does P.view P.trail (at_address kind addr) result txn.old txn.new }
    ensures fits { IfOk result (Fits kind) }
    ensures keeps { Keeps P.view P.since 0 txn.old txn.new }
{
    match kind.letter {
        Letter::Read => match read(txn, addr, kind.width as u32) {
            Ok(value) => Ok(Operand::Value(value)),
            Err(short) => Err(short),
        },
        Letter::Modify => match check(txn, addr, kind.width as u32, Access::Write) {
            Ok(()) => Ok(Operand::Memory(addr)),
            Err(short) => Err(short),
        },
        Letter::Write => Ok(Operand::Memory(addr)),
        Letter::Address => Ok(Operand::Memory(addr)),
        Letter::Field => Ok(Operand::Memory(addr)),
        Letter::Branch => Err(txn.cut(Cut::Event(Exception::Mode))),
    }
}

/// A literal, which is for an operand that is read alone.
#[inline]
#[tactic(auto, using(vax_undo::proofs::Trail::over_trail_raises), unfolding(vax_flat::specs::Operand::literal))]
fn short_literal<P: Port>(
    txn: &mut Txn<P>,
    kind: OperandKind,
    value: u8,
) -> Result<Operand, CutShort>
    requires small { value < 64 }
    requires width { IsWidth kind.width }
    ensures exact { Does P.view P.trail (literal kind.letter value) result txn.old txn.new }
    ensures fits { IfOk result (Fits kind) }
    ensures keeps { Keeps P.view P.since 0 txn.old txn.new }
{
    match kind.letter {
        Letter::Read => Ok(Operand::Value(value as u64)),
        Letter::Modify => Err(txn.cut(Cut::Event(Exception::Mode))),
        Letter::Write => Err(txn.cut(Cut::Event(Exception::Mode))),
        Letter::Address => Err(txn.cut(Cut::Event(Exception::Mode))),
        Letter::Field => Err(txn.cut(Cut::Event(Exception::Mode))),
        Letter::Branch => Err(txn.cut(Cut::Event(Exception::Mode))),
    }
}

/// The value of a register, or of the pair of a quadword.
#[inline(always)]
#[tactic(auto, unfolding(vax_flat::specs::Operand::register_value))]
pub(crate) fn value_in<P: Port>(txn: &Txn<P>, width: u8, n: u8) -> u64
    requires width { IsWidth width }
    requires below { n < 15 }
    requires pair { width ≡ 8 → n < 14 }
    ensures exact { result ≡ register_value width n (present P.view txn.now).state }
    ensures fits { result < 256 ^ width }
{
    let low = txn.reg(n);
    match width {
        1 => (low & 0xff) as u64,
        2 => (low & 0xffff) as u64,
        4 => low as u64,
        _ => low as u64 | (txn.reg(n + 1) as u64) << 32,
    }
}

/// A register as an operand.
#[inline]
#[tactic(auto, using(vax_undo::proofs::Trail::over_trail_raises), unfolding(vax_flat::specs::Operand::in_register))]
fn register_operand<P: Port>(
    txn: &mut Txn<P>,
    kind: OperandKind,
    n: u8,
) -> Result<Operand, CutShort>
    requires of_core { n < 16 }
    requires width { IsWidth kind.width }
    ensures exact { Does P.view P.trail (in_register kind n) result txn.old txn.new }
    ensures fits { IfOk result (Fits kind) }
    ensures keeps { Keeps P.view P.since 0 txn.old txn.new }
{
    if reaches_pc(kind.width, n) {
        return Err(txn.cut(Cut::Event(Exception::Mode)));
    }
    match kind.letter {
        Letter::Read => Ok(Operand::Value(value_in(txn, kind.width, n))),
        Letter::Modify => Ok(Operand::Register(n)),
        Letter::Write => Ok(Operand::Register(n)),
        Letter::Address => Err(txn.cut(Cut::Event(Exception::Mode))),
        Letter::Field => Ok(Operand::FieldRegister(n)),
        Letter::Branch => Err(txn.cut(Cut::Event(Exception::Mode))),
    }
}

/// The address that a memory form gives, with what it does to its register.
#[inline]
#[tactic(auto, using(vax_undo::proofs::Trail::over_trail_raises), unfolding(vax_flat::specs::Operand::addressed))]
fn address<P: Port>(txn: &mut Txn<P>, width: u8, form: Form) -> Result<u32, CutShort>
    requires width { IsWidth width }
    requires form { IsForm form }
    requires room { 2 ≤ room txn.old }
    ensures exact { Does P.view P.trail (addressed width form) result txn.old txn.new }
    ensures keeps { Keeps P.view P.since 2 txn.old txn.new }
{
    match form {
        Form::Literal(_) => Err(txn.cut(Cut::Event(Exception::Mode))),
        Form::Index(_) => Err(txn.cut(Cut::Event(Exception::Mode))),
        Form::Register(_) => Err(txn.cut(Cut::Event(Exception::Mode))),
        Form::Deferred(n) => Ok(txn.reg(n)),
        Form::Decrement(n) => {
            let addr = txn.reg(n).wrapping_sub(width as u32);
            txn.set_reg(n, addr);
            Ok(addr)
        }
        Form::Increment(n) => {
            let addr = txn.reg(n);
            txn.set_reg(n, addr.wrapping_add(width as u32));
            Ok(addr)
        }
        Form::IncrementDeferred(n) => {
            let at = txn.reg(n);
            let pointer = read(txn, at, 4)? as u32;
            txn.set_reg(n, at.wrapping_add(4));
            Ok(pointer)
        }
        Form::Displacement { width, register } => {
            let displacement = extend(width, fetch(txn, width as u32)?);
            Ok(txn.reg(register).wrapping_add(displacement))
        }
        Form::DisplacementDeferred { width, register } => {
            let displacement = extend(width, fetch(txn, width as u32)?);
            let at = txn.reg(register).wrapping_add(displacement);
            let pointer = read(txn, at, 4)?;
            Ok(pointer as u32)
        }
    }
}

/// The address of a form that is no index.
#[inline]
#[tactic(auto, using(vax_undo::proofs::Trail::over_trail_raises), unfolding(crate::specs::Addressed::direct))]
fn direct_address<P: Port>(
    txn: &mut Txn<P>,
    letter: Letter,
    width: u8,
    form: Form,
) -> Result<u32, CutShort>
    requires width { IsWidth width }
    requires form { IsForm form }
    requires room { 2 ≤ room txn.old }
    ensures exact { Does P.view P.trail (direct letter width form) result txn.old txn.new }
    ensures keeps { Keeps P.view P.since 2 txn.old txn.new }
{
    if is_reserved(letter, form) {
        return Err(txn.cut(Cut::Event(Exception::Mode)));
    }
    address(txn, width, form)
}

/// The address of a base form, indexed by register `x`.
#[inline]
#[tactic(auto, using(vax_undo::proofs::Trail::over_trail_raises), unfolding(crate::specs::Addressed::based))]
fn based_address<P: Port>(txn: &mut Txn<P>, width: u8, x: u8, base: Form) -> Result<u32, CutShort>
    requires width { IsWidth width }
    requires of_core { x < 16 }
    requires form { IsForm base }
    requires room { 2 ≤ room txn.old }
    ensures exact { Does P.view P.trail (based width x base) result txn.old txn.new }
    ensures keeps { Keeps P.view P.since 2 txn.old txn.new }
{
    if is_no_base(x, base) {
        return Err(txn.cut(Cut::Event(Exception::Mode)));
    }
    let addr = address(txn, width, base)?;
    let offset = (width as u32).wrapping_mul(txn.reg(x));
    Ok(addr.wrapping_add(offset))
}

/// The address behind the prefix of an index by register `x`.
#[inline(never)]
#[tactic(auto, using(vax_undo::proofs::Trail::over_trail_raises), unfolding(crate::specs::Addressed::prefixed))]
fn prefixed_address<P: Port>(txn: &mut Txn<P>, width: u8, x: u8) -> Result<u32, CutShort>
    requires width { IsWidth width }
    requires of_core { x < 16 }
    requires room { 3 ≤ room txn.old }
    ensures exact { Does P.view P.trail (prefixed width x) result txn.old txn.new }
    ensures keeps { Keeps P.view P.since 3 txn.old txn.new }
{
    if x == 15 {
        return Err(txn.cut(Cut::Event(Exception::Mode)));
    }
    let byte = fetch(txn, 1)? as u8;
    based_address(txn, width, x, decode(byte))
}

/// The address of any form. One that has none is reserved.
#[inline(never)]
#[tactic(auto, unfolding(crate::specs::Addressed::located))]
fn address_of<P: Port>(
    txn: &mut Txn<P>,
    letter: Letter,
    width: u8,
    form: Form,
) -> Result<u32, CutShort>
    requires width { IsWidth width }
    requires form { IsForm form }
    requires room { 3 ≤ room txn.old }
    ensures exact { Does P.view P.trail (located letter width form) result txn.old txn.new }
    ensures keeps { Keeps P.view P.since 3 txn.old txn.new }
{
    match form {
        Form::Literal(_) => direct_address(txn, letter, width, form),
        Form::Index(x) => prefixed_address(txn, width, x),
        Form::Register(_) => direct_address(txn, letter, width, form),
        Form::Deferred(_) => direct_address(txn, letter, width, form),
        Form::Decrement(_) => direct_address(txn, letter, width, form),
        Form::Increment(_) => direct_address(txn, letter, width, form),
        Form::IncrementDeferred(_) => direct_address(txn, letter, width, form),
        Form::Displacement { .. } => direct_address(txn, letter, width, form),
        Form::DisplacementDeferred { .. } => direct_address(txn, letter, width, form),
    }
}

/// The address in a register.
#[inline(always)]
#[tactic(auto, using(vax_undo::proofs::Trail::over_trail_raises), unfolding(crate::specs::Addressed::located, crate::specs::Addressed::direct, vax_flat::specs::Operand::is_reserved, vax_flat::specs::Operand::addressed))]
fn deferred_address<P: Port>(
    txn: &mut Txn<P>,
    letter: Letter,
    width: u8,
    n: u8,
) -> Result<u32, CutShort>
    requires of_core { n < 16 }
    ensures exact { Does P.view P.trail (located letter width (Form.Deferred n))
        result txn.old txn.new }
    ensures keeps { Keeps P.view P.since 0 txn.old txn.new }
{
    let _ = (letter, width);
    if n == 15 {
        return Err(txn.cut(Cut::Event(Exception::Mode)));
    }
    Ok(txn.reg(n))
}

/// The address at a displacement of one byte from a register.
#[inline(always)]
#[tactic(auto, using(vax_undo::proofs::Trail::over_trail_raises), unfolding(crate::specs::Addressed::located, crate::specs::Addressed::direct, vax_flat::specs::Operand::is_reserved, vax_flat::specs::Operand::addressed))]
fn near_address<P: Port>(
    txn: &mut Txn<P>,
    letter: Letter,
    width: u8,
    n: u8,
) -> Result<u32, CutShort>
    requires of_core { n < 16 }
    requires room { 1 ≤ room txn.old }
    ensures exact { Does P.view P.trail (located letter width (Form.Displacement 1 n))
        result txn.old txn.new }
    ensures keeps { Keeps P.view P.since 1 txn.old txn.new }
{
    let _ = (letter, width);
    let displacement = extend(1, fetch(txn, 1)?);
    Ok(txn.reg(n).wrapping_add(displacement))
}

/// The address of an operand that lies in memory, by its specifier byte. The two commonest forms are told from the byte alone.
#[inline(always)]
#[tactic(auto, unfolding(vax_flat::specs::Operand::form_of))]
pub(crate) fn address_near<P: Port>(
    txn: &mut Txn<P>,
    letter: Letter,
    width: u8,
    byte: u8,
) -> Result<u32, CutShort>
    requires width { IsWidth width }
    requires room { 3 ≤ room txn.old }
    ensures exact { Does P.view P.trail (located letter width (form_of byte))
        result txn.old txn.new }
    ensures keeps { Keeps P.view P.since 3 txn.old txn.new }
{
    match byte >> 4 {
        6 => deferred_address(txn, letter, width, byte & 15),
        10 => near_address(txn, letter, width, byte & 15),
        _ => address_of(txn, letter, width, decode(byte)),
    }
}

/// What lies at the address of a specifier byte.
#[inline(never)]
fn operand_there<P: Port>(
    txn: &mut Txn<P>,
    kind: OperandKind,
    byte: u8,
) -> Result<Operand, CutShort>
    requires width { IsWidth kind.width }
    requires room { 3 ≤ room txn.old }
    ensures exact { Does P.view P.trail
        (λ s next. located kind.letter kind.width (form_of byte) s
        (λ addr s. at_address kind addr s next))
        result txn.old txn.new }
    ensures fits { IfOk result (Fits kind) }
    ensures keeps { Keeps P.view P.since 3 txn.old txn.new }
{
    match address_near(txn, kind.letter, kind.width, byte) {
        Ok(addr) => locate(txn, kind, addr),
        Err(short) => Err(short),
    }
}

/// An operand that lies in memory, by its specifier byte.
#[inline(always)]
fn memory_operand<P: Port>(
    txn: &mut Txn<P>,
    kind: OperandKind,
    byte: u8,
) -> Result<Operand, CutShort>
    requires width { IsWidth kind.width }
    requires memory { IsMemory (form_of byte) }
    requires room { 3 ≤ room txn.old }
    ensures exact { Does P.view P.trail (formed kind (form_of byte)) result txn.old txn.new }
    ensures fits { IfOk result (Fits kind) }
    ensures keeps { Keeps P.view P.since 3 txn.old txn.new }
{
    operand_there(txn, kind, byte)
}

/// An operand of a specifier byte: a literal, a register, or one that lies in memory.
#[inline]
#[tactic(auto, unfolding(vax_flat::specs::Operand::formed, vax_flat::specs::Operand::form_of))]
fn by_byte<P: Port>(txn: &mut Txn<P>, kind: OperandKind, byte: u8) -> Result<Operand, CutShort>
    requires width { IsWidth kind.width }
    requires room { 3 ≤ room txn.old }
    ensures exact { Does P.view P.trail (formed kind (form_of byte)) result txn.old txn.new }
    ensures fits { IfOk result (Fits kind) }
    ensures keeps { Keeps P.view P.since 3 txn.old txn.new }
{
    match byte >> 4 {
        5 => register_operand(txn, kind, byte & 15),
        0 | 1 | 2 | 3 => short_literal(txn, kind, byte),
        _ => memory_operand(txn, kind, byte),
    }
}

/// A specifier at PC.
#[inline]
#[tactic(auto, unfolding(vax_flat::specs::Operand::specified))]
fn specified<P: Port>(txn: &mut Txn<P>, kind: OperandKind) -> Result<Operand, CutShort>
    requires width { IsWidth kind.width }
    requires room { 4 ≤ room txn.old }
    ensures exact { Does P.view P.trail (specified kind) result txn.old txn.new }
    ensures fits { IfOk result (Fits kind) }
    ensures keeps { Keeps P.view P.since 4 txn.old txn.new }
{
    match fetch(txn, 1) {
        Ok(byte) => by_byte(txn, kind, byte as u8),
        Err(short) => Err(short),
    }
}

/// A branch displacement at PC.
#[inline]
#[tactic(auto, unfolding(vax_flat::specs::Operand::branched))]
fn branch_target<P: Port>(txn: &mut Txn<P>, width: u8) -> Result<Operand, CutShort>
    requires width { IsDisplacement width }
    requires room { 1 ≤ room txn.old }
    ensures exact { Does P.view P.trail (branched width) result txn.old txn.new }
    ensures target { IfOk result IsTarget }
    ensures keeps { Keeps P.view P.since 1 txn.old txn.new }
{
    match fetch(txn, width as u32) {
        Ok(value) => {
            let displacement = extend(width, value);
            Ok(Operand::Target(txn.reg(15).wrapping_add(displacement)))
        }
        Err(short) => Err(short),
    }
}

/// One operand, by its letter.
#[inline]
#[tactic(auto, unfolding(vax_flat::specs::Operand::next_operand))]
fn by_letter<P: Port>(txn: &mut Txn<P>, kind: OperandKind) -> Result<Operand, CutShort>
    requires width { IsWidth kind.width }
    requires displacement { kind.letter ≡ Letter.Branch → IsDisplacement kind.width }
    requires room { 4 ≤ room txn.old }
    ensures exact { Does P.view P.trail (next_operand kind) result txn.old txn.new }
    ensures fits { IfOk result (Fits kind) }
    ensures keeps { Keeps P.view P.since 4 txn.old txn.new }
{
    match kind.letter {
        Letter::Read => specified(txn, kind),
        Letter::Modify => specified(txn, kind),
        Letter::Write => specified(txn, kind),
        Letter::Address => specified(txn, kind),
        Letter::Field => specified(txn, kind),
        Letter::Branch => branch_target(txn, kind.width),
    }
}

/// Reads one operand at PC, does its side effects and moves PC past it (VAX Architecture Reference Manual, operand specifiers).
///
/// An operand that is read is answered by its value; one that is modified is checked for writing, and where it lies is answered.
/// The cut is the reserved addressing mode exception, an access violation, or the first page of the specifier that is absent. `exact`
/// says what the call does to whatever comes next, `everywhere` the same of each memory that the port stands for.
#[inline]
pub fn next<P: Port>(txn: &mut Txn<P>, kind: OperandKind) -> Result<Operand, CutShort>
    requires width { IsWidth kind.width }
    requires displacement { kind.letter ≡ Letter.Branch → IsDisplacement kind.width }
    requires room { 4 ≤ room txn.old }
    ensures exact { Does P.view P.trail (next_operand kind) result txn.old txn.new }
    ensures everywhere { LocatesEverywhere P.view (next_operand kind) result txn.old txn.new }
    ensures fits { IfOk result (Fits kind) }
    ensures keeps { Keeps P.view P.since 4 txn.old txn.new }
{
    by_letter(txn, kind)
}
