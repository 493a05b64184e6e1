// The types of operands.

ghost use Rattle.std.specs.Prelude.{◌≡◌, ◌≤◌, ◌<◌, ◌+◌, ◌^◌, All, IfOk, OnOk, if◌then◌else◌};
ghost use Rattle.vax_asm_instruction.specs.Stating.{read_of};
ghost use Rattle.vax_asm_instruction.specs.Typing.{base_type, deferred_mode, displaced_mode, operand_type, prepared_type, type_of, typed_operand, unless_faulty, with_register};
ghost use Rattle.vax_asm_instruction.specs.View.{prepared_seen};
ghost use Rattle.vax_lex.specs.Tokens.{IsTokenOf};
ghost use Rattle.vax_asm_first.specs.View.{ChangesScope, counted_of, standing_of, KeepsMark};
ghost use Rattle.vax_asm_scope.specs.Kept.{scope_of};
ghost use Rattle.vax_asm_scope.specs.Scope.{Scope};

use crate::placing::{by_default, operand_as, operand_at};
use crate::references::read_of;
use crate::statement::{Prepared, fault_at, prepare, site_for};
use std::alloc::Global;
use std::rc::Rc;
use vax_asm_encode::{Base, Operand};
use vax_asm_first::{FaultKind, Origin, Site, Standing, site_of};
use vax_asm_statement::is_general;
use vax_isa::{Narrow, OperandKind};
use vax_lex::Token;
use vax_space::NoMemory;
use vax_word::Size;

/// A mode and a register.
fn with_register(mode: u32, register: u8) -> u32
    requires { mode < 16 }
    ensures value { result ≡ with_register mode register }
    ensures few { result ≤ 495 }
{
    16 * mode + u32::from(register)
}

fn displaced_mode(size: Narrow) -> u32
    ensures value { result ≡ displaced_mode size }
    ensures few { result < 16 }
{
    match size {
        Narrow::B => 10,
        Narrow::W => 12,
        Narrow::L => 14,
    }
}

fn deferred_mode(size: Narrow) -> u32
    ensures value { result ≡ deferred_mode size }
    ensures few { result < 16 }
{
    match size {
        Narrow::B => 11,
        Narrow::W => 13,
        Narrow::L => 15,
    }
}

/// The type of what is relative to PC.
fn relative_type(general: bool, size: Narrow) -> u32
    ensures value { result ≡ with_register (if general then 3 else displaced_mode size) 15 }
    ensures few { result ≤ 495 }
{
    if general {
        with_register(3, 15)
    } else {
        with_register(displaced_mode(size), 15)
    }
}

/// The type of a place in memory.
fn base_type(general: bool, base: Base) -> u32
    ensures value { result ≡ base_type general base }
    ensures few { result ≤ 495 }
{
    match base {
        Base::Deferred(n) => with_register(6, n),
        Base::Decrement(n) => with_register(7, n),
        Base::Increment(n) => with_register(8, n),
        Base::IncrementDeferred(n) => with_register(9, n),
        Base::Absolute => with_register(2, 15),
        Base::Displaced { size, register } => with_register(displaced_mode(size), register),
        Base::DisplacedDeferred { size, register } => with_register(deferred_mode(size), register),
        Base::Relative(size) => relative_type(general, size),
        Base::RelativeDeferred(size) => with_register(deferred_mode(size), 15),
    }
}

/// The type of an operand, which may be `G^e`.
fn operand_type(general: bool, operand: Operand) -> u32
    ensures { result ≡ operand_type general operand }
{
    match operand {
        Operand::Literal | Operand::Branch => 0,
        Operand::Immediate => with_register(1, 15),
        Operand::Register(n) => with_register(5, n),
        Operand::Memory(base) => base_type(general, base),
        Operand::Indexed(base, x) => 256 * base_type(general, base) + with_register(4, x),
    }
}

fn unless_faulty(fault: Option<FaultKind>, number: u32) -> Result<u32, FaultKind>
    ensures { result ≡ unless_faulty fault number }
{
    match fault {
        None => Ok(number),
        Some(kind) => Err(kind),
    }
}

/// The type of an operand, or its fault.
fn type_of(
    general: bool,
    kind: OperandKind,
    prepared: &Prepared,
    section: u32,
    at: u32,
    operand: Option<Operand>,
) -> Result<u32, FaultKind>
    requires { at + 6 < 2 ^ 32 }
    ensures { (s : Scope) → result ≡ type_of general kind
        (prepared_seen prepared.now s) section at operand }
{
    let Some(operand) = operand else {
        return Err(FaultKind::Form);
    };
    let fault = fault_at(kind, operand, section, at, prepared.addressed);
    unless_faulty(fault, operand_type(general, operand))
}

/// The type of an operand that would begin at a place, or its fault.
fn type_at(
    standing: &Standing,
    general: bool,
    prepared: &Prepared,
    at: u32,
) -> Result<Result<u32, FaultKind>, NoMemory>
    requires { at + 9 < 2 ^ 32 }
    ensures { IfOk result (λ n. counted_of n (scope_of standing.now.scope)
        ≡ prepared_type general (read_of Size.L)
        (prepared_seen prepared.now (scope_of standing.now.scope)) at (standing_of standing.now)) }
{
    let section = u32::try_from(standing.layout.number()).map_err(|_| NoMemory)?;
    let kind = read_of(Size::L);
    let addressed = by_default(standing.displacement, section, prepared.addressed);
    let operand = operand_at(kind, addressed, section, at);
    Ok(type_of(general, kind, prepared, section, at, operand))
}

/// The number of the type of an operand, as `.NTYPE` gives it: how it is addressed, as an instruction would have it here that reads a
/// longword. Bits 3 to 0 are its register, and bits 7 to 4 its mode: 0 a short literal, 1 immediate, 2 absolute, 3 general, and else
/// that of its specifier. Of an indexed operand bits 7 to 4 are 4, bits 3 to 0 the register of the index, and the byte above them is
/// the type of the place. Nothing but the names changes: those of the operand are used.
///
/// The fault is the first that holds of `Form` where it has no form, or one that may not stand there, and `Range` where a value that
/// is known doesn't fit.
///
/// # Errors
///
/// [`NoMemory`] where memory is refused.
#[tactic(auto, unfolding(crate::specs::Typing::typed_operand))]
pub fn operand_type_here(
    standing: &mut Standing,
    alloc: Global,
    origin: Origin,
    line: &Rc<Vec<u8>>,
    tokens: &[Token],
) -> Result<Result<u32, FaultKind>, NoMemory>
    requires tokens { All (IsTokenOf line.now.value.items) tokens.now }
    ensures number { IfOk result (λ n. counted_of n (scope_of standing.new.scope)
        ≡ typed_operand origin line.now.value.items tokens.now (standing_of standing.old)) }
    ensures same { OnOk result (ChangesScope standing.old standing.new) }
    ensures mark { KeepsMark standing.old standing.new }
{
    let site = site_of(origin, line, standing)?;
    let at = standing.section_size();
    let here = site_for(standing, site, at)?;
    let written = operand_as(standing.absolute, read_of(Size::L), line, tokens);
    let prepared = prepare(standing, alloc, here, written)?;
    type_at(standing, is_general(line, tokens), &prepared, at)
}
