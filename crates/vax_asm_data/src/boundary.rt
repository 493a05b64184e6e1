// Room and boundaries.

ghost use Rattle.std.specs.Prelude.{◌≡◌, ◌≤◌, ◌<◌, ◌^◌, All, IfOk, IfSome, OnOk, Ok, length, replicate};
ghost use Rattle.vax_asm_data.specs.Data.{align_by, align_stated, boundary, boundary_named, boundary_of, byte_of, even_stated, fill_where, filled_to, filling_with, forward, moved, odd_stated, power, room, space_stated, unless_here};
ghost use Rattle.vax_dialect.specs.Differences.{has_further_directives};
ghost use Rattle.vax_lex.specs.Tokens.{IsTokenOf};
ghost use Rattle.vax_asm_sections.specs.Layout.{gap};
ghost use Rattle.vax_asm_sections.specs.View.{part_of};
ghost use Rattle.vax_asm_first.specs.View.{counted_of, part_seen, site_seen, standing_of, Stands, ChangesScope, States, KeepsMark};
ghost use Rattle.vax_asm_scope.specs.Kept.{scope_of};

use std::alloc::Global;
use std::rc::Rc;
use vax_asm_encode::DataKind;
use vax_asm_first::{
    FaultKind, Fixup, Origin, Refused, Site, Standing, first_of, known_count, number_of, site_of,
};
use vax_asm_scope::uses_place;
use vax_asm_sections::Piece;
use vax_asm_statement::{name_alone, parts, text_of};
use vax_lex::{Token, spells};
use vax_space::NoMemory;

/// More bytes than this can't be in a module.
const MOST_BYTES: u64 = 16_777_216;

/// Room for so many items of this kind.
#[tactic(auto, using(crate::proofs::Limits::room_too_large, crate::proofs::Limits::bytes_fit))]
fn make_room(standing: &mut Standing, kind: DataKind, count: u64) -> Result<(), Refused>
    ensures stands { Stands result
        (standing_of standing.new) (room kind (standing_of standing.old) (Ok count)) }
    ensures mark { KeepsMark standing.old standing.new }
{
    if count > MOST_BYTES {
        return Err(Refused::Fault(FaultKind::Large));
    }
    let bytes = kind.bytes() * count as u32;
    standing.put(bytes, Piece::Zeros(bytes))
}

/// `.BLKB`, `.BLKW`, `.BLKL`, `.BLKQ` and `.BLKO`: zero bytes for so many items of this kind, or for one where no count is written.
///
/// [`Refused::Fault`]: `Count` where there are two counts or more, else the first that holds of `Form` where the count is no
/// number, `Undefined` where it isn't known, `Range` where it is negative, `Large` where the section or the module would be
/// too long. [`Refused::NoMemory`] where memory is refused. Nothing of use is left then.
#[tactic(auto, unfolding(crate::specs::Data::space_stated))]
pub fn space(
    standing: &mut Standing,
    alloc: Global,
    origin: Origin,
    line: &Rc<Vec<u8>>,
    kind: DataKind,
    operands: &[Token],
) -> Result<(), Refused>
    requires tokens { All (IsTokenOf line.now.value.items) operands.now }
    requires few { length operands.now < 2 ^ 32 }
    ensures stands { States (space_stated kind origin line.now.value.items operands.now)
        result standing.old standing.new }
    ensures mark { KeepsMark standing.old standing.new }
{
    let Ok(found) = parts(alloc, operands) else {
        return Err(Refused::NoMemory);
    };
    let count = match found.as_slice() {
        [] => None,
        [one] => Some(*one),
        _ => return Err(Refused::Fault(FaultKind::Count)),
    };
    let Ok(site) = site_of(origin, line, standing) else {
        return Err(Refused::NoMemory);
    };
    match known_count(standing, alloc, site, count) {
        Ok(Ok(count)) => make_room(standing, kind, count),
        Ok(Err(fault)) => Err(Refused::Fault(fault)),
        Err(NoMemory) => Err(Refused::NoMemory),
    }
}

/// The power of two that a boundary's name means.
fn boundary_of(name: &[u8]) -> Option<u8>
    ensures value { result ≡ boundary_of name.now }
    ensures few { IfSome result (λ k. k ≤ 9) }
{
    if spells(b"BYTE", name) {
        Some(0)
    } else if spells(b"WORD", name) {
        Some(1)
    } else if spells(b"LONG", name) {
        Some(2)
    } else if spells(b"QUAD", name) {
        Some(3)
    } else if spells(b"PAGE", name) {
        Some(9)
    } else {
        None
    }
}

/// The power of two of the boundary whose name an operand is.
fn boundary_named(line: &[u8], tokens: &[Token]) -> Option<u8>
    requires { All (IsTokenOf line.now) tokens.now }
    ensures value { result ≡ boundary_named line.now tokens.now }
    ensures few { IfSome result (λ k. k ≤ 9) }
{
    let name = name_alone(line, tokens)?;
    boundary_of(text_of(line, name))
}

/// A power of two from 0 to 9.
fn power(number: Result<u64, FaultKind>) -> Result<u8, FaultKind>
    ensures value { result ≡ power number }
    ensures few { IfOk result (λ k. k ≤ 9) }
{
    match number {
        Ok(number) if number <= 9 => Ok(number as u8),
        Ok(_) => Err(FaultKind::Range),
        Err(kind) => Err(kind),
    }
}

fn unless_here(here: bool, number: Result<u8, FaultKind>) -> Result<u8, FaultKind>
    requires few { IfOk number (λ k. k ≤ 9) }
    ensures value { result ≡ unless_here here number }
    ensures few { IfOk result (λ k. k ≤ 9) }
{
    if here { Err(FaultKind::Form) } else { number }
}

/// The boundary that an operand is.
fn boundary(
    standing: &mut Standing,
    alloc: Global,
    site: Site<'_>,
    tokens: &[Token],
) -> Result<Result<u8, FaultKind>, NoMemory>
    requires { All (IsTokenOf site.line.now.value.items) tokens.now }
    ensures number { IfOk result (λ n. counted_of n (scope_of standing.new.scope)
        ≡ boundary (site_seen site.entry) tokens.now
        (boundary_named site.entry.line.now.value.items tokens.now) (scope_of standing.old.scope)) }
    ensures few { IfOk result (λ n. IfOk n (λ k. k ≤ 9)) }
    ensures same { OnOk result (ChangesScope standing.old standing.new) }
    ensures mark { KeepsMark standing.old standing.new }
{
    if let Some(power) = boundary_named(site.line, tokens) {
        return Ok(Ok(power));
    }
    let here = uses_place(site.line, tokens);
    let told = standing.tell(alloc, site.dialect, site.line, tokens, site.here)?;
    Ok(unless_here(here, power(number_of(told.value))))
}

/// `.ALIGN` with zeros.
fn align_to(
    standing: &mut Standing,
    alloc: Global,
    site: Site<'_>,
    operand: &[Token],
) -> Result<(), Refused>
    requires { All (IsTokenOf site.line.now.value.items) operand.now }
    ensures stands { States (align_by (site_seen site.entry) operand.now)
        result standing.old standing.new }
    ensures mark { KeepsMark standing.old standing.new }
{
    match boundary(standing, alloc, site, operand) {
        Ok(Ok(power)) => standing.align(power),
        Ok(Err(kind)) => Err(Refused::Fault(kind)),
        Err(NoMemory) => Err(Refused::NoMemory),
    }
}

/// A number that a byte holds.
fn byte_of(number: Result<u64, FaultKind>) -> Result<u8, FaultKind>
    ensures { result ≡ byte_of number }
{
    match number {
        Ok(number) if number < 256 => Ok(number as u8),
        Ok(_) => Err(FaultKind::Range),
        Err(kind) => Err(kind),
    }
}

/// A byte, so many times.
fn repeated(alloc: Global, byte: u8, count: u32) -> Result<Vec<u8>, NoMemory>
    ensures { IfOk result (λ v. v.items ≡ replicate count byte) }
{
    vec![in alloc; byte; count as usize].map_err(|_| NoMemory)
}

/// A byte, so many times, as a part of a section; zeros alone are room.
fn filling_with(alloc: Global, byte: u8, count: u32) -> Result<Piece<Fixup>, NoMemory>
    ensures { IfOk result (λ p. part_seen (part_of p) ≡ filling_with byte count) }
{
    if byte == 0 {
        Ok(Piece::Zeros(count))
    } else {
        Ok(Piece::Bytes(repeated(alloc, byte, count)?))
    }
}

/// The bytes from a place up to the next multiple of a power of two.
fn gap(size: u32, power: u8) -> u32
    requires { power ≤ 9 }
    ensures { result ≡ gap size (2 ^ power) }
{
    let boundary = 2u32.pow(u32::from(power));
    (boundary - size % boundary) % boundary
}

/// This byte up to a multiple of a power of two, to which the section is aligned at least.
fn fill_to(standing: &mut Standing, alloc: Global, byte: u8, power: u8) -> Result<(), Refused>
    requires { power ≤ 9 }
    ensures stands { States (filled_to byte power) result standing.old standing.new }
    ensures mark { KeepsMark standing.old standing.new }
{
    let more = gap(standing.place(), power);
    let Ok(piece) = filling_with(alloc, byte, more) else {
        return Err(Refused::NoMemory);
    };
    standing.put(more, piece)?;
    standing.align(power)
}

/// `.ALIGN` with the byte that it fills with, where the dialect has that.
fn fill(
    standing: &mut Standing,
    alloc: Global,
    site: Site<'_>,
    operand: &[Token],
    byte: &[Token],
) -> Result<(), Refused>
    requires boundary { All (IsTokenOf site.line.now.value.items) operand.now }
    requires byte { All (IsTokenOf site.line.now.value.items) byte.now }
    ensures stands { States (λ s. fill_where (has_further_directives s.dialect)
        (site_seen site.entry) operand.now byte.now s) result standing.old standing.new }
    ensures mark { KeepsMark standing.old standing.new }
{
    if !standing.dialect.has_further_directives() {
        return Err(Refused::Fault(FaultKind::Count));
    }
    let Ok(power) = boundary(standing, alloc, site, operand) else {
        return Err(Refused::NoMemory);
    };
    let Ok(number) = known_count(standing, alloc, site, Some(byte)) else {
        return Err(Refused::NoMemory);
    };
    match (power, byte_of(number)) {
        (Ok(power), Ok(byte)) => fill_to(standing, alloc, byte, power),
        (Ok(_), Err(kind)) | (Err(kind), Ok(_)) => Err(Refused::Fault(kind)),
        (Err(kind), Err(other)) => Err(Refused::Fault(first_of(kind, other))),
    }
}

/// `.ALIGN`: zero bytes up to a multiple of a power of two, to which the section is aligned at least. The operand is `BYTE`,
/// `WORD`, `LONG`, `QUAD` or `PAGE`, else a number from 0 to 9. Where the dialect has further directives, a second operand is the byte that is put in place of 0.
///
/// [`Refused::Fault`]: `Count` where there is no operand, a second one that the dialect doesn't have, or a third, else the first that holds of `Form` where one is no
/// number or the first uses `.`, `Undefined` where one isn't known, `Range` where the first is below 0 or above 9 or the second is no byte, `Large` where the section or
/// the module would be too long. [`Refused::NoMemory`] where memory is refused. Nothing of use is left then.
#[tactic(auto, unfolding(crate::specs::Data::align_stated))]
pub fn align(
    standing: &mut Standing,
    alloc: Global,
    origin: Origin,
    line: &Rc<Vec<u8>>,
    operands: &[Token],
) -> Result<(), Refused>
    requires tokens { All (IsTokenOf line.now.value.items) operands.now }
    requires few { length operands.now < 2 ^ 32 }
    ensures stands { States (align_stated origin line.now.value.items operands.now)
        result standing.old standing.new }
    ensures mark { KeepsMark standing.old standing.new }
{
    let Ok(found) = parts(alloc, operands) else {
        return Err(Refused::NoMemory);
    };
    let Ok(site) = site_of(origin, line, standing) else {
        return Err(Refused::NoMemory);
    };
    match found.as_slice() {
        [operand] => align_to(standing, alloc, site, operand),
        [operand, byte] => fill(standing, alloc, site, operand, byte),
        _ => Err(Refused::Fault(FaultKind::Count)),
    }
}

/// `.EVEN`: zero bytes up to a multiple of two, to which the section is aligned at least. It has no operand.
///
/// [`Refused`] as for [`align`].
#[tactic(auto, unfolding(crate::specs::Data::even_stated))]
pub fn even(standing: &mut Standing, operands: &[Token]) -> Result<(), Refused>
    ensures stands { States (even_stated operands.now) result standing.old standing.new }
    ensures mark { KeepsMark standing.old standing.new }
{
    if !operands.is_empty() {
        return Err(Refused::Fault(FaultKind::Count));
    }
    standing.align(1)
}

/// `.ODD`: a zero byte, where the next one would have an even place in its section. It has no operand.
///
/// [`Refused::Fault`]: `Count` where there is an operand, `Large` where the section or the module would be too long.
/// [`Refused::NoMemory`] where memory is refused. Nothing of use is left then.
#[tactic(auto, unfolding(crate::specs::Data::odd_stated))]
pub fn odd(standing: &mut Standing, operands: &[Token]) -> Result<(), Refused>
    ensures stands { States (odd_stated operands.now) result standing.old standing.new }
    ensures mark { KeepsMark standing.old standing.new }
{
    if !operands.is_empty() {
        return Err(Refused::Fault(FaultKind::Count));
    }
    let bytes = 1 - standing.place() % 2;
    standing.put(bytes, Piece::Zeros(bytes))
}

/// Goes on at a place of the section, with zero bytes up to it.
///
/// [`Refused::Fault`]: `Range` where the next statement stands behind it, `Large` where the section or the module would be too
/// long. [`Refused::NoMemory`] where memory is refused. Nothing of use is left then.
#[tactic(auto, using(crate::proofs::Limits::too_far))]
fn forward(standing: &mut Standing, to: u64) -> Result<(), Refused>
    ensures stands { States (forward to) result standing.old standing.new }
    ensures mark { KeepsMark standing.old standing.new }
{
    let place = u64::from(standing.place());
    if to < place {
        return Err(Refused::Fault(FaultKind::Range));
    }
    let more = to - place;
    if more > MOST_BYTES {
        return Err(Refused::Fault(FaultKind::Large));
    }
    let bytes = more as u32;
    standing.put(bytes, Piece::Zeros(bytes))
}

/// Goes on at a place of the section, with zero bytes up to it; in an absolute section the place may lie before.
///
/// [`Refused::Fault`]: `Range` where the next statement stands behind it in another section, `Large` where the section or the module would
/// be too long. [`Refused::NoMemory`] where memory is refused. Nothing of use is left then.
#[tactic(auto, unfolding(crate::specs::Data::moved))]
pub fn move_to(standing: &mut Standing, to: u64) -> Result<(), Refused>
    ensures stands { States (moved to) result standing.old standing.new }
    ensures mark { KeepsMark standing.old standing.new }
{
    let place = u64::from(standing.place());
    if standing.in_absolute() && to < place {
        standing.set_back(to as u32);
        return Ok(());
    }
    forward(standing, to)
}
