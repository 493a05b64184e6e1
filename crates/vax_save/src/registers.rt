//! The registers in a saved state.
ghost use Rattle.std.specs.Prelude.{◌≡◌, ◌<◌, true, false, length, IfOk};
ghost use Rattle.vax_save.specs.Restoring as spec;
ghost use Rattle.vax_save.specs.Restoring.{Gives};
ghost use Rattle.vax_save.specs.Views.{IsOpcode, behind, cursor};

use crate::cursor::{Cursor, Role};
use crate::reading::{byte_at, longword_at, word_at};
use crate::{CORE, OPEN, SaveError};
use byteorder::{ByteOrder, LittleEndian};
use vax_cpu::Open;
use vax_word::{Core, Psl};

/// What stands for an opcode where no string instruction is open.
pub(crate) const NO_OPCODE: u16 = 0xFFFF;

/// Fills numbers with longwords.
fn fill<'a>(numbers: &mut [u32], from: Cursor<'a>) -> Result<Cursor<'a>, SaveError>
    ensures len { length numbers.new ≡ length numbers.old }
    ensures gives { Gives (λ x. (numbers.new, cursor x)) result
        (spec.longwords_at (length numbers.old) (cursor from.entry)) }
{
    let mut rest = from;
    for i in 0..numbers.len() {
        let (n, after) = longword_at(rest)?;
        numbers[i] = n;
        rest = after;
    }
    Ok(rest)
}

/// Whether an opcode is that of a string instruction.
fn is_string(opcode: u16) -> bool
    ensures is { result ≡ spec.is_string opcode }
    ensures small { result ≡ true → opcode < 256 }
{
    matches!(opcode, 0x28..=0x2F | 0x39..=0x3B)
}

/// Whether a status longword has a bit that must be 0, trace, trace pending or compatibility mode.
fn has_wrong_bits(psl: u32) -> bool
    ensures { result ≡ spec.has_wrong_bits psl }
{
    (psl >> 8) & 0xFF != 0 || (psl >> 21) & 1 == 1 || (psl >> 28) & 15 != 0 || (psl >> 4) & 1 == 1
}

/// The opcode, which stands 30 bytes on, where the file has all of it.
#[tactic(auto, unfolding(crate::specs::Restoring::opcode_ahead))]
fn opcode_ahead<'a>(from: Cursor<'a>) -> Option<u16>
    ensures { result ≡ spec.opcode_ahead (cursor from.entry) }
{
    match from.rest.get(30..32) {
        Some(bytes) => Some(LittleEndian::read_u16(bytes)),
        None => None,
    }
}

/// Whether first part done is set where no string instruction is open, or clear where one is.
fn is_part_wrong<'a>(role: Role, from: Cursor<'a>, psl: u32) -> bool
    ensures { result ≡ spec.is_part_wrong role (cursor from.entry) psl }
{
    let done = (psl >> 27) & 1 == 1;
    match role {
        Role::Start => done,
        Role::Now => match opcode_ahead(from) {
            Some(opcode) if is_string(opcode) => !done,
            Some(opcode) => opcode == NO_OPCODE && done,
            None => false,
        },
    }
}

/// The status longword.
#[tactic(auto, unfolding(crate::specs::Restoring::status_at))]
fn status_at<'a>(role: Role, from: Cursor<'a>) -> Result<(u32, Cursor<'a>), SaveError>
    ensures gives { Gives (λ x. (x.0, cursor x.1)) result
        (spec.status_at role (cursor from.entry)) }
{
    let (psl, rest) = longword_at(from)?;
    if has_wrong_bits(psl) || is_part_wrong(role, from, psl) {
        return Err(SaveError::Fault {
            place: from.place,
            kind: CORE,
        });
    }
    Ok((psl, rest))
}

/// What stands behind the stack pointers: the requests, the clock and an opcode.
#[derive(Clone, Copy)]
pub(crate) struct Behind {
    sisr: u16,
    iccs: u8,
    clock: u16,
    opcode: u16,
}

/// The error of a field of the registers.
fn fault(place: u32, kind: u8) -> SaveError
    ensures { result ≡ SaveError.Fault place kind }
{
    SaveError::Fault { place, kind }
}

/// The software interrupt requests.
fn requests_at<'a>(from: Cursor<'a>) -> Result<(u16, Cursor<'a>), SaveError>
    ensures { Gives (λ x. (x.0, cursor x.1)) result (spec.requests_at (cursor from.entry)) }
{
    let (sisr, rest) = word_at(from)?;
    if sisr & 1 == 1 {
        return Err(fault(from.place, CORE));
    }
    Ok((sisr, rest))
}

/// The interval clock's control and status, with the byte behind it.
#[tactic(auto, unfolding(crate::specs::Restoring::control_at))]
fn control_at<'a>(from: Cursor<'a>) -> Result<(u8, Cursor<'a>), SaveError>
    ensures { Gives (λ x. (x.0, cursor x.1)) result (spec.control_at (cursor from.entry)) }
{
    let (iccs, rest) = byte_at(from)?;
    if iccs % 64 != 0 {
        return Err(fault(from.place, CORE));
    }
    let (spare, after) = byte_at(rest)?;
    if spare != 0 {
        return Err(fault(rest.place, CORE));
    }
    Ok((iccs, after))
}

/// How far the interval clock has counted.
fn clock_at<'a>(from: Cursor<'a>) -> Result<(u16, Cursor<'a>), SaveError>
    ensures { Gives (λ x. (x.0, cursor x.1)) result (spec.clock_at (cursor from.entry)) }
{
    let (clock, rest) = word_at(from)?;
    if clock > 999 {
        return Err(fault(from.place, CORE));
    }
    Ok((clock, rest))
}

/// What is wrong with an opcode that may not stand there.
fn opcode_kind(role: Role) -> u8
    ensures { result ≡ spec.opcode_kind role }
{
    match role {
        Role::Now => OPEN,
        Role::Start => CORE,
    }
}

/// Whether an opcode may not stand there.
fn is_opcode_wrong(role: Role, opcode: u16) -> bool
    ensures is { result ≡ spec.is_opcode_wrong role opcode }
    ensures right { result ≡ false → IsOpcode opcode }
{
    match role {
        Role::Now => opcode != NO_OPCODE && !is_string(opcode),
        Role::Start => opcode != 0,
    }
}

/// The opcode.
fn opcode_at<'a>(role: Role, from: Cursor<'a>) -> Result<(u16, Cursor<'a>), SaveError>
    ensures gives { Gives (λ x. (x.0, cursor x.1)) result
        (spec.opcode_at role (cursor from.entry)) }
    ensures right { IfOk result (λ x. IsOpcode x.0) }
{
    let (opcode, rest) = word_at(from)?;
    if is_opcode_wrong(role, opcode) {
        return Err(fault(from.place, opcode_kind(role)));
    }
    Ok((opcode, rest))
}

/// The requests, the clock and the opcode.
#[tactic(auto, unfolding(crate::specs::Restoring::behind_at))]
fn behind_at<'a>(role: Role, from: Cursor<'a>) -> Result<(Behind, Cursor<'a>), SaveError>
    ensures gives { Gives (λ x. (behind x.0, cursor x.1)) result
        (spec.behind_at role (cursor from.entry)) }
    ensures right { IfOk result (λ x. IsOpcode x.0.opcode) }
{
    let (sisr, rest) = requests_at(from)?;
    let (iccs, rest) = control_at(rest)?;
    let (clock, rest) = clock_at(rest)?;
    let (opcode, rest) = opcode_at(role, rest)?;
    Ok((
        Behind {
            sisr,
            iccs,
            clock,
            opcode,
        },
        rest,
    ))
}

/// The registers with their opcode.
#[tactic(auto, unfolding(crate::specs::Restoring::core_at))]
pub(crate) fn core_at<'a>(
    role: Role,
    from: Cursor<'a>,
) -> Result<((Core, u16), Cursor<'a>), SaveError>
    ensures gives { Gives (λ x. (x.0, cursor x.1)) result
        (spec.core_at role (cursor from.entry)) }
    ensures right { IfOk result (λ x. IsOpcode x.0.1) }
{
    let mut regs = [0; 16];
    let mut stacks = [0; 5];
    let rest = fill(&mut regs, from)?;
    let (psl, rest) = status_at(role, rest)?;
    let rest = fill(&mut stacks, rest)?;
    let (behind, rest) = behind_at(role, rest)?;
    let core = Core {
        regs,
        psl: Psl(psl),
        stacks,
        sisr: behind.sisr,
        iccs: behind.iccs,
        clock: behind.clock,
    };
    Ok(((core, behind.opcode), rest))
}

/// How many units of the string instruction are done, at least one.
fn units_at<'a>(from: Cursor<'a>) -> Result<(u32, Cursor<'a>), SaveError>
    ensures { Gives (λ x. (x.0, cursor x.1)) result (spec.units_at (cursor from.entry)) }
{
    let (units, rest) = longword_at(from)?;
    if units == 0 {
        return Err(fault(from.place, OPEN));
    }
    Ok((units, rest))
}

/// The string instruction that is open with this opcode, if one is.
#[tactic(auto, unfolding(crate::specs::Restoring::open_at))]
pub(crate) fn open_at<'a>(
    opcode: u16,
    from: Cursor<'a>,
) -> Result<(Option<Open>, Cursor<'a>), SaveError>
    requires { IsOpcode opcode }
    ensures { Gives (λ x. (x.0, cursor x.1)) result (spec.open_at opcode (cursor from.entry)) }
{
    if opcode == NO_OPCODE {
        return Ok((None, from));
    }
    let (units, rest) = units_at(from)?;
    let ((start, _), rest) = core_at(Role::Start, rest)?;
    let opcode = opcode as u8;
    let open = Open {
        opcode,
        start,
        units,
    };
    Ok((Some(open), rest))
}
