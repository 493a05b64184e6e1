//! Reads a saved state whole.
ghost use Rattle.std.specs.Prelude.{◌≡◌, ◌≤◌, ◌<◌, ◌^◌, length, IfOk};
ghost use Rattle.vax_save.specs.Restoring as spec;
ghost use Rattle.vax_save.specs.Restoring.{Gives};
ghost use Rattle.vax_save.specs.Views as view;
ghost use Rattle.vax_save.specs.Views.{cursor};

use crate::cursor::{Cursor, Role};
use crate::memory::memory_at;
use crate::reading::{bytes_at, longword_at, magic_at, steps_at};
use crate::registers::{core_at, open_at};
use crate::{INPUT, SaveError};
use std::alloc::Global;
use vax_cpu::Open;
use vax_space::{Access, Area, Space};
use vax_strpart::{Progress, unpack};
use vax_word::Core;

/// What the fields of a saved state say, one behind the other.
#[derive(Drop)]
pub(crate) struct Contents<'a> {
    pub(crate) steps: u64,
    pub(crate) core: Core,
    pub(crate) latch: Option<Open>,
    /// How much of the input is taken.
    pub(crate) taken: u32,
    pub(crate) input: &'a [u8],
    pub(crate) areas: Vec<Area>,
    /// What stands behind the last field.
    pub(crate) end: Cursor<'a>,
}

/// How much of the input is taken, and the input.
#[tactic(auto, unfolding(crate::specs::Restoring::input_at))]
fn input_at<'a>(from: Cursor<'a>) -> Result<((u32, &'a [u8]), Cursor<'a>), SaveError>
    ensures gives { Gives (λ x. ((x.0.0, x.0.1.now), cursor x.1)) result
        (spec.input_at (cursor from.entry)) }
    ensures within { IfOk result (λ x. x.0.0 ≤ length x.0.1.now) }
    ensures short { IfOk result (λ x. length x.0.1.now < 2 ^ 32) }
{
    let (taken, rest) = longword_at(from)?;
    let (len, rest) = longword_at(rest)?;
    if len < taken {
        return Err(SaveError::Fault {
            place: from.place,
            kind: INPUT,
        });
    }
    let (input, rest) = bytes_at(len, rest)?;
    Ok(((taken, input), rest))
}

/// The fields.
#[tactic(auto, unfolding(crate::specs::Restoring::contents_at))]
pub(crate) fn contents_at<'a>(alloc: Global, bytes: &'a [u8]) -> Result<Contents<'a>, SaveError>
    requires { length bytes.now ≤ 67108864 }
    ensures gives { Gives view.contents result
        (spec.contents_at (record { place = 0; rest = bytes.entry.now })) }
    ensures few { IfOk result (λ x. x.steps ≤ 10 ^ 18) }
    ensures within { IfOk result (λ x. x.taken ≤ length x.input.now) }
    ensures short { IfOk result (λ x. length x.input.now < 2 ^ 32) }
{
    let start = Cursor {
        rest: bytes,
        place: 0,
    };
    let rest = magic_at(start)?;
    let (steps, rest) = steps_at(rest)?;
    let ((core, opcode), rest) = core_at(Role::Now, rest)?;
    let (latch, rest) = open_at(opcode, rest)?;
    let ((taken, input), rest) = input_at(rest)?;
    let (areas, end) = memory_at(alloc, rest)?;
    Ok(Contents {
        steps,
        core,
        latch,
        taken,
        input,
        areas,
        end,
    })
}

/// Whether a range may not be used in the mode of these registers.
fn fails(space: &Space, core: &Core, addr: u32, len: u32, access: Access) -> bool
    ensures { result ≡ spec.fails space.now core.now addr len access }
{
    space.check(addr, len, core.psl.mode(), access).is_err()
}

/// How many bytes a moving instruction moves.
fn moved_count(p: &Progress) -> u16
    ensures { result ≡ spec.moved_in p.now }
{
    p.len1.min(p.len2)
}

/// How many units a string instruction has at most.
fn units_in(p: &Progress) -> u16
    ensures { result ≡ spec.units_in p.now }
{
    match p.op {
        0x2F => moved_count(p),
        0x39 => p.len1,
        0x29 | 0x2D => p.len1.max(p.len2),
        _ => p.len2,
    }
}

/// Whether an instruction moves by a table.
fn is_translating(p: &Progress) -> bool
    ensures { result ≡ spec.is_translating p.now }
{
    p.op == 0x2E || p.op == 0x2F
}

/// How many bytes a writing instruction writes.
fn written_in(p: &Progress) -> u16
    ensures { result ≡ spec.written_in p.now }
{
    if p.op == 0x2F { moved_count(p) } else { p.len2 }
}

/// Whether a range that a writing instruction checks at its start may not be used.
fn ranges_fail(space: &Space, core: &Core, p: &Progress) -> bool
    ensures { result ≡ spec.ranges_fail space.now core.now p.now }
{
    let count = u32::from(moved_count(p));
    let writes = p.op == 0x28 || p.op == 0x2C || is_translating(p);
    writes
        && (fails(space, core, p.addr1, count, Access::Read)
            || (is_translating(p) && count > 0 && fails(space, core, p.table, 256, Access::Read))
            || fails(
                space,
                core,
                p.addr2,
                u32::from(written_in(p)),
                Access::Write,
            ))
}

/// Whether a string instruction has more units done than there are, or its ranges may not be used.
pub(crate) fn is_overdone(space: &Space, core: &Core, latch: Option<Open>) -> bool
    ensures { result ≡ spec.is_overdone latch space.now core.now }
{
    match latch {
        None => false,
        Some(open) => {
            let [r0, r1, r2, r3, r4, r5, ..] = core.regs;
            let p = unpack(open.opcode, &[r0, r1, r2, r3, r4, r5]);
            units_in(&p) < p.done || ranges_fail(space, core, &p)
        }
    }
}
