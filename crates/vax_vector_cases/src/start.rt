//! What steps begin with.
ghost use Rattle.std.specs.Prelude.{ℕ, ◌≡◌, ◌/◌, ◌%◌, ◌^◌, IfOk, slice_index, true};
ghost use Rattle.vax_vectors.specs.Choices.{mode_of};
ghost use Rattle.vax_vectors.specs.Truth.{lies_in};

use crate::dice::Dice;
use crate::operands::Draft;
use std::alloc::{AllocError, Global};
use vax_isa::by_code;
use vax_vectors::{Cell, Page, Start};
use vax_word::{Core, Psl};

/// Which step: its opcode, a seed, a number from 0 on, and the access mode, 0 kernel to 3 user.
#[derive(Clone, Copy)]
pub struct Case {
    pub opcode: u8,
    pub seed: u32,
    pub number: u32,
    pub mode: u8,
}

/// The pages of all cases: two with code, two that any mode may write, one that any mode may read, one for kernel mode, the stack's,
/// the system control block, the handlers, and the kernel and interrupt stacks.
pub static PAGES: [Page; 11] = [
    Page { number: 1, prot: 4 },
    Page { number: 2, prot: 4 },
    Page { number: 3, prot: 4 },
    Page { number: 4, prot: 4 },
    Page {
        number: 5,
        prot: 15,
    },
    Page { number: 6, prot: 2 },
    Page {
        number: 0x3F_FF0F,
        prot: 4,
    },
    Page {
        number: 0x40_0000,
        prot: 2,
    },
    Page {
        number: 0x40_0002,
        prot: 14,
    },
    Page {
        number: 0x40_0004,
        prot: 2,
    },
    Page {
        number: 0x40_0005,
        prot: 2,
    },
];

/// The vectors of the system control block that a step may take.
static VECTORS: [u8; 14] = [
    0x10, 0x14, 0x18, 0x1C, 0x20, 0x24, 0x28, 0x2C, 0x34, 0x40, 0x44, 0x48, 0x4C, 0xC0,
];

/// The status longword at the start.
fn status(dice: &mut Dice, mode: u8) -> Psl
    ensures { result.0 / 2 ^ 24 % 4 ≡ mode % 4 }
{
    let codes = dice.below(16);
    let overflow = 0x20 * dice.below(2);
    let priority = if mode == 0 {
        0x1_0000 * dice.below(32)
    } else {
        0
    };
    let modes = u32::from(mode % 4) * 0x0140_0000;
    Psl(codes + overflow + priority + modes)
}

/// The registers at the start.
fn core_of(draft: &mut Draft, mode: u8, begin: u32) -> Core
    ensures mode { result.psl.0 / 2 ^ 24 % 4 ≡ mode % 4 }
    ensures code { slice_index result.regs 15 ≡ begin }
{
    let psl = status(&mut draft.dice, mode);
    let mut regs = draft.regs;
    regs[13] = 0x7FFE_1F00 + 4 * draft.dice.below(16);
    regs[14] = 0x7FFE_1F40 + 4 * draft.dice.below(16);
    regs[15] = begin;
    let mut stacks = [
        0x8000_0A00,
        0x7FFE_1F80,
        0x7FFE_1FA0,
        0x7FFE_1FC0,
        0x8000_0C00,
    ];
    stacks[(mode % 4) as usize] = 0;
    let requested = draft.dice.below(16) == 0;
    let sisr = if requested {
        1u16 << (1 + draft.dice.below(15))
    } else {
        0
    };
    let timed = draft.dice.below(16) == 0;
    Core {
        regs,
        psl,
        stacks,
        sisr,
        iccs: if timed { 0x40 } else { 0 },
        clock: if timed {
            998 + draft.dice.below(2) as u16
        } else {
            0
        },
    }
}

/// Puts the vectors of the system control block into memory.
fn put_vectors(draft: &mut Draft) -> Result<(), AllocError> {
    let unusual = draft.dice.below(16);
    for offset in VECTORS {
        let low = if unusual < 4 { unusual } else { 0 };
        let place = u32::from(offset);
        draft.put(0x8000_0000 + place, 4, 0x8000_0400 + 4 * (place % 64) + low)?;
    }
    Ok(())
}

/// Puts numbers onto the stack.
fn put_stack(draft: &mut Draft) -> Result<(), AllocError> {
    for k in 0..32u32 {
        let value = if draft.dice.below(2) == 0 {
            draft.dice.value()
        } else {
            draft.dice.address()
        };
        draft.put(0x7FFE_1F00 + 4 * k, 4, value)?;
    }
    Ok(())
}

/// The same bytes by ascending addresses, of each address the first that was put there.
fn in_order(ram: Vec<Cell>) -> Result<Vec<Cell>, AllocError> {
    let mut ram = ram;
    ram.sort_by_key(|cell: &Cell| cell.addr)?;
    ram.dedup_by_key(|cell: &mut Cell| cell.addr);
    Ok(ram)
}

/// Where the instruction begins: in the middle of the first page with code, or near that page's end.
fn begin_of(dice: &mut Dice) -> u32
    ensures { result / 512 ≡ 1 }
{
    if dice.below(4) == 0 {
        0x3FE - dice.below(6)
    } else {
        0x280
    }
}

/// The pages of all cases.
#[tactic(auto, unfolding(vax_vectors::specs::Truth::lies_in))]
fn pages_of(alloc: Global) -> Result<Vec<Page>, AllocError>
    ensures { IfOk result
        (λ pages. (addr : ℕ) → addr / 512 ≡ 1 → lies_in pages.items addr ≡ true) }
{
    Ok(Vec::from_array(alloc, PAGES)?)
}

/// What a step begins with, in the access mode of a case: the same for the same case. No page is absent, and PC lies in one.
pub fn start_of(alloc: Global, case: Case) -> Result<Start, AllocError>
    ensures mode { IfOk result (λ start. mode_of start ≡ case.mode % 4) }
    ensures code { IfOk result (λ start.
        lies_in start.pages.items (slice_index start.core.regs 15) ≡ true) }
{
    let mut dice = Dice::new(case.opcode, case.seed, case.number);
    let mut regs = [0; 16];
    for n in 0..13usize {
        regs[n] = dice.value();
    }
    let mut draft = Draft {
        dice,
        code: Vec::new(alloc),
        regs,
        ram: Vec::new(alloc),
        pointers: 0x900,
    };
    put_instruction(&mut draft, case)?;
    let begin = begin_of(&mut draft.dice);
    put_code(&mut draft, begin)?;
    put_stack(&mut draft)?;
    put_vectors(&mut draft)?;
    let core = core_of(&mut draft, case.mode, begin);
    Ok(Start {
        core,
        pages: pages_of(alloc)?,
        absent: Vec::new(alloc),
        ram: in_order(draft.ram)?,
    })
}

/// The instruction's bytes.
fn put_instruction(draft: &mut Draft, case: Case) -> Result<(), AllocError> {
    if draft.code.push(case.opcode).is_err() {
        return Err(AllocError);
    }
    if let Some(row) = by_code(case.opcode) {
        for k in 0..row.count {
            let kind = row.operands[(k % 6) as usize];
            let form = case.number.wrapping_add(7 * u32::from(k));
            let any = draft.dice.below(3) == 0;
            let number = if any { draft.dice.next() } else { form };
            draft.push_operand(kind, number)?;
        }
    }
    Ok(())
}

/// Puts the instruction's bytes into memory.
fn put_code(draft: &mut Draft, begin: u32) -> Result<(), AllocError> {
    for k in 0..64u32 {
        if let Some(byte) = draft.code.get(k as usize).copied() {
            draft.put(begin.wrapping_add(k), 1, u32::from(byte))?;
        }
    }
    Ok(())
}
