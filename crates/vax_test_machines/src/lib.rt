//! Machines for tests: spaces of memory, machines with small programs, and what their runs and sessions go with. Each machine has 64 frames, and is
//! between two instructions.
#![tactic(auto)]

ghost use Rattle.std.specs.Prelude.{◌≡◌, ◌≤◌, IfOk};
ghost use Rattle.vax_machine.specs.Console.{IsBetween};
ghost use Rattle.vax_machine.specs.Meaning.{engine};

use std::alloc::Global;
use std::test::Fail;
use vax_debug_names::Legend;
use vax_machine::{Limits, Machine, RunEnd};
use vax_outside::{MemPages, MemSink};
use vax_sched::Schedule;
use vax_space::{Area, Bytes, Space};
use vax_word::{Core, Psl};

/// MOVL #89ABCDEF,@#400, MOVL @#400,R1 and HALT.
pub const MOVES: [u8; 19] = [
    0xD0, 0x8F, 0xEF, 0xCD, 0xAB, 0x89, 0x9F, 0, 4, 0, 0, 0xD0, 0x9F, 0, 4, 0, 0, 0x51, 0,
];

/// BSBB to the INCL of R2, INCL R1, HALT, HALT; INCL R2, RSB.
pub const CALLS: [u8; 9] = [0x10, 4, 0xD6, 0x51, 0, 0, 0xD6, 0x52, 5];

/// Where the subroutine of the calls begins on a machine of `machine_with`.
pub const SUBROUTINE: u32 = 0x8000_0206;

/// CALLS of the procedure, HALT; the procedure: no registers saved, INCL R2, RET.
pub const PROCEDURE: [u8; 11] = [0xFB, 0, 0xAF, 2, 0, 0, 0, 0, 0xD6, 0x52, 4];

/// The page in which a program of `machine_with` lies.
pub const PAGE: u32 = 0x40_0001;

/// So many pages, from page 0 on, which begin with these bytes and which every mode may write.
pub fn pages(alloc: Global, count: u32, bytes: &[u8]) -> Result<Space, Fail> {
    let mut areas = Vec::new(alloc);
    areas.push(Area {
        first: 0,
        pages: count,
        prot: 4,
        bytes: Bytes::from(bytes.to_vec(alloc)?),
    })?;
    Ok(Space::new(alloc, areas)?)
}

/// A machine over a space, with these registers in kernel mode.
pub fn machine_from(alloc: Global, space: Space, regs: [u32; 16]) -> Result<Machine, Fail>
    ensures between { IfOk result (λ m. IsBetween (engine m)) }
{
    let core = Core {
        regs,
        psl: Psl(0x001F_0000),
        stacks: [0; 5],
        sisr: 0,
        iccs: 0,
        clock: 0,
    };
    Ok(Machine::new(alloc, space, core, Vec::new(alloc), 64)?)
}

/// A machine over a space, with registers of 0 in kernel mode.
pub fn machine_over(alloc: Global, space: Space) -> Result<Machine, Fail>
    ensures between { IfOk result (λ m. IsBetween (engine m)) }
{
    machine_from(alloc, space, [0; 16])
}

/// A machine over pages 0 to 7, which begin with these bytes, with registers of 0.
pub fn machine(alloc: Global, bytes: &[u8]) -> Result<Machine, Fail>
    ensures between { IfOk result (λ m. IsBetween (engine m)) }
{
    machine_over(alloc, pages(alloc, 8, bytes)?)
}

/// A machine at 80000200 with two pages, in which the program lies and a stack behind it.
pub fn machine_with(alloc: Global, program: &[u8]) -> Result<Machine, Fail>
    ensures between { IfOk result (λ m. IsBetween (engine m)) }
{
    let mut areas = Vec::new(alloc);
    areas.push(Area {
        first: PAGE,
        pages: 2,
        prot: 14,
        bytes: Bytes::from(program.to_vec(alloc)?),
    })?;
    let mut regs = [0; 16];
    regs[14] = 0x8000_0600;
    regs[15] = 0x8000_0200;
    machine_from(alloc, Space::new(alloc, areas)?, regs)
}

/// Runs for at most 100 steps and 100 attempts.
pub fn run_up(
    machine: &mut Machine,
    schedule: &Schedule,
    file: &mut MemPages,
    sink: &mut MemSink,
) -> RunEnd
    ensures few { (engine machine.old).turns ≤ 100 → (engine machine.new).turns ≤ 100 }
{
    let limits = Limits {
        steps: 100,
        turns: 100,
        listed: true,
    };
    machine.run(&limits, schedule, file, sink)
}

/// What a program is told by that has no sources.
pub fn untold<'a>() -> Legend<'a> {
    Legend {
        symbols: &[],
        lines: &[],
        names: &[],
        preludes: &[],
    }
}

/// What a session goes with.
#[derive(Drop)]
pub struct Around {
    pub limits: Limits,
    pub schedule: Schedule,
    pub file: MemPages,
    pub sink: MemSink,
}

/// A page file, limits of a hundred steps and a thousand turns, and a sink with room for replies of so many bytes.
pub fn surroundings(alloc: Global, room: u32) -> Result<Around, Fail>
    ensures turns { IfOk result (λ a. a.limits.turns ≡ 1000) }
{
    Ok(Around {
        limits: Limits {
            steps: 100,
            turns: 1_000,
            listed: false,
        },
        schedule: Schedule::new(alloc),
        file: MemPages::new(alloc, 8, 100, Vec::new(alloc))?,
        sink: MemSink::new(alloc, [100, room, 0], 100, Vec::new(alloc))?,
    })
}
