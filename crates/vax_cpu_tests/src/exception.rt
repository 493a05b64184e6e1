//! Runs with exceptions, changes of stack, interrupts and the console, with fields, queues and calls. The expected values are worked by hand from the manual's rules.
use std::alloc::Global;
use std::test::Fail;
use vax_cpu::*;
use vax_flat::Ending;
use vax_space::{Area, Bytes, Space};
use vax_undo::{Plain, Term};
use vax_word::{Core, Psl};

/// A program at 80000200 and what its run leaves.
struct Row {
    /// The longword of the system control block that is this handler's vector. Every other vector ends the run.
    vector: (u32, u32),
    code: &'static [u8],
    steps: u64,
    ending: Ending,
    /// R1, SP, PC and the status longword.
    registers: [u32; 4],
    /// How many bytes of the console's input are taken.
    taken: u32,
    /// Bytes in memory, and where.
    bytes: &'static [u8],
    at: u32,
}

static ROWS: [Row; 8] = [
    // DIVL3 #0,#7,R1; NOP; and a handler of arithmetic traps, HALT
    Row {
        vector: (0x34 / 4, 0x8000_0208),
        code: &[0xC7, 0x00, 0x07, 0x51, 0x01, 0, 0, 0, 0x00],
        steps: 1,
        ending: Ending::Halt,
        registers: [7, 0x8010_1FF4, 0x8000_0208, 0x1F_0000],
        taken: 0,
        bytes: &[2, 0, 0, 0, 4, 2, 0, 0x80, 2, 0, 0x1F, 0],
        at: 0x8010_1FF4,
    },
    // MOVAL @#^X80000240,R1; MFPR #33,(R1)+; HALT
    Row {
        vector: (0, 2),
        code: &[0xDE, 0x9F, 0x40, 2, 0, 0x80, 0x51, 0xDB, 0x21, 0x81, 0x00],
        steps: 2,
        ending: Ending::Halt,
        registers: [0x8000_0244, 0x8010_2000, 0x8000_020A, 0x1F_0000],
        taken: 1,
        bytes: &[0x41, 0, 0, 0],
        at: 0x8000_0240,
    },
    // PUSHL #^X03C00000; PUSHAB U; REI; U: PUSHL #0; PUSHAB U; REI, which is refused in user mode
    Row {
        vector: (0, 2),
        code: &[
            0xDD, 0x8F, 0, 0, 0xC0, 3, 0x9F, 0xEF, 1, 0, 0, 0, 0x02, 0xDD, 0x00, 0x9F, 0xAF, 0xFB,
            0x02,
        ],
        steps: 5,
        ending: Ending::Vector(0x18),
        registers: [0, 0x7FFF_FFF8, 0x8000_0212, 0x03C0_0008],
        taken: 0,
        bytes: &[0x0D, 2, 0, 0x80, 0, 0, 0, 0],
        at: 0x7FFF_FFF8,
    },
    // MTPR #3,#20; MTPR #0,#18; NOP; and a handler of the software interrupt at level 3, HALT
    Row {
        vector: (0x8C / 4, 0x8000_0208),
        code: &[0xDA, 3, 20, 0xDA, 0, 18, 0x01, 0, 0x00],
        steps: 3,
        ending: Ending::Halt,
        registers: [0, 0x8010_1FF8, 0x8000_0208, 0x3_0000],
        taken: 0,
        bytes: &[6, 2, 0, 0x80, 4, 0, 0, 0],
        at: 0x8010_1FF8,
    },
    // MTPR #64,#24; MTPR #0,#18; BRB to itself; and a handler of the interval clock, HALT
    Row {
        vector: (0xC0 / 4, 0x8000_020C),
        code: &[0xDA, 0x8F, 64, 0, 0, 0, 24, 0xDA, 0, 18, 0x11, 0xFE, 0x00],
        steps: 1002,
        ending: Ending::Halt,
        registers: [0, 0x8010_1FF8, 0x8000_020C, 0x16_0000],
        taken: 0,
        bytes: &[0x0A, 2, 0, 0x80, 4, 0, 0, 0],
        at: 0x8010_1FF8,
    },
    // EXTZV #-1,#2,@#F,R1; EXTZV #32,#0,R2,R3; EXTZV #32,#1,R2,R3, which is refused; .BYTE ^X80; F: .BYTE 1
    Row {
        vector: (0, 2),
        code: &[
            0xEF, 0x8F, 0xFF, 0xFF, 0xFF, 0xFF, 2, 0x9F, 0x18, 2, 0, 0x80, 0x51, 0xEF, 32, 0, 0x52,
            0x53, 0xEF, 32, 1, 0x52, 0x53, 0x80, 1,
        ],
        steps: 2,
        ending: Ending::Vector(0x18),
        registers: [3, 0x8010_2000, 0x8000_0212, 0x1F_0004],
        taken: 0,
        bytes: &[0x80, 1],
        at: 0x8000_0217,
    },
    // INSQUE @#E,@#H; REMQUE @#E,R1; HALT; H: .LONG H,H; E: two longwords
    Row {
        vector: (0, 2),
        code: &[
            0x0E, 0x9F, 0x1C, 2, 0, 0x80, 0x9F, 0x14, 2, 0, 0x80, 0x0F, 0x9F, 0x1C, 2, 0, 0x80,
            0x51, 0x00, 0, 0x14, 2, 0, 0x80, 0x14, 2, 0, 0x80,
        ],
        steps: 2,
        ending: Ending::Halt,
        registers: [0x8000_021C, 0x8010_2000, 0x8000_0212, 0x1F_0004],
        taken: 0,
        bytes: &[
            0x14, 2, 0, 0x80, 0x14, 2, 0, 0x80, 0x14, 2, 0, 0x80, 0x14, 2, 0, 0x80,
        ],
        at: 0x8000_0214,
    },
    // MOVL #^X80101E0B,SP; CALLS #0,@#SUB; HALT; .ENTRY SUB,^M<R2,R3,R4,R5,R6,R7,R8,R9,R10,R11>; MOVL FP,R1; RET
    Row {
        vector: (0, 2),
        code: &[
            0xD0, 0x8F, 0x0B, 0x1E, 0x10, 0x80, 0x5E, 0xFB, 0, 0x9F, 0x0F, 2, 0, 0x80, 0x00, 0xFC,
            0x0F, 0xD0, 0x5D, 0x51, 0x04,
        ],
        steps: 4,
        ending: Ending::Halt,
        registers: [0x8010_1DC8, 0x8010_1E0B, 0x8000_020E, 0x1F_0000],
        taken: 0,
        bytes: &[0, 0, 0, 0, 0, 0, 0xFC, 0xEF],
        at: 0x8010_1DC8,
    },
];

fn area(alloc: Global, first: u32, pages: u32, prot: u8, bytes: &[u8]) -> Result<Area, Fail> {
    Ok(Area {
        first,
        pages,
        prot,
        bytes: Bytes::from(bytes.to_vec(alloc)?),
    })
}

/// A user stack, the system control block, the program and a kernel stack.
fn memory(alloc: Global, row: &Row) -> Result<Plain, Fail> {
    let (place, handler) = row.vector;
    let mut vectors = Vec::new(alloc);
    for k in 0..128u32 {
        let vector = if k == place { handler } else { 2 };
        vectors.extend_from_slice(&vector.to_le_bytes())?;
    }
    let mut areas = Vec::new(alloc);
    areas.push(area(alloc, 0x3F_FFFF, 1, 4, &[])?)?;
    areas.push(area(alloc, 0x40_0000, 1, 2, &vectors)?)?;
    areas.push(area(alloc, 0x40_0001, 1, 14, row.code)?)?;
    areas.push(area(alloc, 0x40_080E, 2, 2, &[])?)?;
    Ok(Plain::new(alloc, Space::new(alloc, areas)?)?)
}

fn has_bytes(port: &Plain, row: &Row) -> bool {
    let mut addr = row.at;
    for byte in row.bytes {
        if port.byte(addr) != Some(*byte) {
            return false;
        }
        addr = addr.wrapping_add(1);
    }
    true
}

#[test]
fn exceptions_and_interrupts(rt: HostRuntime) -> Result<(), Fail> {
    let alloc = rt.alloc();
    for row in &ROWS {
        let mut port = memory(alloc, row)?;
        let mut core = Core {
            regs: [0; 16],
            psl: Psl(0x1F_0000),
            stacks: [0, 0, 0, 0x8000_0000, 0],
            sisr: 0,
            iccs: 0,
            clock: 0,
        };
        core.regs[14] = 0x8010_2000;
        core.regs[15] = 0x8000_0200;
        let mut cpu = Cpu::new(core, Term::new(b"AB".to_vec(alloc)?));
        let batch = cpu.attempts(&mut port, 5000);
        let last = Attempt::Ended(row.ending);
        assert!(rt;
            batch
                == Batch {
                    steps: row.steps,
                    last
                }
        );
        let regs = &cpu.core.regs;
        let Psl(psl) = cpu.core.psl;
        assert!(rt; [regs[1], regs[14], regs[15], psl] == row.registers);
        assert!(rt; cpu.term.place == row.taken);
        assert!(rt; has_bytes(&port, row));
    }
    Ok(())
}
