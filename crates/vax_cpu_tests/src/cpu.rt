//! Steps over plain memory. The expected values are worked by hand from the manual's descriptions of the instructions.
use std::alloc::Global;
use std::test::Fail;
use vax_cpu::*;
use vax_flat::Ending;
use vax_space::{Area, Bytes, Space};
use vax_undo::{Plain, Term};
use vax_word::{Core, Psl};

/// Eight pages from address 0 on, which begin with these bytes and which every mode may write.
fn memory(alloc: Global, bytes: &[u8]) -> Result<Plain, Fail> {
    let mut areas = Vec::new(alloc);
    areas.push(Area {
        first: 0,
        pages: 8,
        prot: 4,
        bytes: Bytes::from(bytes.to_vec(alloc)?),
    })?;
    Ok(Plain::new(alloc, Space::new(alloc, areas)?)?)
}

/// Registers of 0 with this PC and this status longword.
fn registers(pc: u32, psl: u32) -> Core {
    let mut core = Core {
        regs: [0; 16],
        psl: Psl(psl),
        stacks: [0; 5],
        sisr: 0,
        iccs: 0,
        clock: 0,
    };
    core.regs[15] = pc;
    core
}

/// One attempt from these registers, and the registers after it.
fn attempt(alloc: Global, port: &mut Plain, core: Core) -> (Attempt, Core) {
    let mut cpu = Cpu::new(core, Term::new(Vec::new(alloc)));
    let answer = cpu.attempt(port);
    (answer, cpu.core)
}

/// Whether the memory begins with these bytes.
fn begins_with(port: &Plain, bytes: &[u8]) -> bool {
    let mut addr = 0u32;
    for byte in bytes {
        if port.byte(addr) != Some(*byte) {
            return false;
        }
        addr = addr.wrapping_add(1);
    }
    true
}

#[test]
fn absent_pages_of_a_move(rt: HostRuntime) -> Result<(), Fail> {
    let alloc = rt.alloc();
    // MOVL (R1)+,@(R1)+ from the last two bytes of page 0 on. Of the two rows the first has its source over the end of page 2, its pointer
    // in page 3 and its destination over the end of page 4; the second has each in a page of its own. The pages are in the order of use: the
    // source is read before the second specifier.
    let rows = [
        (0x5FE, 0x9FE, [0, 2, 3, 1, 4, 5].as_slice()),
        (0x7FC, 0xC04, [0, 3, 1, 4, 6].as_slice()),
    ];
    for (source, destination, pages) in rows {
        let mut bytes = [0; 0x1000];
        bytes[0x1FE..0x201].copy_from_slice(&[0xD0, 0x81, 0x91]);
        bytes[source..source + 4].copy_from_slice(&[0xEF, 0xCD, 0xAB, 0x89]);
        bytes[source + 4..source + 8].copy_from_slice(&(destination as u32).to_le_bytes());
        let mut port = memory(alloc, &bytes)?;
        let mut core = registers(0x1FE, 7);
        core.regs[1] = source as u32;
        for page in pages {
            port.hide(*page);
            assert!(rt; attempt(alloc, &mut port, core) == (Attempt::Absent(*page), core));
            assert!(rt; begins_with(&port, &bytes), "page {page}");
            port.show(*page);
        }
        for page in pages {
            port.hide(*page);
        }
        for page in pages {
            assert!(rt; attempt(alloc, &mut port, core) == (Attempt::Absent(*page), core));
            assert!(rt; begins_with(&port, &bytes), "page {page}");
            port.show(*page);
        }
        // N is set, Z and V are clear, and C is as it was.
        let mut after = registers(0x201, 9);
        after.regs[1] = source as u32 + 8;
        bytes[destination..destination + 4].copy_from_slice(&[0xEF, 0xCD, 0xAB, 0x89]);
        assert!(rt; attempt(alloc, &mut port, core) == (Attempt::Step(None), after));
        assert!(rt; begins_with(&port, &bytes), "source {source}");
    }
    Ok(())
}

#[test]
fn sums(rt: HostRuntime) -> Result<(), Fail> {
    let alloc = rt.alloc();
    // ADDL2 R2,R3
    let mut port = memory(alloc, &[0xC0, 0x52, 0x53])?;
    // the addend, R3 before and after, and N, Z, V and C in bits 3 to 0
    let rows = [
        (2, 3, 5, 0),
        (1, 0x7FFF_FFFF, 0x8000_0000, 0b1010),
        (1, 0xFFFF_FFFF, 0, 0b0101),
        (0x8000_0000, 0x8000_0000, 0, 0b0111),
        (0xFFFF_FFFF, 0x8000_0000, 0x7FFF_FFFF, 0b0011),
        (0xFFFF_FFFF, 0xFFFF_FFFF, 0xFFFF_FFFE, 0b1001),
    ];
    for (addend, old, sum, codes) in rows {
        let mut core = registers(0, 0);
        core.regs[2] = addend;
        core.regs[3] = old;
        let mut after = registers(3, codes);
        after.regs[2] = addend;
        after.regs[3] = sum;
        assert!(rt;
            attempt(alloc, &mut port, core) == (Attempt::Step(None), after),
            "{addend} + {old}"
        );
    }
    Ok(())
}

#[test]
fn a_batch_up_to_a_halt(rt: HostRuntime) -> Result<(), Fail> {
    let alloc = rt.alloc();
    // MOVL #5,R1; MOVL R1,R2; HALT
    let mut port = memory(alloc, &[0xD0, 0x05, 0x51, 0xD0, 0x51, 0x52, 0x00])?;
    let mut cpu = Cpu::new(registers(0, 0), Term::new(Vec::new(alloc)));
    // The interval clock is on, and runs out with the first step. Its interrupt waits at this priority.
    cpu.core.psl = Psl(0x1F_0000);
    cpu.core.iccs = 0x40;
    cpu.core.clock = 999;
    assert!(rt; cpu.attempt(&mut port) == Attempt::Step(None));
    assert!(rt; (cpu.core.regs[1], cpu.core.regs[15], cpu.core.psl) == (5, 3, Psl(0x1F_0000)));
    assert!(rt; (cpu.core.iccs, cpu.core.clock) == (0xC0, 0));
    let batch = cpu.attempts(&mut port, 10);
    assert!(rt;
        batch
            == Batch {
                steps: 1,
                last: Attempt::Ended(Ending::Halt)
            }
    );
    assert!(rt; (cpu.core.regs[2], cpu.core.regs[15], cpu.core.clock) == (5, 6, 1));
    Ok(())
}

#[test]
fn a_move_in_two_parts(rt: HostRuntime) -> Result<(), Fail> {
    let alloc = rt.alloc();
    // MOVC3 #600,@#^X200,@#^X600
    let mut bytes = [0; 1112];
    bytes[..14].copy_from_slice(&[
        0x28, 0x8F, 0x58, 0x02, 0x9F, 0x00, 0x02, 0x00, 0x00, 0x9F, 0x00, 0x06, 0x00, 0x00,
    ]);
    bytes[512] = 1;
    bytes[1023] = 2;
    bytes[1024] = 3;
    bytes[1111] = 4;
    let mut port = memory(alloc, &bytes)?;
    let start = registers(0, 0);
    let mut cpu = Cpu::new(start, Term::new(Vec::new(alloc)));
    assert!(rt; cpu.attempt(&mut port) == Attempt::Part);
    assert!(rt;
        cpu.latch
            == Some(Open {
                opcode: 0x28,
                start,
                units: 512,
            })
    );
    let regs = cpu.core.regs;
    assert!(rt; (regs[0], regs[1], regs[2], regs[3]) == (0x0E00_0258, 0x200, 0x0200_0258, 0x600));
    assert!(rt; (regs[4], regs[5], regs[15], cpu.core.psl) == (0, 0, 0, Psl(0x0800_0000)));
    assert!(rt; cpu.attempt(&mut port) == Attempt::Step(None));
    let regs = cpu.core.regs;
    assert!(rt; (regs[0], regs[1], regs[2], regs[3]) == (0, 0x458, 0, 0x858));
    assert!(rt; (regs[15], cpu.core.psl, cpu.latch) == (14, Psl(4), None));
    for (addr, byte) in [(0x600, 1), (0x7FF, 2), (0x800, 3), (0x857, 4), (0x858, 0)] {
        assert!(rt; port.byte(addr) == Some(byte));
    }
    Ok(())
}

#[test]
fn an_instruction_that_is_open(rt: HostRuntime) -> Result<(), Fail> {
    let alloc = rt.alloc();
    let start = registers(4, 1);
    for batches in [false, true] {
        // NOP, which isn't read: the open instruction is MOVC3, of which one byte of two is moved
        let mut bytes = [0; 0x202];
        bytes[0] = 1;
        bytes[0x201] = 9;
        let mut port = memory(alloc, &bytes)?;
        let mut core = registers(0, 0x0800_0000);
        core.regs[0] = 0x0E00_0002;
        core.regs[1] = 0x200;
        core.regs[2] = 0x0001_0002;
        core.regs[3] = 0x300;
        let mut cpu = Cpu::new(core, Term::new(Vec::new(alloc)));
        cpu.latch = Some(Open {
            opcode: 0x28,
            start,
            units: 1,
        });
        let answer = if batches {
            cpu.attempts(&mut port, 3).last
        } else {
            cpu.attempt(&mut port)
        };
        assert!(rt; answer == Attempt::Step(None));
        let regs = cpu.core.regs;
        assert!(rt; (regs[0], regs[1], regs[2], regs[3]) == (0, 0x202, 0, 0x302));
        assert!(rt; (regs[15], cpu.core.psl, cpu.latch) == (14, Psl(4), None));
        assert!(rt; (port.byte(0x300), port.byte(0x301)) == (Some(0), Some(9)));
    }
    Ok(())
}

/// The pages of the code, which begins at 80000200 hexadecimal, and of two pages of data behind it.
const CODE: u32 = 0x40_0001;

const DATA: u32 = 0x40_0002;

const MORE_DATA: u32 = 0x40_0003;

/// Code and data in the system region, of which no page is resident.
fn absent_memory(alloc: Global, code: &[u8], data: &[u8]) -> Result<Plain, Fail> {
    let mut areas = Vec::new(alloc);
    areas.push(Area {
        first: CODE,
        pages: 1,
        prot: 14,
        bytes: Bytes::from(code.to_vec(alloc)?),
    })?;
    areas.push(Area {
        first: DATA,
        pages: 2,
        prot: 14,
        bytes: Bytes::from(data.to_vec(alloc)?),
    })?;
    let mut port = Plain::new(alloc, Space::new(alloc, areas)?)?;
    hide_all(&mut port);
    Ok(port)
}

fn hide_all(port: &mut Plain) {
    for page in [CODE, DATA, MORE_DATA] {
        port.hide(page);
    }
}

/// An attempt, after which the page is there that it needed.
fn attempt_and_show(alloc: Global, port: &mut Plain, core: Core) -> (Attempt, Core) {
    let (answer, core) = attempt(alloc, port, core);
    if let Attempt::Absent(page) = answer {
        port.show(page);
    }
    (answer, core)
}

#[test]
fn a_move_over_the_end_of_a_page(rt: HostRuntime) -> Result<(), Fail> {
    let alloc = rt.alloc();
    // MOVAL @#D,R1; MOVL (R1)+,(R1)+; HALT, where D is the last longword of the first page of data
    let code = [
        0xDE, 0x9F, 0xFC, 0x05, 0x00, 0x80, 0x51, 0xD0, 0x81, 0x81, 0x00,
    ];
    let mut data = [0; 516];
    data[508..512].copy_from_slice(&[0x44, 0x33, 0x22, 0x11]);
    let mut port = absent_memory(alloc, &code, &data)?;
    let mut core = registers(0x8000_0200, 0x1F_0000);
    // each attempt's answer, and R1 after it
    let turns = [
        (Attempt::Absent(CODE), 0),
        (Attempt::Step(None), 0x8000_05FC),
        (Attempt::Absent(DATA), 0x8000_05FC),
        (Attempt::Absent(MORE_DATA), 0x8000_05FC),
        (Attempt::Step(None), 0x8000_0604),
        (Attempt::Ended(Ending::Halt), 0x8000_0604),
    ];
    for (answer, r1) in turns {
        let (came, after) = attempt_and_show(alloc, &mut port, core);
        assert!(rt; (came, after.regs[1]) == (answer, r1));
        core = after;
    }
    assert!(rt; core.regs[15] == 0x8000_020A);
    for (addr, byte) in [(0x8000_0600, 0x44), (0x8000_0603, 0x11)] {
        assert!(rt; port.byte(addr) == Some(byte));
    }
    Ok(())
}

#[test]
fn a_loop_whose_pages_are_taken_away(rt: HostRuntime) -> Result<(), Fail> {
    let alloc = rt.alloc();
    // INCL @#D; BRB to it, where each page is taken away before every fourth attempt
    let code = [0xD6, 0x9F, 0x00, 0x04, 0x00, 0x80, 0x11, 0xF8];
    let mut port = absent_memory(alloc, &code, &[0; 4])?;
    let mut core = registers(0x8000_0200, 0x1F_0000);
    let turns = [
        Attempt::Absent(CODE),
        Attempt::Absent(DATA),
        Attempt::Step(None),
        Attempt::Absent(CODE),
        Attempt::Step(None),
        Attempt::Absent(DATA),
        Attempt::Step(None),
        Attempt::Absent(CODE),
        Attempt::Step(None),
        Attempt::Absent(DATA),
        Attempt::Step(None),
        Attempt::Absent(CODE),
        Attempt::Step(None),
    ];
    for (turn, answer) in turns.iter().enumerate() {
        if turn % 4 == 3 {
            hide_all(&mut port);
        }
        let (came, after) = attempt_and_show(alloc, &mut port, core);
        assert!(rt; came == *answer, "turn {turn}");
        core = after;
    }
    assert!(rt; (core.regs[15], port.byte(0x8000_0400)) == (0x8000_0200, Some(3)));
    Ok(())
}

#[test]
fn a_quotient_and_a_case(rt: HostRuntime) -> Result<(), Fail> {
    let alloc = rt.alloc();
    // DIVL3 #-1,#^X80000000,R1; and CASEB #3,#1,#1, which is past its table
    let rows = [
        (
            [
                0xC7, 0x8F, 0xFF, 0xFF, 0xFF, 0xFF, 0x8F, 0x00, 0x00, 0x00, 0x80, 0x51,
            ]
            .as_slice(),
            (0x8000_0000, 0x8000_020C, Psl(0x1F_000A)),
        ),
        (
            [0x8F, 0x03, 0x01, 0x01].as_slice(),
            (0, 0x8000_0208, Psl(0x1F_0000)),
        ),
    ];
    for (code, (r1, pc, psl)) in rows {
        let mut port = absent_memory(alloc, code, &[])?;
        port.show(CODE);
        let (answer, core) = attempt(alloc, &mut port, registers(0x8000_0200, 0x1F_0000));
        assert!(rt; answer == Attempt::Step(None));
        assert!(rt; (core.regs[1], core.regs[15], core.psl) == (r1, pc, psl));
    }
    Ok(())
}
