//! Instructions over plain memory, with results worked by hand from the manual's rules.
use std::alloc::Global;
use std::test::Fail;
use vax_flat::{Cut, Exception, Flow, Trap};
use vax_isa::Queue;
use vax_space::{Area, Bytes, Space, Violation};
use vax_undo::{Log, Plain, Term, Txn};
use vax_word::{Core, Psl};
use vax_x_queue::*;

/// Where the instruction's first operand lies.
const CODE: u32 = 0x8000_0200;

/// The first of the longwords that the instructions work on.
const DATA: u32 = 0x8000_0400;

/// A page of code, a page of data with longwords at its beginning, and a page behind it that may be read alone.
fn memory(alloc: Global, code: &[u8], longwords: &[u32]) -> Result<Plain, Fail> {
    let mut bytes = Vec::new(alloc);
    for longword in longwords {
        bytes.extend_from_slice(&u32::to_le_bytes(*longword))?;
    }
    let mut areas = Vec::new(alloc);
    areas.push(Area {
        first: CODE / 512,
        pages: 1,
        prot: 2,
        bytes: Bytes::from(code.to_vec(alloc)?),
    })?;
    areas.push(Area {
        first: DATA / 512,
        pages: 1,
        prot: 2,
        bytes: Bytes::from(bytes),
    })?;
    areas.push(Area {
        first: DATA / 512 + 1,
        pages: 1,
        prot: 3,
        bytes: Bytes::from(Vec::new(alloc)),
    })?;
    Ok(Plain::new(alloc, Space::new(alloc, areas)?)?)
}

/// Registers 1 to 3, in kernel mode with these bits of the processor status word.
fn registers(r: [u32; 3], word: u32) -> Core {
    let mut core = Core {
        regs: [0; 16],
        psl: Psl(0x1F_0000 + word % 256),
        stacks: [0; 5],
        sisr: 0,
        iccs: 0,
        clock: 0,
    };
    let [r1, r2, r3] = r;
    core.regs[1] = r1;
    core.regs[2] = r2;
    core.regs[3] = r3;
    core.regs[15] = CODE;
    core
}

/// How an instruction went.
fn went(alloc: Global, port: &mut Plain, core: &mut Core, instruction: Queue) -> Result<Flow, Cut> {
    let mut term = Term::new(Vec::new(alloc));
    let mut log = Log::new();
    let mut txn = Txn::begin(core, &mut term, port, &mut log);
    let done = match run(&mut txn, instruction) {
        Ok(flow) => Ok(flow),
        Err(CutShort) => Err(txn.why()),
    };
    let _ = txn.commit();
    done
}

/// The longword at an address.
fn longword(port: &Plain, addr: u32) -> u32 {
    let mut value = 0;
    for k in 0..4u32 {
        let byte = port.byte(addr.wrapping_add(3 - k)).unwrap_or(0);
        value = value << 8 | byte as u32;
    }
    value
}

/// The longwords at the beginning of the data.
fn longwords(port: &Plain) -> [u32; 6] {
    [
        longword(port, DATA),
        longword(port, DATA + 4),
        longword(port, DATA + 8),
        longword(port, DATA + 12),
        longword(port, DATA + 16),
        longword(port, DATA + 20),
    ]
}

const H: u32 = DATA;

const A: u32 = DATA + 8;

const B: u32 = DATA + 16;

#[test]
fn entries_come_and_go(rt: HostRuntime) -> Result<(), Fail> {
    // (R2),(R3) for INSQUE and (R2),R1 for REMQUE: the longwords of three entries before and after, and the codes
    let insert = [0x62, 0x63];
    let remove = [0x62, 0x51];
    let rows = [
        // into an empty queue
        (
            Queue::Insert,
            A,
            H,
            [H, H, 0, 0, 7, 7],
            [A, A, H, H, 7, 7],
            4,
        ),
        // at the head, and at the tail
        (
            Queue::Insert,
            B,
            H,
            [A, A, H, H, 0, 0],
            [B, A, H, B, A, H],
            0,
        ),
        (
            Queue::Insert,
            B,
            A,
            [A, A, H, H, 0, 0],
            [A, B, B, H, H, A],
            8 + 1,
        ),
        // the only entry, of two the first and the last
        (
            Queue::Remove,
            A,
            0,
            [A, A, H, H, 7, 7],
            [H, H, H, H, 7, 7],
            4,
        ),
        (
            Queue::Remove,
            B,
            0,
            [B, A, H, B, A, H],
            [A, A, H, H, A, H],
            0,
        ),
        (
            Queue::Remove,
            A,
            0,
            [B, A, H, B, A, H],
            [B, B, H, B, H, H],
            8 + 1,
        ),
        // a header alone
        (
            Queue::Remove,
            H,
            0,
            [H, H, 0, 0, 7, 7],
            [H, H, 0, 0, 7, 7],
            4 + 2,
        ),
    ];
    for (instruction, r2, r3, before, after, codes) in rows {
        let code = if instruction == Queue::Insert {
            insert
        } else {
            remove
        };
        for word in [0x00, 0x0F, 0xEF] {
            let mut port = memory(rt.alloc(), &code, &before)?;
            let mut core = registers([1, r2, r3], word);
            let flow = went(rt.alloc(), &mut port, &mut core, instruction);
            assert!(rt; (flow, longwords(&port)) == (Ok(Flow::Done), after));
            assert!(rt; core.psl == Psl(0x1F_0000 + word / 16 * 16 + codes));
            let address = if instruction == Queue::Insert { 1 } else { r2 };
            assert!(rt; (core.regs[1], core.regs[15]) == (address, CODE + 2));
        }
    }
    Ok(())
}

/// A write at this address that the protection doesn't allow, or that lies past a region's length.
fn forbidden(addr: u32) -> Result<Flow, Cut> {
    Err(Cut::Event(Exception::Access(Violation {
        addr,
        write: true,
        length: addr < 0x8000_0000,
    })))
}

#[test]
fn what_may_not_be_written(rt: HostRuntime) -> Result<(), Fail> {
    let behind = DATA + 0x200;
    // the first write that isn't allowed, in the order of the manual's description
    let rows = [
        (Queue::Insert, behind, H, [H, H], forbidden(behind)),
        (Queue::Insert, behind - 4, H, [H, H], forbidden(behind)),
        (Queue::Insert, A, H, [behind, H], forbidden(behind + 4)),
        (Queue::Insert, A, behind, [H, H], forbidden(4)),
        (Queue::Remove, H, 0, [A, behind], forbidden(behind)),
        (Queue::Remove, H, 0, [behind, A], forbidden(behind + 4)),
        (Queue::Remove, H, 0, [behind - 8, A], Ok(Flow::Done)),
    ];
    for (instruction, r2, r3, before, answer) in rows {
        let code = if instruction == Queue::Insert {
            [0x62, 0x63]
        } else {
            [0x62, 0x51]
        };
        let mut port = memory(rt.alloc(), &code, &before)?;
        let mut core = registers([1, r2, r3], 0);
        assert!(rt; went(rt.alloc(), &mut port, &mut core, instruction) == answer);
    }
    Ok(())
}

#[test]
fn aligned_sums(rt: HostRuntime) -> Result<(), Fail> {
    // R2 is added to the low word of R3, whose other bits stay; result, codes, and whether it overflows
    let rows = [
        (0, 0xAAAA_0000, 0xAAAA_0000, 4, false),
        (1, 0xAAAA_0001, 0xAAAA_0002, 0, false),
        (1, 0x1234_FFFF, 0x1234_0000, 4 + 1, false),
        (0xFFFF, 0x0000_0001, 0x0000_0000, 4 + 1, false),
        (1, 0x0000_7FFF, 0x0000_8000, 8 + 2, true),
        (0xFFFF, 0x0000_8000, 0x0000_7FFF, 2 + 1, true),
        (0x8000, 0xFFFF_8000, 0xFFFF_0000, 4 + 2 + 1, true),
        (0x7FFF, 0x0000_8000, 0x0000_FFFF, 8, false),
        (0xFFFF, 0x0000_FFFF, 0x0000_FFFE, 8 + 1, false),
        (0x5555_0001, 0x0000_0002, 0x0000_0003, 0, false),
    ];
    for (addend, old, new, codes, overflows) in rows {
        for word in [0x00, 0x20] {
            let flow = if overflows && word == 0x20 {
                Flow::Trap(Trap::IntegerOverflow)
            } else {
                Flow::Done
            };
            // ADAWI R2,R3
            let mut port = memory(rt.alloc(), &[0x52, 0x53], &[])?;
            let mut core = registers([0, addend, old], word);
            let how = went(rt.alloc(), &mut port, &mut core, Queue::AddAligned);
            assert!(rt; (how, core.regs[3]) == (Ok(flow), new));
            assert!(rt; core.psl == Psl(0x1F_0000 | word | codes));
            // ADAWI R2,(R3)
            let mut port = memory(rt.alloc(), &[0x52, 0x63], &[old])?;
            let mut core = registers([0, addend, DATA], word);
            let how = went(rt.alloc(), &mut port, &mut core, Queue::AddAligned);
            assert!(rt; (how, longword(&port, DATA)) == (Ok(flow), new));
            assert!(rt; core.psl == Psl(0x1F_0000 | word | codes));
        }
    }
    Ok(())
}

#[test]
fn sums_that_are_not_aligned(rt: HostRuntime) -> Result<(), Fail> {
    let reserved = Err(Cut::Event(Exception::Operand));
    // a sum at an odd address is a reserved operand; that it may be written is found before
    let rows = [
        (DATA + 1, reserved),
        (DATA + 0x1FF, forbidden(DATA + 0x200)),
        (DATA + 0x1FE, Ok(Flow::Done)),
        (DATA + 0x201, forbidden(DATA + 0x201)),
    ];
    for (place, answer) in rows {
        let mut port = memory(rt.alloc(), &[0x52, 0x63], &[])?;
        let mut core = registers([0, 1, place], 0);
        assert!(rt; went(rt.alloc(), &mut port, &mut core, Queue::AddAligned) == answer);
    }
    Ok(())
}
