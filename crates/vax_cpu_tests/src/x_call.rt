//! Instructions over plain memory, with results worked by hand from the manual's rules.
use std::alloc::Global;
use std::test::Fail;
use vax_flat::{Cut, Exception, Flow};
use vax_isa::Call;
use vax_space::{Area, Bytes, Space, Violation};
use vax_undo::{CutShort, Log, Plain, Term, Txn};
use vax_word::{Core, Psl};
use vax_x_call::*;

/// Where the instruction's first operand lies.
const CODE: u32 = 0x8000_0200;

/// The procedure's entry mask.
const PROCEDURE: u32 = 0x8000_0280;

/// The first page of the stack, of two.
const STACK: u32 = 0x8010_1C00;

/// A page of code with an entry mask at 80000280, and two pages of stack that begin with longwords.
fn memory(alloc: Global, code: &[u8], mask: u16, longwords: &[u32]) -> Result<Plain, Fail> {
    let mut bytes = vec![in alloc; 0u8; 0x82]?;
    for (place, byte) in bytes.iter_mut().zip(code) {
        *place = *byte;
    }
    bytes[0x80..].copy_from_slice(&u16::to_le_bytes(mask));
    let mut stack = Vec::new(alloc);
    for longword in longwords {
        stack.extend_from_slice(&u32::to_le_bytes(*longword))?;
    }
    let mut areas = Vec::new(alloc);
    areas.push(Area {
        first: CODE / 512,
        pages: 1,
        prot: 2,
        bytes: Bytes::from(bytes),
    })?;
    areas.push(Area {
        first: STACK / 512,
        pages: 2,
        prot: 2,
        bytes: Bytes::from(stack),
    })?;
    Ok(Plain::new(alloc, Space::new(alloc, areas)?)?)
}

/// Registers that each have a number of their own, with SP, and R1 with the procedure's address, in kernel mode with these bits of the
/// processor status word.
fn registers(sp: u32, word: u32) -> Core {
    let mut core = Core {
        regs: [0; 16],
        psl: Psl(0x1F_0000 + word % 0x1_0000),
        stacks: [0; 5],
        sisr: 0,
        iccs: 0,
        clock: 0,
    };
    for n in 0..14u8 {
        core.regs[n as usize] = 0xA0 + n as u32;
    }
    core.regs[1] = PROCEDURE;
    core.regs[14] = sp;
    core.regs[15] = CODE;
    core
}

/// How an instruction went.
fn went(alloc: Global, port: &mut Plain, core: &mut Core, instruction: Call) -> Result<Flow, Cut> {
    let mut term = Term::new(Vec::new(alloc));
    let mut log = Log::new();
    let mut txn = Txn::begin(core, &mut term, port, &mut log);
    let done = match run(&mut txn, instruction) {
        Ok(flow) => Ok(flow),
        Err(CutShort) => Err(txn.why()),
    };
    let _ = txn.commit();
    done
}

/// The longword at an address.
fn longword(port: &Plain, addr: u32) -> u32 {
    let mut value = 0;
    for k in 0..4u32 {
        let byte = port.byte(addr.wrapping_add(3 - k)).unwrap_or(0);
        value = value << 8 | byte as u32;
    }
    value
}

const RESERVED: Result<Flow, Cut> = Err(Cut::Event(Exception::Operand));

#[test]
fn a_frame_by_hand(rt: HostRuntime) -> Result<(), Fail> {
    // CALLS #0,(R1) with SP three bytes above a longword's address, and a procedure that saves R2 to R11
    let mut port = memory(rt.alloc(), &[0x00, 0x61], 0x0FFC, &[])?;
    let mut core = registers(0x8010_1E0B, 0xEF);
    let before = core;
    assert!(rt; went(rt.alloc(), &mut port, &mut core, Call::WithStack) == Ok(Flow::Done));
    let fp = 0x8010_1DC8;
    assert!(rt; (core.regs[13], core.regs[14], core.regs[12]) == (fp, fp, 0x8010_1E07));
    assert!(rt; (core.regs[15], core.psl) == (PROCEDURE + 2, Psl(0x1F_0000)));
    let frame = [0, 0xEFFC_00E0, 0xAC, 0xAD, CODE + 2, 0xA2, 0xA3];
    let mut at = fp;
    for wanted in frame {
        assert!(rt; longword(&port, at) == wanted);
        at = at.wrapping_add(4);
    }
    assert!(rt; longword(&port, 0x8010_1E00) == 0xAB);
    assert!(rt; went(rt.alloc(), &mut port, &mut core, Call::Return) == Ok(Flow::Done));
    assert!(rt; (core.regs[14], core.regs[15]) == (0x8010_1E0B, CODE + 2));
    assert!(rt;
        (core.regs[11], core.regs[12], core.regs[13]) == (0xAB, before.regs[12], before.regs[13])
    );
    assert!(rt; core.psl == Psl(0x1F_00E0));
    Ok(())
}

/// The registers whose values a procedure's caller sees again: R0 to R13 that the mask names, AP and FP.
fn spoil(core: &mut Core, mask: u16) {
    for n in 0..12u8 {
        if mask >> n & 1 == 1 {
            core.regs[n as usize] = 0x5555_5555;
        }
    }
    core.regs[12] = 0x5555_5555;
}

#[test]
fn calls_come_back(rt: HostRuntime) -> Result<(), Fail> {
    // entry masks with the enables that they give, and numbers of arguments with how many longwords they are
    let masks = [
        (0x0000, 0x00),
        (0x0001, 0x00),
        (0x0800, 0x00),
        (0x0FFF, 0x00),
        (0x4003, 0x20),
        (0x8FF0, 0x80),
        (0xC000, 0xA0),
    ];
    let counts = [(0x00, 0u32), (0x03, 3), (0x3F, 63)];
    for (mask, enables) in masks {
        for (count, arguments) in counts {
            for offset in 0..4u32 {
                let mut port = memory(rt.alloc(), &[count, 0x61], mask, &[])?;
                let sp = STACK + 0x100 + offset;
                let mut core = registers(sp, 0x4F);
                let before = core.regs;
                let flow = went(rt.alloc(), &mut port, &mut core, Call::WithStack);
                assert!(rt; (flow, core.psl) == (Ok(Flow::Done), Psl(0x1F_0000 + enables)));
                assert!(rt; (core.regs[12], longword(&port, sp - 4)) == (sp - 4, arguments));
                assert!(rt; (core.regs[13], core.regs[14] % 4) == (core.regs[14], 0));
                spoil(&mut core, mask);
                let flow = went(rt.alloc(), &mut port, &mut core, Call::Return);
                assert!(rt; (flow, core.psl) == (Ok(Flow::Done), Psl(0x1F_0040)));
                let mut after = before;
                after[14] = sp + 4 * arguments;
                after[15] = CODE + 2;
                assert!(rt; core.regs == after);
            }
        }
    }
    // CALLG (R2),(R1) leaves the arguments where they are
    let mut port = memory(rt.alloc(), &[0x62, 0x61], 0x0003, &[])?;
    let mut core = registers(STACK + 0x102, 0);
    assert!(rt; went(rt.alloc(), &mut port, &mut core, Call::WithList) == Ok(Flow::Done));
    assert!(rt; (core.regs[12], core.regs[14]) == (0xA2, STACK + 0x100 - 28));
    assert!(rt; longword(&port, core.regs[14] + 4) == 0x8003_0000);
    assert!(rt; went(rt.alloc(), &mut port, &mut core, Call::Return) == Ok(Flow::Done));
    assert!(rt; (core.regs[12], core.regs[14]) == (0xAC, STACK + 0x102));
    Ok(())
}

#[test]
fn reserved_operands_of_calls(rt: HostRuntime) -> Result<(), Fail> {
    for (mask, answer) in [
        (0x1000, RESERVED),
        (0x2FFF, RESERVED),
        (0xCFFF, Ok(Flow::Done)),
    ] {
        for instruction in [Call::WithList, Call::WithStack] {
            let mut port = memory(rt.alloc(), &[0x62, 0x61], mask, &[])?;
            let mut core = registers(STACK + 0x100, 0);
            core.regs[2] = STACK;
            assert!(rt; went(rt.alloc(), &mut port, &mut core, instruction) == answer);
            if answer == RESERVED {
                // nothing was pushed
                assert!(rt; (core.regs[14], longword(&port, STACK + 0xFC)) == (STACK + 0x100, 0));
            }
        }
    }
    // bits 15:8 and 4 of the status that a frame gives back
    for word in 0..16u32 {
        let bit = 1 << word;
        let answer = if word >= 8 || word == 4 {
            RESERVED
        } else {
            Ok(Flow::Done)
        };
        let mut port = memory(rt.alloc(), &[], 0, &[0, bit, 1, 2, 3])?;
        let mut core = registers(0, 0);
        core.regs[13] = STACK;
        assert!(rt; went(rt.alloc(), &mut port, &mut core, Call::Return) == answer);
        if answer != RESERVED {
            assert!(rt; core.psl == Psl(0x1F_0000 + bit));
            assert!(rt;
                (core.regs[12], core.regs[13], core.regs[15], core.regs[14])
                    == (1, 2, 3, STACK + 20)
            );
        }
    }
    Ok(())
}

#[test]
fn registers_on_the_stack(rt: HostRuntime) -> Result<(), Fail> {
    // R2 has the mask; what is pushed from the lowest address up
    let rows = [
        (0x0000, [].as_slice()),
        (0x8000, &[]),
        (0x0001, &[0xA0]),
        (0x000B, &[0xA0, PROCEDURE, 0xA3]),
        (0x4000, &[STACK + 0x80]),
        (0xF000, &[0xAC, 0xAD, STACK + 0x80]),
    ];
    for (mask, pushed) in rows {
        let mut port = memory(rt.alloc(), &[0x52], 0, &[])?;
        let mut core = registers(STACK + 0x80, 0x0F);
        core.regs[2] = mask;
        let before = core.regs;
        assert!(rt; went(rt.alloc(), &mut port, &mut core, Call::PushRegisters) == Ok(Flow::Done));
        let bottom = STACK + 0x80 - 4 * pushed.len() as u32;
        assert!(rt; (core.regs[14], core.psl) == (bottom, Psl(0x1F_000F)));
        let mut at = bottom;
        for wanted in pushed {
            assert!(rt; longword(&port, at) == *wanted);
            at = at.wrapping_add(4);
        }
        // and popped again
        core.regs = [7; 16];
        core.regs[2] = mask;
        core.regs[14] = bottom;
        core.regs[15] = CODE;
        assert!(rt; went(rt.alloc(), &mut port, &mut core, Call::PopRegisters) == Ok(Flow::Done));
        for n in 0..14u8 {
            let value = if mask >> n & 1 == 1 {
                before[n as usize]
            } else if n == 2 {
                mask
            } else {
                7
            };
            assert!(rt; core.regs[n as usize] == value);
        }
        assert!(rt; core.regs[14] == STACK + 0x80);
    }
    Ok(())
}

#[test]
fn stack_pointers_that_are_popped(rt: HostRuntime) -> Result<(), Fail> {
    // POPR S^#..: R2 has the mask, and the last longword popped is the new SP
    let mut port = memory(rt.alloc(), &[0x52], 0, &[11, 12])?;
    let mut core = registers(STACK, 0);
    core.regs[2] = 0x4001;
    assert!(rt; went(rt.alloc(), &mut port, &mut core, Call::PopRegisters) == Ok(Flow::Done));
    assert!(rt; (core.regs[0], core.regs[14]) == (11, 12));
    // the push that isn't allowed is that of the highest register whose longword lies outside
    let mut port = memory(rt.alloc(), &[0x52], 0, &[])?;
    let mut core = registers(STACK + 8, 0);
    core.regs[2] = 0x003E;
    let violation = Violation {
        addr: STACK - 4,
        write: true,
        length: false,
    };
    let answer = Err(Cut::Event(Exception::Access(violation)));
    assert!(rt; went(rt.alloc(), &mut port, &mut core, Call::PushRegisters) == answer);
    Ok(())
}
