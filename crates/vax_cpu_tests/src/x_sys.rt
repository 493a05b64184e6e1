//! Instructions and deliveries over plain memory, with results worked by hand from the manual's rules.
use std::alloc::Global;
use std::test::Fail;
use vax_flat::{Cut, Delivery, Exception, Flow, Trap};
use vax_isa::{AccessMode, System};
use vax_space::{Area, Bytes, Space};
use vax_undo::{CutShort, Log, Plain, Term, Txn};
use vax_word::{Core, Psl};
use vax_x_sys::*;

/// A page at 80000000, for kernel mode alone, and a page at 80000200 with this protection.
fn memory(alloc: Global, first: &[u8], prot: u8, second: &[u8]) -> Result<Plain, Fail> {
    let mut areas = Vec::new(alloc);
    areas.push(Area {
        first: 0x40_0000,
        pages: 1,
        prot: 2,
        bytes: Bytes::from(first.to_vec(alloc)?),
    })?;
    areas.push(Area {
        first: 0x40_0001,
        pages: 1,
        prot,
        bytes: Bytes::from(second.to_vec(alloc)?),
    })?;
    Ok(Plain::new(alloc, Space::new(alloc, areas)?)?)
}

/// PC and SP, with the status; the kept stack pointers are at 80000310 to 80000350.
fn registers(pc: u32, sp: u32, psl: u32) -> Core {
    let mut core = Core {
        regs: [0; 16],
        psl: Psl(psl),
        stacks: [
            0x8000_0310,
            0x8000_0320,
            0x8000_0330,
            0x8000_0340,
            0x8000_0350,
        ],
        sisr: 8,
        iccs: 0,
        clock: 0,
    };
    core.regs[14] = sp;
    core.regs[15] = pc;
    core
}

/// How an instruction went.
fn went(
    alloc: Global,
    port: &mut Plain,
    core: &mut Core,
    instruction: System,
) -> Result<Flow, Cut> {
    let mut term = Term::new(Vec::new(alloc));
    let mut log = Log::new();
    let mut txn = Txn::begin(core, &mut term, port, &mut log);
    let done = match run(&mut txn, instruction) {
        Ok(flow) => Ok(flow),
        Err(CutShort) => Err(txn.why()),
    };
    let _ = txn.commit();
    done
}

/// The longword at an address.
fn longword(port: &Plain, addr: u32) -> u32 {
    let mut value = 0;
    for k in 0..4u32 {
        let byte = port.byte(addr.wrapping_add(3 - k)).unwrap_or(0);
        value = value << 8 | byte as u32;
    }
    value
}

#[test]
fn statuses_that_rei_takes_and_refuses(rt: HostRuntime) -> Result<(), Fail> {
    // the status before, the one that is popped, and whether it is taken
    let rows = [
        (0x001F_0000, 0x03C0_0000, true),
        (0x001F_0000, 0x0000_00EF, true),
        (0x041F_0000, 0x041E_0000, true),
        (0x03C0_0000, 0x0000_0000, false),
        (0x001F_0000, 0x041F_0000, false),
        (0x041F_0000, 0x0400_0000, false),
        (0x041F_0000, 0x07C1_0000, false),
        (0x001F_0000, 0x03C1_0000, false),
        (0x001F_0000, 0x0380_0000, false),
        (0x0010_0000, 0x0011_0000, false),
        (0x001F_0000, 0x0000_0010, false),
        (0x001F_0000, 0x0000_0100, false),
        (0x001F_0000, 0x0000_8000, false),
        (0x001F_0000, 0x0020_0000, false),
        (0x001F_0000, 0x0800_0000, false),
        (0x001F_0000, 0x1000_0000, false),
        (0x001F_0000, 0x4000_0000, false),
        (0x001F_0000, 0x8000_0000, false),
    ];
    for (old, new, taken) in rows {
        let mut frame = [0; 8];
        frame[..4].copy_from_slice(&0x8000_0280u32.to_le_bytes());
        frame[4..].copy_from_slice(&u32::to_le_bytes(new));
        let mut port = memory(rt.alloc(), &[], 4, &frame)?;
        let mut core = registers(0x8000_0201, 0x8000_0200, old);
        let flow = went(rt.alloc(), &mut port, &mut core, System::Return);
        if taken {
            assert!(rt; (flow, core.psl, core.regs[15]) == (Ok(Flow::Done), Psl(new), 0x8000_0280));
        } else {
            assert!(rt; flow == Err(Cut::Event(Exception::Operand)), "{new:08X}");
        }
    }
    Ok(())
}

#[test]
fn changes_of_mode(rt: HostRuntime) -> Result<(), Fail> {
    let modes = [
        AccessMode::Kernel,
        AccessMode::Executive,
        AccessMode::Supervisor,
        AccessMode::User,
    ];
    let mut vectors = [0; 0x50];
    for k in 0..4usize {
        vectors[0x40 + 4 * k..0x44 + 4 * k].copy_from_slice(&0x8000_0280u32.to_le_bytes());
    }
    for target in modes {
        for mode in modes {
            // S^#5 is the code
            let mut port = memory(rt.alloc(), &vectors, 4, &[5])?;
            let old = 0x100_0000 * mode.number() as u32;
            let mut core = registers(0x8000_0200, 0x8000_0300, old);
            let flow = went(rt.alloc(), &mut port, &mut core, System::ChangeMode(target));
            let new = target.number().min(mode.number());
            let top = if new == mode.number() {
                0x8000_0300
            } else {
                0x8000_0310 + 0x10 * new as u32
            };
            let psl = 0x100_0000 * new as u32 + old / 4;
            assert!(rt; (flow, core.psl) == (Ok(Flow::Done), Psl(psl)));
            assert!(rt; (core.regs[14], core.regs[15]) == (top - 12, 0x8000_0280));
            assert!(rt; (longword(&port, top - 4), longword(&port, top - 8)) == (old, 0x8000_0201));
            assert!(rt; longword(&port, top - 12) == 5);
        }
    }
    Ok(())
}

#[test]
fn probes_over_the_protections(rt: HostRuntime) -> Result<(), Fail> {
    // a protection, and how many modes, from kernel on, may read and may write
    let rows = [
        (0, 0, 0),
        (2, 1, 1),
        (3, 1, 0),
        (4, 4, 4),
        (5, 2, 2),
        (6, 2, 1),
        (7, 2, 0),
        (8, 3, 3),
        (9, 3, 2),
        (10, 3, 1),
        (11, 3, 0),
        (12, 4, 3),
        (13, 4, 2),
        (14, 4, 1),
        (15, 4, 0),
    ];
    for (prot, readers, writers) in rows {
        for mode in 0..4u8 {
            // S^#mode, S^#4, @#800003FC
            let operands = [mode, 4, 0x9F, 0xFC, 3, 0, 0x80];
            let mut port = memory(rt.alloc(), &operands, prot, &[])?;
            for (writing, count) in [(false, readers), (true, writers)] {
                let mut core = registers(0x8000_0000, 0x8000_0300, 0);
                let flow = went(rt.alloc(), &mut port, &mut core, System::Probe { writing });
                let psl = if mode < count { 0 } else { 4 };
                assert!(rt;
                    (flow, core.psl) == (Ok(Flow::Done), Psl(psl)),
                    "{prot} {mode}"
                );
            }
        }
    }
    Ok(())
}

#[test]
fn an_arithmetic_trap_and_an_interrupt(rt: HostRuntime) -> Result<(), Fail> {
    let alloc = rt.alloc();
    let mut vectors = [0; 0x90];
    vectors[0x34..0x38].copy_from_slice(&0x8000_0208u32.to_le_bytes());
    vectors[0x8C..0x90].copy_from_slice(&0x8000_0205u32.to_le_bytes());
    let mut port = memory(alloc, &vectors, 4, &[])?;
    let mut core = registers(0x8000_0204, 0x8000_0300, 2);
    let mut term = Term::new(Vec::new(alloc));
    let mut log = Log::new();
    let mut txn = Txn::begin(&mut core, &mut term, &mut port, &mut log);
    let trap = deliver(&mut txn, Exception::Arithmetic(Trap::IntegerDivide)).ok();
    // level 3, on the interrupt stack
    let level = interrupt(&mut txn, 3).ok();
    let _ = txn.commit();
    assert!(rt; (trap, level) == (Some(Delivery::Entered), Some(Delivery::Entered)));
    assert!(rt;
        (core.regs[14], core.regs[15], core.psl) == (0x8000_0348, 0x8000_0204, Psl(0x403_0000))
    );
    assert!(rt; (core.stacks[0], core.stacks[4], core.sisr) == (0x8000_02F4, 0, 0));
    assert!(rt; (longword(&port, 0x8000_02FC), longword(&port, 0x8000_02F8)) == (2, 0x8000_0204));
    assert!(rt; (longword(&port, 0x8000_02F4), longword(&port, 0x8000_0348)) == (2, 0x8000_0208));
    assert!(rt; longword(&port, 0x8000_034C) == 0);
    Ok(())
}
