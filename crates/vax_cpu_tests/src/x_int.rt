//! Instructions over plain memory, with results worked by hand.
use std::alloc::Global;
use std::test::Fail;
use vax_flat::Flow;
use vax_isa::{Action, action};
use vax_space::{Area, Bytes, Space};
use vax_undo::{Log, Plain, Term, Txn};
use vax_word::{Core, Psl};
use vax_x_int::*;

/// Where the instruction's opcode lies: the beginning of the second page of the system region.
const START: u32 = 0x8000_0200;

/// The registers after an instruction, from these before it, where the processor is in kernel mode at the highest priority.
fn after(alloc: Global, code: &[u8], regs: [u32; 6]) -> Result<(Option<Flow>, Core), Fail> {
    let mut areas = Vec::new(alloc);
    areas.push(Area {
        first: START / 512,
        pages: 1,
        prot: 2,
        bytes: Bytes::from(code.to_vec(alloc)?),
    })?;
    let mut port = Plain::new(alloc, Space::new(alloc, areas)?)?;
    let [r0, r1, r2, r3, r4, r5] = regs;
    let mut core = Core {
        regs: [r0, r1, r2, r3, r4, r5, 0, 0, 0, 0, 0, 0, 0, 0, 0, START + 1],
        psl: Psl(0x1F_0000),
        stacks: [0; 5],
        sisr: 0,
        iccs: 0,
        clock: 0,
    };
    let mut term = Term::new(Vec::new(alloc));
    let mut log = Log::new();
    let mut txn = Txn::begin(&mut core, &mut term, &mut port, &mut log);
    let flow = match code.first().and_then(|opcode| action(*opcode)) {
        Some(Action::Integer(instruction)) => run(&mut txn, instruction).ok(),
        _ => None,
    };
    let _ = txn.commit();
    Ok((flow, core))
}

#[test]
fn quotients_that_overflow(rt: HostRuntime) -> Result<(), Fail> {
    // DIVL3 #-1,#^X80000000,R1
    let long = [
        0xC7, 0x8F, 0xFF, 0xFF, 0xFF, 0xFF, 0x8F, 0x00, 0x00, 0x00, 0x80, 0x51,
    ];
    let (flow, core) = after(rt.alloc(), &long, [0; 6])?;
    assert!(rt;
        (flow, core.regs[1], core.regs[15], core.psl)
            == (Some(Flow::Done), 0x8000_0000, START + 12, Psl(0x1F_000A))
    );
    // EDIV #2,R2,R4,R5 of R2 and R3 as a quadword
    let extended = [0x7B, 0x02, 0x52, 0x54, 0x55];
    let (flow, core) = after(rt.alloc(), &extended, [0, 0, 0, 2, 7, 7])?;
    assert!(rt;
        (flow, core.regs[4], core.regs[5], core.psl) == (Some(Flow::Done), 0, 0, Psl(0x1F_0006))
    );
    Ok(())
}
