//! Instructions over plain memory, with results worked by hand.
use std::alloc::Global;
use std::test::Fail;
use vax_flat::Flow;
use vax_isa::{Action, action};
use vax_space::{Area, Bytes, Space};
use vax_undo::{Log, Plain, Term, Txn};
use vax_word::{Core, Psl};
use vax_x_flow::*;

/// Where the instruction's opcode lies: the beginning of the second page of the system region.
const START: u32 = 0x8000_0200;

/// How an instruction went, with PC and the status longword after it, where the processor is in kernel mode at the highest priority and
/// each register but PC is 1.
fn after(alloc: Global, code: &[u8]) -> Result<(Option<Flow>, u32, Psl), Fail> {
    let mut areas = Vec::new(alloc);
    areas.push(Area {
        first: START / 512,
        pages: 1,
        prot: 2,
        bytes: Bytes::from(code.to_vec(alloc)?),
    })?;
    let mut port = Plain::new(alloc, Space::new(alloc, areas)?)?;
    let mut core = Core {
        regs: [1; 16],
        psl: Psl(0x1F_0000),
        stacks: [0; 5],
        sisr: 0,
        iccs: 0,
        clock: 0,
    };
    core.regs[15] = START + 1;
    let mut term = Term::new(Vec::new(alloc));
    let mut log = Log::new();
    let mut txn = Txn::begin(&mut core, &mut term, &mut port, &mut log);
    let flow = match code.first().and_then(|opcode| action(*opcode)) {
        Some(Action::Control(instruction)) => run(&mut txn, instruction).ok(),
        _ => None,
    };
    let _ = txn.commit();
    Ok((flow, core.regs[15], core.psl))
}

#[test]
fn where_control_goes_on(rt: HostRuntime) -> Result<(), Fail> {
    // CASEB #3,#1,#1, which is past its table of two; SOBGTR R1, which counts down to 0; BRB to itself
    let rows = [
        (
            [0x8F, 0x03, 0x01, 0x01].as_slice(),
            START + 8,
            Psl(0x1F_0000),
        ),
        ([0xF5, 0x51, 0x10].as_slice(), START + 3, Psl(0x1F_0004)),
        ([0x11, 0xFE].as_slice(), START, Psl(0x1F_0000)),
    ];
    for (code, pc, psl) in rows {
        assert!(rt; after(rt.alloc(), code)? == (Some(Flow::Done), pc, psl));
    }
    Ok(())
}
