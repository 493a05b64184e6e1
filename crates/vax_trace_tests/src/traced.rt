//! Traced runs over page files in memory. Expected values are worked by hand.
ghost use Rattle.std.specs.Prelude.{IfOk};
ghost use Rattle.vax_machine.specs.Console.{IsBetween};
ghost use Rattle.vax_machine.specs.Meaning.{engine};

use std::alloc::Global;
use std::process::Abort;
use std::test::Fail;
use vax_flat::Ending;
use vax_machine::{Limits, Machine};
use vax_outside::{Chan, MemPages, MemSink};
use vax_sched::{Schedule, read};
use vax_space::{Area, Bytes, Space};
use vax_watch::{Plan, PlanError, TraceEnd, Watch, traced};
use vax_word::{Core, Psl};

/// MOVL #5,R1 and HALT.
const FIVE: &[u8] = &[0xD0, 5, 0x51, 0];

/// MOVAL @#800005FC,R1, MOVL (R1)+,(R1)+ and HALT.
const COPY: &[u8] = &[0xDE, 0x9F, 0xFC, 5, 0, 0x80, 0x51, 0xD0, 0x81, 0x81, 0];

/// Three pages from 80000200 on, which begin with code; 11223344 is at 800005FC.
fn space(alloc: Global, code: &[u8]) -> Result<Space, Fail> {
    let mut bytes = vec![in alloc; 0u8; 0x3FC]?;
    for (place, byte) in bytes.iter_mut().zip(code) {
        *place = *byte;
    }
    bytes.extend_from_slice(&[0x44, 0x33, 0x22, 0x11])?;
    let mut areas = Vec::new(alloc);
    areas.push(Area {
        first: 0x40_0001,
        pages: 3,
        prot: 4,
        bytes: Bytes::from(bytes),
    })?;
    Ok(Space::new(alloc, areas)?)
}

/// A machine at 80000200 in kernel mode, with 64 frames.
fn machine(alloc: Global, code: &[u8]) -> Result<Machine, Fail>
    ensures { IfOk result (λ m. IsBetween (engine m)) }
{
    let mut core = Core {
        regs: [0; 16],
        psl: Psl(0x001F_0000),
        stacks: [0; 5],
        sisr: 0,
        iccs: 0,
        clock: 0,
    };
    core.regs[15] = 0x8000_0200;
    Ok(Machine::new(alloc, space(alloc, code)?, core, Vec::new(alloc), 64)?)
}

/// A run to be traced, and what is to come of it.
#[derive(Clone, Copy)]
struct Row<'a> {
    code: &'a [u8],
    schedule: &'a [u8],
    breaks: &'a [u32],
    watches: &'a [Watch],
    texts: bool,
    steps: u32,
    turns: u32,
    end: TraceEnd,
    record: &'a str,
    pc: u32,
}

/// Runs a row.
fn compare<R: Abort>(rt: &R, alloc: Global, row: &Row) -> Result<(), Fail> {
    assert!(rt; row.schedule.len() <= 100);
    let mut machine = machine(alloc, row.code)?;
    let schedule = read(alloc, row.schedule, &space(alloc, row.code)?)?;
    let plan = Plan::new(alloc, row.breaks.to_vec(alloc)?, row.watches)?;
    let mut plan = plan.with_texts(row.texts);
    let mut file = MemPages::new(alloc, 8, 10_000, Vec::new(alloc))?;
    let mut sink = MemSink::new(alloc, [10_000; 3], 100, Vec::new(alloc))?;
    let limits = Limits {
        steps: u64::from(row.steps),
        turns: u64::from(row.turns),
        listed: true,
    };
    let end = traced(
        &mut machine,
        &limits,
        &mut plan,
        &schedule,
        &mut file,
        &mut sink,
    );
    assert!(rt; end == row.end);
    assert!(rt; sink.bytes(Chan::Record) == row.record.as_bytes());
    assert!(rt; sink.bytes(Chan::Out).is_empty());
    assert!(rt; machine.core().regs.get(15) == Some(&row.pc));
    Ok(())
}

/// Runs the first program with these addresses, up to a limit.
fn five<'a>(breaks: &'a [u32], steps: u32, end: TraceEnd, record: &'a str, pc: u32) -> Row<'a> {
    Row {
        code: FIVE,
        schedule: b"",
        breaks,
        watches: &[],
        texts: false,
        steps,
        turns: 100,
        end,
        record,
        pc,
    }
}

#[test]
fn lists_steps_and_breaks(rt: HostRuntime) -> Result<(), Fail> {
    let alloc = rt.alloc();
    let whole = "1 80000200 D0 R1=00000005\n2 80000203 00\n";
    let first = "1 80000200 D0 R1=00000005\n";
    let halt = TraceEnd::Ended(Ending::Halt);
    for row in [
        five(&[], 100, halt, whole, 0x8000_0203),
        five(&[0x8000_0203], 100, TraceEnd::Break, first, 0x8000_0203),
        five(&[0x8000_0200], 100, halt, whole, 0x8000_0203),
        five(&[0x8000_0203], 1, TraceEnd::Steps, first, 0x8000_0203),
        five(&[0x8000_0203], 2, TraceEnd::Break, first, 0x8000_0203),
        five(&[], 0, TraceEnd::Steps, "", 0x8000_0200),
    ] {
        compare(&rt, alloc, &row)?;
    }
    Ok(())
}

/// The second program, whose first word's copy is watched.
fn copy<'a>(schedule: &'a [u8], turns: u32, end: TraceEnd, record: &'a str, pc: u32) -> Row<'a> {
    Row {
        code: COPY,
        schedule,
        breaks: &[],
        watches: &[Watch {
            address: 0x8000_0600,
            count: 4,
        }],
        texts: false,
        steps: 100,
        turns,
        end,
        record,
        pc,
    }
}

#[test]
fn lists_watches_whatever_is_absent(rt: HostRuntime) -> Result<(), Fail> {
    let alloc = rt.alloc();
    let whole =
        "1 80000200 DE R1=800005FC PSL=001F0008\n2 80000207 D0 R1=80000604 PSL=001F0000\nWATCH 80000600:4\n3 8000020A 00\n";
    let halt = TraceEnd::Ended(Ending::Halt);
    for row in [
        copy(b"", 100, halt, whole, 0x8000_020A),
        copy(b"each 5 all\n", 100, halt, whole, 0x8000_020A),
        copy(b"each 4 all\n", 100, halt, whole, 0x8000_020A),
        copy(b"each 1 all\n", 200, TraceEnd::Turns, "", 0x8000_0200),
    ] {
        compare(&rt, alloc, &row)?;
    }
    Ok(())
}

#[test]
fn lists_texts(rt: HostRuntime) -> Result<(), Fail> {
    let alloc = rt.alloc();
    let whole = "1 80000200 D0 MOVL S^#^X05,R1 R1=00000005\n2 80000203 00 HALT\n";
    let halt = TraceEnd::Ended(Ending::Halt);
    let row = Row {
        texts: true,
        ..five(&[], 100, halt, whole, 0x8000_0203)
    };
    compare(&rt, alloc, &row)?;
    let whole =
        "1 80000200 DE MOVAL @#^X800005FC,R1 R1=800005FC PSL=001F0008\n2 80000207 D0 MOVL (R1)+,(R1)+ R1=80000604 PSL=001F0000\nWATCH 80000600:4\n3 8000020A 00 HALT\n";
    let row = Row {
        texts: true,
        ..copy(b"each 4 all\n", 100, halt, whole, 0x8000_020A)
    };
    compare(&rt, alloc, &row)?;
    Ok(())
}

/// The answer to a plan of so many addresses and so many watches of so many bytes.
fn plan_of(
    alloc: Global,
    breaks: usize,
    watches: usize,
    count: u32,
) -> Result<Option<PlanError>, Fail> {
    let watch = Watch { address: 0, count };
    let all = vec![in alloc; watch; watches]?;
    match Plan::new(alloc, vec![in alloc; 0u32; breaks]?, &all) {
        Ok(_) => Ok(None),
        Err(error) => Ok(Some(error)),
    }
}

#[test]
fn refuses_plans(rt: HostRuntime) -> Result<(), Fail> {
    let alloc = rt.alloc();
    assert!(rt; plan_of(alloc, 16, 16, 4_096)? == None);
    assert!(rt; plan_of(alloc, 17, 1, 0)? == Some(PlanError::Count));
    assert!(rt; plan_of(alloc, 0, 17, 1)? == Some(PlanError::Count));
    assert!(rt; plan_of(alloc, 1, 1, 0)? == Some(PlanError::Size));
    assert!(rt; plan_of(alloc, 1, 1, 4_097)? == Some(PlanError::Size));
    Ok(())
}
