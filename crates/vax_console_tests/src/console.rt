//! Whole sessions. Expected replies are worked by hand.
ghost use Rattle.std.specs.Prelude.{IfOk};
ghost use Rattle.vax_machine.specs.Console.{IsBetween};
ghost use Rattle.vax_machine.specs.Meaning.{engine};

use std::alloc::Global;
use std::process::Abort;
use std::test::Fail as TestFail;
use vax_console::{SessionEnd, session};
use vax_machine::{Limits, Machine};
use vax_outside::{Chan, Fail, MemPages, MemSink, Text};
use vax_sched::Schedule;
use vax_space::{Area, Bytes, Space};
use vax_test_machines::machine_from;

/// A machine at 80000200 with so many pages that the kernel may write, which begin with these bytes, and behind them one that no mode may write.
fn machine(alloc: Global, pages: u8, bytes: &[u8]) -> Result<Machine, TestFail>
    ensures { IfOk result (λ m. IsBetween (engine m)) }
{
    let mut areas = Vec::new(alloc);
    let pages = u32::from(pages);
    let rows: [(u32, u32, u8, &[u8]); 2] = [
        (0x40_0001, pages, 14, bytes),
        (0x40_0001 + pages, 1, 15, &[]),
    ];
    for (first, pages, prot, bytes) in rows {
        areas.push(Area {
            first,
            pages,
            prot,
            bytes: Bytes::from(bytes.to_vec(alloc)?),
        })?;
    }
    let mut regs = [0; 16];
    regs[15] = 0x8000_0200;
    machine_from(alloc, Space::new(alloc, areas)?, regs)
}

/// How a session of a script on such a machine ends, with such limits and faults of the page file, and its replies.
fn talks<R: Abort>(
    rt: &R,
    alloc: Global,
    bytes: &[u8],
    script: &[u8],
    limits: (u32, u32),
    fails: Vec<Fail>,
    want: (SessionEnd, &str),
) -> Result<(), TestFail> {
    let mut machine = machine(alloc, 2, bytes)?;
    let mut file = MemPages::new(alloc, 8, 100, fails)?;
    let mut sink = MemSink::new(alloc, [100, 4096, 0], 100, Vec::new(alloc))?;
    let limits = Limits {
        steps: u64::from(limits.0),
        turns: u64::from(limits.1),
        listed: false,
    };
    let schedule = Schedule::new(alloc);
    let end = session(
        script,
        &mut machine,
        &limits,
        &schedule,
        &mut file,
        &mut sink,
    );
    assert!(rt; end == want.0);
    assert!(rt; sink.bytes(Chan::Report) == want.1.as_bytes());
    assert!(rt; sink.bytes(Chan::Out).is_empty());
    Ok(())
}

/// MOVL R1,R2 and HALT.
const MOVE: &[u8] = &[0xD0, 0x51, 0x52, 0];

#[test]
fn a_session_with_each_command(rt: HostRuntime) -> Result<(), TestFail> {
    let alloc = rt.alloc();
    let script = b"EXAMINE R1\nDEPOSIT R1 0000000A\nDEPOSIT 800003FE 01020304\nEXAMINE 800003FE 4\n\
        NEXT\nBOGUS\n\nEXAMINE R2\nCONTINUE\nSHOW\n";
    let want =
        "R1 00000000\nOK\nOK\nMEM 800003FE 01 02 03 04\nAT 80000203 STEPS 1\n?COMMAND\nR2 0000000A\nENDING STEPS\n\
        ENDING STEPS\nSTEPS 1\nUNITS 0\nR0 00000000 0000000A 0000000A 00000000\nR4 00000000 00000000 00000000 00000000\n\
        R8 00000000 00000000 00000000 00000000\nR12 00000000 00000000 00000000 80000203\nPSL 001F0000\n\
        STACKS 00000000 00000000 00000000 00000000 00000000\nINPUT 0\n";
    talks(
        &rt,
        alloc,
        MOVE,
        script,
        (1, 100),
        Vec::new(alloc),
        (SessionEnd::Read, want),
    )
}

#[test]
fn a_session_with_each_refusal(rt: HostRuntime) -> Result<(), TestFail> {
    let alloc = rt.alloc();
    let script =
        b"DEPOSIT 800005FF 0102\nDEPOSIT 80000600 01\nDEPOSIT 80000800 01\nEXAMINE 800005FE\nNEXT 2\nNEXT\nCONTINUE\n\
        DEPOSIT R2 00000007\nEXAMINE R2\nNEXT 0";
    let want =
        "?ADDRESS\n?ADDRESS\n?ADDRESS\nMEM 800005FE 00 00 00 00\nENDING HALT\n?ENDED\n?ENDED\nOK\nR2 00000007\n?COMMAND\n";
    talks(
        &rt,
        alloc,
        MOVE,
        script,
        (10, 100),
        Vec::new(alloc),
        (SessionEnd::Read, want),
    )
}

#[test]
fn sessions_that_are_cut_off(rt: HostRuntime) -> Result<(), TestFail> {
    let alloc = rt.alloc();
    // NOP and a branch to it.
    let endless = [1, 0x11, 0xFD];
    let script = b"NEXT 3\nNEXT\nCONTINUE\nEXAMINE R0\n";
    let want = (
        SessionEnd::Turns,
        "AT 80000201 STEPS 3\nAT 80000200 STEPS 4\n",
    );
    talks(
        &rt,
        alloc,
        &endless,
        script,
        (100, 6),
        Vec::new(alloc),
        want,
    )?;
    let want = (
        SessionEnd::Read,
        "AT 80000201 STEPS 3\nAT 80000200 STEPS 4\nENDING STEPS\nR0 00000000\n",
    );
    talks(&rt, alloc, &endless, script, (5, 6), Vec::new(alloc), want)
}

/// 65 deposits, each in a page of its own, and what follows.
fn deposits(alloc: Global, last: &[u8]) -> Result<Vec<u8>, TestFail> {
    let mut script = Vec::new(alloc);
    for page in 0..65u32 {
        let mut text = Text::new();
        text.push(b"DEPOSIT ");
        text.push_hex8(0x8000_0200 + 512 * page);
        text.push(b" FF\n");
        script.extend_from_slice(text.as_slice())?;
    }
    script.extend_from_slice(last)?;
    Ok(script)
}

#[test]
fn a_deposit_that_fails(rt: HostRuntime) -> Result<(), TestFail> {
    let alloc = rt.alloc();
    let mut machine = machine(alloc, 65, MOVE)?;
    // The first page is written to its block when the 65th comes.
    let mut file = MemPages::new(alloc, 80, 100, vec![in alloc; Fail::Write(1)]?)?;
    let mut sink = MemSink::new(alloc, [0, 4096, 0], 100, Vec::new(alloc))?;
    let limits = Limits {
        steps: 10,
        turns: 100,
        listed: false,
    };
    let schedule = Schedule::new(alloc);
    let script = deposits(alloc, b"SHOW\n")?;
    let end = session(
        &script,
        &mut machine,
        &limits,
        &schedule,
        &mut file,
        &mut sink,
    );
    assert!(rt; end == SessionEnd::PageFault);
    assert!(rt; sink.bytes(Chan::Report).len() == 64 * 3);
    // Nothing was changed by it.
    assert!(rt; machine.peek(0x8000_8200, &mut file) == Ok(Some(0)));
    assert!(rt; machine.peek(0x8000_0200, &mut file) == Ok(Some(0xFF)));
    assert!(rt; [machine.steps(), machine.turns()] == [0, 0]);
    Ok(())
}

#[test]
fn writes_that_fail(rt: HostRuntime) -> Result<(), TestFail> {
    let alloc = rt.alloc();
    let mut machine = machine(alloc, 2, MOVE)?;
    let mut file = MemPages::new(alloc, 8, 100, Vec::new(alloc))?;
    let mut sink = MemSink::new(alloc, [0, 16, 0], 100, Vec::new(alloc))?;
    let limits = Limits {
        steps: 10,
        turns: 100,
        listed: false,
    };
    let schedule = Schedule::new(alloc);
    let script = b"EXAMINE R1\nNEXT\nEXAMINE R1\n";
    let end = session(
        script,
        &mut machine,
        &limits,
        &schedule,
        &mut file,
        &mut sink,
    );
    assert!(rt; end == SessionEnd::WriteFault);
    assert!(rt; sink.bytes(Chan::Report) == b"R1 00000000\nAT 8".as_slice());
    Ok(())
}
