//! Whole reports, byte for byte. Expected texts are worked by hand from the format of a report.
use std::alloc::{AllocError, Global};
use std::test::Fail;
use vax_flat::Ending;
use vax_outside::{Chan, Failed, MemSink, Text};
use vax_report::{Dump, DumpBytes, Last, push_ending, push_memory, push_register, write_report};
use vax_word::{Core, Psl};

/// The registers after `MOVL #5,R1` and `HALT` at 80000200.
fn halted() -> Core {
    Core {
        regs: [
            0,
            5,
            0,
            0,
            0,
            0,
            0,
            0,
            0,
            0,
            0,
            0,
            0,
            0,
            0x8010_2000,
            0x8000_0203,
        ],
        psl: Psl(0x001F_0000),
        stacks: [0, 0x7FFE_0800, 0x7FFE_8800, 0x8000_0000, 0x8011_0800],
        sisr: 0,
        iccs: 0,
        clock: 0,
    }
}

/// So many bytes, counted up from 0, the third of them in no area.
fn counted(alloc: Global, addr: u32, count: u8) -> Result<Dump, AllocError> {
    let mut items = Vec::new(alloc);
    for byte in 0..count {
        items.push(if byte == 2 { None } else { Some(byte) })?;
    }
    Ok(Dump {
        addr,
        bytes: DumpBytes::from(items),
    })
}

const HALT_HEAD: &str = "ENDING HALT\nSTEPS 2\nUNITS 0\n";

const ROWS: &str = "R0 00000000 00000005 00000000 00000000\n\
    R4 00000000 00000000 00000000 00000000\n\
    R8 00000000 00000000 00000000 00000000\n\
    R12 00000000 00000000 80102000 80000203\n\
    PSL 001F0000\n\
    STACKS 00000000 7FFE0800 7FFE8800 80000000 80110800\n";

#[test]
fn writes_the_whole_report(rt: HostRuntime) -> Result<(), Fail> {
    let alloc = rt.alloc();
    let halt = Last::Ending(Ending::Halt);
    let want = format!(in alloc; "{HALT_HEAD}{ROWS}INPUT 0\n")?;
    let mut sink = MemSink::new(alloc, [0, 4096, 0], 7, Vec::new(alloc))?;
    assert!(rt; write_report(&halted(), halt, 2, 0, 0, &[], &mut sink) == Ok(()));
    assert!(rt; sink.bytes(Chan::Report) == want.as_bytes());
    // A channel that is full leaves a prefix.
    let mut short = MemSink::new(alloc, [0, 20, 0], 4096, Vec::new(alloc))?;
    assert!(rt; write_report(&halted(), halt, 2, 0, 0, &[], &mut short) == Err(Failed));
    assert!(rt; short.bytes(Chan::Report) == b"ENDING HALT\nSTEPS 2\n".as_slice());
    Ok(())
}

#[test]
fn writes_dumps(rt: HostRuntime) -> Result<(), Fail> {
    let alloc = rt.alloc();
    let dumps = [
        counted(alloc, 0xFFFF_FFF8, 18)?,
        counted(alloc, 0x8000_05FC, 0)?,
        counted(alloc, 0x8000_0A0B, 16)?,
    ];
    let head = "ENDING STEPS\nSTEPS 18446744073709551615\nUNITS 4294967295\n";
    let lines = "MEM FFFFFFF8 00 01 -- 03 04 05 06 07 08 09 0A 0B 0C 0D 0E 0F\n\
        MEM 00000008 10 11\n\
        MEM 80000A0B 00 01 -- 03 04 05 06 07 08 09 0A 0B 0C 0D 0E 0F\n";
    let want = format!(in alloc; "{head}{ROWS}INPUT 23\n{lines}")?;
    let mut sink = MemSink::new(alloc, [0, 4096, 0], 4096, Vec::new(alloc))?;
    let last = Last::Steps;
    assert!(rt; write_report(&halted(), last, u64::MAX, u32::MAX, 23, &dumps, &mut sink) == Ok(()));
    assert!(rt; sink.bytes(Chan::Report) == want.as_bytes());
    // A report of a page fault has no dumps.
    let want = format!(in alloc; "ENDING PAGEFAULT\nSTEPS 2\nUNITS 0\n{ROWS}INPUT 0\n")?;
    let mut sink = MemSink::new(alloc, [0, 4096, 0], 4096, Vec::new(alloc))?;
    assert!(rt; write_report(&halted(), Last::PageFault, 2, 0, 0, &dumps, &mut sink) == Ok(()));
    assert!(rt; sink.bytes(Chan::Report) == want.as_bytes());
    Ok(())
}

#[test]
fn builds_single_lines(rt: HostRuntime) -> Result<(), Fail> {
    for (last, want) in [
        (Last::Ending(Ending::Halt), "ENDING HALT\n"),
        (Last::Ending(Ending::Vector(0x20)), "ENDING VECTOR 020\n"),
        (Last::Ending(Ending::Stack), "ENDING STACK\n"),
        (Last::Ending(Ending::Scb), "ENDING SCB\n"),
        (Last::Ending(Ending::Change), "ENDING CHANGE\n"),
        (Last::Steps, "ENDING STEPS\n"),
        (Last::Break, "ENDING BREAK\n"),
        (Last::Turns, "ENDING TURNS\n"),
        (Last::PageFault, "ENDING PAGEFAULT\n"),
    ] {
        let mut text = Text::new();
        push_ending(&mut text, last);
        assert!(rt; text.as_slice() == want.as_bytes());
    }
    let mut text = Text::new();
    push_register(&mut text, 14, 0x7FFF_FFF8);
    push_memory(&mut text, 0x8000_0400, &[Some(0xAB), None]);
    assert!(rt; text.as_slice() == b"R14 7FFFFFF8\nMEM 80000400 AB --\n".as_slice());
    Ok(())
}
