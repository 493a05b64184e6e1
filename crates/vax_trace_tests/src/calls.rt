//! Whole calls of `trace` over objects in memory. Expected values are worked by hand.
use std::process::Abort;
use std::test::Fail;
use vax_input::MemLines;
use vax_outside::{Chan, MemFiles, MemPages, MemSink};
use vax_top::vax_main;

/// What a call left behind: the exit status, and what was written.
#[derive(Drop)]
struct Left {
    code: u8,
    sink: MemSink,
}

/// MOVL #5,R1 and HALT.
const FIVE: &[u8] = b"BEGIN: MOVL #5,R1\nHALT\n.END BEGIN\n";

/// Its second instruction reads one page and writes another.
const COPY: &[u8] =
    b".PSECT CODE\nBEGIN: MOVAL @#D,R1\nMOVL (R1)+,(R1)+\nHALT\n.PSECT DATA,PAGE\n.BLKB 508\n\
    D: .LONG ^X11223344\n.LONG 0\n.END BEGIN\n";

/// Counts the words of its input.
const WORDS: &[u8] =
    b".PSECT CODE,NOWRT\n.ENTRY START,^M<>\nCLRL R6\nCLRL R7\n10$: CHMK #2\nTSTL R0\nBLSS 40$\n\
    CMPB R0,#32\nBLEQU 30$\nTSTL R7\nBNEQ 10$\nINCL R6\nMOVL #1,R7\nBRB 10$\n30$: CLRL R7\nBRB 10$\n\
    40$: ADDL3 #48,R6,R0\nCHMK #1\nMOVL #10,R0\nCHMK #1\nRET\n.END START\n";

/// The files of each call.
const FILES: [(&str, &[u8]); 6] = [
    ("FIVE", FIVE),
    ("COPY", COPY),
    ("WORDS", WORDS),
    ("TEXT", b"the cat sat\non the mat\n"),
    ("FIFTH", b"each 5 all\n"),
    ("EACH", b"each 1 all\n"),
];

/// The report of the first program.
const REPORT: &str = "ENDING HALT\nSTEPS 2\nUNITS 0\n\
    R0 00000000 00000005 00000000 00000000\n\
    R4 00000000 00000000 00000000 00000000\n\
    R8 00000000 00000000 00000000 00000000\n\
    R12 00000000 00000000 80102000 80000203\n\
    PSL 001F0000\n\
    STACKS 00000000 7FFE0800 7FFE8800 80000000 80110800\n\
    INPUT 0\n";

const STEPS: &str = "1 80000200 D0 R1=00000005\n2 80000203 00\n";

const TEXTS: &str = "1 80000200 D0 MOVL S^#^X05,R1 R1=00000005\n2 80000203 00 HALT\n";

const COPIED: &str = "1 80000200 DE R1=800005FC PSL=001F0008\n\
    2 80000207 D0 R1=80000604 PSL=001F0000\nWATCH 80000600:4\n3 8000020A 00\n";

const COPIED_TEXTS: &str = "1 80000200 DE MOVAL @#^X800005FC,R1 R1=800005FC PSL=001F0008\n\
    2 80000207 D0 MOVL (R1)+,(R1)+ R1=80000604 PSL=001F0000\nWATCH 80000600:4\n3 8000020A 00 HALT\n";

/// Calls the program with the words of a line, between single blanks, over these files.
fn call(rt: &HostRuntime, line: &str) -> Result<Left, Fail> {
    let alloc = rt.alloc();
    let mut all = Vec::new(alloc);
    for word in line.split(' ') {
        all.push(String::from_str(alloc, word)?)?;
    }
    let mut held = Vec::new(alloc);
    for (name, text) in FILES {
        held.push((
            String::from_str(alloc, name)?,
            Vec::from_slice(alloc, text)?,
        ))?;
    }
    let mut files = MemFiles::new(held, Vec::new(alloc));
    let mut sink = MemSink::new(alloc, [100_000; 3], 4_096, Vec::new(alloc))?;
    let mut pages = MemPages::new(alloc, 200, 10_000, Vec::new(alloc))?;
    let mut lines = MemLines::new(b"");
    let status = vax_main(
        alloc,
        all.as_slice(),
        &mut files,
        &mut lines,
        &mut sink,
        &mut pages,
    );
    Ok(Left {
        code: status.code(),
        sink,
    })
}

/// Compares the exit status and Record, how the report begins, and that nothing is on Out.
fn expect<R: Abort>(rt: &R, left: &Left, code: u8, report: &str, record: &str) {
    assert!(rt; left.code == code);
    assert!(rt; left.sink.bytes(Chan::Report).starts_with(report.as_bytes()));
    assert!(rt; left.sink.bytes(Chan::Record) == record.as_bytes());
    assert!(rt; left.sink.bytes(Chan::Out).is_empty());
}

#[test]
fn lists_steps(rt: HostRuntime) -> Result<(), Fail> {
    let first = "1 80000200 D0 R1=00000005\n";
    expect(&rt, &call(&rt, "trace FIVE --base bare")?, 0, REPORT, STEPS);
    let line = "trace FIVE --base bare --break 80000203";
    expect(
        &rt,
        &call(&rt, line)?,
        0,
        "ENDING BREAK\nSTEPS 1\nUNITS 0\nR0 00000000 00000005",
        first,
    );
    let line = "trace FIVE --base bare --break 80000200,80000204";
    expect(&rt, &call(&rt, line)?, 0, REPORT, STEPS);
    let line = "trace FIVE --base bare --break 80000203 --steps 1";
    expect(&rt, &call(&rt, line)?, 0, "ENDING STEPS\nSTEPS 1\n", first);
    let line = "trace FIVE --base bare --steps 0";
    expect(&rt, &call(&rt, line)?, 0, "ENDING STEPS\nSTEPS 0\n", "");
    Ok(())
}

#[test]
fn lists_watches(rt: HostRuntime) -> Result<(), Fail> {
    let line = "trace COPY --base bare --watch 80000600:4";
    let halt = "ENDING HALT\nSTEPS 3\n";
    expect(&rt, &call(&rt, line)?, 0, halt, COPIED);
    let line = "trace COPY --base bare --watch 80000600:4 --schedule FIFTH";
    expect(&rt, &call(&rt, line)?, 0, halt, COPIED);
    let line = "trace COPY --base bare --watch 80000600:4 --schedule EACH --turns 200";
    expect(&rt, &call(&rt, line)?, 8, "ENDING TURNS\nSTEPS 0\n", "");
    Ok(())
}

#[test]
fn lists_texts(rt: HostRuntime) -> Result<(), Fail> {
    let line = "trace FIVE --base bare --text on";
    expect(&rt, &call(&rt, line)?, 0, REPORT, TEXTS);
    let line = "trace FIVE --base bare --text off";
    expect(&rt, &call(&rt, line)?, 0, REPORT, STEPS);
    let line = "trace COPY --base bare --text on --watch 80000600:4 --schedule FIFTH";
    let halt = "ENDING HALT\nSTEPS 3\n";
    expect(&rt, &call(&rt, line)?, 0, halt, COPIED_TEXTS);
    Ok(())
}

#[test]
fn lists_alike_under_any_schedule(rt: HostRuntime) -> Result<(), Fail> {
    let whole = call(&rt, "trace WORDS --input TEXT")?;
    assert!(rt; whole.code == 0);
    assert!(rt; whole.sink.bytes(Chan::Out) == b"6\n".as_slice());
    assert!(rt; whole.sink.bytes(Chan::Report).ends_with(b"INPUT 23\n"));
    let line = "trace WORDS --input TEXT --schedule FIFTH --frames 64";
    let left = call(&rt, line)?;
    assert!(rt; left.code == 0);
    for chan in [Chan::Out, Chan::Report, Chan::Record] {
        assert!(rt; left.sink.bytes(chan) == whole.sink.bytes(chan));
    }
    Ok(())
}

#[test]
fn refuses_words(rt: HostRuntime) -> Result<(), Fail> {
    for line in [
        "trace",
        "trace FIVE --break 8000020",
        "trace FIVE --break 80000200,",
        "trace FIVE --watch 80000200:0",
        "trace FIVE --base bare --system FIVE",
        "trace FIVE --record on",
        "trace FIVE --strict on",
        "trace FIVE --text yes",
        "trace FIVE --text",
        "bare FIVE --text on",
        "bare FIVE --break 80000200",
        "trace FIVE --break 1234567G",
    ] {
        let left = call(&rt, line)?;
        assert!(rt; left.code == 1, "{line}");
        assert!(rt; left.sink.bytes(Chan::Record).is_empty(), "{line}");
    }
    Ok(())
}

#[test]
fn shows_help(rt: HostRuntime) -> Result<(), Fail> {
    let left = call(&rt, "trace --help")?;
    let about = b"Run a program, list its steps in the file vax.rec";
    assert!(rt; left.code == 0);
    assert!(rt; left.sink.bytes(Chan::Out).starts_with(about));
    Ok(())
}
