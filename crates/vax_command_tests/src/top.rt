//! Whole calls over objects in memory.
use std::alloc::{AllocError, Global};
use std::process::Abort;
use std::test::Fail;
use vax_input::MemLines;
use vax_outside::{Chan, Fail as Failing, MemFiles, MemPages, MemSink};
use vax_top::vax_main;

/// What a call left behind: the exit status, and what was written.
#[derive(Drop)]
struct Left {
    code: u8,
    sink: MemSink,
}

/// The calls of the files, of the sink and of the page file that are to fail.
#[derive(Clone, Copy)]
struct Failures {
    read: Option<Failing>,
    write: Option<Failing>,
    page: Option<Failing>,
}

const NONE: Failures = Failures {
    read: None,
    write: None,
    page: None,
};

const SMALLEST: &[u8] = b"BEGIN: MOVL #5,R1\nHALT\n.END BEGIN\n";

/// The image of that source, for the bare machine.
const IMAGE: &[u8] = b"VAXI\x01\x00\x00\x00\x00\x02\x00\x80\x01\x00\x00\x00\x01\x00\x40\x00\
    \x01\x00\x00\x00\x0E\x00\x00\x00\x04\x00\x00\x00\xD0\x05\x51\x00";

/// Each pass of the loop writes to a page that was absent.
const COUNTS: &[u8] =
    b".PSECT CODE\nBEGIN: INCL @#D\nBRB BEGIN\n.PSECT DATA,PAGE\nD: .LONG 0\n.END BEGIN\n";

/// Writes to each of 80 pages.
const WIDE: &[u8] =
    b".PSECT CODE\nBEGIN: MOVAL @#D,R0\nMOVL #80,R1\nL: INCB (R0)\nADDL2 #512,R0\nSOBGTR R1,L\nHALT\n\
    .PSECT DATA,PAGE\nD: .BLKB 40960\n.END BEGIN\n";

const COPY: &[u8] = b"BEGIN: MOVL R1,R2\nHALT\n.BLKB 600\n.END BEGIN\n";

const SCRIPT: &[u8] =
    b"EXAMINE R1\nDEPOSIT R1 0000000A\nDEPOSIT 800003FE 01020304\nEXAMINE 800003FE 4\nNEXT\nBOGUS\n\
    EXAMINE R2\nCONTINUE\n";

const REPLIES: &[u8] =
    b"R1 00000000\nOK\nOK\nMEM 800003FE 01 02 03 04\nAT 80000203 STEPS 1\n?COMMAND\nR2 0000000A\n\
    ENDING STEPS\n";

/// Counts the words of its input.
const WORDS: &[u8] =
    b".PSECT CODE,NOWRT\n.ENTRY START,^M<>\nCLRL R6\nCLRL R7\n10$: CHMK #2\nTSTL R0\nBLSS 40$\n\
    CMPB R0,#32\nBLEQU 30$\nTSTL R7\nBNEQ 10$\nINCL R6\nMOVL #1,R7\nBRB 10$\n30$: CLRL R7\nBRB 10$\n\
    40$: ADDL3 #48,R6,R0\nCHMK #1\nMOVL #10,R0\nCHMK #1\nRET\n.END START\n";

/// That of SMALLEST, in the larger dialect alone.
const LARGER: &[u8] = b".NCHR N,<AB CD>\nBEGIN: MOVL #N,R1\nHALT\n.END BEGIN\n";

/// The files of each call.
const FILES: [(&str, &[u8]); 17] = [
    ("A", SMALLEST),
    ("IMAGE", IMAGE),
    (
        "CUT",
        b"VAXI\x01\x00\x00\x00\x00\x02\x00\x80\x01\x00\x00\x00\x01\x00\x40\x00",
    ),
    ("COUNTS", COUNTS),
    ("WIDE", WIDE),
    ("COPY", COPY),
    ("SCRIPT", SCRIPT),
    ("WORDS", WORDS),
    ("TEXT", b"the cat sat\non the mat\n"),
    ("EMPTY", b""),
    ("FROB", b"FROB R1\n"),
    ("X", b"X:: HALT\n.END X\n"),
    ("Y", b"X:: NOP\n"),
    (
        "FAR",
        b"BEGIN: HALT\n.EXTERNAL NOWHERE\n.LONG NOWHERE\n.END BEGIN\n",
    ),
    ("LARGER", LARGER),
    ("EACH", b"each 4 all\n"),
    ("WRONG", b"at 1 80000200\neach 0 all\n"),
];

const REPORT: &str = "ENDING HALT\nSTEPS 2\nUNITS 0\n\
    R0 00000000 00000005 00000000 00000000\n\
    R4 00000000 00000000 00000000 00000000\n\
    R8 00000000 00000000 00000000 00000000\n\
    R12 00000000 00000000 80102000 80000203\n\
    PSL 001F0000\n\
    STACKS 00000000 7FFE0800 7FFE8800 80000000 80110800\n\
    INPUT 0\n";

const DUMPS: &str = "MEM 800003FE 00 00 -- --\n\
    MEM 80000201 05 51 00 00 00 00 00 00 00 00 00 00 00 00 00 00\n\
    MEM 80000211 00\n";

const EVICTIONS: &str = "at 4 80000200\nat 4 80000400\nat 8 80000200\nat 8 80000400\n\
    at 12 80000200\nat 12 80000400\n";

fn listed(alloc: Global, fail: Option<Failing>) -> Result<Vec<Failing>, AllocError> {
    let mut fails = Vec::new(alloc);
    if let Some(fail) = fail {
        fails.push(fail)?;
    }
    Ok(fails)
}

/// Calls the program with the words of a line, between single blanks, over these files, with calls that are to fail.
fn call_failing(rt: &HostRuntime, line: &str, fails: Failures) -> Result<Left, Fail> {
    let alloc = rt.alloc();
    let mut all = Vec::new(alloc);
    for word in line.split(' ') {
        all.push(String::from_str(alloc, word)?)?;
    }
    let mut held = Vec::new(alloc);
    for (name, text) in FILES {
        held.push((
            String::from_str(alloc, name)?,
            Vec::from_slice(alloc, text)?,
        ))?;
    }
    let mut files = MemFiles::new(held, listed(alloc, fails.read)?);
    let mut sink = MemSink::new(alloc, [1000, 1000, 1000], 7, listed(alloc, fails.write)?)?;
    let mut pages = MemPages::new(alloc, 200, 100, listed(alloc, fails.page)?)?;
    let mut lines = MemLines::new(b"");
    let status = vax_main(
        alloc,
        all.as_slice(),
        &mut files,
        &mut lines,
        &mut sink,
        &mut pages,
    );
    Ok(Left {
        code: status.code(),
        sink,
    })
}

fn call(rt: &HostRuntime, line: &str) -> Result<Left, Fail> {
    call_failing(rt, line, NONE)
}

fn expect<R: Abort>(rt: &R, left: &Left, code: u8, out: &[u8], report: &[u8]) {
    assert!(rt; left.code == code);
    assert!(rt; left.sink.bytes(Chan::Report) == report);
    assert!(rt; left.sink.bytes(Chan::Out) == out);
    assert!(rt; left.sink.bytes(Chan::Record) == b"".as_slice());
}

fn begins<R: Abort>(rt: &R, left: &Left, code: u8, out: &[u8], report: &[u8]) {
    assert!(rt; left.code == code);
    assert!(rt; left.sink.bytes(Chan::Report).starts_with(report));
    assert!(rt; left.sink.bytes(Chan::Out) == out);
}

#[test]
fn runs_in_kernel_mode(rt: HostRuntime) -> Result<(), Fail> {
    expect(&rt, &call(&rt, "bare A")?, 0, b"", REPORT.as_bytes());
    let line = "bare --input=A --steps 2 IMAGE";
    expect(&rt, &call(&rt, line)?, 0, b"", REPORT.as_bytes());
    let left = call(&rt, "bare A --steps=0")?;
    begins(&rt, &left, 0, b"", b"ENDING STEPS\nSTEPS 0\n");
    let left = call(&rt, "bare A --turns=1")?;
    begins(&rt, &left, 8, b"", b"ENDING TURNS\nSTEPS 0\n");
    Ok(())
}

#[test]
fn runs_in_user_mode(rt: HostRuntime) -> Result<(), Fail> {
    let left = call(&rt, "run WORDS --input TEXT")?;
    begins(&rt, &left, 0, b"6\n", b"ENDING HALT\n");
    assert!(rt; left.sink.bytes(Chan::Report).ends_with(b"INPUT 23\n"));
    begins(
        &rt,
        &call(&rt, "work")?,
        0,
        b"",
        b"ENDING HALT\nSTEPS 107\n",
    );
    Ok(())
}

#[test]
fn builds(rt: HostRuntime) -> Result<(), Fail> {
    expect(&rt, &call(&rt, "build A --base bare")?, 0, IMAGE, b"");
    let left = call(&rt, "build IMAGE --base=bare --format=2")?;
    assert!(rt; left.code == 0);
    assert!(rt;
        left.sink
            .bytes(Chan::Out)
            .starts_with(b"VAXI\x02\x00\x00\x00")
    );
    Ok(())
}

#[test]
fn refuses(rt: HostRuntime) -> Result<(), Fail> {
    let refusals: [(&str, u8, &[u8]); 14] = [
        ("bare A --frames 63", 1, b"vax: usage\n"),
        ("console A", 1, b"vax: usage\n"),
        ("bare NONE", 2, b"vax: missing NONE\n"),
        ("bare --input NO A", 2, b"vax: missing NO\n"),
        ("bare FROB", 4, b"vax: source 1 line 1 fault 2\n"),
        ("run A FROB", 4, b"vax: source 2 line 1 fault 2\n"),
        ("run A --system FROB", 4, b"vax: source 0 line 1 fault 2\n"),
        ("bare FAR", 5, b"vax: link fault 1 NOWHERE\n"),
        ("bare X Y", 5, b"vax: link fault 2 X\n"),
        ("build EMPTY", 5, b"vax: link fault 4\n"),
        (
            "bare A --schedule WRONG",
            6,
            b"vax: schedule line 2 fault 1\n",
        ),
        ("run IMAGE", 7, b"vax: image place 6 fault 3\n"),
        ("bare CUT", 7, b"vax: image place 20 fault 8\n"),
        ("bare A IMAGE", 7, b"vax: image place 0 fault 11\n"),
    ];
    for (line, code, report) in refusals {
        expect(&rt, &call(&rt, line)?, code, b"", report);
    }
    Ok(())
}

#[test]
fn tells_failures(rt: HostRuntime) -> Result<(), Fail> {
    for (line, read) in [
        ("bare A --input A", Failing::Read(2)),
        ("build A", Failing::Read(1)),
    ] {
        let fails = Failures {
            read: Some(read),
            ..NONE
        };
        expect(
            &rt,
            &call_failing(&rt, line, fails)?,
            10,
            b"",
            b"vax: read\n",
        );
    }
    let fails = Failures {
        write: Some(Failing::Write(3)),
        ..NONE
    };
    expect(
        &rt,
        &call_failing(&rt, "bare A", fails)?,
        11,
        b"",
        b"ENDING HALT\nST",
    );
    let left = call_failing(&rt, "build IMAGE --base bare", fails)?;
    expect(&rt, &left, 11, &IMAGE[..14], b"");
    Ok(())
}

/// Memory is shown behind the registers; a byte in no area has no digits.
#[test]
fn shows_memory(rt: HostRuntime) -> Result<(), Fail> {
    let left = call(&rt, "bare A --dump 800003FE:4,80000201:17")?;
    assert!(rt; left.code == 0);
    let shown = left
        .sink
        .bytes(Chan::Report)
        .strip_prefix(REPORT.as_bytes());
    assert!(rt; shown == Some(DUMPS.as_bytes()));
    Ok(())
}

/// A page that is on file is read for the report, and that read fails.
#[test]
fn fails_to_show_memory(rt: HostRuntime) -> Result<(), Fail> {
    let line = "bare WIDE --frames=64 --dump=80000400:1";
    let left = call(&rt, line)?;
    begins(&rt, &left, 0, b"", b"ENDING HALT\nSTEPS 243\n");
    assert!(rt;
        left.sink
            .bytes(Chan::Report)
            .ends_with(b"MEM 80000400 01\n")
    );
    let fails = Failures {
        page: Some(Failing::Read(1)),
        ..NONE
    };
    let left = call_failing(&rt, line, fails)?;
    begins(&rt, &left, 9, b"", b"ENDING PAGEFAULT\nSTEPS 243\n");
    assert!(rt; left.sink.bytes(Chan::Report).ends_with(b"INPUT 0\n"));
    Ok(())
}

#[test]
fn records_evictions(rt: HostRuntime) -> Result<(), Fail> {
    let line = "bare COUNTS --schedule EACH --steps 6 --record=on";
    let left = call(&rt, line)?;
    begins(&rt, &left, 0, b"", b"ENDING STEPS\nSTEPS 6\n");
    assert!(rt; left.sink.bytes(Chan::Record) == EVICTIONS.as_bytes());
    Ok(())
}

#[test]
fn holds_a_session(rt: HostRuntime) -> Result<(), Fail> {
    let line = "console COPY --base bare --script SCRIPT --steps 1";
    expect(&rt, &call(&rt, line)?, 0, b"", REPLIES);
    let line = "console A --base=bare --script=SCRIPT --turns=1";
    let left = call(&rt, line)?;
    begins(&rt, &left, 8, b"", b"R1 00000000\nOK\n?ADDRESS\n");
    assert!(rt; left.sink.bytes(Chan::Report).ends_with(b"INPUT 0\n"));
    Ok(())
}

#[test]
fn lists(rt: HostRuntime) -> Result<(), Fail> {
    let listing = b"80000200 MOVL S^#^X05,R1\n80000203 HALT\n";
    expect(&rt, &call(&rt, "list A --base bare")?, 0, listing, b"");
    Ok(())
}

/// All pages go before each fourth attempt, and the loop goes on; the third write to the page file fails.
#[test]
fn runs_under_a_schedule(rt: HostRuntime) -> Result<(), Fail> {
    let line = "bare COUNTS --schedule EACH --steps 6";
    begins(&rt, &call(&rt, line)?, 0, b"", b"ENDING STEPS\nSTEPS 6\n");
    let line = "bare COUNTS --schedule EACH --steps 100";
    let fails = Failures {
        page: Some(Failing::Write(3)),
        ..NONE
    };
    let left = call_failing(&rt, line, fails)?;
    begins(&rt, &left, 9, b"", b"ENDING PAGEFAULT\nSTEPS 5\n");
    Ok(())
}

/// A source of the larger dialect is refused but where that is asked for.
#[test]
fn reads_the_larger_dialect(rt: HostRuntime) -> Result<(), Fail> {
    let left = call(&rt, "bare LARGER --dialect vms")?;
    expect(&rt, &left, 0, b"", REPORT.as_bytes());
    let left = call(&rt, "build --dialect=vms LARGER --base bare")?;
    expect(&rt, &left, 0, IMAGE, b"");
    let listing = b"80000200 MOVL S^#^X05,R1\n80000203 HALT\n";
    let left = call(&rt, "list LARGER --base bare --dialect vms")?;
    expect(&rt, &left, 0, listing, b"");
    for line in [
        "bare LARGER",
        "run LARGER",
        "run A --system LARGER",
        "build LARGER",
        "list LARGER",
        "listing LARGER",
        "trace LARGER --base bare",
        "save LARGER --base bare",
        "jobs A LARGER",
        "console LARGER --base bare --script SCRIPT",
    ] {
        assert!(rt; call(&rt, line)?.code == 4, "{line}");
    }
    for line in [
        "run LARGER --dialect vms",
        "listing LARGER --dialect vms",
        "check LARGER --base bare --dialect vms",
        "trace LARGER --base bare --dialect vms",
        "jobs A LARGER --dialect vms",
        "console LARGER --base bare --script SCRIPT --steps 1 --dialect vms",
    ] {
        assert!(rt; call(&rt, line)?.code == 0, "{line}");
    }
    expect(
        &rt,
        &call(&rt, "bare A --dialect x")?,
        1,
        b"",
        b"vax: usage\n",
    );
    Ok(())
}
