//! Whole calls over objects in memory.
use std::alloc::{AllocError, Global};
use std::test::Fail;
use vax_input::MemLines;
use vax_outside::{Chan, Fail as Failing, MemFiles, MemPages, MemSink, StateFile};
use vax_top::vax_main;

/// Overwrites itself with zeros, in two parts of 512 bytes each.
const MOVE: &[u8] =
    b".PSECT CODE\nBEGIN: MOVC3 #1024,@#S,@#BEGIN\n.BYTE 1[1010]\n.PSECT DATA,PAGE\nS: .BLKB 1024\n\
    .END BEGIN\n";

/// Counts the words of its input.
const WORDS: &[u8] =
    b".PSECT CODE,NOWRT\n.ENTRY START,^M<>\nCLRL R6\nCLRL R7\n10$: CHMK #2\nTSTL R0\nBLSS 40$\n\
    CMPB R0,#32\nBLEQU 30$\nTSTL R7\nBNEQ 10$\nINCL R6\nMOVL #1,R7\nBRB 10$\n30$: CLRL R7\nBRB 10$\n\
    40$: ADDL3 #48,R6,R0\nCHMK #1\nMOVL #10,R0\nCHMK #1\nRET\n.END START\n";

/// Writes to each of 80 pages.
const WIDE: &[u8] =
    b".PSECT CODE\nBEGIN: MOVAL @#D,R0\nMOVL #80,R1\nL: INCB (R0)\nADDL2 #512,R0\nSOBGTR R1,L\nHALT\n\
    .PSECT DATA,PAGE\nD: .BLKB 40960\n.END BEGIN\n";

/// The files of each call, beside one more.
const FILES: [(&str, &[u8]); 7] = [
    ("MOVE", MOVE),
    ("WIDE", WIDE),
    ("WORDS", WORDS),
    ("TEXT", b"the cat sat\non the mat\n"),
    ("EACH", b"each 3 all\n"),
    ("SIXTH", b"each 6 all\n"),
    ("WRONG", b"at 1 40000000\n"),
];

/// What a call left behind: the exit status, and what was written.
#[derive(Drop)]
pub(crate) struct Left {
    pub(crate) code: u8,
    pub(crate) sink: MemSink,
}

impl Left {
    pub(crate) fn out(&self) -> &[u8] {
        self.sink.bytes(Chan::Out)
    }

    pub(crate) fn report(&self) -> &[u8] {
        self.sink.bytes(Chan::Report)
    }

    pub(crate) fn state(&self) -> &[u8] {
        self.sink.bytes(Chan::State)
    }

    pub(crate) fn file(&self) -> StateFile {
        self.sink.state_file()
    }
}

/// The calls of the page file and of the channels that are to fail.
#[derive(Clone, Copy)]
struct Fails {
    page: Option<Failing>,
    sink: Option<Failing>,
}

impl Fails {
    fn of_pages(page: Option<Failing>) -> Fails {
        Fails { page, sink: None }
    }
}

fn listed(alloc: Global, fail: Option<Failing>) -> Result<Vec<Failing>, AllocError> {
    let mut fails = Vec::new(alloc);
    if let Some(fail) = fail {
        fails.push(fail)?;
    }
    Ok(fails)
}

/// Calls the program with the words of a line, between single blanks, over these files and one more, with calls that are to fail and these lines of standard input.
fn call_with(
    alloc: Global,
    line: &str,
    file: (&str, &[u8]),
    fails: Fails,
    typed: &[u8],
) -> Result<Left, Fail> {
    let mut all = Vec::new(alloc);
    for word in line.split(' ') {
        all.push(String::from_str(alloc, word)?)?;
    }
    let mut held = Vec::new(alloc);
    for (name, text) in FILES {
        held.push((
            String::from_str(alloc, name)?,
            Vec::from_slice(alloc, text)?,
        ))?;
    }
    let (name, text) = file;
    held.push((
        String::from_str(alloc, name)?,
        Vec::from_slice(alloc, text)?,
    ))?;
    let mut files = MemFiles::new(held, Vec::new(alloc));
    let mut sink = MemSink::new(
        alloc,
        [1000, 1000, 100_000],
        1000,
        listed(alloc, fails.sink)?,
    )?;
    let mut pages = MemPages::new(alloc, 400, 1000, listed(alloc, fails.page)?)?;
    let mut lines = MemLines::new(typed);
    let status = vax_main(
        alloc,
        all.as_slice(),
        &mut files,
        &mut lines,
        &mut sink,
        &mut pages,
    );
    Ok(Left {
        code: status.code(),
        sink,
    })
}

/// The same, where the file more is a saved state.
pub(crate) fn call_failing(
    alloc: Global,
    line: &str,
    state: &[u8],
    page: Option<Failing>,
) -> Result<Left, Fail> {
    call_with(alloc, line, ("STATE", state), Fails::of_pages(page), b"")
}

/// The same, with the call of the channels of this number to fail.
pub(crate) fn call_cut(alloc: Global, line: &str, number: u64) -> Result<Left, Fail> {
    let fails = Fails {
        page: None,
        sink: Some(Failing::Call(number)),
    };
    call_with(alloc, line, ("STATE", b""), fails, b"")
}

/// The same, where the file more is the source A, with no call that is to fail.
pub(crate) fn call_over(alloc: Global, line: &str, source: &[u8]) -> Result<Left, Fail> {
    call_with(alloc, line, ("A", source), Fails::of_pages(None), b"")
}

/// The same over a saved state, with no call that is to fail.
pub(crate) fn call(alloc: Global, line: &str, state: &[u8]) -> Result<Left, Fail> {
    call_failing(alloc, line, state, None)
}

/// The same of a debugger that is given these lines, with a call of the page file that is to fail.
pub(crate) fn debug(
    alloc: Global,
    line: &str,
    typed: &[u8],
    page: Option<Failing>,
) -> Result<Left, Fail> {
    call_with(alloc, line, ("STATE", b""), Fails::of_pages(page), typed)
}

/// The state of the move behind its first part: 1,356 bytes.
pub(crate) fn move_state(alloc: Global) -> Result<Left, Fail> {
    call(alloc, "save MOVE --base bare --turns 3", b"")
}
