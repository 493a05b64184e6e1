//! Whole calls over objects in memory.
use std::alloc::Global;
use std::test::Fail;
use vax_input::MemLines;
use vax_outside::{Chan, MemFiles, MemPages, MemSink};
use vax_top::vax_main;

/// Counts the words of its input.
const WORDS: &[u8] =
    b".PSECT CODE,NOWRT\n.ENTRY START,^M<>\nCLRL R6\nCLRL R7\n10$: CHMK #2\nTSTL R0\nBLSS 40$\n\
    CMPB R0,#32\nBLEQU 30$\nTSTL R7\nBNEQ 10$\nINCL R6\nMOVL #1,R7\nBRB 10$\n30$: CLRL R7\nBRB 10$\n\
    40$: ADDL3 #48,R6,R0\nCHMK #1\nMOVL #10,R0\nCHMK #1\nRET\n.END START\n";

/// What a call left behind: the exit status, and what was written.
#[derive(Drop)]
pub(crate) struct Left {
    pub(crate) code: u8,
    pub(crate) sink: MemSink,
}

impl Left {
    pub(crate) fn out(&self) -> &[u8] {
        self.sink.bytes(Chan::Out)
    }

    pub(crate) fn report(&self) -> &[u8] {
        self.sink.bytes(Chan::Report)
    }
}

/// Calls the program with the words of a line, between single blanks, over these files and so many blocks of a page file.
pub(crate) fn call_over(
    alloc: Global,
    line: &str,
    files: Vec<(String, Vec<u8>)>,
    blocks: u32,
) -> Result<Left, Fail> {
    let mut all = Vec::new(alloc);
    for word in line.split(' ') {
        all.push(String::from_str(alloc, word)?)?;
    }
    let mut files = MemFiles::new(files, Vec::new(alloc));
    let mut sink = MemSink::new(alloc, [100_000; 3], 4_096, Vec::new(alloc))?;
    let mut pages = MemPages::new(alloc, blocks, 100_000, Vec::new(alloc))?;
    let mut lines = MemLines::new(b"");
    let status = vax_main(
        alloc,
        all.as_slice(),
        &mut files,
        &mut lines,
        &mut sink,
        &mut pages,
    );
    Ok(Left {
        code: status.code(),
        sink,
    })
}

/// A file of this name.
pub(crate) fn push_file(
    alloc: Global,
    files: &mut Vec<(String, Vec<u8>)>,
    name: &str,
    text: &[u8],
) -> Result<(), Fail> {
    files.push((
        String::from_str(alloc, name)?,
        Vec::from_slice(alloc, text)?,
    ))?;
    Ok(())
}

/// Calls the program over the source that counts words, as `W`, a text of six of them, as `I`, a source with a fault, as `F`, and an order, as `O`.
pub(crate) fn call(alloc: Global, line: &str, order: &[u8]) -> Result<Left, Fail> {
    let mut files = Vec::new(alloc);
    push_file(alloc, &mut files, "W", WORDS)?;
    push_file(alloc, &mut files, "I", b"the cat sat\non the mat\n")?;
    push_file(alloc, &mut files, "F", b"HALT\nFROB R1\n.END\n")?;
    push_file(alloc, &mut files, "O", order)?;
    call_over(alloc, line, files, 200)
}
