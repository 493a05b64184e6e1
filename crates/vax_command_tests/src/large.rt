//! How many bytes a file may have: 4,194,304, or 67,108,864 where it begins as a linked program or is a schedule.
use std::alloc::Global;
use std::process::Abort;
use std::test::Fail;
use vax_input::MemLines;
use vax_outside::{MemFiles, MemPages, MemSink};
use vax_top::vax_main;

/// A call whose file F has so many bytes: these first, and then the same byte again and again.
#[derive(Clone, Copy)]
struct Row {
    line: &'static str,
    first: &'static [u8],
    behind: u8,
    length: u32,
    code: u8,
}

const SOURCE: &[u8] = b"BEGIN: MOVL #5,R1\nHALT\n.END BEGIN\n";

/// What stands before the bytes of a user's image with one area of 8,193 pages from 200 (hexadecimal) on, with all its bytes.
const HEAD: &[u8] = b"VAXI\x01\x00\x01\x00\x00\x02\x00\x00\x01\x00\x00\x00\x01\x00\x00\x00\
    \x01\x20\x00\x00\x04\x00\x00\x00\x00\x02\x40\x00";

const MOST: u32 = 4_194_304;

const MOST_OF_LINKED: u32 = 67_108_864;

/// A row with its code.
fn answers(line: &'static str, first: &'static [u8], behind: u8, length: u32, code: u8) -> Row {
    Row {
        line,
        first,
        behind,
        length,
        code,
    }
}

/// The file of a row.
fn file_of(alloc: Global, row: Row) -> Result<Vec<u8>, Fail> {
    let mut bytes = Vec::from_slice(alloc, row.first)?;
    bytes.resize(row.length as usize, row.behind)?;
    Ok(bytes)
}

/// The exit status of a row's call.
fn code_of(alloc: Global, row: Row) -> Result<u8, Fail> {
    let mut words = Vec::new(alloc);
    for word in row.line.split(' ') {
        words.push(String::from_str(alloc, word)?)?;
    }
    let mut held = Vec::new(alloc);
    held.push((
        String::from_str(alloc, "A")?,
        Vec::from_slice(alloc, SOURCE)?,
    ))?;
    held.push((String::from_str(alloc, "F")?, file_of(alloc, row)?))?;
    let mut files = MemFiles::new(held, Vec::new(alloc));
    let mut sink = MemSink::new(alloc, [5_000_000, 1000, 1000], 7, Vec::new(alloc))?;
    let mut pages = MemPages::new(alloc, 200, 100, Vec::new(alloc))?;
    let mut lines = MemLines::new(b"");
    let status = vax_main(
        alloc,
        words.as_slice(),
        &mut files,
        &mut lines,
        &mut sink,
        &mut pages,
    );
    Ok(status.code())
}

/// Each call has its exit status.
fn expect<R: Abort>(rt: &R, alloc: Global, rows: &[Row]) -> Result<(), Fail> {
    let mut number = 0u32;
    for row in rows {
        let code = code_of(alloc, *row)?;
        assert_eq!(rt; code, row.code, "row {number}");
        number = number.wrapping_add(1);
    }
    Ok(())
}

#[test]
fn sources_may_not_be_longer(rt: HostRuntime) -> Result<(), Fail> {
    let rows = [
        answers("bare F", SOURCE, b';', MOST, 0),
        answers("bare F", SOURCE, b';', MOST + 1, 3),
        answers("list F", SOURCE, b';', MOST + 1, 3),
        answers("check F", SOURCE, b';', MOST + 1, 3),
        answers("run A --system F", SOURCE, b';', MOST + 1, 3),
        // one that begins almost as an image, and almost as an executable
        answers("run F", b"VAX", b'J', MOST + 1, 3),
        answers("run F", b"\x7FELG", 0, MOST + 1, 3),
    ];
    expect(&rt, rt.alloc(), &rows)
}

#[test]
fn linked_programs_may_be_longer(rt: HostRuntime) -> Result<(), Fail> {
    let rows = [
        answers("run F", HEAD, 0, 4_194_848, 0),
        answers("build F", HEAD, 0, 4_194_848, 0),
        answers("trace F", HEAD, 0, 4_194_848, 0),
        answers("jobs A F", HEAD, 0, 4_194_848, 0),
        answers("check F", HEAD, 0, 4_194_848, 0),
        // with a byte behind it, as a system too
        answers("run F", HEAD, 0, 4_194_849, 7),
        answers("run A --system F", HEAD, 0, 4_194_849, 7),
        // one that begins as an executable and isn't one
        answers("run F", b"\x7FELF", 0, MOST + 1, 7),
    ];
    expect(&rt, rt.alloc(), &rows)
}

#[test]
fn linked_programs_have_a_limit(rt: HostRuntime) -> Result<(), Fail> {
    let rows = [answers("run F", HEAD, 0, MOST_OF_LINKED + 1, 3)];
    expect(&rt, rt.alloc(), &rows)
}

#[test]
fn schedules_may_be_longer(rt: HostRuntime) -> Result<(), Fail> {
    let rows = [
        answers("bare A --schedule F", b"each 4 all\n", b'\n', MOST + 1, 0),
        answers("bare A --schedule F", b"each 0 all\n", b'\n', MOST + 1, 6),
    ];
    expect(&rt, rt.alloc(), &rows)
}

#[test]
fn schedules_have_a_limit(rt: HostRuntime) -> Result<(), Fail> {
    let rows = [answers("bare A --schedule F", b";", b'\n', MOST_OF_LINKED + 1, 3)];
    expect(&rt, rt.alloc(), &rows)
}

#[test]
fn other_files_may_not_be_longer(rt: HostRuntime) -> Result<(), Fail> {
    let rows = [
        answers("bare A --input F", HEAD, 0, MOST, 0),
        answers("bare A --input F", HEAD, 0, MOST + 1, 3),
        answers("console A --script F", HEAD, 0, MOST + 1, 3),
        answers("jobs A --order F", HEAD, 0, MOST + 1, 3),
        answers("bare A --macros F", HEAD, 0, MOST + 1, 3),
        answers("bare A --macros F", SOURCE, b';', MOST + 1, 3),
    ];
    expect(&rt, rt.alloc(), &rows)
}
