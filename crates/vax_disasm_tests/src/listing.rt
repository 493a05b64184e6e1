//! Whole listings. Expected texts are worked by hand from the tables of the VAX MACRO and Instruction Set Reference Manual.
use std::alloc::{AllocError, Global};
use std::test::Fail;
use vax_listing::write_listing;
use vax_outside::{Chan, Failed, MemSink};
use vax_space::{Area, Bytes};

/// An area of one page.
fn area(alloc: Global, first: u32, bytes: &[u8]) -> Result<Area, AllocError> {
    Ok(Area {
        first,
        pages: 1,
        prot: 14,
        bytes: Bytes::from(Vec::from_slice(alloc, bytes)?),
    })
}

#[test]
fn lists_instructions_and_bytes(rt: HostRuntime) -> Result<(), Fail> {
    let alloc = rt.alloc();
    let areas = [
        area(alloc, 0x40_0001, &[0xD0, 5, 0x51, 0])?,
        area(alloc, 0x40_0002, &[])?,
        area(alloc, 0x7F_FFFF, &[0x57, 1, 0xD0, 5])?,
    ];
    let want = "80000200 MOVL S^#^X05,R1\n80000203 HALT\n\
        FFFFFE00 .BYTE ^X57\nFFFFFE01 NOP\nFFFFFE02 .BYTE ^XD0\nFFFFFE03 RSB\n";
    let mut sink = MemSink::new(alloc, [4096, 0, 0], 7, Vec::new(alloc))?;
    assert!(rt; write_listing(&areas, &mut sink) == Ok(()));
    assert!(rt; sink.bytes(Chan::Out) == want.as_bytes());
    // A channel that is full leaves a prefix.
    let mut short = MemSink::new(alloc, [30, 0, 0], 4096, Vec::new(alloc))?;
    assert!(rt; write_listing(&areas, &mut short) == Err(Failed));
    assert!(rt; short.bytes(Chan::Out) == &want.as_bytes()[..30]);
    Ok(())
}

#[test]
fn lists_more_than_it_holds_back(rt: HostRuntime) -> Result<(), Fail> {
    let alloc = rt.alloc();
    let areas = [area(alloc, 0x40_0001, &[1; 512])?];
    let mut sink = MemSink::new(alloc, [8192, 0, 0], 8192, Vec::new(alloc))?;
    assert!(rt; write_listing(&areas, &mut sink) == Ok(()));
    let text = sink.bytes(Chan::Out);
    assert!(rt; text.len() == 512 * 13);
    assert!(rt; &text[511 * 13..] == b"800003FF NOP\n".as_slice());
    Ok(())
}
