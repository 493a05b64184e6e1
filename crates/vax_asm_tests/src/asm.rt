//! Whole sources.
use std::alloc::Global;
use std::test::Fail;
use vax_asm::*;
use vax_dialect::Dialect;
use vax_module::{Module, RelocKind, Value};

/// The bytes of a section.
fn bytes_of(module: &Module, section: usize) -> &[u8] {
    match module.sections.as_slice().get(section) {
        Some(found) => found.bytes.as_slice(),
        None => &[],
    }
}

#[test]
fn assembles_a_source(rt: HostRuntime) -> Result<(), Fail> {
    let alloc = rt.alloc();
    let source = b"; a loop, a table and a name of another module
        .PSECT CODE,NOWRT
START:: MOVL    #5,R1
10$:    ADDL2   TABLE[R1],R0
        SOBGTR  R1,10$
        BRB     20$
        JSB     G^PRINT
20$:    HALT
        .PSECT DATA,LONG
TABLE:  .LONG   1,2[2],START
        .END    START
";
    let module = assemble(alloc, Dialect::Vax, source)?;
    let code: [u8; 23] = [
        0xD0, 0x05, 0x51, 0xC0, 0x41, 0xEF, 0, 0, 0, 0, 0x50, 0xF5, 0x51, 0xF5, 0x11, 0x06, 0x16,
        0xEF, 0, 0, 0, 0, 0x00,
    ];
    assert!(rt; bytes_of(&module, 1) == code.as_slice());
    assert!(rt;
        bytes_of(&module, 2) == [1, 0, 0, 0, 2, 0, 0, 0, 2, 0, 0, 0, 0, 0, 0, 0].as_slice()
    );
    assert!(rt; module.externals.as_slice().len() == 1);
    let places = [
        (
            RelocKind::RelLong,
            Value::Section {
                section: 2,
                offset: 0,
            },
        ),
        (
            RelocKind::RelLong,
            Value::External {
                index: 0,
                offset: 0,
            },
        ),
        (
            RelocKind::Long,
            Value::Section {
                section: 1,
                offset: 0,
            },
        ),
    ];
    let relocs = module.relocs.as_slice();
    assert!(rt; relocs.len() == places.len());
    assert!(rt; relocs[0].offset == 6);
    for (reloc, (kind, target)) in relocs.iter().zip(places) {
        assert!(rt; reloc.kind == kind && reloc.target == target);
    }
    assert!(rt; module.transfer.is_some());
    Ok(())
}

/// The line and the kind of the first fault, by its number; zeros where there is none.
fn fault_of(alloc: Global, source: &[u8]) -> (u32, u8) {
    match assemble(alloc, Dialect::Vax, source) {
        Err(AsmError::Fault { line, kind }) => (line, kind.code()),
        _ => (0, 0),
    }
}

#[test]
fn writes_signed_items(rt: HostRuntime) -> Result<(), Fail> {
    let source = b".SIGNED_BYTE -1[3],X,127\n.SIGNED_WORD -32768,X\n.BLKA\n.BYTE 255\nX=-2\n";
    let module = assemble(rt.alloc(), Dialect::Vax, source)?;
    let bytes = [
        0xFF, 0xFF, 0xFF, 0xFE, 0x7F, 0x00, 0x80, 0xFE, 0xFF, 0, 0, 0, 0, 0xFF,
    ];
    assert!(rt; bytes_of(&module, 0) == bytes.as_slice());
    Ok(())
}

#[test]
fn tells_the_first_fault(rt: HostRuntime) -> Result<(), Fail> {
    let alloc = rt.alloc();
    // A macro that skips bytes: 127 are within a branch's reach, 128 aren't.
    let skip =
        b".MACRO SKIP N,?L\nBRB L\n.BLKB N\nL:\n.ENDM\nBEGIN: SKIP 127\nSKIP 2\n.IF NE 1\n.IF EQ 1\nBPT\n.IFF\nNOP\n.ENDC\n.ENDC\nHALT\n.END BEGIN\n";
    assert!(rt; fault_of(alloc, skip) == (0, 0));
    let far = b".MACRO SKIP N,?L\nBRB L\n.BLKB N\nL:\n.ENDM\nBEGIN: SKIP 128\n.END BEGIN\n";
    assert!(rt; fault_of(alloc, far) == (6, 7));
    let rows: [(&[u8], (u32, u8)); 35] = [
        (b"NOP\n?\n\x01\n", (2, 4)),
        (b"NOP\n\x01\n", (2, 1)),
        (b"FROB R1\n", (1, 2)),
        (b"NOP\nMOVL R1\n", (2, 3)),
        (b"MOVL #1,#2\n", (1, 4)),
        (b".BLKB N\nN=2\n", (1, 5)),
        (b"A: NOP\nA: NOP\n", (2, 6)),
        (b".BYTE 256\n", (1, 7)),
        (b".BYTE 18446744073709551616\n", (1, 7)),
        (b"FROB 18446744073709551616\n", (1, 2)),
        (b"NOP\n.ENDC\n", (2, 8)),
        (b"NOP\n.IF EQ 0\n", (2, 8)),
        (b"BRB 1$\nNOP\n", (1, 5)),
        (b"BRB 1$\nX=Y\nY=X\n", (3, 4)),
        (b"X=Y\nY=X\nFROB R1\n", (2, 4)),
        (b"FROB R1\nX=Y\nY=X\n", (1, 2)),
        (b"X=Y\nY=Z\nW=Y\nZ=W\nZ=1\n", (4, 4)),
        (b"X=Y\nY=X\n.REPT X\n.ENDR\n", (2, 4)),
        (b"X=X/0\n", (1, 4)),
        (b"A: NOP\nA: X=X\n", (2, 2)),
        (b"X=X+18446744073709551616\n", (1, 4)),
        (b"A: NOP\nX=X\nA:\n", (2, 4)),
        (b".BLKB 1048577\n", (1, 11)),
        (b".LONG X\nX=5/Y\nY=0\n", (2, 7)),
        (b".SIGNED_BYTE 128\n", (1, 7)),
        (
            b".SIGNED_BYTE -1[3],-128,127\n.SIGNED_WORD -32768,32767\n",
            (0, 0),
        ),
        (b"NOP\n.SIGNED_BYTE X\nX=128\n", (2, 7)),
        (b"NOP\n.SIGNED_BYTE X\nX=-128\n", (0, 0)),
        (b".SIGNED_WORD X\nX=-32769\n", (1, 7)),
        (b".SIGNED_WORD X\nX:\n", (1, 4)),
        (b".SIGNED_BYTE E\n", (1, 4)),
        (b".SIGNED_WORD E+1\n.EXTERNAL E\n", (1, 4)),
        (b".SUBTITLE a table of words\n.SBTTL the same\n", (0, 0)),
        (b".BLKA X\n", (1, 5)),
        (b".BLKA 2,3\n", (1, 3)),
    ];
    for (source, fault) in rows {
        assert!(rt; fault_of(alloc, source) == fault);
    }
    Ok(())
}
