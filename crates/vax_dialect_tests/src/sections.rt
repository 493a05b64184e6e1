//! Sections that only count, absolute and overlaid ones, in the larger dialect. Expected values are worked by the manual.
use crate::rows::{are_faulty, fault_of, give};
use std::test::Fail;
use vax_asm::assemble;
use vax_dialect::Dialect;
use vax_lex::Value;

/// The labels of an absolute section are numbers, and so is `.`; it has no bytes.
#[test]
fn counts_in_absolute_sections(rt: HostRuntime) -> Result<(), Fail> {
    let alloc = rt.alloc();
    let rows: [(&str, &[u8]); 9] = [
        (
            ".PSECT X,ABS\nA: .BLKB 1\nB: .BLKW 1\n.ALIGN LONG\nC: .BLKQ 2\nD:\n.PSECT\n.BYTE A,B,C,D\n",
            b"\0\x01\x04\x14",
        ),
        (
            ".PSECT X,ABS\n.=.+7\nA: .EVEN\nB: .ODD\nC: .BLKB\nD:\n.PSECT\n.BYTE A,B,C,D\n",
            b"\x07\x08\x09\x0A",
        ),
        (
            ".PSECT X,abs,LONG,NOWRT\n.BLKL\n.PSECT\n.BYTE 1\n.PSECT X\nA:\n.PSECT\n.BYTE A\n",
            b"\x01\x04",
        ),
        (
            ".PSECT X,ABS\n.BLKW\n.SAVE_PSECT\n.PSECT\n.BYTE 5\n.RESTORE_PSECT\nA: .BLKB\n.PSECT\n.BYTE A\n",
            b"\x05\x02",
        ),
        (
            ".PSECT X,ABS\n.BLKB 3\nN=.\n.=8\nM=.\n.PSECT\n.BYTE N,M\n",
            b"\x03\x08",
        ),
        (
            ".PSECT X,ABS\n.BLKB\n.ALIGN LONG,0\nA:\n.PSECT\n.BYTE A\n",
            b"\x04",
        ),
        (
            ".PSECT X,ABS\n.BLKL\nF: .BLKL\n.PSECT\nMOVL F(R1),R0\n",
            b"\xD0\xA1\x04\x50",
        ),
        (
            ".PSECT X,REL\nA: .BYTE 1\n.PSECT X,REL\nB:\n.PSECT\n.BYTE B-A\n",
            b"\x01",
        ),
        (
            ".PSECT X,ABS,OVR\n.BLKB 3\n.PSECT X,CON\nA:\n.PSECT\n.BYTE A\n",
            b"\x03",
        ),
    ];
    give(&rt, alloc, &rows)
}

/// `. = e` goes back too in an absolute section. The labels are the places where they stand.
#[test]
fn goes_back_in_absolute_sections(rt: HostRuntime) -> Result<(), Fail> {
    let alloc = rt.alloc();
    let rows: [(&str, &[u8]); 9] = [
        (
            ".PSECT X,ABS\n.=4\nA: .BLKL\nB: .BLKL\n.=0\nC: .BLKB\nD:\n.PSECT\n.BYTE A,B,C,D\n",
            b"\x04\x08\0\x01",
        ),
        (
            ".PSECT X,ABS\n.BLKB 6\n.=2\nA: .BLKW\n.=9\nB: .BLKB\nC:\n.PSECT\n.BYTE A,B,C\n",
            b"\x02\x09\x0A",
        ),
        (
            ".PSECT X,ABS\n.BLKB 8\nA:\n.=.-3\nB: .EVEN\nC: .ODD\nD:\n.PSECT\n.BYTE A,B,C,D\n",
            b"\x08\x05\x06\x07",
        ),
        (
            ".PSECT X,ABS\nA: .BLKQ\n.=A\nB: .BLKB\n.ALIGN LONG\nC:\n.PSECT\n.BYTE A,B,C\n",
            b"\0\0\x04",
        ),
        (
            ".PSECT X,ABS\n.BLKB 7\n.=7\nA:\n.=6\nB:\n.PSECT\n.BYTE A,B\n",
            b"\x07\x06",
        ),
        (
            ".PSECT X,ABS\n.BLKB 7\n.=3\n.PSECT\n.BYTE 1\n.PSECT X\nA:\n.PSECT\n.BYTE A\n",
            b"\x01\x03",
        ),
        (
            ".PSECT X,ABS\n.BLKB 7\n.PSECT Y,ABS\nA: .BLKB 2\n.=1\nB:\n.PSECT X\nC:\n.PSECT\n.BYTE A,B,C\n",
            b"\0\x01\x07",
        ),
        (
            ".PSECT X,ABS\n.=1048576\nA:\n.=0\nB: .BLKB 1048576\nC:\n.PSECT\n.LONG A,B,C\n",
            b"\0\0\x10\0\0\0\0\0\0\0\x10\0",
        ),
        // What is gone back is no part of the module's length: 20 times the most that a section counts.
        (
            ".PSECT X,ABS\n.REPT 20\n.=1048576\n.=0\n.ENDR\nA:\n.PSECT\n.BYTE A\n",
            b"\0",
        ),
    ];
    give(&rt, alloc, &rows)
}

/// An absolute section stands in its module without bytes, and is aligned to nothing.
#[test]
fn lays_no_absolute_section(rt: HostRuntime) -> Result<(), Fail> {
    let source = b".PSECT X,ABS,PAGE\n.BLKB 600\nA::\n.PSECT Y\n.BYTE 1\n";
    let module = assemble(rt.alloc(), Dialect::Vms, source)?;
    let lengths = [0, 0, 1];
    assert!(rt; module.sections.as_slice().len() == lengths.len());
    for (section, length) in module.sections.as_slice().iter().zip(lengths) {
        assert!(rt; section.bytes.as_slice().len() == length);
        assert!(rt; section.align == 1);
    }
    for global in module.globals.as_slice() {
        assert!(rt; global.value == Value::Absolute(600));
    }
    Ok(())
}

/// The labels of an overlaid section are places of it, and so is `.`; it has no bytes, and its module says how far it reaches.
#[test]
fn counts_in_overlaid_sections(rt: HostRuntime) -> Result<(), Fail> {
    let alloc = rt.alloc();
    // The source, where the label A stands, how far the section reaches, and the bytes that it is aligned to.
    let rows: [(&str, i64, u32, u16); 9] = [
        (".PSECT X,OVR\n.BLKB 5\nA:: .BLKL 2\n", 5, 13, 1),
        (".PSECT X,OVR\n.BLKL\n.BLKB 1\n.ALIGN QUAD\nA::\n", 8, 8, 8),
        (".PSECT X,ovr,LONG,NOWRT\n.BLKB\n.EVEN\nA:: .ODD\n", 2, 3, 4),
        (".PSECT X,OVR\n. = . + 4\nA:: .BLKW 3\n", 4, 10, 1),
        (".PSECT X,OVR\nB: .BLKL 3\n. = B + 20\nA::\n", 20, 20, 1),
        (
            ".PSECT X,OVR\n.BLKW\n.PSECT\n.BYTE 1\n.PSECT X\nA:: .BLKB\n",
            2,
            3,
            1,
        ),
        (
            ".PSECT X,OVR,MIX\nA::\n.PSECT X,NOMIX,OVR\n.BLKB 7\n",
            0,
            7,
            1,
        ),
        (
            ".PSECT X,OVR,REL\nA::\n.PSECT\n.PSECT X,REL\n.BLKB 2\n",
            0,
            2,
            1,
        ),
        (
            ".PSECT X,OVR\n.BLKB 9\n.SAVE_PSECT\n.PSECT\n.RESTORE_PSECT\nA::\n",
            9,
            9,
            1,
        ),
    ];
    for (source, place, storage, align) in rows {
        let module = assemble(alloc, Dialect::Vms, source.as_bytes())?;
        let [unnamed, section] = module.sections.as_slice() else {
            panic!(rt; "not two sections");
        };
        assert!(rt; section.bytes.as_slice().is_empty(), "{source}");
        assert!(rt; section.storage == storage, "{source}");
        assert!(rt; section.align == align, "{source}");
        assert!(rt; unnamed.storage == 0);
        for global in module.globals.as_slice() {
            let wanted = Value::Section {
                section: 1,
                offset: place,
            };
            assert!(rt; global.value == wanted, "{source}");
        }
        assert!(rt; module.globals.as_slice().len() == 1);
    }
    Ok(())
}

/// What lies in an overlaid section is named from others, a distance in it is a number, and a section that `CON` is said of
/// has bytes.
#[test]
fn names_places_of_overlaid_sections(rt: HostRuntime) -> Result<(), Fail> {
    let alloc = rt.alloc();
    let source =
        b".PSECT X,OVR\n.BLKB 3\nA: .BLKB 4\nB:\n.PSECT Y,CON\n.BYTE B-A\n.LONG B\n.PSECT Y,CON\n.BYTE 1\n";
    let module = assemble(alloc, Dialect::Vms, source)?;
    let [_, _, section] = module.sections.as_slice() else {
        panic!(rt; "not three sections");
    };
    assert!(rt; section.bytes.as_slice() == b"\x04\0\0\0\0\x01".as_slice());
    assert!(rt; section.storage == 0);
    let [reloc] = module.relocs.as_slice() else {
        panic!(rt; "not one field");
    };
    let wanted = Value::Section {
        section: 1,
        offset: 7,
    };
    assert!(rt; reloc.target == wanted);
    Ok(())
}

#[test]
fn finds_faults_in_overlaid_sections(rt: HostRuntime) {
    let alloc = rt.alloc();
    let rows = [
        (".PSECT X,OVR\n.LONG 1\n", (2, 4)),
        (".PSECT X,OVR\nNOP\n", (2, 4)),
        (".PSECT X,OVR\n.BYTE 0[0]\n", (2, 4)),
        (".PSECT X,OVR\n.LONG 0[20000000]\n", (2, 4)),
        (".PSECT X,OVR\n.ASCII //\n", (2, 4)),
        (".PSECT X,OVR\n.ADDRESS A\n", (2, 4)),
        (".PSECT X,OVR\n.ENTRY A,0\n", (2, 4)),
        (".PSECT X,OVR\n.ALIGN BYTE,1\n", (2, 4)),
        (".PSECT X,OVR,CON\n", (1, 4)),
        (".PSECT X,CON,OVR\n", (1, 4)),
        (".PSECT X\n.PSECT X,OVR\n", (2, 4)),
        (".PSECT X,OVR\n.PSECT X,CON\n", (2, 4)),
        (".PSECT X,OVR\n.PSECT X,ABS\n", (2, 4)),
        (".PSECT X,OVR\n.BLKB 2\n.=1\n", (3, 4)),
        (".PSECT X,OVR\nA: .BLKB 2\n.=A+1\n", (3, 7)),
        (".PSECT X,OVR\nA: .BLKB 2\n.PSECT\n.=A\n", (4, 4)),
        (".PSECT X,OVR\n.BLKB 1048577\n", (2, 11)),
    ];
    are_faulty(&rt, alloc, Dialect::Vms, &rows);
    assert!(rt; fault_of(alloc, Dialect::Vax, ".PSECT X,OVR\n") == (1, 4));
    assert!(rt; fault_of(alloc, Dialect::Vax, ".PSECT X,MIX\n") == (1, 4));
}

#[test]
fn finds_faults_in_absolute_sections(rt: HostRuntime) {
    let alloc = rt.alloc();
    let rows = [
        (".PSECT X,ABS\nNOP\n", (2, 4)),
        (".PSECT X,ABS\n.BYTE 0\n", (2, 4)),
        (".PSECT X,ABS\n.BYTE 0[0]\n", (2, 4)),
        (".PSECT X,ABS\n.LONG 0[20000000]\n", (2, 4)),
        (".PSECT X,ABS\n.ASCII //\n", (2, 4)),
        (".PSECT X,ABS\n.ADDRESS A\n", (2, 4)),
        (".PSECT X,ABS\n.REF4 R0\n", (2, 4)),
        (".PSECT X,ABS\n.ENTRY A,0\n", (2, 4)),
        (".PSECT X,ABS\n.ALIGN BYTE,1\n", (2, 4)),
        (".PSECT X,ABS,REL\n", (1, 4)),
        (".PSECT X,REL,ABS\n", (1, 4)),
        (".PSECT X\n.PSECT X,ABS\n", (2, 4)),
        (".PSECT X,ABS\n.PSECT X,REL\n", (2, 4)),
        (".PSECT X,ABS\n.=-1\n", (2, 7)),
        (".PSECT X,ABS\n.BLKB 2\n.=.-3\n", (3, 7)),
        (".PSECT X,ABS\n.=1048577\n", (2, 11)),
        (".PSECT X,ABS\n.=1048576\n.=0\n.=1048577\n", (4, 11)),
        (".PSECT X,ABS\n.=1048576\n.=1\n.BLKB 1048576\n", (4, 11)),
        (
            ".PSECT X,ABS\n.BLKB 2\n.PSECT Y\nA: .BLKB 2\n.=A+1\n",
            (5, 7),
        ),
        (
            ".PSECT X,ABS\n.BLKB 2\n.PSECT Y,OVR\nA: .BLKB 2\n.=A+1\n",
            (5, 7),
        ),
        (".PSECT X,ABS\n.BLKB 2\n.=0\nNOP\n", (4, 4)),
        (".PSECT X,ABS\n.BLKB 1048577\n", (2, 11)),
        ("A: NOP\n.PSECT X,ABS\n.=A\n", (3, 4)),
        (".PSECT X,ABS\nA:\n.PSECT\n.=A\n", (4, 4)),
        (".PSECT X,ABS,OVR,CON\n", (1, 4)),
    ];
    are_faulty(&rt, alloc, Dialect::Vms, &rows);
    assert!(rt; fault_of(alloc, Dialect::Vax, ".PSECT X,ABS\n") == (1, 4));
}
