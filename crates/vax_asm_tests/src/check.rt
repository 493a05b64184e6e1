//! All faults of sources.
use std::test::Fail;
use vax_asm_check::*;
use vax_asm_second::Fault;
use vax_dialect::Dialect;
use vax_macro::FaultKind;

/// Whether these are the lines of faults, with their kinds.
fn are(faults: &[Fault], wanted: &[(u32, FaultKind)]) -> bool {
    if faults.len() != wanted.len() {
        return false;
    }
    for (fault, (line, kind)) in faults.iter().zip(wanted) {
        if fault.origin.line != *line || fault.kind != *kind {
            return false;
        }
    }
    true
}

/// A source and its faults.
#[derive(Clone, Copy)]
struct Row<'a> {
    source: &'a [u8],
    wanted: &'a [(u32, FaultKind)],
}

#[test]
fn all_faults_are_listed(rt: HostRuntime) -> Result<(), Fail> {
    let alloc = rt.alloc();
    let rows = [
        Row {
            source: b"S: HALT\n .END S\n",
            wanted: &[],
        },
        // a label of a line with a fault isn't defined; of one line the lowest kind counts
        Row {
            source: b"A: MOVL R1 R2\nA: MOVL R1,R2\nA: MOVX R1\n HALT\n .FOO\n",
            wanted: &[
                (1, FaultKind::Count),
                (3, FaultKind::UnknownOperator),
                (5, FaultKind::UnknownOperator),
            ],
        },
        // the lines' go before those that the whole source decides
        Row {
            source: b" BRB 1$\n .BYTE 256\nX = Y + 300\n .BYTE X\nY = 0\n",
            wanted: &[
                (2, FaultKind::Range),
                (1, FaultKind::Undefined),
                (4, FaultKind::Range),
            ],
        },
        // circles, told where they close
        Row {
            source: b"A = B\nB = A\nC = C\nD = B\n",
            wanted: &[(2, FaultKind::Form), (3, FaultKind::Form)],
        },
        // in a repeat each assignment names the one before
        Row {
            source: b" .REPT 3\nX = X+1\n .ENDR\nA = B\nB = C\nC = A\nD = A\n",
            wanted: &[(1, FaultKind::Form), (6, FaultKind::Form)],
        },
        // an assignment with another fault may close a circle too
        Row {
            source: b"X = Y\nX = 1 NOP\nY = X Y\nY = X\nY = X\n",
            wanted: &[
                (2, FaultKind::Form),
                (3, FaultKind::Form),
                (3, FaultKind::Form),
                (4, FaultKind::Form),
            ],
        },
        // it leads to no circle of a later one
        Row {
            source: b"D = C+Z\nA = B\nB = A C\nB = Z\nC = A\nZ = 0\n",
            wanted: &[(3, FaultKind::Form), (3, FaultKind::Form)],
        },
        // after each fault stands what stood before
        Row {
            source: b"D = 0\n .REPT 2\nD = D+1\nD = D+1 NOP\n .ENDR\n .BYTE 254+D\nA: NOP\n .BLKB 200\n BRB A\nB: BRB A\nB: BRB B\n",
            wanted: &[
                (2, FaultKind::Form),
                (2, FaultKind::Form),
                (6, FaultKind::Range),
                (9, FaultKind::Range),
                (10, FaultKind::Range),
            ],
        },
        // within an expansion, and behind it
        Row {
            source: b" .MACRO M X\n MOVL X\n CLRL X\n .ENDM\n M R1\n M R2\n HALT R1\n",
            wanted: &[
                (5, FaultKind::Count),
                (6, FaultKind::Count),
                (7, FaultKind::Count),
            ],
        },
        // what a statement's text alone decides, without a label, behind one and behind a faulty one
        Row {
            source: b"A: FROB\nA: NOP\nA: MOVL R0\nA: NOP\n #\n FROB 18446744073709551616\n FROB \x01\n .TITLE A \x01\n",
            wanted: &[
                (1, FaultKind::UnknownOperator),
                (3, FaultKind::Count),
                (4, FaultKind::Duplicate),
                (5, FaultKind::Form),
                (6, FaultKind::UnknownOperator),
                (7, FaultKind::Token),
            ],
        },
        // a begin without its end
        Row {
            source: b" HALT R1\n .IF DF X\n HALT\n",
            wanted: &[(1, FaultKind::Count), (2, FaultKind::Nesting)],
        },
    ];
    for row in &rows {
        let found = faults(alloc, Dialect::Vax, row.source)?;
        assert!(rt; are(&found, row.wanted));
    }
    Ok(())
}

#[test]
fn messages_of_a_source_are_given(rt: HostRuntime) -> Result<(), Fail> {
    let alloc = rt.alloc();
    let source =
        b"A: .PRINT ; one\nB:: .warn\n.WARN: NOP\n.PRINT = 5\nA: .WARN ; no\n NOP R1\n .PRINT ; two\n";
    let given = messages(alloc, Dialect::Vms, source)?;
    let wanted = [
        (1, Tone::Note, b"A: .PRINT ; one".as_slice()),
        (2, Tone::Warning, b"B:: .warn".as_slice()),
        (7, Tone::Note, b" .PRINT ; two".as_slice()),
    ];
    assert!(rt; given.len() == wanted.len());
    for (message, (line, tone, text)) in given.iter().zip(&wanted) {
        assert!(rt; message.origin.line == *line && message.tone == *tone);
        assert!(rt; message.text.as_slice() == *text);
    }
    assert!(rt; messages(alloc, Dialect::Vax, source)?.is_empty());
    Ok(())
}
