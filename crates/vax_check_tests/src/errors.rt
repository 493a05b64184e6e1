//! The errors of sources as text.
use std::test::Fail;
use vax_asm_errors::{Source, Title, push_errors};
use vax_dialect::Dialect;

/// A source and what is told of it.
#[derive(Clone, Copy)]
pub(crate) struct Row<'a> {
    pub(crate) source: &'a str,
    pub(crate) told: &'a str,
}

pub(crate) fn tells_in(rt: &HostRuntime, dialect: Dialect, row: Row<'_>) -> Result<bool, Fail> {
    let mut out = Vec::new(rt.alloc());
    let title = Title {
        preludes: &[],
        name: b"a.mar",
    };
    let source = Source {
        dialect,
        title,
        text: row.source.as_bytes(),
    };
    push_errors(rt.alloc(), &mut out, source)?;
    Ok(out.as_slice() == row.told.as_bytes())
}

pub(crate) fn tells(rt: &HostRuntime, row: Row<'_>) -> Result<bool, Fail> {
    tells_in(rt, Dialect::Vax, row)
}

#[test]
fn errors_have_columns_and_causes(rt: HostRuntime) -> Result<(), Fail> {
    let rows = [
        Row {
            source: "S: HALT\n .END S\n",
            told: "",
        },
        Row {
            source: "S: MOVL R1 R2\n",
            told: "a.mar:1:12: error: 3: too few or too many operands, or a comma is missing: a comma is missing before `R2`\nS: MOVL R1 R2\n           ^\n",
        },
        Row {
            source: "\tMOVX R1\n",
            told: "a.mar:1:2: error: 2: no instruction, directive or macro has this name, or `.` is assigned to: `MOVX`\n\tMOVX R1\n\t^\n",
        },
        Row {
            source: " .BYTE 1,256\n",
            told: "a.mar:1:10: error: 7: a number or a distance is out of range: a byte holds -128 to 255, not 256\n .BYTE 1,256\n         ^\n",
        },
        Row {
            source: " BRB 20$\n",
            told: "a.mar:1:6: error: 5: a name has no value here, or its block has no such local label: `20$` is nowhere in this file\n BRB 20$\n     ^\n",
        },
        Row {
            source: " .MACRO M X\n MOVX X\n .ENDM\n  M R1\n",
            told: "a.mar:4:3: error: 2: no instruction, directive or macro has this name, or `.` is assigned to: `MOVX`\n  M R1\n  ^\na.mar:4: in the expansion of macro M, its line 1:  MOVX R1\n",
        },
    ];
    for row in rows {
        assert!(rt; tells(&rt, row)?);
    }
    Ok(())
}

#[test]
fn errors_stand_by_their_lines(rt: HostRuntime) -> Result<(), Fail> {
    // those of the lines first, and then a condition without its end before a label that is nowhere
    let row = Row {
        source: " .BYTE 256\n .IF EQ 0\n BRB 9$\n MOVX\n",
        told: "a.mar:1:8: error: 7: a number or a distance is out of range: a byte holds -128 to 255, not 256\n .BYTE 256\n       ^\na.mar:4:2: error: 2: no instruction, directive or macro has this name, or `.` is assigned to: `MOVX`\n MOVX\n ^\na.mar:2:2: error: 8: a begin has no end, or an end no begin: no .ENDC ends it\n .IF EQ 0\n ^\na.mar:3:6: error: 5: a name has no value here, or its block has no such local label: `9$` is nowhere in this file\n BRB 9$\n     ^\n",
    };
    assert!(rt; tells(&rt, row)?);
    Ok(())
}

#[test]
fn values_and_distances_are_told(rt: HostRuntime) -> Result<(), Fail> {
    let rows = [
        Row {
            source: "S: BRB D\n .BLKB 200\nD: HALT\n",
            told: "a.mar:1:8: error: 7: a number or a distance is out of range: `D` is too far, the branch would have to reach 200 bytes from its end, and reaches -128 to 127\nS: BRB D\n       ^\n",
        },
        Row {
            source: "D: .BLKB 200\n SOBGTR R1,D\n",
            told: "a.mar:2:12: error: 7: a number or a distance is out of range: `D` is too far, the branch would have to reach -203 bytes from its end, and reaches -128 to 127\n SOBGTR R1,D\n           ^\n",
        },
        Row {
            source: "X = 300\n .BYTE X\n",
            told: "a.mar:2:8: error: 7: a number or a distance is out of range: a byte holds -128 to 255, not 300\n .BYTE X\n       ^\n",
        },
    ];
    for row in rows {
        assert!(rt; tells(&rt, row)?);
    }
    Ok(())
}

#[test]
fn lines_of_macros_and_repeats_are_told(rt: HostRuntime) -> Result<(), Fail> {
    let rows = [
        Row {
            source: " .MACRO M X\n CLRL R0\nL'X: MOVX X ; it\n .ENDM\n M R1\n",
            told: "a.mar:5:2: error: 2: no instruction, directive or macro has this name, or `.` is assigned to: `MOVX`\n M R1\n ^\na.mar:5: in the expansion of macro M, its line 2: LR1: MOVX R1 ; it\n",
        },
        Row {
            source: " .REPT 1\n CLRL R0\n MOVX\n .ENDR\n",
            told: "a.mar:1:2: error: 2: no instruction, directive or macro has this name, or `.` is assigned to: `MOVX`\n .REPT 1\n ^\na.mar:1: in the expansion of .REPT, its line 2:  MOVX\n",
        },
    ];
    for row in rows {
        assert!(rt; tells(&rt, row)?);
    }
    Ok(())
}

/// So many times a text, and behind them others.
fn times(rt: &HostRuntime, count: u32, text: &[u8]) -> Result<Vec<u8>, Fail> {
    let mut all = Vec::new(rt.alloc());
    for _ in 0..count {
        all.extend_from_slice(text)?;
    }
    Ok(all)
}

/// Whether the errors of a source end so.
fn ends_with(rt: &HostRuntime, text: &[u8], end: &[u8]) -> Result<bool, Fail> {
    let mut out = Vec::new(rt.alloc());
    let title = Title {
        preludes: &[],
        name: b"a.mar",
    };
    let source = Source {
        dialect: Dialect::Vax,
        title,
        text,
    };
    push_errors(rt.alloc(), &mut out, source)?;
    Ok(out.ends_with(end))
}

#[test]
fn more_than_a_hundred_are_counted(rt: HostRuntime) -> Result<(), Fail> {
    // of a hundred nothing is said
    let hundred = times(&rt, 100, b" MOVX\n")?;
    assert!(rt; ends_with(&rt, &hundred, b"`MOVX`\n MOVX\n ^\n")?);
    let more = times(&rt, 120, b" MOVX\n")?;
    assert!(rt;
        ends_with(
            &rt,
            &more,
            b" MOVX\n ^\na.mar: error: 20 more in this file\n"
        )?
    );
    let many = times(&rt, 400, b" MOVX\n")?;
    assert!(rt; ends_with(&rt, &many, b" ^\na.mar: error: 300 more in this file\n")?);
    // also those far into a long file
    let mut long = times(&rt, 3300, b" NOP\n")?;
    long.extend_from_slice(&many)?;
    assert!(rt; ends_with(&rt, &long, b" ^\na.mar: error: 300 more in this file\n")?);
    // those that the whole source decides are counted all
    let whole = times(&rt, 350, b" BRB 9$\n")?;
    assert!(rt; ends_with(&rt, &whole, b" ^\na.mar: error: 250 more in this file\n")?);
    Ok(())
}

#[test]
fn sources_of_the_larger_dialect_have_its_errors(rt: HostRuntime) -> Result<(), Fail> {
    let rows = [
        Row {
            source: " .NCHR N,<AB CD>\n .BYTE N\n",
            told: "",
        },
        Row {
            source: " .ODD\n .BYTE 256\n",
            told: "a.mar:2:8: error: 7: a number or a distance is out of range: a byte holds -128 to 255, not 256\n .BYTE 256\n       ^\n",
        },
    ];
    for row in rows {
        assert!(rt; tells_in(&rt, Dialect::Vms, row)?);
        assert!(rt; !tells(&rt, row)?);
    }
    Ok(())
}

#[test]
fn a_line_with_a_fault_defines_nothing(rt: HostRuntime) -> Result<(), Fail> {
    let row = Row {
        source: "A: FROB\nA: NOP\nA: NOP\n",
        told: "a.mar:1:4: error: 2: no instruction, directive or macro has this name, or `.` is assigned to: `FROB`\nA: FROB\n   ^\na.mar:3:1: error: 6: a name is defined twice: `A` stands on line 2 already\nA: NOP\n^\n",
    };
    assert!(rt; tells(&rt, row)?);
    Ok(())
}

#[test]
fn a_source_says_that_it_is_wrong(rt: HostRuntime) -> Result<(), Fail> {
    let rows = [
        Row {
            source: " .ERROR 1 ;  X is too large \n",
            told: "a.mar:1:2: error: 12: X is too large\n .ERROR 1 ;  X is too large \n ^\n",
        },
        Row {
            source: "A: .error\n",
            told: "a.mar:1:4: error: 12: the source says that it is wrong here\nA: .error\n   ^\n",
        },
        Row {
            source: " .IF EQ 1\n .ERROR ; no\n .ENDC\n",
            told: "",
        },
        Row {
            source: " .MACRO M X\n .IF GT X-3\n .ERROR ; X is above 3\n .ENDC\n .ENDM\n  M 3\n  M 4\n",
            told: "a.mar:7:3: error: 12: 4 is above 3\n  M 4\n  ^\na.mar:7: in the expansion of macro M, its line 2:  .ERROR ; 4 is above 3\n",
        },
        // behind `.ASCID` stands a text, whatever is in it
        Row {
            source: " .ASCID 'a;b' X\n",
            told: "a.mar:1:15: error: 1: a byte belongs to no token, or the line is too long: the text that begins with `X` has no closing `X`\n .ASCID 'a;b' X\n              ^\n",
        },
    ];
    for row in rows {
        assert!(rt; tells_in(&rt, Dialect::Vms, row)?);
    }
    let row = Row {
        source: " .ERROR ; no\n",
        told: "a.mar:1:2: error: 2: no instruction, directive or macro has this name, or `.` is assigned to: `.ERROR`\n .ERROR ; no\n ^\n",
    };
    assert!(rt; tells(&rt, row)?);
    Ok(())
}

#[test]
fn tabs_of_expansions_are_blanks(rt: HostRuntime) -> Result<(), Fail> {
    let rows = [
        // a tab in the line of an expansion is a blank
        Row {
            source: "\t.MACRO M X\n\tMOVX\tX\n\t.ENDM\n\tM R1\n",
            told: "a.mar:4:2: error: 2: no instruction, directive or macro has this name, or `.` is assigned to: `MOVX`\n\tM R1\n\t^\na.mar:4: in the expansion of macro M, its line 1:  MOVX R1\n",
        },
    ];
    for row in rows {
        assert!(rt; tells_in(&rt, Dialect::Vms, row)?);
    }
    Ok(())
}

#[test]
fn places_texts_and_refused_lines_are_told(rt: HostRuntime) -> Result<(), Fail> {
    let rows = [
        Row {
            source: " .PSECT D\n .BLKB 4\n. = .-3\n",
            told: "a.mar:3:1: error: 7: a number or a distance is out of range: `.` goes forward alone here, not by -3\n. = .-3\n^\n",
        },
        // nine characters, and a number of 65 bits
        Row {
            source: " .QUAD ^A/ABCDEFGH/\n .LONG ^A/ABCDEFGHI/\n",
            told: "a.mar:2:10: error: 4: an operand or an expression has no form that may stand here: `^A` takes 1 to 8 characters\n .LONG ^A/ABCDEFGHI/\n         ^\n",
        },
        Row {
            source: " .OCTA 18446744073709551616\n",
            told: "a.mar:1:8: error: 7: a number or a distance is out of range: a number has at most 64 bits\n .OCTA 18446744073709551616\n       ^\n",
        },
        // a label on a line that is refused
        Row {
            source: "L: .LONG ^Q\nW: .LONG W-L\n",
            told: "a.mar:1:10: error: 1: a byte belongs to no token, or the line is too long: nothing begins with `^` here\nL: .LONG ^Q\n         ^\na.mar:2:12: error: 4: an operand or an expression has no form that may stand here: line 1, on which `L` stands, has a fault\nW: .LONG W-L\n           ^\n",
        },
        // a fault behind the first line of a statement
        Row {
            source: " .LONG 1,-\n ^Q5\n",
            told: "a.mar:1:2: error: 1: a byte belongs to no token, or the line is too long: nothing begins with `^` here\n .LONG 1,-\n ^\n",
        },
    ];
    for row in rows {
        assert!(rt; tells_in(&rt, Dialect::Vms, row)?);
    }
    Ok(())
}
