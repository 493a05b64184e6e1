//! The remarks on sources as text.
use std::test::Fail;
use vax_asm_errors::{Source, Title, Wanted, push_remarks};
use vax_dialect::Dialect;

/// A source, what is asked of it, and what is told.
#[derive(Clone, Copy)]
struct Row<'a> {
    source: &'a str,
    bare: bool,
    unused: bool,
    name: &'a str,
    told: &'a str,
}

fn tells_in(rt: &HostRuntime, dialect: Dialect, row: Row<'_>) -> Result<bool, Fail> {
    let mut out = Vec::new(rt.alloc());
    let title = Title {
        preludes: &[],
        name: b"a.mar",
    };
    let source = Source {
        dialect,
        title,
        text: row.source.as_bytes(),
    };
    let wanted = Wanted {
        bare: row.bare,
        unused: row.unused,
        name: row.name.as_bytes(),
    };
    push_remarks(rt.alloc(), &mut out, source, wanted)?;
    Ok(out.as_slice() == row.told.as_bytes())
}

fn tells(rt: &HostRuntime, row: Row<'_>) -> Result<bool, Fail> {
    tells_in(rt, Dialect::Vax, row)
}

#[test]
fn names_that_look_like_registers_are_told(rt: HostRuntime) -> Result<(), Fail> {
    let rows = [
        // R15 is the last, and a number may be written with letters
        Row {
            source: " CLRL R15\n MOVL R16,r1O\n CLRL R00\n CLRL R1\n",
            bare: false,
            unused: false,
            name: "",
            told: "a.mar:2:7: warning: `R16` is a name and no register\n MOVL R16,r1O\n      ^\na.mar:2:11: warning: `r1O` is a name and no register\n MOVL R16,r1O\n          ^\na.mar:3:7: warning: `R00` is a name and no register\n CLRL R00\n      ^\n",
        },
        Row {
            source: " CLRL R150\n",
            bare: false,
            unused: false,
            name: "",
            told: "a.mar:1:7: warning: `R150` is a name and no register\n CLRL R150\n      ^\n",
        },
        // no number, one that is too long, another letter, and a comment
        Row {
            source: " MOVL RO,R2D2\n MOVL R10X,R1000\n CLRL S16 ; R16\n",
            bare: false,
            unused: false,
            name: "",
            told: "",
        },
    ];
    for row in rows {
        assert!(rt; tells(&rt, row)?);
    }
    Ok(())
}

#[test]
fn labels_that_nothing_uses_are_told(rt: HostRuntime) -> Result<(), Fail> {
    let rows = [
        Row {
            source: "A: HALT\nB: BRB b\n",
            bare: false,
            unused: true,
            name: "",
            told: "a.mar:1:1: warning: nothing uses the label `A`\nA: HALT\n^\n",
        },
        // one that other files see, a local one, an assignment, and one that isn't asked for
        Row {
            source: "A:: HALT\n1$: HALT\nB = 1\n",
            bare: false,
            unused: true,
            name: "",
            told: "",
        },
        Row {
            source: "A: HALT\n",
            bare: false,
            unused: false,
            name: "",
            told: "",
        },
    ];
    for row in rows {
        assert!(rt; tells(&rt, row)?);
    }
    Ok(())
}

#[test]
fn labels_that_expansions_may_use_are_not_told(rt: HostRuntime) -> Result<(), Fail> {
    let rows: [(&str, &str); 13] = [
        // the name is joined of a front and an end that stand
        ("F_A: HALT\n .IRP N,<A>\n BRB F_'N\n .ENDR\n", ""),
        ("f_a: HALT\n .irp n,<A>\n BRB F_'N\n .ENDR\n", ""),
        // a digit, which is no name
        ("F_1: HALT\n .IRP N,<1>\n BRB F_'N\n .ENDR\n", ""),
        // of arguments alone
        ("AB: HALT\n .MACRO M X,Y\n BRB X'Y\n .ENDM\n M A,B\n", ""),
        // within a name the line is continued
        ("F_A: HALT\n BRB F_- ; on\nA\n", ""),
        // no such end, and no such front
        (
            "F_B: HALT\n .IRP N,<A>\n BRB F_'N\n .ENDR\n",
            "a.mar:1:1: warning: nothing uses the label `F_B`\nF_B: HALT\n^\n",
        ),
        (
            "G_A: HALT\n .IRP N,<A>\n BRB F_'N\n .ENDR\n",
            "a.mar:1:1: warning: nothing uses the label `G_A`\nG_A: HALT\n^\n",
        ),
        // nothing joins: an apostrophe in a comment and in a text, and a difference
        (
            "F_A: HALT ; F_'A\nF_: .ASCII 'A'\n BRB F_\n BRB A\n",
            "a.mar:1:1: warning: nothing uses the label `F_A`\nF_A: HALT ; F_'A\n^\n",
        ),
        (
            "F_A: HALT\nF_: HALT\nA: .LONG F_-A\n",
            "a.mar:1:1: warning: nothing uses the label `F_A`\nF_A: HALT\n^\n",
        ),
        // characters of a text
        ("A: HALT\n .IRPC C,<AB>\n BRB C\n .ENDR\n", ""),
        (
            "AB: HALT\n .MACRO M X\n BRB %EXTRACT(0,2,<X>)\n .ENDM\n M ABC\n",
            "",
        ),
        // an argument before a `^`, and a letter
        ("AB: HALT\n .MACRO M P\n TSTL P^AB\n .ENDM\n M L\n", ""),
        (
            "AB: HALT\n TSTL l^B\nB: HALT\n",
            "a.mar:1:1: warning: nothing uses the label `AB`\nAB: HALT\n^\n",
        ),
    ];
    for (source, told) in rows {
        let row = Row {
            source,
            bare: false,
            unused: true,
            name: "",
            told,
        };
        assert!(rt; tells_in(&rt, Dialect::Vms, row)?);
    }
    Ok(())
}

#[test]
fn masks_and_first_places_are_told(rt: HostRuntime) -> Result<(), Fail> {
    let mask =
        "a.mar:1:2: warning: a program for the bare machine begins at an instruction, and .ENTRY begins with a mask\n .entry S,0\n ^\n";
    let rows = [
        // the program begins at the procedure
        Row {
            source: " .entry S,0\n .end s\n",
            bare: true,
            unused: false,
            name: "",
            told: mask,
        },
        Row {
            source: " .entry S,0\n .end s\n",
            bare: false,
            unused: false,
            name: "",
            told: "",
        },
        // it begins elsewhere
        Row {
            source: " .ENTRY S,0\nT: HALT\n .END T\n",
            bare: true,
            unused: false,
            name: "",
            told: "",
        },
        // the first line alone, and there the first place
        Row {
            source: " HALT\n ADDL2 x,X\n CLRL X\n",
            bare: false,
            unused: false,
            name: "X",
            told: "a.mar:2:8: note: `X` stands here\n ADDL2 x,X\n       ^\n",
        },
        // on one line the note stands first, then registers, masks and labels
        Row {
            source: "R1l: .ENTRY R20,X\n .END R20\n",
            bare: true,
            unused: true,
            name: "X",
            told: "a.mar:1:17: note: `X` stands here\nR1l: .ENTRY R20,X\n                ^\na.mar:1:1: warning: `R1l` is a name and no register\nR1l: .ENTRY R20,X\n^\na.mar:1:13: warning: `R20` is a name and no register\nR1l: .ENTRY R20,X\n            ^\na.mar:1:6: warning: a program for the bare machine begins at an instruction, and .ENTRY begins with a mask\nR1l: .ENTRY R20,X\n     ^\na.mar:1:1: warning: nothing uses the label `R1l`\nR1l: .ENTRY R20,X\n^\na.mar:2:7: warning: `R20` is a name and no register\n .END R20\n      ^\n",
        },
    ];
    for row in rows {
        assert!(rt; tells(&rt, row)?);
    }
    Ok(())
}

#[test]
fn a_hundred_remarks_are_told(rt: HostRuntime) -> Result<(), Fail> {
    let mut text = Vec::new(rt.alloc());
    for _ in 0..40u32 {
        text.extend_from_slice(b" ADDL3 R16,R17,R18\n")?;
    }
    let title = Title {
        preludes: &[],
        name: b"a.mar",
    };
    let source = Source {
        dialect: Dialect::Vax,
        title,
        text: &text,
    };
    let wanted = Wanted {
        bare: false,
        unused: false,
        name: b"",
    };
    let mut out = Vec::new(rt.alloc());
    push_remarks(rt.alloc(), &mut out, source, wanted)?;
    // three on each of 33 lines, and one on the next
    assert!(rt;
        out.ends_with(
            b"a.mar:34:8: warning: `R16` is a name and no register\n ADDL3 R16,R17,R18\n       ^\n"
        )
    );
    Ok(())
}

#[test]
fn messages_of_a_source_are_told(rt: HostRuntime) -> Result<(), Fail> {
    let rows = [
        // before the other remarks, with the words of the comment or words of their own
        Row {
            source: " CLRL R16\n .WARN 1 ;  take care \nA: .print\n",
            bare: false,
            unused: false,
            name: "",
            told: "a.mar:2:2: warning: take care\n .WARN 1 ;  take care \n ^\na.mar:3:4: note: the source gives a message here\nA: .print\n   ^\na.mar:1:7: warning: `R16` is a name and no register\n CLRL R16\n      ^\n",
        },
        // one that a condition leaves out, and one with a fault
        Row {
            source: " .IF EQ 1\n .WARN ; no\n .IFF\n .WARN\n .ENDC\nA: NOP\nA: .PRINT ; no\n",
            bare: false,
            unused: false,
            name: "",
            told: "a.mar:4:2: warning: the source gives a warning here\n .WARN\n ^\n",
        },
        // what a macro says, where it is called
        Row {
            source: " .MACRO M X\n NOP\n .PRINT ; this is X\n .ENDM\n  M R1\n",
            bare: false,
            unused: false,
            name: "",
            told: "a.mar:5:3: note: this is R1\n  M R1\n  ^\na.mar:5: in the expansion of macro M, its line 2:  .PRINT ; this is R1\n",
        },
        // a text behind `.ASCID` has no names
        Row {
            source: " .ASCID /R16/\n",
            bare: false,
            unused: false,
            name: "",
            told: "",
        },
    ];
    for row in rows {
        assert!(rt; tells_in(&rt, Dialect::Vms, row)?);
    }
    Ok(())
}
