//! What is blamed for the errors of sources, and where it is marked.
use crate::errors::{Row, tells, tells_in};
use std::test::Fail;
use vax_dialect::Dialect;

#[test]
fn what_a_condition_is_about_is_blamed(rt: HostRuntime) -> Result<(), Fail> {
    let rows = [
        Row {
            source: " .IF EQ FOO\n .ENDC\nS: HALT\n .END S\n",
            told: "a.mar:1:9: error: 5: a name has no value here, or its block has no such local label: `FOO` has no value before this line\n .IF EQ FOO\n        ^\n",
        },
        Row {
            source: " .IF EQ,FOO\n .ENDC\nS: HALT\n .END S\n",
            told: "a.mar:1:9: error: 5: a name has no value here, or its block has no such local label: `FOO` has no value before this line\n .IF EQ,FOO\n        ^\n",
        },
        Row {
            source: "N = 2\n .IF NE N-FOO\n .ENDC\nS: HALT\n .END S\n",
            told: "a.mar:2:11: error: 5: a name has no value here, or its block has no such local label: `FOO` has no value before this line\n .IF NE N-FOO\n          ^\n",
        },
        Row {
            source: " .IIF GT FOO, HALT\nS: HALT\n .END S\n",
            told: "a.mar:1:10: error: 5: a name has no value here, or its block has no such local label: `FOO` has no value before this line\n .IIF GT FOO, HALT\n         ^\n",
        },
        // a label that comes later
        Row {
            source: "T: .IF LESS_THAN S\n .ENDC\nS: HALT\n .END S\n",
            told: "a.mar:1:18: error: 5: a name has no value here, or its block has no such local label: `S` has no value before this line\nT: .IF LESS_THAN S\n                 ^\n",
        },
        Row {
            source: " .IF GT 3 4\n .ENDC\nS: HALT\n .END S\n",
            told: "a.mar:1:9: error: 4: an operand or an expression has no form that may stand here\n .IF GT 3 4\n        ^\n",
        },
        Row {
            source: " .IF XX 1\n .ENDC\nS: HALT\n .END S\n",
            told: "a.mar:1:6: error: 4: an operand or an expression has no form that may stand here: `XX` is no condition\n .IF XX 1\n     ^\n",
        },
        Row {
            source: " .IF EQ 1,2\n .ENDC\nS: HALT\n .END S\n",
            told: "a.mar:1:6: error: 3: too few or too many operands, or a comma is missing: `EQ` takes 1 operand\n .IF EQ 1,2\n     ^\n",
        },
        Row {
            source: " .IF IDN A B C\n .ENDC\nS: HALT\n .END S\n",
            told: "a.mar:1:6: error: 3: too few or too many operands, or a comma is missing: `IDN` takes 2 operands\n .IF IDN A B C\n     ^\n",
        },
        Row {
            source: " .IF\n .ENDC\nS: HALT\n .END S\n",
            told: "a.mar:1:2: error: 3: too few or too many operands, or a comma is missing: `.IF` takes a condition\n .IF\n ^\n",
        },
    ];
    for row in rows {
        assert!(rt; tells(&rt, row)?);
        assert!(rt; tells_in(&rt, Dialect::Vms, row)?);
    }
    Ok(())
}

#[test]
fn names_without_a_value_are_blamed(rt: HostRuntime) -> Result<(), Fail> {
    let rows = [
        // X has a line, and no value
        Row {
            source: "A = 1\nX = Y\nS: .BLKB A+X\n .END S\n",
            told: "a.mar:3:12: error: 5: a name has no value here, or its block has no such local label: `X` has no value before this line\nS: .BLKB A+X\n           ^\n",
        },
        Row {
            source: " .BLKB T-S\nS: HALT\nT: HALT\n .END S\n",
            told: "a.mar:1:8: error: 5: a name has no value here, or its block has no such local label: `T` has no value before this line\n .BLKB T-S\n       ^\n",
        },
        Row {
            source: "S: .ALIGN R1\n .END S\n",
            told: "a.mar:1:11: error: 5: a name has no value here, or its block has no such local label: `R1` has no value before this line\nS: .ALIGN R1\n          ^\n",
        },
    ];
    for row in rows {
        assert!(rt; tells(&rt, row)?);
        assert!(rt; tells_in(&rt, Dialect::Vms, row)?);
    }
    Ok(())
}

#[test]
fn the_statement_of_an_immediate_condition_is_marked(rt: HostRuntime) -> Result<(), Fail> {
    let rows = [
        Row {
            source: "X = 300\n .IIF EQ 0, .BYTE X\nS: HALT\n .END S\n",
            told: "a.mar:2:19: error: 7: a number or a distance is out of range: a byte holds -128 to 255, not 300\n .IIF EQ 0, .BYTE X\n                  ^\n",
        },
        Row {
            source: "S: HALT\n .IIF EQ 0, MOVX\n .END S\n",
            told: "a.mar:2:13: error: 2: no instruction, directive or macro has this name, or `.` is assigned to: `MOVX`\n .IIF EQ 0, MOVX\n            ^\n",
        },
        Row {
            source: "S: HALT\n .IIF EQ 0, .BLKB FOO\n .END S\n",
            told: "a.mar:2:19: error: 5: a name has no value here, or its block has no such local label: `FOO` has no value before this line\n .IIF EQ 0, .BLKB FOO\n                  ^\n",
        },
        Row {
            source: "S: HALT\n .IIF EQ 0, S: HALT\n .END S\n",
            told: "a.mar:2:13: error: 6: a name is defined twice: `S` stands on line 1 already\n .IIF EQ 0, S: HALT\n            ^\n",
        },
        // of the label, and of the statement
        Row {
            source: "S: HALT\nS: .IIF EQ 0, MOVL R1\n .END S\n",
            told: "a.mar:2:1: error: 6: a name is defined twice: `S` stands on line 1 already\nS: .IIF EQ 0, MOVL R1\n^\na.mar:2:15: error: 3: too few or too many operands, or a comma is missing: `MOVL` takes 2 operands, not 1\nS: .IIF EQ 0, MOVL R1\n              ^\n",
        },
        Row {
            source: " .IIF NE 3,0, HALT\nS: HALT\n .END S\n",
            told: "a.mar:1:12: error: 4: an operand or an expression has no form that may stand here: a statement begins with a name\n .IIF NE 3,0, HALT\n           ^\n",
        },
    ];
    for row in rows {
        assert!(rt; tells(&rt, row)?);
        assert!(rt; tells_in(&rt, Dialect::Vms, row)?);
    }
    Ok(())
}

#[test]
fn conditions_in_expansions_are_blamed(rt: HostRuntime) -> Result<(), Fail> {
    let rows = [
        Row {
            source: " .MACRO M X\n .IF EQ X\n .ENDC\n .ENDM\nS: M FOO\n .END S\n",
            told: "a.mar:5:6: error: 5: a name has no value here, or its block has no such local label: in the expansion a name has no value before its line, perhaps `FOO`\nS: M FOO\n     ^\n",
        },
        Row {
            source: " .MACRO M X\n .IF EQ BAR\n .ENDC\n .ENDM\nS: M S\n .END S\n",
            told: "a.mar:5:4: error: 5: a name has no value here, or its block has no such local label: in the expansion a name has no value before its line\nS: M S\n   ^\n",
        },
        Row {
            source: " .MACRO M X\n .BLKB X\n .ENDM\nS: M FOO\n .END S\n",
            told: "a.mar:4:1: error: 5: a name has no value here, or its block has no such local label: `FOO` has no value before this line\nS: M FOO\n^\na.mar:4: in the expansion of macro M, its line 1:  .BLKB FOO\n",
        },
        Row {
            source: " .MACRO M X\n .IIF EQ 0, .BLKB X\n .ENDM\nS: M FOO\n .END S\n",
            told: "a.mar:4:1: error: 5: a name has no value here, or its block has no such local label: `FOO` has no value before this line\nS: M FOO\n^\na.mar:4: in the expansion of macro M:  .BLKB FOO\n",
        },
        // a label of the expansion before the condition
        Row {
            source: " .MACRO M X\nZ: .IF EQ X\n .ENDC\n .ENDM\nZ: HALT\n M FOO\n .END Z\n",
            told: "a.mar:6:2: error: 6: a name is defined twice: `Z` stands on line 2 already\n M FOO\n ^\na.mar:6: in the expansion of macro M: Z:\na.mar:6:2: error: 5: a name has no value here, or its block has no such local label\n M FOO\n ^\na.mar:6: in the expansion of macro M: Z:\n",
        },
    ];
    for row in rows {
        assert!(rt; tells(&rt, row)?);
        assert!(rt; tells_in(&rt, Dialect::Vms, row)?);
    }
    Ok(())
}

#[test]
fn entries_that_are_there_twice_are_told(rt: HostRuntime) -> Result<(), Fail> {
    let rows = [
        Row {
            source: " .ENTRY S,0\n RET\n .ENTRY S,0\n RET\n .END S\n",
            told: "a.mar:3:9: error: 6: a name is defined twice: `S` stands on line 1 already\n .ENTRY S,0\n        ^\n",
        },
        Row {
            source: "S: HALT\n .ENTRY S,0\n RET\n .END S\n",
            told: "a.mar:2:9: error: 6: a name is defined twice: `S` stands on line 1 already\n .ENTRY S,0\n        ^\n",
        },
        Row {
            source: "S = 3\n .ENTRY S,0\n RET\n .END\n",
            told: "a.mar:2:9: error: 6: a name is defined twice: `S` stands on line 1 already\n .ENTRY S,0\n        ^\n",
        },
        Row {
            source: " .ENTRY S,0\n RET\nS: HALT\n .END S\n",
            told: "a.mar:3:1: error: 6: a name is defined twice: `S` stands on line 1 already\nS: HALT\n^\n",
        },
        Row {
            source: " .ENTRY S,0\n RET\nS = 5\n .END S\n",
            told: "a.mar:3:1: error: 6: a name is defined twice: `S` stands on line 1 already\nS = 5\n^\n",
        },
        Row {
            source: " .ENTRY S,0\n RET\nL: .ENTRY S,0\n RET\n .END S\n",
            told: "a.mar:3:11: error: 6: a name is defined twice: `S` stands on line 1 already\nL: .ENTRY S,0\n          ^\n",
        },
        Row {
            source: " .ENTRY S,0\nL: RET\nL: .ENTRY T,0\n RET\n .END S\n",
            told: "a.mar:3:1: error: 6: a name is defined twice: `L` stands on line 2 already\nL: .ENTRY T,0\n^\n",
        },
        Row {
            source: " .MACRO M\n .ENTRY S,0\n .ENDM\n M\n M\n .END S\n",
            told: "a.mar:5:2: error: 6: a name is defined twice: `S` stands on line 2 already\n M\n ^\na.mar:5: in the expansion of macro M, its line 1:  .ENTRY S,0\n",
        },
    ];
    for row in rows {
        assert!(rt; tells(&rt, row)?);
        assert!(rt; tells_in(&rt, Dialect::Vms, row)?);
    }
    Ok(())
}

#[test]
fn texts_without_an_end_are_told(rt: HostRuntime) -> Result<(), Fail> {
    let rows = [
        Row {
            source: "S: .ASCII /hello\n .END S\n",
            told: "a.mar:1:11: error: 1: a byte belongs to no token, or the line is too long: the text that begins with `/` has no closing `/`\nS: .ASCII /hello\n          ^\n",
        },
        Row {
            source: "S: .ASCIC /hello/ /x\n .END S\n",
            told: "a.mar:1:19: error: 1: a byte belongs to no token, or the line is too long: the text that begins with `/` has no closing `/`\nS: .ASCIC /hello/ /x\n                  ^\n",
        },
        Row {
            source: "S: .ASCIZ \"hello\n .END S\n",
            told: "a.mar:1:11: error: 1: a byte belongs to no token, or the line is too long: the text that begins with `\"` has no closing `\"`\nS: .ASCIZ \"hello\n          ^\n",
        },
        Row {
            source: "S: .LONG ^A/he\n .END S\n",
            told: "a.mar:1:12: error: 1: a byte belongs to no token, or the line is too long: the text that begins with `/` has no closing `/`\nS: .LONG ^A/he\n           ^\n",
        },
        Row {
            source: " .MACRO M X\n .ASCII X\n .ENDM\nS: M </hello>\n .END S\n",
            told: "a.mar:4:1: error: 1: a byte belongs to no token, or the line is too long: the text that begins with `/` has no closing `/`\nS: M </hello>\n^\na.mar:4: in the expansion of macro M, its line 1:  .ASCII /hello\n",
        },
    ];
    for row in rows {
        assert!(rt; tells(&rt, row)?);
        assert!(rt; tells_in(&rt, Dialect::Vms, row)?);
    }
    Ok(())
}

#[test]
fn texts_of_descriptors_without_an_end_are_told(rt: HostRuntime) -> Result<(), Fail> {
    let rows = [Row {
        source: "S: .ASCID /he\n .END S\n",
        told: "a.mar:1:11: error: 1: a byte belongs to no token, or the line is too long: the text that begins with `/` has no closing `/`\nS: .ASCID /he\n          ^\n",
    }];
    for row in rows {
        assert!(rt; tells_in(&rt, Dialect::Vms, row)?);
    }
    Ok(())
}

#[test]
fn bytes_beyond_ascii_are_told(rt: HostRuntime) -> Result<(), Fail> {
    let rows = [
        Row {
            source: "\u{feff}S: HALT\n .END S\n",
            told: "a.mar:1:1: error: 1: a byte belongs to no token, or the line is too long: a byte order mark is here, and the source must be saved without it\n???S: HALT\n^\n",
        },
        Row {
            source: "S: HALT\n MOVL R\u{e9},R1\n .END S\n",
            told: "a.mar:2:8: error: 1: a byte belongs to no token, or the line is too long: nothing begins with the byte C3 (hexadecimal)\n MOVL R??,R1\n       ^\n",
        },
    ];
    for row in rows {
        assert!(rt; tells(&rt, row)?);
        assert!(rt; tells_in(&rt, Dialect::Vms, row)?);
    }
    Ok(())
}

#[test]
fn names_that_are_too_long_are_told(rt: HostRuntime) -> Result<(), Fail> {
    let rows = [
        Row {
            source: "ABCDEFGHIJKLMNOPQRSTUVWXYZ01234567: HALT\n .END\n",
            told: "a.mar:1:1: error: 2: no instruction, directive or macro has this name, or `.` is assigned to: a name has at most 31 characters, not 34\nABCDEFGHIJKLMNOPQRSTUVWXYZ01234567: HALT\n^\n",
        },
        Row {
            source: "S: ABCDEFGHIJKLMNOPQRSTUVWXYZ01234567 R1\n .END S\n",
            told: "a.mar:1:4: error: 2: no instruction, directive or macro has this name, or `.` is assigned to: a name has at most 31 characters, not 34\nS: ABCDEFGHIJKLMNOPQRSTUVWXYZ01234567 R1\n   ^\n",
        },
        Row {
            source: "S: MOVL R1,ABCDEFGHIJKLMNOPQRSTUVWXYZ01234567\n .END S\n",
            told: "a.mar:1:12: error: 4: an operand or an expression has no form that may stand here: a name has at most 31 characters, not 34\nS: MOVL R1,ABCDEFGHIJKLMNOPQRSTUVWXYZ01234567\n           ^\n",
        },
        Row {
            source: "S: CALLS #0,ABCDEFGHIJKLMNOPQRSTUVWXYZ01234567,R0\n .END S\n",
            told: "a.mar:1:4: error: 3: too few or too many operands, or a comma is missing: `CALLS` takes 2 operands, not 3\nS: CALLS #0,ABCDEFGHIJKLMNOPQRSTUVWXYZ01234567,R0\n   ^\n",
        },
    ];
    for row in rows {
        assert!(rt; tells(&rt, row)?);
        assert!(rt; tells_in(&rt, Dialect::Vms, row)?);
    }
    Ok(())
}

#[test]
fn definitions_that_come_back_are_told(rt: HostRuntime) -> Result<(), Fail> {
    let rows = [
        Row {
            source: "X=X+1\nS: HALT\n .END S\n",
            told: "a.mar:1:3: error: 4: an operand or an expression has no form that may stand here: `X` is defined by itself\nX=X+1\n  ^\n",
        },
        Row {
            source: "X=Y\nY==1-X\nS: HALT\n .END S\n",
            told: "a.mar:2:6: error: 4: an operand or an expression has no form that may stand here: `Y` is defined by itself, through `X` on line 1\nY==1-X\n     ^\n",
        },
        Row {
            source: "X=Y\nY=Z\nZ=X+1\nS: HALT\n .END S\n",
            told: "a.mar:3:3: error: 4: an operand or an expression has no form that may stand here: `Z` is defined by itself, through `X` on line 1, `Y` on line 2\nZ=X+1\n  ^\n",
        },
        // one that leads there, and is not of it
        Row {
            source: "W=X\nX=Y\nY=3+X\nS: HALT\n .END S\n",
            told: "a.mar:3:5: error: 4: an operand or an expression has no form that may stand here: `Y` is defined by itself, through `X` on line 2\nY=3+X\n    ^\n",
        },
    ];
    for row in rows {
        assert!(rt; tells(&rt, row)?);
        assert!(rt; tells_in(&rt, Dialect::Vms, row)?);
    }
    Ok(())
}

#[test]
fn places_in_operands_are_told(rt: HostRuntime) -> Result<(), Fail> {
    let rows = [
        Row {
            source: "S: BRB .+2\n HALT\n .END S\n",
            told: "a.mar:1:8: error: 4: an operand or an expression has no form that may stand here: `.` can't be in an operand, a label has to be in its place\nS: BRB .+2\n       ^\n",
        },
        Row {
            source: "S: MOVL S,-4(R1)\n MOVAL .,R0\n .END S\n",
            told: "a.mar:2:8: error: 4: an operand or an expression has no form that may stand here: `.` can't be in an operand, a label has to be in its place\n MOVAL .,R0\n       ^\n",
        },
    ];
    for row in rows {
        assert!(rt; tells(&rt, row)?);
    }
    Ok(())
}

#[test]
fn wrong_counts_are_told(rt: HostRuntime) -> Result<(), Fail> {
    let rows = [
        Row {
            source: "S: CALLS #1\n HALT\n .END S\n",
            told: "a.mar:1:4: error: 3: too few or too many operands, or a comma is missing: `CALLS` takes 2 operands, not 1\nS: CALLS #1\n   ^\n",
        },
        Row {
            source: "S: PUSHL R1,R2\n HALT\n .END S\n",
            told: "a.mar:1:4: error: 3: too few or too many operands, or a comma is missing: `PUSHL` takes 1 operand, not 2\nS: PUSHL R1,R2\n   ^\n",
        },
        Row {
            source: "S: RSB R1\n HALT\n .END S\n",
            told: "a.mar:1:4: error: 3: too few or too many operands, or a comma is missing: `RSB` takes 0 operands, not 1\nS: RSB R1\n   ^\n",
        },
    ];
    for row in rows {
        assert!(rt; tells(&rt, row)?);
        assert!(rt; tells_in(&rt, Dialect::Vms, row)?);
    }
    Ok(())
}
