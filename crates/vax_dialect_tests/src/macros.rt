//! Macros, repeats and their directives in each dialect. Expected bytes are worked by the manual.
use crate::rows::{are_faulty, differ};
use std::test::Fail;
use vax_dialect::Dialect;

#[test]
fn carries_out_the_directives_of_one_dialect(rt: HostRuntime) -> Result<(), Fail> {
    let alloc = rt.alloc();
    let rows: [(&str, &[u8], (u32, u8)); 17] = [
        (".REPT 1-2\nNOP\n.ENDR\n.BYTE 1\n", b"\x01", (1, 7)),
        // The inner of two expansions is left, with the condition that it opened.
        (
            ".MACRO A X\n.BYTE 1\n.IF EQ X\n.MEXIT\n.ENDC\n.BYTE 2\n.ENDM\n.MACRO B\nA 0\nA 1\n.BYTE 3\n.ENDM\nB\n",
            b"\x01\x01\x02\x03",
            (13, 2),
        ),
        (
            ".REPT 3\n.BYTE 1\n.MEXIT\n.BYTE 2\n.ENDR\n.BYTE 3\n",
            b"\x01\x03",
            (1, 2),
        ),
        // A repeat in a macro is left, and the macro goes on.
        (
            ".MACRO M\n.IRP X,<1,2,3>\n.BYTE X\n.IIF EQ X-2,.MEXIT\n.ENDR\n.BYTE 9\n.ENDM\nM\n",
            b"\x01\x02\x09",
            (8, 2),
        ),
        // Arguments with a keyword don't count, those that are left out do.
        (
            ".MACRO M A B C\n.NARG N\n.BYTE N\n.ENDM\nM\nM 1\nM 1,,2\nM C=5,1\n",
            b"\0\x01\x03\x01",
            (5, 2),
        ),
        // Those of the innermost call count, within a repeat too.
        (
            ".MACRO O X Y\n.REPT 1\n.NARG N\n.BYTE N\n.ENDR\nI 1\n.NARG N\n.BYTE N\n.ENDM\n.MACRO I Z\n.NARG N\n.BYTE N\n.ENDM\nO 7,8\n",
            b"\x02\x01\x02",
            (14, 2),
        ),
        (
            ".NCHR N,<AB CD>\n.BYTE N\n.NCHR N,<>\n.BYTE N\n.nchr N,ABC\n.BYTE N\n",
            b"\x05\0\x03",
            (1, 2),
        ),
        ("L: .NCHR N,AB\n.BYTE N,L-L\n", b"\x02\0", (1, 2)),
        (
            ".MACRO NOP\n.BYTE 7\n.ENDM\nNOP\n.MDELETE NOP,X\nNOP\n",
            b"\x07\x01",
            (5, 2),
        ),
        (
            ".MACRO M A\n.BYTE %LENGTH(A),%LOCATE(<DE>,<A>),%LOCATE(X,A,2)\n.ASCII /%EXTRACT(1,%LENGTH(<A>)-3,A)/\n.ENDM\nM ABCDE\n",
            b"\x05\x03\x05BC",
            (5, 4),
        ),
        (
            ".MACRO RESERVE ARG1\nXX = %LOCATE(<=>,ARG1)\n.IF EQUAL XX-%LENGTH(ARG1)\n.WARN\n.MEXIT\n.ENDC\n%EXTRACT(0,XX,ARG1)::\nXX = XX+1\n.BLKB %EXTRACT(XX,3,ARG1)\n.ENDM\nRESERVE <AB=2>\nRESERVE AB\n.BYTE AB-AB+5\n",
            b"\0\0\x05",
            (11, 4),
        ),
        (
            ".MACRO M A\n.BYTE %LENGTH(^/A,B)/),%LOCATE(,A),%length()\n.ENDM\nM XY\n",
            b"\x05\0\0",
            (4, 1),
        ),
        // An argument by value, also for a keyword and below 0.
        (
            ".MACRO M A B\n.BYTE A\n.ASCII /B/\n.ENDM\nX=2\nM \\X,\\X+10\nM B=\\X-5,<\\X>\n",
            b"\x0212\x02-3",
            (6, 4),
        ),
        // A text between two of a byte, and a `;` in brackets. Operators of radix stay.
        (
            ".MACRO M A,B\n.ASCII `A`<B>\n.ENDM\nM ^/x,<y/,^XA ; c\nM B=<^A/;/>,A=<a;b> ; c\n",
            b"x,<y\x0aa;b;",
            (4, 4),
        ),
        (
            ".NCHR N,<a;b> ; c\n.BYTE N\n.IRP X,<^/a b/,c>\n.ASCII `X`\n.ENDR\n.NCHR N,^%<;>%;c\n.BYTE N\n",
            b"\x03a bc\x03",
            (1, 2),
        ),
        // The texts of repeats are arguments too.
        (
            ".IRPC D,24\n.BYTE D\n.ENDR\n.IRPC D ^/6,8/\n.ASCII `D`\n.ENDR\n.IRP D,^/5,7/\n.BYTE D\n.ENDR\n",
            b"\x02\x046,8\x05\x07",
            (1, 4),
        ),
        (
            ".IRP X,<<a;b>,c> ; d\n.NCHR N,<X>\n.BYTE N\n.ENDR\n",
            b"\x03\x01",
            (1, 4),
        ),
    ];
    differ(&rt, alloc, &rows)
}

#[test]
fn tells_the_faults_of_macros_in_the_larger_dialect(rt: HostRuntime) {
    let alloc = rt.alloc();
    let rows = [
        (".MEXIT\n", (1, 8)),
        (".REPT 1\n.MEXIT 1\n.ENDR\n", (1, 3)),
        (".NARG N\n", (1, 8)),
        (".REPT 1\n.NARG N\n.ENDR\n", (1, 8)),
        (
            ".MACRO M A\n.BYTE 1\n.ENDM\nM 1\n.REPT 1\n.NARG N\n.ENDR\n",
            (5, 8),
        ),
        (".MACRO M\n.NARG\n.ENDM\nM\n", (4, 3)),
        (".MACRO M\n.NARG 5\n.ENDM\nM\n", (4, 4)),
        (".NCHR N\n", (1, 3)),
        (".NCHR 5,A\n", (1, 4)),
        (".NCHR N,<A\n", (1, 4)),
        (".NCHR N,^/A\n", (1, 4)),
        (".NCHR N,^/A/B\n", (1, 4)),
        (".IRPC D\n.ENDR\n", (1, 3)),
        (".IRPC D,1 2\n.ENDR\n", (1, 3)),
        (".IRPC 5,1\n.ENDR\n", (1, 4)),
        (".IRP D,<1\n.ENDR\n", (1, 4)),
        (".MDELETE\n", (1, 3)),
        (".MDELETE 5\n", (1, 4)),
        (".BYTE %LENGTH(A)\n", (1, 4)),
        (".REPT 1\n.BYTE %LENGTH(A\n.ENDR\n", (1, 4)),
        (".REPT 1\n.BYTE %LENGTH(A,B)\n.ENDR\n", (1, 4)),
        (".REPT 1\n.BYTE %EXTRACT(0-1,1,1)\n.ENDR\n", (1, 7)),
        (".REPT 1\n.BYTE %EXTRACT(X,1,1)\n.ENDR\n", (1, 5)),
        (".MACRO M A\n.ENDM\nM \\X\n", (3, 5)),
        (".MACRO M A\n.ENDM\nM \\\n", (3, 3)),
    ];
    are_faulty(&rt, alloc, Dialect::Vms, &rows);
}

#[test]
fn defines_opcodes_in_the_larger_dialect(rt: HostRuntime) -> Result<(), Fail> {
    let alloc = rt.alloc();
    let rows: [(&str, &[u8], (u32, u8)); 10] = [
        (
            ".OPDEF MOVAX ^XD0,RL,WL\nMOVAX #5,R0\nmovax #64,(R1)+\n",
            b"\xD0\x05\x50\xD0\x8F\x40\0\0\0\x81",
            (1, 2),
        ),
        // The low byte of two comes first, and a label before a use is the place of the opcode.
        (
            ".OPDEF X ^X50FD,RB,WD ;RH\nL: X (R1)[R3],@4(R2) ;c\n.BYTE .-L\n",
            b"\xFD\x50\x43\x61\xB2\x04\x06",
            (1, 2),
        ),
        // A branch forwards, one back, and one to the place of its own displacement.
        (
            ".OPDEF GO ^X11,BB\nA: GO B\nGO A\nB: GO .\n",
            b"\x11\x02\x11\xFC\x11\xFF",
            (1, 2),
        ),
        (
            ".OPDEF FAR ^X31,BW\nA: FAR A\nFAR B+300\n.BLKB 3\nB: NOP\n.OPDEF TEST ^XE8,RL,BB\nTEST R1,B\n",
            b"\x31\xFD\xFF\x31\x2F\x01\0\0\0\x01\xE8\x51\xFC",
            (1, 2),
        ),
        // The types have 1, 2, 4 and 8 bytes.
        (
            ".OPDEF X 1,RB,RW,RL,RF\nX #64,#64,#64,#64\n",
            b"\x01\x8F\x40\x8F\x40\0\x8F\x40\0\0\0\x8F\x40\0\0\0",
            (1, 2),
        ),
        (
            ".OPDEF X 255,rq,RD,RG\nX #64,#64,#64\n",
            b"\xFF\x8F\x40\0\0\0\0\0\0\0\x8F\x40\0\0\0\0\0\0\0\x8F\x40\0\0\0\0\0\0\0",
            (1, 2),
        ),
        (
            ".OPDEF X 256,AB,MW,VL,WQ\nX R1,R2,R3,R4\n",
            b"\0\x01\x51\x52\x53\x54",
            (1, 2),
        ),
        // The last definition counts, also of an instruction's name.
        (
            ".OPDEF NOP 2\nNOP\n.OPDEF nop,1+2\nNOP\n.MDELETE NOP\nNOP\n",
            b"\x02\x03\x01",
            (1, 2),
        ),
        (
            ".MACRO M N\n.OPDEF X N,RB\n.ENDM\n.IF EQ 1\n.OPDEF X 65536\n.ENDC\nL: M 7\nX R1\n.BYTE L-L\n",
            b"\x07\x51\0",
            (7, 2),
        ),
        (
            ".OPDEF X 1,RB,RB,RB,RB,RB,RB,RB,RB,RB,RB,RB,RB,RB,RB,RB,RB\nX R0,R1,R2,R3,R4,R5,R6,R7,R8,R9,R0,R1,R2,R3,R4,R5\n",
            b"\x01\x50\x51\x52\x53\x54\x55\x56\x57\x58\x59\x50\x51\x52\x53\x54\x55",
            (1, 2),
        ),
    ];
    differ(&rt, alloc, &rows)
}

#[test]
fn tells_the_faults_of_opcodes(rt: HostRuntime) {
    let alloc = rt.alloc();
    let rows = [
        (".OPDEF\n", (1, 3)),
        (".OPDEF 5,1\n", (1, 4)),
        (".OPDEF . 1\n", (1, 4)),
        (".OPDEF X\n", (1, 3)),
        (".OPDEF X,\n", (1, 3)),
        (".OPDEF X 1 \x07\n", (1, 1)),
        (".OPDEF X 65536\n", (1, 7)),
        (".OPDEF X -1\n", (1, 7)),
        (".OPDEF X Y\nY=1\n", (1, 5)),
        ("Y: .OPDEF X Y\n", (1, 4)),
        (".EXTERNAL E\n.REPT E\n.ENDR\n", (2, 5)),
        (".EXTERNAL E\n.OPDEF X E\n", (2, 5)),
        (".OPDEF X 1,\n", (1, 4)),
        (".OPDEF X 1,RL,\n", (1, 4)),
        (".OPDEF X 1,,RL\n", (1, 4)),
        (".OPDEF X 1,RX\n", (1, 4)),
        (".OPDEF X 1,RO\n", (1, 4)),
        (".OPDEF X 1,WH\n", (1, 4)),
        (".OPDEF X 1,BL\n", (1, 4)),
        (".OPDEF X 1,XB\n", (1, 4)),
        (".OPDEF X 1,R\n", (1, 4)),
        (".OPDEF X 1,RLL\n", (1, 4)),
        (
            ".OPDEF X 1,RB,RB,RB,RB,RB,RB,RB,RB,RB,RB,RB,RB,RB,RB,RB,RB,RB\n",
            (1, 3),
        ),
        (".OPDEF X 1,RL\nX R0,R1\n", (2, 3)),
        (".OPDEF X 1,RL\nX\n", (2, 3)),
        (".OPDEF X 1,BB\nX\n", (2, 4)),
        (".OPDEF X 1,BB\nX A\n.BLKB 127\nA: NOP\n", (0, 0)),
        (".OPDEF X 1,BB\nX A\n.BLKB 128\nA: NOP\n", (2, 7)),
    ];
    are_faulty(&rt, alloc, Dialect::Vms, &rows);
}
