//! Whole sources in each dialect: what the larger one gives, and the faults of both. Expected bytes are worked by the manual.
use crate::rows::{are_faulty, bytes_of, differ};
use std::test::Fail;
use vax_asm::assemble;
use vax_dialect::Dialect;
use vax_lex::Value;
use vax_module::{Reloc, RelocKind};

#[test]
fn gives_what_one_dialect_has(rt: HostRuntime) -> Result<(), Fail> {
    let alloc = rt.alloc();
    let rows: [(&str, &[u8], (u32, u8)); 63] = [
        (
            "MOVL #^C<^XFFFF0000>,R0\n",
            b"\xD0\x8F\xFF\xFF\0\0\x50",
            (1, 7),
        ),
        (".LONG 1@32\n", b"\0\0\0\0", (1, 7)),
        (".LONG ^XFFFFFFFF+2\n", b"\x01\0\0\0", (1, 7)),
        (".BYTE 1,,2\n", b"\x01\0\x02", (1, 4)),
        (".WORD 1[2],[2],\n", b"\x01\0\x01\0\0\0\0\0\0\0", (1, 4)),
        (
            ".BYTE 7\n.ODD\n.ODD\n.BYTE 8\n.odd\n.BYTE 9\n",
            b"\x07\x08\0\x09",
            (2, 2),
        ),
        ("A: .BYTE 5,.-A,.-A\n", b"\x05\x01\x02", (1, 4)),
        ("A: NOP\nMOVL #.-A,R0\n", b"\x01\xD0\x02\x50", (2, 4)),
        ("BRB .\n", b"\x11\xFF", (1, 4)),
        (".BYTE 1\n. = . + 3\n.BYTE 2\n", b"\x01\0\0\0\x02", (2, 2)),
        ("A: .BYTE 1\n.=A+2\n.=.\n.BYTE 2\n", b"\x01\0\x02", (2, 2)),
        (
            ".BYTE 1\n.PSECT A\n.BYTE 2\n.PSECT\n.BYTE 3\n",
            b"\x01\x03",
            (4, 3),
        ),
        (".BLKF\n.BYTE 1\n", b"\0\0\0\0\x01", (1, 2)),
        (".BLKD\n.BYTE 1\n", b"\0\0\0\0\0\0\0\0\x01", (1, 2)),
        (".BLKG 0\n.BYTE 1\n", b"\x01", (1, 2)),
        (".WEAK A\nA: .BYTE 1\n", b"\x01", (1, 2)),
        (
            ".BYTE 1\n.ALIGN LONG,^XFF\n.BYTE 2\n.ALIGN 1,7\n.ALIGN 1,8\n",
            b"\x01\xFF\xFF\xFF\x02\x07",
            (2, 3),
        ),
        (
            ".BYTE 1\n.PSECT A,2,NORD,vec\n.BYTE 2\n.PSECT\n.BYTE 3\n",
            b"\x01\x03",
            (2, 4),
        ),
        (
            ".ENABLE SUPPRESSION,gbl\n.ENABL DBG\n.DISABLE TRACEBACK,AMA\n.DSABL FPT,LSB\n.BYTE 4\n",
            b"\x04",
            (1, 2),
        ),
        // Names that appeared before, that appear behind it, that the module defines or that it says to be another's.
        (
            ".LONG X\n.DISABLE GLOBAL\n.LONG X,A\n.IF NDF Z\n.BYTE 7\n.ENDC\nA = 5\n",
            b"\0\0\0\0\0\0\0\0\x05\0\0\0\x07",
            (2, 2),
        ),
        (
            ".DISABLE GLOBAL\n.LONG X,Y,Z\n.EXTERNAL X\n.GLOBAL Y\n.WEAK Z\n",
            b"\0\0\0\0\0\0\0\0\0\0\0\0",
            (1, 2),
        ),
        (
            ".DISABLE GLOBAL\n.ENABLE GLOBAL\nA: .LONG X\n.END A\n",
            b"\0\0\0\0",
            (1, 2),
        ),
        (
            ".DISABLE GLOBAL\n.EXTERNAL B\n.BYTE 1\n.END B\n",
            b"\x01",
            (1, 2),
        ),
        (
            ".ENABLE LOCAL_BLOCK\n1$: NOP\nA: BRB 1$\n.DSABL LSB\n.BYTE 1$-A\nB: NOP\n1$: NOP\n",
            b"\x01\x11\xFD\xFF\x01\x01",
            (1, 2),
        ),
        (
            "1$: NOP\n.ENABL LSB\n1$: NOP\n.PSECT A\n.PSECT\n.BYTE 1$-.\n",
            b"\x01\x01\xFF",
            (2, 2),
        ),
        (
            ".BYTE 1\n.SAVE_PSECT\n.PSECT A\n.BYTE 2\n.RESTORE_PSECT\n.BYTE 3\n",
            b"\x01\x03",
            (2, 2),
        ),
        (
            ".SAVE\n.PSECT A\n.SAVE\n.PSECT B\n.RESTORE\n.BYTE 1\n.RESTORE\n.BYTE 2\n",
            b"\x02",
            (1, 2),
        ),
        (
            "1$: NOP\n.SAVE_PSECT LOCAL_BLOCK\n.PSECT A\n1$: NOP\n.restore\n.BYTE 1$-.\n",
            b"\x01\xFF",
            (2, 2),
        ),
        // The block that is put aside goes on up to the next label or section, and once more where it is taken back.
        (
            "BRB 2$\n.SAVE local_block\n1$: NOP\n.PSECT A\nB: NOP\n.RESTORE\n2$: .BYTE 1$-.\n",
            b"\x11\x01\x01\xFF",
            (2, 2),
        ),
        (
            ".ENABL LSB\n1$: NOP\n.SAVE\n.PSECT A\n.RESTORE\n.BYTE 1$-.\n",
            b"\x01\xFF",
            (1, 2),
        ),
        (
            ".ENABLE ABSOLUTE\nMOVL ^X1234,R0\n",
            b"\xD0\x9F\x34\x12\0\0\x50",
            (1, 2),
        ),
        (
            ".ENABL AMA\nTSTL X[R1]\nX=^X10\n",
            b"\xD5\x41\x9F\x10\0\0\0",
            (1, 2),
        ),
        // Where a size or `@` is written, and at branches, it stays relative.
        (
            ".ENABL AMA\nA: TSTL B^A\nTSTL @A\nBRB A\n",
            b"\xD5\xAF\xFD\xD5\xBF\xFA\x11\xF8",
            (1, 2),
        ),
        (
            "A: .ENABL AMA\n.DSABL AMA\nTSTL A\n",
            b"\xD5\xAF\xFD",
            (1, 2),
        ),
        (
            ".DEFAULT DISPLACEMENT,WORD\nTSTL A\nA: NOP\n",
            b"\xD5\xCF\0\0\x01",
            (1, 2),
        ),
        (
            ".default displacement,byte\nTSTL @A\nA: NOP\n",
            b"\xD5\xBF\0\x01",
            (1, 2),
        ),
        (
            ".DEFAULT DISPLACEMENT,BYTE\n.DEFAULT DISPLACEMENT,LONG\nTSTL A\nA: NOP\n",
            b"\xD5\xEF\0\0\0\0\x01",
            (1, 2),
        ),
        // A known place takes the shortest, a written size goes before, and a displacement from a register has its own rule.
        (
            ".DEFAULT DISPLACEMENT,LONG\nA: TSTL A\nTSTL W^A\n",
            b"\xD5\xAF\xFD\xD5\xCF\xF9\xFF",
            (1, 2),
        ),
        (
            ".DEFAULT DISPLACEMENT,BYTE\nTSTL X(R1)\nX=5\n",
            b"\xD5\xC1\x05\0",
            (1, 2),
        ),
        (".REPT 31\n.SAVE\n.ENDR\n.BYTE 1\n", b"\x01", (1, 2)),
        (
            ".REF1 #5\n.REF2 (R1)+\n.REF4 (R2)\n.REF4 #X\nX=7\n.REF1 R3\n",
            b"\x05\x81\x62\x8F\x07\0\0\0\x53",
            (1, 2),
        ),
        (
            ".REF2 #64\n.REF8 #-1\n",
            b"\x8F\x40\0\x8F\xFF\xFF\xFF\xFF\xFF\xFF\xFF\xFF",
            (1, 2),
        ),
        (
            "A: NOP\n.ref4 A\n.REF4 B^4(SP)[R1]\n",
            b"\x01\xAF\xFD\x41\xAE\x04",
            (2, 2),
        ),
        (
            ".CROSS A\n.NOCROSS\n.DEBUG A\n.LIBRARY 'A;B'\n.MCALL $A,$B\n.LINK \"A\"/B\n.TRANSFER A\n.PRINT 1 ;C\n.WARN\n.BYTE 3\n",
            b"\x03",
            (1, 2),
        ),
        // A condition that isn't met leaves a message out.
        (
            ".IF EQ 1\n.ERROR ;no\n.ENDC\n.IIF EQ 1,.ERROR\n.WARN\n.BYTE 4\n",
            b"\x04",
            (5, 2),
        ),
        (
            ".NTYPE T,R5\n.BYTE T\n.NTYPE T,(R1)\n.BYTE T\n.NTYPE T,-(SP)\n.BYTE T\n",
            b"\x55\x61\x7E",
            (1, 2),
        ),
        (
            ".NTYPE T,(R2)+\n.BYTE T\n.ntype T,@(R3)+\n.BYTE T\n.NTYPE T,@(R4)\n.BYTE T\n",
            b"\x82\x93\xB4",
            (1, 2),
        ),
        (
            ".NTYPE A,4(R1)\n.NTYPE B,@W^4(R1)\n.NTYPE C,300(R1)\n.NTYPE D,L^4(R1)\n.BYTE A,B,C,D\n",
            b"\xA1\xD1\xC1\xE1",
            (1, 2),
        ),
        // A short literal, and three ways to be immediate.
        (
            ".NTYPE A,#63\n.NTYPE B,S^#X\n.NTYPE C,#64\n.NTYPE D,I^#5\n.NTYPE E,#X\n.BYTE A,B,C,D,E\nX=1\n",
            b"\0\0\x1F\x1F\x1F",
            (1, 2),
        ),
        // Absolute, general, and relative: a known place is near, and what is to come isn't.
        (
            ".NTYPE A,@#8\n.NTYPE B,G^8\nL: .NTYPE C,L\n.NTYPE D,@L\n.NTYPE E,X\n.NTYPE F,W^X\n.BYTE A,B,C,D,E,F\nX: NOP\n",
            b"\x2F\x3F\xAF\xBF\xEF\xCF\x01",
            (1, 2),
        ),
        (".ENABLE ABSOLUTE\n.NTYPE A,8\n.BYTE A\n", b"\x2F", (1, 2)),
        (
            ".NTYPE A,(R1)[R2]\n.NTYPE B,G^8[R3]\n.NTYPE C,4(R4)[R5]\n.WORD A,B,C\n",
            b"\x42\x61\x43\x3F\x45\xA4",
            (1, 2),
        ),
        (
            "A=7\n.NTYPE A\nB=7\n.NTYPE B,\n.BYTE A,B\n",
            b"\0\0",
            (2, 2),
        ),
        (
            ".MACRO KIND X\n.NTYPE T,X\n.IF EQ T@-4-5\n.BYTE 1\n.IFF\n.BYTE 2\n.ENDC\n.ENDM\nKIND R3\nKIND (R3)\n",
            b"\x01\x02",
            (9, 2),
        ),
        (
            ".IF NDF T\n.NTYPE T,R0\n.ENDC\n.IIF DF T,.BYTE T\n",
            b"\x50",
            (2, 2),
        ),
        (
            ".BLKO\n.BYTE 1\n",
            b"\0\0\0\0\0\0\0\0\0\0\0\0\0\0\0\0\x01",
            (1, 2),
        ),
        (".BLKH 0\n.BYTE 1\n", b"\x01", (1, 2)),
        (
            ".OCTA X,\nX=5\n",
            b"\x05\0\0\0\0\0\0\0\0\0\0\0\0\0\0\0\0\0\0\0\0\0\0\0\0\0\0\0\0\0\0\0",
            (1, 2),
        ),
        (
            ".octa -2[1]\n.BYTE 1\n",
            b"\xFE\xFF\xFF\xFF\xFF\xFF\xFF\xFF\xFF\xFF\xFF\xFF\xFF\xFF\xFF\xFF\x01",
            (1, 2),
        ),
        (
            ".WORD ^MR2,^M SP,^MR0!^M<R3>\n",
            b"\x04\0\0\x40\x09\0",
            (1, 4),
        ),
        (".WORD ^MR2+X\nX=1\n", b"\x05\0", (1, 4)),
        (".ASCID /ab/\n", b"\x02\0\x0E\x01\0\0\0\0ab", (1, 2)),
        (
            "A: .ascid 'a;b' <13> ; c\n.BYTE .-A\n",
            b"\x04\0\x0E\x01\0\0\0\0a;b\x0D\x0C",
            (1, 2),
        ),
    ];
    differ(&rt, alloc, &rows)
}

/// `POPL` lays its opcode 8ED0, the low byte first, and its operand behind it.
#[test]
fn pops_longwords(rt: HostRuntime) -> Result<(), Fail> {
    let alloc = rt.alloc();
    let rows: [(&str, &[u8], (u32, u8)); 17] = [
        ("POPL R3\n", b"\xD0\x8E\x53", (1, 2)),
        ("popl 4(R1)\n", b"\xD0\x8E\xA1\x04", (1, 2)),
        ("POPL @#^X10\n", b"\xD0\x8E\x9F\x10\0\0\0", (1, 2)),
        (
            "POPL (R2)+\nPOPL -(SP)\nPOPL (AP)\n",
            b"\xD0\x8E\x82\xD0\x8E\x7E\xD0\x8E\x6C",
            (1, 2),
        ),
        ("POPL @4(R2)[R3]\n", b"\xD0\x8E\x43\xB2\x04", (1, 2)),
        // A displacement counts from behind its field: at 5 in the first, at 7 in the others.
        ("X: NOP\nPOPL X\n", b"\x01\xD0\x8E\xAF\xFB", (2, 2)),
        ("POPL X\nX: NOP\n", b"\xD0\x8E\xEF\0\0\0\0\x01", (1, 2)),
        ("X: POPL L^X\n", b"\xD0\x8E\xEF\xF9\xFF\xFF\xFF", (1, 2)),
        ("X: POPL R0\nBRB X\n", b"\xD0\x8E\x50\x11\xFB", (1, 2)),
        // `.` is the place of the operand, which stands two bytes behind the statement's.
        ("A: POPL .-A(R1)\n", b"\xD0\x8E\xA1\x02", (1, 2)),
        ("POPL X(R4)\nX=300\n", b"\xD0\x8E\xC4\x2C\x01", (1, 2)),
        (
            ".ENABLE ABSOLUTE\nPOPL 8\n",
            b"\xD0\x8E\x9F\x08\0\0\0",
            (1, 2),
        ),
        (".IIF EQ 0, POPL R1\n", b"\xD0\x8E\x51", (1, 2)),
        ("PUSHL R2\nPOPL R2\n", b"\xDD\x52\xD0\x8E\x52", (2, 2)),
        (
            ".MACRO BACK X\nPOPL X\n.ENDM\nBACK R6\n",
            b"\xD0\x8E\x56",
            (4, 2),
        ),
        // A macro of the name goes before it, and what is defined as a name isn't an operator.
        (".MACRO POPL X\n.BYTE X\n.ENDM\nPOPL 5\n", b"\x05", (0, 0)),
        ("POPL=7\n.BYTE POPL\n", b"\x07", (0, 0)),
    ];
    differ(&rt, alloc, &rows)
}

#[test]
fn finds_faults_of_pops(rt: HostRuntime) {
    let alloc = rt.alloc();
    let rows = [
        ("POPL\n", (1, 3)),
        ("POPL R1,R2\n", (1, 3)),
        ("POPL #5,R1\n", (1, 3)),
        ("POPL #5\n", (1, 4)),
        ("POPL #500\n", (1, 4)),
        ("POPL #X\nX=1\n", (1, 4)),
        ("POPL S^#5\n", (1, 4)),
        ("POPL I^#5\n", (1, 4)),
        ("POPL R1[R2]\n", (1, 4)),
        ("POPL +\n", (1, 4)),
        ("POPL B^300(R1)\n", (1, 7)),
        ("X: NOP\nX: POPL R0\n", (2, 6)),
        ("X: NOP\nX: POPL R0,R1\n", (2, 3)),
        ("POPW R0\n", (1, 2)),
        (".POPL R0\n", (1, 2)),
        (".PSECT X,ABS\nPOPL R0\n", (2, 4)),
        (".PSECT X,OVR\nPOPL R0\n", (2, 4)),
        (".BLKB 1048574\nPOPL R0\n", (2, 11)),
        (".BLKB 1048575\nPOPL R0\n", (2, 11)),
    ];
    are_faulty(&rt, alloc, Dialect::Vms, &rows);
}

#[test]
fn copies_masks_of_entries(rt: HostRuntime) -> Result<(), Fail> {
    let alloc = rt.alloc();
    let rows: [(&str, &[u8], (u32, u8)); 9] = [
        // The mask of an entry before and behind, which bits 2 and 3 are for R2 and R3.
        (".ENTRY F,^M<R2,R3>\n.MASK F\n", b"\x0C\0\x0C\0", (2, 2)),
        (
            ".MASK G\n.mask f\n.ENTRY F,^M<R2,R3>\n.ENTRY G,2\n",
            b"\x02\0\x0C\0\x0C\0\x02\0",
            (1, 2),
        ),
        (
            ".TRANSFER F\n.MASK F,^M<R4>\nJMP L^F+2\n.ENTRY F,^M<R2,R3>\n",
            b"\x1C\0\x17\xEF\x02\0\0\0\x0C\0",
            (1, 2),
        ),
        ("M=^M<R5>\n.ENTRY F,M\n.MASK F\n", b"\x20\0\x20\0", (3, 2)),
        // All of the expression is OR-ed, which may use the name of the entry and local labels of its own block.
        (".ENTRY F,4\n.MASK F,4+4\n", b"\x04\0\x0C\0", (2, 2)),
        (
            ".ENTRY F,12\n.MASK F , X\n.MASK F,F-F\nX=3\n",
            b"\x0C\0\x0F\0\x0C\0",
            (2, 2),
        ),
        (
            "A: .WORD 1\n2$: .WORD 2\n.MASK F,2$-A\n.ENTRY F,8\n",
            b"\x01\0\x02\0\x0A\0\x08\0",
            (3, 2),
        ),
        (".ENTRY F,5\n.MASK F,\n", b"\x05\0\x05\0", (2, 2)),
        (
            ".MACRO VECTOR X\n.MASK X\n.ENDM\nVECTOR F\n.ENTRY F,7\n",
            b"\x07\0\x07\0",
            (4, 2),
        ),
    ];
    differ(&rt, alloc, &rows)
}

#[test]
fn operators_see_32_bits_in_the_larger_one(rt: HostRuntime) -> Result<(), Fail> {
    let alloc = rt.alloc();
    let rows: [(&str, &[u8], &[u8]); 6] = [
        (".LONG ^X80000000/2\n", b"\0\0\0\xC0", b"\0\0\0\x40"),
        (
            ".LONG ^XFFFFFFFF@-4\n",
            b"\xFF\xFF\xFF\xFF",
            b"\xFF\xFF\xFF\x0F",
        ),
        (
            ".IF LT ^X80000000\n.BYTE 1\n.IFF\n.BYTE 2\n.ENDC\n",
            b"\x01",
            b"\x02",
        ),
        (
            "X=^X80000000\n.LONG X\n.BYTE X@-31\n",
            b"\0\0\0\x80\xFF",
            b"\0\0\0\x80\x01",
        ),
        (
            ".QUAD ^X123456789\n",
            b"\x89\x67\x45\x23\x01\0\0\0",
            b"\x89\x67\x45\x23\x01\0\0\0",
        ),
        (
            ".QUAD ^X80000000+0\n",
            b"\0\0\0\x80\xFF\xFF\xFF\xFF",
            b"\0\0\0\x80\0\0\0\0",
        ),
    ];
    for (source, vms, vax) in rows {
        let module = assemble(alloc, Dialect::Vms, source.as_bytes())?;
        assert!(rt; bytes_of(&module) == vms, "{source}");
        let module = assemble(alloc, Dialect::Vax, source.as_bytes())?;
        assert!(rt; bytes_of(&module) == vax, "{source}");
    }
    Ok(())
}

#[test]
fn tells_the_faults_of_the_larger_dialect(rt: HostRuntime) {
    let alloc = rt.alloc();
    let rows = [
        (".ODD 1\n", (1, 3)),
        (".BYTE 300,\n", (1, 7)),
        (".BYTE 1,[X]\nX=1\n", (1, 5)),
        (".BYTE .\n", (1, 4)),
        (".ALIGN .\n", (1, 4)),
        (". = 5\n", (1, 4)),
        (".BYTE 1,2\n. = .-1\n", (2, 7)),
        (".=X\nX: NOP\n", (1, 5)),
        ("A: NOP\n.PSECT B\n.=A\n", (3, 4)),
        (". == .+1\n", (1, 2)),
        (". = .+1048577\n", (1, 11)),
        (".PSECT ,LONG\n", (1, 4)),
        (".BLKO 1,2\n", (1, 3)),
        (".OCTA\n", (1, 3)),
        (".OCTA 18446744073709551616\n", (1, 7)),
        ("A: .OCTA A\n", (1, 4)),
        (".WORD ^MX\nX=1\n", (1, 4)),
        (".WORD ^MPC\n", (1, 4)),
        (".WORD ^M 2\n", (1, 4)),
        (".ASCID\n", (1, 3)),
        (".ASCID /ab\n", (1, 1)),
        (".ASCID X\n", (1, 1)),
        (".ASCID /a/=\n", (1, 4)),
        (".ASCID /a/<256>\n", (1, 7)),
        (".ERROR 1\n", (1, 12)),
        (".error 'x ; no\n", (1, 12)),
        ("A: .ERROR 18446744073709551616\n", (1, 12)),
        ("A: NOP\nA: .ERROR\n", (2, 6)),
        (".ERROR\n.BYTE 300,\n", (1, 12)),
        (".IF EQ 1\n.ERROR\n.ENDC\n.BYTE 300,\n", (4, 7)),
        (".MACRO NO X\n.ERROR X\n.ENDM\nNO 5\n", (4, 12)),
        (".NTYPE\n", (1, 3)),
        (".NTYPE T,R0,R1\n", (1, 3)),
        (".NTYPE 5,R0\n", (1, 4)),
        (".NTYPE .,R0\n", (1, 4)),
        (".NTYPE 1$,R0\n", (1, 4)),
        (".NTYPE T,#\n", (1, 4)),
        (".NTYPE T,R1[R2]\n", (1, 4)),
        (".NTYPE T,B^300(R1)\n", (1, 7)),
        ("T: .NTYPE T,R0\n", (1, 6)),
        (".MASK\n", (1, 3)),
        (".MASK F,1,2\n.ENTRY F,0\n", (1, 3)),
        (".MASK 5\n", (1, 4)),
        (".MASK .\n", (1, 4)),
        (".MASK 1$\n", (1, 4)),
        (".MASK ,4\n", (1, 4)),
        (".MASK F\n", (1, 5)),
        ("F: NOP\n.MASK F\n", (2, 5)),
        ("F=5\n.MASK F,F\n", (2, 5)),
        (".EXTERNAL F\n.MASK F\n", (2, 5)),
        (".MASK F\n.ENTRY F,M\nM=4\n", (1, 5)),
        (".MASK F,1$\n.ENTRY F,4\n", (1, 5)),
        (".ENTRY F,4\n.MASK F,F\n", (2, 4)),
        (".ENTRY F,4\n.MASK F,1+\n", (2, 4)),
        (".ENTRY F,4\n.MASK F,A\n", (2, 4)),
        (".ENTRY F,4\n.MASK F,65536\n", (2, 7)),
        (".ENTRY F,1\n.ENTRY F,2\n", (2, 6)),
        (".REF1\n", (1, 3)),
        (".REF2 R0,R1\n", (1, 3)),
        (".REF1 #256\n", (1, 7)),
        (".REF4 #\n", (1, 4)),
        (".REF16 R0\n", (1, 2)),
        (".ALIGN LONG,256\n", (1, 7)),
        (".ALIGN LONG,\n", (1, 4)),
        (".ALIGN LONG,X\nX=1\n", (1, 5)),
        (".ALIGN LONG,1,2\n", (1, 3)),
        (".ALIGN 10,300\n", (1, 7)),
        (".PSECT A,10\n", (1, 4)),
        (".PSECT A,2,LONG\n.PSECT A,3\n", (2, 4)),
        (".ENABLE\n", (1, 3)),
        (".ENABLE LISTING\n", (1, 4)),
        (".DEFAULT DISPLACEMENT\n", (1, 3)),
        (".DEFAULT DISPLACEMENT,BYTE,WORD\n", (1, 3)),
        (".DEFAULT DISPLACEMENT,QUAD\n", (1, 4)),
        (".DEFAULT SIZE,BYTE\n", (1, 4)),
        (
            ".DEFAULT DISPLACEMENT,BYTE\nTSTL A\n.BLKB 200\nA: NOP\n",
            (2, 7),
        ),
        // Nothing else defines a name that appears while `GLOBAL` is disabled.
        (".DISABLE DEBUG,GLOBAL\n.LONG X\n", (2, 5)),
        (
            ".DSABL GBL\nMOVL X,R0\n.LONG X\n.ENABL GBL\n.LONG Y\n",
            (2, 5),
        ),
        (".DISABLE GLOBAL\nA = X+1\n.LONG A\n", (2, 5)),
        (".DISABLE GLOBAL\nA: .LONG B-A\n.GLOBAL A\n", (2, 5)),
        (".DISABLE GLOBAL\nA: NOP\n.END B\n", (3, 5)),
        // A line's own fault goes before it.
        (".DISABLE GLOBAL\n.LONG X\n.BYTE 256\n", (3, 7)),
        (".ENABL LSB\n1$: NOP\n.DSABL LSB\nA: BRB 1$\n", (4, 5)),
        (".ENABL LSB\n1$: NOP\n1$: NOP\n", (3, 6)),
        (".SAVE_PSECT GLOBAL\n", (1, 4)),
        (".SAVE LOCAL_BLOCK,LOCAL_BLOCK\n", (1, 3)),
        (".REPT 32\n.SAVE\n.ENDR\n", (1, 9)),
        (".RESTORE_PSECT\n", (1, 8)),
        (".SAVE\n.RESTORE\n.RESTORE\n", (3, 8)),
        (".SAVE\n.RESTORE LOCAL_BLOCK\n", (2, 3)),
        ("1$: NOP\n.SAVE\n.PSECT A\n.RESTORE\nBRB 1$\n", (5, 5)),
        (
            "1$: NOP\n.SAVE LOCAL_BLOCK\n.PSECT A\n.RESTORE\n1$: NOP\n",
            (5, 6),
        ),
    ];
    are_faulty(&rt, alloc, Dialect::Vms, &rows);
}

#[test]
fn describes_a_text(rt: HostRuntime) -> Result<(), Fail> {
    let source = b".PSECT A\n.BYTE 1\n.ASCID /ab/\n.IIF NE 1,.ASCID /;/\n";
    let module = assemble(rt.alloc(), Dialect::Vms, source)?;
    let relocs = [(5, 9), (15, 19)];
    assert!(rt; module.relocs.as_slice().len() == relocs.len());
    for (found, (offset, text)) in module.relocs.as_slice().iter().zip(relocs) {
        let wanted = Reloc {
            section: 1,
            offset,
            kind: RelocKind::Long,
            target: Value::Section {
                section: 1,
                offset: text,
            },
        };
        assert!(rt; *found == wanted);
    }
    Ok(())
}

#[test]
fn reads_a_text_of_one_dialect_as_tokens_of_the_other(rt: HostRuntime) {
    let alloc = rt.alloc();
    let rows = [
        (".ASCID /a;b/\n", (1, 2)),
        (".ASCID ^a^\n", (1, 1)),
        (".ASCID \"a\"\n", (1, 2)),
        (".ASCID\n", (1, 2)),
    ];
    are_faulty(&rt, alloc, Dialect::Vax, &rows);
}

#[test]
fn shares_weak_names(rt: HostRuntime) -> Result<(), Fail> {
    let source = b".LONG C\n.WEAK A,B,C\n.EXTERNAL B\nA: .LONG B,D\n";
    let module = assemble(rt.alloc(), Dialect::Vms, source)?;
    assert!(rt; module.globals.as_slice().len() == 1);
    let externals = module.externals.as_slice();
    let wanted: [(&[u8], bool); 3] = [(b"C", true), (b"B", true), (b"D", false)];
    assert!(rt; externals.len() == wanted.len());
    for (found, (name, weak)) in externals.iter().zip(wanted) {
        assert!(rt; found.name.as_slice() == name);
        assert!(rt; found.weak == weak);
    }
    Ok(())
}
