//! The table against the manual's lists, which are written out here (VAX MACRO and Instruction Set Reference Manual,
//! instruction summary), and what names are found.

use std::process::Abort;
use std::test::Fail;
use vax_isa::{Letter, OperandKind, Row, by_code, by_name};

/// The names by opcode, sixteen a line. The empty text stands for a reserved opcode.
#[rattlefmt::skip]
static NAMES: [&str; 256] = [
    // 0x00
    "HALT", "NOP", "REI", "BPT", "RET", "RSB", "", "",
    "", "", "INDEX", "", "PROBER", "PROBEW", "INSQUE", "REMQUE",
    // 0x10
    "BSBB", "BRB", "BNEQ", "BEQL", "BGTR", "BLEQ", "JSB", "JMP",
    "BGEQ", "BLSS", "BGTRU", "BLEQU", "BVC", "BVS", "BCC", "BCS",
    // 0x20
    "", "", "", "", "", "", "", "",
    "MOVC3", "CMPC3", "SCANC", "SPANC", "MOVC5", "CMPC5", "MOVTC", "MOVTUC",
    // 0x30
    "BSBW", "BRW", "CVTWL", "CVTWB", "", "", "", "",
    "", "MATCHC", "LOCC", "SKPC", "MOVZWL", "ACBW", "MOVAW", "PUSHAW",
    // 40: floating point
    "", "", "", "", "", "", "", "", "", "", "", "", "", "", "", "",
    // 50: floating point, ADAWI, and the interlocked queues
    "", "", "", "", "", "", "", "", "ADAWI", "", "", "", "", "", "", "",
    // 60: floating point
    "", "", "", "", "", "", "", "", "", "", "", "", "", "", "", "",
    // 0x70
    "", "", "", "", "", "", "", "", "ASHL", "ASHQ", "EMUL", "EDIV", "CLRQ", "MOVQ", "MOVAQ", "PUSHAQ",
    // 0x80
    "ADDB2", "ADDB3", "SUBB2", "SUBB3", "MULB2", "MULB3", "DIVB2", "DIVB3",
    "BISB2", "BISB3", "BICB2", "BICB3", "XORB2", "XORB3", "MNEGB", "CASEB",
    // 0x90
    "MOVB", "CMPB", "MCOMB", "BITB", "CLRB", "TSTB", "INCB", "DECB",
    "CVTBL", "CVTBW", "MOVZBL", "MOVZBW", "ROTL", "ACBB", "MOVAB", "PUSHAB",
    // 0xA0
    "ADDW2", "ADDW3", "SUBW2", "SUBW3", "MULW2", "MULW3", "DIVW2", "DIVW3",
    "BISW2", "BISW3", "BICW2", "BICW3", "XORW2", "XORW3", "MNEGW", "CASEW",
    // 0xB0
    "MOVW", "CMPW", "MCOMW", "BITW", "CLRW", "TSTW", "INCW", "DECW",
    "BISPSW", "BICPSW", "POPR", "PUSHR", "CHMK", "CHME", "CHMS", "CHMU",
    // 0xC0
    "ADDL2", "ADDL3", "SUBL2", "SUBL3", "MULL2", "MULL3", "DIVL2", "DIVL3",
    "BISL2", "BISL3", "BICL2", "BICL3", "XORL2", "XORL3", "MNEGL", "CASEL",
    // 0xD0
    "MOVL", "CMPL", "MCOML", "BITL", "CLRL", "TSTL", "INCL", "DECL",
    "ADWC", "SBWC", "MTPR", "MFPR", "MOVPSL", "PUSHL", "MOVAL", "PUSHAL",
    // 0xE0
    "BBS", "BBC", "BBSS", "BBCS", "BBSC", "BBCC", "BBSSI", "BBCCI",
    "BLBS", "BLBC", "FFS", "FFC", "CMPV", "CMPZV", "EXTV", "EXTZV",
    // 0xF0
    "INSV", "ACBL", "AOBLSS", "AOBLEQ", "SOBGEQ", "SOBGTR", "CVTLB", "CVTLW",
    "", "", "CALLG", "CALLS", "XFC", "", "", "",
];

/// Operands of instructions in the manual's notation: each one's letter and width.
#[rattlefmt::skip]
static NOTATIONS: [(&str, &str); 69] = [
    ("HALT", ""), ("RET", ""), ("XFC", ""),
    ("INDEX", "rl rl rl rl rl wl"),
    ("PROBER", "rb rw ab"), ("PROBEW", "rb rw ab"),
    ("INSQUE", "ab ab"), ("REMQUE", "ab wl"),
    ("BRB", "bb"), ("BRW", "bw"), ("BSBB", "bb"), ("BSBW", "bw"), ("BCS", "bb"),
    ("JSB", "ab"), ("JMP", "ab"),
    ("MOVC3", "rw ab ab"), ("CMPC3", "rw ab ab"), ("SCANC", "rw ab ab rb"), ("SPANC", "rw ab ab rb"),
    ("MOVC5", "rw ab rb rw ab"), ("CMPC5", "rw ab rb rw ab"),
    ("MOVTC", "rw ab rb ab rw ab"), ("MOVTUC", "rw ab rb ab rw ab"),
    ("MATCHC", "rw ab rw ab"), ("LOCC", "rb rw ab"), ("SKPC", "rb rw ab"),
    ("CVTWL", "rw wl"), ("CVTWB", "rw wb"), ("CVTBL", "rb wl"), ("CVTBW", "rb ww"), ("CVTLB", "rl wb"), ("CVTLW", "rl ww"),
    ("MOVZWL", "rw wl"), ("MOVZBL", "rb wl"), ("MOVZBW", "rb ww"),
    ("ADAWI", "rw mw"), ("ASHL", "rb rl wl"), ("ASHQ", "rb rq wq"), ("ROTL", "rb rl wl"),
    ("EMUL", "rl rl rl wq"), ("EDIV", "rl rq wl wl"),
    ("CLRQ", "wq"), ("MOVQ", "rq wq"), ("MOVAQ", "aq wl"), ("PUSHAQ", "aq"),
    ("ADDB2", "rb mb"), ("DIVW3", "rw rw ww"), ("BICL2", "rl ml"), ("MNEGW", "rw ww"), ("CASEB", "rb rb rb"),
    ("ACBB", "rb rb mb bw"), ("ACBW", "rw rw mw bw"), ("ACBL", "rl rl ml bw"),
    ("TSTL", "rl"), ("CLRB", "wb"), ("INCW", "mw"), ("MOVAW", "aw wl"), ("PUSHAL", "al"),
    ("POPR", "rw"), ("CHMK", "rw"), ("ADWC", "rl ml"), ("MTPR", "rl rl"), ("MFPR", "rl wl"),
    ("BBSSI", "rl vb bb"), ("BLBC", "rl bb"), ("EXTZV", "rl rb vb wl"), ("CMPV", "rl rb vb rl"), ("INSV", "rl rl rb vb"),
    ("AOBLEQ", "rl ml bb"),
];

fn letter_of(kind: OperandKind) -> u8 {
    match kind.letter {
        Letter::Read => b'r',
        Letter::Modify => b'm',
        Letter::Write => b'w',
        Letter::Address => b'a',
        Letter::Field => b'v',
        Letter::Branch => b'b',
    }
}

fn width_of(kind: OperandKind) -> u8 {
    match kind.width {
        1 => b'b',
        2 => b'w',
        4 => b'l',
        8 => b'q',
        _ => b'?',
    }
}

fn is_noted(row: &Row, notation: &str) -> bool {
    let notes = notation.as_bytes();
    let mut same = (notes.len() + 1) / 3 == row.count as usize;
    for (k, kind) in row.operands.iter().enumerate() {
        if k < row.count as usize {
            same &= notes.get(3 * k) == Some(&letter_of(*kind));
            same &= notes.get(3 * k + 1) == Some(&width_of(*kind));
        } else {
            same &= *kind
                == OperandKind {
                    letter: Letter::Read,
                    width: 0,
                };
        }
    }
    same
}

#[test]
fn each_opcode_has_the_manuals_name(rt: HostRuntime) {
    for code in 0..256usize {
        let row = by_code(code as u8);
        let name = row.map_or("", |row| row.name);
        assert!(rt; name == NAMES[code], "at {code:02X}");
        assert!(rt; row.is_some() == !name.is_empty());
        if let Some(row) = row {
            assert!(rt; row.code as usize == code);
            assert!(rt; by_name(row.name) == Some(row));
        }
    }
    let count = NAMES.iter().filter(|name| !name.is_empty()).count();
    assert!(rt; count == 178);
}

#[test]
fn operands_are_the_manuals(rt: HostRuntime) {
    for (name, notation) in &NOTATIONS {
        let row = by_name(name);
        assert!(rt; row.is_some_and(|row| is_noted(&row, notation)), "{name}");
    }
}

#[test]
fn a_quadword_move(rt: HostRuntime) {
    let none = OperandKind {
        letter: Letter::Read,
        width: 0,
    };
    let source = OperandKind {
        letter: Letter::Read,
        width: 8,
    };
    let destination = OperandKind {
        letter: Letter::Write,
        width: 8,
    };
    let row = Row {
        code: 0x7D,
        name: "MOVQ",
        count: 2,
        operands: [source, destination, none, none, none, none],
    };
    assert!(rt; by_code(0x7D) == Some(row));
    assert!(rt; by_name("movq") == Some(row));
}

/// What opcodes names have.
fn test_codes(rt: &impl Abort, rows: &[(&str, Option<u8>)]) {
    for (name, code) in rows {
        assert!(rt; by_name(name).map(|row| row.code) == *code, "{name}");
    }
}

#[test]
fn names_in_either_case(rt: HostRuntime) {
    let rows = [
        ("MOVL", Some(0xD0)),
        ("movl", Some(0xD0)),
        ("MovTuc", Some(0x2F)),
        ("halt", Some(0)),
    ];
    test_codes(&rt, &rows);
}

/// Other names of instructions, and the names that their rows have.
static ALIASES: [(&str, &str); 13] = [
    ("BNEQU", "BNEQ"),
    ("BEQLU", "BEQL"),
    ("BGEQU", "BCC"),
    ("BLSSU", "BCS"),
    ("CLRF", "CLRL"),
    ("CLRD", "CLRQ"),
    ("CLRG", "CLRQ"),
    ("MOVAF", "MOVAL"),
    ("MOVAD", "MOVAQ"),
    ("MOVAG", "MOVAQ"),
    ("PUSHAF", "PUSHAL"),
    ("PUSHAD", "PUSHAQ"),
    ("PUSHAG", "PUSHAQ"),
];

#[test]
fn aliases(rt: HostRuntime) -> Result<(), Fail> {
    for (alias, name) in &ALIASES {
        // the row has the first name, whichever it was found by
        let row = by_name(name);
        assert!(rt; row.is_some_and(|row| row.name == *name), "{name}");
        assert!(rt; by_name(alias) == row, "{alias}");
        let small = alias.to_ascii_lowercase(rt.alloc())?;
        assert!(rt; by_name(small.as_str()) == row, "{small}");
    }
    let rows = [
        ("BNEQU", Some(0x12)),
        ("BEQLU", Some(0x13)),
        ("BGEQU", Some(0x1E)),
        ("BLSSU", Some(0x1F)),
        ("blssu", Some(0x1F)),
        ("CLRF", Some(0xD4)),
        ("clrd", Some(0x7C)),
        ("ClrG", Some(0x7C)),
        ("movaf", Some(0xDE)),
        ("MOVAD", Some(0x7E)),
        ("MOVAG", Some(0x7E)),
        ("PUSHAF", Some(0xDF)),
        ("pushad", Some(0x7F)),
        ("PUSHAG", Some(0x7F)),
        // what works on floating point alone is none of them
        ("TSTF", None),
        ("MOVF", None),
        ("CLRH", None),
    ];
    test_codes(&rt, &rows);
    Ok(())
}

#[test]
fn unknown_names(rt: HostRuntime) {
    let rows = [
        ("", None),
        ("MOV", None),
        ("MOVLL", None),
        (" MOVL", None),
        ("BNEQUU", None),
        ("ADDF2", None),
        ("LDPCTX", None),
    ];
    test_codes(&rt, &rows);
}

#[test]
fn reserved_opcodes(rt: HostRuntime) {
    let codes = [
        // the prefixes of two-byte opcodes
        0xFD, 0xFE, 0xFF, // ADDF2, MOVF, ADDD2, MOVD
        0x40, 0x50, 0x60, 0x70, // LDPCTX, SVPCTX, CRC, ADDP4, EDITPC, INSQHI
        0x06, 0x07, 0x0B, 0x20, 0x38, 0x5C,
    ];
    for code in codes {
        assert!(rt; by_code(code).is_none(), "{code:X}");
    }
}
