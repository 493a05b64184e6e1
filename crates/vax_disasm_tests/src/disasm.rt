//! Texts of instructions, and instructions of every opcode and mode that are decoded and assembled again. Expected texts are worked by hand
//! from the tables of the VAX MACRO and Instruction Set Reference Manual.
use std::alloc::Global;
use std::test::Fail;
use vax_asm::assemble;
use vax_dialect::Dialect;
use vax_disasm::decode;
use vax_isa::{Letter, OperandKind, Row, by_code};
use vax_module::{Module, Value};

/// Bytes and where they stand, with the length and the text of the instruction that they are.
const DECODED: [(&[u8], u32, u8, &[u8]); 17] = [
    (&[0xD0, 5, 0x51, 0], 0x8000_0200, 3, b"MOVL S^#^X05,R1"),
    (&[0], 0, 1, b"HALT"),
    (&[0xD4, 0x5C], 0, 2, b"CLRL AP"),
    (
        &[0xB0, 0x8F, 0x34, 0x12, 0x6D],
        0,
        5,
        b"MOVW I^#^X1234,(FP)",
    ),
    (
        &[0x7D, 0x8F, 1, 2, 3, 4, 5, 6, 7, 0xF8, 0x7E],
        0,
        11,
        b"MOVQ I^#^XF807060504030201,-(SP)",
    ),
    (&[0x90, 0x81, 0x92], 0, 3, b"MOVB (R1)+,@(R2)+"),
    (
        &[0x17, 0x9F, 0x78, 0x56, 0x34, 0x92],
        0,
        6,
        b"JMP @#^X92345678",
    ),
    (&[0xD5, 0xA1, 0xFB], 0, 3, b"TSTL B^-5(R1)"),
    (&[0xD5, 0xB1, 0x7F], 0, 3, b"TSTL @B^127(R1)"),
    (&[0xD5, 0xCF, 0, 0x80], 0, 4, b"TSTL W^-32768(PC)"),
    (
        &[0xD5, 0xFB, 0, 0, 0, 0x80],
        0,
        6,
        b"TSTL @L^-2147483648(R11)",
    ),
    (
        &[0xD5, 0x4B, 0xFB, 0, 0, 0, 0x80],
        0,
        7,
        b"TSTL @L^-2147483648(R11)[R11]",
    ),
    (&[0xD5, 0x42, 0x61], 0, 3, b"TSTL (R1)[R2]"),
    (&[0x11, 0xFE], 0, 2, b"BRB ^X00000000"),
    (&[0x31, 0xFB, 0xFF], 0, 3, b"BRW ^XFFFFFFFE"),
    (&[0x1F, 0x10], 0x8000_0200, 2, b"BCS ^X80000212"),
    (
        &[0xE0, 3, 0x52, 0xFC],
        0xFFFF_FFFE,
        4,
        b"BBS S^#^X03,R2,^XFFFFFFFE",
    ),
];

#[test]
fn decodes_forms(rt: HostRuntime) {
    for (bytes, addr, length, text) in DECODED {
        let decoded = decode(bytes, addr);
        assert!(rt;
            matches!(&decoded, Some(d) if d.length == length && d.text.as_str().as_bytes() == text),
            "the instruction of {length} bytes at {addr:08X}"
        );
    }
}

#[test]
fn decodes_no_others(rt: HostRuntime) {
    let rows: [&[u8]; 9] = [
        // Nothing, a reserved opcode, and an instruction that is cut short.
        &[],
        &[0x57],
        &[0xD0, 5],
        &[0xD5, 0xC1, 0],
        // Reserved addressing modes: a literal for a result, PC, an index of a register, and a quadword in SP.
        &[0xD4, 5],
        &[0xD5, 0x5F],
        &[0xD5, 0x42, 0x51],
        &[0xD5, 0x42, 0x82],
        &[0x7C, 0x5E],
    ];
    for (i, bytes) in rows.into_iter().enumerate() {
        assert!(rt; decode(bytes, 0).is_none(), "row {i}");
    }
}

/// The bytes of a module's first section where that lies at an address, with the distances of its branches.
fn bytes_at(alloc: Global, module: &Module, addr: u32) -> Result<Vec<u8>, Fail> {
    let Some(section) = module.sections.as_slice().first() else {
        return Err(Fail::from("no section"));
    };
    let mut out = Vec::new(alloc);
    out.extend_from_slice(section.bytes.as_slice())?;
    for reloc in module.relocs.as_slice() {
        let Value::Absolute(target) = reloc.target else {
            return Err(Fail::from("no number"));
        };
        let Ok(target) = u32::try_from(target) else {
            return Err(Fail::from("no address"));
        };
        let width = reloc.kind.width();
        let past = addr
            .wrapping_add(reloc.offset)
            .wrapping_add(u32::from(width));
        let distance = target.wrapping_sub(past).to_le_bytes();
        for (place, byte) in distance.iter().enumerate() {
            let at = (reloc.offset as usize).wrapping_add(place);
            if let Some(field) = out.get_mut(at)
                && place < width as usize
            {
                *field = *byte;
            }
        }
    }
    Ok(out)
}

/// Whether an instruction begins the bytes. Its text is assembled again.
fn comes_back(alloc: Global, bytes: &[u8], addr: u32) -> Result<bool, Fail> {
    let Some(decoded) = decode(bytes, addr) else {
        return Ok(false);
    };
    let mut source = Vec::new(alloc);
    source.extend_from_slice(decoded.text.as_str().as_bytes())?;
    source.push(b'\n')?;
    let module = assemble(alloc, Dialect::Vax, source.as_slice())?;
    let out = bytes_at(alloc, &module, addr)?;
    match bytes.get(..decoded.length as usize) {
        Some(first) if first == out.as_slice() => Ok(true),
        _ => Err(Fail::from("other bytes")),
    }
}

/// Specifiers of each mode; an immediate has its bytes added.
const FORMS: [&[u8]; 29] = [
    &[0x00],
    &[0x3F],
    &[0x50],
    &[0x5D],
    &[0x5E],
    &[0x61],
    &[0x7E],
    &[0x83],
    &[0x8F],
    &[0x94],
    &[0x9F, 0xFE, 0xCA, 0x00, 0x80],
    &[0xA1, 0x7F],
    &[0xAF, 0x80],
    &[0xB2, 0xFF],
    &[0xBF, 0x00],
    &[0xC3, 0xFF, 0x7F],
    &[0xCF, 0x00, 0x80],
    &[0xD4, 0x01, 0x00],
    &[0xDF, 0xFF, 0xFF],
    &[0xE5, 0xFF, 0xFF, 0xFF, 0x7F],
    &[0xEF, 0x00, 0x00, 0x00, 0x80],
    &[0xF6, 0x00, 0x00, 0x00, 0x00],
    &[0xFF, 0x39, 0x30, 0x00, 0x00],
    &[0x4E, 0x67],
    &[0x41, 0x78],
    &[0x42, 0x89],
    &[0x43, 0x9A],
    &[0x44, 0x9F, 0x00, 0x02, 0x00, 0x80],
    &[0x45, 0xFB, 0x15, 0xCD, 0x5B, 0x87],
];

fn push_operand(out: &mut Vec<u8>, kind: OperandKind, form: &[u8]) -> Result<(), Fail> {
    if !matches!(kind.letter, Letter::Branch) {
        out.extend_from_slice(form)?;
    }
    if matches!(kind.letter, Letter::Branch) || form == [0x8F].as_slice() {
        let bytes: [u8; 8] = [0xF3, 0xFF, 0x91, 0x02, 0xA4, 0x55, 0x06, 0xC7];
        for byte in &bytes {
            if (out.len() as u64) < 100 {
                out.push(*byte)?;
            }
        }
    }
    Ok(())
}

/// How many instructions of a row there are whose operand at a place is in one of the modes.
fn count_row(alloc: Global, row: Row, place: usize) -> Result<u32, Fail> {
    let mut count: u32 = 0;
    for form in &FORMS {
        let mut bytes = Vec::new(alloc);
        bytes.push(row.code)?;
        for (at, kind) in row.operands.iter().enumerate() {
            let form = if at == place { *form } else { b"\x61" };
            push_operand(&mut bytes, *kind, form)?;
        }
        if comes_back(alloc, &bytes, 0x8000_0200)? {
            count = count.saturating_add(1);
        }
    }
    Ok(count)
}

#[test]
fn every_mode_comes_back(rt: HostRuntime) -> Result<(), Fail> {
    let alloc = rt.alloc();
    let mut count: u32 = 0;
    for code in 0..=255 {
        if let Some(row) = by_code(code) {
            for place in 0..6 {
                count = count.saturating_add(count_row(alloc, row, place)?);
            }
        }
    }
    assert!(rt; count >= 2000);
    Ok(())
}
