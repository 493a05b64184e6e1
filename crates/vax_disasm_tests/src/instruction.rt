//! Statements of instructions. The bytes are the manual's.
ghost use Rattle.std.specs.Prelude.{◌<◌, ◌≤◌, ◌+◌, ◌^◌, IfOk};
ghost use Rattle.vax_asm_encode.specs.Bytes.{HoldsIn};

use std::alloc::Global;
use std::rc::Rc;
use std::test::Fail;
use vax_asm_encode::{Field, Operand, field_of, fill, write_operand};
use vax_asm_first::{Content, FaultKind, Filling, Fixup, Origin, Refused, Standing};
use vax_asm_instruction::*;
use vax_asm_sections::Piece;
use vax_dialect::Dialect;
use vax_isa::by_name;
use vax_lex::{Value, scan};

/// Carries out a statement of the instruction with a name.
fn state(
    standing: &mut Standing,
    alloc: Global,
    name: &str,
    text: &[u8],
) -> Result<Result<(), Refused>, Fail> {
    let Some(row) = by_name(name) else {
        return Err(Fail::from("no such instruction"));
    };
    if text.len() > 1024 {
        return Err(Fail::from("a long line"));
    }
    let tokens = scan(alloc, text)?;
    if tokens.is_empty() || tokens.len() > 1024 {
        return Err(Fail::from("no such statement"));
    }
    let line = Rc::new(alloc, text.to_vec(alloc)?)?;
    let origin = Origin { line: 1, place: 1 };
    Ok(instruction(standing, alloc, origin, &line, &row, &tokens[1..]))
}

/// What a field of the first section holds.
fn number_in(
    standing: &Standing,
    field: Option<Field>,
    at: u32,
    filling: &Filling,
) -> Result<u64, Fail>
    requires { at + 4 < 2 ^ 32 }
    ensures { IfOk result (λ n. HoldsIn field n) }
{
    let Some(field) = field else {
        return Ok(0);
    };
    let value = match filling {
        Filling::Known(value) => *value,
        Filling::Later(expression) => match standing.scope.evaluate(expression) {
            Ok(value) => value,
            Err(_) => return Err(Fail::from("no value")),
        },
    };
    let Ok(filled) = fill(field, 0, at, value) else {
        return Err(Fail::from("a value that doesn't fit"));
    };
    Ok(filled.number)
}

/// Where the field of an operand begins that begins at a place.
fn field_at(operand: Operand, at: u32) -> u32
    requires { at + 6 < 2 ^ 32 }
    ensures { result ≤ at + 2 }
{
    match operand {
        Operand::Branch => at,
        Operand::Indexed(_, _) => at + 2,
        Operand::Literal | Operand::Register(_) | Operand::Immediate | Operand::Memory(_) => at + 1,
    }
}

/// Appends the bytes of an operand.
fn write(standing: &Standing, fixup: &Fixup, out: &mut Vec<u8>) -> Result<(), Fail> {
    let Content::Operand { kind, operand } = fixup.content else {
        return Err(Fail::from("no operand"));
    };
    let at = field_at(operand, fixup.at);
    let number = number_in(standing, field_of(kind, operand), at, &fixup.filling)?;
    Ok(write_operand(out, kind, operand, number)?)
}

/// The bytes of the first section.
fn bytes_of(standing: &Standing, alloc: Global) -> Result<Vec<u8>, Fail> {
    let mut out = Vec::new(alloc);
    for piece in &standing.layout.current().pieces {
        match piece {
            Piece::Zeros(_) => return Err(Fail::from("no instruction")),
            Piece::Bytes(bytes) => out.extend_from_slice(bytes)?,
            Piece::Field(fixup) => write(standing, fixup, &mut out)?,
        }
    }
    Ok(out)
}

fn place(offset: i64) -> Value {
    Value::Section { section: 0, offset }
}

/// Carries out statements one behind another, each with the bytes that it should have; all bytes that they should have.
/// `BACK` and `R1` are 0, `LATER` is behind them all, and `N` is 7, told last of all.
fn state_all(
    standing: &mut Standing,
    alloc: Global,
    rows: &[(&str, &[u8], &[u8])],
) -> Result<Vec<u8>, Fail> {
    standing.scope.label(alloc, b"BACK", place(0))?;
    standing.scope.label(alloc, b"R1", place(0))?;
    let mut expected = Vec::new(alloc);
    for (name, text, bytes) in rows {
        if state(standing, alloc, name, text)?.is_err() {
            return Err(Fail::from("a statement with a fault"));
        }
        expected.extend_from_slice(bytes)?;
    }
    let end = i64::from(standing.section_size());
    standing.scope.label(alloc, b"LATER", place(end))?;
    standing.scope.label(alloc, b"N", Value::Absolute(7))?;
    Ok(expected)
}

#[test]
fn instructions_are_as_in_the_manual(rt: HostRuntime) -> Result<(), Fail> {
    let alloc = rt.alloc();
    let mut standing = Standing::new(alloc, Dialect::Vax)?;
    let rows: [(&str, &[u8], &[u8]); 16] = [
        ("MOVL", b"MOVL #5,R1", b"\xD0\x05\x51"),
        ("MOVL", b"movl #64,(R7)", b"\xD0\x8F\x40\0\0\0\x67"),
        (
            "MOVB",
            b"MOVB @(R2)[R3],@#8",
            b"\x90\x43\xB2\0\x9F\x08\0\0\0",
        ),
        (
            "ADDL3",
            b"ADDL3 127(R1),128(R1),-(SP)",
            b"\xC1\xA1\x7F\xC1\x80\0\x7E",
        ),
        (
            "MOVL",
            b"MOVL 40000(R1),@W^4(R2)",
            b"\xD0\xE1\x40\x9C\0\0\xD2\x04\0",
        ),
        ("BRB", b"BRB BACK", b"\x11\xDB"),
        ("MOVL", b"MOVL BACK,R0", b"\xD0\xAF\xD8\x50"),
        ("MOVL", b"MOVL @BACK[R1],R0", b"\xD0\x41\xBF\xD3\x50"),
        ("JMP", b"JMP G^BACK", b"\x17\xEF\xCC\xFF\xFF\xFF"),
        ("BRB", b"BRB R1", b"\x11\xCA"),
        (
            "MOVQ",
            b"MOVQ I^#1,(R2)+",
            b"\x7D\x8F\x01\0\0\0\0\0\0\0\x82",
        ),
        ("ADDL3", b"ADDL3 S^#N,#N,R2", b"\xC1\x07\x8F\x07\0\0\0\x52"),
        ("MOVL", b"MOVL N(R1),@(R2)+", b"\xD0\xC1\x07\0\x92"),
        ("BRW", b"BRW LATER", b"\x31\x08\0"),
        ("MOVL", b"MOVL LATER,R0", b"\xD0\xEF\x02\0\0\0\x50"),
        ("HALT", b"HALT", b"\0"),
    ];
    let expected = state_all(&mut standing, alloc, &rows)?;
    let bytes = bytes_of(&standing, alloc)?;
    assert!(rt; bytes.as_slice() == expected.as_slice());
    Ok(())
}

/// Carries out one statement behind so many zero bytes.
fn state_behind(
    alloc: Global,
    zeros: u32,
    name: &str,
    text: &[u8],
) -> Result<Result<(), Refused>, Fail> {
    let mut standing = Standing::new(alloc, Dialect::Vax)?;
    standing.put(zeros, Piece::Zeros(zeros))?;
    standing.scope.label(alloc, b"BACK", place(0))?;
    standing.scope.label(alloc, b"NEAR", place(1_048_449))?;
    state(&mut standing, alloc, name, text)
}

/// Of several faults the one with the lowest number counts.
#[test]
fn faults_of_instructions(rt: HostRuntime) -> Result<(), Fail> {
    let alloc = rt.alloc();
    let rows: [(u32, &str, &[u8], FaultKind); 18] = [
        (0, "MOVL", b"MOVL #5", FaultKind::Count),
        (0, "MOVL", b"MOVL ,R1", FaultKind::Form),
        (0, "HALT", b"HALT ,", FaultKind::Count),
        (0, "MOVL", b"MOVL R1,#5", FaultKind::Form),
        (0, "MOVL", b"MOVL #4294967296,#5", FaultKind::Form),
        (0, "MOVL", b"MOVL #4294967296,R1", FaultKind::Range),
        (0, "MOVB", b"MOVB S^#64,R1", FaultKind::Range),
        (0, "MOVB", b"MOVB B^128(R1),R1", FaultKind::Range),
        (0, "MOVW", b"MOVW #BACK,R1", FaultKind::Form),
        (0, "MOVL", b"MOVL R1[R2],R3", FaultKind::Form),
        (0, "MOVL", b"MOVL (R1)+[R1],R3", FaultKind::Form),
        (0, "MOVL", b"MOVL #.,R3", FaultKind::Form),
        (0, "MOVL", b"MOVL X/0(R1),R3", FaultKind::Range),
        (0, "BRB", b"BRB #5", FaultKind::Form),
        (0, "BRB", b"BRB X/0", FaultKind::Range),
        (127, "BRB", b"BRB BACK", FaultKind::Range),
        (1_048_574, "MOVL", b"MOVL #5,R1", FaultKind::Large),
        // the branch would be out of reach where it would stand
        (1_048_574, "BLBC", b"BLBC B^4(R1),NEAR", FaultKind::Range),
    ];
    for (zeros, name, text, kind) in rows {
        let stated = state_behind(alloc, zeros, name, text)?;
        assert!(rt; stated == Err(Refused::Fault(kind)), "{name}");
    }
    Ok(())
}
