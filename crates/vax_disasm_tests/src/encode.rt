//! Operands as the manual shows them.
use std::alloc::Global;
use std::test::Fail;
use vax_asm_encode::*;
use vax_isa::{Letter, Narrow, OperandKind};
use vax_lex::Value;
use vax_module::RelocKind;
use vax_word::Size;

const READ_LONG: OperandKind = OperandKind {
    letter: Letter::Read,
    width: 4,
};

const BRANCH: OperandKind = OperandKind {
    letter: Letter::Branch,
    width: 1,
};

#[test]
fn writes_operands(rt: HostRuntime) -> Result<(), Fail> {
    let mut out = Vec::new(rt.alloc());
    write_operand(&mut out, READ_LONG, Operand::Literal, 5)?;
    write_operand(&mut out, READ_LONG, Operand::Register(1), 0)?;
    write_operand(&mut out, READ_LONG, Operand::Immediate, 0x12345678)?;
    let size = Narrow::B;
    let place = Base::Displaced { size, register: 2 };
    let less_one = fill(Field::Displacement(size), 0, 0, Value::Absolute(-1))?;
    write_operand(
        &mut out,
        READ_LONG,
        Operand::Indexed(place, 3),
        less_one.number,
    )?;
    write_operand(
        &mut out,
        READ_LONG,
        Operand::Memory(Base::Absolute),
        0x80000200,
    )?;
    let branch = fill(
        Field::Relative(size),
        0,
        1,
        Value::Section {
            section: 0,
            offset: 0,
        },
    )?;
    write_operand(&mut out, BRANCH, Operand::Branch, branch.number)?;
    write_number(&mut out, 2, 0x123456)?;
    let expected = [
        0x05, 0x51, 0x8F, 0x78, 0x56, 0x34, 0x12, 0x43, 0xA2, 0xFF, 0x9F, 0x00, 0x02, 0x00, 0x80,
        0xFE, 0x56, 0x34,
    ];
    assert!(rt; out.as_slice() == expected.as_slice());
    Ok(())
}

#[test]
fn stands_by_the_manual(rt: HostRuntime) {
    let written = OperandKind {
        letter: Letter::Write,
        width: 8,
    };
    let address = OperandKind {
        letter: Letter::Address,
        width: 1,
    };
    let rows = [
        (written, Operand::Literal, false),
        (written, Operand::Immediate, false),
        (written, Operand::Register(14), false),
        (written, Operand::Register(13), true),
        (address, Operand::Register(1), false),
        (address, Operand::Immediate, true),
        (READ_LONG, Operand::Memory(Base::Increment(15)), false),
        (READ_LONG, Operand::Indexed(Base::Increment(2), 2), false),
        (READ_LONG, Operand::Indexed(Base::Deferred(2), 2), true),
        (READ_LONG, Operand::Indexed(Base::Absolute, 15), false),
    ];
    for (i, (kind, operand, may)) in rows.into_iter().enumerate() {
        assert!(rt; may_stand(kind, operand) == may, "row {i}");
    }
    assert!(rt; field_of(READ_LONG, Operand::Immediate) == Some(Field::Number(Size::L)));
    assert!(rt; field_of(BRANCH, Operand::Branch) == Some(Field::Relative(Narrow::B)));
}

const fn number(number: u64) -> Result<Filled, FieldFault> {
    Ok(Filled {
        number,
        reloc: None,
    })
}

const fn linked(kind: RelocKind) -> Result<Filled, FieldFault> {
    Ok(Filled {
        number: 0,
        reloc: Some(kind),
    })
}

#[test]
fn fills_fields(rt: HostRuntime) {
    let place = Value::Section {
        section: 1,
        offset: 0,
    };
    let relative = Field::Relative(Narrow::B);
    let displacement = Field::Displacement(Narrow::W);
    let rows = [
        // a branch from just past 128 and 129
        (relative, (1, 127), place, number(0xFFFF_FF80)),
        (relative, (1, 128), place, Err(FieldFault::Range)),
        (relative, (2, 128), place, linked(RelocKind::RelByte)),
        (
            Field::Number(Size::B),
            (0, 0),
            Value::Absolute(255),
            number(255),
        ),
        (
            Field::Number(Size::B),
            (0, 0),
            Value::Absolute(256),
            Err(FieldFault::Range),
        ),
        (
            Field::Number(Size::W),
            (0, 0),
            Value::Absolute(-32768),
            number(0x8000),
        ),
        (Field::Number(Size::W), (0, 0), place, Err(FieldFault::Form)),
        (
            Field::Number(Size::L),
            (0, 0),
            place,
            linked(RelocKind::Long),
        ),
        (
            Field::Number(Size::Q),
            (0, 0),
            Value::Absolute(-1),
            number(u64::MAX),
        ),
        (
            Field::Signed(Size::B),
            (0, 0),
            Value::Absolute(127),
            number(127),
        ),
        (
            Field::Signed(Size::B),
            (0, 0),
            Value::Absolute(128),
            Err(FieldFault::Range),
        ),
        (
            Field::Signed(Size::B),
            (0, 0),
            Value::Absolute(-128),
            number(0x80),
        ),
        (
            Field::Signed(Size::W),
            (0, 0),
            Value::Absolute(-32768),
            number(0x8000),
        ),
        (
            Field::Signed(Size::W),
            (0, 0),
            Value::Absolute(32768),
            Err(FieldFault::Range),
        ),
        (Field::Signed(Size::W), (0, 0), place, Err(FieldFault::Form)),
        (
            displacement,
            (0, 0),
            Value::Absolute(32768),
            Err(FieldFault::Range),
        ),
        (displacement, (0, 0), place, linked(RelocKind::Word)),
        (
            Field::Literal,
            (0, 0),
            Value::Absolute(64),
            Err(FieldFault::Range),
        ),
    ];
    for (i, (field, (section, at), value, want)) in rows.into_iter().enumerate() {
        assert!(rt; at < 1000, "row {i}");
        assert!(rt; fill(field, section, at, value) == want, "row {i}");
    }
}
