//! Statements and operands as the manual shows them.
ghost use Rattle.std.specs.Prelude.{◌≤◌, length};

use std::alloc::Global;
use std::test::Fail;
use vax_asm_encode::{Base, DataKind, Operand};
use vax_asm_statement::*;
use vax_dialect::Dialect;
use vax_isa::Narrow;
use vax_lex::{ExprError, Token, Value, scan};
use vax_word::Size;

fn mode_of(alloc: Global, line: &[u8]) -> Result<(Mode, usize, Option<u8>), Fail>
    requires { length line.now ≤ 1024 }
{
    let tokens = scan(alloc, line)?;
    let written = operand(line, &tokens);
    Ok((written.mode, written.expression.len(), written.index))
}

const fn displaced(size: Option<Narrow>, deferred: bool, register: u8) -> Mode {
    Mode::Displaced {
        size,
        deferred,
        register,
    }
}

const fn relative(size: Option<Narrow>) -> Mode {
    Mode::Relative {
        size,
        deferred: false,
    }
}

#[test]
fn reads_modes(rt: HostRuntime) -> Result<(), Fail> {
    // an operand, its mode, how many tokens its expression has, and its index
    let rows = [
        ("#5+X", Mode::Constant, 3, None),
        ("s^#5", Mode::Literal, 1, None),
        ("I^#5", Mode::Immediate, 1, None),
        ("r11", Mode::Register(11), 0, None),
        ("-(SP)", Mode::Decrement(14), 0, None),
        ("(R2)+[R3]", Mode::Increment(2), 0, Some(3)),
        ("@(R2)+", Mode::IncrementDeferred(2), 0, None),
        ("@(AP)", Mode::PointerDeferred(12), 0, None),
        ("@#X", Mode::Absolute, 1, None),
        ("4(FP)", displaced(None, false, 13), 1, None),
        (
            "@W^-4(R1)[R2]",
            displaced(Some(Narrow::W), true, 1),
            2,
            Some(2),
        ),
        ("G^X", relative(Some(Narrow::L)), 1, None),
        // no register: the symbol
        ("R16", relative(None), 1, None),
    ];
    for (text, mode, length, index) in rows {
        assert!(rt; text.len() <= 1024, "{text}");
        let found = mode_of(rt.alloc(), text.as_bytes())?;
        assert!(rt; found == (mode, length, index), "{text}");
    }
    Ok(())
}

/// What a line's statement is: 0 for nothing, 1 for an assignment, 2 for one that other modules may use, 3 for what is malformed,
/// 4 for an operation.
fn body_of(alloc: Global, line: &str) -> Result<u8, Fail> {
    if line.len() > 1024 {
        return Err(Fail::from("a long line"));
    }
    let tokens = scan(alloc, line.as_bytes())?;
    Ok(match read_statement(&tokens).body {
        Body::Nothing => 0,
        Body::Assignment { global, .. } => { if global { 2 } else { 1 } }
        Body::Malformed => 3,
        Body::Operation { .. } => 4,
    })
}

#[test]
fn reads_statements(rt: HostRuntime) -> Result<(), Fail> {
    let alloc = rt.alloc();
    let tokens = scan(alloc, b"LOOP:: ADDL3 #1,<2,3>,R1 ; a sum")?;
    let read = read_statement(&tokens);
    assert!(rt; matches!(&read.label, Some(Label { global: true, .. })));
    let Body::Operation { operands, .. } = read.body else {
        return Err(Fail::from("no operation"));
    };
    assert!(rt; operands.len() < 100);
    assert!(rt; parts(alloc, operands)?.len() == 3);
    for (line, body) in [
        ("", 0),
        ("SIZE = = 5", 1),
        ("SIZE == 5", 2),
        ("5 = SIZE", 3),
    ] {
        assert!(rt; body_of(alloc, line)? == body, "{line}");
    }
    Ok(())
}

const fn number(n: i64) -> Result<Value, ExprError> {
    Ok(Value::Absolute(n))
}

#[test]
fn chooses_sizes(rt: HostRuntime) {
    let place = Ok(Value::Section {
        section: 0,
        offset: 0,
    });
    let base = Base::Displaced {
        size: Narrow::W,
        register: 3,
    };
    let near = Operand::Memory(Base::Relative(Narrow::B));
    let far = Operand::Memory(Base::Relative(Narrow::W));
    let indexed = Operand::Indexed(Base::Relative(Narrow::L), 2);
    // a mode and its index, where it stands, its value, and the operand
    let rows = [
        (
            Mode::Constant,
            None,
            (0, 1),
            number(63),
            Some(Operand::Literal),
        ),
        (
            Mode::Constant,
            None,
            (0, 1),
            number(64),
            Some(Operand::Immediate),
        ),
        (Mode::Constant, Some(1), (0, 1), number(5), None),
        (relative(None), None, (0, 127), place, Some(near)),
        (relative(None), None, (0, 128), place, Some(far)),
        (relative(None), Some(2), (1, 0), place, Some(indexed)),
        (
            displaced(None, false, 3),
            None,
            (0, 1),
            number(128),
            Some(Operand::Memory(base)),
        ),
    ];
    for (i, (mode, index, (section, at), value, want)) in rows.into_iter().enumerate() {
        assert!(rt; at < 1000, "row {i}");
        assert!(rt;
            memory_operand(mode, index, section, at, value) == want,
            "row {i}"
        );
    }
}

#[test]
fn reads_operands_of_directives(rt: HostRuntime) -> Result<(), Fail> {
    let alloc = rt.alloc();
    let directives = [
        (".long", Some(Directive::Data(DataKind::Number(Size::L)))),
        (".noshow", Some(Directive::Listing)),
        (".SBTTL", Some(Directive::Listing)),
        (".subtitle", Some(Directive::Listing)),
        (".BLKL", Some(Directive::Space(DataKind::Number(Size::L)))),
        (".blka", Some(Directive::Space(DataKind::Number(Size::L)))),
        (".BYTE", Some(Directive::Data(DataKind::Number(Size::B)))),
        (
            ".SIGNED_BYTE",
            Some(Directive::Data(DataKind::Signed(Size::B))),
        ),
        (
            ".Signed_Word",
            Some(Directive::Data(DataKind::Signed(Size::W))),
        ),
        (".SIGNED_LONG", None),
        ("MOVL", None),
    ];
    for (name, directive) in directives {
        assert!(rt; directive_named(Dialect::Vax, name) == directive, "{name}");
    }
    for (name, attribute) in [("nowrt", Some(Attribute::Write(false))), ("ABS", None)] {
        assert!(rt; attribute_named(name) == attribute, "{name}");
    }
    let line = b"X+1[10]";
    let tokens = scan(alloc, line)?;
    let counted = read_item(&tokens);
    assert!(rt; counted.expression.len() == 3);
    assert!(rt; matches!(&counted.count, Some([_])));
    assert!(rt; name_alone(line, &tokens).is_none());
    assert!(rt; is_local(b"10$"));
    let tokens = scan(alloc, b".ASCII /ab/<13><<10>>")?;
    assert!(rt; tokens.len() == 10);
    let found = pieces(alloc, &tokens[1..])?;
    assert!(rt; found.map(|pieces| pieces.len()) == Some(3));
    assert!(rt; pieces(alloc, &tokens)?.is_none());
    Ok(())
}
