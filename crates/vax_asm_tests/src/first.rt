//! What the first pass keeps.
use std::rc::Rc;
use std::test::Fail;
use vax_asm_encode::{DataKind, Field};
use vax_asm_first::*;
use vax_asm_sections::Piece;
use vax_dialect::Dialect;
use vax_lex::{ExprError, Value, scan};
use vax_word::Size;

#[test]
fn tells_expressions_where_they_stand(rt: HostRuntime) -> Result<(), Fail> {
    let alloc = rt.alloc();
    let mut standing = Standing::new(alloc, Dialect::Vax)?;
    standing.put(6, Piece::Zeros(6))?;
    standing.align(2)?;
    let here = standing.here()?;
    let place = Value::Section {
        section: 0,
        offset: 8,
    };
    assert!(rt; here == place);
    let text = b"X-.".as_slice();
    let tokens = scan(alloc, text)?;
    let line = Rc::new(alloc, text.to_vec(alloc)?)?;
    let early = standing.tell(alloc, Dialect::Vax, &line, &tokens, here)?;
    assert!(rt; early.value == Err(ExprError::Unknown));
    assert!(rt; early.settled == Err(ExprError::Unknown));
    let text = b"X/0".as_slice();
    let tokens = scan(alloc, text)?;
    let line = Rc::new(alloc, text.to_vec(alloc)?)?;
    let never = standing.tell(alloc, Dialect::Vax, &line, &tokens, here)?;
    assert!(rt; never.value == Err(ExprError::Unknown));
    assert!(rt; never.settled == Err(ExprError::Range));
    standing.scope.label(
        alloc,
        b"X",
        Value::Section {
            section: 0,
            offset: 11,
        },
    )?;
    assert!(rt; standing.scope.evaluate(&early.expression) == Ok(Value::Absolute(3)));
    let fixup = Fixup {
        origin: Origin { line: 4, place: 2 },
        at: 8,
        content: Content::Data {
            kind: DataKind::Number(Size::B),
            count: 1,
        },
        filling: Filling::Later(early.expression),
    };
    standing.put(1, Piece::Field(fixup))?;
    assert!(rt; standing.section_size() == 9);
    assert!(rt;
        standing.put(2_000_000, Piece::Zeros(2_000_000)) == Err(Refused::Fault(FaultKind::Large))
    );
    Ok(())
}

#[test]
fn tells_the_fault_that_counts(rt: HostRuntime) {
    let form = Some(FaultKind::Form);
    let range = Some(FaultKind::Range);
    for (one, other, want) in [
        (range, form, form),
        (None, range, range),
        (form, None, form),
    ] {
        assert!(rt; lowest(one, other) == want);
    }
    assert!(rt; unless_place(true, range) == form);
    assert!(rt; unless_place(false, range) == range);
}

#[test]
fn tells_faults_of_values(rt: HostRuntime) {
    let label = Value::Section {
        section: 1,
        offset: 0,
    };
    // a value, its fault in a byte, and its number or its fault as a number
    let rows = [
        (Ok(Value::Absolute(7)), None, Ok(7)),
        (Ok(Value::Absolute(255)), None, Ok(255)),
        (Ok(Value::Absolute(256)), Some(FaultKind::Range), Ok(256)),
        (Ok(Value::Absolute(-1)), None, Err(FaultKind::Range)),
        (Ok(label), Some(FaultKind::Form), Err(FaultKind::Form)),
        (Err(ExprError::Unknown), None, Err(FaultKind::Undefined)),
    ];
    for (i, (value, fault, number)) in rows.into_iter().enumerate() {
        let found = fault_of_value(Field::Number(Size::B), 0, 0, value);
        assert!(rt; found == fault, "row {i}");
        assert!(rt; number_of(value) == number, "row {i}");
    }
}
