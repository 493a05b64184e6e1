//! Definitions that rest on later ones, and on themselves.
ghost use Rattle.std.specs.Prelude.{◌≤◌, ◌<◌, ℕ, IfOk, length};
ghost use Rattle.vax_asm_values.specs.Values.{Means, Worked};
ghost use Rattle.vax_asm_values.specs.View.{written_of};

use std::alloc::Global;
use std::rc::Rc;
use std::test::Fail;
use vax_asm_values::*;
use vax_dialect::Dialect;
use vax_lex::{ExprError, Value, scan};

/// An expression with one name in it.
fn expression(
    alloc: Global,
    text: &[u8],
    name: &[u8],
    definition: usize,
) -> Result<Expression, Fail>
    requires { length text.now ≤ 1024 }
    ensures { IfOk result (λ e. (n : ℕ) → definition < n → Means n (Worked (written_of e))) }
{
    let tokens = scan(alloc, text)?;
    let meaning = Meaning {
        name: name.to_vec(alloc)?,
        definition,
    };
    let text = Rc::new(alloc, text.to_vec(alloc)?)?;
    Ok(Expression::new(Dialect::Vax, text, tokens, vec![in alloc; meaning]?))
}

#[test]
fn values_come_in_any_order(rt: HostRuntime) -> Result<(), Fail> {
    let alloc = rt.alloc();
    let mut definitions = Definitions::new(alloc);
    definitions.open(alloc)?;
    definitions.open(alloc)?;
    definitions.write(alloc, 0, expression(alloc, b"Y+1", b"Y", 1)?)?;
    assert!(rt; definitions.value(0) == None);
    let quotient = expression(alloc, b"Y/0", b"Y", 1)?;
    assert!(rt; definitions.certain_fault(&quotient) == Some(ExprError::Range));
    definitions.give(alloc, 1, Value::Absolute(4))?;
    assert!(rt; definitions.value(0) == Some(Value::Absolute(5)));
    assert!(rt; definitions.count() == 2);
    // what is there stays
    definitions.give(alloc, 1, Value::Absolute(9))?;
    assert!(rt; definitions.value(1) == Some(Value::Absolute(4)));
    assert!(rt; definitions.expression(0).is_some());
    Ok(())
}

#[test]
fn a_circle_has_no_value(rt: HostRuntime) -> Result<(), Fail> {
    let alloc = rt.alloc();
    let mut definitions = Definitions::new(alloc);
    definitions.open(alloc)?;
    definitions.open(alloc)?;
    definitions.write(alloc, 0, expression(alloc, b"B", b"B", 1)?)?;
    definitions.write(alloc, 1, expression(alloc, b"A+1", b"A", 0)?)?;
    assert!(rt; definitions.value(0) == None);
    assert!(rt; definitions.value(1) == None);
    let use_of_it = expression(alloc, b"A*2", b"A", 0)?;
    assert!(rt; definitions.evaluate(&use_of_it) == Err(ExprError::Unknown));
    Ok(())
}

#[test]
fn definitions_go_back_to_a_mark(rt: HostRuntime) -> Result<(), Fail> {
    let alloc = rt.alloc();
    let mut definitions = Definitions::new(alloc);
    definitions.open(alloc)?;
    definitions.open(alloc)?;
    definitions.write(alloc, 0, expression(alloc, b"Y+1", b"Y", 1)?)?;
    assert!(rt; !definitions.go_back());
    definitions.mark();
    definitions.open(alloc)?;
    definitions.write(alloc, 2, expression(alloc, b"X*2", b"X", 0)?)?;
    definitions.give(alloc, 1, Value::Absolute(4))?;
    assert!(rt; definitions.value(2) == Some(Value::Absolute(10)));
    assert!(rt; definitions.is_marked() && definitions.go_back());
    assert!(rt; !definitions.is_marked());
    // what was there before is there, and nothing else has a value
    assert!(rt; definitions.count() == 2);
    assert!(rt; definitions.value(0) == None);
    assert!(rt; definitions.value(1) == None);
    definitions.give(alloc, 1, Value::Absolute(6))?;
    assert!(rt; definitions.value(0) == Some(Value::Absolute(7)));
    // no mark is left after it is removed
    definitions.mark();
    definitions.unmark();
    assert!(rt; !definitions.go_back());
    Ok(())
}
