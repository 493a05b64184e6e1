//! Names, labels and assignments as statements make them.
ghost use Rattle.std.specs.Prelude.{◌≤◌, IfOk, length};
ghost use Rattle.vax_asm_scope.specs.Kept.{scope_of};
ghost use Rattle.vax_asm_values.specs.Values.{Means, Worked};
ghost use Rattle.vax_asm_values.specs.View.{written_of};

use std::alloc::Global;
use std::rc::Rc;
use std::test::Fail;
use vax_asm_scope::*;
use vax_asm_values::Expression;
use vax_dialect::Dialect;
use vax_lex::{ExprError, Value, evaluate, scan};

/// Where the expressions of the tests stand.
const HERE: Value = Value::Section {
    section: 0,
    offset: 4,
};

/// An expression where it stands.
fn stands(alloc: Global, scope: &mut Scope, text: &[u8]) -> Result<Expression, Fail>
    requires { length text.now ≤ 1024 }
    ensures { IfOk result (λ e. Means (length (scope_of scope.new).sources)
        (Worked (written_of e))) }
{
    let tokens = scan(alloc, text)?;
    let line = Rc::new(alloc, text.to_vec(alloc)?)?;
    Ok(scope.expression(alloc, Dialect::Vax, &line, &tokens, HERE)?)
}

#[test]
fn a_use_means_the_definition_before_it(rt: HostRuntime) -> Result<(), Fail> {
    let alloc = rt.alloc();
    let mut scope = Scope::new(alloc);
    let one = stands(alloc, &mut scope, b"1")?;
    scope.assign(alloc, b"X", one)?;
    let first = stands(alloc, &mut scope, b"x*10")?;
    let more = stands(alloc, &mut scope, b"X+1")?;
    scope.assign(alloc, b"X", more)?;
    let second = stands(alloc, &mut scope, b"X*10")?;
    assert!(rt; scope.evaluate(&first) == Ok(Value::Absolute(10)));
    assert!(rt; scope.evaluate(&second) == Ok(Value::Absolute(20)));
    let here = stands(alloc, &mut scope, b".+X")?;
    let place = Value::Section {
        section: 0,
        offset: 6,
    };
    assert!(rt; scope.evaluate(&here) == Ok(place));
    assert!(rt; scope.label(alloc, b"X", HERE) == Err(LabelError::Duplicate));
    Ok(())
}

#[test]
fn a_use_before_any_definition_means_the_first(rt: HostRuntime) -> Result<(), Fail> {
    let alloc = rt.alloc();
    let mut scope = Scope::new(alloc);
    let early = stands(alloc, &mut scope, b"L-M")?;
    assert!(rt; scope.evaluate(&early) == Err(ExprError::Unknown));
    scope.label(alloc, b"L", HERE)?;
    let later = stands(alloc, &mut scope, b"L+N")?;
    scope.assign(alloc, b"M", later)?;
    let quotient = stands(alloc, &mut scope, b"M/0")?;
    assert!(rt; scope.evaluate(&quotient) == Err(ExprError::Unknown));
    assert!(rt; scope.certain_fault(&quotient) == Some(ExprError::Range));
    let two = stands(alloc, &mut scope, b"-2")?;
    scope.assign(alloc, b"N", two)?;
    assert!(rt; scope.evaluate(&early) == Ok(Value::Absolute(2)));
    Ok(())
}

#[test]
fn an_assignment_tells_what_its_name_then_means(rt: HostRuntime) -> Result<(), Fail> {
    let alloc = rt.alloc();
    let mut scope = Scope::new(alloc);
    let first = scope.appear(alloc, b"X")?;
    let later = stands(alloc, &mut scope, b"Y")?;
    // The first assignment is the definition that earlier uses mean, and a second one is another.
    assert!(rt; scope.assign(alloc, b"X", later)? == first);
    assert!(rt; scope.value(first) == None);
    let two = stands(alloc, &mut scope, b"2")?;
    let second = scope.assign(alloc, b"X", two)?;
    assert!(rt; second != first);
    assert!(rt; scope.appear(alloc, b"X")? == second);
    assert!(rt; scope.value(second) == Some(Value::Absolute(2)));
    assert!(rt; scope.value(first) == None);
    scope.label(alloc, b"L", HERE)?;
    let three = stands(alloc, &mut scope, b"3")?;
    assert!(rt; scope.assign(alloc, b"L", three) == Err(LabelError::Duplicate));
    Ok(())
}

#[test]
fn local_labels_stay_in_their_block(rt: HostRuntime) -> Result<(), Fail> {
    let alloc = rt.alloc();
    let mut scope = Scope::new(alloc);
    let first = stands(alloc, &mut scope, b"10$")?;
    scope.begin_block(alloc)?;
    let second = stands(alloc, &mut scope, b"10$")?;
    scope.label_local(alloc, b"10$", HERE)?;
    assert!(rt; scope.evaluate(&first) == Err(ExprError::Unknown));
    assert!(rt; scope.evaluate(&second) == Ok(HERE));
    assert!(rt; scope.label_local(alloc, b"10$", HERE) == Err(LabelError::Duplicate));
    Ok(())
}

#[test]
fn what_nothing_defines_is_external(rt: HostRuntime) -> Result<(), Fail> {
    let alloc = rt.alloc();
    let mut scope = Scope::new(alloc);
    scope.link(alloc, b"FIRST", Linkage::Global)?;
    scope.label(alloc, b"HOME", HERE)?;
    let begin = scope.appear(alloc, b"BEGIN")?;
    let other = stands(alloc, &mut scope, b"BEGIN+2")?;
    assert!(rt; scope.value(begin) == None);
    let externals = scope.close(alloc)?;
    assert!(rt; externals.len() == 2);
    assert!(rt; externals[0].as_slice() == b"FIRST".as_slice());
    assert!(rt; externals[1].as_slice() == b"BEGIN".as_slice());
    let target = Value::External {
        index: 1,
        offset: 2,
    };
    assert!(rt; scope.evaluate(&other) == Ok(target));
    assert!(rt; scope.names()[0].global);
    Ok(())
}

#[test]
fn what_no_module_may_define_stays_unknown(rt: HostRuntime) -> Result<(), Fail> {
    let alloc = rt.alloc();
    let mut scope = Scope::new(alloc);
    scope.assume_external(alloc, false);
    let lost = stands(alloc, &mut scope, b"LOST")?;
    let other = stands(alloc, &mut scope, b"OTHER+2")?;
    let later = stands(alloc, &mut scope, b"LATER")?;
    assert!(rt; scope.misses(b"LOST"));
    assert!(rt; !scope.misses(b"NOWHERE"));
    scope.link(alloc, b"OTHER", Linkage::External)?;
    scope.label(alloc, b"LATER", HERE)?;
    assert!(rt; !scope.misses(b"OTHER"));
    assert!(rt; !scope.misses(b"LATER"));
    let externals = scope.close(alloc)?;
    assert!(rt; externals.len() == 1);
    let target = Value::External {
        index: 0,
        offset: 2,
    };
    assert!(rt; scope.evaluate(&other) == Ok(target));
    assert!(rt; scope.evaluate(&later) == Ok(HERE));
    assert!(rt; scope.evaluate(&lost) == Err(ExprError::Unknown));
    assert!(rt; scope.names_to_come(&lost));
    Ok(())
}

#[test]
fn finds_where_an_expression_uses_its_place(rt: HostRuntime) -> Result<(), Fail> {
    let alloc = rt.alloc();
    let text = b"<X-.>".as_slice();
    assert!(rt; uses_place(text, &scan(alloc, text)?));
    let text = b"X.+1".as_slice();
    assert!(rt; !uses_place(text, &scan(alloc, text)?));
    Ok(())
}

#[test]
fn tells_what_is_known_where_a_statement_stands(rt: HostRuntime) -> Result<(), Fail> {
    let alloc = rt.alloc();
    let mut scope = Scope::new(alloc);
    let later = stands(alloc, &mut scope, b"Y")?;
    scope.assign(alloc, b"X", later)?;
    scope.label_local(alloc, b"10$", HERE)?;
    assert!(rt; scope.known(b"X", HERE) == None);
    let one = stands(alloc, &mut scope, b"1")?;
    scope.assign(alloc, b"Y", one)?;
    let names = KnownNames {
        dialect: Dialect::Vax,
        scope: &scope,
        here: HERE,
    };
    let text = b".-10$+X+Y".as_slice();
    let value = evaluate(text, &scan(alloc, text)?, &names);
    assert!(rt; value == Ok(Value::Absolute(2)));
    Ok(())
}
