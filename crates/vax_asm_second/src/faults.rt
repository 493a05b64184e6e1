// The faults that the whole source decides.

ghost use Rattle.std.specs.Prelude.{◌≡◌, map, option_map};
ghost use Rattle.vax_asm_second.specs.Faults.{precedes, earlier, first, first_of, unknown, fault_of_error, value_in, value_filled, kind_of, fault_at, assigned_faults, unclosed_faults};
ghost use Rattle.vax_macro.specs.View.{opening_of};
ghost use Rattle.vax_asm_first.specs.View.{assignment_of, filling_of};
ghost use Rattle.vax_asm_scope.specs.Kept.{scope_of};
ghost use Rattle.vax_asm_values.specs.View.{written_of};

use crate::types::Fault;
use vax_asm_first::{Assignment, FaultKind, Filling, Origin};
use vax_asm_scope::Scope;
use vax_asm_values::Expression;
use vax_lex::{ExprError, Value};
use vax_macro::Begin;

fn precedes(a: Fault, b: Fault) -> bool
    ensures { result ≡ precedes a b }
{
    a.origin.place < b.origin.place
        || (a.origin.place == b.origin.place && a.kind.code() < b.kind.code())
}

/// The fault that goes before the other: the one whose statement stands first, and at one place the one whose kind is the
/// first in their order.
pub fn earlier(a: Fault, b: Fault) -> Fault
    ensures { result ≡ earlier a b }
{
    if precedes(b, a) { b } else { a }
}

/// Of the faults of two parts of a source the first.
pub(crate) fn first(a: Option<Fault>, b: Option<Fault>) -> Option<Fault>
    ensures { result ≡ first a b }
{
    match (a, b) {
        (Some(a), Some(b)) => Some(earlier(a, b)),
        (Some(a), None) => Some(a),
        (None, other) => other,
    }
}

fn unknown(undefined: bool) -> Option<FaultKind>
    ensures { result ≡ unknown undefined }
{
    if undefined {
        Some(FaultKind::Undefined)
    } else {
        None
    }
}

/// The fault of an expression without a value. None where what is at fault is a definition that it rests on.
fn fault_of_error(scope: &Scope, expression: &Expression, error: ExprError) -> Option<FaultKind>
    ensures { result
        ≡ fault_of_error (scope_of scope.now).sources (written_of expression.now) error }
{
    match error {
        ExprError::Form => Some(FaultKind::Form),
        ExprError::Unknown => unknown(scope.names_to_come(expression)),
        ExprError::Range => Some(FaultKind::Range),
    }
}

/// The value of an expression, or its fault.
fn value_in(scope: &Scope, expression: &Expression) -> Result<Value, Option<FaultKind>>
    ensures { result ≡ value_in (scope_of scope.now).sources (written_of expression.now) }
{
    match scope.evaluate(expression) {
        Ok(value) => Ok(value),
        Err(error) => Err(fault_of_error(scope, expression, error)),
    }
}

/// The value of what a field is filled with, or its fault.
pub(crate) fn value_filled(scope: &Scope, filling: &Filling) -> Result<Value, Option<FaultKind>>
    ensures { result ≡ value_filled (scope_of scope.now).sources (filling_of filling.now) }
{
    match filling {
        Filling::Known(value) => Ok(*value),
        Filling::Later(expression) => value_in(scope, expression),
    }
}

pub(crate) fn fault_at(origin: Origin, kind: Option<FaultKind>) -> Option<Fault>
    ensures { result ≡ first_of (fault_at origin kind) }
{
    let kind = kind?;
    Some(Fault { origin, kind })
}

/// The fault of an assignment.
pub(crate) fn fault_of(scope: &Scope, assignment: &Assignment) -> Option<Fault>
    ensures { result ≡ first_of (fault_at assignment.now.origin
        (kind_of (value_in (scope_of scope.now).sources (assignment_of assignment.now).written))) }
{
    match value_in(scope, &assignment.expression) {
        Ok(_) => None,
        Err(kind) => fault_at(assignment.origin, kind),
    }
}

/// The first fault of assignments.
#[tactic(auto, using(crate::proofs::Order::assignment_seen, crate::proofs::Order::assignments_seen))]
pub(crate) fn assigned_fault(scope: &Scope, assignments: &[Assignment]) -> Option<Fault>
    ensures { result ≡ first_of (assigned_faults
        (scope_of scope.now).sources (map assignment_of assignments.now)) }
{
    let mut found = None;
    for assignment in assignments {
        found = first(found, fault_of(scope, assignment));
    }
    found
}

/// The fault of a begin without its end.
pub(crate) fn unclosed_fault(begin: Option<Begin>) -> Option<Fault>
    ensures { result ≡ first_of (unclosed_faults (option_map opening_of begin)) }
{
    let Begin { number, place } = begin?;
    Some(Fault {
        origin: Origin {
            line: number,
            place,
        },
        kind: FaultKind::Nesting,
    })
}
