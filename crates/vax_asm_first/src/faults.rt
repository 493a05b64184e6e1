// The faults of a statement.

ghost use Rattle.std.specs.Prelude.{◌≡◌, ◌+◌, ◌<◌, ◌^◌};
ghost use Rattle.vax_asm_first.specs.Faults.{first_of, lowest, fault_of_filled, fault_of_value, unless_place, number_of};

use vax_asm_encode::{Field, FieldFault, Filled, fill};
use vax_lex::{ExprError, Value};
use vax_macro::FaultKind;

/// Of two faults the first in the order of the kinds.
pub fn first_of(a: FaultKind, b: FaultKind) -> FaultKind
    ensures { result ≡ first_of a b }
{
    if b.code() < a.code() { b } else { a }
}

/// Of the faults of two parts of a statement the one that counts.
pub fn lowest(first: Option<FaultKind>, second: Option<FaultKind>) -> Option<FaultKind>
    ensures { result ≡ lowest first second }
{
    match (first, second) {
        (Some(a), Some(b)) => Some(first_of(a, b)),
        (Some(a), None) => Some(a),
        (None, other) => other,
    }
}

fn fault_of_filled(filled: Result<Filled, FieldFault>) -> Option<FaultKind>
    ensures { result ≡ fault_of_filled filled }
{
    match filled {
        Ok(_) => None,
        Err(FieldFault::Form) => Some(FaultKind::Form),
        Err(FieldFault::Range) => Some(FaultKind::Range),
    }
}

/// The fault of a value that a field at a place of a section is to hold. It may be known later.
pub fn fault_of_value(
    field: Field,
    section: u32,
    at: u32,
    value: Result<Value, ExprError>,
) -> Option<FaultKind>
    // The displacement ends within 32 bits.
    requires { at + 4 < 2 ^ 32 }
    ensures { result ≡ fault_of_value field section at value }
{
    match value {
        Ok(value) => fault_of_filled(fill(field, section, at, value)),
        Err(ExprError::Form) => Some(FaultKind::Form),
        Err(ExprError::Unknown) => None,
        Err(ExprError::Range) => Some(FaultKind::Range),
    }
}

/// Where `.` stands that may not stand there, that is the fault.
pub fn unless_place(place: bool, other: Option<FaultKind>) -> Option<FaultKind>
    ensures { result ≡ unless_place place other }
{
    if place { Some(FaultKind::Form) } else { other }
}

/// The number that a value is which must be known: a count of items or of bytes, or a boundary.
pub fn number_of(value: Result<Value, ExprError>) -> Result<u64, FaultKind>
    ensures { result ≡ number_of value }
{
    match value {
        Ok(Value::Absolute(number)) => u64::try_from(number).map_err(|_| FaultKind::Range),
        Ok(_) => Err(FaultKind::Form),
        Err(ExprError::Form) => Err(FaultKind::Form),
        Err(ExprError::Unknown) => Err(FaultKind::Undefined),
        Err(ExprError::Range) => Err(FaultKind::Range),
    }
}
