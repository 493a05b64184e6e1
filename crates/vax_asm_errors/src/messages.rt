// What is wrong, for each kind of fault.

ghost use Rattle.std.specs.Prelude.{◌≡◌};
ghost use Rattle.vax_asm_errors.specs.Errors.{is_message, message};

use vax_macro::FaultKind;

/// What a kind of fault says.
#[tactic(auto, unfolding(crate::specs::Errors::message))]
pub(crate) fn message(kind: FaultKind) -> &'static [u8]
    ensures { result.now ≡ message kind }
{
    match kind {
        FaultKind::Token => b"a byte belongs to no token, or the line is too long",
        FaultKind::UnknownOperator => {
            b"no instruction, directive or macro has this name, or `.` is assigned to"
        }
        FaultKind::Count => b"too few or too many operands, or a comma is missing",
        FaultKind::Form => b"an operand or an expression has no form that may stand here",
        FaultKind::Undefined => b"a name has no value here, or its block has no such local label",
        FaultKind::Duplicate => b"a name is defined twice",
        FaultKind::Range => b"a number or a distance is out of range",
        FaultKind::Nesting => b"a begin has no end, or an end no begin",
        FaultKind::Depth => b"macros, repeats or conditions stand in each other more than 64 deep",
        FaultKind::Lines => b"more than 100,000 lines with those of expansions",
        FaultKind::Large => b"a section or the module is too long",
        FaultKind::Message => b"the source says that it is wrong here",
    }
}

/// Whether the source says it itself.
pub(crate) fn is_message(kind: FaultKind) -> bool
    ensures { result ≡ is_message kind }
{
    match kind {
        FaultKind::Message => true,
        FaultKind::Token
        | FaultKind::UnknownOperator
        | FaultKind::Count
        | FaultKind::Form
        | FaultKind::Undefined
        | FaultKind::Duplicate
        | FaultKind::Range
        | FaultKind::Nesting
        | FaultKind::Depth
        | FaultKind::Lines
        | FaultKind::Large => false,
    }
}
