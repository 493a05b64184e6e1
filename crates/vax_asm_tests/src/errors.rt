//! The texts that errors are shown with.
use std::alloc::Global;
use std::fmt::Display;
use std::process::Abort;
use std::test::Fail;
use vax_asm::AsmError;
use vax_asm_encode::FieldFault;
use vax_asm_first::{Origin, Refused};
use vax_asm_names::{Duplicate, LabelError};
use vax_asm_second::{Fault, FillError};
use vax_asm_sections::Refusal;
use vax_lex::{ExprError, LexError};
use vax_macro::{FaultKind, MacroError};
use vax_space::NoMemory;

/// The texts of errors of one type.
fn test_texts<E: Display>(rt: &impl Abort, alloc: Global, rows: &[(E, &str)]) -> Result<(), Fail> {
    for (error, text) in rows {
        let shown = format!(in alloc; "{error}")?;
        assert!(rt; shown.as_str() == *text, "{text}: {shown}");
    }
    Ok(())
}

#[test]
fn tells_faults_by_their_kinds(rt: HostRuntime) -> Result<(), Fail> {
    let rows = [
        (
            FaultKind::Token,
            "a byte that belongs to no token, or more than 1,024 bytes",
        ),
        (FaultKind::UnknownOperator, "no such operator"),
        (FaultKind::Count, "wrong number of operands"),
        (
            FaultKind::Form,
            "no such form of an operand, an expression or a statement",
        ),
        (FaultKind::Undefined, "a name that is not defined"),
        (FaultKind::Duplicate, "a name that is defined twice"),
        (FaultKind::Range, "a value out of range"),
        (
            FaultKind::Nesting,
            "an end without its begin, or a begin without its end",
        ),
        (
            FaultKind::Depth,
            "macros, repeats or conditions nested deeper than 64",
        ),
        (FaultKind::Lines, "more than 100,000 expanded lines"),
        (FaultKind::Large, "a section or the module is too long"),
        (FaultKind::Message, "the source says that it is wrong here"),
    ];
    test_texts(&rt, rt.alloc(), &rows)
}

#[test]
fn tells_errors_of_lines(rt: HostRuntime) -> Result<(), Fail> {
    let alloc = rt.alloc();
    let tokens = [
        (LexError::Token(7), "no token begins at byte 7"),
        (LexError::Wide(12), "the number at byte 12 is above 64 bits"),
        (LexError::NoMemory, "out of memory"),
    ];
    test_texts(&rt, alloc, &tokens)?;
    let expressions = [
        (ExprError::Form, "no such expression"),
        (ExprError::Unknown, "a name has no value"),
        (ExprError::Range, "division by 0"),
    ];
    test_texts(&rt, alloc, &expressions)?;
    let kind = FaultKind::Range;
    let expanded = [
        (
            MacroError::Fault { line: 3, kind },
            "line 3: a value out of range",
        ),
        (MacroError::NoMemory, "out of memory"),
    ];
    test_texts(&rt, alloc, &expanded)?;
    test_texts(&rt, alloc, &[(NoMemory, "out of memory")])?;
    let fields = [
        (FieldFault::Form, "the value is no number"),
        (FieldFault::Range, "the value doesn't fit its field"),
    ];
    test_texts(&rt, alloc, &fields)
}

#[test]
fn tells_errors_of_modules(rt: HostRuntime) -> Result<(), Fail> {
    let alloc = rt.alloc();
    test_texts(&rt, alloc, &[(Duplicate, "a name that is defined twice")])?;
    let labels = [
        (LabelError::Duplicate, "a name that is defined twice"),
        (LabelError::NoMemory, "out of memory"),
    ];
    test_texts(&rt, alloc, &labels)?;
    let sections = [
        (
            Refusal::Conflict,
            "the section has another alignment or protection, or is absolute or overlaid where it wasn't",
        ),
        (
            Refusal::Absolute,
            "an absolute or overlaid section holds no data",
        ),
        (Refusal::TooLong, "a section or a module is too long"),
        (Refusal::NoMemory, "out of memory"),
    ];
    test_texts(&rt, alloc, &sections)?;
    let statements = [
        (Refused::Fault(FaultKind::Count), "wrong number of operands"),
        (Refused::NoMemory, "out of memory"),
    ];
    test_texts(&rt, alloc, &statements)?;
    let fault = Fault {
        origin: Origin { line: 5, place: 9 },
        kind: FaultKind::Undefined,
    };
    test_texts(&rt, alloc, &[(fault, "a name that is not defined")])?;
    let filled = [
        (FillError::Fault(fault), "a name that is not defined"),
        (FillError::NoMemory, "out of memory"),
    ];
    test_texts(&rt, alloc, &filled)?;
    let kind = FaultKind::Form;
    let sources = [
        (
            AsmError::Fault { line: 42, kind },
            "line 42: no such form of an operand, an expression or a statement",
        ),
        (AsmError::NoMemory, "out of memory"),
    ];
    test_texts(&rt, alloc, &sources)
}
