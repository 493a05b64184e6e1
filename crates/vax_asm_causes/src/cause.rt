// The cause of a fault.

ghost use Rattle.std.specs.Prelude.{◌≡◌, ◌≤◌, ◌==◌, ◌&&◌, ◌||◌, ℕ, IfOk, is_some, length, min, true, unwrap_or};
ghost use Rattle.vax_asm_causes.specs.Marked.{IsMarked, IsMarkedIn, has_label, is_directive, name_defined, operands_in, operator_in};
ghost use Rattle.vax_asm_causes.specs.Places.{line_pieces};
ghost use Rattle.vax_asm_causes.specs.Printed.{ArePrinted};

use crate::circle::circle_cause;
use crate::conditions::{condition_count, condition_form, takes_condition};
use crate::count::count_cause;
use crate::facts::Facts;
use crate::form::form_cause;
use crate::names::{are_same, definition_beside, is_local};
use crate::range::range_cause;
use crate::statement::{Statement, is_name, operands_of, parts_of, pieces_of, text_of};
use crate::token::{long_cause, operator_cause, token_cause};
use crate::undefined::undefined_cause;
use crate::words::{Found, as_printed, at, cause_at, decimal};
use std::alloc::Global;
use vax_dialect::Dialect;
use vax_lex::Piece;
use vax_macro::FaultKind;
use vax_space::NoMemory;

/// Where a fault stands: a source with its dialect, the number of its line, and the text of a line, which may be one of an expansion; the
/// numbers of the lines that are refused, and so define nothing; and what the assembler knows there.
#[derive(Clone, Copy)]
pub struct Place<'a> {
    pub dialect: Dialect,
    pub source: &'a [u8],
    pub number: u32,
    pub line: &'a [u8],
    pub refused: &'a [u32],
    pub facts: &'a Facts,
}

/// The column of a fault, counted from 0, and words on its cause, which begin with a colon or are none. Where the source says of itself that it is wrong,
/// they are its comment.
#[derive(Drop)]
pub struct Cause {
    pub column: usize,
    pub words: Vec<u8>,
}

/// Whether a line before this one defines a name, beside those that are refused.
fn is_defined_before(place: Place<'_>, name: &[u8]) -> bool {
    match definition_beside(place.source, name, place.refused) {
        Some(number) => number < place.number,
        None => false,
    }
}

/// Whether of a label and the name that its directive defines the latter is defined twice.
fn is_name_twice(place: Place<'_>, label: Piece, name: Piece) -> bool {
    let text = text_of(place.line, label);
    is_defined_before(place, text_of(place.line, name))
        && (is_local(text) || !is_defined_before(place, text))
}

/// Whether a piece of a line is the name of a directive.
fn is_directive(line: &[u8], piece: Piece) -> bool
    ensures { result ≡ is_directive line.now piece }
{
    match text_of(line, piece) {
        [first, ..] => *first == b'.',
        _ => false,
    }
}

/// The name that a directive defines: its first operand. Of another statement its operator.
fn name_defined(line: &[u8], operator: Piece, operands: &[Piece]) -> Piece
    ensures { result ≡ name_defined line.now operator operands.now }
{
    match operands {
        [name, ..] if is_directive(line, operator) => *name,
        _ => operator,
    }
}

/// Which name of a statement that begins with this piece is defined twice: its label, or the one that its directive defines.
fn twice_defined(place: Place<'_>, said: Statement<'_>, first: Piece, operator: Piece) -> Piece
    ensures { (result.start
        == (name_defined place.entry.line.now operator said.entry.operands.now).start)
        || (is_some said.entry.label && (result.start == first.start)) ≡ true }
{
    let name = name_defined(place.line, operator, said.operands);
    match said.label {
        None => name,
        Some(_) if said.operator.is_some() && is_name_twice(place, first, name) => name,
        Some(_) => first,
    }
}

/// Where the name stands that is defined twice.
fn duplicate_cause(alloc: Global, place: Place<'_>, label: Piece) -> Result<Found, NoMemory>
    ensures { IfOk result (λ f. f.column ≡ label.start) }
{
    let name = text_of(place.line, label);
    match definition_beside(place.source, name, place.refused) {
        Some(number) if number < place.number && !is_local(name) => {
            let number = decimal(alloc, u64::from(number))?;
            cause_at(
                alloc,
                label.start,
                &[b": `", name, b"` stands on line ", &number, b" already"],
            )
        }
        _ => cause_at(alloc, label.start, &[b": `", name, b"`"]),
    }
}

/// What is missing for a begin or an end with this name.
fn lacking(name: &[u8]) -> &'static [u8] {
    if are_same(name, b".MACRO") {
        b": no .ENDM ends it"
    } else if are_same(name, b".REPT") || are_same(name, b".IRP") || are_same(name, b".IRPC") {
        b": no .ENDR ends it"
    } else if are_same(name, b".IF") {
        b": no .ENDC ends it"
    } else if are_same(name, b".ENDM") {
        b": no .MACRO begins it"
    } else if are_same(name, b".ENDR") {
        b": no .REPT, .IRP or .IRPC begins it"
    } else {
        b": no .IF begins it"
    }
}

/// What is missing for a begin or an end.
fn nesting_cause(alloc: Global, place: Place<'_>, operator: Piece) -> Result<Found, NoMemory>
    ensures { IfOk result (λ f. f.column ≡ operator.start) }
{
    let words = lacking(text_of(place.line, operator));
    cause_at(alloc, operator.start, &[words])
}

/// What stands behind the first `;` behind an operator, without the blanks around; nothing where there is none.
fn comment_of(line: &[u8], operator: Piece) -> &[u8] {
    let mut rest = line.get(operator.end as usize..line.len()).unwrap_or(&[]);
    while let Some((first, behind)) = rest.split_first() {
        if *first == b';' {
            return behind.trim_ascii();
        }
        rest = behind;
    }
    &[]
}

/// Why a statement has the wrong number of operands.
fn wrong_count(
    alloc: Global,
    place: Place<'_>,
    operator: Piece,
    operands: &[Piece],
) -> Result<Found, NoMemory> {
    let name = text_of(place.line, operator);
    if takes_condition(name) {
        return condition_count(alloc, place.line, operator, operands);
    }
    let count = operands_of(alloc, operands)?.len();
    count_cause(alloc, place.line, operator, operands, count)
}

/// Why an operand or an expression has no form.
fn no_form(
    alloc: Global,
    place: Place<'_>,
    operator: Piece,
    said: Statement<'_>,
) -> Result<Found, NoMemory> {
    if said.operator.is_some() && !is_name(operator) {
        return cause_at(
            alloc,
            operator.start,
            &[b": a statement begins with a name"],
        );
    }
    if let Some(cause) = long_cause(alloc, place.line, said.operands)? {
        return Ok(cause);
    }
    if let (Some(ways), Some(label)) = (&place.facts.circle, said.label) {
        return circle_cause(alloc, place.line, label, said.operands, ways);
    }
    if takes_condition(text_of(place.line, operator)) {
        return condition_form(alloc, place.line, operator, said.operands);
    }
    let operands = operands_of(alloc, said.operands)?;
    form_cause(alloc, place, operator, said.operands, &operands)
}

/// Which number or distance is out of range.
fn out_of_range(
    alloc: Global,
    place: Place<'_>,
    operator: Piece,
    operands: &[Piece],
) -> Result<Found, NoMemory> {
    let all = operands_of(alloc, operands)?;
    range_cause(alloc, place, operator, operands, &all)
}

/// The cause of a fault in a statement.
fn cause_in(
    alloc: Global,
    place: Place<'_>,
    kind: FaultKind,
    said: Statement<'_>,
    pieces: &[Piece],
    first: Piece,
) -> Result<Found, NoMemory>
    requires operator { unwrap_or said.operator first ≡ operator_in first pieces.now }
    requires operands { said.operands.now ≡ operands_in pieces.now }
    requires label { is_some said.label ≡ has_label pieces.now }
    ensures { IfOk result (λ f. IsMarked kind place.entry.line.now first pieces.now f.column) }
{
    let operator = said.operator.unwrap_or(first);
    match kind {
        FaultKind::Token => token_cause(alloc, place.line, pieces, first),
        FaultKind::UnknownOperator => operator_cause(alloc, place.line, operator),
        FaultKind::Count => wrong_count(alloc, place, operator, said.operands),
        FaultKind::Form => no_form(alloc, place, operator, said),
        FaultKind::Undefined => undefined_cause(alloc, place, said, operator),
        FaultKind::Duplicate => {
            let name = twice_defined(place, said, first, operator);
            duplicate_cause(alloc, place, name)
        }
        FaultKind::Range => out_of_range(alloc, place, operator, said.operands),
        FaultKind::Nesting => nesting_cause(alloc, place, operator),
        FaultKind::Message => cause_at(alloc, operator.start, &[comment_of(place.line, operator)]),
        FaultKind::Depth | FaultKind::Lines | FaultKind::Large => Ok(at(alloc, operator.start)),
    }
}

/// The cause of a fault of this kind: its column and words on it.
///
/// # Errors
///
/// [`NoMemory`] where memory is refused.
pub fn cause_of(alloc: Global, place: Place<'_>, kind: FaultKind) -> Result<Cause, NoMemory>
    ensures within { IfOk result (λ c. c.column ≤ length place.entry.line.now) }
    ensures marked { IfOk result (λ c. (column : ℕ)
        × IsMarkedIn kind place.entry.line.now
        (line_pieces place.entry.dialect place.entry.line.now) column
        × (c.column ≡ min column (length place.entry.line.now))) }
    ensures printed { IfOk result (λ c. ArePrinted c.words.items) }
{
    let pieces = pieces_of(alloc, place.dialect, place.line)?;
    let cause = match pieces.first() {
        Some(first) => cause_in(alloc, place, kind, parts_of(&pieces), &pieces, *first)?,
        None => at(alloc, 0),
    };
    let words = as_printed(alloc, &cause.words)?;
    Ok(Cause {
        column: cause.column.min(place.line.len()),
        words,
    })
}
