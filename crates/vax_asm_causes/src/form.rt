// Operands and expressions of no form.

ghost use Rattle.std.specs.Prelude.{◌≡◌};
ghost use Rattle.vax_asm_causes.specs.Remarks.{is_false_register, is_like_digit, is_like_number, is_ten_to_fifteen, looks_like_register};

use crate::cause::Place;
use crate::count::instruction;
use crate::names::{are_same, definition_beside, definition_of};
use crate::places::is_called;
use crate::statement::{before_bracket, is_mark, is_name, text_of};
use crate::words::{Found, at, cause_at, decimal};
use std::alloc::Global;
use vax_isa::{Letter, OperandKind};
use vax_lex::{Piece, PieceKind, TokenKind};
use vax_space::NoMemory;

/// Whether a byte is a digit, or a letter that is taken for one.
fn is_like_digit(byte: u8) -> bool
    ensures { result ≡ is_like_digit byte }
{
    byte.is_ascii_digit() || matches!(byte.to_ascii_uppercase(), b'O' | b'I' | b'L')
}

/// Whether these are the digits of a number from 10 to 15.
fn is_ten_to_fifteen(digits: &[u8]) -> bool
    ensures { result ≡ is_ten_to_fifteen digits.now }
{
    matches!(digits, [b'1', b'0'..=b'5'])
}

/// Whether these are a digit, and one or two more bytes that are like digits.
fn is_like_number(digits: &[u8]) -> bool
    ensures { result ≡ is_like_number digits.now }
{
    match digits {
        [first, second] => first.is_ascii_digit() && is_like_digit(*second),
        [first, second, third] => {
            first.is_ascii_digit() && is_like_digit(*second) && is_like_digit(*third)
        }
        _ => false,
    }
}

/// Whether a name looks like a register and is none: `R` and a number that no register has.
fn looks_like_register(name: &[u8]) -> bool
    ensures { result ≡ looks_like_register name.now }
{
    let [letter, digits @ ..] = name else {
        return false;
    };
    letter.to_ascii_uppercase() == b'R' && is_like_number(digits) && !is_ten_to_fifteen(digits)
}

/// Whether a piece of a line is a name that looks like a register and is none.
pub(crate) fn is_false_register(line: &[u8], piece: Piece) -> bool
    ensures { result ≡ is_false_register line.now piece }
{
    is_name(piece) && looks_like_register(text_of(line, piece))
}

/// The first name that looks like a register and is none.
fn false_register(line: &[u8], pieces: &[Piece]) -> Option<Piece> {
    for piece in pieces {
        if is_false_register(line, *piece) {
            return Some(*piece);
        }
    }
    None
}

/// The first text behind `^A` of a length that no number has.
fn misfit_text(line: &[u8], pieces: &[Piece]) -> Option<Piece> {
    let mut is_behind = false;
    for piece in pieces {
        let length = text_of(line, *piece).len();
        let is_text = matches!(piece.kind, PieceKind::Token(TokenKind::Text));
        if is_behind && is_text && (length <= 2 || length > 10) {
            return Some(*piece);
        }
        is_behind = is_called(line, *piece, b"A");
    }
    None
}

/// Whether a piece is `.`, the place of the statement itself.
fn is_here(line: &[u8], piece: Piece) -> bool {
    is_called(line, piece, b".")
}

/// The name of a branch's operand that shows why it has no form: the first one that the source doesn't define, or the only one.
fn branch_name(source: &[u8], line: &[u8], operand: &[Piece]) -> Option<Piece> {
    let mut only: Option<Piece> = None;
    let mut count: usize = 0;
    for piece in operand {
        if is_name(*piece) && !is_here(line, *piece) {
            if definition_of(source, text_of(line, *piece)).is_none() {
                return Some(*piece);
            }
            only = Some(*piece);
            count = count.saturating_add(1);
        }
    }
    if count == 1 { only } else { None }
}

/// Why a branch's operand has no form, if it shows: no file can say where another's name is in a branch.
fn branch_cause(
    alloc: Global,
    source: &[u8],
    line: &[u8],
    operand: &[Piece],
) -> Result<Option<Found>, NoMemory> {
    let Some(first) = operand.first() else {
        return Ok(None);
    };
    if !is_name(*first) {
        let cause = cause_at(
            alloc,
            first.start,
            &[b": a branch takes the place that it goes to"],
        )?;
        return Ok(Some(cause));
    }
    let Some(piece) = branch_name(source, line, operand) else {
        return Ok(None);
    };
    let name = text_of(line, piece);
    let cause = match definition_of(source, name) {
        None => cause_at(
            alloc,
            piece.start,
            &[
                b": a branch goes to a place of this file, and `",
                name,
                b"` isn't in it",
            ],
        )?,
        Some(number) => {
            let number = decimal(alloc, u64::from(number))?;
            cause_at(
                alloc,
                piece.start,
                &[
                    b": `",
                    name,
                    b"` stands on line ",
                    &number,
                    b", which isn't a place of this section or has a fault",
                ],
            )?
        }
    };
    Ok(Some(cause))
}

/// Whether the operands of an operator are values and places that can't be told by `.` in the smaller dialect.
fn is_without_here(name: &[u8]) -> bool {
    instruction(name).is_some()
        || are_same(name, b".BYTE")
        || are_same(name, b".WORD")
        || are_same(name, b".LONG")
        || are_same(name, b".QUAD")
        || are_same(name, b".OCTA")
        || are_same(name, b".ADDRESS")
        || are_same(name, b".SIGNED_BYTE")
        || are_same(name, b".SIGNED_WORD")
        || are_same(name, b".ALIGN")
        || are_same(name, b".MASK")
        || are_same(name, b".ENTRY")
}

/// The first `.` among the pieces of operands, before a bracket of one of them.
fn here_in(line: &[u8], operands: &[&[Piece]]) -> Option<Piece> {
    for operand in operands {
        for piece in before_bracket(operand) {
            if is_here(line, *piece) {
                return Some(*piece);
            }
        }
    }
    None
}

/// The first `.` that can't be an operand or in one.
fn false_here(place: Place<'_>, name: &[u8], operands: &[&[Piece]]) -> Option<Piece> {
    if place.dialect.has_places_in_operands() || !is_without_here(name) {
        return None;
    }
    here_in(place.line, operands)
}

/// Whether a kind of operand is stored to, or has to lie in memory.
fn needs_place(kind: OperandKind) -> bool {
    matches!(
        kind.letter,
        Letter::Modify | Letter::Write | Letter::Address | Letter::Field
    )
}

/// Why the operand with this number, counted from 1, has no form, if it shows.
fn operand_cause(
    alloc: Global,
    source: &[u8],
    line: &[u8],
    operand: &[Piece],
    kind: OperandKind,
    number: usize,
) -> Result<Option<Found>, NoMemory> {
    let Some(first) = operand.first() else {
        return Ok(None);
    };
    if matches!(kind.letter, Letter::Branch) {
        return branch_cause(alloc, source, line, operand);
    }
    if needs_place(kind) && is_mark(*first, b'#') {
        let number = decimal(alloc, number as u64)?;
        let cause = cause_at(
            alloc,
            first.start,
            &[
                b": operand ",
                &number,
                b" is a place, and `#` begins a value",
            ],
        )?;
        return Ok(Some(cause));
    }
    Ok(None)
}

/// Why an instruction's operands have no form, if it shows.
fn instruction_cause(
    alloc: Global,
    source: &[u8],
    line: &[u8],
    name: &[u8],
    operands: &[&[Piece]],
) -> Result<Option<Found>, NoMemory> {
    let Some(row) = instruction(name) else {
        return Ok(None);
    };
    for (i, (operand, kind)) in operands.iter().zip(row.operands.iter()).enumerate() {
        let number = i.saturating_add(1);
        if let Some(cause) = operand_cause(alloc, source, line, operand, *kind, number)? {
            return Ok(Some(cause));
        }
    }
    Ok(None)
}

/// Where the first empty operand would stand, if there is one.
fn empty_operand(pieces: &[Piece], operands: &[&[Piece]]) -> Option<u32> {
    if operands.iter().all(|operand| !operand.is_empty()) {
        return None;
    }
    let last = pieces.last()?;
    Some(last.start)
}

/// The other line that would define a name, but that is refused.
fn refused_line(place: Place<'_>, piece: Piece) -> Option<u32> {
    let name = text_of(place.line, piece);
    if !is_name(piece) || is_here(place.line, piece) {
        return None;
    }
    if definition_beside(place.source, name, place.refused).is_some() {
        return None;
    }
    definition_of(place.source, name).filter(|number| *number != place.number)
}

/// Which of these names stands on a line that is refused, if one does.
fn refused_cause(
    alloc: Global,
    place: Place<'_>,
    pieces: &[Piece],
) -> Result<Option<Found>, NoMemory> {
    for piece in pieces {
        if let Some(number) = refused_line(place, *piece) {
            let name = text_of(place.line, *piece);
            let number = decimal(alloc, u64::from(number))?;
            let cause = cause_at(
                alloc,
                piece.start,
                &[
                    b": line ",
                    &number,
                    b", on which `",
                    name,
                    b"` stands, has a fault",
                ],
            )?;
            return Ok(Some(cause));
        }
    }
    Ok(None)
}

/// Why an operand has no form, whatever the statement is, if it shows.
fn any_cause(alloc: Global, place: Place<'_>, pieces: &[Piece]) -> Result<Option<Found>, NoMemory> {
    if let Some(piece) = misfit_text(place.line, pieces) {
        let cause = cause_at(alloc, piece.start, &[b": `^A` takes 1 to 8 characters"])?;
        return Ok(Some(cause));
    }
    refused_cause(alloc, place, pieces)
}

/// Why a statement has an operand of no form.
pub(crate) fn form_cause(
    alloc: Global,
    place: Place<'_>,
    operator: Piece,
    pieces: &[Piece],
    operands: &[&[Piece]],
) -> Result<Found, NoMemory> {
    let line = place.line;
    if let Some(piece) = false_register(line, pieces) {
        let name = text_of(line, piece);
        return cause_at(alloc, piece.start, &[b": `", name, b"` is no register"]);
    }
    if let Some(start) = empty_operand(pieces, operands) {
        return cause_at(alloc, start, &[b": an operand is empty"]);
    }
    let name = text_of(line, operator);
    if let Some(piece) = false_here(place, name, operands) {
        let words = b": `.` can't be in an operand, a label has to be in its place";
        return cause_at(alloc, piece.start, &[words]);
    }
    if let Some(cause) = instruction_cause(alloc, place.source, line, name, operands)? {
        return Ok(cause);
    }
    match any_cause(alloc, place, pieces)? {
        Some(cause) => Ok(cause),
        None => Ok(at(alloc, pieces.first().unwrap_or(&operator).start)),
    }
}
