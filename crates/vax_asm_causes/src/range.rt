// Numbers and distances out of range.

use crate::cause::Place;
use crate::count::instruction;
use crate::limits::{counted_cause, prefix_cause};
use crate::names::are_same;
use crate::statement::{before_bracket, expression_of, is_mark, number_of, text_between, text_of};
use crate::words::{Found, at, cause_at, decimal, say};
use std::alloc::Global;
use vax_isa::{Letter, OperandKind};
use vax_lex::{Piece, PieceKind};
use vax_space::NoMemory;

/// A number with its sign.
#[derive(Clone, Copy)]
pub(crate) struct Signed {
    pub(crate) negative: bool,
    pub(crate) size: u64,
}

/// A number of 64 bits, with its sign.
fn as_signed(value: i64) -> Signed {
    Signed {
        negative: value < 0,
        size: value.unsigned_abs(),
    }
}

/// The number that an operand is, behind `#` or not, if it is one or an expression whose value is known.
pub(crate) fn number_in(place: Place<'_>, operand: &[Piece]) -> Option<Signed> {
    let (first, rest) = operand.split_first()?;
    if is_mark(*first, b'#') {
        return number_in_rest(place, rest);
    }
    number_in_rest(place, operand)
}

/// The number that pieces are, with a sign or without.
fn written_number(pieces: &[Piece]) -> Option<Signed> {
    match pieces {
        [number] => Some(Signed {
            negative: false,
            size: number_of(*number)?,
        }),
        [sign, number] if is_mark(*sign, b'-') => Some(Signed {
            negative: true,
            size: number_of(*number)?,
        }),
        _ => None,
    }
}

/// Where an operand's number is marked: at its digits where it is written as one, and else where its expression begins.
pub(crate) fn mark_of(operand: &[Piece]) -> Option<u32> {
    let pieces = expression_of(operand);
    let piece = match written_number(pieces) {
        Some(_) => pieces.last()?,
        None => pieces.first()?,
    };
    Some(piece.start)
}

/// The number that pieces are, or the value of the expression that they are before a bracket.
pub(crate) fn number_in_rest(place: Place<'_>, pieces: &[Piece]) -> Option<Signed> {
    match written_number(pieces) {
        Some(number) => Some(number),
        None => {
            let text = text_between(place.line, before_bracket(pieces));
            Some(as_signed(place.facts.value(text)?))
        }
    }
}

/// What a field holds: from minus `below` on up to `above`.
#[derive(Clone, Copy)]
pub(crate) struct Field {
    pub(crate) name: &'static [u8],
    pub(crate) below: u64,
    pub(crate) above: u64,
    pub(crate) range: &'static [u8],
}

/// The field of so many bytes.
fn field_of(width: u8) -> Option<Field> {
    match width {
        1 => Some(Field {
            name: b"a byte",
            below: 128,
            above: 255,
            range: b"-128 to 255",
        }),
        2 => Some(Field {
            name: b"a word",
            below: 32_768,
            above: 65_535,
            range: b"-32768 to 65535",
        }),
        4 => Some(Field {
            name: b"a longword",
            below: 2_147_483_648,
            above: 4_294_967_295,
            range: b"-2147483648 to 4294967295",
        }),
        _ => None,
    }
}

pub(crate) fn fits(number: Signed, field: Field) -> bool {
    if number.negative {
        number.size <= field.below
    } else {
        number.size <= field.above
    }
}

/// The width of a directive's items.
fn width_of(name: &[u8]) -> u8 {
    if are_same(name, b".BYTE") {
        1
    } else if are_same(name, b".WORD") {
        2
    } else if are_same(name, b".LONG") || are_same(name, b".ADDRESS") {
        4
    } else {
        0
    }
}

/// How a sign is written.
fn sign_of(number: Signed) -> &'static [u8] {
    if number.negative { b"-" } else { b"" }
}

/// The words on a number that doesn't fit its field.
pub(crate) fn misfit_at(
    alloc: Global,
    column: u32,
    number: Signed,
    field: Field,
) -> Result<Option<Found>, NoMemory> {
    let size = decimal(alloc, number.size)?;
    let sign = sign_of(number);
    let cause = cause_at(
        alloc,
        column,
        &[
            b": ",
            field.name,
            b" holds ",
            field.range,
            b", not ",
            sign,
            &size,
        ],
    )?;
    Ok(Some(cause))
}

/// Why a number doesn't fit its field, if it is one that doesn't.
fn misfit(
    alloc: Global,
    place: Place<'_>,
    operand: &[Piece],
    width: u8,
) -> Result<Option<Found>, NoMemory> {
    let Some(number) = number_in(place, operand) else {
        return Ok(None);
    };
    let Some(field) = field_of(width) else {
        return Ok(None);
    };
    let Some(mark) = mark_of(operand) else {
        return Ok(None);
    };
    if fits(number, field) {
        return Ok(None);
    }
    misfit_at(alloc, mark, number, field)
}

/// The first piece that is a number above 64 bits.
fn wide_in(pieces: &[Piece]) -> Option<Piece> {
    for piece in pieces {
        if matches!(piece.kind, PieceKind::Wide) {
            return Some(*piece);
        }
    }
    None
}

/// The first 0 that stands behind a `/`.
fn zero_divisor(pieces: &[Piece]) -> Option<Piece> {
    let mut divides = false;
    for piece in pieces {
        if divides && number_of(*piece) == Some(0) {
            return Some(*piece);
        }
        divides = is_mark(*piece, b'/');
    }
    None
}

/// How far a branch of a displacement of so many bytes reaches.
fn reach_of(width: u8) -> Field {
    if width == 1 {
        Field {
            name: b"a branch",
            below: 128,
            above: 127,
            range: b"-128 to 127",
        }
    } else {
        Field {
            name: b"a branch",
            below: 32_768,
            above: 32_767,
            range: b"-32768 to 32767",
        }
    }
}

/// Why a branch can't go so far, or, where that isn't known, how far it can go.
fn reach_words(alloc: Global, distance: Option<Signed>, field: Field) -> Result<Vec<u8>, NoMemory> {
    match distance {
        Some(distance) if !fits(distance, field) => {
            let size = decimal(alloc, distance.size)?;
            say(
                alloc,
                &[
                    b"the branch would have to reach ",
                    sign_of(distance),
                    &size,
                    b" bytes from its end, and reaches ",
                    field.range,
                ],
            )
        }
        _ => say(
            alloc,
            &[b"the branch reaches ", field.range, b" bytes from its end"],
        ),
    }
}

/// What is said of a branch's operand.
fn reach(
    alloc: Global,
    place: Place<'_>,
    operand: &[Piece],
    width: u8,
) -> Result<Option<Found>, NoMemory> {
    let Some(first) = operand.first() else {
        return Ok(None);
    };
    let name = text_of(place.line, *first);
    let words = reach_words(alloc, place.facts.reach.map(as_signed), reach_of(width))?;
    let cause = cause_at(
        alloc,
        first.start,
        &[b": `", name, b"` is too far, ", &words],
    )?;
    Ok(Some(cause))
}

/// Why an operand of this kind is out of range, if it shows.
fn operand_cause(
    alloc: Global,
    place: Place<'_>,
    operand: &[Piece],
    kind: OperandKind,
) -> Result<Option<Found>, NoMemory> {
    if matches!(kind.letter, Letter::Branch) {
        return reach(alloc, place, operand, kind.width);
    }
    match operand.first() {
        Some(first) if is_mark(*first, b'#') => misfit(alloc, place, operand, kind.width),
        _ => prefix_cause(alloc, place, operand),
    }
}

/// Why an instruction's operands are out of range, if it shows.
fn instruction_cause(
    alloc: Global,
    place: Place<'_>,
    name: &[u8],
    operands: &[&[Piece]],
) -> Result<Option<Found>, NoMemory> {
    let Some(row) = instruction(name) else {
        return Ok(None);
    };
    for (operand, kind) in operands.iter().zip(row.operands.iter()) {
        if let Some(cause) = operand_cause(alloc, place, operand, *kind)? {
            return Ok(Some(cause));
        }
    }
    Ok(None)
}

/// Why a directive's items are out of range, if it shows.
fn items_cause(
    alloc: Global,
    place: Place<'_>,
    name: &[u8],
    operands: &[&[Piece]],
) -> Result<Option<Found>, NoMemory> {
    let width = width_of(name);
    for operand in operands {
        if let Some(cause) = misfit(alloc, place, operand, width)? {
            return Ok(Some(cause));
        }
    }
    Ok(None)
}

/// Why a statement that is `. = e` is out of range, if it goes back.
fn move_cause(alloc: Global, place: Place<'_>, operator: Piece) -> Result<Option<Found>, NoMemory> {
    match place.facts.reach {
        Some(bytes) if bytes < 0 && text_of(place.line, operator) == b".".as_slice() => {
            let bytes = decimal(alloc, bytes.unsigned_abs())?;
            let cause = cause_at(
                alloc,
                operator.start,
                &[b": `.` goes forward alone here, not by -", &bytes],
            )?;
            Ok(Some(cause))
        }
        _ => Ok(None),
    }
}

/// Why a statement has a number or a distance out of range.
pub(crate) fn range_cause(
    alloc: Global,
    place: Place<'_>,
    operator: Piece,
    pieces: &[Piece],
    operands: &[&[Piece]],
) -> Result<Found, NoMemory> {
    if let Some(piece) = wide_in(pieces) {
        return cause_at(alloc, piece.start, &[b": a number has at most 64 bits"]);
    }
    if let Some(piece) = zero_divisor(pieces) {
        return cause_at(alloc, piece.start, &[b": a division by 0"]);
    }
    if let Some(cause) = move_cause(alloc, place, operator)? {
        return Ok(cause);
    }
    let name = text_of(place.line, operator);
    if let Some(cause) = items_cause(alloc, place, name, operands)? {
        return Ok(cause);
    }
    if let Some(cause) = counted_cause(alloc, place, name, operands)? {
        return Ok(cause);
    }
    match instruction_cause(alloc, place, name, operands)? {
        Some(cause) => Ok(cause),
        None => Ok(at(alloc, operator.start)),
    }
}
