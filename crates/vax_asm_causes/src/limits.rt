// Displacements, short literals and counts out of range.

use crate::cause::Place;
use crate::names::are_same;
use crate::range::{Field, Signed, fits, mark_of, misfit_at, number_in, number_in_rest};
use crate::statement::{before_bracket, is_mark, is_name, text_of};
use crate::words::{Found, cause_at};
use std::alloc::Global;
use vax_lex::Piece;
use vax_space::NoMemory;

/// What the prefix of an operand lets its number be: `B^`, `W^` or `S^`.
fn field_behind(prefix: &[u8]) -> Option<Field> {
    match prefix {
        [b'B' | b'b'] => Some(Field {
            name: b"a displacement of a byte",
            below: 128,
            above: 127,
            range: b"-128 to 127",
        }),
        [b'W' | b'w'] => Some(Field {
            name: b"a displacement of a word",
            below: 32_768,
            above: 32_767,
            range: b"-32768 to 32767",
        }),
        [b'S' | b's'] => Some(Field {
            name: b"a short literal",
            below: 0,
            above: 63,
            range: b"0 to 63",
        }),
        _ => None,
    }
}

/// Why the number behind an operand's prefix is out of range, if it is one and is so.
pub(crate) fn prefix_cause(
    alloc: Global,
    place: Place<'_>,
    operand: &[Piece],
) -> Result<Option<Found>, NoMemory> {
    let Some((prefix, rest)) = operand.split_first() else {
        return Ok(None);
    };
    let Some((caret, rest)) = rest.split_first() else {
        return Ok(None);
    };
    if !is_name(*prefix) || !is_mark(*caret, b'^') {
        return Ok(None);
    }
    let number = before_bracket(rest);
    let (Some(field), Some(value), Some(mark)) = (
        field_behind(text_of(place.line, *prefix)),
        number_in(place, number),
        mark_of(number),
    ) else {
        return Ok(None);
    };
    if fits(value, field) {
        return Ok(None);
    }
    misfit_at(alloc, mark, value, field)
}

/// What a directive's first operand may be, where it is a count or a power of two.
fn count_words(name: &[u8], number: Signed) -> Option<&'static [u8]> {
    if are_same(name, b".ALIGN") && (number.negative || number.size > 9) {
        return Some(b": a boundary is 2 to a power from 0 to 9");
    }
    if number.negative {
        return Some(b": a count isn't negative");
    }
    None
}

/// Whether a directive takes a count or a power of two.
fn is_counted(name: &[u8]) -> bool {
    are_same(name, b".ALIGN")
        || are_same(name, b".BLKB")
        || are_same(name, b".BLKW")
        || are_same(name, b".BLKL")
        || are_same(name, b".BLKQ")
        || are_same(name, b".BLKA")
        || are_same(name, b".REPT")
}

/// Why a directive's count is out of range, if it is one and is so.
pub(crate) fn counted_cause(
    alloc: Global,
    place: Place<'_>,
    name: &[u8],
    operands: &[&[Piece]],
) -> Result<Option<Found>, NoMemory> {
    let Some(operand) = operands.first() else {
        return Ok(None);
    };
    if !is_counted(name) {
        return Ok(None);
    }
    let (Some(number), Some(first)) = (number_in_rest(place, operand), operand.first()) else {
        return Ok(None);
    };
    match count_words(name, number) {
        Some(words) => {
            let cause = cause_at(alloc, first.start, &[words])?;
            Ok(Some(cause))
        }
        None => Ok(None),
    }
}
