// Conditions of `.IF` and `.IIF`.

use crate::names::are_same;
use crate::statement::{depth_behind, is_mark, text_of, without_mark};
use crate::words::{Found, at, cause_at};
use std::alloc::Global;
use vax_lex::Piece;
use vax_space::NoMemory;

/// Whether an operator takes a condition.
pub(crate) fn takes_condition(name: &[u8]) -> bool {
    are_same(name, b".IF") || is_immediate(name)
}

/// Whether an operator takes a condition and a statement.
fn is_immediate(name: &[u8]) -> bool {
    are_same(name, b".IIF")
}

/// Whether a condition with this name compares a number with 0.
fn compares_number(name: &[u8]) -> bool {
    are_same(name, b"EQ")
        || are_same(name, b"EQUAL")
        || are_same(name, b"NE")
        || are_same(name, b"NOT_EQUAL")
        || are_same(name, b"GT")
        || are_same(name, b"GREATER")
        || are_same(name, b"LT")
        || are_same(name, b"LESS_THAN")
        || are_same(name, b"GE")
        || are_same(name, b"GREATER_EQUAL")
        || are_same(name, b"LE")
        || are_same(name, b"LESS_EQUAL")
}

/// Whether a condition with this name asks for a definition or a blank text.
fn asks_for_one(name: &[u8]) -> bool {
    are_same(name, b"DF")
        || are_same(name, b"DEFINED")
        || are_same(name, b"NDF")
        || are_same(name, b"NOT_DEFINED")
        || are_same(name, b"B")
        || are_same(name, b"BLANK")
        || are_same(name, b"NB")
        || are_same(name, b"NOT_BLANK")
}

/// Whether a condition with this name compares two texts.
fn compares_texts(name: &[u8]) -> bool {
    are_same(name, b"IDN")
        || are_same(name, b"IDENTICAL")
        || are_same(name, b"DIF")
        || are_same(name, b"DIFFERENT")
}

/// Whether there is a condition with this name.
fn is_condition(name: &[u8]) -> bool {
    compares_number(name) || asks_for_one(name) || compares_texts(name)
}

/// The pieces before the first comma outside of brackets.
fn before_comma(pieces: &[Piece]) -> &[Piece] {
    let mut depth: u32 = 0;
    for (i, piece) in pieces.iter().enumerate() {
        if depth == 0 && is_mark(*piece, b',') {
            return pieces.split_at(i).0;
        }
        depth = depth_behind(depth, *piece);
    }
    pieces
}

/// What a statement's operands are about: of a condition what is after its name, and else all of them.
pub(crate) fn subject_of<'a>(line: &[u8], operator: Piece, operands: &'a [Piece]) -> &'a [Piece] {
    let name = text_of(line, operator);
    if !takes_condition(name) {
        return operands;
    }
    let rest = match operands {
        [first, rest @ ..] if is_condition(text_of(line, *first)) => without_mark(rest, b','),
        _ => operands,
    };
    if is_immediate(name) {
        before_comma(rest)
    } else {
        rest
    }
}

/// Why a condition has no form.
pub(crate) fn condition_form(
    alloc: Global,
    line: &[u8],
    operator: Piece,
    operands: &[Piece],
) -> Result<Found, NoMemory> {
    let Some(name) = operands.first() else {
        return Ok(at(alloc, operator.start));
    };
    let text = text_of(line, *name);
    if !is_condition(text) {
        return cause_at(alloc, name.start, &[b": `", text, b"` is no condition"]);
    }
    let subject = subject_of(line, operator, operands);
    Ok(at(alloc, subject.first().unwrap_or(name).start))
}

/// Why a condition has the wrong number of operands.
pub(crate) fn condition_count(
    alloc: Global,
    line: &[u8],
    operator: Piece,
    operands: &[Piece],
) -> Result<Found, NoMemory> {
    let name = text_of(line, operator);
    let Some(first) = operands.first() else {
        return cause_at(
            alloc,
            operator.start,
            &[b": `", name, b"` takes a condition"],
        );
    };
    if is_immediate(name) {
        return cause_at(
            alloc,
            operator.start,
            &[
                b": `",
                name,
                b"` takes a condition, what it is about, a comma and a statement",
            ],
        );
    }
    let text = text_of(line, *first);
    let takes: &[u8] = if compares_texts(text) {
        b"` takes 2 operands"
    } else {
        b"` takes 1 operand"
    };
    cause_at(alloc, first.start, &[b": `", text, takes])
}
