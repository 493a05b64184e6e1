// Too few or too many operands.

use crate::statement::{is_mark, is_name, number_of, text_of};
use crate::words::{Found, at, cause_at, decimal, say};
use std::alloc::Global;
use vax_isa::{Row, by_name};
use vax_lex::Piece;
use vax_space::NoMemory;

/// The instruction with this name.
pub(crate) fn instruction(name: &[u8]) -> Option<Row> {
    if !name.is_ascii() {
        return None;
    }
    by_name(str::from_utf8(name).ok()?)
}

/// Whether an operand can end with a piece.
fn may_end(piece: Piece) -> bool {
    is_name(piece) || number_of(piece).is_some() || is_mark(piece, b')') || is_mark(piece, b']')
}

/// Whether an operand begins with a piece.
fn may_begin(piece: Piece) -> bool {
    is_name(piece) || number_of(piece).is_some() || is_mark(piece, b'#') || is_mark(piece, b'@')
}

/// The first piece before which a blank stands in place of a comma.
fn lacks_comma(operands: &[Piece]) -> Option<Piece> {
    let mut last: Option<Piece> = None;
    for piece in operands {
        if let Some(before) = last {
            if before.end < piece.start && may_end(before) && may_begin(*piece) {
                return Some(*piece);
            }
        }
        last = Some(*piece);
    }
    None
}

/// How many operands are wanted and how many there are, in words.
fn count_words(alloc: Global, wanted: u64, count: u64) -> Result<Vec<u8>, NoMemory> {
    let takes = decimal(alloc, wanted)?;
    let here = decimal(alloc, count)?;
    if wanted == 1 {
        say(alloc, &[&takes, b" operand, not ", &here])
    } else {
        say(alloc, &[&takes, b" operands, not ", &here])
    }
}

/// How many operands an instruction takes, and how many it has.
fn counted(
    alloc: Global,
    line: &[u8],
    operator: Piece,
    row: Row,
    count: usize,
) -> Result<Found, NoMemory> {
    let words = count_words(alloc, u64::from(row.count), count as u64)?;
    let name = text_of(line, operator);
    cause_at(alloc, operator.start, &[b": `", name, b"` takes ", &words])
}

/// Why a statement has the wrong number of operands.
pub(crate) fn count_cause(
    alloc: Global,
    line: &[u8],
    operator: Piece,
    operands: &[Piece],
    count: usize,
) -> Result<Found, NoMemory> {
    if let Some(piece) = lacks_comma(operands) {
        let text = text_of(line, piece);
        return cause_at(
            alloc,
            piece.start,
            &[b": a comma is missing before `", text, b"`"],
        );
    }
    match instruction(text_of(line, operator)) {
        Some(row) => counted(alloc, line, operator, row, count),
        None => Ok(at(alloc, operator.start)),
    }
}
