// Bytes that belong to no token, and names that are too long.

ghost use Rattle.std.specs.Prelude.{◌≡◌, IfOk, unwrap_or};
ghost use Rattle.vax_asm_causes.specs.Marked.{is_stray_kind, stray_in, stray_or};
ghost use Rattle.vax_lex.specs.declared.token.Piece.{Piece};

use crate::names::name_length;
use crate::statement::{LONGEST, is_name, text_of};
use crate::words::{Found, at, cause_at, decimal, hexadecimal};
use std::alloc::Global;
use vax_lex::{Piece, PieceKind};
use vax_space::NoMemory;

/// The longest name.
const LONGEST_NAME: usize = 31;

/// Whether a piece is no token.
fn is_stray(piece: Piece) -> bool
    ensures { result ≡ is_stray_kind piece.kind }
{
    match piece.kind {
        PieceKind::Token(_) => false,
        PieceKind::Wide | PieceKind::Bad => true,
    }
}

/// The first piece that is no token.
fn stray(pieces: &[Piece]) -> Option<Piece>
    ensures { (other : Piece) → unwrap_or result other ≡ stray_or other pieces.now }
{
    let mut rest = pieces;
    while let Some((piece, behind)) = rest.split_first() {
        if is_stray(*piece) {
            return Some(*piece);
        }
        rest = behind;
    }
    None
}

/// Whether a byte that begins no token begins a text that nothing ends: no other byte that can be printed does so but a `^`.
fn begins_text(text: &[u8]) -> bool {
    match text {
        [byte] => byte.is_ascii_graphic() && *byte != b'^',
        _ => false,
    }
}

/// Whether a line goes on with a byte order mark.
fn is_order_mark(line: &[u8], at: u32) -> bool {
    match line.get(at as usize..line.len()) {
        Some(rest) => rest.starts_with(&[0xEF, 0xBB, 0xBF]),
        None => false,
    }
}

/// Why a byte of the line belongs to no token.
fn stray_cause(alloc: Global, line: &[u8], piece: Piece) -> Result<Found, NoMemory>
    ensures { IfOk result (λ f. f.column ≡ piece.start) }
{
    let text = text_of(line, piece);
    if begins_text(text) {
        let words: [&[u8]; 5] = [
            b": the text that begins with `",
            text,
            b"` has no closing `",
            text,
            b"`",
        ];
        return cause_at(alloc, piece.start, &words);
    }
    if is_order_mark(line, piece.start) {
        let words = b": a byte order mark is here, and the source must be saved without it";
        return cause_at(alloc, piece.start, &[words]);
    }
    match text {
        [byte] if !byte.is_ascii_graphic() => {
            let digits = hexadecimal(alloc, *byte)?;
            cause_at(
                alloc,
                piece.start,
                &[
                    b": nothing begins with the byte ",
                    &digits,
                    b" (hexadecimal)",
                ],
            )
        }
        _ => cause_at(
            alloc,
            piece.start,
            &[b": nothing begins with `", text, b"` here"],
        ),
    }
}

/// What is wrong with a line's bytes.
pub(crate) fn token_cause(
    alloc: Global,
    line: &[u8],
    pieces: &[Piece],
    first: Piece,
) -> Result<Found, NoMemory>
    ensures { IfOk result (λ f. f.column ≡ (stray_in line.now first pieces.now).start) }
{
    if line.len() > LONGEST {
        return cause_at(alloc, first.start, &[b": a line has at most 1024 bytes"]);
    }
    match stray(pieces) {
        Some(piece) => stray_cause(alloc, line, piece),
        None => Ok(at(alloc, first.start)),
    }
}

/// How many bytes a name has that begins here.
fn length_at(line: &[u8], piece: Piece) -> usize {
    match line.get(piece.start as usize..line.len()) {
        Some(rest) => name_length(rest),
        None => 0,
    }
}

/// Whether a piece is the front of a name that is too long.
fn is_long(line: &[u8], piece: Piece) -> bool {
    is_name(piece)
        && text_of(line, piece).len() >= LONGEST_NAME
        && length_at(line, piece) > LONGEST_NAME
}

/// The first name that is too long.
fn long_name(line: &[u8], pieces: &[Piece]) -> Option<Piece> {
    for piece in pieces {
        if is_long(line, *piece) {
            return Some(*piece);
        }
    }
    None
}

/// That a name is too long.
fn long_at(alloc: Global, line: &[u8], piece: Piece) -> Result<Found, NoMemory>
    ensures { IfOk result (λ f. f.column ≡ piece.start) }
{
    let length = decimal(alloc, length_at(line, piece) as u64)?;
    cause_at(
        alloc,
        piece.start,
        &[b": a name has at most 31 characters, not ", &length],
    )
}

/// The name among these pieces that is too long, if there is one.
pub(crate) fn long_cause(
    alloc: Global,
    line: &[u8],
    pieces: &[Piece],
) -> Result<Option<Found>, NoMemory> {
    let Some(piece) = long_name(line, pieces) else {
        return Ok(None);
    };
    Ok(Some(long_at(alloc, line, piece)?))
}

/// Which operator isn't known: it has no name that is there, or one that is too long.
pub(crate) fn operator_cause(alloc: Global, line: &[u8], operator: Piece) -> Result<Found, NoMemory>
    ensures { IfOk result (λ f. f.column ≡ operator.start) }
{
    if is_long(line, operator) {
        return long_at(alloc, line, operator);
    }
    let name = text_of(line, operator);
    cause_at(alloc, operator.start, &[b": `", name, b"`"])
}
