// Names that expansions make.

ghost use Rattle.std.specs.Prelude.{◌≡◌, [], IfOk, is_some, slice_get};
ghost use Rattle.std.specs.List.{list_any};
ghost use Rattle.vax_asm_causes.specs.Counts.{often_in};
ghost use Rattle.vax_asm_causes.specs.Places.{line_pieces};
ghost use Rattle.vax_asm_causes.specs.Remarks.{has_end, has_front, has_maker, is_byte, is_continued, is_end, is_gap, is_prefix, is_size, makes};

use crate::counts::{Counts, stands};
use crate::places::is_called;
use crate::statement::{is_mark, is_name, pieces_of};
use std::alloc::Global;
use vax_dialect::Dialect;
use vax_lex::{Piece, is_blank};
use vax_lines::next_line;
use vax_space::NoMemory;

/// What makes names in expansions that don't stand in the text as a whole.
#[derive(Clone, Copy, PartialEq, Eq)]
pub(crate) enum Maker {
    /// An apostrophe, which joins an argument to what stands beside it, and a name within which a line is continued.
    Joint,
    /// What takes apart: `.IRPC`, an operator on texts, and an argument in place of the letter before a `^`.
    Split,
}

/// Whether a piece of a line is a letter that may stand before a `^`.
fn is_size(line: &[u8], piece: Piece) -> bool
    ensures { result ≡ is_size line.now piece }
{
    is_called(line, piece, b"B")
        || is_called(line, piece, b"W")
        || is_called(line, piece, b"L")
        || is_called(line, piece, b"G")
        || is_called(line, piece, b"S")
        || is_called(line, piece, b"I")
}

/// Whether the byte at a place of a line is this one.
fn is_byte_at(line: &[u8], at: u32, byte: u8) -> bool
    ensures { result ≡ is_byte byte (slice_get line.now at) }
{
    match line.get(at as usize) {
        None => false,
        Some(other) => *other == byte,
    }
}

/// Whether a piece of a line is a name right before a `^` and no letter that may stand there.
fn is_prefix(line: &[u8], piece: Piece) -> bool
    ensures { result ≡ is_prefix line.now piece }
{
    is_name(piece) && !is_size(line, piece) && is_byte_at(line, piece.end, b'^')
}

/// Whether nothing, a blank or a comment stands at a place of a line.
fn is_gap_at(line: &[u8], at: usize) -> bool
    ensures { result ≡ is_gap (slice_get line.now at) }
{
    match line.get(at) {
        None => true,
        Some(byte) => is_blank(*byte) || *byte == b';',
    }
}

/// Whether a piece of a line is a name right before a `-` that is last on the line.
fn is_continued(line: &[u8], piece: Piece) -> bool
    ensures { result ≡ is_continued line.now piece }
{
    is_name(piece) && is_byte_at(line, piece.end, b'-') && is_gap_at(line, piece.end as usize + 1)
}

/// Whether a piece of a line makes names in expansions.
fn makes(line: &[u8], piece: Piece, maker: Maker) -> bool
    ensures { result ≡ makes maker line.now piece }
{
    match maker {
        Maker::Joint => is_mark(piece, b'\'') || is_continued(line, piece),
        Maker::Split => {
            is_called(line, piece, b".IRPC") || is_mark(piece, b'%') || is_prefix(line, piece)
        }
    }
}

/// Whether one of the pieces of a line makes names in expansions.
fn is_among(line: &[u8], pieces: &[Piece], maker: Maker) -> bool
    ensures { result ≡ list_any (makes maker line.now) pieces.now }
{
    for piece in pieces {
        if makes(line, *piece, maker) {
            return true;
        }
    }
    false
}

/// Whether a piece of a line makes names in expansions.
fn is_on(alloc: Global, dialect: Dialect, line: &[u8], maker: Maker) -> Result<bool, NoMemory>
    ensures { IfOk result
        (λ b. b ≡ list_any (makes maker line.now) (line_pieces dialect line.now)) }
{
    let pieces = pieces_of(alloc, dialect, line)?;
    Ok(is_among(line, &pieces, maker))
}

/// Whether a source of a dialect has what makes names in expansions.
pub(crate) fn has_maker(
    alloc: Global,
    dialect: Dialect,
    source: &[u8],
    maker: Maker,
) -> Result<bool, NoMemory>
    ensures { IfOk result (λ b. b ≡ has_maker dialect maker source.now) }
{
    let mut rest = source;
    while let Some((line, behind)) = next_line(rest) {
        if is_on(alloc, dialect, line, maker)? {
            return Ok(true);
        }
        rest = behind;
    }
    Ok(false)
}

/// Whether a shorter front of a name stands among those that are counted.
#[tactic(auto, unfolding(crate::specs::Remarks::has_front))]
pub(crate) fn has_front(alloc: Global, counts: &Counts, name: &[u8]) -> Result<bool, NoMemory>
    ensures { IfOk result
        (λ b. b ≡ has_front (λ text. is_some (often_in counts.now text)) [] name.now) }
{
    for i in 0..name.len() {
        if stands(alloc, counts, name.split_at(i).0)? {
            return Ok(true);
        }
    }
    Ok(false)
}

/// Whether an argument or a text beside it can give this end of a name: it begins with a digit, or stands among those that are counted.
fn is_end(alloc: Global, counts: &Counts, end: &[u8]) -> Result<bool, NoMemory>
    ensures { IfOk result
        (λ b. b ≡ is_end (λ text. is_some (often_in counts.now text)) end.now) }
{
    match end.first() {
        None => Ok(false),
        Some(first) => Ok(first.is_ascii_digit() || stands(alloc, counts, end)?),
    }
}

/// Whether a shorter end of a name begins with a digit, or stands among those that are counted.
#[tactic(auto, unfolding(crate::specs::Remarks::has_end))]
pub(crate) fn has_end(alloc: Global, counts: &Counts, name: &[u8]) -> Result<bool, NoMemory>
    ensures { IfOk result
        (λ b. b ≡ has_end (λ text. is_some (often_in counts.now text)) name.now) }
{
    let mut rest = name;
    while let Some((_, behind)) = rest.split_first() {
        if is_end(alloc, counts, behind)? {
            return Ok(true);
        }
        rest = behind;
    }
    Ok(false)
}
