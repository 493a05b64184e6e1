// The lines of macros and repeats, and those that they become.

ghost use Rattle.std.specs.Prelude.{◌≤◌, length};

use crate::cause::Place;
use crate::names::{are_same, blanks, name_length};
use crate::statement::{is_mark, is_name, pieces_of, text_of};
use std::alloc::Global;
use vax_dialect::Dialect;
use vax_lex::Piece;
use vax_lines::next_line;
use vax_space::NoMemory;

/// A line of a macro's or a repeat's body: the name behind `.MACRO`, none for a repeat, and its number there, counted from 1.
#[derive(Clone, Copy)]
pub(crate) struct BodyLine<'a> {
    pub(crate) name: &'a [u8],
    pub(crate) number: u32,
}

/// The first word of a line.
fn first_word(line: &[u8]) -> &[u8] {
    let text = line.split_at(blanks(line)).1;
    text.split_at(name_length(text)).0
}

/// Whether a word begins a macro or a repeat.
fn begins(word: &[u8]) -> bool {
    are_same(word, b".MACRO") || is_repeat(word)
}

/// Whether a word begins a repeat.
pub(crate) fn is_repeat(word: &[u8]) -> bool {
    are_same(word, b".REPT") || are_same(word, b".IRP") || are_same(word, b".IRPC")
}

/// Whether a word ends a macro or a repeat.
fn ends(word: &[u8]) -> bool {
    are_same(word, b".ENDM") || are_same(word, b".ENDR")
}

/// A part of a line, without the marks that join an argument to what stands beside it.
fn part_of(line: &[u8], from: usize, to: usize) -> &[u8] {
    let Some(part) = line.get(from..to) else {
        return &[];
    };
    let part = match part.split_first() {
        Some((b'\'', rest)) if from > 0 => rest,
        _ => part,
    };
    match part.split_last() {
        Some((b'\'', rest)) if to < line.len() => rest,
        _ => part,
    }
}

/// What stands in a text behind this part, which stands at its front, or anywhere where the text is free.
fn behind_part<'a>(text: &'a [u8], part: &[u8], is_free: bool) -> Option<&'a [u8]> {
    let mut rest = text;
    while let Some((_, behind)) = rest.split_first() {
        if rest.starts_with(part) {
            return rest.get(part.len()..rest.len());
        }
        if !is_free {
            return None;
        }
        rest = behind;
    }
    if part.is_empty() { Some(rest) } else { None }
}

/// Whether a word is a formal argument of the macro or the repeat that begins with these pieces of a line.
fn is_formal(header: &[u8], pieces: &[Piece], word: &[u8]) -> bool {
    let mut is_default = false;
    for piece in pieces {
        if !is_default && is_name(*piece) && are_same(text_of(header, *piece), word) {
            return true;
        }
        is_default = is_mark(*piece, b'=');
    }
    false
}

/// Whether a text is a line of a body, with texts in place of the formal arguments.
fn is_made_of(header: &[u8], pieces: &[Piece], line: &[u8], text: &[u8]) -> bool {
    let mut left = text;
    let mut is_free = false;
    let mut from: usize = 0;
    let mut at: usize = 0;
    let mut rest = line;
    while let Some((_, behind)) = rest.split_first() {
        let count = name_length(rest);
        if count == 0 {
            rest = behind;
            at = at.saturating_add(1);
        } else {
            let (word, more) = rest.split_at(count);
            if is_formal(header, pieces, word) {
                let Some(other) = behind_part(left, part_of(line, from, at), is_free) else {
                    return false;
                };
                left = other;
                is_free = true;
                from = at.saturating_add(count);
            }
            rest = more;
            at = at.saturating_add(count);
        }
    }
    let last = part_of(line, from, at);
    left == last || (is_free && left.ends_with(last))
}

/// Which line of the body that comes behind a header became this text; none where no line or more than one can have.
fn line_in(header: &[u8], pieces: &[Piece], body: &[u8], text: &[u8]) -> Option<u32> {
    let mut found: Option<u32> = None;
    let mut depth: u32 = 0;
    let mut number: u32 = 1;
    let mut rest = body;
    while let Some((line, behind)) = next_line(rest) {
        let word = first_word(line);
        if ends(word) {
            if depth == 0 {
                return found;
            }
            depth = depth.saturating_sub(1);
        } else if begins(word) {
            depth = depth.saturating_add(1);
        } else if is_made_of(header, pieces, line, text) {
            if found.is_some() {
                return None;
            }
            found = Some(number);
        }
        number = number.saturating_add(1);
        rest = behind;
    }
    found
}

/// What stands behind the line with this number, counted from 1.
fn behind_line(source: &[u8], number: u32) -> &[u8] {
    let mut left = number;
    let mut rest = source;
    while let Some((_, behind)) = next_line(rest) {
        if left == 0 {
            return rest;
        }
        left = left.saturating_sub(1);
        rest = behind;
    }
    &[]
}

/// Which line of a repeat that this line begins became this text.
pub(crate) fn line_of_repeat(
    alloc: Global,
    header: Place<'_>,
    text: &[u8],
) -> Result<Option<u32>, NoMemory> {
    let pieces = pieces_of(alloc, header.dialect, header.line)?;
    Ok(line_in(
        header.line,
        pieces.get(1..pieces.len()).unwrap_or(&[]),
        behind_line(header.source, header.number),
        text,
    ))
}

/// The name behind `.MACRO`, and what stands behind it.
fn macro_named<'a, 'b>(line: &'a [u8], pieces: &'b [Piece]) -> Option<(&'a [u8], &'b [Piece])> {
    let (_, rest) = pieces.split_first()?;
    let (name, formals) = rest.split_first()?;
    Some((text_of(line, *name), formals))
}

/// Which line of the macro that this line of a source begins became this text; of the one with this name, or of any.
fn line_of_macro<'a>(
    alloc: Global,
    dialect: Dialect,
    header: &'a [u8],
    body: &[u8],
    wanted: Option<&[u8]>,
    text: &[u8],
) -> Result<Option<BodyLine<'a>>, NoMemory> {
    let pieces = pieces_of(alloc, dialect, header)?;
    let Some((name, formals)) = macro_named(header, &pieces) else {
        return Ok(None);
    };
    if let Some(wanted) = wanted {
        if !are_same(name, wanted) {
            return Ok(None);
        }
    }
    match line_in(header, formals, body, text) {
        Some(number) => Ok(Some(BodyLine { name, number })),
        None => Ok(None),
    }
}

/// Which line of a macro of a source became this text: of the one with this name, or of any.
pub(crate) fn line_in_macros<'a>(
    alloc: Global,
    dialect: Dialect,
    source: &'a [u8],
    wanted: Option<&[u8]>,
    text: &[u8],
) -> Result<Option<BodyLine<'a>>, NoMemory> {
    let mut rest = source;
    while let Some((line, behind)) = next_line(rest) {
        if are_same(first_word(line), b".MACRO") {
            if let Some(found) = line_of_macro(alloc, dialect, line, behind, wanted, text)? {
                return Ok(Some(found));
            }
        }
        rest = behind;
    }
    Ok(None)
}
