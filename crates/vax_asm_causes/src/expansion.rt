// The lines of expansions.

ghost use Rattle.std.specs.Prelude.{IfOk};
ghost use Rattle.vax_asm_causes.specs.Printed.{ArePrinted};

use crate::cause::Place;
use crate::names::are_same;
use crate::statement::{Statement, is_mark, parts_of, pieces_of, text_of};
use crate::templates::{BodyLine, is_repeat, line_in_macros, line_of_repeat};
use crate::words::{as_printed, decimal, say};
use std::alloc::Global;
use vax_dialect::Dialect;
use vax_lex::Piece;
use vax_space::NoMemory;

/// The operator of a statement, or the name that it assigns to.
fn name_in<'a>(line: &'a [u8], pieces: &[Piece]) -> &'a [u8] {
    let Statement {
        label,
        operator,
        ..
    } = parts_of(pieces);
    match operator.or(label) {
        Some(piece) => text_of(line, piece),
        None => &[],
    }
}

/// Whether some bytes stand in a line.
fn stands_in(line: &[u8], text: &[u8]) -> bool {
    let mut rest = line;
    while let Some((_, behind)) = rest.split_first() {
        if rest.starts_with(text) {
            return true;
        }
        rest = behind;
    }
    text.is_empty()
}

/// Which line of which macro or repeat a statement of an expansion comes from, in words.
fn origin_words(
    alloc: Global,
    place: Place<'_>,
    name: &[u8],
    text: &[u8],
) -> Result<Vec<u8>, NoMemory> {
    if is_repeat(name) {
        return match line_of_repeat(alloc, place, text)? {
            Some(number) => {
                let number = decimal(alloc, u64::from(number))?;
                say(alloc, &[name, b", its line ", &number])
            }
            None => say(alloc, &[name]),
        };
    }
    let found = match line_in_macros(alloc, place.dialect, place.source, Some(name), text)? {
        Some(found) => Some(found),
        None => line_in_macros(alloc, place.dialect, place.source, None, text)?,
    };
    match found {
        Some(BodyLine { name, number }) => {
            let number = decimal(alloc, u64::from(number))?;
            say(alloc, &[b"macro ", name, b", its line ", &number])
        }
        None => say(alloc, &[b"macro ", name]),
    }
}

/// Whether a line goes on behind it: its last piece is a `-`.
///
/// # Errors
///
/// [`NoMemory`] where memory is refused.
pub fn is_continued(alloc: Global, dialect: Dialect, line: &[u8]) -> Result<bool, NoMemory> {
    match pieces_of(alloc, dialect, line)?.last() {
        Some(last) => Ok(is_mark(*last, b'-')),
        None => Ok(false),
    }
}

/// Where a statement with this text doesn't stand on the place's line itself, but in an expansion that the line begins: of which macro or repeat, from
/// which line of it, and the text. Nothing for any other.
///
/// # Errors
///
/// [`NoMemory`] where memory is refused.
pub fn expansion_of(alloc: Global, place: Place<'_>, text: &[u8]) -> Result<Vec<u8>, NoMemory>
    ensures { IfOk result (λ v. ArePrinted v.items) }
{
    let outer = pieces_of(alloc, place.dialect, place.line)?;
    let inner = pieces_of(alloc, place.dialect, text)?;
    let name = name_in(place.line, &outer);
    if stands_in(place.line, text) || are_same(name, name_in(text, &inner)) {
        return as_printed(alloc, &[]);
    }
    let origin = origin_words(alloc, place, name, text)?;
    let words = say(alloc, &[b"in the expansion of ", &origin, b": ", text])?;
    as_printed(alloc, &words)
}
