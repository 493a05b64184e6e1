// On which lines of a source a name stands.

ghost use Rattle.std.specs.Prelude.{◌≡◌, IfOk};
ghost use Rattle.std.specs.List.{list_any};
ghost use Rattle.vax_asm_causes.specs.Places.{begins_with_definition, first_line, is_called, is_on};

use crate::names::are_same;
use crate::statement::{is_mark, is_name, pieces_of, text_of};
use std::alloc::Global;
use vax_dialect::Dialect;
use vax_lex::Piece;
use vax_lines::next_line;
use vax_space::NoMemory;

/// What is sought of a name.
#[derive(Clone, Copy, PartialEq, Eq)]
pub enum Sought {
    /// Any place.
    Anywhere,
    /// Its definition: as a label, by an assignment or by `.ENTRY`.
    Definition,
}

/// Whether a piece of a line is this name.
pub(crate) fn is_called(line: &[u8], piece: Piece, name: &[u8]) -> bool
    ensures { result ≡ is_called name.now line.now piece }
{
    is_name(piece) && are_same(text_of(line, piece), name)
}

/// Whether a name is among the pieces of a line.
fn is_among(line: &[u8], pieces: &[Piece], name: &[u8]) -> bool
    ensures { result ≡ list_any (is_called name.now line.now) pieces.now }
{
    for piece in pieces {
        if is_called(line, *piece, name) {
            return true;
        }
    }
    false
}

/// Whether a line with these pieces begins with the definition of a name.
fn begins_with_definition(line: &[u8], pieces: &[Piece], name: &[u8]) -> bool
    ensures { result ≡ begins_with_definition name.now line.now pieces.now }
{
    let [first, second, ..] = pieces else {
        return false;
    };
    let is_label = is_mark(*second, b':') || is_mark(*second, b'=');
    (is_called(line, *first, name) && is_label)
        || (is_called(line, *first, b".ENTRY") && is_called(line, *second, name))
}

/// Whether a name stands on a line, or is defined there.
fn is_on(
    alloc: Global,
    dialect: Dialect,
    line: &[u8],
    name: &[u8],
    sought: Sought,
) -> Result<bool, NoMemory>
    ensures { IfOk result (λ b. b ≡ is_on dialect sought name.now line.now) }
{
    let pieces = pieces_of(alloc, dialect, line)?;
    match sought {
        Sought::Anywhere => Ok(is_among(line, &pieces, name)),
        Sought::Definition => Ok(begins_with_definition(line, &pieces, name)),
    }
}

/// The number of the first line of a source of a dialect on which a name stands, or is defined, counted from 1; none where there is no such line.
///
/// # Errors
///
/// [`NoMemory`] where memory is refused.
pub fn first_line(
    alloc: Global,
    dialect: Dialect,
    source: &[u8],
    name: &[u8],
    sought: Sought,
) -> Result<Option<usize>, NoMemory>
    ensures { IfOk result (λ o. o ≡ first_line dialect sought name.now source.now) }
{
    let mut rest = source;
    let mut number: usize = 1;
    while let Some((line, behind)) = next_line(rest) {
        if is_on(alloc, dialect, line, name, sought)? {
            return Ok(Some(number));
        }
        number += 1;
        rest = behind;
    }
    Ok(None)
}
