// Definitions that come back to themselves.

use crate::facts::Way;
use crate::places::is_called;
use crate::statement::text_of;
use crate::words::{Found, cause_at, decimal, say};
use std::alloc::Global;
use vax_lex::Piece;
use vax_space::NoMemory;

/// As many definitions on the way are named.
const NAMED: usize = 4;

/// A definition on the way, after the words before it.
fn way_words(alloc: Global, before: &[u8], way: &Way) -> Result<Vec<u8>, NoMemory> {
    let line = decimal(alloc, u64::from(way.line))?;
    say(alloc, &[before, b"`", &way.name, b"` on line ", &line])
}

/// What stands before the name of a definition on the way.
fn joint(is_first: bool) -> &'static [u8] {
    if is_first { b", through " } else { b", " }
}

/// The definitions on the way.
fn ways_words(alloc: Global, ways: &[Way]) -> Result<Vec<u8>, NoMemory> {
    let mut all = Vec::new(alloc);
    for way in ways.iter().take(NAMED) {
        let words = way_words(alloc, joint(all.is_empty()), way)?;
        all.extend_from_slice(&words).map_err(|_| NoMemory)?;
    }
    if ways.len() > NAMED {
        all.extend_from_slice(b" and others").map_err(|_| NoMemory)?;
    }
    Ok(all)
}

/// The first piece that is this name.
fn place_of(line: &[u8], pieces: &[Piece], name: &[u8]) -> Option<Piece> {
    for piece in pieces {
        if is_called(line, *piece, name) {
            return Some(*piece);
        }
    }
    None
}

/// A definition of a name that comes back to itself on this way, marked where the way begins.
pub(crate) fn circle_cause(
    alloc: Global,
    line: &[u8],
    label: Piece,
    operands: &[Piece],
    ways: &[Way],
) -> Result<Found, NoMemory> {
    let name = text_of(line, label);
    let next = match ways.first() {
        Some(way) => place_of(line, operands, &way.name),
        None => place_of(line, operands, name),
    };
    let words = ways_words(alloc, ways)?;
    cause_at(
        alloc,
        next.unwrap_or(label).start,
        &[b": `", name, b"` is defined by itself", &words],
    )
}
