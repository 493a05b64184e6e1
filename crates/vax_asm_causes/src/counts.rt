// How often names stand in a source.

ghost use Rattle.std.specs.Prelude.{◌≡◌, ◌==◌, Some, IfOk, OnOk, is_some, length, map};
ghost use Rattle.std.specs.List.{filter};
ghost use Rattle.std.specs.Str.{str_to_ascii_lowercase};
ghost use Rattle.vax_asm_causes.specs.Counts.{is_once, never, often_in, once_more, with_names, with_one};
ghost use Rattle.vax_asm_causes.specs.Places.{is_name, line_pieces, piece_text};
ghost use Rattle.vax_asm_causes.specs.Remarks.{line_names, names_in};
ghost use Rattle.vax_asm_names.specs.ByName.{by_name, with_entry};

use crate::statement::{is_name, pieces_of, text_of};
use std::alloc::Global;
use std::collections::BTreeMap;
use vax_dialect::Dialect;
use vax_lex::Piece;
use vax_lines::next_line;
use vax_space::NoMemory;

/// How often a name stands that does.
#[derive(Clone, Copy, PartialEq, Eq)]
pub(crate) enum Often {
    /// Once.
    Once,
    /// More often.
    Again,
}

/// How often each name stands, in small letters.
pub(crate) type Counts = BTreeMap<Vec<u8>, Often>;

/// A name in small letters.
fn small(alloc: Global, name: &[u8]) -> Result<Vec<u8>, NoMemory>
    ensures { IfOk result (λ v. v.items ≡ str_to_ascii_lowercase name.now) }
{
    let mut all = Vec::new(alloc);
    for byte in name {
        all.push(byte.to_ascii_lowercase()).map_err(|_| NoMemory)?;
    }
    Ok(all)
}

/// Once more than before.
fn once_more(before: Option<Often>) -> Often
    ensures { Some result ≡ once_more before }
{
    match before {
        None => Often::Once,
        Some(_) => Often::Again,
    }
}

/// How often the name stands that is this one in small letters.
fn seen(counts: &Counts, key: &[u8]) -> Option<Often>
    ensures { result ≡ by_name counts.now key.now }
{
    match counts.get(key) {
        Some(often) => Some(*often),
        None => None,
    }
}

/// Puts how often a name stands.
fn put(counts: &mut Counts, key: Vec<u8>, often: Often) -> Result<(), NoMemory>
    ensures { OnOk result (by_name counts.new
        ≡ with_entry key.items (Some often) (by_name counts.old)) }
{
    match counts.insert(key, often) {
        Ok(_) => Ok(()),
        Err(_) => Err(NoMemory),
    }
}

/// Counts a name once more.
fn count(alloc: Global, counts: &mut Counts, name: &[u8]) -> Result<(), NoMemory>
    ensures { OnOk result (often_in counts.new ≡ with_one name.now (often_in counts.old)) }
{
    let key = small(alloc, name)?;
    let before = seen(counts, &key);
    put(counts, key, once_more(before))
}

/// Counts the names among the pieces of a line.
#[tactic(auto, unfolding(crate::specs::Counts::with_names))]
fn count_pieces(
    alloc: Global,
    counts: &mut Counts,
    line: &[u8],
    pieces: &[Piece],
) -> Result<(), NoMemory>
    ensures { OnOk result (often_in counts.new
        ≡ with_names (map (piece_text line.now) (filter is_name pieces.now))
        (often_in counts.old)) }
{
    for piece in pieces {
        if is_name(*piece) {
            count(alloc, counts, text_of(line, *piece))?;
        }
    }
    Ok(())
}

/// Counts the names of a line.
fn count_line(
    alloc: Global,
    counts: &mut Counts,
    dialect: Dialect,
    line: &[u8],
) -> Result<(), NoMemory>
    ensures { OnOk result (often_in counts.new
        ≡ with_names (line_names dialect line.now) (often_in counts.old)) }
{
    let pieces = pieces_of(alloc, dialect, line)?;
    count_pieces(alloc, counts, line, &pieces)
}

/// How often each name stands in a source of a dialect.
#[tactic(auto, unfolding(crate::specs::Counts::with_names))]
pub(crate) fn counts_of(alloc: Global, dialect: Dialect, source: &[u8]) -> Result<Counts, NoMemory>
    ensures { IfOk result (λ c. often_in c ≡ with_names (names_in dialect source.now) never) }
{
    let mut counts = BTreeMap::new(alloc);
    let mut rest = source;
    while let Some((line, behind)) = next_line(rest) {
        count_line(alloc, &mut counts, dialect, line)?;
        rest = behind;
    }
    Ok(counts)
}

/// Whether a name stands.
pub(crate) fn stands(alloc: Global, counts: &Counts, name: &[u8]) -> Result<bool, NoMemory>
    ensures { IfOk result (λ b. b ≡ is_some (often_in counts.now name.now)) }
{
    let key = small(alloc, name)?;
    Ok(seen(counts, &key).is_some())
}

/// Whether a name stands once.
pub(crate) fn is_once(alloc: Global, counts: &Counts, name: &[u8]) -> Result<bool, NoMemory>
    ensures { IfOk result (λ b. b ≡ is_once (often_in counts.now name.now)) }
{
    let key = small(alloc, name)?;
    match seen(counts, &key) {
        Some(Often::Once) => Ok(true),
        Some(Often::Again) | None => Ok(false),
    }
}
