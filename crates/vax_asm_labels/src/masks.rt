// Masks of entries.

ghost use Rattle.std.specs.Prelude.{◌≡◌, ◌<◌, ◌^◌, All, Some, length, true};
ghost use Rattle.vax_lex.specs.Tokens.{IsTokenOf};
ghost use Rattle.vax_asm_labels.specs.Masks.{byte_behind, key_of, mask_as, mask_at, mask_named, mask_stated};
ghost use Rattle.vax_asm_first.specs.View.{site_seen, States, KeepsMark};
ghost use Rattle.vax_asm_statement.specs.Items.{name_alone};
ghost use Rattle.vax_asm_statement.specs.Tokens.{is_name_token};

use crate::operands::{is_place, kept};
use std::alloc::Global;
use std::rc::Rc;
use vax_asm_data::masked_item;
use vax_asm_first::{FaultKind, Origin, Refused, Site, Standing, site_of};
use vax_asm_statement::{name_alone, parts};
use vax_lex::{Token, TokenKind};

/// What stands for the mask of an entry.
fn key_of(line: &[u8], entry: Token, tokens: &[Token]) -> Option<Token>
    requires within { IsTokenOf line.now entry }
    ensures { result ≡ key_of line.now entry tokens.now }
{
    if tokens.is_empty() {
        return Some(entry);
    }
    if entry.end as usize >= line.len() {
        return None;
    }
    let end = entry.end.checked_add(1)?;
    Some(Token {
        kind: TokenKind::Name,
        start: entry.end,
        end,
    })
}

/// The mask of the entry that a token names.
#[tactic(auto, using(crate::proofs::Keys::key_within, crate::proofs::Keys::key_is_name))]
fn state_mask(
    standing: &mut Standing,
    alloc: Global,
    site: Site<'_>,
    entry: Token,
    tokens: &[Token],
) -> Result<(), Refused>
    requires entry { IsTokenOf site.line.now.value.items entry }
    requires name { is_name_token entry ≡ true }
    requires tokens { All (IsTokenOf site.line.now.value.items) tokens.now }
    ensures stands { States (mask_at (site_seen site.entry) entry tokens.now)
        result standing.old standing.new }
    ensures mark { KeepsMark standing.old standing.new }
{
    let name = kept(site.line, entry);
    if is_place(name.as_bytes()) {
        return Err(Refused::Fault(FaultKind::Form));
    }
    let Some(key) = key_of(site.line, entry, tokens) else {
        return Err(Refused::Fault(FaultKind::Form));
    };
    match masked_item(standing, alloc, site, name.as_bytes(), key, tokens) {
        Ok(None) => Ok(()),
        Ok(Some(kind)) => Err(Refused::Fault(kind)),
        Err(_) => Err(Refused::NoMemory),
    }
}

/// The mask of the entry that an operand names.
#[tactic(auto, using(crate::proofs::Alone::alone_is_name))]
fn state_named(
    standing: &mut Standing,
    alloc: Global,
    site: Site<'_>,
    entry: &[Token],
    tokens: &[Token],
) -> Result<(), Refused>
    requires entry { All (IsTokenOf site.line.now.value.items) entry.now }
    requires tokens { All (IsTokenOf site.line.now.value.items) tokens.now }
    ensures stands { States (mask_named (site_seen site.entry)
        (name_alone site.entry.line.now.value.items entry.now) tokens.now)
        result standing.old standing.new }
    ensures mark { KeepsMark standing.old standing.new }
{
    match name_alone(site.line, entry) {
        Some(entry) => state_mask(standing, alloc, site, entry, tokens),
        None => Err(Refused::Fault(FaultKind::Form)),
    }
}

/// `.MASK entry` and `.MASK entry,e`: a word that holds the mask that the `.ENTRY` of this name says, wherever in the source that stands,
/// OR-ed with the expression.
///
/// [`Refused::Fault`] with the fault that counts: `Count` where there are no operands or more than two, `Form` where the first is no name,
/// and the faults of an item of `.WORD`. [`Refused::NoMemory`] where memory is refused. Nothing of use is left then. An entry that the
/// source doesn't have shows once all of it is read.
#[tactic(auto, unfolding(crate::specs::Masks::mask_stated))]
pub fn mask(
    standing: &mut Standing,
    alloc: Global,
    origin: Origin,
    line: &Rc<Vec<u8>>,
    operands: &[Token],
) -> Result<(), Refused>
    requires tokens { All (IsTokenOf line.now.value.items) operands.now }
    requires few { length operands.now < 2 ^ 32 }
    ensures stands { States (mask_stated origin line.now.value.items operands.now)
        result standing.old standing.new }
    ensures mark { KeepsMark standing.old standing.new }
{
    let Ok(found) = parts(alloc, operands) else {
        return Err(Refused::NoMemory);
    };
    let Ok(site) = site_of(origin, line, standing) else {
        return Err(Refused::NoMemory);
    };
    match found.as_slice() {
        [] => Err(Refused::Fault(FaultKind::Count)),
        [entry] => state_named(standing, alloc, site, entry, &[]),
        [entry, tokens] => state_named(standing, alloc, site, entry, tokens),
        [_, _, _, ..] => Err(Refused::Fault(FaultKind::Count)),
    }
}
