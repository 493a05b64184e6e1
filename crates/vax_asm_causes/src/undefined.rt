// Names without a value.

use crate::cause::Place;
use crate::conditions::subject_of;
use crate::count::instruction;
use crate::facts::is_register;
use crate::names::{are_same, definition_of, has_entry, is_local};
use crate::statement::{Statement, is_mark, is_name, text_of};
use crate::words::{Found, at, cause_at};
use std::alloc::Global;
use vax_lex::Piece;
use vax_space::NoMemory;

/// Why a local label isn't there.
fn local_cause(alloc: Global, place: Place<'_>, label: Piece) -> Result<Found, NoMemory> {
    let name = text_of(place.line, label);
    match definition_of(place.source, name) {
        None => cause_at(
            alloc,
            label.start,
            &[b": `", name, b"` is nowhere in this file"],
        ),
        Some(_) => cause_at(
            alloc,
            label.start,
            &[
                b": `",
                name,
                b"` isn't in this block, or its line has a fault",
            ],
        ),
    }
}

/// The name in a `.MASK` that no `.ENTRY` of the source has.
fn masked_entry(place: Place<'_>, operands: &[Piece], operator: Piece) -> Option<Piece> {
    let entry = *operands.first()?;
    let name = text_of(place.line, entry);
    if are_same(text_of(place.line, operator), b".MASK") && !has_entry(place.source, name) {
        Some(entry)
    } else {
        None
    }
}

/// Which name is that of no entry.
fn mask_cause(alloc: Global, place: Place<'_>, entry: Piece) -> Result<Found, NoMemory> {
    let name = text_of(place.line, entry);
    cause_at(
        alloc,
        entry.start,
        &[b": no line of this file has `.ENTRY ", name, b"`"],
    )
}

/// Which names without a value are sought.
#[derive(Clone, Copy)]
struct Lacking {
    /// Those that are known to have none; else those that no line defines.
    is_known: bool,
    /// Those of registers too.
    are_registers: bool,
}

/// Whether a piece of a line may be a name that has to have a value: neither a prefix of `^` nor behind one.
fn may_need_value(line: &[u8], before: Option<Piece>, piece: Piece, lacking: Lacking) -> bool {
    let is_behind = match before {
        Some(before) => is_mark(before, b'^'),
        None => false,
    };
    let is_prefix = line.get(piece.end as usize) == Some(&b'^');
    let may_be = lacking.are_registers || !is_register(text_of(line, piece));
    is_name(piece) && !is_behind && !is_prefix && may_be
}

/// Whether a name has no value where a statement stands.
fn lacks_value(place: Place<'_>, name: &[u8], lacking: Lacking) -> bool {
    if lacking.is_known {
        place.facts.lacks(name)
    } else {
        definition_of(place.source, name).is_none()
    }
}

/// The first name that has no value.
fn unvalued(place: Place<'_>, pieces: &[Piece], lacking: Lacking) -> Option<Piece> {
    let mut before: Option<Piece> = None;
    for piece in pieces {
        let name = text_of(place.line, *piece);
        if may_need_value(place.line, before, *piece, lacking)
            && lacks_value(place, name, lacking)
        {
            return Some(*piece);
        }
        before = Some(*piece);
    }
    None
}

/// Names that are known to have no value.
const KNOWN: Lacking = Lacking {
    is_known: true,
    are_registers: false,
};

/// Names that no line defines.
const NOWHERE: Lacking = Lacking {
    is_known: false,
    are_registers: false,
};

/// Names that are known to have no value, with those of registers.
const REGISTERS: Lacking = Lacking {
    is_known: true,
    are_registers: true,
};

/// The first name that is known to have no value, or that no line defines; of a register's none but where there is no other.
fn first_unvalued(place: Place<'_>, pieces: &[Piece]) -> Option<Piece> {
    let known = unvalued(place, pieces, KNOWN);
    known
        .or(unvalued(place, pieces, NOWHERE))
        .or(unvalued(place, pieces, REGISTERS))
}

/// Whether an operator begins an expansion: it is neither a directive nor an instruction.
fn is_call(name: &[u8]) -> bool {
    !name.starts_with(b".") && instruction(name).is_none()
}

/// That a name of an expansion has no value, perhaps one that the call has.
fn call_cause(
    alloc: Global,
    place: Place<'_>,
    operands: &[Piece],
    operator: Piece,
) -> Result<Found, NoMemory> {
    let Some(piece) = unvalued(place, operands, NOWHERE) else {
        let words = b": in the expansion a name has no value before its line";
        return cause_at(alloc, operator.start, &[words]);
    };
    let name = text_of(place.line, piece);
    cause_at(
        alloc,
        piece.start,
        &[
            b": in the expansion a name has no value before its line, perhaps `",
            name,
            b"`",
        ],
    )
}

/// The first local label.
fn local_name(line: &[u8], pieces: &[Piece]) -> Option<Piece> {
    for piece in pieces {
        if is_name(*piece) && is_local(text_of(line, *piece)) {
            return Some(*piece);
        }
    }
    None
}

/// Which name has no value.
pub(crate) fn undefined_cause(
    alloc: Global,
    place: Place<'_>,
    said: Statement<'_>,
    operator: Piece,
) -> Result<Found, NoMemory> {
    let operands = said.operands;
    if let Some(entry) = masked_entry(place, operands, operator) {
        return mask_cause(alloc, place, entry);
    }
    let subject = subject_of(place.line, operator, operands);
    if let Some(label) = local_name(place.line, subject) {
        return local_cause(alloc, place, label);
    }
    if said.operator.is_some() && is_call(text_of(place.line, operator)) {
        return call_cause(alloc, place, operands, operator);
    }
    match first_unvalued(place, subject) {
        Some(piece) => {
            let name = text_of(place.line, piece);
            cause_at(
                alloc,
                piece.start,
                &[b": `", name, b"` has no value before this line"],
            )
        }
        None => Ok(at(alloc, operator.start)),
    }
}
