// Text.

ghost use Rattle.std.specs.Prelude.{◌≡◌, ◌<◌, ◌≤◌, ◌^◌, All, IfOk, IfSome, length, map};
ghost use Rattle.vax_asm_data.specs.Data.{address_stated, before_pieces, behind_pieces, characters_of, count_within, count_stated, descriptor_stated, place_behind, piece_length, piece_stated, pieces_length, pieces_stated, text_parts, text_stated};
ghost use Rattle.vax_asm_data.specs.View.{ending_of};
ghost use Rattle.vax_lex.specs.Tokens.{IsTokenOf};
ghost use Rattle.vax_asm_first.specs.Progress.{site_of};
ghost use Rattle.vax_asm_first.specs.View.{progress_of, site_seen, standing_of, Advances, States, KeepsMark};
ghost use Rattle.vax_asm_statement.specs.Items.{piece_seen};
ghost use Rattle.vax_asm_statement.specs.Within.{PieceWithin};

use crate::items::{fix, item};
use std::alloc::Global;
use std::rc::Rc;
use vax_asm_encode::DataKind;
use vax_asm_first::{FaultKind, Filling, Origin, Refused, Site, Standing, add, lowest, site_of};
use vax_asm_sections::Piece as Part;
use vax_asm_statement::{Piece, pieces, text_of};
use vax_lex::{Token, Value};
use vax_space::NoMemory;
use vax_word::Size;

/// What a directive of text adds to its pieces.
#[derive(Clone, Copy, PartialEq, Eq)]
pub enum TextForm {
    /// `.ASCII`: nothing.
    Plain,
    /// `.ASCIC`: their count of bytes first, in a byte.
    CountFirst,
    /// `.ASCIZ`: a zero byte last.
    ZeroLast,
    /// `.ASCID`: a descriptor first.
    DescriptorFirst,
}

/// The characters between two delimiters.
fn characters_of(line: &[u8], token: Token) -> &[u8]
    requires { IsTokenOf line.now token }
    ensures { result.now ≡ characters_of line.now token }
{
    let text = text_of(line, token);
    let end = text.len().saturating_sub(1).max(1);
    &text[1..end]
}

/// How many bytes a piece has.
fn piece_length(line: &[u8], piece: Piece<'_>) -> usize
    requires { PieceWithin line.now (piece_seen piece) }
    ensures { result ≡ piece_length line.now (piece_seen piece.entry) }
{
    match piece {
        Piece::Characters(token) => characters_of(line, token).len(),
        Piece::Value(_) => 1,
    }
}

/// How many bytes pieces have. None where that is more than may be.
#[tactic(auto, using(crate::proofs::Folding::length_step))]
fn count_of(line: &[u8], pieces: &[Piece<'_>], most: usize) -> Option<usize>
    requires { All (PieceWithin line.now) (map piece_seen pieces.now) }
    ensures value { result
        ≡ count_within most (pieces_length line.now (map piece_seen pieces.now)) }
    ensures few { IfSome result (λ n. n ≤ most) }
{
    let mut count = 0;
    for piece in pieces {
        let length = piece_length(line, *piece);
        if length > most - count {
            return None;
        }
        count += length;
    }
    Some(count)
}

/// A piece of text. Its fault, if it has one.
fn state_piece(
    standing: &mut Standing,
    alloc: Global,
    site: Site<'_>,
    piece: Piece<'_>,
) -> Result<Option<FaultKind>, NoMemory>
    requires { PieceWithin site.line.now.value.items (piece_seen piece) }
    ensures stated { Advances (piece_stated (site_seen site.entry) (piece_seen piece.entry))
        result standing.old standing.new }
    ensures mark { KeepsMark standing.old standing.new }
{
    match piece {
        Piece::Characters(token) => {
            let characters = characters_of(site.line, token);
            let size = u32::try_from(characters.len()).map_err(|_| NoMemory)?;
            let bytes = characters.to_vec(alloc).map_err(|_| NoMemory)?;
            add(standing, size, Part::Bytes(bytes))
        }
        Piece::Value(tokens) => item(standing, alloc, site, DataKind::Number(Size::B), tokens),
    }
}

/// Pieces of text behind a part with this fault. The fault that counts, if one has any.
#[tactic(auto, using(crate::proofs::Folding::piece_step))]
fn state_pieces(
    standing: &mut Standing,
    alloc: Global,
    site: Site<'_>,
    before: Option<FaultKind>,
    pieces: &[Piece<'_>],
) -> Result<Option<FaultKind>, NoMemory>
    requires { All (PieceWithin site.line.now.value.items) (map piece_seen pieces.now) }
    ensures stated { IfOk result (λ f. progress_of f standing.new
        ≡ pieces_stated (site_seen site.entry) (map piece_seen pieces.now)
        (progress_of before standing.old)) }
    ensures mark { KeepsMark standing.old standing.new }
{
    let mut fault = before;
    for piece in pieces {
        let found = state_piece(standing, alloc, site, *piece)?;
        fault = lowest(fault, found);
    }
    Ok(fault)
}

/// The count of the pieces' bytes, in a byte.
fn state_count(
    standing: &mut Standing,
    alloc: Global,
    count: Option<usize>,
) -> Result<Option<FaultKind>, NoMemory>
    requires { IfSome count (λ n. n ≤ 255) }
    ensures stated { Advances (count_stated count) result standing.old standing.new }
    ensures mark { KeepsMark standing.old standing.new }
{
    let Some(count) = count else {
        return Ok(Some(FaultKind::Range));
    };
    let byte = vec![in alloc; count as u8].map_err(|_| NoMemory)?;
    add(standing, 1, Part::Bytes(byte))
}

/// The place so many bytes behind another.
fn place_behind(bytes: u8, place: Value) -> Value
    ensures { result ≡ place_behind bytes place }
{
    let bytes = i64::from(bytes);
    match place {
        Value::Absolute(number) => Value::Absolute(number.wrapping_add(bytes)),
        Value::Section { section, offset } => Value::Section {
            section,
            offset: offset.wrapping_add(bytes),
        },
        Value::External { index, offset } => Value::External {
            index,
            offset: offset.wrapping_add(bytes),
        },
    }
}

/// The address of the characters behind a descriptor, whose first part has this fault.
fn state_address(
    standing: &mut Standing,
    site: Site<'_>,
    before: Option<FaultKind>,
) -> Result<Option<FaultKind>, NoMemory>
    ensures stated { IfOk result (λ f. progress_of f standing.new
        ≡ address_stated (site_seen site.entry) (progress_of before standing.old)) }
    ensures mark { KeepsMark standing.old standing.new }
{
    let address = Filling::Known(place_behind(8, site.here));
    let found = fix(standing, site, DataKind::Number(Size::L), 1, address)?;
    Ok(lowest(before, found))
}

/// The descriptor of so many characters, which stand right behind it.
fn state_descriptor(
    standing: &mut Standing,
    alloc: Global,
    site: Site<'_>,
    count: Option<usize>,
) -> Result<Option<FaultKind>, NoMemory>
    requires { IfSome count (λ n. n ≤ 65535) }
    ensures stated { Advances (descriptor_stated count (site_seen site.entry))
        result standing.old standing.new }
    ensures mark { KeepsMark standing.old standing.new }
{
    let Some(count) = count else {
        return Ok(Some(FaultKind::Range));
    };
    let low = (count % 256) as u8;
    let high = (count / 256) as u8;
    let bytes = vec![in alloc; low, high, 14, 1].map_err(|_| NoMemory)?;
    let front = add(standing, 4, Part::Bytes(bytes))?;
    state_address(standing, site, front)
}

/// What stands before the pieces.
fn state_front(
    standing: &mut Standing,
    alloc: Global,
    form: TextForm,
    site: Site<'_>,
    pieces: &[Piece<'_>],
) -> Result<Option<FaultKind>, NoMemory>
    requires { All (PieceWithin site.line.now.value.items) (map piece_seen pieces.now) }
    ensures stated { Advances (before_pieces (ending_of form) (site_seen site.entry)
        (pieces_length site.entry.line.now.value.items (map piece_seen pieces.now)))
        result standing.old standing.new }
    ensures mark { KeepsMark standing.old standing.new }
{
    match form {
        TextForm::Plain | TextForm::ZeroLast => Ok(None),
        TextForm::CountFirst => state_count(standing, alloc, count_of(site.line, pieces, 255)),
        TextForm::DescriptorFirst => {
            state_descriptor(standing, alloc, site, count_of(site.line, pieces, 65535))
        }
    }
}

/// What stands behind the pieces, which have this fault.
fn state_end(
    standing: &mut Standing,
    form: TextForm,
    fault: Option<FaultKind>,
) -> Result<Option<FaultKind>, NoMemory>
    ensures stated { IfOk result (λ f. progress_of f standing.new
        ≡ behind_pieces (ending_of form) (progress_of fault standing.old)) }
    ensures mark { KeepsMark standing.old standing.new }
{
    match form {
        TextForm::Plain | TextForm::CountFirst | TextForm::DescriptorFirst => Ok(fault),
        TextForm::ZeroLast => Ok(lowest(fault, add(standing, 1, Part::Zeros(1))?)),
    }
}

/// The pieces of a directive, with what it adds to them.
fn state_text(
    standing: &mut Standing,
    alloc: Global,
    origin: Origin,
    line: &Rc<Vec<u8>>,
    form: TextForm,
    pieces: &[Piece<'_>],
) -> Result<Option<FaultKind>, NoMemory>
    requires { All (PieceWithin line.now.value.items) (map piece_seen pieces.now) }
    ensures stated { IfOk result (λ f. progress_of f standing.new ≡ text_parts (ending_of form)
        (site_of origin line.now.value.items (standing_of standing.old))
        (map piece_seen pieces.now) (standing_of standing.old)) }
    ensures mark { KeepsMark standing.old standing.new }
{
    let site = site_of(origin, line, standing)?;
    let front = state_front(standing, alloc, form, site, pieces)?;
    let fault = state_pieces(standing, alloc, site, front, pieces)?;
    state_end(standing, form, fault)
}

/// `.ASCII`, `.ASCIC`, `.ASCIZ` and `.ASCID`: pieces `/characters/` and `<e>`.
///
/// [`Refused::Fault`] with the fault that counts: `Count` where there are no pieces, `Form` where something is no piece, or a
/// value is no absolute expression or uses `.`, `Range` where a value doesn't fit a byte or the bytes are too many for their
/// count, `Large` where the section or the module would be too long. [`Refused::NoMemory`] where memory is refused. Nothing of
/// use is left then.
#[tactic(auto, unfolding(crate::specs::Data::text_stated))]
pub fn text(
    standing: &mut Standing,
    alloc: Global,
    origin: Origin,
    line: &Rc<Vec<u8>>,
    form: TextForm,
    operands: &[Token],
) -> Result<(), Refused>
    requires tokens { All (IsTokenOf line.now.value.items) operands.now }
    requires few { length operands.now < 2 ^ 32 }
    ensures stands { States (text_stated (ending_of form) origin line.now.value.items operands.now)
        result standing.old standing.new }
    ensures mark { KeepsMark standing.old standing.new }
{
    if operands.is_empty() {
        return Err(Refused::Fault(FaultKind::Count));
    }
    let Ok(found) = pieces(alloc, operands) else {
        return Err(Refused::NoMemory);
    };
    let Some(found) = found else {
        return Err(Refused::Fault(FaultKind::Form));
    };
    match state_text(standing, alloc, origin, line, form, &found) {
        Ok(None) => Ok(()),
        Ok(Some(kind)) => Err(Refused::Fault(kind)),
        Err(NoMemory) => Err(Refused::NoMemory),
    }
}
