// Opcodes that a source defines.

ghost use Rattle.std.specs.Prelude.{◌≡◌, ◌+◌, ◌≤◌, ◌++◌, ◌∷◌, [], All, Ok, decimal, drop, length, map, option_map, IfOk, OnOk};
ghost use Rattle.vax_lex.specs.Tokens.{IsPieceOf};
ghost use Rattle.vax_macro.specs.ArgumentViews.{argument_view, arguments_view, lent_arguments};
ghost use Rattle.vax_macro.specs.ConditionViews.{Decides, same};
ghost use Rattle.vax_macro.specs.Conditions.{number_in};
ghost use Rattle.vax_macro.specs.Heads.{first_end};
ghost use Rattle.vax_macro.specs.OpcodeViews.{opcode_view, operands_view};
ghost use Rattle.vax_macro.specs.Opcodes.{before_comma, branch, described, descriptors_behind, descriptors_in, is_access, opcode_behind, opcode_in, opcode_line, opcode_lines, opcode_number, operand_formal, operand_formals, operand_line, operand_name, operand_of, operands_of, specified};
ghost use Rattle.vax_macro.specs.TemplateViews.{formals_view, texts_view};
ghost use Rattle.vax_macro.specs.Templates.{with_formal};

use crate::arguments::{Argument, NoKeyword, arguments, behind_blanks};
use crate::conditions::{Refusal, behind_name, comma_in, number_in, text_of};
use crate::error::FaultKind;
use crate::heads::{code_from, has_bad, is_name_piece, piece_text};
use crate::names::{behind, copied, is_name, part};
use crate::template_types::{Formal, Formals};
use crate::templates::canonical;
use itoa::Buffer;
use std::alloc::Global;
use vax_lex::{Names, Piece, spells};
use vax_space::NoMemory;

/// What is laid of an operand: a specifier, if the operand has so many bytes, or the displacement of a branch.
#[derive(Clone, Copy, PartialEq, Eq)]
pub(crate) enum Operand {
    Byte,
    Word,
    Long,
    Quad,
    ByteBranch,
    WordBranch,
}

/// An opcode that a source defines: its name, its number, and what is laid of its operands.
#[derive(Drop)]
pub(crate) struct Opcode {
    pub(crate) name: Vec<u8>,
    pub(crate) number: u64,
    pub(crate) operands: Vec<Operand>,
}

/// Whether the first letter of a descriptor is an access to an operand with a specifier.
fn is_access(letter: &[u8]) -> bool
    ensures { result ≡ is_access letter.now }
{
    spells(b"A", letter)
        || spells(b"M", letter)
        || spells(b"R", letter)
        || spells(b"V", letter)
        || spells(b"W", letter)
}

/// The operand with a specifier of this type.
fn specified(letter: &[u8]) -> Option<Operand>
    ensures { result ≡ specified letter.now }
{
    if spells(b"B", letter) {
        Some(Operand::Byte)
    } else if spells(b"W", letter) {
        Some(Operand::Word)
    } else if spells(b"L", letter) || spells(b"F", letter) {
        Some(Operand::Long)
    } else if spells(b"Q", letter) || spells(b"D", letter) || spells(b"G", letter) {
        Some(Operand::Quad)
    } else {
        None
    }
}

/// The branch whose displacement has this type.
fn branch(letter: &[u8]) -> Option<Operand>
    ensures { result ≡ branch letter.now }
{
    if spells(b"B", letter) {
        Some(Operand::ByteBranch)
    } else if spells(b"W", letter) {
        Some(Operand::WordBranch)
    } else {
        None
    }
}

/// The operand that a descriptor says.
#[tactic(auto, unfolding(crate::specs::Opcodes::operand_of))]
fn operand_of(descriptor: &[u8]) -> Option<Operand>
    ensures { result ≡ operand_of descriptor.now }
{
    let access = part(descriptor, 0, 1);
    let letter = behind(descriptor, 1);
    if spells(b"B", access) {
        branch(letter)
    } else if is_access(access) {
        specified(letter)
    } else {
        None
    }
}

/// The operands that descriptors say.
fn operands_of(alloc: Global, descriptors: &[Argument]) -> Result<Option<Vec<Operand>>, NoMemory>
    ensures { IfOk result
        (λ o. operands_view o ≡ operands_of (map argument_view descriptors.now)) }
{
    let mut operands = Vec::new(alloc);
    for descriptor in descriptors {
        let Some(operand) = operand_of(text_of(descriptor)) else {
            return Ok(None);
        };
        operands.push(operand).map_err(|_| NoMemory)?;
    }
    Ok(Some(operands))
}

/// The operands that descriptors say, of which there are not too many.
fn described(alloc: Global, descriptors: Option<&[Argument]>) -> Result<Vec<Operand>, Refusal>
    ensures { Decides (λ v. v.items) result (described (lent_arguments descriptors.entry)) }
{
    let Some(descriptors) = descriptors else {
        return Err(Refusal::Fault(FaultKind::Form));
    };
    if descriptors.len() > 16 {
        return Err(Refusal::Fault(FaultKind::Count));
    }
    match operands_of(alloc, descriptors)? {
        Some(operands) => Ok(operands),
        None => Err(Refusal::Fault(FaultKind::Form)),
    }
}

/// The descriptors behind the comma.
fn descriptors_in(alloc: Global, text: &[u8]) -> Result<Option<Vec<Argument>>, NoMemory>
    ensures { IfOk result (λ o. option_map arguments_view o ≡ descriptors_in text.now) }
{
    if behind_blanks(text).is_empty() {
        return Ok(None);
    }
    let found = arguments(alloc, false, &NoKeyword, text)?;
    Ok(found)
}

/// Where the piece at a place ends.
fn end_at(place: usize, pieces: &[Piece]) -> usize
    ensures { result ≡ first_end (drop place pieces.now) }
{
    match pieces.get(place) {
        Some(piece) => piece.end as usize,
        None => 0,
    }
}

/// The descriptors behind the comma among pieces, if there is one.
fn descriptors_behind(
    alloc: Global,
    text: &[u8],
    pieces: &[Piece],
    comma: Option<usize>,
) -> Result<Option<Vec<Argument>>, NoMemory>
    ensures { IfOk result
        (λ o. option_map arguments_view o ≡ descriptors_behind text.now pieces.now comma) }
{
    match comma {
        Some(comma) => descriptors_in(alloc, code_from(end_at(comma, pieces), pieces, text)),
        None => Ok(Some(Vec::new(alloc))),
    }
}

/// The number of an opcode, which has one byte or two.
fn opcode_number(number: i64) -> Result<u64, FaultKind>
    ensures { result ≡ opcode_number (Ok number) }
{
    if number < 0 || number > 65535 {
        return Err(FaultKind::Range);
    }
    Ok(number.unsigned_abs())
}

/// The number of the opcode that pieces before a comma are.
fn number_before<N: Names>(
    alloc: Global,
    names: &N,
    text: &[u8],
    pieces: &[Piece],
    comma: Option<usize>,
) -> Result<u64, Refusal>
    requires { All (IsPieceOf text.now) pieces.now }
    ensures { Decides same result (opcode_number
        (number_in (N.meaning names.now) text.now (before_comma pieces.now comma))) }
{
    let value = match comma {
        Some(comma) if comma < pieces.len() => &pieces[..comma],
        _ => pieces,
    };
    let number = number_in(alloc, names, text, value)?;
    match opcode_number(number) {
        Ok(number) => Ok(number),
        Err(kind) => Err(Refusal::Fault(kind)),
    }
}

/// The opcode of a name, behind which these pieces stand.
#[tactic(auto, unfolding(crate::specs::Opcodes::opcode_behind))]
fn opcode_behind<N: Names>(
    alloc: Global,
    names: &N,
    text: &[u8],
    name: Vec<u8>,
    pieces: &[Piece],
) -> Result<Opcode, Refusal>
    requires { All (IsPieceOf text.now) pieces.now }
    ensures { Decides opcode_view result
        (opcode_behind (N.meaning names.now) text.now name.items pieces.now) }
{
    let comma = comma_in(pieces);
    let number = number_before(alloc, names, text, pieces, comma)?;
    let found = descriptors_behind(alloc, text, pieces, comma)?;
    let operands = described(alloc, found.as_deref())?;
    Ok(Opcode {
        name,
        number,
        operands,
    })
}

/// The opcode that the operands of an `.OPDEF` define.
#[tactic(auto, using(crate::proofs::Tokens::parts), unfolding(crate::specs::Opcodes::opcode_in))]
pub(crate) fn opcode_in<N: Names>(
    alloc: Global,
    names: &N,
    text: &[u8],
    pieces: &[Piece],
) -> Result<Opcode, Refusal>
    requires { All (IsPieceOf text.now) pieces.now }
    ensures { Decides opcode_view result (opcode_in (N.meaning names.now) text.now pieces.now) }
{
    if has_bad(pieces) {
        return Err(Refusal::Fault(FaultKind::Token));
    }
    let Some((first, rest)) = pieces.split_first() else {
        return Err(Refusal::Fault(FaultKind::Count));
    };
    let name = piece_text(text, *first);
    if !is_name_piece(first.kind) || !is_name(name) {
        return Err(Refusal::Fault(FaultKind::Form));
    }
    let (operands, _) = behind_name(first.end, rest);
    let name = canonical(alloc, name)?;
    opcode_behind(alloc, names, text, name, operands)
}

/// A text before a number.
fn numbered(alloc: Global, text: &[u8], number: u64) -> Result<Vec<u8>, NoMemory>
    ensures value { IfOk result (λ v. v.items ≡ text.now ++ decimal number) }
    ensures bound { IfOk result (λ v. length v.items ≤ length text.now + 40) }
{
    let mut made = copied(alloc, text)?;
    let mut buffer = Buffer::new();
    made.extend_from_slice(buffer.format(number).as_bytes())
        .map_err(|_| NoMemory)?;
    Ok(made)
}

/// The line that lays an opcode.
#[tactic(auto, unfolding(crate::specs::Opcodes::opcode_line))]
fn opcode_line(alloc: Global, number: u64) -> Result<Vec<u8>, NoMemory>
    ensures value { IfOk result (λ v. v.items ≡ opcode_line number) }
    ensures bound { IfOk result (λ v. length v.items ≤ 1024) }
{
    let directive: &[u8] = if number < 256 { b".BYTE " } else { b".WORD " };
    numbered(alloc, directive, number)
}

/// The formal argument for an operand.
fn operand_name(alloc: Global, number: u64) -> Result<Vec<u8>, NoMemory>
    ensures value { IfOk result (λ v. v.items ≡ operand_name number) }
    ensures bound { IfOk result (λ v. length v.items ≤ 48) }
{
    numbered(alloc, b"OPERAND_", number)
}

/// The line that lays an operand.
#[tactic(auto, unfolding(crate::specs::Opcodes::operand_line))]
fn operand_line(alloc: Global, number: u64, operand: Operand) -> Result<Vec<u8>, NoMemory>
    ensures value { IfOk result (λ v. v.items ≡ operand_line number operand) }
    ensures bound { IfOk result (λ v. length v.items ≤ 1024) }
{
    let (directive, behind): (&[u8], &[u8]) = match operand {
        Operand::Byte => (b".REF1 ", b""),
        Operand::Word => (b".REF2 ", b""),
        Operand::Long => (b".REF4 ", b""),
        Operand::Quad => (b".REF8 ", b""),
        Operand::ByteBranch => (b".SIGNED_BYTE ", b"-.-1"),
        Operand::WordBranch => (b".SIGNED_WORD ", b"-.-2"),
    };
    let name = operand_name(alloc, number)?;
    let mut line = copied(alloc, directive)?;
    line.extend_from_slice(&name).map_err(|_| NoMemory)?;
    line.extend_from_slice(behind).map_err(|_| NoMemory)?;
    Ok(line)
}

/// Adds a line.
fn add_line(lines: &mut Vec<Vec<u8>>, line: Vec<u8>) -> Result<(), NoMemory>
    requires lines { All (λ t. length t.items ≤ 1024) lines.old.items }
    requires line { length line.items ≤ 1024 }
    ensures value { OnOk result (texts_view lines.new ≡ texts_view lines.old ++ line.items ∷ []) }
    ensures bound { OnOk result (All (λ t. length t.items ≤ 1024) lines.new.items) }
{
    lines.push(line).map_err(|_| NoMemory)
}

/// The lines of the macro that lays an opcode and its operands.
pub(crate) fn opcode_lines(
    alloc: Global,
    number: u64,
    operands: &[Operand],
) -> Result<Vec<Vec<u8>>, NoMemory>
    ensures value { IfOk result (λ v. texts_view v ≡ opcode_lines number operands.now) }
    ensures bound { IfOk result (λ v. All (λ t. length t.items ≤ 1024) v.items) }
{
    let mut lines = Vec::new(alloc);
    add_line(&mut lines, opcode_line(alloc, number)?)?;
    for (place, operand) in operands.iter().enumerate() {
        let line = operand_line(alloc, place as u64 + 1, *operand)?;
        add_line(&mut lines, line)?;
    }
    Ok(lines)
}

/// Adds the formal argument for an operand.
fn add_operand(alloc: Global, formals: &mut Formals, number: u64) -> Result<(), NoMemory>
    ensures { OnOk result (formals_view formals.new
        ≡ with_formal (formals_view formals.old) (operand_formal number)) }
{
    let name = operand_name(alloc, number)?;
    let copy = copied(alloc, &name)?;
    formals.add(
        Formal {
            name,
            default: Vec::new(alloc),
            makes_label: false,
        },
        copy,
    )?;
    Ok(())
}

/// The formal arguments for so many operands.
#[tactic(auto, unfolding(crate::specs::Opcodes::operand_formals))]
pub(crate) fn operand_formals(alloc: Global, count: usize) -> Result<Formals, NoMemory>
    ensures { IfOk result (λ fs. formals_view fs ≡ operand_formals count) }
{
    let mut formals = Formals::new(alloc);
    for place in 0..count {
        add_operand(alloc, &mut formals, place as u64 + 1)?;
    }
    Ok(formals)
}
