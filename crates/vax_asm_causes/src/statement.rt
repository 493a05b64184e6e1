// A line as a statement: its label, its operator and its operands.

ghost use Rattle.std.specs.Prelude.{◌≡◌, ◌≤◌, IfOk, IfSome, is_some, length, take, unwrap_or};
ghost use Rattle.vax_asm_causes.specs.Marked.{has_label, head_or, operands_in, operator_in, tail_of};
ghost use Rattle.vax_asm_causes.specs.Places.{is_mark, is_name, line_pieces, piece_text};
ghost use Rattle.vax_asm_causes.specs.Remarks.{operation_of, without_mark};
ghost use Rattle.vax_lex.specs.declared.token.Piece.{Piece};

use std::alloc::Global;
use vax_dialect::Dialect;
use vax_lex::{Piece, PieceKind, TokenKind, pieces};
use vax_space::NoMemory;

/// The longest line of a source.
pub(crate) const LONGEST: usize = 1024;

/// The first so many bytes, or all.
fn front(line: &[u8], count: usize) -> &[u8]
    ensures bytes { result.now ≡ take count line.now }
    ensures few { length result.now ≤ count }
{
    line.split_at(count.min(line.len())).0
}

/// The pieces of a line in a dialect, of a long one those of its front.
pub(crate) fn pieces_of(
    alloc: Global,
    dialect: Dialect,
    line: &[u8],
) -> Result<Vec<Piece>, NoMemory>
    ensures { IfOk result (λ v. v.items ≡ line_pieces dialect line.now) }
{
    match pieces(alloc, dialect, front(line, LONGEST)) {
        Ok(all) => Ok(all),
        Err(_) => Err(NoMemory),
    }
}

/// The bytes of a piece.
#[tactic(auto, unfolding(crate::specs::Places::piece_text))]
pub fn text_of<'a>(line: &'a [u8], piece: Piece) -> &'a [u8]
    ensures { result.now ≡ piece_text line.entry.now piece }
{
    match line.get(piece.start as usize..piece.end as usize) {
        Some(text) => text,
        None => &[],
    }
}

/// The bytes from the first of some pieces up to the last.
pub(crate) fn text_between<'a>(line: &'a [u8], pieces: &[Piece]) -> &'a [u8] {
    let (Some(first), Some(last)) = (pieces.first(), pieces.last()) else {
        return &[];
    };
    match line.get(first.start as usize..last.end as usize) {
        Some(text) => text,
        None => &[],
    }
}

/// Whether a piece is this mark.
pub(crate) fn is_mark(piece: Piece, mark: u8) -> bool
    ensures { result ≡ is_mark piece mark }
{
    match piece.kind {
        PieceKind::Token(TokenKind::Mark(byte)) => byte == mark,
        _ => false,
    }
}

/// Whether a piece is a name.
pub(crate) fn is_name(piece: Piece) -> bool
    ensures { result ≡ is_name piece }
{
    matches!(piece.kind, PieceKind::Token(TokenKind::Name))
}

/// The value of a number.
pub(crate) fn number_of(piece: Piece) -> Option<u64> {
    match piece.kind {
        PieceKind::Token(TokenKind::Number(value)) => Some(value),
        _ => None,
    }
}

/// The parts of a statement. An assignment has its name as a label, and no operator.
#[derive(Clone, Copy)]
pub(crate) struct Statement<'a> {
    pub(crate) label: Option<Piece>,
    pub(crate) operator: Option<Piece>,
    pub(crate) operands: &'a [Piece],
}

/// What stands behind a mark, if a list begins with it.
fn behind_mark<'a>(pieces: &'a [Piece], mark: u8) -> Option<&'a [Piece]> {
    let (first, rest) = pieces.split_first()?;
    if is_mark(*first, mark) {
        return Some(rest);
    }
    None
}

/// Without one such mark at the front.
pub(crate) fn without_mark<'a>(pieces: &'a [Piece], mark: u8) -> &'a [Piece]
    ensures { result.now ≡ without_mark mark pieces.entry.now }
{
    match pieces {
        [first, rest @ ..] if is_mark(*first, mark) => rest,
        _ => pieces,
    }
}

/// The statement of these pieces from its operator on. An assignment has none.
pub(crate) fn operation_of<'a>(pieces: &'a [Piece]) -> &'a [Piece]
    ensures { result.now ≡ operation_of pieces.entry.now }
{
    let [_, second, rest @ ..] = pieces else {
        return pieces;
    };
    if is_mark(*second, b':') {
        return without_mark(rest, b':');
    }
    if is_mark(*second, b'=') { &[] } else { pieces }
}

/// The name with which a label or an assignment begins.
fn label_of(pieces: &[Piece]) -> Option<Piece>
    ensures label { is_some result ≡ has_label pieces.now }
    ensures first { (other : Piece) → IfSome result (λ p. p ≡ head_or other pieces.now) }
{
    let [first, second, ..] = pieces else {
        return None;
    };
    if is_mark(*second, b':') || is_mark(*second, b'=') {
        Some(*first)
    } else {
        None
    }
}

/// What is after the operator, or after the `=` of an assignment.
fn operands_in<'a>(pieces: &'a [Piece]) -> &'a [Piece]
    ensures { result.now ≡ operands_in pieces.entry.now }
{
    let [_, second, rest @ ..] = pieces else {
        return &[];
    };
    if is_mark(*second, b':') {
        return tail(without_mark(rest, b':'));
    }
    if is_mark(*second, b'=') {
        return without_mark(rest, b'=');
    }
    tail(pieces)
}

/// The first of some pieces.
fn first_of(pieces: &[Piece]) -> Option<Piece>
    ensures { (other : Piece) → unwrap_or result other ≡ head_or other pieces.now }
{
    match pieces {
        [first, ..] => Some(*first),
        _ => None,
    }
}

/// The statement of these pieces.
pub(crate) fn parts_of<'a>(pieces: &'a [Piece]) -> Statement<'a>
    ensures operator { (first : Piece) →
        unwrap_or result.operator first ≡ operator_in first pieces.entry.now }
    ensures operands { result.operands.now ≡ operands_in pieces.entry.now }
    ensures label { is_some result.label ≡ has_label pieces.entry.now }
    ensures first { (other : Piece) →
        IfSome result.label (λ p. p ≡ head_or other pieces.entry.now) }
{
    Statement {
        label: label_of(pieces),
        operator: first_of(operation_of(pieces)),
        operands: operands_in(pieces),
    }
}

/// How many brackets are open behind a piece.
pub(crate) fn depth_behind(depth: u32, piece: Piece) -> u32 {
    match piece.kind {
        PieceKind::Token(TokenKind::Mark(b'<' | b'(' | b'[')) => depth.saturating_add(1),
        PieceKind::Token(TokenKind::Mark(b'>' | b')' | b']')) => depth.saturating_sub(1),
        _ => depth,
    }
}

/// What stands behind the first piece.
fn tail<'a>(pieces: &'a [Piece]) -> &'a [Piece]
    ensures { result.now ≡ tail_of pieces.entry.now }
{
    match pieces.split_first() {
        Some((_, rest)) => rest,
        None => &[],
    }
}

/// The operands, which commas outside of brackets separate.
pub(crate) fn operands_of<'a>(
    alloc: Global,
    pieces: &'a [Piece],
) -> Result<Vec<&'a [Piece]>, NoMemory> {
    let mut all = Vec::new(alloc);
    if pieces.is_empty() {
        return Ok(all);
    }
    let mut rest = pieces;
    let mut count: usize = 0;
    let mut depth: u32 = 0;
    for piece in pieces {
        if depth == 0 && is_mark(*piece, b',') {
            let (one, behind) = rest.split_at(count.min(rest.len()));
            all.push(one).map_err(|_| NoMemory)?;
            rest = tail(behind);
            count = 0;
        } else {
            depth = depth_behind(depth, *piece);
            count = count.saturating_add(1);
        }
    }
    all.push(rest).map_err(|_| NoMemory)?;
    Ok(all)
}

/// The pieces before the first bracket.
pub(crate) fn before_bracket(pieces: &[Piece]) -> &[Piece] {
    for (i, piece) in pieces.iter().enumerate() {
        if is_mark(*piece, b'(') || is_mark(*piece, b'[') {
            return pieces.split_at(i).0;
        }
    }
    pieces
}

/// What stands behind a prefix as `W^`, if an operand begins with one.
fn behind_prefix<'a>(operand: &'a [Piece]) -> &'a [Piece] {
    let Some((prefix, rest)) = operand.split_first() else {
        return operand;
    };
    match behind_mark(rest, b'^') {
        Some(behind) if is_name(*prefix) => behind,
        _ => operand,
    }
}

/// What of an operand is an expression: what stands behind a prefix and `#`, and before a bracket.
pub(crate) fn expression_of<'a>(operand: &'a [Piece]) -> &'a [Piece] {
    let behind = behind_prefix(operand);
    match behind_mark(behind, b'#') {
        Some(rest) => before_bracket(rest),
        None => before_bracket(behind),
    }
}
