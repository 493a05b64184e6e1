// The label and the operator of a line.

ghost use Rattle.std.specs.Prelude.{◌≡◌, ◌+◌, ◌-◌, ◌<◌, ◌≤◌, ◌^◌, length};
ghost use Rattle.vax_macro.specs.Heads.{is_name_piece, is_mark_piece, is_bad, is_wide, piece_text, label_pieces, end_of, operator_in, head_in, condition_word, word_of, word_in, known_word, has_bad, has_unprintable, is_unprintable, code_end, code_from};
ghost use Rattle.vax_macro.specs.HeadViews.{word_view, head_view};

use crate::names::part;
use vax_lex::{Piece, PieceKind, TokenKind, spells};

/// A directive of the expander.
#[derive(Clone, Copy, PartialEq, Eq)]
pub(crate) enum Word {
    Macro,
    EndMacro,
    Repeat,
    RepeatArguments,
    RepeatCharacters,
    EndRepeat,
    If,
    IfFalse,
    IfTrue,
    IfTrueFalse,
    EndIf,
    ImmediateIf,
    Leave,
    CountArguments,
    CountCharacters,
    Delete,
    Opcode,
    End,
    Other,
}

/// What the expander sees of a line: where its label ends (0 for none), its operator, and where among the pieces the
/// operands begin.
#[derive(Clone, Copy)]
pub(crate) struct Head {
    pub(crate) label_end: usize,
    pub(crate) operator: Option<Piece>,
    pub(crate) operands: usize,
}

pub(crate) fn is_name_piece(kind: PieceKind) -> bool
    ensures { result ≡ is_name_piece kind }
{
    matches!(kind, PieceKind::Token(TokenKind::Name))
}

pub(crate) fn is_mark_piece(mark: u8, kind: PieceKind) -> bool
    ensures { result ≡ is_mark_piece mark kind }
{
    match kind {
        PieceKind::Token(TokenKind::Mark(found)) => found == mark,
        _ => false,
    }
}

pub(crate) fn is_bad(kind: PieceKind) -> bool
    ensures { result ≡ is_bad kind }
{
    matches!(kind, PieceKind::Bad)
}

pub(crate) fn is_wide(kind: PieceKind) -> bool
    ensures { result ≡ is_wide kind }
{
    matches!(kind, PieceKind::Wide)
}

/// The text of a piece.
pub(crate) fn piece_text(text: &[u8], piece: Piece) -> &[u8]
    ensures { result.now ≡ piece_text text.now piece }
{
    part(text, piece.start as usize, piece.end as usize)
}

/// How many pieces a label is.
#[tactic(auto, unfolding(crate::specs::Heads::label_pieces))]
fn label_pieces(pieces: &[Piece]) -> usize
    ensures exact { result ≡ label_pieces pieces.now }
    ensures bound { result ≤ length pieces.now }
{
    match pieces {
        [name, colon, rest @ ..] => {
            if !(is_name_piece(name.kind) && is_mark_piece(b':', colon.kind)) {
                return 0;
            }
            match rest.first() {
                Some(second) => {
                    if is_mark_piece(b':', second.kind) && second.start == colon.end {
                        3
                    } else {
                        2
                    }
                }
                None => 2,
            }
        }
        _ => 0,
    }
}

/// The operator, of the pieces behind a label of so many pieces.
#[tactic(auto, unfolding(crate::specs::Heads::operator_in))]
fn operator_in(label: usize, pieces: &[Piece]) -> Option<Piece>
    ensures { result ≡ operator_in label pieces.now }
{
    let Some((first, rest)) = pieces.split_first() else {
        return None;
    };
    if !is_name_piece(first.kind) {
        return None;
    }
    if let Some(next) = rest.first() {
        if label == 0 && is_mark_piece(b'=', next.kind) {
            return None;
        }
    }
    Some(*first)
}

/// Where the last of so many pieces ends.
fn end_of(count: usize, pieces: &[Piece]) -> usize
    ensures value { result ≡ end_of count pieces.now }
    ensures bound { result < 2 ^ 32 }
{
    match pieces.get(count.saturating_sub(1)) {
        Some(piece) => piece.end as usize,
        None => 0,
    }
}

/// The label and the operator of a line.
#[tactic(auto, unfolding(crate::specs::Heads::head_in))]
pub(crate) fn head_in(pieces: &[Piece]) -> Head
    ensures exact { head_view pieces.now result ≡ head_in pieces.now }
    ensures bound { result.operands ≤ length pieces.now }
{
    let label = label_pieces(pieces);
    let label_end = if label == 0 { 0 } else { end_of(label, pieces) };
    Head {
        label_end,
        operator: operator_in(label, &pieces[label..]),
        operands: (label + 1).min(pieces.len()),
    }
}

/// The directive that a name is, if it is one of conditions, of the larger language alone, or `.END`.
#[tactic(auto, unfolding(crate::specs::Heads::condition_word))]
fn condition_word(name: &[u8]) -> Word
    ensures { word_view result ≡ condition_word name.now }
{
    if spells(b".IF", name) {
        Word::If
    } else if spells(b".IFF", name) || spells(b".IF_FALSE", name) {
        Word::IfFalse
    } else if spells(b".IFT", name) || spells(b".IF_TRUE", name) {
        Word::IfTrue
    } else if spells(b".IFTF", name) || spells(b".IF_TRUE_FALSE", name) {
        Word::IfTrueFalse
    } else if spells(b".ENDC", name) {
        Word::EndIf
    } else if spells(b".IIF", name) {
        Word::ImmediateIf
    } else if spells(b".MEXIT", name) {
        Word::Leave
    } else if spells(b".NARG", name) {
        Word::CountArguments
    } else if spells(b".NCHR", name) {
        Word::CountCharacters
    } else if spells(b".MDELETE", name) {
        Word::Delete
    } else if spells(b".END", name) {
        Word::End
    } else {
        Word::Other
    }
}

/// The directive that a name is.
#[tactic(auto, unfolding(crate::specs::Heads::word_of))]
fn word_of(name: &[u8]) -> Word
    ensures { word_view result ≡ word_of name.now }
{
    if spells(b".MACRO", name) {
        Word::Macro
    } else if spells(b".ENDM", name) {
        Word::EndMacro
    } else if spells(b".REPT", name) || spells(b".REPEAT", name) {
        Word::Repeat
    } else if spells(b".IRP", name) {
        Word::RepeatArguments
    } else if spells(b".IRPC", name) {
        Word::RepeatCharacters
    } else if spells(b".ENDR", name) {
        Word::EndRepeat
    } else if spells(b".OPDEF", name) {
        Word::Opcode
    } else {
        condition_word(name)
    }
}

/// The directive that the operator of a line is.
pub(crate) fn word_in(text: &[u8], operator: Option<Piece>) -> Word
    ensures { word_view result ≡ word_in text.now operator }
{
    match operator {
        Some(piece) => word_of(piece_text(text, piece)),
        None => Word::Other,
    }
}

/// The directives that only the larger language has are no words of the other.
pub(crate) fn known_word(larger: bool, word: Word) -> Word
    ensures { word_view result ≡ known_word larger (word_view word) }
{
    match word {
        Word::Leave | Word::CountArguments | Word::CountCharacters | Word::Delete | Word::Opcode
            if !larger => Word::Other,
        word => word,
    }
}

/// Whether a byte among the pieces belongs to no token.
pub(crate) fn has_bad(pieces: &[Piece]) -> bool
    ensures { result ≡ has_bad pieces.now }
{
    pieces.iter().any(|piece| is_bad(piece.kind))
}

/// Whether a piece is a byte that isn't printable.
fn is_unprintable(text: &[u8], piece: Piece) -> bool
    ensures { result ≡ is_unprintable text.now piece }
{
    if !is_bad(piece.kind) {
        return false;
    }
    match text.get(piece.start as usize) {
        Some(byte) => !byte.is_ascii_graphic(),
        None => true,
    }
}

/// Whether a piece among these is a byte that isn't printable.
pub(crate) fn has_unprintable(text: &[u8], pieces: &[Piece]) -> bool
    ensures { result ≡ has_unprintable text.now pieces.now }
{
    pieces.iter().any(|piece| is_unprintable(text, *piece))
}

/// Where the last piece ends.
pub(crate) fn code_end(pieces: &[Piece]) -> usize
    ensures value { result ≡ code_end pieces.now }
    ensures bound { result < 2 ^ 32 }
{
    end_of(pieces.len(), pieces)
}

/// The text from a place up to the end of these pieces.
pub(crate) fn code_from<'a>(at: usize, pieces: &[Piece], text: &'a [u8]) -> &'a [u8]
    ensures { result.now ≡ code_from at pieces.now text.now }
{
    crate::names::behind(part(text, 0, code_end(pieces)), at)
}
