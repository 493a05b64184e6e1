// The operators of statements.

ghost use Rattle.std.specs.Prelude.{◌≡◌, ◌-◌, ◌≤◌, drop, length, take};
ghost use Rattle.vax_macro.specs.Heads.{head_in, is_mark_piece, is_name_piece, label_pieces, operator_in, piece_text};

use vax_lex::{Piece, PieceKind, TokenKind};

fn is_name(piece: Piece) -> bool
    ensures { result ≡ is_name_piece piece.kind }
{
    matches!(piece.kind, PieceKind::Token(TokenKind::Name))
}

fn is_mark(piece: Piece, mark: u8) -> bool
    ensures { result ≡ is_mark_piece mark piece.kind }
{
    match piece.kind {
        PieceKind::Token(TokenKind::Mark(found)) => found == mark,
        _ => false,
    }
}

/// How many pieces the label of a statement is: a name and one or two colons, or nothing.
#[tactic(auto, unfolding(vax_macro::specs::Heads::label_pieces))]
fn label_pieces(pieces: &[Piece]) -> usize
    ensures exact { result ≡ label_pieces pieces.now }
    ensures bound { result ≤ length pieces.now }
{
    match pieces {
        [name, colon, rest @ ..] => {
            if !(is_name(*name) && is_mark(*colon, b':')) {
                return 0;
            }
            match rest.first() {
                Some(second) => {
                    if is_mark(*second, b':') && second.start == colon.end {
                        3
                    } else {
                        2
                    }
                }
                None => 2,
            }
        }
        _ => 0,
    }
}

/// The operator, of the pieces behind a label of so many pieces. An assignment has none.
#[tactic(auto, unfolding(vax_macro::specs::Heads::operator_in))]
fn operator_in(label: usize, pieces: &[Piece]) -> Option<Piece>
    ensures { result ≡ operator_in label pieces.now }
{
    let Some((first, rest)) = pieces.split_first() else {
        return None;
    };
    if !is_name(*first) {
        return None;
    }
    if let Some(next) = rest.first() {
        if label == 0 && is_mark(*next, b'=') {
            return None;
        }
    }
    Some(*first)
}

/// The operator of a statement of these pieces, if it has one.
#[tactic(auto, unfolding(vax_macro::specs::Heads::head_in))]
pub(crate) fn operator_of(pieces: &[Piece]) -> Option<Piece>
    ensures { result ≡ (head_in pieces.now).operator }
{
    let label = label_pieces(pieces);
    operator_in(label, &pieces[label..])
}

/// The bytes of a text from a place on.
fn behind(text: &[u8], start: usize) -> &[u8]
    ensures { result.now ≡ drop start text.now }
{
    if start >= text.len() {
        return &text[text.len()..];
    }
    &text[start..]
}

/// The bytes of a text from one place up to another, as far as there are any.
fn part(text: &[u8], start: usize, end: usize) -> &[u8]
    ensures { result.now ≡ take (end - start) (drop start text.now) }
{
    let behind = behind(text, start);
    if start >= end {
        return &behind[..0];
    }
    let length = (end - start).min(behind.len());
    &behind[..length]
}

/// The text of a piece.
pub(crate) fn piece_text(text: &[u8], piece: Piece) -> &[u8]
    ensures { result.now ≡ piece_text text.now piece }
{
    part(text, piece.start as usize, piece.end as usize)
}
