// The pieces and the tokens of a line.

ghost use Rattle.std.specs.Prelude.{List, ◌≡◌, ◌≤◌, ◌+◌, ◌++◌, ◌∷◌, [], length, map, All, AllPairs, IfOk, OnOk};
ghost use Rattle.vax_dialect.specs.declared.Dialect.TheVariants.{Vax};
ghost use Rattle.vax_lex.specs.Tokens.{piece, pieces_of, tokens_in, tokens_of, Answers, IsPieceOf, IsTokenOf, PiecePrecedes, Precedes, Covers, piece_span, span_of};
ghost use Rattle.vax_lex.specs.Written.{IsWritten, Scans};
ghost use Rattle.vax_lex.specs.declared.token.Piece.{Piece};

use crate::context::Context;
use crate::head::{Head, head_of, stray_kind};
use crate::token::{LexError, Piece, PieceKind, Token, TokenKind};
use std::alloc::{AllocError, Global};
use vax_dialect::Dialect;

/// Adds a piece of so many bytes.
fn add(pieces: &mut Vec<Piece>, kind: PieceKind, at: usize, length: usize) -> Result<(), AllocError>
    requires { at + length ≤ 2048 }
    ensures { OnOk result (pieces.new.items ≡ pieces.old.items ++ piece kind at length ∷ []) }
{
    pieces.push(Piece {
        kind,
        start: at as u32,
        end: (at + length) as u32,
    })?;
    Ok(())
}

/// The pieces of a text of a dialect, of at most 2,048 bytes, which has no line feed: its tokens, and what stands between them and is
/// no token. Two lines that are joined have so many bytes, before the comment between them is dropped.
///
/// Blanks and the comment belong to no piece. A number above 64 bits is one piece, and so is a byte where no token
/// begins, behind which the line goes on as behind a mark. So a line with a fault can be read for its other faults.
pub fn pieces(alloc: Global, dialect: Dialect, line: &[u8]) -> Result<Vec<Piece>, AllocError>
    requires { length line.now ≤ 2048 }
    // The pieces are those of the definition.
    ensures exact { IfOk result (λ v. v.items ≡ pieces_of dialect line.now) }
    // The line is written as these pieces in the language.
    ensures written { IfOk result (λ v. IsWritten dialect line.now v.items) }
    // It is written as no others.
    ensures only { IfOk result (λ v. (ps : List Piece) → IsWritten dialect line.now ps
        → ps ≡ v.items) }
    // Each piece lies within the line.
    ensures within { IfOk result (λ v. All (IsPieceOf line.now) v.items) }
    // No piece begins before one before it ends.
    ensures in_order { IfOk result (λ v. AllPairs PiecePrecedes v.items) }
    // The pieces cover all but blanks and the comment.
    ensures covers { IfOk result (λ v. Covers line.now (map piece_span v.items)) }
{
    let mut pieces = Vec::new(alloc);
    let mut context = Context::line_start();
    let mut at: usize = 0;
    loop {
        let rest = &line[at..];
        match head_of(context, rest) {
            Head::End => return Ok(pieces),
            Head::Blank => {
                context = context.after_blank();
                at += 1;
            }
            Head::Begins(kind, length) => {
                add(&mut pieces, PieceKind::Token(kind), at, length)?;
                context = context.after(dialect, kind, &rest[..length]);
                at += length;
            }
            Head::Wide(length) => {
                add(&mut pieces, PieceKind::Wide, at, length)?;
                context = context.after(dialect, TokenKind::Number(0), &rest[..length]);
                at += length;
            }
            Head::Nothing => {
                add(&mut pieces, PieceKind::Bad, at, 1)?;
                context = context.after(dialect, stray_kind(rest[0]), &rest[..1]);
                at += 1;
            }
        }
    }
}

/// The tokens that pieces are, or the first piece that is none.
fn tokens_in(alloc: Global, pieces: &[Piece]) -> Result<Vec<Token>, LexError>
    ensures { Answers result (tokens_in pieces.now) }
{
    let mut tokens = Vec::new(alloc);
    for piece in pieces {
        let kind = match piece.kind {
            PieceKind::Token(kind) => kind,
            PieceKind::Wide => return Err(LexError::Wide(piece.start)),
            PieceKind::Bad => return Err(LexError::Token(piece.start)),
        };
        let token = Token {
            kind,
            start: piece.start,
            end: piece.end,
        };
        tokens.push(token).map_err(|_| LexError::NoMemory)?;
    }
    Ok(tokens)
}

/// The tokens of a line of the smaller dialect, or of an expression of either, of at most 1,024 bytes, which has no line
/// feed.
///
/// Blanks and the comment belong to no token; each token is the longest that begins at its place. The answer is
/// the first error from the left: [`LexError::Token`] at a place where no token begins, or [`LexError::Wide`] at a
/// number above 64 bits. [`LexError::NoMemory`] comes where memory is refused.
/// (VAX MACRO and Instruction Set Reference Manual, "Components of MACRO source statements".)
#[tactic(auto, using(crate::proofs::Reading::scans_by, crate::proofs::Reading::scans_only))]
pub fn scan(alloc: Global, line: &[u8]) -> Result<Vec<Token>, LexError>
    requires { length line.now ≤ 1024 }
    // The tokens or the error are those of the definition.
    ensures exact { Answers result (tokens_of Vax line.now) }
    // They are those of the pieces that the line is written as in the language.
    ensures written { Scans line.now result }
    // No other pieces give anything else.
    ensures only { (ps : List Piece) → IsWritten Vax line.now ps → Answers result (tokens_in ps) }
    // Each token lies within the line.
    ensures within { IfOk result (λ v. All (IsTokenOf line.now) v.items) }
    // No token begins before one before it ends.
    ensures in_order { IfOk result (λ v. AllPairs Precedes v.items) }
    // The tokens cover all but blanks and the comment.
    ensures covers { IfOk result (λ v. Covers line.now (map span_of v.items)) }
{
    let Ok(pieces) = pieces(alloc, Dialect::Vax, line) else {
        return Err(LexError::NoMemory);
    };
    tokens_in(alloc, &pieces)
}
