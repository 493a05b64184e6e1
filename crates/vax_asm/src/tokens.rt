// What a line is cut into.

ghost use Rattle.std.specs.Prelude.{◌≡◌, ◌&&◌, not, cond, IfOk, IfSome, None, Some, map, option_map};
ghost use Rattle.std.specs.List.{list_any};
ghost use Rattle.vax_asm.specs.Placing.{directive_named as named_directive, instruction_named, in_ascii, is_bad, is_wide, kind_of, token_of};
ghost use Rattle.vax_isa.specs.Rows.{IsFormed, plain, row_of};

use std::alloc::Global;
use vax_asm_statement::{Directive, directive_named};
use vax_dialect::Dialect;
use vax_isa::{Row, by_name};
use vax_lex::{Piece, PieceKind, Token, TokenKind};
use vax_space::NoMemory;

/// A number above 64 bits stands for the greatest, and a byte where no token begins for a number.
fn kind_of(kind: PieceKind) -> TokenKind
    ensures { result ≡ kind_of kind }
{
    match kind {
        PieceKind::Token(kind) => kind,
        PieceKind::Wide => TokenKind::Number(u64::MAX),
        PieceKind::Bad => TokenKind::Number(0),
    }
}

fn token_of(piece: Piece) -> Token
    ensures { result ≡ token_of piece }
{
    Token {
        kind: kind_of(piece.kind),
        start: piece.start,
        end: piece.end,
    }
}

fn is_bad(piece: Piece) -> bool
    ensures { result ≡ is_bad piece }
{
    matches!(piece.kind, PieceKind::Bad)
}

fn is_wide(piece: Piece) -> bool
    ensures { result ≡ is_wide piece }
{
    matches!(piece.kind, PieceKind::Wide)
}

/// Whether the line has a byte where no token begins.
#[tactic(auto, using(crate::proofs::Pieces::bad_found, crate::proofs::Pieces::bad_passed, crate::proofs::Pieces::no_bad))]
pub(crate) fn has_bad(pieces: &[Piece]) -> bool
    ensures { result ≡ list_any is_bad pieces.now }
{
    for piece in pieces {
        if is_bad(*piece) {
            return true;
        }
    }
    false
}

/// Whether the line has a number above 64 bits.
#[tactic(auto, using(crate::proofs::Pieces::wide_found, crate::proofs::Pieces::wide_passed, crate::proofs::Pieces::no_wide))]
pub(crate) fn has_wide(pieces: &[Piece]) -> bool
    ensures { result ≡ list_any is_wide pieces.now }
{
    for piece in pieces {
        if is_wide(*piece) {
            return true;
        }
    }
    false
}

/// Whether each piece of a line is a token.
pub(crate) fn are_tokens(pieces: &[Piece]) -> bool
    ensures { result ≡ (not (list_any is_bad pieces.now) && not (list_any is_wide pieces.now)) }
{
    !has_bad(pieces) && !has_wide(pieces)
}

/// The pieces of a line as tokens.
#[tactic(auto, using(crate::proofs::Pieces::token_taken, crate::proofs::Pieces::tokens_taken))]
pub(crate) fn tokens_of(alloc: Global, pieces: &[Piece]) -> Result<Vec<Token>, NoMemory>
    ensures { IfOk result (λ v. v.items ≡ map token_of pieces.now) }
{
    let mut tokens = Vec::new(alloc);
    for piece in pieces {
        if tokens.push(token_of(*piece)).is_err() {
            return Err(NoMemory);
        }
    }
    Ok(tokens)
}

/// The text of an operator.
#[tactic(auto, using(crate::proofs::Words::is_text, crate::proofs::Words::all_ascii, crate::proofs::Words::not_ascii))]
fn word(name: &[u8]) -> Option<&str>
    ensures { option_map (λ s. s.now) result ≡ cond (in_ascii name.now) (Some name.now) None }
{
    if !name.is_ascii() {
        return None;
    }
    str::from_utf8(name).ok()
}

/// The directive with this name in a dialect.
pub(crate) fn directive(dialect: Dialect, name: &[u8]) -> Option<Directive>
    ensures { result ≡ named_directive dialect name.now }
{
    directive_named(dialect, word(name)?)
}

/// The instruction with this name.
pub(crate) fn instruction(name: &[u8]) -> Option<Row>
    ensures row { option_map plain result ≡ option_map row_of (instruction_named name.now) }
    ensures formed { IfSome result (λ r. IsFormed (plain r)) }
{
    by_name(word(name)?)
}
