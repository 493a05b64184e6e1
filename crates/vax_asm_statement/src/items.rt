// The operands of directives.

ghost use Rattle.std.specs.Prelude.{◌≡◌, ◌<◌, ◌^◌, ℕ, List, All, IfSome, IfOk, length};
ghost use Rattle.vax_lex.specs.Tokens.{IsTokenOf};
ghost use Rattle.vax_asm_statement.specs.Within.{ItemWithin, PieceWithin};
ghost use Rattle.vax_asm_statement.specs.Items.{bracket_from, item_of, closes, pieces_of, is_local, name_alone, item_seen, pieces_seen};

use crate::operators::depth_after;
use crate::tokens::{is_mark, is_name_token, is_text_token, text_of};
use std::alloc::{AllocError, Global};
use vax_lex::Token;

/// An item of data: `e`, or `e[n]`, which is e so many times.
#[derive(Clone, Copy)]
pub struct Item<'a> {
    pub expression: &'a [Token],
    pub count: Option<&'a [Token]>,
}

/// A piece of text.
#[derive(Clone, Copy)]
pub enum Piece<'a> {
    /// Characters between two delimiters.
    Characters(Token),
    /// `<e>`: one byte.
    Value(&'a [Token]),
}

/// The place of the first `[`.
fn bracket_of(tokens: &[Token]) -> Option<usize>
    ensures exact { result ≡ bracket_from 0 tokens.now }
    ensures within { IfSome result (λ i. i < length tokens.now) }
{
    for (i, token) in tokens.iter().enumerate() {
        if is_mark(b'[', *token) {
            return Some(i);
        }
    }
    None
}

#[tactic(auto, unfolding(crate::specs::Items::item_of))]
fn split_item<'a>(tokens: &'a [Token]) -> Item<'a>
    ensures { item_seen result ≡ item_of tokens.now }
{
    let whole = Item {
        expression: tokens,
        count: None,
    };
    let Some(last) = tokens.last() else {
        return whole;
    };
    if !is_mark(b']', *last) {
        return whole;
    }
    let front = &tokens[..tokens.len() - 1];
    match bracket_of(front) {
        Some(i) => Item {
            expression: &front[..i],
            count: Some(&front[i + 1..]),
        },
        None => whole,
    }
}

/// The item that an operand is: `e`, or `e[n]`.
pub fn read_item<'a>(tokens: &'a [Token]) -> Item<'a>
    ensures item { item_seen result ≡ item_of tokens.now }
    // It is made of the tokens.
    ensures within { (line : List ℕ) →
        All (IsTokenOf line) tokens.now → ItemWithin line (item_of tokens.now) }
{
    split_item(tokens)
}

/// Whether a name is a local label: it begins with a digit.
pub fn is_local(name: &[u8]) -> bool
    ensures { result ≡ is_local name.now }
{
    match name.first() {
        Some(first) => first.is_ascii_digit(),
        None => false,
    }
}

/// The name that an operand is. None where it is anything else, or a local label.
pub fn name_alone(line: &[u8], tokens: &[Token]) -> Option<Token>
    requires { All (IsTokenOf line.now) tokens.now }
    ensures name { result ≡ name_alone line.now tokens.now }
    ensures within { IfSome result (λ t. IsTokenOf line.now t) }
{
    match tokens {
        [token] => {
            if is_name_token(*token) && !is_local(text_of(line, *token)) {
                Some(*token)
            } else {
                None
            }
        }
        _ => None,
    }
}

/// Whether a token ends the value of a byte.
fn closes(depth: usize, token: Token) -> bool
    ensures { result ≡ closes depth token }
{
    depth == 1 && is_mark(b'>', token)
}

#[tactic(auto, using(crate::proofs::Texts::text_piece, crate::proofs::Texts::value_begins, crate::proofs::Texts::no_piece, crate::proofs::Texts::value_ends, crate::proofs::Texts::value_grows, crate::proofs::Texts::pieces_end))]
fn split_pieces<'a>(
    alloc: Global,
    tokens: &'a [Token],
) -> Result<Option<Vec<Piece<'a>>>, AllocError>
    requires { length tokens.now < 2 ^ 32 }
    ensures { IfOk result (λ o. pieces_seen o ≡ pieces_of tokens.now) }
{
    let mut found = Vec::new(alloc);
    let mut begin = 0;
    let mut depth = 0;
    for i in 0..tokens.len() {
        let token = tokens[i];
        if depth > 0 {
            if closes(depth, token) {
                found.push(Piece::Value(&tokens[begin..i]))?;
                depth = 0;
                continue;
            }
            depth = depth_after(depth, token);
            continue;
        }
        if is_text_token(token) {
            found.push(Piece::Characters(token))?;
            continue;
        }
        if !is_mark(b'<', token) {
            return Ok(None);
        }
        depth = 1;
        begin = i + 1;
    }
    if depth == 0 {
        Ok(Some(found))
    } else {
        Ok(None)
    }
}

/// The pieces of text that operands are. None where they are anything else.
pub fn pieces<'a>(alloc: Global, tokens: &'a [Token]) -> Result<Option<Vec<Piece<'a>>>, AllocError>
    requires { length tokens.now < 2 ^ 32 }
    ensures pieces { IfOk result (λ o. pieces_seen o ≡ pieces_of tokens.now) }
    // They are made of the tokens.
    ensures within { (line : List ℕ) →
        All (IsTokenOf line) tokens.now → IfSome (pieces_of tokens.now) (All (PieceWithin line)) }
{
    split_pieces(alloc, tokens)
}
