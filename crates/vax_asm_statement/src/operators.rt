// The operands of a statement.

ghost use Rattle.std.specs.Prelude.{◌≡◌, ◌<◌, ◌^◌, ℕ, List, [], All, IfOk, length, map};
ghost use Rattle.vax_asm_statement.specs.Parts.{depth_after, separates, split_from, parts};
ghost use Rattle.vax_lex.specs.Tokens.{IsTokenOf};

use crate::tokens::is_mark;
use std::alloc::{AllocError, Global};
use vax_lex::Token;

pub(crate) fn depth_after(depth: usize, token: Token) -> usize
    requires { depth < 2 ^ 63 }
    ensures { result ≡ depth_after depth token }
{
    if is_mark(b'<', token) {
        depth + 1
    } else if is_mark(b'>', token) {
        depth.saturating_sub(1)
    } else {
        depth
    }
}

/// Whether a token stands between two operands.
fn separates(depth: usize, token: Token) -> bool
    ensures { result ≡ separates depth token }
{
    depth == 0 && is_mark(b',', token)
}

#[tactic(auto, using(crate::proofs::Splitting::part_ends, crate::proofs::Splitting::part_grows, crate::proofs::Splitting::part_last))]
fn split<'a>(alloc: Global, tokens: &'a [Token]) -> Result<Vec<&'a [Token]>, AllocError>
    requires { length tokens.now < 2 ^ 32 }
    ensures { IfOk result (λ v. map (λ s. s.now) v.items ≡ split_from 0 [] tokens.now) }
{
    let mut found = Vec::new(alloc);
    let mut begin = 0;
    let mut depth = 0;
    for i in 0..tokens.len() {
        let token = tokens[i];
        if separates(depth, token) {
            found.push(&tokens[begin..i])?;
            begin = i + 1;
            continue;
        }
        depth = depth_after(depth, token);
    }
    found.push(&tokens[begin..])?;
    Ok(found)
}

/// The operands of a statement: what stands between the commas that stand in no brackets. No tokens are no operand.
pub fn parts<'a>(alloc: Global, tokens: &'a [Token]) -> Result<Vec<&'a [Token]>, AllocError>
    requires { length tokens.now < 2 ^ 32 }
    ensures parts { IfOk result (λ v. map (λ s. s.now) v.items ≡ parts tokens.now) }
    // They are made of the tokens.
    ensures within { (line : List ℕ) →
        All (IsTokenOf line) tokens.now → All (All (IsTokenOf line)) (parts tokens.now) }
{
    if tokens.is_empty() {
        Ok(Vec::new(alloc))
    } else {
        split(alloc, tokens)
    }
}
