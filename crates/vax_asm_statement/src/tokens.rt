// Tokens and their bytes.

ghost use Rattle.std.specs.Prelude.{◌≡◌, ◌<◌, true, length};
ghost use Rattle.vax_lex.specs.Tokens.{IsTokenOf, token_text};
ghost use Rattle.vax_asm_statement.specs.Tokens.{is_mark, begins_with, is_name_token, is_text_token};

use vax_lex::{Token, TokenKind};

pub(crate) fn is_mark(mark: u8, token: Token) -> bool
    ensures { result ≡ is_mark mark token }
{
    match token.kind {
        TokenKind::Mark(found) => found == mark,
        _ => false,
    }
}

pub(crate) fn begins_with(mark: u8, tokens: &[Token]) -> bool
    ensures exact { result ≡ begins_with mark tokens.now }
    ensures some { result ≡ true → 0 < length tokens.now }
{
    match tokens.first() {
        Some(first) => is_mark(mark, *first),
        None => false,
    }
}

pub(crate) fn is_name_token(token: Token) -> bool
    ensures { result ≡ is_name_token token }
{
    match token.kind {
        TokenKind::Name => true,
        _ => false,
    }
}

/// The bytes of a token of a line.
pub fn text_of(line: &[u8], token: Token) -> &[u8]
    requires { IsTokenOf line.now token }
    ensures { result.now ≡ token_text line.now token }
{
    &line[token.start as usize..token.end as usize]
}

pub(crate) fn is_text_token(token: Token) -> bool
    ensures { result ≡ is_text_token token }
{
    match token.kind {
        TokenKind::Text => true,
        _ => false,
    }
}
