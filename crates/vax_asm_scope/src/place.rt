// Which tokens of an expression are names that it uses.

ghost use Rattle.std.specs.Prelude.{◌≡◌, All, codes};
ghost use Rattle.std.specs.Str.{bytes_eq};
ghost use Rattle.vax_lex.specs.Grammar.{symbol_of, symbols_of};
ghost use Rattle.vax_lex.specs.KeptNames.{kept_name};
ghost use Rattle.vax_lex.specs.Characters.{canonical_name};
ghost use Rattle.vax_lex.specs.Tokens.{IsTokenOf, token_text};
ghost use Rattle.vax_lex.specs.declared.token.TokenKind.TheVariants.{Name};
ghost use Rattle.vax_asm_scope.specs.PlaceView.{place_of};
ghost use Rattle.vax_asm_scope.specs.Used.{behind, behind_mark, behind_name, used_by, has_place, uses_place};

use vax_lex::{CanonicalName, Token, TokenKind};

/// Where a token stands: where a name is a term, behind `^`, behind `^M`, or in a register mask.
#[derive(Clone, Copy, PartialEq, Eq)]
pub(crate) enum Place {
    Term,
    Caret,
    MaskOperator,
    Mask,
}

fn text_of(line: &[u8], token: Token) -> &[u8]
    requires { IsTokenOf line.now token }
    ensures { result.now ≡ token_text line.now token }
{
    &line[token.start as usize..token.end as usize]
}

/// A name as it is kept.
pub(crate) fn kept_text(line: &[u8], token: Token) -> CanonicalName
    requires within { IsTokenOf line.now token }
    requires kind { token.kind ≡ Name }
    ensures { kept_name result ≡ canonical_name (token_text line.now token) }
{
    CanonicalName::of(text_of(line, token))
}

fn is_mask(name: &[u8]) -> bool
    ensures { result ≡ bytes_eq name.now (codes "M") }
{
    name == b"M".as_slice()
}

fn behind_name(place: Place, name: &[u8]) -> Place
    ensures { place_of result ≡ behind_name (place_of place) name.now }
{
    match place {
        Place::Term => Place::Term,
        Place::Caret if is_mask(name) => Place::MaskOperator,
        Place::Caret | Place::MaskOperator => Place::Term,
        Place::Mask => Place::Mask,
    }
}

fn behind_mark(place: Place, mark: u8) -> Place
    ensures { place_of result ≡ behind_mark (place_of place) mark }
{
    match place {
        Place::Term if mark == b'^' => Place::Caret,
        Place::Term | Place::Caret => Place::Term,
        Place::MaskOperator | Place::Mask if mark == b'>' => Place::Term,
        Place::MaskOperator | Place::Mask => Place::Mask,
    }
}

/// The place behind a token.
pub(crate) fn behind(line: &[u8], place: Place, token: Token) -> Place
    requires { IsTokenOf line.now token }
    ensures { place_of result ≡ behind (place_of place) (symbol_of line.now token) }
{
    match token.kind {
        TokenKind::Name => behind_name(place, kept_text(line, token).as_bytes()),
        TokenKind::Mark(mark) => behind_mark(place, mark),
        TokenKind::Number(_) | TokenKind::Text => place,
    }
}

pub(crate) fn is_dot(text: &[u8]) -> bool
    ensures { result ≡ bytes_eq text.now (codes ".") }
{
    text == b".".as_slice()
}

/// Whether a token is a `.` that an expression uses.
fn is_here(line: &[u8], place: Place, token: Token) -> bool
    requires { IsTokenOf line.now token }
    ensures { result ≡ has_place (used_by (place_of place) (symbol_of line.now token)) }
{
    match (place, token.kind) {
        (Place::Term, TokenKind::Name) => is_dot(kept_text(line, token).as_bytes()),
        _ => false,
    }
}

/// Whether an expression uses `.`, the place where its statement begins.
#[tactic(auto, using(crate::proofs::Binding::place_passed, crate::proofs::Binding::place_found))]
pub fn uses_place(line: &[u8], tokens: &[Token]) -> bool
    requires { All (IsTokenOf line.now) tokens.now }
    ensures { result ≡ uses_place (symbols_of line.now tokens.now) }
{
    let mut place = Place::Term;
    for token in tokens {
        if is_here(line, place, *token) {
            return true;
        }
        place = behind(line, place, *token);
    }
    false
}
