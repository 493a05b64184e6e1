// Names as operands.

ghost use Rattle.std.specs.Prelude.{◌≡◌, All, true, option_map};
ghost use Rattle.vax_lex.specs.KeptNames.{kept_name};
ghost use Rattle.vax_lex.specs.Tokens.{IsTokenOf};
ghost use Rattle.vax_asm_labels.specs.Naming.{is_place, name_in, name_of};
ghost use Rattle.vax_asm_statement.specs.Tokens.{is_name_token};

use vax_asm_statement::{name_alone, text_of};
use vax_lex::{CanonicalName, Token};

/// The name that a token is, as it is kept.
#[tactic(auto, using(crate::proofs::Alone::name_is_short))]
pub(crate) fn kept(line: &[u8], token: Token) -> CanonicalName
    requires within { IsTokenOf line.now token }
    requires name { is_name_token token ≡ true }
    ensures { kept_name result ≡ name_in line.now token }
{
    CanonicalName::of(text_of(line, token))
}

/// Whether a name is `.`, the place of its statement.
pub(crate) fn is_place(name: &[u8]) -> bool
    ensures { result ≡ is_place name.now }
{
    name == b".".as_slice()
}

/// The name that an operand is. None where it is anything else, or a local label or `.`.
#[tactic(auto, using(crate::proofs::Alone::alone_is_name))]
pub(crate) fn name_of(line: &[u8], tokens: &[Token]) -> Option<CanonicalName>
    requires { All (IsTokenOf line.now) tokens.now }
    ensures { option_map kept_name result ≡ name_of line.now tokens.now }
{
    let token = name_alone(line, tokens)?;
    let name = kept(line, token);
    if is_place(name.as_bytes()) {
        None
    } else {
        Some(name)
    }
}
