// What holds where an operand doesn't say it.

ghost use Rattle.std.specs.Prelude.{◌≡◌, ◌<◌, ◌^◌, All, length};
ghost use Rattle.vax_lex.specs.Tokens.{IsTokenOf};
ghost use Rattle.vax_asm_labels.specs.Defaults.{default_at, default_stated, is_displacement, size_at, size_of};
ghost use Rattle.vax_asm_first.specs.View.{States, KeepsMark};
ghost use Rattle.vax_asm_statement.specs.Items.{name_alone};

use std::alloc::Global;
use vax_asm_first::{FaultKind, Narrow, Refused, Standing};
use vax_asm_statement::{name_alone, parts, text_of};
use vax_lex::{Token, spells};

/// The size with this name.
fn size_of(name: &[u8]) -> Option<Narrow>
    ensures { result ≡ size_of name.now }
{
    if spells(b"BYTE", name) {
        Some(Narrow::B)
    } else if spells(b"WORD", name) {
        Some(Narrow::W)
    } else if spells(b"LONG", name) {
        Some(Narrow::L)
    } else {
        None
    }
}

/// The size whose name an operand is.
fn size_at(line: &[u8], tokens: &[Token]) -> Option<Narrow>
    requires { All (IsTokenOf line.now) tokens.now }
    ensures { result ≡ size_at line.now (name_alone line.now tokens.now) }
{
    let token = name_alone(line, tokens)?;
    size_of(text_of(line, token))
}

/// Whether an operand is `DISPLACEMENT`.
fn is_displacement(line: &[u8], tokens: &[Token]) -> bool
    requires { All (IsTokenOf line.now) tokens.now }
    ensures { result ≡ is_displacement line.now (name_alone line.now tokens.now) }
{
    match name_alone(line, tokens) {
        Some(token) => spells(b"DISPLACEMENT", text_of(line, token)),
        None => false,
    }
}

/// The size that the two operands say.
fn default_at(line: &[u8], name: &[Token], size: &[Token]) -> Option<Narrow>
    requires name { All (IsTokenOf line.now) name.now }
    requires size { All (IsTokenOf line.now) size.now }
    ensures { result ≡ default_at line.now name.now size.now }
{
    if is_displacement(line, name) {
        size_at(line, size)
    } else {
        None
    }
}

/// `.DEFAULT DISPLACEMENT,size`: the size of a displacement to what isn't a known place of the section, where the operand says none.
///
/// [`Refused::Fault`]: `Count` where there aren't two operands, `Form` where the first is another or the second is none of `BYTE`, `WORD`
/// and `LONG`. [`Refused::NoMemory`] where memory is refused. Nothing of use is left then.
#[tactic(auto, unfolding(vax_asm_first::specs::View::marked_standing, crate::specs::Defaults::default_stated))]
pub fn default(
    standing: &mut Standing,
    alloc: Global,
    line: &[u8],
    operands: &[Token],
) -> Result<(), Refused>
    requires tokens { All (IsTokenOf line.now) operands.now }
    requires few { length operands.now < 2 ^ 32 }
    ensures stands { States (default_stated line.now operands.now)
        result standing.old standing.new }
    ensures mark { KeepsMark standing.old standing.new }
{
    let Ok(found) = parts(alloc, operands) else {
        return Err(Refused::NoMemory);
    };
    let [name, size] = found.as_slice() else {
        return Err(Refused::Fault(FaultKind::Count));
    };
    let Some(size) = default_at(line, name, size) else {
        return Err(Refused::Fault(FaultKind::Form));
    };
    standing.unmark();
    standing.displacement = size;
    Ok(())
}
