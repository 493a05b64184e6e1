// Sections.

ghost use Rattle.std.specs.Prelude.{◌≡◌, ◌<◌, ◌^◌, All, IfSome, Some, length, map, option_map};
ghost use Rattle.vax_lex.specs.KeptNames.{kept_name};
ghost use Rattle.vax_lex.specs.Tokens.{IsTokenOf};
ghost use Rattle.vax_asm_labels.specs.Naming.{attribute_at, attribute_by, attributes_from, further_attribute, further_word, nothing_said, power_alone, says_nothing, section_chosen, section_stated, unnamed_chosen, with_absolute, with_align, with_attribute, with_overlaid, with_write};
ghost use Rattle.vax_asm_labels.specs.Within.{Within};
ghost use Rattle.vax_asm_first.specs.View.{States, KeepsMark};
ghost use Rattle.vax_dialect.specs.Differences.{has_further_directives, has_unnamed_psect};
ghost use Rattle.vax_asm_statement.specs.Directives.{attribute_of};
ghost use Rattle.vax_asm_statement.specs.Items.{name_alone};
ghost use Rattle.vax_asm_statement.specs.Parts.{parts};

use crate::labels::next_block;
use crate::operands::name_of;
use std::alloc::Global;
use std::str;
use vax_asm_first::{FaultKind, Refused, Standing};
use vax_asm_sections::{Attributes, Refusal};
use vax_asm_statement::{Attribute, attribute_named, name_alone, parts, text_of};
use vax_dialect::Dialect;
use vax_lex::{CanonicalName, Token, TokenKind, spells};

/// No attributes.
pub(crate) const NOTHING_SAID: Attributes = Attributes {
    align: None,
    write: None,
    absolute: None,
    overlaid: None,
};

/// The attribute with this name.
#[tactic(auto, using(crate::proofs::Attributes::unnamed))]
fn attribute_of(name: &[u8]) -> Option<Attribute>
    ensures { result ≡ attribute_of name.now }
{
    match str::from_utf8(name) {
        Ok(name) => attribute_named(name),
        Err(_) => None,
    }
}

/// The attribute whose name an operand is.
fn attribute_named_by(line: &[u8], tokens: &[Token]) -> Option<Attribute>
    requires { All (IsTokenOf line.now) tokens.now }
    ensures { result ≡ attribute_by line.now (name_alone line.now tokens.now) }
{
    let token = name_alone(line, tokens)?;
    attribute_of(text_of(line, token))
}

/// The power of two to align to that an operand is.
fn power_alone(tokens: &[Token]) -> Option<Attribute>
    ensures { result ≡ power_alone tokens.now }
{
    match tokens {
        [token] => match token.kind {
            TokenKind::Number(power) if power <= 9 => Some(Attribute::Align(power as u8)),
            _ => None,
        },
        _ => None,
    }
}

/// Whether a name is `NORD`, `VEC`, `MIX` or `NOMIX`, which say nothing here.
fn says_nothing(name: &[u8]) -> bool
    ensures { result ≡ says_nothing name.now }
{
    spells(b"NORD", name) || spells(b"VEC", name) || spells(b"MIX", name) || spells(b"NOMIX", name)
}

/// `ABS`, `OVR`, `NORD`, `VEC`, `MIX` or `NOMIX`.
fn further_word(line: &[u8], tokens: &[Token]) -> Option<Attribute>
    requires { All (IsTokenOf line.now) tokens.now }
    ensures { result ≡ further_word line.now (name_alone line.now tokens.now) }
{
    let token = name_alone(line, tokens)?;
    let name = text_of(line, token);
    if spells(b"ABS", name) {
        Some(Attribute::Absolute(true))
    } else if spells(b"OVR", name) {
        Some(Attribute::Overlaid(true))
    } else if says_nothing(name) {
        Some(Attribute::Ignored)
    } else {
        None
    }
}

/// The attribute that an operand is where the dialect has further directives.
fn further_attribute(dialect: Dialect, line: &[u8], tokens: &[Token]) -> Option<Attribute>
    requires { All (IsTokenOf line.now) tokens.now }
    ensures { result
        ≡ further_attribute (has_further_directives dialect) line.now tokens.now }
{
    if !dialect.has_further_directives() {
        return None;
    }
    match power_alone(tokens) {
        Some(attribute) => Some(attribute),
        None => further_word(line, tokens),
    }
}

/// The attribute that an operand is.
fn attribute_at(dialect: Dialect, line: &[u8], tokens: &[Token]) -> Option<Attribute>
    requires { All (IsTokenOf line.now) tokens.now }
    ensures { result ≡ attribute_at dialect line.now tokens.now }
{
    match attribute_named_by(line, tokens) {
        Some(attribute) => Some(attribute),
        None => further_attribute(dialect, line, tokens),
    }
}

fn with_align(align: u8, said: Attributes) -> Option<Attributes>
    ensures { result ≡ with_align align said said.align }
{
    match said.align {
        Some(before) if before != align => None,
        Some(_) => Some(said),
        None => Some(Attributes {
            align: Some(align),
            write: said.write,
            absolute: said.absolute,
            overlaid: said.overlaid,
        }),
    }
}

fn with_write(write: bool, said: Attributes) -> Option<Attributes>
    ensures { result ≡ with_write write said said.write }
{
    match said.write {
        Some(before) if before != write => None,
        Some(_) => Some(said),
        None => Some(Attributes {
            align: said.align,
            write: Some(write),
            absolute: said.absolute,
            overlaid: said.overlaid,
        }),
    }
}

fn with_absolute(absolute: bool, said: Attributes) -> Option<Attributes>
    ensures { result ≡ with_absolute absolute said said.absolute }
{
    match said.absolute {
        Some(before) if before != absolute => None,
        Some(_) => Some(said),
        None => Some(Attributes {
            align: said.align,
            write: said.write,
            absolute: Some(absolute),
            overlaid: said.overlaid,
        }),
    }
}

fn with_overlaid(overlaid: bool, said: Attributes) -> Option<Attributes>
    ensures { result ≡ with_overlaid overlaid said said.overlaid }
{
    match said.overlaid {
        Some(before) if before != overlaid => None,
        Some(_) => Some(said),
        None => Some(Attributes {
            align: said.align,
            write: said.write,
            absolute: said.absolute,
            overlaid: Some(overlaid),
        }),
    }
}

/// One more attribute; none where it is no attribute, or another one was said before.
fn with_attribute(attribute: Option<Attribute>, said: Option<Attributes>) -> Option<Attributes>
    ensures { result ≡ with_attribute attribute said }
{
    let attribute = attribute?;
    let said = said?;
    match attribute {
        Attribute::Align(align) => with_align(align, said),
        Attribute::Write(write) => with_write(write, said),
        Attribute::Absolute(absolute) => with_absolute(absolute, said),
        Attribute::Overlaid(overlaid) => with_overlaid(overlaid, said),
        Attribute::Ignored => Some(said),
    }
}

/// The attributes that operands are.
#[tactic(auto, using(crate::proofs::Attributes::attribute_step))]
fn attributes_of(dialect: Dialect, line: &[u8], operands: &[&[Token]]) -> Option<Attributes>
    requires { All (λ o. All (IsTokenOf line.now) o.now) operands.now }
    ensures { result
        ≡ attributes_from dialect line.now (map (λ o. o.now) operands.now) (Some nothing_said) }
{
    let mut said = Some(NOTHING_SAID);
    for operand in operands {
        said = with_attribute(attribute_at(dialect, line, operand), said);
    }
    said
}

/// Chooses the section with a name.
#[tactic(auto, using(crate::proofs::Selecting::select_stands, crate::proofs::Selecting::select_fails), unfolding(vax_asm_first::specs::View::marked_standing))]
pub(crate) fn choose_named(
    standing: &mut Standing,
    alloc: Global,
    name: &[u8],
    attributes: Attributes,
) -> Result<(), Refused>
    requires { Within attributes }
    ensures stands { States (section_chosen (Some name.now) (Some attributes))
        result standing.old standing.new }
    ensures mark { KeepsMark standing.old standing.new }
{
    match standing.layout.select(alloc, name, attributes) {
        Ok(()) => {}
        Err(Refusal::NoMemory) => return Err(Refused::NoMemory),
        Err(Refusal::Absolute | Refusal::Conflict | Refusal::TooLong) => {
            return Err(Refused::Fault(FaultKind::Form));
        }
    }
    let Ok(()) = next_block(&mut standing.scope, alloc, standing.keeps_block) else {
        return Err(Refused::NoMemory);
    };
    Ok(())
}

/// Chooses a section.
fn choose(
    standing: &mut Standing,
    alloc: Global,
    name: Option<CanonicalName>,
    attributes: Option<Attributes>,
) -> Result<(), Refused>
    requires { IfSome attributes Within }
    ensures stands { States (section_chosen (option_map kept_name name) attributes)
        result standing.old standing.new }
    ensures mark { KeepsMark standing.old standing.new }
{
    let Some(name) = name else {
        return Err(Refused::Fault(FaultKind::Form));
    };
    let Some(attributes) = attributes else {
        return Err(Refused::Fault(FaultKind::Form));
    };
    choose_named(standing, alloc, name.as_bytes(), attributes)
}

/// `.PSECT` alone: the section without a name, where the dialect goes on in it.
fn choose_unnamed(standing: &mut Standing, alloc: Global) -> Result<(), Refused>
    ensures stands { States (λ s. unnamed_chosen (has_unnamed_psect s.dialect) s)
        result standing.old standing.new }
    ensures mark { KeepsMark standing.old standing.new }
{
    if !standing.dialect.has_unnamed_psect() {
        return Err(Refused::Fault(FaultKind::Count));
    }
    choose_named(standing, alloc, b"", NOTHING_SAID)
}

/// `.PSECT name,attributes`: the section with this name is chosen, which begins if there is none. A block of local labels
/// begins.
///
/// [`Refused::Fault`]: `Count` where there are no operands, unless the dialect goes on in the section without a name, `Form` where the first is no name, another is no attribute, two
/// say otherwise, or the section's first `.PSECT` said otherwise. [`Refused::NoMemory`] where memory is refused. Nothing of
/// use is left then.
#[tactic(auto, using(crate::proofs::Attributes::said_within), unfolding(crate::specs::Naming::section_stated))]
pub fn section(
    standing: &mut Standing,
    alloc: Global,
    line: &[u8],
    operands: &[Token],
) -> Result<(), Refused>
    requires tokens { All (IsTokenOf line.now) operands.now }
    requires few { length operands.now < 2 ^ 32 }
    ensures stands { States (section_stated line.now operands.now)
        result standing.old standing.new }
    ensures mark { KeepsMark standing.old standing.new }
{
    let Ok(found) = parts(alloc, operands) else {
        return Err(Refused::NoMemory);
    };
    let [name, attributes @ ..] = found.as_slice() else {
        return choose_unnamed(standing, alloc);
    };
    let attributes = attributes_of(standing.dialect, line, attributes);
    choose(standing, alloc, name_of(line, name), attributes)
}
