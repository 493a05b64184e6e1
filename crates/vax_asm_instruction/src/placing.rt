// Operands in memory, by how they are written.

ghost use Rattle.std.specs.Prelude.{◌≡◌, ◌≤◌, ◌<◌, ◌+◌, ◌^◌, true, All, IfSome};
ghost use Rattle.vax_asm_encode.specs.Bytes.{base_width};
ghost use Rattle.vax_asm_encode.specs.Operands.{may_stand, takes_branch, width_of};
ghost use Rattle.vax_asm_instruction.specs.Placing.{by_default, default_size, field_at, has_expression, mode_by_default, mode_under, operand_as, operand_at, operand_length, specified_at, specifier_length};
ghost use Rattle.vax_isa.specs.Rows.{IsKind};
ghost use Rattle.vax_lex.specs.Tokens.{IsTokenOf};
ghost use Rattle.vax_asm_statement.specs.Modes.{seen};

use vax_asm_encode::{Base, Operand, may_stand};
use vax_asm_statement::{Mode, Written, memory_operand, operand};
use vax_isa::{Letter, Narrow, OperandKind};
use vax_lex::{ExprError, Token, Value};

/// How an operand is addressed, and what is known of its expression where it stands; 0 where it has none.
#[derive(Clone, Copy, PartialEq, Eq)]
pub(crate) struct Addressed {
    pub(crate) mode: Mode,
    /// The register of its index, `[Rx]`.
    pub(crate) index: Option<u8>,
    /// [`ExprError::Unknown`] says that the value comes later.
    pub(crate) value: Result<Value, ExprError>,
}

fn takes_branch(kind: OperandKind) -> bool
    ensures { result ≡ takes_branch kind.letter }
{
    match kind.letter {
        Letter::Branch => true,
        _ => false,
    }
}

/// The mode of an operand that is written so, where one that is an expression alone may be absolute.
fn mode_under(absolute: bool, mode: Mode) -> Mode
    ensures { result ≡ mode_under absolute mode }
{
    match mode {
        Mode::Relative {
            size: None,
            deferred: false,
        } if absolute => Mode::Absolute,
        other => other,
    }
}

/// How an operand of a kind is written. An instruction branches to an expression, whatever that looks like.
pub(crate) fn operand_as<'a>(
    absolute: bool,
    kind: OperandKind,
    line: &[u8],
    tokens: &'a [Token],
) -> Written<'a>
    requires { All (IsTokenOf line.now) tokens.now }
    ensures written { seen result ≡ operand_as absolute kind line.now tokens.now }
    ensures tokens { All (IsTokenOf line.now) result.expression.now }
{
    if !takes_branch(kind) {
        let written = operand(line, tokens);
        return Written {
            mode: mode_under(absolute, written.mode),
            expression: written.expression,
            index: written.index,
        };
    }
    Written {
        mode: Mode::Relative {
            size: None,
            deferred: false,
        },
        expression: tokens,
        index: None,
    }
}

/// The size of a displacement that an operand doesn't say; none where it is the shortest to a known place of the section.
fn default_size(size: Narrow, section: u32, value: Result<Value, ExprError>) -> Option<Narrow>
    ensures { result ≡ default_size size section value }
{
    match value {
        Ok(Value::Section { section: of, .. }) if of == section => None,
        _ => Some(size),
    }
}

/// The mode of an operand with this value, with the size of its displacement where it doesn't say it.
fn mode_by_default(size: Narrow, section: u32, value: Result<Value, ExprError>, mode: Mode) -> Mode
    ensures { result ≡ mode_by_default size section value mode }
{
    match mode {
        Mode::Relative {
            size: None,
            deferred,
        } => Mode::Relative {
            size: default_size(size, section, value),
            deferred,
        },
        other => other,
    }
}

/// An operand with the size of its displacement where it doesn't say it.
pub(crate) fn by_default(size: Narrow, section: u32, addressed: Addressed) -> Addressed
    ensures { result ≡ by_default size section addressed }
{
    Addressed {
        mode: mode_by_default(size, section, addressed.value, addressed.mode),
        index: addressed.index,
        value: addressed.value,
    }
}

pub(crate) fn has_expression(mode: Mode) -> bool
    ensures { result ≡ has_expression mode }
{
    match mode {
        Mode::Register(_)
        | Mode::Deferred(_)
        | Mode::Decrement(_)
        | Mode::Increment(_)
        | Mode::IncrementDeferred(_)
        | Mode::PointerDeferred(_) => false,
        Mode::Constant
        | Mode::Literal
        | Mode::Immediate
        | Mode::Absolute
        | Mode::Displaced { .. }
        | Mode::Relative { .. } => true,
    }
}

/// How many bytes stand before the field: the specifier, and the index before it.
fn specifier_length(index: Option<u8>) -> u32
    ensures value { result ≡ specifier_length index }
    ensures few { result ≤ 2 }
{
    match index {
        Some(_) => 2,
        None => 1,
    }
}

/// The operand, where the instruction doesn't branch to it.
fn specified_at(kind: OperandKind, addressed: Addressed, section: u32, at: u32) -> Option<Operand>
    requires { at + 6 < 2 ^ 32 }
    ensures operand { result ≡ specified_at kind addressed section at }
    ensures stands { IfSome result (λ o. may_stand kind o ≡ true) }
{
    let field = at + specifier_length(addressed.index);
    let operand = memory_operand(
        addressed.mode,
        addressed.index,
        section,
        field,
        addressed.value,
    )?;
    if may_stand(kind, operand) {
        Some(operand)
    } else {
        None
    }
}

/// The operand that begins at a place of a section; none where its form may not stand there.
pub(crate) fn operand_at(
    kind: OperandKind,
    addressed: Addressed,
    section: u32,
    at: u32,
) -> Option<Operand>
    requires { at + 6 < 2 ^ 32 }
    ensures operand { result ≡ operand_at kind addressed section at }
    ensures stands { IfSome result (λ o. may_stand kind o ≡ true) }
{
    if takes_branch(kind) {
        Some(Operand::Branch)
    } else {
        specified_at(kind, addressed, section, at)
    }
}

/// Where the field of an operand begins that begins at a place.
pub(crate) fn field_at(operand: Operand, at: u32) -> u32
    requires { at + 6 < 2 ^ 32 }
    ensures value { result ≡ field_at operand at }
    ensures near { result ≤ at + 2 }
{
    match operand {
        Operand::Branch => at,
        Operand::Indexed(_, _) => at + 2,
        Operand::Literal | Operand::Register(_) | Operand::Immediate | Operand::Memory(_) => at + 1,
    }
}

fn width_of(size: Narrow) -> u32
    ensures value { result ≡ width_of size }
    ensures few { result ≤ 4 }
{
    match size {
        Narrow::B => 1,
        Narrow::W => 2,
        Narrow::L => 4,
    }
}

/// The bytes of the field of a place.
fn base_width(base: Base) -> u32
    ensures value { result ≡ base_width base }
    ensures few { result ≤ 4 }
{
    match base {
        Base::Deferred(_) | Base::Decrement(_) | Base::Increment(_) | Base::IncrementDeferred(_) =>
            0,
        Base::Absolute => 4,
        Base::Displaced { size, .. }
        | Base::DisplacedDeferred { size, .. }
        | Base::Relative(size)
        | Base::RelativeDeferred(size) => width_of(size),
    }
}

/// How many bytes an operand of a kind has.
pub(crate) fn operand_length(kind: OperandKind, operand: Operand) -> u32
    requires { IsKind kind }
    ensures value { result ≡ operand_length kind operand }
    ensures few { result ≤ 9 }
{
    match operand {
        Operand::Literal | Operand::Register(_) => 1,
        Operand::Immediate => 1 + u32::from(kind.width),
        Operand::Memory(base) => 1 + base_width(base),
        Operand::Indexed(base, _) => 2 + base_width(base),
        Operand::Branch => u32::from(kind.width),
    }
}
