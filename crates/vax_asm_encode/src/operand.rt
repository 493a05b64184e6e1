// Operands without their values.

ghost use Rattle.std.specs.Prelude.{◌≡◌};
ghost use Rattle.vax_flat.specs.Operand.{is_result};
ghost use Rattle.vax_flat.specs.Grammar.{is_read, takes_register};
ghost use Rattle.vax_asm_encode.specs.Operands.{item_bytes, item_field, data_size, branch_size, base_field, field_of, base_stands, takes_index, may_stand, takes_branch};

use vax_isa::{Letter, Narrow, OperandKind};
use vax_word::Size;

/// A place in memory, by registers and without the value that a displacement or an address has. Registers are numbered
/// from 0 to 15.
#[derive(Clone, Copy, PartialEq, Eq)]
pub enum Base {
    /// `(Rn)`.
    Deferred(u8),
    /// `-(Rn)`.
    Decrement(u8),
    /// `(Rn)+`.
    Increment(u8),
    /// `@(Rn)+`.
    IncrementDeferred(u8),
    /// `@#e`.
    Absolute,
    /// `e(Rn)`, with a displacement of this size.
    Displaced { size: Narrow, register: u8 },
    /// `@e(Rn)`.
    DisplacedDeferred { size: Narrow, register: u8 },
    /// `e`, as a displacement of this size from PC.
    Relative(Narrow),
    /// `@e`.
    RelativeDeferred(Narrow),
}

/// An operand without its value.
#[derive(Clone, Copy, PartialEq, Eq)]
pub enum Operand {
    /// `S^#e`.
    Literal,
    /// `Rn`.
    Register(u8),
    /// `I^#e`.
    Immediate,
    /// A place in memory.
    Memory(Base),
    /// A place in memory, and the register of its index: `e[Rx]`.
    Indexed(Base, u8),
    /// `e`, where an instruction branches.
    Branch,
}

/// What holds the value of an operand or of an item of data.
#[derive(Clone, Copy, PartialEq, Eq)]
pub enum Field {
    /// Six bits, a number from 0 to 63.
    Literal,
    /// A number of this size, with a sign or without.
    Number(Size),
    /// A signed number of this size.
    Signed(Size),
    /// A displacement of this size from a register: a signed number.
    Displacement(Narrow),
    /// A displacement of this size from the address just past the field.
    Relative(Narrow),
}

/// What an item of data is.
#[derive(Clone, Copy, PartialEq, Eq)]
pub enum DataKind {
    /// A number of this size, with a sign or without.
    Number(Size),
    /// A signed number of this size.
    Signed(Size),
    /// A number of 16 bytes, of which the low eight are its value and the others its sign.
    Octaword,
}

impl DataKind {
    /// How many bytes the item has.
    pub fn bytes(self) -> u32
        ensures { result ≡ item_bytes self }
    {
        match self {
            DataKind::Number(size) | DataKind::Signed(size) => size.bytes(),
            DataKind::Octaword => 16,
        }
    }

    /// What holds its value.
    pub fn field(self) -> Field
        ensures { result ≡ item_field self }
    {
        match self {
            DataKind::Number(size) => Field::Number(size),
            DataKind::Signed(size) => Field::Signed(size),
            DataKind::Octaword => Field::Number(Size::Q),
        }
    }
}

/// The size of data of 1, 2, 4 or 8 bytes.
fn data_size(width: u8) -> Size
    ensures { result ≡ data_size width }
{
    match width {
        1 => Size::B,
        2 => Size::W,
        4 => Size::L,
        _ => Size::Q,
    }
}

/// The size of a displacement of 1, 2 or 4 bytes.
fn branch_size(width: u8) -> Narrow
    ensures { result ≡ branch_size width }
{
    match width {
        1 => Narrow::B,
        2 => Narrow::W,
        _ => Narrow::L,
    }
}

fn base_field(base: Base) -> Option<Field>
    ensures { result ≡ base_field base }
{
    match base {
        Base::Deferred(_) | Base::Decrement(_) | Base::Increment(_) | Base::IncrementDeferred(_) =>
            None,
        Base::Absolute => Some(Field::Number(Size::L)),
        Base::Displaced { size, .. } | Base::DisplacedDeferred { size, .. } => Some(
            Field::Displacement(size),
        ),
        Base::Relative(size) | Base::RelativeDeferred(size) => Some(Field::Relative(size)),
    }
}

/// What holds the value of an operand of a kind. None where the operand has no value.
pub fn field_of(kind: OperandKind, operand: Operand) -> Option<Field>
    ensures { result ≡ field_of kind operand }
{
    match operand {
        Operand::Literal => Some(Field::Literal),
        Operand::Register(_) => None,
        Operand::Immediate => Some(Field::Number(data_size(kind.width))),
        Operand::Memory(base) | Operand::Indexed(base, _) => base_field(base),
        Operand::Branch => Some(Field::Relative(branch_size(kind.width))),
    }
}

fn takes_branch(letter: Letter) -> bool
    ensures { result ≡ takes_branch letter }
{
    match letter {
        Letter::Branch => true,
        _ => false,
    }
}

fn is_read(letter: Letter) -> bool
    ensures { result ≡ is_read letter }
{
    match letter {
        Letter::Read => true,
        _ => false,
    }
}

fn takes_register(letter: Letter) -> bool
    ensures { result ≡ takes_register letter }
{
    match letter {
        Letter::Address | Letter::Branch => false,
        _ => true,
    }
}

fn is_result(letter: Letter) -> bool
    ensures { result ≡ is_result letter }
{
    match letter {
        Letter::Modify | Letter::Write | Letter::Branch => true,
        _ => false,
    }
}

/// Whether a place has registers that its form may have: PC is none of them but in a displacement.
fn base_stands(base: Base) -> bool
    ensures { result ≡ base_stands base }
{
    match base {
        Base::Deferred(n) | Base::Decrement(n) | Base::Increment(n) | Base::IncrementDeferred(n) =>
            n < 15,
        Base::Displaced { register, .. } | Base::DisplacedDeferred { register, .. } => register
            < 16,
        Base::Absolute | Base::Relative(_) | Base::RelativeDeferred(_) => true,
    }
}

/// Whether a place may have this register as its index: it doesn't change the register.
fn takes_index(base: Base, index: u8) -> bool
    ensures { result ≡ takes_index base index }
{
    match base {
        Base::Decrement(n) | Base::Increment(n) | Base::IncrementDeferred(n) => n != index,
        _ => true,
    }
}

/// Whether an operand may stand where an instruction has one of this kind. It may not where it is written as another
/// operand is, as `(PC)+`, or always has a reserved addressing mode.
pub fn may_stand(kind: OperandKind, operand: Operand) -> bool
    ensures { result ≡ may_stand kind operand }
{
    match operand {
        Operand::Branch => takes_branch(kind.letter),
        Operand::Literal => is_read(kind.letter),
        Operand::Register(n) => {
            n < 15 && !(kind.width == 8 && n == 14) && takes_register(kind.letter)
        }
        Operand::Immediate => !is_result(kind.letter),
        Operand::Memory(base) => base_stands(base) && !takes_branch(kind.letter),
        Operand::Indexed(base, index) => {
            index < 15
                && base_stands(base)
                && takes_index(base, index)
                && !takes_branch(kind.letter)
        }
    }
}
