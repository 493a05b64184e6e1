//! The flat machine: a VAX with one whole memory, no frames and no absent pages. Its definitions say what each instruction does.
//!
//! `specs/` has them in this order: `State` (what an instruction may change beside memory), `Accesses` (an instruction as a tree of its
//! accesses to memory), `Memory` (areas with their bytes), `Outcome` (what a tree does to that memory), `Operand` and `Rows` (operands,
//! values and results), `Integer`, `Control`, `Field` and `Instruction` (the instructions as such trees), `Grammar` and `Evaluation` (what bytes are
//! as operands, and what those come to), `Step` (a whole step and a whole run), and `Parts` (a step that is made in parts).
//! `String` and its neighbours have the string instructions, as wholes and in parts.
#![tactic(auto)]

mod laws;
mod specifier;
mod string_laws;

pub use crate::laws::{
    arrival_agrees, deliveries_raise_nothing, frames_are_returned, grammar_agrees, grammar_reads,
    joined_ranges, operands_are_listed, parts_agree, results_agree, steps_are_bounded,
    stops_for_missing_pages,
};
pub use crate::specifier::{decode, extend, is_no_base, is_reserved, reaches_pc};
pub use crate::string_laws::{
    comparisons_agree, escapes_agree, matches_agree, moves_agree, searches_agree,
};
use vax_space::Violation;

/// What interrupts an instruction (VAX Architecture Reference Manual, exceptions and interrupts).
#[derive(Clone, Copy, PartialEq, Eq)]
pub enum Exception {
    /// A reserved or privileged instruction, vector 10 hexadecimal.
    Privileged,
    /// XFC, the instruction reserved to customers, vector 14.
    Customer,
    /// A reserved operand, vector 18.
    Operand,
    /// A reserved addressing mode, vector 1C.
    Mode,
    /// An access control violation, vector 20.
    Access(Violation),
    /// BPT, vector 2C.
    Breakpoint,
    /// An arithmetic trap, vector 34.
    Arithmetic(Trap),
}

/// An arithmetic trap, which follows a completed instruction (VAX Architecture Reference Manual, arithmetic exceptions).
#[derive(Clone, Copy, PartialEq, Eq)]
pub enum Trap {
    /// The result doesn't fit, and integer overflow traps are enabled.
    IntegerOverflow,
    /// The divisor is 0.
    IntegerDivide,
    /// A subscript is outside its range.
    SubscriptRange,
}

impl Trap {
    ghost use Rattle.std.specs.Prelude.{◌≡◌};
    ghost use Rattle.vax_flat.specs.State.{trap_number};

    /// The type that is pushed when the trap is delivered: 1, 2 or 7.
    #[inline]
    pub fn number(self) -> u32
        ensures { result ≡ trap_number self }
    {
        match self {
            Trap::IntegerOverflow => 1,
            Trap::IntegerDivide => 2,
            Trap::SubscriptRange => 7,
        }
    }
}

/// How a run ends.
#[derive(Clone, Copy, PartialEq, Eq)]
pub enum Ending {
    /// HALT in kernel mode.
    Halt,
    /// The vector at this offset in the system control block has bits 1:0 that end the run.
    Vector(u16),
    /// The frame of an exception can't be pushed.
    Stack,
    /// The vector can't be read.
    Scb,
    /// A change of mode on the interrupt stack.
    Change,
}

/// The form of an operand specifier, as its first byte has it: the mode in bits 7:4, a register in bits 3:0
/// (VAX Architecture Reference Manual, operand specifier addressing mode formats).
#[derive(Clone, Copy, PartialEq, Eq)]
pub enum Form {
    /// `S^#`: the six bits of a literal.
    Literal(u8),
    /// `[Rx]`: the prefix of an index, which a base specifier follows.
    Index(u8),
    /// `Rn`.
    Register(u8),
    /// `(Rn)`.
    Deferred(u8),
    /// `-(Rn)`.
    Decrement(u8),
    /// `(Rn)+`, and `I^#` with PC.
    Increment(u8),
    /// `@(Rn)+`, and `@#` with PC.
    IncrementDeferred(u8),
    /// `e(Rn)` with a displacement of so many bytes.
    Displacement { width: u8, register: u8 },
    /// `@e(Rn)`.
    DisplacementDeferred { width: u8, register: u8 },
}

/// Where an operand is, or what it is.
#[derive(Clone, Copy, PartialEq, Eq)]
pub enum Operand {
    /// The value of an operand that is read.
    Value(u64),
    /// A register; of a quadword the lower one.
    Register(u8),
    /// An address in memory.
    Memory(u32),
    /// The register in which a field of bits begins.
    FieldRegister(u8),
    /// Where a branch goes.
    Target(u32),
}

/// What holds a field of bits (VAX Architecture Reference Manual, variable-length bit field data type).
#[derive(Clone, Copy, PartialEq, Eq)]
pub struct Holder {
    /// The bytes of memory in which the field lies, or the register, or that and the next.
    pub place: Operand,
    /// How many bytes: 1 to 5 in memory, 4 or 8 in registers.
    pub width: u8,
    /// Which of its bits is the field's first.
    pub first: u8,
}

/// What is left of a string, and its address.
#[derive(Clone, Copy, PartialEq, Eq)]
pub struct Rest {
    pub len: u16,
    pub addr: u32,
}

/// How an instruction went.
#[derive(Clone, Copy, PartialEq, Eq)]
pub enum Flow {
    /// It was completed.
    Done,
    /// It was completed, and the interval clock doesn't count it.
    Clocked,
    /// It was completed, and an arithmetic trap follows.
    Trap(Trap),
    /// A part of the string instruction with this opcode was completed, so many of its units, and more remains.
    More { opcode: u8, units: u32 },
    /// It ends the run.
    Ended(Ending),
}

/// How the delivery of an exception, of a change of mode or of an interrupt went.
#[derive(Clone, Copy, PartialEq, Eq)]
pub enum Delivery {
    /// Control is at the handler.
    Entered,
    /// It ends the run.
    Ended(Ending),
}

/// Why a port can't use a range.
#[derive(Clone, Copy, PartialEq, Eq)]
pub enum Stop {
    /// The range is allowed, and this page is the lowest of it that is absent.
    NotResident(u32),
    /// The range isn't allowed.
    Violated(Violation),
}

/// What cuts an instruction short.
#[derive(Clone, Copy, PartialEq, Eq)]
pub enum Cut {
    /// This page is needed and absent.
    Absent(u32),
    /// The instruction raises this exception.
    Event(Exception),
}

impl From<Stop> for Cut {
    ghost use Rattle.std.specs.Prelude.{◌≡◌};
    ghost use Rattle.vax_flat.specs.Port.{cut_of};

    ghost from_gives = { λ stop cut. cut ≡ cut_of stop };

    #[inline]
    fn from(stop: Stop) -> Cut {
        match stop {
            Stop::NotResident(page) => Cut::Absent(page),
            Stop::Violated(violation) => Cut::Event(Exception::Access(violation)),
        }
    }
}
