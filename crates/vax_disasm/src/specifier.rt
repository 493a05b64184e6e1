// Operands, as assembly language writes them (VAX MACRO and Instruction Set Reference Manual, "Addressing modes").

use vax_isa::Narrow;

/// A place in memory. Registers are numbered from 0 to 15.
#[derive(Clone, Copy)]
pub(crate) enum Place {
    /// `(Rn)`.
    Deferred(u8),
    /// `-(Rn)`.
    Decrement(u8),
    /// `(Rn)+`.
    Increment(u8),
    /// `@(Rn)+`.
    IncrementDeferred(u8),
    /// `@#e`.
    Absolute(u32),
    /// `e(Rn)`. The displacement of this size is extended to a signed number of 32 bits.
    Displaced {
        size: Narrow,
        displacement: u32,
        register: u8,
    },
    /// `@e(Rn)`.
    DisplacedDeferred {
        size: Narrow,
        displacement: u32,
        register: u8,
    },
}

/// An operand with its value.
#[derive(Clone, Copy)]
pub(crate) enum Specifier {
    /// `S^#e`.
    Literal(u8),
    /// `Rn`.
    Register(u8),
    /// `I^#e`.
    Immediate(u64),
    InMemory(Place),
    /// A place, and the register of its index: `e[Rx]`.
    Indexed(Place, u8),
    /// How far to branch, as a signed number of 32 bits.
    BranchBy(u32),
}
