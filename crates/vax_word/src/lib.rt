//! The words of the processor: operand sizes, condition codes, the processor status longword, the
//! registers, and exact integer arithmetic on 8, 16, 32 and 64 bits.
//!
//! No call takes memory, refuses an operand, loops or reads a table.
#![tactic(auto)]

ghost use Rattle.std.specs.Prelude.{◌≡◌, ◌/◌, ◌^◌, ◌<◌, ◌≤◌};

mod arithmetic;

pub use arithmetic::{
    add, compare, convert, div, ediv, emul, is_negative, mul, shift, signed_less, sub,
};

/// The size of an operand: byte, word, longword or quadword, which have 8, 16, 32 and 64 bits
/// (VAX Architecture Reference Manual, data types).
#[derive(Clone, Copy, PartialEq, Eq)]
pub enum Size {
    B,
    W,
    L,
    Q,
}

impl Size {
    ghost use Rattle.vax_word.specs.Arithmetic.{bytes_of};

    /// The bytes of an operand: 1, 2, 4 or 8.
    #[inline]
    pub fn bytes(self) -> u32
        ensures exact { result ≡ bytes_of self }
        ensures some { 1 ≤ result }
        ensures few { result ≤ 8 }
    {
        match self {
            Size::B => 1,
            Size::W => 2,
            Size::L => 4,
            Size::Q => 8,
        }
    }
}

/// The condition codes (VAX Architecture Reference Manual, processor status word): negative, zero,
/// overflow and carry.
#[derive(Clone, Copy, PartialEq, Eq)]
pub struct Codes {
    pub n: bool,
    pub z: bool,
    pub v: bool,
    pub c: bool,
}

impl Codes {
    ghost use Rattle.vax_word.specs.Status.{codes_number};

    // N, Z, V and C in bits 3 to 0.
    #[inline]
    fn bits(self) -> u32
        ensures exact { result ≡ codes_number self }
        ensures within { result < 16 }
    {
        let n = (self.n as u32) << 3;
        let z = (self.z as u32) << 2;
        let v = (self.v as u32) << 1;
        n | z | v | self.c as u32
    }
}

/// The processor status longword (VAX Architecture Reference Manual, processor status longword): C
/// in bit 0, V 1, Z 2, N 3, T 4, IV 5, FU 6, DV 7, the interrupt priority level in 20:16, the
/// previous access mode in 23:22, the current access mode in 25:24, IS 26, FPD 27, TP 30, CM 31.
#[derive(Clone, Copy, PartialEq, Eq)]
pub struct Psl(pub u32);

impl Psl {
    ghost use Rattle.vax_word.specs.Status.{mode_of, prev_of, ipl_of, codes_of, with_codes};

    /// The current access mode: 0 kernel, 1 executive, 2 supervisor, 3 user.
    #[inline(always)]
    #[tactic(auto, unfolding(crate::specs::Status::mode_of))]
    pub fn mode(self) -> u8
        ensures exact { result ≡ mode_of self }
        ensures within { result < 4 }
    {
        ((self.0 >> 24) & 3) as u8
    }

    /// The previous access mode, numbered as [`Psl::mode`].
    #[inline]
    #[tactic(auto, unfolding(crate::specs::Status::prev_of))]
    pub fn prev(self) -> u8
        ensures exact { result ≡ prev_of self }
        ensures within { result < 4 }
    {
        ((self.0 >> 22) & 3) as u8
    }

    /// The interrupt priority level.
    #[inline(always)]
    #[tactic(auto, unfolding(crate::specs::Status::ipl_of))]
    pub fn ipl(self) -> u8
        ensures exact { result ≡ ipl_of self }
        ensures within { result < 32 }
    {
        ((self.0 >> 16) & 31) as u8
    }

    /// The condition codes, from bits 3:0.
    #[inline(always)]
    #[tactic(auto, unfolding(crate::specs::Status::codes_of))]
    pub fn codes(self) -> Codes
        ensures { result ≡ codes_of self }
    {
        Codes {
            n: (self.0 >> 3) & 1 != 0,
            z: (self.0 >> 2) & 1 != 0,
            v: (self.0 >> 1) & 1 != 0,
            c: self.0 & 1 != 0,
        }
    }

    /// This longword with `codes` in bits 3:0, and every other bit as it was.
    #[inline(always)]
    pub fn with_codes(self, codes: Codes) -> Psl
        ensures exact { result ≡ with_codes self codes }
        ensures read_back { codes_of result ≡ codes }
        ensures others { result.0 / 2 ^ 4 ≡ self.0 / 2 ^ 4 }
        ensures identity { codes ≡ codes_of self → result ≡ self }
    {
        Psl((self.0 & !15) | codes.bits())
    }
}

/// The processor's registers.
#[derive(Clone, Copy, PartialEq, Eq)]
pub struct Core {
    /// R0 to R15, of which R12 is AP, R13 FP, R14 SP and R15 PC.
    pub regs: [u32; 16],
    /// The processor status longword.
    pub psl: Psl,
    /// The stack pointers of kernel, executive, supervisor, user mode and of interrupts. The entry of
    /// the stack in use is 0, and its pointer is `regs[14]`.
    pub stacks: [u32; 5],
    /// The software interrupt summary register: bit k is 1 where level k is requested.
    pub sisr: u16,
    /// The interval clock's control and status.
    pub iccs: u8,
    /// How far the interval clock has counted.
    pub clock: u16,
}
