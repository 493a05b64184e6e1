//! Numbers that follow from a seed.
ghost use Rattle.std.specs.Prelude.{◌<◌};

/// Values at the edges of operands.
static EDGES: [u32; 12] = [
    0,
    1,
    0xFFFF_FFFF,
    0x7F,
    0x80,
    0xFF,
    0x7FFF,
    0x8000,
    0xFFFF,
    0x7FFF_FFFF,
    0x8000_0000,
    0x20,
];

/// Numbers that follow from a seed, the same for the same seed.
#[derive(Clone, Copy)]
pub(crate) struct Dice {
    state: u32,
}

impl Dice {
    pub(crate) fn new(opcode: u8, seed: u32, number: u32) -> Dice {
        let mixed = seed.wrapping_mul(0x9E37_79B1) ^ number.wrapping_mul(0x85EB_CA6B);
        let mut dice = Dice {
            state: mixed ^ u32::from(opcode).wrapping_mul(0xC2B2_AE35),
        };
        for _ in 0..4 {
            dice.next();
        }
        dice
    }

    /// The next number.
    pub(crate) fn next(&mut self) -> u32 {
        let mut x = self.state.wrapping_add(0x6D2B_79F5);
        self.state = x;
        x = (x ^ (x >> 15)).wrapping_mul(0x2C1B_3C6D);
        x = (x ^ (x >> 12)).wrapping_mul(0x297A_2D39);
        x ^ (x >> 15)
    }

    /// A number below another.
    pub(crate) fn below(&mut self, n: u32) -> u32
        requires { 0 < n }
        ensures { result < n }
    {
        self.next() % n
    }

    /// A byte.
    pub(crate) fn byte(&mut self) -> u8 {
        (self.next() % 256) as u8
    }

    /// A value of an operand: at an edge, or any.
    pub(crate) fn value(&mut self) -> u32 {
        let k = self.below(20);
        if k < 12 {
            EDGES[k as usize]
        } else if k < 16 {
            self.below(40)
        } else {
            self.next()
        }
    }

    /// An address: in the pages that may be written, at their ends, in pages that may not be written or read, and in none.
    pub(crate) fn address(&mut self) -> u32 {
        match self.below(20) {
            0..12 => 0x600 + self.below(0x1F8),
            12 | 13 => 0x7F9 + self.below(7),
            14 => 0xA10 + self.below(16),
            15 => 0xC10 + self.below(16),
            16 => 0xE10 + self.below(16),
            17 => 0x9F9 + self.below(7),
            18 => 0x7FFE_1F00 + self.below(0x40),
            _ => self.next(),
        }
    }
}
