//! Short texts that are built without memory: the lines of a report, a record or a reply.
ghost use Rattle.std.specs.Prelude.{◌≡◌, ◌+◌, ◌<◌, ◌≤◌, ◌++◌, [], decimal, length};
ghost use Rattle.vax_outside.specs.Hex.{hex, hex_digit};

use arrayvec::ArrayVec;
use itoa::Buffer;
use std::marker::Model;

/// A text of at most 512 bytes. Contracts see its bytes.
#[derive(Drop)]
pub struct Text {
    bytes: ArrayVec<u8, 512>,
}

impl Model for Text {
    ghost use Rattle.std.specs.Prelude.{List, ℕ};

    ghost Value = { List ℕ };

    ghost view = { λ t. t.bytes.items };
}

impl Text {
    /// The empty text.
    pub fn new() -> Text
        ensures { result ≡ [] }
    {
        Text {
            bytes: ArrayVec::new(),
        }
    }

    /// The bytes so far.
    pub fn as_slice(&self) -> &[u8]
        ensures { result.now ≡ self.now }
    {
        self.bytes.as_slice()
    }

    /// Appends bytes.
    pub fn push(&mut self, bytes: &[u8])
        requires { length self.old + length bytes.now ≤ 512 }
        ensures exact { self.new ≡ self.old ++ bytes.now }
        ensures len { length self.new ≡ length self.old + length bytes.now }
    {
        self.bytes.try_extend_from_slice(bytes).unwrap();
    }

    /// Appends a number in decimal digits, at most 20.
    pub fn push_decimal(&mut self, n: u64)
        requires { length self.old + 20 ≤ 512 }
        ensures exact { self.new ≡ self.old ++ decimal n }
        ensures short { length self.new ≤ length self.old + 20 }
    {
        self.push(Buffer::new().format(n).as_bytes());
    }

    /// Appends a byte in two capital hexadecimal digits.
    #[tactic(auto, unfolding(crate::specs::Hex::hex))]
    pub fn push_hex2(&mut self, n: u8)
        requires { length self.old + 2 ≤ 512 }
        ensures exact { self.new ≡ self.old ++ hex 2 n }
        ensures len { length self.new ≡ length self.old + 2 }
    {
        let n = u32::from(n);
        self.push(&[hex_digit(n / 16), hex_digit(n % 16)]);
    }

    /// Appends the low three hexadecimal digits of a number, in capitals.
    #[tactic(auto, unfolding(crate::specs::Hex::hex))]
    pub fn push_hex3(&mut self, n: u16)
        requires { length self.old + 3 ≤ 512 }
        ensures exact { self.new ≡ self.old ++ hex 3 n }
        ensures len { length self.new ≡ length self.old + 3 }
    {
        let n = u32::from(n);
        self.push(&[
            hex_digit(n / 0x100 % 16),
            hex_digit(n / 0x10 % 16),
            hex_digit(n % 16),
        ]);
    }

    /// Appends a longword in eight capital hexadecimal digits.
    #[tactic(auto, unfolding(crate::specs::Hex::hex))]
    pub fn push_hex8(&mut self, n: u32)
        requires { length self.old + 8 ≤ 512 }
        ensures exact { self.new ≡ self.old ++ hex 8 n }
        ensures len { length self.new ≡ length self.old + 8 }
    {
        self.push(&[
            hex_digit(n / 0x1000_0000 % 16),
            hex_digit(n / 0x100_0000 % 16),
            hex_digit(n / 0x10_0000 % 16),
            hex_digit(n / 0x1_0000 % 16),
            hex_digit(n / 0x1000 % 16),
            hex_digit(n / 0x100 % 16),
            hex_digit(n / 0x10 % 16),
            hex_digit(n % 16),
        ]);
    }
}

fn hex_digit(n: u32) -> u8
    requires { n < 16 }
    ensures { result ≡ hex_digit n }
{
    if n < 10 {
        b'0' + n as u8
    } else {
        b'A' + (n as u8 - 10)
    }
}
