// The text of operands.

ghost use Rattle.std.specs.Prelude.{◌≡◌, ◌+◌, ◌*◌, ◌<◌, ◌≤◌, ◌^◌, ◌++◌, length};
ghost use Rattle.vax_outside.specs.Hex.{hex, hex_digit};
ghost use Rattle.vax_isa.specs.Rows.{IsWidth};
ghost use Rattle.vax_disasm.specs.Text.{register_name, enclosed, signed, displaced, size_letter, place_text, specifier_text};
ghost use Rattle.vax_disasm.specs.Seen.{width_of, place_seen, specifier_seen, HasRegisters, HasPlaceRegisters};

use crate::specifier::{Place, Specifier};
use arrayvec::ArrayString;
use itoa::Buffer;
use vax_isa::{Narrow, OperandKind};

type Text = ArrayString<160>;

fn hex_digit(n: u64) -> char
    requires { n < 16 }
    ensures digit { result ≡ hex_digit n }
    ensures ascii { result < 128 }
{
    if n < 10 {
        (b'0' + n as u8) as char
    } else {
        (b'A' + (n as u8 - 10)) as char
    }
}

/// Appends so many low digits of a number.
fn push_hex(text: &mut Text, places: u8, n: u64)
    requires places { places ≤ 16 }
    requires room { length text.old.bytes + places ≤ 160 }
    ensures exact { text.new.bytes ≡ text.old.bytes ++ hex places n }
    ensures len { length text.new.bytes ≡ length text.old.bytes + places }
{
    let mut left = places;
    while left > 0 {
        left -= 1;
        text.push(hex_digit((n >> (4 * left)) % 16));
    }
}

#[tactic(auto, using(crate::proofs::Digits::register_digits), unfolding(crate::specs::Text::register_name))]
fn push_register(text: &mut Text, n: u8)
    requires register { n < 16 }
    requires room { length text.old.bytes + 3 ≤ 160 }
    ensures exact { text.new.bytes ≡ text.old.bytes ++ register_name n }
    ensures short { length text.new.bytes ≤ length text.old.bytes + 3 }
{
    match n {
        12 => text.push_str("AP"),
        13 => text.push_str("FP"),
        14 => text.push_str("SP"),
        15 => text.push_str("PC"),
        _ => {
            text.push_str("R");
            text.push_str(Buffer::new().format(n));
        }
    }
}

#[tactic(auto, unfolding(crate::specs::Text::enclosed))]
fn push_enclosed(text: &mut Text, n: u8)
    requires register { n < 16 }
    requires room { length text.old.bytes + 5 ≤ 160 }
    ensures exact { text.new.bytes ≡ text.old.bytes ++ enclosed n }
    ensures short { length text.new.bytes ≤ length text.old.bytes + 5 }
{
    text.push_str("(");
    push_register(text, n);
    text.push_str(")");
}

/// Appends a signed number of 32 bits.
#[tactic(auto, unfolding(crate::specs::Text::signed))]
fn push_signed(text: &mut Text, n: u32)
    requires { length text.old.bytes + 11 ≤ 160 }
    ensures exact { text.new.bytes ≡ text.old.bytes ++ signed n }
    ensures short { length text.new.bytes ≤ length text.old.bytes + 11 }
{
    if n < 0x8000_0000 {
        text.push_str(Buffer::new().format(n));
    } else {
        text.push_str("-");
        text.push_str(Buffer::new().format(u32::MAX - n + 1));
    }
}

fn size_letter(size: Narrow) -> &'static str
    ensures letter { result.now ≡ size_letter (width_of size) }
    ensures one { length result.now ≡ 1 }
{
    match size {
        Narrow::B => "B",
        Narrow::W => "W",
        Narrow::L => "L",
    }
}

#[tactic(auto, unfolding(crate::specs::Text::displaced))]
fn push_displaced(text: &mut Text, size: Narrow, displacement: u32, register: u8)
    requires register { register < 16 }
    requires room { length text.old.bytes + 18 ≤ 160 }
    ensures exact { text.new.bytes
        ≡ text.old.bytes ++ displaced (width_of size) displacement register }
    ensures short { length text.new.bytes ≤ length text.old.bytes + 18 }
{
    text.push_str(size_letter(size));
    text.push_str("^");
    push_signed(text, displacement);
    push_enclosed(text, register);
}

#[tactic(auto, unfolding(crate::specs::Text::place_text, crate::specs::Seen::place_seen))]
fn push_place(text: &mut Text, place: Place)
    requires registers { HasPlaceRegisters place }
    requires room { length text.old.bytes + 19 ≤ 160 }
    ensures exact { text.new.bytes ≡ text.old.bytes ++ place_text (place_seen place) }
    ensures short { length text.new.bytes ≤ length text.old.bytes + 19 }
{
    match place {
        Place::Deferred(n) => push_enclosed(text, n),
        Place::Decrement(n) => {
            text.push_str("-");
            push_enclosed(text, n);
        }
        Place::Increment(n) => {
            push_enclosed(text, n);
            text.push_str("+");
        }
        Place::IncrementDeferred(n) => {
            text.push_str("@");
            push_enclosed(text, n);
            text.push_str("+");
        }
        Place::Absolute(addr) => {
            text.push_str("@#^X");
            push_hex(text, 8, u64::from(addr));
        }
        Place::Displaced {
            size,
            displacement,
            register,
        } => push_displaced(text, size, displacement, register),
        Place::DisplacedDeferred {
            size,
            displacement,
            register,
        } => {
            text.push_str("@");
            push_displaced(text, size, displacement, register);
        }
    }
}

/// Appends an operand of a kind, which ends in front of an address.
#[tactic(auto, unfolding(crate::specs::Text::specifier_text, crate::specs::Seen::specifier_seen))]
pub(crate) fn push_specifier(text: &mut Text, kind: OperandKind, next: u32, specifier: Specifier)
    requires width { IsWidth kind.width }
    requires registers { HasRegisters specifier }
    requires room { length text.old.bytes + 24 ≤ 160 }
    ensures exact { text.new.bytes
        ≡ text.old.bytes ++ specifier_text kind next (specifier_seen specifier) }
    ensures short { length text.new.bytes ≤ length text.old.bytes + 24 }
{
    match specifier {
        Specifier::Literal(value) => {
            text.push_str("S^#^X");
            push_hex(text, 2, u64::from(value));
        }
        Specifier::Register(n) => push_register(text, n),
        Specifier::Immediate(value) => {
            text.push_str("I^#^X");
            push_hex(text, 2 * kind.width, value);
        }
        Specifier::InMemory(place) => push_place(text, place),
        Specifier::Indexed(place, index) => {
            push_place(text, place);
            text.push_str("[");
            push_register(text, index);
            text.push_str("]");
        }
        Specifier::BranchBy(displacement) => {
            text.push_str("^X");
            push_hex(text, 8, u64::from(next.wrapping_add(displacement)));
        }
    }
}
