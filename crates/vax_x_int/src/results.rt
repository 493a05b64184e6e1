//! Results of one and of two operands, with their condition codes.
ghost use Rattle.std.specs.Prelude.{◌≡◌, ◌+◌, ◌-◌, ◌/◌, ◌%◌, ◌^◌, ◌<◌};
ghost use Rattle.vax_word.specs.Arithmetic.{bytes_of, modulus, answer};
ghost use Rattle.vax_isa.specs.Actions.{size_of};
ghost use Rattle.vax_flat.specs.Integer.{complement, of_one, of_two, is_by_zero, rotated};

use vax_isa::{Binary, Narrow, Unary};
use vax_word::{Codes, Size, add, convert, div, is_negative, mul, sub};

/// The greatest value of a size.
#[inline(always)]
fn greatest(size: Size) -> u64
    ensures { result ≡ modulus size - 1 }
{
    match size {
        Size::B => 0xff,
        Size::W => 0xffff,
        Size::L => 0xffff_ffff,
        Size::Q => u64::MAX,
    }
}

/// The low bits of a value.
#[inline(always)]
fn low(size: Size, x: u64) -> u64
    ensures exact { result ≡ x % modulus size }
    ensures fits { result < 256 ^ bytes_of size }
{
    match size {
        Size::B => x & 0xff,
        Size::W => x & 0xffff,
        Size::L => x & 0xffff_ffff,
        Size::Q => x,
    }
}

/// The other bits.
#[inline(always)]
fn complement(size: Size, x: u64) -> u64
    requires { x < 256 ^ bytes_of size }
    ensures exact { result ≡ complement size x }
    ensures fits { result < 256 ^ bytes_of size }
{
    greatest(size) - x
}

/// A result with codes that are read from it.
#[inline(always)]
#[tactic(auto, unfolding(vax_word::specs::Arithmetic::answer))]
pub fn answer_of(size: Size, value: u64, v: bool, c: bool) -> (u64, Codes)
    requires { value < 256 ^ bytes_of size }
    ensures exact { result ≡ answer size value v c }
    ensures fits { result.0 < 256 ^ bytes_of size }
{
    let n = is_negative(size, value);
    (
        value,
        Codes {
            n,
            z: value == 0,
            v,
            c,
        },
    )
}

/// A result of one operand; `carry` is the carry as it was.
#[inline(always)]
#[tactic(auto, unfolding(vax_flat::specs::Integer::of_one))]
pub fn of_one(operation: Unary, from: Size, to: Size, x: u64, carry: bool) -> (u64, Codes)
    requires { x < 256 ^ bytes_of from }
    ensures exact { result ≡ of_one operation from to x carry }
    ensures fits { result.0 < 256 ^ bytes_of to }
{
    match operation {
        Unary::Move => answer_of(to, low(to, x), false, carry),
        Unary::Complement => answer_of(to, complement(to, low(to, x)), false, carry),
        Unary::Negate => sub(to, 0, low(to, x), false),
        Unary::ZeroExtend => answer_of(to, low(to, x), false, carry),
        Unary::Convert => convert(from, to, x),
    }
}

/// A result of two operands, of which `a` is the first; `carry` is the carry as it was.
#[inline(always)]
#[tactic(auto, using(crate::proofs::Sizes::or_fits, crate::proofs::Sizes::xor_fits, crate::proofs::Sizes::and_fits, crate::proofs::Sizes::narrow_is_short), unfolding(vax_flat::specs::Integer::of_two))]
pub fn of_two(operation: Binary, size: Narrow, a: u64, b: u64, carry: bool) -> (u64, Codes)
    requires a { a < 256 ^ bytes_of (size_of size) }
    requires b { b < 256 ^ bytes_of (size_of size) }
    ensures exact { result ≡ of_two operation (size_of size) a b carry }
    ensures fits { result.0 < 256 ^ bytes_of (size_of size) }
{
    let size = Size::from(size);
    match operation {
        Binary::Add => add(size, b, a, false),
        Binary::Subtract => sub(size, b, a, false),
        Binary::Multiply => mul(size, b, a),
        Binary::Divide => div(size, b, a),
        Binary::BitSet => answer_of(size, b | a, false, carry),
        Binary::BitClear => answer_of(size, b & complement(size, a), false, carry),
        Binary::ExclusiveOr => answer_of(size, b ^ a, false, carry),
        Binary::AddWithCarry => add(size, b, a, carry),
        Binary::SubtractWithCarry => sub(size, b, a, carry),
    }
}

/// Whether this is a division by 0.
#[inline(always)]
#[tactic(auto, unfolding(vax_flat::specs::Integer::is_by_zero))]
pub fn is_by_zero(operation: Binary, a: u64) -> bool
    ensures { result ≡ is_by_zero operation a }
{
    match operation {
        Binary::Add => false,
        Binary::Subtract => false,
        Binary::Multiply => false,
        Binary::Divide => a == 0,
        Binary::BitSet => false,
        Binary::BitClear => false,
        Binary::ExclusiveOr => false,
        Binary::AddWithCarry => false,
        Binary::SubtractWithCarry => false,
    }
}

/// A longword turned left by a count modulo 32.
#[inline]
#[tactic(auto, using(crate::proofs::Sizes::turned_below), unfolding(vax_flat::specs::Integer::rotated))]
pub fn rotated(count: u64, x: u64) -> u64
    requires { x < 256 ^ 4 }
    ensures exact { result ≡ rotated count x }
    ensures fits { result < 256 ^ 4 }
{
    let wide = x << (count % 32);
    (wide + (wide >> 32)) & 0xffff_ffff
}
