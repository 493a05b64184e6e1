//! Bits of numbers, by masks and shifts.
ghost use Rattle.std.specs.Prelude.{◌≡◌, ◌+◌, ◌-◌, ◌*◌, ◌^◌, ◌<◌, ◌≤◌, [], ◌∷◌, true, false};
ghost use Rattle.vax_word.specs.Arithmetic.{answer};
ghost use Rattle.vax_flat.specs.Field.{bits_of, number_of, part, with_part, highest, widened, before_first};

use vax_flat::Holder;
use vax_word::{Codes, Size, is_negative};

/// The number of which the lowest bits are 1, so many, and no others.
#[inline(always)]
fn ones(count: u8) -> u64
    requires { count < 64 }
    ensures { result ≡ 2 ^ count - 1 }
{
    (1 << count) - 1
}

/// The bits of a field, from all those of what holds it.
#[inline(always)]
pub fn part(holder: Holder, held: u64, size: u8) -> u64
    requires within { holder.first + size ≤ 8 * holder.width }
    requires first { holder.first < 32 }
    requires short { size ≤ 32 }
    ensures bits { part holder.first size (bits_of (8 * holder.width) held) ≡ bits_of size result }
    ensures number { number_of (part holder.first size (bits_of (8 * holder.width) held)) ≡ result }
    ensures fits { result < 2 ^ size }
{
    held >> holder.first & ones(size)
}

/// All the bits of what holds a field, with the lowest of another number in the field's place.
#[inline(always)]
pub fn with_part(holder: Holder, held: u64, size: u8, new: u64) -> u64
    requires within { holder.first + size ≤ 8 * holder.width }
    requires first { holder.first < 32 }
    requires short { size ≤ 32 }
    requires fits { held < 256 ^ holder.width }
    ensures bits { number_of
        (with_part holder.first (bits_of size new) (bits_of (8 * holder.width) held)) ≡ result }
    ensures fits { result < 256 ^ holder.width }
{
    let behind = holder.first + size;
    held >> behind << behind | (new & ones(size)) << holder.first | held & ones(holder.first)
}

/// The same where the field is one bit.
#[inline(always)]
pub fn with_bit(holder: Holder, held: u64, new: bool) -> u64
    requires within { holder.first + 1 ≤ 8 * holder.width }
    requires first { holder.first < 32 }
    requires fits { held < 256 ^ holder.width }
    ensures bits { number_of (with_part holder.first (new ∷ []) (bits_of (8 * holder.width) held))
        ≡ result }
    ensures fits { result < 256 ^ holder.width }
{
    with_part(holder, held, 1, u64::from(new))
}

/// Whether the highest bit of a field is 1. An empty field has none.
#[inline(always)]
fn is_negative_field(size: u8, field: u64) -> bool
    requires short { size ≤ 32 }
    requires fits { field < 2 ^ size }
    ensures { result ≡ highest (bits_of size field) }
{
    size > 0 && field >> (size - 1) == 1
}

/// A field as a longword, with its sign or with zeros in front.
#[inline(always)]
pub fn widen(signed: bool, size: u8, field: u64) -> u64
    requires short { size ≤ 32 }
    requires fits { field < 2 ^ size }
    ensures exact { result ≡ widened signed (bits_of size field) }
    ensures fits { result < 2 ^ 32 }
{
    let negative = is_negative_field(size, field);
    if signed && negative {
        field + ((1 << 32) - (1 << size))
    } else {
        field
    }
}

/// How many bits of a field come before the first 1, all of them where none is.
#[inline(always)]
fn before_one(size: u8, field: u64) -> u32
    requires short { size ≤ 32 }
    requires fits { field < 2 ^ size }
    ensures { result ≡ before_first true (bits_of size field) }
{
    (field + (1 << size)).trailing_zeros()
}

/// How many bits of a field come before the first that is so, all of them where none is.
#[inline(always)]
pub fn before_first(set: bool, size: u8, field: u64) -> u32
    requires short { size ≤ 32 }
    requires fits { field < 2 ^ size }
    ensures exact { result ≡ before_first set (bits_of size field) }
    ensures within { result ≤ size }
{
    if set {
        before_one(size, field)
    } else {
        before_one(size, ones(size) - field)
    }
}

/// A longword as a result, with the codes that are read from it and the carry as it was.
#[inline(always)]
#[tactic(auto, unfolding(vax_word::specs::Arithmetic::answer))]
pub fn answer_of(value: u64, carry: bool) -> (u64, Codes)
    requires { value < 256 ^ 4 }
    ensures exact { result ≡ answer Size.L value false carry }
    ensures fits { result.0 < 256 ^ 4 }
{
    let n = is_negative(Size::L, value);
    (
        value,
        Codes {
            n,
            z: value == 0,
            v: false,
            c: carry,
        },
    )
}
