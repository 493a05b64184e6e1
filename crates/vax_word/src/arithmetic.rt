//! Integer arithmetic with the condition codes (VAX Architecture Reference Manual, integer arithmetic
//! and logical instructions). Operands and results are bit patterns below 2 to the size's bits.
//! Each result is the exact one modulo 2 to those bits, and N and Z are read from it.

ghost use Rattle.std.specs.Prelude.{◌≡◌, ◌+◌, ◌*◌, ◌/◌, ◌%◌, ◌^◌, ◌<◌, ◌≤◌, ◌≢◌, unsigned_abs, false};
ghost use Rattle.vax_word.specs.Arithmetic.{bytes_of, modulus, sign_bit, is_negative, signed, is_less, compared, answer, signed_answer, sum, difference, product, quotient, shifted, converted, extended_product, extended_quotient};

use crate::{Codes, Size};

// 8, 16, 32 or 64.
#[inline(always)]
fn bits(size: Size) -> u32
    ensures { result ≡ 8 * bytes_of size }
{
    8 * size.bytes()
}

// The low bits of `x`.
#[inline(always)]
fn low(size: Size, x: u64) -> u64
    ensures exact { result ≡ x % modulus size }
    ensures within { result < modulus size }
{
    x & (u64::MAX >> (64 - bits(size)))
}

/// Whether the sign bit is 1.
#[inline(always)]
pub fn is_negative(size: Size, x: u64) -> bool
    requires { x < 256 ^ bytes_of size }
    ensures { result ≡ is_negative size x }
{
    (x >> (bits(size) - 1)) != 0
}

// `x` as two's complement.
#[inline(always)]
fn extend(size: Size, x: u64) -> i64
    requires { x < modulus size }
    ensures exact { result ≡ signed size x }
    ensures bound { unsigned_abs result ≤ sign_bit size }
{
    let unused = 64 - bits(size);
    (x << unused).cast_signed() >> unused
}

/// Whether `a` is below `b` as signed numbers, which is N of CMP.
#[inline(always)]
#[tactic(auto, unfolding(crate::specs::Arithmetic::is_less))]
pub fn signed_less(size: Size, a: u64, b: u64) -> bool
    requires a_fits { a < 256 ^ bytes_of size }
    requires b_fits { b < 256 ^ bytes_of size }
    ensures { result ≡ is_less size a b }
{
    extend(size, a) < extend(size, b)
}

/// The codes of two operands compared (CMP): N where the first is below as signed numbers, Z where they are equal, C where it is below as
/// unsigned numbers, V 0.
#[inline(always)]
#[tactic(auto, unfolding(crate::specs::Arithmetic::compared))]
pub fn compare(size: Size, a: u64, b: u64) -> Codes
    requires a_fits { a < 256 ^ bytes_of size }
    requires b_fits { b < 256 ^ bytes_of size }
    ensures { result ≡ compared size a b }
{
    Codes {
        n: signed_less(size, a, b),
        z: a == b,
        v: false,
        c: a < b,
    }
}

// `r` as a result: N and Z are read from it.
#[inline(always)]
#[tactic(auto, unfolding(crate::specs::Arithmetic::answer))]
fn result(size: Size, r: u64, v: bool, c: bool) -> (u64, Codes)
    requires { r < modulus size }
    ensures exact { result ≡ answer size r v c }
    ensures within { result.0 < modulus size }
{
    let n = is_negative(size, r);
    (r, Codes { n, z: r == 0, v, c })
}

// The low bits of `exact`: V where they are not all of it, and C 0.
#[inline(always)]
#[tactic(auto, unfolding(crate::specs::Arithmetic::signed_answer))]
fn narrow(size: Size, exact: i64) -> (u64, Codes)
    ensures exact { result ≡ signed_answer size exact }
    ensures within { result.0 < modulus size }
{
    let r = low(size, exact.cast_unsigned());
    let v = extend(size, r) != exact;
    result(size, r, v, false)
}

/// `a + b`, and 1 more with `carry` (ADD, INC, ADWC). V where the signed sum does not fit, C where
/// the unsigned one does not.
#[inline(always)]
pub fn add(size: Size, a: u64, b: u64, carry: bool) -> (u64, Codes)
    requires a_fits { a < 256 ^ bytes_of size }
    requires b_fits { b < 256 ^ bytes_of size }
    ensures exact { result ≡ sum size a b carry }
    ensures within { result.0 < 256 ^ bytes_of size }
{
    let r = low(size, a.wrapping_add(b).wrapping_add(carry as u64));
    let (a_negative, b_negative, r_negative) = (
        is_negative(size, a),
        is_negative(size, b),
        is_negative(size, r),
    );
    let v = (a_negative == b_negative) & (r_negative != a_negative);
    let c = (r < a) | (carry & (r == a));
    result(size, r, v, c)
}

/// `a - b`, and 1 less with `borrow` (SUB, DEC, SBWC, and MNEG from 0). V where the signed
/// difference does not fit, C, the borrow, where the unsigned one does not.
#[inline(always)]
pub fn sub(size: Size, a: u64, b: u64, borrow: bool) -> (u64, Codes)
    requires a_fits { a < 256 ^ bytes_of size }
    requires b_fits { b < 256 ^ bytes_of size }
    ensures exact { result ≡ difference size a b borrow }
    ensures within { result.0 < 256 ^ bytes_of size }
{
    let r = low(size, a.wrapping_sub(b).wrapping_sub(borrow as u64));
    let (a_negative, b_negative, r_negative) = (
        is_negative(size, a),
        is_negative(size, b),
        is_negative(size, r),
    );
    let v = (a_negative != b_negative) & (r_negative != a_negative);
    let c = (a < b) | (borrow & (a == b));
    result(size, r, v, c)
}

/// The low bits of the signed product, at `B`, `W` or `L` (MUL). V where it does not fit, C 0.
#[inline(always)]
#[tactic(auto, unfolding(crate::specs::Arithmetic::product))]
pub fn mul(size: Size, a: u64, b: u64) -> (u64, Codes)
    requires short { size ≢ Size.Q }
    requires a_fits { a < 256 ^ bytes_of size }
    requires b_fits { b < 256 ^ bytes_of size }
    ensures exact { result ≡ product size a b }
    ensures within { result.0 < 256 ^ bytes_of size }
{
    narrow(size, extend(size, a) * extend(size, b))
}

/// The signed quotient of `divd` by `divr`, truncated towards 0, at `B`, `W` or `L` (DIV). Where the
/// divisor is 0 or the quotient does not fit, it is the dividend, and V is 1. C is 0.
#[inline]
#[tactic(auto, unfolding(crate::specs::Arithmetic::quotient))]
pub fn div(size: Size, divd: u64, divr: u64) -> (u64, Codes)
    requires short { size ≢ Size.Q }
    requires divd_fits { divd < 256 ^ bytes_of size }
    requires divr_fits { divr < 256 ^ bytes_of size }
    ensures exact { result ≡ quotient size divd divr }
    ensures within { result.0 < 256 ^ bytes_of size }
{
    if divr == 0 {
        return result(size, divd, true, false);
    }
    // Only the most negative dividend by -1 overflows, and its low bits are the dividend.
    narrow(size, extend(size, divd) / extend(size, divr))
}

/// `value` shifted arithmetically (ASH): times 2 to `count`, or, where `count` is negative, divided by
/// 2 to `-count` and rounded down. V where the product does not fit, C 0.
#[inline(always)]
pub fn shift(size: Size, count: i8, value: u64) -> (u64, Codes)
    requires fits { value < 256 ^ bytes_of size }
    ensures exact { result ≡ shifted size count value }
    ensures within { result.0 < 256 ^ bytes_of size }
{
    let exact = extend(size, value);
    let places = count.unsigned_abs() as u32;
    if count < 0 {
        return narrow(size, exact >> places.min(63));
    }
    if places >= 64 {
        return result(size, 0, value != 0, false);
    }
    let r = low(size, value << places);
    let v = extend(size, r) >> places != exact;
    result(size, r, v, false)
}

/// The signed number that `value` is at size `from`, at size `to` (CVT). V where it does not fit, C 0.
#[inline(always)]
#[tactic(auto, unfolding(crate::specs::Arithmetic::converted))]
pub fn convert(from: Size, to: Size, value: u64) -> (u64, Codes)
    requires fits { value < 256 ^ bytes_of from }
    ensures exact { result ≡ converted from to value }
    ensures within { result.0 < 256 ^ bytes_of to }
{
    narrow(to, extend(from, value))
}

/// The signed `a * b + add` of longwords as a quadword (EMUL), which it always fits: V 0, C 0.
#[inline]
pub fn emul(a: u32, b: u32, add: u32) -> (u64, Codes)
    ensures exact { result ≡ extended_product a b add }
    ensures no_overflow { result.1.v ≡ false }
{
    let product = extend(Size::L, a as u64) * extend(Size::L, b as u64);
    narrow(Size::Q, product + extend(Size::L, add as u64))
}

/// The signed quadword `divd` divided by the signed longword `divr` (EDIV): the quotient, truncated
/// towards 0, the remainder, which has the dividend's sign, and the codes, N and Z from the quotient.
/// Where the divisor is 0 or the quotient does not fit a longword, they are the dividend's low longword
/// and 0, and V is 1. C is 0.
#[inline]
pub fn ediv(divr: u32, divd: u64) -> (u32, u32, Codes)
    ensures { result ≡ extended_quotient divr divd }
{
    let dividend = extend(Size::Q, divd);
    let divisor = extend(Size::L, divr as u64);
    if let Some(exact) = dividend.checked_div(divisor) {
        let (quotient, codes) = narrow(Size::L, exact);
        if !codes.v {
            let remainder = low(Size::L, (dividend % divisor).cast_unsigned());
            return (quotient as u32, remainder as u32, codes);
        }
    }
    let (quotient, codes) = result(Size::L, low(Size::L, divd), true, false);
    (quotient as u32, 0, codes)
}
