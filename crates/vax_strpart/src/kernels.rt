//! The kernels.
ghost use Rattle.std.specs.Prelude.{◌≡◌, ◌<◌, ◌==◌, not, IfSome, length, map};
ghost use Rattle.std.specs.List.{position, zip};
ghost use Rattle.vax_strpart.specs.Kernels.{first_difference, is_escape, is_hit, is_miss, translated, translated_until};

use crate::lanes;
use crate::marks::{Marks, first};

/// The bytes that equal one.
#[derive(Drop)]
struct Equal<'a> {
    bytes: &'a [u8],
    byte: u8,
}

impl Marks for Equal<'_> {
    ghost marks = { λ m. map (λ x. x == m.byte) m.bytes.now };

    #[inline(always)]
    fn len(&self) -> usize {
        self.bytes.len()
    }

    #[inline(always)]
    fn at(&self, i: usize) -> bool {
        self.bytes[i] == self.byte
    }

    #[inline(always)]
    fn block(&self, i: usize) -> u64 {
        lanes::equal(self.bytes, i, self.byte)
    }
}

/// The bytes that don't equal one.
#[derive(Drop)]
struct Unequal<'a> {
    bytes: &'a [u8],
    byte: u8,
}

impl Marks for Unequal<'_> {
    ghost marks = { λ m. map (λ x. not (x == m.byte)) m.bytes.now };

    #[inline(always)]
    fn len(&self) -> usize {
        self.bytes.len()
    }

    #[inline(always)]
    fn at(&self, i: usize) -> bool {
        self.bytes[i] != self.byte
    }

    #[inline(always)]
    fn block(&self, i: usize) -> u64 {
        lanes::unequal(self.bytes, i, self.byte)
    }
}

/// The bytes whose table byte has a bit of the mask.
#[derive(Drop)]
struct Hits<'a> {
    bytes: &'a [u8],
    table: &'a [u8; 256],
    mask: u8,
}

impl Marks for Hits<'_> {
    ghost marks = { λ m. map (is_hit m.table.now m.mask) m.bytes.now };

    #[inline(always)]
    fn len(&self) -> usize {
        self.bytes.len()
    }

    #[inline(always)]
    fn at(&self, i: usize) -> bool {
        self.table[self.bytes[i] as usize] & self.mask != 0
    }

    #[inline(always)]
    fn block(&self, i: usize) -> u64 {
        lanes::hits(self.bytes, i, self.table, self.mask)
    }
}

/// The bytes whose table byte has no bit of the mask.
#[derive(Drop)]
struct Misses<'a> {
    bytes: &'a [u8],
    table: &'a [u8; 256],
    mask: u8,
}

impl Marks for Misses<'_> {
    ghost marks = { λ m. map (is_miss m.table.now m.mask) m.bytes.now };

    #[inline(always)]
    fn len(&self) -> usize {
        self.bytes.len()
    }

    #[inline(always)]
    fn at(&self, i: usize) -> bool {
        self.table[self.bytes[i] as usize] & self.mask == 0
    }

    #[inline(always)]
    fn block(&self, i: usize) -> u64 {
        lanes::misses(self.bytes, i, self.table, self.mask)
    }
}

/// The bytes whose table byte is the escape.
#[derive(Drop)]
struct Escapes<'a> {
    bytes: &'a [u8],
    table: &'a [u8; 256],
    escape: u8,
}

impl Marks for Escapes<'_> {
    ghost marks = { λ m. map (is_escape m.table.now m.escape) m.bytes.now };

    #[inline(always)]
    fn len(&self) -> usize {
        self.bytes.len()
    }

    #[inline(always)]
    fn at(&self, i: usize) -> bool {
        self.table[self.bytes[i] as usize] == self.escape
    }

    #[inline(always)]
    fn block(&self, i: usize) -> u64 {
        lanes::escapes(self.bytes, i, self.table, self.escape)
    }
}

/// The places at which two slices of one length differ.
#[derive(Drop)]
struct Different<'a> {
    a: &'a [u8],
    b: &'a [u8],
    ghost same: { length a.now ≡ length b.now },
}

impl Marks for Different<'_> {
    ghost marks = { λ m. map (λ p. not (p.0 == p.1)) (zip m.a.now m.b.now) };

    #[inline(always)]
    fn len(&self) -> usize {
        self.a.len()
    }

    #[inline(always)]
    fn at(&self, i: usize) -> bool {
        self.a[i] != self.b[i]
    }

    #[inline(always)]
    fn block(&self, i: usize) -> u64 {
        lanes::different(self.a, self.b, i)
    }
}

/// The first index at which two slices of one length differ.
pub fn compare(a: &[u8], b: &[u8]) -> Option<usize>
    requires { length a.now ≡ length b.now }
    ensures exact { result ≡ first_difference a.now b.now }
    ensures within { IfSome result (λ i. i < length a.now) }
{
    first(&Different { a, b })
}

/// The first index of a byte that equals one.
pub fn locate(s: &[u8], byte: u8) -> Option<usize>
    ensures exact { result ≡ position (λ x. x == byte) s.now }
    ensures within { IfSome result (λ i. i < length s.now) }
{
    first(&Equal { bytes: s, byte })
}

/// The first index of a byte that doesn't equal one.
pub fn skip(s: &[u8], byte: u8) -> Option<usize>
    ensures exact { result ≡ position (λ x. not (x == byte)) s.now }
    ensures within { IfSome result (λ i. i < length s.now) }
{
    first(&Unequal { bytes: s, byte })
}

/// The first index of a byte whose table byte has a bit of the mask.
pub fn scan(s: &[u8], table: &[u8; 256], mask: u8) -> Option<usize>
    ensures exact { result ≡ position (is_hit table.now mask) s.now }
    ensures within { IfSome result (λ i. i < length s.now) }
{
    first(&Hits {
        bytes: s,
        table,
        mask,
    })
}

/// The first index of a byte whose table byte has no bit of the mask.
pub fn span(s: &[u8], table: &[u8; 256], mask: u8) -> Option<usize>
    ensures exact { result ≡ position (is_miss table.now mask) s.now }
    ensures within { IfSome result (λ i. i < length s.now) }
{
    first(&Misses {
        bytes: s,
        table,
        mask,
    })
}

/// Puts the table's byte in each byte's place.
pub fn translate(s: &mut [u8], table: &[u8; 256])
    ensures { s.new ≡ translated table.now s.old }
{
    for byte in s.iter_mut() {
        *byte = table[*byte as usize];
    }
}

/// The first index of a byte whose table byte is the escape. The bytes before it, or all where there is none, are translated.
pub fn translate_until(s: &mut [u8], table: &[u8; 256], escape: u8) -> Option<usize>
    ensures exact { result ≡ position (is_escape table.now escape) s.old }
    ensures within { IfSome result (λ i. i < length s.old) }
    ensures moved { s.new ≡ translated_until table.now escape s.old }
{
    let found = first(&Escapes {
        bytes: s,
        table,
        escape,
    });
    let end = found.unwrap_or(s.len());
    translate(&mut s[..end], table);
    found
}
