ghost use Rattle.std.specs.Prelude.{◌^◌, ◌<◌};
ghost use Rattle.vax_word.specs.Arithmetic.{bytes_of};

use vax_word::{Codes, Size, add, convert, div, ediv, emul, mul, shift, signed_less, sub};

/// The codes N, Z, V and C.
fn codes(all: [u8; 4]) -> Codes {
    let [n, z, v, c] = all;
    Codes {
        n: n == 1,
        z: z == 1,
        v: v == 1,
        c: c == 1,
    }
}

/// The largest operand of a size.
fn most(size: Size) -> u64
    ensures { result < 256 ^ bytes_of size }
{
    match size {
        Size::B => 0xFF,
        Size::W => 0xFFFF,
        Size::L => 0xFFFF_FFFF,
        Size::Q => u64::MAX,
    }
}

#[test]
fn signed_order(rt: HostRuntime) {
    let rows = [
        (Size::B, 0x80, 0x7F, true),
        (Size::B, 0xFF, 0, true),
        (Size::B, 0, 0xFF, false),
        (Size::W, 0x8000, 0x8000, false),
        (Size::W, 0x80, 0x81, true),
        (Size::L, 0x8000_0000, 0xFFFF_FFFF, true),
        (Size::L, 0x7FFF_FFFF, 0x8000_0000, false),
        (Size::Q, u64::MAX, 0, true),
    ];
    for (size, a, b, less) in rows {
        assert!(rt; a <= most(size) && b <= most(size));
        assert!(rt; signed_less(size, a, b) == less, "{a:X} {b:X}");
    }
}

#[test]
fn sums(rt: HostRuntime) {
    let rows: [((Size, u64, u64, bool), u64, [u8; 4]); 11] = [
        ((Size::B, 0x7F, 1, false), 0x80, [1, 0, 1, 0]),
        ((Size::B, 0xFF, 1, false), 0, [0, 1, 0, 1]),
        ((Size::B, 0x80, 0x80, false), 0, [0, 1, 1, 1]),
        ((Size::W, 0x7FFF, 0x7FFF, false), 0xFFFE, [1, 0, 1, 0]),
        ((Size::W, 0x1234, 0x1111, true), 0x2346, [0, 0, 0, 0]),
        ((Size::L, 5, 0xFFFF_FFFB, false), 0, [0, 1, 0, 1]),
        (
            (Size::L, 0xFFFF_FFFF, 0xFFFF_FFFF, true),
            0xFFFF_FFFF,
            [1, 0, 0, 1],
        ),
        ((Size::L, 0x7FFF_FFFF, 0, true), 0x8000_0000, [1, 0, 1, 0]),
        (
            (Size::L, 0x8000_0000, 0xFFFF_FFFF, true),
            0x8000_0000,
            [1, 0, 0, 1],
        ),
        ((Size::Q, u64::MAX, 0, true), 0, [0, 1, 0, 1]),
        (
            (Size::Q, 0x7FFF_FFFF_FFFF_FFFF, 1, false),
            0x8000_0000_0000_0000,
            [1, 0, 1, 0],
        ),
    ];
    for ((size, a, b, carry), want, set) in rows {
        assert!(rt; a <= most(size) && b <= most(size));
        assert!(rt; add(size, a, b, carry) == (want, codes(set)), "{a:X} {b:X}");
    }
}

#[test]
fn differences(rt: HostRuntime) {
    let rows: [((Size, u64, u64, bool), u64, [u8; 4]); 10] = [
        ((Size::B, 0, 1, false), 0xFF, [1, 0, 0, 1]),
        ((Size::B, 0x80, 1, false), 0x7F, [0, 0, 1, 0]),
        ((Size::B, 0x7F, 0xFF, false), 0x80, [1, 0, 1, 1]),
        ((Size::W, 5, 5, false), 0, [0, 1, 0, 0]),
        ((Size::W, 5, 5, true), 0xFFFF, [1, 0, 0, 1]),
        ((Size::L, 9, 4, true), 4, [0, 0, 0, 0]),
        (
            (Size::L, 0x8000_0000, 0x8000_0000, true),
            0xFFFF_FFFF,
            [1, 0, 0, 1],
        ),
        ((Size::L, 0x8000_0000, 0, true), 0x7FFF_FFFF, [0, 0, 1, 0]),
        ((Size::Q, 0, 1, false), u64::MAX, [1, 0, 0, 1]),
        (
            (Size::Q, 0x8000_0000_0000_0000, 1, false),
            0x7FFF_FFFF_FFFF_FFFF,
            [0, 0, 1, 0],
        ),
    ];
    for ((size, a, b, carry), want, set) in rows {
        assert!(rt; a <= most(size) && b <= most(size));
        assert!(rt; sub(size, a, b, carry) == (want, codes(set)), "{a:X} {b:X}");
    }
}

#[test]
fn negatives(rt: HostRuntime) {
    let rows: [((Size, u64, u64, bool), u64, [u8; 4]); 5] = [
        ((Size::L, 0, 0, false), 0, [0, 1, 0, 0]),
        ((Size::L, 0, 1, false), 0xFFFF_FFFF, [1, 0, 0, 1]),
        ((Size::L, 0, 0xFFFF_FFFF, false), 1, [0, 0, 0, 1]),
        ((Size::L, 0, 0x8000_0000, false), 0x8000_0000, [1, 0, 1, 1]),
        ((Size::B, 0, 0x80, false), 0x80, [1, 0, 1, 1]),
    ];
    for ((size, a, b, carry), want, set) in rows {
        assert!(rt; a <= most(size) && b <= most(size));
        assert!(rt; sub(size, a, b, carry) == (want, codes(set)), "{a:X} {b:X}");
    }
}

#[test]
fn products(rt: HostRuntime) {
    let rows: [((Size, u64, u64), u64, [u8; 4]); 9] = [
        ((Size::B, 0x10, 0x10), 0, [0, 1, 1, 0]),
        ((Size::B, 0xFF, 0xFF), 1, [0, 0, 0, 0]),
        ((Size::B, 0x80, 0xFF), 0x80, [1, 0, 1, 0]),
        ((Size::W, 0x7FFF, 2), 0xFFFE, [1, 0, 1, 0]),
        ((Size::W, 0xFFFE, 3), 0xFFFA, [1, 0, 0, 0]),
        ((Size::L, 0x1_0000, 0x1_0000), 0, [0, 1, 1, 0]),
        ((Size::L, 0x8000_0000, 0x8000_0000), 0, [0, 1, 1, 0]),
        ((Size::L, 0xFFFF_FFFF, 7), 0xFFFF_FFF9, [1, 0, 0, 0]),
        ((Size::L, 0, 7), 0, [0, 1, 0, 0]),
    ];
    for ((size, a, b), want, set) in rows {
        assert!(rt; size != Size::Q && a <= most(size) && b <= most(size));
        assert!(rt; mul(size, a, b) == (want, codes(set)), "{a:X} {b:X}");
    }
}

#[test]
fn quotients(rt: HostRuntime) {
    let rows: [((Size, u64, u64), u64, [u8; 4]); 11] = [
        ((Size::B, 7, 2), 3, [0, 0, 0, 0]),
        ((Size::B, 0xF9, 2), 0xFD, [1, 0, 0, 0]),
        ((Size::B, 7, 0xFE), 0xFD, [1, 0, 0, 0]),
        ((Size::B, 0xF9, 0xFE), 3, [0, 0, 0, 0]),
        ((Size::B, 0x80, 0xFF), 0x80, [1, 0, 1, 0]),
        ((Size::B, 5, 0), 5, [0, 0, 1, 0]),
        ((Size::W, 0, 0), 0, [0, 1, 1, 0]),
        ((Size::W, 0xFFFF, 2), 0, [0, 1, 0, 0]),
        ((Size::L, 0x8000_0000, 1), 0x8000_0000, [1, 0, 0, 0]),
        (
            (Size::L, 0x8000_0000, 0xFFFF_FFFF),
            0x8000_0000,
            [1, 0, 1, 0],
        ),
        ((Size::L, 0x8000_0000, 0), 0x8000_0000, [1, 0, 1, 0]),
    ];
    for ((size, a, b), want, set) in rows {
        assert!(rt; size != Size::Q && a <= most(size) && b <= most(size));
        assert!(rt; div(size, a, b) == (want, codes(set)), "{a:X} {b:X}");
    }
}

#[test]
fn longword_shifts_left(rt: HostRuntime) {
    let rows: [((Size, i8, u64), u64, [u8; 4]); 13] = [
        ((Size::L, 0, 0x8000_0001), 0x8000_0001, [1, 0, 0, 0]),
        ((Size::L, 4, 0x123), 0x1230, [0, 0, 0, 0]),
        ((Size::L, 1, 0x4000_0000), 0x8000_0000, [1, 0, 1, 0]),
        ((Size::L, 1, 0xC000_0000), 0x8000_0000, [1, 0, 0, 0]),
        ((Size::L, 1, 0x8000_0000), 0, [0, 1, 1, 0]),
        ((Size::L, 31, 1), 0x8000_0000, [1, 0, 1, 0]),
        ((Size::L, 31, 0xFFFF_FFFF), 0x8000_0000, [1, 0, 0, 0]),
        ((Size::L, 32, 1), 0, [0, 1, 1, 0]),
        ((Size::L, 32, 0), 0, [0, 1, 0, 0]),
        ((Size::L, 63, 0xFFFF_FFFF), 0, [0, 1, 1, 0]),
        ((Size::L, 64, 1), 0, [0, 1, 1, 0]),
        ((Size::L, 127, 0xFFFF_FFFF), 0, [0, 1, 1, 0]),
        ((Size::L, 127, 0), 0, [0, 1, 0, 0]),
    ];
    for ((size, count, value), want, set) in rows {
        assert!(rt; value <= most(size));
        assert!(rt;
            shift(size, count, value) == (want, codes(set)),
            "{count} {value:X}"
        );
    }
}

#[test]
fn longword_shifts_right(rt: HostRuntime) {
    let rows: [((Size, i8, u64), u64, [u8; 4]); 9] = [
        ((Size::L, -1, 0x8000_0000), 0xC000_0000, [1, 0, 0, 0]),
        ((Size::L, -1, 0xFFFF_FFFF), 0xFFFF_FFFF, [1, 0, 0, 0]),
        ((Size::L, -1, 1), 0, [0, 1, 0, 0]),
        ((Size::L, -2, 7), 1, [0, 0, 0, 0]),
        ((Size::L, -2, 0xFFFF_FFF9), 0xFFFF_FFFE, [1, 0, 0, 0]),
        ((Size::L, -31, 0x8000_0000), 0xFFFF_FFFF, [1, 0, 0, 0]),
        ((Size::L, -32, 0x7FFF_FFFF), 0, [0, 1, 0, 0]),
        ((Size::L, -128, 0x8000_0000), 0xFFFF_FFFF, [1, 0, 0, 0]),
        ((Size::L, -128, 0x7FFF_FFFF), 0, [0, 1, 0, 0]),
    ];
    for ((size, count, value), want, set) in rows {
        assert!(rt; value <= most(size));
        assert!(rt;
            shift(size, count, value) == (want, codes(set)),
            "{count} {value:X}"
        );
    }
}

#[test]
fn quadword_shifts(rt: HostRuntime) {
    let rows: [((Size, i8, u64), u64, [u8; 4]); 12] = [
        ((Size::Q, 62, 1), 0x4000_0000_0000_0000, [0, 0, 0, 0]),
        ((Size::Q, 62, 2), 0x8000_0000_0000_0000, [1, 0, 1, 0]),
        ((Size::Q, 63, 1), 0x8000_0000_0000_0000, [1, 0, 1, 0]),
        ((Size::Q, 63, u64::MAX), 0x8000_0000_0000_0000, [1, 0, 0, 0]),
        ((Size::Q, 64, 1), 0, [0, 1, 1, 0]),
        ((Size::Q, 127, 0), 0, [0, 1, 0, 0]),
        ((Size::Q, 127, u64::MAX), 0, [0, 1, 1, 0]),
        (
            (Size::Q, -63, 0x8000_0000_0000_0000),
            u64::MAX,
            [1, 0, 0, 0],
        ),
        ((Size::Q, -63, 0x7FFF_FFFF_FFFF_FFFF), 0, [0, 1, 0, 0]),
        (
            (Size::Q, -64, 0x8000_0000_0000_0000),
            u64::MAX,
            [1, 0, 0, 0],
        ),
        ((Size::Q, -128, 0x7FFF_FFFF_FFFF_FFFF), 0, [0, 1, 0, 0]),
        ((Size::Q, -4, 0x1234), 0x123, [0, 0, 0, 0]),
    ];
    for ((size, count, value), want, set) in rows {
        assert!(rt; value <= most(size));
        assert!(rt;
            shift(size, count, value) == (want, codes(set)),
            "{count} {value:X}"
        );
    }
}

#[test]
fn conversions(rt: HostRuntime) {
    let rows: [((Size, Size, u64), u64, [u8; 4]); 9] = [
        ((Size::B, Size::W, 0x7F), 0x7F, [0, 0, 0, 0]),
        ((Size::B, Size::L, 0x80), 0xFFFF_FF80, [1, 0, 0, 0]),
        ((Size::W, Size::L, 0xFFFE), 0xFFFF_FFFE, [1, 0, 0, 0]),
        (
            (Size::W, Size::Q, 0x8000),
            0xFFFF_FFFF_FFFF_8000,
            [1, 0, 0, 0],
        ),
        ((Size::W, Size::B, 0x100), 0, [0, 1, 1, 0]),
        ((Size::L, Size::B, 0x80), 0x80, [1, 0, 1, 0]),
        ((Size::L, Size::B, 0xFFFF_FF80), 0x80, [1, 0, 0, 0]),
        ((Size::L, Size::W, 0x1_2345), 0x2345, [0, 0, 1, 0]),
        ((Size::L, Size::L, 0), 0, [0, 1, 0, 0]),
    ];
    for ((from, to, value), want, set) in rows {
        assert!(rt; value <= most(from));
        assert!(rt; convert(from, to, value) == (want, codes(set)), "{value:X}");
    }
}

#[test]
fn extended_products(rt: HostRuntime) {
    let rows: [((u32, u32, u32), u64, [u8; 4]); 6] = [
        ((3, 5, 2), 17, [0, 0, 0, 0]),
        ((1, 0, 0), 0, [0, 1, 0, 0]),
        ((0xFFFF_FFFF, 2, 1), u64::MAX, [1, 0, 0, 0]),
        ((0, 9, 0xFFFF_FFFF), u64::MAX, [1, 0, 0, 0]),
        (
            (0x8000_0000, 0x8000_0000, 0x8000_0000),
            0x3FFF_FFFF_8000_0000,
            [0, 0, 0, 0],
        ),
        (
            (0x7FFF_FFFF, 0x8000_0000, 0x8000_0000),
            0xC000_0000_0000_0000,
            [1, 0, 0, 0],
        ),
    ];
    for ((a, b, more), want, set) in rows {
        assert!(rt; emul(a, b, more) == (want, codes(set)), "{a:X} {b:X}");
    }
}

#[test]
fn extended_quotients(rt: HostRuntime) {
    let rows: [((u32, u64), (u32, u32), [u8; 4]); 12] = [
        ((7, 100), (14, 2), [0, 0, 0, 0]),
        ((0xFFFF_FFF9, 100), (0xFFFF_FFF2, 2), [1, 0, 0, 0]),
        (
            (7, 0xFFFF_FFFF_FFFF_FF9C),
            (0xFFFF_FFF2, 0xFFFF_FFFE),
            [1, 0, 0, 0],
        ),
        (
            (0xFFFF_FFF9, 0xFFFF_FFFF_FFFF_FF9C),
            (14, 0xFFFF_FFFE),
            [0, 0, 0, 0],
        ),
        ((3, 0x1_0000_0000), (0x5555_5555, 1), [0, 0, 0, 0]),
        ((9, 5), (0, 5), [0, 1, 0, 0]),
        ((1, 0xFFFF_FFFF_8000_0000), (0x8000_0000, 0), [1, 0, 0, 0]),
        ((1, 0x8000_0000), (0x8000_0000, 0), [1, 0, 1, 0]),
        ((2, 0x1_0000_0000), (0, 0), [0, 1, 1, 0]),
        ((0xFFFF_FFFF, 0x8000_0000_0000_0000), (0, 0), [0, 1, 1, 0]),
        ((0, 0x1_0000_0005), (5, 0), [0, 0, 1, 0]),
        ((0, 0), (0, 0), [0, 1, 1, 0]),
    ];
    for ((divr, divd), (quotient, remainder), set) in rows {
        assert!(rt;
            ediv(divr, divd) == (quotient, remainder, codes(set)),
            "{divr:X} {divd:X}"
        );
    }
}
