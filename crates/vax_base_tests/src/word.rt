//! Sizes, the status longword and cores. The expected values are worked by hand from the manual's layouts.
use vax_word::{Codes, Core, Psl, Size};

/// The codes N, Z, V and C.
fn codes(all: [bool; 4]) -> Codes {
    let [n, z, v, c] = all;
    Codes { n, z, v, c }
}

#[test]
fn operand_bytes(rt: HostRuntime) {
    for (size, bytes) in [(Size::B, 1), (Size::W, 2), (Size::L, 4), (Size::Q, 8)] {
        assert!(rt; size.bytes() == bytes, "{bytes}");
    }
}

#[test]
fn status_fields(rt: HostRuntime) {
    // a status longword, its mode, its previous mode and its level
    let rows = [
        (0x0194_0005, 1, 2, 0x14),
        (0x0300_0000, 3, 0, 0),
        (0x00C0_0000, 0, 3, 0),
        (0x001F_0000, 0, 0, 31),
    ];
    for (word, mode, prev, ipl) in rows {
        let psl = Psl(word);
        assert!(rt; psl.mode() == mode, "{word:X}");
        assert!(rt; psl.prev() == prev, "{word:X}");
        assert!(rt; psl.ipl() == ipl, "{word:X}");
    }
}

#[test]
fn status_codes(rt: HostRuntime) {
    let rows = [
        (0x0194_0005, [false, true, false, true]),
        (0xFCE0_FFF0, [false; 4]),
    ];
    for (word, set) in rows {
        assert!(rt; Psl(word).codes() == codes(set), "{word:X}");
    }
}

#[test]
fn codes_are_replaced(rt: HostRuntime) {
    let rows = [
        (0xFFFF_FFFF, [true, false, true, false], 0xFFFF_FFFA),
        (0x03C0_00EA, [false, false, false, true], 0x03C0_00E1),
        (0, [false, true, false, false], 4),
    ];
    for (word, set, want) in rows {
        assert!(rt; Psl(word).with_codes(codes(set)) == Psl(want), "{word:X}");
    }
}

#[test]
fn cores_are_compared(rt: HostRuntime) {
    let start = Core {
        regs: [0; 16],
        psl: Psl(0),
        stacks: [0; 5],
        sisr: 0,
        iccs: 0,
        clock: 0,
    };
    let mut other = start;
    assert!(rt; other == start);
    other.regs[15] = 0x200;
    assert!(rt; other != start);
}
