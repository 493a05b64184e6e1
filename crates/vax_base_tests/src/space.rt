//! Protections and spaces, with the values of the manual's table and of ranges worked by hand.
use std::alloc::{AllocError, Global};
use std::process::Abort;
use std::test::Fail;
use vax_space::*;

/// What kernel, executive, supervisor and user mode may do, by protection code, as the manual's table has it:
/// `W` read and write, `R` read, `-` nothing.
const MANUAL: [&[u8; 4]; 16] = [
    b"----", b"----", b"W---", b"R---", b"WWWW", b"WW--", b"WR--", b"RR--", b"WWW-", b"WWR-",
    b"WRR-", b"RRR-", b"WWWR", b"WWRR", b"WRRR", b"RRRR",
];

#[test]
fn protection_table(rt: HostRuntime) {
    for prot in 0..16u8 {
        for mode in 0..4u8 {
            let right = MANUAL[prot as usize][mode as usize];
            let may_read = allows(prot, mode, Access::Read);
            let may_write = allows(prot, mode, Access::Write);
            assert!(rt; may_read == (right != b'-'), "code {prot} mode {mode}");
            assert!(rt; may_write == (right == b'W'), "code {prot} mode {mode}");
        }
    }
}

fn area(alloc: Global, first: u32, pages: u32, prot: u8, bytes: &[u8]) -> Result<Area, AllocError> {
    let bytes = bytes.to_vec(alloc)?;
    Ok(Area {
        first,
        pages,
        prot,
        bytes: Bytes::from(bytes),
    })
}

/// One page at each edge of each region: UW and UR in P0, KW and UW in P1, KW and URKW in the system region.
fn edges(alloc: Global) -> Result<Space, Fail> {
    let mut areas = Vec::new(alloc);
    areas.push(area(alloc, 0, 1, 4, &[1, 2, 3])?)?;
    areas.push(area(alloc, 0x7FFF, 1, 15, &[])?)?;
    areas.push(area(alloc, 0x3F8000, 1, 2, &[])?)?;
    areas.push(area(alloc, 0x3FFFFF, 1, 4, &[])?)?;
    areas.push(area(alloc, 0x400000, 1, 2, &[])?)?;
    areas.push(area(alloc, 0x400FFF, 1, 14, &[9])?)?;
    Ok(Space::new(alloc, areas)?)
}

const KERNEL: u8 = 0;

const USER: u8 = 3;

fn bad(addr: u32, length: bool, write: bool) -> Result<(), Violation> {
    Err(Violation {
        addr,
        length,
        write,
    })
}

/// What a check answers, by address, length, whether the mode is user or kernel, and access.
fn test_checks(
    rt: &impl Abort,
    space: &Space,
    rows: &[(u32, u32, bool, Access, Result<(), Violation>)],
) {
    for (addr, len, user, access, want) in rows {
        let mode = if *user { USER } else { KERNEL };
        let answer = space.check(*addr, *len, mode, *access);
        assert!(rt; answer == *want, "at {addr:X}");
    }
}

#[test]
fn edges_of_p0(rt: HostRuntime) -> Result<(), Fail> {
    let rows = [
        (0, 512, true, Access::Write, Ok(())),
        (0, 513, true, Access::Write, bad(0x200, false, true)),
        (0x1FF, 2, false, Access::Read, bad(0x200, false, false)),
        (0x205, 1, false, Access::Read, bad(0x205, false, false)),
        (0xFFFE00, 512, true, Access::Read, Ok(())),
        (0xFFFE01, 4, true, Access::Write, bad(0xFFFE01, false, true)),
        (0xFFFFFF, 2, true, Access::Read, bad(0x1000000, true, false)),
        (
            0x1000000,
            1,
            false,
            Access::Write,
            bad(0x1000000, true, true),
        ),
        (
            0x3FFFFFFF,
            1,
            false,
            Access::Read,
            bad(0x3FFFFFFF, true, false),
        ),
    ];
    test_checks(&rt, &edges(rt.alloc())?, &rows);
    Ok(())
}

#[test]
fn edges_of_p1(rt: HostRuntime) -> Result<(), Fail> {
    let rows = [
        (
            0x40000000,
            1,
            false,
            Access::Read,
            bad(0x40000000, true, false),
        ),
        (
            0x7EFFFFFF,
            2,
            false,
            Access::Read,
            bad(0x7EFFFFFF, true, false),
        ),
        (0x7F000000, 512, false, Access::Write, Ok(())),
        (
            0x7F000000,
            1,
            true,
            Access::Read,
            bad(0x7F000000, false, false),
        ),
        (
            0x7F0001FF,
            2,
            false,
            Access::Read,
            bad(0x7F000200, false, false),
        ),
        (0x7FFFFE00, 512, true, Access::Write, Ok(())),
        (
            0x7FFFFFFF,
            2,
            true,
            Access::Read,
            bad(0x80000000, false, false),
        ),
        (0x7FFFFFFF, 2, false, Access::Write, Ok(())),
    ];
    test_checks(&rt, &edges(rt.alloc())?, &rows);
    Ok(())
}

#[test]
fn edges_of_the_system_region(rt: HostRuntime) -> Result<(), Fail> {
    let rows = [
        (0x80000000, 512, false, Access::Write, Ok(())),
        (
            0x800001FE,
            3,
            false,
            Access::Write,
            bad(0x80000200, false, true),
        ),
        (0x801FFE00, 512, true, Access::Read, Ok(())),
        (
            0x801FFE00,
            1,
            true,
            Access::Write,
            bad(0x801FFE00, false, true),
        ),
        (
            0x801FFFFF,
            2,
            true,
            Access::Read,
            bad(0x80200000, false, false),
        ),
        (
            0x8023FFFF,
            1,
            false,
            Access::Read,
            bad(0x8023FFFF, false, false),
        ),
        (
            0x80240000,
            1,
            false,
            Access::Read,
            bad(0x80240000, true, false),
        ),
        (
            0xC0000000,
            1,
            false,
            Access::Write,
            bad(0xC0000000, true, true),
        ),
        (
            0xFFFFFFFF,
            2,
            false,
            Access::Read,
            bad(0xFFFFFFFF, true, false),
        ),
        (0xFFFFFFFF, 0, true, Access::Write, Ok(())),
    ];
    test_checks(&rt, &edges(rt.alloc())?, &rows);
    Ok(())
}

#[test]
fn no_area_in_a_region(rt: HostRuntime) -> Result<(), Fail> {
    let space = Space::new(rt.alloc(), Vec::new(rt.alloc()))?;
    let rows = [
        (0, 1, false, Access::Read, bad(0, true, false)),
        (
            0x7FFFFFFF,
            1,
            false,
            Access::Read,
            bad(0x7FFFFFFF, true, false),
        ),
        (
            0x80000000,
            1,
            false,
            Access::Read,
            bad(0x80000000, false, false),
        ),
    ];
    test_checks(&rt, &space, &rows);
    assert!(rt; space.areas().len() == 0);
    assert!(rt; space.p0_end() == 0);
    assert!(rt; space.p1_start() == 0x400000);
    Ok(())
}

#[test]
fn long_ranges(rt: HostRuntime) -> Result<(), Fail> {
    let alloc = rt.alloc();
    let mut areas = Vec::new(alloc);
    areas.push(area(alloc, 16, 64, 4, &[])?)?;
    areas.push(area(alloc, 80, 64, 15, &[])?)?;
    let space = Space::new(alloc, areas)?;
    let rows = [
        (0x2000, 65536, true, Access::Read, Ok(())),
        (0x2001, 65536, true, Access::Read, bad(0x12000, true, false)),
        (0x2001, 65536, true, Access::Write, bad(0xA000, false, true)),
        (0x2200, 65536, true, Access::Read, bad(0x12000, true, false)),
    ];
    test_checks(&rt, &space, &rows);
    Ok(())
}

#[test]
fn pages(rt: HostRuntime) -> Result<(), Fail> {
    let space = edges(rt.alloc())?;
    // page, protection, block; no mode may write page 7FFF
    let rows = [
        (0, Some(4), Some(0)),
        (1, None, None),
        (0x7FFF, Some(15), None),
        (0x3F8000, Some(2), Some(1)),
        (0x3FFFFF, Some(4), Some(2)),
        (0x400000, Some(2), Some(3)),
        (0x400FFF, Some(14), Some(4)),
        (0x401000, None, None),
        (0xFFFFFFFF, None, None),
    ];
    for (page, prot, block) in rows {
        assert!(rt; space.prot_of(page) == prot, "page {page:X}");
        assert!(rt; space.block_of(page) == block, "page {page:X}");
    }
    let bytes = [
        (0, 2, Some(3)),
        (0, 3, Some(0)),
        (0, 511, Some(0)),
        (0, 512, None),
        (1, 0, None),
        (0x400FFF, 0, Some(9)),
    ];
    for (page, offset, byte) in bytes {
        assert!(rt; space.initial(page, offset) == byte, "page {page:X}");
    }
    let first = space.area_of(0x3FFFFF).map(|area| area.first);
    assert!(rt; first == Some(0x3FFFFF));
    assert!(rt; space.p0_end() == 0x8000);
    assert!(rt; space.p1_start() == 0x3F8000);
    Ok(())
}

/// The answer for a second area, behind one of pages 8 to 11.
fn answer(
    alloc: Global,
    first: u32,
    pages: u32,
    prot: u8,
    bytes: &[u8],
) -> Result<Option<SpaceError>, Fail> {
    let mut areas = Vec::new(alloc);
    areas.push(area(alloc, 8, 4, 15, &[])?)?;
    areas.push(area(alloc, first, pages, prot, bytes)?)?;
    Ok(Space::new(alloc, areas).err())
}

#[test]
fn refusals(rt: HostRuntime) -> Result<(), Fail> {
    let alloc = rt.alloc();
    let long = vec![in alloc; 7; 1025]?;
    // first page, pages, protection, whether it has 1,025 bytes
    let rows = [
        (12, 1, 2, false, None),
        (11, 0, 1, false, Some(SpaceError::Order(1))),
        (12, 0, 1, false, Some(SpaceError::Range(1))),
        (12, 2, 1, true, Some(SpaceError::Prot(1))),
        (12, 2, 16, false, Some(SpaceError::Prot(1))),
        (12, 2, 0, true, Some(SpaceError::Length(1))),
        (12, 3, 0, true, None),
        (0x7FFF, 1, 2, false, None),
        (0x7FFF, 2, 2, false, Some(SpaceError::Range(1))),
        (0x3F7FFF, 2, 2, false, Some(SpaceError::Range(1))),
        (0x3F8000, 0x8000, 2, false, None),
        (0x3FFFFF, 2, 2, false, Some(SpaceError::Range(1))),
        (0x400000, 0x1000, 2, false, None),
        (0x400FFF, 2, 2, false, Some(SpaceError::Range(1))),
        (0xFFFFFFFF, 0xFFFFFFFF, 2, false, Some(SpaceError::Range(1))),
    ];
    for (first, pages, prot, filled, want) in rows {
        let bytes = if filled { long.as_slice() } else { &[] };
        let found = answer(alloc, first, pages, prot, bytes)?;
        assert!(rt; found == want, "first page {first:X}");
    }
    Ok(())
}

#[test]
fn bytes_are_kept(rt: HostRuntime) -> Result<(), Fail> {
    let bytes = Bytes::from([4, 5].to_vec(rt.alloc())?);
    assert!(rt; bytes.as_slice() == [4, 5].as_slice());
    Ok(())
}
