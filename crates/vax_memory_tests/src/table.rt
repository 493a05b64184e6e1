//! Page tables over spaces, and the frames that they remember.
use std::alloc::Global;
use std::test::Fail;
use vax_space::{Area, Bytes, Space};
use vax_table::*;

fn area(alloc: Global, first: u32, pages: u32, prot: u8) -> Area {
    Area {
        first,
        pages,
        prot,
        bytes: Bytes::from(Vec::new(alloc)),
    }
}

/// P0 has pages 0 and 1 (UW) and 200 to 2FF (hexadecimal, UR), P1 its last 3 pages (KW), and the system region its
/// first (KW) and its last page (URKW).
fn space(alloc: Global) -> Result<Space, Fail> {
    let mut areas = Vec::new(alloc);
    areas.push(area(alloc, 0, 2, 4))?;
    areas.push(area(alloc, 0x200, 0x100, 15))?;
    areas.push(area(alloc, 0x3FFFFD, 3, 2))?;
    areas.push(area(alloc, 0x400000, 1, 2))?;
    areas.push(area(alloc, 0x400FFF, 1, 14))?;
    Ok(Space::new(alloc, areas)?)
}

const PAST: Walk = Walk::Outside { length: true };

const GAP: Walk = Walk::Outside { length: false };

fn absent(prot: u8) -> Walk {
    Walk::Absent { prot }
}

fn resident(frame: u32, prot: u8, modified: bool) -> Walk {
    Walk::Resident {
        frame,
        prot,
        modified,
    }
}

#[test]
fn new_tables(rt: HostRuntime) -> Result<(), Fail> {
    let tables = Tables::new(rt.alloc(), &space(rt.alloc())?)?;
    let rows = [
        (0, absent(4)),
        (1, absent(4)),
        (2, GAP),
        (0x1FF, GAP),
        (0x2FF, absent(15)),
        (0x300, PAST),
        (0x1FFFFF, PAST),
        (0x200000, PAST),
        (0x3F8000, PAST),
        (0x3FFFFC, PAST),
        (0x3FFFFD, absent(2)),
        (0x3FFFFF, absent(2)),
        (0x400000, absent(2)),
        (0x400001, GAP),
        (0x400FFF, absent(14)),
        // pages of P0's and of P1's table
        (0x401000, GAP),
        (0x4011FF, GAP),
        (0x401200, PAST),
        (0x600000, PAST),
        (0xFFFFFFFF, PAST),
    ];
    for (page, want) in rows {
        assert!(rt; tables.walk(page) == want, "page {page:X}");
    }
    Ok(())
}

/// Sets the page where an area has it.
fn set(tables: &mut Tables, page: u32, frame: u32) {
    if frame >= 32768 {
        return;
    }
    if let Walk::Outside { length: _ } = tables.walk(page) {
        return;
    }
    tables.set(page, frame);
}

/// Marks the page where it is resident.
fn mark(tables: &mut Tables, page: u32) {
    if let Walk::Resident {
        frame: _,
        prot: _,
        modified: _,
    } = tables.walk(page)
    {
        tables.mark(page);
    }
}

/// Clears the page where an area has it.
fn clear(tables: &mut Tables, page: u32) {
    if let Walk::Outside { length: _ } = tables.walk(page) {
        return;
    }
    tables.clear(page);
}

/// Keeps the page's frame where it is resident.
fn keep(tables: &mut Tables, page: u32) {
    if let Walk::Resident {
        frame: _,
        prot: _,
        modified: _,
    } = tables.walk(page)
    {
        tables.keep(page);
    }
}

#[test]
fn kept_frames(rt: HostRuntime) -> Result<(), Fail> {
    let mut tables = Tables::new(rt.alloc(), &space(rt.alloc())?)?;
    set(&mut tables, 1, 7);
    mark(&mut tables, 1);
    keep(&mut tables, 1);
    set(&mut tables, 0x2FF, 0);
    keep(&mut tables, 0x2FF);
    set(&mut tables, 0x400000, 9);
    keep(&mut tables, 0x400000);
    set(&mut tables, 0x400000, 10);
    set(&mut tables, 0x3FFFFD, 5);
    keep(&mut tables, 0x3FFFFD);
    clear(&mut tables, 0x3FFFFD);
    let rows = [
        (0, None),
        (1, Some(7)),
        (2, None),
        (0x2FF, Some(0)),
        (0x3FFFFD, None),
        (0x400000, None),
        (0x401000, None),
        (0x401200, None),
    ];
    for (page, want) in rows {
        assert!(rt; tables.kept_frame(page) == want, "page {page:X}");
    }
    assert!(rt; tables.walk(1) == absent(4));
    Ok(())
}

#[test]
fn last_call_counts(rt: HostRuntime) -> Result<(), Fail> {
    let mut tables = Tables::new(rt.alloc(), &space(rt.alloc())?)?;
    set(&mut tables, 1, 7);
    set(&mut tables, 0x2FF, 0x7FFF);
    mark(&mut tables, 0x2FF);
    set(&mut tables, 0x2FF, 3);
    set(&mut tables, 0x2FE, 4);
    clear(&mut tables, 0x2FE);
    set(&mut tables, 0x3FFFFD, 5);
    mark(&mut tables, 0x3FFFFD);
    set(&mut tables, 0x3FFFFF, 6);
    set(&mut tables, 0x400000, 0);
    mark(&mut tables, 0x400000);
    set(&mut tables, 0x400FFF, 9);
    clear(&mut tables, 0x400FFF);
    let rows = [
        (0, absent(4)),
        (1, resident(7, 4, false)),
        (2, GAP),
        (0x2FE, absent(15)),
        (0x2FF, resident(3, 15, false)),
        (0x3FFFFD, resident(5, 2, true)),
        (0x3FFFFE, absent(2)),
        (0x3FFFFF, resident(6, 2, false)),
        (0x400000, resident(0, 2, true)),
        (0x400FFF, absent(14)),
        (0x401000, GAP),
    ];
    for (page, want) in rows {
        assert!(rt; tables.walk(page) == want, "page {page:X}");
    }
    Ok(())
}

/// The largest space: all 69,632 pages.
#[test]
fn largest_space(rt: HostRuntime) -> Result<(), Fail> {
    let alloc = rt.alloc();
    let mut areas = Vec::new(alloc);
    areas.push(area(alloc, 0, 0x8000, 4))?;
    areas.push(area(alloc, 0x3F8000, 0x8000, 8))?;
    areas.push(area(alloc, 0x400000, 0x1000, 2))?;
    let mut tables = Tables::new(alloc, &Space::new(alloc, areas)?)?;
    for (page, frame) in [
        (0, 1),
        (0x7FFF, 2),
        (0x3F8000, 3),
        (0x3FFFFF, 4),
        (0x400FFF, 5),
    ] {
        set(&mut tables, page, frame);
    }
    let rows = [
        (0, resident(1, 4, false)),
        (0x7FFF, resident(2, 4, false)),
        (0x8000, PAST),
        (0x3F7FFF, PAST),
        (0x3F8000, resident(3, 8, false)),
        (0x3FFFFF, resident(4, 8, false)),
        (0x400FFF, resident(5, 2, false)),
        (0x401000, GAP),
    ];
    for (page, want) in rows {
        assert!(rt; tables.walk(page) == want, "page {page:X}");
    }
    Ok(())
}

/// P0's second entry, at 80200004, lies in the wired memory right behind the system page table's 18,432 bytes and P0's
/// first entry.
#[test]
fn real_entries(rt: HostRuntime) -> Result<(), Fail> {
    let mut tables = Tables::new(rt.alloc(), &space(rt.alloc())?)?;
    set(&mut tables, 1, 0x1234);
    mark(&mut tables, 1);
    Ok(())
}
