//! One test of each call.
use std::alloc::{AllocError, Global};
use std::test::Fail;
use vax_space::{Access, Area, Bytes, NoMemory, Space, SpaceError};
use vax_table::{Tables, Walk};
use vax_tb::Buffer;

/// Pages 1 to 81 (hexadecimal), which kernel mode may write and any mode may read. The first and the last have one
/// place in the buffer.
fn space(alloc: Global) -> Result<Space, Fail> {
    let mut areas = Vec::new(alloc);
    areas.push(Area {
        first: 1,
        pages: 0x81,
        prot: 12,
        bytes: Bytes::from(Vec::new(alloc)),
    })?;
    Ok(Space::new(alloc, areas)?)
}

#[test]
fn calls(rt: HostRuntime) -> Result<(), Fail> {
    let tables = Tables::new(rt.alloc(), &space(rt.alloc())?)?;
    let mut buffer = Buffer::new();
    assert!(rt; buffer.walk(1, &tables) == Walk::Absent { prot: 12 });
    assert!(rt; buffer.hits() == 0);
    assert!(rt; buffer.walk(1, &tables) == Walk::Absent { prot: 12 });
    assert!(rt; buffer.hits() == 1);
    assert!(rt; buffer.walk(0x81, &tables) == Walk::Absent { prot: 12 });
    assert!(rt; buffer.walk(1, &tables) == Walk::Absent { prot: 12 });
    assert!(rt; buffer.hits() == 1);
    assert!(rt; buffer.walk(0, &tables) == Walk::Outside { length: false });
    assert!(rt; buffer.frame_at_once(1, 0, Access::Read) == None);
    Ok(())
}

/// A page that came in may be read at once, and is forgotten.
#[test]
fn at_once(rt: HostRuntime) -> Result<(), Fail> {
    let mut tables = Tables::new(rt.alloc(), &space(rt.alloc())?)?;
    if let Walk::Outside { length: _ } = tables.walk(2) {
        return Ok(());
    }
    tables.set(2, 9);
    let mut buffer = Buffer::new();
    let want = Walk::Resident {
        frame: 9,
        prot: 12,
        modified: false,
    };
    assert!(rt; buffer.walk(2, &tables) == want);
    assert!(rt; buffer.frame_at_once(2, 3, Access::Read) == Some(9));
    assert!(rt; buffer.hits() == 1);
    assert!(rt; buffer.seen_at_once(2, 3, Access::Read) == Some(9));
    assert!(rt; buffer.seen_at_once(2, 3, Access::Write) == None);
    assert!(rt; buffer.hits() == 1);
    assert!(rt; buffer.frame_at_once(2, 0, Access::Write) == None);
    assert!(rt; buffer.frame_at_once(0x82, 0, Access::Read) == None);
    buffer.forget(2);
    assert!(rt; buffer.frame_at_once(2, 3, Access::Read) == None);
    Ok(())
}
