//! Parts of a page file in memory. Expected values are worked by hand.
use std::test::Fail as TestFail;
use vax_outside::{Failed, MemPages, PageFile};
use vax_window::Window;

#[test]
fn numbers_blocks_from_its_first(rt: HostRuntime) -> Result<(), TestFail> {
    let alloc = rt.alloc();
    let mut pages = MemPages::new(alloc, 4, 4, Vec::new(alloc))?;
    let mut window = Window::new(&mut pages, 3);
    assert!(rt; window.write_block(0, &[7; 512]) == Ok(()));
    assert!(rt; window.write_block(1, &[8; 512]) == Err(Failed));
    window.close();
    let mut bytes = [0; 512];
    assert!(rt; pages.read_block(3, &mut bytes) == Ok(()) && bytes == [7; 512]);
    assert!(rt; pages.writes() == [(3, [7u8; 512])].as_slice());
    Ok(())
}

#[test]
fn numbers_wrap(rt: HostRuntime) -> Result<(), TestFail> {
    let alloc = rt.alloc();
    let mut pages = MemPages::new(alloc, 2, 4, Vec::new(alloc))?;
    let mut window = Window::new(&mut pages, 0xFFFF_FFFF);
    assert!(rt; window.write_block(2, &[5; 512]) == Ok(()));
    assert!(rt; window.write_block(0, &[6; 512]) == Err(Failed));
    let mut bytes = [0; 512];
    assert!(rt; window.read_block(2, &mut bytes) == Ok(()) && bytes == [5; 512]);
    window.close();
    assert!(rt; pages.writes() == [(1, [5u8; 512])].as_slice());
    Ok(())
}
