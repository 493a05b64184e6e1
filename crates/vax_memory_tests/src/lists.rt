//! One test of each call.
ghost use Rattle.std.specs.Prelude.{◌≡◌};

use std::alloc::AllocError;
use std::test::Fail;
use vax_lists::{Lists, Placed};
use vax_outside::{Failed, MemPages};
use vax_space::NoMemory;

/// A page in its frame.
#[inline]
fn item(page: u32, frame: u32) -> Placed
    ensures { result ≡ record { page = page; frame = frame } }
{
    Placed { page, frame }
}

/// Five pages come and two go: what stands first is the one that came first.
#[test]
#[tactic(auto, unfolding(vax_lists::specs::Lines::frame_in, vax_lists::specs::Lines::without))]
fn order(rt: HostRuntime) -> Result<(), Fail> {
    let mut lists = Lists::new(rt.alloc(), 64)?;
    assert!(rt; lists.first() == None);
    lists.serve(item(7, 0));
    lists.serve(item(5, 63));
    lists.serve(item(9, 1));
    lists.give_up(item(7, 0));
    assert!(rt; lists.first().map(|placed| placed.page) == Some(5));
    lists.keep(item(5, 63));
    assert!(rt; lists.first().map(|placed| placed.page) == Some(9));
    assert!(rt; lists.oldest().map(|placed| placed.page) == Some(5));
    lists.take_back(item(5, 63));
    assert!(rt; lists.is_among_last(item(5, 63), 1));
    assert!(rt; !lists.is_among_last(item(9, 1), 1));
    Ok(())
}

#[test]
#[tactic(auto, unfolding(vax_lists::specs::Lines::frame_in, vax_lists::specs::Lines::without))]
fn kept_and_modified(rt: HostRuntime) -> Result<(), Fail> {
    let mut lists = Lists::new(rt.alloc(), 64)?;
    let mut file = MemPages::new(rt.alloc(), 4, 4, Vec::new(rt.alloc()))?;
    lists.serve(item(8, 3));
    lists.keep(item(8, 3));
    lists.serve(item(4, 2));
    lists.touch(item(4, 2));
    assert!(rt; lists.kept() == 1);
    assert!(rt; lists.oldest().map(|placed| placed.frame) == Some(3));
    assert!(rt; lists.next_modified() == Some(4));
    assert!(rt; lists.write_one(item(4, 2), 1, &[9; 512], &mut file).is_ok());
    assert!(rt; lists.next_modified() == None);
    assert!(rt; file.writes().len() == 1);
    lists.touch(item(4, 2));
    lists.clean(item(4, 2));
    lists.forget(item(8, 3));
    assert!(rt; lists.kept() == 0);
    Ok(())
}
