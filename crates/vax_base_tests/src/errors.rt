//! The texts that errors are shown with.
use std::test::Fail;
use vax_outside::{Failed, FilesFault};
use vax_space::{NoMemory, SpaceError};

#[test]
fn tells_errors(rt: HostRuntime) -> Result<(), Fail> {
    let alloc = rt.alloc();
    let rows = [
        (
            SpaceError::Order(2),
            "area 2 begins before the end of the area before it",
        ),
        (
            SpaceError::Range(0),
            "area 0 has no page, or pages outside the regions",
        ),
        (SpaceError::Prot(63), "area 63 has no valid protection code"),
        (
            SpaceError::Length(4_294_967_295),
            "area 4294967295 has more bytes than its pages hold",
        ),
        (SpaceError::NoMemory, "out of memory"),
    ];
    for (error, text) in rows {
        let shown = format!(in alloc; "{error}")?;
        assert!(rt; shown.as_str() == text, "{text}: {shown}");
    }
    let shown = format!(in alloc; "{}", NoMemory)?;
    assert!(rt; shown.as_str() == "out of memory");
    Ok(())
}

#[test]
fn tells_failed_calls(rt: HostRuntime) -> Result<(), Fail> {
    let alloc = rt.alloc();
    let rows = [
        (FilesFault::Missing, "there is no file of this name"),
        (FilesFault::Large, "the file has more bytes than the limit"),
        (FilesFault::Failed, "the file can't be read"),
        (FilesFault::NoMemory, "out of memory"),
    ];
    for (error, text) in rows {
        let shown = format!(in alloc; "{error}")?;
        assert!(rt; shown.as_str() == text, "{text}: {shown}");
    }
    let shown = format!(in alloc; "{}", Failed)?;
    assert!(rt; shown.as_str() == "a call to the outside failed");
    Ok(())
}
