//! Saved states with faults.
use crate::calls::{call, move_state};
use std::process::Abort;
use std::test::Fail;

/// Of its lengths each twenty-third is tried.
#[test]
fn tells_where_a_state_is_cut(rt: HostRuntime) -> Result<(), Fail> {
    let alloc = rt.alloc();
    let saved = move_state(alloc)?;
    let state = saved.state();
    let refused = call(alloc, "resume STATE", state.get(..100).unwrap_or(&[]))?;
    assert!(rt; refused.code == 14);
    assert!(rt; refused.report() == b"vax: saved place 100 fault 8\n".as_slice());
    for len in (0..state.len()).step_by(23) {
        let refused = call(alloc, "resume STATE", state.get(..len).unwrap_or(&[]))?;
        assert!(rt; refused.code == 14 && refused.report().ends_with(b" fault 8\n"));
    }
    let mut more = state.to_vec(alloc)?;
    more.push(0)?;
    let refused = call(alloc, "resume STATE", &more)?;
    assert!(rt; refused.report() == b"vax: saved place 1356 fault 9\n".as_slice());
    Ok(())
}

#[test]
fn tells_the_first_fault(rt: HostRuntime) -> Result<(), Fail> {
    let alloc = rt.alloc();
    let saved = move_state(alloc)?;
    let rows: [(usize, u8, &[u8]); 6] = [
        (0, 0, b"vax: saved place 0 fault 1\n"),
        (4, 2, b"vax: saved place 4 fault 2\n"),
        (15, 0x10, b"vax: saved place 8 fault 3\n"),
        (83, 0, b"vax: saved place 80 fault 4\n"),
        (111, 1, b"vax: saved place 110 fault 5\n"),
        (212, 1, b"vax: saved place 212 fault 6\n"),
    ];
    for (place, byte, line) in rows {
        let mut other = saved.state().to_vec(alloc)?;
        if let Some(at) = other.get_mut(place) {
            *at = byte;
        }
        let refused = call(alloc, "resume STATE", &other)?;
        assert!(rt; refused.code == 14 && refused.report() == line);
    }
    Ok(())
}

#[test]
fn tells_the_state_before_the_schedule(rt: HostRuntime) -> Result<(), Fail> {
    let alloc = rt.alloc();
    let saved = move_state(alloc)?;
    let line = "resume STATE --schedule WRONG";
    let refused = call(alloc, line, saved.state())?;
    assert!(rt;
        refused.code == 6 && refused.report() == b"vax: schedule line 1 fault 2\n".as_slice()
    );
    let refused = call(alloc, line, b"VAXT")?;
    assert!(rt;
        refused.code == 14 && refused.report() == b"vax: saved place 0 fault 1\n".as_slice()
    );
    let refused = call(alloc, "resume NONE", b"")?;
    assert!(rt; refused.code == 2 && refused.report() == b"vax: missing NONE\n".as_slice());
    Ok(())
}
