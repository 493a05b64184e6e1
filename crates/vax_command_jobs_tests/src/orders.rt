//! Programs that take turns in an order. Expected values are those of a run of one of them alone, or worked by hand.
use crate::calls::{Left, call};
use std::alloc::Global;
use std::process::Abort;
use std::test::Fail;

/// The reports on two programs, each of which is the one that a run of it alone writes.
fn reports(alloc: Global, alone: &[u8]) -> Result<Vec<u8>, Fail> {
    let mut text = Vec::new(alloc);
    for label in ["JOB 1\n", "JOB 2\n"] {
        text.extend_from_slice(label.as_bytes())?;
        text.extend_from_slice(alone)?;
    }
    Ok(text)
}

/// Two programs that count six words each.
fn two_in(alloc: Global, order: &[u8]) -> Result<Left, Fail> {
    call(alloc, "jobs W W --input I --order O", order)
}

#[test]
fn each_makes_an_attempt_in_turn(rt: HostRuntime) -> Result<(), Fail> {
    let alloc = rt.alloc();
    let alone = call(alloc, "run W --input I", b"")?;
    assert!(rt; alone.code == 0 && alone.out() == b"6\n".as_slice());
    assert!(rt; alone.report().starts_with(b"ENDING HALT\n"));
    assert!(rt; alone.report().ends_with(b"INPUT 23\n"));
    let together = call(alloc, "jobs W W --input I", b"")?;
    assert!(rt; together.code == 0 && together.out() == b"66\n\n".as_slice());
    assert!(rt; together.report() == reports(alloc, alone.report())?.as_slice());
    let ordered = two_in(alloc, b"; in turn\n\n1 1\n2 1\n")?;
    assert!(rt; ordered.code == 0 && ordered.out() == b"66\n\n".as_slice());
    assert!(rt; ordered.report() == together.report());
    Ok(())
}

#[test]
fn the_order_says_who_goes(rt: HostRuntime) -> Result<(), Fail> {
    let alloc = rt.alloc();
    let alone = call(alloc, "run W --input I", b"")?;
    let expected = reports(alloc, alone.report())?;
    let orders: [&[u8]; 4] = [
        b"1 1000000\n2 1\n",
        b"2 1000000000\n1 1\n",
        b"1 1000000\n2 1000000",
        b"1 1000000\r\n\t\r\n2 7\r\n",
    ];
    for order in orders {
        let left = two_in(alloc, order)?;
        assert!(rt; left.code == 0 && left.out() == b"6\n6\n".as_slice());
        assert!(rt; left.report() == expected.as_slice());
    }
    Ok(())
}

#[test]
fn one_program_reports_as_alone(rt: HostRuntime) -> Result<(), Fail> {
    let alloc = rt.alloc();
    let alone = call(alloc, "run W --input I", b"")?;
    let job = call(alloc, "jobs W --input I --pool 64", b"")?;
    assert!(rt; job.code == 0 && job.out() == alone.out());
    let mut expected = Vec::new(alloc);
    expected.extend_from_slice(b"JOB 1\n")?;
    expected.extend_from_slice(alone.report())?;
    assert!(rt; job.report() == expected.as_slice());
    Ok(())
}

/// The first has no steps left before the second has gone.
#[test]
fn limits_stop_them(rt: HostRuntime) -> Result<(), Fail> {
    let alloc = rt.alloc();
    let steps = call(
        alloc,
        "jobs W W --input I --order O --steps 20",
        b"1 500\n2 1\n",
    )?;
    assert!(rt; steps.code == 0 && steps.out() == b"".as_slice());
    assert!(rt;
        steps
            .report()
            .starts_with(b"JOB 1\nENDING STEPS\nSTEPS 20\n")
    );
    let turns = call(
        alloc,
        "jobs W W --input I --order O --turns 1",
        b"1 500\n2 1\n",
    )?;
    assert!(rt; turns.code == 8 && turns.out() == b"".as_slice());
    assert!(rt;
        turns
            .report()
            .starts_with(b"JOB 1\nENDING TURNS\nSTEPS 0\n")
    );
    let ended = call(
        alloc,
        "jobs W W --input I --order O --turns 500",
        b"1 900\n2 1\n",
    )?;
    assert!(rt; ended.code == 8 && ended.out() == b"6\n".as_slice());
    assert!(rt; ended.report().starts_with(b"JOB 1\nENDING HALT\n"));
    Ok(())
}
