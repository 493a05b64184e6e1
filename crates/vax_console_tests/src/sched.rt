//! Schedules by the rules of their lines.
use std::test::Fail;
use vax_sched::{SchedError, Schedule, Target, read};
use vax_space::{Area, Bytes, Space};

/// A space with two pages, at 80000200 and 80000400.
fn space(rt: &HostRuntime) -> Result<Space, Fail> {
    let mut areas = Vec::new(rt.alloc());
    areas.push(Area {
        first: 0x40_0001,
        pages: 2,
        prot: 4,
        bytes: Bytes::from(Vec::new(rt.alloc())),
    })?;
    Ok(Space::new(rt.alloc(), areas)?)
}

/// A line that is blank, a comment, CR before LF, more than one space, both letter cases, and no LF at the end.
const TEXT: &[u8] = b"at 2 80000200\r\n; evict\n \t\neach  3   all\nat 6 80000400\neach 2 80000400";

fn read_text(rt: &HostRuntime) -> Result<Schedule, Fail> {
    Ok(read(rt.alloc(), TEXT, &space(rt)?)?)
}

#[test]
fn tells_what_is_due(rt: HostRuntime) -> Result<(), Fail> {
    let schedule = read_text(&rt)?;
    let first = Some(Target::Page(0x40_0001));
    let second = Some(Target::Page(0x40_0002));
    let rows = [
        (1, [None, None, None, None]),
        (2, [first, second, None, None]),
        (3, [Some(Target::All), None, None, None]),
        (6, [second, Some(Target::All), second, None]),
        (7, [None, None, None, None]),
    ];
    for (turn, targets) in rows {
        for (place, target) in targets.iter().enumerate() {
            assert!(rt; schedule.due(turn, place as u32) == *target);
        }
        // all of them in one walk
        let mut due = schedule.targets(turn);
        for target in targets {
            assert!(rt; due.next() == target);
        }
        assert!(rt; due.next().is_none());
    }
    Ok(())
}

#[test]
fn tells_quiet_turns(rt: HostRuntime) -> Result<(), Fail> {
    let schedule = read_text(&rt)?;
    for (turn, gap) in [(1, 1), (2, 0), (5, 1), (7, 1), (10, 0)] {
        assert!(rt; schedule.quiet(turn) == gap);
    }
    let none = Schedule::new(rt.alloc());
    assert!(rt; none.quiet(1) == u64::MAX - 1);
    assert!(rt; none.due(1, 0) == None);
    Ok(())
}

#[test]
fn prints_its_lines(rt: HostRuntime) -> Result<(), Fail> {
    let text = read_text(&rt)?.print(rt.alloc())?;
    assert!(rt;
        text.as_slice() == b"at 2 80000200\neach 3 all\nat 6 80000400\neach 2 80000400\n".as_slice()
    );
    let every = read(rt.alloc(), b"each 4 all", &space(&rt)?)?;
    let text = every.print(rt.alloc())?;
    assert!(rt; text.as_slice() == b"each 4 all\n".as_slice());
    Ok(())
}

/// The fault of a text: its line and kind, and 0 and 0 where it has none.
fn fault(rt: &HostRuntime, text: &[u8]) -> Result<(u32, u8), Fail> {
    if text.len() > 1000 {
        return Ok((0, 0));
    }
    match read(rt.alloc(), text, &space(rt)?) {
        Ok(_) => Ok((0, 0)),
        Err(SchedError::Fault { line, kind }) => Ok((line, kind)),
        Err(SchedError::NoMemory) => Ok((0, 9)),
    }
}

#[test]
fn tells_the_first_fault(rt: HostRuntime) -> Result<(), Fail> {
    let rows = [
        ("", 0, 0),
        ("at 1000000000000000 80000400\neach 1000000000 all\n", 0, 0),
        ("at 5 80000200\nat 5 80000400\nat 4 80000200", 3, 3),
        ("at 1 00000000", 1, 2),
        ("each 1 80000600\nat 1", 1, 2),
        ("at 5 80000200\nat 4 00000000", 2, 2),
        ("at 0 80000200", 1, 1),
        ("at 01 80000200", 1, 1),
        ("at 1000000000000001 80000200", 1, 1),
        ("each 1000000001 all", 1, 1),
        ("at 1 all", 1, 1),
        ("at 1 80000201", 1, 1),
        ("at 1 8000020", 1, 1),
        ("AT 1 80000200", 1, 1),
        (" at 1 80000200", 1, 1),
        ("at 1 80000200 ", 1, 1),
        ("at 1 80000200\r", 1, 1),
        ("at 1 80000200 ; late\n", 1, 1),
        ("; at\n\nat\t1 80000200", 3, 1),
    ];
    for (text, line, kind) in rows {
        assert!(rt; fault(&rt, text.as_bytes())? == (line, kind), "{text}");
    }
    Ok(())
}
