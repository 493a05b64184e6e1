//! Machines over page files in memory. Expected values are worked by hand.
use std::alloc::Global;
use std::process::Abort;
use std::test::Fail;
use vax_flat::Ending;
use vax_machine::{Applied, Event, Limits, RunEnd};
use vax_outside::{Chan, MemPages, MemSink};
use vax_sched::{Schedule, read};
use vax_test_machines::{MOVES, machine, machine_over, pages, run_up};

/// Runs the program to its end, with so many attempts and so many evictions of pinned pages.
fn run_program<R: Abort>(
    rt: &R,
    alloc: Global,
    schedule: &Schedule,
    turns: u64,
    spoiled: u64,
) -> Result<(), Fail> {
    let mut machine = machine(alloc, &MOVES)?;
    let mut file = MemPages::new(alloc, 8, 100, Vec::new(alloc))?;
    let mut sink = MemSink::new(alloc, [100; 3], 100, Vec::new(alloc))?;
    let end = run_up(&mut machine, schedule, &mut file, &mut sink);
    assert!(rt; end == RunEnd::Ended(Ending::Halt));
    assert!(rt; [machine.steps(), machine.turns(), machine.spoiled()] == [3, turns, spoiled]);
    assert!(rt; machine.core().regs.get(1) == Some(&0x89AB_CDEF));
    assert!(rt; [machine.units(), machine.taken()] == [0, 0]);
    assert!(rt; sink.bytes(Chan::Out).is_empty());
    Ok(())
}

#[test]
fn runs_to_an_ending(rt: HostRuntime) -> Result<(), Fail> {
    let alloc = rt.alloc();
    run_program(&rt, alloc, &Schedule::new(alloc), 5, 0)?;
    let evicting = read(alloc, b"at 3 00000000\n", &pages(alloc, 8, &[])?)?;
    run_program(&rt, alloc, &evicting, 6, 1)
}

#[test]
fn events_one_by_one(rt: HostRuntime) -> Result<(), Fail> {
    let alloc = rt.alloc();
    // NOP, MOVB #1,@#600 and HALT.
    let mut machine = machine(alloc, &[1, 0x90, 1, 0x9F, 0, 6, 0, 0, 0])?;
    let mut file = MemPages::new(alloc, 8, 100, Vec::new(alloc))?;
    let rows = [
        (Event::Serve, Applied::Nothing),
        (Event::Attempt, Applied::Absent(0)),
        (Event::Serve, Applied::Served(None)),
        (Event::Serve, Applied::Nothing),
        (Event::Attempt, Applied::Stepped(None)),
        (Event::Attempt, Applied::Absent(3)),
        (Event::Evict(3), Applied::Nothing),
        (Event::Evict(0), Applied::Evicted),
        (Event::Serve, Applied::Served(None)),
        (Event::Attempt, Applied::Absent(0)),
        (Event::Serve, Applied::Served(None)),
        (Event::Attempt, Applied::Stepped(None)),
        (Event::Flush(3), Applied::Flushed),
        (Event::Flush(3), Applied::Nothing),
        (Event::Attempt, Applied::Ended(Ending::Halt)),
        (Event::Attempt, Applied::Ended(Ending::Halt)),
    ];
    for (event, answer) in rows {
        assert!(rt; machine.apply(event, &mut file) == answer);
    }
    assert!(rt; [machine.steps(), machine.turns(), machine.counts().written] == [3, 6, 1]);
    assert!(rt; machine.ended() == Some(Ending::Halt));
    assert!(rt; machine.peek(0x600, &mut file) == Ok(Some(1)));
    assert!(rt; machine.next_flush().is_none());
    Ok(())
}

/// Behind each step the page that has been modified longest is written to its block; the run goes as it goes without.
#[test]
fn flushes_behind_each_step(rt: HostRuntime) -> Result<(), Fail> {
    let alloc = rt.alloc();
    let mut machine = machine(alloc, &MOVES)?;
    let mut file = MemPages::new(alloc, 8, 100, Vec::new(alloc))?;
    for _ in 0..8 {
        match machine.apply(Event::Attempt, &mut file) {
            Applied::Absent(_) => {
                assert!(rt; machine.apply(Event::Serve, &mut file) == Applied::Served(None));
            }
            Applied::Stepped(_) => {
                if let Some(page) = machine.next_flush() {
                    assert!(rt; machine.apply(Event::Flush(page), &mut file) == Applied::Flushed);
                }
                assert!(rt; machine.next_flush().is_none());
            }
            _ => {}
        }
    }
    assert!(rt; machine.ended() == Some(Ending::Halt));
    assert!(rt; [machine.steps(), machine.turns(), machine.counts().written] == [3, 5, 1]);
    assert!(rt; machine.core().regs.get(1) == Some(&0x89AB_CDEF));
    Ok(())
}

/// With no page left before each attempt no step is completed, and each turn but the first takes a pinned page away.
#[test]
fn spends_turns_on_pinned_pages(rt: HostRuntime) -> Result<(), Fail> {
    let alloc = rt.alloc();
    let mut machine = machine(alloc, &MOVES)?;
    let schedule = read(alloc, b"each 1 all\n", &pages(alloc, 8, &[])?)?;
    let mut file = MemPages::new(alloc, 8, 100, Vec::new(alloc))?;
    let mut sink = MemSink::new(alloc, [2000; 3], 100, Vec::new(alloc))?;
    let end = run_up(&mut machine, &schedule, &mut file, &mut sink);
    assert!(rt; end == RunEnd::Turns);
    assert!(rt; [machine.steps(), machine.turns(), machine.spoiled()] == [0, 100, 99]);
    Ok(())
}

#[test]
fn lists_evictions(rt: HostRuntime) -> Result<(), Fail> {
    let alloc = rt.alloc();
    // MOVL #5,R1 and HALT; every page is made absent before the second and the fourth attempt.
    let mut machine = machine(alloc, &[0xD0, 5, 0x51, 0])?;
    let schedule = read(alloc, b"each 2 all\n", &pages(alloc, 8, &[])?)?;
    let mut file = MemPages::new(alloc, 8, 100, Vec::new(alloc))?;
    let mut sink = MemSink::new(alloc, [100; 3], 7, Vec::new(alloc))?;
    let end = run_up(&mut machine, &schedule, &mut file, &mut sink);
    assert!(rt; end == RunEnd::Ended(Ending::Halt));
    assert!(rt; [machine.turns(), machine.counts().written] == [5, 0]);
    assert!(rt; sink.bytes(Chan::Record) == b"at 2 00000000\nat 4 00000000\n".as_slice());
    Ok(())
}

/// Pages 0, 5 and 2 are served in this order and go in that of their addresses.
#[test]
fn evicts_in_the_order_of_pages(rt: HostRuntime) -> Result<(), Fail> {
    let alloc = rt.alloc();
    // MOVB #1,@#A00, MOVB #1,@#400 and HALT; all pages are made absent before the sixth attempt.
    let program = [0x90, 1, 0x9F, 0, 10, 0, 0, 0x90, 1, 0x9F, 0, 4, 0, 0, 0];
    let mut machine = machine(alloc, &program)?;
    let schedule = read(alloc, b"each 6 all\n", &pages(alloc, 8, &[])?)?;
    let mut file = MemPages::new(alloc, 8, 100, Vec::new(alloc))?;
    let mut sink = MemSink::new(alloc, [100; 3], 100, Vec::new(alloc))?;
    let end = run_up(&mut machine, &schedule, &mut file, &mut sink);
    assert!(rt; end == RunEnd::Ended(Ending::Halt));
    assert!(rt; [machine.counts().evicted, machine.counts().written] == [3, 2]);
    let record = b"at 6 00000000\nat 6 00000400\nat 6 00000A00\n";
    assert!(rt; sink.bytes(Chan::Record) == record.as_slice());
    Ok(())
}

#[test]
fn writes_what_makes_room(rt: HostRuntime) -> Result<(), Fail> {
    let alloc = rt.alloc();
    // MOVC5 #0,@#0,#1,#35840,@#400 fills pages 2 to 71; then MOVB #2,@#400 and HALT.
    let program = [
        0x2C, 0, 0x9F, 0, 0, 0, 0, 1, 0x8F, 0, 0x8C, 0x9F, 0, 4, 0, 0, 0x90, 2, 0x9F, 0, 4, 0, 0, 0,
    ];
    let mut machine = machine_over(alloc, pages(alloc, 128, &program)?)?;
    let mut file = MemPages::new(alloc, 128, 300, Vec::new(alloc))?;
    let mut sink = MemSink::new(alloc, [3000; 3], 100, Vec::new(alloc))?;
    let limits = Limits {
        steps: 100,
        turns: 1000,
        listed: true,
    };
    let end = machine.run(&limits, &Schedule::new(alloc), &mut file, &mut sink);
    assert!(rt; end == RunEnd::Ended(Ending::Halt));
    // Page 0 and 70 pages come, then page 0 again, which made room, and page 2. So 9 make room; page 0 isn't written, since nothing was written to it.
    let counts = machine.counts();
    assert!(rt; [counts.served, counts.evicted] == [73, 9]);
    assert!(rt; file.writes().len() == 8);
    for (_, block) in file.writes() {
        assert!(rt; [block[0], block[511]] == [1, 1]);
    }
    // `at 132 00000000` and the like.
    assert!(rt; sink.bytes(Chan::Record).len() == 9 * 16);
    Ok(())
}
