//! What is shown of machines over page files in memory, and changed in them. Expected values are worked by hand.
use std::alloc::Global;
use std::process::Abort;
use std::test::Fail;
use vax_flat::Ending;
use vax_machine::{Applied, Event, Machine, RunEnd};
use vax_outside::{MemPages, MemSink};
use vax_pager::PageFault;
use vax_sched::{Schedule, read};
use vax_test_machines::{MOVES, machine, machine_over, pages, run_up};
use vax_undo::Term;

#[test]
fn changes_registers(rt: HostRuntime) -> Result<(), Fail> {
    let alloc = rt.alloc();
    let mut machine = machine(alloc, &MOVES)?;
    if !machine.is_open() {
        machine.set_reg(3, 0xCAFE);
    }
    assert!(rt; machine.core().regs.get(3) == Some(&0xCAFE));
    Ok(())
}

/// Changes two bytes; no string instruction is open.
fn change(
    machine: &mut Machine,
    addr: u32,
    bytes: &[u8; 2],
    file: &mut MemPages,
) -> Result<bool, PageFault> {
    if machine.is_open() {
        return Ok(false);
    }
    machine.poke(addr, bytes, file)
}

/// Writes to pages 1 to 64, so that no other page has a frame; the answer tells whether each write was made.
fn fill_frames(machine: &mut Machine, file: &mut MemPages) -> bool {
    let mut filled = true;
    for page in 1..65u32 {
        filled = change(machine, page * 512, &[9, 9], file) == Ok(true) && filled;
    }
    filled
}

#[test]
fn shows_and_changes(rt: HostRuntime) -> Result<(), Fail> {
    let alloc = rt.alloc();
    let mut machine = machine(alloc, &MOVES)?;
    let mut file = MemPages::new(alloc, 8, 100, Vec::new(alloc))?;
    assert!(rt; change(&mut machine, 0x3FF, &[1, 2], &mut file) == Ok(true));
    assert!(rt; change(&mut machine, 0xFFF, &[5, 6], &mut file) == Ok(false));
    let mut cells = [None; 3];
    assert!(rt; machine.dump(0x3FE, &mut cells, &mut file) == Ok(()));
    assert!(rt; cells == [Some(0), Some(1), Some(2)]);
    assert!(rt; machine.dump(0xFFE, &mut cells, &mut file) == Ok(()));
    assert!(rt; cells == [Some(0), Some(0), None]);
    Ok(())
}

/// A machine whose page 0 begins with two bytes 7 and has no frame, with a page file of which one later call fails.
fn without_frame(
    alloc: Global,
    fail: vax_outside::Fail,
) -> Result<(Machine, MemPages, bool), Fail> {
    let mut machine = machine_over(alloc, pages(alloc, 128, &[])?)?;
    let mut fails = Vec::new(alloc);
    fails.push(fail)?;
    let mut file = MemPages::new(alloc, 128, 300, fails)?;
    let changed = change(&mut machine, 0, &[7, 7], &mut file) == Ok(true);
    let evicted = machine.apply(Event::Evict(0), &mut file) == Applied::Evicted;
    let filled = fill_frames(&mut machine, &mut file);
    Ok((machine, file, changed && evicted && filled))
}

#[test]
fn shows_nothing_where_a_read_fails(rt: HostRuntime) -> Result<(), Fail> {
    let (mut machine, mut file, fine) = without_frame(rt.alloc(), vax_outside::Fail::Read(1))?;
    assert!(rt; fine);
    let mut cells = [None; 2];
    assert!(rt; machine.dump(0, &mut cells, &mut file) == Err(PageFault));
    assert!(rt; machine.dump(0, &mut cells, &mut file) == Ok(()));
    assert!(rt; cells == [Some(7), Some(7)]);
    Ok(())
}

/// A change of page 0 fails and changes nothing; it is made later.
fn fails_once<R: Abort>(rt: &R, alloc: Global, fail: vax_outside::Fail) -> Result<(), Fail> {
    let (mut machine, mut file, fine) = without_frame(alloc, fail)?;
    assert!(rt; fine);
    assert!(rt; change(&mut machine, 0, &[8, 8], &mut file) == Err(PageFault));
    assert!(rt; machine.peek(0, &mut file) == Ok(Some(7)));
    assert!(rt; change(&mut machine, 0, &[8, 8], &mut file) == Ok(true));
    assert!(rt; machine.peek(0, &mut file) == Ok(Some(8)));
    Ok(())
}

#[test]
fn changes_nothing_where_a_call_fails(rt: HostRuntime) -> Result<(), Fail> {
    // The page's own block isn't read, or that of the page that makes room isn't written.
    fails_once(&rt, rt.alloc(), vax_outside::Fail::Read(1))?;
    fails_once(&rt, rt.alloc(), vax_outside::Fail::Write(2))
}

#[test]
fn shows_pages(rt: HostRuntime) -> Result<(), Fail> {
    let alloc = rt.alloc();
    let mut machine = machine(alloc, &MOVES)?;
    let mut file = MemPages::new(alloc, 8, 100, Vec::new(alloc))?;
    let mut sink = MemSink::new(alloc, [100; 3], 100, Vec::new(alloc))?;
    let evicting = read(alloc, b"each 2 all\n", machine.space())?;
    run_up(&mut machine, &evicting, &mut file, &mut sink);
    run_up(&mut machine, &Schedule::new(alloc), &mut file, &mut sink);
    let mut written = [0; 512];
    for (place, byte) in [0xEF, 0xCD, 0xAB, 0x89].iter().enumerate() {
        written[place] = *byte;
    }
    assert!(rt; machine.page(2, &mut file)? == Some(written));
    assert!(rt; machine.page(7, &mut file)? == Some([0; 512]));
    assert!(rt; machine.page(8, &mut file)? == None);
    Ok(())
}

/// The bytes of eight pages.
fn memory_of(alloc: Global, machine: &mut Machine, file: &mut MemPages) -> Result<Vec<u8>, Fail> {
    let mut bytes = Vec::new(alloc);
    for page in 0..8 {
        if let Some(content) = machine.page(page, file)? {
            bytes.extend_from_slice(&content)?;
        }
    }
    Ok(bytes)
}

/// Makes attempts, with the pages that they miss, until a part is completed.
fn part(machine: &mut Machine, file: &mut MemPages) -> bool {
    for _ in 0..10 {
        if machine.apply(Event::Attempt, file) == Applied::Parted {
            return true;
        }
        machine.apply(Event::Serve, file);
    }
    false
}

/// Memory that begins with NOP, MOVC3 #400,@#200,@#600 and HALT; 41 is the byte that is moved last.
fn moving(alloc: Global) -> Result<Vec<u8>, Fail> {
    let mut memory = Vec::new(alloc);
    memory.extend_from_slice(&[1, 0x28, 0x8F, 0, 4, 0x9F, 0, 2, 0, 0, 0x9F, 0, 6, 0, 0, 0])?;
    memory.resize(0x5FF, 0x40)?;
    memory.push(0x41)?;
    Ok(memory)
}

/// A machine that goes on where another stands, over these bytes.
fn again(alloc: Global, first: &Machine, bytes: &[u8]) -> Result<Machine, Fail> {
    Ok(Machine::again(
        alloc,
        pages(alloc, 8, bytes)?,
        *first.core(),
        Term::new(Vec::new(alloc)),
        first.latch().copied(),
        first.steps(),
        64,
    )?)
}

/// Runs a machine to its end, which has made one step and the first half of the second.
fn runs_on<R: Abort>(rt: &R, alloc: Global, later: &mut Machine) -> Result<(), Fail> {
    let mut file = MemPages::new(alloc, 8, 100, Vec::new(alloc))?;
    let mut sink = MemSink::new(alloc, [100; 3], 100, Vec::new(alloc))?;
    let end = run_up(later, &Schedule::new(alloc), &mut file, &mut sink);
    assert!(rt; end == RunEnd::Ended(Ending::Halt));
    assert!(rt; later.steps() == 3);
    assert!(rt; later.core().regs[..6] == [0, 0x600, 0, 0xA00, 0, 0]);
    assert!(rt; later.peek(0x9FF, &mut file)? == Some(0x41));
    Ok(())
}

#[test]
fn goes_on_inside_an_instruction(rt: HostRuntime) -> Result<(), Fail> {
    let alloc = rt.alloc();
    let mut file = MemPages::new(alloc, 8, 100, Vec::new(alloc))?;
    let mut first = machine(alloc, &moving(alloc)?)?;
    assert!(rt; part(&mut first, &mut file));
    assert!(rt; [first.units(), first.taken()] == [512, 0]);
    let now = memory_of(alloc, &mut first, &mut file)?;
    let mut later = again(alloc, &first, &now)?;
    assert!(rt; later.units() == 512);
    assert!(rt; [later.steps(), later.turns()] == [1, 0]);
    runs_on(&rt, alloc, &mut later)
}
