//! Memory as it is plainly kept, and transactions that are kept and undone.
use std::alloc::{AllocError, Global};
use std::process::Abort;
use std::test::Fail;
use vax_space::{Access, Area, Bytes, Space, Violation};
use vax_undo::{Log, Plain, Port, Stop, Term, Txn};
use vax_word::{Core, Psl};

const KERNEL: u8 = 0;

const USER: u8 = 3;

/// User read and write.
const UW: u8 = 4;

fn area(alloc: Global, first: u32, pages: u32, prot: u8, bytes: &[u8]) -> Result<Area, AllocError> {
    let bytes = bytes.to_vec(alloc)?;
    Ok(Area {
        first,
        pages,
        prot,
        bytes: Bytes::from(bytes),
    })
}

/// Pages 1 and 2, which every mode may write, and page 4, which kernel mode may write. Address 200 (hexadecimal) begins with 1, 2, 3.
fn memory(alloc: Global) -> Result<Plain, Fail> {
    let mut areas = Vec::new(alloc);
    areas.push(area(alloc, 1, 2, UW, &[1, 2, 3])?)?;
    areas.push(area(alloc, 4, 1, 2, &[9])?)?;
    Ok(Plain::new(alloc, Space::new(alloc, areas)?)?)
}

fn core() -> Core {
    Core {
        regs: [7; 16],
        psl: Psl(0x041F_0000),
        stacks: [10, 11, 12, 13, 14],
        sisr: 2,
        iccs: 0x41,
        clock: 5,
    }
}

/// What reads of so many bytes give.
fn test_reads(rt: &impl Abort, memory: &mut Plain, rows: &[(u32, u32, u8, Result<u64, Stop>)]) {
    for (addr, n, mode, want) in rows {
        assert!(rt; *n >= 1 && *n <= 8 && *mode <= 3, "{addr:X}");
        assert!(rt; memory.read(*addr, *n, *mode) == *want, "{addr:X}");
    }
}

/// What bytes there are, whoever asks.
fn test_bytes(rt: &impl Abort, memory: &Plain, rows: &[(u32, Option<u8>)]) {
    for (addr, byte) in rows {
        assert!(rt; memory.byte(*addr) == *byte, "{addr:X}");
    }
}

#[test]
fn memory_at_the_start(rt: HostRuntime) -> Result<(), Fail> {
    let mut memory = memory(rt.alloc())?;
    let reads = [
        (0x200, 4, USER, Ok(0x0003_0201)),
        (0x201, 2, USER, Ok(0x0302)),
        (0x200, 3, USER, Ok(0x03_0201)),
        (0x5F8, 8, USER, Ok(0)),
        (0x800, 1, KERNEL, Ok(9)),
    ];
    test_reads(&rt, &mut memory, &reads);
    test_bytes(
        &rt,
        &memory,
        &[(0x202, Some(3)), (0x600, None), (0x1FF, None)],
    );
    Ok(())
}

#[test]
fn numbers_in_memory(rt: HostRuntime) -> Result<(), Fail> {
    let mut memory = memory(rt.alloc())?;
    for (addr, n, value) in [
        (0x210, 1, 0xA1),
        (0x213, 2, 0xB2B1),
        (0x221, 3, 0xC3_C2C1),
        (0x231, 4, 0xD4D3_D2D1),
        (0x3FD, 4, 0xE4E3_E2E1),
        (0x3FB, 8, 0xF8F7_F6F5_F4F3_F2F1),
        (0x241, 8, 0x1817_1615_1413_1211),
        (0x261, 5, 0x25_2423_2221),
    ] {
        let old = memory.read(addr, n, USER);
        assert!(rt; memory.write(addr, n, value, USER) == old, "at {addr:X}");
        assert!(rt; memory.read(addr, n, USER) == Ok(value), "at {addr:X}");
    }
    let bytes = [(0x3FF, Some(0xF5)), (0x400, Some(0xF6)), (0x224, Some(0))];
    test_bytes(&rt, &memory, &bytes);
    Ok(())
}

#[test]
fn absent_pages(rt: HostRuntime) -> Result<(), Fail> {
    let mut memory = memory(rt.alloc())?;
    memory.hide(2);
    assert!(rt; memory.write(0x3FE, 4, 0x1111_1111, USER) == Err(Stop::NotResident(2)));
    test_bytes(&rt, &memory, &[(0x3FE, Some(0)), (0x3FF, Some(0))]);
    let absent = Err(Stop::NotResident(2));
    let reads = [(0x3FE, 4, USER, absent), (0x400, 4, USER, absent)];
    test_reads(&rt, &mut memory, &reads);
    assert!(rt; memory.write_run(0x400, &[1], USER) == Err(Stop::NotResident(2)));
    memory.hide(1);
    assert!(rt; memory.read(0x3FE, 4, USER) == Err(Stop::NotResident(1)));
    memory.show(2);
    memory.show(1);
    memory.show(3);
    let violation = Violation {
        addr: 0x600,
        length: false,
        write: false,
    };
    let reads = [
        (0x200, 4, USER, Ok(0x0003_0201)),
        (0x3FE, 4, USER, Ok(0)),
        (0x600, 1, USER, Err(Stop::Violated(violation))),
    ];
    test_reads(&rt, &mut memory, &reads);
    memory.hide(4);
    let violation = Violation {
        addr: 0x800,
        length: false,
        write: true,
    };
    assert!(rt; memory.write(0x800, 1, 0, USER) == Err(Stop::Violated(violation)));
    assert!(rt; memory.check(0x800, 1, USER, Access::Write) == Err(violation));
    assert!(rt; memory.check(0x800, 1, KERNEL, Access::Write) == Ok(()));
    Ok(())
}

#[test]
#[tactic(auto, unfolding(vax_undo::specs::FirstPart::first_part_done))]
fn changes_are_kept(rt: HostRuntime) -> Result<(), Fail> {
    let mut core = core();
    let mut term = Term::new(b"hi".to_vec(rt.alloc())?);
    let mut memory = memory(rt.alloc())?;
    let mut log = Log::new();
    let mut txn = Txn::begin(&mut core, &mut term, &mut memory, &mut log);
    txn.emit(b'!');
    txn.set_reg(3, 70);
    txn.set_psl(Psl(8));
    txn.set_stack(4, 71);
    txn.set_sisr(72);
    txn.set_iccs(73);
    txn.set_clock(74);
    assert!(rt; (txn.reg(3), txn.reg(2), txn.psl(), txn.stack(4)) == (70, 7, Psl(8), 71));
    assert!(rt; txn.registers() == &[7, 7, 7, 70, 7, 7, 7, 7, 7, 7, 7, 7, 7, 7, 7, 7][..]);
    assert!(rt; (txn.sisr(), txn.iccs(), txn.clock()) == (72, 73, 74));
    assert!(rt; txn.check(0x800, 1, USER, Access::Read).is_err());
    assert!(rt; txn.write(0x3FE, 4, 0x4433_2211, USER) == Ok(()));
    assert!(rt; txn.read(0x3FF, 2, USER) == Ok(0x3322));
    let mut bytes = [0; 3];
    assert!(rt; txn.read_run(0x200, &mut bytes, USER) == Ok(()));
    assert!(rt; bytes == [1, 2, 3]);
    assert!(rt; txn.write_run(0x402, &[5, 6], USER) == Ok(()));
    assert!(rt; txn.commit() == Some(b'!'));
    assert!(rt; (core.regs[3], core.psl, core.stacks[4], core.clock) == (70, Psl(8), 71, 74));
    assert!(rt; memory.read(0x3FE, 8, USER) == Ok(0x0605_4433_2211));
    assert!(rt; term.out == None);
    Ok(())
}

#[test]
fn a_part_is_kept(rt: HostRuntime) -> Result<(), Fail> {
    let start = core();
    let mut core = core();
    let mut term = Term::new(Vec::new(rt.alloc()));
    let mut memory = memory(rt.alloc())?;
    let mut log = Log::new();
    let mut txn = Txn::begin(&mut core, &mut term, &mut memory, &mut log);
    txn.set_reg(3, 70);
    txn.set_reg(3, 71);
    txn.set_reg(15, 72);
    txn.leave_open(Psl(0x0800_0008));
    txn.set_stack(4, 73);
    txn.set_sisr(74);
    txn.set_iccs(75);
    txn.set_clock(76);
    assert!(rt; txn.write_run(0x402, &[5, 6], USER) == Ok(()));
    assert!(rt; txn.commit_part() == start);
    assert!(rt;
        (core.regs[3], core.regs[15], core.psl, core.stacks[4]) == (71, 72, Psl(0x0800_0008), 73)
    );
    assert!(rt; memory.read(0x402, 2, USER) == Ok(0x0605));
    Ok(())
}

#[test]
fn input_is_taken(rt: HostRuntime) -> Result<(), Fail> {
    let mut core = core();
    let mut term = Term::new(b"h".to_vec(rt.alloc())?);
    let mut memory = memory(rt.alloc())?;
    let mut log = Log::new();
    let mut txn = Txn::begin(&mut core, &mut term, &mut memory, &mut log);
    let first = txn.take();
    let second = txn.take();
    assert!(rt; (first, second) == (Some(b'h'), None));
    assert!(rt; txn.commit() == None);
    assert!(rt; term.place == 1);
    Ok(())
}

#[test]
#[tactic(auto, unfolding(vax_undo::specs::FirstPart::first_part_done))]
fn changes_are_undone(rt: HostRuntime) -> Result<(), Fail> {
    let mut core = core();
    let mut term = Term::new(b"hi".to_vec(rt.alloc())?);
    let mut memory = memory(rt.alloc())?;
    let mut log = Log::new();
    let mut txn = Txn::begin(&mut core, &mut term, &mut memory, &mut log);
    txn.emit(b'!');
    txn.set_reg(3, 70);
    txn.set_reg(3, 71);
    txn.set_psl(Psl(8));
    txn.set_stack(4, 71);
    txn.set_sisr(72);
    txn.set_iccs(73);
    txn.set_clock(74);
    assert!(rt; txn.write(0x1FF, 4, 1, USER).is_err());
    assert!(rt; txn.write(0x3FE, 4, 0x4433_2211, USER) == Ok(()));
    assert!(rt; txn.write(0x3FF, 1, 0x55, USER) == Ok(()));
    assert!(rt; txn.write(0x200, 8, 0x1111_1111_1111_1111, USER) == Ok(()));
    txn.unwind();
    assert!(rt; core.regs == [7; 16]);
    assert!(rt; (core.psl, core.stacks, core.sisr) == (Psl(0x041F_0000), [10, 11, 12, 13, 14], 2));
    assert!(rt; (core.iccs, core.clock, term.out, term.place) == (0x41, 5, None, 0));
    let reads = [(0x3FE, 4, USER, Ok(0)), (0x200, 8, USER, Ok(0x0003_0201))];
    test_reads(&rt, &mut memory, &reads);
    Ok(())
}
