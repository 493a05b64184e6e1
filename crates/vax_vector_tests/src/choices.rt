//! Which steps rest on what the architecture leaves to a machine.
use std::alloc::Global;
use std::test::Fail;
use vax_vector_runs::Workbench;
use vax_vectors::{Cell, Page, Start, lies_in, rests_on_choice, within};
use vax_word::{Core, Psl};

/// An instruction at 200 (hexadecimal) with R1 to R3, over pages of which these are absent.
#[derive(Clone, Copy)]
struct Row {
    bytes: [u8; 8],
    registers: [u32; 3],
    absent: Option<u32>,
    by_choice: bool,
}

/// Pages from 200 to 7FF (hexadecimal), and the system control block.
static PAGES: [Page; 4] = [
    Page { number: 1, prot: 4 },
    Page { number: 2, prot: 4 },
    Page { number: 3, prot: 4 },
    Page {
        number: 0x40_0000,
        prot: 4,
    },
];

static ROWS: [Row; 9] = [
    // MOVTC #2,(R1),#0,(R2),#2,(R3): the destination lies in the table, which leaves the result open
    Row {
        bytes: [0x2E, 0x02, 0x61, 0x00, 0x62, 0x02, 0x63, 0],
        registers: [0x400, 0x480, 0x500],
        absent: None,
        by_choice: true,
    },
    // the same with the destination behind the table
    Row {
        bytes: [0x2E, 0x02, 0x61, 0x00, 0x62, 0x02, 0x63, 0],
        registers: [0x400, 0x480, 0x590],
        absent: None,
        by_choice: false,
    },
    // EDIV #1,(R1),(R2),(R3): neither result may be written
    Row {
        bytes: [0x7B, 0x01, 0x61, 0x62, 0x63, 0, 0, 0],
        registers: [0x400, 0x1010, 0x2010],
        absent: None,
        by_choice: true,
    },
    // the same with both
    Row {
        bytes: [0x7B, 0x01, 0x61, 0x62, 0x63, 0, 0, 0],
        registers: [0x400, 0x500, 0x510],
        absent: None,
        by_choice: false,
    },
    // MOVL (R1),(R2): the result may not be written
    Row {
        bytes: [0xD0, 0x61, 0x62, 0, 0, 0, 0, 0],
        registers: [0x400, 0x1010, 0],
        absent: None,
        by_choice: false,
    },
    // MATCHC #1,(R1),#4,(R2): found at the first place
    Row {
        bytes: [0x39, 0x01, 0x61, 0x04, 0x62, 0, 0, 0],
        registers: [0x400, 0x500, 0],
        absent: None,
        by_choice: false,
    },
    // the same with the page absent in which both strings are
    Row {
        bytes: [0x39, 0x01, 0x61, 0x04, 0x62, 0, 0, 0],
        registers: [0x400, 0x500, 0],
        absent: Some(2),
        by_choice: true,
    },
    // MATCHC #1,(R1),#40,(R2): a third page comes in, before which a part ends
    Row {
        bytes: [0x39, 0x01, 0x61, 0x28, 0x62, 0, 0, 0],
        registers: [0x210, 0x5F0, 0],
        absent: None,
        by_choice: true,
    },
    // MOVL (R1),(R2) with the page of (R1) absent
    Row {
        bytes: [0xD0, 0x61, 0x62, 0, 0, 0, 0, 0],
        registers: [0x400, 0x610, 0],
        absent: Some(2),
        by_choice: false,
    },
];

/// Kernel mode at the instruction, with a kernel stack up to 7F0 (hexadecimal).
fn core_of(row: Row) -> Core {
    let mut core = Core {
        regs: [0; 16],
        psl: Psl(0x001F_0000),
        stacks: [0; 5],
        sisr: 0,
        iccs: 0,
        clock: 0,
    };
    core.regs[1] = row.registers[0];
    core.regs[2] = row.registers[1];
    core.regs[3] = row.registers[2];
    core.regs[14] = 0x7F0;
    core.regs[15] = 0x200;
    core
}

/// The instruction's bytes, and a byte at 210 (hexadecimal) that no string here has.
fn ram_of(alloc: Global, row: Row) -> Result<Vec<Cell>, Fail> {
    let mut ram = Vec::new(alloc);
    let mut addr = 0x200u32;
    for byte in row.bytes {
        ram.push(Cell { addr, byte })?;
        addr = addr.wrapping_add(1);
    }
    ram.push(Cell {
        addr: 0x210,
        byte: 0x41,
    })?;
    Ok(ram)
}

fn by_choice(alloc: Global, bench: &mut Workbench, row: Row) -> Result<bool, Fail> {
    let mut absent = Vec::new(alloc);
    if let Some(page) = row.absent {
        absent.push(page)?;
    }
    let start = Start {
        core: core_of(row),
        pages: Vec::from_array(alloc, PAGES)?,
        absent,
        ram: ram_of(alloc, row)?,
    };
    let told = bench.vector_of(Vec::new(alloc), start)?;
    Ok(rests_on_choice(&told))
}

#[test]
fn steps_that_rest_on_a_choice_are_told(rt: HostRuntime) -> Result<(), Fail> {
    let alloc = rt.alloc();
    let mut bench = Workbench::new(alloc, &PAGES)?;
    let mut number = 0u32;
    for row in ROWS {
        let is = by_choice(alloc, &mut bench, row)?;
        assert_eq!(rt; is, row.by_choice, "row {number}");
        number = number.wrapping_add(1);
    }
    Ok(())
}

#[test]
fn bytes_of_pages_that_there_are_stay(rt: HostRuntime) -> Result<(), Fail> {
    let alloc = rt.alloc();
    let places = [0x1FFu32, 0x200, 0x7FF, 0x800, 0x8000_01FF, 0x8000_0200];
    let mut ram = Vec::new(alloc);
    for addr in places {
        ram.push(Cell { addr, byte: 7 })?;
    }
    let kept = within(alloc, &PAGES, &ram)?;
    let mut left = Vec::new(alloc);
    for cell in &kept {
        left.push(cell.addr)?;
    }
    assert_eq!(rt; left.as_slice(), [0x200, 0x7FF, 0x8000_01FF].as_slice());
    assert!(rt; !lies_in(&PAGES, 0x3892_1BE3));
    Ok(())
}
