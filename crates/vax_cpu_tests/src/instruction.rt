//! Instructions one by one, with operands at the edges of each size. The expected values follow the manual's rules
//! (VAX MACRO and Instruction Set Reference Manual, instruction descriptions).
use std::alloc::Global;
use std::process::Abort;
use std::test::Fail;
use vax_cpu::execute;
use vax_flat::{Cut, Exception, Flow};
use vax_space::{Area, Bytes, Space, Violation};
use vax_undo::{Log, Plain, Term, Txn};
use vax_word::{Core, Psl};
use vax_x_str::Scratch;

/// Where the bytes of a row's data begin; its code begins at 0.
const DATA: usize = 0x400;

/// An instruction at address 0, what it begins with, and what it leaves.
struct Row {
    name: &'static str,
    code: &'static [u8],
    /// R1, R2, R3, R4 and SP, the processor status longword, and the bytes of the data.
    before: [u32; 5],
    psl: u32,
    data: &'static [u8],
    after: [u32; 5],
    psl_after: u32,
    data_after: &'static [u8],
    pc: u32,
    flow: Flow,
}

macro_rules! row {
    ($name:literal $code:expr, $before:expr, psl $psl:literal; $after:expr, psl $psl_after:literal, pc $pc:literal) => {
        row!(@ $name $code, $before, $psl, &[]; $after, $psl_after, $pc, &[], Flow::Done)
    };
    ($name:literal $code:expr, $before:expr, psl $psl:literal; $after:expr, psl $psl_after:literal, pc $pc:literal, trap $trap:ident) => {
        row!(@ $name $code, $before, $psl, &[]; $after, $psl_after, $pc, &[], Flow::Trap(vax_flat::Trap::$trap))
    };
    ($name:literal $code:expr, $before:expr, psl $psl:literal, data $data:expr; $after:expr, psl $psl_after:literal, pc $pc:literal, data $data_after:expr) => {
        row!(@ $name $code, $before, $psl, &$data; $after, $psl_after, $pc, &$data_after, Flow::Done)
    };
    (@ $name:literal $code:expr, $before:expr, $psl:literal, $data:expr; $after:expr, $psl_after:literal, $pc:literal, $data_after:expr, $flow:expr) => {
        Row {
            name: $name,
            code: &$code,
            before: $before,
            psl: $psl,
            data: $data,
            after: $after,
            psl_after: $psl_after,
            data_after: $data_after,
            pc: $pc,
            flow: $flow,
        }
    };
}

mod branches;
mod logic;
mod loops;
mod moves;
mod products;
mod sums;

/// Eight pages from address 0 on that every mode may write, with a row's code and data.
fn memory(alloc: Global, row: &Row) -> Result<Plain, Fail> {
    let mut bytes = Vec::new(alloc);
    bytes.extend_from_slice(row.code)?;
    bytes.resize(DATA, 0)?;
    bytes.extend_from_slice(row.data)?;
    let mut areas = Vec::new(alloc);
    areas.push(Area {
        first: 0,
        pages: 8,
        prot: 4,
        bytes: Bytes::from(bytes),
    })?;
    Ok(Plain::new(alloc, Space::new(alloc, areas)?)?)
}

/// R1 to R4 and SP.
fn some_registers(core: &Core) -> [u32; 5] {
    let regs = &core.regs;
    [regs[1], regs[2], regs[3], regs[4], regs[14]]
}

/// Whether the data lies in memory.
fn has_data(port: &Plain, data: &[u8]) -> bool {
    let mut addr = DATA as u32;
    for byte in data {
        if port.byte(addr) != Some(*byte) {
            return false;
        }
        addr = addr.wrapping_add(1);
    }
    true
}

/// What an instruction left: how it went, the registers, PC, the status longword, and whether the data are those of the row.
type Left = (Option<Flow>, [u32; 5], u32, Psl, bool);

fn left_by(alloc: Global, row: &Row) -> Result<Left, Fail> {
    let mut port = memory(alloc, row)?;
    let [r1, r2, r3, r4, sp] = row.before;
    let mut core = Core {
        regs: [0, r1, r2, r3, r4, 0, 0, 0, 0, 0, 0, 0, 0, 0, sp, 0],
        psl: Psl(row.psl),
        stacks: [0; 5],
        sisr: 0,
        iccs: 0,
        clock: 0,
    };
    let mut term = Term::new(Vec::new(alloc));
    let mut log = Log::new();
    let mut txn = Txn::begin(&mut core, &mut term, &mut port, &mut log);
    let mut other = Ok(Flow::Done);
    let flow = if execute(&mut txn, &mut other, &mut Scratch::new()) {
        Some(Flow::Done)
    } else {
        other.ok()
    };
    let _ = txn.commit();
    Ok((
        flow,
        some_registers(&core),
        core.regs[15],
        core.psl,
        has_data(&port, row.data_after),
    ))
}

fn expected(row: &Row) -> Left {
    (Some(row.flow), row.after, row.pc, Psl(row.psl_after), true)
}

fn compare(rt: &impl Abort, alloc: Global, rows: &[Row]) -> Result<(), Fail> {
    for row in rows {
        assert!(rt; left_by(alloc, row)? == expected(row), "{}", row.name);
    }
    Ok(())
}

#[test]
fn sums_and_differences(rt: HostRuntime) -> Result<(), Fail> {
    compare(&rt, rt.alloc(), &sums::ROWS)
}

#[test]
fn products_and_quotients(rt: HostRuntime) -> Result<(), Fail> {
    compare(&rt, rt.alloc(), &products::ROWS)
}

#[test]
fn logic_and_comparisons(rt: HostRuntime) -> Result<(), Fail> {
    compare(&rt, rt.alloc(), &logic::ROWS)
}

#[test]
fn moves_shifts_and_addresses(rt: HostRuntime) -> Result<(), Fail> {
    compare(&rt, rt.alloc(), &moves::ROWS)
}

#[test]
fn branches_and_subroutines(rt: HostRuntime) -> Result<(), Fail> {
    compare(&rt, rt.alloc(), &branches::ROWS)
}

#[test]
fn loops_and_cases(rt: HostRuntime) -> Result<(), Fail> {
    compare(&rt, rt.alloc(), &loops::ROWS)
}

/// An instruction, where it begins, R1, R2 and SP, and the exception that it raises.
struct Fault {
    code: &'static [u8],
    pc: u32,
    registers: [u32; 3],
    raises: Exception,
}

macro_rules! violated {
    ($addr:literal, $write:literal) => {
        Exception::Access(Violation { addr: $addr, length: false, write: $write })
    };
}

static FAULTS: [Fault; 5] = [
    // EDIV #2,R3,(R1),#5: a quotient that may not be written is found behind a reserved specifier
    Fault {
        code: &[0x7B, 2, 0x53, 0x61, 5],
        pc: 0,
        registers: [0x1000, 0, 0x410],
        raises: Exception::Mode,
    },
    // EDIV #2,R3,(R1),(R2), neither of which may be written
    Fault {
        code: &[0x7B, 2, 0x53, 0x61, 0x62],
        pc: 0,
        registers: [0x1000, 0x1004, 0x410],
        raises: violated!(0x1000, true),
    },
    // INCL (R2), which may neither be read nor written
    Fault {
        code: &[0xD6, 0x62],
        pc: 0,
        registers: [0, 0x1200, 0x410],
        raises: violated!(0x1200, true),
    },
    // AOBLSS #5,(R1), of which the displacement can't be read
    Fault {
        code: &[],
        pc: 0x11FD,
        registers: [0x1000, 0, 0x410],
        raises: violated!(0x1000, true),
    },
    // PUSHL (R2), which can't be read, on a stack that can't be written
    Fault {
        code: &[0xDD, 0x62],
        pc: 0,
        registers: [0, 0x1200, 0x1004],
        raises: violated!(0x1200, false),
    },
];

fn area(alloc: Global, first: u32, pages: u32, prot: u8, bytes: &[u8]) -> Result<Area, Fail> {
    Ok(Area {
        first,
        pages,
        prot,
        bytes: Bytes::from(bytes.to_vec(alloc)?),
    })
}

/// Pages 0 to 7, which every mode may write, page 8, which it may read alone, and page 9, which none may use. The code is at 0, and at the end of
/// page 8.
fn guarded_memory(alloc: Global, code: &[u8]) -> Result<Plain, Fail> {
    let mut end = [0; 512];
    end[509..].copy_from_slice(&[0xF2, 5, 0x61]);
    let mut areas = Vec::new(alloc);
    areas.push(area(alloc, 0, 8, 4, code)?)?;
    areas.push(area(alloc, 8, 1, 15, &end)?)?;
    areas.push(area(alloc, 9, 1, 0, &[])?)?;
    Ok(Plain::new(alloc, Space::new(alloc, areas)?)?)
}

fn raised_by(alloc: Global, fault: &Fault) -> Result<Option<Cut>, Fail> {
    let [r1, r2, sp] = fault.registers;
    let mut port = guarded_memory(alloc, fault.code)?;
    let mut core = Core {
        regs: [0, r1, r2, 7, 0, 0, 0, 0, 0, 0, 0, 0, 0, 0, sp, fault.pc],
        psl: Psl(0x03C0_0000),
        stacks: [0; 5],
        sisr: 0,
        iccs: 0,
        clock: 0,
    };
    let mut term = Term::new(Vec::new(alloc));
    let mut log = Log::new();
    let mut txn = Txn::begin(&mut core, &mut term, &mut port, &mut log);
    let mut other = Ok(Flow::Done);
    let why = if execute(&mut txn, &mut other, &mut Scratch::new()) || other.is_ok() {
        None
    } else {
        Some(txn.why())
    };
    let _ = txn.commit();
    Ok(why)
}

#[test]
fn faults_in_their_order(rt: HostRuntime) -> Result<(), Fail> {
    for fault in &FAULTS {
        let why = raised_by(rt.alloc(), fault)?;
        assert!(rt; why == Some(Cut::Event(fault.raises)));
    }
    Ok(())
}
