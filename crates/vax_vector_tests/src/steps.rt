//! Single steps, told whole.
use std::alloc::Global;
use std::test::Fail;
use vax_flat::Ending;
use vax_vector_runs::Workbench;
use vax_vectors::{Cell, Ends, Page, Start, Vector, push_vector};
use vax_word::{Core, Psl};

/// Kernel mode, with these registers 1 to 3 and PC.
fn core_with(first: u32, second: u32, third: u32, pc: u32) -> Core {
    let mut core = Core {
        regs: [0; 16],
        psl: Psl(0x001F_0000),
        stacks: [0, 1, 2, 3, 4],
        sisr: 0,
        iccs: 0,
        clock: 0,
    };
    core.regs[1] = first;
    core.regs[2] = second;
    core.regs[3] = third;
    core.regs[15] = pc;
    core
}

/// Bytes from an address on.
fn put(ram: &mut Vec<Cell>, addr: u32, bytes: &[u8]) -> Result<(), Fail> {
    let mut at = addr;
    for byte in bytes {
        ram.push(Cell {
            addr: at,
            byte: *byte,
        })?;
        at = at.wrapping_add(1);
    }
    Ok(())
}

/// The vector of an instruction's first part over three pages from 200 (hexadecimal) on, which every mode may write.
fn vector(alloc: Global, core: Core, ram: Vec<Cell>, absent: Vec<u32>) -> Result<Vector, Fail> {
    let pages = [
        Page { number: 1, prot: 4 },
        Page { number: 2, prot: 4 },
        Page { number: 3, prot: 4 },
    ];
    let start = Start {
        core,
        pages: Vec::from_array(alloc, pages)?,
        absent,
        ram,
    };
    let mut bench = Workbench::new(alloc, &pages)?;
    Ok(bench.vector_of(b"name \"1\"".to_vec(alloc)?, start)?)
}

/// MOVL (R1),(R2) over the end of its source's page.
fn move_across(alloc: Global, absent: Vec<u32>) -> Result<Vector, Fail> {
    let mut ram = Vec::new(alloc);
    put(&mut ram, 0x200, &[0xD0, 0x61, 0x62])?;
    put(&mut ram, 0x5FE, &[1, 2, 3, 0x84])?;
    vector(alloc, core_with(0x5FE, 0x210, 0, 0x200), ram, absent)
}

#[test]
fn a_move_is_told_whole(rt: HostRuntime) -> Result<(), Fail> {
    let alloc = rt.alloc();
    let told = move_across(alloc, Vec::new(alloc))?;
    let mut text = Vec::new(alloc);
    push_vector(&mut text, &told)?;
    let expected =
        b"{\"name\":\"name ?1?\",\"initial\":{\"regs\":[0,1534,528,0,0,0,0,0,0,0,0,0,0,0,0,512],\"psl\":2031616,\
\"stacks\":[0,1,2,3,4],\"sisr\":0,\"iccs\":0,\"clock\":0,\"pages\":[[512,4],[1024,4],[1536,4]],\"absent\":[],\
\"ram\":[[512,208],[513,97],[514,98],[1534,1],[1535,2],[1536,3],[1537,132]]},\
\"final\":{\"regs\":[0,1534,528,0,0,0,0,0,0,0,0,0,0,0,0,515],\"psl\":2031624,\
\"stacks\":[0,1,2,3,4],\"sisr\":0,\"iccs\":0,\"clock\":0,\
\"ram\":[[512,208],[513,97],[514,98],[528,1],[529,2],[530,3],[531,132],[1534,1],[1535,2],[1536,3],[1537,132]]},\
\"touched\":[512,1024,1536],\"accesses\":[[\"r\",512,1,[208]],[\"r\",513,1,[97]],[\"r\",1534,4,[1,2,3,132]],[\"r\",514,1,[98]],\
[\"w\",528,4,[1,2,3,132]]],\"ends\":[\"step\"],\"profile\":false}\n";
    assert_eq!(rt; text.as_slice(), expected.as_slice());
    Ok(())
}

#[test]
fn an_absent_page_changes_nothing(rt: HostRuntime) -> Result<(), Fail> {
    let alloc = rt.alloc();
    let told = move_across(alloc, Vec::from_array(alloc, [3, 2])?)?;
    assert!(rt; told.end.ends == Ends::Absent(2));
    assert!(rt; told.end.core == told.start.core);
    assert!(rt; told.end.ram.is_empty() && told.end.touches.is_empty());
    Ok(())
}

#[test]
fn a_part_of_a_string_instruction(rt: HostRuntime) -> Result<(), Fail> {
    let alloc = rt.alloc();
    // MOVC3 #600,(R1),(R2), which no part completes
    let mut ram = Vec::new(alloc);
    put(&mut ram, 0x200, &[0x28, 0x8F, 0x58, 0x02, 0x61, 0x62])?;
    let told = vector(
        alloc,
        core_with(0x380, 0x410, 0, 0x200),
        ram,
        Vec::new(alloc),
    )?;
    let Ends::Part { opcode, units } = told.end.ends else {
        return Err(Fail::from("no part"));
    };
    assert!(rt; opcode == 0x28);
    assert!(rt; 0 < units && units < 600, "units {units}");
    assert!(rt; told.end.core.psl == Psl(0x081F_0000));
    Ok(())
}

#[test]
fn a_halt_ends_the_run(rt: HostRuntime) -> Result<(), Fail> {
    let alloc = rt.alloc();
    let told = vector(
        alloc,
        core_with(0, 0, 0, 0x200),
        Vec::new(alloc),
        Vec::new(alloc),
    )?;
    assert!(rt; told.end.ends == Ends::Ended(Ending::Halt));
    assert_eq!(rt; told.touched.as_slice(), [1].as_slice());
    Ok(())
}
