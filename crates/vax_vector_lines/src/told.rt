//! The vectors of cases.
ghost use Rattle.std.specs.Prelude.{◌≡◌, ◌++◌, List, [], IfOk, slice_index, true};
ghost use Rattle.vax_vectors.specs.declared.vector.Cell.{Cell};
ghost use Rattle.vax_vectors.specs.Choices.{opcode_of};
ghost use Rattle.vax_vectors.specs.Truth.{AreWithin, lies_in, told};
ghost use Rattle.vax_vector_runs.specs.Exact.{IsExact};
ghost use Rattle.vax_vector_lines.specs.Lines.{IsOf, IsWithout};

use std::alloc::Global;
use vax_disasm::decode;
use vax_isa::by_code;
use vax_vector_cases::{Case, start_of};
use vax_vector_runs::{NoVector, Workbench};
use vax_vectors::{Cell, Page, Start, Vector, within};
use vax_word::Core;

/// The name of an instruction of which the opcode or an operand is reserved.
fn reserved_name(alloc: Global, opcode: u8) -> Result<Vec<u8>, NoVector> {
    let mut name = Vec::new(alloc);
    if let Some(row) = by_code(opcode) {
        name.extend_from_slice(row.name.as_bytes())?;
        name.extend_from_slice(b" ")?;
    }
    name.extend_from_slice(b"reserved")?;
    Ok(name)
}

/// The instruction at PC, as the disassembler writes it.
fn name_of(alloc: Global, opcode: u8, start: &Start) -> Result<Vec<u8>, NoVector> {
    let begin = start.core.regs[15];
    let mut bytes = [0u8; 64];
    for cell in &start.ram {
        let place = cell.addr.wrapping_sub(begin);
        if place < 64 {
            bytes[place as usize] = cell.byte;
        }
    }
    match decode(&bytes, begin) {
        Some(decoded) => Ok(Vec::from_slice(alloc, decoded.text.as_bytes())?),
        None => reserved_name(alloc, opcode),
    }
}

/// The place from this one on of the first cell that doesn't lie below an address.
fn place_of(ram: &[Cell], from: usize, addr: u32) -> usize {
    for place in from..ram.len() {
        if addr <= ram[place].addr {
            return place;
        }
    }
    ram.len()
}

/// The bytes at the start, where the step was completed those alone that it reads or writes. Both lists ascend.
fn told_alone(alloc: Global, ram: Vec<Cell>, left: &[Cell]) -> Result<Vec<Cell>, NoVector> {
    if left.is_empty() {
        return Ok(ram);
    }
    let mut alone = Vec::with_capacity(alloc, left.len())?;
    let mut place = 0;
    for cell in left {
        let addr = cell.addr;
        place = place_of(&ram, place, addr);
        let byte = match ram.get(place) {
            Some(there) if there.addr == addr => there.byte,
            _ => 0,
        };
        if alone.push(Cell { addr, byte }).is_err() {
            return Err(NoVector::NoMemory);
        }
    }
    Ok(alone)
}

/// The cells below an address.
#[tactic(auto, using(crate::proofs::Cells::nothing_told, crate::proofs::Cells::nothing_more))]
fn cells_below(alloc: Global, ram: &[Cell], addr: u32) -> Result<Vec<Cell>, NoVector>
    ensures { IfOk result
        (λ below. (more : List Cell) → told (below.items ++ more) addr ≡ told more addr) }
{
    let mut below = Vec::with_capacity(alloc, ram.len())?;
    for cell in ram {
        if cell.addr < addr && below.push(*cell).is_err() {
            return Err(NoVector::NoMemory);
        }
    }
    Ok(below)
}

/// The same cells, which ascend, with this one in place of what they tell of its address.
#[tactic(auto, using(crate::proofs::Cells::told_here, crate::proofs::Cells::told_still))]
fn with_cell(alloc: Global, ram: &[Cell], new: Cell) -> Result<Vec<Cell>, NoVector>
    ensures { IfOk result (λ cells. told cells.items new.addr ≡ new.byte) }
{
    let mut cells = cells_below(alloc, ram, new.addr)?;
    if cells.push(new).is_err() {
        return Err(NoVector::NoMemory);
    }
    for cell in ram {
        if new.addr < cell.addr && cells.push(*cell).is_err() {
            return Err(NoVector::NoMemory);
        }
    }
    Ok(cells)
}

/// A start with these registers, pages and those of these bytes that lie in the pages, and this opcode at PC.
fn with_opcode(
    alloc: Global,
    core: Core,
    pages: Vec<Page>,
    ram: &[Cell],
    opcode: u8,
) -> Result<Start, NoVector>
    requires { lies_in pages.items (slice_index core.regs 15) ≡ true }
    ensures core { IfOk result (λ start. start.core ≡ core) }
    ensures absent { IfOk result (λ start. start.absent.items ≡ []) }
    ensures opcode { IfOk result (λ start. opcode_of start ≡ opcode) }
    ensures within { IfOk result (λ start. AreWithin start.pages.items start.ram.items) }
{
    let first = Cell {
        addr: core.regs[15],
        byte: opcode,
    };
    let cells = with_cell(alloc, ram, first)?;
    let ram = within(alloc, &pages, &cells)?;
    Ok(Start {
        core,
        pages,
        absent: Vec::new(alloc),
        ram,
    })
}

/// The vector of a case, with no page absent. Where the step is completed, memory has at the start the bytes alone that it reads or writes, and
/// the opcode. All of them lie in its pages.
pub(crate) fn whole(alloc: Global, bench: &mut Workbench, case: Case) -> Result<Vector, NoVector>
    ensures told { IfOk result IsExact }
    ensures of { IfOk result (IsOf case.opcode case.mode) }
{
    let start = start_of(alloc, case)?;
    let name = name_of(alloc, case.opcode, &start)?;
    let Vector { start, end, .. } = bench.vector_of(Vec::new(alloc), start)?;
    let Start {
        core,
        pages,
        ram,
        ..
    } = start;
    let ram = told_alone(alloc, ram, &end.ram)?;
    let start = with_opcode(alloc, core, pages, &ram, case.opcode)?;
    bench.vector_of(name, start)
}

/// The same vector with these pages absent.
pub(crate) fn without(
    alloc: Global,
    bench: &mut Workbench,
    whole: &Vector,
    absent: &[u32],
) -> Result<Vector, NoVector>
    ensures told { IfOk result IsExact }
    ensures without { IfOk result (IsWithout whole.now absent.now) }
{
    let start = Start {
        core: whole.start.core,
        pages: Vec::from_slice(alloc, &whole.start.pages)?,
        absent: Vec::from_slice(alloc, absent)?,
        ram: Vec::from_slice(alloc, &whole.start.ram)?,
    };
    let name = Vec::from_slice(alloc, &whole.name)?;
    bench.vector_of(name, start)
}
