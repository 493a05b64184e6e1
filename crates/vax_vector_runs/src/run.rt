//! Vectors.
ghost use Rattle.std.specs.Prelude.{◌≡◌, List, IfOk, OnOk, None, All, [], true, IsTrue};
ghost use Rattle.vax_space.specs.declared.Area.{Area};
ghost use Rattle.vax_flat.specs.Step.{Flat};
ghost use Rattle.vax_vector_runs.specs.Exact.{IsExact};
ghost use Rattle.vax_vectors.specs.Truth.{first_out, is_among, pages_after, resident_of, with_pages};
ghost use Rattle.vax_vector_runs.specs.Attempts.{IsSettled};
ghost use Rattle.vax_vector_runs.specs.Ends.{EndsWell, IsCell, IsStart};
ghost use Rattle.vax_vector_memory.specs.Record.{view_of};

use crate::settle::{Settled, settle};
use crate::start::prepare;
use std::alloc::Global;
use vax_cpu::{Attempt, Cpu};
use vax_space::{NoMemory, PAGE_BYTES};
use vax_undo::Term;
use vax_vector_memory::{NoVector, Recorder};
use vax_vectors::{Cell, End, Ends, Page, Start, Touch, Vector};
use vax_word::Core;

/// Whether a page is one of these.
#[tactic(auto, unfolding(vax_vectors::specs::Truth::is_among))]
fn is_among(pages: &[u32], page: u32) -> bool
    ensures { result ≡ is_among pages.now page }
{
    for other in pages {
        if page == *other {
            return true;
        }
    }
    false
}

/// The first of the pages that a step touches that is absent.
#[tactic(auto, unfolding(vax_vectors::specs::Truth::first_out))]
fn missed(touched: &[u32], absent: &[u32]) -> Option<u32>
    ensures { result ≡ first_out (resident_of absent.now) touched.now }
{
    for page in touched {
        if is_among(absent, *page) {
            return Some(*page);
        }
    }
    None
}

/// The addresses that were read or written, in ascending order.
fn addresses_of(alloc: Global, touches: &[Touch]) -> Result<Vec<u32>, NoMemory> {
    let mut addresses = Vec::new(alloc);
    for touch in touches {
        let mut addr = touch.addr;
        for _ in touch.bytes.as_slice() {
            if addresses.push(addr).is_err() {
                return Err(NoMemory);
            }
            addr = addr.wrapping_add(1);
        }
    }
    addresses.sort()?;
    addresses.dedup();
    Ok(addresses)
}

/// Appends the pages of a range that aren't there yet.
#[tactic(auto, using(crate::proofs::Same::pages_step, crate::proofs::Same::pages_end))]
fn add_pages(pages: &mut Vec<u32>, addr: u32, len: usize) -> Result<(), NoMemory>
    ensures { OnOk result (pages.new.items ≡ with_pages pages.old.items addr len) }
{
    let mut at = addr;
    for _ in 0..len {
        let page = at / PAGE_BYTES;
        if !is_among(pages, page) && pages.push(page).is_err() {
            return Err(NoMemory);
        }
        at = at.wrapping_add(1);
    }
    Ok(())
}

/// The pages that are accessed, each once, in the order in which they first are.
#[tactic(auto, unfolding(vax_vectors::specs::Truth::pages_after))]
fn pages_of(alloc: Global, touches: &[Touch]) -> Result<Vec<u32>, NoMemory>
    ensures { IfOk result (λ pages. pages.items ≡ pages_after [] touches.now) }
{
    let mut pages = Vec::new(alloc);
    for touch in touches {
        add_pages(&mut pages, touch.addr, touch.bytes.as_slice().len())?;
    }
    Ok(pages)
}

/// The bytes at those of these addresses that lie in pages that a step touches.
fn cells_of(
    alloc: Global,
    addresses: &[u32],
    memory: &Recorder,
    touched: &[u32],
) -> Result<Vec<Cell>, NoMemory>
    ensures { IfOk result (λ cells. All
        (IsCell touched.now (view_of memory.now).byte) cells.items) }
{
    let mut cells = Vec::new(alloc);
    for addr in addresses {
        if is_among(touched, *addr / PAGE_BYTES) {
            if let Some(byte) = memory.byte(*addr) {
                if cells.push(Cell { addr: *addr, byte }).is_err() {
                    return Err(NoMemory);
                }
            }
        }
    }
    Ok(cells)
}

/// The end of a step that changes nothing.
fn unchanged(alloc: Global, core: Core, ends: Ends) -> End
    ensures core { result.core ≡ core }
    ensures ram { result.ram.items ≡ [] }
    ensures touches { result.touches.items ≡ [] }
    ensures ends { result.ends ≡ ends }
{
    End {
        core,
        ram: Vec::new(alloc),
        touches: Vec::new(alloc),
        ends,
    }
}

/// Whether two lists of numbers are the same.
fn same_numbers(these: &[u32], those: &[u32]) -> bool
    ensures { result ≡ true → these.now ≡ those.now }
{
    these == those
}

/// The end of a step that reads and writes, where it does so in the pages that it touches.
fn changed(
    alloc: Global,
    core: Core,
    memory: &mut Recorder,
    touched: &[u32],
    ends: Ends,
) -> Result<End, NoVector>
    ensures core { IfOk result (λ end. end.core ≡ core) }
    ensures ends { IfOk result (λ end. end.ends ≡ ends) }
    ensures kept { IfOk result
        (λ end. IsTrue memory.old.complete × (end.touches.items ≡ memory.old.touches.items)) }
    ensures pages { IfOk result (λ end. pages_after [] end.touches.items ≡ touched.now) }
    ensures ram { IfOk result
        (λ end. All (IsCell touched.now (view_of memory.old).byte) end.ram.items) }
{
    let addresses = addresses_of(alloc, memory.touches())?;
    let ram = cells_of(alloc, &addresses, memory, touched)?;
    let pages = pages_of(alloc, memory.touches())?;
    if !same_numbers(&pages, touched) {
        return Err(NoVector::Unsettled);
    }
    match memory.take_touches() {
        Some(touches) => Ok(End {
            core,
            ram,
            touches,
            ends,
        }),
        None => Err(NoVector::NoMemory),
    }
}

/// The end of the step of which this is the last attempt.
fn end_of(
    alloc: Global,
    start: Core,
    cpu: &Cpu,
    memory: &mut Recorder,
    settled: &Settled,
) -> Result<End, NoVector>
    requires { cpu.now.term.input.items ≡ [] }
    ensures { (m : Flat) → (space : List Area) → IsSettled m space settled.now cpu.now memory.old
        → IsStart m start
        → IfOk result (EndsWell m settled.now.touched.items) }
{
    let touched = settled.touched.as_slice();
    match settled.attempt {
        Attempt::Step(sent) => changed(alloc, cpu.core, memory, touched, Ends::Step(sent)),
        Attempt::Part => match cpu.latch {
            Some(open) => {
                let ends = Ends::Part {
                    opcode: open.opcode,
                    units: open.units,
                };
                changed(alloc, cpu.core, memory, touched, ends)
            }
            None => Err(NoVector::Unsettled),
        },
        Attempt::Absent(_) => Err(NoVector::Unsettled),
        Attempt::Ended(ending) => Ok(unchanged(alloc, start, Ends::Ended(ending))),
    }
}

/// Where vectors are made: a memory of pages, which is made once and filled anew for each vector.
#[derive(Drop)]
pub struct Workbench {
    alloc: Global,
    memory: Recorder,
}

impl Workbench {
    /// A workbench for vectors with these pages. It fails where memory is refused, or where the pages are no space.
    pub fn new(alloc: Global, pages: &[Page]) -> Result<Workbench, NoVector> {
        let memory = Recorder::new(alloc, pages)?;
        Ok(Workbench { alloc, memory })
    }

    /// The vector of the first part of a step with this start, in a machine with no input. It fails where memory is
    /// refused, or where the pages are no space. It takes longer where the pages are others than the last vector's.
    pub fn vector_of(&mut self, name: Vec<u8>, start: Start) -> Result<Vector, NoVector>
        ensures exact { IfOk result IsExact }
        ensures start { IfOk result (λ v. v.start ≡ start) }
        ensures name { IfOk result (λ v. v.name ≡ name) }
    {
        let alloc = self.alloc;
        let memory = &mut self.memory;
        prepare(alloc, memory, &start.pages, &start.ram)?;
        let mut cpu = Cpu::new(start.core, Term::new(Vec::new(alloc)));
        let most = start.pages.len() + 1;
        let settled = settle(alloc, &mut cpu, memory, most)?;
        let end = match missed(&settled.touched, &start.absent) {
            Some(page) => unchanged(alloc, start.core, Ends::Absent(page)),
            None => end_of(alloc, start.core, &cpu, memory, &settled)?,
        };
        Ok(Vector {
            name,
            start,
            touched: settled.touched,
            end,
        })
    }
}
