//! The memory and the registers with which a bare program starts.
ghost use Rattle.std.specs.Prelude.{◌≡◌, ◌≤◌, IfOk, length};
ghost use Rattle.vax_flat.specs.Port.{StandsFor};
ghost use Rattle.vax_flat.specs.Memory.{AllResident};
ghost use Rattle.vax_undo.specs.Plain.{view_of};
ghost use Rattle.vax_bare.specs.Start.{area, areas, core, memory, vectors};

use std::alloc::{AllocError, Global};
use vax_space::{Area, NoMemory, Space};
use vax_undo::Plain;
use vax_word::{Core, Psl};

/// Pages that begin with these bytes, and hold 0 behind them.
fn area(alloc: Global, first: u32, pages: u32, prot: u8, bytes: &[u8]) -> Result<Area, AllocError>
    ensures { IfOk result (λ a. a ≡ area first pages prot bytes.now) }
{
    let bytes = Vec::from_slice(alloc, bytes)?;
    Ok(Area {
        first,
        pages,
        prot,
        bytes: bytes.into(),
    })
}

/// The areas of a program, in ascending order.
#[tactic(auto, unfolding(crate::specs::Start::areas))]
fn areas_of(alloc: Global, bytes: &[u8]) -> Result<Vec<Area>, AllocError>
    requires { length bytes.now ≤ 1048064 }
    ensures { IfOk result (λ v. v.items ≡ areas bytes.now) }
{
    let pages = bytes.len().div_ceil(512) as u32;
    let vectors = [[2, 0, 0, 0]; 128];
    let all = [
        area(alloc, 0x3F_FF00, 4, 5, &[])?,
        area(alloc, 0x3F_FF40, 4, 8, &[])?,
        area(alloc, 0x3F_FFC0, 64, 4, &[])?,
        area(alloc, 0x40_0000, 1, 2, vectors.as_flattened())?,
        area(alloc, 0x40_0001, pages, 14, bytes)?,
        area(alloc, 0x40_0800, 16, 2, &[])?,
        area(alloc, 0x40_0880, 4, 2, &[])?,
    ];
    Ok(Vec::from_array(alloc, all)?)
}

/// The space of a program: its bytes from 80000200 on, its stacks, and a system control block whose vectors end the run. The program has to
/// end below the kernel stack.
pub fn space_of(alloc: Global, bytes: &[u8]) -> Result<Space, NoMemory>
    requires { length bytes.now ≤ 1048064 }
    ensures { IfOk result (λ space. space ≡ areas bytes.now) }
{
    let areas = areas_of(alloc, bytes)?;
    match Space::new(alloc, areas) {
        Ok(space) => Ok(space),
        Err(_) => Err(NoMemory),
    }
}

/// The memory of a program, with every page resident.
pub fn memory_of(alloc: Global, bytes: &[u8]) -> Result<Plain, NoMemory>
    requires { length bytes.now ≤ 1048064 }
    ensures stands { IfOk result (λ p. StandsFor (view_of p) (memory bytes.now)) }
    ensures resident { IfOk result (λ p. AllResident (view_of p).resident (view_of p).areas) }
{
    let space = space_of(alloc, bytes)?;
    Plain::new(alloc, space)
}

/// The registers of a program that begins at an address.
pub fn core_at(begin: u32) -> Core
    ensures { result ≡ core begin }
{
    Core {
        regs: [0, 0, 0, 0, 0, 0, 0, 0, 0, 0, 0, 0, 0, 0, 0x8010_2000, begin],
        psl: Psl(0x001F_0000),
        stacks: [0, 0x7FFE_0800, 0x7FFE_8800, 0x8000_0000, 0x8011_0800],
        sisr: 0,
        iccs: 0,
        clock: 0,
    }
}
