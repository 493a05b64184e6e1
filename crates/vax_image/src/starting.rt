//! The memory and the registers with which a program starts.
ghost use Rattle.std.specs.Prelude.{◌≡◌, ◌++◌, ◌∷◌, [], IfOk, IfSome, OnOk, option_copied, drop, length};
ghost use Rattle.vax_space.specs.Faults.{IsSpace};
ghost use Rattle.vax_image.specs.Image.{IsImage};
ghost use Rattle.vax_image.specs.Start as spec;

use crate::{Base, Image};
use std::alloc::{AllocError, Global};
use vax_space::{Area, NoMemory, Space};
use vax_word::{Core, Psl};

/// A page of longwords 2.
static VECTORS: [[u8; 4]; 128] = [[2, 0, 0, 0]; 128];

/// The page of the system control block.
const CONTROL_BLOCK: u32 = 0x40_0000;

/// Appends pages that begin with these bytes, and hold 0 behind them.
fn push_area(
    areas: &mut Vec<Area>,
    alloc: Global,
    first: u32,
    pages: u32,
    prot: u8,
    bytes: &[u8],
) -> Result<(), AllocError>
    ensures { OnOk result (areas.new.items
        ≡ areas.old.items ++ spec.area first pages prot bytes.now ∷ []) }
{
    let bytes = Vec::from_slice(alloc, bytes)?.into();
    areas.push(Area {
        first,
        pages,
        prot,
        bytes,
    })?;
    Ok(())
}

/// Appends copies of areas.
fn push_copies(areas: &mut Vec<Area>, alloc: Global, from: &[Area]) -> Result<(), AllocError>
    ensures { OnOk result (areas.new.items ≡ areas.old.items ++ from.now) }
{
    for area in from {
        push_area(
            areas,
            alloc,
            area.first,
            area.pages,
            area.prot,
            area.bytes.as_slice(),
        )?;
    }
    Ok(())
}

/// Bytes of the system control block, with vectors for what they don't say of its page.
#[tactic(auto, using(std::proofs::lemmas::List::drop_min))]
fn with_vectors(alloc: Global, said: &[u8]) -> Result<Vec<u8>, AllocError>
    ensures { IfOk result (λ bytes. bytes.items ≡ said.now ++ drop (length said.now) spec.vectors) }
{
    let vectors = VECTORS.as_flattened();
    let mut bytes = Vec::from_slice(alloc, said)?;
    bytes.extend_from_slice(&vectors[said.len().min(vectors.len())..])?;
    Ok(bytes)
}

/// Appends an area with the system control block. What it doesn't say of that page is vectors.
fn push_with_vectors(areas: &mut Vec<Area>, alloc: Global, area: &Area) -> Result<(), AllocError>
    ensures { OnOk result (areas.new.items ≡ areas.old.items ++ spec.with_vectors area.now ∷ []) }
{
    let bytes = with_vectors(alloc, area.bytes.as_slice())?;
    push_area(areas, alloc, area.first, area.pages, area.prot, &bytes)
}

/// Appends a system's areas with the system control block, which is the program's own where it has that page.
#[tactic(auto, unfolding(crate::specs::Start::with_control_block))]
fn push_system(areas: &mut Vec<Area>, alloc: Global, from: &[Area]) -> Result<(), AllocError>
    ensures { OnOk result (areas.new.items ≡ areas.old.items ++ spec.with_control_block from.now) }
{
    match from {
        [] => push_area(areas, alloc, CONTROL_BLOCK, 1, 2, VECTORS.as_flattened()),
        [first, others @ ..] => {
            if first.has_page(CONTROL_BLOCK) {
                push_with_vectors(areas, alloc, first)?;
                return push_copies(areas, alloc, others);
            }
            push_area(areas, alloc, CONTROL_BLOCK, 1, 2, VECTORS.as_flattened())?;
            push_copies(areas, alloc, from)
        }
    }
}

/// The areas of a system and a user program, with the stacks and the system control block.
#[tactic(auto, unfolding(crate::specs::Start::start_areas))]
fn areas_of(alloc: Global, system: &Image, user: Option<&Image>) -> Result<Vec<Area>, AllocError>
    ensures { IfOk result (λ v. v.items ≡ spec.start_areas system.now (option_copied user.entry)) }
{
    let mut areas = Vec::new(alloc);
    if let Some(image) = user {
        push_copies(&mut areas, alloc, image.areas.as_slice())?;
    }
    push_area(&mut areas, alloc, 0x3F_FF00, 4, 5, &[])?;
    push_area(&mut areas, alloc, 0x3F_FF40, 4, 8, &[])?;
    push_area(&mut areas, alloc, 0x3F_FFC0, 64, 4, &[])?;
    push_system(&mut areas, alloc, system.areas.as_slice())?;
    push_area(&mut areas, alloc, 0x40_0800, 16, 2, &[])?;
    push_area(&mut areas, alloc, 0x40_0880, 4, 2, &[])?;
    Ok(areas)
}

fn core_of(system: &Image, user: Option<&Image>) -> Core
    ensures { result ≡ spec.start_core system.now (option_copied user.entry) }
{
    let entry = match user {
        None => 0,
        Some(image) => image.transfer,
    };
    let begin = system.transfer;
    Core {
        regs: [
            entry,
            0,
            0,
            0,
            0,
            0,
            0,
            0,
            0,
            0,
            0,
            0,
            0,
            0,
            0x8010_2000,
            begin,
        ],
        psl: Psl(0x001F_0000),
        stacks: [0, 0x7FFE_0800, 0x7FFE_8800, 0x8000_0000, 0x8011_0800],
        sisr: 0,
        iccs: 0,
        clock: 0,
    }
}

/// The memory and the registers with which a system starts, and with it a user program if there is one: the areas of
/// both, the stacks of the access modes and of interrupts, and the system control block, of which each vector that the
/// system leaves open ends the run. The processor is in kernel mode at interrupt priority 31, PC is the system's transfer
/// address, and R0 has the user program's.
pub fn start(alloc: Global, system: &Image, user: Option<&Image>) -> Result<(Space, Core), NoMemory>
    requires system { IsImage system.now }
    requires bare { system.now.base ≡ Base.Bare }
    requires user { IfSome (option_copied user) IsImage }
    requires base { IfSome (option_copied user) (λ image. image.base ≡ Base.User) }
    ensures space { IfOk result (λ started. started.0
        ≡ spec.start_areas system.now (option_copied user.entry)) }
    ensures core { IfOk result (λ started. started.1
        ≡ spec.start_core system.now (option_copied user.entry)) }
    // Whatever the programs, these areas are a space.
    ensures sound { IsSpace (spec.start_areas system.now (option_copied user.entry)) }
{
    let areas = areas_of(alloc, system, user)?;
    let core = core_of(system, user);
    match Space::new(alloc, areas) {
        Ok(space) => Ok((space, core)),
        Err(_) => Err(NoMemory),
    }
}
