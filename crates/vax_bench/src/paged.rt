//! The loops over a pager.
ghost use Rattle.std.specs.Prelude.{◌≡◌, None};

use anyhow::bail;
use std::alloc::Global;
use vax_cpu::{Attempt, Cpu};
use vax_outside::MemPages;
use vax_pager::{PageFault, Pager};
use vax_space::{Area, Bytes, Space};

/// The most pages of the program region.
const PAGES: u32 = 0x8000;

/// A pager with so many frames, over the loop's code at 80000200, a stack at 80100000 and all of the program region.
pub(crate) fn pager_of(alloc: Global, code: &[u8], frames: u32) -> anyhow::Result<Pager> {
    let areas = [
        Area {
            first: 0,
            pages: PAGES,
            prot: 4,
            bytes: Bytes::from(Vec::new(alloc)),
        },
        Area {
            first: 0x40_0000,
            pages: 1,
            prot: 2,
            bytes: Bytes::from(Vec::new(alloc)),
        },
        Area {
            first: 0x40_0001,
            pages: 1,
            prot: 14,
            bytes: Bytes::from(Vec::from_slice(alloc, code)?),
        },
        Area {
            first: 0x40_0800,
            pages: 16,
            prot: 2,
            bytes: Bytes::from(Vec::new(alloc)),
        },
    ];
    let Ok(space) = Space::new(alloc, Vec::from_array(alloc, areas)?) else {
        bail!("no space");
    };
    pager_over(alloc, space, frames)
}

/// A pager with so many frames over a space.
pub(crate) fn pager_over(alloc: Global, space: Space, frames: u32) -> anyhow::Result<Pager> {
    if frames < 64 || 32768 < frames {
        bail!("frames: 64 to 32768");
    }
    let Ok(pager) = Pager::new(alloc, space, frames) else {
        bail!("no memory");
    };
    Ok(pager)
}

/// Brings a page in; it tells whether it did.
fn bring_in(pager: &mut Pager, page: u32, file: &mut MemPages) -> bool {
    pager.settle();
    if !pager.has(page) || pager.is_resident(page) || pager.pins() >= pager.frames() {
        return false;
    }
    match pager.serve(page, file) {
        Ok(_) => true,
        Err(PageFault) => false,
    }
}

/// Makes so many steps, bringing in each page that one needs, and answers how many weren't made.
pub(crate) fn make_paged_steps(
    cpu: &mut Cpu,
    pager: &mut Pager,
    file: &mut MemPages,
    steps: u64,
) -> u64
    requires unsent { cpu.old.term.out ≡ None }
{
    let mut left = steps;
    for _attempt in 0..steps.saturating_mul(4) {
        if left == 0 {
            return 0;
        }
        let batch = cpu.attempts(pager, left);
        left -= batch.steps;
        match batch.last {
            Attempt::Step(_) => left -= 1,
            Attempt::Part => {}
            Attempt::Absent(page) if bring_in(pager, page, file) => {}
            _ => return left,
        }
    }
    left
}
