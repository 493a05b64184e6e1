//! Makes steps, to be timed from outside: `vax_bench LOOP STEPS` those of a small loop over plain memory, `vax_bench LOOP STEPS FRAMES` over a
//! pager with so many frames and a page file in memory, and `vax_bench image FILE STEPS FRAMES` those of a program in user mode with no input.
#![tactic(auto)]

ghost use Rattle.std.specs.Prelude.{◌≡◌, ◌≤◌, None, length};

mod image;
mod loops;
mod paged;

use anyhow::bail;
use image::started;
use loops::{clock_of, code_of, data_of};
use paged::{make_paged_steps, pager_of, pager_over};
use std::alloc::Global;
use std::io::Print;
use std::{env, fs};
use vax_bare::{core_at, memory_of};
use vax_cpu::{Attempt, Cpu};
use vax_outside::MemPages;
use vax_pager::Counts;
use vax_undo::{Plain, Term};
use vax_word::{Core, Psl};

/// The registers at the start of a loop: counts that outlast any run, and where its data lies.
fn core_of(name: &str, data_end: u32) -> Core {
    let mut core = core_at(0x8000_0200);
    core.regs[0] = 0x7FFF_FFFF;
    core.regs[3] = 0x7FFF_FFFF;
    core.regs[7] = data_of(name);
    core.regs[8] = data_end;
    core.iccs = clock_of(name);
    if name == "interrupts" {
        core.psl = Psl(0);
    }
    core
}

/// Makes so many steps, and answers how many weren't made.
fn make_steps(cpu: &mut Cpu, port: &mut Plain, steps: u64) -> u64
    requires unsent { cpu.old.term.out ≡ None }
{
    let mut left = steps;
    while left > 0 {
        let batch = cpu.attempts(port, left);
        let Attempt::Step(_) = batch.last else {
            return left;
        };
        left -= batch.steps + 1;
    }
    left
}

/// A processor with these registers.
fn cpu_with(alloc: Global, core: Core) -> Cpu
    ensures { result.term.out ≡ None }
{
    Cpu::new(core, Term::new(Vec::new(alloc)))
}

/// The registers after a run over plain memory, and how many steps weren't made.
fn run_plain(alloc: Global, name: &str, code: &[u8], steps: u64) -> anyhow::Result<(Core, u64)>
    requires { length code.now ≤ 20 }
{
    let mut port = memory_of(alloc, code)?;
    let mut cpu = cpu_with(alloc, core_of(name, 0));
    let left = make_steps(&mut cpu, &mut port, steps);
    Ok((cpu.core, left))
}

/// The same over a pager, with its counts. The pages that `pages` goes through are 64 more than the frames.
fn run_paged(
    alloc: Global,
    name: &str,
    code: &[u8],
    steps: u64,
    frames: u32,
) -> anyhow::Result<(Core, u64, Counts)> {
    let mut pager = pager_of(alloc, code, frames)?;
    // each write to a block takes an entry of its list
    let mut file = MemPages::new(alloc, 0x9000, 4_000_000, Vec::new(alloc))?;
    let data_end = frames.saturating_add(64).saturating_mul(512);
    let mut cpu = cpu_with(alloc, core_of(name, data_end));
    let left = make_paged_steps(&mut cpu, &mut pager, &mut file, steps);
    Ok((cpu.core, left, pager.counts()))
}

/// Says what the pages of a run did.
fn show_counts<R: Print>(rt: &R, counts: Counts) -> anyhow::Result<()> {
    let Counts {
        served,
        evicted,
        written,
    } = counts;
    println!(rt; "served {served} evicted {evicted} written {written}")?;
    Ok(())
}

/// Makes so many steps of the program in a file, over a pager.
fn run_image<R: Print>(
    rt: &R,
    alloc: Global,
    file: Vec<u8>,
    steps: u64,
    frames: u32,
) -> anyhow::Result<()> {
    let (space, core) = started(alloc, file)?;
    let mut pager = pager_over(alloc, space, frames)?;
    let mut blocks = MemPages::new(alloc, 0x9000, 4_000_000, Vec::new(alloc))?;
    let mut cpu = cpu_with(alloc, core);
    let left = make_paged_steps(&mut cpu, &mut pager, &mut blocks, steps);
    show_counts(rt, pager.counts())?;
    println!(rt; "image left {left}")?;
    Ok(())
}

/// Makes so many steps of a loop, over a pager where frames are given.
fn run_loop<R: Print>(
    rt: &R,
    alloc: Global,
    name: &str,
    steps: u64,
    frames: Option<u32>,
) -> anyhow::Result<()> {
    let Some(code) = code_of(name) else {
        bail!(
            "loops: count registers memory calls subroutine procedure field addition change ticks interrupts pages"
        );
    };
    let (core, left) = match frames {
        None => run_plain(alloc, name, code, steps)?,
        Some(frames) => {
            let (core, left, counts) = run_paged(alloc, name, code, steps, frames)?;
            show_counts(rt, counts)?;
            (core, left)
        }
    };
    let [r0, r1, r2, ..] = core.regs;
    println!(rt; "{name} left {left} R0 {r0:08X} R1 {r1:08X} R2 {r2:08X}")?;
    Ok(())
}

fn main(rt: HostRuntime) -> anyhow::Result<()> {
    let alloc = rt.alloc();
    let words: Vec<String> = env::args(&rt)?.skip(1).collect(alloc)?;
    match words.as_slice() {
        [image, file, steps, frames] if image.as_str() == "image" => {
            let file = fs::read(&rt, file.as_str())?;
            let steps: u64 = steps.as_str().parse()?;
            run_image(&rt, alloc, file, steps, frames.as_str().parse()?)
        }
        [name, steps] => run_loop(&rt, alloc, name.as_str(), steps.as_str().parse()?, None),
        [name, steps, frames] => {
            let frames: u32 = frames.as_str().parse()?;
            let steps: u64 = steps.as_str().parse()?;
            run_loop(&rt, alloc, name.as_str(), steps, Some(frames))
        }
        _ => bail!("use: vax_bench LOOP STEPS [FRAMES], or vax_bench image FILE STEPS FRAMES"),
    }
}
