//! Attempts at a step, until each page that it needs is resident.
ghost use Rattle.std.specs.Prelude.{◌≡◌, List, IfOk, None, []};
ghost use Rattle.vax_space.specs.declared.Area.{Area};
ghost use Rattle.vax_flat.specs.Step.{Flat};
ghost use Rattle.vax_vector_runs.specs.Attempts.{IsReady, IsSettled};

use std::alloc::Global;
use vax_cpu::{Attempt, Cpu};
use vax_vector_memory::{NoVector, Recorder};

/// The pages that a step touches, in order, and what the attempt with all of them resident came to.
#[derive(Drop)]
pub(crate) struct Settled {
    pub(crate) touched: Vec<u32>,
    pub(crate) attempt: Attempt,
}

/// Makes attempts at a step, at most so many, and makes each page resident for which one stops.
pub(crate) fn settle(
    alloc: Global,
    cpu: &mut Cpu,
    memory: &mut Recorder,
    most: usize,
) -> Result<Settled, NoVector>
    requires { cpu.old.term.out ≡ None }
    ensures settled { (m : Flat) → (space : List Area) → IsReady m space [] cpu.old memory.old
        → IfOk result (λ settled. IsSettled m space settled cpu.new memory.new) }
    ensures input { cpu.new.term.input ≡ cpu.old.term.input }
{
    let mut touched = Vec::new(alloc);
    for _ in 0..most {
        memory.forget();
        let attempt = cpu.attempt(memory);
        match attempt {
            Attempt::Absent(page) => {
                if touched.push(page).is_err() {
                    return Err(NoVector::NoMemory);
                }
                memory.show(page);
            }
            Attempt::Step(_) | Attempt::Part | Attempt::Ended(_) => {
                return Ok(Settled { touched, attempt });
            }
        }
    }
    Err(NoVector::Unsettled)
}
