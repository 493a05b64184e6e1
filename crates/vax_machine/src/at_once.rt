//! Steps that the processor makes at once.
ghost use Rattle.std.specs.Prelude.{◌≡◌, ◌≤◌, ℕ, List, None, IsSome};
ghost use Rattle.vax_space.specs.declared.Area.{Area};
ghost use Rattle.vax_flat.specs.Port.{StandsFor};
ghost use Rattle.vax_cpu.specs.Attempt.{flat_of};
ghost use Rattle.vax_pager.specs.Meaning.{pages};
ghost use Rattle.vax_pager.specs.Paging.{view_of};
ghost use Rattle.vax_pager.specs.Steps.{OnlyWritten};
ghost use Rattle.vax_machine.specs.AtOnce.{AreSteps};

use vax_cpu::{Cpu, is_still, run_at_once};
use vax_pager::Pager;

/// Makes at most `most` steps of a processor over its pages, each at once on the registers and with no byte sent, and says how many. It makes none where a string
/// instruction is open, an interrupt is asked for or the interval clock is on. Where it makes fewer than `most`, the next is left to an attempt.
pub(crate) fn steps_at_once(cpu: &mut Cpu, pager: &mut Pager, most: u64) -> u64
    requires unsent { cpu.old.term.out ≡ None }
    ensures steps { cpu.old.latch ≡ None → (memory : List Area) → (output : List ℕ) →
        StandsFor (view_of (pages pager.old)) memory
        → AreSteps (view_of (pages pager.old)) (flat_of cpu.old memory output) result cpu.new
        (view_of (pages pager.new)) }
    ensures open { IsSome cpu.old.latch → (result ≡ 0) × (cpu.new ≡ cpu.old)
        × (pages pager.new ≡ pages pager.old) }
    ensures few { result ≤ most }
    ensures latch { cpu.new.latch ≡ cpu.old.latch }
    ensures term { cpu.new.term ≡ cpu.old.term }
    ensures written { OnlyWritten (pages pager.old) (pages pager.new) }
{
    if cpu.latch.is_some() || !is_still(&cpu.core) {
        return 0;
    }
    run_at_once(&mut cpu.core, pager, most)
}
