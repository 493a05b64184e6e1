//! Runs.
ghost use Rattle.std.specs.Prelude.{is_err, ◌≡◌, ◌+◌, ◌<◌, List, [], None, IfOk, OnErr};
ghost use Rattle.vax_space.specs.declared.Area.{Area};
ghost use Rattle.vax_outside.specs.Faults.{CountsFailure};
ghost use Rattle.vax_flat.specs.Port.{StandsFor};
ghost use Rattle.vax_flat.specs.Memory.{AllResident};
ghost use Rattle.vax_cpu.specs.Attempt.{flat_of};
ghost use Rattle.vax_bare.specs.Run.{IsRun, IsCutShort};

use vax_cpu::{Attempt, Cpu};
use vax_flat::Ending;
use vax_outside::{Chan, Failed, Sink, put_all};
use vax_undo::Port;

/// How a run stopped: its ending, or none at the limit of steps; and the number of steps, of which the one that ended it is the last.
#[derive(Clone, Copy, PartialEq, Eq)]
pub struct Stopped {
    pub ending: Option<Ending>,
    pub steps: u64,
}

/// Runs a processor over a memory of which every page is resident, up to the first step that ends the run, or for `limit` steps. The bytes
/// that the program sends to its console go to Out in order. The port then stands for the memory that the run leaves.
///
/// It fails where a write to Out failed, after a prefix of what the whole run sends.
pub fn run<P: Port, K: Sink>(
    cpu: &mut Cpu,
    port: &mut P,
    limit: u64,
    sink: &mut K,
) -> Result<Stopped, Failed>
    requires closed { cpu.old.latch ≡ None }
    requires unsent { cpu.old.term.out ≡ None }
    requires resident { AllResident (P.view port.old).resident (P.view port.old).areas }
    requires meant { (memory : List Area) × StandsFor (P.view port.old) memory }
    ensures ok { (memory : List Area) → StandsFor (P.view port.old) memory
        → IfOk result (IsRun limit (flat_of cpu.old memory []) cpu.new (P.view port.new)
        (K.contents sink.old) (K.contents sink.new)) }
    ensures err { (memory : List Area) → StandsFor (P.view port.old) memory
        → OnErr result (IsCutShort limit (flat_of cpu.old memory [])
        (K.contents sink.old) (K.contents sink.new)) }
    ensures counts { CountsFailure (is_err result) (K.faults sink.old) (K.faults sink.new) }
{
    let mut steps = 0;
    while steps < limit {
        let batch = cpu.attempts(port, limit - steps);
        steps += batch.steps;
        match batch.last {
            Attempt::Step(sent) => {
                steps += 1;
                match sent {
                    None => {}
                    Some(byte) => put_all(sink, Chan::Out, &[byte])?,
                }
            }
            // The step goes on with its next part.
            Attempt::Part => {}
            Attempt::Ended(ending) => {
                return Ok(Stopped {
                    ending: Some(ending),
                    steps: steps + 1,
                });
            }
            // No page is absent.
            Attempt::Absent(_) => {
                return Ok(Stopped {
                    ending: None,
                    steps,
                });
            }
        }
    }
    Ok(Stopped {
        ending: None,
        steps,
    })
}
