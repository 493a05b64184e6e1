//! Makes the machine of a saved state.
ghost use Rattle.std.specs.Prelude.{◌≡◌, ◌≤◌, ◌^◌, None, length, IfErr, IfOk};
ghost use Rattle.vax_space.specs.Faults.{IsSpace};
ghost use Rattle.vax_machine.specs.Machine.{keeping};
ghost use Rattle.vax_machine.specs.Meaning.{engine};
ghost use Rattle.vax_save.specs.Restored.{HasRestored, state};
ghost use Rattle.vax_save.specs.Restoring.{Fails, Gives, restored};

use crate::contents::{contents_at, is_overdone};
use crate::{OPEN, REST, SaveError};
use std::alloc::Global;
use vax_cpu::Open;
use vax_machine::Machine;
use vax_space::Space;
use vax_undo::Term;
use vax_word::Core;

/// The offset of the opcode in the first registers.
const OPCODE_PLACE: u32 = 110;

/// What a saved state says of a machine.
#[derive(Drop)]
pub(crate) struct State {
    pub(crate) steps: u64,
    pub(crate) core: Core,
    pub(crate) latch: Option<Open>,
    pub(crate) term: Term,
    pub(crate) space: Space,
}

/// The state that the bytes say, if nothing is wrong behind the last field or with the string instruction that is open.
#[tactic(auto, unfolding(crate::specs::Restoring::restored, crate::specs::Restoring::ended))]
fn state_at(alloc: Global, bytes: &[u8]) -> Result<State, SaveError>
    requires { length bytes.now ≤ 67108864 }
    ensures gives { Gives state result (restored bytes.now) }
    ensures unsent { IfOk result (λ s. s.term.out ≡ None) }
    ensures few { IfOk result (λ s. s.steps ≤ 10 ^ 18) }
    ensures space { IfOk result (λ s. IsSpace s.space) }
{
    let contents = contents_at(alloc, bytes)?;
    if !contents.end.rest.is_empty() {
        return Err(SaveError::Fault {
            place: contents.end.place,
            kind: REST,
        });
    }
    let input = Vec::from_slice(alloc, contents.input)?;
    let space = Space::new(alloc, contents.areas)?;
    if is_overdone(&space, &contents.core, contents.latch) {
        return Err(SaveError::Fault {
            place: OPCODE_PLACE,
            kind: OPEN,
        });
    }
    Ok(State {
        steps: contents.steps,
        core: contents.core,
        latch: contents.latch,
        term: Term {
            input,
            place: contents.taken,
            out: None,
        },
        space,
    })
}

/// The machine of a saved state, with so many frames, 64 to 32,768: it stands, with every page file, for the place that the bytes say, and counts the
/// steps on from theirs. The first fault is told otherwise, the fields taken in order, an end inside a field before the field's other faults.
pub fn restore(alloc: Global, bytes: &[u8], frames: u32) -> Result<Machine, SaveError>
    requires some { 64 ≤ frames }
    requires few { frames ≤ 32768 }
    requires short { length bytes.now ≤ 67108864 }
    ensures restored { IfOk result (λ m. HasRestored bytes.now frames (engine m)) }
    ensures few { IfOk result (λ m. (engine m).steps ≤ 10 ^ 18) }
    ensures space { IfOk result (λ m. IsSpace (keeping (engine m)).areas) }
    ensures fault { IfErr result (λ e. Fails e (restored bytes.now)) }
{
    let state = state_at(alloc, bytes)?;
    let machine = Machine::again(
        alloc,
        state.space,
        state.core,
        state.term,
        state.latch,
        state.steps,
        frames,
    )?;
    Ok(machine)
}
