//! A console: examines, changes and runs a machine, as the lines of a script ask.
//!
//! Each line has one line of Report as its reply, but `SHOW`, whose reply is the report of the present state, and blank lines, which have none
//! (specs/Transcript). What the program sends goes to Out. Nothing here takes memory.
#![tactic(auto)]

ghost use Rattle.std.specs.Prelude.{◌≡◌, ◌≢◌, ◌<◌, ◌≤◌, ◌^◌, ◌-◌};
ghost use Rattle.vax_outside.specs.Faults.{Rose};
ghost use Rattle.vax_machine.specs.Console.{IsBetween};
ghost use Rattle.vax_machine.specs.Meaning.{engine};
ghost use Rattle.vax_script.specs.Requests.{readings};
ghost use Rattle.vax_console.specs.Ends.{ChangesOnce, GoesFrom, OnlyReplied, outcome_of, scene};
ghost use Rattle.vax_console.specs.Parts.{IsTooSmallFor, SpendsFrom};
ghost use Rattle.vax_console.specs.Turns.{HoldsFrom};

mod laws;
mod lines;
mod requests;
mod runs;
mod stopped;

pub use crate::laws::sessions_agree;
use crate::lines::carry_out_all;
use crate::stopped::Stopped;
use vax_machine::{Limits, Machine};
use vax_outside::{PageFile, Sink};
use vax_sched::Schedule;

/// How a session ended.
#[derive(Clone, Copy, PartialEq, Eq)]
pub enum SessionEnd {
    /// Every line was carried out or refused.
    Read,
    /// The limit of turns was reached within a `NEXT` or `CONTINUE`.
    Turns,
    /// A call of the page file failed.
    PageFault,
    /// A write failed.
    WriteFault,
}

/// Carries out the lines of a script ([`vax_script::read_line`]), one after the other, and replies to each on Report; what the program sends goes to Out.
///
/// The machine stands between two steps, with no page pinned, as it does at the start and behind a session that was read to its end. `NEXT` and
/// `CONTINUE` run it under the schedule; `limits` are those of the whole session, and its evictions are never listed. A line that is refused changes
/// nothing: `?COMMAND` where it has none of the forms, `?ADDRESS` where a byte to deposit lies in no area or in a page that no mode may write,
/// and `?ENDED` for `NEXT` and `CONTINUE` once the machine has ended.
///
/// The session ends at the limit of turns, where a `NEXT` or `CONTINUE` has steps left, and at the first call of the page file that fails; the machine
/// then stands where the turns that were made have led it, and its report isn't written here. After a write that failed, nothing more is written.
///
/// Few turns are made in vain: at most 41 for each part of the steps that were made, 40 for the part that is open where the session is cut off, and one for each
/// eviction of a pinned page. So a limit of 41 for each part of all lines, and one for each such eviction, is never reached.
pub fn session<F: PageFile, K: Sink>(
    script: &[u8],
    machine: &mut Machine,
    limits: &Limits,
    schedule: &Schedule,
    file: &mut F,
    sink: &mut K,
) -> SessionEnd
    requires few_turns { limits.now.turns < 2 ^ 64 - 2 }
    requires between { IsBetween (engine machine.old) }
    ensures ends { GoesFrom
        (scene (engine machine.old) (F.contents file.old) (K.contents sink.old))
        (scene (engine machine.new) (F.contents file.new) (K.contents sink.new))
        limits.now (readings script.now) (outcome_of result) }
    ensures turns { HoldsFrom
        (scene (engine machine.old) (F.contents file.old) (K.contents sink.old))
        (scene (engine machine.new) (F.contents file.new) (K.contents sink.new))
        limits.now schedule.now (readings script.now) (outcome_of result) }
    ensures few { SpendsFrom
        (scene (engine machine.old) (F.contents file.old) (K.contents sink.old))
        (scene (engine machine.new) (F.contents file.new) (K.contents sink.new))
        limits.now.steps schedule.now (readings script.now) (outcome_of result) }
    ensures complete { result ≡ SessionEnd.Turns → IsTooSmallFor limits.now
        (scene (engine machine.old) (F.contents file.old) (K.contents sink.old))
        (scene (engine machine.new) (F.contents file.new) (K.contents sink.new))
        (readings script.now) }
    ensures between { result ≡ SessionEnd.Read → IsBetween (engine machine.new) }
    ensures later { (F.faults file.old).count ≤ (F.faults file.new).count }
    ensures sunk { (K.faults sink.old).count ≤ (K.faults sink.new).count }
    ensures fault { result ≡ SessionEnd.PageFault → Rose (F.faults file.old) (F.faults file.new) }
    ensures cause { result ≡ SessionEnd.WriteFault → Rose (K.faults sink.old) (K.faults sink.new) }
    ensures unfailed { result ≢ SessionEnd.PageFault → result ≢ SessionEnd.WriteFault →
        (F.faults file.new).count ≡ (F.faults file.old).count }
    ensures failed { ChangesOnce (F.faults file.old) (F.faults file.new) }
    ensures written { result ≢ SessionEnd.WriteFault →
        (K.faults sink.new).count ≡ (K.faults sink.old).count }
    ensures only { OnlyReplied (K.contents sink.old) (K.contents sink.new) }
{
    match carry_out_all(script, machine, limits, schedule, file, sink) {
        Ok(()) => SessionEnd::Read,
        Err(Stopped::Turns) => SessionEnd::Turns,
        Err(Stopped::PageFault) => SessionEnd::PageFault,
        Err(Stopped::WriteFault) => SessionEnd::WriteFault,
    }
}
