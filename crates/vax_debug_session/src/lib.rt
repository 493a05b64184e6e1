//! A session with a debugger: lines that are read one at a time, and answered at once.
//!
//! What the lines make of the flat machine, and what is replied to them, is a fold over the lines (specs/Holding). The machine makes that session, whatever
//! pages are absent. Only two kinds of lines have to do with pages: what they come to depends on those that stand beside the line (specs/Exchanges). Nothing here takes
//! memory.
#![tactic(auto)]

ghost use Rattle.std.specs.Prelude.{◌≡◌, ◌≢◌, ◌<◌, ◌≤◌, ◌^◌, ◌-◌};
ghost use Rattle.vax_outside.specs.Faults.{Rose};
ghost use Rattle.vax_machine.specs.Meaning.{engine};
ghost use Rattle.vax_console.specs.Ends.{ChangesOnce, OnlyReplied, scene};
ghost use Rattle.vax_debug_session.specs.Holding.{Holds, Restarts, stage, terms};

mod requests;
mod turns;

use crate::turns::hold_line;
pub use vax_debug_acts::{Plan, Setting};
use vax_input::Lines;
use vax_machine::Machine;
use vax_outside::{PageFile, Sink};

/// How a session ended.
#[derive(Clone, Copy, PartialEq, Eq)]
pub enum SessionEnd {
    /// A line asked for the end.
    Quit,
    /// A line asked for the state to be saved, and for the end: that is the caller's to do.
    Save,
    /// A line asked for the program at its start again: that is the caller's to do.
    Restart,
    /// No line was left.
    Read,
    /// As many lines were answered as 64 bits count.
    Lines,
    /// The limit of turns was reached.
    Turns,
    /// A call of the page file failed.
    PageFault,
    /// A write failed.
    WriteFault,
    /// A line couldn't be read.
    LineFault,
}

/// Reads lines, and answers each before the next is read ([`vax_debug_words::read_line`]). Replies go to Report, and what the program sends to Out. With a prompt,
/// `vax> ` is written to Report before each line is read. No write is kept back: each has been handed to the sink before the next line is asked for.
///
/// A line that isn't understood changes nothing, and its reply says what may have been meant. A blank one has no reply. The session goes on until a line
/// asks for the end, for the state to be saved or for the program at its start, no line is left, the limit of turns is reached, or a call of the page file, a write or the reading of a line
/// fails. Steps stop where the plan says at its start; it is changed as lines ask for it.
pub fn hold<L: Lines, F: PageFile, K: Sink>(
    lines: &mut L,
    prompts: bool,
    setting: &Setting,
    breaks: &mut Plan,
    machine: &mut Machine,
    file: &mut F,
    sink: &mut K,
) -> SessionEnd
    requires few_turns { setting.now.limits.now.turns < 2 ^ 64 - 2 }
    ensures holds { Holds (terms setting.now.limits.now setting.now.legend.now prompts)
        breaks.old result
        (stage (scene (engine machine.old) (F.contents file.old) (K.contents sink.old))
        (scene (engine machine.new) (F.contents file.new) (K.contents sink.new))
        (L.rest lines.old) (L.rest lines.new)) }
    ensures restarts { result ≡ SessionEnd.Restart →
        Restarts (terms setting.now.limits.now setting.now.legend.now prompts) breaks.old
        breaks.new (stage (scene (engine machine.old) (F.contents file.old) (K.contents sink.old))
        (scene (engine machine.new) (F.contents file.new) (K.contents sink.new))
        (L.rest lines.old) (L.rest lines.new)) }
    ensures only { OnlyReplied (K.contents sink.old) (K.contents sink.new) }
    ensures later { (F.faults file.old).count ≤ (F.faults file.new).count }
    ensures sunk { (K.faults sink.old).count ≤ (K.faults sink.new).count }
    ensures read { (L.faults lines.old).count ≤ (L.faults lines.new).count }
    ensures fault { result ≡ SessionEnd.PageFault → Rose (F.faults file.old) (F.faults file.new) }
    ensures cause { result ≡ SessionEnd.WriteFault → Rose (K.faults sink.old) (K.faults sink.new) }
    ensures broken { result ≡ SessionEnd.LineFault →
        Rose (L.faults lines.old) (L.faults lines.new) }
    ensures unfailed { result ≢ SessionEnd.PageFault → result ≢ SessionEnd.WriteFault →
        (F.faults file.new).count ≡ (F.faults file.old).count }
    ensures failed { ChangesOnce (F.faults file.old) (F.faults file.new) }
    ensures written { result ≢ SessionEnd.WriteFault →
        (K.faults sink.new).count ≡ (K.faults sink.old).count }
    ensures whole { result ≢ SessionEnd.LineFault →
        (L.faults lines.new).count ≡ (L.faults lines.old).count }
{
    for _ in 0..u64::MAX {
        match hold_line(lines, prompts, setting, breaks, machine, file, sink) {
            None => {}
            Some(end) => return end,
        }
    }
    SessionEnd::Lines
}
