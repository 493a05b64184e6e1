//! The frames of calls, as they are shown.
ghost use Rattle.std.specs.Prelude.{◌≡◌, IfOk, Option, is_err};
ghost use Rattle.vax_outside.specs.Channels.{Channels};
ghost use Rattle.vax_outside.specs.Faults.{CountsFailure};
ghost use Rattle.vax_outside.specs.declared.faults.Failures.{Failures};
ghost use Rattle.vax_flat.specs.Step.{Flat};
ghost use Rattle.vax_machine.specs.Meaning.{engine};
ghost use Rattle.vax_console.specs.Ends.{scene};
ghost use Rattle.vax_debug.specs.Calls.{TellsFrom};
ghost use Rattle.vax_debug.specs.Sessions.{Counts, StaysHere};
ghost use Rattle.vax_debug_replies.specs.Frames.{frame_line};
ghost use Rattle.vax_debug_views.specs.Showing.{Replied, Shows};
ghost use Rattle.vax_debug_views.specs.Views.{caller, frame_of, frame_shown, frames_from, frames_shown, innermost, saved};

use crate::contents::{saved, show_contents};
use crate::replying::reply;
use vax_debug::Failure;
use vax_debug_names::Legend;
use vax_debug_replies::{Frame, push_frame};
use vax_machine::Machine;
use vax_outside::{PageFile, Sink, Text};
use vax_pager::PageFault;
use vax_word::Core;

/// The most frames that are shown.
const MOST: u8 = 64;

/// Where the procedure is that runs.
fn innermost(core: &Core) -> Frame
    ensures { result ≡ innermost core.now }
{
    Frame {
        pc: core.regs[15],
        ap: core.regs[12],
        fp: core.regs[13],
    }
}

/// The frame with these longwords, if all are there.
fn frame_of(pc: Option<u32>, ap: Option<u32>, fp: Option<u32>) -> Option<Frame>
    ensures { result ≡ frame_of pc ap fp }
{
    match (pc, ap, fp) {
        (Some(pc), Some(ap), Some(fp)) => Some(Frame { pc, ap, fp }),
        _ => None,
    }
}

/// Where the caller goes on that a frame has saved.
fn saved_frame<F: PageFile>(
    frame: Frame,
    machine: &mut Machine,
    file: &mut F,
) -> Result<Option<Frame>, PageFault>
    ensures tells { (sink : Option Channels) → IfOk result
        (TellsFrom (scene (engine machine.old) (F.contents file.old) sink)
        (λ (m : Flat). frame_of (saved 16 frame m) (saved 8 frame m) (saved 12 frame m))) }
    ensures stays { (sink : Option Channels) →
        StaysHere (scene (engine machine.old) (F.contents file.old) sink)
        (scene (engine machine.new) (F.contents file.new) sink) }
    ensures counts { CountsFailure (is_err result) (F.faults file.old) (F.faults file.new) }
{
    let Ok(pc) = saved(16, frame, machine, file) else {
        return Err(PageFault);
    };
    let Ok(ap) = saved(8, frame, machine, file) else {
        return Err(PageFault);
    };
    match saved(12, frame, machine, file) {
        Ok(fp) => Ok(frame_of(pc, ap, fp)),
        Err(_) => Err(PageFault),
    }
}

/// Where the caller goes on of the procedure with this frame, if it has one.
#[tactic(auto, unfolding(crate::specs::Views::caller))]
fn caller<F: PageFile>(
    frame: Frame,
    machine: &mut Machine,
    file: &mut F,
) -> Result<Option<Frame>, PageFault>
    ensures tells { (sink : Option Channels) → IfOk result
        (TellsFrom (scene (engine machine.old) (F.contents file.old) sink) (caller frame)) }
    ensures stays { (sink : Option Channels) →
        StaysHere (scene (engine machine.old) (F.contents file.old) sink)
        (scene (engine machine.new) (F.contents file.new) sink) }
    ensures counts { CountsFailure (is_err result) (F.faults file.old) (F.faults file.new) }
{
    if frame.fp == 0 {
        Ok(None)
    } else {
        saved_frame(frame, machine, file)
    }
}

/// Replies with the line of a frame.
fn reply_frame<K: Sink>(
    number: u8,
    frame: Frame,
    legend: &Legend,
    sink: &mut K,
) -> Result<(), Failure>
    ensures replied { Replied result (K.contents sink.old) (K.contents sink.new)
        (frame_line legend.now number frame) }
    ensures counts { (file : Failures) →
        Counts result file file (K.faults sink.old) (K.faults sink.new) }
{
    let mut text = Text::new();
    push_frame(&mut text, legend, number, frame);
    reply(text.as_slice(), sink)
}

/// Replies with a frame and what it keeps.
fn show_frame<F: PageFile, K: Sink>(
    number: u8,
    frame: Frame,
    legend: &Legend,
    machine: &mut Machine,
    file: &mut F,
    sink: &mut K,
) -> Result<(), Failure>
    ensures shows { Shows
        (scene (engine machine.old) (F.contents file.old) (K.contents sink.old))
        (scene (engine machine.new) (F.contents file.new) (K.contents sink.new))
        result (frame_shown legend.now number frame) }
    ensures counts { Counts result (F.faults file.old) (F.faults file.new) (K.faults sink.old)
        (K.faults sink.new) }
{
    match reply_frame(number, frame, legend, sink) {
        Ok(()) => show_contents(frame, machine, file, sink),
        Err(failure) => Err(failure),
    }
}

/// Replies with at most 64 frames from this one on.
fn show_frames_from<F: PageFile, K: Sink>(
    frame: Frame,
    legend: &Legend,
    machine: &mut Machine,
    file: &mut F,
    sink: &mut K,
) -> Result<(), Failure>
    ensures shows { Shows
        (scene (engine machine.old) (F.contents file.old) (K.contents sink.old))
        (scene (engine machine.new) (F.contents file.new) (K.contents sink.new))
        result (frames_from legend.now 64 0 frame) }
    ensures counts { Counts result (F.faults file.old) (F.faults file.new) (K.faults sink.old)
        (K.faults sink.new) }
{
    let mut frame = frame;
    for number in 0..MOST {
        match show_frame(number, frame, legend, machine, file, sink) {
            Ok(()) => {}
            Err(failure) => return Err(failure),
        }
        match caller(frame, machine, file) {
            Ok(Some(next)) => frame = next,
            Ok(None) => return Ok(()),
            Err(_) => return Err(Failure::PageFault),
        }
    }
    Ok(())
}

/// Replies with the frames of calls and what they keep, the innermost first: the procedure that runs, and then where each frame goes back to. It ends behind a frame pointer 0, at
/// a frame whose longwords memory hasn't whole, and after 64 frames.
pub fn show_frames<F: PageFile, K: Sink>(
    legend: &Legend,
    machine: &mut Machine,
    file: &mut F,
    sink: &mut K,
) -> Result<(), Failure>
    ensures shows { Shows
        (scene (engine machine.old) (F.contents file.old) (K.contents sink.old))
        (scene (engine machine.new) (F.contents file.new) (K.contents sink.new))
        result (frames_shown legend.now) }
    ensures counts { Counts result (F.faults file.old) (F.faults file.new) (K.faults sink.old)
        (K.faults sink.new) }
{
    let frame = innermost(machine.core());
    show_frames_from(frame, legend, machine, file, sink)
}
