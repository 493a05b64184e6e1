//! One line of a session.
ghost use Rattle.std.specs.Prelude.{◌≡◌, ◌<◌, ◌-◌, ◌^◌, Bool, OnErr, OnOk, is_err};
ghost use Rattle.vax_outside.specs.Channels.{Grew, GrewByPrefix, only};
ghost use Rattle.vax_outside.specs.Faults.{CountsFailure};
ghost use Rattle.vax_outside.specs.declared.faults.Failures.{Failures};
ghost use Rattle.vax_machine.specs.Meaning.{engine};
ghost use Rattle.vax_console.specs.Ends.{OnlyReplied, scene};
ghost use Rattle.vax_debug_acts.specs.Pages.{pages_at};
ghost use Rattle.vax_debug_acts.specs.Sessions.{Counts};
ghost use Rattle.vax_debug_words.specs.Requests.{IsProperLine};
ghost use Rattle.vax_debug_words.specs.declared.request.Line.TheVariants as line;
ghost use Rattle.vax_debug_acts.specs.Acting.{ActsFrom, BreaksFrom};
ghost use Rattle.vax_debug_session.specs.Exchanges.{exchange};
ghost use Rattle.vax_debug_session.specs.Faults.{FailedIf, faults_of};
ghost use Rattle.vax_debug_session.specs.Holding.{breaks_behind, carried_out, end_asked, prompt, stage, terms};
ghost use Rattle.vax_debug_session.specs.Turns.{Answers, HoldsOn, end_of};

use crate::SessionEnd;
use crate::requests::answer;
use vax_debug_acts::{Failure, Plan, Setting};
use vax_debug_views::show_refusal;
use vax_debug_words::{Line as Said, Request, read_line};
use vax_input::{Line, Lines};
use vax_machine::Machine;
use vax_outside::{Chan, Failed, PageFile, Sink, put_all};

/// The end that a request is for, if it is for one.
fn end_for(request: &Request) -> Option<SessionEnd>
    ensures { result ≡ end_asked (line.Request request.now) }
{
    match request {
        Request::Quit => Some(SessionEnd::Quit),
        Request::Save => Some(SessionEnd::Save),
        Request::Restart => Some(SessionEnd::Restart),
        _ => None,
    }
}

/// The end that a line asks for, if it asks for one.
fn end_asked(said: &Said) -> Option<SessionEnd>
    ensures { result ≡ end_asked said.now }
{
    match said {
        Said::Request(request) => end_for(request),
        Said::Blank => None,
        Said::Refused(_) => None,
    }
}

/// Carries out what a line says, or refuses it.
fn carry_out<F: PageFile, K: Sink>(
    said: &Said,
    line: &[u8],
    setting: &Setting,
    breaks: &mut Plan,
    machine: &mut Machine,
    file: &mut F,
    sink: &mut K,
) -> Result<(), Failure>
    requires proper { IsProperLine said.now }
    requires few_turns { setting.now.limits.now.turns < 2 ^ 64 - 2 }
    ensures acts { ActsFrom
        (scene (engine machine.old) (F.contents file.old) (K.contents sink.old))
        (scene (engine machine.new) (F.contents file.new) (K.contents sink.new)) result
        setting.now.limits.now
        (carried_out setting.now.limits.now.steps setting.now.legend.now breaks.old
        (exchange line.now (pages_at (engine machine.old))) said.now) }
    ensures breaks { BreaksFrom
        (scene (engine machine.old) (F.contents file.old) (K.contents sink.old)) result breaks.new
        (breaks_behind setting.now.legend.now breaks.old said.now) }
    ensures counts { Counts result (F.faults file.old) (F.faults file.new) (K.faults sink.old)
        (K.faults sink.new) }
    ensures only { OnlyReplied (K.contents sink.old) (K.contents sink.new) }
{
    match said {
        Said::Blank => Ok(()),
        Said::Request(request) => answer(request, setting, breaks, machine, file, sink),
        Said::Refused(refusal) => show_refusal(*refusal, line, sink),
    }
}

/// How a failure ends a session.
fn end_of(failure: Failure) -> SessionEnd
    ensures { result ≡ end_of failure }
{
    match failure {
        Failure::Turns => SessionEnd::Turns,
        Failure::PageFault => SessionEnd::PageFault,
        Failure::WriteFault => SessionEnd::WriteFault,
    }
}

/// Answers a line, or tells how the session ends with it.
fn answer_line<F: PageFile, K: Sink>(
    line: &[u8],
    setting: &Setting,
    breaks: &mut Plan,
    machine: &mut Machine,
    file: &mut F,
    sink: &mut K,
) -> Option<SessionEnd>
    requires few_turns { setting.now.limits.now.turns < 2 ^ 64 - 2 }
    ensures answers { (prompts : Bool) →
        Answers result (terms setting.now.limits.now setting.now.legend.now prompts)
        breaks.old breaks.new (exchange line.now (pages_at (engine machine.old)))
        (scene (engine machine.old) (F.contents file.old) (K.contents sink.old))
        (scene (engine machine.new) (F.contents file.new) (K.contents sink.new)) }
    ensures failed { (lines : Failures) → FailedIf result
        (faults_of (F.faults file.old) (K.faults sink.old) lines)
        (faults_of (F.faults file.new) (K.faults sink.new) lines) }
    ensures only { OnlyReplied (K.contents sink.old) (K.contents sink.new) }
{
    let said = read_line(line);
    match end_asked(&said) {
        Some(end) => return Some(end),
        None => {}
    }
    match carry_out(&said, line, setting, breaks, machine, file, sink) {
        Ok(()) => None,
        Err(failure) => Some(end_of(failure)),
    }
}

/// Writes a prompt, if one is to be written.
fn write_prompt<K: Sink>(prompts: bool, sink: &mut K) -> Result<(), Failed>
    ensures ok { OnOk result (Grew (K.contents sink.old) (K.contents sink.new)
        (only Chan.Report (prompt prompts))) }
    ensures prefix { OnErr result (GrewByPrefix (K.contents sink.old) (K.contents sink.new)
        (only Chan.Report (prompt prompts))) }
    ensures counts { CountsFailure (is_err result) (K.faults sink.old) (K.faults sink.new) }
{
    if prompts {
        put_all(sink, Chan::Report, b"vax> ")
    } else {
        Ok(())
    }
}

/// Reads a line and answers it, or tells how the session ends.
pub(crate) fn hold_line<L: Lines, F: PageFile, K: Sink>(
    lines: &mut L,
    prompts: bool,
    setting: &Setting,
    breaks: &mut Plan,
    machine: &mut Machine,
    file: &mut F,
    sink: &mut K,
) -> Option<SessionEnd>
    requires few_turns { setting.now.limits.now.turns < 2 ^ 64 - 2 }
    ensures holds { HoldsOn result
        (terms setting.now.limits.now setting.now.legend.now prompts) breaks.old breaks.new
        (stage (scene (engine machine.old) (F.contents file.old) (K.contents sink.old))
        (scene (engine machine.new) (F.contents file.new) (K.contents sink.new))
        (L.rest lines.old) (L.rest lines.new)) }
    ensures failed { FailedIf result
        (faults_of (F.faults file.old) (K.faults sink.old) (L.faults lines.old))
        (faults_of (F.faults file.new) (K.faults sink.new) (L.faults lines.new)) }
    ensures only { OnlyReplied (K.contents sink.old) (K.contents sink.new) }
{
    match write_prompt(prompts, sink) {
        Ok(()) => {}
        Err(Failed) => return Some(SessionEnd::WriteFault),
    }
    let mut line = Line::new();
    match lines.read_line(&mut line) {
        Ok(true) => answer_line(line.as_slice(), setting, breaks, machine, file, sink),
        Ok(false) => Some(SessionEnd::Read),
        Err(Failed) => Some(SessionEnd::LineFault),
    }
}
