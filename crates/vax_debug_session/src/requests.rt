//! What a request comes to.
ghost use Rattle.std.specs.Prelude.{◌<◌, ◌-◌, ◌^◌, IfSome};
ghost use Rattle.vax_machine.specs.Meaning.{engine};
ghost use Rattle.vax_console.specs.Ends.{OnlyReplied, scene};
ghost use Rattle.vax_debug_acts.specs.Pages.{pages_at};
ghost use Rattle.vax_debug_acts.specs.Sessions.{Counts};
ghost use Rattle.vax_debug_words.specs.Expressions.{IsExpression};
ghost use Rattle.vax_debug_words.specs.Requests.{IsProper, IsSpan};
ghost use Rattle.vax_debug_views.specs.Showing.{Shows};
ghost use Rattle.vax_debug_acts.specs.Acting.{ActsFrom, BreaksFrom};
ghost use Rattle.vax_debug_session.specs.Requests.{answered, breaks_after, cleared, cleared_act, disassembled_at, shown};

use vax_debug_acts::{
    Failure, Plan, Setting, clear_all, clear_at, deposit_into_field, deposit_into_memory,
    deposit_into_register, deposit_into_status, evict_all, evict_at, go, leave, over, step,
    stop_at, turn, until, watch,
};
use vax_debug_names::Legend;
use vax_debug_views::{
    disassemble, disassemble_here, show_breaks, show_field, show_frames, show_help, show_memory,
    show_pages, show_queue, show_register, show_stack, show_status, show_watches,
};
use vax_debug_words::{Expression, Request, Span};
use vax_machine::Machine;
use vax_outside::{PageFile, Sink};

/// Shows the instructions of a span, or from PC on.
fn disassemble_at<F: PageFile, K: Sink>(
    span: &Option<Span>,
    legend: &Legend,
    machine: &mut Machine,
    file: &mut F,
    sink: &mut K,
) -> Result<(), Failure>
    requires { IfSome span.now IsSpan }
    ensures shows { Shows
        (scene (engine machine.old) (F.contents file.old) (K.contents sink.old))
        (scene (engine machine.new) (F.contents file.new) (K.contents sink.new))
        result (disassembled_at legend.now span.now) }
    ensures counts { Counts result (F.faults file.old) (F.faults file.new) (K.faults sink.old)
        (K.faults sink.new) }
{
    match span {
        Some(span) => disassemble(span, legend, machine, file, sink),
        None => disassemble_here(legend, machine, file, sink),
    }
}

/// Shows what a request asks for; nothing where it asks for something else.
#[tactic(auto, unfolding(vax_debug_words::specs::Requests::IsProper))]
fn show<F: PageFile, K: Sink>(
    request: &Request,
    legend: &Legend,
    breaks: &Plan,
    machine: &mut Machine,
    file: &mut F,
    sink: &mut K,
) -> Result<(), Failure>
    requires { IsProper request.now }
    ensures shows { Shows
        (scene (engine machine.old) (F.contents file.old) (K.contents sink.old))
        (scene (engine machine.new) (F.contents file.new) (K.contents sink.new))
        result (shown legend.now breaks.now (pages_at (engine machine.old)) request.now) }
    ensures counts { Counts result (F.faults file.old) (F.faults file.new) (K.faults sink.old)
        (K.faults sink.new) }
{
    match request {
        Request::ExamineRegister(register) => show_register(*register, machine, file, sink),
        Request::ExamineStatus => show_status(machine, file, sink),
        Request::ExamineField(field) => show_field(*field, machine, file, sink),
        Request::ExamineMemory(form, span) => {
            show_memory(*form, span, legend, machine, file, sink)
        }
        Request::Disassemble(span) => disassemble_at(span, legend, machine, file, sink),
        Request::Show => show_breaks(legend, &breaks.breaks, sink),
        Request::ShowWatches => show_watches(legend, &breaks.watches, sink),
        Request::Where => show_frames(legend, machine, file, sink),
        Request::Stack(count) => show_stack(*count, legend, machine, file, sink),
        Request::Queue(head) => show_queue(head, legend, machine, file, sink),
        Request::Help(command) => show_help(*command, sink),
        Request::Pages => show_pages(legend, machine, sink),
        _ => Ok(()),
    }
}

/// Steps aren't to stop at an address any more, or at any.
fn clear<F: PageFile, K: Sink>(
    at: &Option<Expression>,
    setting: &Setting,
    breaks: &mut Plan,
    machine: &mut Machine,
    file: &mut F,
    sink: &mut K,
) -> Result<(), Failure>
    requires { IfSome at.now IsExpression }
    ensures acts { ActsFrom
        (scene (engine machine.old) (F.contents file.old) (K.contents sink.old))
        (scene (engine machine.new) (F.contents file.new) (K.contents sink.new)) result
        setting.now.limits.now
        (cleared_act setting.now.legend.now at.now) }
    ensures breaks { BreaksFrom
        (scene (engine machine.old) (F.contents file.old) (K.contents sink.old)) result breaks.new
        (cleared setting.now.legend.now breaks.old at.now) }
    ensures counts { Counts result (F.faults file.old) (F.faults file.new) (K.faults sink.old)
        (K.faults sink.new) }
    ensures only { OnlyReplied (K.contents sink.old) (K.contents sink.new) }
{
    match at {
        Some(at) => clear_at(at, setting, breaks, machine, file, sink),
        None => clear_all(breaks, sink),
    }
}

/// Does what a request asks for, and replies.
#[tactic(auto, unfolding(vax_debug_words::specs::Requests::IsProper))]
pub(crate) fn answer<F: PageFile, K: Sink>(
    request: &Request,
    setting: &Setting,
    breaks: &mut Plan,
    machine: &mut Machine,
    file: &mut F,
    sink: &mut K,
) -> Result<(), Failure>
    requires proper { IsProper request.now }
    requires few_turns { setting.now.limits.now.turns < 2 ^ 64 - 2 }
    ensures acts { ActsFrom
        (scene (engine machine.old) (F.contents file.old) (K.contents sink.old))
        (scene (engine machine.new) (F.contents file.new) (K.contents sink.new)) result
        setting.now.limits.now
        (answered setting.now.limits.now.steps setting.now.legend.now breaks.old
        (pages_at (engine machine.old)) request.now) }
    ensures breaks { BreaksFrom
        (scene (engine machine.old) (F.contents file.old) (K.contents sink.old)) result breaks.new
        (breaks_after setting.now.legend.now breaks.old request.now) }
    ensures counts { Counts result (F.faults file.old) (F.faults file.new) (K.faults sink.old)
        (K.faults sink.new) }
    ensures only { OnlyReplied (K.contents sink.old) (K.contents sink.new) }
{
    match request {
        Request::DepositRegister { register, value } => {
            deposit_into_register(*register, value, setting, machine, file, sink)
        }
        Request::DepositMemory { to, value } => {
            deposit_into_memory(to, value, setting, machine, file, sink)
        }
        Request::DepositStatus(value) => {
            deposit_into_status(value, setting, machine, file, sink)
        }
        Request::DepositField(field, value) => {
            deposit_into_field(*field, value, setting, machine, file, sink)
        }
        Request::Step(count) => step(*count, setting, breaks, machine, file, sink),
        Request::Over => over(setting, breaks, machine, file, sink),
        Request::Out => leave(setting, breaks, machine, file, sink),
        Request::Go => go(setting, breaks, machine, file, sink),
        Request::Until(to) => until(to, setting, breaks, machine, file, sink),
        Request::Break(at) => stop_at(at, setting, breaks, machine, file, sink),
        Request::Watch(at) => watch(at, setting, breaks, machine, file, sink),
        Request::Clear(at) => clear(at, setting, breaks, machine, file, sink),
        Request::Turn => turn(setting, breaks, machine, file, sink),
        Request::Evict(at) => evict_at(at, setting, machine, file, sink),
        Request::EvictAll => evict_all(machine, file, sink),
        request => show(request, setting.legend, breaks, machine, file, sink),
    }
}
