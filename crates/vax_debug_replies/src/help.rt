//! How commands are used, and why a line isn't understood.
ghost use Rattle.std.specs.Prelude.{◌≡◌, OnErr, OnOk, is_err};
ghost use Rattle.std.specs.List.{flat_map};
ghost use Rattle.vax_outside.specs.Channels.{Grew, GrewByPrefix, only};
ghost use Rattle.vax_outside.specs.Faults.{CountsFailure};
ghost use Rattle.vax_debug_words.specs.Commands.{commands};
ghost use Rattle.vax_debug_words.specs.Requests.{is_meant};
ghost use Rattle.vax_debug_replies.specs.Help.{breaks_shown, help, refused, refusal_line, usage_if, usage_line, usages};
ghost use Rattle.vax_debug_replies.specs.Stops.{break_line};

use crate::stops::push_break_line;
use vax_debug_names::Legend;
use vax_debug_words::{COMMANDS, Command, Refusal, is_meant, usage};
use vax_outside::{Chan, Failed, Sink, Text, put_all};

/// Writes how a command is used.
fn write_usage<K: Sink>(command: Command, sink: &mut K) -> Result<(), Failed>
    ensures ok { OnOk result (Grew (K.contents sink.old) (K.contents sink.new)
        (only Chan.Report (usage_line command))) }
    ensures prefix { OnErr result (GrewByPrefix (K.contents sink.old) (K.contents sink.new)
        (only Chan.Report (usage_line command))) }
    ensures counts { CountsFailure (is_err result) (K.faults sink.old) (K.faults sink.new) }
{
    put_all(sink, Chan::Report, usage(command))?;
    put_all(sink, Chan::Report, b"\n")
}

/// Writes how a command is used, if a line that was refused may have meant it.
fn write_if_meant<K: Sink>(
    refusal: Refusal,
    line: &[u8],
    command: Command,
    sink: &mut K,
) -> Result<(), Failed>
    ensures ok { OnOk result (Grew (K.contents sink.old) (K.contents sink.new)
        (only Chan.Report (usage_if refusal line.now command))) }
    ensures prefix { OnErr result (GrewByPrefix (K.contents sink.old) (K.contents sink.new)
        (only Chan.Report (usage_if refusal line.now command))) }
    ensures counts { CountsFailure (is_err result) (K.faults sink.old) (K.faults sink.new) }
{
    if is_meant(refusal, line, command) {
        write_usage(command, sink)
    } else {
        Ok(())
    }
}

/// Writes how those of some commands are used that a line may have meant.
fn write_usages<K: Sink>(
    refusal: Refusal,
    line: &[u8],
    among: &[Command],
    sink: &mut K,
) -> Result<(), Failed>
    ensures ok { OnOk result (Grew (K.contents sink.old) (K.contents sink.new)
        (only Chan.Report (usages refusal line.now among.now))) }
    ensures prefix { OnErr result (GrewByPrefix (K.contents sink.old) (K.contents sink.new)
        (only Chan.Report (usages refusal line.now among.now))) }
    ensures counts { CountsFailure (is_err result) (K.faults sink.old) (K.faults sink.new) }
{
    for command in among {
        write_if_meant(refusal, line, *command, sink)?;
    }
    Ok(())
}

/// Why a line isn't understood.
fn refusal_line(refusal: Refusal) -> &'static [u8]
    ensures { result.now ≡ refusal_line refusal }
{
    match refusal {
        Refusal::Length => b"?LENGTH\n",
        Refusal::Unknown => b"?COMMAND\n",
        Refusal::Several => b"?AMBIGUOUS\n",
        Refusal::Usage(_) => b"?USAGE\n",
    }
}

/// Writes why a line isn't understood, and how the commands are used that it may have meant.
#[tactic(auto, unfolding(crate::specs::Help::refused, vax_debug_words::specs::Commands::commands))]
pub fn write_refusal<K: Sink>(refusal: Refusal, line: &[u8], sink: &mut K) -> Result<(), Failed>
    ensures ok { OnOk result (Grew (K.contents sink.old) (K.contents sink.new)
        (only Chan.Report (refused refusal line.now))) }
    ensures prefix { OnErr result (GrewByPrefix (K.contents sink.old) (K.contents sink.new)
        (only Chan.Report (refused refusal line.now))) }
    ensures counts { CountsFailure (is_err result) (K.faults sink.old) (K.faults sink.new) }
{
    put_all(sink, Chan::Report, refusal_line(refusal))?;
    write_usages(refusal, line, &COMMANDS, sink)
}

/// Writes how some commands are used.
fn write_all_usages<K: Sink>(commands: &[Command], sink: &mut K) -> Result<(), Failed>
    ensures ok { OnOk result (Grew (K.contents sink.old) (K.contents sink.new)
        (only Chan.Report (flat_map usage_line commands.now))) }
    ensures prefix { OnErr result (GrewByPrefix (K.contents sink.old) (K.contents sink.new)
        (only Chan.Report (flat_map usage_line commands.now))) }
    ensures counts { CountsFailure (is_err result) (K.faults sink.old) (K.faults sink.new) }
{
    for command in commands {
        write_usage(*command, sink)?;
    }
    Ok(())
}

/// Writes how one command is used, or all.
#[tactic(auto, unfolding(crate::specs::Help::help, vax_debug_words::specs::Commands::commands))]
pub fn write_help<K: Sink>(command: Option<Command>, sink: &mut K) -> Result<(), Failed>
    ensures ok { OnOk result (Grew (K.contents sink.old) (K.contents sink.new)
        (only Chan.Report (help command))) }
    ensures prefix { OnErr result (GrewByPrefix (K.contents sink.old) (K.contents sink.new)
        (only Chan.Report (help command))) }
    ensures counts { CountsFailure (is_err result) (K.faults sink.old) (K.faults sink.new) }
{
    match command {
        Some(command) => write_usage(command, sink),
        None => write_all_usages(&COMMANDS, sink),
    }
}

/// Writes the line of an address at which steps stop.
fn write_break<K: Sink>(legend: &Legend, address: u32, sink: &mut K) -> Result<(), Failed>
    ensures ok { OnOk result (Grew (K.contents sink.old) (K.contents sink.new)
        (only Chan.Report (break_line legend.now address))) }
    ensures prefix { OnErr result (GrewByPrefix (K.contents sink.old) (K.contents sink.new)
        (only Chan.Report (break_line legend.now address))) }
    ensures counts { CountsFailure (is_err result) (K.faults sink.old) (K.faults sink.new) }
{
    let mut text = Text::new();
    push_break_line(&mut text, legend, address);
    put_all(sink, Chan::Report, text.as_slice())
}

/// Writes the lines of addresses at which steps stop.
fn write_each_break<K: Sink>(legend: &Legend, breaks: &[u32], sink: &mut K) -> Result<(), Failed>
    ensures ok { OnOk result (Grew (K.contents sink.old) (K.contents sink.new)
        (only Chan.Report (flat_map (break_line legend.now) breaks.now))) }
    ensures prefix { OnErr result (GrewByPrefix (K.contents sink.old) (K.contents sink.new)
        (only Chan.Report (flat_map (break_line legend.now) breaks.now))) }
    ensures counts { CountsFailure (is_err result) (K.faults sink.old) (K.faults sink.new) }
{
    for address in breaks {
        write_break(legend, *address, sink)?;
    }
    Ok(())
}

/// Writes the lines of the addresses at which steps stop, or that there is none.
#[tactic(auto, unfolding(crate::specs::Help::breaks_shown))]
pub fn write_breaks<K: Sink>(legend: &Legend, breaks: &[u32], sink: &mut K) -> Result<(), Failed>
    ensures ok { OnOk result (Grew (K.contents sink.old) (K.contents sink.new)
        (only Chan.Report (breaks_shown legend.now breaks.now))) }
    ensures prefix { OnErr result (GrewByPrefix (K.contents sink.old) (K.contents sink.new)
        (only Chan.Report (breaks_shown legend.now breaks.now))) }
    ensures counts { CountsFailure (is_err result) (K.faults sink.old) (K.faults sink.new) }
{
    match breaks.first() {
        None => put_all(sink, Chan::Report, b"NO BREAKS\n"),
        Some(_) => write_each_break(legend, breaks, sink),
    }
}
