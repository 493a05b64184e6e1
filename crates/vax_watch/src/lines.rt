//! The lines of a traced run, on their way to Record.
ghost use Rattle.std.specs.Prelude.{◌≡◌, ◌+◌, ◌<◌, ◌≤◌, ◌++◌, length, OnErr, OnOk, is_err, option_map};
ghost use Rattle.vax_outside.specs.Channels.{GrewByPrefix, only};
ghost use Rattle.vax_outside.specs.Faults.{CountsFailure};
ghost use Rattle.vax_disasm.specs.Seen.{decoded_seen};
ghost use Rattle.vax_watch.specs.Beginning.{beginning};
ghost use Rattle.vax_watch.specs.Listing.{core_line, instruction_text, line_head, line_tail, register_change, register_changes, status_change, watch_head};
ghost use Rattle.vax_watch.specs.Tracing.{PassedOn};

use crate::beginning::Beginning;
use crate::watch::Watch;
use arrayvec::ArrayVec;
use vax_disasm::Decoded;
use vax_outside::{Chan, Failed, Sink, Text, put_all};
use vax_report::push_cell;
use vax_word::Core;

/// How many bytes of lines are held back.
const HELD: usize = 4_096;

/// The most bytes of the lines of one step: 673 of its own, and 36 for each of 16 watches.
const STEP: usize = 1_249;

/// Lines on their way to Record.
pub type Lines = ArrayVec<u8, 4096>;

/// Writes the lines that are held, where there is no room for those of another step.
pub fn make_room<K: Sink>(lines: &mut Lines, sink: &mut K) -> Result<(), Failed>
    ensures ok { OnOk result (PassedOn (K.contents sink.old) (K.contents sink.new) lines.old.items
        lines.new.items) }
    ensures room { OnOk result (length lines.new.items + 1249 ≤ 4096) }
    ensures prefix { OnErr result (GrewByPrefix (K.contents sink.old) (K.contents sink.new)
        (only Chan.Record lines.old.items)) }
    ensures counts { CountsFailure (is_err result) (K.faults sink.old) (K.faults sink.new) }
{
    if lines.len() + STEP <= HELD {
        return Ok(());
    }
    put_all(sink, Chan::Record, lines)?;
    lines.clear();
    Ok(())
}

/// Appends a register that a step changed, with its new value.
#[tactic(auto, unfolding(crate::specs::Listing::register_change))]
fn push_register(text: &mut Text, n: u8, before: &Core, after: &Core)
    requires number { n < 16 }
    requires room { length text.old + 31 ≤ 512 }
    ensures exact { text.new ≡ text.old ++ register_change before.now after.now n }
    ensures short { length text.new ≤ length text.old + 31 }
{
    let value = after.regs[n as usize];
    if before.regs[n as usize] != value {
        text.push(b" R");
        text.push_decimal(u64::from(n));
        text.push(b"=");
        text.push_hex8(value);
    }
}

/// Appends the registers R0 to R14 that a step changed.
fn push_registers(text: &mut Text, before: &Core, after: &Core)
    requires { length text.old + 465 ≤ 512 }
    ensures exact { text.new ≡ text.old ++ register_changes 15 before.now after.now }
    ensures short { length text.new ≤ length text.old + 465 }
{
    for n in 0..15u8 {
        push_register(text, n, before, after);
    }
}

/// Appends the status, where a step changed it.
#[tactic(auto, unfolding(crate::specs::Listing::status_change))]
fn push_status(text: &mut Text, before: &Core, after: &Core)
    requires { length text.old + 13 ≤ 512 }
    ensures exact { text.new ≡ text.old ++ status_change before.now after.now }
    ensures short { length text.new ≤ length text.old + 13 }
{
    if before.psl.0 != after.psl.0 {
        text.push(b" PSL=");
        text.push_hex8(after.psl.0);
    }
}

/// Appends the head of a step's line: its number, its address and the byte there.
#[tactic(auto, unfolding(crate::specs::Listing::line_head, vax_report::specs::Lines::spaced))]
fn push_head(lines: &mut Lines, number: u64, address: u32, byte: Option<u8>)
    requires { length lines.old.items + 33 ≤ 4096 }
    ensures exact { lines.new.items ≡ lines.old.items ++ line_head number address byte }
    ensures short { length lines.new.items ≤ length lines.old.items + 33 }
{
    let mut text = Text::new();
    text.push_decimal(number);
    text.push(b" ");
    text.push_hex8(address);
    push_cell(&mut text, byte);
    lines.try_extend_from_slice(text.as_slice()).unwrap();
}

/// Appends an instruction behind a blank, if there is one.
#[tactic(auto, unfolding(crate::specs::Listing::instruction_text))]
fn push_instruction(lines: &mut Lines, instruction: &Option<Decoded>)
    requires { length lines.old.items + 161 ≤ 4096 }
    ensures exact { lines.new.items
        ≡ lines.old.items ++ instruction_text (option_map decoded_seen instruction.now) }
    ensures short { length lines.new.items ≤ length lines.old.items + 161 }
{
    if let Some(instruction) = instruction {
        lines.try_extend_from_slice(b" ").unwrap();
        lines
            .try_extend_from_slice(instruction.text.as_bytes())
            .unwrap();
    }
}

/// Appends the tail of a step's line: the registers and the status that the step changed.
#[tactic(auto, unfolding(crate::specs::Listing::line_tail))]
fn push_tail(lines: &mut Lines, before: &Core, after: &Core)
    requires { length lines.old.items + 479 ≤ 4096 }
    ensures exact { lines.new.items ≡ lines.old.items ++ line_tail before.now after.now }
    ensures short { length lines.new.items ≤ length lines.old.items + 479 }
{
    let mut text = Text::new();
    push_registers(&mut text, before, after);
    push_status(&mut text, before, after);
    text.push(b"\n");
    lines.try_extend_from_slice(text.as_slice()).unwrap();
}

/// Appends the line of a step.
#[tactic(auto, unfolding(crate::specs::Listing::core_line))]
pub fn push_step(lines: &mut Lines, number: u64, before: &Core, begins: &Beginning, after: &Core)
    requires { length lines.old.items + 673 ≤ 4096 }
    ensures exact { lines.new.items
        ≡ lines.old.items ++ core_line number before.now (beginning begins.now) after.now }
    ensures short { length lines.new.items ≤ length lines.old.items + 673 }
{
    push_head(lines, number, before.regs[15], begins.byte);
    push_instruction(lines, &begins.instruction);
    push_tail(lines, before, after);
}

/// Appends the line of a watch.
#[tactic(auto, unfolding(crate::specs::Listing::watch_head))]
pub fn push_watch(lines: &mut Lines, watch: Watch)
    requires { length lines.old.items + 36 ≤ 4096 }
    ensures exact { lines.new.items ≡ lines.old.items ++ watch_head watch }
    ensures short { length lines.new.items ≤ length lines.old.items + 36 }
{
    let mut text = Text::new();
    text.push(b"WATCH ");
    text.push_hex8(watch.address);
    text.push(b":");
    text.push_decimal(u64::from(watch.count));
    text.push(b"\n");
    lines.try_extend_from_slice(text.as_slice()).unwrap();
}
