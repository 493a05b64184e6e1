//! What the frame of a call keeps, as it is shown: its procedure's arguments, and the registers that it has saved.
ghost use Rattle.std.specs.Prelude.{◌≡◌, ◌≤◌, IfOk, Option, is_err, length, min};
ghost use Rattle.vax_outside.specs.Channels.{Channels};
ghost use Rattle.vax_outside.specs.Faults.{CountsFailure};
ghost use Rattle.vax_outside.specs.declared.faults.Failures.{Failures};
ghost use Rattle.vax_flat.specs.Step.{Flat};
ghost use Rattle.vax_machine.specs.Meaning.{engine};
ghost use Rattle.vax_console.specs.Ends.{scene};
ghost use Rattle.vax_debug.specs.Calls.{TellsFrom};
ghost use Rattle.vax_debug.specs.Sessions.{Counts, StaysHere};
ghost use Rattle.vax_debug_replies.specs.Frames.{arguments_line, saved_line};
ghost use Rattle.vax_debug_views.specs.Showing.{Replied, Shows};
ghost use Rattle.vax_debug_views.specs.Views.{arguments_of, arguments_shown, contents_shown, count_in, first_arguments, mask_in, saved, saved_below, saved_shown};

use crate::replying::reply;
use arrayvec::ArrayVec;
use std::marker::Model;
use vax_debug::{Failure, longword};
use vax_debug_replies::{Frame, SavedRegister, push_arguments_line, push_saved_line};
use vax_machine::Machine;
use vax_outside::{PageFile, Sink, Text};
use vax_pager::PageFault;

/// The most arguments that are shown.
const MOST: u8 = 16;

/// The registers that a frame may have saved: R0 to R11.
const REGISTERS: u8 = 12;

/// Arguments of a procedure, at most 16; None where memory hasn't one whole. Contracts see the list itself.
#[derive(Drop)]
struct Arguments {
    items: ArrayVec<Option<u32>, 16>,
}

impl Model for Arguments {
    ghost use Rattle.std.specs.Prelude.{List, Option, ℕ};

    ghost Value = { List (Option ℕ) };

    ghost view = { λ a. a.items.items };
}

impl Arguments {
    ghost use Rattle.std.specs.Prelude.{◌≡◌, ◌<◌, ◌≤◌, [], ◌∷◌, ◌++◌, length};

    fn new() -> Arguments
        ensures { result ≡ [] }
    {
        Arguments {
            items: ArrayVec::new(),
        }
    }

    fn add(&mut self, argument: Option<u32>)
        requires { length self.old < 16 }
        ensures { self.new ≡ self.old ++ argument ∷ [] }
    {
        self.items.push(argument);
    }

    fn as_slice(&self) -> &[Option<u32>]
        ensures exact { result.now ≡ self.now }
        ensures few { length result.now ≤ 16 }
    {
        &self.items
    }
}

/// Registers that a frame has saved, at most 12. Contracts see the list itself.
#[derive(Drop)]
struct SavedRegisters {
    items: ArrayVec<SavedRegister, 12>,
}

impl Model for SavedRegisters {
    ghost use Rattle.std.specs.Prelude.{List};
    ghost use Rattle.vax_debug_replies.specs.declared.frames.SavedRegister.{SavedRegister};

    ghost Value = { List SavedRegister };

    ghost view = { λ r. r.items.items };
}

impl SavedRegisters {
    ghost use Rattle.std.specs.Prelude.{◌≡◌, ◌<◌, ◌≤◌, [], ◌∷◌, ◌++◌, length};

    fn new() -> SavedRegisters
        ensures { result ≡ [] }
    {
        SavedRegisters {
            items: ArrayVec::new(),
        }
    }

    fn add(&mut self, register: SavedRegister)
        requires { length self.old < 12 }
        ensures { self.new ≡ self.old ++ register ∷ [] }
    {
        self.items.push(register);
    }

    fn as_slice(&self) -> &[SavedRegister]
        ensures exact { result.now ≡ self.now }
        ensures few { length result.now ≤ 12 }
    {
        &self.items
    }
}

/// The longword that a frame has so many bytes behind its pointer.
pub(crate) fn saved<F: PageFile>(
    offset: u32,
    frame: Frame,
    machine: &mut Machine,
    file: &mut F,
) -> Result<Option<u32>, PageFault>
    ensures tells { (sink : Option Channels) → IfOk result
        (TellsFrom (scene (engine machine.old) (F.contents file.old) sink) (saved offset frame)) }
    ensures stays { (sink : Option Channels) →
        StaysHere (scene (engine machine.old) (F.contents file.old) sink)
        (scene (engine machine.new) (F.contents file.new) sink) }
    ensures counts { CountsFailure (is_err result) (F.faults file.old) (F.faults file.new) }
{
    longword(frame.fp.wrapping_add(offset), machine, file)
}

/// How many arguments a list has whose first longword this is: its low byte.
fn count_in(first: Option<u32>) -> u8
    ensures { result ≡ count_in first }
{
    match first {
        None => 0,
        Some(first) => (first % 256) as u8,
    }
}

/// The first so many arguments of a frame's procedure.
fn first_arguments<F: PageFile>(
    count: u8,
    frame: Frame,
    machine: &mut Machine,
    file: &mut F,
) -> Result<Arguments, PageFault>
    requires { count ≤ 16 }
    ensures tells { (sink : Option Channels) → IfOk result
        (TellsFrom (scene (engine machine.old) (F.contents file.old) sink)
        (first_arguments count frame)) }
    ensures stays { (sink : Option Channels) →
        StaysHere (scene (engine machine.old) (F.contents file.old) sink)
        (scene (engine machine.new) (F.contents file.new) sink) }
    ensures counts { CountsFailure (is_err result) (F.faults file.old) (F.faults file.new) }
{
    let mut arguments = Arguments::new();
    for place in 0..count {
        match longword(
            frame.ap.wrapping_add(4 * u32::from(place) + 4),
            machine,
            file,
        ) {
            Ok(argument) => arguments.add(argument),
            Err(_) => return Err(PageFault),
        }
    }
    Ok(arguments)
}

/// Replies with how many arguments there are, and the first of them.
fn reply_arguments<K: Sink>(
    count: u8,
    arguments: &[Option<u32>],
    sink: &mut K,
) -> Result<(), Failure>
    requires { length arguments.now ≤ 16 }
    ensures replied { Replied result (K.contents sink.old) (K.contents sink.new)
        (arguments_line count arguments.now) }
    ensures counts { (file : Failures) →
        Counts result file file (K.faults sink.old) (K.faults sink.new) }
{
    let mut text = Text::new();
    push_arguments_line(&mut text, count, arguments);
    reply(text.as_slice(), sink)
}

/// Replies with the first 16 of so many arguments of a frame's procedure.
fn show_arguments_of<F: PageFile, K: Sink>(
    count: u8,
    frame: Frame,
    machine: &mut Machine,
    file: &mut F,
    sink: &mut K,
) -> Result<(), Failure>
    ensures shows { Shows
        (scene (engine machine.old) (F.contents file.old) (K.contents sink.old))
        (scene (engine machine.new) (F.contents file.new) (K.contents sink.new))
        result (arguments_of count frame) }
    ensures counts { Counts result (F.faults file.old) (F.faults file.new) (K.faults sink.old)
        (K.faults sink.new) }
{
    match first_arguments(count.min(MOST), frame, machine, file) {
        Ok(arguments) => reply_arguments(count, arguments.as_slice(), sink),
        Err(_) => Err(Failure::PageFault),
    }
}

/// Replies with the arguments of a frame's procedure, of which the list at its argument pointer says how many there are.
fn show_arguments<F: PageFile, K: Sink>(
    frame: Frame,
    machine: &mut Machine,
    file: &mut F,
    sink: &mut K,
) -> Result<(), Failure>
    ensures shows { Shows
        (scene (engine machine.old) (F.contents file.old) (K.contents sink.old))
        (scene (engine machine.new) (F.contents file.new) (K.contents sink.new))
        result (arguments_shown frame) }
    ensures counts { Counts result (F.faults file.old) (F.faults file.new) (K.faults sink.old)
        (K.faults sink.new) }
{
    match longword(frame.ap, machine, file) {
        Ok(first) => show_arguments_of(count_in(first), frame, machine, file, sink),
        Err(_) => Err(Failure::PageFault),
    }
}

/// The mask of the registers that a frame has saved whose second longword this is: its bits 27:16.
fn mask_in(word: Option<u32>) -> u32
    ensures { result ≡ mask_in word }
{
    match word {
        None => 0,
        Some(word) => word / 0x1_0000 % 0x1000,
    }
}

/// The registers that a frame has saved: those that a mask names, whose values lie behind its first five longwords.
fn saved_registers<F: PageFile>(
    mask: u32,
    frame: Frame,
    machine: &mut Machine,
    file: &mut F,
) -> Result<SavedRegisters, PageFault>
    ensures tells { (sink : Option Channels) → IfOk result
        (TellsFrom (scene (engine machine.old) (F.contents file.old) sink)
        (saved_below 12 mask frame)) }
    ensures stays { (sink : Option Channels) →
        StaysHere (scene (engine machine.old) (F.contents file.old) sink)
        (scene (engine machine.new) (F.contents file.new) sink) }
    ensures counts { CountsFailure (is_err result) (F.faults file.old) (F.faults file.new) }
{
    let mut registers = SavedRegisters::new();
    let mut offset = 20;
    for number in 0..REGISTERS {
        if (mask >> number) % 2 == 0 {
            continue;
        }
        match saved(offset, frame, machine, file) {
            Ok(value) => registers.add(SavedRegister { number, value }),
            Err(_) => return Err(PageFault),
        }
        offset += 4;
    }
    Ok(registers)
}

/// Replies with the registers that a frame has saved.
fn reply_saved<K: Sink>(registers: &[SavedRegister], sink: &mut K) -> Result<(), Failure>
    requires { length registers.now ≤ 12 }
    ensures replied { Replied result (K.contents sink.old) (K.contents sink.new)
        (saved_line registers.now) }
    ensures counts { (file : Failures) →
        Counts result file file (K.faults sink.old) (K.faults sink.new) }
{
    let mut text = Text::new();
    push_saved_line(&mut text, registers);
    reply(text.as_slice(), sink)
}

/// Replies with the registers that a frame has saved which a mask names.
fn show_saved_of<F: PageFile, K: Sink>(
    mask: u32,
    frame: Frame,
    machine: &mut Machine,
    file: &mut F,
    sink: &mut K,
) -> Result<(), Failure>
    ensures shows { Shows
        (scene (engine machine.old) (F.contents file.old) (K.contents sink.old))
        (scene (engine machine.new) (F.contents file.new) (K.contents sink.new))
        result (λ (m : Flat). saved_line (saved_below 12 mask frame m)) }
    ensures counts { Counts result (F.faults file.old) (F.faults file.new) (K.faults sink.old)
        (K.faults sink.new) }
{
    match saved_registers(mask, frame, machine, file) {
        Ok(registers) => reply_saved(registers.as_slice(), sink),
        Err(_) => Err(Failure::PageFault),
    }
}

/// Replies with the registers that a frame has saved, of which its second longword has the mask.
fn show_saved<F: PageFile, K: Sink>(
    frame: Frame,
    machine: &mut Machine,
    file: &mut F,
    sink: &mut K,
) -> Result<(), Failure>
    ensures shows { Shows
        (scene (engine machine.old) (F.contents file.old) (K.contents sink.old))
        (scene (engine machine.new) (F.contents file.new) (K.contents sink.new))
        result (saved_shown frame) }
    ensures counts { Counts result (F.faults file.old) (F.faults file.new) (K.faults sink.old)
        (K.faults sink.new) }
{
    match saved(4, frame, machine, file) {
        Ok(word) => show_saved_of(mask_in(word), frame, machine, file, sink),
        Err(_) => Err(Failure::PageFault),
    }
}

/// Replies with what the frame of a call keeps: the arguments of its procedure, and the registers that it has saved. Behind a frame pointer 0 there is no frame.
pub(crate) fn show_contents<F: PageFile, K: Sink>(
    frame: Frame,
    machine: &mut Machine,
    file: &mut F,
    sink: &mut K,
) -> Result<(), Failure>
    ensures shows { Shows
        (scene (engine machine.old) (F.contents file.old) (K.contents sink.old))
        (scene (engine machine.new) (F.contents file.new) (K.contents sink.new))
        result (contents_shown frame) }
    ensures counts { Counts result (F.faults file.old) (F.faults file.new) (K.faults sink.old)
        (K.faults sink.new) }
{
    if frame.fp == 0 {
        return Ok(());
    }
    match show_arguments(frame, machine, file, sink) {
        Ok(()) => show_saved(frame, machine, file, sink),
        Err(failure) => Err(failure),
    }
}
