//! The requests that change registers and memory.
ghost use Rattle.std.specs.Prelude.{◌≡◌, ◌<◌, ◌≤◌, length, take};
ghost use Rattle.vax_machine.specs.Meaning.{engine};
ghost use Rattle.vax_machine.specs.declared.event.Limits.{Limits};
ghost use Rattle.vax_console.specs.Ends.{OnlyReplied, scene};
ghost use Rattle.vax_debug.specs.Sessions.{Counts};
ghost use Rattle.vax_debug_words.specs.Expressions.{IsExpression};
ghost use Rattle.vax_debug_words.specs.Requests.{IsValue};
ghost use Rattle.vax_debug_words.specs.declared.request.Value.TheVariants.{Number};
ghost use Rattle.vax_debug_acts.specs.Acting.{ActsFrom};
ghost use Rattle.vax_debug_acts.specs.Acts.{fits, memory_act, number_act, number_bytes, put_act, put_line, put_value_act, register_act, register_put, width};

use crate::reply::{reply_with, tell_no_number, tell_no_value, tell_too_large};
use crate::stops::Setting;
use vax_debug::{Failure, deposit, deposit_register, evaluate};
use vax_debug_words::{Expression, Size, Value};
use vax_machine::Machine;
use vax_outside::{PageFile, Sink};

/// Whether bytes were put there.
fn put_line(put: bool) -> &'static [u8]
    ensures { result.now ≡ put_line put }
{
    if put { b"OK\n" } else { b"?NO SUCH BYTES\n" }
}

/// Puts bytes into memory, where they may be put.
fn put<F: PageFile, K: Sink>(
    address: u32,
    bytes: &[u8],
    machine: &mut Machine,
    file: &mut F,
    sink: &mut K,
) -> Result<(), Failure>
    requires some { 1 ≤ length bytes.now }
    requires few { length bytes.now ≤ 64 }
    ensures acts { (limits : Limits) → ActsFrom
        (scene (engine machine.old) (F.contents file.old) (K.contents sink.old))
        (scene (engine machine.new) (F.contents file.new) (K.contents sink.new)) result
        limits
        (put_act address bytes.now) }
    ensures counts { Counts result (F.faults file.old) (F.faults file.new) (K.faults sink.old)
        (K.faults sink.new) }
    ensures only { OnlyReplied (K.contents sink.old) (K.contents sink.new) }
{
    match deposit(address, bytes, machine, file) {
        Ok(put) => reply_with(put_line(put), sink),
        Err(_) => Err(Failure::PageFault),
    }
}

/// How many bytes a number has.
fn width(size: Size) -> usize
    ensures exact { result ≡ width size }
    ensures some { 1 ≤ result }
    ensures few { result ≤ 4 }
{
    match size {
        Size::Byte => 1,
        Size::Word => 2,
        Size::Long => 4,
    }
}

/// Whether a size has room for a number: without a sign, or as a negative number.
fn fits(size: Size, number: u32) -> bool
    ensures { result ≡ fits size number }
{
    match size {
        Size::Byte => number <= 0xFF || 0xFFFF_FF80 <= number,
        Size::Word => number <= 0xFFFF || 0xFFFF_8000 <= number,
        Size::Long => true,
    }
}

/// The first of some bytes.
fn first(bytes: &[u8], count: usize) -> &[u8]
    requires { count ≤ length bytes.now }
    ensures exact { result.now ≡ take count bytes.entry.now }
    ensures len { length result.now ≡ count }
{
    bytes.split_at(count).0
}

/// Puts the bytes of a number into memory.
fn put_bytes<F: PageFile, K: Sink>(
    address: u32,
    size: Size,
    number: u32,
    machine: &mut Machine,
    file: &mut F,
    sink: &mut K,
) -> Result<(), Failure>
    ensures acts { (limits : Limits) → ActsFrom
        (scene (engine machine.old) (F.contents file.old) (K.contents sink.old))
        (scene (engine machine.new) (F.contents file.new) (K.contents sink.new)) result
        limits
        (put_act address (number_bytes size number)) }
    ensures counts { Counts result (F.faults file.old) (F.faults file.new) (K.faults sink.old)
        (K.faults sink.new) }
    ensures only { OnlyReplied (K.contents sink.old) (K.contents sink.new) }
{
    let bytes = number.to_le_bytes();
    put(address, first(&bytes, width(size)), machine, file, sink)
}

/// Puts a number into memory, if its size has room for it.
fn put_number<F: PageFile, K: Sink>(
    address: u32,
    size: Size,
    number: u32,
    machine: &mut Machine,
    file: &mut F,
    sink: &mut K,
) -> Result<(), Failure>
    ensures acts { (limits : Limits) → ActsFrom
        (scene (engine machine.old) (F.contents file.old) (K.contents sink.old))
        (scene (engine machine.new) (F.contents file.new) (K.contents sink.new)) result
        limits
        (number_act address size number) }
    ensures counts { Counts result (F.faults file.old) (F.faults file.new) (K.faults sink.old)
        (K.faults sink.new) }
    ensures only { OnlyReplied (K.contents sink.old) (K.contents sink.new) }
{
    if fits(size, number) {
        put_bytes(address, size, number, machine, file, sink)
    } else {
        tell_too_large(sink)
    }
}

/// Puts the value of an expression into memory.
fn put_result<F: PageFile, K: Sink>(
    address: u32,
    size: Size,
    number: &Expression,
    setting: &Setting,
    machine: &mut Machine,
    file: &mut F,
    sink: &mut K,
) -> Result<(), Failure>
    requires { IsExpression number.now }
    ensures acts { ActsFrom
        (scene (engine machine.old) (F.contents file.old) (K.contents sink.old))
        (scene (engine machine.new) (F.contents file.new) (K.contents sink.new)) result
        setting.now.limits.now
        (put_value_act setting.now.legend.now address (Number size number.now)) }
    ensures counts { Counts result (F.faults file.old) (F.faults file.new) (K.faults sink.old)
        (K.faults sink.new) }
    ensures only { OnlyReplied (K.contents sink.old) (K.contents sink.new) }
{
    match evaluate(setting.legend, number, machine, file) {
        Ok(Some(found)) => put_number(address, size, found, machine, file, sink),
        Ok(None) => tell_no_number(setting.legend, number, sink),
        Err(_) => Err(Failure::PageFault),
    }
}

/// Puts a value into memory.
fn put_value<F: PageFile, K: Sink>(
    address: u32,
    given: &Value,
    setting: &Setting,
    machine: &mut Machine,
    file: &mut F,
    sink: &mut K,
) -> Result<(), Failure>
    requires { IsValue given.now }
    ensures acts { ActsFrom
        (scene (engine machine.old) (F.contents file.old) (K.contents sink.old))
        (scene (engine machine.new) (F.contents file.new) (K.contents sink.new)) result
        setting.now.limits.now
        (put_value_act setting.now.legend.now address given.now) }
    ensures counts { Counts result (F.faults file.old) (F.faults file.new) (K.faults sink.old)
        (K.faults sink.new) }
    ensures only { OnlyReplied (K.contents sink.old) (K.contents sink.new) }
{
    match given {
        Value::Number(size, number) => {
            put_result(address, *size, number, setting, machine, file, sink)
        }
        Value::Quadword(number) => { put(address, &number.to_le_bytes(), machine, file, sink) }
        Value::TooLarge => tell_too_large(sink),
        Value::Text(text) => put(address, text.as_slice(), machine, file, sink),
    }
}

/// Puts a value into memory, where it may be put.
pub fn deposit_into_memory<F: PageFile, K: Sink>(
    to: &Expression,
    given: &Value,
    setting: &Setting,
    machine: &mut Machine,
    file: &mut F,
    sink: &mut K,
) -> Result<(), Failure>
    requires proper { IsExpression to.now }
    requires valued { IsValue given.now }
    ensures acts { ActsFrom
        (scene (engine machine.old) (F.contents file.old) (K.contents sink.old))
        (scene (engine machine.new) (F.contents file.new) (K.contents sink.new)) result
        setting.now.limits.now
        (memory_act setting.now.legend.now to.now given.now) }
    ensures counts { Counts result (F.faults file.old) (F.faults file.new) (K.faults sink.old)
        (K.faults sink.new) }
    ensures only { OnlyReplied (K.contents sink.old) (K.contents sink.new) }
{
    match evaluate(setting.legend, to, machine, file) {
        Ok(Some(address)) => put_value(address, given, setting, machine, file, sink),
        Ok(None) => tell_no_value(sink),
        Err(_) => Err(Failure::PageFault),
    }
}

/// Puts a number into a register.
fn put_into_register<F: PageFile, K: Sink>(
    register: u8,
    value: u32,
    machine: &mut Machine,
    file: &F,
    sink: &mut K,
) -> Result<(), Failure>
    requires { register < 16 }
    ensures acts { (limits : Limits) → ActsFrom
        (scene (engine machine.old) (F.contents file.now) (K.contents sink.old))
        (scene (engine machine.new) (F.contents file.now) (K.contents sink.new)) result
        limits (register_put register value) }
    ensures counts { Counts result (F.faults file.now) (F.faults file.now) (K.faults sink.old)
        (K.faults sink.new) }
    ensures only { OnlyReplied (K.contents sink.old) (K.contents sink.new) }
{
    let put = deposit_register(register, value, machine, file);
    reply_with(put_line(put), sink)
}

/// Puts the value of an expression into a register.
pub fn deposit_into_register<F: PageFile, K: Sink>(
    register: u8,
    given: &Expression,
    setting: &Setting,
    machine: &mut Machine,
    file: &mut F,
    sink: &mut K,
) -> Result<(), Failure>
    requires number { register < 16 }
    requires proper { IsExpression given.now }
    ensures acts { ActsFrom
        (scene (engine machine.old) (F.contents file.old) (K.contents sink.old))
        (scene (engine machine.new) (F.contents file.new) (K.contents sink.new)) result
        setting.now.limits.now
        (register_act setting.now.legend.now register given.now) }
    ensures counts { Counts result (F.faults file.old) (F.faults file.new) (K.faults sink.old)
        (K.faults sink.new) }
    ensures only { OnlyReplied (K.contents sink.old) (K.contents sink.new) }
{
    match evaluate(setting.legend, given, machine, file) {
        Ok(Some(value)) => put_into_register(register, value, machine, file, sink),
        Ok(None) => tell_no_number(setting.legend, given, sink),
        Err(_) => Err(Failure::PageFault),
    }
}
