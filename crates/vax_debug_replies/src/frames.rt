//! The lines of the frames of calls.
ghost use Rattle.std.specs.Prelude.{◌≡◌, ◌+◌, ◌*◌, ◌≤◌, ◌++◌, length};
ghost use Rattle.std.specs.List.{flat_map};
ghost use Rattle.vax_debug_replies.specs.Frames.{argument_text, arguments_line, count_text, counted_arguments, frame_line, longword_text, more_text, register_text, saved_line};

use crate::places::push_place;
use vax_debug_names::Legend;
use vax_outside::Text;

/// Where a procedure is: its program counter, argument pointer and frame pointer.
#[derive(Clone, Copy, PartialEq, Eq)]
pub struct Frame {
    pub pc: u32,
    pub ap: u32,
    pub fp: u32,
}

/// A register that a frame has saved, with its value, if memory has that whole.
#[derive(Clone, Copy, Default, PartialEq, Eq)]
pub struct SavedRegister {
    pub number: u8,
    pub value: Option<u32>,
}

/// Appends the line of a frame: how many calls it is away from the innermost, where its procedure is, and its frame and argument pointers.
#[tactic(auto, unfolding(crate::specs::Frames::frame_line))]
pub fn push_frame(text: &mut Text, legend: &Legend, number: u8, frame: Frame)
    requires { length text.old + 95 ≤ 512 }
    ensures exact { text.new ≡ text.old ++ frame_line legend.now number frame }
    ensures short { length text.new ≤ length text.old + 95 }
{
    text.push_decimal(u64::from(number));
    text.push(b" ");
    push_place(text, legend, frame.pc);
    text.push(b" FP ");
    text.push_hex8(frame.fp);
    text.push(b" AP ");
    text.push_hex8(frame.ap);
    text.push(b"\n");
}

/// Appends a longword in eight digits, or a question mark where there is none.
fn push_longword(text: &mut Text, longword: Option<u32>)
    requires { length text.old + 8 ≤ 512 }
    ensures exact { text.new ≡ text.old ++ longword_text longword }
    ensures short { length text.new ≤ length text.old + 8 }
{
    match longword {
        None => text.push(b"?"),
        Some(longword) => text.push_hex8(longword),
    }
}

/// Appends an argument.
fn push_argument(text: &mut Text, argument: Option<u32>)
    requires { length text.old + 9 ≤ 512 }
    ensures exact { text.new ≡ text.old ++ argument_text argument }
    ensures short { length text.new ≤ length text.old + 9 }
{
    text.push(b" ");
    push_longword(text, argument);
}

/// Appends arguments.
fn push_arguments(text: &mut Text, arguments: &[Option<u32>])
    requires { length text.old + 9 * length arguments.now ≤ 512 }
    ensures exact { text.new ≡ text.old ++ flat_map argument_text arguments.now }
    ensures short { length text.new ≤ length text.old + 9 * length arguments.now }
{
    for argument in arguments {
        push_argument(text, *argument);
    }
}

/// Appends dots, where there are more arguments than are shown.
fn push_more(text: &mut Text, count: u8)
    requires { length text.old + 3 ≤ 512 }
    ensures exact { text.new ≡ text.old ++ more_text count }
    ensures short { length text.new ≤ length text.old + 3 }
{
    if count > 16 {
        text.push(b" ..");
    }
}

/// Appends how many arguments a procedure has.
fn push_count(text: &mut Text, count: u8)
    requires { length text.old + 33 ≤ 512 }
    ensures exact { text.new ≡ text.old ++ count_text count }
    ensures short { length text.new ≤ length text.old + 33 }
{
    text.push(b"  ARGUMENTS ");
    text.push_decimal(u64::from(count));
    text.push(b":");
}

/// Appends how many arguments a procedure has, and the first of them, at most 16.
#[tactic(auto, unfolding(crate::specs::Frames::counted_arguments))]
fn push_counted_arguments(text: &mut Text, count: u8, arguments: &[Option<u32>])
    requires few { length arguments.now ≤ 16 }
    requires room { length text.old + 181 ≤ 512 }
    ensures exact { text.new ≡ text.old ++ counted_arguments count arguments.now }
    ensures short { length text.new ≤ length text.old + 181 }
{
    push_count(text, count);
    push_arguments(text, arguments);
    push_more(text, count);
    text.push(b"\n");
}

/// Appends the line of a procedure's arguments: how many it has, and the first of them, at most 16. There is no line where it has none.
pub fn push_arguments_line(text: &mut Text, count: u8, arguments: &[Option<u32>])
    requires few { length arguments.now ≤ 16 }
    requires room { length text.old + 181 ≤ 512 }
    ensures exact { text.new ≡ text.old ++ arguments_line count arguments.now }
    ensures short { length text.new ≤ length text.old + 181 }
{
    if count != 0 {
        push_counted_arguments(text, count, arguments);
    }
}

/// Appends a saved register.
fn push_register(text: &mut Text, register: SavedRegister)
    requires { length text.old + 31 ≤ 512 }
    ensures exact { text.new ≡ text.old ++ register_text register }
    ensures short { length text.new ≤ length text.old + 31 }
{
    text.push(b" R");
    text.push_decimal(u64::from(register.number));
    text.push(b" ");
    push_longword(text, register.value);
}

/// Appends saved registers.
fn push_registers(text: &mut Text, registers: &[SavedRegister])
    requires { length text.old + 31 * length registers.now ≤ 512 }
    ensures exact { text.new ≡ text.old ++ flat_map register_text registers.now }
    ensures short { length text.new ≤ length text.old + 31 * length registers.now }
{
    for register in registers {
        push_register(text, *register);
    }
}

/// Appends the line of the registers that a frame has saved, at most 12. There is no line where it has saved none.
#[tactic(auto, unfolding(crate::specs::Frames::saved_line))]
pub fn push_saved_line(text: &mut Text, registers: &[SavedRegister])
    requires few { length registers.now ≤ 12 }
    requires room { length text.old + 380 ≤ 512 }
    ensures exact { text.new ≡ text.old ++ saved_line registers.now }
    ensures short { length text.new ≤ length text.old + 380 }
{
    if registers.is_empty() {
        return;
    }
    text.push(b"  SAVED");
    push_registers(text, registers);
    text.push(b"\n");
}
