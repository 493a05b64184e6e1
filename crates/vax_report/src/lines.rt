//! The lines that a report is made of, in a text.
ghost use Rattle.std.specs.Prelude.{◌≡◌, ◌+◌, ◌*◌, ◌≤◌, ◌++◌, [], length};
ghost use Rattle.vax_report.specs.Lines.{cell, count_line, ending_line, last_text, memory_line, numbers_line, register_line, spaced};
ghost use Rattle.vax_report.specs.Report.{head};

use crate::Last;
use vax_flat::Ending;
use vax_outside::Text;
use vax_word::Core;

/// Appends the line that says why a run stopped.
#[tactic(auto, unfolding(crate::specs::Lines::ending_line))]
pub fn push_ending(text: &mut Text, last: Last)
    requires { length text.old + 18 ≤ 512 }
    ensures exact { text.new ≡ text.old ++ ending_line last }
    ensures short { length text.new ≤ length text.old + 18 }
{
    text.push(b"ENDING ");
    push_last(text, last);
    text.push(b"\n");
}

fn push_last(text: &mut Text, last: Last)
    requires { length text.old + 10 ≤ 512 }
    ensures exact { text.new ≡ text.old ++ last_text last }
    ensures short { length text.new ≤ length text.old + 10 }
{
    match last {
        Last::Ending(Ending::Halt) => text.push(b"HALT"),
        Last::Ending(Ending::Vector(offset)) => {
            text.push(b"VECTOR ");
            text.push_hex3(offset);
        }
        Last::Ending(Ending::Stack) => text.push(b"STACK"),
        Last::Ending(Ending::Scb) => text.push(b"SCB"),
        Last::Ending(Ending::Change) => text.push(b"CHANGE"),
        Last::Steps => text.push(b"STEPS"),
        Last::Break => text.push(b"BREAK"),
        Last::Turns => text.push(b"TURNS"),
        Last::PageFault => text.push(b"PAGEFAULT"),
    }
}

/// Appends the line of the bytes from an address on, at most 16.
#[tactic(auto, unfolding(crate::specs::Lines::memory_line))]
pub fn push_memory(text: &mut Text, addr: u32, bytes: &[Option<u8>])
    requires few { length bytes.now ≤ 16 }
    requires room { length text.old + 61 ≤ 512 }
    ensures exact { text.new ≡ text.old ++ memory_line addr bytes.now }
    ensures short { length text.new ≤ length text.old + 61 }
{
    text.push(b"MEM ");
    text.push_hex8(addr);
    for byte in bytes {
        push_cell(text, *byte);
    }
    text.push(b"\n");
}

/// Appends the line of a register's number and value.
#[tactic(auto, unfolding(crate::specs::Lines::register_line))]
pub fn push_register(text: &mut Text, n: u8, value: u32)
    requires { length text.old + 31 ≤ 512 }
    ensures exact { text.new ≡ text.old ++ register_line n value }
    ensures short { length text.new ≤ length text.old + 31 }
{
    text.push(b"R");
    text.push_decimal(u64::from(n));
    push_spaced(text, value);
    text.push(b"\n");
}

/// Appends a space and a byte in two digits, or two dashes where there is none.
#[tactic(auto, unfolding(crate::specs::Lines::cell))]
pub fn push_cell(text: &mut Text, byte: Option<u8>)
    requires { length text.old + 3 ≤ 512 }
    ensures exact { text.new ≡ text.old ++ cell byte }
    ensures len { length text.new ≡ length text.old + 3 }
{
    match byte {
        None => text.push(b" --"),
        Some(byte) => {
            text.push(b" ");
            text.push_hex2(byte);
        }
    }
}

#[tactic(auto, unfolding(crate::specs::Lines::spaced))]
fn push_spaced(text: &mut Text, n: u32)
    requires { length text.old + 9 ≤ 512 }
    ensures exact { text.new ≡ text.old ++ spaced n }
    ensures len { length text.new ≡ length text.old + 9 }
{
    text.push(b" ");
    text.push_hex8(n);
}

#[tactic(auto, unfolding(crate::specs::Lines::numbers_line))]
fn push_numbers(text: &mut Text, label: &[u8], numbers: &[u32])
    requires { length text.old + length label.now + 9 * length numbers.now + 1 ≤ 512 }
    ensures exact { text.new ≡ text.old ++ numbers_line label.now numbers.now }
    ensures len { length text.new
        ≡ length text.old + length label.now + 9 * length numbers.now + 1 }
{
    text.push(label);
    for n in numbers {
        push_spaced(text, *n);
    }
    text.push(b"\n");
}

#[tactic(auto, unfolding(crate::specs::Lines::count_line))]
fn push_count(text: &mut Text, label: &[u8], n: u64)
    requires { length text.old + length label.now + 21 ≤ 512 }
    ensures exact { text.new ≡ text.old ++ count_line label.now n }
    ensures short { length text.new ≤ length text.old + length label.now + 21 }
{
    text.push(label);
    text.push_decimal(n);
    text.push(b"\n");
}

/// Appends the lines before the dumps.
#[tactic(auto, unfolding(crate::specs::Report::head))]
pub(crate) fn push_head(
    text: &mut Text,
    core: &Core,
    last: Last,
    steps: u64,
    units: u32,
    taken: u32,
)
    requires { text.old ≡ [] }
    ensures { text.new ≡ head core.now last steps units taken }
{
    push_ending(text, last);
    push_count(text, b"STEPS ", steps);
    push_count(text, b"UNITS ", u64::from(units));
    push_numbers(text, b"R0", &core.regs[0..4]);
    push_numbers(text, b"R4", &core.regs[4..8]);
    push_numbers(text, b"R8", &core.regs[8..12]);
    push_numbers(text, b"R12", &core.regs[12..16]);
    push_numbers(text, b"PSL", &[core.psl.0]);
    push_numbers(text, b"STACKS", &core.stacks);
    push_count(text, b"INPUT ", u64::from(taken));
}
