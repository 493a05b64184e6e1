//! The lines of instructions.
ghost use Rattle.std.specs.Prelude.{◌≡◌, ◌+◌, ◌≤◌, ◌++◌, length, option_map};
ghost use Rattle.vax_disasm.specs.Seen.{decoded_seen};
ghost use Rattle.vax_debug_replies.specs.Instructions.{bytes_of, instruction_at, instruction_line, length_of, listed_instruction, text_of, unlisted};

use crate::sources::push_source_line;
use crate::values::push_head;
use arrayvec::ArrayVec;
use vax_debug_names::Legend;
use vax_disasm::{Decoded, decode};
use vax_outside::Text;

/// The bytes of cells up to the first that is empty.
fn bytes_of(cells: &[Option<u8>]) -> ArrayVec<u8, 64>
    requires { length cells.now ≤ 64 }
    ensures { result.items ≡ bytes_of cells.now }
{
    let mut bytes = ArrayVec::new();
    for cell in cells {
        match cell {
            Some(byte) => bytes.push(*byte),
            None => return bytes,
        }
    }
    bytes
}

/// The instruction that cells begin with, where these lie at an address.
fn instruction_at(address: u32, cells: &[Option<u8>]) -> Option<Decoded>
    requires { length cells.now ≤ 64 }
    ensures { option_map decoded_seen result ≡ instruction_at address cells.now }
{
    decode(&bytes_of(cells), address)
}

/// How many bytes the instruction has that cells begin with: one, where they begin with none.
pub fn span_of(address: u32, cells: &[Option<u8>]) -> u8
    requires { length cells.now ≤ 64 }
    ensures { result ≡ length_of (instruction_at address cells.now) }
{
    match instruction_at(address, cells) {
        Some(decoded) => decoded.length,
        None => 1,
    }
}

/// Appends what stands in place of an instruction where none begins: the byte, or dashes.
fn push_unlisted(text: &mut Text, cells: &[Option<u8>])
    requires { length text.old + 10 ≤ 512 }
    ensures exact { text.new ≡ text.old ++ unlisted cells.now }
    ensures short { length text.new ≤ length text.old + 10 }
{
    match cells.first() {
        Some(Some(byte)) => {
            text.push(b".BYTE ^X");
            text.push_hex2(*byte);
        }
        _ => text.push(b"--"),
    }
}

/// Appends the instruction that cells begin with, where these lie at an address.
fn push_instruction(text: &mut Text, address: u32, cells: &[Option<u8>])
    requires few { length cells.now ≤ 64 }
    requires room { length text.old + 160 ≤ 512 }
    ensures exact { text.new ≡ text.old ++ text_of (instruction_at address cells.now) cells.now }
    ensures short { length text.new ≤ length text.old + 160 }
{
    match instruction_at(address, cells) {
        Some(decoded) => text.push(decoded.text.as_str().as_bytes()),
        None => push_unlisted(text, cells),
    }
}

/// Appends the line of the instruction that cells begin with, where these lie at an address.
#[tactic(auto, unfolding(crate::specs::Instructions::instruction_line))]
pub fn push_instruction_line(text: &mut Text, legend: &Legend, address: u32, cells: &[Option<u8>])
    requires few { length cells.now ≤ 64 }
    requires room { length text.old + 212 ≤ 512 }
    ensures exact { text.new ≡ text.old ++ instruction_line legend.now address cells.now }
    ensures short { length text.new ≤ length text.old + 212 }
{
    push_head(text, legend, address);
    push_instruction(text, address, cells);
    text.push(b"\n");
}

/// Appends the line of an instruction as it is listed: where it begins a statement, the line of that stands before it.
#[tactic(auto, unfolding(crate::specs::Instructions::listed_instruction))]
pub fn push_listed_instruction(text: &mut Text, legend: &Legend, address: u32, cells: &[Option<u8>])
    requires few { length cells.now ≤ 64 }
    requires room { length text.old + 432 ≤ 512 }
    ensures exact { text.new ≡ text.old ++ listed_instruction legend.now address cells.now }
    ensures short { length text.new ≤ length text.old + 432 }
{
    push_source_line(text, legend, address);
    push_instruction_line(text, legend, address, cells);
}
