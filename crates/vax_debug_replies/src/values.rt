//! The lines of values in memory.
ghost use Rattle.std.specs.Prelude.{◌≡◌, ◌+◌, ◌*◌, ◌≤◌, ◌++◌, length};
ghost use Rattle.std.specs.List.{flat_map};
ghost use Rattle.vax_debug_replies.specs.Values.{ascii_line, character, character_text, digits_of, head, value, value_line};

use crate::places::push_place;
use vax_debug_names::Legend;
use vax_outside::Text;

/// Appends the head of a line: an address and a colon.
pub(crate) fn push_head(text: &mut Text, legend: &Legend, address: u32)
    requires { length text.old + 51 ≤ 512 }
    ensures exact { text.new ≡ text.old ++ head legend.now address }
    ensures short { length text.new ≤ length text.old + 51 }
{
    push_place(text, legend, address);
    text.push(b": ");
}

/// Appends a byte in two digits, or two dashes where there is none.
fn push_byte(text: &mut Text, byte: Option<u8>)
    requires { length text.old + 2 ≤ 512 }
    ensures exact { text.new ≡ text.old ++ digits_of byte }
    ensures len { length text.new ≡ length text.old + 2 }
{
    match byte {
        None => text.push(b"--"),
        Some(byte) => text.push_hex2(byte),
    }
}

/// Appends bytes in two digits each.
fn push_bytes(text: &mut Text, cells: &[Option<u8>])
    requires { length text.old + 2 * length cells.now ≤ 512 }
    ensures exact { text.new ≡ text.old ++ flat_map digits_of cells.now }
    ensures len { length text.new ≡ length text.old + 2 * length cells.now }
{
    for cell in cells {
        push_byte(text, *cell);
    }
}

/// Appends the digits of a value, the highest byte first. The cells are turned around.
pub(crate) fn push_value(text: &mut Text, cells: &mut [Option<u8>])
    requires { length text.old + 2 * length cells.old ≤ 512 }
    ensures exact { text.new ≡ text.old ++ value cells.old }
    ensures len { length text.new ≡ length text.old + 2 * length cells.old }
{
    cells.reverse();
    push_bytes(text, cells);
}

/// Appends the line of a value of at most eight bytes, which lies at an address: its digits, the highest byte first. The cells are turned around.
#[tactic(auto, unfolding(crate::specs::Values::value_line))]
pub fn push_value_line(text: &mut Text, legend: &Legend, address: u32, cells: &mut [Option<u8>])
    requires few { length cells.old ≤ 8 }
    requires room { length text.old + 68 ≤ 512 }
    ensures exact { text.new ≡ text.old ++ value_line legend.now address cells.old }
    ensures short { length text.new ≤ length text.old + 68 }
{
    push_head(text, legend, address);
    push_value(text, cells);
    text.push(b"\n");
}

/// A character as it is, where it can be shown; a point where it can't, and a dash where there is none.
fn character(cell: Option<u8>) -> u8
    ensures { result ≡ character cell }
{
    match cell {
        None => b'-',
        Some(byte) => { if 32 <= byte && byte < 127 { byte } else { b'.' } }
    }
}

/// Appends the line of at most 64 characters, which lie from an address on.
#[tactic(auto, unfolding(crate::specs::Values::ascii_line))]
pub fn push_ascii_line(text: &mut Text, legend: &Legend, address: u32, cells: &[Option<u8>])
    requires few { length cells.now ≤ 64 }
    requires room { length text.old + 116 ≤ 512 }
    ensures exact { text.new ≡ text.old ++ ascii_line legend.now address cells.now }
    ensures short { length text.new ≤ length text.old + 116 }
{
    push_head(text, legend, address);
    push_characters(text, cells);
    text.push(b"\n");
}

/// Appends characters.
fn push_characters(text: &mut Text, cells: &[Option<u8>])
    requires { length text.old + length cells.now ≤ 512 }
    ensures exact { text.new ≡ text.old ++ flat_map character_text cells.now }
    ensures len { length text.new ≡ length text.old + length cells.now }
{
    for cell in cells {
        text.push(&[character(*cell)]);
    }
}
