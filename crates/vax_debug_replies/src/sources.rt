//! The lines of sources that stand beside instructions.
ghost use Rattle.std.specs.Prelude.{◌≡◌, ◌+◌, ◌-◌, ◌≤◌, ◌++◌, drop, length};
ghost use Rattle.vax_debug_names.specs.Names.{line_at};
ghost use Rattle.vax_debug_replies.specs.Sources.{at_line, file_name, source_line, statement};

use crate::places::first;
use vax_debug_names::{Legend, SourceLine, line_at};
use vax_outside::Text;
use vax_prelude::{Title, told_in};

/// The most characters of a file's name that are shown.
const NAME: usize = 64;

/// The most characters of a statement that are shown.
const STATEMENT: usize = 132;

/// The last of some bytes, at most so many.
fn last(bytes: &[u8], most: usize) -> &[u8]
    ensures exact { result.now ≡ drop (length bytes.entry.now - most) bytes.entry.now }
    ensures few { length result.now ≤ most }
{
    bytes.split_at(bytes.len().saturating_sub(most)).1
}

/// The name of a file of a program, by its place, and nothing where there is none.
fn file_name<'a>(legend: &Legend<'a>, file: usize) -> &'a [u8]
    ensures { result.now ≡ file_name legend.entry.now file }
{
    match legend.names.get(file) {
        Some(name) => name.as_bytes(),
        None => b"",
    }
}

/// Appends where a line is: the name of its file, and its number there.
#[tactic(auto, unfolding(crate::specs::Sources::at_line))]
fn push_at_line(text: &mut Text, legend: &Legend, line: &SourceLine)
    requires { length text.old + 87 ≤ 512 }
    ensures exact { text.new ≡ text.old ++ at_line legend.now line.now }
    ensures short { length text.new ≤ length text.old + 87 }
{
    let title = Title {
        preludes: legend.preludes,
        name: file_name(legend, line.file),
    };
    let (name, number) = told_in(title, line.number as usize);
    text.push(last(name, NAME));
    text.push(b":");
    text.push_decimal(number as u64);
    text.push(b": ");
}

/// Appends a statement with the place of its line.
#[tactic(auto, unfolding(crate::specs::Sources::statement))]
fn push_statement(text: &mut Text, legend: &Legend, line: &SourceLine)
    requires { length text.old + 220 ≤ 512 }
    ensures exact { text.new ≡ text.old ++ statement legend.now line.now }
    ensures short { length text.new ≤ length text.old + 220 }
{
    push_at_line(text, legend, line);
    text.push(first(line.text.as_slice(), STATEMENT));
    text.push(b"\n");
}

/// Appends the line of the statement whose first byte is at an address, if there is one.
#[tactic(auto, unfolding(crate::specs::Sources::source_line))]
pub fn push_source_line(text: &mut Text, legend: &Legend, address: u32)
    requires { length text.old + 220 ≤ 512 }
    ensures exact { text.new ≡ text.old ++ source_line legend.now address }
    ensures short { length text.new ≤ length text.old + 220 }
{
    if let Some(line) = line_at(legend.lines, address) {
        push_statement(text, legend, line);
    }
}
