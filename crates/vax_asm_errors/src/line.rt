// A line of a source, as it is shown.

ghost use Rattle.std.specs.Prelude.{◌≡◌, ◌≤◌, ◌++◌, OnOk, length, map, take};
ghost use Rattle.vax_asm_errors.specs.Errors.{indent, is_text, line_at, shown, shown_line, under, under_line};
ghost use Rattle.vax_lines.specs.Lines.{lines};

use vax_lines::next_line;
use vax_space::NoMemory;

/// As many bytes of a line are shown.
const SHOWN: usize = 160;

/// The line with this number, counted from 1; none where there is no such line.
#[tactic(auto, unfolding(crate::specs::Errors::line_at))]
pub(crate) fn line_at(source: &[u8], number: usize) -> &[u8]
    ensures { result.now ≡ line_at number (lines source.now) }
{
    let mut rest = source;
    let mut left = number;
    while let Some((line, behind)) = next_line(rest) {
        if left <= 1 {
            return line;
        }
        left -= 1;
        rest = behind;
    }
    &[]
}

/// Neither a blank nor a tab.
fn is_text(byte: u8) -> bool
    ensures { result ≡ is_text byte }
{
    byte != b' ' && byte != b'\t'
}

/// How many blanks and tabs a line begins with.
pub(crate) fn indent(line: &[u8]) -> usize
    ensures value { result ≡ indent line.now }
    ensures few { result ≤ length line.now }
{
    for (i, byte) in line.iter().enumerate() {
        if is_text(*byte) {
            return i;
        }
    }
    line.len()
}

/// A byte as it is shown: a mark in place of one that isn't printable.
fn shown(byte: u8) -> u8
    ensures { result ≡ shown byte }
{
    if byte == b'\t' || (32 <= byte && byte < 127) {
        byte
    } else {
        b'?'
    }
}

/// Appends bytes as they are shown.
#[tactic(auto, using(crate::proofs::Lines::byte_shown, crate::proofs::Lines::all_shown))]
pub(crate) fn push_bytes(out: &mut Vec<u8>, bytes: &[u8]) -> Result<(), NoMemory>
    ensures { OnOk result (out.new.items ≡ out.old.items ++ map shown bytes.now) }
{
    for byte in bytes {
        out.push(shown(*byte)).map_err(|_| NoMemory)?;
    }
    Ok(())
}

/// The first so many bytes, or all.
fn front(line: &[u8], count: usize) -> &[u8]
    ensures { result.now ≡ take count line.now }
{
    line.split_at(count.min(line.len())).0
}

/// Appends a line as it is shown, of a long one the front.
pub(crate) fn push_line(out: &mut Vec<u8>, line: &[u8]) -> Result<(), NoMemory>
    ensures { OnOk result (out.new.items ≡ out.old.items ++ shown_line line.now) }
{
    push_bytes(out, front(line, SHOWN))
}

/// What stands below a byte: a tab below a tab, else a blank.
fn under(byte: u8) -> u8
    ensures { result ≡ under byte }
{
    if byte == b'\t' { byte } else { b' ' }
}

/// Appends what stands below bytes.
#[tactic(auto, using(crate::proofs::Lines::byte_under, crate::proofs::Lines::all_under))]
fn push_blanks(out: &mut Vec<u8>, bytes: &[u8]) -> Result<(), NoMemory>
    ensures { OnOk result (out.new.items ≡ out.old.items ++ map under bytes.now) }
{
    for byte in bytes {
        out.push(under(*byte)).map_err(|_| NoMemory)?;
    }
    Ok(())
}

/// Appends what stands below a line in front of a column.
pub(crate) fn push_under(out: &mut Vec<u8>, line: &[u8], column: usize) -> Result<(), NoMemory>
    ensures { OnOk result (out.new.items ≡ out.old.items ++ under_line line.now column) }
{
    push_blanks(out, front(front(line, SHOWN), column))
}
