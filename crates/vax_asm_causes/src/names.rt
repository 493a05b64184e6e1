// Where names stand in a source.

ghost use Rattle.std.specs.Prelude.{◌≡◌, ◌≤◌, length};
ghost use Rattle.std.specs.Char.{is_ascii_digit};
ghost use Rattle.std.specs.List.{prefix_len};
ghost use Rattle.vax_asm_causes.specs.Places.{are_same};
ghost use Rattle.vax_asm_causes.specs.Remarks.{is_local};

use vax_lex::{is_blank, is_name_character};
use vax_lines::next_line;

/// Whether two names are the same, in letters of either case.
pub(crate) fn are_same(a: &[u8], b: &[u8]) -> bool
    ensures { result ≡ are_same a.now b.now }
{
    a.eq_ignore_ascii_case(b)
}

/// How many bytes from the first on are blank.
pub(crate) fn blanks(line: &[u8]) -> usize
    ensures { result ≤ length line.now }
{
    for (i, byte) in line.iter().enumerate() {
        if !is_blank(*byte) {
            return i;
        }
    }
    line.len()
}

/// How many bytes from the first on belong to a name.
pub(crate) fn name_length(line: &[u8]) -> usize
    ensures { result ≤ length line.now }
{
    for (i, byte) in line.iter().enumerate() {
        if !is_name_character(*byte) {
            return i;
        }
    }
    line.len()
}

/// How many bytes from the first on are digits.
fn digits(name: &[u8]) -> usize
    ensures value { result ≡ prefix_len is_ascii_digit name.now }
    ensures few { result ≤ length name.now }
{
    for (i, byte) in name.iter().enumerate() {
        if !byte.is_ascii_digit() {
            return i;
        }
    }
    name.len()
}

/// Whether a name is a local label: digits and a `$`.
pub(crate) fn is_local(name: &[u8]) -> bool
    ensures { result ≡ is_local name.now }
{
    name.split_at(digits(name)).1 == b"$".as_slice()
}

/// Whether a line defines a name, as its label or by an assignment.
pub fn is_definition(line: &[u8], name: &[u8]) -> bool {
    let text = line.split_at(blanks(line)).1;
    let (word, behind) = text.split_at(name_length(text));
    let rest = behind.split_at(blanks(behind)).1;
    matches!(rest.first(), Some(b':' | b'=')) && are_same(word, name)
}

/// What stands behind the label of a line, or the line where it has none.
fn behind_label(line: &[u8]) -> &[u8] {
    let text = line.split_at(blanks(line)).1;
    let behind = text.split_at(name_length(text)).1;
    match behind.split_at(blanks(behind)).1 {
        [b':', b':', statement @ ..] | [b':', statement @ ..] => statement,
        _ => line,
    }
}

/// Whether a line is the entry with a name, behind a label or without one.
fn is_entry(line: &[u8], name: &[u8]) -> bool {
    let statement = behind_label(line);
    let text = statement.split_at(blanks(statement)).1;
    let (word, behind) = text.split_at(name_length(text));
    let rest = behind.split_at(blanks(behind)).1;
    let entry = rest.split_at(name_length(rest)).0;
    are_same(word, b".ENTRY") && are_same(entry, name)
}

/// Whether a line defines a name, as its label, by an assignment or by `.ENTRY`.
fn defines(line: &[u8], name: &[u8]) -> bool {
    is_definition(line, name) || (!is_local(name) && is_entry(line, name))
}

/// Whether a line of a source is the entry with a name.
pub(crate) fn has_entry(source: &[u8], name: &[u8]) -> bool {
    let mut rest = source;
    while let Some((line, behind)) = next_line(rest) {
        if is_entry(line, name) {
            return true;
        }
        rest = behind;
    }
    false
}

/// Whether a line is among these.
fn is_among(lines: &[u32], number: u32) -> bool {
    lines.iter().any(|line| *line == number)
}

/// The first line that defines a name, as its label, by an assignment or by `.ENTRY`.
pub fn definition_of(source: &[u8], name: &[u8]) -> Option<u32> {
    definition_beside(source, name, &[])
}

/// The first line that defines a name, as its label, by an assignment or by `.ENTRY`, but for these lines.
pub(crate) fn definition_beside(source: &[u8], name: &[u8], others: &[u32]) -> Option<u32> {
    let mut rest = source;
    let mut number: u32 = 1;
    while let Some((line, behind)) = next_line(rest) {
        if defines(line, name) && !is_among(others, number) {
            return Some(number);
        }
        number = number.saturating_add(1);
        rest = behind;
    }
    None
}
