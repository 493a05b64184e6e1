// Words on a cause.

ghost use Rattle.std.specs.Prelude.{◌≡◌, IfOk};
ghost use Rattle.vax_asm_causes.specs.Printed.{ArePrinted, IsPrinted};

use std::alloc::Global;
use vax_outside::Text;
use vax_space::NoMemory;

/// Where a cause stands, and the words on it.
#[derive(Drop)]
pub(crate) struct Found {
    pub(crate) column: usize,
    pub(crate) words: Vec<u8>,
}

/// A cause of which no more is said than where it stands.
pub(crate) fn at(alloc: Global, column: u32) -> Found
    ensures { result.column ≡ column }
{
    Found {
        column: column as usize,
        words: Vec::new(alloc),
    }
}

/// Texts one behind the other.
pub(crate) fn say(alloc: Global, parts: &[&[u8]]) -> Result<Vec<u8>, NoMemory> {
    let mut words = Vec::new(alloc);
    for part in parts {
        words.extend_from_slice(part).map_err(|_| NoMemory)?;
    }
    Ok(words)
}

/// A cause with its words.
pub(crate) fn cause_at(alloc: Global, column: u32, parts: &[&[u8]]) -> Result<Found, NoMemory>
    ensures { IfOk result (λ f. f.column ≡ column) }
{
    Ok(Found {
        column: column as usize,
        words: say(alloc, parts)?,
    })
}

/// A number in decimal digits.
pub(crate) fn decimal(alloc: Global, n: u64) -> Result<Vec<u8>, NoMemory> {
    let mut text = Text::new();
    text.push_decimal(n);
    text.as_slice().to_vec(alloc).map_err(|_| NoMemory)
}

/// A digit of base 16.
fn digit(n: u8) -> u8 {
    match n {
        0..=9 => b'0' + n,
        10..=15 => b'A' + (n - 10),
        _ => b'?',
    }
}

/// A byte in two digits of base 16.
pub(crate) fn hexadecimal(alloc: Global, byte: u8) -> Result<Vec<u8>, NoMemory> {
    say(alloc, &[&[digit(byte / 16), digit(byte % 16)]])
}

/// A byte as it is printed: a blank in place of a tab, and a mark in place of any other that isn't printable.
fn printed(byte: u8) -> u8
    ensures { IsPrinted result }
{
    if byte == b'\t' {
        b' '
    } else if 32 <= byte && byte <= 126 {
        byte
    } else {
        b'?'
    }
}

/// Words as they are printed.
pub(crate) fn as_printed(alloc: Global, words: &[u8]) -> Result<Vec<u8>, NoMemory>
    ensures { IfOk result (λ v. ArePrinted v.items) }
{
    let mut all = Vec::new(alloc);
    for byte in words {
        all.push(printed(*byte)).map_err(|_| NoMemory)?;
    }
    Ok(all)
}
