//! The symbols and the source lines of a program, while it is debugged: the address of a name, the name of an address, and the line whose statement is there.
#![tactic(auto)]

ghost use Rattle.std.specs.Prelude.{◌≡◌, option_map};
ghost use Rattle.vax_debug_names.specs.Names as spec;

use vax_debug_words::{is_hexadecimal, longword};
use vax_prelude::Prelude;
use vax_space::Bytes;

/// A symbol of a program.
#[derive(Drop)]
pub struct Symbol {
    /// Its name in capitals.
    pub name: Bytes,
    /// What it stands for.
    pub value: u32,
    /// Whether that is an address in the program, and no mere number.
    pub is_place: bool,
    /// How many bytes there are from that address up to the end of what its module gives to the section; none where the address isn't in it.
    pub reach: u32,
}

/// A statement of a source, and the address of its first byte.
#[derive(Drop)]
pub struct SourceLine {
    pub address: u32,
    /// Its file, by its place among those of the program.
    pub file: usize,
    /// The number of its line in the text that is assembled for the file, from 1 on.
    pub number: u32,
    pub text: Bytes,
}

/// What a program is told by: its symbols, and the lines of its sources.
#[derive(Clone, Copy)]
pub struct Legend<'a> {
    pub symbols: &'a [Symbol],
    pub lines: &'a [SourceLine],
    /// The names of its files.
    pub names: &'a [&'a str],
    /// What stands before each of its sources.
    pub preludes: &'a [Prelude<'a>],
}

/// An address as a symbol and a distance from it.
#[derive(Clone, Copy, PartialEq, Eq)]
pub struct Near {
    /// The symbol, by its place in the list.
    pub index: usize,
    pub distance: u32,
}

/// The value of a name: that of the first symbol with this name.
pub fn value_of(symbols: &[Symbol], name: &[u8]) -> Option<u32>
    ensures { result ≡ spec.value_of symbols.now name.now }
{
    for symbol in symbols {
        if symbol.name.as_slice() == name {
            return Some(symbol.value);
        }
    }
    None
}

/// What a word stands for: a symbol's value, or else, with no symbol of the name, a number in hexadecimal digits. No symbol begins with a digit, so one that
/// begins with 0 is a number.
#[tactic(auto, unfolding(crate::specs::Names::number_of))]
pub fn number_of(symbols: &[Symbol], word: &[u8]) -> Option<u32>
    ensures { result ≡ spec.number_of symbols.now word.now }
{
    match value_of(symbols, word) {
        Some(value) => Some(value),
        None => longword(word),
    }
}

/// Whether a word stands for nothing since it is a number of more than 32 bits.
#[tactic(auto, unfolding(crate::specs::Names::is_too_large))]
pub fn is_too_large(symbols: &[Symbol], word: &[u8]) -> bool
    ensures { result ≡ spec.is_too_large symbols.now word.now }
{
    number_of(symbols, word).is_none() && is_hexadecimal(word)
}

/// Whether a symbol that reaches so far names an address at this distance.
fn is_within(reach: u32, distance: u32) -> bool
    ensures { result ≡ spec.is_within reach distance }
{
    distance == 0 || distance < reach
}

/// Whether a symbol is an address in the program, and names this one: its own, or a byte up to its section's end.
fn reaches(symbol: &Symbol, address: u32) -> bool
    ensures { result ≡ spec.reaches address symbol.now }
{
    symbol.is_place && symbol.value <= address && is_within(symbol.reach, address - symbol.value)
}

/// Whether a distance is less than the one that was found, if one was.
fn is_less(distance: u32, found: Option<Near>) -> bool
    ensures { result ≡ spec.is_less distance found }
{
    match found {
        None => true,
        Some(near) => distance < near.distance,
    }
}

/// Of what was found and a symbol the nearer: the symbol only where it is.
#[tactic(auto, unfolding(crate::specs::Names::nearer))]
fn nearer(index: usize, address: u32, symbol: &Symbol, found: Option<Near>) -> Option<Near>
    ensures { result ≡ spec.nearer index address symbol.now found }
{
    if !reaches(symbol, address) {
        return found;
    }
    let distance = address - symbol.value;
    if is_less(distance, found) {
        Some(Near { index, distance })
    } else {
        found
    }
}

/// An address as a symbol and a distance: of the symbols that name it the one with the highest address, and of those of one address the first; none where there is no such
/// symbol. Each names its own address, and those up to its section's end.
pub fn nearest(symbols: &[Symbol], address: u32) -> Option<Near>
    ensures { result ≡ spec.nearest symbols.now address }
{
    let mut found = None;
    for (index, symbol) in symbols.iter().enumerate() {
        found = nearer(index, address, symbol, found);
    }
    found
}

/// The first statement whose first byte is at an address.
pub fn line_at<'a>(lines: &'a [SourceLine], address: u32) -> Option<&'a SourceLine>
    ensures { option_map (λ line. line.now) result ≡ spec.line_at lines.entry.now address }
{
    for line in lines {
        if line.address == address {
            return Some(line);
        }
    }
    None
}
