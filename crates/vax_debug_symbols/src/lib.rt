//! The symbols and the source lines of a program's files, for its debugger: the names of its sources, with the addresses and the numbers that these stand
//! for in the program that they are linked to, those of the stacks and the tables beside it, and the statements of its sources, with the addresses of their first bytes.
#![tactic(auto)]

ghost use Rattle.std.specs.Prelude.{◌≡◌, ◌++◌, ◌≤◌, IfOk, OnOk, length, slice_get, slice_index};
ghost use Rattle.vax_asm_listing.specs.Listed.{texts};
ghost use Rattle.vax_link.specs.Names.{low_longword};
ghost use Rattle.vax_debug_symbols.specs.Symbols as spec;

mod fixtures;

use crate::fixtures::push_fixtures;
use std::alloc::{AllocError, Global};
use vax_asm_listing::{Label, ListingError, Notes, Row, trace_files};
use vax_debug_names::{SourceLine, Symbol};
use vax_dialect::Dialect;
use vax_image::Base;
use vax_lex::Value;
use vax_link::addresses;
use vax_module::{Bytes, Module, Section};
use vax_program::is_linked;
use vax_space::NoMemory;

/// What a name stands for in a program.
#[derive(Clone, Copy)]
struct Meaning {
    /// The address or the number.
    value: u32,
    /// Whether it is an address.
    is_place: bool,
    /// How many bytes there are from there up to the end of what the module gives to the section.
    reach: u32,
}

/// The low 32 bits of a number.
fn low_longword(n: i64) -> u32
    ensures { result ≡ low_longword n }
{
    (n.cast_unsigned() % 0x1_0000_0000) as u32
}

/// Where a section of a module lies, by the places of all of its sections.
fn place_of(places: &[u32], section: usize) -> u32
    ensures { result ≡ slice_index places.now section }
{
    match places.get(section) {
        None => 0,
        Some(place) => *place,
    }
}

/// How many bytes a module gives to a section: its own, or those that it lays over others.
fn size_of(section: &Section) -> usize
    ensures { result ≡ spec.size_of section.now }
{
    if section.storage == 0 {
        section.bytes.as_slice().len()
    } else {
        section.storage as usize
    }
}

/// How many bytes a module gives to one of its sections.
fn size_in(sections: &[Section], section: usize) -> usize
    ensures { result ≡ spec.size_in (slice_get sections.now section) }
{
    match sections.get(section) {
        None => 0,
        Some(section) => size_of(section),
    }
}

/// How many bytes stand from an offset on, where it is one of a byte.
fn bytes_from(size: usize, offset: u64) -> u32
    ensures { result ≡ spec.bytes_from size offset }
{
    let size = size as u64;
    if size <= offset {
        0
    } else {
        ((size - offset) % 0x1_0000_0000) as u32
    }
}

/// What a value of a module stands for, whose sections have these places; nothing where another module says it.
fn meaning_of(places: &[u32], sections: &[Section], value: Option<Value>) -> Option<Meaning>
    ensures { result ≡ spec.meaning_of places.now sections.now value }
{
    match value {
        None => None,
        Some(Value::External { .. }) => None,
        Some(Value::Absolute(n)) => Some(Meaning {
            value: low_longword(n),
            is_place: false,
            reach: 0,
        }),
        Some(Value::Section { section, offset }) => Some(Meaning {
            value: place_of(places, section as usize).wrapping_add(low_longword(offset)),
            is_place: true,
            reach: bytes_from(size_in(sections, section as usize), offset.cast_unsigned()),
        }),
    }
}

/// A name with what it stands for.
fn symbol_of(alloc: Global, name: &[u8], meaning: Meaning) -> Result<Symbol, AllocError>
    ensures { IfOk result (λ s. s ≡ spec.symbol_of name.now meaning) }
{
    Ok(Symbol {
        name: Bytes::from(name.to_vec(alloc)?),
        value: meaning.value,
        is_place: meaning.is_place,
        reach: meaning.reach,
    })
}

/// Appends the symbol of a name, if it stands for something.
#[tactic(auto, unfolding(crate::specs::Symbols::symbols_of))]
fn push_symbol(
    alloc: Global,
    symbols: &mut Vec<Symbol>,
    places: &[u32],
    sections: &[Section],
    label: &Label,
) -> Result<(), AllocError>
    ensures { OnOk result (symbols.new.items
        ≡ symbols.old.items ++ spec.symbols_of places.now sections.now label.now) }
{
    if let Some(meaning) = meaning_of(places, sections, label.value) {
        symbols.push(symbol_of(alloc, label.name.as_slice(), meaning)?)?;
    }
    Ok(())
}

/// Appends the symbols of the names of a module with these sections.
fn push_names(
    alloc: Global,
    symbols: &mut Vec<Symbol>,
    places: &[u32],
    sections: &[Section],
    labels: &[Label],
) -> Result<(), AllocError>
    ensures { OnOk result (symbols.new.items
        ≡ symbols.old.items ++ spec.symbols_in places.now sections.now labels.now) }
{
    for label in labels {
        push_symbol(alloc, symbols, places, sections, label)?;
    }
    Ok(())
}

/// Appends the symbols of modules with what these left. The first places are those of the first one's sections.
#[tactic(auto, unfolding(crate::specs::Symbols::symbols_from))]
fn push_modules(
    alloc: Global,
    symbols: &mut Vec<Symbol>,
    places: &[u32],
    modules: &[Module],
    notes: &[Notes],
) -> Result<(), AllocError>
    ensures { OnOk result (symbols.new.items
        ≡ symbols.old.items ++ spec.symbols_from places.now modules.now notes.now) }
{
    let mut rest = places;
    let mut left = notes;
    for module in modules {
        let Some((note, others)) = left.split_first() else {
            return Ok(());
        };
        let sections = module.sections.as_slice();
        let (own, behind) = rest.split_at(sections.len().min(rest.len()));
        push_names(alloc, symbols, own, sections, &note.labels)?;
        rest = behind;
        left = others;
    }
    Ok(())
}

/// A statement of a file with the address of its first byte.
fn line_of(alloc: Global, places: &[u32], file: usize, row: &Row) -> Result<SourceLine, AllocError>
    ensures { IfOk result (λ l. l ≡ spec.line_of places.now file row.now) }
{
    Ok(SourceLine {
        address: place_of(places, row.section).wrapping_add(row.begin),
        file,
        number: row.origin.line,
        text: Bytes::from(row.text.as_slice().to_vec(alloc)?),
    })
}

/// Appends the line of a statement, if it has bytes.
#[tactic(auto, unfolding(crate::specs::Symbols::lines_of))]
fn push_line(
    alloc: Global,
    lines: &mut Vec<SourceLine>,
    places: &[u32],
    file: usize,
    row: &Row,
) -> Result<(), AllocError>
    ensures { OnOk result (lines.new.items
        ≡ lines.old.items ++ spec.lines_of places.now file row.now) }
{
    if !row.counts && row.begin < row.end {
        lines.push(line_of(alloc, places, file, row)?)?;
    }
    Ok(())
}

/// Appends the lines of a module's statements.
fn push_rows(
    alloc: Global,
    lines: &mut Vec<SourceLine>,
    places: &[u32],
    file: usize,
    rows: &[Row],
) -> Result<(), AllocError>
    ensures { OnOk result (lines.new.items
        ≡ lines.old.items ++ spec.lines_in places.now file rows.now) }
{
    for row in rows {
        push_line(alloc, lines, places, file, row)?;
    }
    Ok(())
}

/// Appends the lines of modules with what these left. The first places are those of the first one's sections.
#[tactic(auto, unfolding(crate::specs::Symbols::lines_from))]
fn push_all_rows(
    alloc: Global,
    lines: &mut Vec<SourceLine>,
    places: &[u32],
    modules: &[Module],
    notes: &[Notes],
) -> Result<(), AllocError>
    ensures { OnOk result (lines.new.items
        ≡ lines.old.items ++ spec.lines_from places.now 0 modules.now notes.now) }
{
    let mut rest = places;
    let mut left = notes;
    for (file, module) in modules.iter().enumerate() {
        let Some((note, others)) = left.split_first() else {
            return Ok(());
        };
        let count = module.sections.as_slice().len();
        let (own, above) = rest.split_at(count.min(rest.len()));
        push_rows(alloc, lines, own, file, &note.rows)?;
        rest = above;
        left = others;
    }
    Ok(())
}

/// A program's symbols and source lines.
#[derive(Drop)]
pub struct Table {
    pub symbols: Vec<Symbol>,
    pub lines: Vec<SourceLine>,
}

/// A table of what lies beside each program alone.
fn no_table(alloc: Global, base: Base) -> Result<Table, AllocError>
    ensures { IfOk result (spec.HasNone base) }
{
    let mut symbols = Vec::new(alloc);
    push_fixtures(alloc, &mut symbols, base)?;
    Ok(Table {
        symbols,
        lines: Vec::new(alloc),
    })
}

/// The symbols and the lines of modules with what these left, linked for a base.
fn table_of_modules(
    alloc: Global,
    base: Base,
    modules: &[Module],
    notes: &[Notes],
) -> Result<Table, AllocError>
    ensures { IfOk result (spec.IsLinked base modules.now notes.now) }
{
    let Some(places) = addresses(alloc, base, modules)? else {
        return no_table(alloc, base);
    };
    let mut symbols = Vec::new(alloc);
    push_modules(alloc, &mut symbols, &places, modules, notes)?;
    push_fixtures(alloc, &mut symbols, base)?;
    let mut lines = Vec::new(alloc);
    push_all_rows(alloc, &mut lines, &places, modules, notes)?;
    Ok(Table { symbols, lines })
}

/// Whether files are an image or an executable, which stands alone.
fn is_linked_alone(files: &[Vec<u8>]) -> bool
    ensures { result ≡ spec.is_linked_alone (texts files.now) }
{
    match files {
        [file] => is_linked(file),
        _ => false,
    }
}

/// The symbols and the source lines of a program's files for a base: the names of its sources, which are of a dialect, those of the first source first, each in
/// the order in which they first appear, and the statements that have bytes, in the same order. Local labels are left out, and so are names that another module
/// defines, or that rest on such. A statement of an expansion is one of the line where the macro is called or the repeat begins.
///
/// An image or an executable has none, and neither have sources with a fault, or for which there is no room. After these symbols come those of the stacks, of
/// the system beside a user's program, of its control block and of the page tables, which each program has. [`NoMemory`] where memory is refused.
pub fn table_of_files(
    alloc: Global,
    dialect: Dialect,
    base: Base,
    files: &[Vec<u8>],
) -> Result<Table, NoMemory>
    requires { length files.now ≤ 8 }
    ensures { IfOk result (spec.IsTable dialect base (texts files.now)) }
{
    if is_linked_alone(files) {
        return Ok(no_table(alloc, base)?);
    }
    match trace_files(alloc, dialect, files) {
        Ok((modules, notes)) => Ok(table_of_modules(alloc, base, &modules, &notes)?),
        Err(ListingError::Source { .. }) => Ok(no_table(alloc, base)?),
        // Nothing is linked here.
        Err(ListingError::Link(_) | ListingError::NoMemory) => Err(NoMemory),
    }
}
