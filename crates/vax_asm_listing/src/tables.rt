// The sections and the names of a module, and all of its listing.

ghost use Rattle.std.specs.Prelude.{◌≡◌, ◌++◌, IfOk, OnOk};
ghost use Rattle.vax_link.specs.Names.{low_longword};
ghost use Rattle.vax_asm_listing.specs.Listing as spec;
ghost use Rattle.vax_asm_listing.specs.Placings.{part_of, parts_of, placing_of};

use crate::bytes::push_address;
use crate::lines::{Placing, push_number, push_source};
use crate::types::{Label, Part, Program, Row};
use std::alloc::{AllocError, Global};
use vax_lex::Value;
use vax_module::Section;
use vax_outside::Text;

/// Appends the name of a section.
fn push_name(out: &mut Vec<u8>, name: &[u8]) -> Result<(), AllocError>
    ensures { OnOk result (out.new.items ≡ out.old.items ++ spec.name_cell name.now) }
{
    if name.is_empty() {
        return out.extend_from_slice(b". BLANK .");
    }
    out.extend_from_slice(name)
}

/// Where a statement of a section ends, if that is absolute.
fn end_in(row: &Row, number: usize) -> Option<u32>
    ensures { result ≡ spec.end_in number row.now }
{
    if row.absolute && row.section == number {
        Some(row.end)
    } else {
        None
    }
}

/// How far a section has counted, if it is absolute.
#[tactic(auto, unfolding(crate::specs::Listing::counted_in))]
fn counted_in(rows: &[Row], number: usize) -> Option<u32>
    ensures { result ≡ spec.counted_in number rows.now }
{
    let mut most = None;
    for row in rows {
        if let Some(end) = end_in(row, number) {
            most = Some(most.unwrap_or(0).max(end));
        }
    }
    most
}

/// Where a section lies; an absolute one is at address 0.
fn begin_by(counted: Option<u32>, place: u32) -> u32
    ensures { result ≡ spec.begin_by counted place }
{
    match counted {
        Some(_) => 0,
        None => place,
    }
}

/// How far an absolute section has counted, or how many bytes another has or lays over others.
fn extent_by(counted: Option<u32>, section: &Section) -> u64
    ensures { result ≡ spec.extent_by counted section.now }
{
    match counted {
        Some(most) => u64::from(most),
        None => (section.bytes.as_slice().len() as u64).max(u64::from(section.storage)),
    }
}

/// Appends a section: where it lies, how long it is, whether it may be written, and its name.
#[tactic(auto, unfolding(crate::specs::Listing::section_line))]
fn push_section(
    out: &mut Vec<u8>,
    place: u32,
    counted: Option<u32>,
    section: &Section,
) -> Result<(), AllocError>
    ensures { OnOk result (out.new.items
        ≡ out.old.items ++ spec.section_line place counted section.now) }
{
    push_address(out, begin_by(counted, place))?;
    out.push(b' ')?;
    push_number(out, extent_by(counted, section))?;
    let attribute = if section.write {
        b" WRT   "
    } else {
        b" NOWRT "
    };
    out.extend_from_slice(attribute)?;
    push_name(out, section.name.as_slice())?;
    out.push(b'\n')?;
    Ok(())
}

/// Appends the sections of a module with these rows.
#[tactic(auto, unfolding(crate::specs::Listing::section_lines))]
fn push_sections(
    out: &mut Vec<u8>,
    placing: Placing<'_>,
    rows: &[Row],
    sections: &[Section],
) -> Result<(), AllocError>
    ensures { OnOk result (out.new.items
        ≡ out.old.items ++ spec.section_lines (placing_of placing.entry) rows.now 0 sections.now) }
{
    for (number, section) in sections.iter().enumerate() {
        let counted = counted_in(rows, number);
        push_section(out, placing.place(number), counted, section)?;
    }
    Ok(())
}

/// The low 32 bits of a number.
fn low_longword(n: i64) -> u32
    ensures { result ≡ low_longword n }
{
    (n.cast_unsigned() % 0x1_0000_0000) as u32
}

/// Appends a value: an address, a number, or blanks for what another module says.
fn push_value(
    out: &mut Vec<u8>,
    placing: Placing<'_>,
    value: Option<Value>,
) -> Result<(), AllocError>
    ensures { OnOk result (out.new.items
        ≡ out.old.items ++ spec.value_cell (placing_of placing.entry) value) }
{
    match value {
        None => out.extend_from_slice(b"         EXT "),
        Some(Value::External { .. }) => out.extend_from_slice(b"         EXT "),
        Some(Value::Absolute(n)) => {
            push_address(out, low_longword(n))?;
            out.extend_from_slice(b" ABS ")
        }
        Some(Value::Section { section, offset }) => {
            let place = placing.place(section as usize);
            push_address(out, place.wrapping_add(low_longword(offset)))?;
            out.extend_from_slice(b" REL ")
        }
    }
}

/// Appends a name with its value.
#[tactic(auto, unfolding(crate::specs::Listing::label_line))]
fn push_label(out: &mut Vec<u8>, placing: Placing<'_>, label: &Label) -> Result<(), AllocError>
    ensures { OnOk result (out.new.items
        ≡ out.old.items ++ spec.label_line (placing_of placing.entry) label.now) }
{
    push_value(out, placing, label.value)?;
    let global = if label.global { b"GLOBAL " } else { b"       " };
    out.extend_from_slice(global)?;
    out.extend_from_slice(label.name.as_slice())?;
    out.push(b'\n')?;
    Ok(())
}

/// Appends the names of a module.
#[tactic(auto, unfolding(crate::specs::Listing::label_lines))]
fn push_labels(out: &mut Vec<u8>, placing: Placing<'_>, labels: &[Label]) -> Result<(), AllocError>
    ensures { OnOk result (out.new.items
        ≡ out.old.items ++ spec.label_lines (placing_of placing.entry) labels.now) }
{
    for label in labels {
        push_label(out, placing, label)?;
    }
    Ok(())
}

/// Appends a line of its own for a word, with a number behind it.
fn push_title(out: &mut Vec<u8>, number: u64) -> Result<(), AllocError>
    ensures { OnOk result (out.new.items ≡ out.old.items ++ spec.title number) }
{
    let mut text = Text::new();
    text.push(b"MODULE ");
    text.push_decimal(number);
    text.push(b"\n");
    out.extend_from_slice(text.as_slice())
}

/// Appends the listing of a module: its lines, its sections, its names.
#[tactic(auto, unfolding(crate::specs::Listing::module_lines))]
fn push_module(
    out: &mut Vec<u8>,
    placing: Placing<'_>,
    number: u64,
    part: Part<'_>,
) -> Result<(), AllocError>
    ensures { OnOk result (out.new.items ≡ out.old.items
        ++ spec.module_lines (placing_of placing.entry) number (part_of part.entry)) }
{
    push_title(out, number)?;
    push_source(out, placing, part.source, &part.notes.rows)?;
    out.extend_from_slice(b"SECTIONS\n")?;
    push_sections(
        out,
        placing,
        &part.notes.rows,
        part.module.sections.as_slice(),
    )?;
    out.extend_from_slice(b"NAMES\n")?;
    push_labels(out, placing, &part.notes.labels)
}

/// Appends the listings of modules.
#[tactic(auto, unfolding(crate::specs::Listing::modules_lines))]
fn push_modules(out: &mut Vec<u8>, program: Program<'_>) -> Result<(), AllocError>
    ensures { OnOk result (out.new.items ≡ out.old.items ++ spec.modules_lines
        program.entry.areas.now program.entry.places.now 0 (parts_of program.entry.parts.now)) }
{
    let areas = program.areas;
    let parts = program.parts;
    let mut rest = program.places;
    let mut number = 0;
    for part in parts {
        let count = part.module.sections.as_slice().len();
        let (places, behind) = rest.split_at(count.min(rest.len()));
        number += 1;
        push_module(out, Placing { areas, places }, number, *part)?;
        rest = behind;
    }
    Ok(())
}

/// The listing of a program. For each module in its order: the lines of its source, each statement with the address at which it lies in the
/// image and with the bytes that the image has there; its sections; its names. Then the address at which the program begins.
///
/// A line has its number in six columns, the address in eight digits, up to eight bytes, and its text. More bytes stand on lines of their own, and
/// more than eight that are all 0 are counted. A statement that isn't a whole line of the source, as one of an expansion, has a line marked with `+`.
#[tactic(auto, unfolding(crate::specs::Listing::listing_of))]
pub fn listing(alloc: Global, program: Program<'_>) -> Result<Vec<u8>, AllocError>
    ensures { IfOk result (λ text. text.items ≡ spec.listing_of program.entry.areas.now
        program.entry.places.now (parts_of program.entry.parts.now) program.entry.transfer) }
{
    let mut out = Vec::new(alloc);
    push_modules(&mut out, program)?;
    out.extend_from_slice(b"ENTRY ")?;
    push_address(&mut out, program.transfer)?;
    out.push(b'\n')?;
    Ok(out)
}
