// The lines of a source, each with what its statements put where.

ghost use Rattle.std.specs.Prelude.{◌≡◌, ◌++◌, ◌≤◌, ◌<◌, ◌+◌, ◌-◌, IfOk, OnOk, Some, None, slice_index};
ghost use Rattle.vax_lines.specs.Lines.{lines};
ghost use Rattle.vax_asm_listing.specs.Listing as spec;
ghost use Rattle.vax_asm_listing.specs.Placings.{placing_of};

use crate::bytes::{bytes_at, column, push_address, push_blanks, push_more};
use crate::types::Row;
use std::alloc::AllocError;
use vax_lines::next_line;
use vax_outside::Text;
use vax_space::Area;

/// What a module's rows are listed by: the image's areas, and where the module's sections lie.
#[derive(Clone, Copy)]
pub(crate) struct Placing<'a> {
    pub(crate) areas: &'a [Area],
    pub(crate) places: &'a [u32],
}

/// Appends a number in a column of six.
#[tactic(auto, unfolding(crate::specs::Listing::number_cell))]
pub(crate) fn push_number(out: &mut Vec<u8>, number: u64) -> Result<(), AllocError>
    ensures { OnOk result (out.new.items ≡ out.old.items ++ spec.number_cell number) }
{
    let mut text = Text::new();
    text.push_decimal(number);
    let digits = text.as_slice();
    push_blanks(out, 6usize.saturating_sub(digits.len()))?;
    out.extend_from_slice(digits)
}

/// Appends what a statement's line begins with: its number, or a mark.
fn push_head(out: &mut Vec<u8>, number: Option<u64>) -> Result<(), AllocError>
    ensures { OnOk result (out.new.items ≡ out.old.items ++ spec.head number) }
{
    match number {
        Some(number) => push_number(out, number),
        None => out.extend_from_slice(b"     +"),
    }
}

/// Appends a text behind so many blanks, if it isn't empty, and LF.
fn push_text(out: &mut Vec<u8>, gap: usize, text: &[u8]) -> Result<(), AllocError>
    requires { gap ≤ 64 }
    ensures { OnOk result (out.new.items
        ≡ out.old.items ++ spec.text_behind (spec.blanks gap) text.now) }
{
    if !text.is_empty() {
        push_blanks(out, gap)?;
        out.extend_from_slice(text)?;
    }
    out.push(b'\n')?;
    Ok(())
}

/// Appends a line that is no statement.
#[tactic(auto, unfolding(crate::specs::Listing::plain_line))]
fn push_plain(out: &mut Vec<u8>, number: u64, text: &[u8]) -> Result<(), AllocError>
    ensures { OnOk result (out.new.items ≡ out.old.items ++ spec.plain_line number text.now) }
{
    push_number(out, number)?;
    push_text(out, 35, text)
}

impl Placing<'_> {
    /// Where a section lies.
    pub(crate) fn place(self, section: usize) -> u32
        ensures { result ≡ slice_index self.entry.places.now section }
    {
        match self.places.get(section) {
            None => 0,
            Some(place) => *place,
        }
    }

    /// Where a statement lies: in an absolute section, which is at address 0, what it has counted.
    fn address(self, row: &Row) -> u32
        ensures { result ≡ spec.address_of (placing_of self.entry) row.now }
    {
        if row.absolute {
            row.begin
        } else {
            self.place(row.section).wrapping_add(row.begin)
        }
    }
}

/// The bytes of a statement; in a section that only counts it has none.
fn bytes_of<'a>(placing: Placing<'a>, row: &Row) -> &'a [u8]
    ensures { result.now ≡ spec.bytes_of (placing_of placing.entry) row.now }
{
    if row.counts {
        return &[];
    }
    let addr = placing.address(row);
    bytes_at(placing.areas, addr, row.end.saturating_sub(row.begin))
}

/// How much further in a statement's text stands.
fn indent(number: Option<u64>) -> usize
    ensures value { result ≡ spec.indent number }
    ensures few { result ≤ 4 }
{
    match number {
        Some(_) => 0,
        None => 4,
    }
}

/// Appends the lines of a statement, whose number tells that it is a whole line.
#[tactic(auto, unfolding(crate::specs::Listing::statement_lines))]
fn push_row(
    out: &mut Vec<u8>,
    placing: Placing<'_>,
    number: Option<u64>,
    row: &Row,
) -> Result<(), AllocError>
    ensures { OnOk result (out.new.items
        ≡ out.old.items ++ spec.row_lines (placing_of placing.entry) number row.now) }
{
    let addr = placing.address(row);
    let bytes = bytes_of(placing, row);
    let column = column(bytes);
    push_head(out, number)?;
    out.push(b' ')?;
    push_address(out, addr)?;
    out.extend_from_slice(column.as_slice())?;
    let gap = 26usize.saturating_sub(column.as_slice().len()) + indent(number);
    push_text(out, gap, row.text.as_slice())?;
    push_more(out, addr, bytes)
}

/// Whether a statement is one of a line.
fn is_of(row: &Row, number: u64) -> bool
    ensures { result ≡ spec.is_of number row.now }
{
    u64::from(row.origin.line) == number
}

/// Whether a statement is one of a line, or of a line before it.
fn is_up_to(row: &Row, number: u64) -> bool
    ensures { result ≡ spec.is_up_to number row.now }
{
    u64::from(row.origin.line) <= number
}

/// Appends a line of the source with the statement that it is, if it is one, and tells which rows are left.
#[tactic(auto, unfolding(crate::specs::Listing::own_lines, crate::specs::Listing::own_left))]
fn push_own<'a>(
    out: &mut Vec<u8>,
    placing: Placing<'_>,
    number: u64,
    text: &[u8],
    rows: &'a [Row],
) -> Result<&'a [Row], AllocError>
    ensures text { OnOk result (out.new.items
        ≡ out.old.items
        ++ spec.own_lines (placing_of placing.entry) number text.now rows.entry.now) }
    ensures left { IfOk result (λ r. r.now ≡ spec.own_left number text.now rows.entry.now) }
{
    if let Some((row, others)) = rows.split_first() {
        if is_of(row, number) && row.text.as_slice() == text {
            push_row(out, placing, Some(number), row)?;
            return Ok(others);
        }
    }
    push_plain(out, number, text)?;
    Ok(rows)
}

/// Appends the statements up to a line that have lines of their own, and tells which rows are left.
#[tactic(auto, unfolding(crate::specs::Listing::others_lines, crate::specs::Listing::others_left))]
fn push_others<'a>(
    out: &mut Vec<u8>,
    placing: Placing<'_>,
    number: u64,
    rows: &'a [Row],
) -> Result<&'a [Row], AllocError>
    ensures text { OnOk result (out.new.items
        ≡ out.old.items ++ spec.others_lines (placing_of placing.entry) number rows.entry.now) }
    ensures left { IfOk result (λ r. r.now ≡ spec.others_left number rows.entry.now) }
{
    let mut left = rows;
    while let Some((row, others)) = left.split_first() {
        if !is_up_to(row, number) {
            return Ok(left);
        }
        push_row(out, placing, None, row)?;
        left = others;
    }
    Ok(left)
}

/// Appends a line of the source with its statements, and tells which rows are left.
#[tactic(auto, unfolding(crate::specs::Listing::line_lines))]
fn push_line<'a>(
    out: &mut Vec<u8>,
    placing: Placing<'_>,
    number: u64,
    text: &[u8],
    rows: &'a [Row],
) -> Result<&'a [Row], AllocError>
    ensures text { OnOk result (out.new.items
        ≡ out.old.items
        ++ spec.line_lines (placing_of placing.entry) number text.now rows.entry.now) }
    ensures left { IfOk result (λ r. r.now ≡ spec.line_left number text.now rows.entry.now) }
{
    let left = push_own(out, placing, number, text, rows)?;
    push_others(out, placing, number, left)
}

/// Appends the lines of a source.
#[tactic(auto, unfolding(crate::specs::Listing::source_lines))]
pub(crate) fn push_source(
    out: &mut Vec<u8>,
    placing: Placing<'_>,
    source: &[u8],
    rows: &[Row],
) -> Result<(), AllocError>
    ensures { OnOk result (out.new.items
        ≡ out.old.items
        ++ spec.source_lines (placing_of placing.entry) 0 (lines source.now) rows.now) }
{
    let mut number = 0;
    let mut rest = source;
    let mut left = rows;
    while let Some((text, behind)) = next_line(rest) {
        number += 1;
        left = push_line(out, placing, number, text, left)?;
        rest = behind;
    }
    Ok(())
}
