// What is worth a remark in a source: it may assemble, and yet not be what was meant.

ghost use Rattle.std.specs.Prelude.{◌≡◌, ◌++◌, ◌∷◌, [], IfOk, OnOk, take};
ghost use Rattle.vax_asm_causes.specs.Places.{line_pieces};
ghost use Rattle.vax_asm_causes.specs.Remarks.{end_name, first_place, is_at, is_unused, line_remarks, mask_remarks, may_be_made, own_label, pieces_remarks, place_in, place_remarks, register_remarks, remark_on, remarks, remarks_if, start_of, unused_remarks};
ghost use Rattle.vax_asm_causes.specs.View.{IsRead, asked_by};

use crate::counts::{Counts, counts_of, is_once};
use crate::form::is_false_register;
use crate::made::{Maker, has_end, has_front, has_maker};
use crate::names::is_local;
use crate::places::{Sought, first_line, is_called};
use crate::statement::{is_mark, is_name, operation_of, pieces_of, text_of};
use std::alloc::Global;
use vax_dialect::Dialect;
use vax_lex::Piece;
use vax_lines::next_line;
use vax_space::NoMemory;

/// So many remarks are made on a source at most.
const MOST: usize = 100;

/// What a remark is about.
#[derive(Clone, Copy, PartialEq, Eq)]
pub enum About {
    /// Here a name stands first that was told of before.
    Place,
    /// A name that looks like a register.
    Register,
    /// A procedure at which the program begins: the bare machine runs its mask as an instruction.
    Mask,
    /// A label that nothing uses.
    Unused,
}

/// A remark on a piece of a line of a source, which is counted from 1.
#[derive(Clone, Copy)]
pub struct Remark {
    pub about: About,
    pub line: usize,
    pub piece: Piece,
}

/// Which remarks are wanted beside those on names that look like registers.
#[derive(Clone, Copy)]
pub struct Wanted<'a> {
    /// On a procedure at which the program begins: the bare machine runs its mask as an instruction.
    pub bare: bool,
    /// On labels that nothing uses.
    pub unused: bool,
    /// Where this name stands first; empty for none.
    pub name: &'a [u8],
}

/// A source that is read for remarks: how often each name stands there, whether its expansions join names and take them apart, the line on which the wanted
/// name stands first, and the name at which its program begins, empty where it says none.
#[derive(Drop)]
struct Reading<'a> {
    dialect: Dialect,
    wanted: Wanted<'a>,
    source: &'a [u8],
    counts: Counts,
    has_joints: bool,
    has_splits: bool,
    place: Option<usize>,
    start: &'a [u8],
}

/// A line with its number and its pieces.
#[derive(Clone, Copy)]
struct Numbered<'a> {
    number: usize,
    line: &'a [u8],
    pieces: &'a [Piece],
}

/// Adds a remark.
#[tactic(auto, unfolding(crate::specs::Remarks::remark_on))]
fn add(all: &mut Vec<Remark>, about: About, number: usize, piece: Piece) -> Result<(), NoMemory>
    ensures { OnOk result (all.new.items ≡ all.old.items ++ remark_on about number piece ∷ []) }
{
    all.push(Remark {
        about,
        line: number,
        piece,
    })
    .map_err(|_| NoMemory)
}

/// A remark on the first place of a name in a line.
fn remark_place(all: &mut Vec<Remark>, at: Numbered<'_>, name: &[u8]) -> Result<(), NoMemory>
    ensures { OnOk result (all.new.items ≡ all.old.items ++ place_in name.now
        at.entry.number at.entry.line.now at.entry.pieces.now) }
{
    for piece in at.pieces {
        if is_called(at.line, *piece, name) {
            return add(all, About::Place, at.number, *piece);
        }
    }
    Ok(())
}

/// Remarks on names of a line that look like registers.
fn remark_registers(all: &mut Vec<Remark>, at: Numbered<'_>) -> Result<(), NoMemory>
    ensures { OnOk result (all.new.items ≡ all.old.items ++ register_remarks
        at.entry.number at.entry.line.now at.entry.pieces.now) }
{
    for piece in at.pieces {
        if is_false_register(at.line, *piece) {
            add(all, About::Register, at.number, *piece)?;
        }
    }
    Ok(())
}

/// The name behind an operator `.END` of a line; empty where there is none.
#[tactic(auto, unfolding(crate::specs::Remarks::end_name))]
fn end_name<'a>(line: &'a [u8], pieces: &[Piece]) -> &'a [u8]
    ensures { result.now ≡ end_name line.entry.now pieces.now }
{
    match pieces {
        [operator, name, ..] if is_called(line, *operator, b".END") && is_name(*name) => {
            text_of(line, *name)
        }
        _ => &[],
    }
}

/// The name at which a source says that its program begins; empty where it says none.
#[tactic(auto, unfolding(crate::specs::Remarks::first_end))]
fn start_of<'a>(alloc: Global, dialect: Dialect, source: &'a [u8]) -> Result<&'a [u8], NoMemory>
    ensures { IfOk result (λ name. name.now ≡ start_of dialect source.entry.now) }
{
    let mut rest = source;
    while let Some((line, behind)) = next_line(rest) {
        let pieces = pieces_of(alloc, dialect, line)?;
        let name = end_name(line, operation_of(&pieces));
        if !name.is_empty() {
            return Ok(name);
        }
        rest = behind;
    }
    Ok(&[])
}

/// A remark on a procedure at which the program begins, for the bare machine.
fn remark_mask(all: &mut Vec<Remark>, at: Numbered<'_>, start: &[u8]) -> Result<(), NoMemory>
    ensures { OnOk result (all.new.items ≡ all.old.items ++ mask_remarks start.now
        at.entry.number at.entry.line.now at.entry.pieces.now) }
{
    match operation_of(at.pieces) {
        [operator, name, ..]
            if is_called(at.line, *operator, b".ENTRY") && is_called(at.line, *name, start) => {
            add(all, About::Mask, at.number, *operator)
        }
        _ => Ok(()),
    }
}

/// The label of a line that only its file can use.
fn own_label(pieces: &[Piece]) -> Option<Piece>
    ensures { result ≡ own_label pieces.now }
{
    let [label, colon, rest @ ..] = pieces else {
        return None;
    };
    if !is_name(*label) || !is_mark(*colon, b':') {
        return None;
    }
    match rest {
        [next, ..] if is_mark(*next, b':') => None,
        _ => Some(*label),
    }
}

/// Whether an expansion may make a name of parts that stand in the source.
fn may_be_made(alloc: Global, reading: &Reading<'_>, name: &[u8]) -> Result<bool, NoMemory>
    requires { IsRead reading.now }
    ensures { IfOk result
        (λ b. b ≡ may_be_made reading.now.dialect reading.now.source.now name.now) }
{
    if reading.has_splits {
        return Ok(true);
    }
    if !reading.has_joints {
        return Ok(false);
    }
    Ok(has_front(alloc, &reading.counts, name)? && has_end(alloc, &reading.counts, name)?)
}

/// Whether a label is no local one, stands nowhere else, and isn't one that an expansion may make.
fn is_unused(alloc: Global, reading: &Reading<'_>, name: &[u8]) -> Result<bool, NoMemory>
    requires { IsRead reading.now }
    ensures { IfOk result (λ b. b ≡ is_unused reading.now.dialect reading.now.source.now name.now) }
{
    if is_local(name) {
        return Ok(false);
    }
    if !is_once(alloc, &reading.counts, name)? {
        return Ok(false);
    }
    Ok(!may_be_made(alloc, reading, name)?)
}

/// A remark on a line's label that nothing uses.
fn remark_unused(
    alloc: Global,
    all: &mut Vec<Remark>,
    reading: &Reading<'_>,
    at: Numbered<'_>,
) -> Result<(), NoMemory>
    requires { IsRead reading.now }
    ensures { OnOk result (all.new.items ≡ all.old.items ++ unused_remarks
        reading.now.dialect reading.now.source.now
        at.entry.number at.entry.line.now at.entry.pieces.now) }
{
    let Some(label) = own_label(at.pieces) else {
        return Ok(());
    };
    if !is_unused(alloc, reading, text_of(at.line, label))? {
        return Ok(());
    }
    add(all, About::Unused, at.number, label)
}

/// Whether the line with this number is that one.
fn is_at(number: usize, place: Option<usize>) -> bool
    ensures { result ≡ is_at number place }
{
    match place {
        None => false,
        Some(place) => place == number,
    }
}

/// The remarks on a line with these pieces.
#[tactic(auto, unfolding(crate::specs::Remarks::pieces_remarks))]
fn remark_pieces(
    alloc: Global,
    all: &mut Vec<Remark>,
    reading: &Reading<'_>,
    at: Numbered<'_>,
) -> Result<(), NoMemory>
    requires { IsRead reading.now }
    ensures { OnOk result (all.new.items ≡ all.old.items ++ pieces_remarks
        reading.now.dialect (asked_by reading.now.wanted) reading.now.source.now
        at.entry.number at.entry.line.now at.entry.pieces.now) }
{
    if is_at(at.number, reading.place) {
        remark_place(all, at, reading.wanted.name)?;
    }
    remark_registers(all, at)?;
    if reading.wanted.bare {
        remark_mask(all, at, reading.start)?;
    }
    if reading.wanted.unused {
        remark_unused(alloc, all, reading, at)?;
    }
    Ok(())
}

/// The remarks on the line with this number.
fn remark_line(
    alloc: Global,
    all: &mut Vec<Remark>,
    reading: &Reading<'_>,
    number: usize,
    line: &[u8],
) -> Result<(), NoMemory>
    requires { IsRead reading.now }
    ensures { OnOk result (all.new.items ≡ all.old.items ++ line_remarks
        reading.now.dialect (asked_by reading.now.wanted) reading.now.source.now number line.now) }
{
    let pieces = pieces_of(alloc, reading.dialect, line)?;
    let at = Numbered {
        number,
        line,
        pieces: &pieces,
    };
    remark_pieces(alloc, all, reading, at)
}

/// Where a name stands first; of no name nowhere.
fn first_place(
    alloc: Global,
    dialect: Dialect,
    name: &[u8],
    source: &[u8],
) -> Result<Option<usize>, NoMemory>
    ensures { IfOk result (λ o. o ≡ first_place dialect name.now source.now) }
{
    if name.is_empty() {
        return Ok(None);
    }
    first_line(alloc, dialect, source, name, Sought::Anywhere)
}

impl<'a> Reading<'a> {
    fn new(
        alloc: Global,
        dialect: Dialect,
        source: &'a [u8],
        wanted: Wanted<'a>,
    ) -> Result<Reading<'a>, NoMemory>
        ensures dialect { IfOk result (λ r. r.dialect ≡ dialect) }
        ensures read { IfOk result IsRead }
        ensures source { IfOk result (λ r. r.source ≡ source.entry) }
        ensures wanted { IfOk result (λ r. r.wanted ≡ wanted.entry) }
    {
        Ok(Reading {
            dialect,
            wanted,
            source,
            counts: counts_of(alloc, dialect, source)?,
            has_joints: has_maker(alloc, dialect, source, Maker::Joint)?,
            has_splits: has_maker(alloc, dialect, source, Maker::Split)?,
            place: first_place(alloc, dialect, wanted.name, source)?,
            start: start_of(alloc, dialect, source)?,
        })
    }
}

/// The first hundred.
fn cut(all: Vec<Remark>) -> Vec<Remark>
    ensures { result.items ≡ take 100 all.items }
{
    let mut all = all;
    all.truncate(MOST);
    all
}

/// The remarks of a source that is read.
#[tactic(auto, unfolding(crate::specs::Remarks::lines_remarks))]
fn remarks_in(alloc: Global, reading: &Reading<'_>) -> Result<Vec<Remark>, NoMemory>
    requires { IsRead reading.now }
    ensures { IfOk result
        (λ v. v.items ≡ remarks reading.now.dialect (asked_by reading.now.wanted)
        reading.now.source.now) }
{
    let mut all = Vec::new(alloc);
    let mut number: usize = 1;
    let mut rest = reading.source;
    while let Some((line, behind)) = next_line(rest) {
        if all.len() >= MOST {
            return Ok(cut(all));
        }
        remark_line(alloc, &mut all, reading, number, line)?;
        number += 1;
        rest = behind;
    }
    Ok(cut(all))
}

/// The first hundred remarks on a source of a dialect that are wanted, line by line.
///
/// # Errors
///
/// [`NoMemory`] where memory is refused.
pub fn remarks_of(
    alloc: Global,
    dialect: Dialect,
    source: &[u8],
    wanted: Wanted<'_>,
) -> Result<Vec<Remark>, NoMemory>
    ensures { IfOk result (λ v. v.items ≡ remarks dialect (asked_by wanted.entry) source.now) }
{
    let reading = Reading::new(alloc, dialect, source, wanted)?;
    remarks_in(alloc, &reading)
}
