// The sections of a module while it is assembled.

ghost use Rattle.std.specs.Prelude.{◌≡◌, ◌<◌, ◌≤◌, ◌+◌, ◌^◌, IfOk, OnOk, OnErr, IfSome, None, Some, is_some, length, map, true, false};
ghost use Rattle.vax_asm_names.specs.ByName.{by_name, with_entry};
ghost use Rattle.vax_asm_sections.specs.Layout.{gap, alignment, differs, says_otherwise, overlays_otherwise, conflicts, exceeds, longer, place_in, raised, refuses, set_back, start_of, is_absolute, only_counts, at_first, current_of, with_part, with_raised, with_set_back, put, aligned, numbered, made, gone_back, begun, selected};
ghost use Rattle.vax_asm_sections.specs.Journal.{shorter, undo, NotesIn};
ghost use Rattle.vax_asm_sections.specs.View.{marked_sections, part_of, section_of, sections_of, KeepsMark, Leaves};

use crate::journal::{Journal, Put};
use crate::types::{Attributes, Building, Layout, Piece, Refusal};
use std::alloc::{AllocError, AllocFailed, Global};
use std::collections::BTreeMap;

const SECTION_LIMIT: u64 = 1_048_576;

const MODULE_LIMIT: u64 = 16_777_216;

/// The bytes up to the next multiple of a power of two.
fn gap(size: u32, align: u8) -> u32
    requires { align ≤ 9 }
    ensures exact { result ≡ gap size (2 ^ align) }
    ensures few { result < 512 }
{
    let boundary: u32 = match align {
        0 => 1,
        1 => 2,
        2 => 4,
        3 => 8,
        4 => 16,
        5 => 32,
        6 => 64,
        7 => 128,
        8 => 256,
        _ => 512,
    };
    (boundary - size % boundary) % boundary
}

fn differs(said: Option<u8>, before: u8) -> bool
    ensures { result ≡ differs said before }
{
    match said {
        Some(align) => align != before,
        None => false,
    }
}

fn says_otherwise(said: Option<bool>, before: bool) -> bool
    ensures { result ≡ says_otherwise said before }
{
    match said {
        Some(now) => now != before,
        None => false,
    }
}

/// Of an absolute section nothing is said by it.
fn overlays_otherwise(absolute: bool, said: Option<bool>, before: bool) -> bool
    ensures { result ≡ overlays_otherwise absolute said before }
{
    !absolute && says_otherwise(said, before)
}

fn conflicts<F>(attributes: Attributes, section: &Building<F>) -> bool
    ensures { result ≡ conflicts attributes (section_of section.now) }
{
    differs(attributes.align, section.declared)
        || says_otherwise(attributes.write, section.write)
        || says_otherwise(attributes.absolute, section.is_absolute())
        || overlays_otherwise(section.is_absolute(), attributes.overlaid, section.overlaid)
}

/// An absolute section is at address 0, wherever others come to stand.
fn alignment(absolute: bool, align: u8) -> u8
    ensures { result ≡ alignment absolute align }
{
    if absolute { 0 } else { align }
}

/// A section that only counts begins at 0.
fn start_of(counts: bool) -> Option<u32>
    ensures { result ≡ start_of counts }
{
    if counts { Some(0) } else { None }
}

fn is_too_long(size: u32, total: u32, more: u32) -> bool
    ensures { result ≡ exceeds size total more }
{
    u64::from(size) + u64::from(more) > SECTION_LIMIT
        || u64::from(total) + u64::from(more) > MODULE_LIMIT
}

impl<F> Building<F> {
    /// Where the next statement goes in it.
    pub fn place(&self) -> u32
        ensures place { result ≡ place_in (section_of self.now) }
        ensures near { result ≤ 1048576 }
    {
        match self.counter {
            Some(at) => at,
            None => self.size,
        }
    }

    /// Whether it only counts, as an absolute or an overlaid section does.
    pub fn only_counts(&self) -> bool
        ensures { result ≡ only_counts (section_of self.now) }
    {
        self.counter.is_some()
    }

    /// Whether it is absolute.
    pub fn is_absolute(&self) -> bool
        ensures { result ≡ is_absolute (section_of self.now) }
    {
        self.counter.is_some() && !self.overlaid
    }

    /// Whether it holds no such data.
    fn refuses(&self, piece: &Piece<F>) -> bool
        ensures { result ≡ refuses (section_of self.now) (part_of piece.now) }
    {
        match piece {
            Piece::Zeros(_) => false,
            Piece::Bytes(_) | Piece::Field(_) => self.only_counts(),
        }
    }

    fn add(&mut self, more: u32, piece: Piece<F>) -> Result<(), AllocFailed<Piece<F>>>
    where
        F: Drop,
        requires { place_in (section_of self.old) + more ≤ 1048576 }
        ensures longer { OnOk result (section_of self.new
            ≡ longer more (part_of piece) (section_of self.old)) }
        ensures named { self.new.name ≡ self.old.name }
    {
        if let Some(at) = self.counter {
            self.counter = Some(at + more);
            return Ok(());
        }
        self.pieces.push(piece)?;
        self.size += more;
        Ok(())
    }

    /// Goes on at a place before.
    fn set_back(&mut self, to: u32)
        requires { to ≤ 1048576 }
        ensures back { section_of self.new ≡ set_back to (section_of self.old) }
        ensures named { self.new.name ≡ self.old.name }
    {
        self.counter = Some(to);
    }

    /// What was put last is taken away.
    fn shorten(&mut self, put: Put)
    where
        F: Drop,
        ensures back { section_of self.new ≡ shorter put (section_of self.old) }
        ensures named { self.new.name ≡ self.old.name }
    {
        if put.counter.is_none() {
            self.pieces.pop();
        }
        self.size = put.size;
        self.counter = put.counter;
    }

    fn raise(&mut self, align: u8)
        requires { align ≤ 9 }
        ensures { section_of self.new ≡ raised align (section_of self.old) }
    {
        self.align = alignment(self.is_absolute(), self.align.max(align));
    }
}

fn made<F>(alloc: Global, name: Vec<u8>, attributes: Attributes) -> Building<F>
    requires { IfSome attributes.align (λ k. k ≤ 9) }
    ensures { section_of result ≡ made name.items attributes }
{
    let declared = attributes.align.unwrap_or(0);
    let absolute = attributes.absolute.unwrap_or(false);
    let overlaid = attributes.overlaid.unwrap_or(false);
    Building {
        name,
        declared,
        write: attributes.write.unwrap_or(true),
        align: alignment(absolute, declared),
        size: 0,
        pieces: Vec::new(alloc),
        counter: start_of(absolute || overlaid),
        overlaid: !absolute && overlaid,
    }
}

fn copied(alloc: Global, name: &[u8]) -> Result<Vec<u8>, AllocError>
    ensures { IfOk result (λ v. v.items ≡ name.now) }
{
    name.to_vec(alloc)
}

/// A name gets its number.
fn add_number(
    alloc: Global,
    numbers: &mut BTreeMap<Vec<u8>, usize>,
    name: &[u8],
    number: usize,
) -> Result<(), AllocError>
    ensures added { OnOk result (by_name numbers.new
        ≡ with_entry name.now (Some number) (by_name numbers.old)) }
    ensures kept { OnErr result (by_name numbers.new ≡ by_name numbers.old) }
{
    let name = copied(alloc, name)?;
    numbers.insert(name, number)?;
    Ok(())
}

/// Notes what is to be put into a section, where all have this size.
fn note_put<F>(journal: &mut Journal, section: &Building<F>, total: u32)
    ensures { NotesIn (section_of section.now) total journal.old journal.new }
{
    if journal.marked {
        journal.note(Put {
            size: section.size,
            counter: section.counter,
            total,
        });
    }
}

impl<F> Layout<F> {
    /// The section without a name alone.
    pub fn new(alloc: Global) -> Result<Layout<F>, AllocError>
    where
        F: Drop,
        ensures sections { IfOk result (λ l. sections_of l ≡ at_first) }
        ensures unmarked { IfOk result (λ l. marked_sections l ≡ None) }
    {
        let unnamed = Building {
            name: Vec::new(alloc),
            declared: 0,
            write: true,
            align: 0,
            size: 0,
            pieces: Vec::new(alloc),
            counter: None,
            overlaid: false,
        };
        let mut numbers = BTreeMap::new(alloc);
        add_number(alloc, &mut numbers, &[], 0)?;
        Ok(Layout {
            sections: vec![in alloc; unnamed]?,
            numbers,
            current: 0,
            total: 0,
            journal: Journal::new(alloc),
        })
    }

    /// The sections get a mark as they are now, in place of an earlier one.
    pub fn mark(&mut self)
        ensures same { sections_of self.new ≡ sections_of self.old }
        ensures marked { marked_sections self.new ≡ Some (sections_of self.old) }
    {
        self.journal.mark();
    }

    /// Drops the mark.
    pub fn unmark(&mut self)
        ensures same { sections_of self.new ≡ sections_of self.old }
        ensures marked { marked_sections self.new ≡ None }
    {
        self.journal.unmark();
    }

    /// Whether there is a mark.
    pub fn is_marked(&self) -> bool
        ensures { result ≡ is_some (marked_sections self.now) }
    {
        self.journal.marked
    }

    /// Goes back to the mark, which is dropped then. The time is that of what was put since.
    ///
    /// False if there is no mark. The sections are then as before.
    pub fn go_back(&mut self) -> bool
    where
        F: Drop,
        ensures marked { result ≡ is_some (marked_sections self.old) }
        ensures back { result ≡ true → marked_sections self.old ≡ Some (sections_of self.new) }
        ensures kept { result ≡ false → sections_of self.new ≡ sections_of self.old }
        ensures unmarked { marked_sections self.new ≡ None }
    {
        if !self.journal.marked {
            return false;
        }
        self.journal.marked = false;
        while let Some(put) = self.journal.puts.pop() {
            self.undo(put);
        }
        true
    }

    /// What was put last is taken away.
    fn undo(&mut self, put: Put)
    where
        F: Drop,
        ensures sections { sections_of self.new ≡ undo put (sections_of self.old) }
        ensures journal { self.new.journal ≡ self.old.journal }
    {
        self.sections[self.current].shorten(put);
        self.total = put.total;
    }

    /// The section that the next statement goes into.
    #[tactic(auto, using(crate::proofs::Changing::current_seen))]
    pub fn current(&self) -> &Building<F>
        ensures { section_of result.now ≡ current_of (sections_of self.now) }
    {
        &self.sections[self.current]
    }

    /// The number of that section in their list.
    pub fn number(&self) -> usize
        ensures { result ≡ (sections_of self.now).current }
    {
        self.current
    }

    /// The sections, in the order in which they were first chosen.
    pub fn sections(&self) -> &[Building<F>]
        ensures { map section_of result.now ≡ (sections_of self.now).all }
    {
        &self.sections
    }

    #[tactic(auto, using(crate::proofs::Changing::part_added))]
    fn add(&mut self, more: u32, piece: Piece<F>) -> Result<(), AllocFailed<Piece<F>>>
    where
        F: Drop,
        requires section { place_in (current_of (sections_of self.old)) + more ≤ 1048576 }
        requires total { self.old.total + more < 2 ^ 32 }
        ensures sections { OnOk result (sections_of self.new
            ≡ with_part more (part_of piece) (sections_of self.old)) }
        ensures mark { KeepsMark self.old self.new }
    {
        note_put(&mut self.journal, &self.sections[self.current], self.total);
        if let Err(refused) = self.sections[self.current].add(more, piece) {
            self.journal.unmark();
            return Err(refused);
        }
        self.total += more;
        Ok(())
    }

    #[tactic(auto, using(crate::proofs::Changing::alignment_raised))]
    fn raise(&mut self, align: u8)
        requires { align ≤ 9 }
        ensures sections { sections_of self.new ≡ with_raised align (sections_of self.old) }
        ensures mark { KeepsMark self.old self.new }
    {
        self.journal.unmark();
        self.sections[self.current].raise(align);
    }

    /// Adds so many bytes to the section that the next statement goes into.
    ///
    /// [`Refusal::Absolute`] where that only counts and the bytes aren't zeros alone, [`Refusal::TooLong`] where the section or the module would be too long, [`Refusal::NoMemory`] where memory is
    /// refused; the sections are then as before.
    #[tactic(auto, unfolding(crate::specs::Layout::put))]
    pub fn put(&mut self, more: u32, piece: Piece<F>) -> Result<(), Refusal>
    where
        F: Drop,
        ensures sections { Leaves
            result self.old self.new (put more (part_of piece) (sections_of self.old)) }
        ensures mark { KeepsMark self.old self.new }
    {
        if self.current().refuses(&piece) {
            return Err(Refusal::Absolute);
        }
        if is_too_long(self.current().place(), self.total, more) {
            return Err(Refusal::TooLong);
        }
        self.add(more, piece).map_err(|_| Refusal::NoMemory)?;
        Ok(())
    }

    /// The section that the next statement goes into, which is absolute, goes on at a place before.
    #[tactic(auto, using(crate::proofs::Changing::back_seen))]
    pub fn set_back(&mut self, to: u32)
        requires absolute { is_absolute (current_of (sections_of self.old)) ≡ true }
        requires before { to ≤ place_in (current_of (sections_of self.old)) }
        ensures sections { sections_of self.new ≡ with_set_back to (sections_of self.old) }
        ensures mark { KeepsMark self.old self.new }
    {
        self.journal.unmark();
        let back = self.current().place() - to;
        self.sections[self.current].set_back(to);
        self.total = self.total.saturating_sub(back);
    }

    /// `.ALIGN`: fills the section that the next statement goes into with zero bytes up to a multiple of a power of two,
    /// and aligns the section to it at least.
    #[tactic(auto, unfolding(crate::specs::Layout::aligned))]
    pub fn align(&mut self, align: u8) -> Result<(), Refusal>
    where
        F: Drop,
        requires { align ≤ 9 }
        ensures sections { Leaves
            result self.old self.new (aligned align (sections_of self.old)) }
        ensures mark { KeepsMark self.old self.new }
    {
        let more = gap(self.current().place(), align);
        self.put(more, Piece::Zeros(more))?;
        self.raise(align);
        Ok(())
    }

    /// The number of the section with a name.
    fn number_of(&self, name: &[u8]) -> Option<usize>
        ensures number { result ≡ numbered 0 name.now (sections_of self.now).all }
        ensures within { IfSome result (λ i. i < length self.now.sections.items) }
    {
        self.numbers.get(name).copied()
    }

    /// Goes on in a section that has begun.
    #[tactic(auto, using(crate::proofs::Changing::chosen_seen))]
    fn resume(&mut self, i: usize, attributes: Attributes) -> Result<(), Refusal>
        requires { i < length self.old.sections.items }
        ensures sections { Leaves
            result self.old self.new (gone_back attributes (sections_of self.old) i) }
        ensures mark { KeepsMark self.old self.new }
    {
        if conflicts(attributes, &self.sections[i]) {
            return Err(Refusal::Conflict);
        }
        self.journal.unmark();
        self.current = i;
        Ok(())
    }

    /// Begins a section.
    #[tactic(auto, using(crate::proofs::Changing::section_begun))]
    fn begin(&mut self, alloc: Global, name: &[u8], attributes: Attributes) -> Result<(), Refusal>
    where
        F: Drop,
        requires align { IfSome attributes.align (λ k. k ≤ 9) }
        requires new { numbered 0 name.now (sections_of self.old).all ≡ None }
        ensures sections { Leaves
            result self.old self.new (begun name.now attributes (sections_of self.old) None) }
        ensures mark { KeepsMark self.old self.new }
    {
        self.journal.unmark();
        let number = self.sections.len();
        let copy = copied(alloc, name).map_err(|_| Refusal::NoMemory)?;
        let section = made(alloc, copy, attributes);
        self.sections.push(section).map_err(|_| Refusal::NoMemory)?;
        if add_number(alloc, &mut self.numbers, name, number).is_err() {
            self.sections.pop();
            return Err(Refusal::NoMemory);
        }
        self.current = number;
        Ok(())
    }

    /// `.PSECT`: chooses the section with this name, which begins if there is none.
    ///
    /// [`Refusal::Conflict`] where the section was first said to have another alignment or protection, or to be absolute or not, or
    /// overlaid or not, [`Refusal::NoMemory`] where memory is refused; the sections are then as before.
    #[tactic(auto, unfolding(crate::specs::Layout::selected))]
    pub fn select(
        &mut self,
        alloc: Global,
        name: &[u8],
        attributes: Attributes,
    ) -> Result<(), Refusal>
    where
        F: Drop,
        requires { IfSome attributes.align (λ k. k ≤ 9) }
        ensures sections { Leaves
            result self.old self.new (selected name.now attributes (sections_of self.old)) }
        ensures mark { KeepsMark self.old self.new }
    {
        match self.number_of(name) {
            Some(i) => self.resume(i, attributes),
            None => self.begin(alloc, name, attributes),
        }
    }
}
