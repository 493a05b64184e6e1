// Lines as they are read, with those that continue them.

ghost use Rattle.std.specs.Prelude.{◌≡◌, ◌+◌, ◌<◌, ◌≤◌, ◌++◌, [], IfOk, OnOk, length, take, false};
ghost use Rattle.vax_lex.specs.Tokens.{pieces_of};
ghost use Rattle.vax_macro.specs.Lines.{dash_in, with_part};
ghost use Rattle.vax_macro.specs.LineViews.{line_of, lines_of, reading_of, remainder_of};
ghost use Rattle.vax_macro.specs.Expansion.{whole};
ghost use Rattle.vax_macro.specs.Readings.{Puts, IsJoined, IsWithin, IsRead, IsOf, IsCounted};

use crate::counts::one_more;
use crate::error::FaultKind;
use crate::heads::is_mark_piece;
use crate::line_types::{Joined, Lines, Read, Reading, Remainder, SourceLine};
use crate::names::{copied, part};
use std::alloc::Global;
use vax_dialect::Dialect;
use vax_lex::{Piece, pieces};
use vax_space::NoMemory;

/// The longest line, in bytes.
const LONGEST: usize = 1024;

/// How many lines may be read.
const LIMIT: u32 = 100_000;

/// Where the `-` stands that is last on a line.
fn dash_in(pieces: &[Piece]) -> Option<usize>
    ensures { result ≡ dash_in pieces.now }
{
    match pieces.get(pieces.len().saturating_sub(1)) {
        Some(last) => {
            if is_mark_piece(b'-', last.kind) {
                Some(last.start as usize)
            } else {
                None
            }
        }
        None => None,
    }
}

/// What stands before the `-` that is last on a line.
fn before(text: &[u8], dash: usize) -> &[u8]
    ensures { result.now ≡ take dash text.now }
{
    part(text, 0, dash)
}

/// The text of a line behind one that was continued.
fn joined(alloc: Global, before: &[u8], text: &[u8]) -> Result<Vec<u8>, NoMemory>
    ensures { IfOk result (λ v. v.items ≡ before.now ++ text.now) }
{
    let mut whole = copied(alloc, before)?;
    whole.extend_from_slice(text).map_err(|_| NoMemory)?;
    Ok(whole)
}

impl Reading {
    /// No line so far.
    #[tactic(auto, using(crate::proofs::Within::nothing_cut))]
    fn new(alloc: Global, dialect: Dialect, number: u32, depth: u32) -> Reading
        ensures exact { reading_of result
            ≡ record { number = number; depth = depth; text = []; parts = []; labelled = false } }
        ensures dialect { result.dialect ≡ dialect }
    {
        Reading {
            dialect,
            number,
            depth,
            text: Vec::new(alloc),
            pieces: Vec::new(alloc),
            parts: Vec::new(alloc),
            labelled: false,
        }
    }

    /// Puts a line behind the text, which it makes this one with these pieces.
    fn keep(&mut self, text: Vec<u8>, pieces: Vec<Piece>, line: Vec<u8>) -> Result<(), NoMemory>
        requires short { length text.items ≤ 1024 }
        requires cut { pieces.items ≡ pieces_of self.old.dialect text.items }
        requires part { length line.items ≤ 1024 }
        ensures exact { OnOk result
            (reading_of self.new ≡ with_part (reading_of self.old) text.items line.items) }
        ensures dialect { self.new.dialect ≡ self.old.dialect }
    {
        self.text = text;
        self.pieces = pieces;
        self.parts.push(line).map_err(|_| NoMemory)
    }

    /// Puts a line behind the text: up to its last `-`, where it is continued.
    fn put(&mut self, alloc: Global, line: Vec<u8>) -> Result<Joined, NoMemory>
        requires { length line.items ≤ 1024 }
        ensures exact { IfOk result
            (λ j. Puts self.old.dialect j (reading_of self.old) line.items (reading_of self.new)) }
        ensures dialect { self.new.dialect ≡ self.old.dialect }
    {
        let text = joined(alloc, &self.text, &line)?;
        let found = pieces(alloc, self.dialect, &text).map_err(|_| NoMemory)?;
        let Some(dash) = dash_in(&found) else {
            if text.len() > LONGEST {
                return Ok(Joined::Fault(self.number, FaultKind::Token));
            }
            self.keep(text, found, line)?;
            return Ok(Joined::Whole);
        };
        let kept = before(&text, dash);
        if kept.len() > LONGEST {
            return Ok(Joined::Fault(self.number, FaultKind::Token));
        }
        let kept = copied(alloc, kept)?;
        let found = pieces(alloc, self.dialect, &kept).map_err(|_| NoMemory)?;
        self.keep(kept, found, line)?;
        Ok(Joined::More)
    }

    /// Reads a line behind the text.
    #[tactic(auto, unfolding(crate::specs::Expansion::read_on))]
    fn join(&mut self, alloc: Global, line: SourceLine, read: &mut u32) -> Result<Joined, NoMemory>
        ensures exact { IfOk result (λ j. IsJoined self.old.dialect j (reading_of self.old)
            (line_of line) (reading_of self.new) read.old read.new) }
        ensures dialect { self.new.dialect ≡ self.old.dialect }
        ensures more { IfOk result (λ j. read.old < read.new) }
        ensures within { IfOk result (λ j. IsWithin j read.new) }
    {
        *read = one_more(*read)?;
        if line.text.len() > LONGEST {
            return Ok(Joined::Fault(line.number, FaultKind::Token));
        }
        if *read > LIMIT {
            return Ok(Joined::Fault(line.number, FaultKind::Lines));
        }
        let joined = self.put(alloc, line.text)?;
        Ok(joined)
    }
}

/// What is left of a line, as a line of its own.
pub(crate) fn whole(alloc: Global, dialect: Dialect, left: Remainder) -> Result<Reading, NoMemory>
    ensures exact { IfOk result (λ r. reading_of r ≡ whole (remainder_of left)) }
    ensures dialect { IfOk result (λ r. r.dialect ≡ dialect) }
{
    let Remainder {
        number,
        depth,
        text,
        labelled,
    } = left;
    let pieces = pieces(alloc, dialect, &text).map_err(|_| NoMemory)?;
    let mut parts = Vec::new(alloc);
    let copy = copied(alloc, &text)?;
    parts.push(copy).map_err(|_| NoMemory)?;
    Ok(Reading {
        dialect,
        number,
        depth,
        text,
        pieces,
        parts,
        labelled,
    })
}

/// The next line of a source in a dialect, with those that continue it.
#[tactic(auto, unfolding(crate::specs::Expansion::read_on))]
pub(crate) fn next_reading(
    alloc: Global,
    dialect: Dialect,
    lines: &mut Lines,
    read: &mut u32,
) -> Result<Read, NoMemory>
    ensures exact { IfOk result
        (λ r. IsRead dialect r (lines_of lines.old) (lines_of lines.new) read.old read.new) }
    ensures dialect { IfOk result (λ r. IsOf dialect r) }
    ensures counted { IfOk result (λ r. IsCounted r read.old read.new) }
{
    let next = lines.next(alloc)?;
    let Some(first) = next else {
        return Ok(Read::Nothing);
    };
    let mut begun = Reading::new(alloc, dialect, first.number, first.depth);
    let mut joined = begun.join(alloc, first, read)?;
    'lines: loop {
        match joined {
            Joined::Whole => return Ok(Read::Line(begun)),
            Joined::Fault(number, kind) => return Ok(Read::Fault(number, kind)),
            Joined::More => {
                let next = lines.next(alloc)?;
                let Some(line) = next else {
                    lines.clear();
                    return Ok(Read::Line(begun));
                };
                joined = begun.join(alloc, line, read)?;
            }
        }
    }
}
