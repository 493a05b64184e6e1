// The lines that are still to come.

ghost use Rattle.std.specs.Prelude.{◌≡◌, ◌+◌, ◌<◌, ◌≤◌, ◌++◌, ◌∷◌, [], ◌==◌, length, drop, IfOk, OnOk};
ghost use Rattle.std.specs.Bool.{OnTrue, OnFalse};
ghost use Rattle.std.specs.List.{position_or_len};
ghost use Rattle.std.specs.Str.Lines.{lines, strip_carriage_return};
ghost use Rattle.vax_macro.specs.Directives.{lines_outside};
ghost use Rattle.vax_macro.specs.LineViews.{frame_lines, source_of, lines_of, Takes};

use crate::counts::one_more;
use crate::line_types::{Frame, Lines, SourceLine};
use crate::names::{behind, copied};
use crate::templates::rewritten;
use std::alloc::Global;
use vax_space::NoMemory;

/// How many bytes stand before the first line feed.
fn line_length(text: &[u8]) -> usize
    ensures value { result ≡ position_or_len (λ b. b == 10) text.now }
    ensures bound { result ≤ length text.now }
{
    for (i, byte) in text.iter().enumerate() {
        if *byte == b'\n' {
            return i;
        }
    }
    text.len()
}

/// A line without the carriage return at its end.
fn without_return(line: &[u8]) -> &[u8]
    ensures { result.now ≡ strip_carriage_return line.now }
{
    match line.last() {
        Some(b'\r') => &line[..line.len() - 1],
        _ => line,
    }
}

/// The first line of a text, and how many bytes it takes with its end.
#[tactic(auto, using(crate::proofs::Sources::line_first, crate::proofs::Sources::line_last))]
fn first_line(text: &[u8]) -> (&[u8], usize)
    requires { 0 < length text.now }
    ensures lines { lines text.now ≡ result.0.now ∷ lines (drop result.1 text.now) }
    ensures bound { result.1 ≤ length text.now }
    ensures goes { 0 < result.1 }
{
    let end = line_length(text);
    if end < text.len() {
        (without_return(&text[..end]), end + 1)
    } else {
        (text, text.len())
    }
}

impl Frame {
    /// Whether a line is left. At the end of a copy the next one begins.
    #[tactic(auto, using(crate::proofs::Frames::rewound, crate::proofs::Frames::other_texts, crate::proofs::Frames::spent, crate::proofs::Frames::bare))]
    fn rewind(&mut self) -> bool
        ensures same { frame_lines self.new ≡ frame_lines self.old }
        ensures left { OnTrue result (self.new.at < length self.new.template.value.lines.items) }
        ensures none { OnFalse result (frame_lines self.old ≡ []) }
        ensures depth { self.new.depth ≡ self.old.depth }
    {
        if self.at < self.template.lines.len() {
            return true;
        }
        if self.template.lines.is_empty() {
            return false;
        }
        if self.copies > 0 {
            self.copies -= 1;
            self.at = 0;
            return true;
        }
        match self.others.pop_front() {
            Some(texts) => {
                self.texts = texts;
                self.at = 0;
                true
            }
            None => false,
        }
    }

    /// The next line of the expansion.
    #[tactic(auto, using(crate::proofs::Frames::stepped))]
    fn next(&mut self, alloc: Global) -> Result<Option<SourceLine>, NoMemory>
        ensures { IfOk result (λ o. Takes (frame_lines self.old) o (frame_lines self.new)) }
    {
        if !self.rewind() {
            return Ok(None);
        }
        let text = rewritten(alloc, &self.texts, &self.template.lines[self.at])?;
        self.at += 1;
        Ok(Some(SourceLine {
            number: self.number,
            depth: self.depth,
            text,
        }))
    }
}

impl Lines {
    /// The next line of the source.
    #[tactic(auto, unfolding(crate::specs::LineViews::source_of))]
    fn next_of_source(&mut self, alloc: Global) -> Result<Option<SourceLine>, NoMemory>
        ensures takes { IfOk result (λ o. Takes (source_of self.old) o (source_of self.new)) }
        ensures frames { self.new.frames ≡ self.old.frames }
    {
        let rest = behind(&self.source, self.at);
        if rest.is_empty() {
            return Ok(None);
        }
        let (text, length) = first_line(rest);
        let text = copied(alloc, text)?;
        self.number = one_more(self.number)?;
        self.at += length;
        Ok(Some(SourceLine {
            number: self.number,
            depth: 0,
            text,
        }))
    }

    /// Puts the lines of an expansion before the others.
    #[tactic(auto, using(crate::proofs::Frames::opened), unfolding(crate::specs::LineViews::lines_of, crate::specs::LineViews::source_of))]
    pub(crate) fn open(&mut self, frame: Frame) -> Result<(), NoMemory>
        ensures { OnOk result (lines_of self.new ≡ frame_lines frame ++ lines_of self.old) }
    {
        self.frames.push_front(frame).map_err(|_| NoMemory)
    }

    /// The next line.
    #[tactic(auto, unfolding(crate::specs::LineViews::lines_of, crate::specs::LineViews::source_of))]
    pub(crate) fn next(&mut self, alloc: Global) -> Result<Option<SourceLine>, NoMemory>
        ensures { IfOk result (λ o. Takes (lines_of self.old) o (lines_of self.new)) }
    {
        while let Some(mut frame) = self.frames.pop_front() {
            let next = frame.next(alloc)?;
            if let Some(line) = next {
                self.open(frame)?;
                return Ok(Some(line));
            }
        }
        let line = self.next_of_source(alloc)?;
        Ok(line)
    }

    /// Leaves the expansions that stand in so many or more.
    #[tactic(auto, using(crate::proofs::Leaving::nothing_open), unfolding(crate::specs::LineViews::lines_of, crate::specs::LineViews::source_of))]
    pub(crate) fn leave(&mut self, depth: u32) -> Result<(), NoMemory>
        requires { 0 < depth }
        ensures { OnOk result (lines_of self.new ≡ lines_outside depth (lines_of self.old)) }
    {
        while let Some(mut frame) = self.frames.pop_front() {
            if frame.depth >= depth {
                continue;
            }
            if frame.rewind() {
                self.open(frame)?;
                return Ok(());
            }
        }
        Ok(())
    }

    /// Drops all that is to come.
    #[tactic(auto, unfolding(crate::specs::LineViews::lines_of, crate::specs::LineViews::source_of))]
    pub(crate) fn clear(&mut self)
        ensures { lines_of self.new ≡ [] }
    {
        self.at = self.source.len();
        self.frames.clear();
    }
}
