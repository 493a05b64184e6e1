//! Lines of a text in memory.
ghost use Rattle.std.specs.Prelude.{◌≡◌, Some, false};
ghost use Rattle.vax_lines.specs.Lines.{lines};

use crate::line::Line;
use crate::traits::Lines;
use vax_lines::next_line;
use vax_outside::Failed;

/// The lines of a text, which tell what is still to come. No call fails.
#[derive(Clone, Copy)]
pub struct MemLines<'a> {
    text: &'a [u8],
}

impl<'a> MemLines<'a> {
    /// The lines of this text.
    pub fn new(text: &'a [u8]) -> MemLines<'a>
        ensures { result.text.now ≡ text.entry.now }
    {
        MemLines { text }
    }
}

impl<'a> Lines for MemLines<'a> {
    ghost rest = { λ m. Some (lines m.text.now) };

    ghost faults = { λ _. record { count = 0; last = false } };

    fn read_line(&mut self, line: &mut Line) -> Result<bool, Failed> {
        match next_line(self.text) {
            None => Ok(false),
            Some((next, behind)) => {
                line.hold(next);
                self.text = behind;
                Ok(true)
            }
        }
    }
}
