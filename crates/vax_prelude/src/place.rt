// Whose line a line is.

ghost use Rattle.std.specs.Prelude.{◌≡◌, ◌≤◌, ◌+◌, length};
ghost use Rattle.vax_lines.specs.Lines.{lines};
ghost use Rattle.vax_prelude.specs.Preludes.{line_in, name_at, number_at, told_at, told_from};
ghost use Rattle.vax_prelude.specs.View.{place_seen, preludes_seen, title_seen};

use crate::types::{Prelude, Title};
use vax_lines::next_line;

/// The place of a line: one of a prelude, or one of the source behind them.
#[derive(Clone, Copy, PartialEq, Eq)]
pub enum Place<'a> {
    /// A line of the prelude with a number, from 1 on, and a name.
    Prelude {
        number: usize,
        name: &'a [u8],
        line: usize,
    },
    /// A line of the source.
    Source {
        line: usize,
    },
}

/// How many lines a text has.
fn count_lines(text: &[u8]) -> usize
    ensures { result ≡ length (lines text.now) }
{
    let mut rest = text;
    let mut count = 0;
    while let Some((_, behind)) = next_line(rest) {
        count += 1;
        rest = behind;
    }
    count
}

/// Whose line of the text that is assembled for a source a line is, counted from 1, and which line it is there.
#[tactic(auto, unfolding(crate::specs::Preludes::told_at))]
pub fn told_at<'a>(preludes: &[Prelude<'a>], line: usize) -> Place<'a>
    ensures within { line_in (place_seen result) ≤ line }
    ensures place { place_seen result ≡ told_at (preludes_seen preludes.entry.now) line }
{
    let mut left = line;
    let mut number = 1;
    for prelude in preludes {
        let count = count_lines(&prelude.text);
        if left <= count {
            return Place::Prelude {
                number,
                name: prelude.name,
                line: left,
            };
        }
        left -= count;
        number += 1;
    }
    Place::Source { line: left }
}

/// The name of the file whose line a line of the text behind a title is, and its number there.
pub fn told_in<'a>(title: Title<'a>, line: usize) -> (&'a [u8], usize)
    ensures name { result.0.now ≡ name_at (title_seen title.entry) line }
    ensures number { result.1 ≡ number_at (title_seen title.entry) line }
{
    match told_at(title.preludes, line) {
        Place::Prelude { name, line, .. } => (name, line),
        Place::Source { line } => (title.name, line),
    }
}
