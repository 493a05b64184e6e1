//! Reads a schedule line by line.
ghost use Rattle.std.specs.Prelude.{◌≡◌, ◌≤◌, IfOk, length};
ghost use Rattle.vax_sched.specs.Faults.{ArePlaced, Reads};
ghost use Rattle.vax_sched.specs.Rules.{readings};

use crate::line::line_of;
use crate::schedule::Schedule;
use std::alloc::{AllocError, Global};
use thiserror::Error;
use vax_lines::next_line;
use vax_space::Space;

/// Why a text is no schedule of a space.
#[derive(Clone, Copy, PartialEq, Eq, Debug, Error)]
pub enum SchedError {
    /// The first line with a fault, from 1, and the lowest kind of its faults. Kind 1: the line has none of the forms, or its
    /// page isn't the address of a page's first byte. Kind 2: no area of the space has the page. Kind 3: an `at` line's turn is
    /// below that of an earlier `at` line.
    #[error("schedule line {line}: fault {kind}")]
    Fault { line: u32, kind: u8 },
    #[error("out of memory")]
    NoMemory,
}

impl From<AllocError> for SchedError {
    ghost use Rattle.vax_sched.specs.declared.reader.SchedError.TheVariants.{NoMemory};

    ghost from_gives = { λ _ e. e ≡ NoMemory };

    fn from(_error: AllocError) -> SchedError {
        SchedError::NoMemory
    }
}

/// Reads a schedule of a space from at most 64 MiB of text: its lines, or its first fault.
///
/// A line ends with LF, and a CR before it is dropped; the last LF may be missing. Spaces and tabs alone, or a `;` as the first
/// byte, say nothing. The other lines are `at T PAGE`, `each N PAGE` and `each N all`, words with spaces between them and none
/// around them. T is a decimal number from 1 to 10^15 and N one from 1 to 10^9, without a leading zero. PAGE is eight
/// hexadecimal digits, capital or small.
pub fn read(alloc: Global, bytes: &[u8], space: &Space) -> Result<Schedule, SchedError>
    requires { length bytes.now ≤ 67108864 }
    ensures means { Reads space.now (readings bytes.now) result }
    ensures placed { IfOk result (λ schedule. ArePlaced space.now schedule) }
{
    let mut schedule = Schedule::new(alloc);
    let mut number = 0u32;
    let mut rest = bytes;
    while let Some((line, behind)) = next_line(rest) {
        rest = behind;
        number += 1;
        let line = line_of(line);
        if let Some(kind) = schedule.fault(&line, space) {
            return Err(SchedError::Fault { line: number, kind });
        }
        schedule = schedule.with(line)?;
    }
    Ok(schedule)
}
