//! Reads an order line by line.
ghost use Rattle.std.specs.Prelude.{◌≡◌, ◌≤◌, ◌++◌, ◌∷◌, [], IfErr, IfOk, None, OnOk, length};
ghost use Rattle.std.specs.List.{filter_map, list_any};
ghost use Rattle.vax_order.specs.Orders.{IsFaultOf, IsOrder, Reads, default_order, is_of, kind_of, names_all, said};

use crate::line::{Line, Reading, line_of};
use std::alloc::{AllocError, AllocFailed, Global};
use std::marker::Model;
use thiserror::Error;
use vax_lines::next_line;

/// The lines of the order in which each of eight processes makes one attempt in turn, four bytes each.
const DEFAULT_LINES: &[u8; 32] = b"1 1\n2 1\n3 1\n4 1\n5 1\n6 1\n7 1\n8 1\n";

/// Why a text is no order.
#[derive(Clone, Copy, PartialEq, Eq, Debug, Error)]
pub enum OrderError {
    /// The first line with a fault, from 1, and the lowest kind of its faults. Kind 1: the line has another form. Kind 2: it names no process.
    /// Kind 3, at one past the last line: no line has a fault, and some process isn't named.
    #[error("order line {line}: fault {kind}")]
    Fault { line: u32, kind: u8 },
    #[error("out of memory")]
    NoMemory,
}

impl From<AllocError> for OrderError {
    ghost use Rattle.std.specs.Prelude.{◌≡◌};
    ghost use Rattle.vax_order.specs.declared.order.OrderError.TheVariants.{NoMemory};

    ghost from_gives = { λ _ e. e ≡ NoMemory };

    fn from(_error: AllocError) -> OrderError {
        OrderError::NoMemory
    }
}

impl<T: Drop> From<AllocFailed<T>> for OrderError {
    ghost use Rattle.std.specs.Prelude.{◌≡◌};
    ghost use Rattle.vax_order.specs.declared.order.OrderError.TheVariants.{NoMemory};

    ghost from_gives = { λ _ e. e ≡ NoMemory };

    fn from(_error: AllocFailed<T>) -> OrderError {
        OrderError::NoMemory
    }
}

/// An order. Contracts see the list of its lines.
#[derive(Drop)]
pub struct Order {
    lines: Vec<Line>,
}

impl Model for Order {
    ghost use Rattle.std.specs.Prelude.{List};
    ghost use Rattle.vax_order.specs.declared.line.Line.{Line};

    ghost Value = { List Line };

    ghost view = { λ o. o.lines.items };
}

/// Whether some line names a process.
fn names(order: &[Line], job: u8) -> bool
    ensures { result ≡ list_any (is_of job) order.now }
{
    order.iter().any(|line| line.job == job)
}

/// Whether some line names each of so many processes.
fn names_all(order: &[Line], jobs: u8) -> bool
    ensures { result ≡ names_all jobs order.now }
{
    for job in 0..jobs {
        if !names(order, job) {
            return false;
        }
    }
    true
}

/// Adds what a line says, the one with this number.
fn add(lines: &mut Vec<Line>, reading: Reading, number: u32) -> Result<(), OrderError>
    ensures good { OnOk result (kind_of reading ≡ None) }
    ensures more { OnOk result
        (lines.new.items ≡ lines.old.items ++ filter_map said (reading ∷ [])) }
    ensures fault { IfErr result (IsFaultOf number reading) }
{
    match reading {
        Reading::Silent => Ok(()),
        Reading::Says(line) => {
            lines.push(line)?;
            Ok(())
        }
        Reading::Strange => Err(OrderError::Fault {
            line: number,
            kind: 2,
        }),
        Reading::Malformed => Err(OrderError::Fault {
            line: number,
            kind: 1,
        }),
    }
}

impl Order {
    /// Reads an order of 1 to 8 processes from at most 64 MiB of text: its lines, or its first fault.
    ///
    /// A line ends with LF, and a CR before it is dropped; the last LF may be missing. Spaces and tabs alone, or a `;` as the first byte, say
    /// nothing. The other lines are `J N`, with spaces between them and none around them: J is a decimal number, 1 for the first process, and N
    /// one from 1 to 10^9, without a leading zero.
    pub fn read(alloc: Global, bytes: &[u8], jobs: u8) -> Result<Order, OrderError>
        requires few { jobs ≤ 8 }
        requires short { length bytes.now ≤ 67108864 }
        ensures means { Reads jobs bytes.now result }
        ensures proper { IfOk result (IsOrder jobs) }
    {
        let mut lines = Vec::new(alloc);
        let mut number = 0u32;
        let mut rest = bytes;
        while let Some((line, behind)) = next_line(rest) {
            rest = behind;
            number += 1;
            add(&mut lines, line_of(line, jobs), number)?;
        }
        if !names_all(&lines, jobs) {
            return Err(OrderError::Fault {
                line: number + 1,
                kind: 3,
            });
        }
        Ok(Order { lines })
    }

    /// The lines, in the text's order.
    pub fn lines(&self) -> &[Line]
        ensures { result.now ≡ self.now }
    {
        &self.lines
    }
}

/// The text of the order in which each of so many processes, at most 8, makes one attempt in turn.
#[tactic(auto, unfolding(crate::specs::Orders::default_order))]
pub fn default_order(jobs: u8) -> &'static [u8]
    requires { jobs ≤ 8 }
    ensures { result.now ≡ default_order jobs }
{
    DEFAULT_LINES.split_at(4 * jobs as usize).0
}
