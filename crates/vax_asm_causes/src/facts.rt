// What the assembler knows where a fault stands.

use crate::count::instruction;
use crate::names::are_same;
use crate::statement::{
    Statement, expression_of, is_mark, is_name, number_of, operands_of, parts_of, pieces_of,
    text_between, text_of,
};
use std::alloc::Global;
use vax_dialect::Dialect;
use vax_isa::{Letter, OperandKind};
use vax_lex::Piece;
use vax_space::NoMemory;

/// An expression as it is written, with its value.
#[derive(Drop)]
pub struct KnownValue {
    pub text: Vec<u8>,
    pub value: i64,
}

/// A definition on the way from another one back to it: its name, in capitals, and the number of its line.
#[derive(Drop)]
pub struct Way {
    pub name: Vec<u8>,
    pub line: u32,
}

/// What is known of a statement: the values of expressions in it, and how far its branch would have to reach, counted from its end, or `.` to go
/// from its place; the names in it that have no value there; and where it is an assignment that comes back to itself, the other definitions on the
/// way.
#[derive(Drop)]
pub struct Facts {
    pub values: Vec<KnownValue>,
    pub reach: Option<i64>,
    pub unknown: Vec<Vec<u8>>,
    pub circle: Option<Vec<Way>>,
}

impl Facts {
    /// Nothing.
    pub fn new(alloc: Global) -> Facts {
        Facts {
            values: Vec::new(alloc),
            reach: None,
            unknown: Vec::new(alloc),
            circle: None,
        }
    }

    /// Whether a name is one of those that have no value.
    pub(crate) fn lacks(&self, name: &[u8]) -> bool {
        for unknown in self.unknown.as_slice() {
            if are_same(unknown, name) {
                return true;
            }
        }
        false
    }

    /// The value of an expression with this text.
    pub(crate) fn value(&self, text: &[u8]) -> Option<i64> {
        for known in self.values.as_slice() {
            if known.text.as_slice() == text {
                return Some(known.value);
            }
        }
        None
    }
}

/// Where a branch goes, and how many bytes it has.
#[derive(Drop)]
pub struct Branch {
    pub target: Vec<u8>,
    pub length: u32,
}

/// Whether these pieces are a register, or a place that a register points to.
fn is_by_register(operand: &[Piece]) -> bool {
    match operand {
        [name] => is_name(*name),
        [open, name, close] => is_mark(*open, b'(') && is_name(*name) && is_mark(*close, b')'),
        [open, name, close, sign] if is_mark(*open, b'(') => {
            is_name(*name) && is_mark(*close, b')') && is_mark(*sign, b'+')
        }
        [sign, open, name, close] => {
            is_mark(*sign, b'-') && is_mark(*open, b'(') && is_name(*name) && is_mark(*close, b')')
        }
        _ => false,
    }
}

/// Whether a name is that of a register.
pub(crate) fn is_register(name: &[u8]) -> bool {
    match name {
        [b'R' | b'r', b'0'..=b'9'] | [b'R' | b'r', b'1', b'0'..=b'5'] => true,
        _ => {
            are_same(name, b"AP")
                || are_same(name, b"FP")
                || are_same(name, b"SP")
                || are_same(name, b"PC")
        }
    }
}

/// How many bytes an operand has, where its text alone says so.
fn length_of(line: &[u8], operand: &[Piece], kind: OperandKind) -> Option<u32> {
    if let [sign, number] = operand {
        if is_mark(*sign, b'#') {
            let value = number_of(*number)?;
            return Some(if value < 64 {
                1
            } else {
                u32::from(kind.width) + 1
            });
        }
    }
    let all = operand.iter().all(|piece| !is_name(*piece) || is_register(text_of(line, *piece)));
    if all && is_by_register(operand) {
        return Some(1);
    }
    None
}

/// The branch that a statement's text is, if it goes to a name and its length shows.
///
/// # Errors
///
/// [`NoMemory`] where memory is refused.
pub fn branch_of(alloc: Global, dialect: Dialect, line: &[u8]) -> Result<Option<Branch>, NoMemory> {
    let pieces = pieces_of(alloc, dialect, line)?;
    let Statement {
        operator,
        operands,
        ..
    } = parts_of(&pieces);
    let Some(operator) = operator else {
        return Ok(None);
    };
    let Some(row) = instruction(text_of(line, operator)) else {
        return Ok(None);
    };
    let operands = operands_of(alloc, operands)?;
    let mut length: u32 = 1;
    for (operand, kind) in operands.iter().zip(row.operands.iter()) {
        if matches!(kind.letter, Letter::Branch) {
            return match operand {
                [name] if is_name(*name) => Ok(Some(Branch {
                    target: text_of(line, *name).to_vec(alloc).map_err(|_| NoMemory)?,
                    length: length.saturating_add(u32::from(kind.width)),
                })),
                _ => Ok(None),
            };
        }
        let Some(more) = length_of(line, operand, *kind) else {
            return Ok(None);
        };
        length = length.saturating_add(more);
    }
    Ok(None)
}

/// The texts of the expressions in a statement's text: of each operand what stands behind `#` or a prefix, and before a bracket.
///
/// # Errors
///
/// [`NoMemory`] where memory is refused.
pub fn expressions_in(
    alloc: Global,
    dialect: Dialect,
    line: &[u8],
) -> Result<Vec<Vec<u8>>, NoMemory> {
    let pieces = pieces_of(alloc, dialect, line)?;
    let operands = operands_of(alloc, parts_of(&pieces).operands)?;
    let mut all = Vec::new(alloc);
    for operand in operands {
        let text = text_between(line, expression_of(operand));
        let text = text.to_vec(alloc).map_err(|_| NoMemory)?;
        all.push(text).map_err(|_| NoMemory)?;
    }
    Ok(all)
}

/// The texts of the names in a statement's text.
///
/// # Errors
///
/// [`NoMemory`] where memory is refused.
pub fn names_of(alloc: Global, dialect: Dialect, line: &[u8]) -> Result<Vec<Vec<u8>>, NoMemory> {
    let pieces = pieces_of(alloc, dialect, line)?;
    let mut all = Vec::new(alloc);
    for piece in &pieces {
        if is_name(*piece) {
            let name = text_of(line, *piece).to_vec(alloc).map_err(|_| NoMemory)?;
            all.push(name).map_err(|_| NoMemory)?;
        }
    }
    Ok(all)
}
