// What the first pass keeps.

ghost use Rattle.std.specs.Prelude.{◌+◌, ◌<◌, ◌^◌};
ghost use Rattle.vax_asm_first.specs.Contents.{IsSound, sound_prop};

use thiserror::Error;
use vax_asm_encode::{DataKind, Operand};
use vax_asm_scope::Scope;
use vax_asm_sections::Layout;
use vax_asm_values::Expression;
use vax_dialect::Dialect;
use vax_isa::{Narrow, OperandKind};
use vax_lex::{ExprError, Value};
use vax_macro::FaultKind;

/// What a value is filled into.
#[derive(Clone, Copy, PartialEq, Eq)]
pub enum Content {
    /// An item of data of this kind, so many times.
    Data { kind: DataKind, count: u32 },
    /// An operand of this kind.
    Operand { kind: OperandKind, operand: Operand },
}

/// What it is filled with.
#[derive(Drop)]
pub enum Filling {
    /// A value that is known where it stands.
    Known(Value),
    /// An expression whose names have their values later.
    Later(Expression),
}

/// The statement that something comes from: the number of its line, and how many lines were read up to it.
#[derive(Debug, Clone, Copy, PartialEq, Eq)]
pub struct Origin {
    pub line: u32,
    pub place: u32,
}

/// A part of a section that a value is filled into once all names are known.
#[derive(Drop)]
pub struct Fixup {
    pub origin: Origin,
    /// The place of its first byte in its section.
    pub at: u32,
    pub content: Content,
    pub filling: Filling,
    // An operand may stand where it stands.
    pub ghost sound: { IsSound content } by { sound_prop content },
    // Past its field there are more addresses.
    pub ghost near: { at + 6 < 2 ^ 32 },
}

/// An assignment that has no value where it stands, with what is assigned.
#[derive(Drop)]
pub struct Assignment {
    pub origin: Origin,
    /// The number of the definition that it is.
    pub definition: usize,
    pub expression: Expression,
}

/// The name at which the program begins, in capitals, and the number of the definition that it means where it stands.
#[derive(Drop)]
pub struct Transfer {
    pub name: Vec<u8>,
    pub definition: usize,
}

/// A section that is put aside, by its name, and the number of the block of local labels that is put aside with it, if one is.
#[derive(Drop)]
pub struct Saved {
    pub section: Vec<u8>,
    pub block: Option<usize>,
}

/// What the statements so far leave.
#[derive(Drop)]
pub struct Standing {
    /// The dialect of the source.
    pub dialect: Dialect,
    /// The names and their definitions.
    pub scope: Scope,
    /// Whether their block of local labels goes on past labels and sections.
    pub keeps_block: bool,
    /// Whether an operand that is an expression alone is absolute.
    pub absolute: bool,
    /// The size of a displacement to what isn't known.
    pub displacement: Narrow,
    /// The sections.
    pub layout: Layout<Fixup>,
    /// Those that are put aside, the last one at the end.
    pub saved: Vec<Saved>,
    /// Where the program begins, once `.END` says so.
    pub transfer: Option<Transfer>,
}

/// An expression where it stands.
#[derive(Drop)]
pub struct Told {
    pub expression: Expression,
    /// Its value by what stands before it.
    pub value: Result<Value, ExprError>,
    /// The same, with the fault that it has whatever comes later in place of a value that isn't known yet.
    pub settled: Result<Value, ExprError>,
}

/// Why a statement can't be carried out.
#[derive(Clone, Copy, Debug, PartialEq, Eq, Error)]
pub enum Refused {
    /// Of the faults that it and what stands before it decide, the first in the order of the kinds.
    #[error("{0}")]
    Fault(FaultKind),
    #[error("out of memory")]
    NoMemory,
}
