//! The instruction set: the kinds of operands and the table of the instructions
//! (VAX Architecture Reference Manual, instruction set).
#![tactic(auto)]

ghost use Rattle.std.specs.Prelude.{◌≡◌, All, IfSome, IsTrue, option_map};
ghost use Rattle.vax_isa.specs.Actions.{operands_of};
ghost use Rattle.vax_isa.specs.Instructions.{instructions};
ghost use Rattle.vax_isa.specs.Rows.{action_of, plain, row_of, with_opcode, with_name, is_one_of, names_of, IsName, IsFormed};

mod actions;
mod buckets;
mod table;

pub use crate::actions::{
    AccessMode, Action, Binary, Call, Condition, Control, Field, Integer, Narrow, Queue, Relation,
    System, Text, Unary,
};

/// What an instruction does with an operand (VAX MACRO and Instruction Set Reference Manual, operand specifier notation).
#[derive(Clone, Copy, PartialEq, Eq)]
pub enum Letter {
    /// `r`: its value is read.
    Read,
    /// `m`: its value is read, and a result is written to it.
    Modify,
    /// `w`: a result is written to it.
    Write,
    /// `a`: its address is taken.
    Address,
    /// `v`: the base of a field of bits, an address or a register.
    Field,
    /// `b`: a displacement to branch by, with no specifier.
    Branch,
}

/// The kind of an operand: what is done with it, and its width of 1, 2, 4 or 8 bytes. A field's width is 1.
#[derive(Clone, Copy, PartialEq, Eq)]
pub struct OperandKind {
    pub letter: Letter,
    pub width: u8,
}

/// An instruction: its opcode, its name, and its operands, of which there are `count`. What stands in `operands` from there
/// on is a `Read` of width 0 (VAX MACRO and Instruction Set Reference Manual, instruction summary).
#[derive(Clone, Copy, PartialEq)]
pub struct Row {
    pub code: u8,
    pub name: &'static str,
    pub count: u8,
    pub operands: [OperandKind; 6],
}

/// The instruction with this opcode, None where the opcode is reserved (VAX MACRO and Instruction Set Reference Manual,
/// instruction summary). It is one look-up by index.
#[inline]
pub fn by_code(code: u8) -> Option<Row>
    ensures row { option_map plain result ≡ option_map row_of (with_opcode code) }
    ensures only { All (λ i. i.opcode ≡ code → with_opcode code ≡ Some i) instructions }
    ensures opcode { IfSome result (λ r. r.code ≡ code) }
    ensures formed { IfSome result (λ r. IsFormed (plain r)) }
{
    match &table::slots()[code as usize] {
        Some(entry) => Some(entry.row),
        None => None,
    }
}

/// What the instruction with this opcode does, None where the opcode is reserved. It is one look-up by index. The operands that it takes are those
/// of the instruction's row.
#[inline(always)]
pub fn action(code: u8) -> Option<Action>
    ensures action { result ≡ action_of code }
    ensures operands { All (λ i. operands_of i.action ≡ i.operands) instructions }
{
    match &table::slots()[code as usize] {
        Some(entry) => Some(entry.action),
        None => None,
    }
}

/// The instruction with this name, or this alias, in letters of either case; None where none has it.
pub fn by_name(name: &str) -> Option<Row>
    ensures row { option_map plain result ≡ option_map row_of (with_name name.now) }
    ensures only { All (λ i. IsTrue (is_one_of (names_of i) name.now)
        → with_name name.now ≡ Some i) instructions }
    ensures names { All (λ i. All IsName (names_of i)) instructions }
    ensures formed { IfSome result (λ r. IsFormed (plain r)) }
{
    table::named(table::slots(), buckets::candidates(name), name)
}
