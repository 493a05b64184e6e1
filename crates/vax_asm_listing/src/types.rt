// What a source leaves beside its module.

use vax_asm_first::Origin;
use vax_lex::Value;
use vax_module::{Bytes, Module};
use vax_space::Area;

/// A place in a module: a section, by its number, an offset in bytes, and whether the section is absolute, and only counts.
#[derive(Clone, Copy, PartialEq, Eq)]
pub struct Point {
    pub section: usize,
    pub offset: u32,
    pub absolute: bool,
    pub counts: bool,
}

/// A statement, and where its bytes lie: in this section of its module, from one offset up to another. In a section that only counts it
/// has no bytes: it counts from the one number to the other. An absolute section only counts, and so does an overlaid one.
#[derive(Drop)]
pub struct Row {
    pub origin: Origin,
    pub text: Bytes,
    pub section: usize,
    pub begin: u32,
    pub end: u32,
    pub absolute: bool,
    pub counts: bool,
}

/// A name of a module, which is no local label: in capitals, whether other modules may use it, and what it is worth. A name without a value
/// is another module's, or rests on one that is.
#[derive(Drop)]
pub struct Label {
    pub name: Bytes,
    pub global: bool,
    pub value: Option<Value>,
}

/// What a source leaves beside its module: its statements and its names, in their order.
#[derive(Drop)]
pub struct Notes {
    pub rows: Vec<Row>,
    pub labels: Vec<Label>,
}

/// A source's module, and what it leaves beside it.
#[derive(Drop)]
pub struct Trace {
    pub module: Module,
    pub notes: Notes,
}

/// A module of a program, as it is listed.
#[derive(Clone, Copy)]
pub struct Part<'a> {
    pub source: &'a [u8],
    pub module: &'a Module,
    pub notes: &'a Notes,
}

/// A program as it is listed.
#[derive(Clone, Copy)]
pub struct Program<'a> {
    /// Its modules, in their order.
    pub parts: &'a [Part<'a>],
    /// Where the sections of all modules lie, one module after another.
    pub places: &'a [u32],
    /// The areas of its image.
    pub areas: &'a [Area],
    /// The address at which it begins.
    pub transfer: u32,
}
