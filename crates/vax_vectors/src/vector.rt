//! Test vectors.
use arrayvec::ArrayVec;
use vax_flat::Ending;
use vax_space::Access;
use vax_word::Core;

/// A byte of memory.
#[derive(Clone, Copy, PartialEq, Eq)]
pub struct Cell {
    pub addr: u32,
    pub byte: u8,
}

/// A page of memory: its number, which is an address shifted right by 9, and its protection code.
#[derive(Clone, Copy, PartialEq, Eq)]
pub struct Page {
    pub number: u32,
    pub prot: u8,
}

/// A range of bytes that is read or written. Addresses wrap at 32 bits.
#[derive(Drop)]
pub struct Touch {
    pub access: Access,
    pub addr: u32,
    /// What was read or written, by ascending addresses: at most a page.
    pub bytes: ArrayVec<u8, 512>,
}

/// How a step ended.
#[derive(Clone, Copy, PartialEq, Eq)]
pub enum Ends {
    /// It was completed, and sent this byte to the console.
    Step(Option<u8>),
    /// The first part of a string instruction was completed, so many units of it, and more remains.
    Part { opcode: u8, units: u32 },
    /// It needs this page, which is absent. Everything is as before.
    Absent(u32),
    /// It ends the run. Everything is as before.
    Ended(Ending),
}

/// What a step begins with. Memory has the pages of `pages` and no others. It has the bytes of `ram`, and 0 elsewhere.
#[derive(Drop)]
pub struct Start {
    pub core: Core,
    pub pages: Vec<Page>,
    /// The numbers of those of the pages that are absent.
    pub absent: Vec<u32>,
    pub ram: Vec<Cell>,
}

/// What a step leaves, and how it ended.
#[derive(Drop)]
pub struct End {
    pub core: Core,
    /// The bytes that were read or written, as they are at the end.
    pub ram: Vec<Cell>,
    /// What was read and written, in order, where a step or a part of it was completed; else nothing.
    pub touches: Vec<Touch>,
    pub ends: Ends,
}

/// A step, told whole.
#[derive(Drop)]
pub struct Vector {
    /// The instruction, as a disassembler writes it.
    pub name: Vec<u8>,
    pub start: Start,
    /// The numbers of the pages that the step touches where none is absent, each once, in the order in which it first
    /// touches them.
    pub touched: Vec<u32>,
    pub end: End,
}
