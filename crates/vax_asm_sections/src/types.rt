// What the sections are built of.

ghost use Rattle.std.specs.Prelude.{◌≡◌, ◌<◌, ◌≤◌, ℕ, List, length, map, unwrap_or};
ghost use Rattle.vax_asm_names.specs.ByName.{by_name};
ghost use Rattle.vax_asm_sections.specs.Numbers.{placed};

use crate::journal::Journal;
use std::collections::BTreeMap;
use thiserror::Error;

/// What a section holds, one behind another.
#[derive(Drop)]
pub enum Piece<F> {
    /// So many zero bytes.
    Zeros(u32),
    Bytes(Vec<u8>),
    /// What is filled in later.
    Field(F),
}

/// What a `.PSECT` says: the power of two to align to, whether the section may be written, whether it is absolute, and whether
/// it is overlaid.
#[derive(Clone, Copy, PartialEq, Eq)]
pub struct Attributes {
    pub align: Option<u8>,
    pub write: Option<bool>,
    pub absolute: Option<bool>,
    pub overlaid: Option<bool>,
}

/// A section that is being built.
#[derive(Drop)]
pub struct Building<F> {
    pub name: Vec<u8>,
    /// The power of two that its first `.PSECT` said, or 0.
    pub declared: u8,
    /// Whether it may be written: what its first `.PSECT` said, or true.
    pub write: bool,
    /// The power of two that it is aligned to.
    pub align: u8,
    /// Its size in bytes, at most 1,048,576.
    pub size: u32,
    pub pieces: Vec<Piece<F>>,
    /// Where the next statement goes in a section that only counts, an absolute or an overlaid one, at most 1,048,576. It has no
    /// bytes then.
    pub counter: Option<u32>,
    /// Whether it is overlaid, which an absolute one never is.
    pub overlaid: bool,
    pub ghost aligned: { align ≤ 9 },
    pub ghost short: { size ≤ 1048576 },
    pub ghost near: { unwrap_or counter 0 ≤ 1048576 },
}

/// Why a section can't be chosen or grow.
#[derive(Clone, Copy, Debug, PartialEq, Eq, Error)]
pub enum Refusal {
    /// A `.PSECT` says otherwise than the section's first.
    #[error("the section has another alignment or protection, or is absolute or overlaid where it wasn't")]
    Conflict,
    /// Data in an absolute or overlaid section.
    #[error("an absolute or overlaid section holds no data")]
    Absolute,
    /// A section would be longer than 1,048,576 bytes, or all together than 16,777,216.
    #[error("a section or a module is too long")]
    TooLong,
    /// Memory was refused.
    #[error("out of memory")]
    NoMemory,
}

/// The sections of a module while it is assembled, with the one that has no name first.
///
/// They can have a mark, to which they go back. Whatever does other than put something into the current section drops it.
#[derive(Drop)]
pub struct Layout<F> {
    pub(crate) sections: Vec<Building<F>>,
    /// The number of each section, by its name.
    pub(crate) numbers: BTreeMap<Vec<u8>, usize>,
    pub(crate) current: usize,
    pub(crate) total: u32,
    /// What was put since the mark.
    pub(crate) journal: Journal,
    pub ghost in_range: { current < length sections.items },
    pub ghost known: { (name : List ℕ) → by_name numbers name
        ≡ placed 0 name (map (λ section. section.name.items) sections.items) },
}
