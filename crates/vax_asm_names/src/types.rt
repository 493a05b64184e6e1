// What the table of names is built of.

ghost use Rattle.std.specs.Prelude.{◌≡◌, ◌<◌, ◌≤◌, ◌+◌, ℕ, List, Some, length};
ghost use Rattle.std.specs.Option.{ForSome};
ghost use Rattle.vax_asm_names.specs.ByName.{by_name};
ghost use Rattle.vax_asm_names.specs.Content.{names_in};
ghost use Rattle.vax_asm_names.specs.Journal.{IsSound, marked_in};
ghost use Rattle.vax_asm_names.specs.Names.{Names};

use crate::journal::Journal;
use std::collections::BTreeMap;
use thiserror::Error;

/// What has defined a name so far.
#[derive(Clone, Copy, PartialEq, Eq)]
pub enum DefinedBy {
    Nothing,
    Label,
    Assignment,
}

/// What a module says of a name to other modules.
#[derive(Clone, Copy, PartialEq, Eq)]
pub enum Linkage {
    /// Another module may define it.
    External,
    /// Other modules may use it, or one of them may define it.
    Global,
    /// The same, and where no module defines it, its value is 0.
    Weak,
}

/// A name that appeared.
#[derive(Drop)]
pub struct Name {
    /// In capitals.
    pub text: Vec<u8>,
    /// The number of the definition that a use means: the last one so far, else the first to come.
    pub definition: usize,
    pub defined_by: DefinedBy,
    /// Whether other modules may use it.
    pub global: bool,
    /// Whether another module may define it.
    pub external: bool,
    /// Whether its value is 0 where no module defines it.
    pub weak: bool,
}

/// A local label of the block.
#[derive(Clone, Copy, PartialEq, Eq)]
pub struct Local {
    /// The number of its definition.
    pub definition: usize,
    pub defined: bool,
}

/// A label is defined twice, or a name is a label and assigned to.
#[derive(Clone, Copy, Debug, PartialEq, Eq, Error)]
#[error("a name that is defined twice")]
pub struct Duplicate;

/// Why a local label can't be defined.
#[derive(Clone, Copy, Debug, PartialEq, Eq, Error)]
pub enum LabelError {
    #[error("a name that is defined twice")]
    Duplicate,
    #[error("out of memory")]
    NoMemory,
}

/// What a table of names holds.
#[derive(Drop)]
pub struct Content {
    pub(crate) numbers: BTreeMap<Vec<u8>, usize>,
    pub(crate) names: Vec<Name>,
    /// The masks of entries, as local labels of a block that no statement is in.
    pub(crate) masks: BTreeMap<Vec<u8>, Local>,
    /// The local labels of the first block of statements, and of those behind it.
    pub(crate) first_block: BTreeMap<Vec<u8>, Local>,
    pub(crate) further_blocks: Vec<BTreeMap<Vec<u8>, Local>>,
    /// The number of the current block: 0 for that of the masks, 1 for the first one of statements.
    pub(crate) block: usize,
    /// Whether another module may define a name that appears from here on.
    pub(crate) assumes_external: bool,
}

/// The names of a module so far, in the order in which they first appeared, and the local labels of each block.
///
/// A table can have a mark, to which it goes back. What can't be undone drops the mark.
#[derive(Drop)]
pub struct NameTable {
    pub(crate) content: Content,
    /// What has changed since the mark.
    pub(crate) journal: Journal,
    pub ghost in_range: { (text : List ℕ) → ForSome (by_name content.numbers text)
        (λ i. i < length content.names.items) },
    pub ghost in_block: { content.block ≤ length content.further_blocks.items + 1 },
    pub ghost sound_at_mark: { (m : Names) → marked_in journal (names_in content) ≡ Some m
        → IsSound m },
}
