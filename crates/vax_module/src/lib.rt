//! What an assembled source is: its sections, its names and its relocations.
//!
//! `vax_asm` makes a [`Module`], and `vax_link` joins modules to an image.
#![tactic(auto)]

ghost use Rattle.std.specs.Prelude.{◌≡◌};
ghost use Rattle.vax_module.specs.Formed.{width_of};

mod items;

pub use crate::items::Items;
pub use vax_lex::Value;
pub use vax_space::Bytes;

/// A part of a module that is laid out as one run of bytes.
#[derive(Drop)]
pub struct Section {
    /// Its name in capitals. The section with the empty name stands first in a module.
    pub name: Bytes,
    /// Where it begins, as a multiple of this many bytes: a power of two from 1 to 512.
    pub align: u16,
    /// Whether the program may write it.
    pub write: bool,
    /// What it holds. A field that is relocated holds 0.
    pub bytes: Bytes,
    /// How many bytes are laid from the begin of the section of this name on, over what else it has, and 0 where what this
    /// module gives to it is laid behind what others give. An overlaid section has no bytes of its own.
    pub storage: u32,
}

/// A name and what it stands for.
#[derive(Drop)]
pub struct Symbol {
    /// The name in capitals.
    pub name: Bytes,
    pub value: Value,
}

/// A name that another module may define.
#[derive(Drop)]
pub struct ExternalName {
    /// The name in capitals.
    pub name: Bytes,
    /// Whether its value is 0 where no module defines it. Any other name must be defined.
    pub weak: bool,
}

/// A field that the linker fills in, by its width and by what it holds.
#[derive(Clone, Copy, PartialEq, Eq)]
pub enum RelocKind {
    /// A signed byte with the target's value: a displacement from a register.
    Byte,
    /// A signed word with the target's value: a displacement from a register.
    Word,
    /// A longword with the target's value.
    Long,
    /// A signed byte with the distance from past the field to the target.
    RelByte,
    /// A signed word with the distance from past the field to the target.
    RelWord,
    /// A longword with the distance from past the field to the target.
    RelLong,
}

impl RelocKind {
    /// How many bytes the field has: 1, 2 or 4.
    pub fn width(self) -> u8
        ensures { result ≡ width_of self }
    {
        match self {
            RelocKind::Byte | RelocKind::RelByte => 1,
            RelocKind::Word | RelocKind::RelWord => 2,
            RelocKind::Long | RelocKind::RelLong => 4,
        }
    }
}

/// A field of a section that the linker fills in.
#[derive(Clone, Copy, PartialEq, Eq)]
pub struct Reloc {
    /// The number of its section in the module's list.
    pub section: u32,
    /// Its first byte's place in the section.
    pub offset: u32,
    pub kind: RelocKind,
    pub target: Value,
}

/// An assembled source. A section's number is its place in `sections`, an external's index its place in `externals`.
#[derive(Drop)]
pub struct Module {
    /// The section with the empty name, and the others in the order in which their names first appear.
    pub sections: Items<Section>,
    /// The names that other modules may use, in the order in which they first appear.
    pub globals: Items<Symbol>,
    /// The names that nothing here defines, in the order in which they first appear.
    pub externals: Items<ExternalName>,
    /// In the order of section and offset.
    pub relocs: Items<Reloc>,
    /// The name that `.END` gives, at which the program begins.
    pub transfer: Option<Symbol>,
}
