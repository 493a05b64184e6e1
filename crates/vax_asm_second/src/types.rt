// What filling in gives, and what a field holds.

use thiserror::Error;
use vax_asm_first::Origin;
use vax_asm_scope::Scope;
use vax_lex::Value;
use vax_macro::FaultKind;
use vax_module::{Reloc, RelocKind, Section};
use vax_space::NoMemory;

/// A fault, and the statement that has it.
#[derive(Clone, Copy, Debug, PartialEq, Eq, Error)]
#[error("{kind}")]
pub struct Fault {
    pub origin: Origin,
    pub kind: FaultKind,
}

/// Why a source is no module.
#[derive(Clone, Copy, Debug, PartialEq, Eq, Error)]
pub enum FillError {
    /// The fault that goes before all others.
    #[error("{0}")]
    Fault(Fault),
    #[error("out of memory")]
    NoMemory,
}

impl From<NoMemory> for FillError {
    ghost use Rattle.std.specs.Prelude.{◌≡◌};
    ghost use Rattle.vax_asm_second.specs.declared.types.FillError.TheVariants as error;

    ghost from_gives = { λ _ e. e ≡ error.NoMemory };

    fn from(_error: NoMemory) -> FillError {
        FillError::NoMemory
    }
}

/// What the linker fills in.
#[derive(Clone, Copy, PartialEq, Eq)]
pub(crate) struct Link {
    pub(crate) kind: RelocKind,
    pub(crate) target: Value,
}

/// What a field holds: a number, and what the linker fills in, if it does.
#[derive(Clone, Copy, PartialEq, Eq)]
pub(crate) struct Held {
    pub(crate) number: u64,
    pub(crate) link: Option<Link>,
}

/// What the source leaves once all of it is read: the names and their definitions, and how many sections and externals the
/// module has.
#[derive(Clone, Copy)]
pub(crate) struct Known<'a> {
    pub(crate) scope: &'a Scope,
    pub(crate) sections: usize,
    pub(crate) externals: usize,
}

/// What sections have beside their bytes so far: the relocations, and the first fault.
#[derive(Drop)]
pub(crate) struct Found {
    pub(crate) relocs: Vec<Reloc>,
    pub(crate) fault: Option<Fault>,
}

/// The sections of the module, and all relocations in them.
#[derive(Drop)]
pub(crate) struct Laid {
    pub(crate) sections: Vec<Section>,
    pub(crate) relocs: Vec<Reloc>,
}
