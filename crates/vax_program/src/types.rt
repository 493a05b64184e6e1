// What the files of a program are, and why they are none.
use std::alloc::{AllocError, AllocFailed};
use thiserror::Error;
use vax_image::{Base, Image};
use vax_module::Module;
use vax_space::Bytes;

/// What the files of a program are.
#[derive(Drop)]
pub enum Parts {
    /// A linked program that stands alone.
    Image(Image),
    /// Sources, 1 to 8, each assembled, which are linked for a base.
    Modules { base: Base, list: Vec<Module> },
}

/// Why files are no program.
#[derive(Debug, Drop, Error)]
pub enum Refusal {
    /// The first fault of a source, by the number of its file, its line and its kind.
    #[error("source {file} line {line} fault {kind}")]
    Source { file: u8, line: u32, kind: u8 },
    /// What the linker found, by its number: 1 and 2 with a name, 5 with the address of the field.
    #[error("link fault {kind}")]
    Link { kind: u8, name: Bytes, address: u32 },
    /// The first fault of an image's or an executable's file, by the offset of its field and its kind: 1 to 12 and 20 to 34.
    #[error("image place {place} fault {kind}")]
    Image { place: u32, kind: u8 },
}

/// Why files give no program.
#[derive(Debug, Drop, Error)]
pub enum ProgramError {
    #[error("{0}")]
    Refused(Refusal),
    #[error("out of memory")]
    NoMemory,
}

impl From<AllocError> for ProgramError {
    ghost use Rattle.std.specs.Prelude.{◌≡◌};
    ghost use Rattle.vax_program.specs.declared.types.ProgramError.TheVariants as error;

    ghost from_gives = { λ _ e. e ≡ error.NoMemory };

    fn from(_error: AllocError) -> ProgramError {
        ProgramError::NoMemory
    }
}

impl<T: Drop> From<AllocFailed<T>> for ProgramError {
    ghost use Rattle.std.specs.Prelude.{◌≡◌};
    ghost use Rattle.vax_program.specs.declared.types.ProgramError.TheVariants as error;

    ghost from_gives = { λ _ e. e ≡ error.NoMemory };

    fn from(_error: AllocFailed<T>) -> ProgramError {
        ProgramError::NoMemory
    }
}
