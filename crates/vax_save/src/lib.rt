//! A machine's state as a file: saved at the moment at which a run stopped, so that the run goes on later.
#![tactic(auto)]

mod contents;
mod cursor;
mod fault;
mod fields;
mod memory;
mod reading;
mod registers;
mod restoring;
mod saving;
mod stream;

pub use crate::restoring::restore;
pub use crate::saving::{SaveEnd, save};
use std::alloc::{AllocError, AllocFailed};
use thiserror::Error;
use vax_space::{NoMemory, SpaceError};

/// The first four bytes aren't `VAXS`.
pub const MAGIC: u8 = 1;
/// The version isn't 1, or the word behind it isn't 0.
pub const VERSION: u8 = 2;
/// More than 10^18 steps are counted.
pub const STEPS: u8 = 3;
/// In the status longword a bit that must be zero, trace, trace pending or compatibility mode is set, or first part done is wrong; the clock is above 999;
/// a software interrupt of level 0 is requested; the clock's control has another bit than 6 and 7; or a byte or an opcode that must be 0 isn't.
pub const CORE: u8 = 4;
/// The opcode is that of no string instruction, none of its units is done, more units are done than there are, or its ranges may not be used.
pub const OPEN: u8 = 5;
/// More of the input is taken than there is.
pub const INPUT: u8 = 6;
/// There are no areas or more than 256, or one is placed or protected as no area of a space.
pub const AREA: u8 = 7;
/// The file ends inside the field.
pub const SHORT: u8 = 8;
/// Bytes stand behind the last field.
pub const REST: u8 = 9;
/// A page doesn't ascend, lies in no area, or has no byte that isn't 0.
pub const PAGE: u8 = 10;

/// Why bytes are no saved state.
#[derive(Clone, Copy, PartialEq, Eq, Debug, Error)]
pub enum SaveError {
    /// The first field at fault, by the offset of its first byte, and what is wrong with it, as [`MAGIC`] to [`PAGE`]
    /// number it.
    #[error("byte {place}: fault {kind}")]
    Fault { place: u32, kind: u8 },
    #[error("out of memory")]
    NoMemory,
}

impl From<NoMemory> for SaveError {
    ghost use Rattle.std.specs.Prelude.{◌≡◌};
    ghost use Rattle.vax_save.specs.declared.SaveError.TheVariants as error;

    ghost from_gives = { λ _ e. e ≡ error.NoMemory };

    fn from(_error: NoMemory) -> SaveError {
        SaveError::NoMemory
    }
}

impl From<AllocError> for SaveError {
    ghost use Rattle.std.specs.Prelude.{◌≡◌};
    ghost use Rattle.vax_save.specs.declared.SaveError.TheVariants as error;

    ghost from_gives = { λ _ e. e ≡ error.NoMemory };

    fn from(_error: AllocError) -> SaveError {
        SaveError::NoMemory
    }
}

impl<T: Drop> From<AllocFailed<T>> for SaveError {
    ghost use Rattle.std.specs.Prelude.{◌≡◌};
    ghost use Rattle.vax_save.specs.declared.SaveError.TheVariants as error;

    ghost from_gives = { λ _ e. e ≡ error.NoMemory };

    fn from(_error: AllocFailed<T>) -> SaveError {
        SaveError::NoMemory
    }
}

/// The areas of a saved state are those of a space, so that memory alone can be wanting.
impl From<SpaceError> for SaveError {
    ghost use Rattle.std.specs.Prelude.{◌≡◌};
    ghost use Rattle.vax_save.specs.declared.SaveError.TheVariants as error;

    ghost from_gives = { λ _ e. e ≡ error.NoMemory };

    fn from(_error: SpaceError) -> SaveError {
        SaveError::NoMemory
    }
}
