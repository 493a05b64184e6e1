// Why a file is no executable that can be loaded.
ghost use Rattle.std.specs.Prelude.{◌≡◌};
ghost use Rattle.vax_elf.specs.Faults.{code_of};

use std::alloc::{AllocError, AllocFailed};
use thiserror::Error;

/// What is wrong with an executable.
#[derive(Clone, Copy, PartialEq, Eq, Debug)]
pub enum ElfFault {
    /// It isn't one of 32 bits.
    Class,
    /// Its numbers don't have their low bytes first.
    Order,
    /// Its version, or that of its header, isn't 1.
    Version,
    /// It is no executable with fixed addresses: its type isn't 2.
    Kind,
    /// It is for another machine than the VAX: the number isn't 75.
    Machine,
    /// Its header hasn't 52 bytes, or a program header hasn't 32.
    Sizes,
    /// It has no program headers, more than 64, or nothing that is loaded.
    Count,
    /// It ends inside the header, the program headers, or a segment's bytes.
    Short,
    /// It wants an interpreter, as programs with shared libraries do.
    Interpreter,
    /// A segment has more bytes in the file than in memory.
    Length,
    /// A segment's alignment is no power of two, or its address and its offset don't agree by it.
    Alignment,
    /// A segment lies outside the part of memory in which the program begins.
    Outside,
    /// A segment begins on a page of the one before it, or before that.
    Overlap,
    /// The address at which the program begins lies in no segment.
    Entry,
}

impl ElfFault {
    /// Its number, 20 to 33: those below are faults of an image's file.
    pub fn code(self) -> u8
        ensures { result ≡ code_of self }
    {
        match self {
            ElfFault::Class => 20,
            ElfFault::Order => 21,
            ElfFault::Version => 22,
            ElfFault::Kind => 23,
            ElfFault::Machine => 24,
            ElfFault::Sizes => 25,
            ElfFault::Count => 26,
            ElfFault::Short => 27,
            ElfFault::Interpreter => 28,
            ElfFault::Length => 29,
            ElfFault::Alignment => 30,
            ElfFault::Outside => 31,
            ElfFault::Overlap => 32,
            ElfFault::Entry => 33,
        }
    }
}

/// Why a file gives no image.
#[derive(Clone, Copy, PartialEq, Eq, Debug, Error)]
pub enum ElfError {
    /// The first fault, with the offset of the field at which it stands.
    #[error("byte {place}: fault {}", .kind.code())]
    Fault { place: u32, kind: ElfFault },
    #[error("out of memory")]
    NoMemory,
}

impl From<AllocError> for ElfError {
    ghost use Rattle.std.specs.Prelude.{◌≡◌};
    ghost use Rattle.vax_elf.specs.declared.faults.ElfError.TheVariants as error;

    ghost from_gives = { λ _ e. e ≡ error.NoMemory };

    fn from(_error: AllocError) -> ElfError {
        ElfError::NoMemory
    }
}

impl<T: Drop> From<AllocFailed<T>> for ElfError {
    ghost use Rattle.std.specs.Prelude.{◌≡◌};
    ghost use Rattle.vax_elf.specs.declared.faults.ElfError.TheVariants as error;

    ghost from_gives = { λ _ e. e ≡ error.NoMemory };

    fn from(_error: AllocFailed<T>) -> ElfError {
        ElfError::NoMemory
    }
}
