//! Images: linked programs, as files of two versions, and the memory and the registers with which one starts.
#![tactic(auto)]

ghost use Rattle.std.specs.Prelude.{◌≡◌};

mod fields;
mod first_version;
mod reading;
mod second_version;
mod starting;
mod texts;
mod writing;

pub use reading::{one_spelling, read};
pub use starting::start;
use std::alloc::{AllocError, AllocFailed};
use std::marker::Model;
use thiserror::Error;
use vax_space::Area;
pub use writing::{write, write2};

/// The first four bytes aren't `VAXI`.
pub const MAGIC: u8 = 1;
/// The version is neither 1 nor 2.
pub const VERSION: u8 = 2;
/// The base is neither 0 (bare) nor 1 (user).
pub const BASE: u8 = 3;
/// There are no areas, or more than 64 areas or texts.
pub const COUNT: u8 = 4;
/// An area has no page, begins before the end of the area before it, or lies outside its part of memory.
pub const AREA: u8 = 5;
/// The protection code is reserved or has more than four bits.
pub const PROTECTION: u8 = 6;
/// There are more bytes than the area's pages hold, or a text has no bytes or more than 16,777,216.
pub const LENGTH: u8 = 7;
/// The file ends inside the field.
pub const SHORT: u8 = 8;
/// Bytes stand behind the last area.
pub const REST: u8 = 9;
/// The transfer address lies in no area.
pub const TRANSFER: u8 = 10;
/// The number of a text is another than that of the one spelling of the image, or a text is used by no area.
pub const TEXT: u8 = 12;

/// The number that an area without bytes has in place of a text's.
pub const NO_TEXT: u32 = 0xFFFF_FFFF;

/// Where a program is linked to.
#[derive(Clone, Copy, PartialEq, Eq)]
pub enum Base {
    /// System space, pages 400000 to 4007FF (hexadecimal), to run in kernel mode.
    Bare,
    /// The program region, pages 1 to 7FFF, to run under an executive.
    User,
}

impl Base {
    ghost use Rattle.vax_image.specs.Image.{first_page, end_page};
    ghost use Rattle.vax_image.specs.File.{base_number};
    ghost use Rattle.std.specs.Prelude.{◌≤◌, ◌<◌};

    /// The first page that an area may have.
    pub fn first_page(self) -> u32
        ensures page { result ≡ first_page self }
        ensures within { result < end_page self }
    {
        match self {
            Base::Bare => 0x40_0000,
            Base::User => 1,
        }
    }

    /// The page behind the last that an area may have.
    pub fn end_page(self) -> u32
        ensures page { result ≡ end_page self }
        ensures few { result ≤ 0x400800 }
    {
        match self {
            Base::Bare => 0x40_0800,
            Base::User => 0x8000,
        }
    }

    /// The number that stands for it in a file.
    pub(crate) fn number(self) -> u16
        ensures { result ≡ base_number self }
    {
        match self {
            Base::Bare => 0,
            Base::User => 1,
        }
    }
}

/// A list of areas. Contracts see the list itself.
#[derive(Drop)]
pub struct Areas {
    items: Vec<Area>,
}

impl Model for Areas {
    ghost use Rattle.std.specs.Prelude.{List};
    ghost use Rattle.vax_space.specs.declared.Area.{Area};

    ghost Value = { List Area };

    ghost view = { λ a. a.items.items };
}

impl From<Vec<Area>> for Areas {
    ghost from_gives = { λ v areas. areas ≡ v.items };

    fn from(items: Vec<Area>) -> Areas {
        Areas { items }
    }
}

impl Areas {
    /// The areas, in ascending order.
    pub fn as_slice(&self) -> &[Area]
        ensures { result.now ≡ self.now }
    {
        &self.items
    }
}

/// A linked program.
#[derive(Drop)]
pub struct Image {
    pub base: Base,
    /// The address at which it begins.
    pub transfer: u32,
    /// Its areas, 1 to 64 in ascending order.
    pub areas: Areas,
}

/// Why bytes are no image.
#[derive(Clone, Copy, PartialEq, Eq, Debug, Error)]
pub enum ImageError {
    /// The first field at fault, by the offset of its first byte, and what is wrong with it, as [`MAGIC`] to [`TEXT`]
    /// number it.
    #[error("byte {place}: fault {kind}")]
    Fault { place: u32, kind: u8 },
    #[error("out of memory")]
    NoMemory,
}

impl From<AllocError> for ImageError {
    ghost use Rattle.std.specs.Prelude.{◌≡◌};
    ghost use Rattle.vax_image.specs.declared.ImageError.TheVariants as error;

    ghost from_gives = { λ _ e. e ≡ error.NoMemory };

    fn from(_error: AllocError) -> ImageError {
        ImageError::NoMemory
    }
}

impl<T: Drop> From<AllocFailed<T>> for ImageError {
    ghost use Rattle.std.specs.Prelude.{◌≡◌};
    ghost use Rattle.vax_image.specs.declared.ImageError.TheVariants as error;

    ghost from_gives = { λ _ e. e ≡ error.NoMemory };

    fn from(_error: AllocFailed<T>) -> ImageError {
        ImageError::NoMemory
    }
}
