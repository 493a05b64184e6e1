//! Joins modules to an image.
//!
//! Sections of one name become one section, in the order in which the names first appear: what a module gives to it stands
//! behind what those before gave, and what is overlaid, which has no bytes, lies over that from the begin on. Each section
//! that isn't empty begins on a page of its own and is one area. A user's program begins at address 200 (hexadecimal), a
//! bare one at 80000200, where the section `$SCB` is the system control block at 80000000.
#![tactic(auto)]

ghost use Rattle.std.specs.Prelude.{◌≡◌};

mod areas;
mod fields;
mod joining;
mod layout;
mod leads;
mod names;
mod placed;
mod texts;

use crate::texts::text_of;
pub use joining::link;
pub use layout::addresses;
use std::alloc::{AllocError, AllocFailed};
use thiserror::Error;
use vax_space::Bytes;

/// Why modules have no image. Of several causes the first in this order is told.
#[derive(Debug, Drop, Error)]
pub enum LinkError {
    /// The first global name that stands before, in the order of the modules and of their lists; where there is none, the
    /// name of a second transfer address.
    #[error("{name} is defined twice", name = text_of(.0))]
    Duplicate(Bytes),
    /// The first external name that no module defines and that isn't weak, or whose definition leads back to a name that it
    /// has met.
    #[error("{name} is defined nowhere", name = text_of(.0))]
    Undefined(Bytes),
    /// A section passes the last page of its part of memory, the system control block has more than 512 bytes, or there
    /// are more than 64 sections.
    #[error("the sections have no room")]
    Pages,
    /// No module has a transfer address, or it lies in no area.
    #[error("the program has no beginning")]
    NoTransfer,
    /// The lowest address of a field whose displacement doesn't fit it.
    #[error("the field at {0:08X} doesn't reach its target")]
    Reach(u32),
    #[error("out of memory")]
    NoMemory,
}

impl From<AllocError> for LinkError {
    ghost use Rattle.std.specs.Prelude.{◌≡◌};
    ghost use Rattle.vax_link.specs.declared.LinkError.TheVariants as error;

    ghost from_gives = { λ _ e. e ≡ error.NoMemory };

    fn from(_error: AllocError) -> LinkError {
        LinkError::NoMemory
    }
}

impl<T: Drop> From<AllocFailed<T>> for LinkError {
    ghost use Rattle.std.specs.Prelude.{◌≡◌};
    ghost use Rattle.vax_link.specs.declared.LinkError.TheVariants as error;

    ghost from_gives = { λ _ e. e ≡ error.NoMemory };

    fn from(_error: AllocFailed<T>) -> LinkError {
        LinkError::NoMemory
    }
}
