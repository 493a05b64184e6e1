//! Why no vector is made.
use std::alloc::AllocError;
use thiserror::Error;
use vax_space::{NoMemory, SpaceError};

/// Why no vector is made.
#[derive(Clone, Copy, PartialEq, Eq, Debug, Error)]
pub enum NoVector {
    #[error("out of memory")]
    NoMemory,
    /// The pages are no space.
    #[error("{0}")]
    Space(SpaceError),
    /// The step touches more pages than there are, or the pages don't take their bytes.
    #[error("the step touches more pages than there are")]
    Unsettled,
}

impl From<NoMemory> for NoVector {
    fn from(_error: NoMemory) -> NoVector {
        NoVector::NoMemory
    }
}

impl From<AllocError> for NoVector {
    fn from(_error: AllocError) -> NoVector {
        NoVector::NoMemory
    }
}
