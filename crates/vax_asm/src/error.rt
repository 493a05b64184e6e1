// Why a source has no module.

use thiserror::Error;
use vax_macro::FaultKind;

/// Why a source has no module.
#[derive(Clone, Copy, Debug, PartialEq, Eq, Error)]
pub enum AsmError {
    /// The first line with a fault, and of its faults the first in the order of the kinds. The line is that of the
    /// outermost call where an expansion made it.
    #[error("line {line}: {kind}")]
    Fault { line: u32, kind: FaultKind },
    /// Memory was refused.
    #[error("out of memory")]
    NoMemory,
}
