//! Why a request isn't carried out whole.

/// Why a request isn't carried out whole.
#[derive(Clone, Copy, PartialEq, Eq)]
pub enum Failure {
    /// The limit of turns was reached.
    Turns,
    /// A call of the page file failed.
    PageFault,
    /// A write failed.
    WriteFault,
}
