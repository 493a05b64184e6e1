//! Why a session ends before its script does.

/// Why a line wasn't carried out.
#[derive(Clone, Copy, PartialEq, Eq)]
pub(crate) enum Stopped {
    /// The limit of turns was reached.
    Turns,
    /// A call of the page file failed.
    PageFault,
    /// A write failed.
    WriteFault,
}
