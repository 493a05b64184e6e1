//! How several processes end.

/// How processes that run together end.
#[derive(Clone, Copy, PartialEq, Eq)]
pub enum JobsEnd {
    /// Each process has ended, or has no steps left.
    Done,
    /// The limit of attempts is reached, and some process goes on.
    Turns,
    /// A call of the page file failed.
    PageFault,
    /// A write to a channel failed.
    WriteFault,
}

/// Why a turn isn't whole.
#[derive(Clone, Copy, PartialEq, Eq)]
pub(crate) enum Fault {
    /// A call of the page file failed.
    Page,
    /// A write to a channel failed.
    Write,
}
