//! The turns of processes.
use vax_flat::Ending;

/// What a process is to do. Processes are numbered from 0.
#[derive(Clone, Copy, PartialEq, Eq)]
pub enum Turn {
    /// It makes one attempt, and the page that this misses is served.
    Go(u8),
    /// A page of it is made absent.
    Out(u8, u32),
    /// The page of it that has been modified longest is written to its block.
    Clean(u8),
}

/// What a turn came to.
#[derive(Clone, Copy, PartialEq, Eq)]
pub enum Turned {
    /// A step was completed; it sent this byte to the console.
    Stepped(Option<u8>),
    /// A part of a string instruction was completed, and more remains.
    Parted,
    /// The attempt needed this page, which wasn't resident and is now.
    Absent(u32),
    /// The step ended the process, or it had ended before.
    Ended(Ending),
    /// The page was made absent, or written to its block.
    Moved,
    /// The page wasn't resident, or none was modified.
    Nothing,
    /// A call of the page file failed.
    Failed,
}
