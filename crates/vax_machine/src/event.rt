//! The events of a machine.
use vax_flat::Ending;

/// What may happen to a machine.
#[derive(Clone, Copy, PartialEq, Eq)]
pub enum Event {
    /// The processor makes one attempt at a step, or at the next part of the string instruction that is open.
    Attempt,
    /// The pager serves the page that the last attempt missed.
    Serve,
    /// A page is made absent.
    Evict(u32),
    /// A modified page is written to its block.
    Flush(u32),
}

/// What an event came to.
#[derive(Clone, Copy, PartialEq, Eq)]
pub enum Applied {
    /// A step was completed; it sent this byte to the console.
    Stepped(Option<u8>),
    /// A part of a string instruction was completed, and more remains.
    Parted,
    /// The attempt needs this page, which isn't resident.
    Absent(u32),
    /// The step ended the run, or the run had ended before.
    Ended(Ending),
    /// The page was served, and this one made room for it.
    Served(Option<u32>),
    /// The page was made absent.
    Evicted,
    /// The page was written to its block.
    Flushed,
    /// No page was wanted, or the page wasn't resident, or it wasn't modified.
    Nothing,
    /// A call of the page file failed.
    Failed,
}

/// How far a run may go: up to so many steps and so many attempts in all; and whether it lists its evictions.
#[derive(Clone, Copy, PartialEq, Eq)]
pub struct Limits {
    pub steps: u64,
    pub turns: u64,
    /// Each page that is made absent gets a line in Record.
    pub listed: bool,
}

/// Why turns of a run were cut short.
#[derive(Clone, Copy, PartialEq, Eq)]
pub(crate) enum Fault {
    /// A call of the page file failed.
    Page,
    /// A write failed.
    Write,
}

/// How a run stopped.
#[derive(Clone, Copy, PartialEq, Eq)]
pub enum RunEnd {
    /// A step ended it.
    Ended(Ending),
    /// At the limit of steps.
    Steps,
    /// At the limit of attempts.
    Turns,
    /// A call of the page file failed.
    PageFault,
    /// A write failed.
    WriteFault,
}
