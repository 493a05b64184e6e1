//! What a transaction logs.
ghost use Rattle.std.specs.Prelude.{◌≡◌};

/// What an entry puts back.
#[derive(Clone, Copy, PartialEq, Eq)]
pub(crate) enum Kept {
    Register,
    Stack,
    Requests,
    Timer,
    Taken,
    Sent,
    Bytes,
}

/// An old value, and where it was. It has 16 bytes without holes, and is all zero by default, so that a log is made by one fill.
#[derive(Clone, Copy, PartialEq, Eq)]
pub(crate) struct Entry {
    pub(crate) old: u64,
    /// The address of bytes.
    pub(crate) addr: u32,
    /// The number of a register or of a stack, or how many bytes.
    pub(crate) number: u8,
    /// The access mode in which bytes were written.
    pub(crate) mode: u8,
    pub(crate) kept: Kept,
    pub(crate) spare: u8,
}

const _: () = prove!(std::mem::size_of::<Entry>() == 16);

impl Default for Entry {
    #[inline]
    fn default() -> Entry {
        Entry {
            old: 0,
            addr: 0,
            number: 0,
            mode: 0,
            kept: Kept::Register,
            spare: 0,
        }
    }
}

impl Entry {
    /// An entry of a value that isn't bytes.
    #[inline]
    pub(crate) fn of(kept: Kept, number: u8, old: u64) -> Entry
        ensures { result
            ≡ record { old = old; addr = 0; number = number; mode = 0; kept = kept; spare = 0 } }
    {
        Entry {
            old,
            addr: 0,
            number,
            mode: 0,
            kept,
            spare: 0,
        }
    }
}
