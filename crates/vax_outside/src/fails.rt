//! Calls of an object in memory that are to fail.
ghost use Rattle.std.specs.Prelude.{◌≡◌};
ghost use Rattle.std.specs.List.{list_any};
ghost use Rattle.vax_outside.specs.Fails.{names_read, names_write};

/// A call that is to fail, by its number from 1.
#[derive(Clone, Copy, PartialEq, Eq)]
pub enum Fail {
    /// Among all calls of the object.
    Call(u64),
    /// Among its reads.
    Read(u64),
    /// Among its writes.
    Write(u64),
}

/// Whether a read is to fail that has these numbers among all calls and among the reads.
pub(crate) fn is_read_named(fails: &[Fail], call: u64, read: u64) -> bool
    ensures { result ≡ list_any (names_read call read) fails.now }
{
    fails.iter().any(|fail| match *fail {
        Fail::Call(n) => n == call,
        Fail::Read(n) => n == read,
        Fail::Write(_) => false,
    })
}

/// Whether a write is to fail that has these numbers among all calls and among the writes.
pub(crate) fn is_write_named(fails: &[Fail], call: u64, write: u64) -> bool
    ensures { result ≡ list_any (names_write call write) fails.now }
{
    fails.iter().any(|fail| match *fail {
        Fail::Call(n) => n == call,
        Fail::Read(_) => false,
        Fail::Write(n) => n == write,
    })
}
